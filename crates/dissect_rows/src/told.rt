//! What is told of a frame: its layers, each as `name start+length:`, with the buffer's number before the place where that isn't 0, and
//! ` field=value` for the items that the table shows.
//!
//! - `trees`: all items, and each layer in a line of its own.
//! - `conversations`: the items that tell of fragments, conversations, and how many bytes of data there are; then ` of ` and how many
//!   conversations over UDP there are.
//! - `streams`: what segments tell of their streams; then ` of `, how many streams there are, and the front of the first one's two
//!   directions.
//! - `places`: what segments tell of their places in streams.
//! - `messages` and `rule`: which frames brought a message, and some of its items; then ` of ` and how many buffers the frame has.
//! - `asked`: all items that are there; then ` of ` and how many streams are followed.
//! - `last`: how many layers there are, and the last one's name, number among those of its name, and place.
use crate::given::fields_named;
use dissect::Dissector;
use pk_base::Span;
use pk_fields::{FieldSet, name};
use pk_tree::{Items, Layer, Tree};
use std::alloc::Global;
use tree_rows::value_text;

/// What is told of a segment's place in its stream.
pub(crate) const PLACES: &str = "tcp.stream,tcp.seq,tcp.ack,tcp.lost";

/// The fields that a table shows.
fn shown_in(check: &str) -> Option<FieldSet> {
    match check {
        "conversations" => fields_named(
            "ip.fragment,ip.reassembled.length,ip.fragment.error,udp.stream,data.len",
        ),
        "streams" => fields_named(PLACES),
        "messages" | "rule" => fields_named(
            "tcp.segment,http.request.uri,http.response.code,http.file_data,dns.length,dns.id",
        ),
        _ => Some(FieldSet::all()),
    }
}

fn push_place(alloc: Global, text: &mut String, span: Span) -> Option<()> {
    let place = if span.buffer == 0 {
        format!(in alloc; " {}+{}", span.start, span.len).ok()?
    } else {
        format!(in alloc; " {}:{}+{}", span.buffer, span.start, span.len).ok()?
    };
    text.push_str(&place).ok()
}

fn push_items(alloc: Global, text: &mut String, items: &Items, shown: &FieldSet) -> Option<()> {
    for item in items.slice() {
        if shown.contains(item.field) {
            text.push_str(" ").ok()?;
            text.push_str(name(item.field)).ok()?;
            let value = value_text(alloc, &item.value).ok()?;
            text.push_str(&value).ok()?;
        }
    }
    Some(())
}

fn push_layers(
    alloc: Global,
    text: &mut String,
    layers: &[Layer],
    shown: &FieldSet,
    end: &str,
) -> Option<()> {
    for layer in layers {
        text.push_str(name(layer.proto)).ok()?;
        push_place(alloc, text, layer.span)?;
        text.push_str(":").ok()?;
        push_items(alloc, text, &layer.items, shown)?;
        text.push_str(end).ok()?;
    }
    Some(())
}

fn push_count(alloc: Global, text: &mut String, count: u32) -> Option<()> {
    let count = format!(in alloc; "of {count}").ok()?;
    text.push_str(&count).ok()
}

/// Adds how many streams there are, and the bytes of the first one's directions.
fn push_streams(alloc: Global, text: &mut String, dissector: &Dissector) -> Option<()> {
    let streams = dissector.streams();
    push_count(alloc, text, streams.count())?;
    if streams.count() > 0 {
        let there = str::from_utf8(streams.front(0, 0)).ok()?;
        let back = str::from_utf8(streams.front(0, 1)).ok()?;
        let fronts = format!(in alloc; " \"{there}\" \"{back}\"").ok()?;
        text.push_str(&fronts).ok()?;
    }
    Some(())
}

/// Adds what a table tells behind the layers.
fn push_end(
    alloc: Global,
    text: &mut String,
    check: &str,
    tree: &Tree,
    dissector: &Dissector,
) -> Option<()> {
    match check {
        "conversations" => push_count(alloc, text, dissector.udp_count()),
        "streams" => push_streams(alloc, text, dissector),
        "messages" | "rule" => push_count(alloc, text, tree.buffers().count()),
        "asked" => push_count(alloc, text, dissector.streams().count()),
        _ => Some(()),
    }
}

fn push_last(alloc: Global, text: &mut String, layers: &[Layer]) -> Option<()> {
    let layer = layers.last()?;
    let count = layers.len();
    let name = name(layer.proto);
    let last = format!(in alloc; "{count} {name} {}", layer.nth).ok()?;
    text.push_str(&last).ok()?;
    push_place(alloc, text, layer.span)
}

fn push_tree(
    alloc: Global,
    text: &mut String,
    check: &str,
    tree: &Tree,
    dissector: &Dissector,
) -> Option<()> {
    if check == "last" {
        return push_last(alloc, text, tree.layers());
    }
    let shown = shown_in(check)?;
    let end = if check == "trees" { "\n" } else { " " };
    push_layers(alloc, text, tree.layers(), &shown, end)?;
    push_end(alloc, text, check, tree, dissector)
}

/// Whether of a frame is told what is wanted; nothing where that can't be told.
pub(crate) fn tells(
    alloc: Global,
    check: &str,
    tree: &Tree,
    dissector: &Dissector,
    wanted: &str,
) -> Option<bool> {
    let mut text = String::new(alloc);
    push_tree(alloc, &mut text, check, tree, dissector)?;
    Some(text.as_str().trim_end() == wanted)
}
