// The line that sums up a frame.
ghost use Rattle.std.specs.Prelude.{◌≡◌, ◌++◌, false, IfOk, OnOk};
ghost use Rattle.std.specs.Option.{option_copied};
ghost use Rattle.std.specs.List.{find, flat_map};
ghost use Rattle.pk_fields.specs.Fields.{row_of};
ghost use Rattle.pk_fields.specs.Ids.{FRAME_LEN};
ghost use Rattle.pk_tree.specs.FieldValues.{item_values};
ghost use Rattle.pk_tree.specs.Values.{is_proto};
ghost use Rattle.pk_tree.specs.declared.layer.Layer.{Layer};
ghost use Rattle.out_lines.specs.Summary.{first_value, first_in_tree, is_ip as is_ip_layer, is_ip_proto, is_told_proto, last_told, or_dash, address_in, addresses_of, protocol_of, times_of, summary_of};

use crate::headers_summary::{put_headers_address, put_headers_first, put_headers_protocol};
use crate::value_text::put_shown;
use pk_base::{NoMemory, Value};
use pk_fields::{FieldId, ids, name};
use pk_source::{Lender, Source};
use pk_text::{Slab, TextSink};
use pk_tree::{Item, Layer, Tree};
use std::alloc::Global;

/// What stands for a value that the frame doesn't have.
pub(crate) const NONE: &str = "-";

/// The line that sums up a frame, with a line feed: its number, its time from the first frame's, source, target, the last
/// protocol, and its length. The addresses are those of the first IP header, where it has them, else the first ones of
/// Ethernet; `-` stands for what the frame doesn't have.
pub fn summary_line(alloc: Global, tree: &Tree) -> Result<Vec<u8>, NoMemory>
    ensures { IfOk result (λ line. line.items ≡ summary_of tree.now) }
{
    let mut text = Slab::new(alloc);
    put_summary(&mut text, &Source::of_tree(tree))?;
    Ok(Vec::from_slice(alloc, text.text())?)
}

#[tactic(auto, unfolding(crate::specs::Summary::summary_of))]
pub(crate) fn put_summary(line: &mut Slab, source: &Source<'_>) -> Result<(), NoMemory>
    ensures { OnOk result (line.new ≡ line.old ++ summary_of source.now) }
{
    put_times(line, source)?;
    put_addresses(line, source)?;
    put_protocol(line, source)?;
    line.put_byte(b' ')?;
    put_length(line, source)?;
    line.put_byte(b'\n')
}

#[tactic(auto, unfolding(pk_fields::specs::Fields::row_of, pk_fields::specs::Table::rows))]
fn put_times(line: &mut Slab, source: &Source<'_>) -> Result<(), NoMemory>
    ensures { OnOk result (line.new ≡ line.old ++ times_of source.now) }
{
    put_first(line, source, ids::FRAME_NUMBER)?;
    line.put_byte(b' ')?;
    put_first(line, source, ids::FRAME_TIME_RELATIVE)?;
    line.put_byte(b' ')
}

#[tactic(auto, unfolding(pk_fields::specs::Fields::row_of, pk_fields::specs::Table::rows))]
fn put_addresses(line: &mut Slab, source: &Source<'_>) -> Result<(), NoMemory>
    ensures { OnOk result (line.new ≡ line.old ++ addresses_of source.now) }
{
    put_address(line, source, ids::IP_SRC, ids::IPV6_SRC, ids::ETH_SRC)?;
    line.put_text(" -> ")?;
    put_address(line, source, ids::IP_DST, ids::IPV6_DST, ids::ETH_DST)?;
    line.put_byte(b' ')
}

#[tactic(auto, unfolding(pk_fields::specs::Fields::row_of, pk_fields::specs::Table::rows))]
fn put_length(line: &mut Slab, source: &Source<'_>) -> Result<(), NoMemory>
    ensures { OnOk result (line.new
        ≡ line.old ++ or_dash (first_in_tree source.now FRAME_LEN)) }
{
    put_first(line, source, ids::FRAME_LEN)
}

/// The first value of a field.
fn put_first(line: &mut Slab, source: &Source<'_>, field: FieldId) -> Result<(), NoMemory>
    requires { is_proto (row_of field).kind ≡ false }
    ensures { OnOk result (line.new
        ≡ line.old ++ or_dash (first_in_tree source.now field)) }
{
    match source.lender() {
        Lender::Tree(tree) => put_tree_first(line, tree, field),
        Lender::Outline(outline) => put_headers_first(line, outline, field),
    }
}

#[tactic(auto, using(crate::proofs::ColumnLemmas::tree_values_of_field), unfolding(crate::specs::Summary::first_in_tree))]
fn put_tree_first(line: &mut Slab, tree: &Tree, field: FieldId) -> Result<(), NoMemory>
    requires { is_proto (row_of field).kind ≡ false }
    ensures { OnOk result (line.new
        ≡ line.old ++ or_dash (first_in_tree tree.now field)) }
{
    match first_value(tree.layers(), field) {
        Some(value) => put_shown(line, field, value),
        None => line.put_text(NONE),
    }
}

fn first_value(layers: &[Layer], field: FieldId) -> Option<&Value>
    ensures { option_copied result
        ≡ first_value (flat_map (λ (layer : Layer). item_values field layer.items) layers.now) }
{
    for layer in layers {
        if let Some(value) = first_item(layer.items.slice(), field) {
            return Some(value);
        }
    }
    None
}

fn first_item(items: &[Item], field: FieldId) -> Option<&Value>
    ensures { option_copied result ≡ first_value (item_values field items.now) }
{
    for item in items {
        if item.field == field {
            return Some(&item.value);
        }
    }
    None
}

/// An address of the first IP header, in the field of its version, else the first of the link.
fn put_address(
    line: &mut Slab,
    source: &Source<'_>,
    four: FieldId,
    six: FieldId,
    link: FieldId,
) -> Result<(), NoMemory>
    requires { is_proto (row_of link).kind ≡ false }
    ensures { OnOk result (line.new ≡ line.old ++ address_in source.now four six link) }
{
    match source.lender() {
        Lender::Tree(tree) => put_tree_address(line, tree, four, six, link),
        Lender::Outline(outline) => put_headers_address(line, outline, four, six, link),
    }
}

#[tactic(auto, unfolding(crate::specs::Summary::address_in))]
fn put_tree_address(
    line: &mut Slab,
    tree: &Tree,
    four: FieldId,
    six: FieldId,
    link: FieldId,
) -> Result<(), NoMemory>
    requires { is_proto (row_of link).kind ≡ false }
    ensures { OnOk result (line.new ≡ line.old ++ address_in tree.now four six link) }
{
    if let Some(layer) = first_ip(tree.layers()) {
        let field = if layer.proto == ids::IP { four } else { six };
        if let Some(value) = first_item(layer.items.slice(), field) {
            return put_shown(line, field, value);
        }
    }
    put_tree_first(line, tree, link)
}

fn first_ip(layers: &[Layer]) -> Option<&Layer>
    ensures { option_copied result ≡ find is_ip_layer layers.now }
{
    for layer in layers {
        if is_ip(layer.proto) {
            return Some(layer);
        }
    }
    None
}

pub(crate) fn is_ip(proto: FieldId) -> bool
    ensures { result ≡ is_ip_proto proto }
{
    proto == ids::IP || proto == ids::IPV6
}

/// The name of the last protocol.
fn put_protocol(line: &mut Slab, source: &Source<'_>) -> Result<(), NoMemory>
    ensures { OnOk result (line.new ≡ line.old ++ protocol_of source.now) }
{
    match source.lender() {
        Lender::Tree(tree) => put_tree_protocol(line, tree),
        Lender::Outline(outline) => put_headers_protocol(line, outline),
    }
}

#[tactic(auto, unfolding(crate::specs::Summary::protocol_of))]
fn put_tree_protocol(line: &mut Slab, tree: &Tree) -> Result<(), NoMemory>
    ensures { OnOk result (line.new ≡ line.old ++ protocol_of tree.now) }
{
    match last_told(tree.layers()) {
        Some(layer) => line.put_text(name(layer.proto)),
        None => line.put_text(NONE),
    }
}

fn last_told(layers: &[Layer]) -> Option<&Layer>
    ensures { option_copied result ≡ last_told layers.now }
{
    layers.iter().rev().find(|layer| is_told(layer.proto))
}

/// Data and faults are no protocols to tell.
pub(crate) fn is_told(proto: FieldId) -> bool
    ensures { result ≡ is_told_proto proto }
{
    !matches!(proto, ids::DATA | ids::WS_SHORT | ids::WS_MALFORMED)
}
