//! What is told of a capture as a whole: links of frames to later ones, and tables of statistics.
//!
//! A row is what it shows, and the trees of frames 1, 2, .., each behind a line `--`. Links are wanted as the frame, the layer's place, and what
//! the link adds to the layer's line, behind a line `links`.
ghost use Rattle.std.specs.Prelude.{ℕ, suc, OnOk};
ghost use Rattle.cap_stats.specs.Few.{HasFew};

use crate::lines::{is_text, tree_of};
use cap_stats::{StatKind, Stats};
use pk_fields::{FieldSet, by_name, ids};
use pk_tree::Layer;
use second_pass::{Links, add_fields};
use std::alloc::Global;
use tree_rows::{Places, Unread, layers_text};

fn note_trees(alloc: Global, links: &mut Links, trees: &str) -> Result<(), Unread> {
    let mut frame: u32 = 0;
    for layers in trees.split("\n--\n").skip(1) {
        frame = frame.saturating_add(1);
        let tree = tree_of(alloc, layers)?;
        links.note(frame, &tree)?;
    }
    Ok(())
}

/// Adds a line for each layer that is another than before.
fn push_added(
    alloc: Global,
    found: &mut String,
    frame: u32,
    before: &str,
    layers: &[Layer],
) -> Result<(), Unread> {
    let text = layers_text(alloc, layers, Places::Hidden)?;
    let mut lines = before.lines();
    for (place, line) in text.as_str().lines().enumerate() {
        let added = line
            .strip_prefix(lines.next().unwrap_or(""))
            .unwrap_or(line);
        if !added.is_empty() {
            let link = format!(in alloc; "\n{frame} {place}{added}")?;
            found.push_str(&link)?;
        }
    }
    Ok(())
}

fn push_links(
    alloc: Global,
    found: &mut String,
    links: &Links,
    frame: u32,
    layers: &str,
) -> Result<(), Unread> {
    let mut tree = tree_of(alloc, layers)?;
    links.forward(frame, &mut tree)?;
    push_added(alloc, found, frame, layers, tree.layers())
}

fn push_all(alloc: Global, found: &mut String, links: &Links, trees: &str) -> Result<(), Unread> {
    let mut frame: u32 = 0;
    for layers in trees.split("\n--\n").skip(1) {
        frame = frame.saturating_add(1);
        push_links(alloc, found, links, frame, layers)?;
    }
    Ok(())
}

/// Whether the links that frames get are these.
fn gets_links(alloc: Global, links: &Links, trees: &str, wanted: &str) -> Result<bool, Unread> {
    let mut found = String::from_str(alloc, "links")?;
    push_all(alloc, &mut found, links, trees)?;
    Ok(found.as_str() == wanted)
}

pub(crate) fn are_linked(alloc: Global, trees: &str, wanted: &str) -> Result<bool, Unread> {
    let mut links = Links::new(alloc);
    match note_trees(alloc, &mut links, trees) {
        Ok(()) => gets_links(alloc, &links, trees, wanted),
        Err(error) => Err(error),
    }
}

/// Whether a field is one of those that links need.
pub(crate) fn is_link_field(name: &str, wanted: &str) -> bool {
    let mut set = FieldSet::none();
    set.add(ids::UDP_STREAM);
    add_fields(&mut set);
    match (by_name(name), wanted) {
        (Some(field), "needed") => set.contains(field),
        (Some(field), "not needed") => !set.contains(field),
        _ => false,
    }
}

fn kind_of(name: &str) -> Option<StatKind> {
    match name {
        "conv tcp" => Some(StatKind::ConvTcp),
        "conv ip" => Some(StatKind::ConvIp),
        "phs" => Some(StatKind::Phs),
        _ => None,
    }
}

fn note(alloc: Global, stats: &mut Stats, layers: &str) -> Result<(), Unread>
    requires { HasFew 100 stats.old }
    ensures { OnOk result ((most : ℕ) → HasFew most stats.old → HasFew (suc most) stats.new) }
{
    let tree = tree_of(alloc, layers)?;
    stats.note(&tree)?;
    Ok(())
}

/// Notes trees, a hundred at most.
fn note_all(alloc: Global, stats: &mut Stats, trees: &str) -> Result<(), Unread>
    requires { HasFew 0 stats.old }
{
    let mut count: usize = 0;
    for layers in trees.split("\n--\n").skip(1) {
        if count == 100 {
            return Err(Unread::Line);
        }
        note(alloc, stats, layers)?;
        count += 1;
    }
    Ok(())
}

fn has_table(alloc: Global, stats: &mut Stats, trees: &str, wanted: &str) -> Result<bool, Unread>
    requires { HasFew 0 stats.old }
{
    note_all(alloc, stats, trees)?;
    let table = stats.table()?;
    Ok(is_text(&table, wanted))
}

pub(crate) fn is_table(
    alloc: Global,
    kind: &str,
    trees: &str,
    wanted: &str,
) -> Result<bool, Unread> {
    match kind_of(kind) {
        Some(kind) => {
            let mut stats = Stats::new(alloc, kind);
            has_table(alloc, &mut stats, trees, wanted)
        }
        None => Err(Unread::Line),
    }
}
