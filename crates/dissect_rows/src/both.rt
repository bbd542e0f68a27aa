//! Frames that are taken both ways: by their headers, where these answer for them, and into trees.
//!
//! - `heads`: the first line tells what the row shows. It is read for the values of all fields of headers but `UNTOLD`, for these without
//!   segments' places in streams, and for trees of the latter.
//! - `named`: the first line names the fields for whose values the row is read.
//! - `fed`: the same, by a dissector that takes segments into their streams before it knows whether headers answer.
//!
//! Frames are given as in the other tables. Behind `->` stands by what a dissector takes the frame that asks headers first: `headers`,
//! `tree` where they don't answer, or `either` where they don't yet. Another one takes each frame into a tree. A row holds where each
//! frame is taken so, and both tell the same values of each field of headers.
ghost use Rattle.std.specs.Prelude.{◌≡◌, ◌+◌, ◌-◌, ◌*◌, ◌≤◌, ◌<◌, true, length, IfSome, OnSome};
ghost use Rattle.capture_read.specs.FrameList.{IsTime};
ghost use Rattle.pk_source.specs.Outlines.{IsOutline, outlined};
ghost use Rattle.dissect_rows.specs.Alike.{AreAlike};
ghost use Rattle.dissect_rows.specs.Pairs.{HasTaken};

use crate::alike::{are_alike, fields_but};
use crate::captures::{give_up_tree, no_rules};
use crate::given::{add_named, fields_named, frame_of};
use crate::told::PLACES;
use capture_read::Frame;
use dissect::{Dissector, Heads, TakenBy};
use pk_fields::FieldSet;
use pk_source::Source;
use pk_tree::Tree;
use std::alloc::Global;

/// What headers don't answer for: single options of TCP, and frames whose bytes a message has.
const UNTOLD: &str =
    "tcp.option_kind,tcp.option_len,tcp.options.mss_val,tcp.options.wscale.shift,tcp.options.sack_perm,tcp.options.sack_le,tcp.options.sack_re,tcp.options.timestamp.tsval,tcp.options.timestamp.tsecr,tcp.options.bad,tcp.segment";

/// By what a frame is taken.
#[derive(Clone, Copy)]
enum Way {
    Headers,
    Tree,
    Either,
}

fn way_named(name: &str) -> Option<Way> {
    match name {
        "headers" => Some(Way::Headers),
        "tree" => Some(Way::Tree),
        "either" => Some(Way::Either),
        _ => None,
    }
}

/// Whether a frame that its headers answer for, or don't, is taken this way.
fn is_taken(way: Way, by_headers: bool) -> bool {
    match way {
        Way::Headers => by_headers,
        Way::Tree => !by_headers,
        Way::Either => true,
    }
}

/// A dissector that takes plain frames by their headers, and one that makes a tree of each frame.
struct Pair {
    purpose: Purpose,
    plain: Dissector,
    heads: Heads,
    trees: Dissector,
}

impl Drop for Pair {
    fn drop(self) {
        let Pair {
            purpose: _,
            plain: _plain,
            heads: _heads,
            trees: _trees,
        } = self;
    }
}

/// What dissectors are made for.
#[derive(Clone, Copy)]
enum Purpose {
    Values,
    Trees,
    /// Values, where segments may be taken into their streams.
    Fed,
}

fn dissector_for(alloc: Global, purpose: Purpose, wanted: FieldSet) -> Dissector
    ensures { HasTaken 0 result }
{
    match purpose {
        Purpose::Values | Purpose::Fed => Dissector::for_values(alloc, no_rules(alloc), wanted),
        Purpose::Trees => Dissector::for_fields(alloc, no_rules(alloc), wanted),
    }
}

fn pair_for(alloc: Global, purpose: Purpose, wanted: FieldSet) -> Pair
    ensures plain { HasTaken 0 result.plain }
    ensures trees { HasTaken 0 result.trees }
{
    Pair {
        purpose,
        plain: dissector_for(alloc, purpose, wanted),
        heads: Heads::none(alloc),
        trees: dissector_for(alloc, purpose, wanted),
    }
}

impl Pair {
    /// Takes the next frame both ways: whether it is taken so, and both tell its headers' fields alike.
    fn take(&mut self, alloc: Global, frame: &Frame, way: Way) -> Option<bool>
        requires number { 0 < frame.now.number }
        requires time { IfSome frame.now.time IsTime }
        requires few { frame.now.number < 100 }
        requires plain { HasTaken (frame.now.number - 1) self.old.plain }
        requires trees { HasTaken (frame.now.number - 1) self.old.trees }
        ensures plain { OnSome result (HasTaken frame.now.number self.new.plain) }
        ensures trees { OnSome result (HasTaken frame.now.number self.new.trees) }
    {
        if frame.bytes.bytes().len() > 1_000 {
            return None;
        }
        let tree = self.trees.take(frame).ok()?;
        let told = match self.purpose {
            Purpose::Values | Purpose::Trees => {
                take_beside(alloc, &mut self.plain, &mut self.heads, frame, way, &tree)
            }
            Purpose::Fed => feed_beside(alloc, &mut self.plain, &mut self.heads, frame, way, &tree),
        };
        give_up_tree(tree);
        told
    }
}

/// Takes a frame by its headers, where they answer for it, and else into a tree: whether its headers' fields are told as by a tree;
/// nothing where it isn't taken this way.
fn take_beside(
    alloc: Global,
    dissector: &mut Dissector,
    heads: &mut Heads,
    frame: &Frame,
    way: Way,
    tree: &Tree,
) -> Option<bool>
    requires number { frame.now.number ≡ dissector.old.taken + 1 }
    requires time { IfSome frame.now.time IsTime }
    requires captured { dissector.old.captured + length frame.now.bytes ≤ 1000 * frame.now.number }
    requires few { frame.now.number < 100 }
    ensures { OnSome result (HasTaken frame.now.number dissector.new) }
{
    let by_headers = dissector.take_plain(frame, heads).ok()?;
    if !is_taken(way, by_headers) {
        return None;
    }
    if by_headers {
        are_headers_alike(alloc, dissector, heads, frame, tree)
    } else {
        are_trees_alike(alloc, dissector, frame, tree)
    }
}

/// As `take_beside`, where a frame's segment may be taken into its stream.
fn feed_beside(
    alloc: Global,
    dissector: &mut Dissector,
    heads: &mut Heads,
    frame: &Frame,
    way: Way,
    tree: &Tree,
) -> Option<bool>
    requires number { frame.now.number ≡ dissector.old.taken + 1 }
    requires time { IfSome frame.now.time IsTime }
    requires captured { dissector.old.captured + length frame.now.bytes ≤ 1000 * frame.now.number }
    requires few { frame.now.number < 100 }
    ensures { OnSome result (HasTaken frame.now.number dissector.new) }
{
    match dissector.take_fed(frame, heads).ok()? {
        Some(TakenBy::Headers) if is_taken(way, true) => {
            are_headers_alike(alloc, dissector, heads, frame, tree)
        }
        Some(TakenBy::Headers) => None,
        Some(TakenBy::Tree(own)) => {
            let alike = are_alike(alloc, &Source::of_tree(&own), &Source::of_tree(tree));
            give_up_tree(own);
            if is_taken(way, false) {
                alike.ok()
            } else {
                None
            }
        }
        None if is_taken(way, false) => are_trees_alike(alloc, dissector, frame, tree),
        None => None,
    }
}

/// Whether the headers of the plain frame that was taken last tell their fields as a tree does.
fn are_headers_alike(
    alloc: Global,
    dissector: &Dissector,
    heads: &Heads,
    frame: &Frame,
    tree: &Tree,
) -> Option<bool>
    requires { IsOutline frame.now.bytes dissector.now.wanted heads.now.headers heads.now.notes }
    ensures { IfSome result (λ alike. alike ≡ true
        → AreAlike (outlined frame.now.bytes dissector.now.wanted heads.now.headers heads.now.notes) tree.now) }
{
    let outline = dissector.outline(frame, heads);
    are_alike(alloc, &Source::of_outline(&outline), &Source::of_tree(tree)).ok()
}

/// Takes a frame into a tree: whether that tells headers' fields as another does.
fn are_trees_alike(
    alloc: Global,
    dissector: &mut Dissector,
    frame: &Frame,
    tree: &Tree,
) -> Option<bool>
    requires number { frame.now.number ≡ dissector.old.taken + 1 }
    requires time { IfSome frame.now.time IsTime }
    requires captured { dissector.old.captured + length frame.now.bytes ≤ 1000 * frame.now.number }
    requires few { frame.now.number < 100 }
    ensures { OnSome result (HasTaken frame.now.number dissector.new) }
{
    let own = dissector.take(frame).ok()?;
    let alike = are_alike(alloc, &Source::of_tree(&own), &Source::of_tree(tree));
    give_up_tree(own);
    alike.ok()
}

/// Takes a frame that is given, with this number.
fn take_given(alloc: Global, pair: &mut Pair, number: u32, block: &str) -> Option<bool>
    requires number { 0 < number }
    requires few { number < 100 }
    requires plain { HasTaken (number - 1) pair.old.plain }
    requires trees { HasTaken (number - 1) pair.old.trees }
    ensures plain { OnSome result (HasTaken number pair.new.plain) }
    ensures trees { OnSome result (HasTaken number pair.new.trees) }
{
    let (given, way) = block.split_once("->")?;
    let way = way_named(way.trim())?;
    let frame = frame_of(alloc, number, given)?;
    pair.take(alloc, &frame, way)
}

/// Takes frames one after the other.
fn take_all(alloc: Global, pair: &mut Pair, frames: &str) -> Option<bool>
    requires plain { HasTaken 0 pair.old.plain }
    requires trees { HasTaken 0 pair.old.trees }
{
    let mut number = 0;
    for block in frames.split("\n> ") {
        if number >= 90 {
            return None;
        }
        number += 1;
        if !take_given(alloc, pair, number, block)? {
            return Some(false);
        }
    }
    Some(true)
}

fn give_up_pair(_pair: Pair) {}

/// Whether a pair for these fields takes frames so, and tells their headers' fields alike.
fn holds_for(alloc: Global, purpose: Purpose, wanted: FieldSet, frames: &str) -> Option<bool> {
    let mut pair = pair_for(alloc, purpose, wanted);
    let holds = take_all(alloc, &mut pair, frames);
    give_up_pair(pair);
    holds
}

fn holds_for_heads(alloc: Global, frames: &str) -> Option<bool> {
    let mut left_out = fields_named(UNTOLD)?;
    let told = fields_but(&left_out);
    add_named(&mut left_out, PLACES)?;
    let placeless = fields_but(&left_out);
    Some(
        holds_for(alloc, Purpose::Values, told, frames)?
            && holds_for(alloc, Purpose::Values, placeless, frames)?
            && holds_for(alloc, Purpose::Trees, placeless, frames)?,
    )
}

/// Whether a row of one of these tables holds; nothing where it can't be read.
pub(crate) fn is_told_alike(alloc: Global, check: &str, row: &str) -> Option<bool> {
    let (title, frames) = row.split_once("\n> ")?;
    match check {
        "named" => holds_for(alloc, Purpose::Values, fields_named(title)?, frames),
        "fed" => holds_for(alloc, Purpose::Fed, fields_named(title)?, frames),
        _ => holds_for_heads(alloc, frames),
    }
}
