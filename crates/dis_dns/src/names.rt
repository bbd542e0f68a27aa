ghost use Rattle.dis_dns.specs.Chains.{AreChainEnds, moved_to};
ghost use Rattle.std.specs.Prelude.{◌≡◌, ℕ, ◌+◌, ◌-◌, ◌*◌, ◌<◌, ◌≤◌, ◌^◌, true, [], length, slice_index, IfOk, OnOk};
ghost use Rattle.dis_dns.specs.Names.{EndsIn, IsWalkIn, TurnFits, after_or, dotted, label_turn, left_by, name_at, pointer_turn, target_at, turn_of};

use pk_base::{LABEL_LIMIT, NAME_LIMIT};
use std::alloc::AllocError;

/// What joins the labels of a name.
const DOT: u8 = b'.';
/// The least byte that begins a pointer.
pub(crate) const POINTER: usize = 192;
/// More turns than a name takes: each label makes it longer, and between two labels lies at most one chain of pointers.
const NAME_TURNS: usize = 256;

/// How a name ends.
#[derive(Clone, Copy)]
pub(crate) enum NameEnd {
    /// It is one, and ends before this place.
    Name(usize),
    /// Its first run goes past its end.
    Leaves,
    /// It is none for another reason.
    Fails,
}

/// The place that a name's reading has come to.
#[derive(Clone, Copy)]
pub(crate) struct Walk {
    /// Where the run begins.
    start: usize,
    /// What the run may not go past.
    limit: usize,
    place: usize,
    /// The bytes of the labels so far, with their lengths.
    size: usize,
    /// The place behind the first run, once that is read.
    after: Option<usize>,
}

/// What stands at a place in a name.
#[derive(Clone, Copy)]
pub(crate) enum Turn {
    /// A label of so many bytes, and what follows it.
    Label(usize, Walk),
    /// A pointer to another run.
    Jump(Walk),
    /// The end.
    Over(NameEnd),
}

/// Reads the name at a place of a message, whose first run may not go past `end`. `text` has its labels then, joined by
/// dots, where it is `shown`.
pub(crate) fn read_name(
    bytes: &[u8],
    chain_ends: &[u16],
    end: usize,
    place: usize,
    shown: bool,
    text: &mut Vec<u8>,
) -> Result<NameEnd, AllocError>
    requires chains { AreChainEnds bytes.now chain_ends.now }
    requires end { end ≤ length bytes.now }
    requires place { place < 2 ^ 40 }
    requires none { text.old.items ≡ [] }
    ensures value { IfOk result (λ name. name ≡ (name_at bytes.now end place).0) }
    ensures text { OnOk result (shown ≡ true → text.new.items ≡ (name_at bytes.now end place).1) }
    ensures bound { IfOk result (EndsIn place (length bytes.now)) }
{
    let mut walk = Walk {
        start: place,
        limit: end,
        place,
        size: 0,
        after: None,
    };
    for _turn in 0..NAME_TURNS {
        match next_turn(bytes, walk) {
            Turn::Label(len, next) => {
                let label = &bytes[walk.place + 1..walk.place + 1 + len];
                push_label(text, label, shown)?;
                walk = next;
            }
            Turn::Jump(next) => walk = at_chain_end(chain_ends, next),
            Turn::Over(name) => return Ok(name),
        }
    }
    Ok(NameEnd::Fails)
}

/// A walk at the end of the chain that begins at its place, where a pointer led it.
fn at_chain_end(ends: &[u16], walk: Walk) -> Walk
    requires { walk.place < length ends.now }
    ensures { result ≡ moved_to walk (slice_index ends.now walk.place) }
{
    let end = usize::from(ends[walk.place]);
    Walk {
        start: end,
        place: end,
        ..walk
    }
}

/// Adds a label to a name's text that is shown, behind a dot where it isn't the first.
fn push_label(text: &mut Vec<u8>, label: &[u8], shown: bool) -> Result<(), AllocError>
    ensures { OnOk result (shown ≡ true → text.new.items ≡ dotted text.old.items label.now) }
{
    if !shown {
        return Ok(());
    }
    if !text.is_empty() {
        text.push(DOT)?;
    }
    text.extend_from_slice(label)
}

/// What stands at the place that a name's reading has come to.
#[tactic(auto, unfolding(crate::specs::Names::turn_of))]
fn next_turn(bytes: &[u8], walk: Walk) -> Turn
    requires limit { walk.limit ≤ length bytes.now }
    requires short { walk.size + 1 ≤ 255 }
    ensures turn { result ≡ turn_of bytes.now walk }
    ensures fits { (first : ℕ) → IsWalkIn (length bytes.now) first walk
        → TurnFits bytes.now first walk result }
{
    if walk.limit <= walk.place {
        return Turn::Over(left_by(walk.after));
    }
    let len = usize::from(bytes[walk.place]);
    if len == 0 {
        Turn::Over(NameEnd::Name(after_or(walk.after, walk.place + 1)))
    } else if len <= LABEL_LIMIT {
        label_turn(walk, len)
    } else if len >= POINTER {
        pointer_turn(bytes, walk)
    } else {
        Turn::Over(NameEnd::Fails)
    }
}

/// A run that goes past its limit. Only the first one has its own.
fn left_by(after: Option<usize>) -> NameEnd
    ensures { result ≡ left_by after }
{
    match after {
        None => NameEnd::Leaves,
        Some(_) => NameEnd::Fails,
    }
}

/// Where the name ends: behind its first run, which has come to a place.
fn after_or(after: Option<usize>, here: usize) -> usize
    ensures { result ≡ after_or after here }
{
    match after {
        None => here,
        Some(after) => after,
    }
}

/// A label of so many bytes, for which there is room first, and in a name of 255 bytes second.
fn label_turn(walk: Walk, len: usize) -> Turn
    requires place { walk.place < 2 ^ 63 }
    requires len { len ≤ 63 }
    requires size { walk.size ≤ 255 }
    ensures { result ≡ label_turn walk len }
{
    let place = walk.place + 1 + len;
    let size = walk.size + 1 + len;
    if walk.limit < place {
        Turn::Over(left_by(walk.after))
    } else if NAME_LIMIT < size + 1 {
        Turn::Over(NameEnd::Fails)
    } else {
        Turn::Label(
            len,
            Walk {
                place,
                size,
                ..walk
            },
        )
    }
}

/// A pointer to a run that begins before the one that it ends.
fn pointer_turn(bytes: &[u8], walk: Walk) -> Turn
    requires limit { walk.limit ≤ length bytes.now }
    requires place { walk.place < walk.limit }
    requires pointer { 192 ≤ slice_index bytes.now walk.place }
    ensures { result ≡ pointer_turn bytes.now walk }
{
    let behind = walk.place + 2;
    if walk.limit < behind {
        return Turn::Over(left_by(walk.after));
    }
    let target = target_at(bytes, walk.place);
    if target < walk.start {
        Turn::Jump(Walk {
            start: target,
            limit: bytes.len(),
            place: target,
            size: walk.size,
            after: Some(after_or(walk.after, behind)),
        })
    } else {
        Turn::Over(NameEnd::Fails)
    }
}

/// Where the pointer at a place leads.
pub(crate) fn target_at(bytes: &[u8], place: usize) -> usize
    requires room { place + 2 ≤ length bytes.now }
    requires pointer { 192 ≤ slice_index bytes.now place }
    ensures target { result ≡ target_at bytes.now place }
    ensures bound { result < 2 ^ 14 }
{
    (usize::from(bytes[place]) - POINTER) * 256 + usize::from(bytes[place + 1])
}
