ghost use Rattle.std.specs.Prelude.{◌≡◌, ◌+◌, ◌++◌, ◌^◌, ◌<◌, ◌≤◌, ℕ, Bool, false, true, List, All, length, drop, get_or, IfOk, IfSome, IfNone};
ghost use Rattle.stream_messages.specs.Messages.{Asked, AgreeBelow};
ghost use Rattle.stream_messages.specs.Cursors.{AddsFew, AsksBetween, CountsFor, IsAskedOf, IsBehind, IsCut, IsKnown, IsLook, IsPartCut, IsQuiet, IsSound, IsSoundNext, IsWhole, goes, next_at};
ghost use Rattle.stream_messages.specs.Moved.{IsBehindFrom, IsCutOn, bytes_from};
ghost use Rattle.stream_messages.specs.declared.framer.Framer.{Framer as FramerValue};

use crate::cursor::{Cursor, Mark, Next, Started, mark_behind, next_behind};
use crate::framer::Framer;
use crate::part::{Going, Part};
use crate::placed::{Placed, PlacedList};
use pk_base::NoMemory;
use std::alloc::Global;

/// The messages that are new in a stretch, and the cursor behind them.
#[derive(Drop)]
pub struct Shown {
    pub messages: PlacedList,
    pub cursor: Cursor,
}

/// One look for a message.
#[derive(Drop)]
pub(crate) enum Cut {
    /// A whole message, and the cursor behind it.
    Whole(Placed, Cursor),
    /// There is none.
    Rest(Cursor),
}

/// Cuts the new messages out of a stretch of a stream's bytes that begins at position `start`: those that end past the bytes
/// which the cursor was behind. `front` is the stretch so far. `heads` are the requests that the other side has shown, in order:
/// whether the method of each is HEAD. A response that begins in the new bytes is to HEAD where the request that it answers is; later
/// requests change nothing. `start` may also be a later position of the stretch, where the bytes before it are let go, and the cursor
/// stands in those from there on. After `NoMemory` the cursor is gone.
pub fn cut_messages(
    alloc: Global,
    framer: Framer,
    start: u64,
    front: &[u8],
    cursor: Cursor,
    heads: &[bool],
) -> Result<Shown, NoMemory>
    requires room { start + length front.now < 2 ^ 64 }
    requires sound { IsSound framer cursor front.now }
    ensures cut { IfOk result (λ shown. (asked later : Asked) (count : ℕ) (old new : List ℕ)
        → front.now ≡ old ++ new
        → AgreeBelow (start + length old) asked later
        → AsksBetween (start + length old) (start + length front.now) heads.now later
        → IsBehind framer asked count start cursor old
        → IsCut framer later count start old front.now shown) }
    ensures from { IfOk result (λ shown. (asked later : Asked) (count first : ℕ) (old new : List ℕ)
        → front.now ≡ bytes_from first start (old ++ new)
        → AgreeBelow (first + length old) asked later
        → AsksBetween (first + length old) (first + length (old ++ new)) heads.now later
        → IsBehindFrom framer asked count first start cursor old
        → IsCutOn framer later count first start old (old ++ new) shown) }
    ensures whole { IfOk result (λ shown. All (IsWhole framer start front.now) shown.messages) }
    ensures few { IfOk result (λ shown. AddsFew framer cursor front.now shown.messages) }
    ensures sound { IfOk result (λ shown. IsSound framer shown.cursor front.now) }
    ensures quiet { IfOk result (λ shown. IsQuiet framer shown.cursor front.now) }
{
    let mut messages = Vec::new(alloc);
    let mut cursor = cursor;
    loop {
        match cut_one(alloc, framer, start, front, cursor, heads)? {
            Cut::Whole(message, behind) => {
                messages.push(message)?;
                cursor = behind;
            }
            Cut::Rest(cursor) => {
                let messages = PlacedList::from_vec(messages);
                return Ok(Shown { messages, cursor });
            }
        }
    }
}

/// Looks for the next message.
fn cut_one(
    alloc: Global,
    framer: Framer,
    start: u64,
    front: &[u8],
    cursor: Cursor,
    heads: &[bool],
) -> Result<Cut, NoMemory>
    requires room { start + length front.now < 2 ^ 64 }
    requires sound { IsSound framer cursor front.now }
    ensures { IfOk result (IsLook framer start front.now heads.now cursor) }
{
    let mark = cursor.mark;
    let Some(place) = mark.place_within(front.len()) else {
        return Ok(Cut::Rest(cursor));
    };
    match started(framer, heads, mark.answers, cursor.next) {
        None => Ok(Cut::Rest(Cursor {
            mark,
            next: Next::Never,
        })),
        Some(started) => cut_part(alloc, start, front, mark, place, started),
    }
}

/// What is known of the next message, if one may come. Whether it answers HEAD is fixed when its first byte is there.
fn started(framer: Framer, heads: &[bool], answers: usize, next: Next) -> Option<Started>
    ensures none { IfNone result (goes next ≡ false) }
    ensures some { IfSome result (λ started. goes next ≡ true) }
    ensures asked { IfSome result (λ started. (asked : Bool) (number : ℕ) (bytes : List ℕ) → 0 < length bytes
        → CountsFor answers number → IsAskedOf framer asked heads.now number next bytes
        → started.asked ≡ asked) }
    ensures known { IfSome result (λ started. (at : ℕ) (front : List ℕ) → IsSoundNext framer at front next → IsKnown framer started.asked started.part (drop at front)) }
{
    match next {
        Next::Never => None,
        Next::Awaited => {
            let asked = is_head(heads, answers);
            let part = Part::begun(framer, asked);
            Some(Started { asked, part })
        }
        Next::Begun(started) => Some(started),
    }
}

/// Whether the request behind so many others is known, and is HEAD. As no list is so long as the last count, that one tells none.
fn is_head(heads: &[bool], answers: usize) -> bool
    ensures { (number : ℕ) → CountsFor answers number → result ≡ get_or heads.now number false }
{
    answers < heads.len() && heads[answers]
}

/// Goes on with a message that begins at a place.
fn cut_part(
    alloc: Global,
    start: u64,
    front: &[u8],
    mark: Mark,
    place: usize,
    started: Started,
) -> Result<Cut, NoMemory>
    requires room { start + length front.now < 2 ^ 64 }
    requires place { (place ≡ next_at mark) × (place < length front.now) }
    requires known { (framer : FramerValue) × IsKnown framer started.asked started.part (drop place front.now) }
    ensures { IfOk result (λ cut. (framer : FramerValue) → IsKnown framer started.asked started.part (drop place front.now) → IsPartCut framer started.asked start front.now mark cut) }
{
    let asked = started.asked;
    match started.part.go_on(alloc, tail(front, place))? {
        Going::Unfinished(part) => Ok(Cut::Rest(Cursor {
            mark,
            next: Next::Begun(Started { asked, part }),
        })),
        Going::Message(told) => {
            let cursor = Cursor {
                mark: mark_behind(place, mark.answers, &told),
                next: next_behind(told.then()),
            };
            let at = start + place as u64;
            Ok(Cut::Whole(Placed { at, told }, cursor))
        }
    }
}

/// The bytes from a place on.
fn tail(bytes: &[u8], from: usize) -> &[u8]
    requires { from ≤ length bytes.now }
    ensures { result.now ≡ drop from bytes.now }
{
    &bytes[from..]
}
