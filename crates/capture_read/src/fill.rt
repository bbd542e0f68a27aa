// Reading on until enough bytes are held.
ghost use Rattle.std.specs.Prelude.{◌≡◌, ◌+◌, ◌<◌, ◌≤◌, ◌^◌, ◌-◌, suc, List, ℕ, length, take, IfErr, IfOk, IsErrOf, IsTrue, OnOk};
ghost use Rattle.std.specs.Io.KnownBytes.{Consumes};
ghost use Rattle.capture_read.specs.Answers.{open_count};
ghost use Rattle.capture_read.specs.Fill.{IsFilled, IsFilledTo, IsUnfilled};
ghost use Rattle.capture_read.specs.Reads.{CountsFault, StaysBegun};
ghost use Rattle.capture_read.specs.Taken.{TookAtMost};
ghost use Rattle.capture_read.specs.declared.kind.Seen.TheVariants as behind;

use crate::kind::Seen;
use crate::read_error::ReadError;
use crate::room::{read_size, widen};
use bytes::BytesMut;
use pk_outside::{Capture, Failed};

/// How many bytes stand at the front of a room, and what was seen behind them.
#[derive(Clone, Copy)]
pub struct Filled {
    pub len: usize,
    pub seen: Seen,
}

/// Reads once behind the first bytes of a room, up to a place of it, and tells what is known then of the bytes behind.
fn read_more<C: Capture>(
    capture: &mut C,
    room: &mut [u8],
    at: usize,
    end: usize,
) -> Result<Filled, ReadError>
    requires some { at < end }
    requires size { end ≤ at + 2 ^ 16 }
    requires inside { end ≤ length room.old }
    ensures inside { IfOk result (λ filled. filled.len ≤ length room.new) }
    ensures read { IfOk result (λ filled. (most : ℕ) → end ≤ most
        → IsFilled (take at room.old) (take filled.len room.new) filled.seen
        (at + 1) most (C.left capture.old) (C.left capture.new)) }
    ensures unread { IsErrOf result ReadError.ReadFault → C.left capture.new ≡ C.left capture.old }
    ensures took { TookAtMost (end - at) (C.left capture.old) (C.left capture.new) }
    ensures stays { StaysBegun (C.file capture.old) (C.file capture.new)
        (C.asked capture.old) (C.asked capture.new) (C.refused capture.old) (C.refused capture.new)
        (C.begun capture.old) (C.begun capture.new) (C.missed capture.old) (C.missed capture.new) }
    ensures no_fault { OnOk result (C.faults capture.new ≡ C.faults capture.old) }
    ensures faulted { IfErr result (λ error.
        CountsFault error (C.faults capture.old) (C.faults capture.new)) }
{
    match capture.read(&mut room[at..end]) {
        Ok(0) => Ok(Filled {
            len: at,
            seen: Seen::Ended,
        }),
        Ok(count) => Ok(Filled {
            len: at + count,
            seen: Seen::Open,
        }),
        Err(Failed) => Err(ReadError::ReadFault),
    }
}

/// Reads one byte past those that are looked at, and tells whether there is one.
fn read_beyond<C: Capture>(capture: &mut C) -> Result<Seen, ReadError>
    ensures seen { IfOk result (λ seen. (beyond : List ℕ)
        × Consumes (C.left capture.old) (C.left capture.new) beyond
        × ((size : ℕ) → IsFilledTo seen beyond size size (C.left capture.new))
        × (length beyond ≤ 1) × (open_count seen ≡ 0)) }
    ensures unread { IsErrOf result ReadError.ReadFault → C.left capture.new ≡ C.left capture.old }
    ensures took { TookAtMost 1 (C.left capture.old) (C.left capture.new) }
    ensures stays { StaysBegun (C.file capture.old) (C.file capture.new)
        (C.asked capture.old) (C.asked capture.new) (C.refused capture.old) (C.refused capture.new)
        (C.begun capture.old) (C.begun capture.new) (C.missed capture.old) (C.missed capture.new) }
    ensures no_fault { OnOk result (C.faults capture.new ≡ C.faults capture.old) }
    ensures faulted { IfErr result (λ error.
        CountsFault error (C.faults capture.old) (C.faults capture.new)) }
{
    let mut piece = [0; 1];
    match capture.read(&mut piece) {
        Ok(0) => Ok(Seen::Ended),
        Ok(_) => Ok(Seen::Beyond),
        Err(Failed) => Err(ReadError::ReadFault),
    }
}

/// Reads once behind the first bytes of a room, or one byte past those that are looked at where as many are held, and
/// tells what is known then of the bytes behind.
fn read_next<C: Capture>(
    capture: &mut C,
    room: &mut BytesMut,
    at: usize,
    most: usize,
) -> Result<Filled, ReadError>
    requires inside { at ≤ length room.old.items }
    requires within { at ≤ most }
    requires small { most ≤ 2 ^ 28 }
    ensures inside { IfOk result (λ filled. filled.len ≤ length room.new.items) }
    ensures read { IfOk result (λ filled.
        IsFilled (take at room.old.items) (take filled.len room.new.items) filled.seen
        (at + 1) most (C.left capture.old) (C.left capture.new)) }
    ensures unread { IsErrOf result ReadError.ReadFault → C.left capture.new ≡ C.left capture.old }
    ensures took { TookAtMost (suc most - at) (C.left capture.old) (C.left capture.new) }
    ensures stays { StaysBegun (C.file capture.old) (C.file capture.new)
        (C.asked capture.old) (C.asked capture.new) (C.refused capture.old) (C.refused capture.new)
        (C.begun capture.old) (C.begun capture.new) (C.missed capture.old) (C.missed capture.new) }
    ensures no_fault { OnOk result (C.faults capture.new ≡ C.faults capture.old) }
    ensures faulted { IfErr result (λ error.
        CountsFault error (C.faults capture.old) (C.faults capture.new)) }
{
    if at == most {
        return match read_beyond(capture) {
            Ok(seen) => Ok(Filled { len: at, seen }),
            Err(error) => Err(error),
        };
    }
    widen(room, at)?;
    let size = read_size().min(room.len() - at).min(most - at);
    read_more(capture, room.as_mut_slice(), at, at + size)
}

/// Whether more bytes may come behind those held.
fn is_open(seen: Seen) -> bool
    ensures { IsTrue result → seen ≡ behind.Open }
{
    matches!(seen, Seen::Open)
}

/// Reads on behind the bytes held, which a room begins with, until there are as many as are needed, or the file ends. Of
/// more than `most` bytes one is read, and not held.
pub fn fill<C: Capture>(
    capture: &mut C,
    room: &mut BytesMut,
    held: usize,
    need: usize,
    most: usize,
) -> Result<Filled, ReadError>
    requires inside { held ≤ length room.old.items }
    requires few { held < need }
    requires within { held ≤ most }
    requires small { most ≤ 2 ^ 28 }
    ensures inside { IfOk result (λ filled. filled.len ≤ length room.new.items) }
    ensures filled { IfOk result (λ filled.
        IsFilled (take held room.old.items) (take filled.len room.new.items) filled.seen
        need most (C.left capture.old) (C.left capture.new)) }
    ensures unfilled { IsErrOf result ReadError.ReadFault
        → IsUnfilled (take held room.old.items) need most
        (C.left capture.old) (C.left capture.new) }
    ensures took { TookAtMost (suc most - held) (C.left capture.old) (C.left capture.new) }
    ensures stays { StaysBegun (C.file capture.old) (C.file capture.new)
        (C.asked capture.old) (C.asked capture.new) (C.refused capture.old) (C.refused capture.new)
        (C.begun capture.old) (C.begun capture.new) (C.missed capture.old) (C.missed capture.new) }
    ensures no_fault { OnOk result (C.faults capture.new ≡ C.faults capture.old) }
    ensures faulted { IfErr result (λ error.
        CountsFault error (C.faults capture.old) (C.faults capture.new)) }
{
    let mut len = held;
    while len < need {
        let filled = match read_next(capture, room, len, most) {
            Ok(filled) => filled,
            Err(error) => return Err(error),
        };
        if !is_open(filled.seen) {
            return Ok(filled);
        }
        len = filled.len;
    }
    let seen = Seen::Open;
    Ok(Filled { len, seen })
}
