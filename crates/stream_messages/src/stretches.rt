ghost use Rattle.std.specs.Prelude.{◌≡◌, ◌+◌, ◌^◌, ◌<◌, ◌≤◌, ℕ, All, length, IfOk};
ghost use Rattle.stream_messages.specs.Messages.{Asked, AllFrom, answered, of_stretches};
ghost use Rattle.stream_messages.specs.Cursors.{AsksFrom, CountsFor, IsBehind, IsBehindAll, IsQuiet, IsSound, IsWholeInOne, answers_before, bytes_in, with_last};

use crate::cursor::Cursor;
use crate::cutting::{Shown, cut_messages};
use crate::framer::Framer;
use crate::placed::PlacedList;
use pk_base::{NoMemory, Stretch};
use std::alloc::Global;

/// Cuts the messages out of stretches that begin behind lost bytes, from the cursor of the stretch before them on: the answers
/// before them count, and nothing else does.
pub fn cut_stretches(
    alloc: Global,
    framer: Framer,
    stretches: &[Stretch],
    cursor: Cursor,
    heads: &[bool],
) -> Result<Shown, NoMemory>
    requires { All (λ s. s.start + length s.bytes < 2 ^ 64) stretches.now }
    ensures messages { IfOk result (λ shown. (asked : Asked) (number from : ℕ)
        → CountsFor (answers_before cursor) number
        → AsksFrom from heads.now asked → AllFrom from stretches.now
        → shown.messages ≡ of_stretches framer asked number stretches.now) }
    ensures cursor { IfOk result (λ shown. (asked : Asked) (number from : ℕ)
        → CountsFor (answers_before cursor) number
        → AsksFrom from heads.now asked → AllFrom from stretches.now
        → IsBehindAll framer asked number cursor stretches.now shown.cursor) }
    ensures whole { IfOk result (λ shown. All (IsWholeInOne framer stretches.now) shown.messages) }
    ensures few { IfOk result (λ shown. length shown.messages ≤ bytes_in stretches.now) }
{
    let mut messages = PlacedList::new(alloc);
    let mut cursor = cursor;
    for stretch in stretches {
        let shown = cut_messages(
            alloc,
            framer,
            stretch.start,
            stretch.bytes.bytes(),
            cursor.anew(),
            heads,
        )?;
        messages.append(shown.messages)?;
        cursor = shown.cursor;
    }
    Ok(Shown { messages, cursor })
}

/// As `cut_stretches`, with the stretch behind them, which begins at position `start`. The cursor is behind its messages.
pub fn cut_newest(
    alloc: Global,
    framer: Framer,
    passed: &[Stretch],
    start: u64,
    front: &[u8],
    cursor: Cursor,
    heads: &[bool],
) -> Result<Shown, NoMemory>
    requires passed { All (λ s. s.start + length s.bytes < 2 ^ 64) passed.now }
    requires room { start + length front.now < 2 ^ 64 }
    ensures messages { IfOk result (λ shown. (asked : Asked) (number from : ℕ)
        → CountsFor (answers_before cursor) number
        → AsksFrom from heads.now asked → AllFrom from (with_last passed.now start front.now)
        → shown.messages ≡ of_stretches framer asked number (with_last passed.now start front.now)) }
    ensures cursor { IfOk result (λ shown. (asked : Asked) (number from : ℕ)
        → CountsFor (answers_before cursor) number
        → AsksFrom from heads.now asked → AllFrom from (with_last passed.now start front.now)
        → IsBehind framer asked (answered number (of_stretches framer asked number passed.now))
        start shown.cursor front.now) }
    ensures whole { IfOk result (λ shown. All (IsWholeInOne framer (with_last passed.now start front.now)) shown.messages) }
    ensures few { IfOk result (λ shown. length shown.messages
        ≤ bytes_in passed.now + length front.now) }
    ensures sound { IfOk result (λ shown. IsSound framer shown.cursor front.now) }
    ensures quiet { IfOk result (λ shown. IsQuiet framer shown.cursor front.now) }
{
    let before = cut_stretches(alloc, framer, passed, cursor, heads)?;
    let last = cut_messages(alloc, framer, start, front, before.cursor.anew(), heads)?;
    let mut messages = before.messages;
    messages.append(last.messages)?;
    let cursor = last.cursor;
    Ok(Shown { messages, cursor })
}
