//! Runs of bytes by their positions. A row is a title and lines, one after the other:
//!
//! | Line | What it says |
//! |---|---|
//! | `put 4 ef 9` | bytes are put in from a position on, by a frame |
//! | `front 2` | the first position that isn't held |
//! | `copy 1 5 bcde` | the bytes from a position up to another |
//! | `frames 0 9 2,7,9` | the frames that brought such bytes |
//! | `next 8 20 8` | from a position on: the next that is held (or `-`), and the first that isn't |
//! | `row 0 6 abcDef` | which bytes stand in order, from a start up to an end |
//! | `begin 8 abcDef` | what stood in order, where this begins anew at a position |
use crate::words::{are_bytes, are_frames, behind, first_of, is_number, octets_of};
use pk_base::{NoMemory, Octets};
use range_bytes::{JoinedRanges, Ranges};
use std::alloc::Global;

/// The same runs, as both kinds hold them.
#[derive(Drop)]
struct Held {
    ranges: Ranges,
    joined: JoinedRanges,
}

/// Gives runs up, whose destructor is written out at each place where they are dropped.
fn give_up(_held: Held) {}

fn put(held: &mut Held, start: u64, bytes: &Octets, frame: u32) -> Result<(), NoMemory> {
    if start < held.joined.start() || start > 999 || bytes.bytes().len() > 999 {
        return Err(NoMemory);
    }
    held.ranges.insert(start, bytes, frame)?;
    held.joined.insert(start, bytes, frame)
}

fn is_put(
    held: &mut Held,
    alloc: Global,
    start: u64,
    text: &str,
    frame: &str,
) -> Result<bool, NoMemory> {
    let Ok(frame) = frame.parse() else {
        return Ok(false);
    };
    let bytes = octets_of(alloc, text)?;
    put(held, start, &bytes, frame)?;
    Ok(true)
}

fn begins(joined: &mut JoinedRanges, start: u64, text: &str) -> Result<bool, NoMemory> {
    let before = start.saturating_sub(1);
    if joined.end() > before || joined.first_free(before) != before || start == 0 {
        return Ok(false);
    }
    Ok(are_bytes(joined.begin(start)?.bytes(), text))
}

fn is_copied(ranges: &Ranges, from: u64, to: u64, text: &str) -> Result<bool, NoMemory> {
    if ranges.first_free(from) < to {
        return Ok(false);
    }
    Ok(are_bytes(ranges.copy(from, to)?.bytes(), text))
}

fn come_from(held: &Held, from: u64, to: u64, frames: &str) -> Result<bool, NoMemory> {
    if held.ranges.first_free(from) < to || held.joined.first_free(from) < to {
        return Ok(false);
    }
    Ok(
        are_frames(frames, held.ranges.origins(from, to)?.slice())
            && are_frames(frames, held.joined.origins(from, to)?.slice()),
    )
}

/// Whether the words tell the next held position and the first free one.
fn are_next(held: &Held, from: u64, words: &str) -> bool {
    let next = held.ranges.next_held(from);
    let free = held.ranges.first_free(from);
    let told = [next.map(i128::from), Some(i128::from(free))];
    behind(words, &told) == Some("")
        && held.joined.first_free(from) == free
        && (from < held.joined.end() || held.joined.next_held(from) == next)
}

fn is_row(joined: &JoinedRanges, start: u64, end: &str, text: &str) -> bool {
    joined.start() == start
        && is_number(end, Some(i128::from(joined.end())))
        && are_bytes(joined.front(), text)
}

fn line_holds(held: &mut Held, alloc: Global, line: &str) -> Result<bool, NoMemory> {
    let (what, words) = first_of(line);
    let (from, words) = first_of(words);
    let (second, third) = first_of(words);
    let Ok(from) = from.parse() else {
        return Ok(false);
    };
    match what {
        "put" => is_put(held, alloc, from, second, third),
        "begin" => begins(&mut held.joined, from, words),
        "front" => Ok(held.ranges.front() == from && words.is_empty()),
        "row" => Ok(is_row(&held.joined, from, second, third)),
        "next" => Ok(are_next(held, from, words)),
        // An end that can't be read lies behind all that is held.
        "copy" => is_copied(
            &held.ranges,
            from,
            second.parse().unwrap_or(u64::MAX),
            third,
        ),
        "frames" => come_from(held, from, second.parse().unwrap_or(u64::MAX), third),
        _ => Ok(false),
    }
}

fn lines_hold(held: &mut Held, alloc: Global, lines: &str) -> Result<bool, NoMemory> {
    for line in lines.lines() {
        if !line_holds(held, alloc, line)? {
            return Ok(false);
        }
    }
    Ok(true)
}

pub(crate) fn hold(alloc: Global, row: &str) -> Result<bool, NoMemory> {
    let (_, lines) = row.split_once('\n').unwrap_or((row, "?"));
    let mut held = Held {
        ranges: Ranges::new(alloc),
        joined: JoinedRanges::new(alloc),
    };
    let hold = lines_hold(&mut held, alloc, lines);
    give_up(held);
    hold
}
