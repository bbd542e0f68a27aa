//! Segments of TCP, in frames from 1 on. A row is a title and lines, one after the other:
//!
//! | Line | What it says |
//! |---|---|
//! | `client 10 - syn ab -> 0 0 0 - 0 0 2` | sender, sequence number, acknowledgment number where ACK is set, whether SYN is, bytes. Behind the arrow: stream, side, sequence number, acknowledgment number, position, front end before and after, and lost positions (`2-5`) |
//! | `client 10 - - ab -> shows ..` | the messages that the frame shows (or `nothing`): kind, position, length, and `@` with the place in the segment, or the frames that brought it. Behind `by` stand the frames of all these |
//! | `bytes of 0 1 -> 0 ab 5 fgh` | of a stream and side: the stretches, each behind its start |
//! | `bytes of 0 0 1 3 -> 2,3` | of a stream, a side, and positions from one up to another: the frames that brought them, or `not held` |
//!
//! The lines of segments hold also where bytes are let go that no later message needs.
ghost use Rattle.std.specs.Prelude.{◌<◌};
ghost use Rattle.tcp_streams.specs.Standing.{stream_count};

use crate::sent::{Head, Sent, ends_of, give_up};
use crate::streams::behind_message;
use crate::words::{
    are_bytes, are_frames, behind, first_of, is_first, is_number, is_pair, octets_of,
};
use pk_base::{Lost, NoMemory, Stretch};
use std::alloc::Global;
use stream_messages::Framer;
use tcp_messages::{Met, ShownMessage, Source};
use tcp_streams::{Streams, Taken};

/// A segment without its bytes, and these.
fn head_of(words: &str) -> Option<(Head, &str)> {
    let (sender, words) = first_of(words);
    let (seq, words) = first_of(words);
    let (ack, words) = first_of(words);
    let (syn, bytes) = first_of(words);
    let head = Head {
        ends: ends_of(sender)?,
        seq: seq.parse().ok()?,
        ack: ack.parse().ok(),
        syn: is_first(syn, "syn", "-")?,
    };
    if head.ack.is_none() && ack != "-" {
        return None;
    }
    Some((head, bytes))
}

/// Whether words name just these gaps.
fn are_gaps(words: &str, gaps: &[Lost]) -> bool {
    let mut rest = words;
    for gap in gaps {
        let (word, others) = first_of(rest);
        if !is_pair(word, '-', gap.from, gap.to) {
            return false;
        }
        rest = others;
    }
    rest.is_empty()
}

fn is_taken(words: &str, taken: &Taken) -> bool {
    let numbers = [
        Some(i128::from(taken.stream)),
        Some(i128::from(taken.side)),
        Some(i128::from(taken.seq)),
        taken.ack.map(i128::from),
        Some(i128::from(taken.position)),
        Some(i128::from(taken.front_before)),
        Some(i128::from(taken.front_after)),
    ];
    match behind(words, &numbers) {
        Some(gaps) => are_gaps(gaps, taken.lost.slice()),
        None => false,
    }
}

/// Whether a word tells where the bytes of a message are, which are so many.
fn is_source(word: &str, source: &Source, len: usize) -> bool {
    match source {
        Source::Segment(place) => match word.strip_prefix('@') {
            Some(word) => is_number(word, Some(i128::from(*place as u64))),
            None => false,
        },
        Source::Gathered(gathered) => {
            gathered.bytes.bytes().len() == len && are_frames(word, gathered.frames.slice())
        }
    }
}

/// What follows these messages, if words begin with them.
fn behind_shown<'a>(words: &'a str, messages: &[ShownMessage]) -> Option<&'a str> {
    let mut rest = words;
    for shown in messages {
        let (source, others) = first_of(behind_message(rest, &shown.message)?);
        if !is_source(source, &shown.source, shown.message.told.end()) {
            return None;
        }
        rest = others;
    }
    Some(rest)
}

fn is_shown(words: &str, met: &Met) -> bool {
    match (
        behind_shown(words, met.messages.slice()),
        met.frames.slice(),
    ) {
        (Some(rest), []) => rest.is_empty(),
        (Some(rest), frames) => match rest.strip_prefix("by ") {
            Some(word) => are_frames(word, frames),
            None => false,
        },
        (None, _) => false,
    }
}

/// Whether words tell what a segment is to its stream, also where no byte of that is kept, where it shows nothing, or what it
/// shows.
fn is_met(words: &str, met: &Met, placed: &Taken) -> bool {
    match (words.strip_prefix("shows "), met.messages.slice()) {
        (Some(words), []) => words == "nothing" && met.frames.slice().is_empty(),
        (Some(words), _) => is_shown(words, met),
        (None, messages) => {
            messages.is_empty() && is_taken(words, &met.taken) && is_taken(words, placed)
        }
    }
}

fn is_sent(sent: &mut Sent, alloc: Global, words: &str, told: &str) -> Result<bool, NoMemory> {
    let Some((head, bytes)) = head_of(words) else {
        return Ok(false);
    };
    let segment = head.segment(octets_of(alloc, bytes)?);
    let placed = sent.place(&segment)?;
    let met = sent.send(segment)?;
    Ok(is_met(told, &met, &placed))
}

/// Whether a direction hands out a stretch and its second half as parts, and nothing past its end.
fn is_part(streams: &Streams, stream: u32, side: u8, stretch: &Stretch) -> bool
    requires stream { stream < stream_count streams.now }
    requires side { side < 2 }
{
    let bytes = stretch.bytes.bytes();
    let (_, second) = bytes.split_at(bytes.len() / 2);
    let end = stretch.start.saturating_add(bytes.len() as u64);
    let middle = end.saturating_sub(second.len() as u64);
    streams.has_part(stream, side, stretch.start, end)
        && streams.has_part(stream, side, middle, end)
        && !streams.has_part(stream, side, middle, end.saturating_add(1))
        && streams.part(stream, side, stretch.start, end) == bytes
        && streams.part(stream, side, middle, end) == second
}

/// Whether words tell just these stretches, each with its start, and a direction hands them out as parts.
fn are_stretches(
    streams: &Streams,
    stream: u32,
    side: u8,
    stretches: &[Stretch],
    words: &str,
) -> bool
    requires stream { stream < stream_count streams.now }
    requires side { side < 2 }
{
    let mut rest = words;
    for stretch in stretches {
        let (start, others) = first_of(rest);
        let (bytes, others) = first_of(others);
        if !is_number(start, Some(i128::from(stretch.start)))
            || !are_bytes(stretch.bytes.bytes(), bytes)
            || !is_part(streams, stream, side, stretch)
        {
            return false;
        }
        rest = others;
    }
    rest.is_empty()
}

/// Whether the last stretch is the front.
fn is_last(front: &[u8], stretches: &[Stretch]) -> bool {
    match stretches {
        [.., last] => last.bytes.bytes() == front,
        [] => front.is_empty(),
    }
}

/// Whether a direction has these stretches, the last of which is its front.
fn ends_so(streams: &Streams, stream: u32, side: u8, words: &str) -> Result<bool, NoMemory>
    requires stream { stream < stream_count streams.now }
    requires side { side < 2 }
{
    let stretches = streams.stretches(stream, side)?;
    let stretches = stretches.slice();
    Ok(
        are_stretches(streams, stream, side, stretches, words)
            && is_last(streams.front(stream, side), stretches),
    )
}

/// Whether bytes of a direction come from these frames.
fn come_from(
    streams: &Streams,
    stream: u32,
    side: u8,
    range: &str,
    frames: &str,
) -> Result<bool, NoMemory>
    requires stream { stream < stream_count streams.now }
    requires side { side < 2 }
{
    let (from, to) = first_of(range);
    let (Ok(from), Ok(to)) = (from.parse(), to.parse()) else {
        return Ok(false);
    };
    if !streams.holds(stream, side, from, to) {
        return Ok(frames == "not held");
    }
    Ok(are_frames(frames, streams.origins(stream, side, from, to)?.slice()))
}

fn is_kept(streams: &Streams, words: &str, told: &str) -> Result<bool, NoMemory> {
    let (stream, words) = first_of(words);
    let (side, range) = first_of(words);
    let (Ok(stream), Ok(side)) = (stream.parse(), side.parse()) else {
        return Ok(false);
    };
    if stream >= streams.count() || side > 1 {
        return Ok(false);
    }
    if range.is_empty() {
        ends_so(streams, stream, side, told)
    } else {
        come_from(streams, stream, side, range, told)
    }
}

fn line_holds(sent: &mut Sent, alloc: Global, line: &str) -> Result<bool, NoMemory> {
    let (words, told) = line.split_once(" -> ").unwrap_or((line, ""));
    match words.strip_prefix("bytes of ") {
        Some(_) if sent.lets_go => Ok(true),
        Some(words) => is_kept(sent.streams.streams(), words, told),
        None => is_sent(sent, alloc, words, told),
    }
}

fn lines_hold(sent: &mut Sent, alloc: Global, lines: &str) -> Result<bool, NoMemory> {
    for line in lines.lines() {
        if !line_holds(sent, alloc, line)? {
            return Ok(false);
        }
    }
    Ok(true)
}

fn hold_so(
    alloc: Global,
    framer: Option<Framer>,
    lets_go: bool,
    lines: &str,
) -> Result<bool, NoMemory> {
    let mut sent = Sent::new(alloc, framer, lets_go);
    let hold = lines_hold(&mut sent, alloc, lines);
    give_up(sent);
    hold
}

/// Whether a row holds, also where bytes are let go that no later message needs.
pub(crate) fn hold(alloc: Global, framer: Option<Framer>, row: &str) -> Result<bool, NoMemory> {
    let (_, lines) = row.split_once('\n').unwrap_or((row, "?"));
    if !hold_so(alloc, framer, false, lines)? {
        return Ok(false);
    }
    hold_so(alloc, framer, true, lines)
}
