//! The messages of a stream's bytes, as these come. A row is `GH HTTP/1.1 200 OK␍␊␍␊ -> response 1000+19`: whether each of the other
//! side's requests is by HEAD (`H`) or not (`G`; `-` where none is known), the bytes from position 1000 on, and the messages, each with its
//! position and length, or `nothing`. The bytes come one by one, and in two parts, cut at each place; more than a thousand come at once.
//!
//! A row of stretches is a title and such lines, one behind the other, each with the messages that its bytes show. A line `lost` says
//! that a thousand bytes are lost.
ghost use Rattle.std.proofs.Props.{props};
ghost use Rattle.stream_messages.specs.Cursors.{IsSound};
ghost use Rattle.stream_messages.specs.contracts.told.Told as told_row;
ghost use Rattle.tcp_messages.specs.Readers.{sound_prop};

use crate::words::{bytes_of, first_of, is_pair};
use pk_base::NoMemory;
use std::alloc::Global;
use std::mem;
use stream_messages::{Cursor, Framer, Placed, PlacedList, Told, cut_messages};

/// The bytes of a stretch that came so far, from a position on.
#[derive(Drop)]
struct Stretch {
    framer: Framer,
    start: u32,
    bytes: Vec<u8>,
    cursor: Cursor,
    ghost sound: { IsSound framer cursor bytes.items } by { Prim.hlevel (sound_prop told_row.the_row.coded, props) },
}

/// Gives a stretch up, whose destructor is written out at each place where it is dropped.
fn give_up(_stretch: Stretch) {}

fn kind_of(told: &Told) -> &'static str {
    match told {
        Told::Sized(_) => "sized",
        Told::Http(shape) if shape.request => "request",
        Told::Http(shape) if shape.interim => "interim",
        Told::Http(_) => "response",
    }
}

/// What follows a message, if words begin with it.
pub(crate) fn behind_message<'a>(words: &'a str, message: &Placed) -> Option<&'a str> {
    let (kind, rest) = first_of(words);
    let (place, rest) = first_of(rest);
    let len = message.told.end() as u64;
    if kind == kind_of(&message.told) && is_pair(place, '+', message.at, len) {
        Some(rest)
    } else {
        None
    }
}

/// What follows these messages, if words begin with them. Where one byte came, each ends behind it.
fn behind_messages<'a>(
    words: &'a str,
    messages: &PlacedList,
    came: usize,
    end: u64,
) -> Option<&'a str> {
    let mut rest = words;
    for message in messages.slice() {
        if came == 1 && message.at.wrapping_add(message.told.end() as u64) != end {
            return None;
        }
        rest = behind_message(rest, message)?;
    }
    Some(rest)
}

/// Which requests are by HEAD.
fn heads_of(word: &str) -> Option<&'static [bool]> {
    match word {
        "-" => Some(&[]),
        "G" => Some(&[false]),
        "H" => Some(&[true]),
        "GH" => Some(&[false, true]),
        "HG" => Some(&[true, false]),
        "GHG" => Some(&[false, true, false]),
        "GGG" => Some(&[false, false, false]),
        _ => None,
    }
}

impl Stretch {
    fn new(alloc: Global, framer: Framer, start: u32, cursor: Cursor) -> Stretch {
        Stretch {
            framer,
            start,
            bytes: Vec::new(alloc),
            cursor: cursor.anew(),
        }
    }

    /// Takes more bytes. What follows the messages that they bring, if words begin with these.
    #[tactic(auto, using(stream_messages::proofs::CursorLemmas::sound_longer))]
    fn take<'a>(
        &mut self,
        alloc: Global,
        more: &[u8],
        heads: &[bool],
        words: &'a str,
    ) -> Result<Option<&'a str>, NoMemory> {
        let cursor = mem::replace(&mut self.cursor, Cursor::first());
        self.bytes.extend_from_slice(more)?;
        let start = u64::from(self.start);
        let end = start.wrapping_add(self.bytes.len() as u64);
        let shown = cut_messages(alloc, self.framer, start, &self.bytes, cursor, heads)?;
        self.cursor = shown.cursor;
        Ok(behind_messages(words, &shown.messages, more.len(), end))
    }
}

/// Whether bytes that come one by one show these messages.
fn by_bytes(
    stretch: &mut Stretch,
    alloc: Global,
    bytes: &[u8],
    heads: &[bool],
    words: &str,
) -> Result<bool, NoMemory> {
    let mut rest = words;
    for byte in bytes {
        match stretch.take(alloc, &[*byte], heads, rest)? {
            Some(behind) => rest = behind,
            None => return Ok(false),
        }
    }
    Ok(rest.is_empty())
}

/// Whether bytes that come in two parts do.
fn in_two(
    stretch: &mut Stretch,
    alloc: Global,
    parts: (&[u8], &[u8]),
    heads: &[bool],
    words: &str,
) -> Result<bool, NoMemory> {
    let (first, second) = parts;
    match stretch.take(alloc, first, heads, words)? {
        Some(rest) => Ok(stretch.take(alloc, second, heads, rest)? == Some("")),
        None => Ok(false),
    }
}

/// What is looked at.
#[derive(Clone, Copy)]
struct Row<'a> {
    framer: Framer,
    heads: &'a [bool],
    bytes: &'a [u8],
    words: &'a str,
}

fn are_shown_by_bytes(alloc: Global, row: Row) -> Result<bool, NoMemory> {
    let mut stretch = Stretch::new(alloc, row.framer, 1000, Cursor::first());
    let shown = by_bytes(&mut stretch, alloc, row.bytes, row.heads, row.words);
    give_up(stretch);
    shown
}

fn are_shown_in_two(alloc: Global, row: Row, cut: usize) -> Result<bool, NoMemory> {
    if cut > row.bytes.len() {
        return Ok(false);
    }
    let mut stretch = Stretch::new(alloc, row.framer, 1000, Cursor::first());
    let parts = row.bytes.split_at(cut);
    let shown = in_two(&mut stretch, alloc, parts, row.heads, row.words);
    give_up(stretch);
    shown
}

fn are_shown(alloc: Global, row: Row) -> Result<bool, NoMemory> {
    let len = row.bytes.len();
    if len > 1000 {
        return are_shown_in_two(alloc, row, len);
    }
    for cut in 0..=len {
        if !are_shown_in_two(alloc, row, cut)? {
            return Ok(false);
        }
    }
    are_shown_by_bytes(alloc, row)
}

/// Requests, bytes and messages of a line.
fn parts_of(line: &str) -> Option<(&'static [bool], &str, &str)> {
    let (left, words) = line.split_once(" -> ")?;
    let (heads, text) = first_of(left);
    let words = if words == "nothing" { "" } else { words };
    Some((heads_of(heads)?, text, words))
}

pub(crate) fn holds(alloc: Global, framer: Framer, row: &str) -> Result<bool, NoMemory> {
    let (heads, text, words) = parts_of(row).ok_or(NoMemory)?;
    let bytes = bytes_of(alloc, text)?;
    let bytes = bytes.as_slice();
    are_shown(
        alloc,
        Row {
            framer,
            heads,
            bytes,
            words,
        },
    )
}

fn line_holds(stretch: &mut Stretch, alloc: Global, line: &str) -> Result<bool, NoMemory> {
    let (heads, text, words) = parts_of(line).ok_or(NoMemory)?;
    let bytes = bytes_of(alloc, text)?;
    Ok(stretch.take(alloc, &bytes, heads, words)? == Some(""))
}

/// Begins a stretch anew behind a thousand lost bytes.
fn lose(stretch: &mut Stretch, alloc: Global) -> Result<bool, NoMemory> {
    let Ok(len) = u32::try_from(stretch.bytes.len()) else {
        return Err(NoMemory);
    };
    let start = stretch.start.wrapping_add(len).wrapping_add(1000);
    stretch.bytes = Vec::new(alloc);
    stretch.start = start;
    stretch.cursor = stretch.cursor.anew();
    Ok(true)
}

fn lines_hold(stretch: &mut Stretch, alloc: Global, lines: &str) -> Result<bool, NoMemory> {
    for line in lines.lines() {
        let holds = if line == "lost" {
            lose(stretch, alloc)?
        } else {
            line_holds(stretch, alloc, line)?
        };
        if !holds {
            return Ok(false);
        }
    }
    Ok(true)
}

pub(crate) fn steps_hold(alloc: Global, row: &str) -> Result<bool, NoMemory> {
    let (_, lines) = row.split_once('\n').unwrap_or((row, "?"));
    let mut stretch = Stretch::new(alloc, Framer::Http, 1000, Cursor::first());
    let hold = lines_hold(&mut stretch, alloc, lines);
    give_up(stretch);
    hold
}
