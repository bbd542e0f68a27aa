//! Rows of bytes and of what a reader tells of them. The table's check is the reader, or `first` and a reader where the headers that
//! follow aren't read.
//!
//! A row is what is given, a line that begins with `-> `, and lines behind it: the layers as `tree_rows` prints them, and what follows.
//!
//! Of `fronts of` a reader the bytes are cut behind each number of bytes, none to all but one. Behind `-> ` stand the layer, and the
//! fault, if there is one, with the lengths at which there is none, as `nd, _ws.short but at 12`. Each line behind it has items, and
//! before them where they end: they are there of all cuts that reach to there.
//!
//! A row of `kinds of` a reader is a line: from which to which first byte, the bytes behind it, and what follows the first header.
//! One of `chain` gives what stands before a chain of pointers and the names that lead to it, and its items.
use crate::afters::push_after;
use crate::givens::{Given, bytes_of, given_of, number, plain, push_hex};
use crate::readers::{text_of, tree_of};
use pk_base::{NoMemory, Octets};
use std::alloc::{AllocError, Global};

/// Whether the layers of a row's bytes, and what follows, are those that it has.
pub(crate) fn layers_hold(alloc: Global, reader: &str, row: &str) -> Result<bool, NoMemory> {
    let (given, text, wanted) = parts(row);
    let bytes = bytes_of(alloc, text)?;
    match given {
        Some(given) => tells(alloc, reader, &given, Octets::from_vec(bytes)?, wanted),
        None => Ok(false),
    }
}

/// What is given, the text of the bytes, and what must come.
fn parts(row: &str) -> (Option<Given>, &str, &str) {
    let (given, wanted) = row.split_once("\n-> ").unwrap_or((row, ""));
    let (words, bytes) = given.split_once(':').unwrap_or(("", given));
    (given_of(words), bytes, wanted)
}

/// Whether bytes have these lines.
fn tells(
    alloc: Global,
    reader: &str,
    given: &Given,
    bytes: Octets,
    wanted: &str,
) -> Result<bool, NoMemory> {
    let text = text_of(alloc, reader, given, bytes)?;
    Ok(text.as_str().strip_suffix('\n').unwrap_or("") == wanted)
}

/// Whether each front of a row's bytes has the items that end in it.
pub(crate) fn fronts_hold(alloc: Global, reader: &str, row: &str) -> Result<bool, NoMemory> {
    let (given, text, wanted) = parts(row);
    let bytes = bytes_of(alloc, text)?;
    match given {
        Some(given) => all_fronts_hold(alloc, reader, &given, &bytes, wanted),
        None => Ok(false),
    }
}

fn all_fronts_hold(
    alloc: Global,
    reader: &str,
    given: &Given,
    bytes: &[u8],
    wanted: &str,
) -> Result<bool, NoMemory> {
    for len in 0..bytes.len() {
        let front = Octets::copy(alloc, &bytes[..len])?;
        let text = front_text(alloc, wanted, len)?;
        if !tells(alloc, reader, given, front, &text)? {
            return Ok(false);
        }
    }
    Ok(!bytes.is_empty())
}

/// The lines of a front of so many bytes.
fn front_text(alloc: Global, wanted: &str, len: usize) -> Result<String, AllocError> {
    let (head, items) = wanted.split_once('\n').unwrap_or((wanted, ""));
    let (layer, fault) = head.split_once(", ").unwrap_or((head, ""));
    let mut text = format!(in alloc; "{layer} 0+{len}:")?;
    for line in items.lines() {
        push_within(&mut text, line, len)?;
    }
    push_fault(alloc, &mut text, fault, len)?;
    Ok(text)
}

/// Adds the items of a line that end within so many bytes.
fn push_within(text: &mut String, line: &str, len: usize) -> Result<(), AllocError> {
    let (end, items) = line.split_once(' ').unwrap_or((line, ""));
    match number(end) {
        Some(end) if usize::from(end) > len => Ok(()),
        _ => {
            text.push_str(" ")?;
            text.push_str(items)
        }
    }
}

fn push_fault(alloc: Global, text: &mut String, fault: &str, len: usize) -> Result<(), AllocError> {
    let (name, lengths) = fault.split_once(" but at ").unwrap_or((fault, ""));
    if name.is_empty() || has_length(lengths, len) {
        return Ok(());
    }
    let line = format!(in alloc; "\n{name} {len}+0:")?;
    text.push_str(&line)
}

/// Whether a length is among some.
fn has_length(lengths: &str, len: usize) -> bool {
    for length in lengths.split_whitespace() {
        if number(length).map(usize::from) == Some(len) {
            return true;
        }
    }
    false
}

/// Whether all first bytes of a row lead to what it has.
pub(crate) fn kinds_hold(alloc: Global, reader: &str, row: &str) -> Result<bool, NoMemory> {
    let (kinds, row) = row.split_once(": ").unwrap_or(("", row));
    let (rest, wanted) = row.split_once(" -> ").unwrap_or((row, ""));
    let (first, last) = kinds.split_once('-').unwrap_or((kinds, kinds));
    match (number(first), number(last)) {
        (Some(first), Some(last)) => each_leads(alloc, reader, first, last, rest, wanted),
        _ => Ok(false),
    }
}

fn each_leads(
    alloc: Global,
    reader: &str,
    first: u16,
    last: u16,
    rest: &str,
    wanted: &str,
) -> Result<bool, NoMemory> {
    for kind in first..=last {
        let text = after_text(alloc, reader, kind, rest)?;
        if text.as_str().strip_suffix('\n') != Some(wanted) {
            return Ok(false);
        }
    }
    Ok(first <= last)
}

/// What follows the first header of a first byte and others.
fn after_text(alloc: Global, reader: &str, kind: u16, rest: &str) -> Result<String, NoMemory> {
    let mut bytes = Vec::new(alloc);
    match u8::try_from(kind) {
        Ok(kind) => bytes.push(kind)?,
        Err(_) => return Err(NoMemory),
    }
    push_hex(alloc, &mut bytes, rest)?;
    let (_, after) = tree_of(alloc, reader, &plain(), Octets::from_vec(bytes)?)?;
    let mut text = String::new(alloc);
    push_after(alloc, &mut text, after)?;
    Ok(text)
}

/// Whether a long chain of pointers is followed once. Of 8,000 pointers in the first answer's data, from byte 36 on, each leads to the
/// one before it, and the names of 4,000 more answers to the last. Reading the chain for each name would take 32 million steps.
pub(crate) fn chain_holds(alloc: Global, row: &str) -> Result<bool, NoMemory> {
    let (given, text, wanted) = parts(row);
    let mut bytes = bytes_of(alloc, text)?;
    let mut lines = String::from_str(alloc, wanted)?;
    push_pointers(&mut bytes)?;
    push_answers(alloc, &mut bytes, &mut lines)?;
    match given {
        Some(given) => tells(alloc, "dns", &given, Octets::from_vec(bytes)?, &lines),
        None => Ok(false),
    }
}

/// Adds all pointers but the first.
fn push_pointers(bytes: &mut Vec<u8>) -> Result<(), AllocError> {
    for number in 0..7_999u16 {
        let pointer = 0xc024 + 2 * number;
        bytes.extend_from_slice(&pointer.to_be_bytes())?;
    }
    Ok(())
}

/// Adds the answers whose names lead to the last pointer, and their items.
fn push_answers(alloc: Global, bytes: &mut Vec<u8>, lines: &mut String) -> Result<(), AllocError> {
    for number in 0..4_000u32 {
        bytes.extend_from_slice(b"\xfe\xa2\0\x29\0\x01\0\0\0\0\0\0")?;
        let place = 16_036 + 12 * number;
        let items = format!(in alloc;
            " dns.resp.name=h.test@{place}+2 dns.resp.type=41 dns.resp.class=1 dns.resp.ttl=0 dns.resp.len=0"
        )?;
        lines.push_str(&items)?;
    }
    Ok(())
}
