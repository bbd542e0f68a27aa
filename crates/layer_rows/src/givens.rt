//! What is given in a row: words, `: `, and bytes.
//!
//! The words: a number that the reader is asked with (a link type, the type of a message of neighbour discovery, an extension header's
//! protocol number); `big-endian` of a link type in such a file; `cut` where the frame was captured only in part, and `whole`, as where
//! neither is said; `quoted` in an error message's packet; `part` of an IPv6 packet that isn't whole; `stream` where a message of DNS
//! stands behind its length; `only` and the names of the fields that are asked, where not all are. `only frame` asks for none.
//!
//! The bytes are hexadecimal, with `*` and a number where they repeat, and texts between `'`. Spaces mean nothing.
use hex::decode;
use pk_base::{Mode, NoMemory};
use pk_fields::{FieldSet, by_name};
use std::alloc::{AllocError, Global};

/// How bytes are read.
#[derive(Clone, Copy)]
pub(crate) struct Given {
    pub(crate) number: u16,
    pub(crate) big_endian: bool,
    pub(crate) cut: bool,
    pub(crate) mode: Mode,
    pub(crate) part: bool,
    pub(crate) stream: bool,
    pub(crate) wanted: FieldSet,
}

/// Bytes of a frame that is whole, of which all is asked.
pub(crate) fn plain() -> Given {
    Given {
        number: 0,
        big_endian: false,
        cut: false,
        mode: Mode::Plain,
        part: false,
        stream: false,
        wanted: FieldSet::all(),
    }
}

/// What the words say, or nothing where one isn't known.
pub(crate) fn given_of(words: &str) -> Option<Given> {
    let mut given = plain();
    for word in words.split_whitespace() {
        match word {
            "big-endian" => given.big_endian = true,
            "cut" => given.cut = true,
            "whole" => given.cut = false,
            "quoted" => given.mode = Mode::Embedded,
            "part" => given.part = true,
            "stream" => given.stream = true,
            "only" => given.wanted = FieldSet::none(),
            _ => given = with_value(given, word)?,
        }
    }
    Some(given)
}

/// The same with a number or a field.
fn with_value(mut given: Given, word: &str) -> Option<Given> {
    match number(word) {
        Some(number) => given.number = number,
        None => given.wanted.add(by_name(word)?),
    }
    Some(given)
}

/// The number that a text is.
pub(crate) fn number(text: &str) -> Option<u16> {
    text.parse().ok()
}

/// The bytes that a text spells.
pub(crate) fn bytes_of(alloc: Global, text: &str) -> Result<Vec<u8>, NoMemory> {
    let mut bytes = Vec::new(alloc);
    let mut is_text = false;
    for part in text.split('\'') {
        if is_text {
            bytes.extend_from_slice(part.as_bytes())?;
        } else {
            push_hex(alloc, &mut bytes, part)?;
        }
        is_text = !is_text;
    }
    Ok(bytes)
}

/// Adds the bytes of hexadecimal digits.
pub(crate) fn push_hex(alloc: Global, bytes: &mut Vec<u8>, digits: &str) -> Result<(), NoMemory> {
    for word in digits.split_whitespace() {
        let (word, count) = word.split_once('*').unwrap_or((word, "1"));
        match (decode(alloc, word), number(count)) {
            (Ok(some), Some(count)) => push_times(bytes, &some, count)?,
            _ => return Err(NoMemory),
        }
    }
    Ok(())
}

fn push_times(bytes: &mut Vec<u8>, some: &[u8], count: u16) -> Result<(), AllocError> {
    for _ in 0..count {
        bytes.extend_from_slice(some)?;
    }
    Ok(())
}
