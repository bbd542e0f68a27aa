//! Words, numbers and bytes of rows.
//!
//! Bytes are text in which a control character stands as its picture (`␀` to `␟`), and a space as `␠` where words are parted by
//! spaces. No bytes are `-`. In `{x*5}` the text before the star stands so many times.
use pk_base::{NoMemory, Octets};
use std::alloc::Global;

/// The first word, and what follows it.
pub(crate) fn first_of(words: &str) -> (&str, &str) {
    words.split_once(' ').unwrap_or((words, ""))
}

/// Which of two words one is.
pub(crate) fn is_first(word: &str, first: &str, second: &str) -> Option<bool> {
    if word == first {
        Some(true)
    } else if word == second {
        Some(false)
    } else {
        None
    }
}

/// Whether a word is a number, or `-` where there is none.
pub(crate) fn is_number(word: &str, number: Option<i128>) -> bool {
    match number {
        Some(number) => word.parse() == Ok(number),
        None => word == "-",
    }
}

/// What follows these numbers, if words begin with them.
pub(crate) fn behind<'a>(words: &'a str, numbers: &[Option<i128>]) -> Option<&'a str> {
    let mut rest = words;
    for number in numbers {
        let (word, others) = first_of(rest);
        if !is_number(word, *number) {
            return None;
        }
        rest = others;
    }
    Some(rest)
}

/// Whether a word is two numbers with a sign between them.
pub(crate) fn is_pair(word: &str, sign: char, first: u64, second: u64) -> bool {
    match word.split_once(sign) {
        Some((left, right)) => {
            is_number(left, Some(i128::from(first))) && is_number(right, Some(i128::from(second)))
        }
        None => false,
    }
}

/// Whether a word names just these frames, with a comma between two.
pub(crate) fn are_frames(word: &str, frames: &[u32]) -> bool {
    if frames.is_empty() {
        return word == "-";
    }
    let mut rest = word;
    for frame in frames {
        let (number, others) = rest.split_once(',').unwrap_or((rest, ""));
        if !is_number(number, Some(i128::from(*frame))) {
            return false;
        }
        rest = others;
    }
    rest.is_empty()
}

fn byte_of(sign: char) -> Option<u8> {
    match u32::from(sign) {
        code @ 0x20..=0x7e => Some(code as u8),
        code @ 0x2400..=0x2420 => Some((code % 256) as u8),
        _ => None,
    }
}

/// Whether bytes are those of a text.
pub(crate) fn are_bytes(bytes: &[u8], text: &str) -> bool {
    if text == "-" {
        return bytes.is_empty();
    }
    let mut signs = text.chars();
    for byte in bytes {
        match signs.next() {
            Some(sign) if byte_of(sign) == Some(*byte) => {}
            _ => return false,
        }
    }
    signs.next().is_none()
}

fn push_signs(bytes: &mut Vec<u8>, text: &str) -> Result<(), NoMemory> {
    for sign in text.chars() {
        let byte = byte_of(sign).ok_or(NoMemory)?;
        bytes.push(byte)?;
    }
    Ok(())
}

fn push_many(bytes: &mut Vec<u8>, text: &str) -> Result<(), NoMemory> {
    let (part, count) = text.split_once('*').ok_or(NoMemory)?;
    let count: u32 = count.parse().ok().ok_or(NoMemory)?;
    for _ in 0..count {
        push_signs(bytes, part)?;
    }
    Ok(())
}

fn push_text(bytes: &mut Vec<u8>, text: &str) -> Result<(), NoMemory> {
    match text.split_once('{') {
        Some((front, rest)) => {
            let (many, back) = rest.split_once('}').ok_or(NoMemory)?;
            push_signs(bytes, front)?;
            push_many(bytes, many)?;
            push_signs(bytes, back)
        }
        None if text == "-" => Ok(()),
        None => push_signs(bytes, text),
    }
}

/// The bytes of a text. One that can't be read has none.
pub(crate) fn bytes_of(alloc: Global, text: &str) -> Result<Vec<u8>, NoMemory> {
    let mut bytes = Vec::new(alloc);
    push_text(&mut bytes, text)?;
    Ok(bytes)
}

pub(crate) fn octets_of(alloc: Global, text: &str) -> Result<Octets, NoMemory> {
    Octets::from_vec(bytes_of(alloc, text)?)
}
