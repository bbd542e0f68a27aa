//! Frames in words.
//!
//! A frame is `TIME/LINK/ORDER/ORIGINAL/BYTES`: nanoseconds since 1970 or `-`, the link type, `le` or `be`, how many bytes it had on the
//! wire, and the captured ones, in hexadecimal digits or, where they are counted from 0 to 250 again and again, `*` and how many they are.
//! A frame that was read has its number and `:` before that.
//!
//! How a file ends is `whole`, `too-large`, or the reason for damage, `@`, and the place.
use capture_read::{Ending, Frame, frames};
use hex::{decode, encode};
use pk_base::Octets;
use std::alloc::Global;

pub(crate) fn order_text(little: bool) -> &'static str {
    if little { "le" } else { "be" }
}

pub(crate) fn order_of(text: &str) -> Option<bool> {
    match text {
        "le" => Some(true),
        "be" => Some(false),
        _ => None,
    }
}

pub(crate) fn time_text(alloc: Global, time: Option<i128>) -> Option<String> {
    match time {
        Some(time) => format!(in alloc; "{time}").ok(),
        None => String::from_str(alloc, "-").ok(),
    }
}

/// A time as it stands in words, if it has one; nothing where it can't be read.
fn time_of(text: &str) -> Option<Option<i128>> {
    match text {
        "-" => Some(None),
        _ => Some(Some(text.parse().ok()?)),
    }
}

fn counted(alloc: Global, len: usize) -> Option<Vec<u8>> {
    let mut bytes = Vec::new(alloc);
    for place in 0..len {
        bytes.push((place % 251) as u8).ok()?;
    }
    Some(bytes)
}

fn bytes_text(alloc: Global, bytes: &[u8]) -> Option<String> {
    let len = bytes.len();
    let counted = counted(alloc, len)?;
    if counted.as_slice() == bytes {
        return format!(in alloc; "*{len}").ok();
    }
    encode(alloc, bytes).ok()
}

fn bytes_of(alloc: Global, text: &str) -> Option<Vec<u8>> {
    match text.strip_prefix('*') {
        Some(len) => counted(alloc, len.parse().ok()?),
        None => decode(alloc, text).ok(),
    }
}

/// The frame that a word gives. Its number doesn't stand there.
pub(crate) fn frame_of(alloc: Global, word: &str) -> Option<Frame> {
    let (time, rest) = word.split_once('/')?;
    let (link, rest) = rest.split_once('/')?;
    let (order, rest) = rest.split_once('/')?;
    let (original, bytes) = rest.split_once('/')?;
    Some(Frame {
        number: 7,
        time: time_of(time)?,
        link: link.parse().ok()?,
        little: order_of(order)?,
        original: original.parse().ok()?,
        bytes: Octets::from_vec(bytes_of(alloc, bytes)?).ok()?,
    })
}

pub(crate) fn frame_text(alloc: Global, frame: &Frame) -> Option<String> {
    let time = time_text(alloc, frame.time)?;
    let bytes = bytes_text(alloc, frame.bytes.bytes())?;
    let (number, link, original) = (frame.number, frame.link, frame.original);
    let order = order_text(frame.little);
    format!(in alloc; "{number}:{time}/{link}/{order}/{original}/{bytes}").ok()
}

pub(crate) fn ending_text(alloc: Global, ending: Ending) -> Option<String> {
    match ending {
        Ending::Whole => String::from_str(alloc, "whole").ok(),
        Ending::TooLarge => String::from_str(alloc, "too-large").ok(),
        Ending::Damaged(damage) => format!(in alloc; "{:?}@{}", damage.reason, damage.at).ok(),
    }
}

fn push_frame(alloc: Global, text: &mut Vec<u8>, frame: &Frame) -> Option<()> {
    let word = frame_text(alloc, frame)?;
    text.extend_from_slice(word.as_bytes()).ok()?;
    text.extend_from_slice(b" ").ok()
}

/// The frames of a file, and how it ends.
pub(crate) fn frames_text(alloc: Global, file: &[u8]) -> Option<Vec<u8>> {
    let (list, ending) = frames(alloc, file).ok()?;
    let mut text = Vec::new(alloc);
    for frame in list.slice() {
        push_frame(alloc, &mut text, frame)?;
    }
    let ending = ending_text(alloc, ending)?;
    text.extend_from_slice(ending.as_bytes()).ok()?;
    Some(text)
}
