//! Files as they are written: the format, frames (module `frames`), ` -> `, and for each of them whether it fits; then ` = ` and the
//! file, its frames and how it ends, or behind ` = bytes ` its bytes.
use crate::frames::{frame_of, frames_text};
use crate::pieces::bytes_of;
use capture_write::{Added, Format, Writer};
use pk_base::Octets;
use std::alloc::Global;

fn put_added(file: &mut Vec<u8>, told: &mut Vec<u8>, added: &Added) -> Option<()> {
    match added {
        Added::Bytes(bytes) => {
            file.extend_from_slice(bytes.bytes()).ok()?;
            told.extend_from_slice(b"fits ").ok()
        }
        Added::Unfit => told.extend_from_slice(b"unfit ").ok(),
    }
}

fn put_frame(
    alloc: Global,
    writer: &mut Writer,
    file: &mut Vec<u8>,
    told: &mut Vec<u8>,
    word: &str,
) -> Option<()> {
    let frame = frame_of(alloc, word)?;
    let added = writer.add(&frame).ok()?;
    put_added(file, told, &added)
}

fn put_frames(
    alloc: Global,
    writer: &mut Writer,
    file: &mut Vec<u8>,
    told: &mut Vec<u8>,
    words: &str,
) -> Option<()> {
    for word in words.split_whitespace() {
        put_frame(alloc, writer, file, told, word)?;
    }
    Some(())
}

fn put_end(file: &mut Vec<u8>, end: &Octets) -> Option<()> {
    file.extend_from_slice(end.bytes()).ok()
}

fn format_of(word: &str) -> Option<Format> {
    match word {
        "pcap" => Some(Format::Pcap),
        "pcapng" => Some(Format::Pcapng),
        _ => None,
    }
}

/// Writes the file of a format and frames, and tells which of them fit.
pub(crate) fn write_file(
    alloc: Global,
    file: &mut Vec<u8>,
    told: &mut Vec<u8>,
    given: &str,
) -> Option<()> {
    let (format, words) = given.split_once(' ').unwrap_or((given, ""));
    let mut writer = Writer::new(alloc, format_of(format)?);
    put_frames(alloc, &mut writer, file, told, words)?;
    put_end(file, &writer.finish().ok()?)
}

fn is_file(alloc: Global, file: &[u8], wanted: &str) -> Option<bool> {
    if let Some(words) = wanted.strip_prefix("bytes ") {
        let bytes = bytes_of(alloc, words)?;
        return Some(file == bytes.as_slice());
    }
    let text = frames_text(alloc, file)?;
    Some(text.as_slice() == wanted.as_bytes())
}

fn told_so(
    alloc: Global,
    file: &mut Vec<u8>,
    told: &mut Vec<u8>,
    given: &str,
    wanted: &str,
) -> Option<bool> {
    write_file(alloc, file, told, given)?;
    let (fits, wanted) = wanted.split_once("= ")?;
    Some(told.as_slice() == fits.as_bytes() && is_file(alloc, file, wanted)?)
}

pub(crate) fn is_written(alloc: Global, row: &str) -> Option<bool> {
    let (given, wanted) = row.split_once(" -> ")?;
    let mut file = Vec::new(alloc);
    let mut told = Vec::new(alloc);
    told_so(alloc, &mut file, &mut told, given, wanted)
}
