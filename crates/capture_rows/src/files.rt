//! Files as they are read.
//!
//! A row of `file` is a file's bytes, ` -> `, its frames, and how it ends (module `frames`). The same comes of a reader whose reads give
//! at most 1, 7 or 65,536 bytes. A row of `calls` has, before the bytes, the most that a read gives, the numbers of the calls that fail
//! behind `fail=`, and `: `; and behind ` -> ` what a reader answers call by call, of which the first call begins the file: a frame, how
//! the file ends, `fault` or `spent`.
use crate::frames::{ending_text, frame_text, frames_text};
use crate::pieces::{bytes_of, numbers_of};
use capture_read::{FrameReader, NextFrame, ReadError};
use pk_outside::{Capture, MemoryCapture, NamedFile};
use std::alloc::Global;

fn answer_text(alloc: Global, answer: Result<NextFrame, ReadError>) -> Option<String> {
    match answer {
        Ok(NextFrame::Frame(frame)) => frame_text(alloc, &frame),
        Ok(NextFrame::End(ending)) => ending_text(alloc, ending),
        Err(ReadError::ReadFault) => String::from_str(alloc, "fault").ok(),
        Err(ReadError::Spent) => String::from_str(alloc, "spent").ok(),
        Err(ReadError::NoMemory) => None,
    }
}

fn are_answers(
    alloc: Global,
    reader: &mut FrameReader,
    capture: &mut MemoryCapture,
    wanted: &str,
) -> Option<bool> {
    for word in wanted.split(' ') {
        let answer = answer_text(alloc, reader.next_frame(capture))?;
        if answer.as_str() != word {
            return Some(false);
        }
    }
    Some(true)
}

/// A file of a name. What can't be made isn't there.
pub(crate) fn named(alloc: Global, name: &str, bytes: Vec<u8>) -> Option<NamedFile> {
    Some(NamedFile::new(String::from_str(alloc, name).ok()?, bytes))
}

fn files_of(alloc: Global, bytes: &[u8]) -> Option<Vec<NamedFile>> {
    let mut files = Vec::new(alloc);
    files
        .push(named(alloc, "f", bytes.to_vec(alloc).ok()?)?)
        .ok()?;
    Some(files)
}

/// Whether reads of at most so many bytes, of which some calls fail, give these answers.
fn answers(
    alloc: Global,
    bytes: &[u8],
    failing: Vec<u64>,
    step: usize,
    wanted: &str,
) -> Option<bool> {
    let mut capture = MemoryCapture::new(files_of(alloc, bytes)?, failing, step.max(1));
    capture.begin(String::from_str(alloc, "f").ok()?).ok()?;
    let mut reader = FrameReader::new(alloc);
    are_answers(alloc, &mut reader, &mut capture, wanted)
}

fn is_read(alloc: Global, bytes: &[u8], wanted: &str) -> Option<bool> {
    let text = frames_text(alloc, bytes)?;
    Some(text.as_slice() == wanted.as_bytes())
}

pub(crate) fn is_file(alloc: Global, row: &str) -> Option<bool> {
    let (given, wanted) = row.split_once(" -> ")?;
    let bytes = bytes_of(alloc, given)?;
    Some(
        is_read(alloc, &bytes, wanted)?
            && answers(alloc, &bytes, Vec::new(alloc), 1, wanted)?
            && answers(alloc, &bytes, Vec::new(alloc), 7, wanted)?
            && answers(alloc, &bytes, Vec::new(alloc), 65_536, wanted)?,
    )
}

pub(crate) fn are_calls(alloc: Global, row: &str) -> Option<bool> {
    let (given, wanted) = row.split_once(" -> ")?;
    let (how, bytes) = given.split_once(':')?;
    let (step, calls) = how.split_once(' ').unwrap_or((how, ""));
    let step = step.parse().ok()?;
    let bytes = bytes_of(alloc, bytes)?;
    let failing = numbers_of(alloc, calls, "fail=")?;
    answers(alloc, &bytes, failing, step, wanted)
}
