//! Files that are merged.
//!
//! A row has a line for each file: its name, ` = `, its format, and its frames (module `frames`); behind the name stands ` but ` and how
//! many bytes are cut from the file's end, where any are. The next line is `merge `, the words of the command line with blanks between
//! them (`''` is an empty one, and `|` in one is a new line), the numbers of the calls that fail behind `fail=`, and of the writes behind
//! `write=`; ` -> `, and how merging ends. Then come the frames of what was written and its end, or `nothing`, and what standard error is
//! told.
use crate::files::named;
use crate::frames::frames_text;
use crate::pieces::numbers_of;
use crate::written::write_file;
use merge_caps::merge;
use pk_outside::{MemoryCapture, MemorySink, NamedFile};
use std::alloc::Global;

/// The bytes of a file but those that are cut from its end.
fn file_bytes(alloc: Global, given: &str, cut: usize) -> Option<Vec<u8>> {
    let mut bytes = Vec::new(alloc);
    let mut told = Vec::new(alloc);
    write_file(alloc, &mut bytes, &mut told, given)?;
    let len = bytes.len().checked_sub(cut)?;
    bytes.get(..len)?.to_vec(alloc).ok()
}

fn file_of(alloc: Global, line: &str) -> Option<NamedFile> {
    let (name, given) = line.split_once(" = ")?;
    let (name, cut) = name.split_once(" but ").unwrap_or((name, "0"));
    let bytes = file_bytes(alloc, given, cut.parse().ok()?)?;
    named(alloc, name, bytes)
}

fn files_of(alloc: Global, lines: &str) -> Option<Vec<NamedFile>> {
    let mut files = Vec::new(alloc);
    for line in lines.lines() {
        files.push(file_of(alloc, line)?).ok()?;
    }
    Some(files)
}

fn word_of(alloc: Global, text: &str) -> Option<String> {
    match text.split_once('|') {
        Some((front, back)) => format!(in alloc; "{front}\n{back}").ok(),
        None => String::from_str(alloc, if text == "''" { "" } else { text }).ok(),
    }
}

fn words_of(alloc: Global, line: &str) -> Option<Vec<String>> {
    let mut words = Vec::new(alloc);
    for text in line.split_whitespace() {
        if !text.starts_with("fail=") && !text.starts_with("write=") {
            words.push(word_of(alloc, text)?).ok()?;
        }
    }
    Some(words)
}

fn out_text(alloc: Global, out: &[u8]) -> Option<Vec<u8>> {
    if out.is_empty() {
        return b"nothing".to_vec(alloc).ok();
    }
    frames_text(alloc, out)
}

/// How merging ends, the frames of what is written, and what standard error is told.
fn merge_text(
    alloc: Global,
    words: &[String],
    capture: &mut MemoryCapture,
    out: &mut MemorySink,
) -> Option<String> {
    let mut err = MemorySink::new(alloc, Vec::new(alloc));
    let status = merge(alloc, words, capture, out, &mut err);
    let text = out_text(alloc, out.bytes())?;
    let out = str::from_utf8(&text).ok()?;
    let err = str::from_utf8(err.bytes()).ok()?;
    format!(in alloc; "{status:?}\n{out}\n{err}").ok()
}

fn merges_to(alloc: Global, capture: &mut MemoryCapture, line: &str, wanted: &str) -> Option<bool> {
    let mut out = MemorySink::new(alloc, numbers_of(alloc, line, "write=")?);
    let words = words_of(alloc, line)?;
    let text = merge_text(alloc, &words, capture, &mut out)?;
    Some(matches!(text.as_str().strip_suffix('\n'), Some(text) if text == wanted))
}

pub(crate) fn is_merged(alloc: Global, row: &str) -> Option<bool> {
    let (files, run) = row.split_once("\nmerge ")?;
    let (line, wanted) = run.split_once(" -> ")?;
    let failing = numbers_of(alloc, line, "fail=")?;
    let mut capture = MemoryCapture::new(files_of(alloc, files)?, failing, 7);
    merges_to(alloc, &mut capture, line, wanted)
}
