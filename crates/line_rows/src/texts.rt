//! What standard error is told, and how a program ends.
//!
//! Told are faults, with `, ` between them: `word` with a number and a code, `open` with a file's name, `write` with a frame's number,
//! `read` and `size`. A reason has the number of its code. Of a program that ends it is given whether its output `works` or `fails`, the number
//! of its run, the lines that were written and those that are to be told, and wanted are its own number, the lines that came out and those
//! that were told, with `; ` between them, and `, ` between lines; `-` is no line.
use crate::lines::is_text;
use crate::words::{fault_of, number_of};
use pk_base::Reason;
use pk_outside::{GatheringSink, MemorySink, Sink, SureSink, write_whole};
use run_texts::{
    NO_MEMORY, Text, cannot_open_text, cannot_write_text, end_run, read_fault_text, reason_text,
    tell, too_large_text, word_fault_text,
};
use std::alloc::Global;
use tree_rows::Unread;

/// The reason B1, B2, .., B10.
fn reason_of(number: u64) -> Option<Reason> {
    match number {
        1 => Some(Reason::ShortHeader),
        2 => Some(Reason::UnknownMagic),
        3 => Some(Reason::BadVersion),
        4 => Some(Reason::RecordCut),
        5 => Some(Reason::TooLong),
        6 => Some(Reason::BlockLength),
        7 => Some(Reason::BlockCut),
        8 => Some(Reason::BadInterface),
        9 => Some(Reason::BadOption),
        10 => Some(Reason::BadResolution),
        _ => None,
    }
}

pub(crate) fn is_reason(number: &str, wanted: &str) -> bool {
    match reason_of(number_of(number).unwrap_or(0)) {
        Some(reason) => reason_text(reason) == wanted,
        None => false,
    }
}

/// What is told of a file whose name was copied twice.
fn unopened(alloc: Global, name: &str) -> Result<String, Unread> {
    let first = Text::copy(alloc, name)?;
    let name = Text::from_string(first.to_string(alloc)?);
    Ok(cannot_open_text(alloc, name.as_str())?)
}

fn text_of(alloc: Global, fault: &str) -> Result<String, Unread> {
    let (kind, value) = fault.split_once(' ').unwrap_or((fault, ""));
    match (kind, fault_of(value), number_of(value)) {
        ("word", Some(fault), _) => Ok(word_fault_text(alloc, fault)?),
        ("open", _, _) => unopened(alloc, value),
        ("write", _, Some(number)) => Ok(cannot_write_text(alloc, number)?),
        ("read", _, _) => Ok(String::from_str(alloc, read_fault_text())?),
        ("size", _, _) => Ok(String::from_str(alloc, too_large_text())?),
        _ => Err(Unread::Line),
    }
}

pub(crate) fn is_told(alloc: Global, faults: &str, wanted: &str) -> Result<bool, Unread> {
    let mut err = MemorySink::new(alloc, Vec::new(alloc));
    for fault in faults.split(", ") {
        let text = text_of(alloc, fault)?;
        tell(&mut err, text.as_bytes());
    }
    Ok(is_text(err.bytes(), wanted))
}

/// Writes lines, of which `-` is none, and answers whether they were taken.
fn takes<S: Sink>(sink: &mut S, lines: &str) -> bool {
    for line in lines.split(", ") {
        if line != "-"
            && (write_whole(sink, line.as_bytes()).is_err() || write_whole(sink, b"\n").is_err())
        {
            return false;
        }
    }
    true
}

/// Whether bytes are lines.
fn are_lines(alloc: Global, bytes: &[u8], lines: &str) -> bool {
    let mut sink = SureSink::new(alloc);
    takes(&mut sink, lines) && sink.bytes() == bytes
}

/// A number, lines that are written, and lines that are told.
type End<'a> = (u64, &'a str, &'a str);

fn end_of(text: &str) -> Option<End> {
    let (number, rest) = text.split_once("; ")?;
    let (written, told) = rest.split_once("; ")?;
    Some((number_of(number)?, written, told))
}

/// Whether a program ends so behind its run.
fn ends(alloc: Global, fails: bool, run: End, wanted: End) -> bool {
    let Ok(number) = u8::try_from(run.0) else {
        return false;
    };
    let mut out = GatheringSink::new(alloc, fails);
    let mut told = SureSink::new(alloc);
    let mut err = MemorySink::new(alloc, Vec::new(alloc));
    takes(&mut out, run.1)
        && takes(&mut told, run.2)
        && u64::from(end_run(&mut out, &told, &mut err, number)) == wanted.0
        && are_lines(alloc, out.handed(), wanted.1)
        && are_lines(alloc, err.bytes(), wanted.2)
}

pub(crate) fn ends_so(alloc: Global, given: &str, wanted: &str) -> bool {
    let (output, run) = given.split_once("; ").unwrap_or((given, ""));
    match (output, end_of(run), end_of(wanted)) {
        ("works", Some(run), Some(wanted)) => ends(alloc, false, run, wanted),
        ("fails", Some(run), Some(wanted)) => ends(alloc, true, run, wanted),
        ("no memory", None, None) => number_of(wanted) == Some(u64::from(NO_MEMORY)),
        _ => false,
    }
}
