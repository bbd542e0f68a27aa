//! Runs over a file in memory, as rows tell them, and whether they come to what is told.
//!
//! A row's first line says what the run shows, and begins with none of these words. Behind it stand these lines, in any order:
//!
//!     words -r f -T fields     the words, a space between two
//!     file d4c3b2a1            the bytes of the file `f`, in hexadecimal digits; where that isn't told, none
//!     fails capture 5          the call of the capture that fails, counted from 1; so `fails output` and `fails errors` for writes
//!     up to 9                  the run is made once for each call of the capture from that one to this one, which fails
//!     step 100                 how many bytes a read gives at most; where that isn't told, 1000, and 1 in a second run
//!     exit 6                   the status with which the program ends, where that isn't 0
//!     > 1                      a line of the output
//!     ! shark: read fault      a line of standard error
//!
//! In tables of `sure` nothing outside fails, and what standard error gets isn't told.
use hex::decode;
use pk_outside::{MemoryCapture, MemorySink, NamedFile, SureSink};
use pk_text::{Wide, read_number};
use shark_run::{run, sure_run};
use std::alloc::{AllocError, Global};

/// What stands behind a word in the first line of a row that begins with it.
fn value<'a>(row: &'a str, word: &str) -> &'a str {
    for line in row.lines() {
        if let Some(value) = line.strip_prefix(word) {
            return value;
        }
    }
    ""
}

/// The number behind a word of a row, or this one where the word doesn't stand there. What tells none can't be read.
fn number(row: &str, word: &str, otherwise: u64) -> Result<u64, AllocError> {
    match value(row, word) {
        "" => Ok(otherwise),
        digits => match read_number(digits) {
            Some(Wide::Fits(number)) => Ok(number),
            _ => Err(AllocError),
        },
    }
}

fn words_of(alloc: Global, row: &str) -> Result<Vec<String>, AllocError> {
    let mut words = Vec::new(alloc);
    for word in value(row, "words ").split(' ') {
        let word = String::from_str(alloc, word)?;
        words.push(word)?;
    }
    Ok(words)
}

/// The bytes of a row's file. What spells none can't be read.
fn file_of(alloc: Global, row: &str) -> Result<Vec<u8>, AllocError> {
    match decode(alloc, value(row, "file ").as_bytes()) {
        Ok(bytes) => Ok(bytes),
        Err(_) => Err(AllocError),
    }
}

/// A capture of a row's file, of which this call fails, and a read gives so many bytes at most.
fn capture_of(
    alloc: Global,
    row: &str,
    failing: u64,
    step: u64,
) -> Result<MemoryCapture, AllocError> {
    let bytes = file_of(alloc, row)?;
    let name = String::from_str(alloc, "f")?;
    let files = Vec::from_array(alloc, [NamedFile::new(name, bytes)])?;
    let failing = Vec::from_slice(alloc, &[failing])?;
    Ok(MemoryCapture::new(files, failing, (step as usize).max(1)))
}

/// A sink whose write of the number behind a word fails.
fn sink_of(alloc: Global, row: &str, word: &str) -> Result<MemorySink, AllocError> {
    let failing = number(row, word, 0)?;
    let failing = Vec::from_slice(alloc, &[failing])?;
    Ok(MemorySink::new(alloc, failing))
}

/// Whether bytes are the lines that a row says behind this sign.
fn are_lines(bytes: &[u8], row: &str, sign: &str) -> bool {
    let mut rest = bytes;
    for line in row.lines() {
        if let Some(text) = line.strip_prefix(sign) {
            let Some(behind) = rest.strip_prefix(text.as_bytes()) else {
                return false;
            };
            let Some(behind) = behind.strip_prefix(b"\n") else {
                return false;
            };
            rest = behind;
        }
    }
    rest.is_empty()
}

/// Whether a run over this capture comes to what its row tells.
fn comes_over(
    alloc: Global,
    row: &str,
    words: &[String],
    capture: &mut MemoryCapture,
    out: &mut MemorySink,
) -> Result<bool, AllocError> {
    let told = number(row, "exit ", 0)?;
    let mut err = sink_of(alloc, row, "fails errors ")?;
    let status = run(alloc, words, capture, out, &mut err);
    Ok(
        u64::from(status.exit_number()) == told
            && are_lines(out.bytes(), row, "> ")
            && are_lines(err.bytes(), row, "! "),
    )
}

fn comes_by(
    alloc: Global,
    row: &str,
    words: &[String],
    failing: u64,
    step: u64,
) -> Result<bool, AllocError> {
    let mut capture = capture_of(alloc, row, failing, step)?;
    let mut out = sink_of(alloc, row, "fails output ")?;
    comes_over(alloc, row, words, &mut capture, &mut out)
}

/// Whether the runs of a row come to what it tells: for each call that is to fail, by the largest reads and by the smallest.
fn comes_each(alloc: Global, row: &str, words: &[String]) -> Result<bool, AllocError> {
    let first = number(row, "fails capture ", 0)?;
    let last = number(row, "up to ", first)?;
    let most = number(row, "step ", 1000)?;
    let least = number(row, "step ", 1)?;
    for failing in first..=last {
        let comes = comes_by(alloc, row, words, failing, most)?
            && comes_by(alloc, row, words, failing, least)?;
        if !comes {
            return Ok(false);
        }
    }
    Ok(first <= last)
}

fn comes_surely(alloc: Global, row: &str, words: &[String]) -> Result<bool, AllocError> {
    let told = number(row, "exit ", 0)?;
    let file = file_of(alloc, row)?;
    let mut out = SureSink::new(alloc);
    let status = sure_run(alloc, words, file, &mut out);
    Ok(u64::from(status.exit_number()) == told && are_lines(out.bytes(), row, "> "))
}

/// Whether a row of the table of this name holds.
pub(crate) fn holds(alloc: Global, table: &str, row: &str) -> bool {
    let Ok(words) = words_of(alloc, row) else {
        return false;
    };
    let comes = match table.split_once(": ") {
        Some(("run", _)) => comes_each(alloc, row, words.as_slice()),
        Some(("sure", _)) => comes_surely(alloc, row, words.as_slice()),
        _ => Ok(false),
    };
    comes == Ok(true)
}
