//! Patterns of `matches`, and what they match in bytes.
//!
//! `pattern`: a pattern, ` in `, and the texts that one search is asked of, each with ` -> found` or ` -> missed` and a comma between; or what is no
//! pattern, ` -> `, and its fault. Bytes that are no text stand behind `bytes:`. `long pattern`: the same with the pattern written as parts.

use crate::written::text_of;
use flt_typed::{Pattern, PatternFault, Search};
use std::alloc::Global;

fn bytes_of(alloc: Global, text: &str) -> Option<Vec<u8>> {
    match text.strip_prefix("bytes:") {
        Some(digits) => hex::decode(alloc, digits).ok(),
        None => text.as_bytes().to_vec(alloc).ok(),
    }
}

/// Whether a pattern is found in bytes, by a search of its own and by one that served others.
fn is_found(alloc: Global, pattern: &Pattern, search: &mut Search<'_>, case: &str) -> Option<bool> {
    let (text, want) = case.split_once(" -> ")?;
    let bytes = bytes_of(alloc, text)?;
    let found = pattern.is_in(alloc, &bytes).ok()?;
    let word = if found { "found" } else { "missed" };
    Some(word == want && search.is_in(&bytes) == found)
}

fn serves(alloc: Global, pattern: &Pattern, cases: &str) -> Option<bool> {
    let mut search = pattern.search(alloc).ok()?;
    for case in cases.split(", ") {
        if !is_found(alloc, pattern, &mut search, case)? {
            return Some(false);
        }
    }
    Some(true)
}

fn is_so(alloc: Global, source: &[u8], want: &str) -> Option<bool> {
    match &Pattern::new(alloc, source) {
        Ok(pattern) => { Some(pattern.source() == source && serves(alloc, pattern, want)?) }
        Err(PatternFault::NoPattern) => Some(want == "no pattern"),
        Err(PatternFault::Large) => Some(want == "large"),
        Err(PatternFault::NoMemory) => None,
    }
}

/// The pattern of a row, and what is told of it.
fn parts_of(row: &str) -> Option<(&str, &str)> {
    match row.split_once(" in ") {
        Some(parts) => Some(parts),
        None => row.split_once(" -> "),
    }
}

pub(crate) fn is_pattern(alloc: Global, row: &str) -> Option<bool> {
    let (pattern, want) = parts_of(row)?;
    let source = bytes_of(alloc, pattern)?;
    is_so(alloc, &source, want)
}

pub(crate) fn is_long_pattern(alloc: Global, row: &str) -> Option<bool> {
    let (parts, want) = parts_of(row)?;
    let source = text_of(alloc, parts)?;
    is_so(alloc, source.as_str().as_bytes(), want)
}
