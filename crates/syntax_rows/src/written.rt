//! Filters' texts by the rules of the language.
//!
//! `filter`: a text, ` -> `, and `read`, its tree, or its fault: the place, counted by hand, and the reason. `long filter`: the same, where the
//! text is its parts with `|` between, how often each stands and a colon before it; `BLANK`, `TAB`, `CR` and `LF` are parts too.

use crate::shape::behind_filter;
use flt_parse::parse;
use flt_syntax::{FilterError, FilterFault, FilterReason};
use std::alloc::Global;

fn push_times(text: &mut String, part: &str) -> Option<()> {
    let (times, part) = part.split_once(':')?;
    let part = match part {
        "BLANK" => " ",
        "TAB" => "\t",
        "CR" => "\r",
        "LF" => "\n",
        _ => part,
    };
    let times: usize = times.parse().ok()?;
    for _ in 0..times {
        text.push_str(part).ok()?;
    }
    Some(())
}

/// The text of parts, of which each stands as often as is told.
pub(crate) fn text_of(alloc: Global, parts: &str) -> Option<String> {
    let mut text = String::new(alloc);
    for part in parts.split('|') {
        push_times(&mut text, part)?;
    }
    Some(text)
}

fn reason_of(name: &str) -> Option<FilterReason> {
    match name {
        "bad character" => Some(FilterReason::BadChar),
        "bad string" => Some(FilterReason::BadString),
        "unexpected" => Some(FilterReason::Unexpected),
        "too long" => Some(FilterReason::TooLong),
        "too deep" => Some(FilterReason::TooDeep),
        _ => None,
    }
}

fn is_fault(fault: FilterFault, want: &str) -> bool {
    let (at, reason) = want.split_once(' ').unwrap_or((want, ""));
    at.parse() == Ok(fault.at) && reason_of(reason) == Some(fault.reason)
}

fn answers(alloc: Global, text: &str, want: &str) -> bool {
    match &parse(alloc, text) {
        Ok(filter) => want == "read" || behind_filter(filter, want) == Some(""),
        Err(FilterError::Fault(fault)) => is_fault(*fault, want),
        Err(FilterError::NoMemory) => false,
    }
}

pub(crate) fn is_answered(alloc: Global, row: &str) -> Option<bool> {
    let (text, want) = row.split_once(" -> ")?;
    Some(answers(alloc, text, want))
}

pub(crate) fn is_long_answered(alloc: Global, row: &str) -> Option<bool> {
    let (parts, want) = row.split_once(" -> ")?;
    let text = text_of(alloc, parts)?;
    Some(answers(alloc, text.as_str(), want))
}
