//! Command lines, and what is answered: the word and the reason of the refusal, as `3 A6`, or `ok`, or parts of what is asked for.
//!
//! Words stand with blanks between them, or each behind `|`. `BLANKS` is a word of a blank, a tab, a carriage return and a line feed. The
//! words behind `10000 times` come so often; in them `#` stands for how often they came before.
use crate::plans::has_parts;
use shark_words::{WordFault, WordReason, WordsError, read_words};
use std::alloc::{AllocError, Global};
use tree_rows::Unread;

pub(crate) fn number_of(text: &str) -> Option<u64> {
    text.parse().ok()
}

/// The reason A1, A2, .., A9.
fn reason_of(number: u64) -> Option<WordReason> {
    match number {
        1 => Some(WordReason::UnknownOption),
        2 => Some(WordReason::MissingValue),
        3 => Some(WordReason::StrayWord),
        4 => Some(WordReason::NoFile),
        5 => Some(WordReason::Repeated),
        6 => Some(WordReason::BadValue),
        7 => Some(WordReason::NoFields),
        8 => Some(WordReason::Unused),
        9 => Some(WordReason::Clash),
        _ => None,
    }
}

/// The fault of a word's number, a blank and a reason's code.
pub(crate) fn fault_of(text: &str) -> Option<WordFault> {
    let (word, code) = text.split_once(" A")?;
    Some(WordFault {
        word: number_of(word)?,
        reason: reason_of(number_of(code)?)?,
    })
}

fn word_of(alloc: Global, word: &str, number: u32) -> Result<String, AllocError> {
    match word.split_once('#') {
        Some((front, back)) => format!(in alloc; "{front}{number}{back}"),
        None if word == "BLANKS" => String::from_str(alloc, " \t\r\n"),
        None => String::from_str(alloc, word),
    }
}

fn push_words(
    alloc: Global,
    all: &mut Vec<String>,
    line: &str,
    number: u32,
) -> Result<(), AllocError> {
    let (words, end) = match line.strip_prefix('|') {
        Some(words) => (words, '|'),
        None => (line, ' '),
    };
    for word in words.split(end) {
        let word = word_of(alloc, word, number)?;
        all.push(word)?;
    }
    Ok(())
}

fn push_line(alloc: Global, all: &mut Vec<String>, line: &str) -> Result<(), AllocError> {
    if line.is_empty() {
        return Ok(());
    }
    let Some((words, repeated)) = line.split_once(" 10000 times ") else {
        return push_words(alloc, all, line, 0);
    };
    push_words(alloc, all, words, 0)?;
    for number in 0..10_000 {
        push_words(alloc, all, repeated, number)?;
    }
    Ok(())
}

pub(crate) fn are_answered(alloc: Global, line: &str, wanted: &str) -> Result<bool, Unread> {
    let mut words = Vec::new(alloc);
    push_line(alloc, &mut words, line)?;
    match read_words(alloc, &words) {
        Ok(options) => Ok(has_parts(&options, wanted)),
        Err(WordsError::Fault(fault)) => Ok(fault_of(wanted) == Some(fault)),
        Err(WordsError::NoMemory) => Ok(false),
    }
}
