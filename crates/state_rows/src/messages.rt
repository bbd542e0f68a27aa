//! The first HTTP message of bytes (RFC 9112). A row is `GET / HTTP/1.1␍␊␍␊ -> request 18 none 18 follows 0`: the bytes; `request` (or
//! `request-head`), `response` or `interim`; the length of its head; its body (`none`, `plain` and its length, `chunked` and the place and
//! length of each piece, or `hidden`); its end, and what follows: so many bytes that belong to no message, or only such (`opaque`). Or the
//! message is `unfinished`. It is found when its last byte comes: by looking anew at what came so far, and by going on from the last look.
use crate::words::{behind, bytes_of, first_of, is_number, is_pair};
use pk_base::NoMemory;
use std::alloc::Global;
use stream_messages::{Body, Framed, Framing, Piece, Progress, Shape, Then, next_message, resume};

fn kind_of(shape: &Shape) -> &'static str {
    match (shape.request, shape.asks_head, shape.interim) {
        (true, false, false) => "request",
        (true, true, false) => "request-head",
        (false, false, true) => "interim",
        (false, false, false) => "response",
        _ => "?",
    }
}

/// What follows these pieces, if words begin with them.
fn behind_pieces<'a>(words: &'a str, pieces: &[Piece]) -> Option<&'a str> {
    let mut rest = words;
    for piece in pieces {
        let (word, others) = first_of(rest);
        if !is_pair(word, '+', piece.start as u64, piece.len as u64) {
            return None;
        }
        rest = others;
    }
    Some(rest)
}

/// What follows a body, if words begin with it.
fn behind_body<'a>(words: &'a str, body: &Body) -> Option<&'a str> {
    let (kind, rest) = first_of(words);
    match (kind, body) {
        ("none", Body::None) | ("hidden", Body::NotShown) => Some(rest),
        ("plain", Body::Plain(len)) => behind(rest, &[Some(i128::from(*len as u64))]),
        ("chunked", Body::Chunked(pieces)) => behind_pieces(rest, pieces.slice()),
        _ => None,
    }
}

fn is_then(words: &str, then: Then) -> bool {
    match then {
        Then::Opaque => words == "opaque",
        Then::Follows(count) => match words.strip_prefix("follows ") {
            Some(word) => is_number(word, Some(i128::from(count))),
            None => false,
        },
    }
}

fn is_end(words: &str, shape: &Shape) -> bool {
    match behind(words, &[Some(i128::from(shape.end as u64))]) {
        Some(rest) => is_then(rest, shape.then),
        None => false,
    }
}

/// Whether words tell a message.
fn is_told(words: &str, shape: &Shape) -> bool {
    let (kind, rest) = first_of(words);
    let (head, rest) = first_of(rest);
    let is_head = kind == kind_of(shape) && is_number(head, Some(i128::from(shape.head as u64)));
    match behind_body(rest, &shape.body) {
        Some(rest) => is_head && is_end(rest, shape),
        None => false,
    }
}

/// Whether the first message of bytes, if there is one, is the one that is told. It ends with the bytes, or they are the `whole`.
fn look(
    alloc: Global,
    bytes: &[u8],
    asked: bool,
    whole: bool,
    told: &str,
) -> Result<Option<bool>, NoMemory> {
    match next_message(alloc, bytes, asked)? {
        Framed::Message(shape) => Ok(Some(
            (whole || shape.end == bytes.len()) && is_told(told, &shape),
        )),
        Framed::Unfinished => Ok(None),
    }
}

/// Looks for the first message of all bytes.
fn is_first(alloc: Global, bytes: &[u8], asked: bool, told: &str) -> Result<bool, NoMemory> {
    let found = look(alloc, bytes, asked, true, told)?;
    Ok(found.unwrap_or(told == "unfinished"))
}

/// Looks for the first message anew after each byte that comes.
fn is_found_anew(alloc: Global, bytes: &[u8], asked: bool, told: &str) -> Result<bool, NoMemory> {
    for cut in 0..=bytes.len() {
        if let Some(is_told) = look(alloc, &bytes[..cut], asked, false, told)? {
            return Ok(is_told);
        }
    }
    Ok(told == "unfinished")
}

/// How far a look came, or whether it found the message that is told, which ends there.
fn progress_of(framing: Framing, end: usize, told: &str) -> Result<Progress, bool> {
    match framing {
        Framing::Unfinished(next) => Ok(next),
        Framing::Message(shape) => Err(shape.end == end && is_told(told, &shape)),
    }
}

/// The same from where the last look stopped.
fn is_resumed(alloc: Global, bytes: &[u8], asked: bool, told: &str) -> Result<bool, NoMemory> {
    let mut progress = Progress::begun(asked);
    for cut in 0..=bytes.len() {
        match progress_of(resume(alloc, &bytes[..cut], progress)?, cut, told) {
            Ok(next) => progress = next,
            Err(is_told) => return Ok(is_told),
        }
    }
    Ok(told == "unfinished")
}

fn are_found(alloc: Global, bytes: &[u8], asked: bool, told: &str) -> Result<bool, NoMemory> {
    Ok(
        is_found_anew(alloc, bytes, asked, told)?
            && is_resumed(alloc, bytes, asked, told)?
            && is_first(alloc, bytes, asked, told)?,
    )
}

/// Whether a row holds whose bytes come one by one.
pub(crate) fn hold(alloc: Global, asked: bool, row: &str) -> Result<bool, NoMemory> {
    let (text, told) = row.split_once(" -> ").unwrap_or((row, ""));
    let bytes = bytes_of(alloc, text)?;
    are_found(alloc, &bytes, asked, told)
}

/// Whether a row holds whose bytes come at once.
pub(crate) fn holds_whole(alloc: Global, row: &str) -> Result<bool, NoMemory> {
    let (text, told) = row.split_once(" -> ").unwrap_or((row, ""));
    let bytes = bytes_of(alloc, text)?;
    is_first(alloc, &bytes, false, told)
}
