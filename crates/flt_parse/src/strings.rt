// The strings of a filter's text.
ghost use Rattle.std.specs.Prelude.{◌≡◌, ◌==◌, position, ◌≤◌, ◌<◌, None, Ok, IfOk, IfSome, length};
ghost use Rattle.std.specs.Option.{option_map};
ghost use Rattle.flt_syntax.specs.Strings.{hex_byte as byte_of_hex, escape as escape_of, piece as piece_of, string_inside, raw_inside};

use crate::joins::let_go;
use pk_base::{NoMemory, Octets, bytes_from};
use std::alloc::Global;

/// A byte of a string, and how many bytes spell it.
#[derive(Clone, Copy)]
pub struct Piece {
    value: u8,
    width: usize,
}

/// What a string stands for, and how many bytes there are up to and with its closing `"`.
#[derive(Drop)]
pub struct Inside {
    pub bytes: Octets,
    pub width: usize,
}

/// Where no string stands: what was read before is given up.
fn nothing<T: Drop>(_read: T) -> Result<Option<Inside>, NoMemory>
    ensures { result ≡ Ok None }
{
    Ok(None)
}

/// Reads a string behind its opening `"`; None where it doesn't end, or has another escape.
#[tactic(auto, using(crate::proofs::Inside::read_on))]
pub fn read_string(alloc: Global, text: &[u8]) -> Result<Option<Inside>, NoMemory>
    ensures value { IfOk result (λ answer.
        option_map (λ s. (s.bytes, s.width)) answer ≡ string_inside 0 text.now) }
    ensures within { IfOk result (λ answer. IfSome answer (λ s. s.width ≤ length text.now)) }
{
    let mut bytes = Vec::new(alloc);
    let mut at = 0;
    'pieces: while at < text.len() && text[at] != b'"' {
        let Some(piece) = piece_at(bytes_from(text, at)) else {
            return nothing(bytes);
        };
        match bytes.push(piece.value) {
            Ok(()) => {}
            Err(error) => {
                let_go((error, bytes));
                return Err(NoMemory);
            }
        }
        at += piece.width;
    }
    if at >= text.len() {
        return nothing(bytes);
    }
    Ok(Some(Inside {
        bytes: Octets::from_vec(bytes)?,
        width: at + 1,
    }))
}

/// Reads a raw string behind its `r"`; None where it doesn't end.
pub fn read_raw(alloc: Global, text: &[u8]) -> Result<Option<Inside>, NoMemory>
    ensures value { IfOk result (λ answer.
        option_map (λ s. (s.bytes, s.width)) answer ≡ raw_inside text.now) }
    ensures within { IfOk result (λ answer. IfSome answer (λ s. s.width ≤ length text.now)) }
{
    let Some(end) = quote_in(text) else {
        return Ok(None);
    };
    Ok(Some(Inside {
        bytes: Octets::copy(alloc, &text[..end])?,
        width: end + 1,
    }))
}

/// The place of the first `"`.
fn quote_in(text: &[u8]) -> Option<usize>
    ensures value { result ≡ position (λ b. b == 34) text.now }
    ensures within { IfSome result (λ n. n < length text.now) }
{
    for (at, byte) in text.iter().enumerate() {
        if *byte == b'"' {
            return Some(at);
        }
    }
    None
}

/// The first byte that the inside of a string stands for; None at the text's end and at an escape that is none.
#[tactic(auto, using(crate::proofs::Inside::escape_fits))]
fn piece_at(text: &[u8]) -> Option<Piece>
    ensures value { option_map (λ p. (p.value, p.width)) result ≡ piece_of text.now }
    ensures within { IfSome result (λ p. (0 < p.width) × (p.width ≤ length text.now)) }
{
    match text {
        [] => None,
        [b'\\', behind @ ..] => escape_at(behind),
        [value, ..] => Some(Piece {
            value: *value,
            width: 1,
        }),
    }
}

fn escape_at(text: &[u8]) -> Option<Piece>
    ensures { option_map (λ p. (p.value, p.width)) result ≡ escape_of text.now }
{
    match text {
        [b'\\', ..] => Some(Piece {
            value: b'\\',
            width: 2,
        }),
        [b'"', ..] => Some(Piece {
            value: b'"',
            width: 2,
        }),
        [b'n', ..] => Some(Piece {
            value: b'\n',
            width: 2,
        }),
        [b'r', ..] => Some(Piece {
            value: b'\r',
            width: 2,
        }),
        [b't', ..] => Some(Piece {
            value: b'\t',
            width: 2,
        }),
        [b'x', behind @ ..] => hex_at(behind),
        _ => None,
    }
}

fn hex_at(text: &[u8]) -> Option<Piece>
    ensures { option_map (λ p. (p.value, p.width)) result ≡ byte_of_hex text.now }
{
    let [high, low, ..] = text else {
        return None;
    };
    let high = char::from(*high).to_digit(16)?;
    let low = char::from(*low).to_digit(16)?;
    Some(Piece {
        value: (high * 16 + low) as u8,
        width: 4,
    })
}
