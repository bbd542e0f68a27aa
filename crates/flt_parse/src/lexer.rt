// The tokens of a filter's text.
ghost use Rattle.std.specs.Prelude.{◌≡◌, IfSome, ◌≤◌, ◌<◌, ◌+◌, ◌-◌, length, take, drop, Ok, Err, IfOk, IfErr};
ghost use Rattle.std.specs.Option.{option_map};
ghost use Rattle.flt_parse.specs.Parser.Lexemes.{IsToken};
ghost use Rattle.flt_syntax.specs.Letters.{opening as opening_in, word_len as len_of_word};
ghost use Rattle.flt_syntax.specs.Strings.{raw_inside, string_inside};
ghost use Rattle.flt_syntax.specs.Tokens.{first_sign as sign_in_front, digits_lexeme as lexeme_of_digits, IsTokenError, IsTokensError, bracket_token as token_in_brackets, function_of as function_in, lexeme as lexeme_of, mode_behind as mode_after, name_or_call as lexeme_of_call, next_place as place_behind, plain_token as token_outside, sign_lexeme as lexeme_of_sign, text_lexeme as lexeme_of_text, token_at as token_read, tokens_of, word_lexeme as lexeme_of_word};

use crate::joins::refused;
use crate::keywords::{function_of, keyword_kind, keyword_of};
use crate::letters::{
    begins_word, blanks, digits_len, is_blank, is_number, number_of, opening, word_len,
};
use crate::signs::{first_sign, sign_kind, sign_text};
use crate::strings::{Inside, read_raw, read_string};
use flt_syntax::{
    FilterError, FilterFault, FilterReason, Kind, Layer, Lexeme, Mode, Quote, Token, Word, WordText,
};
use pk_base::{NoMemory, bytes_from};
use std::alloc::Global;
use std::collections::VecDeque;

/// The tokens of a text, or the first byte or string that is none.
pub fn tokens_in(alloc: Global, text: &str) -> Result<VecDeque<Token>, FilterError>
    requires { length text.now ≤ 4096 }
    ensures ok { IfOk result (λ tokens. tokens_of text.now ≡ Ok tokens.items) }
    ensures err { IfErr result (IsTokensError (tokens_of text.now)) }
{
    let bytes = text.as_bytes();
    let mut tokens = VecDeque::new(alloc);
    let mut mode = Mode::Plain;
    let mut at = 0;
    'tokens: while at < bytes.len() {
        if is_blank(bytes[at]) {
            at += 1;
            continue;
        }
        let Lexeme { kind, width } = match token_at(alloc, text, mode, at) {
            Ok(lexeme) => lexeme,
            Err(error) => return refused(error, tokens),
        };
        mode = mode_behind(&kind);
        let token = Token {
            at: at as u32,
            kind,
        };
        match tokens.push_back(token) {
            Ok(()) => {}
            Err(error) => return refused(FilterError::NoMemory, (error, tokens)),
        }
        at += width;
    }
    Ok(tokens)
}

/// How the text is read behind a token.
fn mode_behind(kind: &Kind) -> Mode
    ensures { result ≡ mode_after kind.now }
{
    match kind {
        Kind::Hash => Mode::BehindHash,
        Kind::OpenRanges(_, _)
        | Kind::OpenLayers(_)
        | Kind::NextRange(_)
        | Kind::Colon
        | Kind::Minus
        | Kind::Number(_)
        | Kind::LongNumber => Mode::InBrackets,
        _ => Mode::Plain,
    }
}

/// The token at a place where no blank stands.
fn token_at(alloc: Global, text: &str, mode: Mode, at: usize) -> Result<Lexeme, FilterError>
    requires short { length text.now ≤ 4096 }
    requires inside { at < length text.now }
    ensures { IsToken at (length text.now - at) (token_read mode at (drop at text.now)) result }
{
    match mode {
        Mode::InBrackets => bracket_token(bytes_from(text.as_bytes(), at), at),
        Mode::Plain | Mode::BehindHash => plain_token(alloc, text, mode, at),
    }
}

fn plain_token(alloc: Global, text: &str, mode: Mode, at: usize) -> Result<Lexeme, FilterError>
    requires short { length text.now ≤ 4096 }
    requires inside { at < length text.now }
    ensures { IsToken at (length text.now - at) (token_outside mode at (drop at text.now)) result }
{
    let rest = bytes_from(text.as_bytes(), at);
    if rest.starts_with(b"\"") {
        return string_token(alloc, at, rest);
    }
    if rest.starts_with(b"r\"") {
        return raw_token(alloc, at, rest);
    }
    if begins_word(rest) {
        return word_token(alloc, mode, at, word_in(text, at), rest);
    }
    sign_lexeme(mode, at, rest)
}

/// A string at a place, with its opening `"`.
fn string_token(alloc: Global, at: usize, text: &[u8]) -> Result<Lexeme, FilterError>
    requires some { 1 ≤ length text.now }
    requires short { at + length text.now ≤ 4096 }
    ensures { IsToken at (length text.now)
        (lexeme_of_text at 1 (string_inside 0 (drop 1 text.now))) result }
{
    let inside = read_string(alloc, bytes_from(text, 1))?;
    text_lexeme(at, 1, inside)
}

/// A raw string at a place, with its `r"`.
fn raw_token(alloc: Global, at: usize, text: &[u8]) -> Result<Lexeme, FilterError>
    requires some { 2 ≤ length text.now }
    requires short { at + length text.now ≤ 4096 }
    ensures { IsToken at (length text.now)
        (lexeme_of_text at 2 (raw_inside (drop 2 text.now))) result }
{
    let inside = read_raw(alloc, bytes_from(text, 2))?;
    text_lexeme(at, 2, inside)
}

/// A word at a place, with what follows it.
fn word_token(
    alloc: Global,
    mode: Mode,
    at: usize,
    word: &str,
    text: &[u8],
) -> Result<Lexeme, FilterError>
    requires word { word.now ≡ take (len_of_word text.now) text.now }
    requires some { 0 < len_of_word text.now }
    requires short { at + length text.now ≤ 4096 }
    ensures { IsToken at (length text.now) (Ok (lexeme_of_word mode at
        (take (len_of_word text.now) text.now) (drop (len_of_word text.now) text.now))) result }
{
    Ok(word_lexeme(alloc, mode, at, word, bytes_from(text, word_len(text)))?)
}

/// The word at a place where one stands.
fn word_in(text: &str, at: usize) -> &str
    requires inside { at ≤ length text.now }
    requires word { 0 < len_of_word (drop at text.now) }
    ensures { result.now ≡ take (len_of_word (drop at text.now)) (drop at text.now) }
{
    let end = at + word_len(bytes_from(text.as_bytes(), at));
    &text[at..end]
}

/// What a word at a place is, by what follows it.
fn word_lexeme(
    alloc: Global,
    mode: Mode,
    at: usize,
    word: &str,
    rest: &[u8],
) -> Result<Lexeme, NoMemory>
    requires { at + length word.now + length rest.now ≤ 4096 }
    ensures ok { IfOk result (λ l. l ≡ lexeme_of_word mode at word.now rest.now) }
    ensures within { IfOk result (λ l. (length word.now ≤ l.width)
        × (l.width ≤ length word.now + length rest.now)) }
{
    if mode == Mode::BehindHash && is_number(word.as_bytes()) {
        let nth = number_of(word.as_bytes());
        return Ok(Lexeme {
            kind: Kind::LayerNumber(Layer { at: at as u32, nth }),
            width: word.len(),
        });
    }
    match keyword_of(word) {
        Some(keyword) => Ok(Lexeme {
            kind: keyword_kind(at as u32, keyword),
            width: word.len(),
        }),
        None => call_lexeme(alloc, at, word, rest),
    }
}

/// A function with its `(`, or else a word that isn't reserved.
fn call_lexeme(alloc: Global, at: usize, word: &str, rest: &[u8]) -> Result<Lexeme, NoMemory>
    requires { at + length word.now + length rest.now ≤ 4096 }
    ensures ok { IfOk result (λ l.
        l ≡ lexeme_of_call at word.now (function_in word.now) (opening_in rest.now)) }
    ensures within { IfOk result (λ l. (length word.now ≤ l.width)
        × (l.width ≤ length word.now + length rest.now)) }
{
    if let Some(function) = function_of(word)
        && let Some(more) = opening(rest)
    {
        return Ok(Lexeme {
            kind: Kind::Calls(function, at as u32),
            width: word.len() + more,
        });
    }
    name_lexeme(alloc, at as u32, word)
}

fn name_lexeme(alloc: Global, at: u32, word: &str) -> Result<Lexeme, NoMemory>
    ensures { IfOk result (λ l. l ≡ lexeme_of
        (Kind.Name (record { at = at; text = word.now })) (length word.now)) }
{
    let text = WordText::copy(alloc, word)?;
    Ok(Lexeme {
        kind: Kind::Name(Word { at, text }),
        width: word.len(),
    })
}

/// A string at a place, behind so many bytes.
fn text_lexeme(at: usize, before: usize, inside: Option<Inside>) -> Result<Lexeme, FilterError>
    requires room { at + before ≤ 4096 }
    requires inside { IfSome inside (λ s. s.width ≤ 4096) }
    ensures ok { IfOk result (λ l.
        lexeme_of_text at before (option_map (λ s. (s.bytes, s.width)) inside) ≡ Ok l) }
    ensures within { IfOk result (λ l. IfSome inside (λ s. l.width ≡ before + s.width)) }
    ensures err { IfErr result
        (IsTokenError at (lexeme_of_text at before (option_map (λ s. (s.bytes, s.width)) inside))) }
{
    let at = at as u32;
    match inside {
        Some(Inside { bytes, width }) => Ok(Lexeme {
            kind: Kind::Text(Quote { at, bytes }),
            width: before + width,
        }),
        None => Err(FilterError::Fault(FilterFault {
            at,
            reason: FilterReason::BadString,
        })),
    }
}

/// The sign at a place.
fn sign_lexeme(mode: Mode, at: usize, rest: &[u8]) -> Result<Lexeme, FilterError>
    requires { at + length rest.now ≤ 4096 }
    ensures ok { IfOk result (λ l.
        lexeme_of_sign mode at rest.now (sign_in_front rest.now) ≡ Ok l) }
    ensures within { IfOk result (λ l. (0 < l.width) × (l.width ≤ length rest.now)) }
    ensures err { IfErr result
        (IsTokenError at (lexeme_of_sign mode at rest.now (sign_in_front rest.now))) }
{
    let place = at as u32;
    let Some(sign) = first_sign(rest) else {
        return Err(FilterError::Fault(FilterFault {
            at: place,
            reason: FilterReason::BadChar,
        }));
    };
    Ok(Lexeme {
        kind: sign_kind(mode, place, next_place(at, rest), sign),
        width: sign_text(sign).len(),
    })
}

/// Where the token behind the first byte begins.
fn next_place(at: usize, rest: &[u8]) -> u32
    requires some { 0 < length rest.now }
    requires short { at + length rest.now ≤ 4096 }
    ensures { result ≡ place_behind at rest.now }
{
    (at + 1 + blanks(bytes_from(rest, 1))) as u32
}

/// The token from a place on in brackets.
fn bracket_token(rest: &[u8], at: usize) -> Result<Lexeme, FilterError>
    requires some { 0 < length rest.now }
    requires short { at + length rest.now ≤ 4096 }
    ensures ok { IfOk result (λ l. token_in_brackets at rest.now ≡ Ok l) }
    ensures within { IfOk result (λ l. (0 < l.width) × (l.width ≤ length rest.now)) }
    ensures err { IfErr result (IsTokenError at (token_in_brackets at rest.now)) }
{
    if rest[0].is_ascii_digit() {
        return Ok(digits_lexeme(rest));
    }
    let kind = match rest[0] {
        b'-' => Kind::Minus,
        b':' => Kind::Colon,
        b',' => Kind::NextRange(next_place(at, rest)),
        b']' => Kind::CloseBracket,
        _ => {
            return Err(FilterError::Fault(FilterFault {
                at: at as u32,
                reason: FilterReason::BadChar,
            }));
        }
    };
    Ok(Lexeme { kind, width: 1 })
}

/// The digits in front, of which there are some.
fn digits_lexeme(rest: &[u8]) -> Lexeme
    ensures value { result ≡ lexeme_of_digits rest.now }
    ensures within { result.width ≤ length rest.now }
{
    let width = digits_len(rest);
    let digits = &rest[..width];
    if !is_number(digits) {
        return Lexeme {
            kind: Kind::LongNumber,
            width,
        };
    }
    Lexeme {
        kind: Kind::Number(number_of(digits)),
        width,
    }
}
