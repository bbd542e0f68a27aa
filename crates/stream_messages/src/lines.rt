ghost use Rattle.std.specs.Prelude.{◌≡◌, ◌≤◌, ◌<◌, ◌+◌, ◌^◌, length, drop, IfSome, nat_le, ◌||◌, ◌==◌};
ghost use Rattle.std.specs.List.{prefix_len};
ghost use Rattle.std.specs.Char.{is_ascii_hexdigit};
ghost use Rattle.stream_messages.specs.Lines.{crlf_at, feed_at, is_tail, is_text, line_by, line_of, size_by, size_in, text_from};
ghost use Rattle.stream_messages.specs.LineFacts.{IsWholeIn};

use crate::heads::tail;
use crate::lengths::number_of;

/// The line at a place.
#[derive(Clone, Copy)]
pub(crate) enum Line {
    /// It has so many bytes and CR LF.
    Whole(usize),
    /// It isn't whole yet.
    Short,
    /// It is too long, or doesn't end in CR LF.
    Wrong,
}

/// The line at the front of bytes: an empty one, or one of at most `most` bytes with its CR LF. So many bytes of its `text`
/// were looked at before.
pub(crate) fn line_of(most: usize, text: usize, bytes: &[u8]) -> Line
    ensures value { result ≡ line_of most text bytes.now }
    ensures whole { IsWholeIn (length bytes.now) result }
{
    line_by(most, text_from(text, bytes), bytes)
}

fn line_by(most: usize, len: usize, bytes: &[u8]) -> Line
    ensures value { result ≡ line_by most len bytes.now }
    ensures whole { IsWholeIn (length bytes.now) result }
{
    if is_short(len, most) {
        crlf_behind(len, bytes)
    } else {
        Line::Wrong
    }
}

/// Whether a line is empty or has at most so many bytes with its CR LF.
fn is_short(len: usize, most: usize) -> bool
    ensures { result ≡ (len == 0 || nat_le (len + 2) most) }
{
    len == 0 || (2 <= most && len <= most - 2)
}

/// How many bytes of a line there are up to its CR or LF, where so many were looked at before.
pub(crate) fn text_from(text: usize, bytes: &[u8]) -> usize
    ensures { result ≡ text_from text bytes.now }
{
    text + text_len(tail(bytes, text))
}

fn text_len(bytes: &[u8]) -> usize
    ensures value { result ≡ prefix_len is_text bytes.now }
    ensures most { result ≤ length bytes.now }
{
    bytes
        .iter()
        .take_while(|byte| **byte != b'\r' && **byte != b'\n')
        .count()
}

/// Whether CR LF stands behind so many bytes.
pub(crate) fn crlf_behind(len: usize, bytes: &[u8]) -> Line
    ensures value { result ≡ crlf_at len (drop len bytes.now) }
    ensures whole { IsWholeIn (length bytes.now) result }
{
    crlf_at(len, tail(bytes, len))
}

fn crlf_at(len: usize, rest: &[u8]) -> Line
    ensures value { result ≡ crlf_at len rest.now }
    ensures whole { IsWholeIn (len + length rest.now) result }
{
    match rest.split_first() {
        None => Line::Short,
        Some((first, rest)) => {
            if *first == b'\r' {
                feed_at(len, rest)
            } else {
                Line::Wrong
            }
        }
    }
}

fn feed_at(len: usize, rest: &[u8]) -> Line
    ensures value { result ≡ feed_at len rest.now }
    ensures whole { IsWholeIn (len + length rest.now + 1) result }
{
    match rest.split_first() {
        None => Line::Short,
        Some((first, _)) => {
            if *first == b'\n' {
                Line::Whole(len)
            } else {
                Line::Wrong
            }
        }
    }
}

/// The size that a chunk's line tells.
#[tactic(auto, unfolding(crate::specs::Lines::size_in))]
pub(crate) fn size_in(line: &[u8]) -> Option<u64>
    ensures value { result ≡ size_in line.now }
    ensures fits { IfSome result (λ size. size < 2 ^ 32) }
{
    let count = digits_len(line);
    if count == 0 || count > 8 || !is_tail(&line[count..]) {
        return None;
    }
    Some(number_of(16, &line[..count]))
}

fn digits_len(line: &[u8]) -> usize
    ensures value { result ≡ prefix_len is_ascii_hexdigit line.now }
    ensures most { result ≤ length line.now }
{
    line.iter()
        .take_while(|byte| byte.is_ascii_hexdigit())
        .count()
}

/// Whether these bytes may stand behind a chunk's size.
fn is_tail(tail: &[u8]) -> bool
    ensures { result ≡ is_tail tail.now }
{
    match tail.split_first() {
        None => true,
        Some((first, _)) => matches!(*first, b' ' | b'\t' | b';'),
    }
}
