ghost use Rattle.std.specs.Prelude.{◌≡◌, ◌≤◌, ◌<◌, ◌+◌, ◌-◌, ◌^◌, length, drop, take, nat_lt, IfSome};
ghost use Rattle.stream_messages.specs.Limits.{body_limit as body_limit_is, line_limit as line_limit_is, trailer_limit as trailer_limit_is};
ghost use Rattle.stream_messages.specs.Lines.{crlf_at, line_of};
ghost use Rattle.stream_messages.specs.Chunks.{looked_at, behind_chunk, behind_last, behind_line, data_turn, first_place, size_turn, sized, trailing_turn, turn_at};
ghost use Rattle.stream_messages.specs.ChunkFacts.{TurnFits};

use crate::heads::tail;
use crate::limits::{body_limit, line_limit, trailer_limit};
use crate::lines::{Line, crlf_behind, line_of, size_in, text_from};

/// The place that the reading of a list of chunks has come to.
#[derive(Clone, Copy)]
pub(crate) struct Place {
    /// By the message's first byte.
    pub at: usize,
    /// The bytes of the chunks before it.
    pub sum: u64,
    /// It is behind the last chunk.
    pub trailer: bool,
    /// The bytes of the lines behind the last chunk.
    pub used: usize,
    /// How many bytes of the line at this place were looked at.
    pub text: usize,
}

/// What stands at a place in a list of chunks.
#[derive(Clone, Copy)]
pub(crate) enum Turn {
    /// A chunk: the bytes of its size line, and its own.
    Chunk(usize, usize),
    /// The size line that ends the chunks.
    Last(usize),
    /// A size line with which the body is too long.
    Long(usize),
    /// A line behind the last chunk.
    Trailing(usize),
    /// The empty line at the end.
    End,
    /// More bytes have to come.
    Waits,
    /// No list of chunks goes on like this.
    Fails,
}

impl Place {
    /// Where the chunks behind a head begin.
    pub(crate) fn first(head: usize) -> Place
        ensures { result ≡ first_place head }
    {
        Place {
            at: head,
            sum: 0,
            trailer: false,
            used: 0,
            text: 0,
        }
    }

    /// The same place, and how many bytes of its line are there.
    pub(crate) fn looked_at(self, bytes: &[u8]) -> Place
        ensures { result ≡ looked_at self bytes.now }
    {
        Place {
            text: text_from(self.text, tail(bytes, self.at)),
            ..self
        }
    }

    pub(crate) fn behind_chunk(self, line: usize, size: usize) -> Place
        requires at { self.at + line + size + 2 < 2 ^ 64 }
        requires sum { self.sum + size < 2 ^ 64 }
        ensures { result ≡ behind_chunk self line size }
    {
        Place {
            at: self.at + line + size + 2,
            sum: self.sum + size as u64,
            trailer: false,
            used: 0,
            text: 0,
        }
    }

    pub(crate) fn behind_last(self, line: usize) -> Place
        requires { self.at + line < 2 ^ 64 }
        ensures { result ≡ behind_last self line }
    {
        Place {
            at: self.at + line,
            sum: self.sum,
            trailer: true,
            used: 0,
            text: 0,
        }
    }

    pub(crate) fn behind_line(self, line: usize) -> Place
        requires at { self.at + line < 2 ^ 64 }
        requires used { self.used + line < 2 ^ 64 }
        ensures { result ≡ behind_line self line }
    {
        Place {
            at: self.at + line,
            sum: self.sum,
            trailer: self.trailer,
            used: self.used + line,
            text: 0,
        }
    }
}

/// What stands at a place, from which these bytes go on.
#[tactic(auto, unfolding(crate::specs::Chunks::turn_at))]
pub(crate) fn turn_at(place: Place, bytes: &[u8]) -> Turn
    ensures value { result ≡ turn_at place bytes.now }
    ensures fits { TurnFits place (length bytes.now) result }
{
    if place.trailer {
        trailing_turn(place, bytes)
    } else {
        size_turn(place, bytes)
    }
}

/// A line behind the last chunk.
fn trailing_turn(place: Place, bytes: &[u8]) -> Turn
    ensures { result ≡ trailing_turn
        (line_of (trailer_limit_is - place.used) place.text bytes.now) }
{
    let most = trailer_limit().saturating_sub(place.used);
    match line_of(most, place.text, bytes) {
        Line::Whole(0) => Turn::End,
        Line::Whole(len) => Turn::Trailing(len + 2),
        Line::Short => Turn::Waits,
        Line::Wrong => Turn::Fails,
    }
}

/// A chunk's size line, and where its bytes are there, the chunk.
fn size_turn(place: Place, bytes: &[u8]) -> Turn
    ensures { result ≡ size_turn place.sum bytes.now (line_of line_limit_is place.text bytes.now) }
{
    match line_of(line_limit(), place.text, bytes) {
        Line::Whole(len) => sized(place.sum, len + 2, bytes, size_in(&bytes[..len])),
        Line::Short => Turn::Waits,
        Line::Wrong => Turn::Fails,
    }
}

/// A size line, which is asked for the limit of the body before the chunk's bytes are there.
fn sized(sum: u64, line: usize, bytes: &[u8], size: Option<u64>) -> Turn
    requires line { line ≤ length bytes.now }
    requires size { IfSome size (λ n. n < 2 ^ 32) }
    ensures { result ≡ sized sum line bytes.now size }
{
    match size {
        None => Turn::Fails,
        Some(0) => Turn::Last(line),
        Some(size) if is_past_limit(sum, size) => Turn::Long(line),
        Some(size) => data_turn(line, size as usize, bytes),
    }
}

/// Whether a body of so many bytes is too long with so many more.
fn is_past_limit(sum: u64, size: u64) -> bool
    ensures { result ≡ nat_lt body_limit_is (sum + size) }
{
    size > body_limit() || sum > body_limit() - size
}

/// The bytes of a chunk, behind its size line.
fn data_turn(line: usize, size: usize, bytes: &[u8]) -> Turn
    requires { line + size < 2 ^ 64 }
    ensures { result ≡ data_turn line size (crlf_at (line + size) (drop (line + size) bytes.now)) }
{
    match crlf_behind(line + size, bytes) {
        Line::Whole(_) => Turn::Chunk(line, size),
        Line::Short => Turn::Waits,
        Line::Wrong => Turn::Fails,
    }
}
