ghost use Rattle.std.specs.Prelude.{◌≡◌, ◌+◌, ◌<◌, ◌^◌};
ghost use Rattle.tcp_streams.specs.Numbers.{first_number, ahead, position_ahead, place, skipped, window};

use crate::segment::Segment;
use pk_base::WINDOW;

/// The number of a segment's first byte: SYN takes the number before it (RFC 9293, 3.4).
pub(crate) fn first_number(s: &Segment) -> u32
    ensures { result ≡ first_number s.now }
{
    let seq = s.seq;
    if s.syn { seq.wrapping_add(1) } else { seq }
}

/// How far a number is ahead of a position, modulo 2^32.
pub(crate) fn ahead(origin: u32, position: u64, number: u32) -> u32
    ensures { result ≡ ahead origin position number }
{
    number.wrapping_sub(origin.wrapping_add((position % (1 << 32)) as u32))
}

/// The position so far ahead of another, where 2^31 and more are behind it.
pub(crate) fn position_ahead(from: u64, ahead: u32) -> i64
    requires { from < 2 ^ 62 }
    ensures { result ≡ position_ahead from ahead }
{
    if ahead < 1 << 31 {
        from as i64 + i64::from(ahead)
    } else {
        from as i64 - ((1 << 32) - i64::from(ahead))
    }
}

/// The same, or a start where it lies before that.
pub(crate) fn place(start: u64, from: u64, ahead: u32) -> u64
    requires { from < 2 ^ 62 }
    ensures { result ≡ place start from ahead }
{
    if ahead < 1 << 31 {
        from + u64::from(ahead)
    } else {
        start.max(from.saturating_sub((1 << 32) - u64::from(ahead)))
    }
}

/// How many of a segment's bytes lie before the start.
pub(crate) fn skipped(start: u64, from: u64, ahead: u32) -> u64
    requires { start < 2 ^ 62 }
    ensures { result ≡ skipped start from ahead }
{
    if ahead < 1 << 31 {
        0
    } else {
        (start + ((1 << 32) - u64::from(ahead))).saturating_sub(from)
    }
}

/// How far past a front end a byte is still kept.
#[tactic(auto, unfolding(crate::specs::Numbers::window))]
pub(crate) fn window_end(front: u64) -> u64
    requires { front < 2 ^ 62 }
    ensures { result ≡ front + window }
{
    front + WINDOW
}
