// Frames and bytes, and how one more frame changes them.
ghost use Rattle.std.specs.Prelude.{◌≡◌, ◌<◌, ◌^◌, IfSome};
ghost use Rattle.cap_stats.specs.Few.{HasRoom, HasTalkRoom};
ghost use Rattle.cap_stats.specs.Steps.{tally_with, tally_after, talk_by, first_talk};

use crate::party::{Flight, Party, is_same};

/// Frames, and the sum of their lengths.
#[derive(Clone, Copy)]
pub(crate) struct Tally {
    pub frames: u64,
    pub bytes: u64,
}

/// What two ends sent each other.
#[derive(Clone, Copy)]
pub(crate) struct Talk {
    /// The end that the first frame left, and the one that it went to.
    pub from: Party,
    pub to: Party,
    /// The frames that the first end sent, and all others.
    pub there: Tally,
    pub back: Tally,
}

/// A tally with one more frame.
#[inline(always)]
fn tally_with(tally: Tally, bytes: u64) -> Tally
    requires room { HasRoom tally }
    requires short { bytes < 2 ^ 32 }
    ensures { result ≡ tally_with tally bytes }
{
    Tally {
        frames: tally.frames + 1,
        bytes: tally.bytes + bytes,
    }
}

/// A tally, if there is one, with one more frame.
pub(crate) fn tally_after(tally: Option<Tally>, bytes: u64) -> Tally
    requires room { IfSome tally HasRoom }
    requires short { bytes < 2 ^ 32 }
    ensures { result ≡ tally_after tally bytes }
{
    match tally {
        None => Tally { frames: 1, bytes },
        Some(tally) => tally_with(tally, bytes),
    }
}

/// A conversation gets one more frame, which an end sent.
#[inline(always)]
pub(crate) fn raise_talk(talk: &mut Talk, from: &Party, bytes: u64)
    requires room { HasTalkRoom talk.old }
    requires short { bytes < 2 ^ 32 }
    ensures { talk.new ≡ talk_by talk.old from.now bytes }
{
    if is_same(from, &talk.from) {
        talk.there = tally_with(talk.there, bytes);
    } else {
        talk.back = tally_with(talk.back, bytes);
    }
}

/// A conversation of one flight.
pub(crate) fn first_talk(flight: &Flight) -> Talk
    ensures { result ≡ first_talk flight.now }
{
    Talk {
        from: flight.from,
        to: flight.to,
        there: Tally {
            frames: 1,
            bytes: flight.bytes,
        },
        back: Tally {
            frames: 0,
            bytes: 0,
        },
    }
}
