ghost use Rattle.std.specs.Prelude.{◌≡◌, ◌-◌, ◌^◌, ◌≤◌, ◌<◌, take, drop, IfOk, OnOk};
ghost use Rattle.range_bytes.specs.Joined.{front_end, IsJoined};
ghost use Rattle.tcp_streams.specs.Ways.{held_with, IsPlace, AreApart, apart_prop};

use crate::numbers::{place, skipped, window_end};
use crate::segment::Segment;
use pk_base::{LostList, NoMemory, Octets, Stretch};
use range_bytes::JoinedRanges;
use std::alloc::Global;

/// One direction of a stream.
pub(crate) struct Way {
    pub alloc: Global,
    /// The number of the byte at position 0, once a segment has set it.
    pub origin: Option<u32>,
    /// What is held: the last stretch stands in order.
    pub held: JoinedRanges,
    /// The stretches before the last.
    pub earlier: Vec<Stretch>,
    /// Up to where the other side has acknowledged.
    pub acked: u64,
    ghost apart: { AreApart 0 earlier.items held.start } by { apart_prop 0 earlier.items held.start },
}

impl Drop for Way {
    fn drop(self) {
        let Way {
            alloc: _,
            origin: _,
            held: _held,
            earlier: _earlier,
            acked: _,
        } = self;
    }
}

/// How a segment entered its direction.
#[derive(Drop)]
pub(crate) struct Entered {
    pub lost: LostList,
    pub position: i64,
}

/// Puts in the bytes of a segment from the start on that lie in the window.
pub(crate) fn put(held: &mut JoinedRanges, ahead: u32, s: &Segment) -> Result<(), NoMemory>
    requires place { IsPlace held.old.held held.old.start (front_end held.old) }
    requires room { front_end held.old < 2 ^ 61 }
    ensures held { OnOk result (held.new.held ≡ held_with held.old.held held.old.start (front_end held.old) ahead s.now) }
    ensures start { held.new.start ≡ held.old.start }
    ensures joined { OnOk result (IsJoined held.new) }
    ensures grown { OnOk result (front_end held.old ≤ front_end held.new) }
{
    let start = held.start();
    let front = held.end();
    let from = place(start, front, ahead);
    let bytes = part_taken(
        &s.payload,
        from,
        skipped(start, front, ahead),
        window_end(front),
    )?;
    held.insert(from, &bytes, s.frame)
}

/// The bytes behind some that are skipped, which begin at a position, as far as they lie before an end.
fn part_taken(payload: &Octets, from: u64, skipped: u64, end: u64) -> Result<Octets, NoMemory>
    ensures { IfOk result (λ bytes. bytes ≡ take (end - from) (drop skipped payload.now)) }
{
    let len = payload.bytes().len() as u64;
    let begin = skipped.min(len);
    let most = end.saturating_sub(from);
    Ok(payload.part(begin as usize, (begin + most.min(len - begin)) as usize)?)
}
