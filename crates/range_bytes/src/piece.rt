ghost use Rattle.std.specs.Prelude.{◌≡◌, ◌-◌, ◌<◌, ◌≤◌, slice_range, IfOk};
ghost use Rattle.range_bytes.specs.Pieces.{IsSized, part_of};

use pk_base::{NoMemory, Octets};
use std::alloc::Global;

/// A run of bytes that one frame brought.
#[derive(Drop)]
pub(crate) struct Piece {
    pub(crate) start: u64,
    pub(crate) end: u64,
    pub(crate) bytes: Octets,
    pub(crate) frame: u32,
}

/// A part that is shared keeps no more than so many times its own length from being freed.
const MOST_KEPT: usize = 4;

impl Piece {
    pub(crate) fn copy(&self) -> Result<Piece, NoMemory>
        ensures { IfOk result (λ piece. piece ≡ self.now) }
    {
        Ok(Piece {
            start: self.start,
            end: self.end,
            bytes: self.bytes.clone()?,
            frame: self.frame,
        })
    }

    /// The bytes from position `from` up to and without `to`.
    pub(crate) fn slice(&self, from: u64, to: u64) -> &[u8]
        requires sized { IsSized self.now }
        requires start { self.now.start ≤ from }
        requires order { from ≤ to }
        requires end { to ≤ self.now.end }
        ensures { result.now ≡ slice_range self.now.bytes (from - self.now.start)
            (to - self.now.start) }
    {
        &self.bytes.bytes()[(from - self.start) as usize..(to - self.start) as usize]
    }

    /// The same bytes, shared.
    pub(crate) fn octets(&self, from: u64, to: u64) -> Result<Octets, NoMemory>
        requires sized { IsSized self.now }
        requires start { self.now.start ≤ from }
        requires order { from ≤ to }
        requires end { to ≤ self.now.end }
        ensures { IfOk result (λ octets.
            octets ≡ slice_range self.now.bytes (from - self.now.start) (to - self.now.start)) }
    {
        self.bytes
            .part((from - self.start) as usize, (to - self.start) as usize)
    }

    /// The part from position `from` up to and without `to`: shared, or copied where it would keep a much longer block.
    pub(crate) fn part(&self, alloc: Global, from: u64, to: u64) -> Result<Piece, NoMemory>
        requires sized { IsSized self.now }
        requires start { self.now.start ≤ from }
        requires order { from < to }
        requires end { to ≤ self.now.end }
        ensures { IfOk result (λ piece. piece ≡ part_of self.now from to) }
    {
        let bytes = self.slice(from, to);
        let bytes = if bytes.len() < self.bytes.bytes().len() / MOST_KEPT {
            Octets::copy(alloc, bytes)?
        } else {
            self.octets(from, to)?
        };
        Ok(Piece {
            start: from,
            end: to,
            bytes,
            frame: self.frame,
        })
    }
}
