ghost use Rattle.std.specs.Prelude.{◌≡◌, ℕ, ◌+◌, ◌-◌, ◌^◌, ◌≤◌, length, if◌then◌else◌, nat_le, IfOk, OnOk, OnErr};
ghost use Rattle.std.specs.Option.{option_or};
ghost use Rattle.std.specs.FinMap.{empty, get};
ghost use Rattle.range_bytes.specs.Held.{put_run, run_cell, IsFront, IsNextHeld, IsFreeFrom, HoldsAll, bytes_at, frames_at};

use crate::piece::Piece;
use crate::pieces::Pieces;
use pk_base::{NoMemory, Numbers, Octets};
use std::alloc::Global;
use std::marker::Model;

/// Bytes by their positions, each with the number of the frame that brought it. The byte that came first at a position
/// stays.
pub struct Ranges {
    alloc: Global,
    pieces: Pieces,
    /// The least position that isn't held.
    front: u64,
}

impl Drop for Ranges {
    fn drop(self) {
        let Ranges {
            alloc: _,
            pieces: _pieces,
            front: _,
        } = self;
    }
}

impl Model for Ranges {
    ghost use Rattle.std.specs.Prelude.{ℕ};
    ghost use Rattle.std.specs.Ordering.{nat_cmp};
    ghost use Rattle.std.specs.FinMap.{FinMap, code};
    ghost use Rattle.std.specs.Coded.{coded_ℕ, coded×};

    ghost Value = { FinMap nat_cmp (ℕ × ℕ) };

    ghost coded = { code coded_ℕ (coded× coded_ℕ coded_ℕ) };

    ghost use Rattle.range_bytes.specs.Held.{IsFront};

    ghost view = { λ ranges. ranges.pieces };

    ghost invariant = { λ ranges. IsFront ranges.pieces ranges.front };
}

impl Ranges {
    /// Nothing is held. Takes no memory.
    pub fn new(alloc: Global) -> Ranges
        ensures { result ≡ empty }
    {
        Ranges {
            alloc,
            pieces: Pieces::new(alloc),
            front: 0,
        }
    }

    /// Puts bytes in from position `pos` on, at those positions where nothing is held. The bytes are shared.
    pub fn insert(&mut self, pos: u64, bytes: &Octets, frame: u32) -> Result<(), NoMemory>
        requires { pos + length bytes.now ≤ 2 ^ 63 }
        ensures ok { OnOk result (self.new ≡ put_run self.old pos bytes.now frame) }
        ensures cells { OnOk result ((position : ℕ)
            → get self.new position ≡ option_or (get self.old position)
            (run_cell pos bytes.now frame position)) }
        ensures err { OnErr result (self.new ≡ self.old) }
    {
        let end = pos + bytes.bytes().len() as u64;
        if end <= self.front.max(pos) {
            return Ok(());
        }
        let new = Piece {
            start: pos,
            end,
            bytes: bytes.clone()?,
            frame,
        };
        let known = held_below(self.front, pos, end);
        self.pieces.put(self.alloc, new)?;
        self.front = self.pieces.first_free(known);
        Ok(())
    }

    /// The least position that isn't held. Takes no memory.
    pub fn front(&self) -> u64
        ensures { IsFront self.now result }
    {
        self.front
    }

    /// The least held position from `from` on. Takes no memory.
    pub fn next_held(&self, from: u64) -> Option<u64>
        ensures { IsNextHeld self.now from result }
    {
        self.pieces.next_held(from)
    }

    /// The least position from `from` on that isn't held. Takes no memory.
    pub fn first_free(&self, from: u64) -> u64
        ensures { IsFreeFrom self.now from result }
    {
        if from < self.front {
            return self.front;
        }
        self.pieces.first_free(from)
    }

    /// The bytes from position `from` up to and without `to`.
    pub fn copy(&self, from: u64, to: u64) -> Result<Octets, NoMemory>
        requires { HoldsAll self.now from to }
        ensures { IfOk result (λ bytes. bytes ≡ bytes_at self.now from (to - from)) }
    {
        self.pieces.copy(self.alloc, from, to)
    }

    /// The numbers of the frames that brought the bytes from position `from` up to and without `to`: in ascending order,
    /// each once.
    pub fn origins(&self, from: u64, to: u64) -> Result<Numbers, NoMemory>
        requires { HoldsAll self.now from to }
        ensures { IfOk result (λ numbers. numbers ≡ frames_at self.now from (to - from)) }
    {
        self.pieces.origins(self.alloc, from, to)
    }
}

/// A position below which all is held, once bytes are put in from `pos` up to and without `end`, where `front` was the least
/// that wasn't.
fn held_below(front: u64, pos: u64, end: u64) -> u64
    ensures { result ≡ (if nat_le pos front then end else front) }
{
    if pos <= front { end } else { front }
}
