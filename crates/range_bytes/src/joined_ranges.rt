ghost use Rattle.std.specs.Prelude.{◌≡◌, ℕ, ◌+◌, ◌-◌, ◌^◌, ◌<◌, ◌≤◌, true, false, None, IsSome, [], length, IfSome, IfNone, IfOk, OnOk};
ghost use Rattle.std.specs.FinMap.{get};
ghost use Rattle.range_bytes.specs.Held.{put_run, put_numbers, IsNextHeld, IsFreeFrom, HoldsAll, frames_at};
ghost use Rattle.range_bytes.specs.Joined.{none_joined, front_end, IsInOrder, IsJoined, IsMarked, IsRunAt, cut};
ghost use Rattle.range_bytes.specs.LetGo.{IsLetGo};
ghost use Rattle.range_bytes.specs.Pieces.{put_pieces};

use crate::in_order::{InOrder, Mark};
use crate::piece::Piece;
use crate::waiting::Waiting;
use pk_base::{NoMemory, Numbers, Octets};
use std::alloc::Global;
use std::marker::Model;
use std::mem;

/// Bytes by their positions, each with the number of the frame that brought it. The byte that came first at a position
/// stays. Those from a start on stand in order, as far as they go, and are held once.
pub struct JoinedRanges {
    alloc: Global,
    row: InOrder,
    /// What is held elsewhere.
    rest: Waiting,
}

impl Drop for JoinedRanges {
    fn drop(self) {
        let JoinedRanges {
            alloc: _,
            row: _row,
            rest: _rest,
        } = self;
    }
}

impl Model for JoinedRanges {
    ghost use Rattle.std.specs.Prelude.{ℕ, List, refl};
    ghost use Rattle.std.specs.Ordering.{nat_cmp};
    ghost use Rattle.std.specs.FinMap.{FinMap, code};
    ghost use Rattle.std.specs.Coded.{code_by, coded_ℕ, coded×, coded_list};
    ghost use Rattle.range_bytes.specs.Joined.{Joined, IsJoining, cut};
    ghost use Rattle.range_bytes.specs.Pieces.{put_pieces};

    ghost Value = { Joined };

    ghost coded = { code_by (FinMap nat_cmp (ℕ × ℕ) × (ℕ × List ℕ)) (coded× (code coded_ℕ (coded× coded_ℕ coded_ℕ)) (coded× coded_ℕ (coded_list coded_ℕ))) (λ j. (j.held, (j.start, j.front))) (λ p. record { held = p.0; start = p.1.0; front = p.1.1 }) (λ _. refl) };

    ghost view = { λ ranges. record {
      held = put_pieces ranges.rest
          (cut ranges.row.start ranges.row.bytes.items ranges.row.marks.items);
      start = ranges.row.start;
      front = ranges.row.bytes.items;
    } };

    ghost invariant = { λ ranges. IsJoining ranges.rest ranges.row.start ranges.row.end
        ranges.row.bytes.items ranges.row.marks.items };
}

/// Bytes of fewer than these are copied where they wait: they would keep a block of up to 64 KiB that was read.
const COPIED: usize = 16384;

impl JoinedRanges {
    /// Nothing is held, and the start is 0. Takes no memory.
    pub fn new(alloc: Global) -> JoinedRanges
        ensures { result ≡ none_joined }
    {
        JoinedRanges {
            alloc,
            row: InOrder::new(alloc, 0),
            rest: Waiting::new(alloc),
        }
    }

    /// Where the bytes in order begin. Takes no memory.
    pub fn start(&self) -> u64
        ensures { result ≡ self.now.start }
    {
        self.row.start
    }

    /// The position behind the bytes in order. Takes no memory.
    pub fn end(&self) -> u64
        ensures { result ≡ front_end self.now }
    {
        self.row.end
    }

    /// The bytes in order. Takes no memory.
    pub fn front(&self) -> &[u8]
        ensures { result.now ≡ self.now.front }
    {
        self.row.bytes.as_slice()
    }

    /// Puts bytes in from position `pos` on, at those positions where nothing is held.
    pub fn insert(&mut self, pos: u64, bytes: &Octets, frame: u32) -> Result<(), NoMemory>
        requires start { self.old.start ≤ pos }
        requires room { pos + length bytes.now ≤ 2 ^ 63 }
        ensures held { OnOk result (self.new.held ≡ put_run self.old.held pos bytes.now frame) }
        ensures start { self.new.start ≡ self.old.start }
        ensures joined { OnOk result (IsJoined self.new) }
        ensures grown { OnOk result (front_end self.old ≤ front_end self.new) }
    {
        let end = pos + bytes.bytes().len() as u64;
        let from = pos.max(self.row.end);
        if from < end {
            let part = bytes.part((from - pos) as usize, (end - pos) as usize)?;
            self.put(from, end, &part, frame)?;
        }
        self.join()
    }

    /// Puts bytes in that begin at or past the end of those in order.
    fn put(&mut self, from: u64, end: u64, bytes: &Octets, frame: u32) -> Result<(), NoMemory>
        requires sized { from + length bytes.now ≡ end }
        requires some { from < end }
        requires behind { front_end self.old ≤ from }
        ensures held { OnOk result (self.new.held ≡ put_run self.old.held from bytes.now frame) }
        ensures start { self.new.start ≡ self.old.start }
        ensures grown { OnOk result (front_end self.old ≤ front_end self.new) }
    {
        if from == self.row.end && is_free(&self.rest, from, end) {
            self.row.push(bytes.bytes(), end, frame)?;
            return Ok(());
        }
        let new = Piece {
            start: from,
            end,
            bytes: kept(self.alloc, bytes)?,
            frame,
        };
        self.rest.put(self.alloc, &new)
    }

    /// Joins what is held behind the bytes in order to them, as far as it goes.
    fn join(&mut self) -> Result<(), NoMemory>
        ensures held { OnOk result (self.new.held ≡ self.old.held) }
        ensures start { self.new.start ≡ self.old.start }
        ensures joined { OnOk result (IsJoined self.new) }
        ensures grown { OnOk result (front_end self.old ≤ front_end self.new) }
    {
        let top = self.rest.end();
        while self.row.end < top {
            if !self.join_one()? {
                return Ok(());
            }
        }
        Ok(())
    }

    /// Joins the bytes of one frame that begin where those in order end, if there are any.
    fn join_one(&mut self) -> Result<bool, NoMemory>
        ensures held { OnOk result (self.new.held ≡ self.old.held) }
        ensures start { self.new.start ≡ self.old.start }
        ensures more { IfOk result (λ more. more ≡ true → front_end self.old < front_end self.new) }
        ensures grown { OnOk result (front_end self.old ≤ front_end self.new) }
        ensures order { OnOk result (IsInOrder self.new) }
        ensures last { IfOk result (λ more. more ≡ false
            → get self.new.held (front_end self.new) ≡ None) }
    {
        let Some(piece) = self.rest.take_at(self.row.end) else {
            return Ok(false);
        };
        self.row.push(piece.bytes.bytes(), piece.end, piece.frame)?;
        Ok(true)
    }

    /// Begins the bytes in order anew from a position past their end on, and gives those that they were.
    pub fn begin(&mut self, start: u64) -> Result<Octets, NoMemory>
        requires past { front_end self.old < start }
        requires free { get self.old.held (start - 1) ≡ None }
        ensures bytes { IfOk result (λ bytes. bytes ≡ self.old.front) }
        ensures held { OnOk result (self.new.held ≡ self.old.held) }
        ensures start { OnOk result (self.new.start ≡ start) }
        ensures joined { OnOk result (IsJoined self.new) }
        ensures order { self.old.start ≤ self.new.start }
    {
        let InOrder {
            start: at,
            bytes,
            marks,
            ..
        } = mem::replace(&mut self.row, InOrder::new(self.alloc, start));
        let bytes = Octets::from_vec(bytes)?;
        keep(self.alloc, &mut self.rest, at, &bytes, &marks)?;
        self.join()?;
        Ok(bytes)
    }

    /// Lets go of what is held before the bytes in order, and of these before a position, once they are more than those behind it.
    pub fn let_go(&mut self, to: u64) -> Result<(), NoMemory>
        requires { to ≤ front_end self.old }
        ensures { OnOk result (IsLetGo self.old self.new to) }
    {
        self.row.let_go(self.alloc, to)?;
        self.rest.let_go(self.row.start);
        Ok(())
    }

    /// The least held position from `from` on. Takes no memory.
    pub fn next_held(&self, from: u64) -> Option<u64>
        requires { front_end self.now ≤ from }
        ensures { IsNextHeld self.now.held from result }
    {
        self.rest.next_held(from)
    }

    /// The least position from `from` on that isn't held. Takes no memory.
    pub fn first_free(&self, from: u64) -> u64
        ensures { IsFreeFrom self.now.held from result }
    {
        if self.row.start <= from && from < self.row.end {
            return self.rest.first_free(self.row.end);
        }
        self.rest.first_free(from)
    }

    /// The numbers of the frames that brought the bytes from position `from` up to and without `to`: in ascending order,
    /// each once.
    pub fn origins(&self, from: u64, to: u64) -> Result<Numbers, NoMemory>
        requires { HoldsAll self.now.held from to }
        ensures { IfOk result (λ numbers. numbers ≡ frames_at self.now.held from (to - from)) }
    {
        let mut frames = self.frames(from, to)?;
        frames.sort_unstable();
        frames.dedup();
        Ok(Numbers::from_vec(frames))
    }

    /// The frames of the runs from position `from` up to and without `to`.
    fn frames(&self, from: u64, to: u64) -> Result<Vec<u32>, NoMemory>
        requires { HoldsAll self.now.held from to }
        ensures { IfOk result (λ frames.
            put_numbers frames.items [] ≡ frames_at self.now.held from (to - from)) }
    {
        let mut frames = Vec::new(self.alloc);
        let mut next = from;
        while next < to {
            let mark = self.run_from(next);
            frames.push(mark.frame)?;
            next = mark.end;
        }
        Ok(frames)
    }

    /// How far the bytes of one frame go that hold a position which is held.
    fn run_from(&self, at: u64) -> Mark
        requires { IsSome (get self.now.held at) }
        ensures { IsRunAt self.now.held at result }
    {
        self.run_at(at).unwrap()
    }

    /// The same, if the position is held.
    fn run_at(&self, at: u64) -> Option<Mark>
        ensures some { IfSome result (IsRunAt self.now.held at) }
        ensures none { IfNone result (get self.now.held at ≡ None) }
    {
        if let Some(mark) = self.row.run_at(at) {
            return Some(mark);
        }
        let piece = self.rest.covering(at)?;
        Some(Mark {
            end: piece.end,
            frame: piece.frame,
        })
    }
}

/// Whether nothing is held from one position up to and without another.
fn is_free(rest: &Waiting, from: u64, end: u64) -> bool
    ensures { result ≡ true → (position : ℕ) → from ≤ position → position < end
        → get rest.now position ≡ None }
{
    match rest.next_held(from) {
        Some(next) => end <= next,
        None => true,
    }
}

/// Bytes that wait: their own copy, if they are few.
fn kept(alloc: Global, bytes: &Octets) -> Result<Octets, NoMemory>
    ensures { IfOk result (λ kept. kept ≡ bytes.now) }
{
    if bytes.bytes().len() < COPIED {
        return Octets::copy(alloc, bytes.bytes());
    }
    Ok(bytes.clone()?)
}

/// Puts in the pieces that bytes in order are made of.
fn keep(
    alloc: Global,
    rest: &mut Waiting,
    start: u64,
    bytes: &Octets,
    marks: &[Mark],
) -> Result<(), NoMemory>
    requires { IsMarked start bytes.now marks.now }
    ensures held { OnOk result (rest.new ≡ put_pieces rest.old (cut start bytes.now marks.now)) }
    ensures free { (position : ℕ) → start + length bytes.now ≤ position
        → get rest.old position ≡ None → get rest.new position ≡ None }
{
    let mut at = start;
    let mut count = 0;
    while count < marks.len() {
        let mark = marks[count];
        let piece = Piece {
            start: at,
            end: mark.end,
            bytes: bytes.part((at - start) as usize, (mark.end - start) as usize)?,
            frame: mark.frame,
        };
        rest.put(alloc, &piece)?;
        at = mark.end;
        count += 1;
    }
    Ok(())
}
