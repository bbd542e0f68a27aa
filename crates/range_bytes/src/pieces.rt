ghost use Rattle.std.specs.Prelude.{◌≡◌, ℕ, ◌+◌, ◌-◌, ◌<◌, ◌≤◌, Some, None, [], IsSome, IfSome, IfNone, IfOk, OnOk, OnErr};
ghost use Rattle.std.specs.FinMap.{get, empty};
ghost use Rattle.range_bytes.specs.Held.{put_run, IsFreeFrom, IsNextHeld, HoldsAll, bytes_at, put_numbers, frames_at};
ghost use Rattle.range_bytes.specs.Pieces.{IsSized, IsCover, AreGaps, least_of};

use crate::piece::Piece;
use crate::{late, row};
use pk_base::{NoMemory, Numbers, Octets};
use std::alloc::Global;
use std::collections::BTreeMap;
use std::marker::Model;

/// Runs of bytes that don't overlap.
#[derive(Drop)]
pub(crate) struct Pieces {
    /// Those that came behind all others.
    row: Vec<Piece>,
    /// The others, by where they start.
    late: BTreeMap<u64, Piece>,
    /// No byte stands at or past this position.
    end: u64,
}

impl Model for Pieces {
    ghost use Rattle.std.specs.Prelude.{ℕ, ◌++◌};
    ghost use Rattle.std.specs.Ordering.{nat_cmp};
    ghost use Rattle.std.specs.FinMap.{FinMap, code};
    ghost use Rattle.std.specs.Coded.{coded_ℕ, coded×};
    ghost use Rattle.std.specs.Map.{values_of};
    ghost use Rattle.range_bytes.specs.Pieces.{held_of, IsKept};

    ghost Value = { FinMap nat_cmp (ℕ × ℕ) };

    ghost coded = { code coded_ℕ (coded× coded_ℕ coded_ℕ) };

    ghost view = { λ pieces. held_of (pieces.row.items ++ values_of pieces.late.entries) };

    ghost invariant = { λ pieces. IsKept pieces.row.items pieces.late.entries pieces.end };
}

impl Pieces {
    pub(crate) fn new(alloc: Global) -> Pieces
        ensures { result ≡ empty }
    {
        Pieces {
            row: Vec::new(alloc),
            late: BTreeMap::new(alloc),
            end: 0,
        }
    }

    /// Nothing is held at or past this position.
    pub(crate) fn end(&self) -> u64
        ensures { (position : ℕ) → result ≤ position → get self.now position ≡ None }
    {
        self.end
    }

    /// The piece that holds a position.
    pub(crate) fn covering(&self, at: u64) -> Option<&Piece>
        ensures some { IfSome result (λ piece. IsCover self.now at piece.now) }
        ensures none { IfNone result (get self.now at ≡ None) }
    {
        match row::covering(&self.row, at) {
            Some(piece) => Some(piece),
            None => late::covering(&self.late, at),
        }
    }

    /// The piece that holds a position which is held.
    fn piece_at(&self, at: u64) -> &Piece
        requires { IsSome (get self.now at) }
        ensures { IsCover self.now at result.now }
    {
        self.covering(at).unwrap()
    }

    /// The least held position from `from` on.
    pub(crate) fn next_held(&self, from: u64) -> Option<u64>
        ensures { IsNextHeld self.now from result }
    {
        if self.covering(from).is_some() {
            return Some(from);
        }
        least(
            row::next_start(&self.row, from),
            late::next_start(&self.late, from),
        )
    }

    /// The least position from `from` on that isn't held.
    pub(crate) fn first_free(&self, from: u64) -> u64
        ensures { IsFreeFrom self.now from result }
    {
        let mut at = from;
        while at < self.end {
            let Some(piece) = self.covering(at) else {
                return at;
            };
            at = piece.end;
        }
        at
    }

    /// Where a gap ends that begins at `at`, but not past `end`.
    fn gap_end(&self, at: u64, end: u64) -> u64
        requires free { get self.now at ≡ None }
        requires order { at < end }
        ensures low { at < result }
        ensures high { result ≤ end }
        ensures gap { (position : ℕ) → at ≤ position → position < result
            → get self.now position ≡ None }
    {
        match self.next_held(at) {
            Some(next) => next.min(end),
            None => end,
        }
    }

    /// The parts of a piece that lie where nothing is held.
    fn gaps(&self, alloc: Global, new: &Piece) -> Result<Vec<Piece>, NoMemory>
        requires sized { IsSized new.now }
        requires some { new.now.start < new.now.end }
        ensures { IfOk result (λ gaps. AreGaps self.now new.now gaps.items) }
    {
        let mut gaps = Vec::new(alloc);
        let mut at = new.start;
        while at < new.end {
            match self.covering(at) {
                Some(piece) => at = piece.end,
                None => {
                    let to = self.gap_end(at, new.end);
                    gaps.push(new.part(alloc, at, to)?)?;
                    at = to;
                }
            }
        }
        Ok(gaps)
    }

    /// Puts one piece in where nothing is held.
    pub(crate) fn put(&mut self, alloc: Global, new: Piece) -> Result<(), NoMemory>
        requires sized { IsSized new }
        requires some { new.start < new.end }
        ensures ok { OnOk result (self.new ≡ put_run self.old new.start new.bytes new.frame) }
        ensures err { OnErr result (self.new ≡ self.old) }
    {
        let end = self.end.max(new.end);
        if self.end <= new.start {
            row::push(&mut self.row, new)?;
            self.end = end;
            return Ok(());
        }
        let gaps = self.gaps(alloc, &new)?;
        late::put_all(&mut self.late, &gaps)?;
        self.end = end;
        Ok(())
    }

    /// The bytes from position `from` up to and without `to`: shared, where they are of one piece.
    pub(crate) fn copy(&self, alloc: Global, from: u64, to: u64) -> Result<Octets, NoMemory>
        requires { HoldsAll self.now from to }
        ensures { IfOk result (λ bytes. bytes ≡ bytes_at self.now from (to - from)) }
    {
        if from < to {
            let piece = self.piece_at(from);
            if to <= piece.end {
                return piece.octets(from, to);
            }
        }
        Octets::from_vec(self.gathered(alloc, from, to)?)
    }

    /// The same, piece by piece.
    fn gathered(&self, alloc: Global, from: u64, to: u64) -> Result<Vec<u8>, NoMemory>
        requires { HoldsAll self.now from to }
        ensures { IfOk result (λ bytes. bytes.items ≡ bytes_at self.now from (to - from)) }
    {
        let mut bytes = Vec::new(alloc);
        let mut at = from;
        while at < to {
            let piece = self.piece_at(at);
            let end = piece.end.min(to);
            bytes.extend_from_slice(piece.slice(at, end))?;
            at = end;
        }
        Ok(bytes)
    }

    /// The frames that brought the bytes from position `from` up to and without `to`: in ascending order, each once.
    pub(crate) fn origins(&self, alloc: Global, from: u64, to: u64) -> Result<Numbers, NoMemory>
        requires { HoldsAll self.now from to }
        ensures { IfOk result (λ numbers. numbers ≡ frames_at self.now from (to - from)) }
    {
        let mut frames = self.frames(alloc, from, to)?;
        frames.sort_unstable();
        frames.dedup();
        Ok(Numbers::from_vec(frames))
    }

    /// The frames of the pieces from position `from` up to and without `to`.
    fn frames(&self, alloc: Global, from: u64, to: u64) -> Result<Vec<u32>, NoMemory>
        requires { HoldsAll self.now from to }
        ensures { IfOk result (λ frames.
            put_numbers frames.items [] ≡ frames_at self.now from (to - from)) }
    {
        let mut frames = Vec::new(alloc);
        let mut next = from;
        while next < to {
            let piece = self.piece_at(next);
            frames.push(piece.frame)?;
            next = piece.end;
        }
        Ok(frames)
    }
}

fn least(a: Option<u64>, b: Option<u64>) -> Option<u64>
    ensures { result ≡ least_of a b }
{
    match (a, b) {
        (Some(a), Some(b)) => Some(a.min(b)),
        (Some(a), None) => Some(a),
        (None, b) => b,
    }
}
