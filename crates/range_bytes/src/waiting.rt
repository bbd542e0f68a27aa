ghost use Rattle.std.specs.Prelude.{◌≡◌, ◌⊎◌, ℕ, ◌+◌, ◌-◌, ◌<◌, ◌≤◌, Some, None, IfSome, IfNone, IfOk, OnOk, OnErr};
ghost use Rattle.std.specs.FinMap.{get, empty};
ghost use Rattle.range_bytes.specs.Held.{put_run, IsFreeFrom, IsNextHeld};
ghost use Rattle.range_bytes.specs.Joined.{IsTakenOut};
ghost use Rattle.range_bytes.specs.LetGo.{IsTakenBelow};
ghost use Rattle.range_bytes.specs.Pieces.{IsSized, IsCover, AreGaps};

use crate::late;
use crate::piece::Piece;
use pk_base::NoMemory;
use std::alloc::Global;
use std::collections::BTreeMap;
use std::marker::Model;

/// Runs of bytes that don't overlap, of which any may be taken out again.
#[derive(Drop)]
pub(crate) struct Waiting {
    /// By where they start.
    pieces: BTreeMap<u64, Piece>,
    /// No byte stands at or past this position.
    end: u64,
}

impl Model for Waiting {
    ghost use Rattle.std.specs.Prelude.{ℕ};
    ghost use Rattle.std.specs.Ordering.{nat_cmp};
    ghost use Rattle.std.specs.FinMap.{FinMap, code};
    ghost use Rattle.std.specs.Coded.{coded_ℕ, coded×};
    ghost use Rattle.std.specs.Map.{values_of};
    ghost use Rattle.range_bytes.specs.Pieces.{held_of, IsKeyed, IsApart};

    ghost Value = { FinMap nat_cmp (ℕ × ℕ) };

    ghost coded = { code coded_ℕ (coded× coded_ℕ coded_ℕ) };

    ghost view = { λ waiting. held_of (values_of waiting.pieces.entries) };

    ghost invariant = { λ waiting. IsKeyed waiting.pieces.entries
        × IsApart 0 (values_of waiting.pieces.entries) waiting.end };
}

impl Waiting {
    pub(crate) fn new(alloc: Global) -> Waiting
        ensures { result ≡ empty }
    {
        Waiting {
            pieces: BTreeMap::new(alloc),
            end: 0,
        }
    }

    /// Nothing is held at or past this position.
    pub(crate) fn end(&self) -> u64
        ensures { (position : ℕ) → result ≤ position → get self.now position ≡ None }
    {
        self.end
    }

    /// The piece that holds a position.
    pub(crate) fn covering(&self, at: u64) -> Option<&Piece>
        ensures some { IfSome result (λ piece. IsCover self.now at piece.now) }
        ensures none { IfNone result (get self.now at ≡ None) }
    {
        late::covering(&self.pieces, at)
    }

    /// The least held position from `from` on.
    pub(crate) fn next_held(&self, from: u64) -> Option<u64>
        ensures { IsNextHeld self.now from result }
    {
        if self.covering(from).is_some() {
            return Some(from);
        }
        late::next_start(&self.pieces, from)
    }

    /// The least position from `from` on that isn't held.
    pub(crate) fn first_free(&self, from: u64) -> u64
        ensures { IsFreeFrom self.now from result }
    {
        let mut at = from;
        while at < self.end {
            let Some(piece) = self.covering(at) else {
                return at;
            };
            at = piece.end;
        }
        at
    }

    /// Where a gap ends that begins at `at`, but not past `end`.
    fn gap_end(&self, at: u64, end: u64) -> u64
        requires free { get self.now at ≡ None }
        requires order { at < end }
        ensures low { at < result }
        ensures high { result ≤ end }
        ensures gap { (position : ℕ) → at ≤ position → position < result
            → get self.now position ≡ None }
    {
        match self.next_held(at) {
            Some(next) => next.min(end),
            None => end,
        }
    }

    /// The parts of a piece that lie where nothing is held.
    fn gaps(&self, alloc: Global, new: &Piece) -> Result<Vec<Piece>, NoMemory>
        requires sized { IsSized new.now }
        requires some { new.now.start < new.now.end }
        ensures { IfOk result (λ gaps. AreGaps self.now new.now gaps.items) }
    {
        let mut gaps = Vec::new(alloc);
        let mut at = new.start;
        while at < new.end {
            match self.covering(at) {
                Some(piece) => at = piece.end,
                None => {
                    let to = self.gap_end(at, new.end);
                    gaps.push(new.part(alloc, at, to)?)?;
                    at = to;
                }
            }
        }
        Ok(gaps)
    }

    /// Puts one piece in where nothing is held.
    pub(crate) fn put(&mut self, alloc: Global, new: &Piece) -> Result<(), NoMemory>
        requires sized { IsSized new.now }
        requires some { new.now.start < new.now.end }
        ensures ok { OnOk result (self.new ≡ put_run self.old new.now.start new.now.bytes new.now.frame) }
        ensures err { OnErr result (self.new ≡ self.old) }
    {
        let gaps = self.gaps(alloc, new)?;
        late::put_all(&mut self.pieces, &gaps)?;
        self.end = self.end.max(new.end);
        Ok(())
    }

    /// Takes out what is held before a position; no piece goes over it.
    pub(crate) fn let_go(&mut self, below: u64)
        requires { (below ≡ 0) ⊎ (get self.old (below - 1) ≡ None) }
        ensures gone { (position : ℕ) → position < below → get self.new position ≡ None }
        ensures same { (position : ℕ) → below ≤ position → get self.new position ≡ get self.old position }
    {
        let mut from = 0;
        while from < below {
            match self.take_from(from, below) {
                Some(piece) => from = piece.end,
                None => return,
            }
        }
    }

    /// Takes out the first piece from a position on, where nothing is held before that, if it begins before another.
    fn take_from(&mut self, from: u64, below: u64) -> Option<Piece>
        requires free { (position : ℕ) → position < from → get self.old position ≡ None }
        ensures some { IfSome result (λ piece. IsTakenBelow self.old self.new from below piece) }
        ensures same { IfNone result (self.new ≡ self.old) }
        ensures none { IfNone result ((position : ℕ) → position < below → get self.old position ≡ None) }
    {
        match self.next_held(from) {
            Some(at) if at < below => self.take_at(at),
            _ => None,
        }
    }

    /// Takes out the piece that begins at a position, where nothing is held before that.
    pub(crate) fn take_at(&mut self, at: u64) -> Option<Piece>
        requires { (at ≡ 0) ⊎ (get self.old (at - 1) ≡ None) }
        ensures some { IfSome result (IsTakenOut self.old self.new at) }
        ensures same { IfNone result (self.new ≡ self.old) }
        ensures free { IfNone result (get self.old at ≡ None) }
    {
        self.pieces.remove(&at)
    }
}
