ghost use Rattle.std.specs.Prelude.{◌≡◌, ℕ, ◌+◌, ◌-◌, ◌<◌, ◌≤◌, drop, length, slice_get, Some, [], ◌∷◌, ◌++◌, IfOk, IfSome, IfNone, OnOk, OnErr};
ghost use Rattle.std.specs.FinMap.{get};
ghost use Rattle.range_bytes.specs.declared.in_order.Mark.{Mark as MarkValue};
ghost use Rattle.range_bytes.specs.Joined.{IsMarked, IsRunAt, cut};
ghost use Rattle.range_bytes.specs.LetGo.{AreMarksPast, IsShorter};
ghost use Rattle.range_bytes.specs.Pieces.{held_of};

use pk_base::NoMemory;
use std::alloc::Global;

/// Where the bytes that one frame brought end.
#[derive(Clone, Copy)]
pub(crate) struct Mark {
    pub(crate) end: u64,
    pub(crate) frame: u32,
}

/// Bytes in order from one position up to and without another.
#[derive(Drop)]
pub(crate) struct InOrder {
    pub(crate) start: u64,
    pub(crate) end: u64,
    pub(crate) bytes: Vec<u8>,
    /// One for each frame that brought some of them.
    pub(crate) marks: Vec<Mark>,
}

impl InOrder {
    pub(crate) fn new(alloc: Global, start: u64) -> InOrder
        ensures start { result.start ≡ start }
        ensures end { result.end ≡ start }
        ensures bytes { result.bytes.items ≡ [] }
        ensures marks { result.marks.items ≡ [] }
    {
        InOrder {
            start,
            end: start,
            bytes: Vec::new(alloc),
            marks: Vec::new(alloc),
        }
    }

    /// Puts bytes behind the others.
    pub(crate) fn push(&mut self, bytes: &[u8], end: u64, frame: u32) -> Result<(), NoMemory>
        ensures start { self.new.start ≡ self.old.start }
        ensures end { OnOk result (self.new.end ≡ end) }
        ensures bytes { OnOk result (self.new.bytes.items ≡ self.old.bytes.items ++ bytes.now) }
        ensures marks { OnOk result (self.new.marks.items
            ≡ self.old.marks.items ++ record { end = end; frame = frame } ∷ []) }
        ensures same_end { OnErr result (self.new.end ≡ self.old.end) }
        ensures same_bytes { OnErr result (self.new.bytes.items ≡ self.old.bytes.items) }
        ensures same_marks { OnErr result (self.new.marks.items ≡ self.old.marks.items) }
    {
        self.marks.push(Mark { end, frame })?;
        if self.bytes.extend_from_slice(bytes).is_err() {
            self.marks.pop();
            return Err(NoMemory);
        }
        self.end = end;
        Ok(())
    }

    /// Lets go of the bytes before a position, once they are more than those behind it: so each byte that is let go has at most one
    /// other moved.
    pub(crate) fn let_go(&mut self, alloc: Global, to: u64) -> Result<(), NoMemory>
        requires end { self.old.start + length self.old.bytes.items ≡ self.old.end }
        requires marked { IsMarked self.old.start self.old.bytes.items self.old.marks.items }
        requires high { to ≤ self.old.end }
        ensures ok { OnOk result (IsShorter self.old self.new to) }
        ensures err { OnErr result (self.new ≡ self.old) }
    {
        if to.saturating_sub(self.start) <= self.end - to {
            return Ok(());
        }
        self.shorten(alloc, to)
    }

    /// Lets go of the bytes before a position.
    fn shorten(&mut self, alloc: Global, to: u64) -> Result<(), NoMemory>
        requires end { self.old.start + length self.old.bytes.items ≡ self.old.end }
        requires marked { IsMarked self.old.start self.old.bytes.items self.old.marks.items }
        requires low { self.old.start ≤ to }
        requires high { to ≤ self.old.end }
        ensures ok { OnOk result (IsShorter self.old self.new to) }
        ensures err { OnErr result (self.new ≡ self.old) }
    {
        let marks = marks_past(alloc, &self.marks, to)?;
        self.bytes = bytes_from(alloc, &self.bytes, (to - self.start) as usize)?;
        self.marks = marks;
        self.start = to;
        Ok(())
    }

    /// How far the bytes of one frame go that hold a position.
    pub(crate) fn run_at(&self, at: u64) -> Option<Mark>
        requires end { self.now.start + length self.now.bytes.items ≡ self.now.end }
        requires marked { IsMarked self.now.start self.now.bytes.items self.now.marks.items }
        ensures some { IfSome result (IsRunAt (held_of
            (cut self.now.start self.now.bytes.items self.now.marks.items)) at) }
        ensures none { IfNone result (get (held_of
            (cut self.now.start self.now.bytes.items self.now.marks.items)) at ≡ None) }
    {
        if at < self.start {
            return None;
        }
        let place = place_of(&self.marks, at);
        if place == self.marks.len() {
            return None;
        }
        let mark = self.marks[place];
        Some(mark)
    }
}

/// The bytes from a place on, in no more memory than they need.
fn bytes_from(alloc: Global, bytes: &[u8], from: usize) -> Result<Vec<u8>, NoMemory>
    requires { from ≤ length bytes.now }
    ensures { IfOk result (λ rest. rest.items ≡ drop from bytes.now) }
{
    Ok(bytes[from..].to_vec(alloc)?)
}

/// The marks past a position.
fn marks_past(alloc: Global, marks: &[Mark], to: u64) -> Result<Vec<Mark>, NoMemory>
    ensures { IfOk result (λ rest. AreMarksPast marks.now to rest.items) }
{
    let place = place_of(marks, to);
    Ok(marks[place..].to_vec(alloc)?)
}

/// The place of the first mark past a position.
fn place_of(marks: &[Mark], at: u64) -> usize
    ensures within { result ≤ length marks.now }
    ensures before { (last : ℕ) (mark : MarkValue) → last + 1 ≡ result
        → slice_get marks.now last ≡ Some mark → mark.end ≤ at }
    ensures behind { (mark : MarkValue) → slice_get marks.now result ≡ Some mark
        → at < mark.end }
{
    let mut low = 0;
    let mut high = marks.len();
    while low < high {
        let middle = low + (high - low) / 2;
        if marks[middle].end <= at {
            low = middle + 1;
        } else {
            high = middle;
        }
    }
    low
}
