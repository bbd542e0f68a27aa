ghost use Rattle.std.specs.Prelude.{◌≡◌, ◌↔◌, true, ◌-◌, ◌+◌, ◌<◌, ◌≤◌, ℕ, List, length, slice_range, slice_get, Some, nat_le, IfOk, IfSome, IsSome, IsSomeAnd};
ghost use Rattle.pk_base.specs.declared.stretch.Stretch.{Stretch as StretchValue};
ghost use Rattle.range_bytes.specs.Held.{HoldsAll, IsFreeFrom, bytes_at, frames_at};
ghost use Rattle.tcp_streams.specs.declared.segment.Segment.{Segment as SegmentValue};
ghost use Rattle.tcp_streams.specs.Ways.{stretches, AreApart, IsWay};
ghost use Rattle.tcp_streams.specs.LetGo.{StandsFrom};
ghost use Rattle.tcp_streams.specs.Parts.{LiesIn, LiesInOne, IsPart};
ghost use Rattle.tcp_streams.specs.States.{state_of};
ghost use Rattle.tcp_streams.specs.Standing.{StandsFor, stream_count, way_in, way_for};

use crate::streams::Streams;
use crate::way::Way;
use pk_base::{NoMemory, Numbers, Octets, Stretch, Stretches};

impl Streams {
    fn way(&self, stream: u32, side: u8) -> &Way
        requires { stream < stream_count self.now }
        ensures { state_of result.now ≡ way_in self.now stream side }
    {
        let stream = &self.kept.streams[stream as usize];
        if side == 1 { &stream.one } else { &stream.zero }
    }

    /// The bytes of a direction's last stretch, by its stream's number and its side, 0 or 1. Takes no memory.
    #[tactic(auto, using(crate::proofs::ReadLemmas::stands_way))]
    pub fn front(&self, stream: u32, side: u8) -> &[u8]
        requires stream { stream < stream_count self.now }
        requires side { side < 2 }
        ensures front { (past : List SegmentValue) → StandsFor past self.now → result.now ≡ (way_for past stream side).front }
        ensures kept { result.now ≡ (way_in self.now stream side).front }
    {
        self.way(stream, side).held.front()
    }

    /// The position of the first byte of a direction's last stretch. Takes no memory.
    #[tactic(auto, using(crate::proofs::ReadLemmas::stands_way))]
    pub fn front_start(&self, stream: u32, side: u8) -> u64
        requires stream { stream < stream_count self.now }
        requires side { side < 2 }
        ensures start { (past : List SegmentValue) → StandsFor past self.now → result ≡ (way_for past stream side).start }
        ensures kept { result ≡ (way_in self.now stream side).start }
    {
        self.way(stream, side).held.start()
    }

    /// The stretches of a direction before the last, in order. Takes no memory.
    #[tactic(auto, using(crate::proofs::ReadLemmas::stands_way))]
    pub fn earlier(&self, stream: u32, side: u8) -> &[Stretch]
        requires stream { stream < stream_count self.now }
        requires side { side < 2 }
        ensures earlier { (past : List SegmentValue) → StandsFor past self.now → result.now ≡ (way_for past stream side).earlier }
        ensures kept { result.now ≡ (way_in self.now stream side).earlier }
    {
        self.way(stream, side).earlier.as_slice()
    }

    /// The stretches of a direction, in order: what lies between the gaps that were passed, and behind the last of them.
    #[tactic(auto, using(crate::proofs::ReadLemmas::stands_way))]
    pub fn stretches(&self, stream: u32, side: u8) -> Result<Stretches, NoMemory>
        requires stream { stream < stream_count self.now }
        requires side { side < 2 }
        ensures { IfOk result (λ all. (past : List SegmentValue) → StandsFor past self.now → all ≡ stretches (way_for past stream side)) }
    {
        self.way(stream, side).stretches()
    }

    /// The bytes of a direction from a position up to and without another, which lie in one stretch. Takes no memory.
    #[tactic(auto, using(crate::proofs::ReadLemmas::stands_way))]
    pub fn part(&self, stream: u32, side: u8, from: u64, to: u64) -> &[u8]
        requires stream { stream < stream_count self.now }
        requires side { side < 2 }
        requires lies { LiesInOne (stretches (way_in self.now stream side)) from to }
        ensures from { IsWay (way_in self.now stream side) → (past : List SegmentValue) → StandsFrom past self.now → result.now ≡ bytes_at (way_for past stream side).held from (to - from) }
        ensures bytes { (past : List SegmentValue) → StandsFor past self.now → IsPart (stretches (way_for past stream side)) from to result.now }
        ensures held { (past : List SegmentValue) → StandsFor past self.now → result.now ≡ bytes_at (way_for past stream side).held from (to - from) }
        ensures kept { IsPart (stretches (way_in self.now stream side)) from to result.now }
    {
        self.way(stream, side).find(from, to).unwrap()
    }

    /// Whether a range of positions, from one up to and without another, lies in one stretch of a direction. Takes no memory.
    pub fn has_part(&self, stream: u32, side: u8, from: u64, to: u64) -> bool
        requires stream { stream < stream_count self.now }
        requires side { side < 2 }
        ensures { (result ≡ true) ↔ LiesInOne (stretches (way_in self.now stream side)) from to }
    {
        self.way(stream, side).find(from, to).is_some()
    }

    /// Whether every byte of a direction from a position up to and without another is held. Takes no memory.
    pub fn holds(&self, stream: u32, side: u8, from: u64, to: u64) -> bool
        requires stream { stream < stream_count self.now }
        requires side { side < 2 }
        ensures { (result ≡ true) ↔ HoldsAll (way_in self.now stream side).held from to }
    {
        self.way(stream, side).held.first_free(from) >= to
    }

    /// The least position from one on of which a direction holds no byte. Takes no memory.
    pub fn first_free(&self, stream: u32, side: u8, from: u64) -> u64
        requires stream { stream < stream_count self.now }
        requires side { side < 2 }
        ensures { IsFreeFrom (way_in self.now stream side).held from result }
    {
        self.way(stream, side).held.first_free(from)
    }

    /// The numbers of the frames that brought the bytes from a position up to and without another: ascending, each once.
    #[tactic(auto, using(crate::proofs::ReadLemmas::stands_way))]
    pub fn origins(&self, stream: u32, side: u8, from: u64, to: u64) -> Result<Numbers, NoMemory>
        requires stream { stream < stream_count self.now }
        requires side { side < 2 }
        requires held { HoldsAll (way_in self.now stream side).held from to }
        ensures numbers { IfOk result (λ numbers. (past : List SegmentValue) → StandsFor past self.now
            → numbers ≡ frames_at (way_for past stream side).held from (to - from)) }
        ensures from { IfOk result (λ numbers. (past : List SegmentValue) → StandsFrom past self.now
            → numbers ≡ frames_at (way_for past stream side).held from (to - from)) }
    {
        self.way(stream, side).held.origins(from, to)
    }
}

impl Way {
    /// The bytes from a position up to and without another, where these lie in one stretch.
    fn find(&self, from: u64, to: u64) -> Option<&[u8]>
        ensures some { IfSome result (λ bytes. IsPart (stretches (state_of self.now)) from to bytes.now) }
        ensures lies { IsSome result ↔ LiesInOne (stretches (state_of self.now)) from to }
    {
        let start = self.held.start();
        if start <= from {
            return range_of(self.held.front(), start, from, to);
        }
        let stretch = stretch_before(&self.earlier, from)?;
        range_of(stretch.bytes.bytes(), stretch.start, from, to)
    }

    fn stretches(&self) -> Result<Stretches, NoMemory>
        ensures { IfOk result (λ all. all ≡ stretches (state_of self.now)) }
    {
        let mut all = Vec::new(self.alloc);
        for stretch in self.earlier.iter() {
            all.push(Stretch {
                start: stretch.start,
                bytes: stretch.bytes.clone()?,
            })?;
        }
        all.push(Stretch {
            start: self.held.start(),
            bytes: Octets::copy(self.alloc, self.held.front())?,
        })?;
        Ok(Stretches::from_vec(all))
    }
}

/// Of bytes that begin at a start, those from a position up to and without another, where these are there.
fn range_of(bytes: &[u8], start: u64, from: u64, to: u64) -> Option<&[u8]>
    requires { start ≤ from }
    ensures some { IfSome result (λ part. part.now ≡ slice_range bytes.now (from - start) (to - start)) }
    ensures lies { IsSome result ↔ ((from ≤ to) × (to ≤ start + length bytes.now)) }
{
    if to < from {
        return None;
    }
    bytes.get((from - start) as usize..(to - start) as usize)
}

/// The last stretch that starts at or before a position.
fn stretch_before(stretches: &[Stretch], at: u64) -> Option<&Stretch>
    requires { (next : ℕ) × AreApart 0 stretches.now next }
    ensures some { IfSome result (λ stretch. (number : ℕ) × (slice_get stretches.now number ≡ Some stretch.now) × (stretch.now.start ≤ at)) }
    ensures lies { (number : ℕ) (stretch : StretchValue) (to : ℕ) → slice_get stretches.now number ≡ Some stretch → LiesIn stretch at to → IsSomeAnd result (λ found. found.now ≡ stretch) }
{
    let place = stretches.partition_point(
        |stretch: &Stretch| -> bool
            ensures { result ≡ nat_le stretch.now.start at }
        { stretch.start <= at },
    );
    if place == 0 {
        return None;
    }
    Some(&stretches[place - 1])
}
