ghost use Rattle.std.specs.Prelude.{◌≡◌, ℕ, Bool, ◌+◌, ◌-◌, ◌^◌, ◌<◌, ◌≤◌, [], ◌∷◌, ◌++◌, List, length, Some, slice_get, slice_set, if◌then◌else◌, IfOk, OnOk, IfSome};
ghost use Rattle.tcp_streams.specs.declared.segment.Segment.{Segment as SegmentValue};
ghost use Rattle.tcp_streams.specs.declared.stream.Stream.{Stream as StreamValue};
ghost use Rattle.tcp_streams.specs.declared.ends.Ends.{Ends as EndsValue};
ghost use Rattle.tcp_streams.specs.Conversations.{ends_of as ends_value, same_ends, number_of};
ghost use Rattle.tcp_streams.specs.Labels.{labels, sided_of, opened, side_from, taken_after, PassesNear};
ghost use Rattle.tcp_streams.specs.Isolation.{HaveSameBetween, IsIsolated};
ghost use Rattle.tcp_streams.specs.Order.{IsOrderFree};
ghost use Rattle.tcp_streams.specs.LetGo.{AgreesKept, StandsFrom};
ghost use Rattle.tcp_streams.specs.Stands.{Agrees, IsSound, IsSoundStream, IsStepped, IsOpened, current_in};
ghost use Rattle.tcp_streams.specs.Standing.{AreReady, AreStepped, StandsFor, bytes_so_far, streams_of, taken_so_far, stream_count};

use crate::ends::ends_of;
use crate::kept::Kept;
use crate::newest::Newest;
use crate::segment::{Segment, Taken};
use crate::stream::Stream;
use pk_base::NoMemory;
use std::alloc::Global;

/// The streams of the segments so far.
pub struct Streams {
    alloc: Global,
    pub(crate) kept: Kept,
}

impl Drop for Streams {
    fn drop(self) {
        let Streams {
            alloc: _,
            kept: _kept,
        } = self;
    }
}

impl Streams {
    /// No segment was taken. Takes no memory.
    #[tactic(auto, unfolding(crate::specs::Standing::StandsFor))]
    pub fn new(alloc: Global) -> Streams
        ensures stands { StandsFor [] result }
        ensures from { StandsFrom [] result }
        ensures taken { taken_so_far result ≡ 0 }
        ensures bytes { bytes_so_far result ≡ 0 }
    {
        Streams {
            alloc,
            kept: Kept {
                newest: Newest::new(alloc),
                streams: Vec::new(alloc),
                taken: 0,
                bytes: 0,
                spent: false,
            },
        }
    }

    /// How many streams there are. Takes no memory.
    #[tactic(auto, unfolding(crate::specs::Standing::StandsFor))]
    pub fn count(&self) -> u32
        ensures count { result ≡ stream_count self.now }
        ensures opened { (past : List SegmentValue) → StandsFor past self.now → result ≡ opened (labels past) }
    {
        self.kept.streams.len() as u32
    }

    /// Takes a segment, and tells what it is to those before it. After `NoMemory` nothing more is known of the streams.
    #[tactic(auto, using(crate::proofs::FewLemmas::is_order_free), unfolding(crate::specs::Standing::StandsFor, crate::specs::LetGo::StandsFrom))]
    pub fn take(&mut self, s: &Segment) -> Result<Taken, NoMemory>
        requires taken { taken_so_far self.old < 2 ^ 32 - 1 }
        requires bytes { bytes_so_far self.old + length s.now.payload < 2 ^ 32 }
        ensures taken { IfOk result (λ taken. (past : List SegmentValue) → StandsFor past self.old → taken ≡ taken_after past s.now) }
        ensures stands { OnOk result ((past : List SegmentValue) → StandsFor past self.old → StandsFor (s.now ∷ past) self.new) }
        ensures taken_from { IfOk result (λ taken. (past : List SegmentValue) → StandsFrom past self.old → taken ≡ taken_after past s.now) }
        ensures stands_from { OnOk result ((past : List SegmentValue) → StandsFrom past self.old → StandsFrom (s.now ∷ past) self.new) }
        ensures near { IfOk result (λ taken. PassesNear taken) }
        ensures stepped { IfOk result (λ taken. AreStepped s.now taken (streams_of self.old) (streams_of self.new)) }
        ensures ready { OnOk result (AreReady self.new) }
        ensures counted { taken_so_far self.new ≤ taken_so_far self.old + 1 }
        ensures bytes { bytes_so_far self.new ≤ bytes_so_far self.old + length s.now.payload }
        ensures isolated { (past ys : List SegmentValue) → HaveSameBetween s.now past ys → IsIsolated s.now past ys }
        ensures order { (past : List SegmentValue) (stream origin : ℕ) (side : Bool)
            → IsOrderFree origin side (sided_of stream (labels (s.now ∷ past))) }
    {
        let kept = &mut self.kept;
        if kept.spent {
            return Err(NoMemory);
        }
        kept.spent = true;
        kept.taken += 1;
        kept.bytes += s.payload.bytes().len() as u32;
        let taken = take_next(self.alloc, &mut kept.newest, &mut kept.streams, s)?;
        kept.spent = false;
        Ok(taken)
    }
}

fn take_next(
    alloc: Global,
    newest: &mut Newest,
    streams: &mut Vec<Stream>,
    s: &Segment,
) -> Result<Taken, NoMemory>
    requires { (taken : ℕ) × IsSound newest.old streams.old.items taken × (taken < 2 ^ 32 - 1) }
    ensures count { length streams.new.items ≤ length streams.old.items + 1 }
    ensures sound { OnOk result ((taken : ℕ) → IsSound newest.old streams.old.items taken → IsSound newest.new streams.new.items (taken + 1)) }
    ensures taken { IfOk result (λ taken. (past : List SegmentValue) → Agrees (labels past) newest.old streams.old.items → taken ≡ taken_after past s.now) }
    ensures taken_from { IfOk result (λ taken. (past : List SegmentValue) → AgreesKept (labels past) newest.old streams.old.items → taken ≡ taken_after past s.now) }
    ensures near { IfOk result (λ taken. PassesNear taken) }
    ensures stepped { IfOk result (λ taken. AreStepped s.now taken streams.old.items streams.new.items) }
    ensures agrees_from { OnOk result ((past : List SegmentValue) → AgreesKept (labels past) newest.old streams.old.items → AgreesKept (labels (s.now ∷ past)) newest.new streams.new.items) }
    ensures agrees { OnOk result ((past : List SegmentValue) → Agrees (labels past) newest.old streams.old.items → Agrees (labels (s.now ∷ past)) newest.new streams.new.items) }
{
    match current(newest, streams, s) {
        Some(number) => follow(streams, number, s),
        None => start(alloc, newest, streams, s),
    }
}

/// The stream that a segment goes on with, if it does.
fn current(newest: &Newest, streams: &[Stream], s: &Segment) -> Option<u32>
    ensures current { result ≡ current_in newest.now streams.now s.now }
    ensures within { IfSome result (λ number. number < length streams.now) }
{
    let number = newest.find(ends_of(s))?;
    let stream = streams.get(number as usize)?;
    if stream.restarts(s) {
        None
    } else {
        Some(number)
    }
}

/// Takes a segment of a stream that is there.
fn follow(streams: &mut Vec<Stream>, number: u32, s: &Segment) -> Result<Taken, NoMemory>
    requires within { number < length streams.old.items }
    requires sound { (taken : ℕ) × ((old : StreamValue) → slice_get streams.old.items number ≡ Some old → IsSoundStream taken old) × (taken < 2 ^ 32) }
    ensures count { length streams.new.items ≡ length streams.old.items }
    ensures near { IfOk result (λ taken. PassesNear taken) }
    ensures followed { IfOk result (λ taken. (old : StreamValue) → slice_get streams.old.items number ≡ Some old → (new : StreamValue)
        × (streams.new.items ≡ slice_set streams.old.items number new) × IsStepped number (side_from old.first s.now) s.now old new taken) }
{
    let stream = &mut streams[number as usize];
    let side = stream.side_of(s);
    stream.take(number, side, s)
}

/// Opens a stream with its first segment.
fn start(
    alloc: Global,
    newest: &mut Newest,
    streams: &mut Vec<Stream>,
    s: &Segment,
) -> Result<Taken, NoMemory>
    requires { length streams.old.items < 2 ^ 32 }
    ensures count { length streams.new.items ≤ length streams.old.items + 1 }
    ensures near { IfOk result (λ taken. PassesNear taken) }
    ensures opened { IfOk result (λ taken. (new : StreamValue) × (streams.new.items ≡ streams.old.items ++ new ∷ []) × IsOpened (length streams.old.items) s.now new taken) }
    ensures newest { OnOk result ((ends : EndsValue) → number_of newest.new ends ≡ (if same_ends (ends_value s.now) ends then Some (length streams.old.items) else number_of newest.old ends)) }
{
    let number = streams.len() as u32;
    let mut stream = Stream::new(alloc, s.from);
    let taken = stream.take(number, false, s)?;
    streams.push(stream)?;
    newest.set(ends_of(s), number)?;
    Ok(taken)
}
