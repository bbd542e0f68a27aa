ghost use Rattle.std.specs.Prelude.{◌≡◌, ℕ, ◌+◌, ◌-◌, ◌^◌, ◌<◌, ◌≤◌, [], ◌∷◌, ◌++◌, List, length, Some, slice_get, slice_set, if◌then◌else◌, IfOk, OnOk, IfSome};
ghost use Rattle.tcp_streams.specs.declared.ends.Ends.{Ends as EndsValue};
ghost use Rattle.tcp_streams.specs.declared.followed.Followed.{Followed as FollowedValue};
ghost use Rattle.tcp_streams.specs.declared.segment.Segment.{Segment as SegmentValue};
ghost use Rattle.tcp_streams.specs.Conversations.{ends_of as ends_value, same_ends, number_of};
ghost use Rattle.tcp_streams.specs.Labels.{labels, opened, taken_after, PassesNear};
ghost use Rattle.tcp_streams.specs.PlacesKept.{AgreesInPlaces, ArePlacesSound, IsSoundFollowed, IsFollowedOn, IsFollowedFrom, place_in, side_followed};
ghost use Rattle.tcp_streams.specs.PlacesStanding.{PlacesStandFor, places_taken};

use crate::ends::ends_of;
use crate::followed::{Followed, is_turned};
use crate::kept_places::KeptPlaces;
use crate::newest::Newest;
use crate::reach::Reach;
use crate::segment::{Segment, Taken};
use crate::ways::Ways;
use pk_base::NoMemory;
use std::alloc::Global;

/// The streams of the segments so far, by their numbers alone: no byte of them is kept.
pub struct StreamPlaces {
    alloc: Global,
    pub(crate) kept: KeptPlaces,
}

impl Drop for StreamPlaces {
    fn drop(self) {
        let StreamPlaces {
            alloc: _,
            kept: _kept,
        } = self;
    }
}

impl StreamPlaces {
    /// No segment was taken. Takes no memory.
    #[tactic(auto, unfolding(crate::specs::PlacesStanding::PlacesStandFor))]
    pub fn new(alloc: Global) -> StreamPlaces
        ensures stands { PlacesStandFor [] result }
        ensures taken { places_taken result ≡ 0 }
    {
        StreamPlaces {
            alloc,
            kept: KeptPlaces {
                newest: Newest::new(alloc),
                streams: Vec::new(alloc),
                taken: 0,
                spent: false,
            },
        }
    }

    /// How many streams there are. Takes no memory.
    #[tactic(auto, unfolding(crate::specs::PlacesStanding::PlacesStandFor))]
    pub fn count(&self) -> u32
        ensures { (past : List SegmentValue) → PlacesStandFor past self.now → result ≡ opened (labels past) }
    {
        self.kept.streams.len() as u32
    }

    /// Takes a segment, and tells what it is to those before it. After `NoMemory` nothing more is known of the streams.
    #[tactic(auto, unfolding(crate::specs::PlacesStanding::PlacesStandFor))]
    pub fn take(&mut self, s: &Segment) -> Result<Taken, NoMemory>
        requires taken { places_taken self.old < 2 ^ 32 - 1 }
        ensures taken { IfOk result (λ taken. (past : List SegmentValue) → PlacesStandFor past self.old → taken ≡ taken_after past s.now) }
        ensures stands { OnOk result ((past : List SegmentValue) → PlacesStandFor past self.old → PlacesStandFor (s.now ∷ past) self.new) }
        ensures near { IfOk result (λ taken. PassesNear taken) }
        ensures counted { places_taken self.new ≤ places_taken self.old + 1 }
    {
        let kept = &mut self.kept;
        if kept.spent {
            return Err(NoMemory);
        }
        kept.spent = true;
        kept.taken += 1;
        let taken = take_next(self.alloc, &mut kept.newest, &mut kept.streams, s)?;
        kept.spent = false;
        Ok(taken)
    }
}

fn take_next(
    alloc: Global,
    newest: &mut Newest,
    streams: &mut Vec<Followed>,
    s: &Segment,
) -> Result<Taken, NoMemory>
    requires { (taken : ℕ) × ArePlacesSound newest.old streams.old.items taken × (taken < 2 ^ 32 - 1) }
    ensures count { length streams.new.items ≤ length streams.old.items + 1 }
    ensures sound { OnOk result ((taken : ℕ) → ArePlacesSound newest.old streams.old.items taken → ArePlacesSound newest.new streams.new.items (taken + 1)) }
    ensures taken { IfOk result (λ taken. (past : List SegmentValue) → AgreesInPlaces (labels past) newest.old streams.old.items → taken ≡ taken_after past s.now) }
    ensures near { IfOk result (λ taken. PassesNear taken) }
    ensures agrees { OnOk result ((past : List SegmentValue) → AgreesInPlaces (labels past) newest.old streams.old.items → AgreesInPlaces (labels (s.now ∷ past)) newest.new streams.new.items) }
{
    match current(newest, streams, s) {
        Some(number) => follow(alloc, streams, number, s),
        None => start(alloc, newest, streams, s),
    }
}

/// The stream that a segment goes on with, if it does.
fn current(newest: &Newest, streams: &[Followed], s: &Segment) -> Option<u32>
    ensures current { result ≡ place_in newest.now streams.now s.now }
    ensures within { IfSome result (λ number. number < length streams.now) }
{
    let number = newest.find(ends_of(s))?;
    let stream = streams.get(number as usize)?;
    if stream.restarts(s) {
        None
    } else {
        Some(number)
    }
}

/// Takes a segment of a stream that is there.
fn follow(
    alloc: Global,
    streams: &mut Vec<Followed>,
    number: u32,
    s: &Segment,
) -> Result<Taken, NoMemory>
    requires within { number < length streams.old.items }
    requires sound { (taken : ℕ) × ((old : FollowedValue) → slice_get streams.old.items number ≡ Some old → IsSoundFollowed taken old) × (taken < 2 ^ 32) }
    ensures count { length streams.new.items ≡ length streams.old.items }
    ensures near { IfOk result (λ taken. PassesNear taken) }
    ensures followed { IfOk result (λ taken. (old : FollowedValue) → slice_get streams.old.items number ≡ Some old → (new : FollowedValue)
        × (streams.new.items ≡ slice_set streams.old.items number new) × IsFollowedOn number (side_followed old s.now) s.now old new taken) }
{
    let stream = &mut streams[number as usize];
    let side = stream.side_of(s);
    stream.take(alloc, number, side, s)
}

/// Opens a stream with its first segment.
fn start(
    alloc: Global,
    newest: &mut Newest,
    streams: &mut Vec<Followed>,
    s: &Segment,
) -> Result<Taken, NoMemory>
    requires { length streams.old.items < 2 ^ 32 }
    ensures count { length streams.new.items ≤ length streams.old.items + 1 }
    ensures near { IfOk result (λ taken. PassesNear taken) }
    ensures opened { IfOk result (λ taken. (new : FollowedValue) × (streams.new.items ≡ streams.old.items ++ new ∷ []) × IsFollowedFrom (length streams.old.items) s.now new taken) }
    ensures newest { OnOk result ((ends : EndsValue) → number_of newest.new ends ≡ (if same_ends (ends_value s.now) ends then Some (length streams.old.items) else number_of newest.old ends)) }
{
    let number = streams.len() as u32;
    let mut ways = Ways {
        zero: Reach::begun(alloc, None),
        one: Reach::begun(alloc, None),
    };
    let taken = ways.take(alloc, number, false, s)?;
    streams.push(Followed::with(alloc, is_turned(s), ways)?)?;
    newest.set(ends_of(s), number)?;
    Ok(taken)
}
