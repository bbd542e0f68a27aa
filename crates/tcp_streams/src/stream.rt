ghost use Rattle.std.specs.Prelude.{◌≡◌, ◌^◌, ◌<◌, not, true, false, Some, IfOk, OnOk, if◌then◌else◌};
ghost use Rattle.tcp_streams.specs.Ways.{nothing, end_of, own_step, other_step, way_step, same_side, IsWay};
ghost use Rattle.tcp_streams.specs.States.{state_of};
ghost use Rattle.tcp_streams.specs.Labels.{told, number_in, ack_in, side_from, restarts, PassesNear};
ghost use Rattle.tcp_streams.specs.Stands.{origin_in};

use crate::ends::end_of_endpoint;
use crate::segment::{Segment, Taken};
use crate::way::Way;
use pk_base::{Endpoint, NoMemory};
use std::alloc::Global;

/// A stream: who opened it, and the direction of either side.
pub(crate) struct Stream {
    pub first: Endpoint,
    pub zero: Way,
    pub one: Way,
}

impl Drop for Stream {
    fn drop(self) {
        let Stream {
            first: _first,
            zero: _zero,
            one: _one,
        } = self;
    }
}

impl Stream {
    pub fn new(alloc: Global, first: Endpoint) -> Stream
        ensures first { result.first ≡ first }
        ensures zero { state_of result.zero ≡ nothing }
        ensures one { state_of result.one ≡ nothing }
    {
        Stream {
            first,
            zero: Way::new(alloc),
            one: Way::new(alloc),
        }
    }

    /// Whether a segment comes from the end that did not open the stream.
    pub fn side_of(&self, s: &Segment) -> bool
        ensures { result ≡ side_from self.now.first s.now }
    {
        end_of_endpoint(s.from) != end_of_endpoint(self.first)
    }

    /// Whether a segment opens a new stream between the same ends.
    pub fn restarts(&self, s: &Segment) -> bool
        ensures { result ≡ restarts (origin_in self.now s.now) s.now }
    {
        let origin = if self.side_of(s) {
            self.one.origin
        } else {
            self.zero.origin
        };
        restarts(origin, s)
    }

    /// Takes a segment. After `NoMemory` nothing more is known of the stream.
    pub fn take(&mut self, number: u32, side: bool, s: &Segment) -> Result<Taken, NoMemory>
        requires zero { IsWay (state_of self.old.zero) }
        requires one { IsWay (state_of self.old.one) }
        requires zero_room { end_of (state_of self.old.zero) < 2 ^ 60 }
        requires one_room { end_of (state_of self.old.one) < 2 ^ 60 }
        ensures told { IfOk result (λ taken. taken ≡ (if side then told number true (state_of self.old.one) (state_of self.old.zero) s.now
            else told number false (state_of self.old.zero) (state_of self.old.one) s.now)) }
        ensures near { IfOk result (λ taken. PassesNear taken) }
        ensures first { OnOk result (self.new.first ≡ self.old.first) }
        ensures zero { OnOk result (state_of self.new.zero ≡ way_step (same_side false side) (state_of self.old.zero) s.now) }
        ensures one { OnOk result (state_of self.new.one ≡ way_step (same_side true side) (state_of self.old.one) s.now) }
    {
        if side {
            tell(number, true, &mut self.one, &mut self.zero, s)
        } else {
            tell(number, false, &mut self.zero, &mut self.one, s)
        }
    }
}

pub(crate) fn restarts(origin: Option<u32>, s: &Segment) -> bool
    ensures { result ≡ restarts origin s.now }
{
    match origin {
        Some(origin) => {
            let seq = s.seq;
            s.syn && !s.acked && origin != seq.wrapping_add(1)
        }
        None => false,
    }
}

/// Takes a segment into its direction, and into the other as what the other side says.
#[tactic(auto, unfolding(crate::specs::Labels::told))]
fn tell(
    stream: u32,
    side: bool,
    own: &mut Way,
    other: &mut Way,
    s: &Segment,
) -> Result<Taken, NoMemory>
    requires way { IsWay (state_of own.old) }
    requires room { end_of (state_of own.old) < 2 ^ 60 }
    requires other_room { end_of (state_of other.old) < 2 ^ 60 }
    ensures told { IfOk result (λ taken. taken ≡ told stream side (state_of own.old) (state_of other.old) s.now) }
    ensures near { IfOk result (λ taken. PassesNear taken) }
    ensures own { OnOk result (state_of own.new ≡ own_step (state_of own.old) s.now) }
    ensures other { OnOk result (state_of other.new ≡ other_step (state_of other.old) s.now) }
{
    let front_before = own.end();
    let seq = number_in(own.origin_for(s), s.seq);
    let ack = ack_in(other.origin, s);
    let entered = own.take(s)?;
    other.note(s);
    Ok(Taken {
        stream,
        side: if side { 1 } else { 0 },
        seq,
        ack,
        position: entered.position,
        front_before,
        front_after: own.end(),
        lost: entered.lost,
    })
}

/// A number counted from a direction's origin, which counts as 1.
pub(crate) fn number_in(origin: u32, number: u32) -> u32
    ensures { result ≡ number_in origin number }
{
    number.wrapping_sub(origin).wrapping_add(1)
}

pub(crate) fn ack_in(origin: Option<u32>, s: &Segment) -> Option<u32>
    ensures { result ≡ ack_in origin s.now }
{
    match origin {
        Some(origin) if s.acked => Some(number_in(origin, s.ack)),
        _ => None,
    }
}
