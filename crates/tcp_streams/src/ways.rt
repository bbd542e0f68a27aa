ghost use Rattle.std.specs.Prelude.{◌≡◌, ◌+◌, ◌^◌, ◌<◌, ◌≤◌, IfOk, OnOk};
ghost use Rattle.tcp_streams.specs.Labels.{told, number_in, ack_in, PassesNear};
ghost use Rattle.tcp_streams.specs.PlacesKept.{AreSteppedOn, ways_kept};
ghost use Rattle.tcp_streams.specs.Reaches.{IsReachOf, IsNear, TakesOwn, TakesOther, numbers_of};
ghost use Rattle.tcp_streams.specs.Ways.{WayState, IsWay};

use crate::reach::Reach;
use crate::segment::{Segment, Taken};
use crate::stream::{ack_in, number_in};
use pk_base::NoMemory;
use std::alloc::Global;

/// The numbers of both directions of a stream.
pub(crate) struct Ways {
    pub zero: Reach,
    pub one: Reach,
}

impl Drop for Ways {
    fn drop(self) {
        let Ways {
            zero: _zero,
            one: _one,
        } = self;
    }
}

impl Ways {
    /// Takes a segment. After `NoMemory` nothing more is known of the stream.
    pub fn take(
        &mut self,
        alloc: Global,
        number: u32,
        side: bool,
        s: &Segment,
    ) -> Result<Taken, NoMemory>
        requires zero { IsNear (numbers_of self.old.zero) }
        requires one { IsNear (numbers_of self.old.one) }
        requires zero_room { self.old.zero.end < 2 ^ 60 }
        requires one_room { self.old.one.end < 2 ^ 60 }
        ensures near { IfOk result (λ taken. PassesNear taken) }
        ensures stepped { IfOk result (λ taken. AreSteppedOn number side s.now (ways_kept self.old) (ways_kept self.new) taken) }
    {
        if side {
            tell(alloc, number, true, &mut self.one, &mut self.zero, s)
        } else {
            tell(alloc, number, false, &mut self.zero, &mut self.one, s)
        }
    }
}

/// Takes a segment into its direction, and into the other as what the other side says.
#[tactic(auto, unfolding(crate::specs::Labels::told))]
fn tell(
    alloc: Global,
    stream: u32,
    side: bool,
    own: &mut Reach,
    other: &mut Reach,
    s: &Segment,
) -> Result<Taken, NoMemory>
    requires near { IsNear (numbers_of own.old) }
    requires room { own.old.end < 2 ^ 60 }
    requires other_room { other.old.end < 2 ^ 60 }
    ensures told { IfOk result (λ taken. (v w : WayState) → IsWay v → IsReachOf v (numbers_of own.old) → IsReachOf w (numbers_of other.old) → taken ≡ told stream side v w s.now) }
    ensures passes { IfOk result (λ taken. PassesNear taken) }
    ensures own { OnOk result (TakesOwn (numbers_of own.old) s.now (numbers_of own.new)) }
    ensures near { OnOk result (IsNear (numbers_of own.new)) }
    ensures far { OnOk result (own.new.end ≤ own.old.end + 2 ^ 25) }
    ensures other { OnOk result (TakesOther (numbers_of other.old) s.now (numbers_of other.new)) }
    ensures end { OnOk result (other.new.end ≡ other.old.end) }
    ensures ahead { OnOk result (other.new.ahead.entries ≡ other.old.ahead.entries) }
{
    let front_before = own.end;
    let seq = number_in(own.origin_for(s), s.seq);
    let ack = ack_in(other.origin, s);
    let entered = own.take(alloc, s)?;
    other.note(s);
    Ok(Taken {
        stream,
        side: if side { 1 } else { 0 },
        seq,
        ack,
        position: entered.position,
        front_before,
        front_after: own.end,
        lost: entered.lost,
    })
}
