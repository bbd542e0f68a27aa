ghost use Rattle.std.specs.Prelude.{◌≡◌, ◌+◌, ◌^◌, ◌<◌, IfOk, OnOk};
ghost use Rattle.tcp_streams.specs.Numbers.{first_number, ahead, position_ahead, window};
ghost use Rattle.tcp_streams.specs.Gaps.{AreBetween};
ghost use Rattle.tcp_streams.specs.Ways.{nothing, end_of, lost_in, origin_for, front_for, own_step, other_step, IsWay};
ghost use Rattle.tcp_streams.specs.States.{state_of};

// What segments do to a direction of a stream.
use crate::numbers::{ahead, first_number, place, position_ahead};
use crate::passing::pass;
use crate::segment::Segment;
use crate::way::{Entered, Way, put};
use pk_base::{LostList, NoMemory};
use range_bytes::JoinedRanges;
use std::alloc::Global;

impl Way {
    pub fn new(alloc: Global) -> Way
        ensures { state_of result ≡ nothing }
    {
        Way {
            alloc,
            origin: None,
            held: JoinedRanges::new(alloc),
            earlier: Vec::new(alloc),
            acked: 0,
        }
    }

    /// The front end.
    pub fn end(&self) -> u64
        ensures { result ≡ end_of (state_of self.now) }
    {
        self.held.end()
    }

    /// The number of the byte at position 0, which the first segment sets.
    pub fn origin_for(&self, s: &Segment) -> u32
        ensures { result ≡ origin_for (state_of self.now) s.now }
    {
        self.origin.unwrap_or(first_number(s))
    }

    /// Takes a segment of the other direction.
    #[tactic(auto, unfolding(crate::specs::Ways::other_step))]
    pub fn note(&mut self, s: &Segment)
        requires { end_of (state_of self.old) < 2 ^ 61 }
        ensures { state_of self.new ≡ other_step (state_of self.old) s.now }
    {
        let Some(origin) = self.origin else {
            return;
        };
        if s.acked {
            let end = self.end();
            self.acked = self.acked.max(place(0, end, ahead(origin, end, s.ack)));
        }
    }

    /// Takes a segment of this direction. After `NoMemory` nothing more is known of the direction.
    pub fn take(&mut self, s: &Segment) -> Result<Entered, NoMemory>
        requires way { IsWay (state_of self.old) }
        requires room { end_of (state_of self.old) < 2 ^ 60 }
        ensures lost { IfOk result (λ entered. entered.lost ≡ lost_in (state_of self.old)) }
        ensures between { IfOk result (λ entered. AreBetween (end_of (state_of self.old)) entered.lost (end_of (state_of self.old) + window)) }
        ensures position { IfOk result (λ entered. entered.position ≡ position_ahead (front_for (state_of self.old))
            (ahead (origin_for (state_of self.old) s.now) (front_for (state_of self.old)) (first_number s.now))) }
        ensures step { OnOk result (state_of self.new ≡ own_step (state_of self.old) s.now) }
        ensures near { OnOk result (end_of (state_of self.new) < 2 ^ 61) }
    {
        let number = first_number(s);
        let origin = self.origin_for(s);
        let mut passed = pass(self.alloc, &mut self.held, self.acked)?;
        let end = self.held.end();
        let ahead = ahead(origin, end, number);
        put(&mut self.held, ahead, s)?;
        self.earlier.append(&mut passed.left)?;
        self.origin = Some(origin);
        Ok(Entered {
            lost: LostList::from_vec(passed.lost),
            position: position_ahead(end, ahead),
        })
    }
}
