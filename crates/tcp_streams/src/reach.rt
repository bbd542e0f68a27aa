ghost use Rattle.std.specs.Prelude.{◌≡◌, ◌+◌, ◌^◌, ◌<◌, ◌≤◌, true, IfOk, OnOk, unwrap_or};
ghost use Rattle.tcp_streams.specs.Gaps.{AreBetween};
ghost use Rattle.tcp_streams.specs.Numbers.{first_number, ahead, position_ahead, window};
ghost use Rattle.tcp_streams.specs.Reaches.{begun, IsReachOf, IsNear, HasPassed, IsPutIn, TakesOwn, next_acked, numbers_of, raised, run_low, run_high};
ghost use Rattle.tcp_streams.specs.Runs.{AreAhead, AreJoined};
ghost use Rattle.tcp_streams.specs.Ways.{WayState, lost_in, front_for, origin_for, IsWay};

use crate::numbers::{ahead, first_number, place, position_ahead};
use crate::runs::{first_start, put, take_first};
use crate::segment::Segment;
use crate::way::Entered;
use pk_base::{Lost, LostList, NoMemory, Octets, WINDOW};
use std::alloc::Global;
use std::collections::BTreeMap;

/// The numbers of a direction of a stream.
pub(crate) struct Reach {
    /// The number of the byte at position 0, once a segment has set it.
    pub origin: Option<u32>,
    /// The front end.
    pub end: u64,
    /// Up to where the other side has acknowledged.
    pub acked: u64,
    /// The runs of positions behind the front end that are held, by where they start, each with its end.
    pub ahead: BTreeMap<u64, u64>,
}

impl Drop for Reach {
    fn drop(self) {
        let Reach {
            origin: _,
            end: _,
            acked: _,
            ahead: _ahead,
        } = self;
    }
}

impl Reach {
    /// No more is known of a direction than its origin.
    pub fn begun(alloc: Global, origin: Option<u32>) -> Reach
        ensures { numbers_of result ≡ begun origin }
    {
        Reach {
            origin,
            end: 0,
            acked: 0,
            ahead: BTreeMap::new(alloc),
        }
    }

    /// Whether no more is known of it.
    pub fn is_begun(&self) -> bool
        ensures { result ≡ true → numbers_of self.now ≡ begun self.now.origin }
    {
        self.end == 0 && self.acked == 0 && self.ahead.is_empty()
    }

    /// The number of the byte at position 0, which the first segment sets.
    pub fn origin_for(&self, s: &Segment) -> u32
        ensures { result ≡ unwrap_or self.now.origin (first_number s.now) }
    {
        self.origin.unwrap_or(first_number(s))
    }

    /// Takes a segment of the other direction.
    pub fn note(&mut self, s: &Segment)
        requires { self.old.end < 2 ^ 62 }
        ensures origin { self.new.origin ≡ self.old.origin }
        ensures end { self.new.end ≡ self.old.end }
        ensures acked { self.new.acked ≡ raised self.old.origin self.old.end self.old.acked s.now }
        ensures ahead { self.new.ahead.entries ≡ self.old.ahead.entries }
    {
        let Some(origin) = self.origin else {
            return;
        };
        if s.acked {
            let end = self.end;
            self.acked = self.acked.max(place(0, end, ahead(origin, end, s.ack)));
        }
    }

    /// Takes a segment of this direction. After `NoMemory` nothing more is known of the direction.
    pub fn take(&mut self, alloc: Global, s: &Segment) -> Result<Entered, NoMemory>
        requires near { IsNear (numbers_of self.old) }
        requires room { self.old.end < 2 ^ 60 }
        ensures lost { IfOk result (λ entered. (w : WayState) → IsWay w → IsReachOf w (numbers_of self.old) → entered.lost ≡ lost_in w) }
        ensures position { IfOk result (λ entered. (w : WayState) → IsWay w → IsReachOf w (numbers_of self.old) → entered.position
            ≡ position_ahead (front_for w) (ahead (origin_for w s.now) (front_for w) (first_number s.now))) }
        ensures between { IfOk result (λ entered. AreBetween self.old.end entered.lost (self.old.end + window)) }
        ensures step { OnOk result (TakesOwn (numbers_of self.old) s.now (numbers_of self.new)) }
        ensures near { OnOk result (IsNear (numbers_of self.new)) }
        ensures far { OnOk result (self.new.end ≤ self.old.end + 2 ^ 25) }
    {
        let number = first_number(s);
        let origin = self.origin_for(s);
        let lost = self.pass(alloc)?;
        let end = self.end;
        let ahead = ahead(origin, end, number);
        self.put(ahead, s.payload.bytes().len() as u64)?;
        self.origin = Some(origin);
        Ok(Entered {
            lost: LostList::from_vec(lost),
            position: position_ahead(end, ahead),
        })
    }

    /// Moves the front end on to a position, and behind the runs that it reaches.
    fn move_to(&mut self, to: u64)
        ensures origin { self.new.origin ≡ self.old.origin }
        ensures acked { self.new.acked ≡ self.old.acked }
        ensures joined { AreJoined self.old.ahead.entries to self.new.ahead.entries self.new.end }
    {
        self.end = to;
        while let Some(end) = take_first(&mut self.ahead, self.end) {
            self.end = self.end.max(end);
        }
    }

    /// Passes over the gaps behind the front end that the other side has acknowledged past.
    fn pass(&mut self, alloc: Global) -> Result<Vec<Lost>, NoMemory>
        requires near { IsNear (numbers_of self.old) }
        requires room { self.old.end < 2 ^ 61 }
        ensures origin { self.new.origin ≡ self.old.origin }
        ensures acked { self.new.acked ≡ self.old.acked }
        ensures passed { IfOk result (λ lost. (w : WayState) → IsWay w → IsReachOf w (numbers_of self.old) → HasPassed w lost.items (numbers_of self.new)) }
        ensures between { IfOk result (λ lost. AreBetween self.old.end lost.items (self.old.end + window)) }
        ensures near { OnOk result (AreAhead self.new.end self.new.ahead.entries (self.old.end + window)) }
        ensures grown { OnOk result (self.old.end ≤ self.new.end) }
        ensures far { OnOk result (self.new.end ≤ self.old.end + window) }
    {
        let mut lost = Vec::new(alloc);
        while let Some(next) = self.next_acked() {
            lost.push(Lost {
                from: self.end,
                to: next,
            })?;
            self.move_to(next);
        }
        Ok(lost)
    }

    /// Where the first run begins, if it is acknowledged.
    fn next_acked(&self) -> Option<u64>
        ensures { result ≡ next_acked self.now.ahead.entries self.now.acked }
    {
        match first_start(&self.ahead) {
            Some(start) if start <= self.acked => Some(start),
            _ => None,
        }
    }

    /// Puts in the positions of so many bytes that begin so far ahead of the front end, as far as they lie behind it and in
    /// its window.
    fn put(&mut self, ahead: u32, count: u64) -> Result<(), NoMemory>
        requires room { self.old.end < 2 ^ 62 }
        requires count { count < 2 ^ 63 }
        ensures { OnOk result (IsPutIn (numbers_of self.old) (self.old.end + run_low ahead) (self.old.end + run_high ahead count) (numbers_of self.new)) }
    {
        let low = run_low(ahead);
        let high = run_high(ahead, count);
        if high <= low {
            return Ok(());
        }
        if low == 0 {
            self.move_to(self.end + high);
            return Ok(());
        }
        put(&mut self.ahead, self.end + low, self.end + high)
    }
}

fn run_low(ahead: u32) -> u64
    ensures { result ≡ run_low ahead }
{
    if ahead < 1 << 31 { u64::from(ahead) } else { 0 }
}

#[tactic(auto, unfolding(crate::specs::Numbers::window))]
fn run_high(ahead: u32, count: u64) -> u64
    requires { count < 2 ^ 63 }
    ensures { result ≡ run_high ahead count }
{
    let high = if ahead < 1 << 31 {
        u64::from(ahead) + count
    } else {
        count.saturating_sub((1 << 32) - u64::from(ahead))
    };
    high.min(WINDOW)
}
