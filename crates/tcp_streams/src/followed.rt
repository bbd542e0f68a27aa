ghost use Rattle.std.specs.Prelude.{◌≡◌, ◌^◌, ◌<◌, None, if◌then◌else◌, IfOk, IfSome};
ghost use Rattle.tcp_streams.specs.Labels.{restarts, PassesNear};
ghost use Rattle.tcp_streams.specs.PlacesKept.{IsFollowedOn, is_turned, origin_followed, side_followed, ways_at, ways_kept, ways_of};
ghost use Rattle.tcp_streams.specs.Reaches.{IsNear};

use crate::ends::{comes_first, end_of_endpoint};
use crate::reach::Reach;
use crate::segment::{Segment, Taken};
use crate::stream::restarts;
use crate::ways::Ways;
use pk_base::NoMemory;
use std::alloc::Global;

/// A stream by its numbers.
pub(crate) struct Followed {
    /// Whether the segment that opened it came from the greater of its two ends.
    pub turned: bool,
    /// The origin of the opener's direction, where no more is known of the stream.
    pub origin: u32,
    pub ways: Option<Box<Ways>>,
}

impl Drop for Followed {
    fn drop(self) {
        let Followed {
            turned: _,
            origin: _,
            ways: _ways,
        } = self;
    }
}

/// Whether a segment comes from the greater of its two ends.
pub(crate) fn is_turned(s: &Segment) -> bool
    ensures { result ≡ is_turned s.now }
{
    !comes_first(end_of_endpoint(s.from), end_of_endpoint(s.to))
}

impl Followed {
    /// A stream with these directions.
    pub fn with(alloc: Global, turned: bool, ways: Ways) -> Result<Followed, NoMemory>
        ensures turned { IfOk result (λ stream. stream.turned ≡ turned) }
        ensures ways { IfOk result (λ stream. ways_of stream ≡ ways_kept ways) }
    {
        match begun_at(&ways) {
            Some(origin) => Ok(Followed {
                turned,
                origin,
                ways: None,
            }),
            None => Ok(Followed {
                turned,
                origin: 0,
                ways: Some(Box::new(alloc, ways)?),
            }),
        }
    }

    /// Whether a segment of the conversation comes from the end that did not open the stream.
    pub fn side_of(&self, s: &Segment) -> bool
        ensures { result ≡ side_followed self.now s.now }
    {
        self.turned != is_turned(s)
    }

    /// Whether a segment opens a new stream between the same ends.
    pub fn restarts(&self, s: &Segment) -> bool
        ensures { result ≡ restarts (origin_followed self.now s.now) s.now }
    {
        restarts(self.origin_of(self.side_of(s)), s)
    }

    fn origin_of(&self, side: bool) -> Option<u32>
        ensures { result ≡ (if side then (ways_of self.now).one.origin else (ways_of self.now).zero.origin) }
    {
        match &self.ways {
            Some(ways) => {
                if side {
                    ways.one.origin
                } else {
                    ways.zero.origin
                }
            }
            None => { if side { None } else { Some(self.origin) } }
        }
    }

    /// Takes a segment. After `NoMemory` nothing more is known of the stream.
    pub fn take(
        &mut self,
        alloc: Global,
        number: u32,
        side: bool,
        s: &Segment,
    ) -> Result<Taken, NoMemory>
        requires zero { IsNear (ways_of self.old).zero }
        requires one { IsNear (ways_of self.old).one }
        requires zero_room { (ways_of self.old).zero.end < 2 ^ 60 }
        requires one_room { (ways_of self.old).one.end < 2 ^ 60 }
        ensures near { IfOk result (λ taken. PassesNear taken) }
        ensures followed { IfOk result (λ taken. IsFollowedOn number side s.now self.old self.new taken) }
    {
        let mut ways = boxed(alloc, self.origin, self.ways.take())?;
        let taken = ways.take(alloc, number, side, s)?;
        self.ways = Some(ways);
        Ok(taken)
    }
}

/// The directions of a stream, kept or as they were when it was opened.
fn boxed(alloc: Global, origin: u32, ways: Option<Box<Ways>>) -> Result<Box<Ways>, NoMemory>
    ensures { IfOk result (λ kept. ways_kept kept.value ≡ ways_at origin ways) }
{
    match ways {
        Some(ways) => Ok(ways),
        None => Ok(Box::new(
            alloc,
            Ways {
                zero: Reach::begun(alloc, Some(origin)),
                one: Reach::begun(alloc, None),
            },
        )?),
    }
}

/// The origin of a stream's directions of which no more is known.
fn begun_at(ways: &Ways) -> Option<u32>
    ensures { IfSome result (λ origin. ways_at origin None ≡ ways_kept ways.now) }
{
    let origin = ways.zero.origin?;
    if ways.zero.is_begun() && ways.one.is_begun() && ways.one.origin.is_none() {
        Some(origin)
    } else {
        None
    }
}
