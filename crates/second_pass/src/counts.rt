// How many messages of a kind each direction had.
ghost use Rattle.std.specs.Prelude.{◌≡◌, ◌+◌, ℕ, if◌then◌else◌, Some, IfOk, OnOk};
ghost use Rattle.second_pass.specs.declared.messages.Direction.{Direction as DirectionValue};
ghost use Rattle.second_pass.specs.Messages.{same_direction};
ghost use Rattle.second_pass.specs.Stands.{count_in, counted, direction_at};

use crate::messages::Direction;
use indexmap::IndexMap;
use pk_base::NoMemory;
use std::alloc::Global;

/// A count for each direction, from 0. At its last value a count stands still.
pub(crate) struct Counts {
    pub all: IndexMap<Direction, u64>,
}

impl Drop for Counts {
    fn drop(self) {
        let Counts { all: _all } = self;
    }
}

impl Counts {
    pub fn new(alloc: Global) -> Counts
        ensures { (at : DirectionValue) → count_in result at ≡ 0 }
    {
        Counts {
            all: IndexMap::new(alloc),
        }
    }

    pub fn find(&self, at: Direction) -> u64
        ensures { result ≡ count_in self.now at }
    {
        self.all.get(&at).copied().unwrap_or(0)
    }

    /// The direction at a place, in the order in which they were first counted.
    pub fn at(&self, place: usize) -> Option<Direction>
        ensures { result ≡ direction_at self.now place }
    {
        let (at, _) = self.all.get_index(place)?;
        Some(*at)
    }

    /// Counts one more, and answers the direction's place, which stays its own.
    pub fn raise(&mut self, at: Direction) -> Result<usize, NoMemory>
        ensures counts { OnOk result ((other : DirectionValue) → count_in self.new other
            ≡ (if same_direction at other then counted (count_in self.old other + 1)
            else count_in self.old other)) }
        ensures place { IfOk result (λ place. direction_at self.new place ≡ Some at) }
        ensures stay { OnOk result ((place : ℕ) (other : DirectionValue)
            → direction_at self.old place ≡ Some other
            → direction_at self.new place ≡ Some other) }
    {
        let count = one_more(self.find(at));
        let (place, _) = self.all.insert_full(at, count)?;
        Ok(place)
    }
}

fn one_more(number: u64) -> u64
    ensures { result ≡ counted (number + 1) }
{
    number.saturating_add(1)
}
