ghost use Rattle.std.specs.Prelude.{◌≡◌, ◌+◌, ◌++◌, ◌∷◌, ℕ, [], None, Some, true, false, if◌then◌else◌, slice_get, IfOk, OnOk};
ghost use Rattle.message_links.specs.declared.notes.Direction.{Direction as DirectionValue};
ghost use Rattle.message_links.specs.declared.notes.QueryKey.{QueryKey as QueryKeyValue};
ghost use Rattle.message_links.specs.Links.{same_direction, same_query};
ghost use Rattle.message_links.specs.LinkTables.{count_in, counted, query_in, requests_at};

use crate::notes::{Direction, QueryKey};
use indexmap::IndexMap;
use pk_base::NoMemory;
use std::alloc::Global;
use std::collections::BTreeMap;

/// The latest frame with each query. The map is ordered, so that no choice of ids makes a search in it long.
#[derive(Drop)]
pub struct Queries {
    pub all: BTreeMap<QueryKey, u32>,
}

impl Queries {
    pub fn new(alloc: Global) -> Queries
        ensures { (key : QueryKeyValue) → query_in result key ≡ None }
    {
        Queries {
            all: BTreeMap::new(alloc),
        }
    }

    pub fn find(&self, key: QueryKey) -> Option<u32>
        ensures { result ≡ query_in self.now key }
    {
        self.all.get(&key).copied()
    }

    pub fn set(&mut self, key: QueryKey, frame: u32) -> Result<(), NoMemory>
        ensures { OnOk result ((other : QueryKeyValue)
            → query_in self.new other ≡ (if same_query key other then Some frame else query_in
            self.old other)) }
    {
        self.all.insert(key, frame)?;
        Ok(())
    }
}

/// The frames of each direction's requests, in their order.
#[derive(Drop)]
pub struct Requests {
    pub alloc: Global,
    pub all: IndexMap<Direction, Vec<u32>>,
}

impl Requests {
    pub fn new(alloc: Global) -> Requests
        ensures { (at : DirectionValue) → requests_at result at ≡ [] }
    {
        Requests {
            alloc,
            all: IndexMap::new(alloc),
        }
    }

    /// The frame of a direction's request of a number, from 0, which is told by a count of `Counts`.
    pub fn find(&self, at: Direction, number: usize) -> Option<u32>
        ensures { (exact : ℕ) → number ≡ counted exact
            → result ≡ slice_get (requests_at self.now at) exact }
    {
        match self.all.get(&at) {
            Some(frames) => frame_at(frames.as_slice(), number),
            None => None,
        }
    }

    /// Adds the frame of a direction's next request.
    pub fn add(&mut self, at: Direction, frame: u32) -> Result<(), NoMemory>
        ensures { OnOk result ((other : DirectionValue) → requests_at self.new other
            ≡ (if same_direction at other then requests_at self.old other ++ frame ∷ []
            else requests_at self.old other)) }
    {
        if self.add_further(at, frame)? {
            return Ok(());
        }
        let frames = one_frame(self.alloc, frame)?;
        self.all.insert(at, frames)?;
        Ok(())
    }

    /// Adds the frame where the direction has requests, and answers whether it has.
    fn add_further(&mut self, at: Direction, frame: u32) -> Result<bool, NoMemory>
        ensures added { IfOk result (λ added. added ≡ true → (other : DirectionValue)
            → requests_at self.new other
            ≡ (if same_direction at other then requests_at self.old other ++ frame ∷ []
            else requests_at self.old other)) }
        ensures none { IfOk result (λ added. added ≡ false → requests_at self.old at ≡ []) }
        ensures kept { IfOk result (λ added. added ≡ false → self.new.all ≡ self.old.all) }
    {
        match self.all.get_mut(&at) {
            Some(frames) => {
                frames.push(frame)?;
                Ok(true)
            }
            None => Ok(false),
        }
    }
}

fn one_frame(alloc: Global, frame: u32) -> Result<Vec<u32>, NoMemory>
    ensures { IfOk result (λ frames. frames.items ≡ frame ∷ []) }
{
    let mut frames = Vec::new(alloc);
    frames.push(frame)?;
    Ok(frames)
}

/// The frame of a number, which is told by a count. As no list is so long as the last count, that one tells none.
fn frame_at(frames: &[u32], number: usize) -> Option<u32>
    ensures { (exact : ℕ) → number ≡ counted exact → result ≡ slice_get frames.now exact }
{
    if number < frames.len() {
        Some(frames[number])
    } else {
        None
    }
}

/// A count for each direction, from 0. At its last value a count stands still.
#[derive(Drop)]
pub struct Counts {
    pub all: IndexMap<Direction, usize>,
}

impl Counts {
    pub fn new(alloc: Global) -> Counts
        ensures { (at : DirectionValue) → count_in result at ≡ 0 }
    {
        Counts {
            all: IndexMap::new(alloc),
        }
    }

    pub fn find(&self, at: Direction) -> usize
        ensures { result ≡ count_in self.now at }
    {
        self.all.get(&at).copied().unwrap_or(0)
    }

    /// Counts one more.
    pub fn raise(&mut self, at: Direction) -> Result<(), NoMemory>
        ensures { OnOk result ((other : DirectionValue) → count_in self.new other
            ≡ (if same_direction at other then counted (count_in self.old at + 1)
            else count_in self.old other)) }
    {
        let count = one_more(self.find(at));
        self.all.insert(at, count)?;
        Ok(())
    }
}

pub(crate) fn one_more(number: usize) -> usize
    ensures { result ≡ counted (number + 1) }
{
    number.saturating_add(1)
}
