ghost use Rattle.std.specs.Prelude.{◌≡◌, None, Some, if◌then◌else◌, OnOk, OnErr};
ghost use Rattle.std.specs.BTreeMap.{get, IsUnchanged};
ghost use Rattle.std.specs.Ordering.{is_eq};
ghost use Rattle.tcp_streams.specs.declared.ends.Ends.{Ends as EndsValue};
ghost use Rattle.tcp_streams.specs.declared.ends.FourEnds.{FourEnds as FourEndsValue};
ghost use Rattle.tcp_streams.specs.Conversations.{same_ends, number_of};
ghost use Rattle.tcp_streams.specs.KeyOrder.{four_cmp, ends_cmp};

use crate::ends::{Ends, FourEnds, four_of};
use pk_base::NoMemory;
use std::alloc::Global;
use std::collections::BTreeMap;

/// A number for each conversation, as that of its newest stream. The maps are ordered, so that no choice of addresses and ports makes a
/// search in them long.
pub struct Newest {
    /// Of those over IPv4, whose ends need few bytes.
    pub(crate) four: BTreeMap<FourEnds, u32>,
    pub(crate) others: BTreeMap<Ends, u32>,
}

impl Drop for Newest {
    fn drop(self) {
        let Newest {
            four: _four,
            others: _others,
        } = self;
    }
}

impl Newest {
    /// No conversation has a number. Takes no memory.
    pub fn new(alloc: Global) -> Newest
        ensures { (ends : EndsValue) → number_of result ends ≡ None }
    {
        Newest {
            four: BTreeMap::new(alloc),
            others: BTreeMap::new(alloc),
        }
    }

    /// A conversation's number, if it has one. Takes no memory.
    pub fn find(&self, ends: Ends) -> Option<u32>
        ensures { result ≡ number_of self.now ends }
    {
        match four_of(ends) {
            Some(four) => self.four.get(&four).copied(),
            None => self.others.get(&ends).copied(),
        }
    }

    /// Gives a conversation a number.
    pub fn set(&mut self, ends: Ends, number: u32) -> Result<(), NoMemory>
        ensures number { OnOk result ((other : EndsValue) → number_of self.new other ≡ (if same_ends ends other then Some number else number_of self.old other)) }
        ensures err { OnErr result ((other : EndsValue) → number_of self.new other ≡ number_of self.old other) }
    {
        match four_of(ends) {
            Some(four) => self.set_four(four, number),
            None => self.set_other(ends, number),
        }
    }

    fn set_four(&mut self, four: FourEnds, number: u32) -> Result<(), NoMemory>
        ensures four { OnOk result ((other : FourEndsValue) → get four_cmp self.new.four other ≡ (if is_eq (four_cmp four other) then Some number else get four_cmp self.old.four other)) }
        ensures others { self.new.others ≡ self.old.others }
        ensures err { OnErr result (IsUnchanged self.old.four self.new.four) }
    {
        self.four.insert(four, number)?;
        Ok(())
    }

    fn set_other(&mut self, ends: Ends, number: u32) -> Result<(), NoMemory>
        ensures others { OnOk result ((other : EndsValue) → get ends_cmp self.new.others other ≡ (if is_eq (ends_cmp ends other) then Some number else get ends_cmp self.old.others other)) }
        ensures four { self.new.four ≡ self.old.four }
        ensures err { OnErr result (IsUnchanged self.old.others self.new.others) }
    {
        self.others.insert(ends, number)?;
        Ok(())
    }
}
