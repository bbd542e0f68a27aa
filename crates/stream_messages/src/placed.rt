ghost use Rattle.std.specs.Prelude.{◌≡◌, [], ◌++◌, OnOk};

use crate::told::Told;
use pk_base::NoMemory;
use std::alloc::Global;
use std::marker::Model;

/// A message, and the position of its first byte in its direction of the stream.
#[derive(Drop)]
pub struct Placed {
    pub at: u64,
    pub told: Told,
}

/// A list of messages.
#[derive(Drop)]
pub struct PlacedList {
    all: Vec<Placed>,
}

impl Model for PlacedList {
    ghost use Rattle.std.specs.Prelude.{List};
    ghost use Rattle.stream_messages.specs.declared.placed.Placed.{Placed};

    ghost Value = { List Placed };

    ghost view = { λ list. list.all.items };
}

impl PlacedList {
    /// No messages. Takes no memory.
    pub(crate) fn new(alloc: Global) -> PlacedList
        ensures { result ≡ [] }
    {
        PlacedList {
            all: Vec::new(alloc),
        }
    }

    /// Adds messages behind the others.
    pub(crate) fn append(&mut self, more: PlacedList) -> Result<(), NoMemory>
        ensures { OnOk result (self.new ≡ self.old ++ more) }
    {
        let mut more = more.all;
        self.all.append(&mut more)?;
        Ok(())
    }

    pub fn from_vec(all: Vec<Placed>) -> PlacedList
        ensures { result ≡ all.items }
    {
        PlacedList { all }
    }

    pub fn into_vec(self) -> Vec<Placed>
        ensures { result.items ≡ self }
    {
        self.all
    }

    pub fn slice(&self) -> &[Placed]
        ensures { result.now ≡ self.now }
    {
        self.all.as_slice()
    }
}
