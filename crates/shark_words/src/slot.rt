// What no two options of a command line may both give.
ghost use Rattle.std.specs.Prelude.{◌≡◌, [], Some, not, IfOk, IsTrue};
ghost use Rattle.shark_words.specs.Slots.{is_held, slot_of as slot_of_option, with_slot};

use crate::key::{Key, key_of};
use crate::letter::Letter;
use crate::port::{Port, port_in};
use indexmap::IndexSet;
use pk_base::NoMemory;
use std::alloc::Global;
use std::marker::Model;

/// What may come once in a command line.
#[derive(Clone, Copy, PartialEq, Eq, Hash)]
pub(crate) enum Slot {
    /// The option of this letter.
    Letter(Letter),
    /// This key of `-E`.
    Key(Key),
    /// This port, by `-d`.
    Port(Port),
}

/// What an option with this value gives, where it may come once.
pub(crate) fn slot_of(letter: Letter, text: &[u8]) -> Option<Slot>
    ensures { result ≡ slot_of_option letter text.now }
{
    match letter {
        Letter::Name | Letter::Report => None,
        Letter::Style => key_of(text).map(Slot::Key),
        Letter::Decode => port_in(text).map(Slot::Port),
        // A second capture comes again, whatever names it.
        Letter::SelfRun => Some(Slot::Letter(Letter::Capture)),
        letter => Some(Slot::Letter(letter)),
    }
}

/// What was given so far that may come once.
#[derive(Drop)]
pub(crate) struct Held {
    all: IndexSet<Slot>,
}

impl Model for Held {
    ghost use Rattle.std.specs.Prelude.{List};
    ghost use Rattle.shark_words.specs.declared.slot.Slot.{Slot};

    ghost Value = { List Slot };

    ghost view = { λ h. h.all.keys };
}

impl Held {
    pub(crate) fn new(alloc: Global) -> Held
        ensures { result ≡ [] }
    {
        Held {
            all: IndexSet::new(alloc),
        }
    }

    /// Takes what is given, and answers whether it is new.
    #[tactic(auto, using(crate::proofs::SlotLemmas::held_by))]
    pub(crate) fn take(&mut self, slot: Slot) -> Result<bool, NoMemory>
        ensures new { IfOk result (λ new. new ≡ not (is_held slot self.old)) }
        ensures taken { IfOk result (λ new. IsTrue new → self.new ≡ with_slot (Some slot) self.old) }
    {
        Ok(self.all.insert(slot)?)
    }
}
