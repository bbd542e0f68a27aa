// A sink in memory that refuses chosen writes.
ghost use Rattle.std.specs.Prelude.{◌≡◌, ◌↔◌, ◌≤◌, ◌++◌, [], Some, length, IfOk, IfErr, OnOk, OnErr, IsErrOf, IsTrue};

use crate::calls::Calls;
use crate::sink::{Sink, SinkFault};
use std::alloc::Global;
use std::marker::Model;

/// Takes every piece whole, but at the writes that it was told to refuse.
#[derive(Drop)]
pub struct MemorySink {
    bytes: Vec<u8>,
    calls: Calls,
    faults: u64,
    starved: u64,
}

impl Model for MemorySink {
    ghost use Rattle.pk_outside.specs.InMemory.{MemorySinkState};

    ghost Value = { MemorySinkState };

    ghost view = { λ s. record {
      taken = s.bytes.items;
      failing = s.calls.failing.items;
      calls = s.calls.made;
      faults = s.faults;
      starved = s.starved;
    } };
}

impl MemorySink {
    /// A sink that has taken nothing. Its writes are counted from 1, and those whose number is
    /// in `failing` fail. It takes no memory until the first write.
    pub fn new(alloc: Global, failing: Vec<u64>) -> Self
        ensures { result
            ≡ record { taken = []; failing = failing.items; calls = 0; faults = 0; starved = 0 } }
    {
        MemorySink {
            bytes: Vec::new(alloc),
            calls: Calls::new(failing),
            faults: 0,
            starved: 0,
        }
    }

    /// What was written so far.
    pub fn bytes(&self) -> &[u8]
        ensures { result.now ≡ self.now.taken }
    {
        self.bytes.as_slice()
    }
}

impl Sink for MemorySink {
    ghost use Rattle.pk_outside.specs.InMemory.{is_to_fail};
    ghost use Rattle.pk_outside.specs.Outside.{CountsFault, counted};

    ghost written = { λ s. Some s.taken };

    ghost faults = { λ s. s.faults };

    ghost starved = { λ s. s.starved };

    fn write(&mut self, from: &[u8]) -> Result<usize, SinkFault>
        // A write of a number that was named fails, and no other does.
        ensures calls { self.new.calls ≡ counted self.old.calls }
        ensures failing { self.new.failing ≡ self.old.failing }
        ensures failed { IsErrOf result SinkFault.Failed
            ↔ IsTrue (is_to_fail self.old.failing self.new.calls) }

        ensures whole { IfOk result (λ n. n ≡ length from.now) }
        ensures taken { OnOk result (self.new.taken ≡ self.old.taken ++ from.now) }
        ensures no_fault { OnOk result (self.new.faults ≡ self.old.faults) }
        ensures not_starved { OnOk result (self.new.starved ≡ self.old.starved) }

        ensures kept { OnErr result (self.new.taken ≡ self.old.taken) }
        ensures counts { IfErr result (λ fault.
            CountsFault fault self.old.faults self.new.faults self.old.starved self.new.starved) }
        ensures faults_stay { self.old.faults ≤ self.new.faults }
        ensures starved_stay { self.old.starved ≤ self.new.starved }
    {
        if self.calls.next_fails() {
            self.faults = self.faults.saturating_add(1);
            return Err(SinkFault::Failed);
        }
        match self.bytes.extend_from_slice(from) {
            Ok(()) => Ok(from.len()),
            Err(_) => {
                self.starved = self.starved.saturating_add(1);
                Err(SinkFault::NoMemory)
            }
        }
    }
}
