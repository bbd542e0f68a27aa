// A sink in memory that refuses nothing.
ghost use Rattle.std.specs.Prelude.{◌≡◌, ◌≤◌, ◌++◌, [], Some, length, IfOk, IfErr, OnOk, OnErr};

use crate::sink::{Sink, SinkFault};
use std::alloc::Global;
use std::marker::Model;

/// Takes every piece whole, as long as there is memory.
#[derive(Drop)]
pub struct SureSink {
    bytes: Vec<u8>,
    starved: u64,
}

impl Model for SureSink {
    ghost use Rattle.pk_outside.specs.InMemory.{SureSinkState};

    ghost Value = { SureSinkState };

    ghost view = { λ s. record { taken = s.bytes.items; starved = s.starved } };
}

impl SureSink {
    /// A sink that has taken nothing. It takes no memory until the first write.
    pub fn new(alloc: Global) -> Self
        ensures { result ≡ record { taken = []; starved = 0 } }
    {
        SureSink {
            bytes: Vec::new(alloc),
            starved: 0,
        }
    }

    /// What was written so far.
    pub fn bytes(&self) -> &[u8]
        ensures { result.now ≡ self.now.taken }
    {
        self.bytes.as_slice()
    }

    /// How many writes found no memory.
    pub fn starved(&self) -> u64
        ensures { result ≡ self.now.starved }
    {
        self.starved
    }
}

impl Sink for SureSink {
    ghost use Rattle.std.specs.Io.KnownBytes.{};
    ghost use Rattle.pk_outside.specs.Outside.{counted};

    ghost written = { λ s. Some s.taken };

    ghost faults = { λ _. 0 };

    ghost starved = { λ s. s.starved };

    fn write(&mut self, from: &[u8]) -> Result<usize, SinkFault>
        ensures whole { IfOk result (λ n. n ≡ length from.now) }
        ensures taken { OnOk result (self.new.taken ≡ self.old.taken ++ from.now) }
        ensures not_starved { OnOk result (self.new.starved ≡ self.old.starved) }
        ensures only_memory { IfErr result (λ fault. fault ≡ SinkFault.NoMemory) }
        ensures kept { OnErr result (self.new.taken ≡ self.old.taken) }
        ensures starve { OnErr result (self.new.starved ≡ counted self.old.starved) }
        ensures starved_stay { self.old.starved ≤ self.new.starved }
    {
        match self.bytes.extend_from_slice(from) {
            Ok(()) => Ok(from.len()),
            Err(_) => {
                self.starved = self.starved.saturating_add(1);
                Err(SinkFault::NoMemory)
            }
        }
    }
}
