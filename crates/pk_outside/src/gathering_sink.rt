// A sink in memory that holds back what it takes.
ghost use Rattle.std.specs.Prelude.{◌≡◌, ◌≤◌, ◌++◌, [], Some, true, false, length, drop, take, is_err, IfOk, IfErr, OnOk, OnErr};
ghost use Rattle.pk_outside.specs.Outside.{counted};

use crate::capture::Failed;
use crate::gathering::Gathers;
use crate::sink::{Sink, SinkFault};
use std::alloc::Global;
use std::marker::Model;

/// Takes every piece whole, as long as there is memory, and holds it back until it is told to hand it on, which fails where
/// it was made to fail.
#[derive(Drop)]
pub struct GatheringSink {
    bytes: Vec<u8>,
    handed: usize,
    fails: bool,
    failures: u64,
    starved: u64,
}

impl Model for GatheringSink {
    ghost use Rattle.std.specs.Prelude.{◌≤◌, length, take, drop};
    ghost use Rattle.pk_outside.specs.InMemory.{GatheringSinkState};

    ghost Value = { GatheringSinkState };

    ghost view = { λ s. record {
      handed = take s.handed s.bytes.items;
      waiting = drop s.handed s.bytes.items;
      fails = s.fails;
      failures = s.failures;
      starved = s.starved;
    } };

    ghost invariant = { λ s. s.handed ≤ length s.bytes.items };
}

impl GatheringSink {
    /// A sink that has taken nothing. It takes no memory until the first write.
    pub fn new(alloc: Global, fails: bool) -> Self
        ensures { result
            ≡ record { handed = []; waiting = []; fails = fails; failures = 0; starved = 0 } }
    {
        GatheringSink {
            bytes: Vec::new(alloc),
            handed: 0,
            fails,
            failures: 0,
            starved: 0,
        }
    }

    /// What was handed on so far.
    pub fn handed(&self) -> &[u8]
        ensures { result.now ≡ self.now.handed }
    {
        &self.bytes[..self.handed]
    }
}

impl Sink for GatheringSink {
    ghost use Rattle.std.specs.Io.KnownBytes.{};

    ghost written = { λ s. Some (s.handed ++ s.waiting) };

    ghost faults = { λ _. 0 };

    ghost starved = { λ s. s.starved };

    fn write(&mut self, from: &[u8]) -> Result<usize, SinkFault>
        ensures whole { IfOk result (λ n. n ≡ length from.now) }
        ensures taken { OnOk result (self.new.waiting ≡ self.old.waiting ++ from.now) }
        ensures handed { self.new.handed ≡ self.old.handed }
        ensures fails { self.new.fails ≡ self.old.fails }
        ensures failures { self.new.failures ≡ self.old.failures }
        ensures not_starved { OnOk result (self.new.starved ≡ self.old.starved) }
        ensures only_memory { IfErr result (λ fault. fault ≡ SinkFault.NoMemory) }
        ensures kept { OnErr result (self.new.waiting ≡ self.old.waiting) }
        ensures starve { OnErr result (self.new.starved ≡ counted self.old.starved) }
        ensures starved_stay { self.old.starved ≤ self.new.starved }
    {
        match self.bytes.extend_from_slice(from) {
            Ok(()) => Ok(from.len()),
            Err(_) => {
                self.starved = self.starved.saturating_add(1);
                Err(SinkFault::NoMemory)
            }
        }
    }
}

impl Gathers for GatheringSink {
    ghost waiting = { λ s. Some s.waiting };

    ghost handed = { λ s. Some s.handed };

    ghost failures = { λ s. s.failures };

    fn hand_on(&mut self) -> Result<(), Failed>
        ensures failed { is_err result ≡ self.old.fails }
        ensures fails { self.new.fails ≡ self.old.fails }
        ensures starved { self.new.starved ≡ self.old.starved }
        ensures handed { OnOk result (self.new.handed ≡ self.old.handed ++ self.old.waiting) }
        ensures waiting { OnOk result (self.new.waiting ≡ []) }
        ensures no_failure { OnOk result (self.new.failures ≡ self.old.failures) }
        ensures failure { OnErr result (self.new.failures ≡ counted self.old.failures) }
        ensures kept { OnErr result (self.new.handed ≡ self.old.handed) }
        ensures still { OnErr result (self.new.waiting ≡ self.old.waiting) }
    {
        if self.fails {
            self.failures = self.failures.saturating_add(1);
            return Err(Failed);
        }
        self.handed = self.bytes.len();
        Ok(())
    }
}
