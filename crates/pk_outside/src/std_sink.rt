// A sink over a stream of the system.
ghost use Rattle.std.specs.Prelude.{◌≡◌, ◌<◌, ◌≤◌, None, length, IfOk, IfErr, OnOk, OnErr};

use crate::capture::Failed;
use crate::gathering::Gathers;
use crate::sink::{Sink, SinkFault};
use std::io::Write;

/// Writes to a stream. Nothing can be promised of what comes out of it, so this sink tells no bytes.
#[derive(Drop)]
pub struct StdSink<W> {
    stream: W,
    faults: u64,
}

impl<W: Write + Drop> StdSink<W> {
    ghost use Rattle.pk_outside.specs.Streams.{stream_of};

    /// A sink that has written nothing.
    pub fn new(stream: W) -> Self
        ensures stream { stream_of result ≡ stream }
        ensures faults { ⟦<StdSink<W> as Sink>⟧.faults result ≡ 0 }
    {
        StdSink { stream, faults: 0 }
    }
}

impl<W: Write + Drop> Sink for StdSink<W> {
    ghost use Rattle.std.specs.Io.KnownBytes.{WriteAppends};
    ghost use Rattle.pk_outside.specs.Outside.{counted};
    ghost use Rattle.pk_outside.specs.Streams.{stream_of};

    ghost written = { λ _. None };

    ghost faults = { λ s. s.faults };

    ghost starved = { λ _. 0 };

    // A stream that takes nothing of a piece would be asked again without end, so that counts as a failure.
    fn write(&mut self, from: &[u8]) -> Result<usize, SinkFault>
        requires { 0 < length from.now }
        ensures handed { WriteAppends (W.contents (stream_of self.old))
            (W.contents (stream_of self.new))
            result from.now }
        ensures some { IfOk result (λ n. 0 < n) }
        ensures within { IfOk result (λ n. n ≤ length from.now) }
        ensures no_fault { OnOk result (self.new.faults ≡ self.old.faults) }

        ensures only_failed { IfErr result (λ fault. fault ≡ SinkFault.Failed) }
        ensures fault { OnErr result (self.new.faults ≡ counted self.old.faults) }
        ensures faults_stay { self.old.faults ≤ self.new.faults }
    {
        match self.stream.write(from) {
            Ok(count) if count > 0 => Ok(count),
            _ => {
                self.faults = self.faults.saturating_add(1);
                Err(SinkFault::Failed)
            }
        }
    }
}

impl<W: Write + Drop> Gathers for StdSink<W> {
    ghost use Rattle.pk_outside.specs.Outside.{counted};

    ghost waiting = { λ _. None };

    ghost handed = { λ _. None };

    ghost failures = { λ s. s.faults };

    fn hand_on(&mut self) -> Result<(), Failed>
        ensures no_failure { OnOk result (self.new.faults ≡ self.old.faults) }
        ensures failure { OnErr result (self.new.faults ≡ counted self.old.faults) }
    {
        match self.stream.flush() {
            Ok(()) => Ok(()),
            Err(_) => {
                self.faults = self.faults.saturating_add(1);
                Err(Failed)
            }
        }
    }
}
