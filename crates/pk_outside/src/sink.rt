// What takes bytes.
ghost use Rattle.std.specs.Prelude.{◌≡◌, ◌<◌, ◌≤◌, ℕ, List, [], Option, length, take, IfOk, IfErr, IsOk, OnOk, OnErr, IsErrOf};
ghost use Rattle.std.specs.Io.KnownBytes.{Appends, Keeps};
ghost use Rattle.pk_outside.specs.Outside.{AppendsPart, Rose, CountsFault};

/// Why a sink took nothing of a piece.
#[derive(Clone, Copy, Debug)]
pub enum SinkFault {
    /// The sink refused.
    Failed,
    /// The sink lives in memory, and there was none left.
    NoMemory,
}

/// Takes bytes, and keeps them in the order in which they came.
pub trait Sink {
    /// The bytes taken so far, where this object tells them.
    ghost written: { Self → Option (List ℕ) };

    /// How many writes answered `Failed`.
    ghost faults: { Self → ℕ };

    /// How many writes answered `NoMemory`.
    ghost starved: { Self → ℕ };

    /// Takes a front of the piece, of at least one byte, and answers its length. After an error it took nothing.
    fn write(&mut self, from: &[u8]) -> Result<usize, SinkFault>
        requires { 0 < length from.now }
        ensures some { IfOk result (λ n. 0 < n) }
        ensures within { IfOk result (λ n. n ≤ length from.now) }
        ensures written { IfOk result (λ n.
            Appends (written self.old) (written self.new) (take n from.now)) }
        ensures no_fault { OnOk result (faults self.new ≡ faults self.old) }
        ensures not_starved { OnOk result (starved self.new ≡ starved self.old) }

        ensures kept { OnErr result (Keeps (written self.old) (written self.new)) }
        ensures counts { IfErr result (λ fault.
            CountsFault fault (faults self.old) (faults self.new) (starved self.old)
            (starved self.new)) }
        ensures fault { IsErrOf result SinkFault.Failed → Rose (faults self.old) (faults self.new) }
        ensures starve { IsErrOf result SinkFault.NoMemory
            → Rose (starved self.old) (starved self.new) }

        // However the call ends.
        ensures faults_stay { faults self.old ≤ faults self.new }
        ensures starved_stay { starved self.old ≤ starved self.new };
}

/// Hands the whole rest of the piece to `write` until nothing of it is left.
/// After an error the sink has taken a front of the piece, which may be empty.
pub fn write_whole<S: Sink>(sink: &mut S, from: &[u8]) -> Result<(), SinkFault>
    ensures whole { OnOk result (Appends (S.written sink.old) (S.written sink.new) from.now) }
    ensures no_fault { OnOk result (S.faults sink.new ≡ S.faults sink.old) }
    ensures not_starved { OnOk result (S.starved sink.new ≡ S.starved sink.old) }

    ensures counts { IfErr result (λ fault.
        CountsFault fault (S.faults sink.old) (S.faults sink.new) (S.starved sink.old)
        (S.starved sink.new)) }
    ensures fault { IsErrOf result SinkFault.Failed → Rose (S.faults sink.old) (S.faults sink.new) }
    ensures starve { IsErrOf result SinkFault.NoMemory
        → Rose (S.starved sink.old) (S.starved sink.new) }

    // However the call ends.
    ensures part { AppendsPart (S.written sink.old) (S.written sink.new) from.now }
    ensures faults_stay { S.faults sink.old ≤ S.faults sink.new }
    ensures starved_stay { S.starved sink.old ≤ S.starved sink.new }

    ensures empty { from.now ≡ [] → IsOk result × (sink.new ≡ sink.old) }
{
    let mut rest = from;
    while !rest.is_empty() {
        match sink.write(rest) {
            Ok(taken) => rest = &rest[taken..],
            Err(fault) => return Err(fault),
        }
    }
    Ok(())
}
