// What gives the bytes of files.
ghost use Rattle.std.specs.Prelude.{◌≡◌, ◌<◌, ◌≤◌, ℕ, List, Bool, Option, length, string_bytes, is_err, IfOk, OnOk, OnErr};
ghost use Rattle.pk_outside.specs.Outside.{counted, Moves};

/// A file could not be begun, or a read of it failed. The capture's counts say which.
#[derive(Clone, Copy, Debug)]
pub struct Failed;

/// Files by their names, of which one at a time is read from its start to its end.
pub trait Capture {
    /// The bytes of the file of a name, where this object tells them.
    ghost file: { Self → List ℕ → Option (List ℕ) };

    /// The bytes of the begun file that were not yet read, where told: none before the first `begin`.
    ghost left: { Self → Option (List ℕ) };

    /// The name of the last `begin`, and before the first the empty one.
    ghost asked: { Self → List ℕ };

    /// Whether the last `begin` failed.
    ghost refused: { Self → Bool };

    /// How many calls of `begin` answered `Ok`.
    ghost begun: { Self → ℕ };

    /// How many calls of `begin` failed.
    ghost missed: { Self → ℕ };

    /// How many calls of `read` failed.
    ghost faults: { Self → ℕ };

    /// Turns to the file of this name, from its start. After `Failed` the file begun before stays.
    fn begin(&mut self, name: String) -> Result<(), Failed>
        ensures file { (n : List ℕ) → file self.new n ≡ file self.old n }
        ensures asked { asked self.new ≡ string_bytes name }
        ensures refused { refused self.new ≡ is_err result }
        ensures faults { faults self.new ≡ faults self.old }

        ensures left { OnOk result (left self.new ≡ file self.old (string_bytes name)) }
        ensures begun { OnOk result (begun self.new ≡ counted (begun self.old)) }
        ensures not_missed { OnOk result (missed self.new ≡ missed self.old) }

        ensures left_err { OnErr result (left self.new ≡ left self.old) }
        ensures not_begun { OnErr result (begun self.new ≡ begun self.old) }
        ensures missed { OnErr result (missed self.new ≡ counted (missed self.old)) }

        // However the call ends.
        ensures begun_stay { begun self.old ≤ begun self.new }
        ensures missed_stay { missed self.old ≤ missed self.new };

    /// Moves bytes of the begun file to the front of `to`, and answers how many: 0 only at the end.
    fn read(&mut self, to: &mut [u8]) -> Result<usize, Failed>
        requires { 0 < length to.old }
        ensures file { (n : List ℕ) → file self.new n ≡ file self.old n }
        ensures asked { asked self.new ≡ asked self.old }
        ensures refused { refused self.new ≡ refused self.old }
        ensures begun { begun self.new ≡ begun self.old }
        ensures missed { missed self.new ≡ missed self.old }

        ensures within { IfOk result (λ n. n ≤ length to.old) }
        ensures moved { IfOk result (λ n. Moves (left self.old) (left self.new) to.old to.new n) }
        ensures no_fault { OnOk result (faults self.new ≡ faults self.old) }

        ensures left_err { OnErr result (left self.new ≡ left self.old) }
        ensures fault { OnErr result (faults self.new ≡ counted (faults self.old)) }
        ensures faults_stay { faults self.old ≤ faults self.new };
}
