// What holds back bytes before it hands them on.
ghost use Rattle.std.specs.Prelude.{◌≡◌, ℕ, List, Option, OnOk, OnErr};
ghost use Rattle.pk_outside.specs.Outside.{counted, HandsOn};

use crate::capture::Failed;

/// What may hold back bytes that it took, until it is told to hand them on.
pub trait Gathers {
    /// The bytes that were taken and not handed on, where this object tells them.
    ghost waiting: { Self → Option (List ℕ) };

    /// The bytes that were handed on, where this object tells them.
    ghost handed: { Self → Option (List ℕ) };

    /// How many calls failed.
    ghost failures: { Self → ℕ };

    /// Hands on all that was held back.
    fn hand_on(&mut self) -> Result<(), Failed>
        ensures handed { OnOk result (HandsOn (waiting self.old) (handed self.old)
            (waiting self.new) (handed self.new)) }
        ensures no_failure { OnOk result (failures self.new ≡ failures self.old) }
        ensures failure { OnErr result (failures self.new ≡ counted (failures self.old)) };
}
