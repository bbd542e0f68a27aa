ghost use Rattle.std.specs.Prelude.{◌≡◌};

use crate::octets::Octets;
use std::marker::Model;

/// Bytes of a stream with no gap between them, and the position of the first one.
#[derive(Drop)]
pub struct Stretch {
    pub start: u64,
    pub bytes: Octets,
}

/// A list of stretches.
#[derive(Drop)]
pub struct Stretches {
    all: Vec<Stretch>,
}

impl Model for Stretches {
    ghost use Rattle.std.specs.Prelude.{List};
    ghost use Rattle.pk_base.specs.declared.stretch.Stretch.{Stretch};

    ghost Value = { List Stretch };

    ghost view = { λ s. s.all.items };
}

impl Stretches {
    pub fn from_vec(v: Vec<Stretch>) -> Stretches
        ensures { result ≡ v.items }
    {
        Stretches { all: v }
    }

    pub fn slice(&self) -> &[Stretch]
        ensures { result.now ≡ self.now }
    {
        self.all.as_slice()
    }
}
