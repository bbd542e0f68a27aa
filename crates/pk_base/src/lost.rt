ghost use Rattle.std.specs.Prelude.{◌≡◌};

use std::marker::Model;

/// The positions of a stream from one up to and without another, whose bytes the capture hasn't.
#[derive(Clone, Copy, PartialEq, Eq)]
pub struct Lost {
    pub from: u64,
    pub to: u64,
}

/// A list of lost positions.
#[derive(Drop)]
pub struct LostList {
    all: Vec<Lost>,
}

impl Model for LostList {
    ghost use Rattle.std.specs.Prelude.{List};
    ghost use Rattle.pk_base.specs.declared.lost.Lost.{Lost};

    ghost Value = { List Lost };

    ghost view = { λ l. l.all.items };
}

impl LostList {
    pub fn from_vec(v: Vec<Lost>) -> LostList
        ensures { result ≡ v.items }
    {
        LostList { all: v }
    }

    pub fn slice(&self) -> &[Lost]
        ensures { result.now ≡ self.now }
    {
        self.all.as_slice()
    }
}
