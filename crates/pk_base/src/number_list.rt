ghost use Rattle.std.specs.Prelude.{◌≡◌};

use std::marker::Model;

/// A list of numbers, such as those of frames.
#[derive(Drop)]
pub struct Numbers {
    all: Vec<u32>,
}

impl Model for Numbers {
    ghost use Rattle.std.specs.Prelude.{ℕ, List};

    ghost Value = { List ℕ };

    ghost view = { λ n. n.all.items };
}

impl Numbers {
    pub fn from_vec(v: Vec<u32>) -> Numbers
        ensures { result ≡ v.items }
    {
        Numbers { all: v }
    }

    pub fn slice(&self) -> &[u32]
        ensures { result.now ≡ self.now }
    {
        self.all.as_slice()
    }
}
