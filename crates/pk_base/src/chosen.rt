ghost use Rattle.std.specs.Prelude.{◌≡◌};

use std::marker::Model;

/// The layers of a protocol from one number to another, both among them; a first one alone is also the last.
#[derive(Clone, Copy, PartialEq, Eq)]
pub struct LayerRange {
    pub first: u32,
    pub last: Option<u32>,
}

/// A list of ranges of layers.
#[derive(Drop)]
pub struct LayerRanges {
    all: Vec<LayerRange>,
}

impl Model for LayerRanges {
    ghost use Rattle.std.specs.Prelude.{List};
    ghost use Rattle.pk_base.specs.declared.chosen.LayerRange.{LayerRange};

    ghost Value = { List LayerRange };

    ghost view = { λ ranges. ranges.all.items };
}

impl LayerRanges {
    pub fn from_vec(v: Vec<LayerRange>) -> LayerRanges
        ensures { result ≡ v.items }
    {
        LayerRanges { all: v }
    }

    pub fn slice(&self) -> &[LayerRange]
        ensures { result.now ≡ self.now }
    {
        self.all.as_slice()
    }
}

/// Which layers of a protocol are meant, by their number from 1.
#[derive(Drop)]
pub enum Layers {
    All,
    These(LayerRanges),
}

impl Layers {
    ghost use Rattle.pk_base.specs.Chosen.{is_chosen};

    /// Whether the layer of a number is among them.
    pub fn contains(&self, nth: u32) -> bool
        ensures { result ≡ is_chosen self.now nth }
    {
        match self {
            Layers::All => true,
            Layers::These(ranges) => any_holds(ranges.slice(), nth),
        }
    }
}

ghost use Rattle.pk_base.specs.Chosen.{holds, some_holds};

fn any_holds(ranges: &[LayerRange], nth: u32) -> bool
    ensures { result ≡ some_holds ranges.now nth }
{
    ranges.iter().any(|range| in_range(range, nth))
}

fn in_range(range: &LayerRange, nth: u32) -> bool
    ensures { result ≡ holds range.now nth }
{
    range.first <= nth && nth <= range.last.unwrap_or(range.first)
}
