ghost use Rattle.std.specs.Prelude.{◌≡◌};

use crate::value_kind::{BitPlace, ValueKind};

/// A row of the table of fields.
pub struct Row {
    pub name: &'static str,
    pub kind: ValueKind,
    /// The place of the protocol's row.
    pub proto: u16,
    pub origin: Origin,
}

/// Where the values of a field come from.
pub enum Origin {
    /// A number, from these bits of the item's bytes.
    Bits(BitPlace),
    /// All the item's bytes.
    Whole,
    /// A rule over the item's bytes.
    Derived,
    /// A rule over what else is known: the item has no bytes.
    Made,
}

impl Origin {
    ghost use Rattle.pk_fields.specs.Rows.{bits_of};

    /// The bits, where a number is read from bits.
    pub fn bits(&self) -> Option<BitPlace>
        ensures { result ≡ bits_of self.now }
    {
        match self {
            Origin::Bits(place) => Some(*place),
            Origin::Whole | Origin::Derived | Origin::Made => None,
        }
    }
}
