// Where an operand stands, which decides what a word that names no field is there.
ghost use Rattle.std.specs.Prelude.{◌≡◌};
ghost use Rattle.flt_syntax.specs.Written.{operand_of};
ghost use Rattle.flt_typing.specs.Standing.{argument as argument_of, in_slice as in_slice_of, within as within_at};

use flt_syntax::{Function, Operand};

/// Where an operand stands, for a word that names no field. What a tree's types are is said by it.
#[derive(Clone, Copy)]
pub enum Standing {
    /// First in a left operand, or in the first argument of `min` or `max`: a word has to name a field.
    First,
    /// On the right side, behind a sign, or as a later argument: a word may be a number. The place of the sign before
    /// it, if there is one.
    Free(Option<u32>),
    /// Where a literal may stand, in a mask or a function that takes none; its place.
    Within(u32),
    /// Where a literal may stand, in a slice, whose word has to name a field.
    Sliced,
}

impl Standing {
    /// In a slice.
    pub fn in_slice(self) -> Standing
        ensures { result ≡ in_slice_of self }
    {
        match self {
            Standing::First => Standing::First,
            _ => Standing::Sliced,
        }
    }

    /// In a mask or a function at a place, which takes no literal.
    pub fn within(self, at: u32) -> Standing
        ensures { result ≡ within_at at self }
    {
        match self {
            Standing::First => Standing::First,
            _ => Standing::Within(at),
        }
    }

    /// As the argument of a function at a place. Arithmetic may begin with a number where a literal may stand.
    pub fn argument(self, function: Function, at: u32, operand: &Operand) -> Standing
        ensures { result ≡ argument_of function at (operand_of operand.now) self }
    {
        match (function, self, operand) {
            (Function::Min | Function::Max, _, _) => Standing::First,
            (_, Standing::First, _) => Standing::First,
            (_, _, Operand::Computed(_, _, _, _)) => Standing::Free(None),
            _ => Standing::Within(at),
        }
    }
}
