// Where an operand stands, with its side of the test, which decides what is blamed for a string.
ghost use Rattle.std.specs.Prelude.{◌≡◌};
ghost use Rattle.flt_syntax.specs.Written.{operand_of};
ghost use Rattle.flt_typing.specs.Standing.{argument as argument_of, in_slice as in_slice_of, within as within_at};
ghost use Rattle.flt_typing.specs.declared.standing.Standing.TheVariants.{Free};
ghost use Rattle.flt_types.specs.Blame.{blamed as blamed_at, by_itself as by_itself_of, sign_for as sign_asking, taken as taken_at, taken_by as taken_by_function};

use flt_syntax::{Function, Operand};
use flt_typing::Standing;

/// The side of a test on which an operand stands, for a string, which is neither a field nor a number. What a tree's
/// faults are is said by it.
#[derive(Clone, Copy)]
pub enum Side {
    /// On the left side, or alone: the string is blamed.
    Left,
    /// On the right side: the mask or the function that takes the operand is blamed, if one does; its place.
    Right(Option<u32>),
}

/// Where an operand stands.
#[derive(Clone, Copy)]
pub(crate) struct Position {
    pub(crate) side: Side,
    pub(crate) standing: Standing,
}

/// On the left side of a test, or alone.
pub(crate) const LEFT: Position = Position {
    side: Side::Left,
    standing: Standing::First,
};

/// On the right side of a test.
pub(crate) const RIGHT: Position = Position {
    side: Side::Right(None),
    standing: Standing::Free(None),
};

impl Side {
    /// As a part of arithmetic, or as an argument of `min` or `max`.
    fn by_itself(self) -> Side
        ensures { result ≡ by_itself_of self }
    {
        match self {
            Side::Left => Side::Left,
            Side::Right(_) => Side::Right(None),
        }
    }

    /// In a mask or a function at a place.
    fn taken(self, at: u32) -> Side
        ensures { result ≡ taken_at at self }
    {
        match self {
            Side::Left => Side::Left,
            Side::Right(_) => Side::Right(Some(at)),
        }
    }

    /// As the argument of a function at a place.
    fn taken_by(self, function: Function, at: u32, operand: &Operand) -> Side
        ensures { result ≡ taken_by_function function at (operand_of operand.now) self }
    {
        match (function, operand) {
            (Function::Min | Function::Max, _) => self.by_itself(),
            (_, Operand::Computed(_, _, _, _)) => self.by_itself(),
            _ => self.taken(at),
        }
    }

    /// What is blamed for a string at a place.
    pub(crate) fn blamed(self, at: u32) -> u32
        ensures { result ≡ blamed_at self at }
    {
        match self {
            Side::Right(Some(around)) => around,
            _ => at,
        }
    }
}

impl Position {
    /// In a slice.
    pub(crate) fn in_slice(self) -> Position
        ensures side { result.side ≡ self.side }
        ensures standing { result.standing ≡ in_slice_of self.standing }
    {
        Position {
            side: self.side,
            standing: self.standing.in_slice(),
        }
    }

    /// In a mask at a place.
    pub(crate) fn within(self, at: u32) -> Position
        ensures side { result.side ≡ taken_at at self.side }
        ensures standing { result.standing ≡ within_at at self.standing }
    {
        Position {
            side: self.side.taken(at),
            standing: self.standing.within(at),
        }
    }

    /// As the argument of a function at a place.
    pub(crate) fn argument(self, function: Function, at: u32, operand: &Operand) -> Position
        ensures side { result.side
            ≡ taken_by_function function at (operand_of operand.now) self.side }
        ensures standing { result.standing
            ≡ argument_of function at (operand_of operand.now) self.standing }
    {
        Position {
            side: self.side.taken_by(function, at, operand),
            standing: self.standing.argument(function, at, operand),
        }
    }

    /// Behind a sign at a place, or, where there is none, behind a comma.
    pub(crate) fn behind(self, sign: Option<u32>) -> Position
        ensures side { result.side ≡ by_itself_of self.side }
        ensures standing { result.standing ≡ Free sign }
    {
        Position {
            side: self.side.by_itself(),
            standing: Standing::Free(sign),
        }
    }

    /// The sign that asks the first part of a sum for a number: the one before it, else the first behind it, which stands
    /// at this place.
    pub(crate) fn sign_for(self, at: u32) -> u32
        ensures { result ≡ sign_asking self.standing at }
    {
        match self.standing {
            Standing::Free(Some(before)) => before,
            _ => at,
        }
    }
}
