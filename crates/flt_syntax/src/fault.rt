use pk_base::NoMemory;
use std::alloc::{AllocError, AllocFailed};

/// Why a text is no filter, F1 to F10 in this order.
#[derive(Clone, Copy, PartialEq, Eq)]
pub enum FilterReason {
    /// A byte that begins no token.
    BadChar,
    /// A string that doesn't end, or that has another escape.
    BadString,
    /// A token that no filter has there, or an end that comes too early.
    Unexpected,
    /// A word that names no field where only a field may stand.
    UnknownField,
    /// An operand or a literal of a kind that its place doesn't take.
    TypeMismatch,
    /// A number, a layer or a range out of bounds.
    OutOfRange,
    /// A pattern that can't be read.
    BadPattern,
    /// More bytes than a filter may have.
    TooLong,
    /// More brackets, negations and calls open at once than a filter may have.
    TooDeep,
    /// A pattern that is too large.
    PatternSize,
}

/// The first fault of a text: the place of a byte, counted from 0, and the reason.
#[derive(Clone, Copy)]
pub struct FilterFault {
    pub at: u32,
    pub reason: FilterReason,
}

/// A text that isn't read.
#[derive(Clone, Copy)]
pub enum FilterError {
    Fault(FilterFault),
    NoMemory,
}

impl From<NoMemory> for FilterError {
    ghost use Rattle.std.specs.Prelude.{◌≡◌};
    ghost use Rattle.flt_syntax.specs.declared.fault.FilterError.TheVariants as errors;

    ghost from_gives = { λ _ e. e ≡ errors.NoMemory };

    fn from(_error: NoMemory) -> FilterError {
        FilterError::NoMemory
    }
}

impl From<AllocError> for FilterError {
    ghost use Rattle.std.specs.Prelude.{◌≡◌};
    ghost use Rattle.flt_syntax.specs.declared.fault.FilterError.TheVariants as errors;

    ghost from_gives = { λ _ e. e ≡ errors.NoMemory };

    fn from(_error: AllocError) -> FilterError {
        FilterError::NoMemory
    }
}

impl<T: Drop> From<AllocFailed<T>> for FilterError {
    ghost use Rattle.std.specs.Prelude.{◌≡◌};
    ghost use Rattle.flt_syntax.specs.declared.fault.FilterError.TheVariants as errors;

    ghost from_gives = { λ _ e. e ≡ errors.NoMemory };

    fn from(_error: AllocFailed<T>) -> FilterError {
        FilterError::NoMemory
    }
}
