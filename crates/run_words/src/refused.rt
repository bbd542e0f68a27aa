// Why words are refused.
ghost use Rattle.std.specs.Prelude.{◌≡◌};

use flt_syntax::FilterFault;
use pk_base::{NoMemory, Octets};
use shark_words::WordFault;
use std::alloc::{AllocError, AllocFailed};

/// Why words are refused.
#[derive(Drop)]
pub enum Refused {
    /// They are outside the command line's grammar.
    Words(WordFault),
    /// Their filter has a fault.
    Filter(FilterFault),
    /// The name of a column isn't that of a field or protocol.
    Field(Octets),
}

/// Why there is no plan.
#[derive(Drop)]
pub enum PlanError {
    Refused(Refused),
    NoMemory,
}

impl From<Refused> for PlanError {
    ghost use Rattle.run_words.specs.declared.refused.PlanError.TheVariants as error;

    ghost from_gives = { λ refused e. e ≡ error.Refused refused };

    fn from(refused: Refused) -> PlanError {
        PlanError::Refused(refused)
    }
}

impl From<NoMemory> for PlanError {
    ghost use Rattle.run_words.specs.declared.refused.PlanError.TheVariants as error;

    ghost from_gives = { λ _ e. e ≡ error.NoMemory };

    fn from(_error: NoMemory) -> PlanError {
        PlanError::NoMemory
    }
}

impl From<AllocError> for PlanError {
    ghost use Rattle.run_words.specs.declared.refused.PlanError.TheVariants as error;

    ghost from_gives = { λ _ e. e ≡ error.NoMemory };

    fn from(_error: AllocError) -> PlanError {
        PlanError::NoMemory
    }
}

impl<T: Drop> From<AllocFailed<T>> for PlanError {
    ghost use Rattle.run_words.specs.declared.refused.PlanError.TheVariants as error;

    ghost from_gives = { λ _ e. e ≡ error.NoMemory };

    fn from(_error: AllocFailed<T>) -> PlanError {
        PlanError::NoMemory
    }
}
