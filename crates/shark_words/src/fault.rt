use pk_base::NoMemory;
use std::alloc::{AllocError, AllocFailed};

/// Why words are refused, in the order of the names A1 to A9.
#[derive(Clone, Copy, PartialEq, Eq)]
pub enum WordReason {
    /// A1: a letter or a long option isn't known.
    UnknownOption,
    /// A2: an option that needs a value has none.
    MissingValue,
    /// A3: a word is neither an option nor an option's value.
    StrayWord,
    /// A4: there is no capture, neither a file nor a generated one.
    NoFile,
    /// A5: an option that may come once comes again, or a second capture.
    Repeated,
    /// A6: a value isn't one of its option's.
    BadValue,
    /// A7: no fields are asked for.
    NoFields,
    /// A8: an option has no effect.
    Unused,
    /// A9: an option can't stand beside `-w`.
    Clash,
}

/// A reason to refuse words, and the word that shows it, numbered from 1.
#[derive(Clone, Copy, PartialEq, Eq)]
pub struct WordFault {
    pub word: u64,
    pub reason: WordReason,
}

/// Why there are no options.
#[derive(Clone, Copy)]
pub enum WordsError {
    Fault(WordFault),
    NoMemory,
}

impl From<WordFault> for WordsError {
    ghost use Rattle.std.specs.Prelude.{◌≡◌};
    ghost use Rattle.shark_words.specs.declared.fault.WordsError.TheVariants as error;

    ghost from_gives = { λ fault e. e ≡ error.Fault fault };

    fn from(fault: WordFault) -> WordsError {
        WordsError::Fault(fault)
    }
}

impl From<NoMemory> for WordsError {
    ghost use Rattle.std.specs.Prelude.{◌≡◌};
    ghost use Rattle.shark_words.specs.declared.fault.WordsError.TheVariants as error;

    ghost from_gives = { λ _ e. e ≡ error.NoMemory };

    fn from(_error: NoMemory) -> WordsError {
        WordsError::NoMemory
    }
}

impl From<AllocError> for WordsError {
    ghost use Rattle.std.specs.Prelude.{◌≡◌};
    ghost use Rattle.shark_words.specs.declared.fault.WordsError.TheVariants as error;

    ghost from_gives = { λ _ e. e ≡ error.NoMemory };

    fn from(_error: AllocError) -> WordsError {
        WordsError::NoMemory
    }
}

impl<T: Drop> From<AllocFailed<T>> for WordsError {
    ghost use Rattle.std.specs.Prelude.{◌≡◌};
    ghost use Rattle.shark_words.specs.declared.fault.WordsError.TheVariants as error;

    ghost from_gives = { λ _ e. e ≡ error.NoMemory };

    fn from(_error: AllocFailed<T>) -> WordsError {
        WordsError::NoMemory
    }
}
