use pk_base::NoMemory;
use std::alloc::AllocError;

/// Why a reader has no answer. It then answers `Spent` from now on.
#[derive(Clone, Copy)]
pub enum ReadError {
    /// A read of the capture failed.
    ReadFault,
    NoMemory,
    /// The reader answered an error before.
    Spent,
}

impl From<NoMemory> for ReadError {
    ghost use Rattle.std.specs.Prelude.{◌≡◌};
    ghost use Rattle.capture_read.specs.declared.read_error.ReadError.TheVariants as fault;

    ghost from_gives = { λ _ e. e ≡ fault.NoMemory };

    fn from(_error: NoMemory) -> ReadError {
        ReadError::NoMemory
    }
}

impl From<AllocError> for ReadError {
    ghost use Rattle.std.specs.Prelude.{◌≡◌};
    ghost use Rattle.capture_read.specs.declared.read_error.ReadError.TheVariants as fault;

    ghost from_gives = { λ _ e. e ≡ fault.NoMemory };

    fn from(_error: AllocError) -> ReadError {
        ReadError::NoMemory
    }
}
