ghost use Rattle.std.specs.Prelude.{◌≡◌};
ghost use Rattle.run_words.specs.Outcomes.{outcome_status};

use crate::status::Status;
use capture_read::Ending;
use run_frames::RunEnding;

/// How carrying out a plan ended.
#[derive(Clone, Copy)]
pub enum Outcome {
    /// The output over all frames that were read was written, and they end so.
    Ended(RunEnding),
    CannotOpen,
    ReadFault,
    WriteFault,
    NoMemory,
}

impl Outcome {
    pub fn status(self) -> Status
        ensures { result ≡ outcome_status self }
    {
        match self {
            Outcome::Ended(RunEnding::Read(Ending::Whole)) => Status::Done,
            Outcome::Ended(RunEnding::Read(Ending::Damaged(_))) => Status::Damaged,
            Outcome::Ended(RunEnding::Read(Ending::TooLarge)) => Status::TooLarge,
            Outcome::Ended(RunEnding::Unfit(_)) => Status::CannotWrite,
            Outcome::CannotOpen => Status::CannotOpen,
            Outcome::ReadFault => Status::ReadFault,
            Outcome::WriteFault => Status::WriteFault,
            Outcome::NoMemory => Status::NoMemory,
        }
    }
}
