// How carrying out a plan ends, by how the parts of it did.
ghost use Rattle.std.specs.Prelude.{◌≡◌};
ghost use Rattle.shark_run.specs.Ends.{outcome_of, run_fault_of, unbegun_outcome};

use crate::file::FileFault;
use pk_outside::SinkFault;
use run_frames::{RunEnding, RunFault};
use run_words::Outcome;

/// A write's fault as that of a run.
pub(crate) fn run_fault(fault: SinkFault) -> RunFault
    ensures { result ≡ run_fault_of fault }
{
    match fault {
        SinkFault::Failed => RunFault::WriteFault,
        SinkFault::NoMemory => RunFault::NoMemory,
    }
}

/// How it ends where the output was written over a begun file, or not to its end.
pub(crate) fn after_output(ended: Result<RunEnding, RunFault>) -> Outcome
    ensures { result ≡ outcome_of ended }
{
    match ended {
        Ok(ending) => Outcome::Ended(ending),
        Err(RunFault::ReadFault) => Outcome::ReadFault,
        Err(RunFault::WriteFault) => Outcome::WriteFault,
        Err(RunFault::NoMemory) => Outcome::NoMemory,
    }
}

/// How it ends where no file was begun.
pub(crate) fn unbegun(fault: FileFault) -> Outcome
    ensures { result ≡ unbegun_outcome fault }
{
    match fault {
        FileFault::CannotOpen => Outcome::CannotOpen,
        FileFault::NoMemory => Outcome::NoMemory,
    }
}
