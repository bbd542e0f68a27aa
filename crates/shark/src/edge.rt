// What the program answers by itself, before its run.
ghost use Rattle.std.specs.Prelude.{◌≡◌, true, false};
ghost use Rattle.run_words.specs.declared.status.Status.TheVariants.{BadWords, NoMemory};

use crate::help::write_help;
use pk_outside::{Sink, SinkFault, write_whole};
use shark_run::Status;

const VERSION: &str = "shark 0.4.0\n";

const NOT_UTF8: &str = "shark: words are not UTF-8\n";

/// Answers `--help` and `--version`, where one of them is the only word.
pub(crate) fn answer<O: Sink>(words: &[String], out: &mut O) -> Option<Status> {
    let written = match words {
        [word] if word.as_str() == "--help" => write_help(out),
        [word] if word.as_str() == "--version" => write_whole(out, VERSION.as_bytes()),
        _ => return None,
    };
    Some(match written {
        Ok(()) => Status::Done,
        Err(SinkFault::Failed) => Status::WriteFault,
        Err(SinkFault::NoMemory) => Status::NoMemory,
    })
}

/// The status where the system gives no words, for want of memory or since they aren't UTF-8; the latter is told.
pub(crate) fn without_words<E: Sink>(starved: bool, err: &mut E) -> Status
    ensures starved { starved ≡ true → (result ≡ NoMemory) × (err.new ≡ err.old) }
    ensures refused { starved ≡ false → result ≡ BadWords }
{
    if starved {
        return Status::NoMemory;
    }
    let _ = write_whole(err, NOT_UTF8.as_bytes());
    Status::BadWords
}
