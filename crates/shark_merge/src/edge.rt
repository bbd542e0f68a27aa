// What the program answers by itself, before its run.
use crate::help::HELP;
use merge_caps::MergeStatus;
use pk_outside::{Sink, SinkFault, write_whole};
use std::io::ErrorKind;

const VERSION: &str = "shark_merge 0.4.0\n";

const NOT_UTF8: &str = "shark: words are not UTF-8\n";

/// Answers `--help` and `--version`, where one of them is the only word.
pub(crate) fn answer<O: Sink>(words: &[String], out: &mut O) -> Option<MergeStatus> {
    let text = match words {
        [word] if word.as_str() == "--help" => HELP,
        [word] if word.as_str() == "--version" => VERSION,
        _ => return None,
    };
    Some(match write_whole(out, text.as_bytes()) {
        Ok(()) => MergeStatus::Done,
        Err(SinkFault::Failed) => MergeStatus::WriteFault,
        Err(SinkFault::NoMemory) => MergeStatus::NoMemory,
    })
}

/// The status where the system gives no words, which is told unless memory is wanting.
pub(crate) fn without_words<E: Sink>(kind: ErrorKind, err: &mut E) -> MergeStatus {
    if kind == ErrorKind::OutOfMemory {
        return MergeStatus::NoMemory;
    }
    let _ = write_whole(err, NOT_UTF8.as_bytes());
    MergeStatus::BadWords
}
