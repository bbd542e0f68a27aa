//! The words of a command line: the options that they give, or the first reason to refuse them.
#![tactic(auto)]

mod asked;
mod fault;
mod faults;
mod key;
mod laws;
mod letter;
mod number;
mod options;
mod port;
mod read;
mod report;
mod slot;
mod uses;
mod values;

pub use fault::{WordFault, WordReason, WordsError};
pub use laws::told_faults_are_the_first;
pub use options::{LineKind, NameList, Options, Report, ReportList, Source};
pub use read::read_words;
pub use values::read_format;
