//! The whole program as a call: the words of a command line are read or refused, then the capture file is read,
//! and the lines of the frames that the filter lets through are written, or these frames as a capture.
#![tactic(auto)]

mod ends;
mod file;
mod laws;
mod output;
mod owned;
mod sure;
mod top;
mod two_passes;

pub use laws::{plans_are_alike, the_headline_says_all};
pub use run_frames::{Compiled, FieldList, Generated, Plan, PlanRules, PlanSource};
pub use run_texts::Text;
pub use run_words::{Refused, Status};
pub use sure::sure_run;
pub use top::{run, run_plan};
