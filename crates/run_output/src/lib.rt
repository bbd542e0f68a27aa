//! What stands before and behind the lines of frames: the header line; the reports, the statistics of a filter and the line of what was
//! counted, or the end of a capture; and the fields that all of the output asks for.
#![tactic(auto)]

mod closing;
mod filter_stats;
mod laws;
mod opening;
mod owned;
mod reports;
mod self_run;
mod wanted;

pub use closing::write_closing;
pub use laws::{follows_stand_alone, messages_are_told_once, others_lines_taken_out};
pub use opening::opening_line;
pub use wanted::{needed_dissector, needed_fields};
