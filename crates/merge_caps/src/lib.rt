//! Merges capture files: their frames in the order of their times, as one capture file.
#![tactic(auto)]

mod laws;
mod order;
mod owned;
mod place;
mod read_file;
mod read_files;
mod readings;
mod status;
mod told;
mod top;
mod words;
mod write;

pub use laws::{merged_frames_are_unique, merged_frames_stand_by_time};
pub use status::MergeStatus;
pub use top::merge;
