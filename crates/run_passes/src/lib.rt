//! Going over the frames of a file: once, each written before more is read, or twice, where all are kept first.
#![tactic(auto)]

mod once;
mod owned;
mod twice;

pub use once::write_rest;
pub use owned::{give_up_kept, give_up_later};
pub use twice::{KeptFrames, keep_frames, later_of, write_kept};
