//! Writes frames as a capture file, in the pcap or the pcapng format. What is written is read back as these frames. And makes a capture
//! file from a number, the same for the same number everywhere: it is what `--self-run` analyses.
#![tactic(auto)]

mod added;
mod fitting;
mod format;
mod laws;
mod links;
mod made;
mod made_frames;
mod numbers;
mod pcap;
mod pcapng;
mod pieces;
mod writer;

pub use added::Added;
pub use format::Format;
pub use laws::written_files_are_read_back;
pub use made::make;
pub use writer::Writer;
