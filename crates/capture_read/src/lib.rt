//! Reads a capture file in the pcap or pcapng format: its frames in order, and how the file ends. Any other file of at
//! least four bytes is damaged at its first byte, by `UnknownMagic`.
#![tactic(auto)]

mod ending;
mod fill;
mod format;
mod frame;
mod frame_list;
mod frame_reader;
mod held;
mod held_frames;
mod held_part;
mod kind;
mod look;
mod next_frame;
mod next_piece;
mod piece;
mod position;
mod read_error;
mod reading;
mod room;
mod state;

pub use ending::{Damage, Ending};
pub use frame::Frame;
pub use frame_list::FrameList;
pub use frame_reader::FrameReader;
pub use next_frame::NextFrame;
pub use read_error::ReadError;
pub use reading::frames;
