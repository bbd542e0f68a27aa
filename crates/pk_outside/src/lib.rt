//! The outside world as contracts see it: a capture that gives the bytes of files, and a sink that takes bytes.
//!
//! Each fault is counted by the object that met it, so that a caller's contract can say of an answer
//! that it came only where a count rose.
#![tactic(auto)]

mod calls;
mod capture;
mod file_capture;
mod gathering;
mod gathering_sink;
mod memory_capture;
mod memory_sink;
mod moves;
mod sink;
mod std_sink;
mod sure_capture;
mod sure_sink;

pub use capture::{Capture, Failed};
pub use file_capture::FileCapture;
pub use gathering::Gathers;
pub use gathering_sink::GatheringSink;
pub use memory_capture::{MemoryCapture, NamedFile};
pub use memory_sink::MemorySink;
pub use sink::{Sink, SinkFault, write_whole};
pub use std_sink::StdSink;
pub use sure_capture::SureCapture;
pub use sure_sink::SureSink;
