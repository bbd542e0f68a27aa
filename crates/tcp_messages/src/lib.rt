//! The messages that the segments of TCP streams bring, each shown by one frame: those of HTTP/1 (RFC 9112), and those whose head tells
//! their length.
#![tactic(auto)]

mod cutting;
mod kept;
mod laws;
mod letting_go;
mod locating;
mod message_streams;
mod met;
mod readers;
mod reading;

pub use laws::{messages_alone, messages_once, places_law, ports_law, told_law};
pub use message_streams::MessageStreams;
pub use met::{Gathered, Met, ShownList, ShownMessage, Source};
