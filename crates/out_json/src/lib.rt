//! The lines of dissected frames as JSON (RFC 8259): the buffers in hexadecimal, and the layers with their items.
#![tactic(auto)]

mod heads;
mod strings;
mod writer;

pub use writer::{JsonWriter, json_line};
