//! Messages of the Hypertext Transfer Protocol, versions 1.0 and 1.1 (RFC 9112): a head's start line and field lines, and the
//! body. A reader that finds no memory leaves its layer unfinished, and the tree is given up.
#![tactic(auto)]

mod heads;
mod http;

pub use http::{read_http, rows_law};
