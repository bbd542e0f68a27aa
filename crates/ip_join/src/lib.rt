//! Datagrams joined from fragments, whatever the order in which these come (RFC 791, 3.2; RFC 8200, 4.5).
#![tactic(auto)]

mod fragment;
mod joined;
mod joins;
mod kept;
mod key;
mod parts;

pub use joined::{ConflictKind, Datagram, Joined};
pub use joins::Joins;
