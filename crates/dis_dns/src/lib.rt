//! Messages of the Domain Name System (RFC 1035) and of multicast DNS (RFC 6762): header, questions and records, with their
//! names. A reader that finds no memory leaves its layer unfinished, and the tree is given up.
#![tactic(auto)]

mod chains;
mod dns;
mod fields;
mod names;
mod records;
mod steps;

pub use dns::{read_dns, read_mdns};
