//! Links from messages to those of earlier frames, from a response to its query or request; and conversations: whose packets belong
//! together, whichever of the two ends sends them, and how they are numbered.
#![tactic(auto)]

mod conversations;
mod laws;
mod link_tables;
mod linking;
mod links;
mod notes;
mod segment_notes;

pub use conversations::{Conversations, udp_ends};
pub use laws::links_go_back;
pub use linking::link_messages;
pub use links::Links;
pub use notes::{Direction, Note, dns_note, tcp_direction, udp_direction};
