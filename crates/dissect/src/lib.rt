//! Reads a capture's frames into trees, one frame after the other: the frame itself, its headers, and what they carry.
#![tactic(auto)]

mod carried;
mod datagrams;
mod dissector;
mod feeding;
mod fragments;
mod headers;
mod heads;
mod keeping;
mod laws;
mod noting;
mod pieces;
mod plain;
mod plain_trees;
mod segments;
mod state;
mod tables;
mod telling;
mod todo;
mod walk;
mod ways;

pub use dissector::{Dissector, TakeFault, give_up_dissector};
pub use heads::Heads;
pub use laws::{
    all_fields_ask_streams, frames_show_messages, layers_have_protocols, messages_stand_in_trees,
    others_left_out, others_number_alone, trees_stand_alone,
};
pub use pk_fields::{App, DecodeAs, PortRule, PortRules};
pub use plain_trees::TakenBy;
pub use tcp_messages::messages_once;
