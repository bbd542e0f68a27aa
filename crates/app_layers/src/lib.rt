//! The layers of a frame. Those of the frame itself and of its headers: what their own bytes say, and beside it a packet's place in its
//! conversation and the bytes that it carries (UDP, TCP), and what a fragment made of those before it (IP). And what packets carry: the
//! messages of applications, in datagrams and in streams of TCP, and bytes that no protocol reads.
#![tactic(auto)]

mod applications;
mod data_layer;
mod fragments;
mod frame_layer;
mod heads;
mod laws;
mod message_layers;
mod payload;
mod rows;
mod streamed;
mod times;

pub use applications::{add_message, stream_app};
pub use data_layer::add_data;
pub use fragments::{tell_conflict, tell_joined};
pub use frame_layer::{begin_tree, captured, frame_span, is_cut};
pub use heads::read_head;
pub use laws::dns_framed;
pub use message_layers::{add_carried, add_passed};
pub use payload::{tell_carried, tell_datagram, tell_segment};
pub use rows::{framed_apps, framer_of, in_datagrams, is_passed, passed_apps, proto_of};
pub use streamed::{StreamApp, application, framing};
pub use times::{Times, since};
