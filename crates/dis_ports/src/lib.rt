//! The headers of the transport layer, which name ports: UDP and TCP. A reader that finds no memory leaves its layer
//! unfinished, and the tree is given up.
#![tactic(auto)]

mod tcp;
mod tcp_options;
mod udp;

pub use tcp::{WholeTcp, behind_tcp, open_tcp, read_tcp, tcp_head, tcp_slots};
pub use udp::{WholeUdp, behind_udp, read_udp, udp_ports, udp_slots};
