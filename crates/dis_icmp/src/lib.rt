//! The control messages of the network layer: ICMP, ICMPv6 with neighbour discovery, by which hosts and routers of a link find
//! each other, and IGMP, which tells of groups.
#![tactic(auto)]

mod icmp;
mod icmp6;
mod igmp;
mod neigh;
mod neigh_options;

pub use icmp::read_icmp;
pub use icmp6::read_icmp6;
pub use igmp::read_igmp;
pub use neigh::read_neigh;
