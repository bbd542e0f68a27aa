//! The headers below the network layer: Ethernet, VLAN tags, the BSD loopback header, Linux's cooked headers, and ARP.
#![tactic(auto)]

mod arp;
mod ether_type;
mod ethernet;
mod link;
mod linux_cooked;
mod null;
mod vlan;

pub use arp::read_arp;
pub use ethernet::{behind_ethernet, eth_slots, open_ethernet};
pub use link::read_link;
pub use vlan::{behind_vlan, read_vlan, vlan_slots};
