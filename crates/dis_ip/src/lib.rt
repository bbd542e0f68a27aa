//! The network layer: IPv4, IPv6, and the extension headers of IPv6.
#![tactic(auto)]

mod extension;
mod fragment;
mod fragment_header;
mod ip4;
mod ip6;
mod packet;
mod protocol;
mod sized;

pub use extension::read_extension;
pub use ip4::{WholeIp4, behind_ip4, head_of_ip4, ip4_slots, open_ip4, read_ip4};
pub use ip6::{WholeIp6, behind_ip6, head_of_ip6, ip6_slots, read_ip6};
pub use protocol::carried_by;
