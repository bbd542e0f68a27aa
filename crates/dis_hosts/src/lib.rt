//! Written by tools/make_protocols from tools/protocols.txt.
//!
//! Messages of protocols that are tables of rows, or nearly: DHCP (RFC 2131, 4.1), NTP (RFC 5905, 7.2).
//! A reader that finds no memory leaves its layer unfinished, and the tree is given up.
#![tactic(auto)]

mod dhcp;
mod dhcp_options;
mod ntp;

pub use dhcp::read_dhcp;
pub use ntp::read_ntp;
