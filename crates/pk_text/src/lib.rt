//! The texts of single values, and the readers of such texts: numbers, times, Ethernet, IPv4 and IPv6 addresses,
//! and bytes.
#![tactic(auto)]

mod digits;
mod escape;
mod ether;
mod hex;
mod ip4;
mod ip6;
mod number;
mod octets;
mod pairs;
mod places;
mod puts;
mod slab;
mod time;

pub use digits::read_digits;
pub use escape::{escape_text, put_escaped};
pub use ether::{ether_text, put_ether, read_ether};
pub use ip4::{ip4_text, put_ip4, read_ip4};
pub use ip6::{ip6_text, put_ip6, read_ip6};
pub use number::{Wide, number_text, read_number};
pub use octets::read_bytes;
pub use places::{place, place_byte, place_number};
pub use puts::{TextSink, put_hex, put_number};
pub use slab::{Decimal, ShortText, Slab};
pub use time::{put_time, read_time, time_text};
