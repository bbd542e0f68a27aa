ghost use Rattle.std.specs.Prelude.{◌≡◌, ◌⊎◌, ◌↔◌};
ghost use Rattle.tcp_streams.specs.declared.ends.End.{End as EndValue};
ghost use Rattle.tcp_streams.specs.Conversations.{narrow, four_of, end_at, end_of_endpoint, comes_first, ends_between, ends_of as ends_value};

use crate::segment::Segment;
use pk_base::{Address, Endpoint};

/// An end of a conversation.
#[derive(Clone, Copy, PartialEq, Eq, PartialOrd, Ord)]
pub struct End {
    /// Whether the address is one of IPv6.
    pub six: bool,
    pub address: u128,
    pub port: u16,
}

/// The two ends of a conversation, in their order, so that both directions have the same.
#[derive(Clone, Copy, PartialEq, Eq, PartialOrd, Ord)]
pub struct Ends {
    pub lesser: End,
    pub greater: End,
}

/// The two ends of a conversation over IPv4, in their order. Such ends are compared by their fields in this order, and most differ
/// in a port.
#[derive(Clone, Copy, PartialEq, Eq, PartialOrd, Ord)]
pub(crate) struct FourEnds {
    pub lesser_port: u16,
    pub greater_port: u16,
    pub lesser: u32,
    pub greater: u32,
}

/// The ends of a conversation in fewer bytes, if both are of IPv4.
pub(crate) fn four_of(ends: Ends) -> Option<FourEnds>
    ensures { result ≡ four_of ends }
{
    match (narrow(ends.lesser), narrow(ends.greater)) {
        (Some(lesser), Some(greater)) => Some(FourEnds {
            lesser_port: ends.lesser.port,
            greater_port: ends.greater.port,
            lesser,
            greater,
        }),
        _ => None,
    }
}

fn narrow(end: End) -> Option<u32>
    ensures { result ≡ narrow end }
{
    if end.six {
        return None;
    }
    if end.address < 1 << 32 {
        Some(end.address as u32)
    } else {
        None
    }
}

/// The ends of a segment's conversation.
pub(crate) fn ends_of(s: &Segment) -> Ends
    ensures { result ≡ ends_value s.now }
{
    ends_between(s.from, s.to)
}

/// The ends of a conversation: the same for two packets exactly where both have the same two endpoints, whichever of them
/// sends.
pub fn ends_between(one: Endpoint, other: Endpoint) -> Ends
    ensures ends { result ≡ ends_between (end_of_endpoint one) (end_of_endpoint other) }
    ensures unordered { (a b : EndValue) → result ≡ ends_between a b ↔ ((end_of_endpoint one ≡ a) × (end_of_endpoint other ≡ b)) ⊎ ((end_of_endpoint one ≡ b) × (end_of_endpoint other ≡ a)) }
{
    in_order(end_of_endpoint(one), end_of_endpoint(other))
}

pub(crate) fn end_of_endpoint(endpoint: Endpoint) -> End
    ensures { result ≡ end_of_endpoint endpoint }
{
    end_at(endpoint.address, endpoint.port)
}

fn end_at(address: Address, port: u16) -> End
    ensures { result ≡ end_at address port }
{
    match address {
        Address::Four(address) => End {
            six: false,
            address: u128::from(address),
            port,
        },
        Address::Six(address) => End {
            six: true,
            address,
            port,
        },
    }
}

#[tactic(auto, unfolding(crate::specs::Conversations::ends_between))]
fn in_order(source: End, target: End) -> Ends
    ensures ends { result ≡ ends_between source target }
    ensures unordered { (a b : EndValue) → result ≡ ends_between a b ↔ ((source ≡ a) × (target ≡ b)) ⊎ ((source ≡ b) × (target ≡ a)) }
{
    if comes_first(source, target) {
        Ends {
            lesser: source,
            greater: target,
        }
    } else {
        Ends {
            lesser: target,
            greater: source,
        }
    }
}

pub(crate) fn comes_first(one: End, other: End) -> bool
    ensures { result ≡ comes_first one other }
{
    if one.six != other.six {
        return other.six;
    }
    if one.address != other.address {
        return one.address < other.address;
    }
    one.port <= other.port
}
