ghost use Rattle.std.specs.Prelude.{◌≡◌};
ghost use Rattle.cap_stats.specs.Counts.{is_same, is_same_address, is_same_port};

use pk_base::Address;

/// An end of a conversation: an address, and a port where the conversation is one of ports.
#[derive(Clone, Copy)]
pub(crate) struct Party {
    pub address: Address,
    pub port: Option<u64>,
}

/// The way of a frame from one end of a conversation to the other.
#[derive(Clone, Copy)]
pub(crate) struct Flight {
    pub from: Party,
    pub to: Party,
    /// The frame's length on the wire.
    pub bytes: u64,
}

/// A packet from one IPv4 address to another.
#[derive(Clone, Copy)]
pub(crate) struct Packet {
    pub source: u32,
    pub target: u32,
    /// The frame's length on the wire.
    pub bytes: u64,
}

/// Whether two ends are one.
#[inline(always)]
pub(crate) fn is_same(one: &Party, other: &Party) -> bool
    ensures { result ≡ is_same one.now other.now }
{
    is_same_address(one.address, other.address) && is_same_port(one.port, other.port)
}

#[inline(always)]
fn is_same_address(one: Address, other: Address) -> bool
    ensures { result ≡ is_same_address one other }
{
    match (one, other) {
        (Address::Four(one), Address::Four(other)) => one == other,
        (Address::Six(one), Address::Six(other)) => one == other,
        _ => false,
    }
}

#[inline(always)]
fn is_same_port(one: Option<u64>, other: Option<u64>) -> bool
    ensures { result ≡ is_same_port one other }
{
    match (one, other) {
        (None, None) => true,
        (Some(one), Some(other)) => one == other,
        _ => false,
    }
}
