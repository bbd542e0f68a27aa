ghost use Rattle.std.specs.Prelude.{◌≡◌};
ghost use Rattle.ip_join.specs.KeyOrder.{is_six as is_six_value, key_of as key_value, wide_of as wide_value, number_of as number_value};

use pk_base::{Address, FragmentHead};

/// What the fragments of one datagram have in common.
#[derive(Clone, Copy)]
pub(crate) enum Key {
    Four(FourKey),
    Wide(WideKey),
}

/// Of a datagram of IPv4, in as little room as may be. Keys are compared by their fields in this order, and most datagrams differ in the
/// identification.
#[derive(Clone, Copy, PartialEq, Eq, PartialOrd, Ord)]
pub(crate) struct FourKey {
    ident: u32,
    source: u32,
    target: u32,
    protocol: u8,
}

/// Of any datagram.
#[derive(Clone, Copy, PartialEq, Eq, PartialOrd, Ord)]
pub(crate) struct WideKey {
    ident: u32,
    /// 0 under IPv6, where it is no part of the key.
    protocol: u8,
    six: bool,
    source_six: bool,
    target_six: bool,
    source: u128,
    target: u128,
}

fn is_six(address: Address) -> bool
    ensures { result ≡ is_six_value address }
{
    match address {
        Address::Four(_) => false,
        Address::Six(_) => true,
    }
}

fn number_of(address: Address) -> u128
    ensures { result ≡ number_value address }
{
    match address {
        Address::Four(number) => u128::from(number),
        Address::Six(number) => number,
    }
}

pub(crate) fn key_of(head: &FragmentHead) -> Key
    ensures { result ≡ key_value head.now }
{
    if head.six {
        return Key::Wide(wide_of(head));
    }
    match (head.source, head.target) {
        (Address::Four(source), Address::Four(target)) => Key::Four(FourKey {
            ident: head.ident,
            source,
            target,
            protocol: head.next,
        }),
        _ => Key::Wide(wide_of(head)),
    }
}

fn wide_of(head: &FragmentHead) -> WideKey
    ensures { result ≡ wide_value head.now }
{
    WideKey {
        ident: head.ident,
        protocol: if head.six { 0 } else { head.next },
        six: head.six,
        source_six: is_six(head.source),
        target_six: is_six(head.target),
        source: number_of(head.source),
        target: number_of(head.target),
    }
}
