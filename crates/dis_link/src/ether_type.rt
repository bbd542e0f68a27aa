ghost use Rattle.std.specs.Prelude.{◌≡◌, ℕ, ◌+◌, ◌≤◌, ◌<◌, ◌^◌, List};
ghost use Rattle.pk_tree.specs.Buffers.{IsInside};
ghost use Rattle.dis_link.specs.EtherTypes.{is_length, ended, next_of_type};

use pk_base::{Next, Span};
use pk_tree::first_of;

const LENGTH_MOST: u64 = 1_500;

const IP4: u64 = 0x0800;

const ARP: u64 = 0x0806;

const CUSTOMER_TAG: u64 = 0x8100;

const IP6: u64 = 0x86DD;

const SERVICE_TAG: u64 = 0x88A8;

/// Whether the two bytes of a length or type are a length (IEEE 802.3, 3.2.6).
pub(crate) fn is_length(number: u64) -> bool
    ensures { result ≡ is_length number }
{
    number <= LENGTH_MOST
}

/// The protocol of a type. What follows a length is shown as data.
pub(crate) fn next_of_type(number: u64) -> Next
    ensures { result ≡ next_of_type number }
{
    match number {
        IP4 => Next::Ip4,
        ARP => Next::Arp,
        IP6 => Next::Ip6,
        CUSTOMER_TAG | SERVICE_TAG => Next::Vlan,
        _ => Next::Rest,
    }
}

/// A layer's span by the length or type that ends its header of so many bytes. A length ends the layer.
#[tactic(auto, unfolding(crate::specs::EtherTypes::ended))]
pub(crate) fn ended(span: Span, header: u32, number: u64) -> Span
    requires header { header < 2 ^ 8 }
    requires number { number < 2 ^ 16 }
    ensures span { result ≡ ended span header number }
    ensures inside { (buffers : List (List ℕ)) → IsInside buffers span → IsInside buffers result }
    ensures end { result.start + result.len ≤ span.start + span.len }
{
    if is_length(number) {
        first_of(span, header + number as u32)
    } else {
        span
    }
}
