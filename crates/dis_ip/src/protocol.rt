ghost use Rattle.std.specs.Prelude.{◌≡◌, ℕ, ◌+◌, ◌^◌, ◌<◌, Bool as Truth, false, List, IfSome};
ghost use Rattle.pk_tree.specs.Buffers.{IsInside};
ghost use Rattle.pk_tree.specs.Following.{LeadsInside};
ghost use Rattle.pk_tree.specs.declared.layer.Layer.{Layer};
ghost use Rattle.dis_ip.specs.Fragments.{LastIsPart};
ghost use Rattle.dis_ip.specs.Protocols.{next_under_ip4, next_under_ip6, next_of_protocol, carried_by, ends_chain};

use pk_base::{After, Next, Span};
use pk_tree::carried;

// Protocol numbers (IANA, "Protocol Numbers").
const HOP_BY_HOP_OPTIONS: u8 = 0;

const ICMP: u8 = 1;

const IGMP: u8 = 2;

const IP4: u8 = 4;

const TCP: u8 = 6;

const UDP: u8 = 17;

const IP6: u8 = 41;

const ROUTING: u8 = 43;

const FRAGMENT: u8 = 44;

const ICMP6: u8 = 58;

const NO_NEXT_HEADER: u8 = 59;

const DESTINATION_OPTIONS: u8 = 60;

/// What follows a header of so many bytes that names a protocol number. `six` says that the number stands in a header of
/// IPv6. Nothing follows where the number says so, or where no byte is left.
pub fn carried_by(six: bool, number: u8, span: Span, header: u32) -> After
    requires end { span.start + span.len < 2 ^ 32 }
    ensures after { result ≡ carried_by six number span header }
    ensures inside { (buffers : List (List ℕ)) → IsInside buffers span
        → LeadsInside buffers result }
    ensures part { (layers : List Layer) → LastIsPart layers result }
{
    if number == NO_NEXT_HEADER {
        After::End
    } else {
        carried(next_of_protocol(six, number), span, header)
    }
}

/// The protocol of a number; what isn't read is shown as data.
#[tactic(auto, unfolding(crate::specs::Protocols::next_of_protocol))]
fn next_of_protocol(six: bool, number: u8) -> Next
    ensures { result ≡ next_of_protocol six number }
{
    match number {
        IP4 => Next::Ip4,
        IP6 => Next::Ip6,
        TCP => Next::Tcp,
        UDP => Next::Udp,
        _ => {
            if six {
                next_under_ip6(number)
            } else {
                next_under_ip4(number)
            }
        }
    }
}

/// The header behind an IP header of either version that names TCP or UDP.
#[tactic(auto, unfolding(crate::specs::Protocols::next_of_protocol))]
pub(crate) fn ports_next(number: u8) -> Option<Next>
    ensures next { IfSome result (λ next. (six : Truth) → next_of_protocol six number ≡ next) }
    ensures goes_on { IfSome result (λ _. ends_chain number ≡ false) }
{
    match number {
        TCP => Some(Next::Tcp),
        UDP => Some(Next::Udp),
        _ => None,
    }
}

fn next_under_ip4(number: u8) -> Next
    ensures { result ≡ next_under_ip4 number }
{
    match number {
        ICMP => Next::Icmp,
        IGMP => Next::Igmp,
        _ => Next::Rest,
    }
}

fn next_under_ip6(number: u8) -> Next
    ensures { result ≡ next_under_ip6 number }
{
    match number {
        ICMP6 => Next::Icmp6,
        HOP_BY_HOP_OPTIONS => Next::HopOpts,
        ROUTING => Next::Routing,
        FRAGMENT => Next::FragHdr,
        DESTINATION_OPTIONS => Next::DstOpts,
        _ => Next::Rest,
    }
}
