ghost use Rattle.std.specs.Prelude.{◌≡◌, ◌≢◌, ◌+◌, ◌<◌, ◌≤◌, ◌^◌, length, IfOk, OnOk};
ghost use Rattle.pk_tree.specs.Buffers.{IsInside, bytes_of};
ghost use Rattle.pk_tree.specs.Trees.{last_proto};
ghost use Rattle.pk_tree.specs.Following.{LeadsInside};
ghost use Rattle.dis_link.specs.Link.{link_of, link_read, link_after, next_of_version, last_behind};

use crate::ethernet::read_ethernet;
use crate::linux_cooked::{read_sll, read_sll2};
use crate::null::read_null;
use pk_base::{After, Next, NoMemory, Span};
use pk_tree::{TreeBuilder, carried, peek};

/// The link types that are read (the LINKTYPE registry of tcpdump.org).
const LINKTYPE_NULL: u16 = 0;

const LINKTYPE_ETHERNET: u16 = 1;

const LINKTYPE_RAW: u16 = 101;

const LINKTYPE_LINUX_SLL: u16 = 113;

const LINKTYPE_LINUX_SLL2: u16 = 276;

/// What a frame begins with.
#[derive(Clone, Copy)]
pub(crate) enum Link {
    Null,
    Ethernet,
    /// An IP header, of the version that it names itself.
    Raw,
    LinuxCooked,
    LinuxCooked2,
    Unknown,
}

/// Reads a frame's first header, by the link type of its capture. `little` is the byte order of the file or section.
/// Raw IP has no layer of its own, and the bytes of a link type that isn't known are shown as data.
#[tactic(auto, unfolding(crate::specs::Link::link_read, crate::specs::Link::link_after))]
pub fn read_link(
    link: u16,
    little: bool,
    cut: bool,
    span: Span,
    b: &mut TreeBuilder,
) -> Result<After, NoMemory>
    requires inside { IsInside b.old.buffers span }
    requires room { length b.old.layers + 2 < 2 ^ 32 }
    ensures tree { IfOk result (λ _. b.new ≡ link_read (link_of link) little b.old span cut) }
    ensures after { IfOk result (λ after.
        after ≡ link_after (link_of link) little span (bytes_of b.old.buffers span)) }
    ensures inside { IfOk result (LeadsInside b.old.buffers) }
    ensures whole { IfOk result (λ after. after ≢ After.End
        → last_proto b.new.layers ≡ last_behind (link_of link) (last_proto b.old.layers)) }
    ensures buffers { b.new.buffers ≡ b.old.buffers }
    ensures most { OnOk result (length b.new.layers ≤ length b.old.layers + 2) }
{
    match link_of(link) {
        Link::Null => read_null(little, span, cut, b),
        Link::Ethernet => read_ethernet(span, cut, b),
        Link::Raw => {
            let version = peek(b.bytes(span), 0, 4);
            Ok(carried(next_of_version(version), span, 0))
        }
        Link::LinuxCooked => read_sll(span, cut, b),
        Link::LinuxCooked2 => read_sll2(span, cut, b),
        Link::Unknown => {
            let _bytes = b.bytes(span);
            Ok(carried(Next::Rest, span, 0))
        }
    }
}

fn link_of(number: u16) -> Link
    ensures { result ≡ link_of number }
{
    match number {
        LINKTYPE_NULL => Link::Null,
        LINKTYPE_ETHERNET => Link::Ethernet,
        LINKTYPE_RAW => Link::Raw,
        LINKTYPE_LINUX_SLL => Link::LinuxCooked,
        LINKTYPE_LINUX_SLL2 => Link::LinuxCooked2,
        _ => Link::Unknown,
    }
}

fn next_of_version(version: u64) -> Next
    ensures { result ≡ next_of_version version }
{
    match version {
        4 => Next::Ip4,
        6 => Next::Ip6,
        _ => Next::Rest,
    }
}
