ghost use Rattle.std.specs.Prelude.{◌≡◌, ◌≢◌, ◌+◌, ◌<◌, ◌≤◌, ◌^◌, length, IfOk, OnOk, IsTrue};
ghost use Rattle.pk_tree.specs.Buffers.{IsInside, bytes_of};
ghost use Rattle.pk_tree.specs.Following.{LeadsInside};
ghost use Rattle.pk_tree.specs.Layouts.{layer_read};
ghost use Rattle.pk_tree.specs.Trees.{last_proto};
ghost use Rattle.dis_ip.specs.Fragments.{LastIsPart};
ghost use Rattle.dis_ip.specs.Extensions.{is_extension, extension_proto, extension_layout, extension_after};

use crate::fragment_header::read_fragment_header;
use crate::sized::{Sized, read_sized};
use pk_base::{After, Mode, Next, NoMemory, PacketHead, Span};
use pk_tree::TreeBuilder;

/// Reads an extension header of IPv6 (RFC 8200, 4). `packet` is what the IPv6 header says, or, in a joined datagram, the
/// fragments' addresses with `whole` true.
#[tactic(auto, unfolding(crate::specs::Extensions::extension_layout, crate::specs::Extensions::extension_after))]
pub fn read_extension(
    which: Next,
    packet: &PacketHead,
    span: Span,
    cut: bool,
    mode: Mode,
    b: &mut TreeBuilder,
) -> Result<After, NoMemory>
    requires which { IsTrue (is_extension which) }
    requires inside { IsInside b.old.buffers span }
    requires room { length b.old.layers + 2 < 2 ^ 32 }
    ensures layer { IfOk result (λ _.
        b.new ≡ layer_read b.old (extension_proto which) span
        (extension_layout which (bytes_of b.old.buffers span)) mode cut) }
    ensures after { IfOk result (λ after.
        after ≡ extension_after which packet.now mode span (bytes_of b.old.buffers span)) }
    ensures inside { IfOk result (LeadsInside b.old.buffers) }
    ensures whole { IfOk result (λ after. after ≢ After.End
        → last_proto b.new.layers ≡ extension_proto which) }
    ensures part { IfOk result (LastIsPart b.new.layers) }
    ensures buffers { b.new.buffers ≡ b.old.buffers }
    ensures some { OnOk result (0 < length b.new.layers) }
    ensures most { OnOk result (length b.new.layers ≤ length b.old.layers + 2) }
{
    match which {
        Next::HopOpts => read_sized(Sized::HopOptions, span, cut, mode, b),
        Next::Routing => read_sized(Sized::Routing, span, cut, mode, b),
        Next::DstOpts => read_sized(Sized::TargetOptions, span, cut, mode, b),
        Next::FragHdr => read_fragment_header(packet, span, cut, mode, b),
        Next::Ip4
        | Next::Ip6
        | Next::Arp
        | Next::Vlan
        | Next::Icmp
        | Next::Icmp6
        | Next::Udp
        | Next::Tcp
        | Next::Neigh(_)
        | Next::Igmp
        | Next::Rest => unreachable!(),
    }
}
