ghost use Rattle.std.specs.Prelude.{◌≡◌, ◌+◌, ◌<◌, ◌≤◌, ◌^◌, length, IfOk, OnOk};
ghost use Rattle.pk_tree.specs.Buffers.{IsInside, bytes_of};
ghost use Rattle.pk_tree.specs.Following.{LeadsInside};
ghost use Rattle.app_layers.specs.Heads.{head_after, head_read};
ghost use Rattle.app_layers.specs.Payloads.{ComesBehind};

use dis_icmp::{read_icmp, read_icmp6, read_igmp, read_neigh};
use dis_ip::{read_extension, read_ip4, read_ip6};
use dis_link::{read_arp, read_vlan};
use dis_ports::{read_tcp, read_udp};
use pk_base::{After, Mode, Next, NoMemory, PacketHead, Span};
use pk_tree::TreeBuilder;

/// Reads a header by its protocol, and answers what follows it. The rest has no layer, and nothing follows it.
#[tactic(auto, unfolding(crate::specs::Heads::head_read, crate::specs::Heads::head_after))]
pub fn read_head(
    which: Next,
    packet: &PacketHead,
    span: Span,
    cut: bool,
    mode: Mode,
    tree: &mut TreeBuilder,
) -> Result<After, NoMemory>
    requires inside { IsInside tree.old.buffers span }
    requires room { length tree.old.layers + 2 < 2 ^ 32 }
    ensures layer { IfOk result (λ _. tree.new ≡ head_read which mode cut span tree.old) }
    ensures after { IfOk result (λ after. after ≡ head_after which packet.now mode cut span
        (bytes_of tree.old.buffers span)) }
    ensures inside { IfOk result (LeadsInside tree.old.buffers) }
    ensures behind { IfOk result (λ after. ComesBehind after tree.new.layers) }
    ensures buffers { tree.new.buffers ≡ tree.old.buffers }
    ensures most { OnOk result (length tree.new.layers ≤ length tree.old.layers + 2) }
{
    match which {
        Next::Arp => read_arp(span, cut, mode, tree),
        Next::Vlan => read_vlan(span, cut, mode, tree),
        Next::Ip4 => read_ip4(span, cut, mode, tree),
        Next::Ip6 => read_ip6(span, cut, mode, tree),
        Next::HopOpts | Next::Routing | Next::DstOpts | Next::FragHdr => {
            read_extension(which, packet, span, cut, mode, tree)
        }
        Next::Udp => read_udp(span, cut, mode, tree),
        Next::Tcp => read_tcp(span, cut, mode, tree),
        Next::Icmp => read_icmp(span, cut, mode, tree),
        Next::Icmp6 => read_icmp6(span, cut, mode, tree),
        Next::Neigh(kind) => read_neigh(kind, span, cut, mode, tree),
        Next::Igmp => read_igmp(span, cut, mode, tree),
        Next::Rest => Ok(After::End),
    }
}
