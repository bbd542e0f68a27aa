ghost use Rattle.std.specs.Prelude.{◌≡◌, ℕ, List, [], ◌+◌, ◌<◌, ◌≤◌, ◌^◌, length, IfOk, OnOk};
ghost use Rattle.pk_tree.specs.Buffers.{IsInside, bytes_of};
ghost use Rattle.pk_fields.specs.Ids.{ARP};
ghost use Rattle.pk_tree.specs.Layouts.{layer_read, StepsFit};
ghost use Rattle.pk_tree.specs.Tables.{steps_of};
ghost use Rattle.dis_link.specs.Arp.{arp_layout, is_ip_over_ether, arp_sizes};

use pk_base::{After, Mode, NoMemory, Span};
use pk_fields::ids;
use pk_tree::{Reach, Slot, TreeBuilder, pass_layer, peek, read_table};

/// Where the addresses begin.
const ADDRESSES: usize = 8;

/// The hardware address space of Ethernet (RFC 826, "Definitions").
const ETHERNET: u64 = 1;

const ETHERNET_SIZE: u64 = 6;
/// The protocol address space of IPv4: its type in an Ethernet frame.
const IP4: u64 = 0x0800;

const IP4_SIZE: u64 = 4;

// The rows before the addresses.
const HW_TYPE: Slot = Slot::Row(ids::ARP_HW_TYPE.0, 0);

const PROTO_TYPE: Slot = Slot::Row(ids::ARP_PROTO_TYPE.0, 2);

const HW_SIZE: Slot = Slot::Row(ids::ARP_HW_SIZE.0, 4);

const PROTO_SIZE: Slot = Slot::Row(ids::ARP_PROTO_SIZE.0, 5);

const OPCODE: Slot = Slot::Row(ids::ARP_OPCODE.0, 6);

/// The rows of a packet with addresses of Ethernet and IPv4.
static IP_OVER_ETHER: [Slot; 9] = [
    HW_TYPE,
    PROTO_TYPE,
    HW_SIZE,
    PROTO_SIZE,
    OPCODE,
    Slot::Row(ids::ARP_SRC_HW_MAC.0, 8),
    Slot::Row(ids::ARP_SRC_PROTO_IPV4.0, 14),
    Slot::Row(ids::ARP_DST_HW_MAC.0, 18),
    Slot::Row(ids::ARP_DST_PROTO_IPV4.0, 24),
];

/// The rows of a packet with other addresses.
static OTHER: [Slot; 9] = [
    HW_TYPE,
    PROTO_TYPE,
    HW_SIZE,
    PROTO_SIZE,
    OPCODE,
    Slot::Part(ids::ARP_SRC_HW.0, 8, 0),
    Slot::PartAt(ids::ARP_SRC_PROTO.0, 2, 1),
    Slot::PartAt(ids::ARP_DST_HW.0, 3, 0),
    Slot::PartAt(ids::ARP_DST_PROTO.0, 4, 1),
];

/// Reads an ARP packet (RFC 826). Nothing follows it.
#[tactic(auto, using(crate::proofs::Whole::arp_whole, crate::proofs::Whole::arp_fits), unfolding(pk_tree::specs::Layouts::StepsFit, pk_fields::specs::Fields::row_of, pk_fields::specs::Table::rows))]
pub fn read_arp(span: Span, cut: bool, mode: Mode, b: &mut TreeBuilder) -> Result<After, NoMemory>
    requires inside { IsInside b.old.buffers span }
    requires room { length b.old.layers + 2 < 2 ^ 32 }
    ensures layer { IfOk result (λ _.
        b.new ≡ layer_read b.old ARP span (arp_layout (bytes_of b.old.buffers span)) mode cut) }
    ensures after { IfOk result (λ after. after ≡ After.End) }
    ensures buffers { b.new.buffers ≡ b.old.buffers }
    ensures most { OnOk result (length b.new.layers ≤ length b.old.layers + 2) }
{
    let bytes = b.bytes(span);
    let hw = peek(bytes, 32, 8) as usize;
    let proto = peek(bytes, 40, 8) as usize;
    let target = ADDRESSES + hw + proto;
    if !b.asks(ids::ARP) && target + hw + proto <= span.len as usize {
        pass_layer(b, ids::ARP, span, Reach::All, mode, cut)?;
    } else {
        let slots = arp_slots(is_ip_over_ether(bytes));
        let sizes = [hw, proto, ADDRESSES + hw, target, target + hw];
        read_table(b, ids::ARP, span, slots, &[], &sizes, &[], mode, cut)?;
    }
    Ok(After::End)
}

#[tactic(auto, unfolding(crate::specs::Arp::arp_layout, crate::specs::Arp::is_ip_over_ether, pk_tree::specs::Tables::steps_of, pk_tree::specs::Layouts::StepsFit, pk_fields::specs::Fields::row_of, pk_fields::specs::Table::rows))]
fn arp_slots(known: bool) -> &'static [Slot]
    ensures fits { (sizes : List ℕ) → StepsFit ARP (steps_of [] sizes result.now) }
    ensures layout { (bytes : List ℕ) → known ≡ is_ip_over_ether bytes
        → steps_of [] (arp_sizes bytes) result.now ≡ arp_layout bytes }
{
    if known { &IP_OVER_ETHER } else { &OTHER }
}

#[tactic(auto, unfolding(crate::specs::Arp::is_ip_over_ether))]
fn is_ip_over_ether(bytes: &[u8]) -> bool
    ensures { result ≡ is_ip_over_ether bytes.now }
{
    peek(bytes, 0, 16) == ETHERNET
        && peek(bytes, 32, 8) == ETHERNET_SIZE
        && peek(bytes, 16, 16) == IP4
        && peek(bytes, 40, 8) == IP4_SIZE
}
