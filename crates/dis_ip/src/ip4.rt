ghost use Rattle.std.specs.Prelude.{◌≡◌, ◌≢◌, ℕ, Bool as Truth, List, [], ◌∷◌, ◌+◌, ◌-◌, ◌<◌, ◌≤◌, ◌^◌, ◌||◌, false, true, length, nat_lt, IfOk, IfSome, OnOk, IsTrue};
ghost use Rattle.pk_base.specs.declared.heads.Mode.TheVariants.{Plain};
ghost use Rattle.pk_tree.specs.Buffers.{IsInside, bytes_of};
ghost use Rattle.pk_fields.specs.Ids.{IP};
ghost use Rattle.pk_tree.specs.Following.{LeadsInside};
ghost use Rattle.pk_tree.specs.Layouts.{layer_read, reach, StepsFit};
ghost use Rattle.pk_tree.specs.Tables.{steps_of};
ghost use Rattle.pk_tree.specs.Trees.{last_proto};
ghost use Rattle.pk_tree.specs.declared.layer.Layer.{Layer};
ghost use Rattle.dis_ip.specs.Fragments.{LastIsPart};
ghost use Rattle.dis_ip.specs.Ip4.{ip4_layout, ip4_header, ip4_total, ip4_more, ip4_offset, ip4_conditions, ip4_is_read, ip4_size, ip4_packet, ip4_part, ip4_carried, ip4_span, ip4_after};

use crate::fragment::part_after;
use crate::packet::{in_packet, is_whole, packet_span};
use crate::protocol::ports_next;
use pk_base::{Address, After, FragmentHead, Mode, Next, NoMemory, PacketHead, Span};
use pk_fields::ids;
use pk_tree::{
    Reach, Slot, TreeBuilder, behind, pass_known, pass_layer, peek, read_known, read_table,
};

/// The bytes of a header without options, the least that a header has.
const HEADER: u32 = 20;

const VERSION: u64 = 4;

static SLOTS: [Slot; 22] = [
    Slot::Row(ids::IP_VERSION.0, 0),
    Slot::Row(ids::IP_HDR_LEN.0, 0),
    Slot::Check(0),
    Slot::Check(1),
    Slot::Row(ids::IP_DSFIELD.0, 1),
    Slot::Row(ids::IP_DSFIELD_DSCP.0, 1),
    Slot::Row(ids::IP_DSFIELD_ECN.0, 1),
    Slot::Row(ids::IP_LEN.0, 2),
    Slot::Row(ids::IP_ID.0, 4),
    Slot::Row(ids::IP_FLAGS_RB.0, 6),
    Slot::Row(ids::IP_FLAGS_DF.0, 6),
    Slot::Row(ids::IP_FLAGS_MF.0, 6),
    Slot::Row(ids::IP_FRAG_OFFSET.0, 6),
    Slot::Row(ids::IP_TTL.0, 8),
    Slot::Row(ids::IP_PROTO.0, 9),
    Slot::Row(ids::IP_CHECKSUM.0, 10),
    Slot::Row(ids::IP_SRC.0, 12),
    Slot::Row(ids::IP_ADDR.0, 12),
    Slot::Row(ids::IP_DST.0, 16),
    Slot::Row(ids::IP_ADDR.0, 16),
    Slot::Part(ids::IP_OPTIONS.0, 20, 0),
    Slot::Check(2),
];

/// Reads an IPv4 header (RFC 791, 3.1). The total length ends the layer. A fragment is answered as such, but in an embedded
/// packet.
#[tactic(auto, using(crate::proofs::Whole::ip4_fits), unfolding(crate::specs::Ip4::ip4_span, crate::specs::Ip4::ip4_after, pk_tree::specs::Layouts::StepsFit, pk_fields::specs::Fields::row_of, pk_fields::specs::Table::rows))]
pub fn read_ip4(span: Span, cut: bool, mode: Mode, b: &mut TreeBuilder) -> Result<After, NoMemory>
    requires inside { IsInside b.old.buffers span }
    requires room { length b.old.layers + 2 < 2 ^ 32 }
    ensures layer { IfOk result (λ _.
        b.new ≡ layer_read b.old IP (ip4_span span (bytes_of b.old.buffers span))
        (ip4_layout (bytes_of b.old.buffers span)) mode cut) }
    ensures after { IfOk result (λ after.
        after ≡ ip4_after mode cut span (bytes_of b.old.buffers span)) }
    ensures inside { IfOk result (LeadsInside b.old.buffers) }
    ensures whole { IfOk result (λ after. after ≢ After.End → last_proto b.new.layers ≡ IP) }
    ensures part { IfOk result (LastIsPart b.new.layers) }
    ensures buffers { b.new.buffers ≡ b.old.buffers }
    ensures some { OnOk result (0 < length b.new.layers) }
    ensures most { OnOk result (length b.new.layers ≤ length b.old.layers + 2) }
{
    let bytes = b.bytes(span);
    let header = header(bytes);
    let total = total(bytes);
    let holds = conditions(bytes, header, total);
    let options = [header.saturating_sub(HEADER) as usize];
    let slots = ip4_slots();
    if !is_read(span, bytes, header, &holds) {
        read_table(b, ids::IP, span, slots, &holds, &options, &[], mode, cut)?;
        return Ok(After::End);
    }
    let size = size(total);
    let layer = packet_span(span, size);
    let packet = PacketHead {
        source: Address::Four(peek(bytes, 96, 32) as u32),
        target: Address::Four(peek(bytes, 128, 32) as u32),
        whole: is_whole(cut, span, size),
    };
    let after = carried(mode, packet, layer, header, bytes);
    if !b.asks(ids::IP) {
        pass_layer(b, ids::IP, layer, Reach::All, mode, cut)?;
        return Ok(after);
    }
    read_table(b, ids::IP, layer, slots, &holds, &options, &[], mode, cut)?;
    Ok(after)
}

/// A header that was read whole, of a packet that is no fragment.
#[derive(Clone, Copy)]
pub struct WholeIp4 {
    /// The packet, with its header.
    pub layer: Span,
    /// The header's bytes.
    pub header: u32,
    pub next: Next,
    /// The packet's bytes behind the header.
    pub inner: Span,
}

/// What follows a header that is read whole, of a packet that is no fragment and carries TCP or UDP.
#[inline(always)]
#[tactic(auto, using(crate::proofs::Whole::ip4_carries), unfolding(crate::specs::Ip4::ip4_span))]
pub fn behind_ip4(span: Span, bytes: &[u8]) -> Option<WholeIp4>
    requires bytes { length bytes.now ≡ span.len }
    requires end { span.start + span.len < 2 ^ 32 }
    ensures layer { IfSome result (λ ip. ip.layer ≡ ip4_span span bytes.now) }
    ensures header { IfSome result (λ ip. ip.header ≡ ip4_header bytes.now) }
    ensures least { IfSome result (λ ip. 20 ≤ ip.header) }
    ensures most { IfSome result (λ ip. ip.header < ip.layer.len) }
    ensures holds { IfSome result (λ _. ip4_conditions bytes.now ≡ true ∷ true ∷ true ∷ []) }
    ensures whole { IfSome result (λ ip. reach ip.layer.len (ip4_layout bytes.now) ≡ Reach.All) }
    ensures after { IfSome result (λ ip. (cut : Truth) → ip4_after Plain cut span bytes.now
        ≡ After.Packet ip.next ip.inner (ip4_packet cut span bytes.now)) }
    ensures inside { (buffers : List (List ℕ)) → IsInside buffers span
        → IfSome result (λ ip. IsInside buffers ip.layer × IsInside buffers ip.inner) }
{
    let header = header(bytes);
    let total = total(bytes);
    let holds = conditions(bytes, header, total);
    if !is_read(span, bytes, header, &holds) || is_part(bytes) {
        return None;
    }
    let layer = packet_span(span, size(total));
    if layer.len <= header {
        return None;
    }
    let next = ports_next(peek(bytes, 72, 8) as u8)?;
    Some(WholeIp4 {
        layer,
        header,
        next,
        inner: behind(layer, header),
    })
}

/// What the header of a packet says of it.
#[inline(always)]
pub fn head_of_ip4(span: Span, cut: bool, bytes: &[u8]) -> PacketHead
    ensures { result ≡ ip4_packet cut span bytes.now }
{
    PacketHead {
        source: Address::Four(peek(bytes, 96, 32) as u32),
        target: Address::Four(peek(bytes, 128, 32) as u32),
        whole: is_whole(cut, span, size(total(bytes))),
    }
}

/// Opens the layer of a header of so many bytes that is read whole, with the items that are wanted.
#[tactic(auto, using(crate::proofs::Whole::ip4_fits), unfolding(pk_tree::specs::Layouts::StepsFit, pk_fields::specs::Fields::row_of, pk_fields::specs::Table::rows))]
pub fn open_ip4(layer: Span, header: u32, b: &mut TreeBuilder) -> Result<(), NoMemory>
    requires inside { IsInside b.old.buffers layer }
    requires room { length b.old.layers + 1 < 2 ^ 32 }
    requires least { 20 ≤ header }
    requires whole { header ≤ layer.len }
    ensures layer { OnOk result ((bytes : List ℕ) (cut : Truth) → header ≡ ip4_header bytes
        → ip4_conditions bytes ≡ true ∷ true ∷ true ∷ []
        → reach layer.len (ip4_layout bytes) ≡ Reach.All
        → b.new ≡ layer_read b.old IP layer (ip4_layout bytes) Plain cut) }
    ensures buffers { b.new.buffers ≡ b.old.buffers }
    ensures count { OnOk result (length b.new.layers ≡ length b.old.layers + 1) }
{
    if !b.asks(ids::IP) {
        return pass_known(b, ids::IP, layer);
    }
    let options = [(header - HEADER) as usize];
    read_known(b, ids::IP, layer, ip4_slots(), &[true; 3], &options)
}

/// Whether a packet is a part of a datagram.
fn is_part(bytes: &[u8]) -> bool
    ensures { result ≡ (ip4_more bytes.now || nat_lt 0 (ip4_offset bytes.now)) }
{
    peek(bytes, 50, 1) == 1 || peek(bytes, 51, 13) > 0
}

/// The rows of a header, its options as one, and the conditions on it.
#[tactic(auto, unfolding(crate::specs::Ip4::ip4_layout, pk_tree::specs::Layouts::reach, pk_tree::specs::Layouts::step_reach, pk_tree::specs::Tables::steps_of, pk_tree::specs::Layouts::StepsFit, pk_fields::specs::Fields::row_of, pk_fields::specs::Table::rows))]
pub fn ip4_slots() -> &'static [Slot]
    ensures fits { (holds : List Truth) (sizes : List ℕ)
        → StepsFit IP (steps_of holds sizes result.now) }
    ensures whole { (end options : ℕ) → 20 ≤ end → 20 + options ≤ end
        → reach end (steps_of (true ∷ true ∷ true ∷ []) (options ∷ []) result.now) ≡ Reach.All }
    ensures layout { (bytes : List ℕ) → steps_of (ip4_conditions bytes)
        ((ip4_header bytes - 20) ∷ []) result.now ≡ ip4_layout bytes }
    ensures table { result.now ≡ SLOTS }
{
    &SLOTS
}

/// That it is of version 4, that the header has its least bytes, and that the packet has the
/// header's.
fn conditions(bytes: &[u8], header: u32, total: u32) -> [bool; 3]
    requires header { header ≡ ip4_header bytes.now }
    requires total { total ≡ ip4_total bytes.now }
    ensures { result ≡ ip4_conditions bytes.now }
{
    [
        peek(bytes, 0, 4) == VERSION,
        header >= HEADER,
        total == 0 || header <= total,
    ]
}

/// Whether no row and no condition ends the reading.
#[tactic(auto, unfolding(crate::specs::Ip4::ip4_layout, crate::specs::Ip4::ip4_span, pk_tree::specs::Layouts::reach, pk_tree::specs::Layouts::step_reach, pk_fields::specs::Fields::row_of, pk_fields::specs::Table::rows))]
fn is_read(span: Span, bytes: &[u8], header: u32, holds: &[bool; 3]) -> bool
    requires bytes { length bytes.now ≡ span.len }
    requires header { header ≡ ip4_header bytes.now }
    requires holds { holds.now ≡ ip4_conditions bytes.now }
    ensures read { result ≡ ip4_is_read span bytes.now }
    ensures holds { IsTrue result → holds.now ≡ true ∷ true ∷ true ∷ [] }
    ensures least { IsTrue result → 20 ≤ header }
    ensures header { IsTrue result → ip4_header bytes.now ≤ (ip4_span span bytes.now).len }
    ensures whole { IsTrue result
        → reach (ip4_span span bytes.now).len (ip4_layout bytes.now) ≡ Reach.All }
{
    holds[0] && holds[1] && header as usize <= bytes.len() && holds[2]
}

/// The header's bytes: it counts words of four.
fn header(bytes: &[u8]) -> u32
    ensures header { result ≡ ip4_header bytes.now }
    ensures bound { result ≤ 60 }
{
    4 * peek(bytes, 4, 4) as u32
}

/// The packet's bytes with its header, or 0.
fn total(bytes: &[u8]) -> u32
    ensures total { result ≡ ip4_total bytes.now }
    ensures bound { result < 2 ^ 16 }
{
    peek(bytes, 16, 16) as u32
}

/// The size that the total length gives a packet, if any.
fn size(total: u32) -> Option<u32>
    ensures { (bytes : List ℕ) → total ≡ ip4_total bytes → result ≡ ip4_size bytes }
{
    match total {
        0 => None,
        total => Some(total),
    }
}

/// What follows a header that is read.
#[tactic(auto, unfolding(crate::specs::Fragments::part_after))]
fn carried(mode: Mode, packet: PacketHead, layer: Span, header: u32, bytes: &[u8]) -> After
    requires end { layer.start + layer.len < 2 ^ 32 }
    requires header { header ≡ ip4_header bytes.now }
    requires inside { header ≤ layer.len }
    ensures after { result ≡ ip4_carried mode packet layer bytes.now }
    ensures inside { (buffers : List (List ℕ)) → IsInside buffers layer
        → LeadsInside buffers result }
    ensures part { (layers : List Layer) → last_proto layers ≡ IP → LastIsPart layers result }
{
    in_packet(
        packet,
        part_after(mode, part_of(packet, bytes), layer, header),
    )
}

/// The packet's place in a datagram.
fn part_of(packet: PacketHead, bytes: &[u8]) -> FragmentHead
    ensures { result ≡ ip4_part packet bytes.now }
{
    FragmentHead {
        six: false,
        source: packet.source,
        target: packet.target,
        next: peek(bytes, 72, 8) as u8,
        ident: peek(bytes, 32, 16) as u32,
        offset: 8 * peek(bytes, 51, 13) as u32,
        more: peek(bytes, 50, 1) == 1,
        whole: packet.whole,
    }
}
