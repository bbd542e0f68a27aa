ghost use Rattle.std.specs.Prelude.{◌≡◌, ◌≢◌, ◌==◌, ℕ, Bool as Truth, List, [], ◌∷◌, ◌+◌, ◌*◌, ◌<◌, ◌≤◌, ◌^◌, true, length, IfOk, IfSome, OnOk, IsTrue};
ghost use Rattle.pk_tree.specs.Buffers.{IsInside, bytes_of};
ghost use Rattle.pk_fields.specs.Ids.{IPV6};
ghost use Rattle.pk_tree.specs.Following.{LeadsInside};
ghost use Rattle.pk_tree.specs.Layouts.{layer_read, peeked, reach, StepsFit};
ghost use Rattle.pk_tree.specs.Tables.{steps_of};
ghost use Rattle.pk_tree.specs.Trees.{last_proto};
ghost use Rattle.dis_ip.specs.Fragments.{LastIsPart};
ghost use Rattle.dis_ip.specs.Ip6.{ip6_layout, ip6_version, ip6_is_read, ip6_size, ip6_packet, ip6_span, ip6_after};

use crate::packet::{in_packet, is_whole, packet_span};
use crate::protocol::{carried_by, ports_next};
use pk_base::{Address, After, Mode, Next, NoMemory, PacketHead, Span, be_bits};
use pk_fields::ids;
use pk_tree::{Reach, Slot, TreeBuilder, behind, pass_layer, peek, read_table};

/// The bytes of a header.
const HEADER: u32 = 40;

const VERSION: u64 = 6;

static SLOTS: [Slot; 11] = [
    Slot::Row(ids::IPV6_VERSION.0, 0),
    Slot::Check(0),
    Slot::Row(ids::IPV6_TCLASS.0, 0),
    Slot::Row(ids::IPV6_FLOW.0, 1),
    Slot::Row(ids::IPV6_PLEN.0, 4),
    Slot::Row(ids::IPV6_NXT.0, 6),
    Slot::Row(ids::IPV6_HLIM.0, 7),
    Slot::Row(ids::IPV6_SRC.0, 8),
    Slot::Row(ids::IPV6_ADDR.0, 8),
    Slot::Row(ids::IPV6_DST.0, 24),
    Slot::Row(ids::IPV6_ADDR.0, 24),
];

/// Reads an IPv6 header (RFC 8200, 3). The payload length ends the layer.
#[tactic(auto, using(crate::proofs::Whole::ip6_fits), unfolding(crate::specs::Ip6::ip6_span, crate::specs::Ip6::ip6_after, pk_tree::specs::Layouts::StepsFit, pk_fields::specs::Fields::row_of, pk_fields::specs::Table::rows))]
pub fn read_ip6(span: Span, cut: bool, mode: Mode, b: &mut TreeBuilder) -> Result<After, NoMemory>
    requires inside { IsInside b.old.buffers span }
    requires room { length b.old.layers + 2 < 2 ^ 32 }
    ensures layer { IfOk result (λ _.
        b.new ≡ layer_read b.old IPV6 (ip6_span span (bytes_of b.old.buffers span))
        (ip6_layout (bytes_of b.old.buffers span)) mode cut) }
    ensures after { IfOk result (λ after.
        after ≡ ip6_after cut span (bytes_of b.old.buffers span)) }
    ensures inside { IfOk result (LeadsInside b.old.buffers) }
    ensures whole { IfOk result (λ after. after ≢ After.End → last_proto b.new.layers ≡ IPV6) }
    ensures part { IfOk result (LastIsPart b.new.layers) }
    ensures buffers { b.new.buffers ≡ b.old.buffers }
    ensures some { OnOk result (0 < length b.new.layers) }
    ensures most { OnOk result (length b.new.layers ≤ length b.old.layers + 2) }
{
    let bytes = b.bytes(span);
    let holds = [peek(bytes, 0, 4) == VERSION];
    let slots = ip6_slots();
    if !is_read(span, bytes, holds[0]) {
        read_table(b, ids::IPV6, span, slots, &holds, &[], &[], mode, cut)?;
        return Ok(After::End);
    }
    let size = size(bytes);
    let layer = packet_span(span, size);
    let packet = PacketHead {
        source: Address::Six(address(bytes, 64)),
        target: Address::Six(address(bytes, 192)),
        whole: is_whole(cut, span, size),
    };
    let next = peek(bytes, 48, 8) as u8;
    let after = in_packet(packet, carried_by(true, next, layer, HEADER));
    if !b.asks(ids::IPV6) {
        pass_layer(b, ids::IPV6, layer, Reach::All, mode, cut)?;
        return Ok(after);
    }
    read_table(b, ids::IPV6, layer, slots, &holds, &[], &[], mode, cut)?;
    Ok(after)
}

/// A header that was read whole, before TCP or UDP.
#[derive(Clone, Copy)]
pub struct WholeIp6 {
    /// The packet, with its header.
    pub layer: Span,
    pub next: Next,
    /// The packet's bytes behind the header.
    pub inner: Span,
}

/// What follows a header that is read whole and names TCP or UDP.
#[inline(always)]
#[tactic(auto, using(crate::proofs::Whole::ip6_carries), unfolding(crate::specs::Ip6::ip6_span))]
pub fn behind_ip6(span: Span, bytes: &[u8]) -> Option<WholeIp6>
    requires bytes { length bytes.now ≡ span.len }
    requires end { span.start + span.len < 2 ^ 32 }
    ensures layer { IfSome result (λ ip. ip.layer ≡ ip6_span span bytes.now) }
    ensures most { IfSome result (λ ip. 40 < ip.layer.len) }
    ensures there { IfSome result (λ _. 40 ≤ length bytes.now) }
    ensures version { IfSome result (λ _. (ip6_version bytes.now == 6) ≡ true) }
    ensures whole { IfSome result (λ ip. reach ip.layer.len (ip6_layout bytes.now) ≡ Reach.All) }
    ensures after { IfSome result (λ ip. (cut : Truth) → ip6_after cut span bytes.now
        ≡ After.Packet ip.next ip.inner (ip6_packet cut span bytes.now)) }
    ensures inside { (buffers : List (List ℕ)) → IsInside buffers span
        → IfSome result (λ ip. IsInside buffers ip.layer × IsInside buffers ip.inner) }
{
    if !is_read(span, bytes, peek(bytes, 0, 4) == VERSION) {
        return None;
    }
    let layer = packet_span(span, size(bytes));
    if layer.len <= HEADER {
        return None;
    }
    let next = ports_next(peek(bytes, 48, 8) as u8)?;
    Some(WholeIp6 {
        layer,
        next,
        inner: behind(layer, HEADER),
    })
}

/// What the header of a packet, whose bytes must be there, says of it.
#[inline(always)]
pub fn head_of_ip6(span: Span, cut: bool, bytes: &[u8]) -> PacketHead
    requires there { 40 ≤ length bytes.now }
    ensures { result ≡ ip6_packet cut span bytes.now }
{
    PacketHead {
        source: Address::Six(address(bytes, 64)),
        target: Address::Six(address(bytes, 192)),
        whole: is_whole(cut, span, size(bytes)),
    }
}

/// The rows of a header, and the condition on its version.
#[tactic(auto, unfolding(crate::specs::Ip6::ip6_layout, pk_tree::specs::Tables::steps_of, pk_tree::specs::Layouts::reach, pk_tree::specs::Layouts::step_reach, pk_tree::specs::Layouts::StepsFit, pk_fields::specs::Fields::row_of, pk_fields::specs::Table::rows))]
pub fn ip6_slots() -> &'static [Slot]
    ensures fits { (holds : List Truth) (sizes : List ℕ)
        → StepsFit IPV6 (steps_of holds sizes result.now) }
    ensures layout { (sizes bytes : List ℕ)
        → steps_of ((ip6_version bytes == 6) ∷ []) sizes result.now ≡ ip6_layout bytes }
    ensures whole { (sizes : List ℕ) (end : ℕ) → 40 ≤ end
        → reach end (steps_of (true ∷ []) sizes result.now) ≡ Reach.All }
    ensures table { result.now ≡ SLOTS }
{
    &SLOTS
}

/// Whether no row and no condition ends the reading.
#[tactic(auto, unfolding(crate::specs::Ip6::ip6_layout, crate::specs::Ip6::ip6_span, pk_tree::specs::Layouts::reach, pk_tree::specs::Layouts::step_reach, pk_fields::specs::Fields::row_of, pk_fields::specs::Table::rows))]
fn is_read(span: Span, bytes: &[u8], six: bool) -> bool
    requires bytes { length bytes.now ≡ span.len }
    requires six { six ≡ (ip6_version bytes.now == 6) }
    ensures read { result ≡ ip6_is_read span bytes.now }
    ensures whole { IsTrue result
        → reach (ip6_span span bytes.now).len (ip6_layout bytes.now) ≡ Reach.All }
    ensures header { IsTrue result → 40 ≤ length bytes.now }
    ensures version { IsTrue result → six ≡ true }
{
    bytes.len() >= HEADER as usize && six
}

/// The packet's bytes with its header, where its payload length names them.
fn size(bytes: &[u8]) -> Option<u32>
    ensures { result ≡ ip6_size bytes.now }
{
    match peek(bytes, 32, 16) as u32 {
        0 => None,
        payload => Some(HEADER + payload),
    }
}

/// The number of an address, whose bytes must be there.
fn address(bytes: &[u8], first_bit: usize) -> u128
    requires inside { first_bit + 128 ≤ 8 * length bytes.now }
    requires small { first_bit < 2 ^ 16 }
    ensures { result ≡ peeked bytes.now first_bit 128 }
{
    (u128::from(be_bits(bytes, first_bit, 64)) << 64)
        + u128::from(be_bits(bytes, first_bit + 64, 64))
}
