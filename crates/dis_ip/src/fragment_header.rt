ghost use Rattle.std.specs.Prelude.{◌≡◌, ◌≢◌, ℕ, [], ◌+◌, ◌<◌, ◌≤◌, ◌^◌, length, IfOk, OnOk};
ghost use Rattle.pk_tree.specs.Buffers.{IsInside, bytes_of};
ghost use Rattle.pk_fields.specs.Ids.{IPV6_FRAGHDR};
ghost use Rattle.pk_tree.specs.Following.{LeadsInside};
ghost use Rattle.pk_tree.specs.Layouts.{layer_read, reach, StepsFit};
ghost use Rattle.pk_tree.specs.Tables.{steps_of};
ghost use Rattle.pk_tree.specs.Trees.{last_proto};
ghost use Rattle.dis_ip.specs.Fragments.{LastIsPart};
ghost use Rattle.dis_ip.specs.FragmentHeader.{fragment_layout, fragment_part, fragment_after};

use crate::fragment::part_after;
use crate::sized::next_header;
use pk_base::{After, FragmentHead, Mode, NoMemory, PacketHead, Span};
use pk_fields::ids;
use pk_tree::{Reach, Slot, TreeBuilder, pass_layer, peek, read_table};

/// The bytes of a header.
const HEADER: u32 = 8;

static SLOTS: [Slot; 4] = [
    Slot::Row(ids::IPV6_FRAGHDR_NXT.0, 0),
    Slot::Row(ids::IPV6_FRAGHDR_OFFSET.0, 2),
    Slot::Row(ids::IPV6_FRAGHDR_MORE.0, 3),
    Slot::Row(ids::IPV6_FRAGHDR_IDENT.0, 4),
];

/// Reads a fragment header (RFC 8200, 4.5). Where it says that its packet is all of the datagram, the chain goes on.
#[tactic(auto, using(crate::proofs::Whole::fragment_whole, crate::proofs::Whole::fragment_fits), unfolding(crate::specs::FragmentHeader::fragment_after, pk_tree::specs::Layouts::StepsFit, pk_fields::specs::Fields::row_of, pk_fields::specs::Table::rows))]
pub(crate) fn read_fragment_header(
    packet: &PacketHead,
    span: Span,
    cut: bool,
    mode: Mode,
    b: &mut TreeBuilder,
) -> Result<After, NoMemory>
    requires inside { IsInside b.old.buffers span }
    requires room { length b.old.layers + 2 < 2 ^ 32 }
    ensures layer { IfOk result (λ _.
        b.new ≡ layer_read b.old IPV6_FRAGHDR span fragment_layout mode cut) }
    ensures after { IfOk result (λ after.
        after ≡ fragment_after mode packet.now span (bytes_of b.old.buffers span)) }
    ensures inside { IfOk result (LeadsInside b.old.buffers) }
    ensures whole { IfOk result (λ after. after ≢ After.End
        → last_proto b.new.layers ≡ IPV6_FRAGHDR) }
    ensures part { IfOk result (LastIsPart b.new.layers) }
    ensures buffers { b.new.buffers ≡ b.old.buffers }
    ensures some { OnOk result (0 < length b.new.layers) }
    ensures most { OnOk result (length b.new.layers ≤ length b.old.layers + 2) }
{
    if span.len < HEADER {
        let slots = fragment_slots();
        read_table(b, ids::IPV6_FRAGHDR, span, slots, &[], &[], &[], mode, cut)?;
        return Ok(After::End);
    }
    let part = part_of(packet, b.bytes(span));
    let after = part_after(mode, part, span, HEADER);
    if !b.asks(ids::IPV6_FRAGHDR) {
        pass_layer(b, ids::IPV6_FRAGHDR, span, Reach::All, mode, cut)?;
        return Ok(after);
    }
    let slots = fragment_slots();
    read_table(b, ids::IPV6_FRAGHDR, span, slots, &[], &[], &[], mode, cut)?;
    Ok(after)
}

#[tactic(auto, unfolding(crate::specs::FragmentHeader::fragment_layout, pk_tree::specs::Tables::steps_of, pk_tree::specs::Layouts::reach, pk_tree::specs::Layouts::step_reach, pk_tree::specs::Layouts::StepsFit, pk_fields::specs::Fields::row_of, pk_fields::specs::Table::rows))]
fn fragment_slots() -> &'static [Slot]
    ensures fits { StepsFit IPV6_FRAGHDR (steps_of [] [] result.now) }
    ensures layout { steps_of [] [] result.now ≡ fragment_layout }
    ensures whole { (end : ℕ) → 8 ≤ end → reach end (steps_of [] [] result.now) ≡ Reach.All }
{
    &SLOTS
}

/// The fragment's place in a datagram, with the addresses of its packet.
fn part_of(packet: &PacketHead, bytes: &[u8]) -> FragmentHead
    ensures { result ≡ fragment_part packet.now bytes.now }
{
    FragmentHead {
        six: true,
        source: packet.source,
        target: packet.target,
        next: next_header(bytes),
        ident: peek(bytes, 32, 32) as u32,
        offset: 8 * peek(bytes, 16, 13) as u32,
        more: peek(bytes, 31, 1) == 1,
        whole: packet.whole,
    }
}
