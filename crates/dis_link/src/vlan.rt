ghost use Rattle.std.specs.Prelude.{◌≡◌, ◌≢◌, ℕ, Bool as Truth, List, [], ◌+◌, ◌<◌, ◌≤◌, ◌^◌, false, if◌then◌else◌, length, IfOk, IfSome, OnOk};
ghost use Rattle.pk_tree.specs.Buffers.{IsInside, bytes_of};
ghost use Rattle.pk_fields.specs.Ids.{VLAN};
ghost use Rattle.pk_tree.specs.Following.{LeadsInside};
ghost use Rattle.pk_tree.specs.Layouts.{layer_read, reach, StepsFit};
ghost use Rattle.pk_tree.specs.Tables.{steps_of};
ghost use Rattle.pk_tree.specs.Trees.{last_proto};
ghost use Rattle.dis_link.specs.EtherTypes.{is_length};
ghost use Rattle.dis_link.specs.Vlan.{vlan_layout, vlan_span, vlan_after, vlan_type};

use crate::ether_type::{ended, is_length, next_of_type};
use pk_base::{After, Mode, Next, NoMemory, Span};
use pk_fields::ids;
use pk_tree::{Reach, Slot, TreeBuilder, behind, carried, pass_layer, peek, read_table};

/// The bytes of a VLAN tag, without the type before it and with the one behind it.
const HEADER: u32 = 4;

static TYPED: [Slot; 4] = [
    Slot::Row(ids::VLAN_PRIORITY.0, 0),
    Slot::Row(ids::VLAN_DEI.0, 0),
    Slot::Row(ids::VLAN_ID.0, 0),
    Slot::Row(ids::VLAN_ETYPE.0, 2),
];

static SIZED: [Slot; 4] = [
    Slot::Row(ids::VLAN_PRIORITY.0, 0),
    Slot::Row(ids::VLAN_DEI.0, 0),
    Slot::Row(ids::VLAN_ID.0, 0),
    Slot::Row(ids::VLAN_LEN.0, 2),
];

/// Reads a VLAN tag (IEEE 802.1Q, 9.3). A length behind it ends the layer.
#[tactic(auto, using(crate::proofs::Whole::vlan_whole, crate::proofs::Whole::vlan_fits), unfolding(crate::specs::Vlan::vlan_after, pk_tree::specs::Layouts::StepsFit, pk_fields::specs::Fields::row_of, pk_fields::specs::Table::rows))]
pub fn read_vlan(span: Span, cut: bool, mode: Mode, b: &mut TreeBuilder) -> Result<After, NoMemory>
    requires inside { IsInside b.old.buffers span }
    requires room { length b.old.layers + 2 < 2 ^ 32 }
    ensures layer { IfOk result (λ _.
        b.new ≡ layer_read b.old VLAN (vlan_span span (bytes_of b.old.buffers span))
        (vlan_layout (bytes_of b.old.buffers span)) mode cut) }
    ensures after { IfOk result (λ after. after ≡ vlan_after span (bytes_of b.old.buffers span)) }
    ensures inside { IfOk result (LeadsInside b.old.buffers) }
    ensures whole { IfOk result (λ after. after ≢ After.End → last_proto b.new.layers ≡ VLAN) }
    ensures buffers { b.new.buffers ≡ b.old.buffers }
    ensures most { OnOk result (length b.new.layers ≤ length b.old.layers + 2) }
{
    let number = peek(b.bytes(span), 16, 16);
    let layer = ended(span, HEADER, number);
    if !b.asks(ids::VLAN) && layer.len >= HEADER {
        pass_layer(b, ids::VLAN, layer, Reach::All, mode, cut)?;
        return Ok(carried(next_of_type(number), layer, HEADER));
    }
    let slots = vlan_slots(is_length(number));
    read_table(b, ids::VLAN, layer, slots, &[], &[], &[], mode, cut)?;
    Ok(carried(next_of_type(number), layer, HEADER))
}

/// What follows a tag that is read whole and names a type.
#[inline(always)]
#[tactic(auto, unfolding(crate::specs::Vlan::vlan_after, crate::specs::EtherTypes::ended))]
pub fn behind_vlan(span: Span, bytes: &[u8]) -> Option<(Next, Span)>
    requires end { span.start + span.len < 2 ^ 32 }
    ensures whole { IfSome result (λ _. 4 ≤ span.len) }
    ensures typed { IfSome result (λ _. is_length (vlan_type bytes.now) ≡ false) }
    ensures after { IfSome result (λ way. vlan_after span bytes.now ≡ After.Next way.0 way.1) }
    ensures inside { (buffers : List (List ℕ)) → IsInside buffers span
        → IfSome result (λ way. IsInside buffers way.1) }
{
    let number = peek(bytes, 16, 16);
    if is_length(number) || span.len <= HEADER {
        return None;
    }
    Some((next_of_type(number), behind(span, HEADER)))
}

/// The rows of a tag before a length, or before a type.
#[tactic(auto, unfolding(crate::specs::Vlan::vlan_layout, pk_tree::specs::Tables::steps_of, pk_tree::specs::Layouts::reach, pk_tree::specs::Layouts::step_reach, pk_tree::specs::Layouts::StepsFit, pk_fields::specs::Fields::row_of, pk_fields::specs::Table::rows))]
pub fn vlan_slots(sized: bool) -> &'static [Slot]
    ensures fits { (holds : List Truth) (sizes : List ℕ)
        → StepsFit VLAN (steps_of holds sizes result.now) }
    ensures layout { (holds : List Truth) (sizes bytes : List ℕ)
        → sized ≡ is_length (vlan_type bytes)
        → steps_of holds sizes result.now ≡ vlan_layout bytes }
    ensures whole { (holds : List Truth) (sizes : List ℕ) (end : ℕ) → 4 ≤ end
        → reach end (steps_of holds sizes result.now) ≡ Reach.All }
    ensures table { result.now ≡ (if sized then SIZED else TYPED) }
{
    if sized { &SIZED } else { &TYPED }
}
