ghost use Rattle.std.specs.Prelude.{◌≡◌, ◌≢◌, ℕ, Bool as Truth, List, [], ◌+◌, ◌<◌, ◌≤◌, ◌^◌, false, if◌then◌else◌, length, IfOk, IfSome, OnOk};
ghost use Rattle.pk_tree.specs.Buffers.{IsInside, bytes_of};
ghost use Rattle.pk_fields.specs.Ids.{ETH};
ghost use Rattle.pk_base.specs.declared.heads.Mode.TheVariants.{Plain};
ghost use Rattle.pk_tree.specs.Following.{LeadsInside};
ghost use Rattle.pk_tree.specs.Layouts.{layer_read, reach, StepsFit};
ghost use Rattle.pk_tree.specs.Tables.{steps_of};
ghost use Rattle.pk_tree.specs.Trees.{last_proto};
ghost use Rattle.dis_link.specs.EtherTypes.{is_length};
ghost use Rattle.dis_link.specs.Ethernet.{eth_layout, eth_span, eth_after, eth_type};

use crate::ether_type::{ended, is_length, next_of_type};
use pk_base::{After, Mode, Next, NoMemory, Span};
use pk_fields::ids;
use pk_tree::{
    Reach, Slot, TreeBuilder, behind, carried, pass_known, pass_layer, peek, read_known, read_table,
};

/// The bytes of an Ethernet header.
const HEADER: u32 = 14;

static TYPED: [Slot; 5] = [
    Slot::Row(ids::ETH_DST.0, 0),
    Slot::Row(ids::ETH_ADDR.0, 0),
    Slot::Row(ids::ETH_SRC.0, 6),
    Slot::Row(ids::ETH_ADDR.0, 6),
    Slot::Row(ids::ETH_TYPE.0, 12),
];

static SIZED: [Slot; 5] = [
    Slot::Row(ids::ETH_DST.0, 0),
    Slot::Row(ids::ETH_ADDR.0, 0),
    Slot::Row(ids::ETH_SRC.0, 6),
    Slot::Row(ids::ETH_ADDR.0, 6),
    Slot::Row(ids::ETH_LEN.0, 12),
];

/// Reads an Ethernet header (IEEE 802.3, 3.1.1). A length in it ends the layer.
#[tactic(auto, using(crate::proofs::Whole::eth_whole, crate::proofs::Whole::eth_fits), unfolding(crate::specs::Ethernet::eth_after, pk_tree::specs::Layouts::StepsFit, pk_fields::specs::Fields::row_of, pk_fields::specs::Table::rows))]
pub(crate) fn read_ethernet(span: Span, cut: bool, b: &mut TreeBuilder) -> Result<After, NoMemory>
    requires inside { IsInside b.old.buffers span }
    requires room { length b.old.layers + 2 < 2 ^ 32 }
    ensures layer { IfOk result (λ _.
        b.new ≡ layer_read b.old ETH (eth_span span (bytes_of b.old.buffers span))
        (eth_layout (bytes_of b.old.buffers span)) Plain cut) }
    ensures after { IfOk result (λ after. after ≡ eth_after span (bytes_of b.old.buffers span)) }
    ensures inside { IfOk result (LeadsInside b.old.buffers) }
    ensures whole { IfOk result (λ after. after ≢ After.End → last_proto b.new.layers ≡ ETH) }
    ensures buffers { b.new.buffers ≡ b.old.buffers }
    ensures most { OnOk result (length b.new.layers ≤ length b.old.layers + 2) }
{
    let number = peek(b.bytes(span), 96, 16);
    let layer = ended(span, HEADER, number);
    if !b.asks(ids::ETH) && layer.len >= HEADER {
        pass_layer(b, ids::ETH, layer, Reach::All, Mode::Plain, cut)?;
        return Ok(carried(next_of_type(number), layer, HEADER));
    }
    let slots = eth_slots(is_length(number));
    read_table(b, ids::ETH, layer, slots, &[], &[], &[], Mode::Plain, cut)?;
    Ok(carried(next_of_type(number), layer, HEADER))
}

/// What follows a header that is read whole and names a type.
#[inline(always)]
#[tactic(auto, unfolding(crate::specs::Ethernet::eth_after, crate::specs::EtherTypes::ended))]
pub fn behind_ethernet(span: Span, bytes: &[u8]) -> Option<(Next, Span)>
    requires end { span.start + span.len < 2 ^ 32 }
    ensures whole { IfSome result (λ _. 14 ≤ span.len) }
    ensures typed { IfSome result (λ _. is_length (eth_type bytes.now) ≡ false) }
    ensures after { IfSome result (λ way. eth_after span bytes.now ≡ After.Next way.0 way.1) }
    ensures inside { (buffers : List (List ℕ)) → IsInside buffers span
        → IfSome result (λ way. IsInside buffers way.1) }
{
    let number = peek(bytes, 96, 16);
    if is_length(number) || span.len <= HEADER {
        return None;
    }
    Some((next_of_type(number), behind(span, HEADER)))
}

/// Opens the layer of a header that is read whole and names a type, with the items that are wanted.
#[tactic(auto, using(crate::proofs::Whole::eth_whole, crate::proofs::Whole::eth_fits), unfolding(pk_tree::specs::Layouts::StepsFit, pk_fields::specs::Fields::row_of, pk_fields::specs::Table::rows))]
pub fn open_ethernet(span: Span, b: &mut TreeBuilder) -> Result<(), NoMemory>
    requires inside { IsInside b.old.buffers span }
    requires room { length b.old.layers + 1 < 2 ^ 32 }
    requires whole { 14 ≤ span.len }
    ensures layer { OnOk result ((bytes : List ℕ) (cut : Truth)
        → is_length (eth_type bytes) ≡ false
        → b.new ≡ layer_read b.old ETH span (eth_layout bytes) Plain cut) }
    ensures buffers { b.new.buffers ≡ b.old.buffers }
    ensures count { OnOk result (length b.new.layers ≡ length b.old.layers + 1) }
{
    if !b.asks(ids::ETH) {
        return pass_known(b, ids::ETH, span);
    }
    read_known(b, ids::ETH, span, eth_slots(false), &[], &[])
}

/// The rows of a header whose last number is a length, or is a type.
#[tactic(auto, unfolding(crate::specs::Ethernet::eth_layout, pk_tree::specs::Tables::steps_of, pk_tree::specs::Layouts::reach, pk_tree::specs::Layouts::step_reach, pk_tree::specs::Layouts::StepsFit, pk_fields::specs::Fields::row_of, pk_fields::specs::Table::rows))]
pub fn eth_slots(sized: bool) -> &'static [Slot]
    ensures fits { (holds : List Truth) (sizes : List ℕ)
        → StepsFit ETH (steps_of holds sizes result.now) }
    ensures layout { (holds : List Truth) (sizes bytes : List ℕ)
        → sized ≡ is_length (eth_type bytes)
        → steps_of holds sizes result.now ≡ eth_layout bytes }
    ensures whole { (holds : List Truth) (sizes : List ℕ) (end : ℕ) → 14 ≤ end
        → reach end (steps_of holds sizes result.now) ≡ Reach.All }
    ensures table { result.now ≡ (if sized then SIZED else TYPED) }
{
    if sized { &SIZED } else { &TYPED }
}
