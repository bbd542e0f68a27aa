ghost use Rattle.std.specs.Prelude.{◌≡◌, ◌≢◌, ℕ, List, [], ◌∷◌, Bool as Truth, min, nat_le, ◌+◌, ◌<◌, ◌≤◌, ◌^◌, length, IfOk, OnOk};
ghost use Rattle.pk_tree.specs.Buffers.{IsInside, bytes_of};
ghost use Rattle.pk_fields.specs.Ids.{SLL, SLL2};
ghost use Rattle.pk_base.specs.declared.heads.Mode.TheVariants.{Plain};
ghost use Rattle.pk_tree.specs.Following.{LeadsInside};
ghost use Rattle.pk_tree.specs.Layouts.{layer_read, peeked, reach, StepsFit};
ghost use Rattle.pk_tree.specs.Tables.{steps_of};
ghost use Rattle.pk_tree.specs.Trees.{last_proto};
ghost use Rattle.dis_link.specs.LinuxCooked.{sll_layout, sll_after, sll2_layout, sll2_after};

use crate::ether_type::next_of_type;
use pk_base::{After, Mode, NoMemory, Span};
use pk_fields::ids;
use pk_tree::{Reach, Slot, TreeBuilder, carried, pass_layer, peek, read_table};

/// The bytes of a header of the first version.
const HEADER: u32 = 16;
/// The bytes of a header of the second version.
const HEADER_2: u32 = 20;
/// The bytes that an address has in either header, however long it is.
const ADDRESS: usize = 8;

static ROWS: [Slot; 5] = [
    Slot::Row(ids::SLL_PKTTYPE.0, 0),
    Slot::Row(ids::SLL_HATYPE.0, 2),
    Slot::Row(ids::SLL_HALEN.0, 4),
    Slot::Part(ids::SLL_SRC.0, 6, 0),
    Slot::Row(ids::SLL_ETYPE.0, 14),
];

static ROWS_2: [Slot; 7] = [
    Slot::Row(ids::SLL2_ETYPE.0, 0),
    Slot::Row(ids::SLL2_IFINDEX.0, 4),
    Slot::Row(ids::SLL2_HATYPE.0, 8),
    Slot::Row(ids::SLL2_PKTTYPE.0, 10),
    Slot::Row(ids::SLL2_HALEN.0, 11),
    Slot::Part(ids::SLL2_SRC.0, 12, 0),
    Slot::Room(0),
];

/// Reads a header of a cooked capture (LINKTYPE_LINUX_SLL).
#[tactic(auto, using(crate::proofs::Whole::sll_whole, crate::proofs::Whole::sll_fits), unfolding(crate::specs::LinuxCooked::sll_after, pk_tree::specs::Layouts::StepsFit, pk_fields::specs::Fields::row_of, pk_fields::specs::Table::rows))]
pub(crate) fn read_sll(span: Span, cut: bool, b: &mut TreeBuilder) -> Result<After, NoMemory>
    requires inside { IsInside b.old.buffers span }
    requires room { length b.old.layers + 2 < 2 ^ 32 }
    ensures layer { IfOk result (λ _.
        b.new ≡ layer_read b.old SLL span (sll_layout (bytes_of b.old.buffers span)) Plain cut) }
    ensures after { IfOk result (λ after. after ≡ sll_after span (bytes_of b.old.buffers span)) }
    ensures inside { IfOk result (LeadsInside b.old.buffers) }
    ensures whole { IfOk result (λ after. after ≢ After.End → last_proto b.new.layers ≡ SLL) }
    ensures buffers { b.new.buffers ≡ b.old.buffers }
    ensures most { OnOk result (length b.new.layers ≤ length b.old.layers + 2) }
{
    let next = next_of_type(peek(b.bytes(span), 112, 16));
    if !b.asks(ids::SLL) && span.len >= HEADER {
        pass_layer(b, ids::SLL, span, Reach::All, Mode::Plain, cut)?;
        return Ok(carried(next, span, HEADER));
    }
    let sizes = [(peek(b.bytes(span), 32, 16) as usize).min(ADDRESS)];
    let slots = sll_slots();
    read_table(b, ids::SLL, span, slots, &[], &sizes, &[], Mode::Plain, cut)?;
    Ok(carried(next, span, HEADER))
}

#[tactic(auto, unfolding(crate::specs::LinuxCooked::sll_layout, pk_tree::specs::Tables::steps_of, pk_tree::specs::Layouts::reach, pk_tree::specs::Layouts::step_reach, pk_tree::specs::Layouts::StepsFit, pk_fields::specs::Fields::row_of, pk_fields::specs::Table::rows))]
fn sll_slots() -> &'static [Slot]
    ensures fits { (sizes : List ℕ) → StepsFit SLL (steps_of [] sizes result.now) }
    ensures layout { (bytes : List ℕ)
        → steps_of [] (min (peeked bytes 32 16) 8 ∷ []) result.now ≡ sll_layout bytes }
    ensures whole { (size end : ℕ) → size ≤ 8 → 16 ≤ end
        → reach end (steps_of [] (size ∷ []) result.now) ≡ Reach.All }
{
    &ROWS
}

/// Reads a header of a cooked capture of the second version (LINKTYPE_LINUX_SLL2).
#[tactic(auto, using(crate::proofs::Whole::sll2_whole, crate::proofs::Whole::sll2_fits), unfolding(crate::specs::LinuxCooked::sll2_after, pk_tree::specs::Layouts::StepsFit, pk_fields::specs::Fields::row_of, pk_fields::specs::Table::rows))]
pub(crate) fn read_sll2(span: Span, cut: bool, b: &mut TreeBuilder) -> Result<After, NoMemory>
    requires inside { IsInside b.old.buffers span }
    requires room { length b.old.layers + 2 < 2 ^ 32 }
    ensures layer { IfOk result (λ _.
        b.new ≡ layer_read b.old SLL2 span (sll2_layout (bytes_of b.old.buffers span)) Plain cut) }
    ensures after { IfOk result (λ after. after ≡ sll2_after span (bytes_of b.old.buffers span)) }
    ensures inside { IfOk result (LeadsInside b.old.buffers) }
    ensures whole { IfOk result (λ after. after ≢ After.End → last_proto b.new.layers ≡ SLL2) }
    ensures buffers { b.new.buffers ≡ b.old.buffers }
    ensures most { OnOk result (length b.new.layers ≤ length b.old.layers + 2) }
{
    let next = next_of_type(peek(b.bytes(span), 0, 16));
    if !b.asks(ids::SLL2) && span.len >= HEADER_2 {
        pass_layer(b, ids::SLL2, span, Reach::All, Mode::Plain, cut)?;
        return Ok(carried(next, span, HEADER_2));
    }
    let sizes = [(peek(b.bytes(span), 88, 8) as usize).min(ADDRESS)];
    let holds = [HEADER_2 <= span.len];
    let slots = sll2_slots();
    read_table(
        b,
        ids::SLL2,
        span,
        slots,
        &holds,
        &sizes,
        &[],
        Mode::Plain,
        cut,
    )?;
    Ok(carried(next, span, HEADER_2))
}

#[tactic(auto, unfolding(crate::specs::LinuxCooked::sll2_layout, pk_tree::specs::Tables::steps_of, pk_tree::specs::Layouts::reach, pk_tree::specs::Layouts::step_reach, pk_tree::specs::Layouts::StepsFit, pk_fields::specs::Fields::row_of, pk_fields::specs::Table::rows))]
fn sll2_slots() -> &'static [Slot]
    ensures fits { (holds : List Truth) (sizes : List ℕ)
        → StepsFit SLL2 (steps_of holds sizes result.now) }
    ensures layout { (bytes : List ℕ) → steps_of (nat_le 20 (length bytes) ∷ [])
        (min (peeked bytes 88 8) 8 ∷ []) result.now ≡ sll2_layout bytes }
    ensures whole { (size end : ℕ) → size ≤ 8 → 20 ≤ end
        → reach end (steps_of (nat_le 20 end ∷ []) (size ∷ []) result.now) ≡ Reach.All }
{
    &ROWS_2
}
