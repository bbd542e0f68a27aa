ghost use Rattle.std.specs.Prelude.{◌≡◌, ◌≢◌, ℕ, List, [], ◌+◌, ◌<◌, ◌≤◌, ◌^◌, length, IfOk, OnOk};
ghost use Rattle.pk_tree.specs.Buffers.{IsInside};
ghost use Rattle.pk_fields.specs.Ids.{IGMP};
ghost use Rattle.pk_tree.specs.Following.{LeadsInside};
ghost use Rattle.pk_tree.specs.Layouts.{layer_read, reach, StepsFit};
ghost use Rattle.pk_tree.specs.Tables.{steps_of};
ghost use Rattle.pk_tree.specs.Trees.{last_proto};
ghost use Rattle.dis_icmp.specs.Igmp.{igmp_after, igmp_layout};

use pk_base::{After, Mode, Next, NoMemory, Span};
use pk_fields::ids;
use pk_tree::{Reach, Slot, TreeBuilder, carried, pass_layer, read_table};

/// The bytes of a message.
const MESSAGE: u32 = 8;

static ROWS: [Slot; 4] = [
    Slot::Row(ids::IGMP_TYPE.0, 0),
    Slot::Row(ids::IGMP_MAX_RESP.0, 1),
    Slot::Row(ids::IGMP_CHECKSUM.0, 2),
    Slot::Row(ids::IGMP_MADDR.0, 4),
];

/// Reads an IGMPv2 message (RFC 2236, 2). The bytes behind it are data.
#[tactic(auto, using(crate::proofs::Whole::igmp_whole, crate::proofs::Whole::igmp_fits), unfolding(crate::specs::Igmp::igmp_after, pk_tree::specs::Layouts::StepsFit, pk_fields::specs::Fields::row_of, pk_fields::specs::Table::rows))]
pub fn read_igmp(span: Span, cut: bool, mode: Mode, b: &mut TreeBuilder) -> Result<After, NoMemory>
    requires inside { IsInside b.old.buffers span }
    requires room { length b.old.layers + 2 < 2 ^ 32 }
    ensures layer { IfOk result (λ _. b.new ≡ layer_read b.old IGMP span igmp_layout mode cut) }
    ensures after { IfOk result (λ after. after ≡ igmp_after span) }
    ensures inside { IfOk result (LeadsInside b.old.buffers) }
    ensures whole { IfOk result (λ after. after ≢ After.End → last_proto b.new.layers ≡ IGMP) }
    ensures buffers { b.new.buffers ≡ b.old.buffers }
    ensures some { OnOk result (0 < length b.new.layers) }
    ensures most { OnOk result (length b.new.layers ≤ length b.old.layers + 2) }
{
    let is_whole = b.bytes(span).len() >= MESSAGE as usize;
    if !b.asks(ids::IGMP) && is_whole {
        pass_layer(b, ids::IGMP, span, Reach::All, mode, cut)?;
        return Ok(carried(Next::Rest, span, MESSAGE));
    }
    read_table(b, ids::IGMP, span, igmp_slots(), &[], &[], &[], mode, cut)?;
    Ok(carried(Next::Rest, span, MESSAGE))
}

#[tactic(auto, unfolding(crate::specs::Igmp::igmp_layout, pk_tree::specs::Tables::steps_of, pk_tree::specs::Layouts::reach, pk_tree::specs::Layouts::step_reach, pk_tree::specs::Layouts::StepsFit, pk_fields::specs::Fields::row_of, pk_fields::specs::Table::rows))]
fn igmp_slots() -> &'static [Slot]
    ensures fits { (sizes : List ℕ) → StepsFit IGMP (steps_of [] sizes result.now) }
    ensures layout { steps_of [] [] result.now ≡ igmp_layout }
    ensures whole { (end : ℕ) → 8 ≤ end → reach end (steps_of [] [] result.now) ≡ Reach.All }
{
    &ROWS
}
