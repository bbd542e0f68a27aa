ghost use Rattle.std.specs.Prelude.{◌≡◌, ◌≢◌, ℕ, List, [], ◌∷◌, ◌+◌, ◌<◌, ◌≤◌, ◌^◌, length, IfOk, OnOk};
ghost use Rattle.pk_tree.specs.Buffers.{IsInside, bytes_of};
ghost use Rattle.pk_fields.specs.Ids.{ICMP};
ghost use Rattle.pk_tree.specs.Following.{LeadsInside};
ghost use Rattle.pk_tree.specs.Layouts.{layer_read, reach, StepsFit};
ghost use Rattle.pk_tree.specs.Tables.{steps_of};
ghost use Rattle.pk_tree.specs.Trees.{last_proto};
ghost use Rattle.dis_icmp.specs.Icmp.{icmp_rows, icmp_layout, icmp_after, is_echo, next_of_message};

use pk_base::{After, Mode, Next, NoMemory, Span};
use pk_fields::ids;
use pk_tree::{Reach, Slot, TreeBuilder, carried, pass_layer, peek, read_table};

/// The bytes of a message up to what follows.
const HEADER: u32 = 8;
/// The bytes behind the checksum that another message than an echo has for its type.
const REST: usize = 4;

// Types of messages (RFC 792, "Summary of Message Types").
const ECHO_REPLY: u8 = 0;

const DESTINATION_UNREACHABLE: u8 = 3;

const SOURCE_QUENCH: u8 = 4;

const REDIRECT: u8 = 5;

const ECHO: u8 = 8;

const TIME_EXCEEDED: u8 = 11;

const PARAMETER_PROBLEM: u8 = 12;

static ECHO_ROWS: [Slot; 5] = [
    Slot::Row(ids::ICMP_TYPE.0, 0),
    Slot::Row(ids::ICMP_CODE.0, 1),
    Slot::Row(ids::ICMP_CHECKSUM.0, 2),
    Slot::Row(ids::ICMP_IDENT.0, 4),
    Slot::Row(ids::ICMP_SEQ.0, 6),
];

static OTHER_ROWS: [Slot; 4] = [
    Slot::Row(ids::ICMP_TYPE.0, 0),
    Slot::Row(ids::ICMP_CODE.0, 1),
    Slot::Row(ids::ICMP_CHECKSUM.0, 2),
    Slot::Part(ids::ICMP_REST.0, 4, 0),
];

/// Reads an ICMP message (RFC 792). One about a packet carries the packet's first bytes.
#[tactic(auto, using(crate::proofs::Whole::icmp_whole, crate::proofs::Whole::icmp_fits), unfolding(crate::specs::Icmp::icmp_after, pk_tree::specs::Layouts::StepsFit, pk_fields::specs::Fields::row_of, pk_fields::specs::Table::rows))]
pub fn read_icmp(span: Span, cut: bool, mode: Mode, b: &mut TreeBuilder) -> Result<After, NoMemory>
    requires inside { IsInside b.old.buffers span }
    requires room { length b.old.layers + 2 < 2 ^ 32 }
    ensures layer { IfOk result (λ _.
        b.new ≡ layer_read b.old ICMP span (icmp_layout (bytes_of b.old.buffers span)) mode cut) }
    ensures after { IfOk result (λ after. after ≡ icmp_after span (bytes_of b.old.buffers span)) }
    ensures inside { IfOk result (LeadsInside b.old.buffers) }
    ensures whole { IfOk result (λ after. after ≢ After.End → last_proto b.new.layers ≡ ICMP) }
    ensures buffers { b.new.buffers ≡ b.old.buffers }
    ensures some { OnOk result (0 < length b.new.layers) }
    ensures most { OnOk result (length b.new.layers ≤ length b.old.layers + 2) }
{
    let kind = peek(b.bytes(span), 0, 8) as u8;
    if !b.asks(ids::ICMP) && span.len >= HEADER {
        pass_layer(b, ids::ICMP, span, Reach::All, mode, cut)?;
        return Ok(carried(next_of_message(kind), span, HEADER));
    }
    let slots = icmp_slots(is_echo(kind));
    read_table(b, ids::ICMP, span, slots, &[], &[REST], &[], mode, cut)?;
    Ok(carried(next_of_message(kind), span, HEADER))
}

/// The rows of an echo, or of another message.
#[tactic(auto, unfolding(crate::specs::Icmp::icmp_rows, pk_tree::specs::Tables::steps_of, pk_tree::specs::Layouts::reach, pk_tree::specs::Layouts::step_reach, pk_tree::specs::Layouts::StepsFit, pk_fields::specs::Fields::row_of, pk_fields::specs::Table::rows))]
fn icmp_slots(echo: bool) -> &'static [Slot]
    ensures fits { (sizes : List ℕ) → StepsFit ICMP (steps_of [] sizes result.now) }
    ensures layout { steps_of [] (4 ∷ []) result.now ≡ icmp_rows echo }
    ensures whole { (end : ℕ) → 8 ≤ end
        → reach end (steps_of [] (4 ∷ []) result.now) ≡ Reach.All }
{
    if echo { &ECHO_ROWS } else { &OTHER_ROWS }
}

fn is_echo(kind: u8) -> bool
    ensures { result ≡ is_echo kind }
{
    kind == ECHO_REPLY || kind == ECHO
}

/// What a message carries.
fn next_of_message(kind: u8) -> Next
    ensures { result ≡ next_of_message kind }
{
    match kind {
        DESTINATION_UNREACHABLE | SOURCE_QUENCH | REDIRECT | TIME_EXCEEDED | PARAMETER_PROBLEM =>
            Next::Ip4,
        _ => Next::Rest,
    }
}
