ghost use Rattle.std.specs.Prelude.{◌≡◌, ◌≢◌, ℕ, List, [], ◌∷◌, ◌+◌, ◌<◌, ◌≤◌, ◌^◌, length, IfOk, OnOk};
ghost use Rattle.pk_tree.specs.Buffers.{IsInside, bytes_of};
ghost use Rattle.pk_fields.specs.Ids.{ICMPV6};
ghost use Rattle.pk_tree.specs.Following.{LeadsInside};
ghost use Rattle.pk_tree.specs.Layouts.{layer_read, reach, StepsFit};
ghost use Rattle.pk_tree.specs.Tables.{steps_of};
ghost use Rattle.pk_tree.specs.Trees.{last_proto};
ghost use Rattle.dis_icmp.specs.Icmp6.{header_size, icmp6_rows, icmp6_layout, icmp6_after, is_echo, is_neighbour, next_of_message};

use pk_base::{After, Mode, Next, NoMemory, Span};
use pk_fields::ids;
use pk_tree::{Reach, Slot, TreeBuilder, carried, pass_layer, peek, read_table};

/// The bytes of a message up to what follows.
const HEADER: u32 = 8;
/// The same of a message of neighbour discovery.
const NEIGHBOUR_HEADER: u32 = 4;
/// The bytes behind the checksum that another message than an echo has for its type.
const REST: usize = 4;

// Types of messages (RFC 4443, 2.1).
const DESTINATION_UNREACHABLE: u8 = 1;

const PACKET_TOO_BIG: u8 = 2;

const TIME_EXCEEDED: u8 = 3;

const PARAMETER_PROBLEM: u8 = 4;

const ECHO_REQUEST: u8 = 128;

const ECHO_REPLY: u8 = 129;

// The least and the greatest type of neighbour discovery (RFC 4861, 4).
const ROUTER_SOLICITATION: u8 = 133;

const REDIRECT: u8 = 137;

static NEIGHBOUR_ROWS: [Slot; 3] = [
    Slot::Row(ids::ICMPV6_TYPE.0, 0),
    Slot::Row(ids::ICMPV6_CODE.0, 1),
    Slot::Row(ids::ICMPV6_CHECKSUM.0, 2),
];

static ECHO_ROWS: [Slot; 5] = [
    Slot::Row(ids::ICMPV6_TYPE.0, 0),
    Slot::Row(ids::ICMPV6_CODE.0, 1),
    Slot::Row(ids::ICMPV6_CHECKSUM.0, 2),
    Slot::Row(ids::ICMPV6_ECHO_IDENTIFIER.0, 4),
    Slot::Row(ids::ICMPV6_ECHO_SEQUENCE_NUMBER.0, 6),
];

static OTHER_ROWS: [Slot; 4] = [
    Slot::Row(ids::ICMPV6_TYPE.0, 0),
    Slot::Row(ids::ICMPV6_CODE.0, 1),
    Slot::Row(ids::ICMPV6_CHECKSUM.0, 2),
    Slot::Part(ids::ICMPV6_REST.0, 4, 0),
];

/// Reads an ICMPv6 message (RFC 4443, 2.1). One about a packet carries the packet's first bytes, and what one of neighbour
/// discovery says is a layer of its own.
#[tactic(auto, using(crate::proofs::Whole::icmp6_whole, crate::proofs::Whole::icmp6_fits), unfolding(crate::specs::Icmp6::icmp6_after, pk_tree::specs::Layouts::StepsFit, pk_fields::specs::Fields::row_of, pk_fields::specs::Table::rows))]
pub fn read_icmp6(span: Span, cut: bool, mode: Mode, b: &mut TreeBuilder) -> Result<After, NoMemory>
    requires inside { IsInside b.old.buffers span }
    requires room { length b.old.layers + 2 < 2 ^ 32 }
    ensures layer { IfOk result (λ _.
        b.new ≡ layer_read b.old ICMPV6 span
        (icmp6_layout (bytes_of b.old.buffers span)) mode cut) }
    ensures after { IfOk result (λ after. after ≡ icmp6_after span (bytes_of b.old.buffers span)) }
    ensures inside { IfOk result (LeadsInside b.old.buffers) }
    ensures whole { IfOk result (λ after. after ≢ After.End → last_proto b.new.layers ≡ ICMPV6) }
    ensures buffers { b.new.buffers ≡ b.old.buffers }
    ensures some { OnOk result (0 < length b.new.layers) }
    ensures most { OnOk result (length b.new.layers ≤ length b.old.layers + 2) }
{
    let kind = peek(b.bytes(span), 0, 8) as u8;
    let neighbour = is_neighbour(kind);
    let header = header_size(neighbour);
    if !b.asks(ids::ICMPV6) && span.len >= header {
        pass_layer(b, ids::ICMPV6, span, Reach::All, mode, cut)?;
        return Ok(carried(next_of_message(kind), span, header));
    }
    let slots = icmp6_slots(neighbour, is_echo(kind));
    read_table(b, ids::ICMPV6, span, slots, &[], &[REST], &[], mode, cut)?;
    Ok(carried(next_of_message(kind), span, header))
}

/// The rows of a message of neighbour discovery, of an echo, or of another message.
#[tactic(auto, unfolding(crate::specs::Icmp6::icmp6_rows, pk_tree::specs::Tables::steps_of, pk_tree::specs::Layouts::reach, pk_tree::specs::Layouts::step_reach, pk_tree::specs::Layouts::StepsFit, pk_fields::specs::Fields::row_of, pk_fields::specs::Table::rows))]
fn icmp6_slots(neighbour: bool, echo: bool) -> &'static [Slot]
    ensures fits { (sizes : List ℕ) → StepsFit ICMPV6 (steps_of [] sizes result.now) }
    ensures layout { steps_of [] (4 ∷ []) result.now ≡ icmp6_rows neighbour echo }
    ensures whole { (end : ℕ) → header_size neighbour ≤ end
        → reach end (steps_of [] (4 ∷ []) result.now) ≡ Reach.All }
{
    if neighbour {
        &NEIGHBOUR_ROWS
    } else if echo {
        &ECHO_ROWS
    } else {
        &OTHER_ROWS
    }
}

fn is_echo(kind: u8) -> bool
    ensures { result ≡ is_echo kind }
{
    kind == ECHO_REQUEST || kind == ECHO_REPLY
}

fn is_neighbour(kind: u8) -> bool
    ensures { result ≡ is_neighbour kind }
{
    kind >= ROUTER_SOLICITATION && kind <= REDIRECT
}

/// How many bytes of a message are read.
fn header_size(neighbour: bool) -> u32
    ensures { result ≡ header_size neighbour }
{
    if neighbour { NEIGHBOUR_HEADER } else { HEADER }
}

/// What a message carries.
fn next_of_message(kind: u8) -> Next
    ensures { result ≡ next_of_message kind }
{
    if is_neighbour(kind) {
        return Next::Neigh(kind);
    }
    match kind {
        DESTINATION_UNREACHABLE | PACKET_TOO_BIG | TIME_EXCEEDED | PARAMETER_PROBLEM => Next::Ip6,
        _ => Next::Rest,
    }
}
