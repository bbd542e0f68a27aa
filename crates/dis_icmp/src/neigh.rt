ghost use Rattle.std.specs.Prelude.{◌≡◌, ◌+◌, ◌<◌, ◌≤◌, ◌^◌, length, IfOk, OnOk};
ghost use Rattle.pk_tree.specs.Buffers.{IsInside, bytes_of};
ghost use Rattle.pk_fields.specs.Ids.{ND};
ghost use Rattle.pk_tree.specs.Layouts.{StepsFit, layer_read};
ghost use Rattle.dis_icmp.specs.Neigh.{advertised_neighbour, advertised_router, neigh_layout, neigh_rows, options_start, redirected};
ghost use Rattle.dis_icmp.specs.NeighOptions.{AllOptions};

use crate::neigh_options::push_options;
use pk_base::{After, Mode, NoMemory, Span};
use pk_fields::ids;
use pk_tree::{Step, TreeBuilder, read_layer};
use std::alloc::Global;

/// How many steps the options have room for from the start. Those of most messages have fewer.
const FEW_STEPS: usize = 16;

/// The types of messages (RFC 4861, 4.1 to 4.5).
const ROUTER_SOLICITATION: u8 = 133;

const ROUTER_ADVERTISEMENT: u8 = 134;

const NEIGHBOUR_SOLICITATION: u8 = 135;

const NEIGHBOUR_ADVERTISEMENT: u8 = 136;

/// Reads a message of neighbour discovery with its options (RFC 4861, 4), from the byte behind the checksum of ICMPv6 on.
/// `kind` is the message's type, 133 to 137; any other is read as 137 is. Nothing follows.
#[tactic(auto, using(crate::proofs::OptionBound::options_reach), unfolding(pk_fields::specs::Fields::row_of, pk_fields::specs::Table::rows))]
pub fn read_neigh(
    kind: u8,
    span: Span,
    cut: bool,
    mode: Mode,
    b: &mut TreeBuilder,
) -> Result<After, NoMemory>
    requires inside { IsInside b.old.buffers span }
    requires room { length b.old.layers + 2 < 2 ^ 32 }
    ensures layer { IfOk result (λ _.
        b.new ≡ layer_read b.old ND span
        (neigh_layout kind (bytes_of b.old.buffers span)) mode cut) }
    ensures after { IfOk result (λ after. after ≡ After.End) }
    ensures options { AllOptions }
    ensures buffers { b.new.buffers ≡ b.old.buffers }
    ensures some { OnOk result (0 < length b.new.layers) }
    ensures most { OnOk result (length b.new.layers ≤ length b.old.layers + 2) }
{
    let steps = neigh_steps(b.alloc(), kind, b.bytes(span))?;
    read_layer(b, ids::ND, span, &steps, mode, cut)?;
    Ok(After::End)
}

/// The rows, with the options behind them.
#[tactic(auto, unfolding(crate::specs::Neigh::neigh_layout))]
fn neigh_steps(alloc: Global, kind: u8, bytes: &[u8]) -> Result<Vec<Step>, NoMemory>
    ensures layout { IfOk result (λ steps. steps.items ≡ neigh_layout kind bytes.now) }
    ensures fits { IfOk result (λ steps. StepsFit ND steps.items) }
{
    let mut steps = neigh_rows(alloc, kind)?;
    steps.reserve(FEW_STEPS)?;
    push_options(&mut steps, bytes, options_start(kind))?;
    Ok(steps)
}

/// The rows before the options.
#[tactic(auto, unfolding(crate::specs::Neigh::neigh_rows))]
fn neigh_rows(alloc: Global, kind: u8) -> Result<Vec<Step>, NoMemory>
    ensures { IfOk result (λ steps. steps.items ≡ neigh_rows kind) }
{
    let rows = match kind {
        ROUTER_SOLICITATION => Vec::from_array(alloc, [Step::Part(ids::ND_RESERVED, 0, 4)])?,
        ROUTER_ADVERTISEMENT => Vec::from_array(alloc, advertised_router())?,
        NEIGHBOUR_SOLICITATION => Vec::from_array(
            alloc,
            [
                Step::Part(ids::ND_RESERVED, 0, 4),
                Step::Row(ids::ND_TARGET, 4),
            ],
        )?,
        NEIGHBOUR_ADVERTISEMENT => Vec::from_array(alloc, advertised_neighbour())?,
        _ => Vec::from_array(alloc, redirected())?,
    };
    Ok(rows)
}

fn advertised_router() -> [Step; 6]
    ensures { result ≡ advertised_router }
{
    [
        Step::Row(ids::ND_RA_HOP_LIMIT, 0),
        Step::Row(ids::ND_RA_MANAGED, 1),
        Step::Row(ids::ND_RA_OTHER, 1),
        Step::Row(ids::ND_RA_LIFETIME, 2),
        Step::Row(ids::ND_RA_REACHABLE, 4),
        Step::Row(ids::ND_RA_RETRANS, 8),
    ]
}

fn advertised_neighbour() -> [Step; 4]
    ensures { result ≡ advertised_neighbour }
{
    [
        Step::Row(ids::ND_NA_ROUTER, 0),
        Step::Row(ids::ND_NA_SOLICITED, 0),
        Step::Row(ids::ND_NA_OVERRIDE, 0),
        Step::Row(ids::ND_TARGET, 4),
    ]
}

fn redirected() -> [Step; 3]
    ensures { result ≡ redirected }
{
    [
        Step::Part(ids::ND_RESERVED, 0, 4),
        Step::Row(ids::ND_TARGET, 4),
        Step::Row(ids::ND_DESTINATION, 20),
    ]
}

/// Where the options begin.
#[tactic(auto, unfolding(crate::specs::Neigh::options_start))]
fn options_start(kind: u8) -> usize
    ensures start { result ≡ options_start kind }
    ensures most { result ≤ 36 }
{
    match kind {
        ROUTER_SOLICITATION => 4,
        ROUTER_ADVERTISEMENT => 12,
        NEIGHBOUR_SOLICITATION | NEIGHBOUR_ADVERTISEMENT => 20,
        _ => 36,
    }
}
