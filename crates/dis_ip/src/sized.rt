ghost use Rattle.std.specs.Prelude.{◌≡◌, ◌≢◌, ℕ, List, [], ◌∷◌, ◌+◌, ◌-◌, ◌<◌, ◌≤◌, ◌^◌, length, IfOk, OnOk};
ghost use Rattle.pk_tree.specs.Buffers.{IsInside, bytes_of};
ghost use Rattle.pk_fields.specs.Ids.{IPV6_HOPOPTS, IPV6_ROUTING, IPV6_DSTOPTS};
ghost use Rattle.pk_tree.specs.Following.{LeadsInside};
ghost use Rattle.pk_tree.specs.Layouts.{layer_read, reach, StepsFit};
ghost use Rattle.pk_tree.specs.Tables.{steps_of};
ghost use Rattle.pk_tree.specs.Trees.{last_proto};
ghost use Rattle.pk_tree.specs.Values.{IsProtocol};
ghost use Rattle.dis_ip.specs.Extensions.{extension_proto, extension_layout};
ghost use Rattle.dis_ip.specs.Fragments.{LastIsPart};
ghost use Rattle.dis_ip.specs.Options.{next_header, header_size, hop_options_layout, target_options_layout, sized_after};
ghost use Rattle.dis_ip.specs.Routing.{routing_layout};
ghost use Rattle.dis_ip.specs.Sized.{next_of, fixed_size};

use crate::protocol::carried_by;
use pk_base::{After, Mode, NoMemory, Span};
use pk_fields::{FieldId, ids};
use pk_tree::{Reach, Slot, TreeBuilder, pass_layer, peek, read_table};

/// An extension header with a length in its second byte (RFC 8200, 4.3, 4.4 and 4.6).
#[derive(Clone, Copy)]
pub(crate) enum Sized {
    HopOptions,
    Routing,
    TargetOptions,
}

static HOP_OPTIONS: [Slot; 3] = [
    Slot::Row(ids::IPV6_HOPOPTS_NXT.0, 0),
    Slot::Row(ids::IPV6_HOPOPTS_LEN.0, 1),
    Slot::Part(ids::IPV6_HOPOPTS_OPTIONS.0, 2, 0),
];

static ROUTING: [Slot; 5] = [
    Slot::Row(ids::IPV6_ROUTING_NXT.0, 0),
    Slot::Row(ids::IPV6_ROUTING_LEN.0, 1),
    Slot::Row(ids::IPV6_ROUTING_TYPE.0, 2),
    Slot::Row(ids::IPV6_ROUTING_SEGLEFT.0, 3),
    Slot::Part(ids::IPV6_ROUTING_REST.0, 4, 0),
];

static TARGET_OPTIONS: [Slot; 3] = [
    Slot::Row(ids::IPV6_DSTOPTS_NXT.0, 0),
    Slot::Row(ids::IPV6_DSTOPTS_LEN.0, 1),
    Slot::Part(ids::IPV6_DSTOPTS_OPTIONS.0, 2, 0),
];

/// Reads a header with a length in its second byte.
#[tactic(auto, using(crate::proofs::Whole::sized_whole, crate::proofs::Whole::sized_fits), unfolding(crate::specs::Options::sized_after, pk_tree::specs::Layouts::StepsFit))]
pub(crate) fn read_sized(
    which: Sized,
    span: Span,
    cut: bool,
    mode: Mode,
    b: &mut TreeBuilder,
) -> Result<After, NoMemory>
    requires inside { IsInside b.old.buffers span }
    requires room { length b.old.layers + 2 < 2 ^ 32 }
    ensures layer { IfOk result (λ _.
        b.new ≡ layer_read b.old (extension_proto (next_of which)) span
        (extension_layout (next_of which) (bytes_of b.old.buffers span)) mode cut) }
    ensures after { IfOk result (λ after. after ≡ sized_after span (bytes_of b.old.buffers span)) }
    ensures inside { IfOk result (LeadsInside b.old.buffers) }
    ensures whole { IfOk result (λ after. after ≢ After.End
        → last_proto b.new.layers ≡ extension_proto (next_of which)) }
    ensures part { IfOk result (LastIsPart b.new.layers) }
    ensures buffers { b.new.buffers ≡ b.old.buffers }
    ensures some { OnOk result (0 < length b.new.layers) }
    ensures most { OnOk result (length b.new.layers ≤ length b.old.layers + 2) }
{
    let bytes = b.bytes(span);
    let next = next_header(bytes);
    let header = header_size(bytes);
    let proto = proto_of(which);
    if !b.asks(proto) && header <= span.len {
        pass_layer(b, proto, span, Reach::All, mode, cut)?;
        return Ok(carried_by(true, next, span, header));
    }
    let sizes = [header as usize - fixed_size(which)];
    let slots = slots_of(which);
    read_table(b, proto, span, slots, &[], &sizes, &[], mode, cut)?;
    Ok(carried_by(true, next, span, header))
}

#[tactic(auto, unfolding(pk_fields::specs::Fields::row_of, pk_fields::specs::Table::rows))]
fn proto_of(which: Sized) -> FieldId
    ensures proto { result ≡ extension_proto (next_of which) }
    ensures known { IsProtocol result }
{
    match which {
        Sized::HopOptions => ids::IPV6_HOPOPTS,
        Sized::Routing => ids::IPV6_ROUTING,
        Sized::TargetOptions => ids::IPV6_DSTOPTS,
    }
}

/// The bytes before its last field, which takes what is left of it.
fn fixed_size(which: Sized) -> usize
    ensures size { result ≡ fixed_size which }
    ensures most { result ≤ 4 }
{
    match which {
        Sized::HopOptions | Sized::TargetOptions => 2,
        Sized::Routing => 4,
    }
}

#[tactic(auto, unfolding(crate::specs::Extensions::extension_layout))]
fn slots_of(which: Sized) -> &'static [Slot]
    ensures fits { (sizes : List ℕ)
        → StepsFit (extension_proto (next_of which)) (steps_of [] sizes result.now) }
    ensures layout { (bytes : List ℕ)
        → steps_of [] ((header_size bytes - fixed_size which) ∷ []) result.now
        ≡ extension_layout (next_of which) bytes }
    ensures whole { (header end : ℕ) → 8 ≤ header → header ≤ end
        → reach end (steps_of [] ((header - fixed_size which) ∷ []) result.now) ≡ Reach.All }
{
    match which {
        Sized::HopOptions => hop_options_slots(),
        Sized::Routing => routing_slots(),
        Sized::TargetOptions => target_options_slots(),
    }
}

#[tactic(auto, unfolding(crate::specs::Options::hop_options_layout, pk_tree::specs::Tables::steps_of, pk_tree::specs::Layouts::reach, pk_tree::specs::Layouts::step_reach, pk_tree::specs::Layouts::StepsFit, pk_fields::specs::Fields::row_of, pk_fields::specs::Table::rows))]
fn hop_options_slots() -> &'static [Slot]
    ensures fits { (sizes : List ℕ) → StepsFit IPV6_HOPOPTS (steps_of [] sizes result.now) }
    ensures layout { (bytes : List ℕ)
        → steps_of [] ((header_size bytes - 2) ∷ []) result.now ≡ hop_options_layout bytes }
    ensures whole { (header end : ℕ) → 8 ≤ header → header ≤ end
        → reach end (steps_of [] ((header - 2) ∷ []) result.now) ≡ Reach.All }
{
    &HOP_OPTIONS
}

#[tactic(auto, unfolding(crate::specs::Routing::routing_layout, pk_tree::specs::Tables::steps_of, pk_tree::specs::Layouts::reach, pk_tree::specs::Layouts::step_reach, pk_tree::specs::Layouts::StepsFit, pk_fields::specs::Fields::row_of, pk_fields::specs::Table::rows))]
fn routing_slots() -> &'static [Slot]
    ensures fits { (sizes : List ℕ) → StepsFit IPV6_ROUTING (steps_of [] sizes result.now) }
    ensures layout { (bytes : List ℕ)
        → steps_of [] ((header_size bytes - 4) ∷ []) result.now ≡ routing_layout bytes }
    ensures whole { (header end : ℕ) → 8 ≤ header → header ≤ end
        → reach end (steps_of [] ((header - 4) ∷ []) result.now) ≡ Reach.All }
{
    &ROUTING
}

#[tactic(auto, unfolding(crate::specs::Options::target_options_layout, pk_tree::specs::Tables::steps_of, pk_tree::specs::Layouts::reach, pk_tree::specs::Layouts::step_reach, pk_tree::specs::Layouts::StepsFit, pk_fields::specs::Fields::row_of, pk_fields::specs::Table::rows))]
fn target_options_slots() -> &'static [Slot]
    ensures fits { (sizes : List ℕ) → StepsFit IPV6_DSTOPTS (steps_of [] sizes result.now) }
    ensures layout { (bytes : List ℕ)
        → steps_of [] ((header_size bytes - 2) ∷ []) result.now ≡ target_options_layout bytes }
    ensures whole { (header end : ℕ) → 8 ≤ header → header ≤ end
        → reach end (steps_of [] ((header - 2) ∷ []) result.now) ≡ Reach.All }
{
    &TARGET_OPTIONS
}

/// The next header number, in the first byte of every extension header.
pub(crate) fn next_header(bytes: &[u8]) -> u8
    ensures { result ≡ next_header bytes.now }
{
    peek(bytes, 0, 8) as u8
}

/// The bytes of a header with a length in its second byte, which counts eights behind the first.
pub(crate) fn header_size(bytes: &[u8]) -> u32
    ensures size { result ≡ header_size bytes.now }
    ensures bound { result ≤ 2_048 }
{
    8 * (peek(bytes, 8, 8) as u32 + 1)
}
