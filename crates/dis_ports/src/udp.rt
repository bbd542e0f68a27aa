ghost use Rattle.std.specs.Prelude.{◌≡◌, ◌≢◌, ℕ, Bool as Truth, List, [], ◌∷◌, ◌+◌, ◌<◌, ◌≤◌, ◌^◌, true, length, IfOk, IfSome, OnOk};
ghost use Rattle.pk_base.specs.declared.heads.Mode.TheVariants.{Plain};
ghost use Rattle.pk_tree.specs.Buffers.{IsInside, bytes_of};
ghost use Rattle.pk_fields.specs.Ids.{UDP};
ghost use Rattle.pk_tree.specs.Following.{LeadsInside};
ghost use Rattle.pk_tree.specs.Layouts.{StepsFit, layer_read, reach};
ghost use Rattle.pk_tree.specs.Tables.{steps_of};
ghost use Rattle.pk_tree.specs.Trees.{last_proto};
ghost use Rattle.dis_ports.specs.Udp.{is_udp_length, udp_after, udp_carries, udp_layout, udp_length, udp_ports, udp_span};

use pk_base::{After, Mode, Next, NoMemory, PortsHead, Span};
use pk_fields::ids;
use pk_tree::{Reach, Slot, TreeBuilder, behind, carried, first_of, pass_layer, peek, read_table};

/// The bytes of a UDP header.
const HEADER: u32 = 8;

/// Reads a UDP header (RFC 768), whose length ends the layer. Behind a whole header comes its datagram, also where it has
/// no bytes; in an embedded packet the bytes are data. Nothing follows a header that can't be read whole. `cut` says that
/// the frame was captured only in part.
#[tactic(auto, unfolding(crate::specs::Udp::udp_after))]
pub fn read_udp(span: Span, cut: bool, mode: Mode, b: &mut TreeBuilder) -> Result<After, NoMemory>
    requires inside { IsInside b.old.buffers span }
    requires room { length b.old.layers + 2 < 2 ^ 32 }
    ensures layer { IfOk result (λ _.
        b.new ≡ layer_read b.old UDP (udp_span span (bytes_of b.old.buffers span))
        (udp_layout (bytes_of b.old.buffers span)) mode cut) }
    ensures after { IfOk result (λ after.
        after ≡ udp_after mode span (bytes_of b.old.buffers span)) }
    ensures inside { IfOk result (LeadsInside b.old.buffers) }
    ensures whole { IfOk result (λ after. after ≢ After.End → last_proto b.new.layers ≡ UDP) }
    ensures buffers { b.new.buffers ≡ b.old.buffers }
    ensures some { OnOk result (0 < length b.new.layers) }
    ensures most { OnOk result (length b.new.layers ≤ length b.old.layers + 2) }
{
    let bytes = b.bytes(span);
    let ports = udp_ports(bytes);
    let layer = udp_span(span, bytes);
    let sound = is_udp_length(peek(bytes, 32, 16));
    let reach = read_rows(layer, sound, cut, mode, b)?;
    Ok(udp_carries(reach, mode, ports, layer))
}

/// A header that was read whole.
#[derive(Clone, Copy)]
pub struct WholeUdp {
    /// The header and the bytes behind it, up to the length's end.
    pub layer: Span,
    /// The bytes behind it.
    pub payload: Span,
}

/// What follows a header that is read whole.
#[inline(always)]
#[tactic(auto, using(crate::proofs::UdpLemmas::datagram_behind))]
pub fn behind_udp(span: Span, bytes: &[u8]) -> Option<WholeUdp>
    requires end { span.start + span.len < 2 ^ 32 }
    ensures layer { IfSome result (λ udp. udp.layer ≡ udp_span span bytes.now) }
    ensures sound { IfSome result (λ _. is_udp_length (udp_length bytes.now) ≡ true) }
    ensures whole { IfSome result (λ udp. 8 ≤ udp.layer.len) }
    ensures after { IfSome result (λ udp. udp_after Plain span bytes.now
        ≡ After.Datagram (udp_ports bytes.now) udp.payload) }
    ensures inside { (buffers : List (List ℕ)) → IsInside buffers span
        → IfSome result (λ udp. IsInside buffers udp.layer × IsInside buffers udp.payload) }
{
    let layer = udp_span(span, bytes);
    let sound = is_udp_length(peek(bytes, 32, 16));
    if !rows_reach(layer.len, sound).is_all() {
        return None;
    }
    Some(WholeUdp {
        layer,
        payload: behind(layer, HEADER),
    })
}

/// Opens the layer and reads its rows, or passes it where no field of it is asked. `sound` says that the length may stand
/// in a header.
#[tactic(auto, unfolding(pk_tree::specs::Layouts::StepsFit, pk_fields::specs::Fields::row_of, pk_fields::specs::Table::rows))]
fn read_rows(
    span: Span,
    sound: bool,
    cut: bool,
    mode: Mode,
    b: &mut TreeBuilder,
) -> Result<Reach, NoMemory>
    requires inside { IsInside b.old.buffers span }
    requires room { length b.old.layers + 2 < 2 ^ 32 }
    ensures layer { OnOk result ((bytes : List ℕ) → sound ≡ is_udp_length (udp_length bytes)
        → b.new ≡ layer_read b.old UDP span (udp_layout bytes) mode cut) }
    ensures why { IfOk result (λ r. (bytes : List ℕ) → sound ≡ is_udp_length (udp_length bytes)
        → r ≡ reach span.len (udp_layout bytes)) }
    ensures header { IfOk result (λ r. r ≡ Reach.All → 8 ≤ span.len) }
    ensures last { IfOk result (λ r. (bytes : List ℕ) → sound ≡ is_udp_length (udp_length bytes)
        → r ≡ Reach.All → last_proto b.new.layers ≡ UDP) }
    ensures buffers { b.new.buffers ≡ b.old.buffers }
    ensures some { OnOk result (0 < length b.new.layers) }
    ensures most { OnOk result (length b.new.layers ≤ length b.old.layers + 2) }
{
    let reach = rows_reach(span.len, sound);
    if !b.asks(ids::UDP) {
        pass_layer(b, ids::UDP, span, reach, mode, cut)?;
        return Ok(reach);
    }
    read_table(
        b,
        ids::UDP,
        span,
        udp_slots(),
        &[sound],
        &[],
        &[],
        mode,
        cut,
    )?;
    Ok(reach)
}

static SLOTS: [Slot; 7] = [
    Slot::Row(ids::UDP_SRCPORT.0, 0),
    Slot::Row(ids::UDP_PORT.0, 0),
    Slot::Row(ids::UDP_DSTPORT.0, 2),
    Slot::Row(ids::UDP_PORT.0, 2),
    Slot::Row(ids::UDP_LENGTH.0, 4),
    Slot::Row(ids::UDP_CHECKSUM.0, 6),
    Slot::Check(0),
];

/// The rows of a header, and the condition on its length.
#[tactic(auto, unfolding(crate::specs::Udp::udp_layout, pk_tree::specs::Tables::steps_of, pk_tree::specs::Layouts::reach, pk_tree::specs::Layouts::step_reach, pk_tree::specs::Layouts::StepsFit, pk_fields::specs::Fields::row_of, pk_fields::specs::Table::rows))]
pub fn udp_slots() -> &'static [Slot]
    ensures fits { (holds : List Truth) (sizes : List ℕ)
        → StepsFit UDP (steps_of holds sizes result.now) }
    ensures layout { (sizes bytes : List ℕ)
        → steps_of (is_udp_length (udp_length bytes) ∷ []) sizes result.now ≡ udp_layout bytes }
    ensures whole { (sizes : List ℕ) (end : ℕ) → 8 ≤ end
        → reach end (steps_of (true ∷ []) sizes result.now) ≡ Reach.All }
    ensures table { result.now ≡ SLOTS }
{
    &SLOTS
}

/// How far the rows are read in a layer of so many bytes.
#[tactic(auto, unfolding(crate::specs::Udp::udp_layout, pk_tree::specs::Layouts::reach, pk_tree::specs::Layouts::step_reach, pk_fields::specs::Fields::row_of, pk_fields::specs::Table::rows))]
fn rows_reach(len: u32, sound: bool) -> Reach
    ensures reach { (bytes : List ℕ) → sound ≡ is_udp_length (udp_length bytes)
        → result ≡ reach len (udp_layout bytes) }
    ensures header { result ≡ Reach.All → 8 ≤ len }
    ensures sound { result ≡ Reach.All → sound ≡ true }
{
    if len < HEADER {
        Reach::Short
    } else if sound {
        Reach::All
    } else {
        Reach::Failed
    }
}

fn is_udp_length(number: u64) -> bool
    ensures { result ≡ is_udp_length number }
{
    number == 0 || u64::from(HEADER) <= number
}

/// The ports that a header names.
#[inline(always)]
pub fn udp_ports(bytes: &[u8]) -> PortsHead
    ensures { result ≡ udp_ports bytes.now }
{
    PortsHead {
        source: peek(bytes, 0, 16) as u16,
        target: peek(bytes, 16, 16) as u16,
    }
}

/// The layer's span, which a length ends.
#[tactic(auto, unfolding(crate::specs::Udp::udp_span))]
fn udp_span(span: Span, bytes: &[u8]) -> Span
    ensures span { result ≡ udp_span span bytes.now }
    ensures inside { (buffers : List (List ℕ)) → IsInside buffers span → IsInside buffers result }
    ensures end { result.start + result.len ≤ span.start + span.len }
{
    let length = peek(bytes, 32, 16) as u32;
    if HEADER <= length {
        first_of(span, length)
    } else {
        span
    }
}

/// What follows a header that was read so far.
fn udp_carries(reach: Reach, mode: Mode, ports: PortsHead, span: Span) -> After
    requires header { reach ≡ Reach.All → 8 ≤ span.len }
    requires end { span.start + span.len < 2 ^ 32 }
    ensures after { result ≡ udp_carries reach mode ports span }
    ensures inside { (buffers : List (List ℕ)) → IsInside buffers span
        → LeadsInside buffers result }
    ensures whole { result ≢ After.End → reach ≡ Reach.All }
{
    match reach {
        Reach::All => match mode {
            Mode::Plain => After::Datagram(ports, behind(span, HEADER)),
            Mode::Embedded => carried(Next::Rest, span, HEADER),
        },
        Reach::Short | Reach::Failed => After::End,
    }
}
