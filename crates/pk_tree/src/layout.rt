ghost use Rattle.std.specs.Prelude.{◌≡◌, ◌==◌, ◌+◌, ◌-◌, ◌*◌, ◌<◌, ◌≤◌, ◌^◌, ◌↔◌, [], ◌∷◌, length, nat_le, IfOk, OnOk, IfSome, IfNone, IsTrue, ◌&&◌, if◌then◌else◌};
ghost use Rattle.pk_tree.specs.Buffers.{IsInside};
ghost use Rattle.pk_fields.specs.Fields.{row_of};
ghost use Rattle.pk_tree.specs.Layouts.{peeked, is_all, within, fitted, step_reach, step_items, items_after, items_read, reach, reaches_end, fault_of, with_fault, layer_read, belongs, StepFits, StepsFit, with_items};
ghost use Rattle.pk_tree.specs.Trees.{last_proto, with_item, read_of, derived_of, made_of};
ghost use Rattle.pk_tree.specs.Values.{IsProtocol, IsOfKind, HasSize, is_read, size_of};

use crate::builder::TreeBuilder;
use crate::item::Place;
use pk_base::{Mode, NoMemory, Span, Value, be_bits};
use pk_fields::{FieldId, ids};

/// One step of a layer's reading. Places are counted from the layer's first byte.
#[derive(Drop)]
pub enum Step {
    /// A row whose bits the table of fields gives, by the place of its first byte.
    Row(FieldId, usize),
    /// So many bytes from a place on. There is no item for none.
    Part(FieldId, usize, usize),
    /// So many bytes from a place on, with an item also for none.
    Whole(FieldId, usize, usize),
    /// A value that a rule worked out from so many bytes from a place on.
    Derived(FieldId, Value, usize, usize),
    /// A value without a place.
    Made(FieldId, Value),
    /// A condition of the protocol. Reading ends where it doesn't hold.
    Check(bool),
    /// Whether the next row fits, where that isn't told by the layer's end alone.
    Room(bool),
}

/// How far the steps of a layer were read.
#[derive(Clone, Copy)]
pub enum Reach {
    All,
    /// Up to a row that doesn't fit.
    Short,
    /// Up to a condition that fails.
    Failed,
}

impl Reach {
    /// Whether no row and no condition ended the reading.
    pub fn is_all(self) -> bool
        ensures all { IsTrue result ↔ (self ≡ Reach.All) }
        ensures value { result ≡ is_all self }
    {
        matches!(self, Reach::All)
    }
}

/// The number that `width` bits from `first_bit` on spell, or 0 where not all of them are there.
#[tactic(auto, unfolding(crate::specs::Layouts::peeked))]
pub fn peek(bytes: &[u8], first_bit: usize, width: u32) -> u64
    requires some { 1 ≤ width }
    requires most { width ≤ 64 }
    ensures value { result ≡ peeked bytes.now first_bit width }
    ensures bound { result < 2 ^ width }
{
    if bits_are_there(bytes, first_bit, width) {
        be_bits(bytes, first_bit, width)
    } else {
        0
    }
}

fn bits_are_there(bytes: &[u8], first_bit: usize, width: u32) -> bool
    requires { width ≤ 64 }
    ensures { result ≡ nat_le (first_bit + width) (8 * length bytes.now) }
{
    first_bit / 8 + (first_bit % 8 + width as usize).div_ceil(8) <= bytes.len()
}

/// Opens a layer and reads it by its steps. Where reading ends early, a fault layer follows.
/// `cut` says that the frame was captured only in part.
pub fn read_layer(
    tree: &mut TreeBuilder,
    proto: FieldId,
    span: Span,
    steps: &[Step],
    mode: Mode,
    cut: bool,
) -> Result<Reach, NoMemory>
    requires inside { IsInside tree.old.buffers span }
    requires proto { IsProtocol proto }
    requires room { length tree.old.layers + 2 < 2 ^ 32 }
    requires fits { StepsFit proto steps.now }
    ensures layer { IfOk result (λ _.
        tree.new ≡ layer_read tree.old proto span steps.now mode cut) }
    ensures why { IfOk result (λ r. r ≡ reach span.len steps.now) }
    ensures buffers { tree.new.buffers ≡ tree.old.buffers }
    ensures some { OnOk result (0 < length tree.new.layers) }
    ensures most { OnOk result (length tree.new.layers ≤ length tree.old.layers + 2) }
    ensures last { IfOk result (λ r. r ≡ Reach.All → last_proto tree.new.layers ≡ proto) }
{
    tree.open_with_room(proto, span, steps.len())?;
    let reach = read_steps(tree, span, steps)?;
    close_layer(tree, span, reach, mode, cut)?;
    Ok(reach)
}

/// Reads the steps one by one, up to the first that can't be read.
pub(crate) fn read_steps(
    tree: &mut TreeBuilder,
    span: Span,
    steps: &[Step],
) -> Result<Reach, NoMemory>
    requires inside { IsInside tree.old.buffers span }
    requires layer { 0 < length tree.old.layers }
    requires fits { StepsFit (last_proto tree.old.layers) steps.now }
    ensures tree { IfOk result (λ _.
        tree.new ≡ with_items tree.old (items_read tree.old.buffers span steps.now)) }
    ensures why { IfOk result (λ r. r ≡ reach span.len steps.now) }
    ensures buffers { tree.new.buffers ≡ tree.old.buffers }
    ensures count { length tree.new.layers ≡ length tree.old.layers }
    ensures last { last_proto tree.new.layers ≡ last_proto tree.old.layers }
{
    for step in steps {
        let reach = read_step(tree, span, step)?;
        if !reach.is_all() {
            return Ok(reach);
        }
    }
    Ok(Reach::All)
}

#[tactic(auto, unfolding(crate::specs::Layouts::step_reach, crate::specs::Layouts::step_items, crate::specs::Layouts::with_items))]
fn read_step(tree: &mut TreeBuilder, span: Span, step: &Step) -> Result<Reach, NoMemory>
    requires inside { IsInside tree.old.buffers span }
    requires layer { 0 < length tree.old.layers }
    requires fits { StepFits (last_proto tree.old.layers) step.now }
    ensures tree { IfOk result (λ r.
        tree.new ≡ with_items tree.old
        (items_after r (step_items tree.old.buffers span step.now))) }
    ensures why { IfOk result (λ r. r ≡ step_reach span.len step.now) }
    ensures buffers { tree.new.buffers ≡ tree.old.buffers }
    ensures count { length tree.new.layers ≡ length tree.old.layers }
    ensures last { last_proto tree.new.layers ≡ last_proto tree.old.layers }
{
    match step {
        Step::Row(field, at) => read_part(tree, span, *field, *at, size(*field)),
        Step::Part(field, at, len) => read_some(tree, span, *field, *at, *len),
        Step::Whole(field, at, len) => read_part(tree, span, *field, *at, *len),
        Step::Derived(field, value, at, len) => derive_part(tree, span, *field, value, *at, *len),
        Step::Made(field, value) => make(tree, *field, value),
        Step::Check(holds) => Ok(all_or(*holds, Reach::Failed)),
        Step::Room(room) => Ok(all_or(*room, Reach::Short)),
    }
}

/// How far a step without an item is read: all of it if its condition holds.
pub(crate) fn all_or(holds: bool, other: Reach) -> Reach
    ensures value { result ≡ (if holds then Reach.All else other) }
    ensures nothing { items_after result [] ≡ [] }
{
    if holds { Reach::All } else { other }
}

#[tactic(auto, unfolding(crate::specs::Layouts::with_items))]
pub(crate) fn read_some(
    tree: &mut TreeBuilder,
    span: Span,
    field: FieldId,
    at: usize,
    len: usize,
) -> Result<Reach, NoMemory>
    requires inside { IsInside tree.old.buffers span }
    requires layer { 0 < length tree.old.layers }
    requires belongs { (row_of field).proto ≡ last_proto tree.old.layers }
    requires read { IsTrue (is_read (row_of field)) }
    requires size { HasSize (row_of field).bits len }
    ensures tree { IfOk result (λ r.
        tree.new ≡ with_items tree.old
        (items_after r (if len == 0 then []
        else read_of tree.old.buffers field (within span at len) ∷ []))) }
    ensures why { IfOk result (λ r. r ≡ (if len == 0 then Reach.All else fitted span.len at len)) }
    ensures buffers { tree.new.buffers ≡ tree.old.buffers }
    ensures count { length tree.new.layers ≡ length tree.old.layers }
    ensures last { last_proto tree.new.layers ≡ last_proto tree.old.layers }
{
    if len == 0 {
        return Ok(Reach::All);
    }
    read_part(tree, span, field, at, len)
}

#[tactic(auto, unfolding(crate::specs::Layouts::with_items))]
pub(crate) fn read_part(
    tree: &mut TreeBuilder,
    span: Span,
    field: FieldId,
    at: usize,
    len: usize,
) -> Result<Reach, NoMemory>
    requires inside { IsInside tree.old.buffers span }
    requires layer { 0 < length tree.old.layers }
    requires belongs { (row_of field).proto ≡ last_proto tree.old.layers }
    requires read { IsTrue (is_read (row_of field)) }
    requires size { HasSize (row_of field).bits len }
    ensures tree { IfOk result (λ r.
        tree.new ≡ with_items tree.old
        (items_after r (read_of tree.old.buffers field (within span at len) ∷ []))) }
    ensures why { IfOk result (λ r. r ≡ fitted span.len at len) }
    ensures buffers { tree.new.buffers ≡ tree.old.buffers }
    ensures count { length tree.new.layers ≡ length tree.old.layers }
    ensures last { last_proto tree.new.layers ≡ last_proto tree.old.layers }
{
    match part(tree, span, at, len) {
        Some(place) => {
            tree.read_item(field, place)?;
            Ok(Reach::All)
        }
        None => Ok(Reach::Short),
    }
}

#[tactic(auto, unfolding(crate::specs::Layouts::with_items))]
fn derive_part(
    tree: &mut TreeBuilder,
    span: Span,
    field: FieldId,
    value: &Value,
    at: usize,
    len: usize,
) -> Result<Reach, NoMemory>
    requires inside { IsInside tree.old.buffers span }
    requires layer { 0 < length tree.old.layers }
    requires belongs { (row_of field).proto ≡ last_proto tree.old.layers }
    requires kind { IsOfKind (row_of field).kind value.now }
    ensures tree { IfOk result (λ r.
        tree.new ≡ with_items tree.old
        (items_after r (derived_of field value.now (within span at len) ∷ []))) }
    ensures why { IfOk result (λ r. r ≡ fitted span.len at len) }
    ensures buffers { tree.new.buffers ≡ tree.old.buffers }
    ensures count { length tree.new.layers ≡ length tree.old.layers }
    ensures last { last_proto tree.new.layers ≡ last_proto tree.old.layers }
{
    match part(tree, span, at, len) {
        Some(place) => {
            tree.copied_item(field, value, Place::Derived(place))?;
            Ok(Reach::All)
        }
        None => Ok(Reach::Short),
    }
}

#[tactic(auto, unfolding(crate::specs::Layouts::with_items))]
fn make(tree: &mut TreeBuilder, field: FieldId, value: &Value) -> Result<Reach, NoMemory>
    requires layer { 0 < length tree.old.layers }
    requires belongs { (row_of field).proto ≡ last_proto tree.old.layers }
    requires kind { IsOfKind (row_of field).kind value.now }
    ensures tree { IfOk result (λ r.
        tree.new ≡ with_items tree.old (items_after r (made_of field value.now ∷ []))) }
    ensures why { IfOk result (λ r. r ≡ Reach.All) }
    ensures buffers { tree.new.buffers ≡ tree.old.buffers }
    ensures count { length tree.new.layers ≡ length tree.old.layers }
    ensures last { last_proto tree.new.layers ≡ last_proto tree.old.layers }
{
    tree.copied_item(field, value, Place::Made)?;
    Ok(Reach::All)
}

/// So many bytes of a span, from a place in it on, where they are inside it.
fn part(tree: &TreeBuilder, span: Span, at: usize, len: usize) -> Option<Span>
    requires { IsInside tree.now.buffers span }
    ensures part { IfSome result (λ p. (p ≡ within span at len) × (at + len ≤ span.len)) }
    ensures none { IfNone result (span.len < at + len) }
{
    let _bytes = tree.bytes(span);
    let most = span.len as usize;
    if len > most || at > most - len {
        return None;
    }
    Some(Span {
        buffer: span.buffer,
        start: span.start + at as u32,
        len: len as u32,
    })
}

/// The bytes of a field's item, where its row has a size of its own.
fn size(field: FieldId) -> usize
    ensures size { result ≡ size_of field }
    ensures fits { HasSize (row_of field).bits result }
{
    pk_fields::size(field)
}

/// Adds the fault layer behind a layer, where one follows.
pub(crate) fn close_layer(
    tree: &mut TreeBuilder,
    span: Span,
    reach: Reach,
    mode: Mode,
    cut: bool,
) -> Result<(), NoMemory>
    requires inside { IsInside tree.old.buffers span }
    requires room { length tree.old.layers + 1 < 2 ^ 32 }
    ensures tree { IfOk result (λ _.
        tree.new ≡ with_fault tree.old span
        (fault_of mode (cut && reaches_end tree.old.buffers span) reach)) }
    ensures buffers { tree.new.buffers ≡ tree.old.buffers }
    ensures least { OnOk result (length tree.old.layers ≤ length tree.new.layers) }
    ensures most { OnOk result (length tree.new.layers ≤ length tree.old.layers + 1) }
    ensures none { OnOk result (reach ≡ Reach.All → tree.new ≡ tree.old) }
{
    let torn = cut && ends_frame(tree, span);
    if let Some(proto) = fault(mode, torn, reach) {
        let _bytes = tree.bytes(span);
        let end = Span {
            buffer: span.buffer,
            start: span.start + span.len,
            len: 0,
        };
        tree.open_layer(proto, end)?;
    }
    Ok(())
}

/// Whether a span's last byte is the frame's last byte.
fn ends_frame(tree: &TreeBuilder, span: Span) -> bool
    requires { IsInside tree.now.buffers span }
    ensures { result ≡ reaches_end tree.now.buffers span }
{
    let _bytes = tree.bytes(span);
    span.buffer == 0 && span.start + span.len == tree.size(0)
}

#[tactic(auto, unfolding(pk_fields::specs::Fields::row_of, pk_fields::specs::Table::rows))]
fn fault(mode: Mode, torn: bool, reach: Reach) -> Option<FieldId>
    ensures fault { result ≡ fault_of mode torn reach }
    ensures proto { IfSome result IsProtocol }
{
    match reach {
        Reach::All => None,
        Reach::Failed => Some(ids::WS_MALFORMED),
        Reach::Short => match mode {
            Mode::Embedded => None,
            Mode::Plain => Some(if torn {
                ids::WS_SHORT
            } else {
                ids::WS_MALFORMED
            }),
        },
    }
}
