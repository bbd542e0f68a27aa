ghost use Rattle.std.specs.Prelude.{◌≡◌, ℕ, Bool as Truth, List, ◌+◌, ◌<◌, ◌≤◌, ◌^◌, false, ◌++◌, length, IfOk, OnOk};
ghost use Rattle.pk_base.specs.declared.heads.Mode.{Mode as ModeValue};
ghost use Rattle.std.specs.List.{slice_index_or};
ghost use Rattle.pk_tree.specs.Buffers.{IsInside};
ghost use Rattle.pk_fields.specs.Fields.{row_of};
ghost use Rattle.pk_fields.specs.FieldSets.{is_in};
ghost use Rattle.pk_tree.specs.Layouts.{step_reach, step_items, items_after, items_read, reach, reach as reach_of, layer_read, StepFits, StepsFit, with_items, is_all};
ghost use Rattle.pk_tree.specs.declared.layout.Step.{Step as StepValue};
ghost use Rattle.pk_tree.specs.Tables.{step_of, steps_of};
ghost use Rattle.pk_tree.specs.Trees.{last_proto};
ghost use Rattle.pk_tree.specs.Values.{IsProtocol};

use crate::builder::TreeBuilder;
use crate::layout::{Reach, Step, all_or, close_layer, read_part, read_some, read_steps};
use pk_base::{Mode, NoMemory, Span};
use pk_fields::{FieldId, field_of, size};

/// One step of a layer's reading that stands in a table: a field's number, and places from the layer's first byte.
/// What depends on the bytes is named by its number in the lists of conditions and of sizes.
#[derive(Clone, Copy)]
pub enum Slot {
    /// A field whose bits the table of fields gives, and its place.
    Row(u16, u16),
    /// A field, its place, and the number of its size. There is no item for none.
    Part(u16, u16, u8),
    /// A field, the number of its place among the sizes, and the number of its size. There is no item for none.
    PartAt(u16, u8, u8),
    /// A field, its place, and the number of its size, with an item also for none.
    Whole(u16, u16, u8),
    /// The number of a condition of the protocol. Reading ends where it doesn't hold.
    Check(u8),
    /// The number of a condition that says whether the next row fits.
    Room(u8),
}

/// Opens a layer and reads it by a table, and then by more steps. Where reading ends early, a fault layer follows.
pub fn read_table(
    tree: &mut TreeBuilder,
    proto: FieldId,
    span: Span,
    slots: &[Slot],
    holds: &[bool],
    sizes: &[usize],
    more: &[Step],
    mode: Mode,
    cut: bool,
) -> Result<Reach, NoMemory>
    requires inside { IsInside tree.old.buffers span }
    requires proto { IsProtocol proto }
    requires room { length tree.old.layers + 2 < 2 ^ 32 }
    requires fits { StepsFit proto (steps_of holds.now sizes.now slots.now) }
    requires more_fit { StepsFit proto more.now }
    ensures layer { IfOk result (λ _.
        tree.new ≡ layer_read tree.old proto span
        (steps_of holds.now sizes.now slots.now ++ more.now) mode cut) }
    ensures why { IfOk result (λ r.
        r ≡ reach span.len (steps_of holds.now sizes.now slots.now ++ more.now)) }
    ensures buffers { tree.new.buffers ≡ tree.old.buffers }
    ensures some { OnOk result (0 < length tree.new.layers) }
    ensures most { OnOk result (length tree.new.layers ≤ length tree.old.layers + 2) }
    ensures last { IfOk result (λ r. r ≡ Reach.All → last_proto tree.new.layers ≡ proto) }
{
    let items = slots.len().saturating_add(more.len());
    tree.open_with_room(proto, span, items)?;
    let reach = read_both(tree, span, slots, holds, sizes, more)?;
    close_layer(tree, span, reach, mode, cut)?;
    Ok(reach)
}

/// As `read_table`, of a layer all of whose steps are known to be read: only rows that are wanted are looked at, and no fault
/// layer follows.
#[inline(never)]
pub fn read_known(
    tree: &mut TreeBuilder,
    proto: FieldId,
    span: Span,
    slots: &[Slot],
    holds: &[bool],
    sizes: &[usize],
) -> Result<(), NoMemory>
    requires inside { IsInside tree.old.buffers span }
    requires proto { IsProtocol proto }
    requires room { length tree.old.layers + 1 < 2 ^ 32 }
    requires fits { StepsFit proto (steps_of holds.now sizes.now slots.now) }
    requires known { reach span.len (steps_of holds.now sizes.now slots.now) ≡ Reach.All }
    ensures layer { OnOk result ((mode : ModeValue) (cut : Truth)
        → tree.new ≡ layer_read tree.old proto span (steps_of holds.now sizes.now slots.now) mode
        cut) }
    ensures buffers { tree.new.buffers ≡ tree.old.buffers }
    ensures count { OnOk result (length tree.new.layers ≡ length tree.old.layers + 1) }
    ensures last { OnOk result (last_proto tree.new.layers ≡ proto) }
{
    tree.open_with_room(proto, span, slots.len())?;
    put_slots(tree, span, slots, holds, sizes)
}

/// Reads slots that can all be read, one by one.
fn put_slots(
    tree: &mut TreeBuilder,
    span: Span,
    slots: &[Slot],
    holds: &[bool],
    sizes: &[usize],
) -> Result<(), NoMemory>
    requires inside { IsInside tree.old.buffers span }
    requires layer { 0 < length tree.old.layers }
    requires fits { StepsFit (last_proto tree.old.layers) (steps_of holds.now sizes.now slots.now) }
    requires known { reach span.len (steps_of holds.now sizes.now slots.now) ≡ Reach.All }
    ensures tree { OnOk result (tree.new ≡ with_items tree.old
        (items_read tree.old.buffers span (steps_of holds.now sizes.now slots.now))) }
    ensures buffers { tree.new.buffers ≡ tree.old.buffers }
    ensures count { length tree.new.layers ≡ length tree.old.layers }
    ensures last { last_proto tree.new.layers ≡ last_proto tree.old.layers }
{
    for slot in slots {
        put_slot(tree, span, *slot, holds, sizes)?;
    }
    Ok(())
}

/// Reads a slot that can be read, if it isn't the row of a field that isn't wanted.
#[inline(always)]
fn put_slot(
    tree: &mut TreeBuilder,
    span: Span,
    slot: Slot,
    holds: &[bool],
    sizes: &[usize],
) -> Result<(), NoMemory>
    requires inside { IsInside tree.old.buffers span }
    requires layer { 0 < length tree.old.layers }
    requires fits { StepFits (last_proto tree.old.layers) (step_of holds.now sizes.now slot) }
    requires known { step_reach span.len (step_of holds.now sizes.now slot) ≡ Reach.All }
    ensures tree { OnOk result (tree.new ≡ with_items tree.old
        (step_items tree.old.buffers span (step_of holds.now sizes.now slot))) }
    ensures buffers { tree.new.buffers ≡ tree.old.buffers }
    ensures count { length tree.new.layers ≡ length tree.old.layers }
    ensures last { last_proto tree.new.layers ≡ last_proto tree.old.layers }
{
    if let Slot::Row(field, _) = slot {
        if !tree.wants(field_of(field)) {
            return Ok(());
        }
    }
    read_slot(tree, span, slot, holds, sizes)?;
    Ok(())
}

/// Opens a layer of which no field is wanted, and closes it. `reach` is how far its steps would be read.
pub fn pass_layer(
    tree: &mut TreeBuilder,
    proto: FieldId,
    span: Span,
    reach: Reach,
    mode: Mode,
    cut: bool,
) -> Result<(), NoMemory>
    requires inside { IsInside tree.old.buffers span }
    requires proto { IsProtocol proto }
    requires room { length tree.old.layers + 2 < 2 ^ 32 }
    requires none { (f : ℕ) → (row_of f).proto ≡ proto → is_in tree.old.wanted f ≡ false }
    ensures layer { OnOk result ((steps : List StepValue) → StepsFit proto steps
        → reach ≡ reach_of span.len steps
        → tree.new ≡ layer_read tree.old proto span steps mode cut) }
    ensures buffers { tree.new.buffers ≡ tree.old.buffers }
    ensures some { OnOk result (0 < length tree.new.layers) }
    ensures most { OnOk result (length tree.new.layers ≤ length tree.old.layers + 2) }
    ensures last { OnOk result (reach ≡ Reach.All → last_proto tree.new.layers ≡ proto) }
{
    tree.open_with_room(proto, span, 0)?;
    close_layer(tree, span, reach, mode, cut)?;
    Ok(())
}

/// As `pass_layer`, of a layer all of whose steps are known to be read: no fault layer follows.
pub fn pass_known(tree: &mut TreeBuilder, proto: FieldId, span: Span) -> Result<(), NoMemory>
    requires inside { IsInside tree.old.buffers span }
    requires proto { IsProtocol proto }
    requires room { length tree.old.layers + 1 < 2 ^ 32 }
    requires none { (f : ℕ) → (row_of f).proto ≡ proto → is_in tree.old.wanted f ≡ false }
    ensures layer { OnOk result ((steps : List StepValue) (mode : ModeValue) (cut : Truth)
        → StepsFit proto steps → reach span.len steps ≡ Reach.All
        → tree.new ≡ layer_read tree.old proto span steps mode cut) }
    ensures buffers { tree.new.buffers ≡ tree.old.buffers }
    ensures count { OnOk result (length tree.new.layers ≡ length tree.old.layers + 1) }
    ensures last { OnOk result (last_proto tree.new.layers ≡ proto) }
{
    tree.open_with_room(proto, span, 0)
}

/// Reads a table, and more steps where all of it was read.
fn read_both(
    tree: &mut TreeBuilder,
    span: Span,
    slots: &[Slot],
    holds: &[bool],
    sizes: &[usize],
    more: &[Step],
) -> Result<Reach, NoMemory>
    requires inside { IsInside tree.old.buffers span }
    requires layer { 0 < length tree.old.layers }
    requires fits { StepsFit (last_proto tree.old.layers) (steps_of holds.now sizes.now slots.now) }
    requires more_fit { StepsFit (last_proto tree.old.layers) more.now }
    ensures tree { IfOk result (λ _.
        tree.new ≡ with_items tree.old
        (items_read tree.old.buffers span
        (steps_of holds.now sizes.now slots.now ++ more.now))) }
    ensures why { IfOk result (λ r.
        r ≡ reach span.len (steps_of holds.now sizes.now slots.now ++ more.now)) }
    ensures buffers { tree.new.buffers ≡ tree.old.buffers }
    ensures count { length tree.new.layers ≡ length tree.old.layers }
    ensures last { last_proto tree.new.layers ≡ last_proto tree.old.layers }
{
    let front = read_slots(tree, span, slots, holds, sizes)?;
    if !front.is_all() {
        return Ok(front);
    }
    let back = read_steps(tree, span, more)?;
    Ok(back)
}

/// Reads the slots one by one, up to the first that can't be read.
fn read_slots(
    tree: &mut TreeBuilder,
    span: Span,
    slots: &[Slot],
    holds: &[bool],
    sizes: &[usize],
) -> Result<Reach, NoMemory>
    requires inside { IsInside tree.old.buffers span }
    requires layer { 0 < length tree.old.layers }
    requires fits { StepsFit (last_proto tree.old.layers) (steps_of holds.now sizes.now slots.now) }
    ensures tree { IfOk result (λ _.
        tree.new ≡ with_items tree.old
        (items_read tree.old.buffers span (steps_of holds.now sizes.now slots.now))) }
    ensures why { IfOk result (λ r. r ≡ reach span.len (steps_of holds.now sizes.now slots.now)) }
    ensures buffers { tree.new.buffers ≡ tree.old.buffers }
    ensures count { length tree.new.layers ≡ length tree.old.layers }
    ensures last { last_proto tree.new.layers ≡ last_proto tree.old.layers }
{
    for slot in slots {
        let reach = read_slot(tree, span, *slot, holds, sizes)?;
        if !reach.is_all() {
            return Ok(reach);
        }
    }
    Ok(Reach::All)
}

#[tactic(auto, unfolding(crate::specs::Layouts::step_reach, crate::specs::Layouts::step_items, crate::specs::Layouts::with_items))]
fn read_slot(
    tree: &mut TreeBuilder,
    span: Span,
    slot: Slot,
    holds: &[bool],
    sizes: &[usize],
) -> Result<Reach, NoMemory>
    requires inside { IsInside tree.old.buffers span }
    requires layer { 0 < length tree.old.layers }
    requires fits { StepFits (last_proto tree.old.layers) (step_of holds.now sizes.now slot) }
    ensures tree { IfOk result (λ r.
        tree.new ≡ with_items tree.old
        (items_after r (step_items tree.old.buffers span (step_of holds.now sizes.now slot)))) }
    ensures why { IfOk result (λ r. r ≡ step_reach span.len (step_of holds.now sizes.now slot)) }
    ensures buffers { tree.new.buffers ≡ tree.old.buffers }
    ensures count { length tree.new.layers ≡ length tree.old.layers }
    ensures last { last_proto tree.new.layers ≡ last_proto tree.old.layers }
{
    match slot {
        Slot::Row(field, at) => {
            let field = field_of(field);
            read_part(tree, span, field, usize::from(at), size(field))
        }
        Slot::Part(field, at, number) => {
            let len = size_at(sizes, number);
            read_some(tree, span, field_of(field), usize::from(at), len)
        }
        Slot::PartAt(field, at, number) => {
            let len = size_at(sizes, number);
            read_some(tree, span, field_of(field), size_at(sizes, at), len)
        }
        Slot::Whole(field, at, number) => {
            let len = size_at(sizes, number);
            read_part(tree, span, field_of(field), usize::from(at), len)
        }
        Slot::Check(number) => Ok(all_or(condition(holds, number), Reach::Failed)),
        Slot::Room(number) => Ok(all_or(condition(holds, number), Reach::Short)),
    }
}

/// The size of a number; 0 where there is none.
fn size_at(sizes: &[usize], number: u8) -> usize
    ensures { result ≡ slice_index_or sizes.now number 0 }
{
    let place = usize::from(number);
    if place < sizes.len() { sizes[place] } else { 0 }
}

/// The condition of a number; one that isn't there doesn't hold.
fn condition(holds: &[bool], number: u8) -> bool
    ensures { result ≡ slice_index_or holds.now number false }
{
    let place = usize::from(number);
    place < holds.len() && holds[place]
}
