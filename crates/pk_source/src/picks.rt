// By a field's number, the slots that read it.
ghost use Rattle.std.specs.Prelude.{◌≡◌, ◌==◌, ◌<◌, ◌++◌, ℕ, List, [], Some, length, IfOk, IfSome, OnOk};
ghost use Rattle.std.specs.List.{find};
ghost use Rattle.pk_base.specs.declared.span.Span.{Span as SpanShown};
ghost use Rattle.pk_fields.specs.Fields.{IsField, row_of};
ghost use Rattle.pk_source.specs.Found.{slot_told};
ghost use Rattle.pk_source.specs.Picks.{ArePlaces, IsPicked, is_of, pick_at, picked_told, slot_at};
ghost use Rattle.pk_source.specs.declared.picks.Table.{Table as TableShown};
ghost use Rattle.pk_tree.specs.declared.table.Slot.{Slot as SlotShown};

use pk_base::NoMemory;
use pk_fields::ids::FIELD_COUNT;
use pk_fields::{FieldId, field_of, proto};
use pk_tree::Slot;
use std::alloc::Global;
use std::marker::Model;

/// A table that reads a protocol's headers.
#[derive(Clone, Copy)]
pub struct Table {
    pub proto: FieldId,
    pub slots: &'static [Slot],
}

/// The numbers of the slots of a table that are of a field.
#[derive(Clone, Copy)]
pub enum Picks {
    /// Any may be.
    Unknown,
    Never,
    Once(u8),
    Twice(u8, u8),
}

/// The slots of each field in the table of its protocol. It is made once, of the tables that read the headers.
#[derive(Drop)]
pub struct Places {
    all: Vec<Picks>,
}

impl Model for Places {
    ghost use Rattle.std.specs.Prelude.{List};
    ghost use Rattle.pk_source.specs.declared.picks.Picks.{Picks};

    ghost Value = { List Picks };

    ghost view = { λ places. places.all.items };
}

impl Places {
    /// Places of no field: each table is looked through. Takes no memory.
    pub fn none(alloc: Global) -> Places
        ensures { result ≡ [] }
    {
        Places {
            all: Vec::new(alloc),
        }
    }

    pub fn new(alloc: Global, tables: &[Table]) -> Result<Places, NoMemory>
        ensures { IfOk result (ArePlaces tables.now) }
    {
        let mut all = Vec::new(alloc);
        push_all(&mut all, tables)?;
        Ok(Places { all })
    }

    /// The slots of a field.
    pub fn picks(&self, field: FieldId) -> Picks
        ensures { result ≡ pick_at self.now field }
    {
        let place = usize::from(field.0);
        if place < self.all.len() {
            self.all[place]
        } else {
            Picks::Unknown
        }
    }
}

fn push_all(all: &mut Vec<Picks>, tables: &[Table]) -> Result<(), NoMemory>
    requires { length all.old.items ≡ 0 }
    ensures { OnOk result (ArePlaces tables.now all.new.items) }
{
    for number in 0..FIELD_COUNT {
        all.push(picks_in(tables, field_of(number)))?;
    }
    Ok(())
}

/// The slots of a field in the first table of its protocol.
fn picks_in(tables: &[Table], field: FieldId) -> Picks
    ensures { (table : TableShown)
        → find (λ (t : TableShown). t.proto == (row_of field).proto) tables.now ≡ Some table
        → IsPicked field table.slots.now result }
{
    let home = proto(field);
    for table in tables {
        if table.proto == home {
            return picks_of(table.slots, field);
        }
    }
    Picks::Unknown
}

/// The slots of a field in a table.
fn picks_of(slots: &[Slot], field: FieldId) -> Picks
    ensures { IsPicked field slots.now result }
{
    let mut picks = Picks::Never;
    for at in 0..slots.len() {
        match with_slot(picks, slots, at, field) {
            Some(more) => picks = more,
            None => return Picks::Unknown,
        }
    }
    picks
}

/// The picks with one more slot, if it is of the field and there is room.
#[tactic(auto, using(crate::proofs::PickLemmas::other_slot))]
fn with_slot(picks: Picks, slots: &[Slot], at: usize, field: FieldId) -> Option<Picks>
    requires { at < length slots.now }
    ensures { IfSome result (λ more. (span : SpanShown) (sizes : List ℕ)
        → picked_told span sizes field slots.now more
        ≡ picked_told span sizes field slots.now picks
        ++ slot_told span sizes field (slot_at slots.now at)) }
{
    if is_of(slots[at], field) {
        one_more(picks, at)
    } else {
        Some(picks)
    }
}

fn one_more(picks: Picks, at: usize) -> Option<Picks>
    ensures { IfSome result (λ more. (span : SpanShown) (sizes : List ℕ) (field : ℕ)
        (slots : List SlotShown)
        → picked_told span sizes field slots more
        ≡ picked_told span sizes field slots picks
        ++ slot_told span sizes field (slot_at slots at)) }
{
    if at >= 256 {
        return None;
    }
    match picks {
        Picks::Never => Some(Picks::Once(at as u8)),
        Picks::Once(first) => Some(Picks::Twice(first, at as u8)),
        Picks::Unknown | Picks::Twice(_, _) => None,
    }
}

fn is_of(slot: Slot, field: FieldId) -> bool
    ensures { result ≡ is_of field slot }
{
    match slot {
        Slot::Row(f, _) => f == field.0,
        Slot::Part(f, _, _) => f == field.0,
        Slot::PartAt(f, _, _) => f == field.0,
        Slot::Whole(f, _, _) => f == field.0,
        Slot::Check(_) | Slot::Room(_) => false,
    }
}
