ghost use Rattle.std.specs.Prelude.{◌≡◌, ◌<◌, ◌∷◌, [], ℕ, List, is_some, length, slice_get, IfOk, OnOk};
ghost use Rattle.std.specs.List.{All as ForAll, AllByRecursion as Each};
ghost use Rattle.pk_fields.specs.Fields.{row_of};
ghost use Rattle.pk_source.specs.Firsts.{IsReadBy, first_value};
ghost use Rattle.pk_source.specs.Found.{IsReadable, first_in, is_there, value_at};
ghost use Rattle.pk_source.specs.Outlines.{IsOutline, outlined, protocols, protocols_of};
ghost use Rattle.pk_source.specs.Picks.{Knows, pick_at};
ghost use Rattle.pk_source.specs.declared.header.Note.{Note as NoteShown};
ghost use Rattle.pk_tree.specs.FieldValues.{values_of};
ghost use Rattle.pk_tree.specs.Trees.{IsTree, proto_at};
ghost use Rattle.pk_tree.specs.Values.{IsOfKind};

use crate::first::{First, FirstFound, first_of};
use crate::found::{Asked, find, find_in, is_protocol, only_note, only_row};
use crate::header::{Header, Note, Told};
use crate::picks::Places;
use crate::reader::{Parts, Reader};
use crate::reading::{part_at, read_value};
use pk_base::{Layers, NoMemory, Octets, Value};
use pk_fields::{FieldId, FieldSet, proto};
use std::alloc::Global;
use std::marker::Model;

/// The headers of a frame, each read whole, and what is told beside. It has the values of the tree that these headers
/// make, and reads each where it stands.
#[derive(Drop)]
pub struct Outline<'f> {
    bytes: &'f Octets,
    wanted: &'f FieldSet,
    headers: &'f [Header],
    notes: &'f [Note],
    places: &'f Places,
}

impl<'f> Model for Outline<'f> {
    ghost use Rattle.std.specs.List.{All as ForAll};
    ghost use Rattle.pk_source.specs.Outlines.{IsOutline, outlined};
    ghost use Rattle.pk_source.specs.Picks.{Knows};
    ghost use Rattle.pk_tree.specs.Trees.{TreeShown};

    ghost Value = { TreeShown };

    ghost view = { λ o. outlined o.bytes.now o.wanted.now o.headers.now o.notes.now };

    ghost invariant = { λ o. IsOutline o.bytes.now o.wanted.now o.headers.now o.notes.now
        × ForAll (Knows o.places.now) o.headers.now };
}

impl<'f> Outline<'f> {
    pub fn new(
        bytes: &'f Octets,
        wanted: &'f FieldSet,
        headers: &'f [Header],
        notes: &'f [Note],
        places: &'f Places,
    ) -> Outline<'f>
        requires outline { IsOutline bytes.now wanted.now headers.now notes.now }
        requires known { ForAll (Knows places.now) headers.now }
        ensures tree { result ≡ outlined bytes.now wanted.now headers.now notes.now }
        ensures fits { IsTree result }
    {
        Outline {
            bytes,
            wanted,
            headers,
            notes,
            places,
        }
    }

    /// It is one of the trees that can be.
    pub fn fits(&self)
        ensures { IsTree self.now }
    {
        let _headers = self.headers;
    }

    /// The values of a field or protocol in the chosen layers, in the tree's order. Each is looked for anew: a field has few.
    pub fn values(
        &self,
        alloc: Global,
        field: FieldId,
        layers: &Layers,
    ) -> Result<Vec<Value>, NoMemory>
        ensures values { IfOk result (λ values.
            values.items ≡ values_of self.now field layers.now) }
        ensures kind { IfOk result (λ values. Each (IsOfKind (row_of field).kind) values.items) }
    {
        self.fits();
        let mut values = Vec::new(alloc);
        push_all(&mut values, self, field, layers)?;
        Ok(values)
    }

    /// Whether there is a value of a field or protocol in the chosen layers.
    pub fn has(&self, field: FieldId, layers: &Layers) -> bool
        ensures { result ≡ is_there (values_of self.now field layers.now) }
    {
        is_found(find(
            self.wanted,
            self.headers,
            self.notes,
            &asked(self.places, field),
            layers,
            0,
        ))
    }

    /// Whether there is a value of a number, from 0, among those of a field in the chosen layers.
    pub fn has_at(&self, field: FieldId, layers: &Layers, k: usize) -> bool
        ensures { result ≡ is_some (slice_get (values_of self.now field layers.now) k) }
    {
        is_found(find(
            self.wanted,
            self.headers,
            self.notes,
            &asked(self.places, field),
            layers,
            k,
        ))
    }

    /// The value of a number, from 0, among those of a field in the chosen layers.
    pub fn value(
        &self,
        field: FieldId,
        layers: &Layers,
        k: usize,
    ) -> Result<Option<Value>, NoMemory>
        ensures { IfOk result (λ value. value ≡ slice_get (values_of self.now field layers.now) k) }
    {
        match find(
            self.wanted,
            self.headers,
            self.notes,
            &asked(self.places, field),
            layers,
            k,
        ) {
            Some(told) => Ok(Some(value_at(self.bytes, field, told)?)),
            None => Ok(None),
        }
    }

    /// The first value of a field in all layers, or the bytes that hold it, and whether there is a second one. It takes no memory.
    #[inline(always)]
    pub fn first_and_more(&self, field: FieldId) -> FirstFound<'f>
        ensures first { first_value field result.first
            ≡ slice_get (values_of self.now field Layers.All) 0 }
        ensures more { result.more ≡ is_some (slice_get (values_of self.now field Layers.All) 1) }
        ensures reads { IsReadBy field result.first }
    {
        let asked = asked(self.places, field);
        match only_row(self.wanted, self.headers, self.notes, &asked) {
            Some(span) => FirstFound {
                first: first_of(self.bytes, Told::Read(span)),
                more: false,
            },
            None => self.first_beside(field),
        }
    }

    /// The same of a field that isn't read by one row.
    #[inline(never)]
    fn first_beside(&self, field: FieldId) -> FirstFound<'f>
        ensures first { first_value field result.first
            ≡ slice_get (values_of self.now field Layers.All) 0 }
        ensures more { result.more ≡ is_some (slice_get (values_of self.now field Layers.All) 1) }
        ensures reads { IsReadBy field result.first }
    {
        let asked = asked(self.places, field);
        match only_note(self.wanted, self.headers, self.notes, &asked) {
            Some(told) => FirstFound {
                first: first_of(self.bytes, told),
                more: false,
            },
            None => self.first_sought(field),
        }
    }

    /// The same of any field, by a search for each.
    #[inline(never)]
    fn first_sought(&self, field: FieldId) -> FirstFound<'f>
        ensures first { first_value field result.first
            ≡ slice_get (values_of self.now field Layers.All) 0 }
        ensures more { result.more ≡ is_some (slice_get (values_of self.now field Layers.All) 1) }
        ensures reads { IsReadBy field result.first }
    {
        match find(
            self.wanted,
            self.headers,
            self.notes,
            &asked(self.places, field),
            &Layers::All,
            0,
        ) {
            Some(told) => FirstFound {
                first: first_of(self.bytes, told),
                more: self.has_at(field, &Layers::All, 1),
            },
            None => FirstFound {
                first: First::Nothing,
                more: false,
            },
        }
    }

    /// What reads its fields one after the other.
    #[inline(always)]
    pub fn reader(&self) -> Reader<'f>
        ensures { result ≡ self.now }
    {
        Reader::new(Parts {
            bytes: self.bytes,
            wanted: self.wanted,
            headers: self.headers,
            notes: self.notes,
            places: self.places,
        })
    }

    /// How many layers the headers make.
    pub fn layer_count(&self) -> usize
        ensures { result ≡ length self.now.layers }
    {
        self.headers.len()
    }

    /// The protocol of the layer at a place.
    pub fn protocol(&self, place: usize) -> FieldId
        requires { place < length self.now.layers }
        ensures { result ≡ proto_at self.now.layers place }
    {
        protocol_of(self.headers, place)
    }

    /// The headers. Each is of its layer's protocol.
    pub fn headers(&self) -> &'f [Header]
        ensures { protocols_of result.now ≡ protocols self.now.layers }
    {
        self.headers
    }

    /// The first value of a field in the layer at a place, if there is one.
    #[inline(always)]
    pub fn value_in(&self, place: usize, field: FieldId) -> Result<Option<Value>, NoMemory>
        ensures { IfOk result (λ value.
            value ≡ first_in field (slice_get self.now.layers place)) }
    {
        match find_in(
            self.wanted,
            self.headers,
            self.notes,
            &asked(self.places, field),
            place,
        ) {
            Some(told) => Ok(Some(value_at(self.bytes, field, told)?)),
            None => Ok(None),
        }
    }
}

/// The protocol of the header at a place.
fn protocol_of(headers: &[Header], place: usize) -> FieldId
    requires { place < length headers.now }
    ensures { (bytes wanted : List ℕ) (notes : List NoteShown)
        → result ≡ proto_at (outlined bytes wanted headers.now notes).layers place }
{
    headers[place].proto
}

/// Adds the values of a field to none.
fn push_all(
    values: &mut Vec<Value>,
    outline: &Outline<'_>,
    field: FieldId,
    layers: &Layers,
) -> Result<(), NoMemory>
    requires { values.old.items ≡ [] }
    ensures { OnOk result (values.new.items ≡ values_of outline.now field layers.now) }
{
    'values: while let Some(value) = outline.value(field, layers, values.len())? {
        values.push(value)?;
    }
    Ok(())
}

#[inline(always)]
fn asked(places: &Places, field: FieldId) -> Asked
    ensures field { result.field ≡ field }
    ensures home { result.home ≡ (row_of field).proto }
    ensures picks { result.picks ≡ pick_at places.now field }
{
    Asked {
        field,
        home: proto(field),
        picks: places.picks(field),
    }
}

fn is_found(told: Option<Told>) -> bool
    ensures { result ≡ is_some told }
{
    told.is_some()
}

/// The value that stands at a place.
#[inline(always)]
#[tactic(auto, using(crate::proofs::OutlineLaws::proto_value))]
fn value_at(bytes: &Octets, field: FieldId, told: Told) -> Result<Value, NoMemory>
    requires { IsReadable (bytes.now ∷ []) field told }
    ensures { IfOk result (λ value. value ≡ value_at (bytes.now ∷ []) field told) }
{
    match told {
        Told::Read(span) => {
            if is_protocol(field) {
                Ok(Value::Proto(part_at(bytes, span)?))
            } else {
                read_value(bytes, field, span)
            }
        }
        Told::Number(number) => Ok(Value::Uint(number)),
        Told::Moment(time) => Ok(Value::Time(time)),
    }
}
