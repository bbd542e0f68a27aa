// Where the values of a field stand, counted from 0.
ghost use Rattle.std.specs.Prelude.{◌≡◌, ◌+◌, ◌<◌, ◌≤◌, ◌^◌, ◌∷◌, [], true, false, Bool as Truth, List, ℕ, IfSome, Some, option_to_list, slice_get, slice_index_or, length};
ghost use Rattle.std.specs.List.{All as ForAll};
ghost use Rattle.pk_fields.specs.FieldSets.{is_in};
ghost use Rattle.pk_fields.specs.Fields.{row_of};
ghost use Rattle.pk_base.specs.declared.chosen.Layers.{Layers as LayersShown};
ghost use Rattle.pk_source.specs.Found.{IsOnlyFrom, IsOnlyOf, all_told, asked_told, fields_told, first_told, header_told, is_alone, is_asked, kth, layer_told, layers_told, note_told, notes_told, rows_told, slot_told, some_read, there, told_in};
ghost use Rattle.pk_source.specs.declared.header.Header.{Header as HeaderShown};
ghost use Rattle.pk_source.specs.declared.header.Note.{Note as NoteShown};
ghost use Rattle.pk_source.specs.Picks.{has_one_slot, IsRowIn, IsPicked, IsPickedIn, picked_told, slot_at};
ghost use Rattle.pk_source.specs.Outlines.{IsReadWhole, SlotsKnown, sizes_of};
ghost use Rattle.pk_tree.specs.Layouts.{step_reach, within};
ghost use Rattle.pk_tree.specs.Tables.{step_of};
ghost use Rattle.pk_tree.specs.Values.{is_proto, size_of};

use crate::header::{Header, Note, Told};
use crate::picks::Picks;
use pk_base::{Layers, Span};
use pk_fields::{FieldId, FieldSet, ValueKind, kind, size};
use pk_tree::{Reach, Slot};

/// The one of a number among some, or the number that is left behind them all.
#[derive(Clone, Copy)]
pub enum Kth {
    At(Told),
    Left(usize),
}

/// What is asked: a field, its protocol, and the slots that are of it in the protocol's table.
#[derive(Clone, Copy)]
pub struct Asked {
    pub field: FieldId,
    pub home: FieldId,
    pub picks: Picks,
}

/// A field's place of a number in the chosen layers, or a protocol's layer.
#[tactic(auto, unfolding(crate::specs::Found::all_told))]
pub(crate) fn find(
    wanted: &FieldSet,
    headers: &[Header],
    notes: &[Note],
    asked: &Asked,
    layers: &Layers,
    k: usize,
) -> Option<Told>
    requires short { ForAll (λ (h : HeaderShown). h.span.start + h.span.len < 2 ^ 32) headers.now }
    requires whole { (buffers : List (List ℕ)) × ForAll (IsReadWhole buffers) headers.now }
    requires home { asked.now.home ≡ (row_of asked.now.field).proto }
    requires picked { ForAll (IsPickedIn asked.now) headers.now }
    ensures { result ≡ slice_get (all_told wanted.now headers.now notes.now asked.now.field layers.now) k }
{
    if is_protocol(asked.field) {
        return there(kth_layer(headers, asked.field, layers, k));
    }
    if !wanted.contains(asked.field) {
        return None;
    }
    if k > 0 {
        if is_single(headers, notes, asked) {
            return None;
        }
    } else if let Some(span) = first_row(headers, asked, layers) {
        return Some(Told::Read(span));
    }
    there(kth_told(headers, notes, asked, layers, k))
}

/// The bytes of a field's only place, where the only header of its protocol has it by a row of a fixed place. Of others it knows
/// nothing.
#[inline(always)]
pub(crate) fn only_row(
    wanted: &FieldSet,
    headers: &[Header],
    notes: &[Note],
    asked: &Asked,
) -> Option<Span>
    requires short { ForAll (λ (h : HeaderShown). h.span.start + h.span.len < 2 ^ 32) headers.now }
    requires whole { (buffers : List (List ℕ)) × ForAll (IsReadWhole buffers) headers.now }
    requires home { asked.now.home ≡ (row_of asked.now.field).proto }
    requires picked { ForAll (IsPickedIn asked.now) headers.now }
    ensures { IfSome result (λ span.
        all_told wanted.now headers.now notes.now asked.now.field Layers.All
        ≡ Told.Read span ∷ []) }
{
    let Picks::Once(number) = asked.picks else {
        return None;
    };
    if is_protocol(asked.field) || !wanted.contains(asked.field) || !is_untold(notes, asked.field) {
        return None;
    }
    match only_header(headers, asked.home) {
        Some(header) => row_in(header, number, asked.field, &Layers::All),
        None => None,
    }
}

/// The only header of a protocol, sought once for several of its fields.
#[inline(never)]
pub(crate) fn lone_header(headers: &[Header], home: FieldId) -> Option<&Header>
    ensures { IfSome result (λ header. IsOnlyOf home headers.now header.now) }
{
    only_header(headers, home)
}

/// The bytes of a wanted field that a row of a fixed place reads in a header, where nothing is told of it beside.
#[inline(always)]
pub(crate) fn lone_row(
    wanted: &FieldSet,
    notes: &[Note],
    header: &Header,
    number: u8,
    field: FieldId,
) -> Option<Span>
    requires end { header.now.span.start + header.now.span.len < 2 ^ 32 }
    requires known { SlotsKnown header.now.span.len (sizes_of header.now) header.now.slots.now }
    ensures wants { IfSome result (λ _. is_in wanted.now field ≡ true) }
    ensures untold { IfSome result (λ _. notes_told field notes.now ≡ []) }
    ensures row { IfSome result (IsRowIn header.now number field Layers.All) }
{
    if !wanted.contains(field) || !is_untold(notes, field) {
        return None;
    }
    row_in(header, number, field, &Layers::All)
}

/// What is told of a field beside the only header of its protocol, whose table doesn't read the field, where that is one note. Of
/// others it knows nothing.
#[inline(always)]
pub(crate) fn only_note(
    wanted: &FieldSet,
    headers: &[Header],
    notes: &[Note],
    asked: &Asked,
) -> Option<Told>
    requires home { asked.now.home ≡ (row_of asked.now.field).proto }
    requires picked { ForAll (IsPickedIn asked.now) headers.now }
    ensures { IfSome result (λ told.
        all_told wanted.now headers.now notes.now asked.now.field Layers.All ≡ told ∷ []) }
{
    let Picks::Never = asked.picks else {
        return None;
    };
    if is_protocol(asked.field) || !wanted.contains(asked.field) {
        return None;
    }
    match only_header(headers, asked.home) {
        Some(_) => only_told(notes, asked.field),
        None => None,
    }
}

/// What is told of a field, where that is one note.
#[inline(always)]
fn only_told(notes: &[Note], field: FieldId) -> Option<Told>
    ensures { IfSome result (λ told. notes_told field notes.now ≡ told ∷ []) }
{
    for at in 0..notes.len() {
        if notes[at].field == field {
            if is_untold(&notes[at + 1..], field) {
                return Some(notes[at].told);
            }
            return None;
        }
    }
    None
}

/// The only header of a protocol, where it has one.
#[inline(always)]
fn only_header(headers: &[Header], home: FieldId) -> Option<&Header>
    ensures { IfSome result (λ header. IsOnlyOf home headers.now header.now) }
{
    for at in 0..headers.len() {
        if headers[at].proto == home {
            return only_at(headers, at, home);
        }
    }
    None
}

/// The header at a place, where none behind it is of the protocol.
#[inline(always)]
fn only_at(headers: &[Header], at: usize, home: FieldId) -> Option<&Header>
    requires { at < length headers.now }
    ensures { IfSome result (λ header. IsOnlyFrom at home headers.now header.now) }
{
    if has_none(&headers[at + 1..], home) {
        Some(&headers[at])
    } else {
        None
    }
}

#[inline(always)]
fn has_none(headers: &[Header], proto: FieldId) -> bool
    ensures { result ≡ is_alone true proto headers.now }
{
    for header in headers {
        if header.proto == proto {
            return false;
        }
    }
    true
}

/// The bytes of a field's first place, where the first header of its protocol is chosen, and the one slot of the table that is of
/// it is a row of a fixed place. It answers for most fields; of others it knows nothing.
#[inline(always)]
fn first_row(headers: &[Header], asked: &Asked, layers: &Layers) -> Option<Span>
    requires short { ForAll (λ (h : HeaderShown). h.span.start + h.span.len < 2 ^ 32) headers.now }
    requires whole { (buffers : List (List ℕ)) × ForAll (IsReadWhole buffers) headers.now }
    requires home { asked.now.home ≡ (row_of asked.now.field).proto }
    requires picked { ForAll (IsPickedIn asked.now) headers.now }
    ensures { IfSome result (λ span. (notes : List NoteShown)
        → slice_get (fields_told asked.now.field layers.now notes headers.now) 0 ≡ Some (Told.Read span)) }
{
    let Picks::Once(number) = asked.picks else {
        return None;
    };
    for header in headers {
        if header.proto == asked.home {
            return row_in(header, number, asked.field, layers);
        }
    }
    None
}

/// The bytes that a slot of a table reads for a field, where the layer is chosen and the slot is a row of a fixed place.
#[inline(always)]
#[tactic(auto, unfolding(crate::specs::Found::slot_told, pk_tree::specs::Layouts::step_reach))]
fn row_in(header: &Header, number: u8, field: FieldId, layers: &Layers) -> Option<Span>
    requires end { header.now.span.start + header.now.span.len < 2 ^ 32 }
    requires known { SlotsKnown header.now.span.len (sizes_of header.now) header.now.slots.now }
    ensures { IfSome result (IsRowIn header.now number field layers.now) }
{
    let place = usize::from(number);
    if place >= header.slots.len() || !layers.contains(header.nth) {
        return None;
    }
    match header.slots[place] {
        Slot::Row(f, at) if f == field.0 => {
            Some(part_of(header.span, usize::from(at), size(field)))
        }
        _ => None,
    }
}

/// Whether a field has at most one place: one header is of its protocol, one slot of the table is of it, and nothing is told beside.
#[inline(always)]
#[tactic(auto, using(crate::proofs::SingleLemmas::at_most_one))]
fn is_single(headers: &[Header], notes: &[Note], asked: &Asked) -> bool
    requires home { asked.now.home ≡ (row_of asked.now.field).proto }
    requires picked { ForAll (IsPickedIn asked.now) headers.now }
    ensures { result ≡ true → (layers : LayersShown)
        → length (fields_told asked.now.field layers notes.now headers.now) ≤ 1 }
{
    has_one_slot(asked.picks) && is_untold(notes, asked.field) && is_alone(headers, asked.home)
}

#[inline(always)]
fn has_one_slot(picks: Picks) -> bool
    ensures { result ≡ has_one_slot picks }
{
    match picks {
        Picks::Never | Picks::Once(_) => true,
        Picks::Unknown | Picks::Twice(_, _) => false,
    }
}

#[inline(always)]
fn is_untold(notes: &[Note], field: FieldId) -> bool
    ensures { result ≡ true → notes_told field notes.now ≡ [] }
{
    for note in notes {
        if note.field == field {
            return false;
        }
    }
    true
}

/// Whether at most one header is of a protocol.
#[inline(always)]
fn is_alone(headers: &[Header], proto: FieldId) -> bool
    ensures { result ≡ is_alone false proto headers.now }
{
    let mut seen = false;
    for header in headers {
        if header.proto == proto {
            if seen {
                return false;
            }
            seen = true;
        }
    }
    true
}

/// A field's first place in the layer of the header at a place.
#[inline(always)]
pub(crate) fn find_in(
    wanted: &FieldSet,
    headers: &[Header],
    notes: &[Note],
    asked: &Asked,
    place: usize,
) -> Option<Told>
    requires short { ForAll (λ (h : HeaderShown). h.span.start + h.span.len < 2 ^ 32) headers.now }
    requires whole { (buffers : List (List ℕ)) × ForAll (IsReadWhole buffers) headers.now }
    requires home { asked.now.home ≡ (row_of asked.now.field).proto }
    requires picked { ForAll (IsPickedIn asked.now) headers.now }
    ensures { result
        ≡ first_told wanted.now notes.now asked.now.field (slice_get headers.now place) }
{
    match headers.get(place) {
        Some(header) => first_told(wanted, header, notes, asked),
        None => None,
    }
}

/// A field's first place in the layer of one header.
#[inline(always)]
#[tactic(auto, unfolding(crate::specs::Found::told_in))]
fn first_told(wanted: &FieldSet, header: &Header, notes: &[Note], asked: &Asked) -> Option<Told>
    requires end { header.now.span.start + header.now.span.len < 2 ^ 32 }
    requires whole { (buffers : List (List ℕ)) × IsReadWhole buffers header.now }
    requires home { asked.now.home ≡ (row_of asked.now.field).proto }
    requires picked { IsPickedIn asked.now header.now }
    ensures { result ≡ slice_get (told_in wanted.now notes.now asked.now.field header.now) 0 }
{
    if !wanted.contains(asked.field) {
        return None;
    }
    if let Some(span) = own_row(header, asked) {
        return Some(Told::Read(span));
    }
    there(asked_kth(header, notes, asked, &Layers::All, 0))
}

/// The bytes of a field's first place in a header of its protocol, where the one slot of the table that is of it is a row of a fixed
/// place. It answers for most fields; of others it knows nothing.
#[inline(always)]
fn own_row(header: &Header, asked: &Asked) -> Option<Span>
    requires end { header.now.span.start + header.now.span.len < 2 ^ 32 }
    requires whole { (buffers : List (List ℕ)) × IsReadWhole buffers header.now }
    requires home { asked.now.home ≡ (row_of asked.now.field).proto }
    requires picked { IsPickedIn asked.now header.now }
    ensures { IfSome result (λ span. (notes : List NoteShown)
        → slice_get (asked_told asked.now.field Layers.All notes header.now) 0 ≡ Some (Told.Read span)) }
{
    let Picks::Once(number) = asked.picks else {
        return None;
    };
    if header.proto == asked.home {
        row_in(header, number, asked.field, &Layers::All)
    } else {
        None
    }
}

#[inline(always)]
fn there(kth: Kth) -> Option<Told>
    ensures { result ≡ there kth }
{
    match kth {
        Kth::At(told) => Some(told),
        Kth::Left(_) => None,
    }
}

#[inline(always)]
pub(crate) fn is_protocol(field: FieldId) -> bool
    ensures { result ≡ is_proto (row_of field).kind }
{
    matches!(kind(field), ValueKind::Proto)
}

/// The layer of a number among the chosen ones of a protocol.
fn kth_layer(headers: &[Header], proto: FieldId, layers: &Layers, k: usize) -> Kth
    ensures { result ≡ kth (layers_told proto layers.now headers.now) k }
{
    let mut left = k;
    for header in headers {
        match layer_kth(header, proto, layers, left) {
            Kth::At(told) => return Kth::At(told),
            Kth::Left(rest) => left = rest,
        }
    }
    Kth::Left(left)
}

#[inline(always)]
fn layer_kth(header: &Header, proto: FieldId, layers: &Layers, k: usize) -> Kth
    ensures { result ≡ kth (layer_told proto layers.now header.now) k }
{
    if is_asked(header, proto, layers) {
        kth_of(Some(Told::Read(header.span)), k)
    } else {
        Kth::Left(k)
    }
}

/// The place of a number among a field's places in the chosen layers.
fn kth_told(headers: &[Header], notes: &[Note], asked: &Asked, layers: &Layers, k: usize) -> Kth
    requires short { ForAll (λ (h : HeaderShown). h.span.start + h.span.len < 2 ^ 32) headers.now }
    requires whole { (buffers : List (List ℕ)) × ForAll (IsReadWhole buffers) headers.now }
    requires home { asked.now.home ≡ (row_of asked.now.field).proto }
    requires picked { ForAll (IsPickedIn asked.now) headers.now }
    ensures { result ≡ kth (fields_told asked.now.field layers.now notes.now headers.now) k }
{
    let mut left = k;
    for header in headers {
        if is_asked(header, asked.home, layers) {
            match header_kth(header, notes, asked, left) {
                Kth::At(told) => return Kth::At(told),
                Kth::Left(rest) => left = rest,
            }
        }
    }
    Kth::Left(left)
}

#[inline(always)]
fn asked_kth(header: &Header, notes: &[Note], asked: &Asked, layers: &Layers, k: usize) -> Kth
    requires end { header.now.span.start + header.now.span.len < 2 ^ 32 }
    requires whole { (buffers : List (List ℕ)) × IsReadWhole buffers header.now }
    requires home { asked.now.home ≡ (row_of asked.now.field).proto }
    requires picked { IsPickedIn asked.now header.now }
    ensures { result ≡ kth (asked_told asked.now.field layers.now notes.now header.now) k }
{
    if is_asked(header, asked.home, layers) {
        header_kth(header, notes, asked, k)
    } else {
        Kth::Left(k)
    }
}

#[inline(never)]
fn header_kth(header: &Header, notes: &[Note], asked: &Asked, k: usize) -> Kth
    requires end { header.now.span.start + header.now.span.len < 2 ^ 32 }
    requires whole { (buffers : List (List ℕ)) × IsReadWhole buffers header.now }
    requires picked { IsPicked asked.now.field header.now.slots.now asked.now.picks }
    ensures { result ≡ kth (header_told asked.now.field notes.now header.now) k }
{
    match picked_kth(header, asked, k) {
        Kth::At(told) => Kth::At(told),
        Kth::Left(left) => note_kth(notes, asked.field, left),
    }
}

/// The place of a number among those of the slots that were picked.
#[inline(always)]
fn picked_kth(header: &Header, asked: &Asked, k: usize) -> Kth
    requires end { header.now.span.start + header.now.span.len < 2 ^ 32 }
    requires known { SlotsKnown header.now.span.len (sizes_of header.now) header.now.slots.now }
    ensures { result ≡ kth (picked_told header.now.span (sizes_of header.now) asked.now.field header.now.slots.now asked.now.picks) k }
{
    match asked.picks {
        Picks::Unknown => row_kth(header.span, header.size, header.slots, asked.field, k),
        Picks::Never => Kth::Left(k),
        Picks::Once(only) => slot_kth(header, only, asked.field, k),
        Picks::Twice(first, second) => match slot_kth(header, first, asked.field, k) {
            Kth::At(told) => Kth::At(told),
            Kth::Left(left) => slot_kth(header, second, asked.field, left),
        },
    }
}

/// The place of a number among those of one slot.
#[inline(always)]
fn slot_kth(header: &Header, number: u8, field: FieldId, k: usize) -> Kth
    requires end { header.now.span.start + header.now.span.len < 2 ^ 32 }
    requires known { SlotsKnown header.now.span.len (sizes_of header.now) header.now.slots.now }
    ensures { result ≡ kth (slot_told header.now.span (sizes_of header.now) field (slot_at header.now.slots.now number)) k }
{
    let place = usize::from(number);
    if place < header.slots.len() {
        kth_of(
            slot_told(header.span, header.size, field, header.slots[place]),
            k,
        )
    } else {
        Kth::Left(k)
    }
}

#[inline(always)]
fn is_asked(header: &Header, proto: FieldId, layers: &Layers) -> bool
    ensures { result ≡ is_asked proto layers.now header.now }
{
    header.proto == proto && layers.contains(header.nth)
}

/// The place of a number among those of a field in a table.
fn row_kth(span: Span, part: u32, slots: &[Slot], field: FieldId, k: usize) -> Kth
    requires end { span.start + span.len < 2 ^ 32 }
    requires known { SlotsKnown span.len (part ∷ []) slots.now }
    ensures { result ≡ kth (rows_told span (part ∷ []) field slots.now) k }
{
    let mut left = k;
    for slot in slots {
        match kth_of(slot_told(span, part, field, *slot), left) {
            Kth::At(told) => return Kth::At(told),
            Kth::Left(rest) => left = rest,
        }
    }
    Kth::Left(left)
}

fn note_kth(notes: &[Note], field: FieldId, k: usize) -> Kth
    ensures { result ≡ kth (notes_told field notes.now) k }
{
    let mut left = k;
    for note in notes {
        match kth_of(note_told(note, field), left) {
            Kth::At(told) => return Kth::At(told),
            Kth::Left(rest) => left = rest,
        }
    }
    Kth::Left(left)
}

#[inline(always)]
fn note_told(note: &Note, field: FieldId) -> Option<Told>
    ensures { option_to_list result ≡ note_told field note.now }
{
    if note.field == field {
        Some(note.told)
    } else {
        None
    }
}

#[inline(always)]
fn kth_of(told: Option<Told>, k: usize) -> Kth
    ensures { result ≡ kth (option_to_list told) k }
{
    match told {
        Some(told) if k == 0 => Kth::At(told),
        Some(_) => Kth::Left(k - 1),
        None => Kth::Left(k),
    }
}

/// Where a slot reads a field in a span, if it does.
#[inline(always)]
#[tactic(auto, unfolding(crate::specs::Found::slot_told, pk_tree::specs::Layouts::step_reach))]
fn slot_told(span: Span, part: u32, field: FieldId, slot: Slot) -> Option<Told>
    requires end { span.start + span.len < 2 ^ 32 }
    requires known { (holds : List Truth)
        × (step_reach span.len (step_of holds (part ∷ []) slot) ≡ Reach.All) }
    ensures { option_to_list result ≡ slot_told span (part ∷ []) field slot }
{
    match slot {
        Slot::Row(f, at) => {
            if f == field.0 {
                Some(read(span, usize::from(at), size(field)))
            } else {
                None
            }
        }
        Slot::Part(f, at, number) => {
            if f == field.0 {
                some_read(span, usize::from(at), size_at(part, number))
            } else {
                None
            }
        }
        Slot::PartAt(f, at, number) => {
            if f == field.0 {
                some_read(span, size_at(part, at), size_at(part, number))
            } else {
                None
            }
        }
        Slot::Whole(f, at, number) => {
            if f == field.0 {
                Some(read(span, usize::from(at), size_at(part, number)))
            } else {
                None
            }
        }
        Slot::Check(_) | Slot::Room(_) => None,
    }
}

#[inline(always)]
fn some_read(span: Span, at: usize, len: usize) -> Option<Told>
    requires end { span.start + span.len < 2 ^ 32 }
    requires inside { 0 < len → at + len ≤ span.len }
    ensures { option_to_list result ≡ some_read (within span at len) }
{
    if len == 0 {
        None
    } else {
        Some(read(span, at, len))
    }
}

#[inline(always)]
fn read(span: Span, at: usize, len: usize) -> Told
    requires end { span.start + span.len < 2 ^ 32 }
    requires inside { at + len ≤ span.len }
    ensures { result ≡ Told.Read (within span at len) }
{
    Told::Read(part_of(span, at, len))
}

#[inline(always)]
fn part_of(span: Span, at: usize, len: usize) -> Span
    requires end { span.start + span.len < 2 ^ 32 }
    requires inside { at + len ≤ span.len }
    ensures { result ≡ within span at len }
{
    Span {
        buffer: span.buffer,
        start: span.start + at as u32,
        len: len as u32,
    }
}

/// The size of a number, of which there is one.
#[inline(always)]
fn size_at(part: u32, number: u8) -> usize
    ensures { result ≡ slice_index_or (part ∷ []) number 0 }
{
    if number == 0 { part as usize } else { 0 }
}
