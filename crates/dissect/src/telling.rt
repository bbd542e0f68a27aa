// What is told of a plain frame beside the rows of its headers.
ghost use Rattle.std.specs.Prelude.{◌≡◌, ◌==◌, ◌<◌, ◌^◌, ◌∷◌, [], ◌++◌, List, ℕ, if◌then◌else◌, length, IfSome, OnOk};
ghost use Rattle.std.specs.List.{AllByRecursion as Each};
ghost use Rattle.capture_read.specs.FrameList.{IsTime};
ghost use Rattle.pk_fields.specs.Ids.{FRAME_CAP_LEN, FRAME_LEN};
ghost use Rattle.pk_source.specs.Outlines.{NoteFits, wanted_notes};
ghost use Rattle.pk_tree.specs.Buffers.{IsInside};
ghost use Rattle.app_layers.specs.Times.{AreTimes};
ghost use Rattle.dissect.specs.Carried.{ack_notes, bytes_notes, carrier_notes, conversation_notes, data_notes, frame_notes, lost_notes, moment_note, notes_of, number_note, place_notes, read_note, segment_notes, time_notes};

use crate::carried::{Carried, Carrier, Place, has_data};
use app_layers::{Times, captured, since};
use capture_read::Frame;
use pk_base::{NoMemory, Span};
use pk_fields::{FieldId, FieldSet, ids};
use pk_source::{Note, Told};

/// Tells of a plain frame what is wanted.
pub(crate) fn push_notes(
    notes: &mut Vec<Note>,
    wanted: &FieldSet,
    before: &Times,
    frame: &Frame,
    carried: &Carried,
) -> Result<(), NoMemory>
    requires bytes { length frame.now.bytes < 2 ^ 32 }
    requires before { AreTimes before.now }
    requires time { IfSome frame.now.time IsTime }
    requires none { notes.old.items ≡ [] }
    ensures notes { OnOk result (notes.new.items ≡ wanted_notes wanted.now (notes_of before.now frame.now carried.now)) }
    ensures fits { OnOk result ((buffers : List (List ℕ)) → IsInside buffers carried.now.payload → Each (NoteFits buffers) (notes_of before.now frame.now carried.now)) }
{
    let payload = carried.payload;
    tell_frame(notes, wanted, before, frame)?;
    tell_carrier(notes, wanted, &carried.carrier, payload)?;
    tell_data(notes, wanted, carried.free, payload)
}

/// Tells of the frame itself: its number, its time, its lengths.
#[inline(always)]
#[tactic(auto, unfolding(crate::specs::Carried::frame_notes, pk_fields::specs::Fields::row_of, pk_fields::specs::Table::rows))]
fn tell_frame(
    notes: &mut Vec<Note>,
    wanted: &FieldSet,
    before: &Times,
    frame: &Frame,
) -> Result<(), NoMemory>
    requires bytes { length frame.now.bytes < 2 ^ 32 }
    requires before { AreTimes before.now }
    requires time { IfSome frame.now.time IsTime }
    ensures notes { OnOk result (notes.new.items ≡ notes.old.items ++ wanted_notes wanted.now (frame_notes before.now frame.now)) }
    ensures fits { OnOk result ((buffers : List (List ℕ)) → Each (NoteFits buffers) (frame_notes before.now frame.now)) }
{
    tell_number(notes, wanted, ids::FRAME_NUMBER, frame.number)?;
    tell_times(notes, wanted, before, frame.time)?;
    tell_lengths(notes, wanted, frame.original, captured(frame))
}

#[inline(always)]
#[tactic(auto, unfolding(pk_fields::specs::Fields::row_of, pk_fields::specs::Table::rows))]
fn tell_times(
    notes: &mut Vec<Note>,
    wanted: &FieldSet,
    before: &Times,
    time: Option<i128>,
) -> Result<(), NoMemory>
    requires before { AreTimes before.now }
    requires time { IfSome time IsTime }
    ensures notes { OnOk result (notes.new.items ≡ notes.old.items ++ wanted_notes wanted.now (time_notes before.now time)) }
{
    let Some(time) = time else {
        return Ok(());
    };
    tell_moment(notes, wanted, ids::FRAME_TIME_EPOCH, time)?;
    tell_moment(
        notes,
        wanted,
        ids::FRAME_TIME_RELATIVE,
        since(before.first, time),
    )?;
    tell_moment(
        notes,
        wanted,
        ids::FRAME_TIME_DELTA,
        since(before.latest, time),
    )
}

#[inline(always)]
#[tactic(auto, unfolding(pk_fields::specs::Fields::row_of, pk_fields::specs::Table::rows))]
fn tell_lengths(
    notes: &mut Vec<Note>,
    wanted: &FieldSet,
    wire: u32,
    captured: u32,
) -> Result<(), NoMemory>
    ensures notes { OnOk result (notes.new.items ≡ notes.old.items
        ++ wanted_notes wanted.now (number_note FRAME_LEN wire ∷ number_note FRAME_CAP_LEN captured ∷ [])) }
    ensures small { (wire < 2 ^ 32) × (captured < 2 ^ 32) }
{
    tell_number(notes, wanted, ids::FRAME_LEN, wire)?;
    tell_number(notes, wanted, ids::FRAME_CAP_LEN, captured)
}

/// Tells what stands in the last header's layer.
fn tell_carrier(
    notes: &mut Vec<Note>,
    wanted: &FieldSet,
    carrier: &Carrier,
    span: Span,
) -> Result<(), NoMemory>
    ensures notes { OnOk result (notes.new.items ≡ notes.old.items ++ wanted_notes wanted.now (carrier_notes carrier.now span)) }
    ensures fits { OnOk result ((buffers : List (List ℕ)) → IsInside buffers span → Each (NoteFits buffers) (carrier_notes carrier.now span)) }
{
    match carrier {
        Carrier::Segment(place) => tell_segment(notes, wanted, place, span),
        Carrier::Datagram(stream) => tell_conversation(notes, wanted, *stream, span),
    }
}

/// Tells a segment's place, and what it carries.
fn tell_segment(
    notes: &mut Vec<Note>,
    wanted: &FieldSet,
    place: &Option<Place>,
    span: Span,
) -> Result<(), NoMemory>
    ensures notes { OnOk result (notes.new.items ≡ notes.old.items ++ wanted_notes wanted.now (segment_notes place.now span)) }
    ensures fits { OnOk result ((buffers : List (List ℕ)) → IsInside buffers span → Each (NoteFits buffers) (segment_notes place.now span)) }
{
    tell_place(notes, wanted, place)?;
    tell_bytes(notes, wanted, span)?;
    tell_lost(notes, wanted, place)
}

#[inline(always)]
#[tactic(auto, unfolding(crate::specs::Carried::place_notes, pk_fields::specs::Fields::row_of, pk_fields::specs::Table::rows))]
fn tell_place(
    notes: &mut Vec<Note>,
    wanted: &FieldSet,
    place: &Option<Place>,
) -> Result<(), NoMemory>
    ensures notes { OnOk result (notes.new.items ≡ notes.old.items ++ wanted_notes wanted.now (place_notes place.now)) }
    ensures fits { OnOk result ((buffers : List (List ℕ)) → Each (NoteFits buffers) (place_notes place.now)) }
{
    let Some(place) = place else {
        return Ok(());
    };
    tell_number(notes, wanted, ids::TCP_STREAM, place.stream)?;
    tell_number(notes, wanted, ids::TCP_SEQ, place.seq)?;
    tell_ack(notes, wanted, place.ack)
}

#[tactic(auto, unfolding(pk_fields::specs::Fields::row_of, pk_fields::specs::Table::rows))]
fn tell_ack(notes: &mut Vec<Note>, wanted: &FieldSet, ack: Option<u32>) -> Result<(), NoMemory>
    ensures notes { OnOk result (notes.new.items ≡ notes.old.items ++ wanted_notes wanted.now (ack_notes ack)) }
    ensures fits { (buffers : List (List ℕ)) → Each (NoteFits buffers) (ack_notes ack) }
{
    match ack {
        Some(ack) => tell_number(notes, wanted, ids::TCP_ACK, ack),
        None => Ok(()),
    }
}

#[inline(always)]
#[tactic(auto, unfolding(crate::specs::Carried::bytes_notes, pk_fields::specs::Fields::row_of, pk_fields::specs::Table::rows))]
fn tell_bytes(notes: &mut Vec<Note>, wanted: &FieldSet, span: Span) -> Result<(), NoMemory>
    ensures notes { OnOk result (notes.new.items ≡ notes.old.items ++ wanted_notes wanted.now (bytes_notes span)) }
    ensures fits { OnOk result ((buffers : List (List ℕ)) → IsInside buffers span → Each (NoteFits buffers) (bytes_notes span)) }
{
    tell_number(notes, wanted, ids::TCP_LEN, span.len)?;
    tell_payload(notes, wanted, ids::TCP_PAYLOAD, span)
}

#[inline(always)]
#[tactic(auto, unfolding(crate::specs::Carried::lost_notes, pk_fields::specs::Fields::row_of, pk_fields::specs::Table::rows))]
fn tell_lost(
    notes: &mut Vec<Note>,
    wanted: &FieldSet,
    place: &Option<Place>,
) -> Result<(), NoMemory>
    ensures notes { OnOk result (notes.new.items ≡ notes.old.items ++ wanted_notes wanted.now (lost_notes place.now)) }
    ensures fits { OnOk result ((buffers : List (List ℕ)) → Each (NoteFits buffers) (lost_notes place.now)) }
{
    match place {
        Some(place) if place.lost != 0 => { tell_number(notes, wanted, ids::TCP_LOST, place.lost) }
        _ => Ok(()),
    }
}

/// Tells the number of a datagram's conversation, and what it carries.
#[tactic(auto, unfolding(crate::specs::Carried::conversation_notes, pk_fields::specs::Fields::row_of, pk_fields::specs::Table::rows))]
fn tell_conversation(
    notes: &mut Vec<Note>,
    wanted: &FieldSet,
    stream: u32,
    span: Span,
) -> Result<(), NoMemory>
    ensures notes { OnOk result (notes.new.items ≡ notes.old.items ++ wanted_notes wanted.now (conversation_notes stream span)) }
    ensures fits { OnOk result ((buffers : List (List ℕ)) → IsInside buffers span → Each (NoteFits buffers) (conversation_notes stream span)) }
{
    tell_number(notes, wanted, ids::UDP_STREAM, stream)?;
    tell_payload(notes, wanted, ids::UDP_PAYLOAD, span)
}

#[inline(always)]
#[tactic(auto, unfolding(crate::specs::Carried::data_notes, pk_fields::specs::Fields::row_of, pk_fields::specs::Table::rows))]
fn tell_data(
    notes: &mut Vec<Note>,
    wanted: &FieldSet,
    free: bool,
    span: Span,
) -> Result<(), NoMemory>
    ensures notes { OnOk result (notes.new.items ≡ notes.old.items ++ wanted_notes wanted.now (data_notes free span)) }
    ensures fits { OnOk result ((buffers : List (List ℕ)) → Each (NoteFits buffers) (data_notes free span)) }
{
    if has_data(free, span) {
        tell_number(notes, wanted, ids::DATA_LEN, span.len)
    } else {
        Ok(())
    }
}

/// Tells a number, where its field is wanted.
#[inline(always)]
#[tactic(auto, unfolding(pk_source::specs::Outlines::wanted_notes))]
fn tell_number(
    notes: &mut Vec<Note>,
    wanted: &FieldSet,
    field: FieldId,
    number: u32,
) -> Result<(), NoMemory>
    ensures notes { OnOk result (notes.new.items ≡ notes.old.items ++ wanted_notes wanted.now (number_note field number ∷ [])) }
    ensures small { number < 2 ^ 32 }
{
    if wanted.contains(field) {
        let told = Told::Number(u64::from(number));
        notes.push(Note { field, told })?;
    }
    Ok(())
}

/// Tells a time, where its field is wanted.
#[inline(always)]
#[tactic(auto, unfolding(pk_source::specs::Outlines::wanted_notes))]
fn tell_moment(
    notes: &mut Vec<Note>,
    wanted: &FieldSet,
    field: FieldId,
    time: i128,
) -> Result<(), NoMemory>
    ensures { OnOk result (notes.new.items ≡ notes.old.items ++ wanted_notes wanted.now (moment_note field time ∷ [])) }
{
    if wanted.contains(field) {
        let told = Told::Moment(time);
        notes.push(Note { field, told })?;
    }
    Ok(())
}

/// Tells where the bytes that are carried stand, where there are some and their field is wanted.
#[inline(always)]
#[tactic(auto, unfolding(pk_source::specs::Outlines::wanted_notes))]
fn tell_payload(
    notes: &mut Vec<Note>,
    wanted: &FieldSet,
    field: FieldId,
    span: Span,
) -> Result<(), NoMemory>
    ensures { OnOk result (notes.new.items ≡ notes.old.items
        ++ wanted_notes wanted.now (if span.len == 0 then [] else read_note field span ∷ [])) }
{
    if span.len != 0 && wanted.contains(field) {
        let told = Told::Read(span);
        notes.push(Note { field, told })?;
    }
    Ok(())
}
