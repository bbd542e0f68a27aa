// The line of what a frame's headers have: each value is appended where it is read, without a column of its own.
ghost use Rattle.std.specs.Prelude.{◌≡◌, ◌+◌, ◌-◌, ◌++◌, ◌∷◌, [], true, length, slice_get, IfOk, IfSome, IsTrue, OnOk};
ghost use Rattle.std.specs.Option.{option_map};
ghost use Rattle.std.specs.List.{flat_map, join_by};
ghost use Rattle.out_lines.specs.Joined.{IsTextPut, all_values, behind, joined, further, shown_at, shown_first};
ghost use Rattle.out_lines.specs.Lines.{chosen, column_text, field_line_of};
ghost use Rattle.out_lines.specs.ValueText.{shown_value};
ghost use Rattle.pk_fields.specs.Fields.{row_of};
ghost use Rattle.pk_source.specs.Firsts.{IsReadBy};
ghost use Rattle.pk_tree.specs.Values.{HasSize, is_read, value_of};

use crate::lines::put_quoted;
use crate::style::{Occurrence, Quote, Style};
use crate::value_text::{put_read, put_shown};
use pk_base::{Layers, NoMemory};
use pk_fields::{FieldId, ValueKind, kind, proto};
use pk_source::{First, Outline, Reader};
use pk_text::{Decimal, Slab, put_time};

/// Appends the line of some fields. What stands in quotes is made in a text of its own, whose memory is used again.
#[tactic(auto, unfolding(crate::specs::Lines::field_line_of))]
pub(crate) fn put_outline(
    line: &mut Slab,
    spare: &mut Slab,
    outline: &Outline<'_>,
    fields: &[FieldId],
    style: &Style,
) -> Result<(), NoMemory>
    ensures { OnOk result (line.new ≡ line.old ++ field_line_of fields.now outline.now style.now) }
{
    put_columns(line, spare, outline, fields, style)?;
    line.put_byte(b'\n')
}

fn put_columns(
    line: &mut Slab,
    spare: &mut Slab,
    outline: &Outline<'_>,
    fields: &[FieldId],
    style: &Style,
) -> Result<(), NoMemory>
    ensures { OnOk result (line.new ≡ line.old
        ++ join_by (column_text outline.now style.now) (style.now.separator ∷ []) fields.now) }
{
    match fields {
        [] => Ok(()),
        [first, others @ ..] => {
            put_column(line, spare, outline, *first, style)?;
            put_further(line, spare, outline, others, style)
        }
    }
}

/// Columns behind the first, each behind a separator.
fn put_further(
    line: &mut Slab,
    spare: &mut Slab,
    outline: &Outline<'_>,
    fields: &[FieldId],
    style: &Style,
) -> Result<(), NoMemory>
    ensures { OnOk result (line.new ≡ line.old ++ flat_map (λ field.
        style.now.separator ∷ column_text outline.now style.now field) fields.now) }
{
    if is_plain(style) {
        return put_further_plain(line, outline, fields, style);
    }
    for field in fields {
        line.put_byte(style.separator)?;
        put_column(line, spare, outline, *field, style)?;
    }
    Ok(())
}

/// Whether columns have all values, and stand in no quotes, as most do.
fn is_plain(style: &Style) -> bool
    ensures quote { result ≡ true → style.now.quote ≡ Quote.None }
    ensures all { result ≡ true → style.now.occurrence ≡ Occurrence.All }
{
    match (style.quote, style.occurrence) {
        (Quote::None, Occurrence::All) => true,
        _ => false,
    }
}

/// The same of plain columns: what puts most of them stands in the loop.
fn put_further_plain(
    line: &mut Slab,
    outline: &Outline<'_>,
    fields: &[FieldId],
    style: &Style,
) -> Result<(), NoMemory>
    requires quote { style.now.quote ≡ Quote.None }
    requires all { style.now.occurrence ≡ Occurrence.All }
    ensures { OnOk result (line.new ≡ line.old ++ flat_map (λ field.
        style.now.separator ∷ column_text outline.now style.now field) fields.now) }
{
    let mut reader = outline.reader();
    for field in fields {
        line.put_byte(style.separator)?;
        put_plain(line, outline, &mut reader, *field, style)?;
    }
    Ok(())
}

/// A plain column: most have one value, in bytes that are known by the field alone.
#[inline(always)]
#[tactic(auto, using(crate::proofs::JoinedLemmas::plain_one), unfolding(crate::specs::Lines::column_text))]
fn put_plain(
    line: &mut Slab,
    outline: &Outline<'_>,
    reader: &mut Reader<'_>,
    field: FieldId,
    style: &Style,
) -> Result<(), NoMemory>
    requires quote { style.now.quote ≡ Quote.None }
    requires all { style.now.occurrence ≡ Occurrence.All }
    requires reader { reader.old ≡ outline.now }
    ensures line { OnOk result (line.new
        ≡ line.old ++ column_text outline.now style.now field) }
    ensures reader { reader.new ≡ reader.old }
{
    match only_bytes(reader, field) {
        Some(bytes) => put_read(line, field, bytes),
        None => put_all(line, outline, field, style.aggregator),
    }
}

/// The bytes of a field's only value, where its protocol's only header has it at a fixed place. Of other fields it knows nothing.
#[inline(always)]
fn only_bytes<'f>(reader: &mut Reader<'f>, field: FieldId) -> Option<&'f [u8]>
    ensures value { IfSome result (λ bytes.
        all_values reader.old field ≡ value_of field bytes.now ∷ []) }
    ensures reads { IfSome result (λ bytes.
        HasSize (row_of field).bits (length bytes.now) × IsTrue (is_read (row_of field))) }
    ensures same { reader.new ≡ reader.old }
{
    match kind(field) {
        ValueKind::Proto => None,
        _ => reader.only_bytes(field, proto(field)),
    }
}

#[tactic(auto, unfolding(crate::specs::Lines::column_text))]
fn put_column(
    line: &mut Slab,
    spare: &mut Slab,
    outline: &Outline<'_>,
    field: FieldId,
    style: &Style,
) -> Result<(), NoMemory>
    ensures { OnOk result (line.new
        ≡ line.old ++ column_text outline.now style.now field) }
{
    match style.quote {
        Quote::None => put_chosen(line, outline, field, style),
        Quote::Double | Quote::Single => put_in_quotes(line, spare, outline, field, style),
    }
}

/// A column in quotes, where the field has a value.
#[inline(never)]
#[tactic(auto, unfolding(crate::specs::Lines::column_text))]
fn put_in_quotes(
    line: &mut Slab,
    spare: &mut Slab,
    outline: &Outline<'_>,
    field: FieldId,
    style: &Style,
) -> Result<(), NoMemory>
    ensures { OnOk result (line.new
        ≡ line.old ++ column_text outline.now style.now field) }
{
    if !outline.has(field, &Layers::All) {
        return Ok(());
    }
    spare.clear();
    put_chosen(spare, outline, field, style)?;
    put_quoted(line, spare.text(), style.quote)
}

/// The values of a field that the style chooses, joined by the aggregator.
fn put_chosen(
    line: &mut Slab,
    outline: &Outline<'_>,
    field: FieldId,
    style: &Style,
) -> Result<(), NoMemory>
    ensures { OnOk result (line.new ≡ line.old ++ joined style.now.aggregator field
        (chosen style.now.occurrence (all_values outline.now field))) }
{
    match style.occurrence {
        Occurrence::First => put_first(line, field, outline.first_and_more(field).first),
        Occurrence::Last => put_last(line, outline, field),
        Occurrence::All => put_all(line, outline, field, style.aggregator),
    }
}

/// The first value, if there is one.
#[inline(always)]
#[tactic(auto, unfolding(crate::specs::ValueText::shown_value))]
fn put_first(line: &mut Slab, field: FieldId, first: First<'_>) -> Result<(), NoMemory>
    requires { IsReadBy field first }
    ensures { OnOk result (line.new ≡ line.old ++ shown_first field first.entry) }
{
    match first {
        First::Nothing => Ok(()),
        First::Bytes(bytes) => put_read(line, field, bytes),
        First::Number(number) => line.put_short(&Decimal(number)),
        First::Moment(time) => put_time(line, time),
    }
}

/// The value of a number, if there is one.
fn put_only(
    line: &mut Slab,
    outline: &Outline<'_>,
    field: FieldId,
    k: usize,
) -> Result<(), NoMemory>
    ensures { OnOk result (line.new
        ≡ line.old ++ shown_at field (all_values outline.now field) k) }
{
    match outline.value(field, &Layers::All, k)? {
        Some(value) => put_shown(line, field, &value),
        None => Ok(()),
    }
}

fn put_last(line: &mut Slab, outline: &Outline<'_>, field: FieldId) -> Result<(), NoMemory>
    ensures { OnOk result (line.new ≡ line.old ++ shown_at field (all_values outline.now field)
        (length (all_values outline.now field) - 1)) }
{
    let last = last_number(outline, field)?;
    put_only(line, outline, field, last)
}

/// The number of a field's last value, from 0; 0 also where it has none.
fn last_number(outline: &Outline<'_>, field: FieldId) -> Result<usize, NoMemory>
    ensures { IfOk result (λ last. last ≡ length (all_values outline.now field) - 1) }
{
    let mut next = 1;
    'values: while outline.has_at(field, &Layers::All, next) {
        next = number_behind(next)?;
    }
    Ok(next - 1)
}

/// No memory holds more values than numbers tell.
fn number_behind(number: usize) -> Result<usize, NoMemory>
    ensures { IfOk result (λ behind. behind ≡ number + 1) }
{
    match number.checked_add(1) {
        Some(behind) => Ok(behind),
        None => Err(NoMemory),
    }
}

/// All values of a field, joined by the aggregator.
#[inline(never)]
fn put_all(
    line: &mut Slab,
    outline: &Outline<'_>,
    field: FieldId,
    aggregator: u8,
) -> Result<(), NoMemory>
    ensures { OnOk result (line.new
        ≡ line.old ++ joined aggregator field (all_values outline.now field)) }
{
    let found = outline.first_and_more(field);
    put_first(line, field, found.first)?;
    if found.more {
        put_more(line, outline, field, aggregator)
    } else {
        Ok(())
    }
}

/// The values behind the first, each behind the aggregator.
#[inline(never)]
fn put_more(
    line: &mut Slab,
    outline: &Outline<'_>,
    field: FieldId,
    aggregator: u8,
) -> Result<(), NoMemory>
    ensures { OnOk result (line.new
        ≡ line.old ++ further aggregator field (all_values outline.now field) 1) }
{
    let mut k = 1;
    'values: while put_behind(line, outline, field, k, aggregator)? {
        k = number_behind(k)?;
    }
    Ok(())
}

/// The value of a number behind the aggregator, if there is one; whether there is.
fn put_behind(
    line: &mut Slab,
    outline: &Outline<'_>,
    field: FieldId,
    k: usize,
    aggregator: u8,
) -> Result<bool, NoMemory>
    ensures { IfOk result (λ there. IsTextPut
        (option_map (behind aggregator field) (slice_get (all_values outline.now field) k))
        there line.old line.new) }
{
    match outline.value(field, &Layers::All, k)? {
        Some(value) => {
            line.put_byte(aggregator)?;
            put_shown(line, field, &value)?;
            Ok(true)
        }
        None => Ok(false),
    }
}
