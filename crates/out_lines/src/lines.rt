// The line of a frame's fields, and the line of their names.
ghost use Rattle.std.specs.Prelude.{◌≡◌, ◌++◌, ◌∷◌, [], length, IfOk, OnOk};
ghost use Rattle.std.specs.List.{join_by, flat_map};
ghost use Rattle.pk_fields.specs.Fields.{row_of};
ghost use Rattle.out_lines.specs.Columns.{written};
ghost use Rattle.out_lines.specs.Lines.{doubled, field_line_of, header_of, in_quotes, quoted};
ghost use Rattle.out_lines.specs.Places.{ArePlaces, ArePlanned, AreWritten, column_in};
ghost use Rattle.out_lines.specs.Summary.{summary_of};
ghost use Rattle.pk_tree.specs.Trees.{TreeShown};

use crate::column::Column;
use crate::columns::{add_layers, clear_columns, place_of, plan_columns};
use crate::headers_line::put_outline;
use crate::style::{Quote, Style};
use crate::summary::put_summary;
use pk_base::NoMemory;
use pk_fields::{FieldId, name};
use pk_source::{Lender, Outline, Source};
use pk_text::{Slab, TextSink};
use pk_tree::Tree;
use std::alloc::Global;
use std::marker::Model;

/// How many bytes a line has room for from the start. Most lines are shorter.
pub(crate) const LINE_ROOM: usize = 128;

/// Writes the lines of some fields, one tree after the other, always in the same memory.
pub struct LineWriter {
    fields: Vec<FieldId>,
    columns: Vec<Column>,
    /// By the number of a field, the place of its column.
    places: Vec<Option<usize>>,
    /// The line of the tree at hand.
    line: Slab,
    /// What stands in quotes in a line that no columns make.
    spare: Slab,
}

impl Drop for LineWriter {
    fn drop(self) {
        let LineWriter {
            fields: _fields,
            columns: _columns,
            places: _places,
            line: _line,
            spare: _spare,
        } = self;
    }
}

impl Model for LineWriter {
    ghost use Rattle.std.specs.Prelude.{ℕ, List, length};
    ghost use Rattle.out_lines.specs.Places.{ArePlanned};

    ghost Value = { List ℕ };

    ghost view = { λ writer. writer.fields.items };

    ghost invariant = { λ writer.
        ArePlanned writer.fields.items (length writer.columns.items) writer.places.items };
}

impl LineWriter {
    pub fn new(alloc: Global, fields: &[FieldId]) -> Result<LineWriter, NoMemory>
        ensures { IfOk result (λ writer. writer ≡ fields.now) }
    {
        let all = copy_of(alloc, fields)?;
        let (columns, places) = planned(alloc, fields)?;
        Ok(LineWriter {
            fields: all,
            columns,
            places,
            line: Slab::new(alloc),
            spare: Slab::new(alloc),
        })
    }

    /// Appends the line of a tree, as `field_line` makes it.
    pub fn write(&mut self, line: &mut Vec<u8>, tree: &Tree, style: &Style) -> Result<(), NoMemory>
        ensures line { OnOk result (line.new.items ≡ line.old.items
            ++ field_line_of self.old tree.now style.now) }
        ensures fields { self.new ≡ self.old }
    {
        fill(&mut self.columns, &self.places, style, tree)?;
        self.line.clear();
        put_line(
            &mut self.line,
            &self.columns,
            &self.places,
            &self.fields,
            style,
        )?;
        line.extend_from_slice(self.line.text())?;
        Ok(())
    }

    /// Appends the line of a frame, as `write` does for its tree. What needs no tree is written where it is read.
    pub fn write_source(
        &mut self,
        line: &mut Slab,
        source: &Source<'_>,
        style: &Style,
    ) -> Result<(), NoMemory>
        ensures line { OnOk result (line.new ≡ line.old
            ++ field_line_of self.old source.now style.now) }
        ensures fields { self.new ≡ self.old }
    {
        match source.lender() {
            Lender::Tree(tree) => self.write_tree(line, tree, style),
            Lender::Outline(outline) => {
                put_outline(line, &mut self.spare, outline, &self.fields, style)
            }
        }
    }

    fn write_tree(&mut self, line: &mut Slab, tree: &Tree, style: &Style) -> Result<(), NoMemory>
        ensures line { OnOk result (line.new ≡ line.old
            ++ field_line_of self.old tree.now style.now) }
        ensures fields { self.new ≡ self.old }
    {
        fill(&mut self.columns, &self.places, style, tree)?;
        put_line(line, &self.columns, &self.places, &self.fields, style)
    }

    /// Appends the line that sums up a tree, as `summary_line` makes it.
    pub fn write_summary(&mut self, line: &mut Vec<u8>, tree: &Tree) -> Result<(), NoMemory>
        ensures line { OnOk result (line.new.items ≡ line.old.items ++ summary_of tree.now) }
        ensures fields { self.new ≡ self.old }
    {
        self.line.clear();
        put_summary(&mut self.line, &Source::of_tree(tree))?;
        line.extend_from_slice(self.line.text())?;
        Ok(())
    }

    /// Appends the line that sums up a frame, as `write_summary` does for its tree.
    pub fn write_summary_source(
        &mut self,
        line: &mut Slab,
        source: &Source<'_>,
    ) -> Result<(), NoMemory>
        ensures line { OnOk result (line.new ≡ line.old ++ summary_of source.now) }
        ensures fields { self.new ≡ self.old }
    {
        put_summary(line, source)
    }
}

/// Fields, in memory of their own.
fn copy_of(alloc: Global, fields: &[FieldId]) -> Result<Vec<FieldId>, NoMemory>
    ensures { IfOk result (λ all. all.items ≡ fields.now) }
{
    let mut all = Vec::with_capacity(alloc, fields.len())?;
    all.extend_from_slice(fields)?;
    Ok(all)
}

/// The columns of fields, and by the number of a field the place of its column.
fn planned(alloc: Global, fields: &[FieldId]) -> Result<(Vec<Column>, Vec<Option<usize>>), NoMemory>
    ensures { IfOk result (λ plan. ArePlanned fields.now (length plan.0.items) plan.1.items) }
{
    let mut columns = Vec::with_capacity(alloc, fields.len())?;
    let mut places = Vec::new(alloc);
    plan_columns(alloc, fields, &mut columns, &mut places)?;
    Ok((columns, places))
}

/// The line of a tree: the fields' columns, joined by the separator, and a line feed. A column has the field's values
/// that the style chooses, joined by the aggregator, and stands in quotes, where the style has some; a quote inside is
/// doubled. A column without values is empty.
pub fn field_line(
    alloc: Global,
    tree: &Tree,
    fields: &[FieldId],
    style: &Style,
) -> Result<Vec<u8>, NoMemory>
    ensures { IfOk result (λ line. line.items ≡ field_line_of fields.now tree.now style.now) }
{
    let mut writer = LineWriter::new(alloc, fields)?;
    line_by(alloc, &mut writer, tree, style)
}

fn line_by(
    alloc: Global,
    writer: &mut LineWriter,
    tree: &Tree,
    style: &Style,
) -> Result<Vec<u8>, NoMemory>
    ensures { IfOk result (λ line. line.items ≡ field_line_of writer.old tree.now style.now) }
{
    let mut line = Vec::with_capacity(alloc, LINE_ROOM)?;
    writer.write(&mut line, tree, style)?;
    Ok(line)
}

/// The line of the fields' names, joined by the separator, and a line feed.
#[tactic(auto, unfolding(crate::specs::Lines::header_of))]
pub fn header_line(alloc: Global, fields: &[FieldId], style: &Style) -> Result<Vec<u8>, NoMemory>
    ensures { IfOk result (λ line. line.items ≡ header_of fields.now style.now) }
{
    let mut line = Vec::with_capacity(alloc, LINE_ROOM)?;
    put_names(&mut line, fields, style.separator)?;
    line.push(b'\n')?;
    Ok(line)
}

fn put_names(line: &mut Vec<u8>, fields: &[FieldId], separator: u8) -> Result<(), NoMemory>
    ensures { OnOk result (line.new.items
        ≡ line.old.items ++ join_by (λ field. (row_of field).name) (separator ∷ []) fields.now) }
{
    match fields {
        [] => Ok(()),
        [first, others @ ..] => {
            line.put_text(name(*first))?;
            put_further_names(line, others, separator)
        }
    }
}

/// Names behind the first, each behind a separator.
fn put_further_names(line: &mut Vec<u8>, fields: &[FieldId], separator: u8) -> Result<(), NoMemory>
    ensures { OnOk result (line.new.items
        ≡ line.old.items ++ flat_map (λ field. separator ∷ (row_of field).name) fields.now) }
{
    for field in fields {
        line.push(separator)?;
        line.put_text(name(*field))?;
    }
    Ok(())
}

/// Fills the columns with what a tree has.
#[tactic(auto, using(crate::proofs::PlaceLemmas::all_written))]
fn fill(
    columns: &mut [Column],
    places: &[Option<usize>],
    style: &Style,
    tree: &Tree,
) -> Result<(), NoMemory>
    requires { ArePlaces (length columns.old) places.now }
    ensures written { OnOk result (AreWritten style.now columns.new places.now tree.now) }
    ensures count { length columns.new ≡ length columns.old }
{
    clear_columns(columns);
    add_layers(columns, places, style, tree.layers())
}

/// Appends a line of columns.
fn put_line(
    line: &mut Slab,
    columns: &[Column],
    places: &[Option<usize>],
    fields: &[FieldId],
    style: &Style,
) -> Result<(), NoMemory>
    requires { ArePlanned fields.now (length columns.now) places.now }
    ensures { OnOk result ((t : TreeShown) → AreWritten style.now columns.now places.now t
        → line.new ≡ line.old ++ field_line_of fields.now t style.now) }
{
    put_columns(line, columns, places, fields, style)?;
    line.put_byte(b'\n')
}

fn put_columns(
    line: &mut Slab,
    columns: &[Column],
    places: &[Option<usize>],
    fields: &[FieldId],
    style: &Style,
) -> Result<(), NoMemory>
    requires { ArePlaces (length columns.now) places.now }
    ensures { OnOk result (line.new
        ≡ line.old ++ join_by (λ field.
        written style.now.quote (column_in columns.now places.now field))
        (style.now.separator ∷ []) fields.now) }
{
    match fields {
        [] => Ok(()),
        [first, others @ ..] => {
            put_column(line, columns, places, *first, style.quote)?;
            put_further(line, columns, places, others, style)
        }
    }
}

/// Columns behind the first, each behind a separator.
fn put_further(
    line: &mut Slab,
    columns: &[Column],
    places: &[Option<usize>],
    fields: &[FieldId],
    style: &Style,
) -> Result<(), NoMemory>
    requires { ArePlaces (length columns.now) places.now }
    ensures { OnOk result (line.new
        ≡ line.old ++ flat_map (λ field.
        style.now.separator ∷ written style.now.quote (column_in columns.now places.now field))
        fields.now) }
{
    for field in fields {
        line.put_byte(style.separator)?;
        put_column(line, columns, places, *field, style.quote)?;
    }
    Ok(())
}

#[inline(always)]
fn put_column(
    line: &mut Slab,
    columns: &[Column],
    places: &[Option<usize>],
    field: FieldId,
    quote: Quote,
) -> Result<(), NoMemory>
    requires { ArePlaces (length columns.now) places.now }
    ensures { OnOk result (line.new
        ≡ line.old ++ written quote (column_in columns.now places.now field)) }
{
    match place_of(places, field) {
        Some(place) if columns[place].is_filled() => {
            put_quoted(line, columns[place].text(), quote)
        }
        Some(_) | None => Ok(()),
    }
}

pub(crate) fn put_quoted(line: &mut Slab, text: &[u8], quote: Quote) -> Result<(), NoMemory>
    ensures { OnOk result (line.new ≡ line.old ++ in_quotes quote text.now) }
{
    match quote {
        Quote::Double => put_between(line, text, b'"'),
        Quote::Single => put_between(line, text, b'\''),
        Quote::None => line.put(text),
    }
}

fn put_between(line: &mut Slab, text: &[u8], quote: u8) -> Result<(), NoMemory>
    ensures { OnOk result (line.new ≡ line.old ++ quoted quote text.now) }
{
    line.put_byte(quote)?;
    put_doubled(line, text, quote)?;
    line.put_byte(quote)
}

#[tactic(auto, using(crate::proofs::LineLemmas::none_doubled))]
fn put_doubled(line: &mut Slab, text: &[u8], quote: u8) -> Result<(), NoMemory>
    ensures { OnOk result (line.new ≡ line.old ++ flat_map (doubled quote) text.now) }
{
    if !text.contains(&quote) {
        return line.put(text);
    }
    for byte in text {
        put_byte(line, *byte, quote)?;
    }
    Ok(())
}

fn put_byte(line: &mut Slab, byte: u8, quote: u8) -> Result<(), NoMemory>
    ensures { OnOk result (line.new ≡ line.old ++ doubled quote byte) }
{
    if byte == quote {
        line.put_byte(quote)?;
    }
    line.put_byte(byte)
}
