// The lines that a frame's headers are printed as.
use out_lines::{LineWriter, Occurrence, Quote, Style};
use pk_base::NoMemory;
use pk_fields::{FieldId, by_name};
use pk_source::Source;
use pk_text::Slab;
use std::alloc::Global;

/// Whether a source has this line of columns. Asked for are names of fields and two letters: the occurrence `f`, `l` or `a`
/// and the quote `d`, `s` or `n`. A comma stands between columns and a semicolon between values.
pub(crate) fn has_columns(
    alloc: Global,
    source: &Source<'_>,
    columns: &str,
    expected: &str,
) -> Result<bool, NoMemory> {
    let (names, letters) = columns.split_once(' ').unwrap_or((columns, ""));
    let fields = fields_of(alloc, names)?;
    writes(alloc, source, &fields, &style_of(letters), expected)
}

fn fields_of(alloc: Global, names: &str) -> Result<Vec<FieldId>, NoMemory> {
    let mut fields = Vec::new(alloc);
    push_fields(&mut fields, names)?;
    Ok(fields)
}

fn push_fields(fields: &mut Vec<FieldId>, names: &str) -> Result<(), NoMemory> {
    for name in names.split(',') {
        if let Some(field) = by_name(name) {
            fields.push(field)?;
        }
    }
    Ok(())
}

fn style_of(letters: &str) -> Style {
    Style {
        header: false,
        separator: b',',
        occurrence: occurrence_of(letters),
        aggregator: b';',
        quote: quote_of(letters),
    }
}

fn occurrence_of(letters: &str) -> Occurrence {
    match letters.as_bytes() {
        [b'f', ..] => Occurrence::First,
        [b'l', ..] => Occurrence::Last,
        _ => Occurrence::All,
    }
}

fn quote_of(letters: &str) -> Quote {
    match letters.as_bytes() {
        [_, b'd'] => Quote::Double,
        [_, b's'] => Quote::Single,
        _ => Quote::None,
    }
}

fn writes(
    alloc: Global,
    source: &Source<'_>,
    fields: &[FieldId],
    style: &Style,
    expected: &str,
) -> Result<bool, NoMemory> {
    let mut writer = LineWriter::new(alloc, fields)?;
    let line = line_of(alloc, &mut writer, source, style)?;
    Ok(is_line(line.text(), expected))
}

fn line_of(
    alloc: Global,
    writer: &mut LineWriter,
    source: &Source<'_>,
    style: &Style,
) -> Result<Slab, NoMemory> {
    let mut line = Slab::new(alloc);
    writer.write_source(&mut line, source, style)?;
    Ok(line)
}

/// Whether this line sums up a source's frame.
pub(crate) fn has_summary(
    alloc: Global,
    source: &Source<'_>,
    expected: &str,
) -> Result<bool, NoMemory> {
    let mut writer = LineWriter::new(alloc, &[])?;
    let line = summary_of(alloc, &mut writer, source)?;
    Ok(is_line(line.text(), expected))
}

fn summary_of(
    alloc: Global,
    writer: &mut LineWriter,
    source: &Source<'_>,
) -> Result<Slab, NoMemory> {
    let mut line = Slab::new(alloc);
    writer.write_summary_source(&mut line, source)?;
    Ok(line)
}

fn is_line(line: &[u8], expected: &str) -> bool {
    line.strip_suffix(b"\n") == Some(expected.as_bytes())
}
