//! The lines that trees are printed as.
//!
//! What is asked for stands on the first line, and each tree behind a line `--`, as tree_rows prints it, behind a line with its bytes where they
//! matter. Asked for are columns: the names of fields, or `none`, and a style of five characters: `y` or `n` for a header, the separator, the
//! occurrence `f`, `l` or `a`, the aggregator, and the quote `d`, `s` or `n`. A tab is written `t`, and a blank `s`.
use out_json::{JsonWriter, json_line};
use out_lines::{LineWriter, Occurrence, Quote, Style, field_line, header_line, summary_line};
use pk_fields::{FieldId, by_name};
use pk_tree::Tree;
use std::alloc::Global;
use tree_rows::{Unread, read_tree};

/// Whether bytes are these lines, the last of which has a line feed too.
pub(crate) fn is_text(bytes: &[u8], lines: &str) -> bool {
    bytes.strip_suffix(b"\n") == Some(lines.as_bytes())
}

pub(crate) fn bytes_of(alloc: Global, digits: &str) -> Result<Vec<u8>, Unread> {
    hex::decode(alloc, digits).ok().ok_or(Unread::Line)
}

/// A tree over the bytes of one buffer or two, which stand on the first line.
fn tree_over(alloc: Global, text: &str) -> Result<Tree, Unread> {
    let (bytes, layers) = text.split_once('\n').unwrap_or((text, ""));
    let (frame, more) = bytes.split_once(' ').unwrap_or((bytes, ""));
    let frame = bytes_of(alloc, frame)?;
    let more = bytes_of(alloc, more)?;
    read_tree(alloc, &frame, &more, layers)
}

pub(crate) fn tree_of(alloc: Global, text: &str) -> Result<Tree, Unread> {
    match text.strip_prefix("bytes ") {
        Some(rest) => tree_over(alloc, rest),
        None => read_tree(alloc, b"frame", b"", text),
    }
}

fn character(letter: u8) -> u8 {
    match letter {
        b't' => b'\t',
        b's' => b' ',
        _ => letter,
    }
}

fn occurrence_of(letter: u8) -> Option<Occurrence> {
    match letter {
        b'f' => Some(Occurrence::First),
        b'l' => Some(Occurrence::Last),
        b'a' => Some(Occurrence::All),
        _ => None,
    }
}

fn quote_of(letter: u8) -> Option<Quote> {
    match letter {
        b'd' => Some(Quote::Double),
        b's' => Some(Quote::Single),
        b'n' => Some(Quote::None),
        _ => None,
    }
}

pub(crate) fn style_of(text: &str) -> Option<Style> {
    match text.as_bytes() {
        [b'y' | b'n', separator, occurrence, aggregator, quote] => Some(Style {
            header: text.starts_with('y'),
            separator: character(*separator),
            occurrence: occurrence_of(*occurrence)?,
            aggregator: character(*aggregator),
            quote: quote_of(*quote)?,
        }),
        _ => None,
    }
}

fn push_fields(fields: &mut Vec<FieldId>, names: &str) -> Result<(), Unread> {
    if names != "none" {
        for name in names.split(',') {
            let field = by_name(name).ok_or(Unread::Line)?;
            fields.push(field)?;
        }
    }
    Ok(())
}

/// The fields and the style of columns.
fn asked(alloc: Global, columns: &str) -> Result<(Vec<FieldId>, Style), Unread> {
    let (names, style) = columns.split_once(' ').unwrap_or((columns, ""));
    let style = style_of(style).ok_or(Unread::Line)?;
    let mut fields = Vec::new(alloc);
    push_fields(&mut fields, names)?;
    Ok((fields, style))
}

pub(crate) fn are_named(alloc: Global, columns: &str, wanted: &str) -> Result<bool, Unread> {
    let (fields, style) = asked(alloc, columns)?;
    let line = header_line(alloc, &fields, &style)?;
    Ok(is_text(&line, wanted))
}

/// Writes the line of a tree, which is the same as without a writer.
fn write_line(
    alloc: Global,
    writer: &mut LineWriter,
    lines: &mut Vec<u8>,
    asked: &(Vec<FieldId>, Style),
    layers: &str,
) -> Result<bool, Unread> {
    let (fields, style) = asked;
    let tree = tree_of(alloc, layers)?;
    writer.write(lines, &tree, style)?;
    let alone = field_line(alloc, &tree, fields, style)?;
    Ok(lines.ends_with(&alone))
}

fn write_lines(
    alloc: Global,
    lines: &mut Vec<u8>,
    asked: &(Vec<FieldId>, Style),
    trees: &str,
) -> Result<bool, Unread> {
    let mut writer = LineWriter::new(alloc, &asked.0)?;
    let mut same = true;
    for layers in trees.split("\n--\n").skip(1) {
        same = write_line(alloc, &mut writer, lines, asked, layers)? && same;
    }
    Ok(same)
}

pub(crate) fn are_columns(alloc: Global, trees: &str, wanted: &str) -> Result<bool, Unread> {
    let (columns, _) = trees.split_once('\n').unwrap_or((trees, ""));
    let asked = asked(alloc, columns)?;
    let mut lines = Vec::new(alloc);
    let same = write_lines(alloc, &mut lines, &asked, trees)?;
    Ok(same && is_text(&lines, wanted))
}

pub(crate) fn is_summary(alloc: Global, given: &str, wanted: &str) -> Result<bool, Unread> {
    let (_, layers) = given.split_once("\n--\n").unwrap_or((given, ""));
    let tree = tree_of(alloc, layers)?;
    let line = summary_line(alloc, &tree)?;
    Ok(is_text(&line, wanted))
}

/// Writes the line of a tree, which is the same as without a writer.
fn write_json(
    alloc: Global,
    writer: &mut JsonWriter,
    lines: &mut Vec<u8>,
    layers: &str,
) -> Result<bool, Unread> {
    let tree = tree_of(alloc, layers)?;
    writer.write(lines, &tree)?;
    let alone = json_line(alloc, &tree)?;
    Ok(lines.ends_with(&alone))
}

pub(crate) fn is_json(alloc: Global, trees: &str, wanted: &str) -> Result<bool, Unread> {
    let mut writer = JsonWriter::new(alloc);
    let mut lines = Vec::new(alloc);
    for layers in trees.split("\n--\n").skip(1) {
        if !write_json(alloc, &mut writer, &mut lines, layers)? {
            return Ok(false);
        }
    }
    Ok(is_text(&lines, wanted))
}
