//! What the headers of a frame answer without a tree: reads a table of rows, a field's name and its values, or the frame's line of
//! `columns`, or its `summary`, and prints the rows that don't hold, and how many there are.
#![tactic(auto)]

mod frame;
mod lines;

use crate::frame::{FRAME, make_given, notes, outline};
use crate::lines::{has_columns, has_summary};
use pk_base::{Layers, NoMemory, Octets, Value};
use pk_fields::{FieldId, FieldSet, by_name};
use pk_source::{Places, Source};
use std::alloc::Global;
use std::io::{self, Read};
use tree_rows::value_text;

fn holds(alloc: Global, source: &Source<'_>, row: &str) -> Result<bool, NoMemory> {
    let (asked, expected) = row.split_once(" =").unwrap_or((row, ""));
    if asked == "summary" {
        return has_summary(alloc, source, expected);
    }
    match asked.strip_prefix("columns ") {
        Some(columns) => has_columns(alloc, source, columns, expected),
        None => has_values(alloc, source, asked, expected),
    }
}

/// Whether a source has exactly these values of a field, by each of its calls.
fn has_values(
    alloc: Global,
    source: &Source<'_>,
    name: &str,
    expected: &str,
) -> Result<bool, NoMemory> {
    match by_name(name) {
        Some(field) => answers(alloc, source, field, expected),
        None => Ok(false),
    }
}

fn answers(
    alloc: Global,
    source: &Source<'_>,
    field: FieldId,
    expected: &str,
) -> Result<bool, NoMemory> {
    let values = source.values(alloc, field, &Layers::All)?;
    let has = source.has(field, &Layers::All);
    let text = all_text(alloc, &values)?;
    Ok(text.as_str() == expected && has != values.is_empty())
}

/// The values, each behind a space.
fn all_text(alloc: Global, values: &[Value]) -> Result<String, NoMemory> {
    let mut text = String::new(alloc);
    for value in values {
        push_value(alloc, &mut text, value)?;
    }
    Ok(text)
}

fn push_value(alloc: Global, text: &mut String, value: &Value) -> Result<(), NoMemory> {
    let shown = value_text(alloc, value)?;
    text.push_str(" ")?;
    text.push_str(shown.as_str())?;
    Ok(())
}

fn judge(rt: &impl Print, alloc: Global, source: &Source<'_>, text: &str) -> io::Result<()> {
    let mut count = 0usize;
    for row in text.lines() {
        count = count.saturating_add(1);
        if !matches!(holds(alloc, source, row), Ok(true)) {
            println!(rt; "wrong: {row}")?;
        }
    }
    println!(rt; "{count} rows")
}

fn ask(rt: &impl Print, alloc: Global, text: &str) -> io::Result<()> {
    let given = make_given();
    match (
        Octets::copy(alloc, &FRAME),
        Places::new(alloc, &given.tables),
    ) {
        (Ok(bytes), Ok(places)) => {
            let (wanted, notes) = (FieldSet::all(), notes());
            let outline = outline(&bytes, &wanted, &given.headers, &notes, &places);
            judge(rt, alloc, &Source::of_outline(&outline), text)
        }
        _ => println!(rt; "no memory"),
    }
}

fn main(rt: HostRuntime) -> io::Result<()> {
    let mut text = String::new(rt.alloc());
    rt.reader().read_to_string(&mut text)?;
    ask(&rt, rt.alloc(), text.as_str())
}
