//! What the lowest crates answer: reads tables of rows, and prints the rows that don't hold, and how many rows each table has.
#![tactic(auto)]

mod fields;
mod lists;
mod outside;
mod places;
mod ports;
mod texts;

use std::alloc::Global;
use std::io::{self, Read};

/// Whether a row of the table of this name holds.
fn holds(rt: &HostRuntime, check: &str, row: &str) -> bool {
    let alloc = rt.alloc();
    match check {
        "lists" => matches!(lists::holds(alloc, row), Ok(true)),
        "outside" => matches!(outside::holds(rt, row), Ok(true)),
        "bits" => places::are_bits(row) == Some(true),
        "capture" => matches!(places::is_made(alloc, row), Ok(true)),
        "field" => fields::is_named(row),
        "no field" => fields::is_none(row) == Some(true),
        "kind" => fields::is_of_kind(row) == Some(true),
        "protocol" => fields::is_of(row) == Some(true),
        "field's bits" => fields::has_bits(row) == Some(true),
        "set of fields" => fields::is_held(row) == Some(true),
        "port" => ports::is_read_as(row) == Some(true),
        "escaped" => matches!(texts::is_escaped(alloc, row), Ok(true)),
        _ => matches!(texts::row_holds(alloc, check, row), Ok(true)),
    }
}

/// Prints the rows of a table that don't hold, and how many it has. Rows are lines, or what stands between empty lines where the first
/// line has an empty one behind it.
fn judge(rt: &HostRuntime, table: &str) -> io::Result<()> {
    let (name, rows) = table.split_once('\n').unwrap_or((table, ""));
    let (rows, end) = match rows.strip_prefix('\n') {
        Some(rows) => (rows, "\n\n"),
        None => (rows, "\n"),
    };
    let (check, _) = name.split_once(": ").unwrap_or((name, ""));
    let mut count = 0usize;
    for row in rows.split(end) {
        count = count.saturating_add(1);
        if !holds(rt, check, row) {
            println!(rt; "{name}: wrong: {row}")?;
        }
    }
    println!(rt; "{name}: {count} rows")
}

fn main(rt: HostRuntime) -> io::Result<()> {
    let mut text = String::new(rt.alloc());
    rt.reader().read_to_string(&mut text)?;
    for table in text.as_str().trim_end().split("\n\n\n") {
        judge(&rt, table)?;
    }
    Ok(())
}
