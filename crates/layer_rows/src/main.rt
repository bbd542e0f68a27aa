//! What the readers of headers and messages tell: reads tables of rows, and prints the rows that don't hold, and how many rows each
//! table has.
#![tactic(auto)]

mod afters;
mod givens;
mod readers;
mod rows;
mod trees;

use pk_base::NoMemory;
use std::alloc::Global;
use std::io::{self, Read};

/// Whether a row of the table of this name holds.
fn holds(alloc: Global, check: &str, row: &str) -> bool {
    let held = match check {
        "alone" => trees::alone(alloc, row),
        "values" => trees::values_hold(alloc, row),
        "steps" => trees::steps_hold(alloc, true, row),
        "failing steps" => trees::steps_hold(alloc, false, row),
        "chain" => rows::chain_holds(alloc, row),
        _ => told(alloc, check, row),
    };
    matches!(held, Ok(true))
}

/// Whether a row of a reader holds.
fn told(alloc: Global, check: &str, row: &str) -> Result<bool, NoMemory> {
    match check.split_once(" of ") {
        Some(("fronts", reader)) => rows::fronts_hold(alloc, reader, row),
        Some(("kinds", reader)) => rows::kinds_hold(alloc, reader, row),
        _ => rows::layers_hold(alloc, check, row),
    }
}

/// Prints the rows of a table that don't hold, and how many it has. Rows are lines, or what stands between empty lines where the first
/// line has an empty one behind it.
fn judge(rt: &impl Print, alloc: Global, table: &str) -> io::Result<()> {
    let (name, rows) = table.split_once('\n').unwrap_or((table, ""));
    let (rows, end) = match rows.strip_prefix('\n') {
        Some(rows) => (rows, "\n\n"),
        None => (rows, "\n"),
    };
    let (check, _) = name.split_once(": ").unwrap_or((name, ""));
    let mut count = 0usize;
    for row in rows.split(end) {
        count = count.saturating_add(1);
        if !holds(alloc, check, row) {
            println!(rt; "{name}: wrong: {row}")?;
        }
    }
    println!(rt; "{name}: {count} rows")
}

fn main(rt: HostRuntime) -> io::Result<()> {
    let mut text = String::new(rt.alloc());
    rt.reader().read_to_string(&mut text)?;
    for table in text.as_str().trim_end().split("\n\n\n") {
        judge(&rt, rt.alloc(), table)?;
    }
    Ok(())
}
