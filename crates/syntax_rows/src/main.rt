//! What filters' texts, literals and patterns are: reads tables of rows, and prints the rows that don't hold, and how many rows each
//! table has.
#![tactic(auto)]

mod literals;
mod patterns;
mod shape;
mod written;

use std::alloc::Global;
use std::io::{self, Read};

/// Whether a row of the table of this name holds.
fn holds(alloc: Global, check: &str, row: &str) -> bool {
    let answer = match check {
        "filter" => written::is_answered(alloc, row),
        "long filter" => written::is_long_answered(alloc, row),
        "literal" => literals::is_read(alloc, false, row),
        "literal with prefix length" => literals::is_read(alloc, true, row),
        "kind" => literals::is_kind(row),
        "relation" => literals::is_relation(row),
        "pattern" => patterns::is_pattern(alloc, row),
        "long pattern" => patterns::is_long_pattern(alloc, row),
        _ => None,
    };
    answer == Some(true)
}

/// Prints the rows of a table that don't hold, and how many it has. Rows are lines, or what stands between empty lines where the first
/// line has an empty one behind it.
fn judge(rt: &impl Print, alloc: Global, table: &str) -> io::Result<()> {
    let (name, rows) = table.split_once('\n').unwrap_or((table, ""));
    let (rows, end) = match rows.strip_prefix('\n') {
        Some(rows) => (rows, "\n\n"),
        None => (rows, "\n"),
    };
    let (check, _) = name.split_once(": ").unwrap_or((name, ""));
    let mut count = 0usize;
    for row in rows.split(end) {
        count = count.saturating_add(1);
        if !holds(alloc, check, row) {
            println!(rt; "{name}: wrong: {row}")?;
        }
    }
    println!(rt; "{name}: {count} rows")
}

fn main(rt: HostRuntime) -> io::Result<()> {
    let mut text = String::new(rt.alloc());
    rt.reader().read_to_string(&mut text)?;
    for table in text.as_str().trim_end().split("\n\n\n") {
        judge(&rt, rt.alloc(), table)?;
    }
    Ok(())
}
