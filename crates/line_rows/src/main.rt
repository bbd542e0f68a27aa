//! What words ask for, what frames' trees are printed as, and what is told of a capture: reads tables of rows, and prints the rows that don't hold, and how many rows each table has.
#![tactic(auto)]

mod follow;
mod lines;
mod plans;
mod reports;
mod texts;
mod words;

use std::alloc::Global;
use std::io::{self, Read};
use tree_rows::Unread;

/// Whether what comes of what is given is what is wanted, which stands behind ` -> `, or behind a line `->`.
fn answers(alloc: Global, check: &str, given: &str, wanted: &str) -> Result<bool, Unread> {
    match check {
        "words" => words::are_answered(alloc, given, wanted),
        "told" => texts::is_told(alloc, given, wanted),
        "reason" => Ok(texts::is_reason(given, wanted)),
        "end" => Ok(texts::ends_so(alloc, given, wanted)),
        "follow" => follow::is_followed(alloc, given, wanted),
        "names" => lines::are_named(alloc, given, wanted),
        "columns" => lines::are_columns(alloc, given, wanted),
        "summary" => lines::is_summary(alloc, given, wanted),
        "json" => lines::is_json(alloc, given, wanted),
        "links" => reports::are_linked(alloc, given, wanted),
        "link field" => Ok(reports::is_link_field(given, wanted)),
        _ => reports::is_table(alloc, check, given, wanted),
    }
}

/// Whether a row of the table of this name holds.
fn holds(alloc: Global, check: &str, row: &str) -> bool {
    match row.split_once("\n->\n").or(row.split_once(" -> ")) {
        Some((given, wanted)) => matches!(answers(alloc, check, given, wanted), Ok(true)),
        None => false,
    }
}

/// Prints the rows of a table that don't hold, and how many it has. Rows are lines, or what stands between empty lines where the first
/// line has an empty one behind it.
fn judge(rt: &impl Print, alloc: Global, table: &str) -> io::Result<()> {
    let (name, rows) = table.split_once('\n').unwrap_or((table, ""));
    let (rows, end) = match rows.strip_prefix('\n') {
        Some(rows) => (rows, "\n\n"),
        None => (rows, "\n"),
    };
    let (check, _) = name.split_once(": ").unwrap_or((name, ""));
    let mut count = 0usize;
    for row in rows.split(end) {
        count = count.saturating_add(1);
        if !holds(alloc, check, row) {
            println!(rt; "{name}: wrong: {row}")?;
        }
    }
    println!(rt; "{name}: {count} rows")
}

fn main(rt: HostRuntime) -> io::Result<()> {
    let mut text = String::new(rt.alloc());
    rt.reader().read_to_string(&mut text)?;
    for table in text.as_str().trim_end().split("\n\n\n") {
        judge(&rt, rt.alloc(), table)?;
    }
    Ok(())
}
