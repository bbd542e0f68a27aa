//! What the trees of captures of few frames tell, and whether plain frames' headers tell the same: reads tables of captures, and prints
//! those that don't hold, and how many each table has.
#![tactic(auto)]

mod alike;
mod both;
mod captures;
mod given;
mod told;

use both::is_told_alike;
use captures::is_told;
use std::alloc::Global;
use std::io::{self, Read};

/// Whether a row of the table of this name holds.
fn holds(alloc: Global, check: &str, row: &str) -> bool {
    let told = match check {
        "heads" | "named" | "fed" => is_told_alike(alloc, check, row),
        _ => is_told(alloc, check, row),
    };
    matches!(told, Some(true))
}

/// Prints the rows of a table that don't hold, and how many it has. Rows are lines, or what stands between empty lines where the first
/// line has an empty one behind it.
fn judge(rt: &impl Print, alloc: Global, table: &str) -> io::Result<()> {
    let (name, rows) = table.split_once('\n').unwrap_or((table, ""));
    let (rows, end) = match rows.strip_prefix('\n') {
        Some(rows) => (rows, "\n\n"),
        None => (rows, "\n"),
    };
    let (check, _) = name.split_once(": ").unwrap_or((name, ""));
    let mut count = 0usize;
    for row in rows.split(end) {
        count = count.saturating_add(1);
        if !holds(alloc, check, row) {
            println!(rt; "{name}: wrong: {row}")?;
        }
    }
    println!(rt; "{name}: {count} rows")
}

fn main(rt: HostRuntime) -> io::Result<()> {
    let mut text = String::new(rt.alloc());
    rt.reader().read_to_string(&mut text)?;
    for table in text.as_str().trim_end().split("\n\n\n") {
        judge(&rt, rt.alloc(), table)?;
    }
    Ok(())
}
