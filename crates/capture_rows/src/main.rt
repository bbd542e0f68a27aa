//! What capture files hold, what is written as one, and what comes of merging them: reads tables of files, and prints the rows that
//! don't hold, and how many each table has.
#![tactic(auto)]

mod blocks;
mod files;
mod frames;
mod heads;
mod merged;
mod pieces;
mod written;

use std::alloc::Global;
use std::io::{self, Read};

/// Whether a row of the table of this name holds.
fn holds(alloc: Global, check: &str, row: &str) -> bool {
    let held = match check {
        "header" => heads::is_head(alloc, row),
        "record" => heads::is_record(alloc, row),
        "blocks" => blocks::are_blocks(alloc, row),
        "file" => files::is_file(alloc, row),
        "calls" => files::are_calls(alloc, row),
        "written" => written::is_written(alloc, row),
        "merged" => merged::is_merged(alloc, row),
        _ => None,
    };
    matches!(held, Some(true))
}

/// Prints the rows of a table that don't hold, and how many it has. Rows are lines, or what stands between empty lines where the first
/// line has an empty one behind it.
fn judge(rt: &impl Print, alloc: Global, table: &str) -> io::Result<()> {
    let (name, rows) = table.split_once('\n').unwrap_or((table, ""));
    let (rows, end) = match rows.strip_prefix('\n') {
        Some(rows) => (rows, "\n\n"),
        None => (rows, "\n"),
    };
    let (check, _) = name.split_once(": ").unwrap_or((name, ""));
    let mut count = 0usize;
    for row in rows.split(end) {
        count = count.saturating_add(1);
        if !holds(alloc, check, row) {
            println!(rt; "{name}: wrong: {row}")?;
        }
    }
    println!(rt; "{name}: {count} rows")
}

fn main(rt: HostRuntime) -> io::Result<()> {
    let mut text = String::new(rt.alloc());
    rt.reader().read_to_string(&mut text)?;
    for table in text.as_str().trim_end().split("\n\n\n") {
        judge(&rt, rt.alloc(), table)?;
    }
    Ok(())
}
