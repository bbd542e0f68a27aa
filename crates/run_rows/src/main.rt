//! Runs of the program over a capture and sinks in memory that fail where they are told to: reads tables of rows, and prints the rows that
//! don't hold, and how many rows each table has. Runs in which nothing fails are asked of the built program, by tools/check_runs.
#![tactic(auto)]

mod runs;

use std::alloc::Global;
use std::io::{self, Read};

/// Prints the rows of a table that don't hold, and how many it has. Rows are what stands between empty lines.
fn judge(rt: &impl Print, alloc: Global, table: &str) -> io::Result<()> {
    let (name, rows) = table.split_once("\n\n").unwrap_or((table, ""));
    let mut count = 0usize;
    for row in rows.split("\n\n") {
        count = count.saturating_add(1);
        if !runs::holds(alloc, name, row) {
            println!(rt; "{name}: wrong: {row}")?;
        }
    }
    println!(rt; "{name}: {count} rows")
}

fn main(rt: HostRuntime) -> io::Result<()> {
    let mut text = String::new(rt.alloc());
    rt.reader().read_to_string(&mut text)?;
    for table in text.as_str().trim_end().split("\n\n\n") {
        judge(&rt, rt.alloc(), table)?;
    }
    Ok(())
}
