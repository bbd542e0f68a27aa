//! What filters mean of trees, and how their programs are listed and run: reads tables of rows, and prints the rows that don't hold, and
//! how many rows each table has.
#![tactic(auto)]

mod alone;
mod asked;
mod machine;

use std::alloc::Global;
use std::io::{self, Read};

/// Whether a row of the table of this name holds.
fn holds(alloc: Global, check: &str, row: &str) -> bool {
    let answer = match check {
        "asked of the packet" => asked::is_asked(alloc, asked::PACKET, row),
        "asked of values" => asked::is_asked(alloc, asked::VALUES, row),
        "asked of lists" => asked::is_asked(alloc, asked::LISTS, row),
        "listing" => asked::is_listed(alloc, row),
        "run" => machine::is_run(alloc, row),
        "run by hand" => machine::is_run_by_hand(alloc, row),
        _ => alone::is_so(alloc, check, row),
    };
    answer == Some(true)
}

/// Prints the rows of a table that don't hold, and how many it has. Rows are lines, or what stands between empty lines where the first
/// line has an empty one behind it.
fn judge(rt: &impl Print, alloc: Global, table: &str) -> io::Result<()> {
    let (name, rows) = table.split_once('\n').unwrap_or((table, ""));
    let (rows, end) = match rows.strip_prefix('\n') {
        Some(rows) => (rows, "\n\n"),
        None => (rows, "\n"),
    };
    let (check, _) = name.split_once(": ").unwrap_or((name, ""));
    let mut count = 0usize;
    for row in rows.split(end) {
        count = count.saturating_add(1);
        if !holds(alloc, check, row) {
            println!(rt; "{name}: wrong: {row}")?;
        }
    }
    println!(rt; "{name}: {count} rows")
}

fn main(rt: HostRuntime) -> io::Result<()> {
    let mut text = String::new(rt.alloc());
    rt.reader().read_to_string(&mut text)?;
    for table in text.as_str().trim_end().split("\n\n\n") {
        judge(&rt, rt.alloc(), table)?;
    }
    Ok(())
}
