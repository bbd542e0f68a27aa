//! What is kept between packets, and the messages in it: reads tables of rows, and prints the rows that don't hold, and how many rows each
//! table has.
#![tactic(auto)]

mod drawn;
mod fragments;
mod messages;
mod runs;
mod segments;
mod sent;
mod streams;
mod words;

use std::alloc::Global;
use std::io::{self, Read};
use stream_messages::Framer;

/// DNS over TCP: its length, of two bytes, stands before each message (RFC 1035, 4.2.2).
const DNS: Framer = Framer::LengthPrefix {
    head: 2,
    at: 0,
    width: 2,
};

/// Records of TLS: a type, a version of two bytes, and a length of two (RFC 8446, 5.1).
const RECORDS: Framer = Framer::LengthPrefix {
    head: 5,
    at: 3,
    width: 2,
};

/// A length of sixteen bytes, wider than any count, behind one other byte.
const WIDE: Framer = Framer::LengthPrefix {
    head: 17,
    at: 1,
    width: 16,
};

/// Whether a row of the table of this name holds.
fn holds(alloc: Global, check: &str, row: &str) -> bool {
    match check {
        "runs" => matches!(runs::hold(alloc, row), Ok(true)),
        "fragments" => matches!(fragments::hold(alloc, row), Ok(true)),
        "segments" => matches!(segments::hold(alloc, None, row), Ok(true)),
        "http segments" => matches!(segments::hold(alloc, Some(Framer::Http), row), Ok(true)),
        "dns segments" => matches!(segments::hold(alloc, Some(DNS), row), Ok(true)),
        "drawn orders" => matches!(drawn::hold(alloc, row), Ok(true)),
        "http message" => matches!(messages::hold(alloc, false, row), Ok(true)),
        "http answer to HEAD" => matches!(messages::hold(alloc, true, row), Ok(true)),
        "http limit" => matches!(messages::holds_whole(alloc, row), Ok(true)),
        "http stream" => matches!(streams::holds(alloc, Framer::Http, row), Ok(true)),
        "dns stream" => matches!(streams::holds(alloc, DNS, row), Ok(true)),
        "record stream" => matches!(streams::holds(alloc, RECORDS, row), Ok(true)),
        "wide stream" => matches!(streams::holds(alloc, WIDE, row), Ok(true)),
        "http stretches" => matches!(streams::steps_hold(alloc, row), Ok(true)),
        _ => false,
    }
}

/// Prints the rows of a table that don't hold, and how many it has. Rows are lines, or what stands between empty lines where the first
/// line has an empty one behind it.
fn judge(rt: &impl Print, alloc: Global, table: &str) -> io::Result<()> {
    let (name, rows) = table.split_once('\n').unwrap_or((table, ""));
    let (rows, end) = match rows.strip_prefix('\n') {
        Some(rows) => (rows, "\n\n"),
        None => (rows, "\n"),
    };
    let (check, _) = name.split_once(": ").unwrap_or((name, ""));
    let mut count = 0usize;
    for row in rows.split(end) {
        count = count.saturating_add(1);
        if !holds(alloc, check, row) {
            println!(rt; "{name}: wrong: {row}")?;
        }
    }
    println!(rt; "{name}: {count} rows")
}

fn main(rt: HostRuntime) -> io::Result<()> {
    let mut text = String::new(rt.alloc());
    rt.reader().read_to_string(&mut text)?;
    for table in text.as_str().trim_end().split("\n\n\n") {
        judge(&rt, rt.alloc(), table)?;
    }
    Ok(())
}
