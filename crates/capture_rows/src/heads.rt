//! Headers and records of pcap files.
//!
//! A row of `header` is the first bytes of a file, ` -> `, and what they are: byte order, unit of the clock and link type, as
//! `le micro 1`; `needs:` and how many bytes are needed; or why they aren't read. A row of `record` is such a header, `: `, the bytes that
//! are held, ` -> `, and what they are: a frame (below), or as for a header.
//!
//! A frame that was found is `TIME/LINK/ORDER/ORIGINAL@START+LENGTH..END`, by places in its record or block.
use crate::frames::{order_of, order_text, time_text};
use crate::pieces::bytes_of;
use capture_formats::{HeadStep, ItemStep, PcapHead, head, next_item};
use pk_base::Found;
use std::alloc::Global;

fn head_text(alloc: Global, step: HeadStep) -> Option<String> {
    match step {
        HeadStep::Head(head) => {
            let unit = if head.nano { "nano" } else { "micro" };
            format!(in alloc; "{} {unit} {}", order_text(head.little), head.link).ok()
        }
        HeadStep::Need(count) => format!(in alloc; "needs:{count}").ok(),
        HeadStep::Bad(reason) => format!(in alloc; "{reason:?}").ok(),
    }
}

pub(crate) fn is_head(alloc: Global, row: &str) -> Option<bool> {
    let (given, wanted) = row.split_once(" -> ")?;
    let bytes = bytes_of(alloc, given)?;
    let text = head_text(alloc, head(&bytes))?;
    Some(text.as_str() == wanted)
}

fn head_of(text: &str) -> Option<PcapHead> {
    let (order, rest) = text.split_once(' ')?;
    let (unit, link) = rest.split_once(' ')?;
    Some(PcapHead {
        little: order_of(order)?,
        nano: match unit {
            "micro" => false,
            "nano" => true,
            _ => return None,
        },
        link: link.parse().ok()?,
    })
}

pub(crate) fn found_text(alloc: Global, found: &Found) -> Option<String> {
    let time = time_text(alloc, found.time)?;
    let (link, original) = (found.link, found.original);
    let order = order_text(found.little);
    let (start, len, end) = (found.start, found.len, found.end);
    format!(in alloc; "{time}/{link}/{order}/{original}@{start}+{len}..{end}").ok()
}

fn item_text(alloc: Global, step: ItemStep) -> Option<String> {
    match step {
        ItemStep::Item(found) => found_text(alloc, &found),
        ItemStep::Need(count) => format!(in alloc; "needs:{count}").ok(),
        ItemStep::Bad(reason) => format!(in alloc; "{reason:?}").ok(),
    }
}

pub(crate) fn is_record(alloc: Global, row: &str) -> Option<bool> {
    let (given, wanted) = row.split_once(" -> ")?;
    let (head, bytes) = given.split_once(':')?;
    let head = head_of(head)?;
    let bytes = bytes_of(alloc, bytes)?;
    let text = item_text(alloc, next_item(&head, &bytes))?;
    Some(text.as_str() == wanted)
}
