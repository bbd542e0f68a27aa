ghost use Rattle.std.specs.Prelude.{◌≡◌, ◌*◌, ◌^◌, ◌<◌, length};
ghost use Rattle.capture_formats.specs.Pcap.{pcap_item, nanoseconds, IsItemWithin};

use crate::header::PcapHead;
use pk_base::{CAPTURED_LIMIT, Found, Reason, u32_at};

const RECORD_HEADER_SIZE: usize = 16;

const SECONDS_AT: usize = 0;

const FRACTION_AT: usize = 4;

const CAPTURED_AT: usize = 8;

const ORIGINAL_AT: usize = 12;

const NANOSECONDS_PER_SECOND: u64 = 1_000_000_000;

const NANOSECONDS_PER_MICROSECOND: u64 = 1_000;

/// What stands at a place where a record of a pcap file begins.
#[derive(Clone, Copy)]
pub enum ItemStep {
    /// So many bytes are needed, and fewer are held.
    Need(usize),
    /// A whole record, with its frame's place in it.
    Item(Found),
    /// A record that isn't read: `TooLong`.
    Bad(Reason),
}

/// Reads the record that begins with the first of the bytes held, in a file with this header.
#[tactic(auto, unfolding(crate::specs::Pcap::pcap_item))]
pub fn next_item(head: &PcapHead, rest: &[u8]) -> ItemStep
    ensures value { result ≡ pcap_item head.now rest.now }
    ensures within { IsItemWithin result (length rest.now) }
{
    if rest.len() < RECORD_HEADER_SIZE {
        return ItemStep::Need(RECORD_HEADER_SIZE);
    }
    let captured = u32_at(head.little, rest, CAPTURED_AT);
    if captured > CAPTURED_LIMIT {
        return ItemStep::Bad(Reason::TooLong);
    }
    let len = captured as usize;
    let end = RECORD_HEADER_SIZE + len;
    if rest.len() < end {
        return ItemStep::Need(end);
    }
    let seconds = u32_at(head.little, rest, SECONDS_AT);
    let fraction = u32_at(head.little, rest, FRACTION_AT);
    ItemStep::Item(Found {
        time: Some(time(head.nano, seconds, fraction)),
        link: head.link,
        little: head.little,
        original: u32_at(head.little, rest, ORIGINAL_AT),
        start: RECORD_HEADER_SIZE,
        len,
        end,
    })
}

/// Nanoseconds since 1970, of whole seconds and the nano- or microseconds beside them.
fn time(nano: bool, seconds: u32, fraction: u32) -> i128
    ensures { result ≡ nanoseconds nano seconds fraction }
{
    let unit = if nano { 1 } else { NANOSECONDS_PER_MICROSECOND };
    i128::from(u64::from(seconds) * NANOSECONDS_PER_SECOND + u64::from(fraction) * unit)
}
