//! Bytes of files: words with blanks between them, each hexadecimal digits or the name of a piece below.
use hex::decode;
use std::alloc::Global;

/// The digits of a named piece, little-endian but for names of capitals; of other words, themselves.
fn digits_of(word: &str) -> &str {
    match word {
        // The header that tcpdump writes for Ethernet on a little-endian machine: microseconds, version 2.4, at most 262,144 bytes.
        "pcap" => "d4c3b2a10200040000000000000000000000040001000000",
        // Three captured bytes of 60, taken 5.000007 seconds after the start of 1970.
        "record" => "0500000007000000030000003c000000aabbcc",
        // The head of a record of 60 captured bytes of 60, taken at the start of 1970.
        "head-of-60" => "00000000000000003c0000003c000000",
        // A request of ARP from 10.0.0.1 for 10.0.0.2, in an Ethernet frame (RFC 826).
        "arp" =>
            "ffffffffffff020000000001080600010800060400010200000000010a0000010000000000000a000002000000000000000000000000000000000000",
        // A section, version 1.0, of unknown length.
        "section" => "0a0d0d0a1c0000004d3c2b1a01000000ffffffffffffffff1c000000",
        // A section of version 2.0, and the same whose byte order isn't told.
        "section-2.0" => "0a0d0d0a1c0000004d3c2b1a02000000ffffffffffffffff1c000000",
        "section-untold" => "0a0d0d0a1c000000003c2b1a02000000ffffffffffffffff1c000000",
        // An Ethernet interface without options, whose packets are kept whole.
        "ethernet" => "0100000014000000010000000000000014000000",
        // An enhanced packet of interface 0 at tick 5, with three captured bytes of 60.
        "packet" => "0600000024000000000000000000000005000000030000003c000000aabbcc0024000000",
        // The same in big-endian order, but for a packet at tick 1,000,000 with one captured byte of one, and a block of type 0x0BAD.
        "SECTION" => "0a0d0d0a0000001c1a2b3c4d00010000ffffffffffffffff0000001c",
        "ETHERNET" => "0000000100000014000100000000000000000014",
        "PACKET" => "00000006000000240000000000000000000f42400000000100000001dd00000000000024",
        "UNKNOWN" => "00000bad0000000c0000000c",
        _ => word,
    }
}

fn push_word(alloc: Global, bytes: &mut Vec<u8>, word: &str) -> Option<()> {
    let decoded = decode(alloc, digits_of(word)).ok()?;
    bytes.extend_from_slice(&decoded).ok()
}

pub(crate) fn bytes_of(alloc: Global, words: &str) -> Option<Vec<u8>> {
    let mut bytes = Vec::new(alloc);
    for word in words.split_whitespace() {
        push_word(alloc, &mut bytes, word)?;
    }
    Some(bytes)
}

/// The numbers behind the words that begin so.
pub(crate) fn numbers_of(alloc: Global, words: &str, begin: &str) -> Option<Vec<u64>> {
    let mut numbers = Vec::new(alloc);
    for word in words.split_whitespace() {
        if let Some(number) = word.strip_prefix(begin) {
            numbers.push(number.parse().ok()?).ok()?;
        }
    }
    Some(numbers)
}
