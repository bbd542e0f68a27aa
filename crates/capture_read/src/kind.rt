use crate::ending::Ending;
use capture_formats::PcapHead;

/// The format of a file whose header or first block is read.
#[derive(Clone, Copy)]
pub enum Kind {
    Pcap(PcapHead),
    Pcapng,
}

/// What is known of the bytes behind those held.
#[derive(Clone, Copy)]
pub enum Seen {
    /// Nothing yet.
    Open,
    /// There are none.
    Ended,
    /// One byte past those that are looked at was read.
    Beyond,
}

/// What a reader answers from now on.
#[derive(Clone, Copy)]
pub enum Phase {
    /// What it reads.
    Open,
    /// How the file ends.
    Ended(Ending),
    /// That it answered an error before.
    Spent,
}
