use crate::ending::Ending;
use capture_formats::PcapHead;

/// How the next record or block of a file is read.
#[derive(Clone, Copy)]
pub enum Format {
    /// A record, behind a pcap file's header.
    Pcap(PcapHead),
    /// A block of a pcapng file, behind those that were read.
    Pcapng,
    /// None, since the file's header isn't read.
    Ended(Ending),
}

/// The place of the next record or block of a file.
#[derive(Clone, Copy)]
pub struct Place {
    /// The number of the next frame.
    pub number: u32,
    /// The place of the record's or block's first byte.
    pub at: usize,
}
