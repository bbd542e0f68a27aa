/// Why a capture file can't be read further. The variants stand in the order of their codes, B1 to B10.
#[derive(Clone, Copy, Debug)]
pub enum Reason {
    /// B1: fewer than four bytes in the file, or a pcap header that is cut.
    ShortHeader,
    /// B2: the first four bytes are no magic number, or a section's byte-order magic is wrong.
    UnknownMagic,
    /// B3: a pcap major version other than 2, or a section's other than 1.
    BadVersion,
    /// B4: a pcap record's head or bytes are cut.
    RecordCut,
    /// B5: a captured length above 262,144.
    TooLong,
    /// B6: a block's total length that its type doesn't allow, or that differs from its repetition.
    BlockLength,
    /// B7: a block that is cut.
    BlockCut,
    /// B8: a packet names an interface that its section hasn't described.
    BadInterface,
    /// B9: an option of an interface that runs past its block, or has another length than its code's.
    BadOption,
    /// B10: a resolution of an interface that is too fine.
    BadResolution,
}

/// A frame found in a capture file's bytes, by places counted from the first byte of the record or block that holds it.
#[derive(Clone, Copy)]
pub struct Found {
    /// When the frame was taken, in nanoseconds since 1970 in UTC, where the file says it.
    pub time: Option<i128>,
    /// The link type of the frame's first bytes.
    pub link: u16,
    /// Whether the file's or section's numbers are little-endian.
    pub little: bool,
    /// The frame's length on the wire, in bytes.
    pub original: u32,
    /// The place of the frame's first captured byte.
    pub start: usize,
    /// How many bytes were captured.
    pub len: usize,
    /// The place behind the record or block.
    pub end: usize,
}
