use pk_base::Octets;

/// A frame of a capture file.
#[derive(Drop)]
pub struct Frame {
    /// The frame's number in the file, from 1.
    pub number: u32,
    /// When the frame was taken, in nanoseconds since 1970 in UTC, where the file says it.
    pub time: Option<i128>,
    /// The link type of the frame's first bytes.
    pub link: u16,
    /// Whether the file's or section's numbers are little-endian.
    pub little: bool,
    /// The captured bytes, which share the file's memory.
    pub bytes: Octets,
    /// The frame's length on the wire, in bytes.
    pub original: u32,
}
