use pk_base::{Found, Reason};

/// What stands at a place where a block of a pcapng file begins.
#[derive(Clone, Copy)]
pub enum BlockStep {
    /// So many bytes are needed, and fewer are held.
    Need(usize),
    /// A whole packet block, with its frame's place in it.
    Item(Found),
    /// A whole block that is no packet, of so many bytes.
    Skipped(usize),
    /// A block that isn't read: `UnknownMagic`, `BadVersion`, `TooLong`, `BlockLength`, `BadInterface`, `BadOption` or
    /// `BadResolution`.
    Bad(Reason),
}
