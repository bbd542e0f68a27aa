use pk_base::{Numbers, Octets};

/// What a fragment makes of those that came before it.
#[derive(Drop)]
pub enum Joined {
    /// The datagram isn't whole yet.
    Pending,
    /// With this fragment the datagram is whole.
    Whole(Datagram),
    /// The fragment goes against those before it. All of them are forgotten.
    Conflict(ConflictKind),
}

/// A datagram that is whole.
#[derive(Drop)]
pub struct Datagram {
    /// The protocol number of what it carries.
    pub next: u8,
    pub bytes: Octets,
    /// The frames of its fragments, in the order in which these were taken.
    pub frames: Numbers,
}

/// How a fragment goes against those before it. The variants stand in the order in which they are looked for.
#[derive(Clone, Copy)]
pub enum ConflictKind {
    /// It ends past 65,535.
    TooLong,
    /// It ends past the datagram's end, or gives another end.
    MultipleTails,
    /// An IPv6 fragment that has positions in common with earlier ones, and repeats none of them.
    Overlap6,
}
