/// What the values of a field are.
#[derive(Clone, Copy, PartialEq, Eq)]
pub enum ValueKind {
    /// A number below two to this width, which is 1 to 64.
    Uint(u8),
    Bool,
    Bytes,
    /// Bytes that are shown as text.
    Text,
    /// An Ethernet address, 6 bytes.
    Ether,
    /// An IPv4 address, 4 bytes.
    Ip4,
    /// An IPv6 address, 16 bytes.
    Ip6,
    /// A time in nanoseconds.
    Time,
    /// A protocol; its value is the bytes of its layer.
    Proto,
}

/// The bits of a number in its item's own bytes, the most significant bit of a byte first.
#[derive(Clone, Copy)]
pub struct BitPlace {
    /// The first bit, 0 to 7.
    pub first: u8,
    /// How many bits.
    pub width: u8,
    /// The factor that the number is taken by.
    pub scale: u8,
}
