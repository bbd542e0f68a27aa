use crate::span::Span;

/// An address of the network layer.
#[derive(Clone, Copy)]
pub enum Address {
    Four(u32),
    Six(u128),
}

/// One end of a conversation.
#[derive(Clone, Copy)]
pub struct Endpoint {
    pub address: Address,
    pub port: u16,
}

/// How a layer is read.
#[derive(Clone, Copy)]
pub enum Mode {
    /// As a part of the frame's chain.
    Plain,
    /// As a part of the packet that an error message carries, which may be cut anywhere.
    Embedded,
}

/// Which header comes next.
#[derive(Clone, Copy)]
pub enum Next {
    Ip4,
    Ip6,
    Arp,
    Vlan,
    Icmp,
    Icmp6,
    Udp,
    Tcp,
    HopOpts,
    Routing,
    DstOpts,
    FragHdr,
    /// What a message of neighbour discovery carries behind its checksum, by the message's type.
    Neigh(u8),
    Igmp,
    /// None that is read: the bytes are shown as data.
    Rest,
}

/// What follows a layer, with the bytes that it has.
#[derive(Clone, Copy)]
pub enum After {
    Next(Next, Span),
    /// What an IP header carries.
    Packet(Next, Span, PacketHead),
    /// A part of a datagram.
    Fragment(FragmentHead, Span),
    /// What a UDP header carries.
    Datagram(PortsHead, Span),
    /// What a TCP header carries.
    Segment(TcpHead, Span),
    End,
}

/// What a fragment's headers say of its place in a datagram (RFC 791, 3.2; RFC 8200, 4.5).
#[derive(Clone, Copy)]
pub struct FragmentHead {
    /// Whether it is an IPv6 fragment.
    pub six: bool,
    pub source: Address,
    pub target: Address,
    /// The protocol number of what the datagram carries.
    pub next: u8,
    pub ident: u32,
    /// Where its bytes begin, in bytes.
    pub offset: u32,
    /// Whether more fragments follow.
    pub more: bool,
    /// Whether all bytes that its header names were captured.
    pub whole: bool,
}

/// What the IP header says of the packet that the later headers belong to.
#[derive(Clone, Copy)]
pub struct PacketHead {
    pub source: Address,
    pub target: Address,
    /// Whether all bytes that the header names were captured.
    pub whole: bool,
}

/// The ports of a UDP header.
#[derive(Clone, Copy)]
pub struct PortsHead {
    pub source: u16,
    pub target: u16,
}

/// What a TCP header says of a segment's place in its stream (RFC 9293, 3.1).
#[derive(Clone, Copy)]
pub struct TcpHead {
    pub source: u16,
    pub target: u16,
    pub seq: u32,
    pub ack: u32,
    pub syn: bool,
    /// Whether the acknowledgment number counts.
    pub acked: bool,
}
