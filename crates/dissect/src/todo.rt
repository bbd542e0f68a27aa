use pk_base::{Mode, Next, PacketHead, Span};

/// A header that is to be read.
#[derive(Clone, Copy)]
pub(crate) struct Head {
    pub which: Next,
    pub span: Span,
    /// What the IP header says of the packet that it is in.
    pub packet: PacketHead,
    pub mode: Mode,
}

/// What is to be read next of a frame.
#[derive(Clone, Copy)]
pub(crate) enum Todo {
    Done,
    Head(Head),
}
