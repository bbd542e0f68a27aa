/// A run of bytes in one of a tree's buffers: the buffer's number, the first byte's place, and how many bytes.
#[derive(Clone, Copy)]
pub struct Span {
    pub buffer: u32,
    pub start: u32,
    pub len: u32,
}
