//! What every crate of the dissector stands on: shared bytes, spans, numbers in bytes, the reasons for damage in a
//! capture file, the limits; what an item holds, which layers are meant, and what headers say of what follows them.
#![tactic(auto)]

mod bits;
mod chosen;
mod endian;
mod found;
mod heads;
mod limits;
mod lost;
mod memory;
mod number_list;
mod octets;
mod plain_bytes;
mod span;
mod stretch;
mod value;

pub use bits::be_bits;
pub use chosen::{LayerRange, LayerRanges, Layers};
pub use endian::{u16_at, u32_at};
pub use found::{Found, Reason};
pub use heads::{
    Address, After, Endpoint, FragmentHead, Mode, Next, PacketHead, PortsHead, TcpHead,
};
pub use limits::{
    BODY_LIMIT, CAPTURED_LIMIT, CHUNK_LINE_LIMIT, DATAGRAM_LIMIT, FILE_LIMIT, FILTER_DEPTH_LIMIT,
    FILTER_LIMIT, GENERATED_LIMIT, HTTP_FIELD_LIMIT, HTTP_HEAD_LIMIT, LABEL_LIMIT, LAYER_LIMIT,
    NAME_LIMIT, TRAILER_LIMIT, WINDOW, file_limit,
};
pub use lost::{Lost, LostList};
pub use memory::NoMemory;
pub use number_list::Numbers;
pub use octets::Octets;
pub use plain_bytes::{are_digits, bytes_from};
pub use span::Span;
pub use stretch::{Stretch, Stretches};
pub use value::Value;
