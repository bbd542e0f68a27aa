//! The messages of a TCP stream's bytes, each once, when its last byte comes: HTTP/1 (RFC 9112), and messages whose head tells their length.
#![tactic(auto)]

mod chunks;
mod cursor;
mod cutting;
mod ends;
mod framer;
mod heads;
mod laws;
mod lengths;
mod limits;
mod lines;
mod message;
mod part;
mod placed;
mod places;
mod plans;
mod progress;
mod resuming;
mod shape;
mod stretches;
mod told;

pub use cursor::Cursor;
pub use cutting::{Shown, cut_messages};
pub use framer::Framer;
pub use heads::head_laws;
pub use laws::{cursor_laws, first_laws, new_laws, prefix_law, side_laws, stretch_law};
pub use limits::FEW_FIELDS;
pub use message::{Framed, begin_law, chunk_laws, message_laws, next_message};
pub use placed::{Placed, PlacedList};
pub use places::{
    FieldPlaces, HeadPlaces, Part, StartLine, field_places, head_places, head_places_within,
};
pub use progress::{ChunkProgress, Framing, HeadProgress, Progress};
pub use resuming::resume;
pub use shape::{Body, Piece, PieceList, Shape, Then};
pub use stretches::{cut_newest, cut_stretches};
pub use told::Told;
