//! TCP streams, whatever the order, loss or repetition of their segments (RFC 9293).
#![tactic(auto)]

mod ends;
mod followed;
mod kept;
mod kept_places;
mod laws;
mod letting_go;
mod newest;
mod numbers;
mod passing;
mod reach;
mod reads;
mod runs;
mod segment;
mod steps;
mod stream;
mod stream_places;
mod streams;
mod way;
mod ways;

pub use ends::{End, Ends, ends_between};
pub use laws::{gaps_passed, kept_goes_on, places_acknowledged};
pub use newest::Newest;
pub use segment::{Segment, Taken};
pub use stream_places::StreamPlaces;
pub use streams::Streams;
