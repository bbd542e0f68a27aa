//! Statistics over the trees of frames: conversations, and the hierarchy of protocols.
#![tactic(auto)]

mod counts;
mod fields;
mod headers;
mod kind;
mod laws;
mod lines;
mod pairs;
mod party;
mod paths;
mod shown;
mod stats;
mod streams;
mod told;

pub use fields::add_fields;
pub use kind::StatKind;
pub use laws::kept_trees_have_the_same_table;
pub use stats::Stats;
