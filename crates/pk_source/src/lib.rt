//! What answers for the values of a frame's fields: its tree, or the headers of a frame that needs none.
#![tactic(auto)]

mod first;
mod found;
mod header;
mod laws;
mod outline;
mod picks;
mod reader;
mod reading;
mod source;
mod walks;

pub use first::{First, FirstFound};
pub use header::{Header, Note, Told};
pub use laws::outlines_are_trees;
pub use outline::Outline;
pub use picks::{Picks, Places, Table};
pub use reader::Reader;
pub use reading::{scaled_number, wide_number};
pub use source::{Lender, Source};
