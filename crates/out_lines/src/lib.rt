//! The lines that frames are printed as: the values of chosen fields, or a summary.
#![tactic(auto)]

mod addresses;
mod column;
mod columns;
mod follow;
mod headers_line;
mod headers_summary;
mod laws;
mod lines;
mod style;
mod summary;
mod value_text;

pub use follow::{Fronts, follow_text};
pub use laws::kept_trees_have_the_same_line;
pub use lines::{LineWriter, field_line, header_line};
pub use style::{Occurrence, Quote, Style};
pub use summary::summary_line;
pub use value_text::put_value;
