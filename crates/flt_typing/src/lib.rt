//! What the literals of filters write, the kinds of what has values, what a text's syntax tree has to be for a type, and the fields that a
//! filter asks for.
#![tactic(auto)]

mod asked;
mod filter;
mod kind;
mod literal;
mod standing;

pub use asked::add_fields;
pub use filter::Filter;
pub use kind::{NUMBER, kind_of};
pub use literal::{Reading, read_quote, read_within, read_word};
pub use standing::Standing;
