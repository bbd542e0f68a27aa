//! Gives a filter its types: what each name, literal and pattern of the syntax tree is, or the tree's first fault. Reads the text of a filter: its typed
//! filter, or the text's first fault.
#![tactic(auto)]

mod conditions;
mod faults;
mod laws;
mod layers;
mod literals;
mod operand;
mod operands;
mod owned;
mod position;
mod ranges;
mod reading;
mod sets;
mod text_laws;
mod typing;

pub use laws::{clear_trees_have_a_type, typed_trees_have_no_fault};
pub use position::Side;
pub use reading::read_filter;
pub use text_laws::{
    faults_are_unique, texts_are_filters_or_refused, texts_have_one_meaning,
    typed_texts_have_no_fault,
};
pub use typing::check;
