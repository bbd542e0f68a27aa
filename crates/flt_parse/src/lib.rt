//! Reads the text of a display filter: its syntax tree, or the first fault of a text that has none.
#![tactic(auto)]

mod ends;
mod joins;
mod keywords;
mod laws;
mod letters;
mod lexer;
mod links;
mod lists;
mod operands;
mod parser;
mod signs;
mod state;
mod steps;
mod strings;
mod tails;
mod whole;
mod within;

pub use laws::{
    faults_are_unique, filters_are_unique, filters_have_no_fault, longest_signs_are_tokens,
    texts_are_filters_or_have_a_fault,
};
pub use parser::parse;
