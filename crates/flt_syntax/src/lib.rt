//! What a display filter's text is: its tokens, its syntax tree, and the faults of a text that has none. Reading it is flt_parse's.
#![tactic(auto)]

mod ast;
mod fault;
mod token;
mod word;

pub use ast::{
    Arithmetic, Ast, Choice, Element, Function, Layer, LayerRange, Literal, Negation, Operand,
    Operator, Place, RangePart, SliceRange, Tail,
};
pub use fault::{FilterError, FilterFault, FilterReason};
pub use token::{Join, Keyword, Kind, Lexeme, Mode, Sign, Token};
pub use word::{Quote, Word, WordText};
