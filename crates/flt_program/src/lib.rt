//! The programs of filters: the instructions of their machine, the fields that they ask for, a filter's patterns as they number them, and the
//! listing of a program, an instruction on each line.
#![tactic(auto)]

mod copies;
mod fields;
mod instr;
mod laws;
mod lines;
mod literals;
mod patterns;
mod program;

pub use copies::{copied_layers, copied_members, copied_ranges};
pub use instr::{Instr, MemberList, RangeList};
pub use laws::{listings_tell_programs, parts_are_told};
pub use lines::listing;
pub use patterns::patterns_in;
pub use program::Program;
