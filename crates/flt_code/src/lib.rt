//! Compiles filters to programs of the filter machine.
#![tactic(auto)]

mod code;
mod compiler;
mod emits;
mod laws;
mod load;
mod owners;

pub use compiler::compile;
pub use laws::filters_have_programs;
