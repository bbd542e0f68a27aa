//! The meaning of display filters: whether a dissected frame satisfies one.
#![tactic(auto)]

mod evaluate;
mod laws;
mod values;

pub use evaluate::holds;
pub use laws::kept_trees_keep_the_meaning;
