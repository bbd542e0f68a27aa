//! The machine that filters are run on, and what a program answers of a tree.
#![tactic(auto)]

mod asks;
mod given;
mod joined;
mod laws;
mod machine;
mod run;
mod slots;
mod step;

pub use laws::{
    fitting_programs_have_runs, trees_with_the_same_values_are_alike, verdicts_are_those_of_runs,
};
pub use machine::{Machine, run_program};
pub use run::Verdict;
