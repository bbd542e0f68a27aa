//! What the words of a command line ask for: the plan of a run with its filter's program, or the reason to refuse them; how a run ends, and
//! the texts of its faults.
#![tactic(auto)]

mod fault_text;
mod laws;
mod outcome;
mod owned;
mod refused;
mod status;
mod words;

pub use fault_text::{FaultLine, outcome_text, refusal_text, unopened_text};
pub use laws::{
    plans_are_not_refused, plans_let_by_meaning, reasons_are_unique, words_are_planned_or_refused,
};
pub use outcome::Outcome;
pub use refused::{PlanError, Refused};
pub use status::{Status, status_of_refusal};
pub use words::read_plan;
