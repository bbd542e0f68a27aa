//! What the programs tell of a fault, and the texts that they keep.
#![tactic(auto)]

mod closing;
mod fault_text;
mod text;

pub use closing::{NO_MEMORY, WRITE_FAULT, end_run};
pub use fault_text::{
    cannot_open_text, cannot_write_text, read_fault_text, reason_text, tell, too_large_text,
    word_fault_text, word_reason_text,
};
pub use text::Text;
