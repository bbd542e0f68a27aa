//! What filters ask of lists of values: of any or all of them, of pairs, and of a field's values where they stand in a
//! tree; and the lists that slices, masks, functions and arithmetic give. The meaning of filters and the machine stand on it.
#![tactic(auto)]

mod compare;
mod ends;
mod inside;
mod keys;
mod lists;
mod needles;
mod pairs;
mod quantify;
mod question;
mod sources;
mod ties;
mod walks;

pub use compare::compares;
pub use lists::{called_values, masked_values, only, slices};
pub use pairs::calculated_values;
pub use quantify::{is_some_value, matched, passes};
pub use question::{Question, is_so};
pub use sources::{asks_source, is_there_in};
pub use walks::{asks_field, is_there};
