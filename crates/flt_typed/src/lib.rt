//! The values and patterns of display filters, and filters with their types: what can be done with the values of each kind, how single
//! values are compared, sliced, masked and changed by functions, what is a pattern, and whether it matches somewhere in bytes.
#![tactic(auto)]

mod arithmetic;
mod calls;
mod constant;
mod fault;
mod inside;
mod kinds;
mod order;
mod pattern;
mod positions;
mod relation;
mod search;
mod slices;
mod typed;

pub use arithmetic::{Extreme, calculate, extreme_of};
pub use calls::{call, is_nonzero, len_of, lowered, masked, uppered};
pub use constant::Constant;
pub use fault::PatternFault;
pub use inside::contains;
pub use kinds::{
    Class, class_of, is_masked, is_measured, is_number, is_searched, is_sliced, is_truth,
    kind_of_call, kind_of_value, same_class, takes_call,
};
pub use order::{
    holds_in, leading_amount, lies_between, moment_of, octets_of, order_of, related, same_leading,
};
pub use pattern::Pattern;
pub use relation::{Relation, admits_prefix, kind_of_right, takes};
pub use search::Search;
pub use slices::{slice, span_of};
pub use typed::{Member, Term, Typed};
