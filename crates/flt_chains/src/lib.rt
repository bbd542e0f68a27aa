//! What signs and commas join in filters, which is as deep to the left as it is long: one way down there, for syntax trees and typed filters, operands and
//! terms.
#![tactic(auto)]

mod chain;
mod parts;

pub use chain::{Chain, Chained, chain_of};
