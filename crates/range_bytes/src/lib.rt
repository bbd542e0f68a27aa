//! Bytes by their positions: runs of bytes come in any order, and the byte that came first at a position stays.
#![tactic(auto)]

mod in_order;
mod joined_ranges;
mod late;
mod piece;
mod pieces;
mod ranges;
mod row;
mod waiting;

pub use joined_ranges::JoinedRanges;
pub use ranges::Ranges;
