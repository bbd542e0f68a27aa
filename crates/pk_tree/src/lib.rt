//! The tree of a dissected frame: layers and their items, over the buffers that hold their bytes.
#![tactic(auto)]

mod buffers;
mod builder;
mod following;
mod item;
mod layer;
mod layout;
mod reading;
mod spare;
mod table;
mod tree;

pub use buffers::Buffers;
pub use builder::TreeBuilder;
pub use following::{behind, carried, first_of};
pub use item::{Item, Items, Place};
pub use layer::{Layer, LayerList};
pub use layout::{Reach, Step, peek, read_layer};
pub use spare::Spare;
pub use table::{Slot, pass_known, pass_layer, read_known, read_table};
pub use tree::Tree;
