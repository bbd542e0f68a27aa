//! Trees as text, for the tables of tests, printed and read: a line for each layer, `name start+length: field=value ..`.
#![tactic(auto)]

mod items;
mod made;

use crate::items::push_item;
pub use crate::items::{Places, value_text};
pub use crate::made::{Unread, read_tree};
use pk_fields::name;
use pk_tree::Layer;
use std::alloc::{AllocError, Global};

/// The layers of a tree, a line each.
pub fn layers_text(alloc: Global, layers: &[Layer], places: Places) -> Result<String, AllocError> {
    let mut text = String::new(alloc);
    for layer in layers {
        push_layer(&mut text, layer, places)?;
    }
    Ok(text)
}

/// Adds a layer's name, its first byte and size, and its items.
fn push_layer(text: &mut String, layer: &Layer, places: Places) -> Result<(), AllocError> {
    let (proto, span) = (name(layer.proto), layer.span);
    write!(text, "{proto} {}+{}:", span.start, span.len)?;
    for item in layer.items.slice() {
        push_item(text, item, places)?;
    }
    text.push_str("\n")
}
