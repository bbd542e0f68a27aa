ghost use Rattle.std.specs.Prelude.{◌≡◌, ℕ, List, ◌+◌, ◌-◌, ◌<◌, ◌^◌, [], length, vec_len, OnErr, OnOk};
ghost use Rattle.pk_tree.specs.Trees.{LayersFit, layers_of, layer_gets};

use crate::item::{Item, Items};
use pk_base::{NoMemory, Span};
use pk_fields::FieldId;
use std::marker::Model;

/// One protocol's header or message in a frame.
#[derive(Drop)]
pub struct Layer {
    pub proto: FieldId,
    /// Which of the frame's layers of this protocol it is, from 1.
    pub nth: u32,
    pub span: Span,
    pub items: Items,
}

/// A list of layers.
#[derive(Drop)]
pub struct LayerList {
    all: Vec<Layer>,
}

impl Model for LayerList {
    ghost use Rattle.std.specs.Prelude.{List};
    ghost use Rattle.pk_tree.specs.declared.layer.Layer.{Layer};

    ghost Value = { List Layer };

    ghost view = { λ layers. layers.all.items };
}

impl LayerList {
    pub fn from_vec(v: Vec<Layer>) -> LayerList
        ensures { result ≡ v.items }
    {
        LayerList { all: v }
    }

    pub fn slice(&self) -> &[Layer]
        ensures { result.now ≡ self.now }
    {
        self.all.as_slice()
    }
}

/// The number of the next layer of a protocol.
pub(crate) fn next_number(layers: &[Layer], proto: FieldId) -> u32
    requires numbered { (buffers : List (List ℕ)) × LayersFit buffers [] layers.now }
    requires room { length layers.now + 1 < 2 ^ 32 }
    ensures { result ≡ layers_of proto layers.now + 1 }
{
    let mut at = layers.len();
    while at > 0 {
        at -= 1;
        let layer = &layers[at];
        if layer.proto == proto {
            return layer.nth + 1;
        }
    }
    1
}

/// Adds an item to the last layer.
#[inline(always)]
pub(crate) fn push_last(layers: &mut Vec<Layer>, item: Item) -> Result<(), NoMemory>
    requires { 0 < vec_len layers.old }
    ensures ok { OnOk result (layers.new.items
        ≡ layer_gets layers.old.items (length layers.old.items - 1) item) }
    ensures err { OnErr result (layers.new.items ≡ layers.old.items) }
{
    let last = layers.len() - 1;
    push_at(layers, last, item)
}

/// Adds an item to the layer at a place.
#[inline(always)]
pub(crate) fn push_at(layers: &mut Vec<Layer>, at: usize, item: Item) -> Result<(), NoMemory>
    requires { at < vec_len layers.old }
    ensures ok { OnOk result (layers.new.items ≡ layer_gets layers.old.items at item) }
    ensures err { OnErr result (layers.new.items ≡ layers.old.items) }
{
    layers[at].items.push(item)?;
    Ok(())
}
