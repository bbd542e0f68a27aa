// The memory of trees, used again.
ghost use Rattle.std.specs.Prelude.{◌≡◌, ◌^◌, ◌<◌, [], ◌∷◌, length, OnOk};
ghost use Rattle.pk_tree.specs.Trees.{IsTree};

use crate::buffers::Buffers;
use crate::builder::TreeBuilder;
use crate::item::Items;
use crate::layer::Layer;
use pk_base::{NoMemory, Octets};
use pk_fields::FieldSet;
use std::alloc::Global;

/// How many layers a tree has room for from the start. Most frames have fewer.
const FEW_LAYERS: usize = 8;

/// Of longer lists of layers, lists of items and buffers no memory is kept.
const MOST_KEPT: usize = 256;

/// How many lists of items are kept.
const MOST_LISTS: usize = 16;

/// The memory of a tree that was given back, in which the next is built.
pub struct Spare {
    pub(crate) layers: Vec<Layer>,
    /// Lists for the items of layers.
    pub(crate) lists: Vec<Items>,
    pub(crate) buffers: Buffers,
    pub(crate) alloc: Global,
}

impl Drop for Spare {
    fn drop(self) {
        let Spare {
            layers: _layers,
            lists: _lists,
            buffers: _buffers,
            alloc: _,
        } = self;
    }
}

impl Spare {
    /// None yet.
    pub fn new(alloc: Global) -> Spare {
        Spare {
            layers: Vec::new(alloc),
            lists: Vec::new(alloc),
            buffers: Buffers::new(alloc),
            alloc,
        }
    }

    /// Begins a tree whose first buffer is the frame's bytes.
    pub(crate) fn begin(&mut self, frame: Octets) -> Result<(), NoMemory>
        requires { length frame < 2 ^ 32 }
        ensures layers { OnOk result (self.new.layers.items ≡ []) }
        ensures buffers { OnOk result (self.new.buffers ≡ frame ∷ []) }
    {
        self.layers.clear();
        self.buffers.clear();
        self.layers.reserve(FEW_LAYERS)?;
        self.buffers.add(frame)?;
        Ok(())
    }

    /// The tree that was begun.
    pub(crate) fn into_builder(self, wanted: FieldSet) -> TreeBuilder
        requires { IsTree (record { layers = self.layers.items; buffers = self.buffers; wanted = wanted }) }
        ensures { result ≡ record { layers = self.layers.items; buffers = self.buffers; wanted = wanted } }
    {
        let Spare {
            layers,
            lists,
            buffers,
            alloc,
        } = self;
        TreeBuilder::from_parts(layers, lists, buffers, wanted, alloc)
    }

    /// Lets go of what stands in the memory, and of memory that few trees need.
    pub(crate) fn empty(&mut self) {
        while let Some(layer) = self.layers.pop() {
            keep_list(&mut self.lists, layer.items);
        }
        if self.layers.capacity() > MOST_KEPT {
            self.layers = Vec::new(self.alloc);
        }
        if self.buffers.room() > MOST_KEPT {
            self.buffers = Buffers::new(self.alloc);
        }
        self.buffers.clear();
    }
}

/// Keeps a list's memory, where it isn't much and few are kept.
fn keep_list(lists: &mut Vec<Items>, list: Items) {
    let mut list = list;
    list.clear();
    if list.room() <= MOST_KEPT && lists.len() < MOST_LISTS {
        // Where there is no memory to keep it, it is let go.
        match lists.push(list) {
            Ok(()) | Err(_) => {}
        }
    }
}
