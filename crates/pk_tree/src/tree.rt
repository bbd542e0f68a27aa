ghost use Rattle.std.specs.Prelude.{◌≡◌, ℕ, List, ◌<◌, ◌++◌, length, IfOk, OnErr, OnOk};
ghost use Rattle.std.specs.List.{AllByRecursion as Each};
ghost use Rattle.pk_fields.specs.Fields.{row_of};
ghost use Rattle.pk_tree.specs.Buffers.{IsInside};
ghost use Rattle.pk_tree.specs.declared.layer.Layer.{Layer};
ghost use Rattle.pk_tree.specs.FieldValues.{values_of, layer_values, chosen_values, proto_values, item_values};
ghost use Rattle.pk_tree.specs.Trees.{IsTree, LayerFits, proto_at, with_item_at, made_of};
ghost use Rattle.pk_tree.specs.Values.{IsOfKind, is_proto};

use crate::buffers::Buffers;
use crate::item::{Item, Items, Place};
use crate::layer::{Layer, push_at};
use crate::spare::Spare;
use pk_base::{Layers, NoMemory, Value};
use pk_fields::{FieldId, FieldSet, ValueKind, kind, proto};
use std::alloc::Global;
use std::marker::Model;

/// A dissected frame: its layers, and the buffers that hold their bytes, the frame's own first.
pub struct Tree {
    layers: Vec<Layer>,
    /// Lists for the items of layers to come.
    lists: Vec<Items>,
    buffers: Buffers,
    /// The fields whose items were kept.
    wanted: FieldSet,
    alloc: Global,
}

impl Drop for Tree {
    fn drop(self) {
        let Tree {
            layers: _layers,
            lists: _lists,
            buffers: _buffers,
            wanted: _,
            alloc: _,
        } = self;
    }
}

impl Model for Tree {
    ghost use Rattle.pk_tree.specs.Trees.{TreeShown, IsTree};

    ghost Value = { TreeShown };

    ghost view = { λ t. record {
      layers = t.layers.items;
      buffers = t.buffers;
      wanted = t.wanted;
    } };

    ghost invariant = { λ t.
        IsTree (record { layers = t.layers.items; buffers = t.buffers; wanted = t.wanted }) };
}

impl Tree {
    pub(crate) fn from_parts(
        layers: Vec<Layer>,
        lists: Vec<Items>,
        buffers: Buffers,
        wanted: FieldSet,
        alloc: Global,
    ) -> Tree
        requires { IsTree (record { layers = layers.items; buffers = buffers; wanted = wanted }) }
        ensures { result ≡ record { layers = layers.items; buffers = buffers; wanted = wanted } }
    {
        Tree {
            layers,
            lists,
            buffers,
            wanted,
            alloc,
        }
    }

    /// Gives its memory back.
    pub fn into_spare(self) -> Spare {
        let Tree {
            layers,
            lists,
            buffers,
            wanted: _,
            alloc,
        } = self;
        let mut spare = Spare {
            layers,
            lists,
            buffers,
            alloc,
        };
        spare.empty();
        spare
    }

    pub fn layers(&self) -> &[Layer]
        ensures layers { result.now ≡ self.now.layers }
        ensures fits { IsTree self.now }
    {
        self.layers.as_slice()
    }

    pub fn buffers(&self) -> &Buffers
        ensures buffers { result.now ≡ self.now.buffers }
        ensures fits { IsTree self.now }
    {
        &self.buffers
    }

    /// The values of a field in the chosen layers, in the tree's order. A protocol has one value in each of its
    /// layers, the layer's bytes.
    #[tactic(auto, unfolding(crate::specs::FieldValues::values_of))]
    pub fn values(&self, field: FieldId, layers: &Layers) -> Result<Vec<Value>, NoMemory>
        ensures values { IfOk result (λ values.
            values.items ≡ values_of self.now field layers.now) }
        ensures kind { IfOk result (λ values. Each (IsOfKind (row_of field).kind) values.items) }
    {
        let mut values = Vec::new(self.alloc);
        for layer in &self.layers {
            push_chosen(&mut values, &self.buffers, field, layers, layer)?;
        }
        Ok(values)
    }

    /// Adds an item whose value has no place behind those of a layer.
    pub fn add_made(&mut self, layer: usize, field: FieldId, value: Value) -> Result<(), NoMemory>
        requires layer { layer < length self.old.layers }
        requires belongs { (row_of field).proto ≡ proto_at self.old.layers layer }
        requires kind { IsOfKind (row_of field).kind value }
        ensures ok { OnOk result (self.new ≡ with_item_at self.old layer (made_of field value)) }
        ensures err { OnErr result (self.new ≡ self.old) }
        ensures buffers { self.new.buffers ≡ self.old.buffers }
        ensures count { length self.new.layers ≡ length self.old.layers }
        ensures protos { (at : ℕ) → proto_at self.new.layers at ≡ proto_at self.old.layers at }
    {
        let item = Item {
            field,
            value,
            place: Place::Made,
        };
        push_at(&mut self.layers, layer, item)?;
        Ok(())
    }
}

/// Adds a layer's values of a field, if the layer is chosen.
fn push_chosen(
    values: &mut Vec<Value>,
    buffers: &Buffers,
    field: FieldId,
    layers: &Layers,
    layer: &Layer,
) -> Result<(), NoMemory>
    requires { (before : List Layer) × LayerFits buffers.now before layer.now }
    ensures { OnOk result (values.new.items
        ≡ values.old.items ++ chosen_values buffers.now field layers.now layer.now) }
{
    if layers.contains(layer.nth) {
        push_values(values, buffers, field, layer)
    } else {
        Ok(())
    }
}

/// Adds a layer's values of a field.
#[tactic(auto, unfolding(crate::specs::FieldValues::layer_values))]
fn push_values(
    values: &mut Vec<Value>,
    buffers: &Buffers,
    field: FieldId,
    layer: &Layer,
) -> Result<(), NoMemory>
    requires { (before : List Layer) × LayerFits buffers.now before layer.now }
    ensures { OnOk result (values.new.items
        ≡ values.old.items ++ layer_values buffers.now field layer.now) }
{
    if is_protocol(field) {
        return push_layer(values, buffers, field, layer);
    }
    if proto(field) == layer.proto {
        return push_items(values, field, layer.items.slice());
    }
    Ok(())
}

fn is_protocol(field: FieldId) -> bool
    ensures { result ≡ is_proto (row_of field).kind }
{
    matches!(kind(field), ValueKind::Proto)
}

fn push_layer(
    values: &mut Vec<Value>,
    buffers: &Buffers,
    proto: FieldId,
    layer: &Layer,
) -> Result<(), NoMemory>
    requires { IsInside buffers.now layer.now.span }
    ensures { OnOk result (values.new.items
        ≡ values.old.items ++ proto_values buffers.now proto layer.now) }
{
    if layer.proto == proto {
        values.push(Value::Proto(buffers.part(layer.span)?))?;
    }
    Ok(())
}

fn push_items(values: &mut Vec<Value>, field: FieldId, items: &[Item]) -> Result<(), NoMemory>
    ensures { OnOk result (values.new.items ≡ values.old.items ++ item_values field items.now) }
{
    for item in items {
        if item.field == field {
            values.push(item.value.clone()?)?;
        }
    }
    Ok(())
}
