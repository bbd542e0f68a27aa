// Questions to a tree.
ghost use Rattle.std.specs.Prelude.{◌≡◌, ◌<◌, ℕ, List, length, slice_get, IfOk};
ghost use Rattle.std.specs.List.{flat_map};
ghost use Rattle.pk_source.specs.Found.{is_there};
ghost use Rattle.pk_tree.specs.FieldValues.{chosen_values, item_values, layer_values, values_of};
ghost use Rattle.pk_tree.specs.Trees.{proto_at};

use crate::found::is_protocol;
use pk_base::{Layers, NoMemory, Value};
use pk_fields::FieldId;
use pk_tree::{Item, Layer, Tree};

/// Whether a tree has a value of a field or protocol in the chosen layers.
#[tactic(auto, unfolding(pk_tree::specs::FieldValues::values_of))]
pub(crate) fn tree_has(tree: &Tree, field: FieldId, layers: &Layers) -> bool
    ensures { result ≡ is_there (values_of tree.now field layers.now) }
{
    any_has(tree.layers(), field, layers)
}

fn any_has(all: &[Layer], field: FieldId, layers: &Layers) -> bool
    ensures { (buffers : List (List ℕ)) → result
        ≡ is_there (flat_map (λ layer. chosen_values buffers field layers.now layer) all.now) }
{
    for layer in all {
        if chosen_has(layer, field, layers) {
            return true;
        }
    }
    false
}

fn chosen_has(layer: &Layer, field: FieldId, layers: &Layers) -> bool
    ensures { (buffers : List (List ℕ))
        → result ≡ is_there (chosen_values buffers field layers.now layer.now) }
{
    layers.contains(layer.nth) && layer_has(layer, field)
}

#[tactic(auto, unfolding(pk_tree::specs::FieldValues::layer_values))]
fn layer_has(layer: &Layer, field: FieldId) -> bool
    ensures { (buffers : List (List ℕ)) → result ≡ is_there (layer_values buffers field layer.now) }
{
    if is_protocol(field) {
        layer.proto == field
    } else {
        items_have(layer.items.slice(), field)
    }
}

fn items_have(items: &[Item], field: FieldId) -> bool
    ensures { result ≡ is_there (item_values field items.now) }
{
    for item in items {
        if item.field == field {
            return true;
        }
    }
    false
}

/// The value of a number, from 0, among those of a field in the chosen layers.
pub(crate) fn tree_value(
    tree: &Tree,
    field: FieldId,
    layers: &Layers,
    k: usize,
) -> Result<Option<Value>, NoMemory>
    ensures { IfOk result (λ value. value ≡ slice_get (values_of tree.now field layers.now) k) }
{
    let values = tree.values(field, layers)?;
    copied(&values, k)
}

/// The protocol of the layer at a place.
pub(crate) fn tree_protocol(tree: &Tree, place: usize) -> FieldId
    requires { place < length tree.now.layers }
    ensures { result ≡ proto_at tree.now.layers place }
{
    tree.layers()[place].proto
}

fn copied(values: &[Value], k: usize) -> Result<Option<Value>, NoMemory>
    ensures { IfOk result (λ value. value ≡ slice_get values.now k) }
{
    match values.get(k) {
        Some(value) => Ok(Some(value.clone()?)),
        None => Ok(None),
    }
}
