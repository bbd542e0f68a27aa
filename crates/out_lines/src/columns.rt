// The columns of a line, which one walk over the layers of a tree fills.
ghost use Rattle.std.specs.Prelude.{◌≡◌, ◌<◌, ℕ, List, Option, [], ◌∷◌, length, IsSome, OnOk};
ghost use Rattle.std.specs.List.{flat_map};
ghost use Rattle.pk_fields.specs.Fields.{row_of};
ghost use Rattle.pk_tree.specs.FieldValues.{layer_values};
ghost use Rattle.pk_tree.specs.Trees.{LayersFit};
ghost use Rattle.pk_tree.specs.Values.{IsProtocol, is_proto};
ghost use Rattle.out_lines.specs.Columns.{no_column, column_at};
ghost use Rattle.out_lines.specs.Places.{ArePlaces, ArePlanned, HasAdded, place_in, name_values, own_values};

use crate::column::Column;
use crate::style::Style;
use pk_base::NoMemory;
use pk_fields::{FieldId, ValueKind, kind, name};
use pk_tree::{Item, Layer};
use std::alloc::Global;

/// The place of a field's column, where it has one.
pub(crate) fn place_of(places: &[Option<usize>], field: FieldId) -> Option<usize>
    ensures { result ≡ place_in places.now field }
{
    match places.get(usize::from(field.0)) {
        Some(place) => *place,
        None => None,
    }
}

/// Makes a column for each of some fields, but one for a field that comes again.
pub(crate) fn plan_columns(
    alloc: Global,
    fields: &[FieldId],
    columns: &mut Vec<Column>,
    places: &mut Vec<Option<usize>>,
) -> Result<(), NoMemory>
    requires columns { columns.old.items ≡ [] }
    requires places { places.old.items ≡ [] }
    ensures { OnOk result (ArePlanned fields.now (length columns.new.items) places.new.items) }
{
    for field in fields {
        add_column(alloc, *field, columns, places)?;
    }
    Ok(())
}

/// Makes a field's column, unless it has one.
fn add_column(
    alloc: Global,
    field: FieldId,
    columns: &mut Vec<Column>,
    places: &mut Vec<Option<usize>>,
) -> Result<(), NoMemory>
    requires { ArePlaces (length columns.old.items) places.old.items }
    ensures places { OnOk result (ArePlaces (length columns.new.items) places.new.items) }
    ensures there { OnOk result (IsSome (place_in places.new.items field)) }
    ensures kept { OnOk result ((f : ℕ) → IsSome (place_in places.old.items f)
        → IsSome (place_in places.new.items f)) }
{
    if place_of(places, field).is_some() {
        return Ok(());
    }
    let number = usize::from(field.0);
    make_room(places, number)?;
    places[number] = Some(columns.len());
    columns.push(Column::new(alloc))?;
    Ok(())
}

/// Makes room for the place of one more number, which has none.
fn make_room(places: &mut Vec<Option<usize>>, number: usize) -> Result<(), NoMemory>
    ensures room { OnOk result (number < length places.new.items) }
    ensures same { OnOk result ((f : ℕ)
        → place_in places.new.items f ≡ place_in places.old.items f) }
{
    while places.len() <= number {
        places.push(None)?;
    }
    Ok(())
}

/// Makes all columns empty.
pub(crate) fn clear_columns(columns: &mut [Column])
    ensures empty { (place : Option ℕ) → column_at columns.new place ≡ no_column }
    ensures count { length columns.new ≡ length columns.old }
{
    for column in columns.iter_mut() {
        column.clear();
    }
}

/// Adds the values of layers, each to the column of its field.
pub(crate) fn add_layers(
    columns: &mut [Column],
    places: &[Option<usize>],
    style: &Style,
    layers: &[Layer],
) -> Result<(), NoMemory>
    requires places { ArePlaces (length columns.old) places.now }
    requires fit { (buffers : List (List ℕ)) × LayersFit buffers [] layers.now }
    ensures added { OnOk result ((buffers : List (List ℕ))
        → HasAdded style.now places.now columns.old columns.new (λ f.
        flat_map (layer_values buffers f) layers.now)) }
    ensures count { length columns.new ≡ length columns.old }
{
    for layer in layers {
        add_layer(columns, places, style, layer)?;
    }
    Ok(())
}

/// Adds what a layer has: one value of its protocol, and its items.
fn add_layer(
    columns: &mut [Column],
    places: &[Option<usize>],
    style: &Style,
    layer: &Layer,
) -> Result<(), NoMemory>
    requires places { ArePlaces (length columns.old) places.now }
    requires proto { IsProtocol layer.now.proto }
    ensures added { OnOk result ((buffers : List (List ℕ))
        → HasAdded style.now places.now columns.old columns.new (λ f.
        layer_values buffers f layer.now)) }
    ensures count { length columns.new ≡ length columns.old }
{
    add_name(columns, places, style, layer.proto)?;
    add_items(columns, places, style, layer.items.slice())
}

/// Adds the value of a protocol, which is shown as its name.
fn add_name(
    columns: &mut [Column],
    places: &[Option<usize>],
    style: &Style,
    protocol: FieldId,
) -> Result<(), NoMemory>
    requires places { ArePlaces (length columns.old) places.now }
    requires proto { IsProtocol protocol }
    ensures added { OnOk result ((bytes : List ℕ)
        → HasAdded style.now places.now columns.old columns.new (name_values protocol bytes)) }
    ensures count { length columns.new ≡ length columns.old }
{
    if let Some(place) = place_of(places, protocol) {
        columns[place].add_text(style, name(protocol))?;
    }
    Ok(())
}

fn add_items(
    columns: &mut [Column],
    places: &[Option<usize>],
    style: &Style,
    items: &[Item],
) -> Result<(), NoMemory>
    requires places { ArePlaces (length columns.old) places.now }
    ensures added { OnOk result
        (HasAdded style.now places.now columns.old columns.new (λ f. own_values f items.now)) }
    ensures count { length columns.new ≡ length columns.old }
{
    for item in items {
        add_item(columns, places, style, item)?;
    }
    Ok(())
}

/// Adds the value of an item, unless its field is a protocol.
fn add_item(
    columns: &mut [Column],
    places: &[Option<usize>],
    style: &Style,
    item: &Item,
) -> Result<(), NoMemory>
    requires places { ArePlaces (length columns.old) places.now }
    ensures added { OnOk result
        (HasAdded style.now places.now columns.old columns.new (λ f.
        own_values f (item.now ∷ []))) }
    ensures count { length columns.new ≡ length columns.old }
{
    let Some(place) = place_of(places, item.field) else {
        return Ok(());
    };
    if is_protocol(item.field) {
        return Ok(());
    }
    columns[place].add_value(style, item.field, &item.value)
}

fn is_protocol(field: FieldId) -> bool
    ensures { result ≡ is_proto (row_of field).kind }
{
    matches!(kind(field), ValueKind::Proto)
}
