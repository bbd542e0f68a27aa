// Questions asked of a field's values where they stand in a tree.
ghost use Rattle.std.specs.Prelude.{◌≡◌, false, true, IfOk};
ghost use Rattle.flt_lists.specs.Passes.{is_some_value, passes};
ghost use Rattle.flt_lists.specs.Questions.{is_so};
ghost use Rattle.flt_lists.specs.Walks.{all_in_layer, all_in_layers, all_items, any_in_layer, any_in_layers, any_item, is_asked};
ghost use Rattle.pk_fields.specs.Fields.{row_of};
ghost use Rattle.pk_tree.specs.FieldValues.{values_of};
ghost use Rattle.pk_tree.specs.Values.{is_proto};
ghost use Rattle.std.specs.List.{list_any, list_all};

use crate::quantify::passes;
use crate::question::{Question, is_so};
use flt_syntax::Choice;
use pk_base::{Layers, NoMemory};
use pk_fields::{FieldId, ValueKind, kind, proto};
use pk_tree::{Item, Layer, Tree};

/// Whether a tree has a value of a field or protocol in the chosen layers.
pub fn is_there(field: FieldId, layers: &Layers, tree: &Tree) -> bool
    ensures { result ≡ is_some_value (values_of tree.now field layers.now) }
{
    if is_protocol(field) {
        has_layer(field, layers, tree)
    } else {
        has_item(field, layers, tree)
    }
}

fn has_layer(proto: FieldId, layers: &Layers, tree: &Tree) -> bool
    requires { is_proto (row_of proto).kind ≡ true }
    ensures { result ≡ is_some_value (values_of tree.now proto layers.now) }
{
    any_is_asked(proto, layers, tree.layers())
}

fn has_item(field: FieldId, layers: &Layers, tree: &Tree) -> bool
    requires { is_proto (row_of field).kind ≡ false }
    ensures { result ≡ is_some_value (values_of tree.now field layers.now) }
{
    let question = Question::IsThere;
    any_in_layers(&question, field, proto(field), layers, tree.layers())
}

/// Whether any or all values of a field or protocol in the chosen layers answer a question. No value is copied but the
/// bytes of a protocol.
pub fn asks_field(
    choice: Choice,
    question: &Question<'_>,
    field: FieldId,
    layers: &Layers,
    tree: &Tree,
) -> Result<bool, NoMemory>
    ensures { IfOk result (λ truth.
        truth ≡ passes choice (λ v. is_so question.now v) (values_of tree.now field layers.now)) }
{
    if is_protocol(field) {
        let values = tree.values(field, layers)?;
        return Ok(passes(choice, question, &values));
    }
    Ok(items_pass(choice, question, field, layers, tree))
}

/// Whether any or all values of a field answer a question.
fn items_pass(
    choice: Choice,
    question: &Question<'_>,
    field: FieldId,
    layers: &Layers,
    tree: &Tree,
) -> bool
    requires { is_proto (row_of field).kind ≡ false }
    ensures { result ≡ passes choice (λ v.
        is_so question.now v) (values_of tree.now field layers.now) }
{
    match choice {
        Choice::Any => any_passes(question, field, layers, tree),
        Choice::All => has_item(field, layers, tree) && all_pass(question, field, layers, tree),
    }
}

#[tactic(auto, using(crate::proofs::WalkLemmas::any_walked))]
fn any_passes(question: &Question<'_>, field: FieldId, layers: &Layers, tree: &Tree) -> bool
    requires { is_proto (row_of field).kind ≡ false }
    ensures { result ≡ list_any (λ v. is_so question.now v) (values_of tree.now field layers.now) }
{
    any_in_layers(question, field, proto(field), layers, tree.layers())
}

#[tactic(auto, using(crate::proofs::WalkLemmas::all_walked))]
fn all_pass(question: &Question<'_>, field: FieldId, layers: &Layers, tree: &Tree) -> bool
    requires { is_proto (row_of field).kind ≡ false }
    ensures { result ≡ list_all (λ v. is_so question.now v) (values_of tree.now field layers.now) }
{
    all_in_layers(question, field, proto(field), layers, tree.layers())
}

fn is_protocol(field: FieldId) -> bool
    ensures { result ≡ is_proto (row_of field).kind }
{
    matches!(kind(field), ValueKind::Proto)
}

fn any_is_asked(proto: FieldId, layers: &Layers, all: &[Layer]) -> bool
    ensures { result ≡ list_any (λ layer. is_asked proto layers.now layer) all.now }
{
    for layer in all {
        if is_asked(proto, layers, layer) {
            return true;
        }
    }
    false
}

fn any_in_layers(
    question: &Question<'_>,
    field: FieldId,
    proto: FieldId,
    layers: &Layers,
    all: &[Layer],
) -> bool
    ensures { result ≡ any_in_layers (λ v. is_so question.now v) field proto layers.now all.now }
{
    for layer in all {
        if any_in_layer(question, field, proto, layers, layer) {
            return true;
        }
    }
    false
}

fn all_in_layers(
    question: &Question<'_>,
    field: FieldId,
    proto: FieldId,
    layers: &Layers,
    all: &[Layer],
) -> bool
    ensures { result ≡ all_in_layers (λ v. is_so question.now v) field proto layers.now all.now }
{
    for layer in all {
        if !all_in_layer(question, field, proto, layers, layer) {
            return false;
        }
    }
    true
}

fn any_in_layer(
    question: &Question<'_>,
    field: FieldId,
    proto: FieldId,
    layers: &Layers,
    layer: &Layer,
) -> bool
    ensures { result ≡ any_in_layer (λ v. is_so question.now v) field proto layers.now layer.now }
{
    is_asked(proto, layers, layer) && any_item(question, field, layer.items.slice())
}

fn all_in_layer(
    question: &Question<'_>,
    field: FieldId,
    proto: FieldId,
    layers: &Layers,
    layer: &Layer,
) -> bool
    ensures { result ≡ all_in_layer (λ v. is_so question.now v) field proto layers.now layer.now }
{
    !is_asked(proto, layers, layer) || all_items(question, field, layer.items.slice())
}

fn any_item(question: &Question<'_>, field: FieldId, items: &[Item]) -> bool
    ensures { result ≡ any_item (λ v. is_so question.now v) field items.now }
{
    for item in items {
        if item.field == field && is_so(question, &item.value) {
            return true;
        }
    }
    false
}

fn all_items(question: &Question<'_>, field: FieldId, items: &[Item]) -> bool
    ensures { result ≡ all_items (λ v. is_so question.now v) field items.now }
{
    for item in items {
        if item.field == field && !is_so(question, &item.value) {
            return false;
        }
    }
    true
}

/// Whether a layer is one of the protocol's that are chosen.
fn is_asked(proto: FieldId, layers: &Layers, layer: &Layer) -> bool
    ensures { result ≡ is_asked proto layers.now layer.now }
{
    layer.proto == proto && layers.contains(layer.nth)
}
