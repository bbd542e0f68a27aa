// What tests ask of registers.
ghost use Rattle.std.specs.Prelude.{◌≡◌, [], ◌∷◌, None, Some, IfOk, Bool as Truth, false};
ghost use Rattle.flt_lists.specs.Passes.{compares, passes};
ghost use Rattle.flt_lists.specs.Questions.{is_matched, is_so};
ghost use Rattle.flt_vm.specs.Held.{Held, one_truth};
ghost use Rattle.flt_vm.specs.Slots.{held_in, is_unset, truth_in};

use crate::slots::{Slot, listed_in};
use flt_lists::{Question, asks_source, compares, matched, passes};
use flt_syntax::Choice;
use flt_typed::{Constant, Relation, Search};
use pk_base::{NoMemory, Value};
use pk_source::Source;
use std::alloc::Global;

/// Whether any or all of a slot's values answer a question. A field is asked where its values stand.
pub(crate) fn asks(
    alloc: Global,
    choice: Choice,
    question: &Question<'_>,
    slot: &Slot<'_>,
    source: &Source<'_>,
) -> Result<bool, NoMemory>
    requires { is_unset slot.now ≡ false }
    ensures { IfOk result (λ truth. (held : Held) → held_in source.now slot.now ≡ Some held
        → truth ≡ passes choice (λ v. is_so question.now v) held.values) }
{
    match slot {
        Slot::Field(field, layers) => asks_source(choice, question, *field, layers, source),
        slot => asks_list(alloc, choice, question, slot, source),
    }
}

/// The same of the values as a list.
fn asks_list(
    alloc: Global,
    choice: Choice,
    question: &Question<'_>,
    slot: &Slot<'_>,
    source: &Source<'_>,
) -> Result<bool, NoMemory>
    requires { is_unset slot.now ≡ false }
    ensures { IfOk result (λ truth. (held : Held) → held_in source.now slot.now ≡ Some held
        → truth ≡ passes choice (λ v. is_so question.now v) held.values) }
{
    match listed_in(alloc, slot, source) {
        Ok(values) => Ok(passes(choice, question, values.slice())),
        Err(NoMemory) => Err(NoMemory),
    }
}

/// Whether any or all pairs of two slots' values stand in a relation. Where the right one is a single value, no list is
/// made.
pub(crate) fn compare(
    alloc: Global,
    relation: Relation,
    choice: Choice,
    left: &Slot<'_>,
    right: &Slot<'_>,
    source: &Source<'_>,
) -> Result<bool, NoMemory>
    requires left { is_unset left.now ≡ false }
    requires right { is_unset right.now ≡ false }
    ensures { IfOk result (λ truth. (a b : Held) → held_in source.now left.now ≡ Some a
        → held_in source.now right.now ≡ Some b
        → truth ≡ compares relation choice a.values b.values b.prefix) }
{
    match right {
        Slot::Single(constant) => compare_constant(alloc, relation, choice, left, constant, source),
        right => compare_lists(alloc, relation, choice, left, right, source),
    }
}

/// The same of a right slot that is no single constant.
fn compare_lists(
    alloc: Global,
    relation: Relation,
    choice: Choice,
    left: &Slot<'_>,
    right: &Slot<'_>,
    source: &Source<'_>,
) -> Result<bool, NoMemory>
    requires left { is_unset left.now ≡ false }
    requires right { is_unset right.now ≡ false }
    ensures { IfOk result (λ truth. (a b : Held) → held_in source.now left.now ≡ Some a
        → held_in source.now right.now ≡ Some b → b.prefix ≡ None
        → truth ≡ compares relation choice a.values b.values b.prefix) }
{
    match listed_in(alloc, right, source) {
        Ok(right) => compare_list(alloc, relation, choice, left, right.slice(), source),
        Err(NoMemory) => Err(NoMemory),
    }
}

/// The same of a slot and a list.
fn compare_list(
    alloc: Global,
    relation: Relation,
    choice: Choice,
    left: &Slot<'_>,
    right: &[Value],
    source: &Source<'_>,
) -> Result<bool, NoMemory>
    requires { is_unset left.now ≡ false }
    ensures { IfOk result (λ truth. (held : Held) → held_in source.now left.now ≡ Some held
        → truth ≡ compares relation choice held.values right.now None) }
{
    match listed_in(alloc, left, source) {
        Ok(left) => compares(alloc, relation, choice, left.slice(), right, None),
        Err(NoMemory) => Err(NoMemory),
    }
}

/// Whether any or all of a slot's values stand in a relation to a constant.
pub(crate) fn compare_constant(
    alloc: Global,
    relation: Relation,
    choice: Choice,
    left: &Slot<'_>,
    constant: &Constant,
    source: &Source<'_>,
) -> Result<bool, NoMemory>
    requires { is_unset left.now ≡ false }
    ensures { IfOk result (λ truth. (held : Held) → held_in source.now left.now ≡ Some held
        → truth ≡ compares relation choice held.values (constant.now.value ∷ []) constant.now.prefix) }
{
    let question = Question::IsRelated(relation, &constant.value, constant.prefix);
    asks(alloc, choice, &question, left, source)
}

/// Whether a pattern matches in any or all of a slot's values.
pub(crate) fn finds(
    alloc: Global,
    choice: Choice,
    search: &mut Search<'_>,
    slot: &Slot<'_>,
    source: &Source<'_>,
) -> Result<bool, NoMemory>
    requires { is_unset slot.now ≡ false }
    ensures found { IfOk result (λ truth. (held : Held) → held_in source.now slot.now ≡ Some held
        → truth ≡ passes choice (λ v. is_matched search.old v) held.values) }
    ensures same { search.new ≡ search.old }
{
    match listed_in(alloc, slot, source) {
        Ok(values) => Ok(matched(choice, search, values.slice())),
        Err(NoMemory) => Err(NoMemory),
    }
}

/// The one truth that a slot keeps.
pub(crate) fn kept(alloc: Global, slot: &Slot<'_>, source: &Source<'_>) -> Result<bool, NoMemory>
    requires { (truth : Truth) × (truth_in source.now slot.now ≡ Some truth) }
    ensures { IfOk result (λ answer. truth_in source.now slot.now ≡ Some answer) }
{
    match slot {
        Slot::Truth(truth) => Ok(*truth),
        slot => match listed_truth(alloc, slot, source)? {
            Some(truth) => Ok(truth),
            None => unreachable!(),
        },
    }
}

/// The one truth that a slot keeps, if it keeps one.
pub(crate) fn listed_truth(
    alloc: Global,
    slot: &Slot<'_>,
    source: &Source<'_>,
) -> Result<Option<bool>, NoMemory>
    requires { is_unset slot.now ≡ false }
    ensures { IfOk result (λ truth. truth ≡ truth_in source.now slot.now) }
{
    match listed_in(alloc, slot, source) {
        Ok(values) => Ok(truth_of(values.slice())),
        Err(NoMemory) => Err(NoMemory),
    }
}

/// The one truth of a list.
fn truth_of(values: &[Value]) -> Option<bool>
    ensures { result ≡ one_truth values.now }
{
    match values {
        [Value::Bool(truth)] => Some(*truth),
        _ => None,
    }
}
