// Whether any or all pairs of two lists of values stand in a relation.
ghost use Rattle.std.specs.Prelude.{◌≡◌, ◌<◌, true, length, IfOk};
ghost use Rattle.std.specs.List.{list_any, list_all};
ghost use Rattle.flt_lists.specs.Keys.{are_of_class, are_of_one_class, key_cmp, keys_of, pairs_hold};
ghost use Rattle.flt_lists.specs.Passes.{compares, passes};
ghost use Rattle.flt_syntax.specs.declared.ast.Choice.TheVariants.{All};
ghost use Rattle.flt_typed.specs.Kinds.{kind_of_value, same_class};
ghost use Rattle.flt_typed.specs.Relations.{related as are_related};
ghost use Rattle.flt_typed.specs.declared.relation.Relation.TheVariants.{Equal, Unequal};

use crate::ends::ends_hold;
use crate::inside::have_inside;
use crate::quantify::is_some_value;
use crate::ties::{all_tie, any_ties};
use flt_syntax::Choice;
use flt_typed::{Relation, kind_of_value, related, same_class};
use pk_base::{NoMemory, Value};
use pk_fields::ValueKind;
use std::alloc::Global;

/// With so few values on one side, each pair is looked at.
const FEW: usize = 8;

/// Whether any or all pairs of a left and a right value stand in a relation. The right ones may have a prefix length.
/// Memory is taken only where many values of one class are asked for an equal one among many.
pub fn compares(
    alloc: Global,
    relation: Relation,
    choice: Choice,
    left: &[Value],
    right: &[Value],
    prefix: Option<u8>,
) -> Result<bool, NoMemory>
    ensures { IfOk result (λ truth. truth ≡ compares relation choice left.now right.now prefix) }
{
    if left.len() <= FEW || right.len() <= FEW || !are_of_one_class(left, right) {
        return Ok(pairs_relate(relation, choice, left, right, prefix));
    }
    many_relate(alloc, relation, choice, left, right, prefix)
}

/// The same of values of one class, by their keys.
#[tactic(auto, using(crate::proofs::ClassLemmas::by_keys))]
fn many_relate(
    alloc: Global,
    relation: Relation,
    choice: Choice,
    left: &[Value],
    right: &[Value],
    prefix: Option<u8>,
) -> Result<bool, NoMemory>
    requires some_left { 0 < length left.now }
    requires some_right { 0 < length right.now }
    requires class { are_of_one_class left.now right.now ≡ true }
    ensures { IfOk result (λ truth. truth ≡ compares relation choice left.now right.now prefix) }
{
    match relation {
        Relation::Equal => equal(alloc, choice, left, right, prefix),
        Relation::Unequal => unequal(alloc, choice, left, right, prefix),
        Relation::Contains => have_inside(alloc, choice, left, right, prefix),
        _ => Ok(ends_hold(relation, choice, left, right, prefix)),
    }
}

fn equal(
    alloc: Global,
    choice: Choice,
    left: &[Value],
    right: &[Value],
    prefix: Option<u8>,
) -> Result<bool, NoMemory>
    requires some_left { 0 < length left.now }
    requires some_right { 0 < length right.now }
    ensures { IfOk result (λ truth.
        truth ≡ pairs_hold key_cmp Equal choice (keys_of prefix left.now) (keys_of prefix right.now)) }
{
    match choice {
        Choice::Any => any_ties(alloc, left, right, prefix),
        Choice::All => Ok(all_tie(left, right, prefix)),
    }
}

#[tactic(auto, using(crate::proofs::KeyLemmas::any_differs, crate::proofs::KeyLemmas::all_differ))]
fn unequal(
    alloc: Global,
    choice: Choice,
    left: &[Value],
    right: &[Value],
    prefix: Option<u8>,
) -> Result<bool, NoMemory>
    requires some_left { 0 < length left.now }
    requires some_right { 0 < length right.now }
    ensures { IfOk result (λ truth.
        truth ≡ pairs_hold key_cmp Unequal choice (keys_of prefix left.now) (keys_of prefix right.now)) }
{
    match choice {
        Choice::Any => Ok(!all_tie(left, right, prefix)),
        Choice::All => {
            let any = any_ties(alloc, left, right, prefix)?;
            Ok(!any)
        }
    }
}

/// Whether the values of both lists are of one class.
fn are_of_one_class(left: &[Value], right: &[Value]) -> bool
    ensures { result ≡ are_of_one_class left.now right.now }
{
    if left.is_empty() {
        return false;
    }
    let kind = kind_of_value(&left[0]);
    are_of_class(kind, left) && are_of_class(kind, right)
}

fn are_of_class(kind: ValueKind, values: &[Value]) -> bool
    ensures { result ≡ are_of_class kind values.now }
{
    for value in values {
        if !same_class(kind, kind_of_value(value)) {
            return false;
        }
    }
    true
}

fn pairs_relate(
    relation: Relation,
    choice: Choice,
    left: &[Value],
    right: &[Value],
    prefix: Option<u8>,
) -> bool
    ensures { result ≡ compares relation choice left.now right.now prefix }
{
    match choice {
        Choice::Any => any_relates(relation, left, right, prefix),
        Choice::All => is_some_value(left) && all_relate(relation, left, right, prefix),
    }
}

fn any_relates(relation: Relation, left: &[Value], right: &[Value], prefix: Option<u8>) -> bool
    ensures { result ≡ list_any (λ v.
        list_any (λ w. are_related relation v w prefix) right.now) left.now }
{
    for value in left {
        if any_is_related(relation, value, right, prefix) {
            return true;
        }
    }
    false
}

fn all_relate(relation: Relation, left: &[Value], right: &[Value], prefix: Option<u8>) -> bool
    ensures { result ≡ list_all (λ v.
        passes Choice.All (λ w. are_related relation v w prefix) right.now) left.now }
{
    left.iter().all(|value| is_some_value(right) && all_are_related(relation, value, right, prefix))
}

fn any_is_related(relation: Relation, left: &Value, right: &[Value], prefix: Option<u8>) -> bool
    ensures { result ≡ list_any (λ w. are_related relation left.now w prefix) right.now }
{
    for value in right {
        if related(relation, left, value, prefix) {
            return true;
        }
    }
    false
}

fn all_are_related(relation: Relation, left: &Value, right: &[Value], prefix: Option<u8>) -> bool
    ensures { result ≡ list_all (λ w. are_related relation left.now w prefix) right.now }
{
    for value in right {
        if !related(relation, left, value, prefix) {
            return false;
        }
    }
    true
}
