// Equal values among all pairs.
ghost use Rattle.std.specs.Prelude.{◌≡◌, ◌<◌, length, IfOk};
ghost use Rattle.std.specs.List.{list_any, list_all};
ghost use Rattle.std.specs.List.Sorted.{IsSorted};
ghost use Rattle.std.specs.Ordering.{is_eq};
ghost use Rattle.flt_lists.specs.Keys.{key_cmp, key_of as key_value, key_shown, keys_of, order_of_keys, pairs_hold};
ghost use Rattle.flt_syntax.specs.declared.ast.Choice.TheVariants.{Any, All};
ghost use Rattle.flt_typed.specs.declared.relation.Relation.TheVariants.{Equal};

use crate::keys::{Key, is_kept, key_of, sorted_keys};
use pk_base::{NoMemory, Value};
use std::alloc::Global;

/// Whether the keys of all pairs tie: then all tie with the first right one.
pub(crate) fn all_tie(left: &[Value], right: &[Value], prefix: Option<u8>) -> bool
    requires some_left { 0 < length left.now }
    requires some_right { 0 < length right.now }
    ensures { result ≡ pairs_hold key_cmp Equal All (keys_of prefix left.now) (keys_of prefix right.now) }
{
    let key = key_of(prefix, &right[0]);
    tie_with(&key, left, prefix) && tie_with(&key, right, prefix)
}

fn tie_with(key: &Key<'_>, values: &[Value], prefix: Option<u8>) -> bool
    ensures { result ≡ list_all (λ v.
        is_eq (key_cmp (key_value prefix v) (key_shown key.now))) values.now }
{
    for value in values {
        if !ties(key, value, prefix) {
            return false;
        }
    }
    true
}

fn ties(key: &Key<'_>, value: &Value, prefix: Option<u8>) -> bool
    ensures { result ≡ is_eq (key_cmp (key_value prefix value.now) (key_shown key.now)) }
{
    key_of(prefix, value).cmp(key).is_eq()
}

/// Whether the keys of any pair tie.
pub(crate) fn any_ties(
    alloc: Global,
    left: &[Value],
    right: &[Value],
    prefix: Option<u8>,
) -> Result<bool, NoMemory>
    ensures { IfOk result (λ truth.
        truth ≡ pairs_hold key_cmp Equal Any (keys_of prefix left.now) (keys_of prefix right.now)) }
{
    let keys = sorted_keys(alloc, prefix, right)?;
    Ok(any_is_kept(&keys, left, prefix))
}

fn any_is_kept(keys: &[Key<'_>], values: &[Value], prefix: Option<u8>) -> bool
    requires { IsSorted order_of_keys keys.now }
    ensures { result ≡ list_any (λ v. list_any (λ k.
        is_eq (key_cmp (key_value prefix v) (key_shown k))) keys.now) values.now }
{
    for value in values {
        if is_kept(keys, &key_of(prefix, value)) {
            return true;
        }
    }
    false
}
