// What values of one class are ordered by.
ghost use Rattle.std.specs.Prelude.{◌≡◌, map, Bool as Truth, IfOk};
ghost use Rattle.std.specs.List.{list_any};
ghost use Rattle.std.specs.List.Sorted.{IsSorted};
ghost use Rattle.std.specs.Ordering.{is_eq};
ghost use Rattle.flt_lists.specs.Keys.{KeyShown, key_cmp, key_of as key_value, key_shown, keys_of as key_values, order_of_keys};
ghost use Rattle.flt_lists.specs.Needles.{needle_of as needle_value};

use flt_typed::{leading_amount, moment_of, octets_of};
use pk_base::{NoMemory, Value};
use std::alloc::Global;

/// What values of one class are ordered by: numbers, truths and addresses by their amount, bytes by the first that
/// differs, times by their moment. What a value has not is 0 or empty.
#[derive(Clone, Copy, PartialEq, Eq, PartialOrd, Ord)]
pub(crate) struct Key<'v> {
    amount: u128,
    pub(crate) octets: &'v [u8],
    moment: i128,
}

/// The key of a value: of an address, by the leading bits alone where there is a prefix length.
pub(crate) fn key_of(prefix: Option<u8>, value: &Value) -> Key<'_>
    ensures { key_shown result ≡ key_value prefix value.now }
{
    Key {
        amount: leading_amount(prefix, value).unwrap_or(0),
        octets: octets_of(value).unwrap_or(&[]),
        moment: moment_of(value).unwrap_or(0),
    }
}

/// The key of bytes that are looked for, which are ordered by their number first.
pub(crate) fn needle_of(bytes: &[u8]) -> Key<'_>
    ensures { key_shown result ≡ needle_value bytes.now }
{
    Key {
        amount: bytes.len() as u128,
        octets: bytes,
        moment: 0,
    }
}

fn keys_of<'v>(
    alloc: Global,
    prefix: Option<u8>,
    values: &'v [Value],
) -> Result<Vec<Key<'v>>, NoMemory>
    ensures { IfOk result (λ keys. map (λ k. key_shown k) keys.items ≡ key_values prefix values.now) }
{
    let mut keys = Vec::with_capacity(alloc, values.len())?;
    for value in values {
        keys.push(key_of(prefix, value))?;
    }
    Ok(keys)
}

/// The keys of values in order.
pub(crate) fn sorted_keys<'v>(
    alloc: Global,
    prefix: Option<u8>,
    values: &'v [Value],
) -> Result<Vec<Key<'v>>, NoMemory>
    ensures sorted { IfOk result (λ keys. IsSorted order_of_keys keys.items) }
    ensures same { IfOk result (λ keys. (test : KeyShown → Truth)
        → list_any (λ k. test (key_shown k)) keys.items
        ≡ list_any test (key_values prefix values.now)) }
{
    let mut keys = keys_of(alloc, prefix, values)?;
    keys.sort_unstable();
    Ok(keys)
}

/// Whether keys in order have one.
pub(crate) fn is_kept(keys: &[Key<'_>], key: &Key<'_>) -> bool
    requires { IsSorted order_of_keys keys.now }
    ensures { result ≡ list_any (λ k. is_eq (key_cmp (key_shown key.now) (key_shown k))) keys.now }
{
    keys.binary_search(key).is_ok()
}
