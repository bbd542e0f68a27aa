// Whether texts have others in them, among all pairs.
ghost use Rattle.std.specs.Prelude.{◌≡◌, ◌++◌, ◌&&◌, ◌≤◌, nat_le, nat_eq, ℕ, List, length, map, take, drop, IfOk, OnOk};
ghost use Rattle.std.specs.List.{list_any, list_all, starts_with};
ghost use Rattle.std.specs.List.Sorted.{IsSorted};
ghost use Rattle.std.specs.Option.{option_to_list};
ghost use Rattle.std.specs.Ordering.{is_eq};
ghost use Rattle.flt_lists.specs.Keys.{key_cmp, key_shown, order_of_keys};
ghost use Rattle.flt_lists.specs.Needles.{AreLengths, AreNeedles, needle_in, needle_of as needle_value, texts_of};
ghost use Rattle.flt_typed.specs.Contains.{contains};

use crate::keys::{Key, is_kept, needle_of};
use flt_typed::octets_of;
use pk_base::{NoMemory, Value};
use std::alloc::Global;

fn add_needle<'v>(keys: &mut Vec<Key<'v>>, value: &'v Value) -> Result<(), NoMemory>
    ensures { OnOk result (map (λ k. key_shown k) keys.new.items
        ≡ map (λ k. key_shown k) keys.old.items ++ option_to_list (needle_in value.now)) }
{
    if let Some(bytes) = octets_of(value) {
        keys.push(needle_of(bytes))?;
    }
    Ok(())
}

/// The keys of the values that have bytes, in order.
pub(crate) fn needles_of<'v>(alloc: Global, values: &'v [Value]) -> Result<Vec<Key<'v>>, NoMemory>
    ensures { IfOk result (λ keys. AreNeedles (texts_of values.now) keys.items) }
{
    let mut keys = Vec::new(alloc);
    for value in values {
        add_needle(&mut keys, value)?;
    }
    keys.sort_unstable();
    Ok(keys)
}

/// The lengths of keys, each once where keys of one length stand together.
pub(crate) fn lengths_of(alloc: Global, needles: &[Key<'_>]) -> Result<Vec<usize>, NoMemory>
    ensures { IfOk result (λ lengths. AreLengths needles.now lengths.items) }
{
    let mut lengths = Vec::new(alloc);
    let mut newest = None;
    for needle in needles {
        let len = needle.octets.len();
        if newest != Some(len) {
            lengths.push(len)?;
            newest = Some(len);
        }
    }
    Ok(lengths)
}

/// Whether the first bytes of a text, so many of them, are among the needles.
fn begins_by(text: &[u8], len: usize, needles: &[Key<'_>]) -> bool
    requires { IsSorted order_of_keys needles.now }
    ensures { result ≡ (nat_le len (length text.now)
        && list_any (λ k. is_eq (key_cmp (needle_value (take len text.now)) (key_shown k))) needles.now) }
{
    len <= text.len() && is_kept(needles, &needle_of(&text[..len]))
}

/// Whether a needle stands at the front of a text.
fn begins_with_any(text: &[u8], lengths: &[usize], needles: &[Key<'_>]) -> bool
    requires { IsSorted order_of_keys needles.now }
    ensures { (texts : List (List ℕ)) → AreNeedles texts needles.now → AreLengths needles.now lengths.now
        → result ≡ list_any (λ t. starts_with nat_eq text.now t) texts }
{
    for len in lengths {
        if begins_by(text, *len, needles) {
            return true;
        }
    }
    false
}

fn behind(text: &[u8], at: usize) -> &[u8]
    requires { at ≤ length text.now }
    ensures { result.now ≡ drop at text.now }
{
    &text[at..]
}

/// Whether a needle stands somewhere in a text.
pub(crate) fn has_any(text: &[u8], lengths: &[usize], needles: &[Key<'_>]) -> bool
    requires { IsSorted order_of_keys needles.now }
    ensures { (texts : List (List ℕ)) → AreNeedles texts needles.now → AreLengths needles.now lengths.now
        → result ≡ list_any (λ t. contains text.now t) texts }
{
    for at in 0..text.len() {
        if begins_with_any(behind(text, at), lengths, needles) {
            return true;
        }
    }
    begins_with_any(&[], lengths, needles)
}
