// Whether the bytes of values have those of others in them, among all pairs. Each text is looked for once, however often it comes, and
// those of one length by one search for each place, so that no frame takes long.
ghost use Rattle.std.specs.Prelude.{◌≡◌, ◌<◌, ℕ, List, length, IfOk, true, is_some};
ghost use Rattle.std.specs.List.{list_any, list_all};
ghost use Rattle.std.specs.List.Sorted.{IsSorted};
ghost use Rattle.flt_lists.specs.Keys.{order_of_keys};
ghost use Rattle.flt_lists.specs.Needles.{AreLengths, AreNeedles, has_text};
ghost use Rattle.flt_lists.specs.Passes.{compares};
ghost use Rattle.flt_syntax.specs.declared.ast.Choice.TheVariants.{Any, All};
ghost use Rattle.flt_typed.specs.Relations.{octets_of as octets_in};
ghost use Rattle.flt_typed.specs.declared.relation.Relation.TheVariants.{Contains};

use crate::keys::Key;
use crate::needles::{has_any, lengths_of, needles_of};
use flt_syntax::Choice;
use flt_typed::{contains, octets_of};
use pk_base::{NoMemory, Value};
use std::alloc::Global;

/// Whether any or all left values have any or all right ones in them.
pub(crate) fn have_inside(
    alloc: Global,
    choice: Choice,
    left: &[Value],
    right: &[Value],
    prefix: Option<u8>,
) -> Result<bool, NoMemory>
    requires some_left { 0 < length left.now }
    requires some_right { 0 < length right.now }
    ensures { IfOk result (λ truth. truth ≡ compares Contains choice left.now right.now prefix) }
{
    match choice {
        Choice::Any => any_has(alloc, left, right, prefix),
        Choice::All => all_have(alloc, left, right, prefix),
    }
}

#[tactic(auto, using(crate::proofs::InsideLemmas::any_are))]
fn any_has(
    alloc: Global,
    left: &[Value],
    right: &[Value],
    prefix: Option<u8>,
) -> Result<bool, NoMemory>
    ensures { IfOk result (λ truth. truth ≡ compares Contains Any left.now right.now prefix) }
{
    let needles = needles_of(alloc, right)?;
    let lengths = lengths_of(alloc, &needles)?;
    Ok(any_has_needle(left, &lengths, &needles))
}

fn any_has_needle(values: &[Value], lengths: &[usize], needles: &[Key<'_>]) -> bool
    requires { IsSorted order_of_keys needles.now }
    ensures { (texts : List (List ℕ)) → AreNeedles texts needles.now → AreLengths needles.now lengths.now
        → result ≡ list_any (λ v. list_any (λ t. has_text v t) texts) values.now }
{
    for value in values {
        if has_needle(value, lengths, needles) {
            return true;
        }
    }
    false
}

fn has_needle(value: &Value, lengths: &[usize], needles: &[Key<'_>]) -> bool
    requires { IsSorted order_of_keys needles.now }
    ensures { (texts : List (List ℕ)) → AreNeedles texts needles.now → AreLengths needles.now lengths.now
        → result ≡ list_any (λ t. has_text value.now t) texts }
{
    match octets_of(value) {
        Some(text) => has_any(text, lengths, needles),
        None => false,
    }
}

#[tactic(auto, using(crate::proofs::InsideLemmas::all_are, crate::proofs::InsideLemmas::none_are))]
fn all_have(
    alloc: Global,
    left: &[Value],
    right: &[Value],
    prefix: Option<u8>,
) -> Result<bool, NoMemory>
    requires some_left { 0 < length left.now }
    requires some_right { 0 < length right.now }
    ensures { IfOk result (λ truth. truth ≡ compares Contains All left.now right.now prefix) }
{
    if !are_bytes(right) {
        return Ok(false);
    }
    let needles = needles_of(alloc, right)?;
    Ok(all_stand(&needles, left))
}

/// Whether all values have bytes.
fn are_bytes(values: &[Value]) -> bool
    ensures { result ≡ list_all (λ v. is_some (octets_in v)) values.now }
{
    for value in values {
        if octets_of(value).is_none() {
            return false;
        }
    }
    true
}

/// Whether each needle stands in all values. One that comes again is passed.
fn all_stand(needles: &[Key<'_>], values: &[Value]) -> bool
    ensures { (texts : List (List ℕ)) → AreNeedles texts needles.now
        → result ≡ list_all (λ t. list_all (λ v. has_text v t) values.now) texts }
{
    for at in 0..needles.len() {
        let comes_again = at > 0 && needles[at - 1] == needles[at];
        if !comes_again && !stands_in_all(needles[at].octets, values) {
            return false;
        }
    }
    true
}

fn stands_in_all(text: &[u8], values: &[Value]) -> bool
    ensures { result ≡ list_all (λ v. has_text v text.now) values.now }
{
    for value in values {
        if !has_text(value, text) {
            return false;
        }
    }
    true
}

fn has_text(value: &Value, text: &[u8]) -> bool
    ensures { result ≡ has_text value.now text.now }
{
    match octets_of(value) {
        Some(bytes) => contains(bytes, text),
        None => false,
    }
}
