//! What no filter can say.
//!
//! `alone`: what is so, by the name of its function. `leading bits of lists`: a prefix length, ` -> `, and whether any and whether all pairs
//! of twenty addresses from 10.0.0.0 on and twenty from 10.0.0.16 on have as many leading bits in common.

use flt_lists::compares;
use flt_syntax::{Arithmetic, Choice, Place, RangePart};
use flt_typed::{
    Extreme, Relation, calculate, extreme_of, masked, order_of, related, slice, span_of,
};
use pk_base::{NoMemory, Value};
use std::alloc::Global;

/// Twenty addresses that differ in their last bits.
fn addresses(alloc: Global, first: u32) -> Option<Vec<Value>> {
    let mut values = Vec::new(alloc);
    for place in 0..20 {
        values.push(Value::Ip4(first.wrapping_add(place))).ok()?;
    }
    Some(values)
}

/// Whether any pair of two lists is so related, and all are.
fn pairs(
    alloc: Global,
    relation: Relation,
    left: &[Value],
    right: &[Value],
    prefix: u8,
) -> Result<(bool, bool), NoMemory> {
    let any = compares(alloc, relation, Choice::Any, left, right, Some(prefix))?;
    let all = compares(alloc, relation, Choice::All, left, right, Some(prefix))?;
    Ok((any, all))
}

fn lead_alike(alloc: Global, left: &[Value], right: &[Value], row: &str) -> Option<bool> {
    let (prefix, want) = row.split_once(" -> ")?;
    let (any, all) = want.split_once(' ')?;
    let (prefix, any, all): (u8, bool, bool) = (
        prefix.parse().ok()?,
        any.parse().ok()?,
        all.parse().ok()?,
    );
    let equal = pairs(alloc, Relation::Equal, left, right, prefix).ok()?;
    let unequal = pairs(alloc, Relation::Unequal, left, right, prefix).ok()?;
    Some(equal == (any, all) && unequal == (!all, !any))
}

fn are_led_alike(alloc: Global, row: &str) -> Option<bool> {
    let left = addresses(alloc, 0x0A00_0000)?;
    let right = addresses(alloc, 0x0A00_0010)?;
    lead_alike(alloc, &left, &right, row)
}

fn have_no_order(one: &Value, others: &[Value]) -> bool {
    for other in others {
        if order_of(one, other).is_some() {
            return false;
        }
    }
    true
}

fn two_classes_have_no_order() -> bool {
    let number = Value::Uint(1);
    have_no_order(&number, &[Value::Bool(true), Value::Ip4(1), Value::Time(1)])
        && !related(Relation::Unequal, &number, &Value::Ip6(2), None)
}

fn contains_none(values: &[Value; 3]) -> bool {
    let [low, value, high] = values;
    !related(Relation::Contains, low, value, None)
        && !related(Relation::Contains, value, value, None)
        && !related(Relation::Contains, high, value, None)
}

fn only_bytes_contain() -> bool {
    contains_none(&[Value::Uint(1), Value::Uint(2), Value::Uint(3)])
        && contains_none(&[Value::Time(-3), Value::Time(-2), Value::Time(1)])
        && contains_none(&[Value::Ip4(9), Value::Ip4(10), Value::Ip4(11)])
        && contains_none(&[Value::Ip6(9), Value::Ip6(10), Value::Ip6(11)])
}

fn place(offset: u32) -> Place {
    Place {
        from_end: false,
        offset,
    }
}

fn empty_ranges_take_nothing() -> bool {
    span_of(5, RangePart::Counted(place(0), 0)).is_none()
        && span_of(5, RangePart::Between(place(2), place(1))).is_none()
        && span_of(5, RangePart::Front(0)).is_none()
}

fn numbers_have_no_slices(alloc: Global) -> bool {
    matches!(
        slice(alloc, &Value::Uint(1), &[RangePart::Front(2)]),
        Ok(None)
    )
}

fn addresses_are_not_computed() -> bool {
    masked(1, &Value::Ip4(1)).is_none()
        && calculate(Arithmetic::Sum, &Value::Uint(1), &Value::Ip4(1)).is_none()
}

fn number_of(value: &Option<Value>) -> Option<u64> {
    match value {
        Some(Value::Uint(number)) => Some(*number),
        _ => None,
    }
}

/// The least or the greatest of 7, 3, an address, and 9.
fn extreme_of_three(extreme: Extreme) -> Option<u64> {
    let values = [
        Value::Uint(7),
        Value::Uint(3),
        Value::Ip4(1),
        Value::Uint(9),
    ];
    number_of(&extreme_of(extreme, &values))
}

fn numbers_alone_have_extremes() -> bool {
    extreme_of_three(Extreme::Least) == Some(3)
        && extreme_of_three(Extreme::Greatest) == Some(9)
        && extreme_of(Extreme::Least, &[]).is_none()
        && extreme_of(Extreme::Greatest, &[Value::Bool(true)]).is_none()
}

fn is_alone(alloc: Global, name: &str) -> bool {
    match name {
        "values of two classes have no order" => two_classes_have_no_order(),
        "no number, time or address is contained in another" => only_bytes_contain(),
        "empty ranges take nothing" => empty_ranges_take_nothing(),
        "numbers have no slices" => numbers_have_no_slices(alloc),
        "addresses have no masks and no sums" => addresses_are_not_computed(),
        "only numbers have a least and a greatest" => numbers_alone_have_extremes(),
        _ => false,
    }
}

pub(crate) fn is_so(alloc: Global, check: &str, row: &str) -> Option<bool> {
    match check {
        "alone" => Some(is_alone(alloc, row)),
        "leading bits of lists" => are_led_alike(alloc, row),
        _ => None,
    }
}
