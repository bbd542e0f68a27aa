// The slices of bytes.
ghost use Rattle.std.specs.Prelude.{◌≡◌, ◌^◌, ◌<◌, ◌≤◌, IfOk, IfSome};
ghost use Rattle.std.specs.Option.{option_map};
ghost use Rattle.pk_base.specs.declared.value.Value.TheVariants as values;
ghost use Rattle.flt_typed.specs.Slices.{place_in, within, span_of, taken_by, sliced};

use flt_syntax::{Place, RangePart};
use pk_base::{NoMemory, Octets, Value};
use std::alloc::Global;

/// Where a place is in so many bytes; none where it is before the first.
fn place_in(size: usize, place: Place) -> Option<usize>
    requires { size < 2 ^ 63 }
    ensures value { result ≡ place_in size place }
    ensures below { IfSome result (λ at. at < 2 ^ 63) }
{
    let offset = place.offset as usize;
    if place.from_end && offset > 0 {
        size.checked_sub(offset)
    } else {
        Some(offset)
    }
}

/// Bytes from a place up to and without another; none where there are none, or one that isn't there.
fn within(size: usize, from: usize, to: usize) -> Option<(usize, usize)>
    ensures span { result ≡ within size from to }
    ensures order { IfSome result (λ span. span.0 < span.1) }
    ensures inside { IfSome result (λ span. span.1 ≤ size) }
{
    if from < to && to <= size {
        Some((from, to))
    } else {
        None
    }
}

/// The bytes that a range takes of so many, from the first up to and without the second.
#[tactic(auto, unfolding(crate::specs::Slices::span_of))]
pub fn span_of(size: usize, range: RangePart) -> Option<(usize, usize)>
    requires { size < 2 ^ 63 }
    ensures span { result ≡ span_of size range }
    ensures order { IfSome result (λ span. span.0 < span.1) }
    ensures inside { IfSome result (λ span. span.1 ≤ size) }
{
    match range {
        RangePart::One(at) => {
            let from = place_in(size, at)?;
            within(size, from, from + 1)
        }
        RangePart::Counted(at, count) => {
            let from = place_in(size, at)?;
            within(size, from, from + count as usize)
        }
        RangePart::Between(first, last) => {
            let from = place_in(size, first)?;
            let to = place_in(size, last)?;
            within(size, from, to + 1)
        }
        RangePart::Front(count) => within(size, 0, count as usize),
        RangePart::ToEnd(at) => {
            let from = place_in(size, at)?;
            within(size, from, size)
        }
    }
}

/// A slice of a value, which is bytes: what the ranges take, one behind the other. There is none where the value has
/// no bytes to slice, or a range takes no byte or one that isn't there. A single range of bytes shares them.
pub fn slice(alloc: Global, value: &Value, ranges: &[RangePart]) -> Result<Option<Value>, NoMemory>
    ensures { IfOk result (λ slice. slice ≡ sliced value.now ranges.now) }
{
    match value {
        Value::Bytes(bytes) | Value::Text(bytes) | Value::Proto(bytes) => {
            shared_slice(alloc, bytes, ranges)
        }
        Value::Ether(address) => copied_slice(alloc, address.as_slice(), ranges),
        Value::Ip4(address) => copied_slice(alloc, address.to_be_bytes().as_slice(), ranges),
        Value::Ip6(address) => copied_slice(alloc, address.to_be_bytes().as_slice(), ranges),
        _ => Ok(None),
    }
}

fn shared_slice(
    alloc: Global,
    bytes: &Octets,
    ranges: &[RangePart],
) -> Result<Option<Value>, NoMemory>
    ensures { IfOk result (λ slice.
        slice ≡ option_map values.Bytes (taken_by bytes.now ranges.now)) }
{
    Ok(bytes_value(take_shared(alloc, bytes, ranges)?))
}

fn copied_slice(
    alloc: Global,
    bytes: &[u8],
    ranges: &[RangePart],
) -> Result<Option<Value>, NoMemory>
    ensures { IfOk result (λ slice.
        slice ≡ option_map values.Bytes (taken_by bytes.now ranges.now)) }
{
    Ok(bytes_value(take_copied(alloc, bytes, ranges)?))
}

fn bytes_value(bytes: Option<Octets>) -> Option<Value>
    ensures { result ≡ option_map values.Bytes bytes }
{
    bytes.map(Value::Bytes)
}

/// What the ranges take; a single range shares the bytes.
#[tactic(auto, using(crate::proofs::SliceLemmas::one_range, crate::proofs::SliceLemmas::one_outside))]
fn take_shared(
    alloc: Global,
    bytes: &Octets,
    ranges: &[RangePart],
) -> Result<Option<Octets>, NoMemory>
    ensures { IfOk result (λ taken. taken ≡ taken_by bytes.now ranges.now) }
{
    match ranges {
        [range] => match span_of(bytes.bytes().len(), *range) {
            Some((from, to)) => Ok(Some(bytes.part(from, to)?)),
            None => Ok(None),
        },
        _ => take_copied(alloc, bytes.bytes(), ranges),
    }
}

/// What the ranges take, in bytes of their own.
#[tactic(auto, using(crate::proofs::SliceLemmas::first_range, crate::proofs::SliceLemmas::next_range, crate::proofs::SliceLemmas::no_range, crate::proofs::SliceLemmas::last_range))]
fn take_copied(
    alloc: Global,
    bytes: &[u8],
    ranges: &[RangePart],
) -> Result<Option<Octets>, NoMemory>
    ensures { IfOk result (λ taken. taken ≡ taken_by bytes.now ranges.now) }
{
    let mut taken = Vec::new(alloc);
    for range in ranges {
        let Some((from, to)) = span_of(bytes.len(), *range) else {
            return Ok(None);
        };
        taken.extend_from_slice(&bytes[from..to])?;
    }
    Ok(Some(Octets::from_vec(taken)?))
}
