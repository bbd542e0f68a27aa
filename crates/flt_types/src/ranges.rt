// The ranges of a slice.
ghost use Rattle.std.specs.Prelude.{◌≡◌, map, IfOk, IfErr, OnOk, IsTrue};
ghost use Rattle.std.specs.List.{list_all};
ghost use Rattle.flt_typing.specs.Ranges.{in_order as are_in_order, is_range as is_range_part};
ghost use Rattle.flt_types.specs.Faults.{IsAnswer, ranges_faults, slice_faults};
ghost use Rattle.flt_typed.specs.Kinds.{is_sliced as is_sliced_kind};

use crate::faults::{fault, require};
use flt_syntax::{FilterError, FilterReason, Place, RangePart, SliceRange};
use flt_typed::is_sliced;
use pk_base::NoMemory;
use pk_fields::ValueKind;
use std::alloc::Global;

/// What the ranges of a slice take, for an operand of a kind.
#[tactic(auto, using(crate::proofs::Answers::answer_left, crate::proofs::Answers::answer_right, crate::proofs::Answers::clear_unless))]
pub(crate) fn parts_for(
    alloc: Global,
    kind: ValueKind,
    at: u32,
    ranges: &[SliceRange],
) -> Result<Vec<RangePart>, FilterError>
    ensures sliced { OnOk result (IsTrue (is_sliced_kind kind)) }
    ensures valid { OnOk result (IsTrue (list_all (λ r. is_range_part r.part) ranges.now)) }
    ensures ok { IfOk result (λ parts. parts.items ≡ map (λ r. r.part) ranges.now) }
    ensures err { IfErr result (IsAnswer (slice_faults at ranges.now kind)) }
{
    require(is_sliced(kind), at, FilterReason::TypeMismatch)?;
    parts_in(alloc, ranges)
}

/// What the ranges of a slice take, each of which may stand.
fn parts_in(alloc: Global, ranges: &[SliceRange]) -> Result<Vec<RangePart>, FilterError>
    ensures valid { OnOk result (IsTrue (list_all (λ r. is_range_part r.part) ranges.now)) }
    ensures ok { IfOk result (λ parts. parts.items ≡ map (λ r. r.part) ranges.now) }
    ensures err { IfErr result (IsAnswer (ranges_faults ranges.now)) }
{
    match check_ranges(ranges) {
        Ok(()) => match all_parts(alloc, ranges) {
            Ok(parts) => Ok(parts),
            Err(NoMemory) => Err(FilterError::NoMemory),
        },
        Err(error) => Err(error),
    }
}

fn check_ranges(ranges: &[SliceRange]) -> Result<(), FilterError>
    ensures valid { OnOk result (IsTrue (list_all (λ r. is_range_part r.part) ranges.now)) }
    ensures err { IfErr result (IsAnswer (ranges_faults ranges.now)) }
{
    for range in ranges {
        if !is_range(range.part) {
            return Err(fault(range.at, FilterReason::OutOfRange));
        }
    }
    Ok(())
}

/// Whether a range has a byte in a value that is long enough.
fn is_range(part: RangePart) -> bool
    ensures { result ≡ is_range_part part }
{
    match part {
        RangePart::One(_) | RangePart::ToEnd(_) => true,
        RangePart::Counted(_, len) | RangePart::Front(len) => 1 <= len,
        RangePart::Between(first, last) => in_order(first, last),
    }
}

/// Whether the last place isn't before the first, as far as they are counted from the same side.
fn in_order(first: Place, last: Place) -> bool
    ensures { result ≡ are_in_order first last }
{
    match (first.from_end, last.from_end) {
        (false, false) => first.offset <= last.offset,
        (true, true) => last.offset <= first.offset,
        _ => true,
    }
}

fn all_parts(alloc: Global, ranges: &[SliceRange]) -> Result<Vec<RangePart>, NoMemory>
    ensures { IfOk result (λ parts. parts.items ≡ map (λ r. r.part) ranges.now) }
{
    let mut parts = Vec::with_capacity(alloc, ranges.len())?;
    for range in ranges {
        parts.push(range.part)?;
    }
    Ok(parts)
}
