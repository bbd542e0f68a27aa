// The lists of values that slices, masks and functions give.
ghost use Rattle.std.specs.Prelude.{◌≡◌, [], ◌∷◌, ◌++◌, IfOk, OnOk};
ghost use Rattle.std.specs.List.{filter_map};
ghost use Rattle.std.specs.Option.{option_to_list};
ghost use Rattle.flt_lists.specs.Called.{values_called};
ghost use Rattle.flt_typed.specs.Arithmetic.{extreme_of as extreme_among};
ghost use Rattle.flt_typed.specs.Calls.{called, masked};
ghost use Rattle.flt_typed.specs.Slices.{sliced};

use flt_syntax::{Function, RangePart};
use flt_typed::{Extreme, call, extreme_of, masked, slice};
use pk_base::{NoMemory, Value};
use std::alloc::Global;

/// The slices of those values that have all the bytes. A slice of a single range shares its value's bytes.
pub fn slices(alloc: Global, values: &[Value], ranges: &[RangePart]) -> Result<Vec<Value>, NoMemory>
    ensures { IfOk result (λ slices.
        slices.items ≡ filter_map (λ value. sliced value ranges.now) values.now) }
{
    let mut slices = Vec::new(alloc);
    for value in values {
        let bytes = slice(alloc, value, ranges)?;
        add(&mut slices, bytes)?;
    }
    Ok(slices)
}

/// The bits of each number that are set in a mask.
pub fn masked_values(alloc: Global, values: &[Value], mask: u64) -> Result<Vec<Value>, NoMemory>
    ensures { IfOk result (λ answers.
        answers.items ≡ filter_map (λ value. masked mask value) values.now) }
{
    let mut answers = Vec::new(alloc);
    for value in values {
        add(&mut answers, masked(mask, value))?;
    }
    Ok(answers)
}

/// What a function gives of the values: `count` one number, `min` and `max` the least or the greatest number if there is
/// one, and the others one for each value that they take.
pub fn called_values(
    alloc: Global,
    function: Function,
    values: &[Value],
) -> Result<Vec<Value>, NoMemory>
    ensures { IfOk result (λ answers. answers.items ≡ values_called function values.now) }
{
    match function {
        Function::Count => only(alloc, Value::Uint(values.len() as u64)),
        Function::Min => extreme_value(alloc, Extreme::Least, values),
        Function::Max => extreme_value(alloc, Extreme::Greatest, values),
        Function::Len | Function::Upper | Function::Lower => each_called(alloc, function, values),
    }
}

/// The least or the greatest number, if there is one.
fn extreme_value(alloc: Global, extreme: Extreme, values: &[Value]) -> Result<Vec<Value>, NoMemory>
    ensures { IfOk result (λ answers.
        answers.items ≡ option_to_list (extreme_among extreme values.now)) }
{
    match extreme_of(extreme, values) {
        Some(value) => only(alloc, value),
        None => Ok(Vec::new(alloc)),
    }
}

fn each_called(alloc: Global, function: Function, values: &[Value]) -> Result<Vec<Value>, NoMemory>
    ensures { IfOk result (λ answers.
        answers.items ≡ filter_map (λ value. called function value) values.now) }
{
    let mut answers = Vec::new(alloc);
    for value in values {
        let answer = call(alloc, function, value)?;
        add(&mut answers, answer)?;
    }
    Ok(answers)
}

/// Adds a value to a list, if there is one.
pub(crate) fn add(values: &mut Vec<Value>, value: Option<Value>) -> Result<(), NoMemory>
    ensures { OnOk result (values.new.items ≡ values.old.items ++ option_to_list value) }
{
    if let Some(value) = value {
        values.push(value)?;
    }
    Ok(())
}

/// A list of one value.
pub fn only(alloc: Global, value: Value) -> Result<Vec<Value>, NoMemory>
    ensures { IfOk result (λ values. values.items ≡ value ∷ []) }
{
    let mut values = Vec::new(alloc);
    values.push(value)?;
    Ok(values)
}
