// What two lists of numbers give, pair by pair.
ghost use Rattle.std.specs.Prelude.{◌≡◌, IfOk};
ghost use Rattle.std.specs.List.{filter_map, zip};
ghost use Rattle.flt_lists.specs.Pairs.{values_calculated};
ghost use Rattle.flt_typed.specs.Arithmetic.{calculated};

use crate::lists::add;
use flt_syntax::Arithmetic;
use flt_typed::calculate;
use pk_base::{NoMemory, Value};
use std::alloc::Global;

/// The sums, differences or products of the pairs of two lists: where one list has one value, of that value with each
/// of the other; else of the first with the first and so on, as far as the shorter list goes.
#[tactic(auto, using(crate::proofs::PairLemmas::single_left, crate::proofs::PairLemmas::single_right, crate::proofs::PairLemmas::no_single))]
pub fn calculated_values(
    alloc: Global,
    operation: Arithmetic,
    left: &[Value],
    right: &[Value],
) -> Result<Vec<Value>, NoMemory>
    ensures { IfOk result (λ answers.
        answers.items ≡ values_calculated operation left.now right.now) }
{
    if left.len() == 1 {
        return with_each_right(alloc, operation, &left[0], right);
    }
    if right.len() == 1 {
        return with_each_left(alloc, operation, left, &right[0]);
    }
    in_step(alloc, operation, left, right)
}

fn with_each_right(
    alloc: Global,
    operation: Arithmetic,
    left: &Value,
    right: &[Value],
) -> Result<Vec<Value>, NoMemory>
    ensures { IfOk result (λ answers.
        answers.items ≡ filter_map (λ value. calculated operation left.now value) right.now) }
{
    let mut answers = Vec::new(alloc);
    for value in right {
        add(&mut answers, calculate(operation, left, value))?;
    }
    Ok(answers)
}

fn with_each_left(
    alloc: Global,
    operation: Arithmetic,
    left: &[Value],
    right: &Value,
) -> Result<Vec<Value>, NoMemory>
    ensures { IfOk result (λ answers.
        answers.items ≡ filter_map (λ value. calculated operation value right.now) left.now) }
{
    let mut answers = Vec::new(alloc);
    for value in left {
        add(&mut answers, calculate(operation, value, right))?;
    }
    Ok(answers)
}

/// Of the first with the first and so on.
fn in_step(
    alloc: Global,
    operation: Arithmetic,
    left: &[Value],
    right: &[Value],
) -> Result<Vec<Value>, NoMemory>
    ensures { IfOk result (λ answers.
        answers.items ≡ filter_map (λ pair.
        calculated operation pair.0 pair.1) (zip left.now right.now)) }
{
    let mut answers = Vec::new(alloc);
    for (first, second) in left.iter().zip(right) {
        add(&mut answers, calculate(operation, first, second))?;
    }
    Ok(answers)
}
