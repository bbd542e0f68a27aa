// Sums, differences and products of numbers, and the least and the greatest of some.
ghost use Rattle.std.specs.Prelude.{◌≡◌, IfSome};
ghost use Rattle.flt_typed.specs.Arithmetic.{IsExtreme, calculated, extreme_number, extreme_of, nearer, nearer_of, number_in, result_of};

use flt_syntax::Arithmetic;
use pk_base::Value;

/// Which of some numbers is asked for.
#[derive(Clone, Copy)]
pub enum Extreme {
    Least,
    Greatest,
}

/// What two numbers give. There is nothing where the exact result is below 0 or needs more than 64 bits, nor of values
/// that are no numbers.
pub fn calculate(operation: Arithmetic, left: &Value, right: &Value) -> Option<Value>
    ensures { result ≡ calculated operation left.now right.now }
{
    match (left, right) {
        (Value::Uint(left), Value::Uint(right)) => {
            result_of(operation, *left, *right).map(Value::Uint)
        }
        _ => None,
    }
}

fn result_of(operation: Arithmetic, left: u64, right: u64) -> Option<u64>
    ensures { result ≡ result_of operation left right }
{
    match operation {
        Arithmetic::Sum => left.checked_add(right),
        Arithmetic::Difference => left.checked_sub(right),
        Arithmetic::Product => left.checked_mul(right),
    }
}

/// The least or the greatest number among values. There is none where no value is a number.
#[tactic(auto, using(crate::proofs::ExtremeLemmas::is_extreme))]
pub fn extreme_of(extreme: Extreme, values: &[Value]) -> Option<Value>
    ensures computed { result ≡ extreme_of extreme values.now }
    ensures extreme { IfSome result (IsExtreme extreme values.now) }
{
    extreme_number(extreme, values).map(Value::Uint)
}

fn extreme_number(extreme: Extreme, values: &[Value]) -> Option<u64>
    ensures { result ≡ extreme_number extreme values.now }
{
    let mut number = None;
    for value in values {
        number = nearer_of(extreme, number, number_in(value));
    }
    number
}

fn number_in(value: &Value) -> Option<u64>
    ensures { result ≡ number_in value.now }
{
    match value {
        Value::Uint(number) => Some(*number),
        _ => None,
    }
}

/// Of two numbers the one that is asked for, as far as they are there.
fn nearer_of(extreme: Extreme, left: Option<u64>, right: Option<u64>) -> Option<u64>
    ensures { result ≡ nearer_of extreme left right }
{
    match (left, right) {
        (Some(left), Some(right)) => Some(nearer(extreme, left, right)),
        (None, number) | (number, None) => number,
    }
}

fn nearer(extreme: Extreme, left: u64, right: u64) -> u64
    ensures { result ≡ nearer extreme left right }
{
    match extreme {
        Extreme::Least => left.min(right),
        Extreme::Greatest => left.max(right),
    }
}
