// What is done with values that are owned: they are given up, or put into boxes.
ghost use Rattle.std.specs.Prelude.{◌≡◌, Err, IfOk};

use flt_syntax::FilterError;
use pk_base::NoMemory;
use std::alloc::Global;

/// Gives a value up.
pub(crate) fn let_go<T: Drop>(_value: T) {}

/// An error; what was read before it is given up.
pub(crate) fn refused<A, T: Drop>(error: FilterError, _read: T) -> Result<A, FilterError>
    ensures { result ≡ Err error }
{
    Err(error)
}

/// A value in a box.
pub(crate) fn boxed<T: Drop>(alloc: Global, value: T) -> Result<Box<T>, NoMemory>
    ensures { IfOk result (λ inside. inside.value ≡ value) }
{
    Ok(Box::new(alloc, value)?)
}

/// Two values, each in a box.
pub(crate) fn both_boxed<T: Drop>(
    alloc: Global,
    left: T,
    right: T,
) -> Result<(Box<T>, Box<T>), NoMemory>
    ensures first { IfOk result (λ both. both.0.value ≡ left) }
    ensures second { IfOk result (λ both. both.1.value ≡ right) }
{
    match (boxed(alloc, left), boxed(alloc, right)) {
        (Ok(left), Ok(right)) => Ok((left, right)),
        (left, right) => {
            let_go((left, right));
            Err(NoMemory)
        }
    }
}
