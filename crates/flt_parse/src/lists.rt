// Lists that are added to at their end, and values put behind pointers, where memory may be short.
ghost use Rattle.std.specs.Prelude.{◌≡◌, ◌++◌, [], ◌∷◌, IfOk, OnOk};

use crate::joins::let_go;
use pk_base::NoMemory;
use std::alloc::Global;

/// One more in a list.
pub fn push_one<T: Drop>(list: &mut Vec<T>, next: T) -> Result<(), NoMemory>
    ensures { OnOk result (list.new.items ≡ list.old.items ++ next ∷ []) }
{
    match list.push(next) {
        Ok(()) => Ok(()),
        Err(error) => {
            let_go(error);
            Err(NoMemory)
        }
    }
}

/// Two more in a list.
pub fn push_two<T: Drop>(list: &mut Vec<T>, first: T, next: T) -> Result<(), NoMemory>
    ensures { OnOk result (list.new.items ≡ (list.old.items ++ first ∷ []) ++ next ∷ []) }
{
    match push_one(list, first) {
        Ok(()) => push_one(list, next),
        Err(NoMemory) => {
            let_go(next);
            Err(NoMemory)
        }
    }
}

/// A value behind a pointer.
pub fn box_one<T: Drop>(alloc: Global, value: T) -> Result<Box<T>, NoMemory>
    ensures { IfOk result (λ boxed. boxed.value ≡ value) }
{
    match Box::new(alloc, value) {
        Ok(boxed) => Ok(boxed),
        Err(error) => {
            let_go(error);
            Err(NoMemory)
        }
    }
}

/// Two values that are to be joined, each behind a pointer.
pub fn box_two<T: Drop>(alloc: Global, left: T, right: T) -> Result<(Box<T>, Box<T>), NoMemory>
    ensures first { IfOk result (λ both. both.0.value ≡ left) }
    ensures second { IfOk result (λ both. both.1.value ≡ right) }
{
    match (Box::new(alloc, left), Box::new(alloc, right)) {
        (Ok(l), Ok(r)) => Ok((l, r)),
        (l, r) => {
            let_go((l, r));
            Err(NoMemory)
        }
    }
}
