// What masks and functions give of single values.
ghost use Rattle.std.specs.Prelude.{◌≡◌, IfOk};
ghost use Rattle.flt_typed.specs.Calls.{masked, is_nonzero, len_of, uppered, lowered, called};

use crate::order::octets_of;
use flt_syntax::Function;
use pk_base::{NoMemory, Octets, Value};
use std::alloc::Global;

/// The bits of a number that a mask has, too.
pub fn masked(mask: u64, value: &Value) -> Option<Value>
    ensures { result ≡ masked mask value.now }
{
    match value {
        Value::Uint(number) => Some(Value::Uint(*number & mask)),
        _ => None,
    }
}

/// Whether a value is a number that isn't 0.
pub fn is_nonzero(value: &Value) -> bool
    ensures { result ≡ is_nonzero value.now }
{
    match value {
        Value::Uint(number) => *number != 0,
        _ => false,
    }
}

/// How many bytes a value of their class has.
pub fn len_of(value: &Value) -> Option<Value>
    ensures { result ≡ len_of value.now }
{
    octets_of(value).map(|bytes| Value::Uint(bytes.len() as u64))
}

/// A text with its ASCII letters in upper case.
pub fn uppered(alloc: Global, value: &Value) -> Result<Option<Value>, NoMemory>
    ensures { IfOk result (λ text. text ≡ uppered value.now) }
{
    match value {
        Value::Text(bytes) => {
            let upper = bytes.bytes().to_ascii_uppercase(alloc)?;
            Ok(Some(Value::Text(Octets::from_vec(upper)?)))
        }
        _ => Ok(None),
    }
}

/// A text with its ASCII letters in lower case.
pub fn lowered(alloc: Global, value: &Value) -> Result<Option<Value>, NoMemory>
    ensures { IfOk result (λ text. text ≡ lowered value.now) }
{
    match value {
        Value::Text(bytes) => {
            let lower = bytes.bytes().to_ascii_lowercase(alloc)?;
            Ok(Some(Value::Text(Octets::from_vec(lower)?)))
        }
        _ => Ok(None),
    }
}

/// What a function gives of a single value. `count`, `min` and `max` are of a whole list, and give nothing here.
pub fn call(alloc: Global, function: Function, value: &Value) -> Result<Option<Value>, NoMemory>
    ensures { IfOk result (λ answer. answer ≡ called function value.now) }
{
    match function {
        Function::Len => Ok(len_of(value)),
        Function::Count | Function::Min | Function::Max => Ok(None),
        Function::Upper => uppered(alloc, value),
        Function::Lower => lowered(alloc, value),
    }
}
