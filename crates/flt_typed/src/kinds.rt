// What a filter may do with the values of a kind.
ghost use Rattle.std.specs.Prelude.{◌≡◌};
ghost use Rattle.flt_typed.specs.Kinds.{class_of, same_class, kind_of_value, is_truth, is_measured, is_sliced, is_masked, is_number, is_searched, takes_call, kind_of_call};

use flt_syntax::Function;
use pk_base::Value;
use pk_fields::ValueKind;

/// What values can be compared with each other.
#[derive(Clone, Copy)]
pub enum Class {
    Number,
    Truth,
    Octets,
    Ip4,
    Ip6,
    Time,
}

/// The class of a kind's values.
pub fn class_of(kind: ValueKind) -> Class
    ensures { result ≡ class_of kind }
{
    match kind {
        ValueKind::Uint(_) => Class::Number,
        ValueKind::Bool => Class::Truth,
        ValueKind::Bytes | ValueKind::Text | ValueKind::Ether | ValueKind::Proto => Class::Octets,
        ValueKind::Ip4 => Class::Ip4,
        ValueKind::Ip6 => Class::Ip6,
        ValueKind::Time => Class::Time,
    }
}

/// Whether the values of two kinds can be compared.
pub fn same_class(left: ValueKind, right: ValueKind) -> bool
    ensures { result ≡ same_class left right }
{
    class_of(left) == class_of(right)
}

/// The kind of a single value. A number has the greatest width, 64.
pub fn kind_of_value(value: &Value) -> ValueKind
    ensures { result ≡ kind_of_value value.now }
{
    match value {
        Value::Uint(_) => ValueKind::Uint(64),
        Value::Bool(_) => ValueKind::Bool,
        Value::Bytes(_) => ValueKind::Bytes,
        Value::Text(_) => ValueKind::Text,
        Value::Ether(_) => ValueKind::Ether,
        Value::Ip4(_) => ValueKind::Ip4,
        Value::Ip6(_) => ValueKind::Ip6,
        Value::Time(_) => ValueKind::Time,
        Value::Proto(_) => ValueKind::Proto,
    }
}

/// Whether the values are true or false, which have no order and no ranges.
pub fn is_truth(kind: ValueKind) -> bool
    ensures { result ≡ is_truth kind }
{
    matches!(kind, ValueKind::Bool)
}

/// Whether the values have a length: those of the class of bytes.
pub fn is_measured(kind: ValueKind) -> bool
    ensures { result ≡ is_measured kind }
{
    class_of(kind) == Class::Octets
}

/// Whether the values have bytes that can be sliced.
pub fn is_sliced(kind: ValueKind) -> bool
    ensures { result ≡ is_sliced kind }
{
    matches!(kind, ValueKind::Ip4 | ValueKind::Ip6) || is_measured(kind)
}

/// Whether the values are numbers, which can be computed with.
pub fn is_number(kind: ValueKind) -> bool
    ensures { result ≡ is_number kind }
{
    matches!(kind, ValueKind::Uint(_))
}

/// Whether the values have bits that can be masked.
pub fn is_masked(kind: ValueKind) -> bool
    ensures { result ≡ is_masked kind }
{
    is_number(kind)
}

/// Whether `matches` searches the values.
pub fn is_searched(kind: ValueKind) -> bool
    ensures { result ≡ is_searched kind }
{
    matches!(kind, ValueKind::Bytes | ValueKind::Text | ValueKind::Proto)
}

/// Whether an argument of this kind can have the function. That `count` asks for a field or protocol is no matter of
/// kinds.
pub fn takes_call(function: Function, kind: ValueKind) -> bool
    ensures { result ≡ takes_call function kind }
{
    match function {
        Function::Len => is_measured(kind),
        Function::Count => true,
        Function::Min | Function::Max => is_number(kind),
        Function::Upper | Function::Lower => matches!(kind, ValueKind::Text),
    }
}

/// The kind of what a function gives.
pub fn kind_of_call(function: Function) -> ValueKind
    ensures { result ≡ kind_of_call function }
{
    match function {
        Function::Len | Function::Count => ValueKind::Uint(32),
        Function::Min | Function::Max => ValueKind::Uint(64),
        Function::Upper | Function::Lower => ValueKind::Text,
    }
}
