use crate::octets::Octets;
use std::alloc::AllocError;

/// What an item holds. The variants are those of the fields' kinds.
pub enum Value {
    Uint(u64),
    Bool(bool),
    Bytes(Octets),
    /// Bytes that are shown as text. They need not be UTF-8.
    Text(Octets),
    Ether([u8; 6]),
    Ip4(u32),
    Ip6(u128),
    /// Nanoseconds, since 1970 in UTC or since another frame.
    Time(i128),
    /// The bytes of a protocol's layer.
    Proto(Octets),
}

// The destructor is written out here, and not wherever a value is dropped.
impl Drop for Value {
    fn drop(self) {
        match self {
            Value::Bytes(_bytes) | Value::Text(_bytes) | Value::Proto(_bytes) => (),
            Value::Uint(_)
            | Value::Bool(_)
            | Value::Ether(_)
            | Value::Ip4(_)
            | Value::Ip6(_)
            | Value::Time(_) => (),
        }
    }
}

impl Clone for Value {
    ghost use Rattle.std.specs.Prelude.{◌≡◌};

    ghost is_clone = { λ value copy. copy ≡ value };

    fn clone(&self) -> Result<Value, AllocError> {
        match self {
            Value::Uint(number) => Ok(Value::Uint(*number)),
            Value::Bool(truth) => Ok(Value::Bool(*truth)),
            Value::Bytes(bytes) => Ok(Value::Bytes(bytes.clone()?)),
            Value::Text(bytes) => Ok(Value::Text(bytes.clone()?)),
            Value::Ether(address) => Ok(Value::Ether(*address)),
            Value::Ip4(address) => Ok(Value::Ip4(*address)),
            Value::Ip6(address) => Ok(Value::Ip6(*address)),
            Value::Time(time) => Ok(Value::Time(*time)),
            Value::Proto(bytes) => Ok(Value::Proto(bytes.clone()?)),
        }
    }
}
