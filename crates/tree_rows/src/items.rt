use pk_base::{Octets, Span, Value};
use pk_fields::name;
use pk_tree::{Item, Place};
use std::alloc::{AllocError, Global};
use std::fmt::Display;

/// Of which items the bytes' place is printed too, as `@start+length`, with the buffer's number before it where that isn't 0.
#[derive(Clone, Copy)]
pub enum Places {
    Hidden,
    /// Of those whose value was computed from bytes.
    Derived,
    /// Of those whose value stands in bytes.
    Read,
}

/// Adds an item: ` field=value`.
pub(crate) fn push_item(text: &mut String, item: &Item, places: Places) -> Result<(), AllocError> {
    write!(text, " {}", name(item.field))?;
    push_value(text, &item.value)?;
    match (places, item.place) {
        (Places::Derived, Place::Derived(span)) | (Places::Read, Place::Read(span)) => {
            push_place(text, span)
        }
        _ => Ok(()),
    }
}

fn push_place(text: &mut String, span: Span) -> Result<(), AllocError> {
    if span.buffer == 0 {
        write!(text, "@{}+{}", span.start, span.len)
    } else {
        write!(text, "@{}:{}+{}", span.buffer, span.start, span.len)
    }
}

/// A value behind its `=`: numbers in decimal, IPv4 addresses with points, IPv6 addresses as a number in hexadecimal, texts
/// as they are, all other bytes as a list.
pub fn value_text(alloc: Global, value: &Value) -> Result<String, AllocError> {
    let mut text = String::new(alloc);
    push_value(&mut text, value)?;
    Ok(text)
}

fn push_value(text: &mut String, value: &Value) -> Result<(), AllocError> {
    match value {
        Value::Uint(number) => push_shown(text, *number),
        Value::Bool(truth) => push_shown(text, *truth),
        Value::Time(time) => push_shown(text, *time),
        Value::Ip4(address) => push_ip4(text, *address),
        Value::Ip6(address) => push_ip6(text, *address),
        Value::Ether(address) => push_list(text, address),
        Value::Text(bytes) => push_text(text, bytes),
        Value::Bytes(bytes) | Value::Proto(bytes) => push_list(text, bytes.bytes()),
    }
}

fn push_shown<T: Display + Copy>(text: &mut String, value: T) -> Result<(), AllocError> {
    write!(text, "={value}")
}

fn push_ip4(text: &mut String, address: u32) -> Result<(), AllocError> {
    let [a, b, c, d] = address.to_be_bytes();
    write!(text, "={a}.{b}.{c}.{d}")
}

fn push_ip6(text: &mut String, address: u128) -> Result<(), AllocError> {
    write!(text, "={address:x}")
}

fn push_text(text: &mut String, bytes: &Octets) -> Result<(), AllocError> {
    match str::from_utf8(bytes.bytes()) {
        Ok(shown) => push_shown(text, shown),
        Err(_) => push_list(text, bytes.bytes()),
    }
}

fn push_list(text: &mut String, bytes: &[u8]) -> Result<(), AllocError> {
    write!(text, "={bytes:?}")
}
