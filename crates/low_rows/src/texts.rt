//! Texts from outside: the examples of the standards, limits, and texts that no grammar has.
//!
//! A row of what is read is a text, ` -> `, and its value, or `none` (of a number past the limit `beyond`). A row of what is written, or
//! escaped, is a value, ` -> `, and its text. Numbers and nanoseconds are decimal, addresses and bytes hexadecimal.
use pk_base::NoMemory;
use pk_text::{
    Wide, escape_text, ether_text, ip4_text, ip6_text, number_text, read_bytes, read_ether,
    read_ip4, read_ip6, read_number, read_time, time_text,
};
use std::alloc::Global;

/// Whether bytes are these hexadecimal digits.
pub(crate) fn are_hex(bytes: &[u8], digits: &str) -> bool {
    let mut number = 0u128;
    for byte in bytes {
        number = number.wrapping_mul(256).wrapping_add(u128::from(*byte));
    }
    digits.len() / 2 == bytes.len() && u128::from_str_radix(digits, 16) == Ok(number)
}

fn is_number(found: Option<Wide>, want: &str) -> bool {
    match found {
        Some(Wide::Fits(number)) => want.parse() == Ok(number),
        Some(Wide::Beyond) => want == "beyond",
        None => want == "none",
    }
}

fn is_time(found: Option<i128>, want: &str) -> bool {
    match found {
        Some(time) => want.parse() == Ok(time),
        None => want == "none",
    }
}

fn is_ether(found: Option<[u8; 6]>, want: &str) -> bool {
    match found {
        Some(address) => are_hex(&address, want),
        None => want == "none",
    }
}

fn is_ip4(found: Option<u32>, want: &str) -> bool {
    match found {
        Some(address) => are_hex(&address.to_be_bytes(), want),
        None => want == "none",
    }
}

fn is_ip6(found: Option<u128>, want: &str) -> bool {
    match found {
        Some(address) => are_hex(&address.to_be_bytes(), want),
        None => want == "none",
    }
}

fn are_bytes(alloc: Global, text: &str, want: &str) -> Result<bool, NoMemory> {
    match read_bytes(alloc, text)? {
        Some(bytes) => Ok(are_hex(bytes.bytes(), want)),
        None => Ok(want == "none"),
    }
}

fn is_read(alloc: Global, kind: &str, text: &str, want: &str) -> Result<bool, NoMemory> {
    match kind {
        "number" => Ok(is_number(read_number(text), want)),
        "time" => Ok(is_time(read_time(text), want)),
        "ether" => Ok(is_ether(read_ether(text), want)),
        "ip4" => Ok(is_ip4(read_ip4(text), want)),
        "ip6" => Ok(is_ip6(read_ip6(text), want)),
        "bytes" => are_bytes(alloc, text, want),
        _ => Ok(false),
    }
}

fn is_text(text: Result<String, NoMemory>, want: &str) -> Result<bool, NoMemory> {
    let text = text?;
    Ok(text.as_str() == want)
}

fn is_ip4_text(alloc: Global, address: u128, want: &str) -> Result<bool, NoMemory> {
    match u32::try_from(address).ok() {
        Some(address) => is_text(ip4_text(alloc, address), want),
        None => Ok(false),
    }
}

fn is_ether_text(alloc: Global, address: u128, want: &str) -> Result<bool, NoMemory> {
    match address.to_be_bytes() {
        [0, 0, 0, 0, 0, 0, 0, 0, 0, 0, a, b, c, d, e, f] => {
            is_text(ether_text(alloc, [a, b, c, d, e, f]), want)
        }
        _ => Ok(false),
    }
}

fn is_address_text(alloc: Global, kind: &str, address: u128, want: &str) -> Result<bool, NoMemory> {
    match kind {
        "ether" => is_ether_text(alloc, address, want),
        "ip4" => is_ip4_text(alloc, address, want),
        "ip6" => is_text(ip6_text(alloc, address), want),
        _ => Ok(false),
    }
}

/// Whether a number is written so. One that can't be read isn't.
fn is_written(alloc: Global, kind: &str, digits: &str, want: &str) -> Result<bool, NoMemory> {
    match kind {
        "number" => match digits.parse() {
            Ok(number) => is_text(number_text(alloc, number), want),
            Err(_) => Ok(false),
        },
        "time" => match digits.parse() {
            Ok(time) => is_text(time_text(alloc, time), want),
            Err(_) => Ok(false),
        },
        _ => match u128::from_str_radix(digits, 16) {
            Ok(address) => is_address_text(alloc, kind, address, want),
            Err(_) => Ok(false),
        },
    }
}

/// Whether a row of a table holds; the table's check says which kind of values it has, and whether they are written.
pub(crate) fn row_holds(alloc: Global, check: &str, row: &str) -> Result<bool, NoMemory> {
    let (left, right) = row.split_once(" -> ").unwrap_or((row, ""));
    match check.strip_prefix("written ") {
        Some(kind) => is_written(alloc, kind, left, right),
        None => is_read(alloc, check, left, right),
    }
}

/// Whether bytes, in hexadecimal digits, are escaped so.
pub(crate) fn is_escaped(alloc: Global, row: &str) -> Result<bool, NoMemory> {
    let (digits, told) = row.split_once(" -> ").ok_or(NoMemory)?;
    match hex::decode(alloc, digits) {
        Ok(bytes) => is_text(escape_text(alloc, &bytes), told),
        Err(_) => Ok(false),
    }
}
