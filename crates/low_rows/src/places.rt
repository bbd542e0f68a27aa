//! What stands where in bytes.
//!
//! | Row | What it says |
//! |---|---|
//! | `4500003c1c464000 16 16 -> 60` | bytes, a first bit and a width, and the number that they have |
//! | `189 00f15365 02000000` | a place in the capture that is made from 42, of six frames, and the fields from there on |
//! | `end 493` | how long that capture is: 24 + 6 * 16 + 67 + 66 + 42 + 57 + 59 + 82 |
//!
//! From 42 the first words are A15C02B7, 7B47F409, BA1D3330, 83D2F293, BFA4784B, CBED606E. The first draws client 2 and 13 bytes of its
//! request, the third an ARP request of client 51, the sixth the answer to client 32.
use crate::texts::are_hex;
use capture_write::make;
use pk_base::{NoMemory, be_bits};
use std::alloc::Global;

fn bits_are(bytes: &[u8; 8], first: usize, width: u32, told: &str) -> Option<bool> {
    if first > 63 || width == 0 || width > 64 || first + width as usize > 64 {
        return None;
    }
    Some(told.parse() == Ok(be_bits(bytes, first, width)))
}

pub(crate) fn are_bits(row: &str) -> Option<bool> {
    let (left, told) = row.split_once(" -> ")?;
    let (digits, place) = left.split_once(' ')?;
    let (first, width) = place.split_once(' ')?;
    let bytes = u64::from_str_radix(digits, 16).ok()?.to_be_bytes();
    bits_are(&bytes, first.parse().ok()?, width.parse().ok()?, told)
}

/// Whether bytes begin with these fields in hexadecimal digits.
fn begins(bytes: &[u8], fields: &str) -> bool {
    let mut rest = bytes;
    for field in fields.split_whitespace() {
        match rest.split_at_checked(field.len() / 2) {
            Some((front, behind)) if are_hex(front, field) => rest = behind,
            _ => return false,
        }
    }
    !fields.is_empty()
}

fn has_part(file: &[u8], row: &str) -> Option<bool> {
    let (start, fields) = row.split_once(' ')?;
    if start == "end" {
        return Some(fields.parse() == Ok(file.len()));
    }
    Some(begins(file.get(start.parse::<usize>().ok()?..)?, fields))
}

pub(crate) fn is_made(alloc: Global, row: &str) -> Result<bool, NoMemory> {
    let made = make(alloc, 42, 6)?;
    Ok(has_part(made.bytes(), row) == Some(true))
}
