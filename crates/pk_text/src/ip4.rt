ghost use Rattle.std.specs.Prelude.{◌≡◌, ℕ, ◌+◌, ◌^◌, ◌<◌, ◌≤◌, ◌++◌, codes, decimal, length, IfOk, IfSome, OnOk};
ghost use Rattle.std.specs.String.{string_bytes};
ghost use Rattle.pk_text.specs.Places.{Placed};
ghost use Rattle.pk_text.specs.Ip4.{address_of, ip4_of, ip4_shown, part_read};

use crate::digits::read_short;
use crate::places::{place_byte, place_small};
use crate::puts::TextSink;
use pk_base::NoMemory;
use std::alloc::Global;

/// The bytes of an address's text, at most.
const TEXT_LEN: usize = 15;

/// The digits of a number from 0 to 255, at most.
const PART_DIGITS: usize = 3;

/// An IPv4 address as four decimal numbers, joined by `.`.
#[tactic(auto, using(crate::proofs::Ip4Lemmas::ip4_from_shown))]
pub fn ip4_text(alloc: Global, v: u32) -> Result<String, NoMemory>
    ensures text { IfOk result (λ text. string_bytes text ≡ ip4_shown v) }
    ensures reads_back { IfOk result (λ text. ip4_of (string_bytes text) ≡ Some v) }
{
    let mut text = String::with_capacity(alloc, TEXT_LEN)?;
    put_ip4(&mut text, v)?;
    Ok(text)
}

/// Appends an IPv4 address as four decimal numbers, joined by `.`.
#[tactic(auto, using(crate::proofs::Ip4Lemmas::ip4_ascii))]
pub fn put_ip4<S: TextSink>(sink: &mut S, address: u32) -> Result<(), NoMemory>
    ensures { OnOk result (S.taken sink.new ≡ S.taken sink.old ++ ip4_shown address) }
{
    let mut text = [0; TEXT_LEN];
    let end = place_address(&mut text, address);
    sink.put_digits(&text[..end])
}

/// Stores an address at the front of a room, and tells where it ends.
#[tactic(auto, unfolding(crate::specs::Ip4::ip4_shown))]
fn place_address(room: &mut [u8], address: u32) -> usize
    requires { 15 ≤ length room.old }
    ensures text { Placed room.old room.new 0 (ip4_shown address) result }
    ensures short { result ≤ 15 }
{
    let [a, b, c, d] = address.to_be_bytes();
    let at = place_small(room, 0, u64::from(a));
    let at = place_part(room, at, b);
    let at = place_part(room, at, c);
    place_part(room, at, d)
}

#[inline(always)]
fn place_part(room: &mut [u8], at: usize, part: u8) -> usize
    requires { at + 4 ≤ length room.old }
    ensures text { Placed room.old room.new at (codes "." ++ decimal part) result }
    ensures short { result ≤ at + 4 }
{
    let at = place_byte(room, at, b'.');
    place_small(room, at, u64::from(part))
}

/// Reads an IPv4 address: four decimal numbers from 0 to 255 without leading zeros, joined by `.`.
#[tactic(auto, using(crate::proofs::Ip4Lemmas::ip4_found, crate::proofs::Ip4Lemmas::ip4_only))]
pub fn read_ip4(text: &str) -> Option<u32>
    ensures computed { result ≡ ip4_of text.now }
    ensures found { (v : ℕ) → v < 2 ^ 32 → text.now ≡ ip4_shown v → result ≡ Some v }
    ensures only { IfSome result (λ v. text.now ≡ ip4_shown v) }
{
    ip4_in(text)
}

#[tactic(auto, unfolding(crate::specs::Ip4::ip4_of))]
fn ip4_in(text: &str) -> Option<u32>
    ensures { result ≡ ip4_of text.now }
{
    let (first, rest) = text.split_once('.')?;
    let (second, rest) = rest.split_once('.')?;
    let (third, fourth) = rest.split_once('.')?;
    address_of(first, second, third, fourth)
}

/// The address of four numbers.
fn address_of(first: &str, second: &str, third: &str, fourth: &str) -> Option<u32>
    ensures { result ≡ address_of first.now second.now third.now fourth.now }
{
    Some(u32::from_be_bytes([
        read_part(first)?,
        read_part(second)?,
        read_part(third)?,
        read_part(fourth)?,
    ]))
}

/// A decimal number from 0 to 255, without a leading zero.
#[tactic(auto, unfolding(crate::specs::Ip4::part_read))]
fn read_part(digits: &str) -> Option<u8>
    ensures { result ≡ part_read digits.now }
{
    let digits = digits.as_bytes();
    if digits.len() > 1 && digits[0] == b'0' {
        return None;
    }
    u8::try_from(read_short(digits, 10, PART_DIGITS)?).ok()
}
