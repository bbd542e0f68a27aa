// Storing texts at places of filled memory that has room for them. What is behind a text may change.
ghost use Rattle.std.specs.Prelude.{◌≡◌, ◌+◌, ◌/◌, ◌%◌, ◌*◌, ◌^◌, ◌<◌, ◌≤◌, ◌∷◌, [], decimal, length, take};
ghost use Rattle.pk_text.specs.Places.{Placed};

use itoa::write_digits;
use std::simd::Simd;

/// The digits of a number, at most.
const DIGITS: usize = 20;

#[inline(always)]
pub fn place_byte(room: &mut [u8], at: usize, byte: u8) -> usize
    requires { at < length room.old }
    ensures { Placed room.old room.new at (byte ∷ []) result }
{
    room[at] = byte;
    at + 1
}

/// Stores bytes, and tells where they end. Where their number is known when the program is made, this is a store or two.
#[inline(always)]
pub fn place(room: &mut [u8], at: usize, bytes: &[u8]) -> usize
    requires { at + length bytes.now ≤ length room.old }
    ensures { Placed room.old room.new at bytes.now result }
{
    let len = bytes.len();
    if len > 32 || len == 0 {
        place_all(room, at, bytes)
    } else if len >= 16 {
        place_ends::<16>(room, at, bytes)
    } else if len >= 8 {
        place_ends::<8>(room, at, bytes)
    } else if len >= 4 {
        place_ends::<4>(room, at, bytes)
    } else if len >= 2 {
        place_ends::<2>(room, at, bytes)
    } else {
        place_front::<1>(room, at, bytes)
    }
}

#[inline(always)]
fn place_all(room: &mut [u8], at: usize, bytes: &[u8]) -> usize
    requires { at + length bytes.now ≤ length room.old }
    ensures { Placed room.old room.new at bytes.now result }
{
    let end = at + bytes.len();
    room[at..end].copy_from_slice(bytes);
    end
}

/// Stores the first bytes.
#[inline(always)]
fn place_front<const N: usize>(room: &mut [u8], at: usize, bytes: &[u8]) -> usize
    requires { (N ≤ length bytes.now) × (at + N ≤ length room.old) }
    ensures { Placed room.old room.new at (take N bytes.now) result }
{
    Simd::<u8, N>::from_slice(bytes).copy_to_slice(&mut room[at..]);
    at + N
}

/// Stores the first bytes and the last, over one another.
#[inline(always)]
fn place_ends<const N: usize>(room: &mut [u8], at: usize, bytes: &[u8]) -> usize
    requires fits { at + length bytes.now ≤ length room.old }
    requires covers { (N ≤ length bytes.now) × (length bytes.now ≤ N + N) }
    ensures { Placed room.old room.new at bytes.now result }
{
    let last = bytes.len() - N;
    place_front::<N>(room, at, bytes);
    place_front::<N>(room, at + last, &bytes[last..])
}

/// Stores a number in decimal.
#[inline(always)]
pub fn place_number(room: &mut [u8], at: usize, number: u64) -> usize
    requires { at + 20 ≤ length room.old }
    ensures text { Placed room.old room.new at (decimal number) result }
    ensures short { result ≤ at + 20 }
{
    if number < 1000 {
        place_small(room, at, number)
    } else {
        place_long(room, at, number)
    }
}

/// Stores a number of at most three digits.
#[inline(always)]
pub(crate) fn place_small(room: &mut [u8], at: usize, number: u64) -> usize
    requires room { at + 3 ≤ length room.old }
    requires small { number < 1000 }
    ensures text { Placed room.old room.new at (decimal number) result }
    ensures short { result ≤ at + 3 }
{
    if number < 10 {
        place_byte(room, at, b'0' + number as u8)
    } else if number < 100 {
        place_two(room, at, number)
    } else {
        place_three(room, at, number)
    }
}

#[inline(always)]
fn place_three(room: &mut [u8], at: usize, number: u64) -> usize
    requires room { at + 3 ≤ length room.old }
    requires three { (100 ≤ number) × (number < 1000) }
    ensures { Placed room.old room.new at (decimal number) result }
{
    let at = place_two(room, at, number / 10);
    place_byte(room, at, b'0' + (number % 10) as u8)
}

#[inline(always)]
fn place_two(room: &mut [u8], at: usize, number: u64) -> usize
    requires room { at + 2 ≤ length room.old }
    requires two { (10 ≤ number) × (number < 100) }
    ensures { Placed room.old room.new at (decimal number) result }
{
    let at = place_byte(room, at, b'0' + (number / 10) as u8);
    place_byte(room, at, b'0' + (number % 10) as u8)
}

#[inline(never)]
fn place_long(room: &mut [u8], at: usize, number: u64) -> usize
    requires { at + 20 ≤ length room.old }
    ensures { Placed room.old room.new at (decimal number) result }
{
    let mut digits = [0; DIGITS];
    let start = write_digits(number, &mut digits, DIGITS);
    place(room, at, &digits[start..])
}
