ghost use Rattle.std.specs.Prelude.{◌≡◌, ◌∷◌, ◌+◌, ◌-◌, ◌/◌, ◌%◌, ◌^◌, ◌<◌, ◌≤◌, ◌++◌, decimal, replicate, IfOk, IfSome, OnOk};
ghost use Rattle.std.specs.String.{string_bytes};
ghost use Rattle.std.specs.Fmt.{sign_text};
ghost use Rattle.pk_text.specs.Time.{TimeForm, IsTimeForm, decimal_in, time_form_text, time_form_value, time_of, time_shown, whole_seconds, size_read, seconds_read, fraction_read};

use crate::digits::read_short;
use crate::puts::{TextSink, put_number};
use itoa::Buffer;
use pk_base::NoMemory;
use std::alloc::Global;

/// The nanoseconds of a second.
const SECOND: u128 = 1_000_000_000;

const SHORT_SECOND: u64 = 1_000_000_000;

/// The bytes of a time's text, at most: a sign, 30 digits of whole seconds, a point and nine digits.
const TEXT_LEN: usize = 41;

/// The digits of a second's fraction, and those of whole seconds that are read.
const FRACTION_DIGITS: usize = 9;

const WHOLE_DIGITS: usize = 18;

/// A time in nanoseconds as seconds: `-` if it is negative, the whole seconds, a point and nine digits.
#[tactic(auto, using(crate::proofs::TimeLemmas::time_from_shown))]
pub fn time_text(alloc: Global, ns: i128) -> Result<String, NoMemory>
    ensures text { IfOk result (λ text. string_bytes text ≡ time_shown ns) }
    // Whole seconds of at most 18 digits are read back.
    ensures reads_back { whole_seconds ns < 10 ^ 18
        → IfOk result (λ text. time_of (string_bytes text) ≡ Some ns) }
{
    let mut text = String::with_capacity(alloc, TEXT_LEN)?;
    put_time(&mut text, ns)?;
    Ok(text)
}

/// Appends that text of a time.
#[tactic(auto, unfolding(crate::specs::Time::time_shown))]
pub fn put_time<S: TextSink>(sink: &mut S, time: i128) -> Result<(), NoMemory>
    ensures { OnOk result (S.taken sink.new ≡ S.taken sink.old ++ time_shown time) }
{
    put_sign(sink, time < 0)?;
    put_size(sink, time.unsigned_abs())
}

/// Appends a time without its sign.
fn put_size<S: TextSink>(sink: &mut S, size: u128) -> Result<(), NoMemory>
    ensures { OnOk result (S.taken sink.new ≡ S.taken sink.old
        ++ (decimal (size / 10 ^ 9) ++ (46 ∷ decimal_in 9 (size % 10 ^ 9)))) }
{
    match u64::try_from(size) {
        Ok(size) => put_short_size(sink, size),
        Err(_) => put_long_size(sink, size),
    }
}

/// Most times have 64 bits, which are divided at once.
#[inline(always)]
fn put_short_size<S: TextSink>(sink: &mut S, size: u64) -> Result<(), NoMemory>
    ensures { OnOk result (S.taken sink.new ≡ S.taken sink.old
        ++ (decimal (size / 10 ^ 9) ++ (46 ∷ decimal_in 9 (size % 10 ^ 9)))) }
{
    put_number(sink, size / SHORT_SECOND)?;
    sink.put_ascii(b'.')?;
    put_fraction(sink, (size % SHORT_SECOND) as u32)
}

#[cold]
#[inline(never)]
fn put_long_size<S: TextSink>(sink: &mut S, size: u128) -> Result<(), NoMemory>
    ensures { OnOk result (S.taken sink.new ≡ S.taken sink.old
        ++ (decimal (size / 10 ^ 9) ++ (46 ∷ decimal_in 9 (size % 10 ^ 9)))) }
{
    let mut buffer = Buffer::new();
    sink.put_text(buffer.format(size / SECOND))?;
    sink.put_ascii(b'.')?;
    put_fraction(sink, (size % SECOND) as u32)
}

fn put_sign<S: TextSink>(sink: &mut S, negative: bool) -> Result<(), NoMemory>
    ensures { OnOk result (S.taken sink.new ≡ S.taken sink.old ++ sign_text negative) }
{
    if negative {
        sink.put_ascii(b'-')
    } else {
        Ok(())
    }
}

fn put_fraction<S: TextSink>(sink: &mut S, nanoseconds: u32) -> Result<(), NoMemory>
    ensures { OnOk result (S.taken sink.new ≡ S.taken sink.old ++ decimal_in 9 nanoseconds) }
{
    let mut buffer = Buffer::new();
    let digits = buffer.format(nanoseconds);
    put_zeros(sink, FRACTION_DIGITS.saturating_sub(digits.len()))?;
    sink.put_text(digits)
}

fn put_zeros<S: TextSink>(sink: &mut S, count: usize) -> Result<(), NoMemory>
    ensures { OnOk result (S.taken sink.new ≡ S.taken sink.old ++ replicate count 48) }
{
    for _ in 0..count {
        sink.put_ascii(b'0')?;
    }
    Ok(())
}

/// Reads a time in seconds as nanoseconds: `-` or nothing, 1 to 18 digits, then nothing or a point and 1 to 9 digits.
#[tactic(auto, using(crate::proofs::TimeLemmas::time_found, crate::proofs::TimeLemmas::time_only))]
pub fn read_time(text: &str) -> Option<i128>
    ensures computed { result ≡ time_of text.now }
    ensures found { (f : TimeForm) → IsTimeForm f → text.now ≡ time_form_text f
        → result ≡ Some (time_form_value f) }
    ensures only { IfSome result (λ time. (f : TimeForm) × IsTimeForm f
        × (text.now ≡ time_form_text f) × (time ≡ time_form_value f)) }
{
    time_in(text)
}

#[tactic(auto, using(crate::proofs::TimeLemmas::no_minus), unfolding(crate::specs::Time::time_of))]
fn time_in(text: &str) -> Option<i128>
    ensures { result ≡ time_of text.now }
{
    match text.strip_prefix('-') {
        Some(size) => Some(-(read_size(size)? as i128)),
        None => Some(read_size(text)? as i128),
    }
}

/// The nanoseconds of a time without a sign.
#[tactic(auto, unfolding(crate::specs::Time::size_read))]
fn read_size(text: &str) -> Option<u128>
    ensures value { result ≡ size_read text.now }
    ensures below { IfSome result (λ n. n < 10 ^ 27) }
{
    match text.split_once('.') {
        Some((whole, fraction)) => Some(read_seconds(whole)? + read_fraction(fraction)?),
        None => read_seconds(text),
    }
}

#[tactic(auto, unfolding(crate::specs::Time::seconds_read))]
fn read_seconds(digits: &str) -> Option<u128>
    ensures value { result ≡ seconds_read digits.now }
    ensures below { IfSome result (λ n. n + 10 ^ 9 ≤ 10 ^ 27) }
{
    let seconds = read_short(digits.as_bytes(), 10, WHOLE_DIGITS)?;
    Some(u128::from(seconds) * SECOND)
}

#[tactic(auto, using(crate::proofs::TimeLemmas::scaled_below), unfolding(crate::specs::Time::fraction_read))]
fn read_fraction(digits: &str) -> Option<u128>
    ensures value { result ≡ fraction_read digits.now }
    ensures below { IfSome result (λ n. n < 10 ^ 9) }
{
    let digits = digits.as_bytes();
    let number = read_short(digits, 10, FRACTION_DIGITS)?;
    let missing = (FRACTION_DIGITS - digits.len()) as u32;
    Some(u128::from(number * 10_u64.pow(missing)))
}
