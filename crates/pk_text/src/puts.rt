// What the texts of values are appended to, and the texts that several values share.
ghost use Rattle.std.specs.Prelude.{◌≡◌, ℕ, ◌<◌, ◌++◌, List, [], ◌∷◌, decimal, false, OnOk, All, length, ◌/◌, ◌%◌};
ghost use Rattle.std.specs.Fmt.{digit_glyph};
ghost use Rattle.pk_text.specs.Digits.{hex_pair, hex_shown};

use crate::hex::{BLOCK, block_digits};
use crate::places::place_small;
use itoa::Buffer;
use pk_base::NoMemory;

const HEX_DIGITS: &[u8; 16] = b"0123456789abcdef";

/// Takes texts, and keeps their bytes in the order in which they came. After an error a front of the text may be taken.
pub trait TextSink {
    /// The bytes taken so far.
    ghost taken: { Self → List ℕ };

    /// Appends a text.
    fn put_text(&mut self, text: &str) -> Result<(), NoMemory>
        ensures { OnOk result (taken self.new ≡ taken self.old ++ text.now) };

    /// Appends a character of ASCII.
    fn put_ascii(&mut self, character: u8) -> Result<(), NoMemory>
        requires { character < 128 }
        ensures { OnOk result (taken self.new ≡ taken self.old ++ (character ∷ [])) };

    /// Appends characters of ASCII, as digits are.
    fn put_digits(&mut self, digits: &[u8]) -> Result<(), NoMemory>
        requires { All (λ digit. digit < 128) digits.now }
        ensures { OnOk result (taken self.new ≡ taken self.old ++ digits.now) };
}

impl TextSink for Vec<u8> {
    ghost taken = { λ s. s.items };

    fn put_text(&mut self, text: &str) -> Result<(), NoMemory> {
        self.extend_from_slice(text.as_bytes())?;
        Ok(())
    }

    fn put_ascii(&mut self, character: u8) -> Result<(), NoMemory> {
        self.push(character)?;
        Ok(())
    }

    fn put_digits(&mut self, digits: &[u8]) -> Result<(), NoMemory> {
        self.extend_from_slice(digits)?;
        Ok(())
    }
}

impl TextSink for String {
    ghost use Rattle.std.specs.String.{string_bytes};

    ghost taken = { string_bytes };

    fn put_text(&mut self, text: &str) -> Result<(), NoMemory> {
        self.push_str(text)?;
        Ok(())
    }

    fn put_ascii(&mut self, character: u8) -> Result<(), NoMemory> {
        self.push(char::from(character))?;
        Ok(())
    }

    fn put_digits(&mut self, digits: &[u8]) -> Result<(), NoMemory> {
        for digit in digits {
            self.push(char::from(*digit))?;
        }
        Ok(())
    }
}

/// Appends a number in decimal.
#[inline(always)]
#[tactic(auto, using(std::proofs::lemmas::Fmt::decimal_digit))]
pub fn put_number<S: TextSink>(sink: &mut S, number: u64) -> Result<(), NoMemory>
    ensures { OnOk result (S.taken sink.new ≡ S.taken sink.old ++ decimal number) }
{
    if number < 10 {
        sink.put_ascii(b'0' + number as u8)
    } else if number < 1000 {
        put_small(sink, number)
    } else {
        put_digits_of(sink, number)
    }
}

/// Appends a number of at most three digits.
#[tactic(auto, using(crate::proofs::DigitsLemmas::decimal_ascii))]
fn put_small<S: TextSink>(sink: &mut S, number: u64) -> Result<(), NoMemory>
    requires { number < 1000 }
    ensures { OnOk result (S.taken sink.new ≡ S.taken sink.old ++ decimal number) }
{
    let mut digits = [0; 3];
    let end = place_small(&mut digits, 0, number);
    sink.put_digits(&digits[..end])
}

/// Appends a number in decimal, whatever number of digits it has.
#[inline(never)]
fn put_digits_of<S: TextSink>(sink: &mut S, number: u64) -> Result<(), NoMemory>
    ensures { OnOk result (S.taken sink.new ≡ S.taken sink.old ++ decimal number) }
{
    let mut buffer = Buffer::new();
    sink.put_text(buffer.format(number))
}

/// Appends bytes in hexadecimal, two lower-case digits for each.
#[tactic(auto, unfolding(crate::specs::Digits::hex_shown))]
pub fn put_hex<S: TextSink>(sink: &mut S, bytes: &[u8]) -> Result<(), NoMemory>
    ensures { OnOk result (S.taken sink.new ≡ S.taken sink.old ++ hex_shown bytes.now) }
{
    let mut left = bytes;
    while left.len() >= BLOCK {
        let (block, more) = left.split_at(BLOCK);
        sink.put_digits(&block_digits(block))?;
        left = more;
    }
    put_few(sink, left)
}

/// Appends bytes that are less than a block.
#[tactic(auto, unfolding(crate::specs::Digits::hex_shown))]
fn put_few<S: TextSink>(sink: &mut S, bytes: &[u8]) -> Result<(), NoMemory>
    ensures { OnOk result (S.taken sink.new ≡ S.taken sink.old ++ hex_shown bytes.now) }
{
    let mut left = bytes;
    while left.len() >= 4 {
        let (four, more) = left.split_at(4);
        put_four(sink, four)?;
        left = more;
    }
    put_pairs(sink, left)
}

/// Appends bytes one by one.
#[tactic(auto, unfolding(crate::specs::Digits::hex_shown))]
fn put_pairs<S: TextSink>(sink: &mut S, bytes: &[u8]) -> Result<(), NoMemory>
    ensures { OnOk result (S.taken sink.new ≡ S.taken sink.old ++ hex_shown bytes.now) }
{
    for byte in bytes {
        put_pair(sink, *byte)?;
    }
    Ok(())
}

/// Appends four bytes at once: a look for room costs as much as the digits do.
#[tactic(auto, unfolding(crate::specs::Digits::hex_shown))]
fn put_four<S: TextSink>(sink: &mut S, four: &[u8]) -> Result<(), NoMemory>
    requires { length four.now ≡ 4 }
    ensures { OnOk result (S.taken sink.new ≡ S.taken sink.old ++ hex_shown four.now) }
{
    sink.put_digits(&[
        high_digit(four[0]),
        low_digit(four[0]),
        high_digit(four[1]),
        low_digit(four[1]),
        high_digit(four[2]),
        low_digit(four[2]),
        high_digit(four[3]),
        low_digit(four[3]),
    ])
}

/// Appends a byte as two lower-case hexadecimal digits.
#[inline(always)]
pub(crate) fn put_pair<S: TextSink>(sink: &mut S, byte: u8) -> Result<(), NoMemory>
    ensures { OnOk result (S.taken sink.new ≡ S.taken sink.old ++ hex_pair byte) }
{
    sink.put_digits(&[high_digit(byte), low_digit(byte)])
}

pub(crate) fn high_digit(byte: u8) -> u8
    ensures value { result ≡ digit_glyph false (byte / 16) }
    ensures ascii { result < 128 }
{
    hex_digit(byte / 16)
}

pub(crate) fn low_digit(byte: u8) -> u8
    ensures value { result ≡ digit_glyph false (byte % 16) }
    ensures ascii { result < 128 }
{
    hex_digit(byte % 16)
}

fn hex_digit(digit: u8) -> u8
    requires { digit < 16 }
    ensures value { result ≡ digit_glyph false digit }
    ensures ascii { result < 128 }
{
    HEX_DIGITS[digit as usize]
}
