// What the literals of filters write.
ghost use Rattle.std.specs.Prelude.{◌≡◌, ◌^◌, nat_lt, IfOk, Some};
ghost use Rattle.std.specs.Option.{option_map};
ghost use Rattle.pk_text.specs.Number.{number_of};
ghost use Rattle.pk_text.specs.Octets.{bytes_of};
ghost use Rattle.pk_base.specs.declared.value.Value.TheVariants as values;
ghost use Rattle.flt_typing.specs.Literals.{true_words, false_words, is_one_of, number_read, number_within, truth_of, prefix_of, leading_read, value_read, bits_of, address_of, address_read, ether_value, word_read, quote_read};

use flt_typed::Constant;
use pk_base::{NoMemory, Octets, Value, are_digits};
use pk_fields::ValueKind;
use pk_text::{Wide, read_bytes, read_ether, read_ip4, read_ip6, read_number, read_time};
use std::alloc::Global;

const TRUE_WORDS: [&str; 4] = ["true", "True", "TRUE", "1"];

const FALSE_WORDS: [&str; 4] = ["false", "False", "FALSE", "0"];

/// What a literal writes as one of a kind.
#[derive(Drop)]
pub enum Reading {
    Reads(Constant),
    /// What is out of its range: a number beyond its width, or a prefix length beyond the address.
    Beyond,
    /// Nothing: its kind doesn't read it.
    Unread,
}

/// Reads a word as a literal of a kind. `prefixed` says that a prefix length may stand behind an address; where none
/// may, an address with one isn't read.
#[tactic(auto, unfolding(crate::specs::Literals::word_read))]
pub fn read_word(
    alloc: Global,
    kind: ValueKind,
    prefixed: bool,
    text: &str,
) -> Result<Reading, NoMemory>
    ensures { IfOk result (λ reading. reading ≡ word_read prefixed kind text.now) }
{
    match kind {
        ValueKind::Uint(width) => Ok(number_read(read_within(width, text))),
        ValueKind::Bool => Ok(value_read(read_truth(text).map(Value::Bool))),
        ValueKind::Bytes => read_octets(alloc, text),
        ValueKind::Text => Ok(Reading::Unread),
        ValueKind::Ether => Ok(value_read(ether_value(text))),
        ValueKind::Ip4 => Ok(read_address(Family::Ip4, prefixed, text)),
        ValueKind::Ip6 => Ok(read_address(Family::Ip6, prefixed, text)),
        ValueKind::Time => Ok(value_read(read_time(text).map(Value::Time))),
        ValueKind::Proto => read_protocol(alloc, text),
    }
}

fn read_octets(alloc: Global, text: &str) -> Result<Reading, NoMemory>
    ensures { IfOk result (λ reading.
        reading ≡ value_read (option_map values.Bytes (bytes_of text.now))) }
{
    let bytes = read_bytes(alloc, text)?;
    Ok(value_read(bytes.map(Value::Bytes)))
}

/// The bytes of a protocol.
fn read_protocol(alloc: Global, text: &str) -> Result<Reading, NoMemory>
    ensures { IfOk result (λ reading.
        reading ≡ value_read (option_map values.Proto (bytes_of text.now))) }
{
    let bytes = read_bytes(alloc, text)?;
    Ok(value_read(bytes.map(Value::Proto)))
}

fn value_read(value: Option<Value>) -> Reading
    ensures { result ≡ value_read value }
{
    match value {
        Some(value) => Reading::Reads(Constant {
            value,
            prefix: None,
            quoted: false,
        }),
        None => Reading::Unread,
    }
}

fn number_read(number: Option<Wide>) -> Reading
    ensures { result ≡ number_read number }
{
    match number {
        None => Reading::Unread,
        Some(Wide::Beyond) => Reading::Beyond,
        Some(Wide::Fits(n)) => value_read(Some(Value::Uint(n))),
    }
}

/// Reads a word as a number, as far as a width has room for it. There is none where the word writes no number.
pub fn read_within(width: u8, text: &str) -> Option<Wide>
    ensures { result ≡ number_within width (number_of text.now) }
{
    match read_number(text) {
        Some(Wide::Fits(n)) if !fits_width(n, width) => Some(Wide::Beyond),
        number => number,
    }
}

#[tactic(auto, using(crate::proofs::LiteralLemmas::wide_fits))]
fn fits_width(n: u64, width: u8) -> bool
    ensures { result ≡ nat_lt n (2 ^ width) }
{
    match 1_u64.checked_shl(u32::from(width)) {
        Some(bound) => n < bound,
        None => true,
    }
}

/// True or false.
#[tactic(auto, unfolding(crate::specs::Literals::truth_of))]
fn read_truth(text: &str) -> Option<bool>
    ensures { result ≡ truth_of text.now }
{
    if is_true_word(text) {
        Some(true)
    } else if is_false_word(text) {
        Some(false)
    } else {
        None
    }
}

fn is_true_word(text: &str) -> bool
    ensures { result ≡ is_one_of true_words text.now }
{
    TRUE_WORDS.iter().any(|word| text == *word)
}

fn is_false_word(text: &str) -> bool
    ensures { result ≡ is_one_of false_words text.now }
{
    FALSE_WORDS.iter().any(|word| text == *word)
}

/// The addresses that may have a prefix length.
#[derive(Clone, Copy)]
enum Family {
    Ip4,
    Ip6,
}

impl Family {
    /// The bits of an address.
    fn bits(self) -> u8
        ensures { result ≡ bits_of self }
    {
        match self {
            Family::Ip4 => 32,
            Family::Ip6 => 128,
        }
    }

    fn read(self, text: &str) -> Option<Value>
        ensures { result ≡ address_of self text.now }
    {
        match self {
            Family::Ip4 => read_ip4(text).map(Value::Ip4),
            Family::Ip6 => read_ip6(text).map(Value::Ip6),
        }
    }
}

fn read_address(family: Family, prefixed: bool, text: &str) -> Reading
    ensures { result ≡ address_read family prefixed text.now }
{
    match text.split_once('/') {
        None => value_read(family.read(text)),
        Some((address, prefix)) if prefixed => {
            leading_read(family.bits(), family.read(address), read_prefix(prefix))
        }
        Some(_) => Reading::Unread,
    }
}

fn ether_value(text: &str) -> Option<Value>
    ensures { result ≡ ether_value text.now }
{
    let address = read_ether(text)?;
    Some(Value::Ether(address))
}

/// The number behind the `/` of a prefix: decimal digits without a leading zero.
#[tactic(auto, unfolding(crate::specs::Literals::prefix_of))]
fn read_prefix(digits: &str) -> Option<Wide>
    ensures { result ≡ prefix_of digits.now }
{
    if are_digits(digits.as_bytes()) {
        read_number(digits)
    } else {
        None
    }
}

/// An address, and a prefix length of at most so many bits.
fn leading_read(most: u8, address: Option<Value>, prefix: Option<Wide>) -> Reading
    ensures { result ≡ leading_read most address prefix }
{
    match address {
        Some(address) => leading_of(most, address, prefix),
        None => Reading::Unread,
    }
}

/// The same of an address that is there.
fn leading_of(most: u8, address: Value, prefix: Option<Wide>) -> Reading
    ensures { result ≡ leading_read most (Some address) prefix }
{
    match prefix {
        Some(Wide::Fits(n)) if n <= u64::from(most) => Reading::Reads(Constant {
            value: address,
            prefix: Some(n as u8),
            quoted: false,
        }),
        Some(_) => given_up(address, Reading::Beyond),
        None => given_up(address, Reading::Unread),
    }
}

/// Gives an address up, so that its destructor is written out once.
fn given_up(_address: Value, reading: Reading) -> Reading
    ensures { result ≡ reading }
{
    reading
}

/// Reads a string as a literal of a kind. Its bytes are shared.
pub fn read_quote(kind: ValueKind, bytes: &Octets) -> Result<Reading, NoMemory>
    ensures { IfOk result (λ reading. reading ≡ quote_read kind bytes.now) }
{
    let bytes = bytes.clone()?;
    let value = match kind {
        ValueKind::Bytes => Value::Bytes(bytes),
        ValueKind::Text => Value::Text(bytes),
        ValueKind::Proto => Value::Proto(bytes),
        _ => return Ok(Reading::Unread),
    };
    Ok(Reading::Reads(Constant {
        value,
        prefix: None,
        quoted: true,
    }))
}
