// The bytes of a filter's text, and its words.
ghost use Rattle.std.specs.Prelude.{◌≡◌, true, ◌≤◌, ◌<◌, length, IfSome};
ghost use Rattle.std.specs.Bool.{OnTrue};
ghost use Rattle.std.specs.Str.Parse.{digits_value};
ghost use Rattle.flt_syntax.specs.Letters.{is_blank as blank, blanks as blanks_of, is_word_byte as in_word, begins_word as word_begins_in, word_len as len_of_word, digits_len as len_of_digits, is_number as is_of_digits, opening as opening_of};

use pk_base::are_digits;

/// The digits of a number in brackets or behind `#`, at most.
const MOST_DIGITS: usize = 9;

pub fn is_blank(byte: u8) -> bool
    ensures { result ≡ blank byte }
{
    matches!(byte, b' ' | b'\t' | b'\n' | b'\r')
}

/// How many blanks stand in front.
pub fn blanks(bytes: &[u8]) -> usize
    ensures value { result ≡ blanks_of bytes.now }
    ensures within { result ≤ length bytes.now }
{
    for (len, byte) in bytes.iter().enumerate() {
        if !is_blank(*byte) {
            return len;
        }
    }
    bytes.len()
}

pub fn is_word_byte(byte: u8) -> bool
    ensures { result ≡ in_word byte }
{
    byte.is_ascii_alphanumeric() || matches!(byte, b'_' | b'.' | b':' | b'-' | b'/')
}

/// How many bytes the longest run in front has that may be a word.
pub fn word_len(bytes: &[u8]) -> usize
    ensures value { result ≡ len_of_word bytes.now }
    ensures within { result ≤ length bytes.now }
{
    for (len, byte) in bytes.iter().enumerate() {
        if !is_word_byte(*byte) || bytes[len..].starts_with(b"..") {
            return len;
        }
    }
    bytes.len()
}

/// Whether a word stands in front. `-` alone is a sign.
pub fn begins_word(bytes: &[u8]) -> bool
    ensures value { result ≡ word_begins_in bytes.now }
    ensures some { OnTrue result (0 < len_of_word bytes.now) }
{
    let word = &bytes[..word_len(bytes)];
    !word.is_empty() && word != b"-".as_slice()
}

/// How many digits stand in front.
pub fn digits_len(bytes: &[u8]) -> usize
    ensures value { result ≡ len_of_digits bytes.now }
    ensures within { result ≤ length bytes.now }
{
    for (len, byte) in bytes.iter().enumerate() {
        if !byte.is_ascii_digit() {
            return len;
        }
    }
    bytes.len()
}

/// Whether these are one to nine digits.
pub fn is_number(text: &[u8]) -> bool
    ensures { result ≡ is_of_digits text.now }
{
    if text.is_empty() || text.len() > MOST_DIGITS {
        return false;
    }
    are_digits(text)
}

/// How many bytes there are up to and with the `(` that follows, if only blanks stand before it.
pub fn opening(bytes: &[u8]) -> Option<usize>
    ensures value { result ≡ opening_of bytes.now }
    ensures within { IfSome result (λ n. n ≤ length bytes.now) }
{
    let passed = blanks(bytes);
    match bytes.get(passed) {
        Some(b'(') => Some(passed + 1),
        _ => None,
    }
}

/// The number that one to nine digits write.
#[tactic(auto, using(crate::proofs::Numbers::number_fits, crate::proofs::Numbers::number_more))]
pub fn number_of(digits: &[u8]) -> u32
    requires { is_of_digits digits.now ≡ true }
    ensures { result ≡ digits_value 10 digits.now }
{
    let mut number = 0;
    for byte in digits {
        number = number * 10 + u32::from(*byte - b'0');
    }
    number
}
