// Numbers in values.
ghost use Rattle.std.specs.Prelude.{◌≡◌, ◌<◌, ◌≤◌, length, IfSome, option_and_then};
ghost use Rattle.shark_words.specs.Keys.{behind_name};
ghost use Rattle.shark_words.specs.Numbers.{at_most as at_most_of, comma_in as comma_place, decimal_of, up_to as up_to_most};

use crate::key::strip_name;
use pk_text::{Wide, read_digits};

/// A number in decimal digits without a leading zero, `0` itself aside.
#[tactic(auto, unfolding(crate::specs::Numbers::decimal_of))]
pub(crate) fn read_decimal(text: &[u8]) -> Option<u64>
    ensures { result ≡ decimal_of text.now }
{
    if let [b'0', _, ..] = text {
        return None;
    }
    match read_digits(text, 10)? {
        Wide::Fits(number) => Some(number),
        Wide::Beyond => None,
    }
}

fn at_most(most: u64, number: u64) -> Option<u64>
    ensures { result ≡ at_most_of most number }
{
    if number <= most { Some(number) } else { None }
}

/// The number behind a name, where it is no greater than another.
pub(crate) fn number_behind(name: &[u8], most: u64, text: &[u8]) -> Option<u64>
    ensures number { result ≡ option_and_then (at_most_of most)
        (option_and_then decimal_of (behind_name name.now text.now)) }
    ensures inside { IfSome result (λ number. number ≤ most) }
{
    let digits = strip_name(name, text)?;
    at_most(most, read_decimal(digits)?)
}

// A number from 1 on that is no greater than another.
fn up_to(most: u32, number: u64) -> Option<u32>
    ensures { result ≡ up_to_most most number }
{
    if number > 0 && number <= u64::from(most) {
        Some(number as u32)
    } else {
        None
    }
}

/// A number from 1 on that is no greater than another, in decimal digits without a leading zero.
pub(crate) fn read_up_to(most: u32, text: &[u8]) -> Option<u32>
    ensures { result ≡ option_and_then (up_to_most most) (decimal_of text.now) }
{
    up_to(most, read_decimal(text)?)
}

/// The place of the first comma.
pub(crate) fn comma_in(text: &[u8]) -> Option<usize>
    ensures place { result ≡ comma_place text.now }
    ensures inside { IfSome result (λ at. at < length text.now) }
{
    text.iter().position(|byte| *byte == b',')
}
