ghost use Rattle.std.specs.Prelude.{◌≡◌, ℕ, ◌+◌, ◌*◌, ◌≤◌, ◌<◌, ◌^◌, length, IfSome};
ghost use Rattle.pk_text.specs.Digits.{digits_read, short_read, wide};

use crate::number::Wide;

/// The number that digits in a radix write, the highest first; None where there is no digit, or a byte that is none.
#[tactic(auto, unfolding(crate::specs::Digits::digits_read))]
pub fn read_digits(digits: &[u8], radix: u32) -> Option<Wide>
    requires low { 2 ≤ radix }
    requires high { radix ≤ 36 }
    ensures { result ≡ digits_read radix digits.now }
{
    if digits.is_empty() {
        return None;
    }
    let mut number = Wide::Fits(0);
    for byte in digits {
        let digit = char::from(*byte).to_digit(radix)?;
        number = with_digit(number, radix, digit);
    }
    Some(number)
}

/// The number of digits in a radix, the highest first; None where there are more than `most`, no digit, a byte that is
/// none, or the number is beyond 64 bits.
#[tactic(auto, using(crate::proofs::DigitsLemmas::fits_below), unfolding(crate::specs::Digits::short_read))]
pub fn read_short(digits: &[u8], radix: u32, most: usize) -> Option<u64>
    requires low { 2 ≤ radix }
    requires high { radix ≤ 36 }
    ensures value { result ≡ short_read radix most digits.now }
    ensures short { IfSome result (λ _. length digits.now ≤ most) }
    ensures below { IfSome result (λ n. n < radix ^ length digits.now) }
    ensures fits { IfSome result (λ n. n < radix ^ most) }
{
    if digits.len() > most {
        return None;
    }
    match read_digits(digits, radix)? {
        Wide::Fits(n) => Some(n),
        Wide::Beyond => None,
    }
}

/// A number with one more digit at its end.
fn with_digit(number: Wide, radix: u32, digit: u32) -> Wide
    requires { 1 ≤ radix }
    ensures { (n : ℕ) → number ≡ wide n → result ≡ wide (n * radix + digit) }
{
    let Wide::Fits(front) = number else {
        return Wide::Beyond;
    };
    match front
        .checked_mul(u64::from(radix))
        .and_then(|n| n.checked_add(u64::from(digit)))
    {
        Some(n) => Wide::Fits(n),
        None => Wide::Beyond,
    }
}
