ghost use Rattle.std.specs.Prelude.{◌≡◌, IfOk, IfSome};
ghost use Rattle.std.specs.String.{string_bytes};
ghost use Rattle.std.specs.Fmt.{decimal};
ghost use Rattle.pk_text.specs.Number.{NumberForm, IsNumberForm, number_form_text, number_form_value, number_of};
ghost use Rattle.pk_text.specs.Digits.{wide};

use crate::digits::read_digits;
use crate::puts::put_number;
use pk_base::NoMemory;
use std::alloc::Global;

/// The bytes of a number's text, at most.
const TEXT_LEN: usize = 20;

/// A number that a text writes, as far as it fits 64 bits.
#[derive(Clone, Copy)]
pub enum Wide {
    /// A number below 2^64.
    Fits(u64),
    /// A greater one.
    Beyond,
}

/// A number in decimal digits.
#[tactic(auto, using(crate::proofs::NumberLemmas::number_from_decimal))]
pub fn number_text(alloc: Global, n: u64) -> Result<String, NoMemory>
    ensures text { IfOk result (λ text. string_bytes text ≡ decimal n) }
    ensures reads_back { IfOk result (λ text. number_of (string_bytes text) ≡ Some (Wide.Fits n)) }
{
    let mut text = String::with_capacity(alloc, TEXT_LEN)?;
    put_number(&mut text, n)?;
    Ok(text)
}

/// Reads a number: decimal digits without a leading zero, or `0x` and hexadecimal digits.
#[tactic(auto, using(crate::proofs::NumberLemmas::number_found, crate::proofs::NumberLemmas::number_only))]
pub fn read_number(text: &str) -> Option<Wide>
    ensures computed { result ≡ number_of text.now }
    ensures found { (f : NumberForm) → IsNumberForm f → text.now ≡ number_form_text f
        → result ≡ Some (wide (number_form_value f)) }
    ensures only { IfSome result (λ number. (f : NumberForm) × IsNumberForm f
        × (text.now ≡ number_form_text f) × (number ≡ wide (number_form_value f))) }
{
    number_in(text.as_bytes())
}

#[tactic(auto, unfolding(crate::specs::Number::number_of))]
fn number_in(text: &[u8]) -> Option<Wide>
    ensures { result ≡ number_of text.now }
{
    match text {
        [b'0', b'x', digits @ ..] => read_digits(digits, 16),
        [b'0', _, ..] => None,
        digits => read_digits(digits, 10),
    }
}
