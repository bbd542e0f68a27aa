ghost use Rattle.std.specs.Prelude.{◌≡◌, IfOk, IfSome};
ghost use Rattle.pk_text.specs.Octets.{IsOctetsForm, bytes_of, octets_separator, pair_count};
ghost use Rattle.pk_text.specs.Pairs.{PairsForm, pairs_text, pairs_value};

use crate::pairs::read_pairs;
use pk_base::{NoMemory, Octets};
use std::alloc::Global;

/// Reads bytes: one or more pairs of hexadecimal digits, joined throughout by `:`, `-` or `.`, or by nothing.
#[tactic(auto, using(crate::proofs::OctetsLemmas::bytes_found))]
pub fn read_bytes(alloc: Global, text: &str) -> Result<Option<Octets>, NoMemory>
    ensures computed { IfOk result (λ answer. answer ≡ bytes_of text.now) }
    ensures found { (f : PairsForm) → IsOctetsForm f → text.now ≡ pairs_text f
        → IfOk result (λ answer. answer ≡ Some (pairs_value f)) }
    ensures only { IfOk result (λ answer. IfSome answer (λ bytes. (f : PairsForm) × IsOctetsForm f
        × (text.now ≡ pairs_text f) × (bytes ≡ pairs_value f))) }
{
    bytes_in(alloc, text)
}

#[tactic(auto, unfolding(crate::specs::Octets::bytes_of))]
fn bytes_in(alloc: Global, text: &str) -> Result<Option<Octets>, NoMemory>
    ensures { IfOk result (λ answer. answer ≡ bytes_of text.now) }
{
    let text = text.as_bytes();
    if text.is_empty() {
        return Ok(None);
    }
    let separator = separator_in(text);
    let mut bytes = vec![in alloc; 0; count_of(text, separator)]?;
    match read_pairs(text, separator, bytes.as_mut_slice()) {
        Some(()) => Ok(Some(Octets::from_vec(bytes)?)),
        None => Ok(None),
    }
}

/// How many pairs a text may hold.
fn count_of(text: &[u8], separator: Option<u8>) -> usize
    ensures { result ≡ pair_count separator text.now }
{
    match separator {
        None => text.len() / 2,
        Some(_) => (text.len() + 1) / 3,
    }
}

/// The separator behind the first pair, if there is one.
fn separator_in(text: &[u8]) -> Option<u8>
    ensures { result ≡ octets_separator text.now }
{
    match text {
        [_, _, c @ (b':' | b'-' | b'.'), ..] => Some(*c),
        _ => None,
    }
}
