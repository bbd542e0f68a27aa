ghost use Rattle.std.specs.Prelude.{◌≡◌, ℕ, ◌<◌, ◌++◌, codes, length, slice_index, IfOk, IfSome, OnOk};
ghost use Rattle.std.specs.String.{string_bytes};
ghost use Rattle.std.specs.List.{flat_map};
ghost use Rattle.pk_text.specs.Digits.{hex_pair};
ghost use Rattle.pk_text.specs.Ether.{IsEtherForm, ether_of, ether_separator, ether_shown};
ghost use Rattle.pk_text.specs.Pairs.{PairsForm, pairs_text, pairs_value};

use crate::pairs::read_pairs;
use crate::puts::{TextSink, high_digit, low_digit, put_pair};
use pk_base::NoMemory;
use std::alloc::Global;

/// An Ethernet address as six pairs of lower-case hexadecimal digits, joined by `:`.
#[tactic(auto, using(crate::proofs::EtherLemmas::ether_from_shown))]
pub fn ether_text(alloc: Global, v: [u8; 6]) -> Result<String, NoMemory>
    ensures text { IfOk result (λ text. string_bytes text ≡ ether_shown v) }
    ensures reads_back { IfOk result (λ text. ether_of (string_bytes text) ≡ Some v) }
{
    joined(alloc, &v)
}

fn joined(alloc: Global, bytes: &[u8]) -> Result<String, NoMemory>
    requires { length bytes.now ≡ 6 }
    ensures text { IfOk result (λ text. string_bytes text ≡ ether_shown bytes.now) }
    ensures bytes { (i : ℕ) → slice_index bytes.now i < 256 }
{
    let mut text = String::with_capacity(alloc, 3 * bytes.len() - 1)?;
    put_ether(&mut text, bytes)?;
    Ok(text)
}

/// Appends bytes as pairs of lower-case hexadecimal digits, joined by `:`, which is the text of an address.
#[tactic(auto, unfolding(crate::specs::Ether::ether_shown))]
pub fn put_ether<S: TextSink>(sink: &mut S, bytes: &[u8]) -> Result<(), NoMemory>
    ensures { OnOk result (S.taken sink.new ≡ S.taken sink.old ++ ether_shown bytes.now) }
{
    match bytes {
        [] => Ok(()),
        [first, others @ ..] => {
            put_pair(sink, *first)?;
            put_further_pairs(sink, others)
        }
    }
}

/// Pairs behind the first, each behind a colon.
fn put_further_pairs<S: TextSink>(sink: &mut S, bytes: &[u8]) -> Result<(), NoMemory>
    ensures { OnOk result (S.taken sink.new
        ≡ S.taken sink.old ++ flat_map (λ byte. codes ":" ++ hex_pair byte) bytes.now) }
{
    for byte in bytes {
        sink.put_digits(&[b':', high_digit(*byte), low_digit(*byte)])?;
    }
    Ok(())
}

/// Reads an Ethernet address: six pairs of hexadecimal digits, joined by `:` throughout or by `-` throughout.
#[tactic(auto, using(crate::proofs::EtherLemmas::ether_found, crate::proofs::EtherLemmas::ether_only))]
pub fn read_ether(text: &str) -> Option<[u8; 6]>
    ensures computed { result ≡ ether_of text.now }
    ensures found { (f : PairsForm) → IsEtherForm f → text.now ≡ pairs_text f
        → result ≡ Some (pairs_value f) }
    ensures only { IfSome result (λ address. (f : PairsForm) × IsEtherForm f
        × (text.now ≡ pairs_text f) × (address ≡ pairs_value f)) }
{
    ether_in(text.as_bytes())
}

#[tactic(auto, unfolding(crate::specs::Ether::ether_of))]
fn ether_in(text: &[u8]) -> Option<[u8; 6]>
    ensures { result ≡ ether_of text.now }
{
    let separator = separator_in(text)?;
    let mut address = [0; 6];
    read_pairs(text, Some(separator), &mut address)?;
    Some(address)
}

/// The separator behind the first pair.
fn separator_in(text: &[u8]) -> Option<u8>
    ensures { result ≡ ether_separator text.now }
{
    match text {
        [_, _, c @ (b':' | b'-'), ..] => Some(*c),
        _ => None,
    }
}
