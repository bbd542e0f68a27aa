ghost use Rattle.std.specs.Prelude.{◌≡◌, [], ◌∷◌, length, OnSome, IfNone};
ghost use Rattle.std.specs.Option.{option_map};
ghost use Rattle.pk_text.specs.Pairs.{next_pair, pairs_exactly};
ghost use Rattle.pk_text.specs.Digits.{short_read};

use crate::digits::read_short;

/// Reads as many bytes as there is room for, the separator between each two; None where the text is no such bytes, or
/// more stands behind them.
pub fn read_pairs(text: &[u8], separator: Option<u8>, bytes: &mut [u8]) -> Option<()>
    ensures read { OnSome result (pairs_exactly (length bytes.old) None separator text.now
        ≡ Some bytes.new) }
    ensures none { IfNone result (pairs_exactly (length bytes.old) None separator text.now ≡ None) }
{
    let mut rest = text;
    let mut before = None;
    for byte in bytes.iter_mut() {
        let (value, after) = read_pair(before, rest)?;
        *byte = value;
        rest = after;
        before = separator;
    }
    if rest.is_empty() { Some(()) } else { None }
}

/// The byte of two hexadecimal digits behind a separator, if there is one, and what stands behind the digits.
#[tactic(auto, unfolding(crate::specs::Pairs::next_pair))]
fn read_pair(separator: Option<u8>, text: &[u8]) -> Option<(u8, &[u8])>
    ensures { option_map (λ p. (p.0, p.1.now)) result ≡ next_pair separator text.now }
{
    match (separator, text) {
        (None, [high, low, rest @ ..]) => Some((byte_of(*high, *low)?, rest)),
        (Some(c), [first, high, low, rest @ ..]) if *first == c => {
            Some((byte_of(*high, *low)?, rest))
        }
        _ => None,
    }
}

fn byte_of(high: u8, low: u8) -> Option<u8>
    ensures { result ≡ short_read 16 2 (high ∷ low ∷ []) }
{
    Some(read_short(&[high, low], 16, 2)? as u8)
}
