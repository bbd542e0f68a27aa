// The texts of addresses, made at once: one look for room costs as much as a few digits do.
ghost use Rattle.std.specs.Prelude.{◌≡◌, ◌+◌, ◌/◌, ◌%◌, ◌<◌, ◌≤◌, ◌++◌, codes, decimal, false, length};
ghost use Rattle.std.specs.Fmt.{digit_glyph};
ghost use Rattle.pk_text.specs.Ether.{ether_shown};
ghost use Rattle.pk_text.specs.Places.{Placed};

use pk_text::{ShortText, place_byte, place_number};

const HEX_DIGITS: &[u8; 16] = b"0123456789abcdef";

/// An IPv4 address as four decimal numbers, joined by `.`.
#[derive(Clone, Copy)]
pub(crate) struct Ip4Text(pub(crate) u32);

impl ShortText for Ip4Text {
    ghost use Rattle.pk_text.specs.Ip4.{ip4_shown};

    ghost text = { λ address. ip4_shown address.0 };

    #[inline(always)]
    #[tactic(auto, using(pk_text::proofs::PlaceLemmas::placed_then), unfolding(pk_text::specs::Ip4::ip4_shown))]
    fn place(&self, room: &mut [u8]) -> usize {
        let [a, b, c, d] = self.0.to_be_bytes();
        let at = place_number(room, 0, u64::from(a));
        let at = place_part(room, at, b);
        let at = place_part(room, at, c);
        place_part(room, at, d)
    }
}

#[inline(always)]
#[tactic(auto, using(pk_text::proofs::PlaceLemmas::placed_then))]
fn place_part(room: &mut [u8], at: usize, part: u8) -> usize
    requires { at + 21 ≤ length room.old }
    ensures text { Placed room.old room.new at (codes "." ++ decimal part) result }
    ensures short { result ≤ at + 21 }
{
    let at = place_byte(room, at, b'.');
    place_number(room, at, u64::from(part))
}

/// An Ethernet address as six pairs of lower-case hexadecimal digits, joined by `:`.
#[inline(always)]
#[tactic(auto, unfolding(pk_text::specs::Ether::ether_shown))]
pub(crate) fn ether_text(address: &[u8]) -> [u8; 17]
    requires { length address.now ≡ 6 }
    ensures { result ≡ ether_shown address.now }
{
    [
        high_digit(address[0]),
        low_digit(address[0]),
        b':',
        high_digit(address[1]),
        low_digit(address[1]),
        b':',
        high_digit(address[2]),
        low_digit(address[2]),
        b':',
        high_digit(address[3]),
        low_digit(address[3]),
        b':',
        high_digit(address[4]),
        low_digit(address[4]),
        b':',
        high_digit(address[5]),
        low_digit(address[5]),
    ]
}

#[inline(always)]
fn high_digit(byte: u8) -> u8
    ensures { result ≡ digit_glyph false (byte / 16) }
{
    hex_digit(byte / 16)
}

#[inline(always)]
fn low_digit(byte: u8) -> u8
    ensures { result ≡ digit_glyph false (byte % 16) }
{
    hex_digit(byte % 16)
}

#[inline(always)]
fn hex_digit(digit: u8) -> u8
    requires { digit < 16 }
    ensures { result ≡ digit_glyph false digit }
{
    HEX_DIGITS[digit as usize]
}
