// Bytes in hexadecimal, sixteen at a time where there are as many.
ghost use Rattle.std.specs.Prelude.{◌≡◌, ◌<◌, All, false, length, map};
ghost use Rattle.std.specs.Simd.Lanes.{Each1};
ghost use Rattle.std.specs.Fmt.{digit_glyph};
ghost use Rattle.pk_text.specs.Digits.{hex_shown};

use std::simd::prelude::*;

/// How many bytes are shown at once.
pub(crate) const BLOCK: usize = 16;

/// The digits of sixteen bytes.
#[inline(always)]
pub(crate) fn block_digits(bytes: &[u8]) -> [u8; 32]
    requires { length bytes.now ≡ 16 }
    ensures text { result ≡ hex_shown bytes.now }
    ensures ascii { All (λ digit. digit < 128) result }
{
    let block = u8x16::from_slice(bytes);
    let high = glyphs(block >> u8x16::splat(4));
    let low = glyphs(block & u8x16::splat(15));
    let (front, back) = high.interleave(low);
    let mut digits = [0; 32];
    front.copy_to_slice(&mut digits[..BLOCK]);
    back.copy_to_slice(&mut digits[BLOCK..]);
    digits
}

/// The digits of numbers below 16.
#[inline(always)]
fn glyphs(numbers: u8x16) -> u8x16
    requires long { length numbers ≡ 16 }
    requires small { Each1 (λ number. number < 16) numbers }
    ensures { result ≡ map (digit_glyph false) numbers }
{
    let letters = numbers.simd_gt(u8x16::splat(9));
    numbers + letters.select(u8x16::splat(b'a' - 10), u8x16::splat(b'0'))
}
