ghost use Rattle.std.specs.Prelude.{◌≡◌, ◌+◌, ◌-◌, ◌*◌, ◌/◌, ◌%◌, ◌^◌, ◌<◌, ◌≤◌, length, slice_index};
ghost use Rattle.pk_base.specs.Bits.{number_of_bits, bit_of};

/// The number that `width` bits from `first_bit` on spell, the most significant bit of a byte first.
#[inline]
pub fn be_bits(bytes: &[u8], first_bit: usize, width: u32) -> u64
    requires some { 1 ≤ width }
    requires most { width ≤ 64 }
    requires inside { first_bit + width ≤ 8 * length bytes.now }
    ensures value { result ≡ number_of_bits bytes.now first_bit width }
    ensures bound { result < 2 ^ width }
{
    let first = first_bit / 8;
    let offset = (first_bit % 8) as u32;
    let mut number: u64 = 0;
    let mut done: u32 = 0;
    while done < width {
        let place = offset + done;
        let passed = place % 8;
        let count = (8 - passed).min(width - done);
        let byte = bytes[first + (place / 8) as usize];
        number = number * (1 << count) + bits_of_byte(byte, passed, count);
        done += count;
    }
    number
}

/// So many bits of a byte behind its first ones, the most significant first.
#[inline]
fn bits_of_byte(byte: u8, passed: u32, count: u32) -> u64
    requires some { 1 ≤ count }
    requires inside { passed + count ≤ 8 }
    ensures value { result ≡ byte / 2 ^ (8 - passed - count) % 2 ^ count }
    ensures bound { result < 2 ^ count }
{
    u64::from(byte >> (8 - passed - count)) % (1 << count)
}
