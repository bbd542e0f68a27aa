ghost use Rattle.std.specs.Prelude.{◌≡◌, ◌+◌, ◌≤◌, length, drop};
ghost use Rattle.pk_base.specs.Endian.{number_in};

use byteorder::{BigEndian, ByteOrder, LittleEndian};

/// The number of two bytes at a place, in the byte order of a file or section.
pub fn u16_at(little: bool, bytes: &[u8], at: usize) -> u16
    requires { at + 2 ≤ length bytes.now }
    ensures { result ≡ number_in little 2 (drop at bytes.now) }
{
    let rest = &bytes[at..];
    if little {
        LittleEndian::read_u16(rest)
    } else {
        BigEndian::read_u16(rest)
    }
}

/// The number of four bytes at a place, in the byte order of a file or section.
pub fn u32_at(little: bool, bytes: &[u8], at: usize) -> u32
    requires { at + 4 ≤ length bytes.now }
    ensures { result ≡ number_in little 4 (drop at bytes.now) }
{
    let rest = &bytes[at..];
    if little {
        LittleEndian::read_u32(rest)
    } else {
        BigEndian::read_u32(rest)
    }
}
