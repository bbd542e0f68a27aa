// What a field's row reads in bytes that no tree has.
ghost use Rattle.std.specs.Prelude.{◌≡◌, ◌+◌, ◌≤◌, ◌*◌, ◌<◌, ◌^◌, ◌∷◌, [], length, IfOk, IsTrue};
ghost use Rattle.pk_base.specs.Bits.{number_of_bits};
ghost use Rattle.pk_tree.specs.Buffers.{IsInside, bytes_of};
ghost use Rattle.pk_fields.specs.Fields.{row_of};
ghost use Rattle.pk_fields.specs.Rows.{IsSound, size_of_place};
ghost use Rattle.pk_tree.specs.Values.{IsOfKind, is_read, is_whole, HasSize, value_of, value_with, scaled};

use pk_base::{NoMemory, Octets, Span, Value, be_bits};
use pk_fields::{BitPlace, FieldId, ValueKind, bits, kind};

/// The bytes of a span.
#[inline(always)]
#[tactic(auto, unfolding(pk_tree::specs::Buffers::bytes_of))]
pub(crate) fn bytes_at(bytes: &Octets, span: Span) -> &[u8]
    requires { IsInside (bytes.now ∷ []) span }
    ensures bytes { result.now ≡ bytes_of (bytes.now ∷ []) span }
    ensures len { length result.now ≡ span.len }
{
    let start = span.start as usize;
    &bytes.bytes()[start..start + span.len as usize]
}

/// The bytes of a span, as a list of their own that shares them.
#[tactic(auto, unfolding(pk_tree::specs::Buffers::bytes_of))]
pub(crate) fn part_at(bytes: &Octets, span: Span) -> Result<Octets, NoMemory>
    requires { IsInside (bytes.now ∷ []) span }
    ensures { IfOk result (λ part. part ≡ bytes_of (bytes.now ∷ []) span) }
{
    let start = span.start as usize;
    bytes.part(start, start + span.len as usize)
}

/// What a field's row reads in a span.
#[inline(always)]
#[tactic(auto, unfolding(pk_tree::specs::Values::value_of))]
pub(crate) fn read_value(bytes: &Octets, field: FieldId, span: Span) -> Result<Value, NoMemory>
    requires inside { IsInside (bytes.now ∷ []) span }
    requires read { IsTrue (is_read (row_of field)) }
    requires size { HasSize (row_of field).bits span.len }
    ensures value { IfOk result (λ value. value ≡ value_of field (bytes_of (bytes.now ∷ []) span)) }
{
    match bits(field) {
        Some(place) => Ok(read_number(kind(field), place, bytes_at(bytes, span))),
        None => read_bytes(kind(field), bytes, span),
    }
}

/// A value that all the bytes of a span make.
fn read_bytes(kind: ValueKind, bytes: &Octets, span: Span) -> Result<Value, NoMemory>
    requires inside { IsInside (bytes.now ∷ []) span }
    requires whole { IsTrue (is_whole kind) }
    ensures value { IfOk result (λ value.
        value ≡ value_with kind (bytes_of (bytes.now ∷ []) span) 0) }
{
    let bytes = part_at(bytes, span)?;
    match kind {
        ValueKind::Bytes => Ok(Value::Bytes(bytes)),
        ValueKind::Text => Ok(Value::Text(bytes)),
        ValueKind::Uint(_)
        | ValueKind::Bool
        | ValueKind::Ether
        | ValueKind::Ip4
        | ValueKind::Ip6
        | ValueKind::Time
        | ValueKind::Proto => unreachable!(),
    }
}

/// A value that bits spell.
#[inline(always)]
fn read_number(kind: ValueKind, place: BitPlace, bytes: &[u8]) -> Value
    requires sound { IsSound kind place }
    requires size { length bytes.now ≡ size_of_place place }
    ensures value { result ≡ value_with kind bytes.now (scaled bytes.now place) }
{
    match kind {
        ValueKind::Uint(_) => Value::Uint(scaled_number(place, bytes)),
        ValueKind::Bool => Value::Bool(scaled_number(place, bytes) == 1),
        ValueKind::Ether => Value::Ether(six_bytes(bytes)),
        ValueKind::Ip4 => Value::Ip4(scaled_number(place, bytes) as u32),
        ValueKind::Ip6 => Value::Ip6(wide_number(bytes)),
        ValueKind::Bytes | ValueKind::Text | ValueKind::Time | ValueKind::Proto => unreachable!(),
    }
}

/// The number that bits spell, taken by their factor.
#[inline(always)]
pub fn scaled_number(place: BitPlace, bytes: &[u8]) -> u64
    requires some { 1 ≤ place.width }
    requires most { place.width ≤ 64 }
    requires inside { place.first + place.width ≤ 8 * length bytes.now }
    requires factor { 1 ≤ place.scale }
    requires room { place.scale * 2 ^ place.width ≤ 2 ^ 64 }
    ensures value { result ≡ scaled bytes.now place }
    ensures bound { result < place.scale * 2 ^ place.width }
{
    u64::from(place.scale) * placed_number(place, bytes)
}

/// The number that bits spell. Where the width is a constant, the compiler reads whole bytes at once.
#[inline(always)]
fn placed_number(place: BitPlace, bytes: &[u8]) -> u64
    requires some { 1 ≤ place.width }
    requires most { place.width ≤ 64 }
    requires inside { place.first + place.width ≤ 8 * length bytes.now }
    ensures value { result ≡ number_of_bits bytes.now place.first place.width }
    ensures bound { result < 2 ^ place.width }
{
    match (place.first, place.width) {
        (0, 8) => be_bits(bytes, 0, 8),
        (0, 16) => be_bits(bytes, 0, 16),
        (0, 32) => be_bits(bytes, 0, 32),
        (first, width) => be_bits(bytes, usize::from(first), u32::from(width)),
    }
}

/// The number that sixteen bytes spell.
#[inline(always)]
pub fn wide_number(bytes: &[u8]) -> u128
    requires { length bytes.now ≡ 16 }
    ensures { result ≡ number_of_bits bytes.now 0 128 }
{
    (u128::from(be_bits(bytes, 0, 64)) << 64) + u128::from(be_bits(bytes, 64, 64))
}

#[inline(always)]
fn six_bytes(bytes: &[u8]) -> [u8; 6]
    requires { length bytes.now ≡ 6 }
    ensures { result ≡ bytes.now }
{
    let mut address = [0; 6];
    address.copy_from_slice(bytes);
    address
}
