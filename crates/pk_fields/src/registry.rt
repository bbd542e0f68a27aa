ghost use Rattle.std.specs.Prelude.{◌≡◌, ◌≢◌, ◌↔◌, ◌-◌, ◌<◌, ℕ, length, map, take, drop, position, IsTrue, IfSome, IfNone, IsNone};
ghost use Rattle.std.specs.Str.{bytes_eq};
ghost use Rattle.pk_fields.specs.Fields.{IsField, row_of, field_named};
ghost use Rattle.pk_fields.specs.Ids.{field_count};
ghost use Rattle.pk_fields.specs.Rows.{IsKind, IsSound, has_no_bits, row_shown, size_of_row};
ghost use Rattle.pk_fields.specs.Table.{rows};
ghost use Rattle.pk_fields.specs.Halves.{joined};

use crate::field_id::FieldId;
use crate::row::Row;
use crate::table::{FIRST, FIRST_ROWS, OTHERS, SIZES};
use crate::value_kind::{BitPlace, ValueKind};

/// The field or protocol of a name, where the table has the name.
pub fn by_name(name: &str) -> Option<FieldId>
    ensures computed { result ≡ field_named name.now }
    ensures found { (f : ℕ) → IsField f → (row_of f).name ≡ name.now → result ≡ Some f }
    ensures named { IfSome result (λ f. IsField f × (row_of f).name ≡ name.now) }
    ensures none { IfNone result ((f : ℕ) → IsField f → (row_of f).name ≢ name.now) }
{
    let place = place_of(name)?;
    Some(FieldId(place as u16))
}

/// The name of a field or protocol.
pub fn name(f: FieldId) -> &'static str
    ensures row { result.now ≡ (row_of f).name }
    ensures known { field_named result.now ≡ Some f }
{
    row_at(f).name
}

/// What the values of a field are.
pub fn kind(f: FieldId) -> ValueKind
    ensures row { result ≡ (row_of f).kind }
    ensures kind { IsKind result }
{
    row_at(f).kind
}

/// The protocol of a field; of a protocol, itself.
pub fn proto(f: FieldId) -> FieldId
    ensures row { result ≡ (row_of f).proto }
    ensures proto { (row_of result).kind ≡ ValueKind.Proto }
{
    FieldId(row_at(f).proto)
}

/// The bits that a field's number is read from, in its item's own bytes.
pub fn bits(f: FieldId) -> Option<BitPlace>
    ensures row { result ≡ (row_of f).bits }
    ensures sound { IfSome result (IsSound (row_of f).kind) }
    ensures none { IsNone result ↔ IsTrue (has_no_bits (row_of f)) }
{
    row_at(f).origin.bits()
}

/// How many bytes a field's item has, or 0 where its row has no bits.
pub fn size(f: FieldId) -> usize
    ensures { result ≡ size_of_row (row_of f) }
{
    usize::from(sizes()[f.0 as usize])
}

fn sizes() -> &'static [u8]
    ensures sizes { result.now ≡ map size_of_row rows }
    ensures len { length result.now ≡ field_count }
{
    &SIZES
}

/// The place of the first row with a name.
fn place_of(name: &str) -> Option<usize>
    ensures computed { result ≡ field_named name.now }
    ensures found { (f : ℕ) → IsField f → (row_of f).name ≡ name.now → result ≡ Some f }
    ensures named { IfSome result (λ f. IsField f × (row_of f).name ≡ name.now) }
    ensures none { IfNone result ((f : ℕ) → IsField f → (row_of f).name ≢ name.now) }
{
    joined(
        first_place(first_rows(), name),
        first_place(other_rows(), name),
    )
}

/// A place among the first rows, else one among the others.
fn joined(first: Option<usize>, other: Option<usize>) -> Option<usize>
    requires { IfSome other (λ place. place < field_count) }
    ensures { result ≡ joined 180 first other }
{
    match first {
        Some(place) => Some(place),
        None => Some(FIRST_ROWS + other?),
    }
}

fn first_place(table: &[Row], name: &str) -> Option<usize>
    ensures place { result ≡ position (λ row. bytes_eq row.name.now name.now) table.now }
    ensures inside { IfSome result (λ place. place < length table.now) }
{
    table.iter().position(|row| row.name == name)
}

fn row_at(f: FieldId) -> &'static Row
    ensures field { IsField f }
    ensures row { row_shown result.now ≡ row_of f }
{
    let place = f.0 as usize;
    if place < FIRST_ROWS {
        &first_rows()[place]
    } else {
        &other_rows()[place - FIRST_ROWS]
    }
}

fn first_rows() -> &'static [Row]
    ensures shown { map row_shown result.now ≡ take 180 rows }
    ensures len { length result.now ≡ 180 }
{
    &FIRST
}

fn other_rows() -> &'static [Row]
    ensures shown { map row_shown result.now ≡ drop 180 rows }
    ensures len { length result.now ≡ field_count - 180 }
{
    &OTHERS
}
