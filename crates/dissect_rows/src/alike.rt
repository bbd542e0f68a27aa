// Whether two sources have the same values of the fields of headers.
ghost use Rattle.std.specs.Prelude.{◌≡◌, true, IfOk};
ghost use Rattle.pk_base.specs.declared.chosen.Layers.{Layers as LayersShown};
ghost use Rattle.pk_fields.specs.Fields.{row_of};
ghost use Rattle.pk_tree.specs.FieldValues.{values_of};
ghost use Rattle.dissect_rows.specs.Alike.{AreAlike, is_header};

use pk_base::{Layers, NoMemory, Value};
use pk_fields::{FieldId, FieldSet, field_of, ids, proto};
use pk_source::Source;
use std::alloc::Global;

/// The numbers of fields and protocols are below this.
const FIELDS: u16 = 360;

/// Whether a field is of a header of plain frames, or of what these carry where no protocol reads it.
fn is_of_header(field: FieldId) -> bool
    ensures { result ≡ is_header (row_of field).proto }
{
    let home = proto(field);
    home == ids::FRAME
        || home == ids::ETH
        || home == ids::VLAN
        || home == ids::IP
        || home == ids::IPV6
        || home == ids::TCP
        || home == ids::UDP
        || home == ids::DATA
}

/// All fields of headers but some.
pub(crate) fn fields_but(left_out: &FieldSet) -> FieldSet {
    let mut fields = FieldSet::none();
    for number in 0..FIELDS {
        let field = field_of(number);
        if is_of_header(field) && !left_out.contains(field) {
            fields.add(field);
        }
    }
    fields
}

/// Whether two sources have the same values of each field of headers.
pub(crate) fn are_alike(
    alloc: Global,
    one: &Source<'_>,
    other: &Source<'_>,
) -> Result<bool, NoMemory>
    ensures { IfOk result (λ alike. alike ≡ true → AreAlike one.now other.now) }
{
    for number in 0..FIELDS {
        if !is_told_alike(alloc, one, other, field_of(number))? {
            return Ok(false);
        }
    }
    Ok(true)
}

/// Whether two sources have the same values of a field, if that is of headers.
fn is_told_alike(
    alloc: Global,
    one: &Source<'_>,
    other: &Source<'_>,
    field: FieldId,
) -> Result<bool, NoMemory>
    ensures { IfOk result (λ alike. alike ≡ true → is_header (row_of field).proto ≡ true
        → values_of one.now field LayersShown.All ≡ values_of other.now field LayersShown.All) }
{
    if is_of_header(field) {
        let values = one.values(alloc, field, &Layers::All)?;
        has_values(alloc, other, field, &values)
    } else {
        Ok(true)
    }
}

/// Whether a source has these values of a field.
fn has_values(
    alloc: Global,
    source: &Source<'_>,
    field: FieldId,
    values: &[Value],
) -> Result<bool, NoMemory>
    ensures { IfOk result (λ has. has ≡ true
        → values.now ≡ values_of source.now field LayersShown.All) }
{
    let own = source.values(alloc, field, &Layers::All)?;
    Ok(are_same(values, &own))
}

fn are_same(some: &[Value], others: &[Value]) -> bool
    ensures { result ≡ true → some.now ≡ others.now }
{
    if some.len() != others.len() {
        return false;
    }
    for (one, other) in some.iter().zip(others) {
        if !is_same(one, other) {
            return false;
        }
    }
    true
}

fn is_same(one: &Value, other: &Value) -> bool
    ensures { result ≡ true → one.now ≡ other.now }
{
    match (one, other) {
        (Value::Uint(one), Value::Uint(other)) => *one == *other,
        (Value::Bool(one), Value::Bool(other)) => *one == *other,
        (Value::Bytes(one), Value::Bytes(other)) => one.bytes() == other.bytes(),
        (Value::Text(one), Value::Text(other)) => one.bytes() == other.bytes(),
        (Value::Ether(one), Value::Ether(other)) => *one == *other,
        (Value::Ip4(one), Value::Ip4(other)) => *one == *other,
        (Value::Ip6(one), Value::Ip6(other)) => *one == *other,
        (Value::Time(one), Value::Time(other)) => *one == *other,
        (Value::Proto(one), Value::Proto(other)) => one.bytes() == other.bytes(),
        _ => false,
    }
}
