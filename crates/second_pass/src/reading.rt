// Single values of a layer.
ghost use Rattle.std.specs.Prelude.{◌≡◌};
ghost use Rattle.std.specs.Option.{option_copied};
ghost use Rattle.pk_tree.specs.FieldValues.{item_values};
ghost use Rattle.second_pass.specs.Named.{first_value, number_of, truth_of, address4_of, address6_of, number_in, truth_in, address4_in, address6_in};

use pk_base::Value;
use pk_fields::FieldId;
use pk_tree::{Item, Layer};

/// A field's first value in a layer, as a number.
pub(crate) fn number_in(layer: &Layer, field: FieldId) -> Option<u64>
    ensures { result ≡ number_in field layer.now }
{
    number_of(first_in(layer.items.slice(), field)?)
}

/// A field's first value in a layer, as a truth.
pub(crate) fn truth_in(layer: &Layer, field: FieldId) -> Option<bool>
    ensures { result ≡ truth_in field layer.now }
{
    truth_of(first_in(layer.items.slice(), field)?)
}

/// A field's first value in a layer, as an address of IPv4.
pub(crate) fn address4_in(layer: &Layer, field: FieldId) -> Option<u32>
    ensures { result ≡ address4_in field layer.now }
{
    address4_of(first_in(layer.items.slice(), field)?)
}

/// A field's first value in a layer, as an address of IPv6.
pub(crate) fn address6_in(layer: &Layer, field: FieldId) -> Option<u128>
    ensures { result ≡ address6_in field layer.now }
{
    address6_of(first_in(layer.items.slice(), field)?)
}

fn number_of(value: &Value) -> Option<u64>
    ensures { result ≡ number_of value.now }
{
    match value {
        Value::Uint(number) => Some(*number),
        _ => None,
    }
}

fn truth_of(value: &Value) -> Option<bool>
    ensures { result ≡ truth_of value.now }
{
    match value {
        Value::Bool(truth) => Some(*truth),
        _ => None,
    }
}

fn address4_of(value: &Value) -> Option<u32>
    ensures { result ≡ address4_of value.now }
{
    match value {
        Value::Ip4(address) => Some(*address),
        _ => None,
    }
}

fn address6_of(value: &Value) -> Option<u128>
    ensures { result ≡ address6_of value.now }
{
    match value {
        Value::Ip6(address) => Some(*address),
        _ => None,
    }
}

fn first_in(items: &[Item], field: FieldId) -> Option<&Value>
    ensures { option_copied result ≡ first_value (item_values field items.now) }
{
    for item in items {
        if item.field == field {
            return Some(&item.value);
        }
    }
    None
}
