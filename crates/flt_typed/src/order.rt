// How two single values are compared.
ghost use Rattle.std.specs.Prelude.{◌≡◌, ◌/◌, ◌^◌, ◌-◌};
ghost use Rattle.std.specs.Option.{option_map};
ghost use Rattle.flt_typed.specs.Relations.{octets_of, amount_of, moment_of, leading_amount, order_of, order_by_leading, same_leading, by_order, holds_in, has_inside, related, lies_between};

use crate::inside::contains;
use crate::kinds::{kind_of_value, same_class};
use crate::relation::Relation;
use pk_base::Value;
use std::cmp::Ordering;

/// The bytes of a value of their class: of bytes, texts, Ethernet addresses and protocols. Others have none.
pub fn octets_of(value: &Value) -> Option<&[u8]>
    ensures { option_map (λ bytes. bytes.now) result ≡ octets_of value.now }
{
    match value {
        Value::Bytes(bytes) | Value::Text(bytes) | Value::Proto(bytes) => Some(bytes.bytes()),
        Value::Ether(address) => Some(address.as_slice()),
        _ => None,
    }
}

/// The number of a value that is one, or a truth (0 is false), or an address.
fn amount_of(value: &Value) -> Option<u128>
    ensures { result ≡ amount_of value.now }
{
    match value {
        Value::Uint(number) => Some(u128::from(*number)),
        Value::Bool(truth) => Some(u128::from(*truth)),
        Value::Ip4(address) => Some(u128::from(*address)),
        Value::Ip6(address) => Some(*address),
        _ => None,
    }
}

/// The moment of a time. Others have none.
pub fn moment_of(value: &Value) -> Option<i128>
    ensures { result ≡ moment_of value.now }
{
    match value {
        Value::Time(time) => Some(*time),
        _ => None,
    }
}

/// The amount that is compared: of an address, the leading bits alone where there is a prefix length.
pub fn leading_amount(prefix: Option<u8>, value: &Value) -> Option<u128>
    ensures { result ≡ leading_amount prefix value.now }
{
    match (prefix, value) {
        (Some(prefix), Value::Ip4(address)) => Some(u128::from(front_of_ip4(*address, prefix))),
        (Some(prefix), Value::Ip6(address)) => Some(front_of_ip6(*address, prefix)),
        _ => amount_of(value),
    }
}

/// The order of two values of one class; others have none. Numbers, truths, addresses and times are ordered as
/// numbers, bytes by the first that differs.
pub fn order_of(left: &Value, right: &Value) -> Option<Ordering>
    ensures { result ≡ order_of left.now right.now }
{
    order_by_leading(None, left, right)
}

/// The same, of addresses by their leading bits alone where there is a prefix length.
#[tactic(auto, unfolding(crate::specs::Relations::order_by_leading))]
fn order_by_leading(prefix: Option<u8>, left: &Value, right: &Value) -> Option<Ordering>
    ensures { result ≡ order_by_leading prefix left.now right.now }
{
    if !same_class(kind_of_value(left), kind_of_value(right)) {
        return None;
    }
    if let (Some(left), Some(right)) = (
        leading_amount(prefix, left),
        leading_amount(prefix, right),
    ) {
        return Some(left.cmp(&right));
    }
    if let (Some(left), Some(right)) = (octets_of(left), octets_of(right)) {
        return Some(left.cmp(right));
    }
    match (moment_of(left), moment_of(right)) {
        (Some(left), Some(right)) => Some(left.cmp(&right)),
        _ => None,
    }
}

/// Whether two addresses have the same leading bits, as many as the prefix length says; other values are compared
/// whole.
pub fn same_leading(prefix: u8, left: &Value, right: &Value) -> bool
    ensures { result ≡ same_leading prefix left.now right.now }
{
    order_by_leading(Some(prefix), left, right) == Some(Ordering::Equal)
}

/// Whether a left and a right value stand in a relation, where the right one may have a prefix length.
#[tactic(auto, unfolding(crate::specs::Relations::related))]
pub fn related(relation: Relation, left: &Value, right: &Value, prefix: Option<u8>) -> bool
    ensures { result ≡ related relation left.now right.now prefix }
{
    match relation {
        Relation::Contains => has_inside(left, right),
        _ => by_order(relation, order_by_leading(prefix, left, right)),
    }
}

/// Whether a value lies in a range, from the low end up to and with the high one.
#[tactic(auto, unfolding(crate::specs::Relations::lies_between))]
pub fn lies_between(low: &Value, high: &Value, value: &Value) -> bool
    ensures { result ≡ lies_between low.now high.now value.now }
{
    by_order(Relation::AtLeast, order_of(value, low))
        && by_order(Relation::AtMost, order_of(value, high))
}

/// The leading bits of an address.
fn front_of_ip4(address: u32, prefix: u8) -> u32
    ensures { result ≡ address / 2 ^ (32 - prefix) }
{
    address
        .checked_shr(32_u32.saturating_sub(u32::from(prefix)))
        .unwrap_or(0)
}

fn front_of_ip6(address: u128, prefix: u8) -> u128
    ensures { result ≡ address / 2 ^ (128 - prefix) }
{
    address
        .checked_shr(128_u32.saturating_sub(u32::from(prefix)))
        .unwrap_or(0)
}

fn by_order(relation: Relation, order: Option<Ordering>) -> bool
    ensures { result ≡ by_order relation order }
{
    match order {
        Some(order) => holds_in(relation, order),
        None => false,
    }
}

/// Whether a relation holds in an order. That the left value has the right one in it is no matter of order.
pub fn holds_in(relation: Relation, order: Ordering) -> bool
    ensures { result ≡ holds_in relation order }
{
    match relation {
        Relation::Equal => order.is_eq(),
        Relation::Unequal => order.is_ne(),
        Relation::Greater => order.is_gt(),
        Relation::Less => order.is_lt(),
        Relation::AtLeast => order.is_ge(),
        Relation::AtMost => order.is_le(),
        Relation::Contains => false,
    }
}

fn has_inside(left: &Value, right: &Value) -> bool
    ensures { result ≡ has_inside left.now right.now }
{
    match (octets_of(left), octets_of(right)) {
        (Some(text), Some(needle)) => contains(text, needle),
        _ => false,
    }
}
