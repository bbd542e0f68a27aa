//! Fields: their names, kinds, protocols and bits, and sets of fields.
//!
//! | Row | What it says |
//! |---|---|
//! | `ETH_TYPE eth.type` | a field and its name, which leads back to it |
//! | `"eth."` | a text that is no name |
//! | `ipv6.flow -> uint 20` | of what kind the values of a field are |
//! | `ip.fragment -> ip` | to which protocol a field belongs |
//! | `ip.hdr_len -> 4 4 4` | the first bit, the width and the factor of a field's number, or `none` |
//! | `tcp.srcport -> not held` | whether a set has a field (`held`), to which `tcp.dstport` and `ipv6.fragment` were added, and a set of all fields has it |
//! | `count -> 5 1` | how many fields that set has, and one to which none was added |
//! | `any of udp -> not held` | whether that set has any of a protocol's fields |
use pk_fields::{FieldId, FieldSet, ValueKind, bits, by_name, ids, kind, name, proto};

fn field_of(word: &str) -> Option<FieldId> {
    match word {
        "FRAME" => Some(ids::FRAME),
        "ETH_TYPE" => Some(ids::ETH_TYPE),
        "IPV6_DSTOPTS_OPTIONS" => Some(ids::IPV6_DSTOPTS_OPTIONS),
        "WS_MALFORMED" => Some(ids::WS_MALFORMED),
        _ => None,
    }
}

pub(crate) fn is_named(row: &str) -> bool {
    let (word, text) = row.split_once(' ').unwrap_or((row, ""));
    match field_of(word) {
        Some(field) => by_name(text) == Some(field) && name(field) == text,
        None => false,
    }
}

pub(crate) fn is_none(row: &str) -> Option<bool> {
    let text = row.strip_prefix('"')?.strip_suffix('"')?;
    Some(by_name(text).is_none())
}

fn kind_text(kind: ValueKind) -> &'static str {
    match kind {
        ValueKind::Uint(_) => "uint",
        ValueKind::Bool => "bool",
        ValueKind::Bytes => "bytes",
        ValueKind::Text => "text",
        ValueKind::Ether => "ether",
        ValueKind::Ip4 => "ip4",
        ValueKind::Ip6 => "ip6",
        ValueKind::Time => "time",
        ValueKind::Proto => "protocol",
    }
}

fn is_kind(kind: ValueKind, told: &str) -> bool {
    match (kind, told.split_once(' ')) {
        (ValueKind::Uint(width), Some(("uint", word))) => word.parse() == Ok(width),
        (ValueKind::Uint(_), _) => false,
        _ => told == kind_text(kind),
    }
}

pub(crate) fn is_of_kind(row: &str) -> Option<bool> {
    let (text, word) = row.split_once(" -> ")?;
    Some(is_kind(kind(by_name(text)?), word))
}

pub(crate) fn is_of(row: &str) -> Option<bool> {
    let (text, protocol) = row.split_once(" -> ")?;
    Some(proto(by_name(text)?) == by_name(protocol)?)
}

/// Whether words are just these numbers.
fn are_numbers(words: &str, numbers: &[usize]) -> bool {
    let mut rest = words;
    for number in numbers {
        let (word, others) = rest.split_once(' ').unwrap_or((rest, ""));
        if word.parse() != Ok(*number) {
            return false;
        }
        rest = others;
    }
    rest.is_empty()
}

pub(crate) fn has_bits(row: &str) -> Option<bool> {
    let (text, told) = row.split_once(" -> ")?;
    match bits(by_name(text)?) {
        Some(place) => {
            let (first, width) = (usize::from(place.first), usize::from(place.width));
            Some(are_numbers(told, &[first, width, usize::from(place.scale)]))
        }
        None => Some(told == "none"),
    }
}

fn two_fields() -> FieldSet {
    let mut set = FieldSet::none();
    set.add(ids::TCP_DSTPORT);
    set.add(ids::IPV6_FRAGMENT);
    set
}

/// Whether the set of two fields has this one, which a set of all fields has, or any of this protocol's.
fn has(set: &FieldSet, text: &str) -> Option<bool> {
    if let Some(protocol) = text.strip_prefix("any of ") {
        return Some(set.has_any_of(by_name(protocol)?));
    }
    let field = by_name(text)?;
    if FieldSet::all().contains(field) {
        Some(set.contains(field))
    } else {
        None
    }
}

pub(crate) fn is_held(row: &str) -> Option<bool> {
    let (text, told) = row.split_once(" -> ")?;
    let set = two_fields();
    if text == "count" {
        return Some(are_numbers(told, &[set.count(), FieldSet::none().count()]));
    }
    let is_held = has(&set, text)?;
    Some(told == if is_held { "held" } else { "not held" })
}
