//! Literals of each kind, and what the values of each kind can do.
//!
//! `literal`, and `literal with prefix length` where one may stand behind: a kind, a blank, a text, ` -> `, and its value of that kind as trees
//! are printed, `beyond` or `unread`. A text behind `"` is the content of a string, and its value stands behind `quoted `. `kind`: a kind, ` -> `,
//! its class, and what can be done with its values. `relation`: a relation, ` -> `, and whether it takes truths, and numbers, and a prefix length.

use flt_typed::{
    Class, Constant, Relation, admits_prefix, class_of, is_masked, is_measured, is_searched,
    is_sliced, is_truth, kind_of_value, takes,
};
use flt_typing::{Reading, read_quote, read_word};
use pk_base::{Octets, Value};
use pk_fields::ValueKind;
use std::alloc::Global;
use tree_rows::value_text;

fn kind_of(name: &str) -> Option<ValueKind> {
    match name {
        "truth" => Some(ValueKind::Bool),
        "bytes" => Some(ValueKind::Bytes),
        "text" => Some(ValueKind::Text),
        "ether" => Some(ValueKind::Ether),
        "ip4" => Some(ValueKind::Ip4),
        "ip6" => Some(ValueKind::Ip6),
        "time" => Some(ValueKind::Time),
        "protocol" => Some(ValueKind::Proto),
        _ => Some(ValueKind::Uint(name.strip_prefix("number")?.parse().ok()?)),
    }
}

fn has_value(alloc: Global, constant: &Constant, want: &str) -> Option<bool> {
    let value = value_text(alloc, &constant.value).ok()?;
    Some(value.as_str().strip_prefix('=') == Some(want))
}

fn is_of(kind: ValueKind, value: &Value) -> bool {
    match value {
        Value::Uint(_) => matches!(kind, ValueKind::Uint(_)),
        _ => kind_of_value(value) == kind,
    }
}

fn is_constant(alloc: Global, kind: ValueKind, constant: &Constant, want: &str) -> Option<bool> {
    let (want, prefix) = match want.split_once(" prefix ") {
        Some((want, length)) => (want, Some(length.parse().ok()?)),
        None => (want, None),
    };
    let quoted = want.strip_prefix("quoted ");
    if constant.prefix != prefix || constant.quoted != quoted.is_some() {
        return Some(false);
    }
    if !is_of(kind, &constant.value) {
        return Some(false);
    }
    has_value(alloc, constant, quoted.unwrap_or(want))
}

fn is_told(alloc: Global, kind: ValueKind, reading: &Reading, want: &str) -> Option<bool> {
    match reading {
        Reading::Reads(constant) => is_constant(alloc, kind, constant, want),
        Reading::Beyond => Some(want == "beyond"),
        Reading::Unread => Some(want == "unread"),
    }
}

fn reading_of(alloc: Global, kind: ValueKind, prefixed: bool, text: &str) -> Option<Reading> {
    match text.strip_prefix('"') {
        Some(text) => {
            let bytes = Octets::copy(alloc, text.as_bytes()).ok()?;
            read_quote(kind, &bytes).ok()
        }
        None => read_word(alloc, kind, prefixed, text).ok(),
    }
}

pub(crate) fn is_read(alloc: Global, prefixed: bool, row: &str) -> Option<bool> {
    let (literal, want) = row.split_once(" -> ")?;
    let (kind, text) = literal.split_once(' ')?;
    let kind = kind_of(kind)?;
    let reading = reading_of(alloc, kind, prefixed, text)?;
    is_told(alloc, kind, &reading, want)
}

fn name_of(class: Class) -> &'static str {
    match class {
        Class::Number => "numbers",
        Class::Truth => "truths",
        Class::Octets => "bytes",
        Class::Ip4 => "IPv4 addresses",
        Class::Ip6 => "IPv6 addresses",
        Class::Time => "times",
    }
}

/// Whether a kind's values can have done this with them.
fn can(kind: ValueKind, place: usize) -> bool {
    match place {
        0 => is_truth(kind),
        1 => is_measured(kind),
        2 => is_sliced(kind),
        3 => is_masked(kind),
        _ => is_searched(kind),
    }
}

/// Whether words are told where they are so, and not where they aren't.
pub(crate) fn is_kind(row: &str) -> Option<bool> {
    let (kind, want) = row.split_once(" -> ")?;
    let (class, abilities) = want.split_once(": ")?;
    let kind = kind_of(kind)?;
    let mut rest = abilities;
    let mut place = 0usize;
    for word in ["truth;", "measured;", "sliced;", "masked;", "searched;"] {
        let front = rest.strip_prefix(word);
        if front.is_some() != can(kind, place) {
            return None;
        }
        rest = front.unwrap_or(rest);
        place = place.saturating_add(1);
    }
    Some(rest.is_empty() && name_of(class_of(kind)) == class)
}

fn relation_of(sign: &str) -> Option<Relation> {
    match sign {
        "==" => Some(Relation::Equal),
        "!=" => Some(Relation::Unequal),
        ">" => Some(Relation::Greater),
        "<" => Some(Relation::Less),
        ">=" => Some(Relation::AtLeast),
        "<=" => Some(Relation::AtMost),
        "contains" => Some(Relation::Contains),
        _ => None,
    }
}

/// All relations take the addresses of Ethernet.
pub(crate) fn is_relation(row: &str) -> Option<bool> {
    let (sign, want) = row.split_once(" -> ")?;
    let relation = relation_of(sign)?;
    let (truth, rest) = want.split_once(' ')?;
    let (number, prefix) = rest.split_once(' ')?;
    Some(
        truth.parse() == Ok(takes(relation, ValueKind::Bool))
            && number.parse() == Ok(takes(relation, ValueKind::Uint(1)))
            && prefix.parse() == Ok(admits_prefix(relation))
            && takes(relation, ValueKind::Ether),
    )
}
