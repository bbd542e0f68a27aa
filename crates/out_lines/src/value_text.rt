// The text of a value.
ghost use Rattle.std.specs.Prelude.{◌≡◌, ◌++◌, codes, false, if◌then◌else◌, length, IsTrue, OnOk};
ghost use Rattle.out_lines.specs.ValueText.{shown_value};
ghost use Rattle.pk_fields.specs.Fields.{row_of};
ghost use Rattle.pk_fields.specs.Rows.{IsSound, size_of_place};
ghost use Rattle.pk_tree.specs.Values.{HasSize, is_proto, is_read, is_whole, scaled, value_of, value_with};

use crate::addresses::{Ip4Text, ether_text};
use pk_base::{NoMemory, Value};
use pk_fields::{BitPlace, FieldId, ValueKind, bits, kind, name};
use pk_source::{scaled_number, wide_number};
use pk_text::{
    Decimal, Slab, TextSink, put_escaped, put_ether, put_hex, put_ip4, put_ip6, put_number,
    put_time,
};
use std::alloc::Global;

/// Appends the text of a field's value, which takes no memory of its own.
pub fn put_value<S: TextSink>(
    _alloc: Global,
    sink: &mut S,
    field: FieldId,
    value: &Value,
) -> Result<(), NoMemory>
    ensures { OnOk result (S.taken sink.new ≡ S.taken sink.old ++ shown_value field value.now) }
{
    put_shown(sink, field, value)
}

#[tactic(auto, unfolding(crate::specs::ValueText::shown_value))]
pub(crate) fn put_shown<S: TextSink>(
    sink: &mut S,
    field: FieldId,
    value: &Value,
) -> Result<(), NoMemory>
    ensures { OnOk result (S.taken sink.new ≡ S.taken sink.old ++ shown_value field value.now) }
{
    match value {
        Value::Uint(number) => put_number(sink, *number),
        Value::Bool(truth) => put_truth(sink, *truth),
        Value::Bytes(bytes) => put_hex(sink, bytes.bytes()),
        Value::Text(bytes) => put_escaped(sink, bytes.bytes()),
        Value::Ether(address) => put_ether(sink, address),
        Value::Ip4(address) => put_ip4(sink, *address),
        Value::Ip6(address) => put_ip6(sink, *address),
        Value::Time(time) => put_time(sink, *time),
        Value::Proto(_) => sink.put_text(name(field)),
    }
}

#[inline(always)]
fn put_truth<S: TextSink>(sink: &mut S, truth: bool) -> Result<(), NoMemory>
    ensures { OnOk result (S.taken sink.new
        ≡ S.taken sink.old ++ (if truth then codes "1" else codes "0")) }
{
    sink.put_ascii(if truth { b'1' } else { b'0' })
}

/// Appends the text of what a field's row reads in bytes, without a value being made; of a protocol, its name.
#[inline(always)]
#[tactic(auto, unfolding(pk_tree::specs::Values::value_of))]
pub(crate) fn put_read(line: &mut Slab, field: FieldId, bytes: &[u8]) -> Result<(), NoMemory>
    requires { is_proto (row_of field).kind ≡ false
        → HasSize (row_of field).bits (length bytes.now) × IsTrue (is_read (row_of field)) }
    ensures { OnOk result (line.new ≡ line.old ++ shown_value field (value_of field bytes.now)) }
{
    match bits(field) {
        Some(place) => put_placed(line, field, kind(field), place, bytes),
        None => put_whole(line, field, kind(field), bytes),
    }
}

/// Appends the text of a value that bits spell.
#[inline(always)]
#[tactic(auto, unfolding(crate::specs::ValueText::shown_value))]
fn put_placed(
    line: &mut Slab,
    field: FieldId,
    kind: ValueKind,
    place: BitPlace,
    bytes: &[u8],
) -> Result<(), NoMemory>
    requires sound { IsSound kind place }
    requires size { length bytes.now ≡ size_of_place place }
    ensures { OnOk result (line.new
        ≡ line.old ++ shown_value field (value_with kind bytes.now (scaled bytes.now place))) }
{
    match kind {
        ValueKind::Uint(_) => line.put_short(&Decimal(scaled_number(place, bytes))),
        ValueKind::Bool => put_truth(line, scaled_number(place, bytes) == 1),
        ValueKind::Ether => line.put(&ether_text(bytes)),
        ValueKind::Ip4 => line.put_short(&Ip4Text(scaled_number(place, bytes) as u32)),
        ValueKind::Ip6 => put_ip6(line, wide_number(bytes)),
        ValueKind::Bytes | ValueKind::Text | ValueKind::Time | ValueKind::Proto => unreachable!(),
    }
}

/// Appends the text of a value that all bytes make.
#[inline(never)]
#[tactic(auto, unfolding(crate::specs::ValueText::shown_value))]
fn put_whole(line: &mut Slab, field: FieldId, kind: ValueKind, bytes: &[u8]) -> Result<(), NoMemory>
    requires { is_proto kind ≡ false → IsTrue (is_whole kind) }
    ensures { OnOk result (line.new
        ≡ line.old ++ shown_value field (value_with kind bytes.now 0)) }
{
    match kind {
        ValueKind::Bytes => put_hex(line, bytes),
        ValueKind::Text => put_escaped(line, bytes),
        ValueKind::Proto => line.put_text(name(field)),
        ValueKind::Uint(_)
        | ValueKind::Bool
        | ValueKind::Ether
        | ValueKind::Ip4
        | ValueKind::Ip6
        | ValueKind::Time => unreachable!(),
    }
}
