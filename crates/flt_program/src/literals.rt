// The texts of fields, ranges and literals in a listing.
ghost use Rattle.std.specs.Prelude.{◌≡◌, ◌++◌, codes, OnOk};
ghost use Rattle.std.specs.List.{flat_map, join_by};
ghost use Rattle.pk_text.specs.Ip6.{ip6_shown};
ghost use Rattle.flt_program.specs.Literals.{bytes_shown, constant_shown, field_shown, layer_range_shown, layers_shown, member_shown, members_shown, place_shown, prefix_shown, quoted_byte, range_shown, ranges_shown, string_shown, value_shown};

use flt_syntax::{Place, RangePart};
use flt_typed::{Constant, Member};
use pk_base::{LayerRange, Layers, NoMemory, Value};
use pk_fields::{FieldId, name};
use pk_text::{TextSink, ip6_text, put_escaped, put_ether, put_hex, put_ip4, put_number, put_time};
use std::alloc::Global;

/// Appends a field's name, and the layers that are chosen.
pub(crate) fn put_field(line: &mut Vec<u8>, field: FieldId, layers: &Layers) -> Result<(), NoMemory>
    ensures { OnOk result (line.new.items ≡ line.old.items ++ field_shown field layers.now) }
{
    line.put_text(name(field))?;
    put_layers(line, layers)
}

fn put_layers(line: &mut Vec<u8>, layers: &Layers) -> Result<(), NoMemory>
    ensures { OnOk result (line.new.items ≡ line.old.items ++ layers_shown layers.now) }
{
    match layers {
        Layers::All => Ok(()),
        Layers::These(ranges) => {
            line.put_text("#[")?;
            put_layer_ranges(line, ranges.slice())?;
            line.put_text("]")
        }
    }
}

fn put_layer_ranges(line: &mut Vec<u8>, ranges: &[LayerRange]) -> Result<(), NoMemory>
    ensures { OnOk result (line.new.items
        ≡ line.old.items ++ join_by layer_range_shown (codes ",") ranges.now) }
{
    match ranges {
        [] => Ok(()),
        [first, others @ ..] => {
            put_layer_range(line, *first)?;
            put_further_layer_ranges(line, others)
        }
    }
}

fn put_further_layer_ranges(line: &mut Vec<u8>, ranges: &[LayerRange]) -> Result<(), NoMemory>
    ensures { OnOk result (line.new.items ≡ line.old.items
        ++ flat_map (λ range. codes "," ++ layer_range_shown range) ranges.now) }
{
    for range in ranges {
        line.put_text(",")?;
        put_layer_range(line, *range)?;
    }
    Ok(())
}

fn put_layer_range(line: &mut Vec<u8>, range: LayerRange) -> Result<(), NoMemory>
    ensures { OnOk result (line.new.items ≡ line.old.items ++ layer_range_shown range) }
{
    put_number(line, u64::from(range.first))?;
    match range.last {
        None => Ok(()),
        Some(last) => {
            line.put_text("-")?;
            put_number(line, u64::from(last))
        }
    }
}

/// Appends the ranges of a slice, in brackets.
pub(crate) fn put_ranges(line: &mut Vec<u8>, ranges: &[RangePart]) -> Result<(), NoMemory>
    ensures { OnOk result (line.new.items ≡ line.old.items ++ ranges_shown ranges.now) }
{
    line.put_text("[")?;
    put_joined_ranges(line, ranges)?;
    line.put_text("]")
}

fn put_joined_ranges(line: &mut Vec<u8>, ranges: &[RangePart]) -> Result<(), NoMemory>
    ensures { OnOk result (line.new.items
        ≡ line.old.items ++ join_by range_shown (codes ",") ranges.now) }
{
    match ranges {
        [] => Ok(()),
        [first, others @ ..] => {
            put_range(line, *first)?;
            put_further_ranges(line, others)
        }
    }
}

fn put_further_ranges(line: &mut Vec<u8>, ranges: &[RangePart]) -> Result<(), NoMemory>
    ensures { OnOk result (line.new.items
        ≡ line.old.items ++ flat_map (λ range. codes "," ++ range_shown range) ranges.now) }
{
    for range in ranges {
        line.put_text(",")?;
        put_range(line, *range)?;
    }
    Ok(())
}

fn put_range(line: &mut Vec<u8>, range: RangePart) -> Result<(), NoMemory>
    ensures { OnOk result (line.new.items ≡ line.old.items ++ range_shown range) }
{
    match range {
        RangePart::One(at) => put_place(line, at),
        RangePart::Counted(at, count) => {
            put_place(line, at)?;
            line.put_text(":")?;
            put_number(line, u64::from(count))
        }
        RangePart::Between(first, last) => {
            put_place(line, first)?;
            line.put_text("-")?;
            put_place(line, last)
        }
        RangePart::Front(count) => {
            line.put_text(":")?;
            put_number(line, u64::from(count))
        }
        RangePart::ToEnd(at) => {
            put_place(line, at)?;
            line.put_text(":")
        }
    }
}

fn put_place(line: &mut Vec<u8>, place: Place) -> Result<(), NoMemory>
    ensures { OnOk result (line.new.items ≡ line.old.items ++ place_shown place) }
{
    if place.from_end {
        line.put_text("-")?;
    }
    put_number(line, u64::from(place.offset))
}

/// Appends bytes as a string.
#[tactic(auto, unfolding(crate::specs::Literals::string_shown))]
pub(crate) fn put_string(line: &mut Vec<u8>, bytes: &[u8]) -> Result<(), NoMemory>
    ensures { OnOk result (line.new.items ≡ line.old.items ++ string_shown bytes.now) }
{
    line.put_text("\"")?;
    put_quoted(line, bytes)?;
    line.put_text("\"")
}

fn put_quoted(line: &mut Vec<u8>, bytes: &[u8]) -> Result<(), NoMemory>
    ensures { OnOk result (line.new.items ≡ line.old.items ++ flat_map quoted_byte bytes.now) }
{
    for byte in bytes {
        put_quoted_byte(line, *byte)?;
    }
    Ok(())
}

#[tactic(auto, unfolding(pk_text::specs::Escape::escaped))]
fn put_quoted_byte(line: &mut Vec<u8>, byte: u8) -> Result<(), NoMemory>
    ensures { OnOk result (line.new.items ≡ line.old.items ++ quoted_byte byte) }
{
    if byte == b'"' {
        line.put_text("\\\"")
    } else {
        put_escaped(line, &[byte])
    }
}

/// Appends a literal.
pub(crate) fn put_constant(
    alloc: Global,
    line: &mut Vec<u8>,
    constant: &Constant,
) -> Result<(), NoMemory>
    ensures { OnOk result (line.new.items ≡ line.old.items ++ constant_shown constant.now) }
{
    put_value(alloc, line, constant.quoted, &constant.value)?;
    put_prefix(line, constant.prefix)
}

fn put_prefix(line: &mut Vec<u8>, prefix: Option<u8>) -> Result<(), NoMemory>
    ensures { OnOk result (line.new.items ≡ line.old.items ++ prefix_shown prefix) }
{
    match prefix {
        None => Ok(()),
        Some(prefix) => {
            line.put_text("/")?;
            put_number(line, u64::from(prefix))
        }
    }
}

#[tactic(auto, unfolding(crate::specs::Literals::value_shown))]
fn put_value(alloc: Global, line: &mut Vec<u8>, quoted: bool, value: &Value) -> Result<(), NoMemory>
    ensures { OnOk result (line.new.items ≡ line.old.items ++ value_shown quoted value.now) }
{
    match value {
        Value::Uint(number) => put_number(line, *number),
        Value::Bool(truth) => line.put_text(if *truth { "1" } else { "0" }),
        Value::Bytes(bytes) => put_bytes(line, quoted, bytes.bytes()),
        Value::Text(bytes) => put_string(line, bytes.bytes()),
        Value::Ether(address) => put_ether(line, address),
        Value::Ip4(address) => put_ip4(line, *address),
        Value::Ip6(address) => put_ip6(alloc, line, *address),
        Value::Time(time) => put_time(line, *time),
        Value::Proto(bytes) => put_bytes(line, quoted, bytes.bytes()),
    }
}

fn put_ip6(alloc: Global, line: &mut Vec<u8>, address: u128) -> Result<(), NoMemory>
    ensures { OnOk result (line.new.items ≡ line.old.items ++ ip6_shown address) }
{
    let text = ip6_text(alloc, address)?;
    line.put_text(text.as_str())
}

fn put_bytes(line: &mut Vec<u8>, quoted: bool, bytes: &[u8]) -> Result<(), NoMemory>
    ensures { OnOk result (line.new.items ≡ line.old.items ++ bytes_shown quoted bytes.now) }
{
    if quoted {
        put_string(line, bytes)
    } else {
        put_hex(line, bytes)
    }
}

/// Appends the members of a set, in braces.
pub(crate) fn put_members(
    alloc: Global,
    line: &mut Vec<u8>,
    members: &[Member],
) -> Result<(), NoMemory>
    ensures { OnOk result (line.new.items ≡ line.old.items ++ members_shown members.now) }
{
    line.put_text("{")?;
    put_joined_members(alloc, line, members)?;
    line.put_text("}")
}

fn put_joined_members(alloc: Global, line: &mut Vec<u8>, members: &[Member]) -> Result<(), NoMemory>
    ensures { OnOk result (line.new.items
        ≡ line.old.items ++ join_by member_shown (codes ", ") members.now) }
{
    match members {
        [] => Ok(()),
        [first, others @ ..] => {
            put_member(alloc, line, first)?;
            put_further_members(alloc, line, others)
        }
    }
}

fn put_further_members(
    alloc: Global,
    line: &mut Vec<u8>,
    members: &[Member],
) -> Result<(), NoMemory>
    ensures { OnOk result (line.new.items ≡ line.old.items
        ++ flat_map (λ member. codes ", " ++ member_shown member) members.now) }
{
    for member in members {
        line.put_text(", ")?;
        put_member(alloc, line, member)?;
    }
    Ok(())
}

fn put_member(alloc: Global, line: &mut Vec<u8>, member: &Member) -> Result<(), NoMemory>
    ensures { OnOk result (line.new.items ≡ line.old.items ++ member_shown member.now) }
{
    match member {
        Member::One(constant) => put_constant(alloc, line, constant),
        Member::Between(low, high) => {
            put_constant(alloc, line, low)?;
            line.put_text("..")?;
            put_constant(alloc, line, high)
        }
    }
}
