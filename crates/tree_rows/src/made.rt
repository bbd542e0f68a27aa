// Trees that are made of texts.
ghost use Rattle.std.specs.Prelude.{◌≡◌, ◌≤◌, ◌<◌, true, length, IfOk, IsTrue};
ghost use Rattle.pk_tree.specs.Buffers.{IsInside};
ghost use Rattle.pk_fields.specs.Fields.{row_of};
ghost use Rattle.pk_tree.specs.Trees.{last_proto};
ghost use Rattle.pk_tree.specs.Values.{HasSize, IsOfKind, is_read};

use pk_base::{NoMemory, Octets, Span, Value};
use pk_fields::{FieldId, ValueKind, by_name, ids, kind, proto};
use pk_tree::{Tree, TreeBuilder};
use std::alloc::{AllocError, AllocFailed, Global};

/// Why a text makes no tree.
#[derive(Clone, Copy)]
pub enum Unread {
    /// A line that is no layer, or an item that the layer hasn't, or that can't hold its value.
    Line,
    NoMemory,
}

impl From<NoMemory> for Unread {
    fn from(_error: NoMemory) -> Unread {
        Unread::NoMemory
    }
}

impl From<AllocError> for Unread {
    fn from(_error: AllocError) -> Unread {
        Unread::NoMemory
    }
}

impl<T: Drop> From<AllocFailed<T>> for Unread {
    fn from(_error: AllocFailed<T>) -> Unread {
        Unread::NoMemory
    }
}

/// Gives up what belongs to no tree.
fn refused<T: Drop>(_value: T) -> Result<(), Unread> {
    Err(Unread::Line)
}

/// Numbers below 256 with a separator between them, as one number.
fn joined(text: &str, separator: char, radix: u32) -> Option<u64>
    requires least { 2 ≤ radix }
    requires most { radix ≤ 36 }
{
    let mut number = 0u64;
    for part in text.split(separator) {
        let byte = u8::from_str_radix(part, radix).ok()?;
        number = number.wrapping_mul(256).wrapping_add(u64::from(byte));
    }
    Some(number)
}

fn ether_of(text: &str) -> Option<Value> {
    match joined(text, ':', 16)?.to_be_bytes() {
        [0, 0, a, b, c, d, e, f] => Some(Value::Ether([a, b, c, d, e, f])),
        _ => None,
    }
}

fn number_of(text: &str) -> Option<u32> {
    text.parse().ok()
}

/// A value of a kind, which has no memory of its own.
fn plain_of(kind: ValueKind, text: &str) -> Option<Value> {
    match kind {
        ValueKind::Uint(_) => Some(Value::Uint(text.parse().ok()?)),
        ValueKind::Bool => Some(Value::Bool(text.parse().ok()?)),
        ValueKind::Time => Some(Value::Time(text.parse().ok()?)),
        ValueKind::Ether => ether_of(text),
        ValueKind::Ip4 => Some(Value::Ip4(u32::try_from(joined(text, '.', 10)?).ok()?)),
        ValueKind::Ip6 => Some(Value::Ip6(u128::from_str_radix(text, 16).ok()?)),
        _ => None,
    }
}

fn push_pairs(bytes: &mut Vec<u8>, pairs: &str) -> Result<(), Unread> {
    for pair in pairs.split(':') {
        match u8::from_str_radix(pair, 16).ok() {
            Some(byte) => bytes.push(byte)?,
            None => return Err(Unread::Line),
        }
    }
    Ok(())
}

fn octets_of(alloc: Global, pairs: &str) -> Result<Octets, Unread> {
    let mut bytes = Vec::new(alloc);
    push_pairs(&mut bytes, pairs)?;
    Ok(Octets::from_vec(bytes)?)
}

fn text_of(alloc: Global, text: &str) -> Result<Octets, Unread> {
    match text.strip_prefix("bytes:") {
        Some(pairs) => octets_of(alloc, pairs),
        None => Ok(Octets::copy(alloc, text.as_bytes())?),
    }
}

/// A value of a kind. A text stands as it is, or behind `bytes:` in hexadecimal digits.
fn value_of(alloc: Global, kind: ValueKind, text: &str) -> Result<Value, Unread> {
    match kind {
        ValueKind::Bytes => Ok(Value::Bytes(octets_of(alloc, text)?)),
        ValueKind::Text => Ok(Value::Text(text_of(alloc, text)?)),
        _ => plain_of(kind, text).ok_or(Unread::Line),
    }
}

/// A span of a buffer, as `1:2+3`; without its number, of the first one.
fn span_of(text: &str) -> Option<Span> {
    let (buffer, bytes) = text.split_once(':').unwrap_or(("0", text));
    let (start, len) = bytes.split_once('+')?;
    Some(Span {
        buffer: number_of(buffer)?,
        start: number_of(start)?,
        len: number_of(len)?,
    })
}

/// Whether a value is of a kind.
fn is_of_kind(kind: ValueKind, value: &Value) -> bool
    ensures { result ≡ true → IsOfKind kind value.now }
{
    match (kind, value) {
        (ValueKind::Uint(width), Value::Uint(number)) => width < 64 && *number < 1 << width,
        (ValueKind::Bool, Value::Bool(_))
        | (ValueKind::Bytes, Value::Bytes(_))
        | (ValueKind::Text, Value::Text(_))
        | (ValueKind::Ether, Value::Ether(_))
        | (ValueKind::Ip4, Value::Ip4(_))
        | (ValueKind::Ip6, Value::Ip6(_))
        | (ValueKind::Time, Value::Time(_)) => true,
        _ => false,
    }
}

/// Whether a span lies in one of so many buffers.
fn is_inside(builder: &TreeBuilder, count: u32, span: Span) -> bool
    requires { count ≤ length builder.now.buffers }
    ensures { result ≡ true → IsInside builder.now.buffers span }
{
    span.buffer < count
        && u64::from(span.start) + u64::from(span.len) <= u64::from(builder.size(span.buffer))
}

/// Whether a field is one of those that are read from so many bytes.
#[tactic(auto, unfolding(pk_fields::specs::Fields::row_of, pk_fields::specs::Table::rows))]
fn is_readable(field: FieldId, len: u32) -> bool
    ensures read { result ≡ true → IsTrue (is_read (row_of field)) }
    ensures size { result ≡ true → HasSize (row_of field).bits len }
{
    (field == ids::ETH_DST && len == 6)
        || (field == ids::IP_SRC && len == 4)
        || field == ids::SLL_SRC
}

fn add_read(builder: &mut TreeBuilder, count: u32, field: FieldId, span: Span) -> Result<(), Unread>
    requires count { count ≤ length builder.old.buffers }
    requires layer { 0 < length builder.old.layers }
    requires belongs { (row_of field).proto ≡ last_proto builder.old.layers }
    ensures buffers { builder.new.buffers ≡ builder.old.buffers }
    ensures layers { length builder.new.layers ≡ length builder.old.layers }
    ensures last { last_proto builder.new.layers ≡ last_proto builder.old.layers }
{
    if !is_inside(builder, count, span) || !is_readable(field, span.len) {
        return Err(Unread::Line);
    }
    Ok(builder.read_item(field, span)?)
}

fn add_value(
    builder: &mut TreeBuilder,
    count: u32,
    field: FieldId,
    value: Value,
    place: Option<Span>,
) -> Result<(), Unread>
    requires count { count ≤ length builder.old.buffers }
    requires layer { 0 < length builder.old.layers }
    requires belongs { (row_of field).proto ≡ last_proto builder.old.layers }
    ensures buffers { builder.new.buffers ≡ builder.old.buffers }
    ensures layers { length builder.new.layers ≡ length builder.old.layers }
    ensures last { last_proto builder.new.layers ≡ last_proto builder.old.layers }
{
    if !is_of_kind(kind(field), &value) {
        return refused(value);
    }
    match place {
        None => Ok(builder.made_item(field, value)?),
        Some(span) => {
            if !is_inside(builder, count, span) {
                return refused(value);
            }
            Ok(builder.derived_item(field, value, span)?)
        }
    }
}

/// A field's name, its value behind `=`, and its place behind `@`.
fn parts_of(item: &str) -> (&str, Option<&str>, Option<&str>) {
    let (front, place) = match item.split_once('@') {
        Some((front, place)) => (front, Some(place)),
        None => (item, None),
    };
    match front.split_once('=') {
        Some((name, value)) => (name, Some(value), place),
        None => (front, None, place),
    }
}

/// Adds an item to the last layer: one with a value, or one that is read from its place.
fn add_item(
    alloc: Global,
    builder: &mut TreeBuilder,
    count: u32,
    layer: FieldId,
    item: &str,
) -> Result<(), Unread>
    requires count { count ≤ length builder.old.buffers }
    requires layer { 0 < length builder.old.layers }
    requires last { last_proto builder.old.layers ≡ layer }
    ensures buffers { builder.new.buffers ≡ builder.old.buffers }
    ensures layers { length builder.new.layers ≡ length builder.old.layers }
    ensures last { last_proto builder.new.layers ≡ last_proto builder.old.layers }
{
    let (name, value, place) = parts_of(item);
    let field = by_name(name).unwrap_or(ids::FRAME);
    if proto(field) != layer {
        return Err(Unread::Line);
    }
    let span = span_of(place.unwrap_or(""));
    match (value, span) {
        (Some(text), _) => {
            let value = value_of(alloc, kind(field), text)?;
            add_value(builder, count, field, value, span)
        }
        (None, Some(span)) => add_read(builder, count, field, span),
        (None, None) => Err(Unread::Line),
    }
}

fn add_items(
    alloc: Global,
    builder: &mut TreeBuilder,
    count: u32,
    layer: FieldId,
    items: &str,
) -> Result<(), Unread>
    requires count { count ≤ length builder.old.buffers }
    requires layer { 0 < length builder.old.layers }
    requires last { last_proto builder.old.layers ≡ layer }
    ensures { builder.new.buffers ≡ builder.old.buffers }
{
    for item in items.split_whitespace() {
        add_item(alloc, builder, count, layer, item)?;
    }
    Ok(())
}

/// A layer's protocol, where its line names one, and its span.
fn layer_of(head: &str) -> Option<(FieldId, Span)> {
    let (name, span) = head.split_once(' ')?;
    Some((by_name(name)?, span_of(span)?))
}

fn add_layer(alloc: Global, builder: &mut TreeBuilder, count: u32, line: &str) -> Result<(), Unread>
    requires { count ≤ length builder.old.buffers }
    ensures { builder.new.buffers ≡ builder.old.buffers }
{
    let (head, items) = match line.split_once(": ") {
        Some(parts) => parts,
        None => (line.strip_suffix(":").unwrap_or(""), ""),
    };
    let Some((layer, span)) = layer_of(head) else {
        return Err(Unread::Line);
    };
    if !is_inside(builder, count, span)
        || builder.layer_count() >= 100
        || kind(layer) != ValueKind::Proto
    {
        return Err(Unread::Line);
    }
    builder.open_layer(layer, span)?;
    add_items(alloc, builder, count, layer, items)
}

/// Adds the second buffer, if it has bytes, and answers how many buffers there are.
fn add_more(alloc: Global, builder: &mut TreeBuilder, more: &[u8]) -> Result<u32, NoMemory>
    requires buffers { length builder.old.buffers ≡ 1 }
    requires short { length more.now < 100 }
    ensures { IfOk result (λ count. count ≤ length builder.new.buffers) }
{
    if more.is_empty() {
        return Ok(1);
    }
    builder.add_buffer(Octets::copy(alloc, more)?)?;
    Ok(2)
}

/// Adds the second buffer, and a layer for each line.
fn fill(alloc: Global, builder: &mut TreeBuilder, more: &[u8], lines: &str) -> Result<(), Unread>
    requires buffers { length builder.old.buffers ≡ 1 }
    requires short { length more.now < 100 }
{
    let count = add_more(alloc, builder, more)?;
    for line in lines.lines() {
        add_layer(alloc, builder, count, line)?;
    }
    Ok(())
}

/// The tree over the bytes of a frame, and of a second buffer, if that has bytes, with a layer for each line: its name, its span, a colon,
/// and its items, as they are printed. An item without a value is read from its place.
pub fn read_tree(alloc: Global, frame: &[u8], more: &[u8], lines: &str) -> Result<Tree, Unread> {
    if frame.len() >= 100 || more.len() >= 100 {
        return Err(Unread::Line);
    }
    let mut builder = TreeBuilder::new(alloc, Octets::copy(alloc, frame)?)?;
    fill(alloc, &mut builder, more, lines)?;
    Ok(builder.finish())
}
