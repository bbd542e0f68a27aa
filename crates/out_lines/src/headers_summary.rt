// What a line that sums up a frame takes from the headers of a frame that needs no tree.
ghost use Rattle.std.specs.Prelude.{◌≡◌, ◌++◌, IfOk, OnOk, reverse, slice_get};
ghost use Rattle.std.specs.List.{find, position_or_len};
ghost use Rattle.std.specs.Option.{option_copied, option_map};
ghost use Rattle.pk_source.specs.Firsts.{IsReadBy, first_value};
ghost use Rattle.pk_source.specs.Found.{first_in};
ghost use Rattle.pk_source.specs.Outlines.{protocols_of};
ghost use Rattle.pk_source.specs.declared.header.Header.{Header as HeaderShown};
ghost use Rattle.out_lines.specs.Joined.{IsTextPut};
ghost use Rattle.out_lines.specs.Summary.{address_in, first_in_tree, first_ip, ip_address, is_ip_proto, is_told_proto, last_name, or_dash, protocol_of, version_field};
ghost use Rattle.out_lines.specs.ValueText.{shown_value};

use crate::summary::{NONE, is_ip, is_told};
use crate::value_text::{put_read, put_shown};
use pk_base::NoMemory;
use pk_fields::{FieldId, ids, name};
use pk_source::{First, Header, Outline};
use pk_text::{Decimal, Slab, TextSink, put_time};

/// The first value of a field.
#[tactic(auto, unfolding(crate::specs::Summary::first_in_tree))]
pub(crate) fn put_headers_first(
    line: &mut Slab,
    outline: &Outline<'_>,
    field: FieldId,
) -> Result<(), NoMemory>
    ensures { OnOk result (line.new
        ≡ line.old ++ or_dash (first_in_tree outline.now field)) }
{
    put_first_or_dash(line, field, outline.first_and_more(field).first)
}

#[inline(always)]
#[tactic(auto, unfolding(crate::specs::ValueText::shown_value))]
fn put_first_or_dash(line: &mut Slab, field: FieldId, first: First<'_>) -> Result<(), NoMemory>
    requires { IsReadBy field first }
    ensures { OnOk result (line.new
        ≡ line.old ++ or_dash (option_map (shown_value field) (first_value field first.entry))) }
{
    match first {
        First::Nothing => line.put_text(NONE),
        First::Bytes(bytes) => put_read(line, field, bytes),
        First::Number(number) => line.put_short(&Decimal(number)),
        First::Moment(time) => put_time(line, time),
    }
}

/// An address of the first IP header, in the field of its version, else the first of the link.
#[tactic(auto, unfolding(crate::specs::Summary::address_in))]
pub(crate) fn put_headers_address(
    line: &mut Slab,
    outline: &Outline<'_>,
    four: FieldId,
    six: FieldId,
    link: FieldId,
) -> Result<(), NoMemory>
    ensures { OnOk result (line.new ≡ line.old ++ address_in outline.now four six link) }
{
    if put_ip_address(line, outline, four, six)? {
        Ok(())
    } else {
        put_headers_first(line, outline, link)
    }
}

/// The address of the first IP header, if there is one; whether there is.
fn put_ip_address(
    line: &mut Slab,
    outline: &Outline<'_>,
    four: FieldId,
    six: FieldId,
) -> Result<bool, NoMemory>
    ensures { IfOk result (λ there.
        IsTextPut (ip_address four six (first_ip outline.now)) there line.old line.new) }
{
    let headers = outline.headers();
    let place = first_ip(headers);
    if place < headers.len() {
        let field = address_field(headers[place].proto, four, six);
        put_value_in(line, outline, place, field)
    } else {
        Ok(false)
    }
}

/// The place of the first IP header, or how many headers there are.
fn first_ip(headers: &[Header]) -> usize
    ensures { result ≡ position_or_len is_ip_proto (protocols_of headers.now) }
{
    let mut place = 0;
    for header in headers {
        if is_ip(header.proto) {
            return place;
        }
        place += 1;
    }
    place
}

fn address_field(proto: FieldId, four: FieldId, six: FieldId) -> FieldId
    ensures { result ≡ version_field four six proto }
{
    if proto == ids::IP { four } else { six }
}

/// The first value of a field in the layer at a place, if there is one; whether there is.
fn put_value_in(
    line: &mut Slab,
    outline: &Outline<'_>,
    place: usize,
    field: FieldId,
) -> Result<bool, NoMemory>
    ensures { IfOk result (λ there. IsTextPut
        (option_map (shown_value field) (first_in field (slice_get outline.now.layers place)))
        there line.old line.new) }
{
    match outline.value_in(place, field)? {
        Some(value) => {
            put_shown(line, field, &value)?;
            Ok(true)
        }
        None => Ok(false),
    }
}

/// The name of the last protocol.
pub(crate) fn put_headers_protocol(line: &mut Slab, outline: &Outline<'_>) -> Result<(), NoMemory>
    ensures { OnOk result (line.new ≡ line.old ++ protocol_of outline.now) }
{
    put_last(line, outline.headers())
}

fn put_last(line: &mut Slab, headers: &[Header]) -> Result<(), NoMemory>
    ensures { OnOk result (line.new ≡ line.old ++ last_name (protocols_of headers.now)) }
{
    match last_told(headers) {
        Some(header) => line.put_text(name(header.proto)),
        None => line.put_text(NONE),
    }
}

fn last_told(headers: &[Header]) -> Option<&Header>
    ensures { option_copied result
        ≡ find (λ (h : HeaderShown). is_told_proto h.proto) (reverse headers.now) }
{
    headers.iter().rev().find(|header| is_told(header.proto))
}
