ghost use Rattle.std.specs.Prelude.{◌≡◌, ◌≤◌, ◌<◌, ◌+◌, ◌^◌, [], ◌∷◌, ◌++◌, List, length, map, take, drop, All, Some, IfOk, OnOk};
ghost use Rattle.std.specs.Str.{str_eq_ignore_ascii_case};
ghost use Rattle.httparse.specs.Grammar.{Field, print_version};
ghost use Rattle.httparse.specs.Spans.{IsHeaderWithin};
ghost use Rattle.pk_base.specs.declared.value.Value.TheVariants.{Text};
ghost use Rattle.pk_tree.specs.declared.layout.Step.TheVariants.{Made, Part as Row};
ghost use Rattle.stream_messages.specs.Heads.{Head, head_of};
ghost use Rattle.stream_messages.specs.Limits.{head_limit};
ghost use Rattle.stream_messages.specs.Places.{AreLinesAt, IsHeadAt};
ghost use Rattle.dis_http.specs.Heads.{fields_told, further_field, head_rows, told_step, value_field};
ghost use Rattle.dis_http.specs.Steps.{field_steps, line_steps};

use httparse::spans::{EMPTY_HEADER_SPAN, HeaderSpan};
use pk_base::{HTTP_FIELD_LIMIT, NoMemory, Octets, Value};
use pk_fields::{FieldId, ids};
use pk_tree::Step;
use std::alloc::Global;
use stream_messages::{
    FEW_FIELDS, FieldPlaces, HeadPlaces, Part, StartLine, field_places, head_places,
    head_places_within,
};

/// Adds the steps of a head's start line and field lines.
#[tactic(auto, unfolding(stream_messages::specs::Limits::field_limit))]
pub(crate) fn push_head(alloc: Global, steps: &mut Vec<Step>, head: &[u8]) -> Result<(), NoMemory>
    requires { length head.now ≤ head_limit }
    ensures { OnOk result (steps.new.items ≡ steps.old.items ++ head_rows (head_of head.now)) }
{
    let mut few = [EMPTY_HEADER_SPAN; FEW_FIELDS];
    match head_places_within(head, &mut few) {
        Some(places) => push_places(alloc, steps, head, &few, places),
        None => push_head_of_many(alloc, steps, head),
    }
}

/// The same with room for the most fields that a head may have.
#[tactic(auto, unfolding(stream_messages::specs::Limits::field_limit))]
fn push_head_of_many(alloc: Global, steps: &mut Vec<Step>, head: &[u8]) -> Result<(), NoMemory>
    requires { length head.now ≤ head_limit }
    ensures { OnOk result (steps.new.items ≡ steps.old.items ++ head_rows (head_of head.now)) }
{
    let mut headers = [EMPTY_HEADER_SPAN; HTTP_FIELD_LIMIT];
    match head_places(head, &mut headers) {
        Some(places) => push_places(alloc, steps, head, &headers, places),
        None => Ok(()),
    }
}

/// Adds the steps of a head that was read.
fn push_places(
    alloc: Global,
    steps: &mut Vec<Step>,
    head: &[u8],
    headers: &[HeaderSpan],
    places: HeadPlaces,
) -> Result<(), NoMemory>
    requires short { length head.now ≤ head_limit }
    requires is { (h : Head) × (head_of head.now ≡ Some h) × IsHeadAt head.now headers.now h places }
    requires minor { places.minor ≤ 1 }
    requires bound { places.next ≤ length head.now }
    ensures { OnOk result (steps.new.items ≡ steps.old.items ++ head_rows (head_of head.now)) }
{
    push_line(alloc, steps, places.line, places.minor)?;
    push_fields(steps, head, &headers[..places.count], places.next)
}

/// Adds the steps of a start line.
fn push_line(
    alloc: Global,
    steps: &mut Vec<Step>,
    line: StartLine,
    minor: u8,
) -> Result<(), NoMemory>
    requires { minor ≤ 1 }
    ensures { OnOk result (steps.new.items ≡ steps.old.items ++ line_steps minor line) }
{
    match line {
        StartLine::Request { method, target } => {
            steps.push(Step::Made(ids::HTTP_REQUEST, Value::Bool(true)))?;
            push_part(steps, ids::HTTP_REQUEST_METHOD, method)?;
            push_part(steps, ids::HTTP_REQUEST_URI, target)?;
            push_version(alloc, steps, ids::HTTP_REQUEST_VERSION, minor)
        }
        StartLine::Response { code, phrase } => {
            steps.push(Step::Made(ids::HTTP_RESPONSE, Value::Bool(true)))?;
            push_version(alloc, steps, ids::HTTP_RESPONSE_VERSION, minor)?;
            let code = u64::from(code);
            steps.push(Step::Made(ids::HTTP_RESPONSE_CODE, Value::Uint(code)))?;
            push_part(steps, ids::HTTP_RESPONSE_PHRASE, phrase)
        }
    }
}

/// Adds the step of a part that is told as it stands.
fn push_part(steps: &mut Vec<Step>, field: FieldId, part: Part) -> Result<(), NoMemory>
    ensures { OnOk result (steps.new.items ≡ steps.old.items ++ Row field part.at part.len ∷ []) }
{
    steps.push(Step::Part(field, part.at, part.len))?;
    Ok(())
}

/// Adds the step of a version.
fn push_version(
    alloc: Global,
    steps: &mut Vec<Step>,
    field: FieldId,
    minor: u8,
) -> Result<(), NoMemory>
    requires { minor ≤ 1 }
    ensures { OnOk result (steps.new.items
        ≡ steps.old.items ++ Made field (Text (print_version minor)) ∷ []) }
{
    let version = [b'H', b'T', b'T', b'P', b'/', b'1', b'.', b'0' + minor];
    let text = Octets::copy(alloc, &version)?;
    steps.push(Step::Made(field, Value::Text(text)))?;
    Ok(())
}

/// Adds the steps of field lines from a place on.
fn push_fields(
    steps: &mut Vec<Step>,
    head: &[u8],
    headers: &[HeaderSpan],
    at: usize,
) -> Result<(), NoMemory>
    requires short { length head.now ≤ head_limit }
    requires at { at ≤ length head.now }
    requires within { All (IsHeaderWithin (length head.now)) headers.now }
    ensures { OnOk result ((fields : List Field) → AreLinesAt head.now at headers.now fields
        → steps.new.items ≡ steps.old.items ++ map told_step (fields_told at fields)) }
{
    let mut place = at;
    for header in headers {
        let field = field_places(head, place, *header);
        push_field(steps, header.name.of(head), field)?;
        place = field.next;
    }
    Ok(())
}

/// Adds the steps of a field's name and of its value.
fn push_field(steps: &mut Vec<Step>, name: &[u8], field: FieldPlaces) -> Result<(), NoMemory>
    ensures { OnOk result (steps.new.items ≡ steps.old.items ++ field_steps name.now field) }
{
    push_part(steps, ids::HTTP_HEADER_NAME, field.name)?;
    push_part(steps, ids::HTTP_HEADER_VALUE, field.value)?;
    match value_field(name) {
        Some(known) => push_part(steps, known, field.value),
        None => Ok(()),
    }
}

/// The item that a field's value has besides, by the field's name.
#[tactic(auto, unfolding(crate::specs::Heads::value_field))]
fn value_field(name: &[u8]) -> Option<FieldId>
    ensures { result ≡ value_field name.now }
{
    if is_named(name, b"host") {
        return Some(ids::HTTP_HOST);
    }
    if is_named(name, b"user-agent") {
        return Some(ids::HTTP_USER_AGENT);
    }
    if is_named(name, b"content-type") {
        return Some(ids::HTTP_CONTENT_TYPE);
    }
    if is_named(name, b"content-length") {
        return Some(ids::HTTP_CONTENT_LENGTH_HEADER);
    }
    if is_named(name, b"transfer-encoding") {
        return Some(ids::HTTP_TRANSFER_ENCODING);
    }
    if is_named(name, b"content-encoding") {
        return Some(ids::HTTP_CONTENT_ENCODING);
    }
    if is_named(name, b"server") {
        return Some(ids::HTTP_SERVER);
    }
    further_field(name)
}

fn further_field(name: &[u8]) -> Option<FieldId>
    ensures { result ≡ further_field name.now }
{
    if is_named(name, b"location") {
        return Some(ids::HTTP_LOCATION);
    }
    if is_named(name, b"connection") {
        return Some(ids::HTTP_CONNECTION);
    }
    if is_named(name, b"cookie") {
        return Some(ids::HTTP_COOKIE);
    }
    if is_named(name, b"set-cookie") {
        return Some(ids::HTTP_SET_COOKIE);
    }
    if is_named(name, b"referer") {
        return Some(ids::HTTP_REFERER);
    }
    if is_named(name, b"accept") {
        return Some(ids::HTTP_ACCEPT);
    }
    if is_named(name, b"date") {
        return Some(ids::HTTP_DATE);
    }
    None
}

/// Whether a field's name is this one. The case of letters is ignored.
#[tactic(auto, using(stream_messages::proofs::LengthLemmas::as_wanted))]
fn is_named(name: &[u8], wanted: &[u8]) -> bool
    ensures { result ≡ str_eq_ignore_ascii_case name.now wanted.now }
{
    name.eq_ignore_ascii_case(wanted)
}

/// The bytes from a place on.
pub(crate) fn tail(bytes: &[u8], from: usize) -> &[u8]
    ensures { result.now ≡ drop from bytes.now }
{
    &bytes[from.min(bytes.len())..]
}

/// The first bytes, as many as that or as there are.
pub(crate) fn front(bytes: &[u8], most: usize) -> &[u8]
    ensures { result.now ≡ take most bytes.now }
{
    &bytes[..most.min(bytes.len())]
}
