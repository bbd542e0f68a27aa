ghost use Rattle.std.specs.Prelude.{◌≡◌, ◌<◌, ◌≤◌, ◌-◌, ◌++◌, ℕ, List, length, drop, IfSome, IfNone, Some, None};
ghost use Rattle.std.specs.List.{prefix_len};
ghost use Rattle.httparse.specs.Grammar.{is_ows, Field, IsField, RequestHead, ResponseHead, print_field};
ghost use Rattle.httparse.specs.Spans.{IsHeaderWithin, header_bytes, name_and_value};
ghost use Rattle.stream_messages.specs.Limits.{field_limit, head_limit};
ghost use Rattle.stream_messages.specs.Heads.{Head, Request, Response, fields_of, head_of, request_of, response_of};
ghost use Rattle.stream_messages.specs.Places.{IsHeadAt, behind_feed, field_places, is_in_line};

use crate::heads::{find_request, find_response, is_request_at, newlines, tail};
use httparse::spans::{HeaderSpan, Span};

/// The bytes of a version.
const VERSION: usize = 8;
/// The bytes of a version and a status code, with the space between them.
const STATUS: usize = 12;

/// So many bytes of a head from a place on.
#[derive(Clone, Copy)]
pub struct Part {
    pub at: usize,
    pub len: usize,
}

/// What the start line of a head tells, beside its version.
#[derive(Clone, Copy)]
pub enum StartLine {
    Request { method: Part, target: Part },
    Response { code: u16, phrase: Part },
}

/// A head: its start line, and where its field lines begin.
#[derive(Clone, Copy)]
pub struct HeadPlaces {
    pub line: StartLine,
    /// The minor version, such as 1 for `HTTP/1.1`.
    pub minor: u8,
    /// The place of the first field line.
    pub next: usize,
    /// How many field lines there are.
    pub count: usize,
}

/// Where a field line's name and value stand, and where the next line begins.
#[derive(Clone, Copy)]
pub struct FieldPlaces {
    pub name: Part,
    pub value: Part,
    pub next: usize,
}

/// Reads the head at the front of bytes. The spans of its field lines' names and values are written to the front of `headers`.
pub fn head_places(bytes: &[u8], headers: &mut [HeaderSpan]) -> Option<HeadPlaces>
    requires short { length bytes.now ≤ head_limit }
    requires room { length headers.old ≡ field_limit }
    ensures some { IfSome result (λ places. (h : Head) × (head_of bytes.now ≡ Some h)
        × IsHeadAt bytes.now headers.new h places) }
    ensures none { IfNone result (head_of bytes.now ≡ None) }
    ensures minor { IfSome result (λ places. places.minor ≤ 1) }
    ensures bound { IfSome result (λ places. places.next ≤ length bytes.now) }
{
    head_places_within(bytes, headers)
}

/// The same of a head whose fields have room in `headers`: of one with more it finds none.
#[tactic(auto, unfolding(crate::specs::Heads::head_of))]
pub fn head_places_within(bytes: &[u8], headers: &mut [HeaderSpan]) -> Option<HeadPlaces>
    requires short { length bytes.now ≤ head_limit }
    requires room { length headers.old ≤ field_limit }
    ensures some { IfSome result (λ places. (h : Head) × (head_of bytes.now ≡ Some h)
        × IsHeadAt bytes.now headers.new h places) }
    ensures none { IfNone result (IfSome (head_of bytes.now) (λ h. length headers.old < length (fields_of h))) }
    ensures minor { IfSome result (λ places. places.minor ≤ 1) }
    ensures bound { IfSome result (λ places. places.next ≤ length bytes.now) }
{
    match is_request_at(bytes) {
        None => None,
        Some(true) => request_places(bytes, headers),
        Some(false) => response_places(bytes, headers),
    }
}

fn request_places(bytes: &[u8], headers: &mut [HeaderSpan]) -> Option<HeadPlaces>
    requires short { length bytes.now ≤ head_limit }
    requires room { length headers.old ≤ field_limit }
    ensures some { IfSome result (λ places. (h : RequestHead) × (request_of bytes.now ≡ Some h)
        × IsHeadAt bytes.now headers.new (Request h) places) }
    ensures none { IfNone result (IfSome (request_of bytes.now) (λ h. length headers.old < length h.fields)) }
    ensures minor { IfSome result (λ places. places.minor ≤ 1) }
    ensures bound { IfSome result (λ places. places.next ≤ length bytes.now) }
{
    let spans = find_request(bytes, headers)?;
    let at = newlines(bytes);
    let method = span_len(spans.method);
    let target = at + method + 1;
    let len = span_len(spans.path);
    let line = StartLine::Request {
        method: Part { at, len: method },
        target: Part { at: target, len },
    };
    let rest = behind_feed(tail(tail(bytes, target), len + 1 + VERSION));
    Some(HeadPlaces {
        line,
        minor: spans.version,
        next: bytes.len() - rest.len(),
        count: spans.headers,
    })
}

fn response_places(bytes: &[u8], headers: &mut [HeaderSpan]) -> Option<HeadPlaces>
    requires short { length bytes.now ≤ head_limit }
    requires room { length headers.old ≤ field_limit }
    ensures some { IfSome result (λ places. (h : ResponseHead) × (response_of bytes.now ≡ Some h)
        × IsHeadAt bytes.now headers.new (Response h) places) }
    ensures none { IfNone result (IfSome (response_of bytes.now) (λ h. length headers.old < length h.fields)) }
    ensures minor { IfSome result (λ places. places.minor ≤ 1) }
    ensures bound { IfSome result (λ places. places.next ≤ length bytes.now) }
{
    let spans = find_response(bytes, headers)?;
    let reason = newlines(bytes) + STATUS;
    let line = StartLine::Response {
        code: spans.code,
        phrase: Part {
            at: reason + 1,
            len: span_len(spans.reason),
        },
    };
    let rest = behind_feed(tail(bytes, reason));
    Some(HeadPlaces {
        line,
        minor: spans.version,
        next: bytes.len() - rest.len(),
        count: spans.headers,
    })
}

/// Where the parts of the field line at a place stand. Their lengths are those of the spans.
pub fn field_places(bytes: &[u8], at: usize, header: HeaderSpan) -> FieldPlaces
    requires short { length bytes.now ≤ head_limit }
    requires at { at ≤ length bytes.now }
    requires within { IsHeaderWithin (length bytes.now) header }
    ensures value { (f : Field) (rest : List ℕ) → IsField f → drop at bytes.now ≡ print_field f ++ rest
        → header_bytes bytes.now header ≡ name_and_value f → result ≡ field_places at f }
    ensures bound { result.next ≤ length bytes.now }
{
    let name = span_len(header.name);
    let len = span_len(header.value);
    let raw = tail(bytes, at + name + 1);
    let lead = white_len(raw);
    let rest = behind_feed(tail(raw, lead + len));
    FieldPlaces {
        name: Part { at, len: name },
        value: Part {
            at: at + name + 1 + lead,
            len,
        },
        next: bytes.len() - rest.len(),
    }
}

fn span_len(span: Span) -> usize
    requires { span.start ≤ span.end }
    ensures { result ≡ span.end - span.start }
{
    span.end - span.start
}

/// The spaces and tabs at the front.
fn white_len(bytes: &[u8]) -> usize
    ensures value { result ≡ prefix_len is_ows bytes.now }
    ensures bound { result ≤ length bytes.now }
{
    bytes
        .iter()
        .take_while(|byte| **byte == b' ' || **byte == b'\t')
        .count()
}

/// The bytes behind the next line feed.
fn behind_feed(bytes: &[u8]) -> &[u8]
    ensures value { result.now ≡ behind_feed bytes.now }
    ensures bound { length result.now ≤ length bytes.now }
{
    tail(tail(bytes, line_len(bytes)), 1)
}

/// How many bytes stand before the next line feed.
fn line_len(bytes: &[u8]) -> usize
    ensures { result ≡ prefix_len is_in_line bytes.now }
{
    bytes.iter().take_while(|byte| **byte != b'\n').count()
}
