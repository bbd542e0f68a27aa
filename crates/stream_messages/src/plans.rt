ghost use Rattle.std.specs.Prelude.{◌≡◌, ◌≤◌, ◌<◌, length, map, All, IfSome, IfNone, Some};
ghost use Rattle.std.specs.Option.{option_map};
ghost use Rattle.httparse.specs.Spans.{IsHeaderWithin, header_bytes};
ghost use Rattle.stream_messages.specs.Limits.{body_limit as body_limit_is, field_limit, head_limit};
ghost use Rattle.stream_messages.specs.Heads.{fields_of, head_of, Request, Response, request_of, response_of};
ghost use Rattle.stream_messages.specs.Plans.{by_code, by_fields, by_lengths, is_bare, is_interim, planned};
ghost use Rattle.stream_messages.specs.PlanFacts.{IsShort, PlanFits};

use crate::heads::{find_request, find_response, is_request_at};
use crate::lengths::{Lengths, is_chunked, last_of_name, lengths_of};
use crate::limits::{FEW_FIELDS, body_limit};
use httparse::spans::{EMPTY_HEADER_SPAN, HeaderSpan};
use pk_base::HTTP_FIELD_LIMIT;

/// What a head says of the body behind it.
#[derive(Clone, Copy)]
pub(crate) enum Plan {
    /// There is none.
    Bare,
    /// It comes in chunks.
    Chunks,
    /// It has so many bytes.
    Fixed(u64),
    /// It has so many bytes, which are too many to be shown.
    Pass(u64),
    /// Nothing that follows is known.
    Unknown,
}

/// What is known of a message once its head is read.
#[derive(Clone, Copy)]
pub(crate) struct Start {
    /// It is a request.
    pub request: bool,
    /// It is a request, and its method is HEAD.
    pub asks_head: bool,
    /// It is a response that isn't the last one to its request.
    pub interim: bool,
    /// The bytes of its head.
    pub head: usize,
}

/// A head and what it says of the body.
#[derive(Clone, Copy)]
pub(crate) struct Planned {
    pub start: Start,
    pub plan: Plan,
}

/// Reads the head at the front of bytes. A response is to HEAD where it is `asked`.
#[tactic(auto, unfolding(crate::specs::Limits::field_limit))]
pub(crate) fn plan_in(asked: bool, bytes: &[u8]) -> Option<Planned>
    requires { length bytes.now ≤ head_limit }
    ensures value { result ≡ option_map (planned asked) (head_of bytes.now) }
    ensures fits { IfSome result (PlanFits (length bytes.now)) }
{
    let mut few = [EMPTY_HEADER_SPAN; FEW_FIELDS];
    match plan_within(asked, bytes, &mut few) {
        Some(planned) => Some(planned),
        None => plan_of_many(asked, bytes),
    }
}

/// The same with room for the most fields that a head may have.
#[tactic(auto, unfolding(crate::specs::Limits::field_limit))]
fn plan_of_many(asked: bool, bytes: &[u8]) -> Option<Planned>
    requires { length bytes.now ≤ head_limit }
    ensures value { result ≡ option_map (planned asked) (head_of bytes.now) }
    ensures fits { IfSome result (PlanFits (length bytes.now)) }
{
    let mut headers = [EMPTY_HEADER_SPAN; HTTP_FIELD_LIMIT];
    plan_within(asked, bytes, &mut headers)
}

/// The same where there is room for the head's fields.
#[tactic(auto, unfolding(crate::specs::Heads::head_of))]
fn plan_within(asked: bool, bytes: &[u8], headers: &mut [HeaderSpan]) -> Option<Planned>
    requires short { length bytes.now ≤ head_limit }
    requires room { length headers.old ≤ field_limit }
    ensures some { IfSome result (λ p. option_map (planned asked) (head_of bytes.now) ≡ Some p) }
    ensures none { IfNone result (IfSome (head_of bytes.now) (λ h. length headers.old < length (fields_of h))) }
    ensures fits { IfSome result (PlanFits (length bytes.now)) }
{
    match is_request_at(bytes) {
        None => None,
        Some(true) => plan_request(asked, bytes, headers),
        Some(false) => plan_response(asked, bytes, headers),
    }
}

fn plan_request(asked: bool, bytes: &[u8], headers: &mut [HeaderSpan]) -> Option<Planned>
    requires short { length bytes.now ≤ head_limit }
    requires room { length headers.old ≤ field_limit }
    ensures some { IfSome result (λ p. option_map (λ h. planned asked (Request h)) (request_of bytes.now) ≡ Some p) }
    ensures none { IfNone result (IfSome (request_of bytes.now) (λ h. length headers.old < length h.fields)) }
    ensures fits { IfSome result (PlanFits (length bytes.now)) }
{
    let spans = find_request(bytes, headers)?;
    let start = Start {
        request: true,
        asks_head: spans.method.of(bytes) == b"HEAD".as_slice(),
        interim: false,
        head: spans.len,
    };
    let plan = by_fields(true, bytes, &headers[..spans.headers]);
    Some(Planned { start, plan })
}

fn plan_response(asked: bool, bytes: &[u8], headers: &mut [HeaderSpan]) -> Option<Planned>
    requires short { length bytes.now ≤ head_limit }
    requires room { length headers.old ≤ field_limit }
    ensures some { IfSome result (λ p. option_map (λ h. planned asked (Response h)) (response_of bytes.now) ≡ Some p) }
    ensures none { IfNone result (IfSome (response_of bytes.now) (λ h. length headers.old < length h.fields)) }
    ensures fits { IfSome result (PlanFits (length bytes.now)) }
{
    let spans = find_response(bytes, headers)?;
    let start = Start {
        request: false,
        asks_head: false,
        interim: is_interim(spans.code),
        head: spans.len,
    };
    let plan = by_code(asked, spans.code, bytes, &headers[..spans.headers]);
    Some(Planned { start, plan })
}

/// Whether a response isn't the last one to its request.
fn is_interim(code: u16) -> bool
    ensures { result ≡ is_interim code }
{
    (100..200).contains(&code)
}

/// Whether a response has no body whatever its fields say.
fn is_bare(asked: bool, code: u16) -> bool
    ensures { result ≡ is_bare asked code }
{
    asked || is_interim(code) || code == 204 || code == 304
}

/// The body of a response.
fn by_code(asked: bool, code: u16, bytes: &[u8], headers: &[HeaderSpan]) -> Plan
    requires within { All (IsHeaderWithin (length bytes.now)) headers.now }
    ensures value { result ≡ by_code asked code (map (header_bytes bytes.now) headers.now) }
    ensures short { IsShort result }
{
    if is_bare(asked, code) {
        Plan::Bare
    } else {
        by_fields(false, bytes, headers)
    }
}

/// The body that a head's fields tell of.
#[tactic(auto, unfolding(crate::specs::Plans::by_fields))]
fn by_fields(request: bool, bytes: &[u8], headers: &[HeaderSpan]) -> Plan
    requires within { All (IsHeaderWithin (length bytes.now)) headers.now }
    ensures value { result ≡ by_fields request (map (header_bytes bytes.now) headers.now) }
    ensures short { IsShort result }
{
    match last_of_name(bytes, headers, b"transfer-encoding") {
        Some(value) => {
            if is_chunked(value.of(bytes)) {
                Plan::Chunks
            } else {
                Plan::Unknown
            }
        }
        None => by_lengths(request, lengths_of(bytes, headers)),
    }
}

/// The body that a head's Content-Lengths tell of.
fn by_lengths(request: bool, lengths: Lengths) -> Plan
    ensures value { result ≡ by_lengths request lengths }
    ensures short { IsShort result }
{
    match lengths {
        Lengths::Absent if request => Plan::Bare,
        Lengths::Absent => Plan::Unknown,
        Lengths::Same(length) if length <= body_limit() => Plan::Fixed(length),
        Lengths::Same(length) => Plan::Pass(length),
        Lengths::Bad => Plan::Unknown,
    }
}
