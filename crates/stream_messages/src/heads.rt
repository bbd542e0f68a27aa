ghost use Rattle.std.specs.Prelude.{◌≡◌, ◌<◌, ◌≤◌, ℕ, List, length, IfSome, IfNone, Some, None, drop};
ghost use Rattle.std.specs.List.{prefix_len};
ghost use Rattle.httparse.specs.Pieces.{is_newline};
ghost use Rattle.httparse.specs.Grammar.{RequestHead, ResponseHead};
ghost use Rattle.httparse.specs.Spans.{IsRequestAt, IsRequestWithin, IsResponseAt, IsResponseWithin};
ghost use Rattle.stream_messages.specs.Limits.{field_limit, head_limit};
ghost use Rattle.stream_messages.specs.Heads.{is_request_at, request_of, response_of, HeadLaws, kind_by, start_at};

use httparse::Status;
use httparse::spans::{HeaderSpan, RequestSpans, ResponseSpans, parse_request, parse_response};

/// What a response begins with.
const RESPONSE_START: [u8; 5] = *b"HTTP/";

/// Whether the bytes behind any leading CR and LF begin a request. It isn't known while they begin as a response does,
/// and are fewer than its first bytes.
#[tactic(auto, unfolding(crate::specs::Heads::is_request_at))]
pub(crate) fn is_request_at(bytes: &[u8]) -> Option<bool>
    ensures { result ≡ is_request_at bytes.now }
{
    differs_from(&RESPONSE_START, start_at(bytes))
}

/// Whether bytes differ from a front. It isn't known while they are a shorter prefix of it.
fn differs_from(front: &[u8], bytes: &[u8]) -> Option<bool>
    ensures { result ≡ kind_by front.now bytes.now }
{
    for place in 0..front.len() {
        if place >= bytes.len() {
            return None;
        }
        if bytes[place] != front[place] {
            return Some(true);
        }
    }
    Some(false)
}

/// The bytes from the start line on.
#[tactic(auto, using(crate::proofs::RunLemmas::behind_prefix))]
fn start_at(bytes: &[u8]) -> &[u8]
    ensures { result.now ≡ start_at bytes.now }
{
    tail(bytes, newlines(bytes))
}

/// How many CR and LF stand at the front.
pub(crate) fn newlines(bytes: &[u8]) -> usize
    ensures value { result ≡ prefix_len is_newline bytes.now }
    ensures bound { result ≤ length bytes.now }
{
    bytes
        .iter()
        .take_while(|byte| **byte == b'\r' || **byte == b'\n')
        .count()
}

/// The bytes from a place on: none from past their end.
pub(crate) fn tail(bytes: &[u8], from: usize) -> &[u8]
    ensures { result.now ≡ drop from bytes.now }
{
    if from < bytes.len() {
        &bytes[from..]
    } else {
        &[]
    }
}

/// The request's head at the front of bytes, where there is room for its fields.
pub(crate) fn find_request(bytes: &[u8], headers: &mut [HeaderSpan]) -> Option<RequestSpans>
    requires short { length bytes.now ≤ head_limit }
    requires room { length headers.old ≤ field_limit }
    ensures within { IfSome result (IsRequestWithin bytes.now headers.new) }
    ensures some { IfSome result (λ spans. (h : RequestHead) × (request_of bytes.now ≡ Some h)
        × IsRequestAt bytes.now headers.new spans h) }
    ensures none { IfNone result (IfSome (request_of bytes.now) (λ h. length headers.old < length h.fields)) }
{
    match parse_request(bytes, headers) {
        Ok(Status::Complete(spans)) => Some(spans),
        Ok(Status::Partial) => None,
        Err(_) => None,
    }
}

/// The response's head at the front of bytes, where there is room for its fields.
pub(crate) fn find_response(bytes: &[u8], headers: &mut [HeaderSpan]) -> Option<ResponseSpans>
    requires short { length bytes.now ≤ head_limit }
    requires room { length headers.old ≤ field_limit }
    ensures within { IfSome result (IsResponseWithin bytes.now headers.new) }
    ensures some { IfSome result (λ spans. (h : ResponseHead) × (response_of bytes.now ≡ Some h)
        × IsResponseAt bytes.now headers.new spans h) }
    ensures none { IfNone result (IfSome (response_of bytes.now) (λ h. length headers.old < length h.fields)) }
{
    match parse_response(bytes, headers) {
        Ok(Status::Complete(spans)) => Some(spans),
        Ok(Status::Partial) => None,
        Err(_) => None,
    }
}

/// What is found of a head is exactly the head that there is.
pub fn head_laws()
    ensures { HeadLaws }
{}
