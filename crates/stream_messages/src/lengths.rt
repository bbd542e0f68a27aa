ghost use Rattle.std.specs.Prelude.{◌≡◌, ◌≤◌, ◌<◌, ◌^◌, ℕ, List, length, map, take, All, Some, None, IfSome, IsTrue};
ghost use Rattle.std.specs.Char.{digit_value};
ghost use Rattle.std.specs.Str.Parse.{AllDigits, digits_value};
ghost use Rattle.std.specs.Str.{str_eq_ignore_ascii_case};
ghost use Rattle.std.specs.Option.{option_map};
ghost use Rattle.httparse.specs.Grammar.{is_ows, trim_ows};
ghost use Rattle.httparse.specs.Spans.{IsHeaderWithin, IsWithin, header_bytes, span_bytes};
ghost use Rattle.stream_messages.specs.Fields.{is_chunked, is_length, last_element, last_of_name, length_in, lengths_of, merged, newer_value, with_field};

use httparse::spans::{HeaderSpan, Span};
use pk_base::are_digits;

/// What the fields named Content-Length of a head say together.
#[derive(Clone, Copy)]
pub(crate) enum Lengths {
    /// There is none.
    Absent,
    /// All say this number.
    Same(u64),
    /// One is no number of 1 to 18 digits, or two differ.
    Bad,
}

/// The value of the last field of a name.
pub(crate) fn last_of_name(bytes: &[u8], headers: &[HeaderSpan], name: &[u8]) -> Option<Span>
    requires within { All (IsHeaderWithin (length bytes.now)) headers.now }
    ensures within { IfSome result (IsWithin (length bytes.now)) }
    ensures value { option_map (span_bytes bytes.now) result
        ≡ last_of_name name.now (map (header_bytes bytes.now) headers.now) }
{
    let mut found = None;
    for header in headers {
        found = newer_value(bytes, *header, name, found);
    }
    found
}

/// The value of a field where it has a name, and else one found before.
fn newer_value(bytes: &[u8], header: HeaderSpan, name: &[u8], found: Option<Span>) -> Option<Span>
    requires header { IsHeaderWithin (length bytes.now) header }
    requires found { IfSome found (IsWithin (length bytes.now)) }
    ensures within { IfSome result (IsWithin (length bytes.now)) }
    ensures value { option_map (span_bytes bytes.now) result
        ≡ newer_value name.now (option_map (span_bytes bytes.now) found)
        (header_bytes bytes.now header) }
{
    if is_named(header.name.of(bytes), name) {
        Some(header.value)
    } else {
        found
    }
}

/// Whether a field's name is this one. The case of letters is ignored.
fn is_named(name: &[u8], wanted: &[u8]) -> bool
    ensures { result ≡ str_eq_ignore_ascii_case name.now wanted.now }
{
    name.eq_ignore_ascii_case(wanted)
}

/// What the fields named Content-Length say together.
pub(crate) fn lengths_of(bytes: &[u8], headers: &[HeaderSpan]) -> Lengths
    requires within { All (IsHeaderWithin (length bytes.now)) headers.now }
    ensures { result ≡ lengths_of (map (header_bytes bytes.now) headers.now) }
{
    let mut lengths = Lengths::Absent;
    for header in headers {
        lengths = with_field(bytes, *header, lengths);
    }
    lengths
}

/// What one more field adds to the Content-Lengths before it.
fn with_field(bytes: &[u8], header: HeaderSpan, before: Lengths) -> Lengths
    requires header { IsHeaderWithin (length bytes.now) header }
    ensures { result ≡ with_field before (header_bytes bytes.now header) }
{
    if is_named(header.name.of(bytes), b"content-length") {
        merged(before, length_in(header.value.of(bytes)))
    } else {
        before
    }
}

/// One more Content-Length beside those before it.
fn merged(before: Lengths, more: Option<u64>) -> Lengths
    ensures { result ≡ merged before more }
{
    match (before, more) {
        (Lengths::Absent, Some(length)) => Lengths::Same(length),
        (Lengths::Same(known), Some(length)) if known == length => before,
        _ => Lengths::Bad,
    }
}

/// The number of a Content-Length.
#[tactic(auto, unfolding(crate::specs::Fields::length_in))]
fn length_in(value: &[u8]) -> Option<u64>
    ensures { result ≡ length_in value.now }
{
    if is_length(value) {
        Some(number_of(10, value))
    } else {
        None
    }
}

/// Whether a Content-Length has 1 to 18 digits and nothing else.
fn is_length(value: &[u8]) -> bool
    ensures test { result ≡ is_length value.now }
    ensures digits { IsTrue result → AllDigits 10 value.now }
    ensures fits { IsTrue result → digits_value 10 value.now < 2 ^ 64 }
{
    !value.is_empty() && value.len() <= 18 && are_digits(value)
}

/// The number that digits write.
pub(crate) fn number_of(radix: u64, digits: &[u8]) -> u64
    requires radix { (2 ≤ radix) × (radix ≤ 16) }
    requires digits { AllDigits radix digits.now }
    requires fits { digits_value radix digits.now < 2 ^ 64 }
    ensures { result ≡ digits_value radix digits.now }
{
    let mut number = 0;
    for digit in digits {
        number = number * radix + digit_value(*digit);
    }
    number
}

/// The value of a digit.
fn digit_value(digit: u8) -> u64
    requires { digit_value digit < 16 }
    ensures { result ≡ digit_value digit }
{
    u64::from(match digit {
        b'0'..=b'9' => digit - b'0',
        b'A'..=b'F' => digit - b'A' + 10,
        _ => digit - b'a' + 10,
    })
}

/// Whether the last transfer coding is chunked.
#[tactic(auto, unfolding(crate::specs::Fields::is_chunked))]
pub(crate) fn is_chunked(value: &[u8]) -> bool
    ensures { result ≡ is_chunked value.now }
{
    is_named(trim(last_element(value)), b"chunked")
}

/// The element behind the last comma of a list.
fn last_element(value: &[u8]) -> &[u8]
    ensures { result.now ≡ last_element value.now }
{
    let mut start = 0;
    for place in 0..value.len() {
        if value[place] == b',' {
            start = place + 1;
        }
    }
    &value[start..]
}

/// The bytes without the spaces and tabs at both ends.
fn trim(bytes: &[u8]) -> &[u8]
    ensures { result.now ≡ trim_ows bytes.now }
{
    let mut start = 0;
    while start < bytes.len() && is_ows(bytes[start]) {
        start += 1;
    }
    let mut end = bytes.len();
    while start < end && is_ows(bytes[end - 1]) {
        end -= 1;
    }
    &bytes[start..end]
}

fn is_ows(byte: u8) -> bool
    ensures { result ≡ is_ows byte }
{
    byte == b' ' || byte == b'\t'
}
