//! What is given of a frame: words with blanks between them, in any order but that of the bytes.
//!
//! - `link=` is its link type, else 101, a packet of IP by itself; `time=` the second that it was taken, else it has no time; `of=` how
//!   many bytes it had on the wire, else 0; `asks=` names the fields that are wanted, with commas between them, else all are.
//! - Bytes are hexadecimal digits; a name of the list below; a number of 32 bits in decimal behind `#`; or such a word so many times, as
//!   `29*0001`.
//! - A text stands between `"`; in it `|` is the end of a line, CR and LF.
ghost use Rattle.std.specs.Prelude.{◌≡◌, IfSome};
ghost use Rattle.capture_read.specs.FrameList.{IsTime};

use capture_read::Frame;
use hex::decode;
use pk_base::Octets;
use pk_fields::{FieldSet, by_name};
use std::alloc::Global;

/// The digits of a named piece; of other words, themselves.
fn digits_of(word: &str) -> &str {
    match word {
        // From 02:00:00:00:00:01 to everyone.
        "to-all" => "ffffffffffff020000000001",
        // From 02:00:00:00:00:01 to 02:00:00:00:00:02, and back.
        "one-two" => "020000000002020000000001",
        "two-one" => "020000000001020000000002",
        // From 10.0.0.1 to 10.0.0.2, and back.
        "there" => "0a0000010a000002",
        "back" => "0a0000020a000001",
        // Who has 10.0.0.2? Tell 10.0.0.1. (RFC 826)
        "who-has" => "00010800060400010200000000010a0000010000000000000a000002",
        // The header of an IPv4 packet up to its addresses (RFC 791, 3.1). A length of 0 is that of all bytes.
        "ip-icmp" => "450000000000000040010000",
        "ip-ip" => "450000000000000040040000",
        "ip-tcp" => "450000000000000040060000",
        "ip-udp" => "450000000000000040110000",
        // A query for the address of h.test (RFC 1035, 4.1).
        "query" => "000101000001000000000000016804746573740000010001",
        _ => word,
    }
}

/// The names of fields, with commas between them.
pub(crate) fn fields_named(names: &str) -> Option<FieldSet> {
    let mut fields = FieldSet::none();
    add_named(&mut fields, names)?;
    Some(fields)
}

pub(crate) fn add_named(fields: &mut FieldSet, names: &str) -> Option<()> {
    for name in names.split(',') {
        fields.add(by_name(name)?);
    }
    Some(())
}

/// What stands behind the first word that begins so.
pub(crate) fn option<'a>(given: &'a str, begin: &str) -> Option<&'a str> {
    for word in given.split_whitespace() {
        if let Some(value) = word.strip_prefix(begin) {
            return Some(value);
        }
    }
    None
}

fn number_of(given: &str, begin: &str, usual: u32) -> Option<u32> {
    match option(given, begin) {
        Some(number) => number.parse().ok(),
        None => Some(usual),
    }
}

fn push_digits(alloc: Global, bytes: &mut Vec<u8>, digits: &str) -> Option<()> {
    let decoded = decode(alloc, digits).ok()?;
    bytes.extend_from_slice(&decoded).ok()
}

fn push_number(bytes: &mut Vec<u8>, number: &str) -> Option<()> {
    let number: u32 = number.parse().ok()?;
    bytes.extend_from_slice(&number.to_be_bytes()).ok()
}

fn push_times(alloc: Global, bytes: &mut Vec<u8>, times: &str, word: &str) -> Option<()> {
    let times: u8 = times.parse().ok()?;
    for _ in 0..times {
        push_digits(alloc, bytes, digits_of(word))?;
    }
    Some(())
}

fn is_option(word: &str) -> bool {
    word.starts_with("link=")
        || word.starts_with("time=")
        || word.starts_with("of=")
        || word.starts_with("asks=")
}

fn push_word(alloc: Global, bytes: &mut Vec<u8>, word: &str) -> Option<()> {
    if is_option(word) {
        return Some(());
    }
    if let Some(number) = word.strip_prefix('#') {
        return push_number(bytes, number);
    }
    match word.split_once('*') {
        Some((times, word)) => push_times(alloc, bytes, times, word),
        None => push_digits(alloc, bytes, digits_of(word)),
    }
}

fn push_words(alloc: Global, bytes: &mut Vec<u8>, words: &str) -> Option<()> {
    for word in words.split_whitespace() {
        push_word(alloc, bytes, word)?;
    }
    Some(())
}

fn push_text(bytes: &mut Vec<u8>, text: &str) -> Option<()> {
    for byte in text.as_bytes() {
        match *byte {
            b'|' => bytes.extend_from_slice(b"\r\n").ok()?,
            byte => bytes.push(byte).ok()?,
        }
    }
    Some(())
}

fn push_all(alloc: Global, bytes: &mut Vec<u8>, given: &str) -> Option<()> {
    let mut is_text = false;
    for part in given.split('"') {
        if is_text {
            push_text(bytes, part)?;
        } else {
            push_words(alloc, bytes, part)?;
        }
        is_text = !is_text;
    }
    Some(())
}

fn bytes_of(alloc: Global, given: &str) -> Option<Octets> {
    let mut bytes = Vec::new(alloc);
    push_all(alloc, &mut bytes, given)?;
    Octets::from_vec(bytes).ok()
}

/// The nanoseconds of the second behind `time=`, if that is there; nothing where it can't be read.
fn time_of(given: &str) -> Option<Option<i128>>
    ensures { IfSome result (λ time. IfSome time IsTime) }
{
    match option(given, "time=") {
        Some(seconds) => {
            let seconds: u32 = seconds.parse().ok()?;
            Some(Some(i128::from(seconds) * 1_000_000_000))
        }
        None => Some(None),
    }
}

/// The frame that is given, with this number.
pub(crate) fn frame_of(alloc: Global, number: u32, given: &str) -> Option<Frame>
    ensures number { IfSome result (λ frame. frame.number ≡ number) }
    ensures time { IfSome result (λ frame. IfSome frame.time IsTime) }
{
    let time = time_of(given)?;
    let link = number_of(given, "link=", 101)?;
    let original = number_of(given, "of=", 0)?;
    Some(Frame {
        number,
        time,
        link: u16::try_from(link).ok()?,
        little: true,
        bytes: bytes_of(alloc, given)?,
        original,
    })
}
