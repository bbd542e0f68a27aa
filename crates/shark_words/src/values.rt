// What an option's value may be.
ghost use Rattle.std.specs.Prelude.{◌≡◌};
ghost use Rattle.shark_words.specs.Values.{count_of, format_of as format_of_text, generated_by, is_blank as is_blank_text, is_value as is_value_of, kind_of as kind_of_text};

use crate::key::{is_setting, is_text};
use crate::letter::Letter;
use crate::number::{comma_in, read_decimal, read_up_to};
use crate::options::{LineKind, Source};
use crate::port::read_rule;
use crate::report::read_report;
use capture_write::Format;

/// A capture is generated with so many frames at most.
const MOST_GENERATED: u32 = 200_000;

/// A number from 1 to 4,294,967,295 in decimal digits without a leading zero.
#[tactic(auto, unfolding(crate::specs::Values::count_of))]
pub(crate) fn read_count(text: &[u8]) -> Option<u32>
    ensures { result ≡ count_of text.now }
{
    read_up_to(u32::MAX, text)
}

/// A generated capture: its number, a comma, and how many frames it has.
#[tactic(auto, unfolding(crate::specs::Values::generated_by))]
pub(crate) fn read_generated(text: &[u8]) -> Option<Source>
    ensures { result ≡ generated_by text.now }
{
    let comma = comma_in(text)?;
    let number = read_decimal(&text[..comma])?;
    let frames = read_up_to(MOST_GENERATED, &text[comma + 1..])?;
    Some(Source::Generated(number, frames))
}

pub(crate) fn read_kind(text: &[u8]) -> Option<LineKind>
    ensures { result ≡ kind_of_text text.now }
{
    if is_text(text, b"text") {
        Some(LineKind::Text)
    } else if is_text(text, b"fields") {
        Some(LineKind::Fields)
    } else if is_text(text, b"json") {
        Some(LineKind::Json)
    } else {
        None
    }
}

/// The format of capture files that has this name.
pub fn read_format(text: &[u8]) -> Option<Format>
    ensures { result ≡ format_of_text text.now }
{
    if is_text(text, b"pcap") {
        Some(Format::Pcap)
    } else if is_text(text, b"pcapng") {
        Some(Format::Pcapng)
    } else {
        None
    }
}

/// Whether a text is one of an option's values.
pub(crate) fn is_value(letter: Letter, text: &[u8]) -> bool
    ensures { result ≡ is_value_of letter text.now }
{
    match letter {
        Letter::Capture => !text.is_empty(),
        Letter::Filter | Letter::Name => true,
        Letter::Kind => read_kind(text).is_some(),
        Letter::Style => is_setting(text),
        Letter::Most => read_count(text).is_some(),
        Letter::Two | Letter::Quiet | Letter::FilterStats => false,
        Letter::Decode => read_rule(text).is_some(),
        Letter::Report => read_report(text).is_some(),
        Letter::Output => is_text(text, b"-"),
        Letter::Format => read_format(text).is_some(),
        Letter::SelfRun => read_generated(text).is_some(),
    }
}

/// Whether a text is of spaces, tabs, line feeds and carriage returns alone.
pub(crate) fn is_blank(text: &[u8]) -> bool
    ensures { result ≡ is_blank_text text.now }
{
    text.iter()
        .all(|byte| matches!(*byte, b' ' | b'\t' | b'\n' | b'\r'))
}
