//! The report of a followed stream.
//!
//! Given are the stream's number and, where there is such a stream, what each side sent, with `; ` between them: `nothing`, or a stretch of at
//! most 9 bytes from position 0 on, and perhaps one from a later position on, as `6162@0, 66676869@12`.
ghost use Rattle.std.specs.Prelude.{◌≡◌, ◌<◌, ◌≤◌, ◌^◌, length, IfOk};
ghost use Rattle.out_lines.specs.Follow.{AreApart, AreFollowed};

use crate::lines::{bytes_of, is_text};
use crate::words::number_of;
use out_lines::{Fronts, follow_text};
use pk_base::{Octets, Stretch, Stretches};
use std::alloc::Global;
use tree_rows::Unread;

fn stretch(alloc: Global, start: u64, digits: &str) -> Result<Stretch, Unread>
    ensures start { IfOk result (λ stretch. stretch.start ≡ start) }
    ensures short { IfOk result (λ stretch. length stretch.bytes ≤ 9) }
{
    let bytes = bytes_of(alloc, digits)?;
    if bytes.len() > 9 {
        return Err(Unread::Line);
    }
    Ok(Stretch {
        start,
        bytes: Octets::from_vec(bytes)?,
    })
}

/// A stretch's position and its bytes.
fn position_of(text: &str) -> Option<(u64, &str)> {
    let (digits, start) = text.split_once('@')?;
    Some((number_of(start)?, digits))
}

/// A stretch from position 0 on, and one from a later position on, if that isn't 0.
fn side(alloc: Global, first: &str, start: u64, second: &str) -> Result<Stretches, Unread>
    requires start { start < 10 → start ≡ 0 }
    requires most { start < 2 ^ 32 }
    ensures { IfOk result AreApart }
{
    let first = stretch(alloc, 0, first)?;
    let mut all = Vec::new(alloc);
    all.push(first)?;
    if start > 0 {
        let second = stretch(alloc, start, second)?;
        all.push(second)?;
    }
    Ok(Stretches::from_vec(all))
}

fn side_of(alloc: Global, text: &str) -> Result<Stretches, Unread>
    ensures { IfOk result AreApart }
{
    if text == "nothing" {
        return Ok(Stretches::from_vec(Vec::new(alloc)));
    }
    let (first, second) = text.split_once(", ").unwrap_or((text, "@0"));
    match (position_of(first), position_of(second)) {
        (Some((0, first)), Some((start, second)))
            if start == 0 || (start >= 10 && start < 4_294_967_296) => {
            side(alloc, first, start, second)
        }
        _ => Err(Unread::Line),
    }
}

fn fronts(alloc: Global, zero: &str, one: &str) -> Result<Fronts, Unread>
    ensures { IfOk result AreFollowed }
{
    let zero = side_of(alloc, zero)?;
    let one = side_of(alloc, one)?;
    Ok(Fronts { zero, one })
}

fn text_of(alloc: Global, stream: u32, sides: Option<(&str, &str)>) -> Result<Vec<u8>, Unread> {
    match sides {
        Some((zero, one)) => {
            let fronts = fronts(alloc, zero, one)?;
            Ok(follow_text(alloc, stream, Some(fronts))?)
        }
        None => Ok(follow_text(alloc, stream, None)?),
    }
}

pub(crate) fn is_followed(alloc: Global, given: &str, wanted: &str) -> Result<bool, Unread> {
    let (stream, sides) = given.split_once("; ").unwrap_or((given, ""));
    match u32::try_from(number_of(stream).unwrap_or(u64::MAX)) {
        Ok(stream) => {
            let text = text_of(alloc, stream, sides.split_once("; "))?;
            Ok(is_text(&text, wanted))
        }
        Err(_) => Ok(false),
    }
}
