//! Fragments in the order in which they come, whose frames are numbered from 1. A row is a title and a line for each fragment:
//! `IPv4 1 2 17 7 8 more 89abcdef -> pending` has source and target (hexadecimal), protocol, identification, offset in bytes, whether more
//! follow or it is the `last`, and its bytes. With it the datagram is `pending`, or `whole` with its protocol, bytes and fragments' frames, or
//! goes against fragments before it, which are forgotten.
use crate::words::{are_bytes, are_frames, first_of, is_first, is_number, octets_of};
use ip_join::{ConflictKind, Datagram, Joined, Joins};
use pk_base::{Address, FragmentHead, NoMemory, Octets};
use std::alloc::Global;

fn address_of(six: bool, word: &str) -> Option<Address> {
    if six {
        Some(Address::Six(u128::from_str_radix(word, 16).ok()?))
    } else {
        Some(Address::Four(u32::from_str_radix(word, 16).ok()?))
    }
}

/// What a fragment's headers say, and its bytes.
fn head_of(words: &str) -> Option<(FragmentHead, &str)> {
    let (version, words) = first_of(words);
    let (source, words) = first_of(words);
    let (target, words) = first_of(words);
    let (next, words) = first_of(words);
    let (ident, words) = first_of(words);
    let (offset, words) = first_of(words);
    let (more, bytes) = first_of(words);
    let six = is_first(version, "IPv6", "IPv4")?;
    let head = FragmentHead {
        six,
        source: address_of(six, source)?,
        target: address_of(six, target)?,
        next: next.parse().ok()?,
        ident: ident.parse().ok()?,
        offset: offset.parse().ok()?,
        more: is_first(more, "more", "last")?,
        whole: true,
    };
    Some((head, bytes))
}

fn is_whole(datagram: &Datagram, words: &str) -> bool {
    let (next, words) = first_of(words);
    let (bytes, frames) = first_of(words);
    is_number(next, Some(i128::from(datagram.next)))
        && are_bytes(datagram.bytes.bytes(), bytes)
        && are_frames(frames, datagram.frames.slice())
}

fn conflict_text(kind: ConflictKind) -> &'static str {
    match kind {
        ConflictKind::TooLong => "too long",
        ConflictKind::MultipleTails => "another end",
        ConflictKind::Overlap6 => "overlap",
    }
}

fn is_joined(joined: &Joined, words: &str) -> bool {
    match joined {
        Joined::Pending => words == "pending",
        Joined::Conflict(kind) => words == conflict_text(*kind),
        Joined::Whole(datagram) => match words.strip_prefix("whole ") {
            Some(words) => is_whole(datagram, words),
            None => false,
        },
    }
}

fn makes(
    joins: &mut Joins,
    frame: u32,
    head: &FragmentHead,
    bytes: &Octets,
    words: &str,
) -> Result<bool, NoMemory> {
    if !head.whole {
        return Ok(false);
    }
    let joined = joins.take(head, frame, bytes)?;
    Ok(is_joined(&joined, words))
}

fn line_holds(joins: &mut Joins, alloc: Global, frame: u32, line: &str) -> Result<bool, NoMemory> {
    let (fragment, told) = line.split_once(" -> ").unwrap_or((line, ""));
    let Some((head, bytes)) = head_of(fragment) else {
        return Ok(false);
    };
    let bytes = octets_of(alloc, bytes)?;
    makes(joins, frame, &head, &bytes, told)
}

fn lines_hold(joins: &mut Joins, alloc: Global, lines: &str) -> Result<bool, NoMemory> {
    let mut frame = 0u32;
    for line in lines.lines() {
        frame = frame.saturating_add(1);
        if !line_holds(joins, alloc, frame, line)? {
            return Ok(false);
        }
    }
    Ok(true)
}

/// Gives fragments up, whose destructor is written out at each place where they are dropped.
fn give_up(_joins: Joins) {}

pub(crate) fn hold(alloc: Global, row: &str) -> Result<bool, NoMemory> {
    let (_, lines) = row.split_once('\n').unwrap_or((row, "?"));
    let mut joins = Joins::new(alloc);
    let hold = lines_hold(&mut joins, alloc, lines);
    give_up(joins);
    hold
}
