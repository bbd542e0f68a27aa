ghost use Rattle.std.specs.Prelude.{◌≡◌, ℕ, false, codes, length, ◌+◌, ◌-◌, ◌*◌, ◌^◌, ◌<◌, ◌≤◌, ◌++◌, ◌/◌, ◌%◌, ◌==◌, IfOk, IfSome, OnOk, option_and_then, nat_lt, if◌then◌else◌};
ghost use Rattle.std.specs.String.{string_bytes};
ghost use Rattle.std.specs.Option.{option_map};
ghost use Rattle.std.specs.List.{flat_map, prefix_len};
ghost use Rattle.std.specs.Fmt.{digits};
ghost use Rattle.pk_text.specs.Digits.{short_read};
ghost use Rattle.pk_text.specs.Ip6.{Ip6Form, IsIp6Form, IsIp6Text, IsBestRun, groups_of, groups_shown, groups_written, ip6_form_text, ip6_form_value, ip6_of, ip6_shown, gap_in, side_of, side_more, shortened_of, whole_of};

use crate::digits::read_short;
use crate::puts::{TextSink, high_digit, low_digit};
use pk_base::NoMemory;
use std::alloc::Global;

/// The groups of an address.
const GROUPS: usize = 8;

/// The digits of a group, at most.
const GROUP_DIGITS: usize = 4;

/// One more than the greatest group.
const GROUP: u128 = 0x1_0000;

/// The bytes of a text, at most: eight groups of four digits, and seven colons.
const TEXT_LEN: usize = 39;

/// Zero groups that stand side by side: the place of the first, and how many.
#[derive(Clone, Copy)]
struct Run {
    start: usize,
    count: usize,
}

/// Groups that stand side by side: how many, and the number that they make.
#[derive(Clone, Copy)]
struct Side {
    count: usize,
    number: u128,
}

/// An IPv6 address as RFC 5952 recommends, without the dotted form.
#[tactic(auto, using(crate::proofs::Ip6ShownLemmas::shown_text, crate::proofs::Ip6ShownLemmas::ip6_from_shown))]
pub fn ip6_text(alloc: Global, v: u128) -> Result<String, NoMemory>
    ensures recommended { IfOk result (λ text. IsIp6Text (groups_of v) (string_bytes text)) }
    // RFC 5952 recommends one text, and a definition computes it.
    ensures text { IfOk result (λ text. string_bytes text ≡ ip6_shown v) }
    ensures reads_back { IfOk result (λ text. ip6_of (string_bytes text) ≡ Some v) }
{
    let mut text = String::with_capacity(alloc, TEXT_LEN)?;
    put_ip6(&mut text, v)?;
    Ok(text)
}

/// Appends an IPv6 address as RFC 5952 recommends.
pub fn put_ip6<S: TextSink>(sink: &mut S, address: u128) -> Result<(), NoMemory>
    ensures { OnOk result (S.taken sink.new ≡ S.taken sink.old ++ ip6_shown address) }
{
    let groups = groups_of(address);
    put_address(sink, &groups, best_run(&groups))
}

/// The groups of an address, the highest first.
#[tactic(auto, unfolding(crate::specs::Ip6::groups_of))]
fn groups_of(address: u128) -> [u16; 8]
    ensures { result ≡ groups_of address }
{
    [
        group_at(address, 112),
        group_at(address, 96),
        group_at(address, 80),
        group_at(address, 64),
        group_at(address, 48),
        group_at(address, 32),
        group_at(address, 16),
        group_at(address, 0),
    ]
}

fn group_at(address: u128, place: u32) -> u16
    requires { place < 128 }
    ensures { result ≡ address / 2 ^ place % 2 ^ 16 }
{
    ((address >> place) % GROUP) as u16
}

/// Appends the groups, of which the run is shortened where it is longer than a group.
fn put_address<S: TextSink>(sink: &mut S, groups: &[u16], run: Run) -> Result<(), NoMemory>
    requires { run.start + run.count ≤ length groups.now }
    ensures { OnOk result (S.taken sink.new
        ≡ S.taken sink.old ++ groups_written groups.now (run.start, run.count)) }
{
    if run.count < 2 {
        return put_groups(sink, groups);
    }
    put_groups(sink, &groups[..run.start])?;
    sink.put_text("::")?;
    put_groups(sink, &groups[run.start + run.count..])
}

fn put_groups<S: TextSink>(sink: &mut S, groups: &[u16]) -> Result<(), NoMemory>
    ensures { OnOk result (S.taken sink.new ≡ S.taken sink.old ++ groups_shown groups.now) }
{
    let [first, rest @ ..] = groups else {
        return Ok(());
    };
    put_group(sink, *first)?;
    put_further_groups(sink, rest)
}

/// Groups behind the first, each behind a colon.
fn put_further_groups<S: TextSink>(sink: &mut S, groups: &[u16]) -> Result<(), NoMemory>
    ensures { OnOk result (S.taken sink.new
        ≡ S.taken sink.old ++ flat_map (λ group. codes ":" ++ digits 16 false group) groups.now) }
{
    for group in groups {
        sink.put_ascii(b':')?;
        put_group(sink, *group)?;
    }
    Ok(())
}

/// Appends a group without leading zeros.
#[tactic(auto, using(crate::proofs::GroupLemmas::one_digit, crate::proofs::GroupLemmas::two_digits, crate::proofs::GroupLemmas::three_digits, crate::proofs::GroupLemmas::four_digits))]
fn put_group<S: TextSink>(sink: &mut S, group: u16) -> Result<(), NoMemory>
    ensures { OnOk result (S.taken sink.new ≡ S.taken sink.old ++ digits 16 false group) }
{
    let (high, low) = ((group / 256) as u8, (group % 256) as u8);
    if group < 0x10 {
        sink.put_ascii(low_digit(low))
    } else if group < 0x100 {
        sink.put_digits(&[high_digit(low), low_digit(low)])
    } else if group < 0x1000 {
        sink.put_digits(&[low_digit(high), high_digit(low), low_digit(low)])
    } else {
        sink.put_digits(&[
            high_digit(high),
            low_digit(high),
            high_digit(low),
            low_digit(low),
        ])
    }
}

/// The longest run of zeros, and the first of those as long.
fn best_run(groups: &[u16]) -> Run
    ensures { IsBestRun groups.now result.start result.count }
{
    let mut best = Run { start: 0, count: 0 };
    for start in 0..groups.len() {
        let count = zeros_in_front(&groups[start..]);
        best = longer(best, Run { start, count });
    }
    best
}

fn longer(best: Run, next: Run) -> Run
    ensures { result ≡ (if nat_lt best.count next.count then next else best) }
{
    if best.count < next.count { next } else { best }
}

fn zeros_in_front(groups: &[u16]) -> usize
    ensures { result ≡ prefix_len (λ group. group == 0) groups.now }
{
    groups.iter().take_while(|group| **group == 0).count()
}

/// Reads an IPv6 address: eight groups of one to four hexadecimal digits joined by `:`, with at most one `::` in place of
/// one or more zero groups.
#[tactic(auto, using(crate::proofs::Ip6FormLemmas::ip6_found, crate::proofs::Ip6FormLemmas::ip6_only))]
pub fn read_ip6(text: &str) -> Option<u128>
    ensures computed { result ≡ ip6_of text.now }
    ensures found { (f : Ip6Form) → IsIp6Form f → text.now ≡ ip6_form_text f
        → result ≡ Some (ip6_form_value f) }
    ensures only { IfSome result (λ address. (f : Ip6Form) × IsIp6Form f
        × (text.now ≡ ip6_form_text f) × (address ≡ ip6_form_value f)) }
{
    ip6_in(text)
}

#[tactic(auto, unfolding(crate::specs::Ip6::ip6_of))]
fn ip6_in(text: &str) -> Option<u128>
    ensures { result ≡ ip6_of text.now }
{
    match gap_of(text) {
        Some((front, back)) => read_shortened(front, back),
        None => read_whole(text),
    }
}

/// What stands before the first `::` and behind it.
fn gap_of(text: &str) -> Option<(&str, &str)>
    ensures { option_map (λ sides. (sides.0.now, sides.1.now)) result ≡ gap_in text.now }
{
    text.split_once("::")
}

#[tactic(auto, unfolding(crate::specs::Ip6::whole_of))]
fn read_whole(text: &str) -> Option<u128>
    ensures { result ≡ whole_of text.now }
{
    let side = read_side(text)?;
    if side.count == GROUPS {
        Some(side.number)
    } else {
        None
    }
}

#[tactic(auto, unfolding(crate::specs::Ip6::shortened_of))]
fn read_shortened(front: &str, back: &str) -> Option<u128>
    ensures { result ≡ shortened_of (front.now, back.now) }
{
    let front = read_side(front)?;
    let back = read_side(back)?;
    if front.count + back.count >= GROUPS {
        return None;
    }
    Some(placed_first(front) + back.number)
}

/// The address whose first groups are those of a side, and the others zero.
fn placed_first(side: Side) -> u128
    requires count { side.count ≤ 7 }
    requires below { side.number < (2 ^ 16) ^ side.count }
    ensures value { result ≡ side.number * (2 ^ 16) ^ (8 - side.count) }
    ensures room { result + (2 ^ 16) ^ (8 - side.count) ≤ 2 ^ 128 }
{
    // The power of all eight groups would not fit.
    let behind_next = (GROUPS - 1 - side.count) as u32;
    side.number * GROUP.pow(behind_next) * GROUP
}

/// The groups of a text without `::`; None where there are more than eight.
#[tactic(auto, unfolding(crate::specs::Ip6::side_of))]
fn read_side(text: &str) -> Option<Side>
    ensures value { option_map (λ side. (side.count, side.number)) result ≡ side_of text.now }
    ensures count { IfSome result (λ side. side.count ≤ 8) }
    ensures below { IfSome result (λ side. side.number < (2 ^ 16) ^ side.count) }
{
    let mut side = Side {
        count: 0,
        number: 0,
    };
    if text.is_empty() {
        return Some(side);
    }
    for word in text.split(':') {
        side = with_word(side, word)?;
    }
    Some(side)
}

fn with_word(side: Side, word: &str) -> Option<Side>
    requires count { side.count ≤ 8 }
    requires below { side.number < (2 ^ 16) ^ side.count }
    ensures value { option_map (λ more. (more.count, more.number)) result
        ≡ option_and_then (side_more (side.count, side.number)) (short_read 16 4 word.now) }
    ensures count { IfSome result (λ more. more.count ≤ 8) }
    ensures below { IfSome result (λ more. more.number < (2 ^ 16) ^ more.count) }
{
    let group = read_short(word.as_bytes(), 16, GROUP_DIGITS)?;
    if side.count == GROUPS {
        return None;
    }
    Some(Side {
        count: side.count + 1,
        number: side.number * GROUP + u128::from(group),
    })
}
