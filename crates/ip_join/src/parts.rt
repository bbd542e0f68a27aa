ghost use Rattle.std.specs.Prelude.{◌≡◌, ◌==◌, ◌&&◌, not, ◌+◌, ◌≤◌, ◌<◌, ℕ, true, [], ◌∷◌, ◌++◌, length, map, find, Some, None, if◌then◌else◌, unwrap_or, option_map, IfOk, OnOk, IfSome, IfNone};
ghost use Rattle.std.specs.Option.{option_or};
ghost use Rattle.std.specs.List.{list_any};
ghost use Rattle.std.specs.BTreeMap as tree;
ghost use Rattle.std.specs.Ordering.{nat_cmp};
ghost use Rattle.range_bytes.specs.Held.{HoldsAll};
ghost use Rattle.ip_join.specs.Fragments.{bytes_in, end_of, overlaps, repeats, map_of, end_after, holds_below};
ghost use Rattle.ip_join.specs.Datagrams.{conflict_of, has_two_ends, misses_end, is_overlap_six, whole_end, next_of as next_value, datagram_if_whole};
ghost use Rattle.ip_join.specs.Kept.{AreFirst, has_bytes, last_end, first_copy};

use crate::fragment::Fragment;
use crate::joined::{ConflictKind, Datagram};
use pk_base::{DATAGRAM_LIMIT, FragmentHead, NoMemory, Numbers, Octets};
use range_bytes::Ranges;
use std::alloc::Global;
use std::collections::BTreeMap;
use std::marker::Model;

/// The fragments of one datagram that isn't whole yet.
pub(crate) struct Parts {
    alloc: Global,
    /// In the order in which they were taken.
    counted: Vec<Fragment>,
    held: Ranges,
    /// Where the datagram ends, once a fragment says so.
    end: Option<u64>,
    /// Where the fragment with bytes ends that ends last.
    last: u64,
    /// By offsets, the bytes of the first IPv6 fragment with bytes there.
    firsts: BTreeMap<u32, Octets>,
}

impl Drop for Parts {
    fn drop(self) {
        let Parts {
            alloc: _,
            counted: _counted,
            held: _held,
            end: _,
            last: _,
            firsts: _firsts,
        } = self;
    }
}

impl Model for Parts {
    ghost use Rattle.std.specs.Prelude.{List};
    ghost use Rattle.ip_join.specs.declared.fragment.Fragment.{Fragment as FragmentValue};
    ghost use Rattle.ip_join.specs.Kept.{IsKept};

    ghost Value = { List FragmentValue };

    ghost view = { λ parts. parts.counted.items };

    ghost invariant = { λ parts.
        IsKept parts.counted.items parts.held parts.end parts.last parts.firsts };
}

impl Parts {
    pub(crate) fn new(alloc: Global) -> Parts
        ensures { result ≡ [] }
    {
        Parts {
            alloc,
            counted: Vec::new(alloc),
            held: Ranges::new(alloc),
            end: None,
            last: 0,
            firsts: BTreeMap::new(alloc),
        }
    }

    /// How a fragment goes against these, if it does.
    pub(crate) fn conflict(&self, new: &Fragment) -> Option<ConflictKind>
        ensures kind { (new.now.head.six ≡ true → AreFirst self.now)
            → result ≡ conflict_of self.now new.now }
        ensures short { IfNone result (end_of new.now ≤ 65535) }
    {
        if u64::from(DATAGRAM_LIMIT) < new.end() {
            return Some(ConflictKind::TooLong);
        }
        if self.has_two_ends(new) {
            return Some(ConflictKind::MultipleTails);
        }
        if self.is_overlap_six(new) {
            return Some(ConflictKind::Overlap6);
        }
        None
    }

    fn has_two_ends(&self, new: &Fragment) -> bool
        ensures { result ≡ has_two_ends self.now new.now }
    {
        misses_end(self.end, new) || (!new.head.more && new.end() < self.last)
    }

    fn is_overlap_six(&self, new: &Fragment) -> bool
        ensures { (new.now.head.six ≡ true → AreFirst self.now)
            → result ≡ is_overlap_six self.now new.now }
    {
        new.head.six && self.overlaps_anew(new)
    }

    /// Whether a fragment has a position in common with one of these, and isn't one of them once more.
    fn overlaps_anew(&self, new: &Fragment) -> bool
        ensures { AreFirst self.now
            → result ≡ (list_any (overlaps new.now) self.now
            && not (list_any (repeats new.now) self.now)) }
    {
        self.overlaps(new) && !self.repeats(new)
    }

    /// Whether a fragment has a position in common with one of these.
    fn overlaps(&self, new: &Fragment) -> bool
        ensures { result ≡ list_any (overlaps new.now) self.now }
    {
        match self.held.next_held(u64::from(new.head.offset)) {
            Some(next) => next < new.end(),
            None => false,
        }
    }

    /// Whether a fragment has the bytes of the first one at its offset.
    fn repeats(&self, new: &Fragment) -> bool
        ensures { AreFirst self.now → has_bytes new.now ≡ true
            → result ≡ list_any (repeats new.now) self.now }
    {
        match self.firsts.get(&new.head.offset) {
            Some(bytes) => bytes.bytes() == new.bytes.bytes(),
            None => false,
        }
    }

    /// These and one more.
    pub(crate) fn with(self, new: Fragment) -> Result<Parts, NoMemory>
        requires { end_of new ≤ 65535 }
        ensures { IfOk result (λ parts. parts ≡ self ++ new ∷ []) }
    {
        let Parts {
            alloc,
            mut counted,
            mut held,
            end,
            last,
            mut firsts,
        } = self;
        held.insert(u64::from(new.head.offset), &new.bytes, new.frame)?;
        keep_first(&mut firsts, &new)?;
        let end = end_with(end, &new);
        let last = last_with(last, &new);
        push(&mut counted, new)?;
        Ok(Parts {
            alloc,
            counted,
            held,
            end,
            last,
            firsts,
        })
    }

    /// The datagram, if it is whole, by the head of the last fragment.
    pub(crate) fn datagram(&self, head: FragmentHead) -> Result<Option<Datagram>, NoMemory>
        ensures whole { IfOk result (λ datagram. datagram ≡ datagram_if_whole self.now head) }
        ensures short { IfOk result (λ datagram. IfSome datagram (λ d. length d.bytes ≤ 65535)) }
        ensures brought { IfOk result (λ datagram.
            IfSome datagram (λ d. length d.bytes ≤ bytes_in self.now)) }
    {
        match self.whole_end() {
            Some(end) => Ok(Some(Datagram {
                next: next_of(&self.counted, head),
                bytes: self.held.copy(0, end)?,
                frames: frames_of(self.alloc, &self.counted)?,
            })),
            None => Ok(None),
        }
    }

    /// The end, if all positions below it are held.
    fn whole_end(&self) -> Option<u64>
        ensures end { result ≡ whole_end self.now }
        ensures held { IfSome result (HoldsAll (map_of self.now) 0) }
        ensures short { IfSome result (λ end. end ≤ 65535) }
    {
        match self.end {
            Some(end) => end_if_held(&self.held, end),
            None => None,
        }
    }
}

fn end_with(end: Option<u64>, new: &Fragment) -> Option<u64>
    ensures { result ≡ end_after end (new.now ∷ []) }
{
    if new.head.more { end } else { Some(new.end()) }
}

fn end_if_held(held: &Ranges, end: u64) -> Option<u64>
    ensures end { result ≡ (if holds_below held.now end then Some end else None) }
    ensures held { IfSome result (HoldsAll held.now 0) }
{
    if end <= held.front() { Some(end) } else { None }
}

fn misses_end(end: Option<u64>, new: &Fragment) -> bool
    ensures { result ≡ misses_end end new.now }
{
    match end {
        Some(end) => end < new.end() || (!new.head.more && new.end() != end),
        None => false,
    }
}

fn last_with(last: u64, new: &Fragment) -> u64
    ensures { result ≡ last_end last (new.now ∷ []) }
{
    if new.has_bytes() {
        last.max(new.end())
    } else {
        last
    }
}

/// Keeps the bytes of an IPv6 fragment, if it is the first with bytes at its offset.
fn keep_first(firsts: &mut BTreeMap<u32, Octets>, new: &Fragment) -> Result<(), NoMemory>
    ensures { OnOk result ((offset : ℕ)
        → tree.get nat_cmp firsts.new offset
        ≡ option_or (tree.get nat_cmp firsts.old offset) (first_copy offset (new.now ∷ []))) }
{
    if new.head.six && new.has_bytes() && !firsts.contains_key(&new.head.offset) {
        firsts.insert(new.head.offset, new.bytes.clone()?)?;
    }
    Ok(())
}

/// One more fragment. A few take no more memory than they need.
fn push(counted: &mut Vec<Fragment>, new: Fragment) -> Result<(), NoMemory>
    ensures { OnOk result (counted.new.items ≡ counted.old.items ++ new ∷ []) }
{
    if counted.len() < 4 {
        counted.reserve_exact(1)?;
    }
    counted.push(new)?;
    Ok(())
}

/// What a datagram carries: under IPv6 what its first fragment with offset 0 says (RFC 8200, 4.5).
fn next_of(fragments: &[Fragment], head: FragmentHead) -> u8
    ensures { result ≡ next_value fragments.now head }
{
    if head.six {
        first_next(fragments, head.next)
    } else {
        head.next
    }
}

fn first_next(fragments: &[Fragment], default: u8) -> u8
    ensures { result ≡ unwrap_or
        (option_map (λ g. g.head.next) (find (λ g. g.head.offset == 0) fragments.now)) default }
{
    for g in fragments {
        if g.head.offset == 0 {
            return g.head.next;
        }
    }
    default
}

fn frames_of(alloc: Global, fragments: &[Fragment]) -> Result<Numbers, NoMemory>
    ensures { IfOk result (λ frames. frames ≡ map (λ g. g.frame) fragments.now) }
{
    let mut frames = Vec::with_capacity(alloc, fragments.len())?;
    for g in fragments {
        frames.push(g.frame)?;
    }
    Ok(Numbers::from_vec(frames))
}
