// Pairs of IPv4 addresses, in the order of their first packets.
ghost use Rattle.std.specs.Prelude.{◌≡◌, ◌<◌, ◌≤◌, ◌^◌, ℕ, None, Some, List, [], ◌∷◌, ◌++◌, length, IfOk, IfSome, OnOk};
ghost use Rattle.std.specs.BTreeMap.{get};
ghost use Rattle.std.specs.List.{flat_map, slice_get};
ghost use Rattle.std.specs.Option.{option_copied};
ghost use Rattle.cap_stats.specs.Keys.{pair_cmp, same_pair};
ghost use Rattle.cap_stats.specs.declared.party.Flight.{Flight as FlightValue};
ghost use Rattle.cap_stats.specs.Few.{HasTalkRoom};
ghost use Rattle.cap_stats.specs.Stands.{HasPairs, pair_talk};
ghost use Rattle.cap_stats.specs.Steps.{flight_of, packet_note};
ghost use Rattle.cap_stats.specs.Tables.{pairs_table, pair_line};
ghost use Rattle.cap_stats.specs.Told.{pair_of};

use crate::counts::{Talk, first_talk, raise_talk};
use crate::lines::{begin_table, put_talk};
use crate::party::{Flight, Packet};
use crate::told::{host, pair_of};
use pk_base::NoMemory;
use pk_text::Slab;
use std::alloc::Global;
use std::collections::BTreeMap;

/// How many places are kept at hand.
const AT_HAND: usize = 1024;

/// What was sent between each two addresses. The map is ordered, so that no choice of addresses makes a search in it long.
pub(crate) struct Pairs {
    /// The pairs, in the order of their first packets, and what was sent between each.
    pub order: Vec<(u32, u32)>,
    pub talks: Vec<Talk>,
    /// The places of the pairs in their order.
    pub all: BTreeMap<(u32, u32), usize>,
    /// Places where pairs were found, each where its pair is looked for again. The pair that stands at one decides whether it is right.
    pub at_hand: Vec<usize>,
}

impl Drop for Pairs {
    fn drop(self) {
        let Pairs {
            order: _order,
            talks: _talks,
            all: _all,
            at_hand: _at_hand,
        } = self;
    }
}

impl Pairs {
    #[tactic(auto, unfolding(crate::specs::Counts::talk_of, crate::specs::Keys::pairs_in))]
    pub fn new(alloc: Global) -> Pairs
        ensures { HasPairs [] result }
    {
        Pairs {
            order: Vec::new(alloc),
            talks: Vec::new(alloc),
            all: BTreeMap::new(alloc),
            at_hand: Vec::new(alloc),
        }
    }

    /// Notes a packet.
    pub fn add(&mut self, packet: Packet) -> Result<(), NoMemory>
        requires known { (notes : List ((ℕ × ℕ) × FlightValue)) × HasPairs notes self.old }
        requires room { IfSome (pair_talk self.old (pair_of packet.source packet.target)) HasTalkRoom }
        requires short { packet.bytes < 2 ^ 32 }
        ensures { OnOk result ((notes : List ((ℕ × ℕ) × FlightValue)) → HasPairs notes self.old
            → HasPairs (packet_note packet ∷ notes) self.new) }
    {
        let pair = pair_of(packet.source, packet.target);
        let place = self.note(pair, packet)?;
        keep_at_hand(&mut self.at_hand, pair, place);
        Ok(())
    }

    /// Notes a packet, and answers the place of its pair.
    #[inline(always)]
    fn note(&mut self, pair: (u32, u32), packet: Packet) -> Result<usize, NoMemory>
        requires known { (notes : List ((ℕ × ℕ) × FlightValue)) × HasPairs notes self.old }
        requires room { IfSome (pair_talk self.old pair) HasTalkRoom }
        requires short { packet.bytes < 2 ^ 32 }
        ensures { OnOk result ((notes : List ((ℕ × ℕ) × FlightValue)) → HasPairs notes self.old
            → HasPairs ((pair, flight_of packet) ∷ notes) self.new) }
    {
        match self.place_of(pair) {
            Some(place) => {
                self.raise(place, packet);
                Ok(place)
            }
            None => self.put(pair, packet),
        }
    }

    /// The place of a pair, if it is there.
    #[inline(always)]
    fn place_of(&self, pair: (u32, u32)) -> Option<usize>
        requires { (notes : List ((ℕ × ℕ) × FlightValue)) × HasPairs notes self.now }
        ensures { result ≡ get pair_cmp self.now.all pair }
    {
        match self.place_at_hand(pair) {
            Some(place) => Some(place),
            None => self.all.get(&pair).copied(),
        }
    }

    /// The place of a pair, where it is at hand.
    #[inline(always)]
    fn place_at_hand(&self, pair: (u32, u32)) -> Option<usize>
        ensures { IfSome result (λ place. slice_get self.now.order.items place ≡ Some pair) }
    {
        let place = self.at_hand.get(hand_of(pair)).copied()?;
        match self.order.get(place) {
            Some(known) if is_pair(*known, pair) => Some(place),
            _ => None,
        }
    }

    /// Notes a packet of the pair at a place.
    #[inline(always)]
    fn raise(&mut self, place: usize, packet: Packet)
        requires within { place < length self.old.talks.items }
        requires room { IfSome (slice_get self.old.talks.items place) HasTalkRoom }
        requires short { packet.bytes < 2 ^ 32 }
        ensures { (pair : ℕ × ℕ) → get pair_cmp self.old.all pair ≡ Some place
            → (notes : List ((ℕ × ℕ) × FlightValue)) → HasPairs notes self.old
            → HasPairs ((pair, flight_of packet) ∷ notes) self.new }
    {
        raise_talk(&mut self.talks[place], &host(packet.source), packet.bytes);
    }

    /// Notes the first packet of a pair, and answers its place.
    #[inline(never)]
    fn put(&mut self, pair: (u32, u32), packet: Packet) -> Result<usize, NoMemory>
        requires { get pair_cmp self.old.all pair ≡ None }
        ensures { OnOk result ((notes : List ((ℕ × ℕ) × FlightValue)) → HasPairs notes self.old
            → HasPairs ((pair, flight_of packet) ∷ notes) self.new) }
    {
        let place = self.talks.len();
        let talk = first_talk(&flight_of(packet));
        self.order.push(pair)?;
        self.talks.push(talk)?;
        self.all.insert(pair, place)?;
        fill_hand(&mut self.at_hand)?;
        Ok(place)
    }

    /// What was sent between two addresses.
    fn talk(&self, pair: (u32, u32)) -> Option<&Talk>
        ensures { option_copied result ≡ pair_talk self.now pair }
    {
        let place = self.all.get(&pair).copied()?;
        self.talks.get(place)
    }

    /// The table, with a line for each pair.
    pub fn table(&self, alloc: Global) -> Result<Vec<u8>, NoMemory>
        ensures { IfOk result (λ text. (notes : List ((ℕ × ℕ) × FlightValue))
            → HasPairs notes self.now → text.items ≡ pairs_table notes) }
    {
        let mut text = begin_table(alloc, "conv ip ", self.order.len())?;
        put_pairs(alloc, &mut text, self.order.as_slice(), self)?;
        Ok(text)
    }
}

/// Appends a line for each pair.
fn put_pairs(
    alloc: Global,
    text: &mut Vec<u8>,
    order: &[(u32, u32)],
    pairs: &Pairs,
) -> Result<(), NoMemory>
    ensures { OnOk result (text.new.items
        ≡ text.old.items ++ flat_map (λ p. pair_line (pair_talk pairs.now p)) order.now) }
{
    let mut line = Slab::new(alloc);
    for pair in order {
        put_pair(alloc, text, &mut line, pairs.talk(*pair))?;
    }
    Ok(())
}

/// Appends the line of a pair, which is put together beside the text.
fn put_pair(
    alloc: Global,
    text: &mut Vec<u8>,
    line: &mut Slab,
    talk: Option<&Talk>,
) -> Result<(), NoMemory>
    ensures { OnOk result (text.new.items
        ≡ text.old.items ++ pair_line (option_copied talk.entry)) }
{
    match talk {
        None => Ok(()),
        Some(talk) => {
            line.clear();
            put_talk(alloc, line, talk)?;
            text.extend_from_slice(line.text())?;
            Ok(())
        }
    }
}

#[inline(always)]
fn is_pair(one: (u32, u32), other: (u32, u32)) -> bool
    ensures { result ≡ same_pair one other }
{
    one.0 == other.0 && one.1 == other.1
}

fn flight_of(packet: Packet) -> Flight
    ensures { result ≡ flight_of packet }
{
    Flight {
        from: host(packet.source),
        to: host(packet.target),
        bytes: packet.bytes,
    }
}

/// Where the place of a pair is kept at hand. Any other choice would do: this one is quick, and seldom the same for pairs that
/// are looked for in turn.
#[inline(always)]
fn hand_of(pair: (u32, u32)) -> usize
    ensures { result < 1024 }
{
    let mixed = u64::from(pair.0 ^ pair.1) * 2_654_435_769;
    (mixed >> 22) as usize % AT_HAND
}

/// Keeps the place of a pair at hand.
#[inline(always)]
fn keep_at_hand(hand: &mut Vec<usize>, pair: (u32, u32), place: usize)
    ensures { length hand.new.items ≡ length hand.old.items }
{
    if let Some(kept) = hand.get_mut(hand_of(pair)) {
        *kept = place;
    }
}

/// Sees that there is room for places at hand.
fn fill_hand(hand: &mut Vec<usize>) -> Result<(), NoMemory>
    ensures { OnOk result (1024 ≤ length hand.new.items) }
{
    if hand.len() < AT_HAND {
        hand.resize(AT_HAND, 0)?;
    }
    Ok(())
}
