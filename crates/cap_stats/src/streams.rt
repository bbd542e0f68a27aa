// TCP streams, by their numbers.
ghost use Rattle.std.specs.Prelude.{◌≡◌, ◌<◌, ◌≤◌, ◌^◌, ℕ, None, true, false, List, [], ◌∷◌, ◌++◌, length, IfOk, IfSome, OnOk};
ghost use Rattle.std.specs.BTreeMap.{btree_map_len, keys};
ghost use Rattle.std.specs.List.{flat_map};
ghost use Rattle.std.specs.Option.{option_copied};
ghost use Rattle.cap_stats.specs.declared.party.Flight.{Flight as FlightValue};
ghost use Rattle.cap_stats.specs.Few.{HasTalkRoom};
ghost use Rattle.cap_stats.specs.Keys.{below};
ghost use Rattle.cap_stats.specs.Stands.{HasStreams, talk_at};
ghost use Rattle.cap_stats.specs.Tables.{streams_table, stream_line};

use crate::counts::{Talk, first_talk, raise_talk};
use crate::lines::{begin_table, put_talk};
use crate::party::Flight;
use pk_base::NoMemory;
use pk_text::{Decimal, Slab};
use std::alloc::Global;
use std::collections::BTreeMap;

/// What was sent in each stream. Where all frames are noted, streams come with the numbers 0, 1, 2, ..: these are found by their
/// place in a list.
pub(crate) struct Streams {
    /// The streams whose numbers came in turn, from 0 on.
    pub first: Vec<Talk>,
    /// All others.
    pub rest: BTreeMap<u64, Talk>,
}

impl Drop for Streams {
    fn drop(self) {
        let Streams {
            first: _first,
            rest: _rest,
        } = self;
    }
}

impl Streams {
    #[tactic(auto, unfolding(crate::specs::Counts::talk_of, crate::specs::Keys::numbers_in))]
    pub fn new(alloc: Global) -> Streams
        ensures { HasStreams [] result }
    {
        Streams {
            first: Vec::new(alloc),
            rest: BTreeMap::new(alloc),
        }
    }

    /// Notes a segment of a stream.
    pub fn add(&mut self, number: u64, flight: &Flight) -> Result<(), NoMemory>
        requires room { IfSome (talk_at self.old number) HasTalkRoom }
        requires short { flight.now.bytes < 2 ^ 32 }
        ensures { OnOk result ((notes : List (ℕ × FlightValue)) → HasStreams notes self.old
            → HasStreams ((number, flight.now) ∷ notes) self.new) }
    {
        if self.raise(number, flight) {
            return Ok(());
        }
        self.put(number, flight)?;
        Ok(())
    }

    /// Notes a segment of a stream that is there, and answers whether it is.
    fn raise(&mut self, number: u64, flight: &Flight) -> bool
        requires room { IfSome (talk_at self.old number) HasTalkRoom }
        requires short { flight.now.bytes < 2 ^ 32 }
        ensures raised { result ≡ true → (notes : List (ℕ × FlightValue)) → HasStreams notes self.old
            → HasStreams ((number, flight.now) ∷ notes) self.new }
        ensures absent { result ≡ false → talk_at self.new number ≡ None }
        ensures kept { result ≡ false → (notes : List (ℕ × FlightValue)) → HasStreams notes self.old
            → HasStreams notes self.new }
    {
        let place = number as usize;
        if place < self.first.len() {
            raise_talk(&mut self.first[place], &flight.from, flight.bytes);
            true
        } else {
            self.raise_rest(number, flight)
        }
    }

    /// The same, where the number is none of those that came in turn.
    fn raise_rest(&mut self, number: u64, flight: &Flight) -> bool
        requires behind { length self.old.first.items ≤ number }
        requires room { IfSome (talk_at self.old number) HasTalkRoom }
        requires short { flight.now.bytes < 2 ^ 32 }
        ensures raised { result ≡ true → (notes : List (ℕ × FlightValue)) → HasStreams notes self.old
            → HasStreams ((number, flight.now) ∷ notes) self.new }
        ensures absent { result ≡ false → talk_at self.new number ≡ None }
        ensures kept { result ≡ false → (notes : List (ℕ × FlightValue)) → HasStreams notes self.old
            → HasStreams notes self.new }
    {
        match self.rest.get_mut(&number) {
            Some(talk) => {
                raise_talk(talk, &flight.from, flight.bytes);
                true
            }
            None => false,
        }
    }

    /// Notes the first segment of a stream.
    fn put(&mut self, number: u64, flight: &Flight) -> Result<(), NoMemory>
        requires { talk_at self.old number ≡ None }
        ensures { OnOk result ((notes : List (ℕ × FlightValue)) → HasStreams notes self.old
            → HasStreams ((number, flight.now) ∷ notes) self.new) }
    {
        let talk = first_talk(flight);
        if self.is_next(number) {
            self.first.push(talk)?;
            Ok(())
        } else {
            self.rest.insert(number, talk)?;
            Ok(())
        }
    }

    /// Whether a number comes in turn.
    fn is_next(&self, number: u64) -> bool
        ensures { result ≡ true → (number ≡ length self.now.first.items) × (btree_map_len self.now.rest ≡ 0) }
    {
        number == self.first.len() as u64 && self.rest.is_empty()
    }

    /// What was sent in the stream of a number.
    fn talk(&self, number: u64) -> Option<&Talk>
        ensures { option_copied result ≡ talk_at self.now number }
    {
        match self.first.get(number as usize) {
            Some(talk) => Some(talk),
            None => self.rest.get(&number),
        }
    }

    /// The table, with a line for each stream.
    pub fn table(&self, alloc: Global) -> Result<Vec<u8>, NoMemory>
        ensures { IfOk result (λ text. (notes : List (ℕ × FlightValue)) → HasStreams notes self.now
            → text.items ≡ streams_table notes) }
    {
        let mut text = begin_table(alloc, "conv tcp ", self.first.len() + self.rest.len())?;
        put_first(alloc, &mut text, self)?;
        put_rest(alloc, &mut text, self)?;
        Ok(text)
    }
}

/// Appends a line for each stream whose number came in turn.
fn put_first(alloc: Global, text: &mut Vec<u8>, streams: &Streams) -> Result<(), NoMemory>
    ensures { OnOk result (text.new.items
        ≡ text.old.items ++ flat_map (λ n. stream_line n (talk_at streams.now n))
        (below (length streams.now.first.items))) }
{
    let mut line = Slab::new(alloc);
    for number in 0..streams.first.len() as u64 {
        put_stream(alloc, text, &mut line, number, streams.talk(number))?;
    }
    Ok(())
}

/// Appends a line for each other stream.
fn put_rest(alloc: Global, text: &mut Vec<u8>, streams: &Streams) -> Result<(), NoMemory>
    ensures { OnOk result (text.new.items
        ≡ text.old.items ++ flat_map (λ n. stream_line n (talk_at streams.now n))
        (keys streams.now.rest)) }
{
    let mut line = Slab::new(alloc);
    for number in streams.rest.keys() {
        put_stream(alloc, text, &mut line, *number, streams.talk(*number))?;
    }
    Ok(())
}

/// Appends the line of a stream, which is put together beside the text.
fn put_stream(
    alloc: Global,
    text: &mut Vec<u8>,
    line: &mut Slab,
    number: u64,
    talk: Option<&Talk>,
) -> Result<(), NoMemory>
    ensures { OnOk result (text.new.items
        ≡ text.old.items ++ stream_line number (option_copied talk.entry)) }
{
    match talk {
        None => Ok(()),
        Some(talk) => {
            line.clear();
            line.put_short(&Decimal(number))?;
            line.put_byte(b' ')?;
            put_talk(alloc, line, talk)?;
            text.extend_from_slice(line.text())?;
            Ok(())
        }
    }
}
