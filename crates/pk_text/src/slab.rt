// A text in memory that is filled beforehand: what is appended is stored behind one look for room, without a call.
ghost use Rattle.std.specs.Prelude.{◌≡◌, ℕ, ◌+◌, ◌≤◌, List, [], ◌∷◌, ◌++◌, decimal, length, take, OnOk};
ghost use Rattle.pk_text.specs.Places.{Placed};

use crate::places::{place, place_number};
use crate::puts::TextSink;
use pk_base::NoMemory;
use std::alloc::Global;
use std::marker::Model;

/// How many bytes a short text has at most.
const SHORT: usize = 256;

/// How many bytes are filled at once, at least.
const LEAST_AHEAD: usize = 512;

/// A text of at most 256 bytes, of which all parts are stored behind one look for room.
pub trait ShortText {
    /// The text.
    ghost text: { Self → List ℕ };

    /// Stores the text at the front of a room, and tells where it ends.
    fn place(&self, room: &mut [u8]) -> usize
        requires { 256 ≤ length room.old }
        ensures { Placed room.old room.new 0 (text self.now) result };
}

/// A number in decimal.
#[derive(Clone, Copy)]
pub struct Decimal(pub u64);

impl ShortText for Decimal {
    ghost text = { λ number. decimal number.0 };

    #[inline(always)]
    fn place(&self, room: &mut [u8]) -> usize {
        place_number(room, 0, self.0)
    }
}

/// A text that grows, and keeps its memory when it is cleared.
#[derive(Drop)]
pub struct Slab {
    /// The text, and what may be overwritten behind it.
    bytes: Vec<u8>,
    /// Where the text ends.
    end: usize,
}

impl Model for Slab {
    ghost use Rattle.std.specs.Prelude.{ℕ, List, ◌≤◌, length, take};

    ghost Value = { List ℕ };

    ghost view = { λ slab. take slab.end slab.bytes.items };

    ghost invariant = { λ slab. slab.end ≤ length slab.bytes.items };
}

impl Slab {
    /// No text, which takes no memory.
    pub fn new(alloc: Global) -> Slab
        ensures { result ≡ [] }
    {
        Slab {
            bytes: Vec::new(alloc),
            end: 0,
        }
    }

    pub fn clear(&mut self)
        ensures { self.new ≡ [] }
    {
        self.end = 0;
    }

    pub fn text(&self) -> &[u8]
        ensures { result.now ≡ self.now }
    {
        &self.bytes[..self.end]
    }

    /// Appends bytes. Where their number is known when the program is made, this takes a few stores.
    #[inline(always)]
    pub fn put(&mut self, bytes: &[u8]) -> Result<(), NoMemory>
        ensures { OnOk result (self.new ≡ self.old ++ bytes.now) }
    {
        make_room(&mut self.bytes, self.end, bytes.len())?;
        self.end = place(self.bytes.as_mut_slice(), self.end, bytes);
        Ok(())
    }

    /// Appends a short text.
    #[inline(always)]
    pub fn put_short<T: ShortText>(&mut self, text: &T) -> Result<(), NoMemory>
        ensures { OnOk result (self.new ≡ self.old ++ T.text text.now) }
    {
        make_room(&mut self.bytes, self.end, SHORT)?;
        self.end = place_short(self.bytes.as_mut_slice(), self.end, text);
        Ok(())
    }

    #[inline(always)]
    pub fn put_byte(&mut self, byte: u8) -> Result<(), NoMemory>
        ensures { OnOk result (self.new ≡ self.old ++ byte ∷ []) }
    {
        make_room(&mut self.bytes, self.end, 1)?;
        self.bytes[self.end] = byte;
        self.end += 1;
        Ok(())
    }
}

impl TextSink for Slab {
    ghost taken = { λ slab. slab };

    #[inline(always)]
    fn put_text(&mut self, text: &str) -> Result<(), NoMemory> {
        self.put(text.as_bytes())
    }

    #[inline(always)]
    fn put_ascii(&mut self, character: u8) -> Result<(), NoMemory> {
        self.put_byte(character)
    }

    #[inline(always)]
    fn put_digits(&mut self, digits: &[u8]) -> Result<(), NoMemory> {
        self.put(digits)
    }
}

/// Sees that so many bytes behind a place are filled. Those before it stay.
#[inline(always)]
fn make_room(bytes: &mut Vec<u8>, end: usize, more: usize) -> Result<(), NoMemory>
    requires { end ≤ length bytes.old.items }
    ensures same { take end bytes.new.items ≡ take end bytes.old.items }
    ensures kept { end ≤ length bytes.new.items }
    ensures room { OnOk result (end + more ≤ length bytes.new.items) }
{
    if more <= bytes.len() - end {
        return Ok(());
    }
    fill_ahead(bytes, end, more)
}

/// Fills at least as many bytes again as there are, so that all filling takes no longer than the writing.
#[cold]
#[inline(never)]
fn fill_ahead(bytes: &mut Vec<u8>, end: usize, more: usize) -> Result<(), NoMemory>
    requires { end ≤ length bytes.old.items }
    ensures same { take end bytes.new.items ≡ take end bytes.old.items }
    ensures kept { end ≤ length bytes.new.items }
    ensures room { OnOk result (end + more ≤ length bytes.new.items) }
{
    let Some(least) = bytes.len().checked_add(more) else {
        return Err(NoMemory);
    };
    let ahead = bytes.len().saturating_mul(2).max(LEAST_AHEAD);
    bytes.resize(least.max(ahead), 0)?;
    Ok(())
}

#[inline(always)]
fn place_short<T: ShortText>(bytes: &mut [u8], at: usize, text: &T) -> usize
    requires { at + 256 ≤ length bytes.old }
    ensures { Placed bytes.old bytes.new at (T.text text.now) result }
{
    at + text.place(&mut bytes[at..])
}
