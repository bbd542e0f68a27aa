// The bytes that a reader holds.
ghost use Rattle.std.specs.Prelude.{◌≡◌, ◌+◌, ◌≤◌, ◌^◌, [], length, take, drop, IfOk};

use bytes::BytesMut;
use pk_base::{NoMemory, Octets};
use std::marker::Model;
use std::mem;

/// The bytes of a block of memory between two places. Parts of them share the block.
#[derive(Drop)]
pub struct Held {
    block: Octets,
    from: usize,
    to: usize,
}

impl Model for Held {
    ghost use Rattle.std.specs.Prelude.{ℕ, List, ◌≤◌, ◌^◌, length, slice_range};

    ghost Value = { List ℕ };

    ghost view = { λ h. slice_range h.block h.from h.to };

    ghost invariant = { λ h. (h.from ≤ h.to) × (h.to ≤ length h.block) × (h.to ≤ 2 ^ 28) };
}

impl Held {
    pub fn new() -> Held
        ensures { result ≡ [] }
    {
        Held {
            block: Octets::new(),
            from: 0,
            to: 0,
        }
    }

    /// Whether there was no block yet.
    pub fn is_new(&self) -> bool {
        self.block.bytes().is_empty()
    }

    pub fn bytes(&self) -> &[u8]
        ensures { result.now ≡ self.now }
    {
        &self.block.bytes()[self.from..self.to]
    }

    pub fn len(&self) -> usize
        ensures { result ≡ length self.now }
    {
        self.to - self.from
    }

    /// Lets the first bytes go.
    pub fn pass(&mut self, count: usize)
        requires { count ≤ length self.old }
        ensures { self.new ≡ drop count self.old }
    {
        self.from += count;
    }

    /// Some bytes, which share the block of memory.
    pub fn part(&self, start: usize, len: usize) -> Result<Octets, NoMemory>
        requires { start + len ≤ length self.now }
        ensures { IfOk result (λ octets. octets ≡ take len (drop start self.now)) }
    {
        let from = self.from + start;
        self.block.part(from, from + len)
    }

    /// Holds the first bytes of a block in place of those held.
    pub fn hold(&mut self, block: Octets, len: usize)
        requires inside { len ≤ length block }
        requires small { len ≤ 2 ^ 28 }
        ensures { self.new ≡ take len block }
    {
        self.block = block;
        self.from = 0;
        self.to = len;
    }

    /// Lets all bytes go, and gives their block of memory, where nothing else shares it.
    pub fn release(&mut self) -> Option<BytesMut>
        ensures { self.new ≡ [] }
    {
        self.from = 0;
        self.to = 0;
        mem::replace(&mut self.block, Octets::new()).reclaim()
    }
}
