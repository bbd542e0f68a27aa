ghost use Rattle.std.specs.Prelude.{◌≡◌, ◌+◌, ◌^◌, ◌<◌, [], ◌∷◌, ◌++◌, length, IfOk, OnErr};

use pk_base::{NoMemory, Octets, Span};
use std::alloc::Global;
use std::marker::Model;

/// A list of byte buffers, each numbered by its place. A buffer stays as it is once it was added.
#[derive(Drop)]
pub struct Buffers {
    all: Vec<Octets>,
}

impl Model for Buffers {
    ghost use Rattle.std.specs.Prelude.{ℕ, List};
    ghost use Rattle.pk_tree.specs.Buffers.{IsAddressable};

    ghost Value = { List (List ℕ) };

    ghost view = { λ buffers. buffers.all.items };

    ghost invariant = { λ buffers. IsAddressable buffers.all.items };
}

impl Buffers {
    ghost use Rattle.pk_tree.specs.Buffers.{buffer_of, IsInside, bytes_of};

    pub fn new(alloc: Global) -> Buffers
        ensures { result ≡ [] }
    {
        Buffers {
            all: Vec::new(alloc),
        }
    }

    /// Adds a buffer behind the others and answers its number. It shares the bytes.
    pub fn add(&mut self, bytes: Octets) -> Result<u32, NoMemory>
        requires room { length self.old + 1 < 2 ^ 32 }
        requires short { length bytes < 2 ^ 32 }
        ensures number { IfOk result (λ number. number ≡ length self.old) }
        ensures ok { IfOk result (λ _. self.new ≡ self.old ++ bytes ∷ []) }
        ensures err { OnErr result (self.new ≡ self.old) }
    {
        let number = self.all.len() as u32;
        self.all.push(bytes)?;
        Ok(number)
    }

    pub(crate) fn clear(&mut self)
        ensures { self.new ≡ [] }
    {
        self.all.clear();
    }

    /// For how many buffers there is memory.
    pub(crate) fn room(&self) -> usize {
        self.all.capacity()
    }

    /// How many buffers there are.
    pub fn count(&self) -> u32
        ensures { result ≡ length self.now }
    {
        self.all.len() as u32
    }

    /// How many bytes a buffer has.
    pub fn size(&self, buffer: u32) -> u32
        requires { buffer < length self.now }
        ensures { result ≡ length (buffer_of self.now buffer) }
    {
        self.all[buffer as usize].bytes().len() as u32
    }

    /// The bytes of a span.
    #[tactic(auto, unfolding(crate::specs::Buffers::bytes_of))]
    pub fn bytes(&self, span: Span) -> &[u8]
        requires { IsInside self.now span }
        ensures bytes { result.now ≡ bytes_of self.now span }
        ensures len { length result.now ≡ span.len }
        ensures end { span.start + span.len < 2 ^ 32 }
    {
        let start = span.start as usize;
        &self.all[span.buffer as usize].bytes()[start..start + span.len as usize]
    }

    /// The bytes of a span, as a list of their own that shares them.
    #[tactic(auto, unfolding(crate::specs::Buffers::bytes_of))]
    pub fn part(&self, span: Span) -> Result<Octets, NoMemory>
        requires { IsInside self.now span }
        ensures { IfOk result (λ part. part ≡ bytes_of self.now span) }
    {
        let start = span.start as usize;
        self.all[span.buffer as usize].part(start, start + span.len as usize)
    }
}
