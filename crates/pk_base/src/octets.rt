ghost use Rattle.std.specs.Prelude.{◌≡◌, ◌≤◌, ◌^◌, ◌<◌, [], length, slice_range, IfOk, IfSome};

use crate::memory::NoMemory;
use bytes::{Bytes, BytesMut};
use std::alloc::Global;
use std::marker::Model;

/// A list of bytes. Its clones and parts share one block of memory.
#[derive(Drop)]
pub struct Octets {
    shared: Bytes,
}

impl Model for Octets {
    ghost use Rattle.std.specs.Prelude.{ℕ, List};

    ghost Value = { List ℕ };

    ghost view = { λ o. o.shared };
}

impl Octets {
    /// No bytes, which take no memory.
    pub fn new() -> Octets
        ensures { result ≡ [] }
    {
        Octets {
            shared: Bytes::new(),
        }
    }

    /// Takes over the bytes of a vector, which it doesn't copy.
    pub fn from_vec(bytes: Vec<u8>) -> Result<Octets, NoMemory>
        ensures { IfOk result (λ octets. octets ≡ bytes.items) }
    {
        Ok(Octets {
            shared: Bytes::from_vec(bytes)?,
        })
    }

    /// Takes over the bytes of a block of memory, which it doesn't copy.
    pub fn from_block(block: BytesMut) -> Result<Octets, NoMemory>
        ensures { IfOk result (λ octets. octets ≡ block.items) }
    {
        Ok(Octets {
            shared: block.freeze()?,
        })
    }

    /// Makes a list of its own from bytes.
    pub fn copy(alloc: Global, bytes: &[u8]) -> Result<Octets, NoMemory>
        ensures { IfOk result (λ octets. octets ≡ bytes.now) }
    {
        Ok(Octets {
            shared: Bytes::copy_from_slice(alloc, bytes)?,
        })
    }

    /// The bytes from place `from` up to and without `to`.
    pub fn part(&self, from: usize, to: usize) -> Result<Octets, NoMemory>
        requires order { from ≤ to }
        requires inside { to ≤ length self.now }
        ensures { IfOk result (λ octets. octets ≡ slice_range self.now from to) }
    {
        Ok(Octets {
            shared: self.shared.slice(from..to)?,
        })
    }

    pub fn bytes(&self) -> &[u8]
        ensures { result.now ≡ self.now }
    {
        self.shared.as_slice()
    }

    /// Takes the block of memory back without a copy, where nothing else shares it. Otherwise this share of it is given up.
    pub fn reclaim(self) -> Option<BytesMut>
        ensures { IfSome result (λ block. block.items ≡ self) }
    {
        self.shared.reclaim()
    }
}

impl Clone for Octets {
    ghost use Rattle.std.specs.Prelude.{◌≡◌};

    ghost is_clone = { λ octets copy. copy ≡ octets };

    fn clone(&self) -> Result<Octets, std::alloc::AllocError> {
        Ok(Octets {
            shared: self.shared.clone()?,
        })
    }
}
