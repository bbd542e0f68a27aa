// A capture in memory that fails nowhere.
ghost use Rattle.std.specs.Prelude.{◌≡◌, ◌≤◌, ◌++◌, [], Some, false, length, take, drop, min, string_bytes, IfOk, IsOk};

use crate::capture::{Capture, Failed};
use crate::moves::move_front;
use std::marker::Model;

/// One file, which has every name.
#[derive(Drop)]
pub struct SureCapture {
    bytes: Vec<u8>,
    /// How many of the bytes were read: before the first `begin` all of them, so that none is left.
    at: usize,
    asked: Option<String>,
    begun: u64,
}

impl Model for SureCapture {
    ghost use Rattle.std.specs.Prelude.{◌≤◌, drop, vec_len};
    ghost use Rattle.pk_outside.specs.InMemory.{SureCaptureState, asked_bytes};

    ghost Value = { SureCaptureState };

    ghost view = { λ s. record {
      bytes = s.bytes.items;
      left = drop s.at s.bytes.items;
      asked = asked_bytes s.asked;
      begun = s.begun;
    } };

    ghost invariant = { λ s. s.at ≤ vec_len s.bytes };
}

impl SureCapture {
    /// A capture that gives these bytes under any name.
    pub fn new(bytes: Vec<u8>) -> Self
        ensures { result ≡ record { bytes = bytes.items; left = []; asked = []; begun = 0 } }
    {
        SureCapture {
            at: bytes.len(),
            bytes,
            asked: None,
            begun: 0,
        }
    }
}

impl Capture for SureCapture {
    ghost use Rattle.pk_outside.specs.Outside.{counted};

    ghost file = { λ s _. Some s.bytes };

    ghost left = { λ s. Some s.left };

    ghost asked = { λ s. s.asked };

    ghost refused = { λ _. false };

    ghost begun = { λ s. s.begun };

    ghost missed = { λ _. 0 };

    ghost faults = { λ _. 0 };

    fn begin(&mut self, name: String) -> Result<(), Failed>
        ensures ok { IsOk result }
        ensures bytes { self.new.bytes ≡ self.old.bytes }
        ensures left { self.new.left ≡ self.old.bytes }
        ensures asked { self.new.asked ≡ string_bytes name }
        ensures begun { self.new.begun ≡ counted self.old.begun }
        ensures begun_stay { self.old.begun ≤ self.new.begun }
    {
        self.at = 0;
        self.asked = Some(name);
        self.begun = self.begun.saturating_add(1);
        Ok(())
    }

    fn read(&mut self, to: &mut [u8]) -> Result<usize, Failed>
        ensures ok { IsOk result }
        ensures count { IfOk result (λ n. n ≡ min (length to.old) (length self.old.left)) }
        ensures moved { IfOk result (λ n. to.new ≡ take n self.old.left ++ drop n to.old) }
        ensures left { IfOk result (λ n.
            self.new ≡ record self.old { left = drop n self.old.left }) }
    {
        let count = move_front(&self.bytes[self.at..], usize::MAX, to);
        self.at += count;
        Ok(count)
    }
}
