// A capture in memory that refuses chosen calls.
ghost use Rattle.std.specs.Prelude.{◌≡◌, ◌<◌, ◌≤◌, ◌++◌, ◌||◌, ◌↔◌, ℕ, position, bytes_eq, [], Some, None, OnSome, false, length, take, drop, min, string_bytes, IfOk, IfSome, IfNone, OnOk, OnErr, is_err, is_none};
ghost use Rattle.pk_outside.specs.InMemory.{file_named, is_to_fail};
ghost use Rattle.pk_outside.specs.Outside.{counted};
ghost use Rattle.pk_outside.specs.Place.{bytes_from, IsInFiles};

use crate::calls::Calls;
use crate::capture::{Capture, Failed};
use crate::moves::move_front;
use std::marker::Model;

/// A file in memory. Contracts see the bytes of its name, and its own bytes.
#[derive(Drop)]
pub struct NamedFile {
    name: String,
    bytes: Vec<u8>,
}

impl Model for NamedFile {
    ghost use Rattle.std.specs.Prelude.{ℕ, List, string_bytes};

    ghost Value = { List ℕ × List ℕ };

    ghost view = { λ f. (string_bytes f.name, f.bytes.items) };
}

impl NamedFile {
    pub fn new(name: String, bytes: Vec<u8>) -> Self
        ensures { result ≡ (string_bytes name, bytes.items) }
    {
        NamedFile { name, bytes }
    }
}

/// Where the next read begins: in which file, and behind how many of its bytes.
#[derive(Clone, Copy)]
pub(crate) struct Place {
    file: usize,
    at: usize,
}

/// Files in memory, of which reads give a few bytes at a time. The calls that it was told to refuse fail.
#[derive(Drop)]
pub struct MemoryCapture {
    files: Vec<NamedFile>,
    calls: Calls,
    step: usize,
    place: Option<Place>,
    asked: Option<String>,
    refused: bool,
    begun: u64,
    missed: u64,
    faults: u64,
}

impl Model for MemoryCapture {
    ghost use Rattle.std.specs.Prelude.{◌≤◌};
    ghost use Rattle.pk_outside.specs.InMemory.{MemoryCaptureState, asked_bytes};
    ghost use Rattle.pk_outside.specs.Place.{bytes_from, IsInFiles};

    ghost Value = { MemoryCaptureState };

    ghost view = { λ s. record {
      files = s.files.items;
      failing = s.calls.failing.items;
      step = s.step;
      calls = s.calls.made;
      left = bytes_from s.files.items s.place;
      asked = asked_bytes s.asked;
      refused = s.refused;
      begun = s.begun;
      missed = s.missed;
      faults = s.faults;
    } };

    ghost invariant = { λ s. (1 ≤ s.step) × IsInFiles s.files.items s.place };
}

impl MemoryCapture {
    /// A capture with these files, of which a read gives at most `step` bytes.
    ///
    /// The calls of `begin` and `read` are counted together from 1, and those whose number is in `failing` fail.
    /// Of two files of one name the first counts.
    pub fn new(files: Vec<NamedFile>, failing: Vec<u64>, step: usize) -> Self
        requires { 1 ≤ step }
        ensures { result ≡ record {
          files = files.items;
          failing = failing.items;
          step = step;
          calls = 0;
          left = [];
          asked = [];
          refused = false;
          begun = 0;
          missed = 0;
          faults = 0;
        } }
    {
        MemoryCapture {
            files,
            calls: Calls::new(failing),
            step,
            place: None,
            asked: None,
            refused: false,
            begun: 0,
            missed: 0,
            faults: 0,
        }
    }
}

// The index of the first file of this name.
fn index_of(files: &[NamedFile], name: &str) -> Option<usize>
    ensures within { IfSome result (λ index. index < length files.now) }
    ensures first { result ≡ position (λ file. bytes_eq file.0 name.now) files.now }
{
    files.iter().position(|file| file.name.as_str() == name)
}

// The start of the first file of this name.
#[tactic(auto, using(crate::proofs::Files::file_at_index))]
fn start_of(files: &[NamedFile], name: &str) -> Option<Place>
    ensures within { IsInFiles files.now result }
    ensures found { OnSome result (file_named files.now name.now
        ≡ Some (bytes_from files.now result)) }
    ensures unknown { IfNone result (file_named files.now name.now ≡ None) }
{
    index_of(files, name).map(|file| Place { file, at: 0 })
}

// Moves bytes from this place on to the front of `to`, at most `most` of them, and goes behind them.
fn read_on(files: &[NamedFile], place: &mut Place, most: usize, to: &mut [u8]) -> usize
    requires { IsInFiles files.now (Some place.old) }
    ensures count { result
        ≡ min most (min (length to.old) (length (bytes_from files.now (Some place.old)))) }
    ensures moved { to.new ≡ take result (bytes_from files.now (Some place.old))
        ++ drop result to.old }
    ensures left { bytes_from files.now (Some place.new)
        ≡ drop result (bytes_from files.now (Some place.old)) }
    ensures within { IsInFiles files.now (Some place.new) }
{
    let file = &files[place.file];
    let count = move_front(&file.bytes[place.at..], most, to);
    place.at += count;
    count
}

impl Capture for MemoryCapture {
    ghost file = { λ s name. file_named s.files name };

    ghost left = { λ s. Some s.left };

    ghost asked = { λ s. s.asked };

    ghost refused = { λ s. s.refused };

    ghost begun = { λ s. s.begun };

    ghost missed = { λ s. s.missed };

    ghost faults = { λ s. s.faults };

    fn begin(&mut self, name: String) -> Result<(), Failed>
        // It fails where its number is one of those that are to fail, or no file has the name, and nowhere else.
        ensures failed { is_err result ≡ (is_to_fail self.old.failing self.new.calls
            || is_none (file_named self.old.files (string_bytes name))) }
        ensures calls { self.new.calls ≡ counted self.old.calls }
        ensures files { self.new.files ≡ self.old.files }
        ensures failing { self.new.failing ≡ self.old.failing }
        ensures step { self.new.step ≡ self.old.step }
        ensures asked { self.new.asked ≡ string_bytes name }
        ensures refused { self.new.refused ≡ is_err result }
        ensures faults { self.new.faults ≡ self.old.faults }

        ensures left { OnOk result (Some self.new.left
            ≡ file_named self.old.files (string_bytes name)) }
        ensures begun { OnOk result (self.new.begun ≡ counted self.old.begun) }
        ensures not_missed { OnOk result (self.new.missed ≡ self.old.missed) }

        ensures left_err { OnErr result (self.new.left ≡ self.old.left) }
        ensures not_begun { OnErr result (self.new.begun ≡ self.old.begun) }
        ensures missed { OnErr result (self.new.missed ≡ counted self.old.missed) }
        ensures begun_stay { self.old.begun ≤ self.new.begun }
        ensures missed_stay { self.old.missed ≤ self.new.missed }
    {
        let is_to_fail = self.calls.next_fails();
        let start = start_of(&self.files, name.as_str());
        self.asked = Some(name);
        if is_to_fail || start.is_none() {
            self.refused = true;
            self.missed = self.missed.saturating_add(1);
            return Err(Failed);
        }
        self.place = start;
        self.refused = false;
        self.begun = self.begun.saturating_add(1);
        Ok(())
    }

    fn read(&mut self, to: &mut [u8]) -> Result<usize, Failed>
        requires { 0 < length to.old }
        // It fails where its number is one of those that are to fail, and nowhere else.
        ensures failed { is_err result ≡ is_to_fail self.old.failing self.new.calls }
        ensures calls { self.new.calls ≡ counted self.old.calls }
        ensures count { IfOk result (λ n.
            n ≡ min self.old.step (min (length to.old) (length self.old.left))) }
        ensures moved { IfOk result (λ n. to.new ≡ take n self.old.left ++ drop n to.old) }
        ensures at_end { IfOk result (λ n. (n ≡ 0) ↔ (self.old.left ≡ [])) }
        ensures left { IfOk result (λ n. self.new
            ≡ record self.old { calls = self.new.calls; left = drop n self.old.left }) }
        ensures fault { OnErr result (self.new
            ≡ record self.old { calls = self.new.calls; faults = counted self.old.faults }) }
        ensures faults_stay { self.old.faults ≤ self.new.faults }
        ensures room { OnErr result (to.new ≡ to.old) }
    {
        if self.calls.next_fails() {
            self.faults = self.faults.saturating_add(1);
            return Err(Failed);
        }
        match &mut self.place {
            Some(place) => Ok(read_on(&self.files, place, self.step, to)),
            None => Ok(0),
        }
    }
}
