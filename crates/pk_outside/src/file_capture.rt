// A capture over the files of the system.
ghost use Rattle.std.specs.Prelude.{◌≡◌, ◌≤◌, [], None, false, length, string_bytes, is_err, IsSome, IfOk, OnOk, OnErr};

use crate::capture::{Capture, Failed};
use std::fs;
use std::io::Read;
use std::rt::Files;

/// Reads the files of a runtime. Nothing can be promised of their bytes, so this capture tells none.
#[derive(Drop)]
pub struct FileCapture<'a, R: Files> {
    rt: &'a R,
    file: Option<R::File>,
    asked: Option<String>,
    refused: bool,
    begun: u64,
    missed: u64,
    faults: u64,
}

impl<'a, R: Files> FileCapture<'a, R> {
    /// A capture that has begun no file.
    pub fn new(rt: &'a R) -> Self
        ensures asked { ⟦<FileCapture<'a, R> as Capture>⟧.asked result ≡ [] }
        ensures refused { ⟦<FileCapture<'a, R> as Capture>⟧.refused result ≡ false }
        ensures begun { ⟦<FileCapture<'a, R> as Capture>⟧.begun result ≡ 0 }
        ensures missed { ⟦<FileCapture<'a, R> as Capture>⟧.missed result ≡ 0 }
        ensures faults { ⟦<FileCapture<'a, R> as Capture>⟧.faults result ≡ 0 }
    {
        FileCapture {
            rt,
            file: None,
            asked: None,
            refused: false,
            begun: 0,
            missed: 0,
            faults: 0,
        }
    }
}

impl<'a, R: Files> Capture for FileCapture<'a, R> {
    ghost use Rattle.pk_outside.specs.InMemory.{asked_bytes};
    ghost use Rattle.pk_outside.specs.Outside.{counted};
    ghost use Rattle.pk_outside.specs.Streams.{ReadsFile};

    ghost file = { λ _ _. None };

    ghost left = { λ _. None };

    ghost asked = { λ s. asked_bytes s.asked };

    ghost refused = { λ s. s.refused };

    ghost begun = { λ s. s.begun };

    ghost missed = { λ s. s.missed };

    ghost faults = { λ s. s.faults };

    fn begin(&mut self, name: String) -> Result<(), Failed>
        ensures asked { asked_bytes self.new.asked ≡ string_bytes name }
        ensures refused { self.new.refused ≡ is_err result }
        ensures faults { self.new.faults ≡ self.old.faults }

        ensures opened { OnOk result (IsSome self.new.file) }
        ensures begun { OnOk result (self.new.begun ≡ counted self.old.begun) }
        ensures not_missed { OnOk result (self.new.missed ≡ self.old.missed) }

        ensures kept { OnErr result (self.new.file ≡ self.old.file) }
        ensures not_begun { OnErr result (self.new.begun ≡ self.old.begun) }
        ensures missed { OnErr result (self.new.missed ≡ counted self.old.missed) }

        ensures begun_stay { self.old.begun ≤ self.new.begun }
        ensures missed_stay { self.old.missed ≤ self.new.missed }
    {
        let opened = fs::open(self.rt, name.as_str());
        self.asked = Some(name);
        match opened {
            Ok(file) => {
                self.file = Some(file);
                self.refused = false;
                self.begun = self.begun.saturating_add(1);
                Ok(())
            }
            Err(_) => {
                self.refused = true;
                self.missed = self.missed.saturating_add(1);
                Err(Failed)
            }
        }
    }

    fn read(&mut self, to: &mut [u8]) -> Result<usize, Failed>
        ensures given { ReadsFile R.File.remaining self.old.file self.new.file result to.new }
        ensures within { IfOk result (λ n. n ≤ length to.old) }
        ensures asked { self.new.asked ≡ self.old.asked }
        ensures refused { self.new.refused ≡ self.old.refused }
        ensures begun { self.new.begun ≡ self.old.begun }
        ensures missed { self.new.missed ≡ self.old.missed }
        ensures no_fault { OnOk result (self.new.faults ≡ self.old.faults) }
        ensures fault { OnErr result (self.new.faults ≡ counted self.old.faults) }
        ensures faults_stay { self.old.faults ≤ self.new.faults }
    {
        let Some(file) = &mut self.file else {
            return Ok(0);
        };
        match file.read(to) {
            Ok(count) => Ok(count),
            Err(_) => {
                self.faults = self.faults.saturating_add(1);
                Err(Failed)
            }
        }
    }
}
