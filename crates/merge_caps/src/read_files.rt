// Reading all files, one after the other.
ghost use Rattle.std.specs.Prelude.{◌≡◌, ◌≤◌, ◌+◌, ℕ, List, length, false, true, IfErr, IfOk, IfSome, IsErrOf, OnErr, OnOk};
ghost use Rattle.pk_outside.specs.Outside.{Rose, counted};
ghost use Rattle.capture_read.specs.Capture.{capture_of};
ghost use Rattle.merge_caps.specs.Reading.{AreSmallUpTo, IsLeftOf, IsLeftOfOne, files_of, is_large_after, is_too_much_of, read_of, so_far, with_reading};
ghost use Rattle.merge_caps.specs.Stopped.{IsStopped};

use crate::owned::let_go;
use crate::read_file::read_file;
use crate::readings::{Cause, Readings, Stopped};
use capture_read::{Ending, ReadError};
use pk_base::{NoMemory, file_limit};
use pk_outside::{Capture, Failed};
use run_texts::Text;
use std::alloc::Global;

// Begins the file of a name.
fn begin<C: Capture>(alloc: Global, name: &Text, capture: &mut C) -> Result<(), Cause>
    ensures file { (n : List ℕ) → C.file capture.new n ≡ C.file capture.old n }
    ensures left { OnOk result (C.left capture.new ≡ C.file capture.old name.now) }
    ensures left_err { OnErr result (C.left capture.new ≡ C.left capture.old) }
    ensures begun { OnOk result (C.begun capture.new ≡ counted (C.begun capture.old)) }
    ensures not_missed { OnOk result (C.missed capture.new ≡ C.missed capture.old) }
    ensures asked { OnOk result (C.asked capture.new ≡ name.now) }
    ensures faults { C.faults capture.new ≡ C.faults capture.old }
    ensures not_begun { OnErr result (C.begun capture.new ≡ C.begun capture.old) }
    ensures missed { IsErrOf result Cause.CannotOpen
        → C.missed capture.new ≡ counted (C.missed capture.old) }
    ensures refused { IsErrOf result Cause.CannotOpen → C.refused capture.new ≡ true }
    ensures asked_err { IsErrOf result Cause.CannotOpen → C.asked capture.new ≡ name.now }
    ensures starved { IsErrOf result Cause.NoMemory
        → C.missed capture.new ≡ C.missed capture.old }
    ensures read { IsErrOf result Cause.ReadFault → ⊥ }
    ensures large { IsErrOf result Cause.TooLarge → ⊥ }
    ensures begun_stay { C.begun capture.old ≤ C.begun capture.new }
{
    let name = match name.to_string(alloc) {
        Ok(name) => name,
        Err(NoMemory) => return Err(Cause::NoMemory),
    };
    match capture.begin(name) {
        Ok(()) => Ok(()),
        Err(Failed) => Err(Cause::CannotOpen),
    }
}

// Whether a file that ends so is too large, with so many bytes captured of it and those before it.
fn is_large(ending: Ending, captured: usize) -> bool
    ensures { result ≡ is_large_after ending captured }
{
    matches!(ending, Ending::TooLarge) || captured > file_limit()
}

// Reads the file of a name to its end.
#[tactic(auto, using(crate::proofs::FilesSteps::left_begun))]
fn read_next<C: Capture>(
    alloc: Global,
    name: &Text,
    capture: &mut C,
    readings: &mut Readings,
) -> Result<(), Cause>
    requires { is_too_much_of (so_far readings.old) ≡ false }
    ensures read { OnOk result (IfSome (C.file capture.old name.now) (λ file.
        so_far readings.new ≡ with_reading (capture_of file) (so_far readings.old))) }
    ensures count { OnOk result (length readings.new.endings.items
        ≡ length readings.old.endings.items + 1) }
    ensures small { OnOk result (is_too_much_of (so_far readings.new) ≡ false) }
    ensures large { IsErrOf result Cause.TooLarge → IfSome (C.file capture.old name.now) (λ file.
        is_too_much_of (with_reading (capture_of file) (so_far readings.old)) ≡ true) }
    ensures took { IsLeftOf (C.file capture.old) name.now
        (C.left capture.old) (C.left capture.new) }
    ensures file { (n : List ℕ) → C.file capture.new n ≡ C.file capture.old n }
    ensures begun { OnOk result (C.begun capture.new ≡ counted (C.begun capture.old)) }
    ensures not_missed { OnOk result (C.missed capture.new ≡ C.missed capture.old) }
    ensures unopened { IsErrOf result Cause.CannotOpen
        → (C.missed capture.new ≡ counted (C.missed capture.old))
        × (C.begun capture.new ≡ C.begun capture.old)
        × (C.refused capture.new ≡ true) × (C.asked capture.new ≡ name.now) }
    ensures unread { IsErrOf result Cause.ReadFault
        → Rose (C.faults capture.old) (C.faults capture.new)
        × (C.begun capture.new ≡ counted (C.begun capture.old))
        × (C.missed capture.new ≡ C.missed capture.old) × (C.asked capture.new ≡ name.now) }
    ensures no_fault { OnOk result (C.faults capture.new ≡ C.faults capture.old) }
    ensures starved { IsErrOf result Cause.NoMemory
        → (C.missed capture.new ≡ C.missed capture.old)
        × (C.faults capture.new ≡ C.faults capture.old) }
    ensures begun_stay { C.begun capture.old ≤ C.begun capture.new }
{
    match begin(alloc, name, capture) {
        Ok(()) => {}
        Err(cause) => return Err(cause),
    }
    let ending = match read_file(alloc, capture, readings) {
        Ok(ending) => ending,
        Err(ReadError::ReadFault) => return Err(Cause::ReadFault),
        // The first error ends the reading, so that this one is never `Spent`.
        Err(ReadError::NoMemory | ReadError::Spent) => return Err(Cause::NoMemory),
    };
    if is_large(ending, readings.captured) {
        return Err(Cause::TooLarge);
    }
    Ok(())
}

/// Reads the files of these names to their ends, one after the other, up to the first that can't be read or is too large.
pub(crate) fn read_files<C: Capture>(
    alloc: Global,
    names: &[Text],
    capture: &mut C,
) -> Result<Readings, Stopped>
    ensures read { IfOk result (λ readings. IfSome (files_of (C.file capture.old) names.now)
        (λ files. so_far readings ≡ read_of files)) }
    ensures ends { IfOk result (λ readings. length readings.endings.items ≡ length names.now) }
    ensures small { OnOk result
        (AreSmallUpTo (C.file capture.old) names.now (length names.now)) }
    ensures took { IsLeftOfOne (C.file capture.old) names.now
        (C.left capture.old) (C.left capture.new) }
    ensures no_fault { OnOk result ((C.missed capture.new ≡ C.missed capture.old)
        × (C.faults capture.new ≡ C.faults capture.old)) }
    ensures stopped { IfErr result (λ stopped. IsStopped names.now stopped
        (record {
          tell = C.file capture.old;
          asked = C.asked capture.old;
          refused = C.refused capture.old;
          begun = C.begun capture.old;
          missed = C.missed capture.old;
          faults = C.faults capture.old;
        })
        (record {
          tell = C.file capture.new;
          asked = C.asked capture.new;
          refused = C.refused capture.new;
          begun = C.begun capture.new;
          missed = C.missed capture.new;
          faults = C.faults capture.new;
        })) }
{
    let mut readings = Readings {
        entries: Vec::new(alloc),
        endings: Vec::new(alloc),
        captured: 0,
    };
    for (place, name) in names.iter().enumerate() {
        match read_next(alloc, name, capture, &mut readings) {
            Ok(()) => {}
            Err(cause) => {
                let_go(readings);
                return Err(Stopped { place, cause });
            }
        }
    }
    Ok(readings)
}
