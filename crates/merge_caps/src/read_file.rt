// Reading one file to its end.
ghost use Rattle.std.specs.Prelude.{◌≡◌, ◌≤◌, ◌<◌, ◌+◌, ◌++◌, ◌^◌, ◌∷◌, ℕ, suc, List, [], Some, length, IfOk, IfSome, IsErrOf, OnOk};
ghost use Rattle.std.specs.Option.{option_or};
ghost use Rattle.pk_base.specs.Limits.{file_limit as limit_of_file};
ghost use Rattle.pk_outside.specs.Outside.{Rose};
ghost use Rattle.capture_read.specs.Capture.{capture_of};
ghost use Rattle.capture_read.specs.Reader.{StandsFor};
ghost use Rattle.capture_read.specs.Taken.{TookAtMost};
ghost use Rattle.capture_read.specs.declared.kind.Phase.TheVariants as phase;
ghost use Rattle.merge_caps.specs.Merged.{placed};
ghost use Rattle.merge_caps.specs.Reading.{so_far, with_frames, with_reading};

use crate::owned::let_go;
use crate::place::{Entry, Place};
use crate::readings::Readings;
use capture_read::{Ending, Frame, FrameReader, NextFrame, ReadError};
use pk_base::NoMemory;
use pk_outside::Capture;
use std::alloc::Global;

// Takes a frame of the file with this place, and answers the latest time then.
fn take_frame(
    readings: &mut Readings,
    file: usize,
    latest: Option<i128>,
    frame: Frame,
) -> Result<Option<i128>, NoMemory>
    requires { readings.old.captured + length frame.bytes < 2 ^ 64 }
    ensures latest { IfOk result (λ time. time ≡ option_or frame.time latest) }
    ensures entries { OnOk result (readings.new.entries.items
        ≡ readings.old.entries.items ++ placed latest file frame ∷ []) }
    ensures endings { readings.new.endings.items ≡ readings.old.endings.items }
    ensures captured { OnOk result (readings.new.captured
        ≡ readings.old.captured + length frame.bytes) }
{
    let time = frame.time.or(latest);
    readings.captured += frame.bytes.bytes().len();
    readings.entries.push(Entry {
        place: Place {
            time,
            file,
            number: frame.number,
        },
        frame,
    })?;
    Ok(time)
}

// Reads the begun file to its end, and answers how it ends.
fn read_frames<C: Capture>(
    reader: &mut FrameReader,
    capture: &mut C,
    readings: &mut Readings,
) -> Result<Ending, ReadError>
    requires reads { (left : List ℕ) → StandsFor reader.old (Some left) left [] }
    requires at { reader.old.state.at ≡ 0 }
    requires open { reader.old.phase ≡ phase.Open }
    requires few { readings.old.captured ≤ limit_of_file }
    ensures read { IfOk result (λ ending. IfSome (C.left capture.old) (λ file.
        (so_far readings.new ≡ with_frames (capture_of file).frames (so_far readings.old))
        × (ending ≡ (capture_of file).ending))) }
    ensures endings { readings.new.endings.items ≡ readings.old.endings.items }
    ensures fault { IsErrOf result ReadError.ReadFault
        → Rose (C.faults capture.old) (C.faults capture.new) }
    ensures took { TookAtMost (suc limit_of_file) (C.left capture.old) (C.left capture.new) }
    ensures file { (n : List ℕ) → C.file capture.new n ≡ C.file capture.old n }
    ensures asked { C.asked capture.new ≡ C.asked capture.old }
    ensures refused { C.refused capture.new ≡ C.refused capture.old }
    ensures begun { C.begun capture.new ≡ C.begun capture.old }
    ensures missed { C.missed capture.new ≡ C.missed capture.old }
    ensures no_fault { OnOk result (C.faults capture.new ≡ C.faults capture.old) }
    ensures starved { IsErrOf result ReadError.NoMemory
        → C.faults capture.new ≡ C.faults capture.old }
    ensures spent { IsErrOf result ReadError.Spent → ⊥ }
{
    let file = readings.endings.len();
    let mut latest = None;
    loop {
        match reader.next_frame(capture) {
            Ok(NextFrame::Frame(frame)) => {
                latest = match take_frame(readings, file, latest, frame) {
                    Ok(time) => time,
                    Err(NoMemory) => return Err(ReadError::NoMemory),
                };
            }
            Ok(NextFrame::End(ending)) => return Ok(ending),
            Err(error) => return Err(error),
        }
    }
}

/// Reads the begun file to its end.
pub(crate) fn read_file<C: Capture>(
    alloc: Global,
    capture: &mut C,
    readings: &mut Readings,
) -> Result<Ending, ReadError>
    requires { readings.old.captured ≤ limit_of_file }
    ensures read { IfOk result (λ ending. IfSome (C.left capture.old) (λ file.
        so_far readings.new ≡ with_reading (capture_of file) (so_far readings.old))) }
    ensures ending { IfOk result (λ ending. readings.new.endings.items
        ≡ readings.old.endings.items ++ ending ∷ []) }
    ensures fault { IsErrOf result ReadError.ReadFault
        → Rose (C.faults capture.old) (C.faults capture.new) }
    ensures took { TookAtMost (suc limit_of_file) (C.left capture.old) (C.left capture.new) }
    ensures file { (n : List ℕ) → C.file capture.new n ≡ C.file capture.old n }
    ensures asked { C.asked capture.new ≡ C.asked capture.old }
    ensures refused { C.refused capture.new ≡ C.refused capture.old }
    ensures begun { C.begun capture.new ≡ C.begun capture.old }
    ensures missed { C.missed capture.new ≡ C.missed capture.old }
    ensures no_fault { OnOk result (C.faults capture.new ≡ C.faults capture.old) }
    ensures starved { IsErrOf result ReadError.NoMemory
        → C.faults capture.new ≡ C.faults capture.old }
    ensures spent { IsErrOf result ReadError.Spent → ⊥ }
{
    let mut reader = FrameReader::new(alloc);
    let ended = read_frames(&mut reader, capture, readings);
    let_go(reader);
    match ended {
        Ok(ending) => match readings.endings.push(ending) {
            Ok(()) => Ok(ending),
            Err(_) => Err(ReadError::NoMemory),
        },
        Err(error) => Err(error),
    }
}
