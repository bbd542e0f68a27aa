// Writing frames as a capture file.
ghost use Rattle.std.specs.Prelude.{◌≡◌, ◌≤◌, ◌++◌, ℕ, List, map, IfOk, IsErrOf, OnOk};
ghost use Rattle.std.specs.Io.KnownBytes.{Appends};
ghost use Rattle.pk_outside.specs.Outside.{AppendsPart, Rose};
ghost use Rattle.capture_write.specs.Frames.{AreFrames, IsFrame};
ghost use Rattle.capture_write.specs.Kept.{end_at};
ghost use Rattle.merge_caps.specs.Merged.{frame_of, frames_of};
ghost use Rattle.merge_caps.specs.Written.{Steps, file_of, first_unfit, fitting, fitting_from, piece_if, unfit_from, written_from};

use crate::owned::let_go;
use crate::place::Entry;
use capture_read::Frame;
use capture_write::{Added, Format, Writer};
use pk_base::NoMemory;
use pk_outside::{Sink, SinkFault, write_whole};
use std::alloc::Global;

// Writes a frame, where it fits, and answers whether it does.
fn write_frame<O: Sink>(writer: &mut Writer, frame: &Frame, out: &mut O) -> Result<bool, SinkFault>
    ensures steps { IfOk result (λ fit. Steps fit writer.old writer.new frame.now
        (O.written out.old) (O.written out.new)) }
    ensures small { IsFrame frame.now }
    ensures part { AppendsPart (O.written out.old) (O.written out.new)
        (piece_if writer.old frame.now) }
    ensures fault { IsErrOf result SinkFault.Failed → Rose (O.faults out.old) (O.faults out.new) }
    ensures no_fault { OnOk result (O.faults out.new ≡ O.faults out.old) }
    ensures starved { IsErrOf result SinkFault.NoMemory → O.faults out.new ≡ O.faults out.old }
{
    // Read for their ranges.
    let _link = frame.link;
    let _original = frame.original;
    match writer.add(frame) {
        Ok(Added::Bytes(piece)) => {
            let written = write_whole(out, piece.bytes());
            let_go(piece);
            match written {
                Ok(()) => Ok(true),
                Err(fault) => Err(fault),
            }
        }
        Ok(Added::Unfit) => Ok(false),
        Err(NoMemory) => Err(SinkFault::NoMemory),
    }
}

// Writes frames up to the first that doesn't fit, and answers that one's number.
fn write_each<O: Sink>(
    writer: &mut Writer,
    entries: &[Entry],
    out: &mut O,
) -> Result<Option<usize>, SinkFault>
    ensures whole { OnOk result ((done : List ℕ)
        × Appends (O.written out.old) (O.written out.new) done
        × (done ++ end_at writer.new ≡ written_from writer.old (map frame_of entries.now))) }
    ensures unfit { IfOk result (λ unfit.
        unfit ≡ unfit_from 1 writer.old (map frame_of entries.now)) }
    ensures small { OnOk result (AreFrames
        (fitting_from writer.old (map frame_of entries.now))) }
    ensures part { AppendsPart (O.written out.old) (O.written out.new)
        (written_from writer.old (map frame_of entries.now)) }
    ensures fault { IsErrOf result SinkFault.Failed → Rose (O.faults out.old) (O.faults out.new) }
    ensures no_fault { OnOk result (O.faults out.new ≡ O.faults out.old) }
    ensures starved { IsErrOf result SinkFault.NoMemory → O.faults out.new ≡ O.faults out.old }
{
    for (index, entry) in entries.iter().enumerate() {
        match write_frame(writer, &entry.frame, out) {
            Ok(true) => {}
            Ok(false) => return Ok(Some(index + 1)),
            Err(fault) => return Err(fault),
        }
    }
    Ok(None)
}

// Writes what stands at the file's end.
fn write_end<O: Sink>(writer: Writer, out: &mut O) -> Result<(), SinkFault>
    ensures whole { OnOk result (Appends (O.written out.old) (O.written out.new) (end_at writer)) }
    ensures part { AppendsPart (O.written out.old) (O.written out.new) (end_at writer) }
    ensures fault { IsErrOf result SinkFault.Failed → Rose (O.faults out.old) (O.faults out.new) }
    ensures no_fault { OnOk result (O.faults out.new ≡ O.faults out.old) }
    ensures starved { IsErrOf result SinkFault.NoMemory → O.faults out.new ≡ O.faults out.old }
{
    match writer.finish() {
        Ok(end) => {
            let written = write_whole(out, end.bytes());
            let_go(end);
            written
        }
        Err(NoMemory) => Err(SinkFault::NoMemory),
    }
}

/// Writes the file of frames up to the first that doesn't fit, and answers that one's number, counted from 1.
pub(crate) fn write_file<O: Sink>(
    alloc: Global,
    format: Format,
    entries: &[Entry],
    out: &mut O,
) -> Result<Option<usize>, SinkFault>
    ensures whole { OnOk result (Appends (O.written out.old) (O.written out.new)
        (file_of format (frames_of entries.now))) }
    ensures unfit { IfOk result (λ unfit. unfit
        ≡ first_unfit format (frames_of entries.now)) }
    ensures small { OnOk result (AreFrames (fitting format (frames_of entries.now))) }
    ensures part { AppendsPart (O.written out.old) (O.written out.new)
        (file_of format (frames_of entries.now)) }
    ensures fault { IsErrOf result SinkFault.Failed → Rose (O.faults out.old) (O.faults out.new) }
    ensures no_fault { OnOk result (O.faults out.new ≡ O.faults out.old) }
    ensures starved { IsErrOf result SinkFault.NoMemory → O.faults out.new ≡ O.faults out.old }
{
    let mut writer = Writer::new(alloc, format);
    match write_each(&mut writer, entries, out) {
        Ok(unfit) => match write_end(writer, out) {
            Ok(()) => Ok(unfit),
            Err(fault) => Err(fault),
        },
        Err(fault) => {
            let_go(writer);
            Err(fault)
        }
    }
}
