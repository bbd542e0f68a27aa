// The frames of a capture that is written.
ghost use Rattle.std.specs.Prelude.{◌≡◌, ◌≤◌, true, List, IfOk, IsErrOf, OnOk};
ghost use Rattle.std.specs.Io.KnownBytes.{Appends};
ghost use Rattle.capture_read.specs.declared.frame.Frame.{Frame as FrameValue};
ghost use Rattle.capture_write.specs.Kept.{Stands, end_at};
ghost use Rattle.pk_outside.specs.Outside.{AppendsPart, Rose};
ghost use Rattle.run_frames.specs.Satisfied.{satisfies};
ghost use Rattle.run_frames.specs.Steps.{IsPacked, fit_packet};

use crate::judge::{Judge, verdict_of};
use capture_read::Frame;
use capture_write::{Added, Writer};
use pk_base::NoMemory;
use pk_outside::{Sink, SinkFault, write_whole};
use pk_source::Source;

/// Writes a frame whose tree satisfies the filter, where it fits, and answers whether it does. A frame that isn't written fits.
#[tactic(auto, using(crate::proofs::PacketLemmas::packed_left, crate::proofs::PacketLemmas::packed_none))]
pub(crate) fn write_packet<O: Sink>(
    frame: &Frame,
    source: &Source<'_>,
    judge: &mut Option<Judge<'_>>,
    writer: &mut Writer,
    out: &mut O,
) -> Result<bool, SinkFault>
    ensures packed { IfOk result (λ fit. (chosen : List FrameValue) → Stands writer.old chosen
        → IsPacked fit (satisfies judge.old source.now) writer.old.format frame.now writer.new
        chosen (O.written out.old) (O.written out.new)) }
    ensures part { (chosen : List FrameValue) → Stands writer.old chosen
        → AppendsPart (O.written out.old) (O.written out.new)
        (fit_packet (satisfies judge.old source.now) writer.old.format chosen frame.now) }
    ensures judge { judge.new ≡ judge.old }
    ensures fault { IsErrOf result SinkFault.Failed → Rose (O.faults out.old) (O.faults out.new) }
    ensures calm { ¬ IsErrOf result SinkFault.Failed → O.faults out.new ≡ O.faults out.old }
    ensures faults_stay { O.faults out.old ≤ O.faults out.new }
{
    match verdict_of(judge, source) {
        Ok(verdict) => {
            if verdict.holds {
                write_added(frame, writer, out)
            } else {
                Ok(true)
            }
        }
        Err(NoMemory) => Err(SinkFault::NoMemory),
    }
}

// Writes a frame, where it fits, and answers whether it does.
#[tactic(auto, using(crate::proofs::PacketLemmas::packed_added, crate::proofs::PacketLemmas::packed_part, crate::proofs::PacketLemmas::packed_unfit, crate::proofs::PacketLemmas::packed_none))]
fn write_added<O: Sink>(frame: &Frame, writer: &mut Writer, out: &mut O) -> Result<bool, SinkFault>
    ensures packed { IfOk result (λ fit. (chosen : List FrameValue) → Stands writer.old chosen
        → IsPacked fit true writer.old.format frame.now writer.new
        chosen (O.written out.old) (O.written out.new)) }
    ensures part { (chosen : List FrameValue) → Stands writer.old chosen
        → AppendsPart (O.written out.old) (O.written out.new)
        (fit_packet true writer.old.format chosen frame.now) }
    ensures fault { IsErrOf result SinkFault.Failed → Rose (O.faults out.old) (O.faults out.new) }
    ensures calm { ¬ IsErrOf result SinkFault.Failed → O.faults out.new ≡ O.faults out.old }
    ensures faults_stay { O.faults out.old ≤ O.faults out.new }
{
    let packet = match writer.add(frame) {
        Ok(Added::Bytes(packet)) => packet,
        Ok(Added::Unfit) => return Ok(false),
        Err(NoMemory) => return Err(SinkFault::NoMemory),
    };
    match write_whole(out, packet.bytes()) {
        Ok(()) => Ok(true),
        Err(fault) => Err(fault),
    }
}

/// Writes what stands at the end of the capture.
pub fn write_end<O: Sink>(writer: Writer, out: &mut O) -> Result<(), SinkFault>
    ensures whole { OnOk result (Appends (O.written out.old) (O.written out.new) (end_at writer)) }
    ensures part { AppendsPart (O.written out.old) (O.written out.new) (end_at writer) }
    ensures fault { IsErrOf result SinkFault.Failed → Rose (O.faults out.old) (O.faults out.new) }
    ensures calm { ¬ IsErrOf result SinkFault.Failed → O.faults out.new ≡ O.faults out.old }
    ensures faults_stay { O.faults out.old ≤ O.faults out.new }
{
    match writer.finish() {
        Ok(end) => write_whole(out, end.bytes()),
        Err(NoMemory) => Err(SinkFault::NoMemory),
    }
}
