// Going over the frames of a file once.
ghost use Rattle.std.specs.Prelude.{◌≡◌, ◌≢◌, ◌<◌, ◌≤◌, ◌-◌, ℕ, suc, true, false, IfErr, IfOk, OnOk, [], List, None, Some};
ghost use Rattle.std.specs.Option.{option_map};
ghost use Rattle.pk_base.specs.Limits.{file_limit as limit_of_file};
ghost use Rattle.capture_read.specs.Reader.{StandsFor};
ghost use Rattle.capture_read.specs.Taken.{TookAtMost};
ghost use Rattle.capture_read.specs.declared.kind.Phase.TheVariants as phase;
ghost use Rattle.dissect.specs.Stands.{StandsWithin};
ghost use Rattle.run_frames.specs.Accessors.{compiled_of, rules_of, two_of, written_of};
ghost use Rattle.run_frames.specs.Job.{once};
ghost use Rattle.run_frames.specs.Ended.{HasTaken};
ghost use Rattle.run_frames.specs.Steps.{KeepsUp};
ghost use Rattle.run_passes.specs.Passed.{AreCutOff, AreEndNear, AreRead, HaveBegun, HavePassed, IsCalm, IsCaused, IsReadOn};
ghost use Rattle.run_frames.specs.Notes.{AreFewNotes};
ghost use Rattle.run_frames.specs.Wanted.{ServesPlan};

use crate::owned::{give_up_frame, give_up_reader};
use capture_read::{Ending, FrameReader, NextFrame, ReadError};
use dissect::Dissector;
use pk_outside::{Capture, Sink};
use run_frames::{Later, LineMaker, Plan, RunEnding, RunFault, write_frame};
use std::alloc::Global;

// Whether no frame more is asked for.
pub(crate) fn is_full(most: Option<u32>) -> bool
    ensures full { result ≡ true → most ≡ Some 0 }
    ensures more { result ≡ false → most ≢ Some 0 }
{
    most == Some(0)
}

// One frame less.
pub(crate) fn one_less(most: Option<u32>) -> Option<u32>
    requires { most ≢ Some 0 }
    ensures { result ≡ option_map (λ n. n - 1) most }
{
    match most {
        Some(most) => Some(most - 1),
        None => None,
    }
}

// Goes over the frames that a reader answers, and writes the line of each before it reads on.
fn write_each<C: Capture, O: Sink>(
    plan: &Plan,
    reader: &mut FrameReader,
    dissector: &mut Dissector,
    lines: &mut LineMaker<'_>,
    capture: &mut C,
    out: &mut O,
) -> Result<RunEnding, RunFault>
    requires serves { ServesPlan dissector.old plan.now }
    requires rules { dissector.old.decode.rules ≡ rules_of plan.now }
    requires judge { lines.old.judge ≡ compiled_of plan.now }
    requires lines { lines.old.writer ≡ plan.now.fields }
    requires alone { two_of plan.now ≡ false }
    requires few { AreFewNotes 0 lines.old.notes }
    requires keeps { KeepsUp (written_of plan.now) (once plan.now) [] lines.old.notes lines.old.capture }
    requires reads { (left : List ℕ) → StandsFor reader.old (Some left) left [] }
    requires fresh { reader.old.phase ≡ phase.Open }
    requires number { reader.old.state.number ≡ 1 }
    requires at { reader.old.state.at ≡ 0 }
    requires stands { StandsWithin [] dissector.old }
    requires taken { dissector.old.taken ≡ 0 }
    requires captured { dissector.old.captured ≡ 0 }
    ensures ended { IfOk result (HavePassed plan.now
        (C.left capture.old) (O.written out.old) (O.written out.new)) }
    ensures read { OnOk result (AreRead plan.now (C.left capture.old)
        dissector.new lines.new.notes lines.new.capture) }
    ensures serves { OnOk result (ServesPlan dissector.new plan.now) }
    ensures taken { OnOk result (HasTaken dissector.new) }
    ensures full { IfOk result (AreEndNear plan.now (C.left capture.old) (C.left capture.new)) }
    ensures part { HaveBegun plan.now (C.left capture.old) (O.written out.old) (O.written out.new) }
    ensures broken { IfErr result (AreCutOff plan.now (C.left capture.old) (C.left capture.new)
        (O.written out.old) (O.written out.new)) }
    ensures took { TookAtMost (suc limit_of_file) (C.left capture.old) (C.left capture.new) }
    ensures caused { IfErr result (IsCaused (C.faults capture.old) (C.faults capture.new)
        (O.faults out.old) (O.faults out.new)) }
    ensures calm { OnOk result (IsCalm (C.faults capture.old) (C.faults capture.new)
        (O.faults out.old) (O.faults out.new)) }
    ensures faults_stay { O.faults out.old ≤ O.faults out.new }
    ensures stays { IsReadOn (C.asked capture.old) (C.asked capture.new)
        (C.begun capture.old) (C.begun capture.new) (C.missed capture.old) (C.missed capture.new) }
{
    let mut most = plan.most;
    loop {
        if is_full(most) {
            return Ok(RunEnding::Read(Ending::Whole));
        }
        let frame = match reader.next_frame(capture) {
            Ok(NextFrame::Frame(frame)) => frame,
            Ok(NextFrame::End(ending)) => return Ok(RunEnding::Read(ending)),
            Err(ReadError::ReadFault) => return Err(RunFault::ReadFault),
            Err(ReadError::NoMemory) => return Err(RunFault::NoMemory),
            // The first error ends the run, so that this one is never met.
            Err(ReadError::Spent) => return Err(RunFault::NoMemory),
        };
        let written = write_frame(plan, &frame, &Later::Unread, dissector, lines, out);
        let number = frame.number;
        give_up_frame(frame);
        match written {
            Ok(true) => {}
            Ok(false) => return Ok(RunEnding::Unfit(number)),
            Err(fault) => return Err(fault),
        }
        most = one_less(most);
    }
}

/// Reads the begun file frame by frame and writes the line of each before it reads on, up to the last that is asked for, and answers
/// how the reading ends.
pub fn write_rest<C: Capture, O: Sink>(
    alloc: Global,
    plan: &Plan,
    dissector: &mut Dissector,
    lines: &mut LineMaker<'_>,
    capture: &mut C,
    out: &mut O,
) -> Result<RunEnding, RunFault>
    requires serves { ServesPlan dissector.old plan.now }
    requires rules { dissector.old.decode.rules ≡ rules_of plan.now }
    requires judge { lines.old.judge ≡ compiled_of plan.now }
    requires lines { lines.old.writer ≡ plan.now.fields }
    requires alone { two_of plan.now ≡ false }
    requires few { AreFewNotes 0 lines.old.notes }
    requires keeps { KeepsUp (written_of plan.now) (once plan.now) [] lines.old.notes lines.old.capture }
    requires stands { StandsWithin [] dissector.old }
    requires taken { dissector.old.taken ≡ 0 }
    requires captured { dissector.old.captured ≡ 0 }

    // What was written, and how far the file was read then.
    ensures ended { IfOk result (HavePassed plan.now
        (C.left capture.old) (O.written out.old) (O.written out.new)) }
    ensures read { OnOk result (AreRead plan.now (C.left capture.old)
        dissector.new lines.new.notes lines.new.capture) }
    ensures serves { OnOk result (ServesPlan dissector.new plan.now) }
    ensures taken { OnOk result (HasTaken dissector.new) }
    ensures full { IfOk result (AreEndNear plan.now (C.left capture.old) (C.left capture.new)) }
    ensures part { HaveBegun plan.now (C.left capture.old) (O.written out.old) (O.written out.new) }
    ensures broken { IfErr result (AreCutOff plan.now (C.left capture.old) (C.left capture.new)
        (O.written out.old) (O.written out.new)) }
    ensures took { TookAtMost (suc limit_of_file) (C.left capture.old) (C.left capture.new) }

    // The causes of errors, and what stays of the capture.
    ensures caused { IfErr result (IsCaused (C.faults capture.old) (C.faults capture.new)
        (O.faults out.old) (O.faults out.new)) }
    ensures calm { OnOk result (IsCalm (C.faults capture.old) (C.faults capture.new)
        (O.faults out.old) (O.faults out.new)) }
    ensures faults_stay { O.faults out.old ≤ O.faults out.new }
    ensures stays { IsReadOn (C.asked capture.old) (C.asked capture.new)
        (C.begun capture.old) (C.begun capture.new) (C.missed capture.old) (C.missed capture.new) }
{
    let mut reader = FrameReader::new(alloc);
    let ended = write_each(plan, &mut reader, dissector, lines, capture, out);
    give_up_reader(reader);
    ended
}
