// What stands behind the lines of the frames.
ghost use Rattle.std.specs.Prelude.{◌≡◌, ◌≤◌, IsErrOf, OnOk, List, None, Some};
ghost use Rattle.std.specs.Io.KnownBytes.{Appends};
ghost use Rattle.pk_outside.specs.Outside.{Rose, AppendsPart};
ghost use Rattle.capture_read.specs.declared.frame.Frame.{Frame as FrameValue};
ghost use Rattle.dissect.specs.Stands.{StandsWithin};
ghost use Rattle.run_frames.specs.Accessors.{written_of};
ghost use Rattle.run_frames.specs.Job.{Passes, job_in};
ghost use Rattle.run_frames.specs.Ended.{CanClose, HasTaken};
ghost use Rattle.run_output.specs.Lines.{closing};
ghost use Rattle.run_frames.specs.Notes.{AreNotes};
ghost use Rattle.run_frames.specs.Wanted.{ServesPlan};

use crate::filter_stats::write_stats;
use crate::reports::write_reports;
use crate::self_run::write_counts;
use capture_write::Writer;
use dissect::Dissector;
use pk_outside::{Sink, SinkFault};
use run_frames::{LineMaker, Notes, Plan, write_end};
use std::alloc::Global;
use std::mem;

// Writes the reports, what is told of the program, and over a generated capture the line of what was counted.
#[tactic(auto, using(crate::proofs::EnoughLemmas::reports_need, crate::proofs::EnoughLemmas::reports_whole))]
fn write_behind_lines<O: Sink>(
    alloc: Global,
    plan: &Plan,
    dissector: &Dissector,
    notes: &Notes,
    out: &mut O,
) -> Result<(), SinkFault>
    requires serves { ServesPlan dissector.now plan.now }
    requires taken { HasTaken dissector.now }
    requires lines { written_of plan.now ≡ None }
    ensures whole { OnOk result ((passes : Passes) (past : List FrameValue)
        → StandsWithin past dissector.now → AreNotes (job_in plan.now passes) past notes.now
        → Appends (O.written out.old) (O.written out.new)
        (closing (job_in plan.now passes) past)) }
    ensures part { (passes : Passes) (past : List FrameValue)
        → StandsWithin past dissector.now → AreNotes (job_in plan.now passes) past notes.now
        → AppendsPart (O.written out.old) (O.written out.new)
        (closing (job_in plan.now passes) past) }
    ensures fault { IsErrOf result SinkFault.Failed → Rose (O.faults out.old) (O.faults out.new) }
    ensures calm { ¬ IsErrOf result SinkFault.Failed → O.faults out.new ≡ O.faults out.old }
    ensures faults_stay { O.faults out.old ≤ O.faults out.new }
{
    match write_reports(alloc, plan, dissector, notes, plan.reports.slice(), out) {
        Ok(()) => {}
        Err(fault) => return Err(fault),
    }
    match write_stats(alloc, plan, notes, out) {
        Ok(()) => {}
        Err(fault) => return Err(fault),
    }
    write_counts(alloc, plan, dissector, notes, out)
}

/// Writes what stands behind the lines of the frames, or at the end of the capture.
pub fn write_closing<O: Sink>(
    alloc: Global,
    plan: &Plan,
    dissector: &Dissector,
    lines: &mut LineMaker<'_>,
    out: &mut O,
) -> Result<(), SinkFault>
    requires serves { ServesPlan dissector.now plan.now }
    requires taken { HasTaken dissector.now }
    ensures whole { OnOk result ((passes : Passes) (past : List FrameValue)
        → CanClose (written_of plan.now) (job_in plan.now passes) past
        dissector.now lines.old.notes lines.old.capture
        → Appends (O.written out.old) (O.written out.new)
        (closing (job_in plan.now passes) past)) }
    ensures part { (passes : Passes) (past : List FrameValue)
        → CanClose (written_of plan.now) (job_in plan.now passes) past
        dissector.now lines.old.notes lines.old.capture
        → AppendsPart (O.written out.old) (O.written out.new)
        (closing (job_in plan.now passes) past) }
    ensures fault { IsErrOf result SinkFault.Failed → Rose (O.faults out.old) (O.faults out.new) }
    ensures calm { ¬ IsErrOf result SinkFault.Failed → O.faults out.new ≡ O.faults out.old }
    ensures faults_stay { O.faults out.old ≤ O.faults out.new }
{
    match plan.written {
        Some(format) => {
            let writer = mem::replace(&mut lines.capture, Writer::new(alloc, format));
            write_end(writer, out)
        }
        None => write_behind_lines(alloc, plan, dissector, &lines.notes, out),
    }
}
