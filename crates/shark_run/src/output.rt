// Reading a file and writing the output over its frames.
ghost use Rattle.std.specs.Prelude.{◌≡◌, ◌<◌, ◌≤◌, suc, false, IfErr, IfOk, IsErrOf, OnOk, [], length};
ghost use Rattle.std.specs.Io.KnownBytes.{Appends};
ghost use Rattle.pk_base.specs.Limits.{file_limit as limit_of_file};
ghost use Rattle.pk_outside.specs.Outside.{AppendsPart};
ghost use Rattle.capture_read.specs.Taken.{TookAtMost};
ghost use Rattle.dissect.specs.Stands.{StandsWithin};
ghost use Rattle.run_frames.specs.Accessors.{compiled_of, rules_of, two_of, written_of};
ghost use Rattle.run_frames.specs.Job.{once};
ghost use Rattle.run_frames.specs.Steps.{KeepsUp};
ghost use Rattle.run_output.specs.Lines.{opening};
ghost use Rattle.run_passes.specs.Passed.{AreEndNear, IsCalm, IsCaused, IsReadOn, IsWriteCaused};
ghost use Rattle.run_frames.specs.Notes.{AreFewNotes};
ghost use Rattle.run_frames.specs.Wanted.{ServesPlan};
ghost use Rattle.shark_run.specs.Way.{IsBodyCutOff, IsCutOff};
ghost use Rattle.shark_run.specs.Wrote.{HaveAll, HaveBody, HavePart, HaveSomeBody};

use crate::ends::run_fault;
use crate::owned::let_go;
use crate::two_passes::write_twice;
use dissect::Dissector;
use pk_base::NoMemory;
use pk_outside::{Capture, Sink, write_whole};
use run_frames::{
    LineMaker, Plan, RunEnding, RunFault, give_up_dissector, give_up_lines, new_line_maker,
};
use run_output::{needed_dissector, opening_line, write_closing};
use run_passes::write_rest;
use std::alloc::Global;

// Reads the begun file and writes what stands behind the opening, and answers how the reading ends.
fn write_body<C: Capture, O: Sink>(
    alloc: Global,
    plan: &Plan,
    dissector: &mut Dissector,
    lines: &mut LineMaker<'_>,
    capture: &mut C,
    out: &mut O,
) -> Result<RunEnding, RunFault>
    requires serves { ServesPlan dissector.old plan.now }
    requires rules { dissector.old.decode.rules ≡ rules_of plan.now }
    requires judge { lines.old.judge ≡ compiled_of plan.now }
    requires lines { lines.old.writer ≡ plan.now.fields }
    requires alone { two_of plan.now ≡ false }
    requires few { AreFewNotes 0 lines.old.notes }
    requires keeps { KeepsUp (written_of plan.now) (once plan.now) [] lines.old.notes lines.old.capture }
    requires stands { StandsWithin [] dissector.old }
    requires taken { dissector.old.taken ≡ 0 }
    requires captured { dissector.old.captured ≡ 0 }

    ensures ended { IfOk result (HaveBody plan.now
        (C.left capture.old) (O.written out.old) (O.written out.new)) }
    ensures full { IfOk result (AreEndNear plan.now (C.left capture.old) (C.left capture.new)) }
    ensures part { HaveSomeBody plan.now
        (C.left capture.old) (O.written out.old) (O.written out.new) }
    ensures broken { IfErr result (IsBodyCutOff plan.now (C.left capture.old) (C.left capture.new)
        (O.written out.old) (O.written out.new)) }
    ensures took { TookAtMost (suc limit_of_file) (C.left capture.old) (C.left capture.new) }
    ensures caused { IfErr result (IsCaused (C.faults capture.old) (C.faults capture.new)
        (O.faults out.old) (O.faults out.new)) }
    ensures calm { OnOk result (IsCalm (C.faults capture.old) (C.faults capture.new)
        (O.faults out.old) (O.faults out.new)) }
    ensures stays { IsReadOn (C.asked capture.old) (C.asked capture.new)
        (C.begun capture.old) (C.begun capture.new) (C.missed capture.old) (C.missed capture.new) }
{
    let ending = match write_rest(alloc, plan, dissector, lines, capture, out) {
        Ok(ending) => ending,
        Err(fault) => return Err(fault),
    };
    match write_closing(alloc, plan, dissector, lines, out) {
        Ok(()) => Ok(ending),
        Err(fault) => Err(run_fault(fault)),
    }
}

// Reads the begun file once and writes what stands behind the opening, and answers how the reading ends.
fn write_once<C: Capture, O: Sink>(
    alloc: Global,
    plan: &Plan,
    capture: &mut C,
    out: &mut O,
) -> Result<RunEnding, RunFault>
    requires { two_of plan.now ≡ false }
    ensures ended { IfOk result (HaveBody plan.now
        (C.left capture.old) (O.written out.old) (O.written out.new)) }
    ensures full { IfOk result (AreEndNear plan.now (C.left capture.old) (C.left capture.new)) }
    ensures part { HaveSomeBody plan.now
        (C.left capture.old) (O.written out.old) (O.written out.new) }
    ensures broken { IfErr result (IsBodyCutOff plan.now (C.left capture.old) (C.left capture.new)
        (O.written out.old) (O.written out.new)) }
    ensures took { TookAtMost (suc limit_of_file) (C.left capture.old) (C.left capture.new) }
    ensures caused { IfErr result (IsCaused (C.faults capture.old) (C.faults capture.new)
        (O.faults out.old) (O.faults out.new)) }
    ensures calm { OnOk result (IsCalm (C.faults capture.old) (C.faults capture.new)
        (O.faults out.old) (O.faults out.new)) }
    ensures stays { IsReadOn (C.asked capture.old) (C.asked capture.new)
        (C.begun capture.old) (C.begun capture.new) (C.missed capture.old) (C.missed capture.new) }
{
    let mut lines = match new_line_maker(alloc, plan) {
        Ok(lines) => lines,
        Err(NoMemory) => return Err(RunFault::NoMemory),
    };
    let mut dissector = match needed_dissector(alloc, plan) {
        Ok(dissector) => dissector,
        Err(NoMemory) => {
            give_up_lines(lines);
            return Err(RunFault::NoMemory);
        }
    };
    let ended = write_body(alloc, plan, &mut dissector, &mut lines, capture, out);
    give_up_dissector(dissector);
    give_up_lines(lines);
    ended
}

// Reads the begun file and writes what stands behind the opening, and answers how the reading ends.
fn write_frames<C: Capture, O: Sink>(
    alloc: Global,
    plan: &Plan,
    capture: &mut C,
    out: &mut O,
) -> Result<RunEnding, RunFault>
    ensures ended { IfOk result (HaveBody plan.now
        (C.left capture.old) (O.written out.old) (O.written out.new)) }
    ensures full { IfOk result (AreEndNear plan.now (C.left capture.old) (C.left capture.new)) }
    ensures part { HaveSomeBody plan.now
        (C.left capture.old) (O.written out.old) (O.written out.new) }
    ensures broken { IfErr result (IsBodyCutOff plan.now (C.left capture.old) (C.left capture.new)
        (O.written out.old) (O.written out.new)) }
    ensures took { TookAtMost (suc limit_of_file) (C.left capture.old) (C.left capture.new) }
    ensures caused { IfErr result (IsCaused (C.faults capture.old) (C.faults capture.new)
        (O.faults out.old) (O.faults out.new)) }
    ensures calm { OnOk result (IsCalm (C.faults capture.old) (C.faults capture.new)
        (O.faults out.old) (O.faults out.new)) }
    ensures stays { IsReadOn (C.asked capture.old) (C.asked capture.new)
        (C.begun capture.old) (C.begun capture.new) (C.missed capture.old) (C.missed capture.new) }
{
    if plan.two {
        write_twice(alloc, plan, capture, out)
    } else {
        write_once(alloc, plan, capture, out)
    }
}

fn write_opening<O: Sink>(alloc: Global, plan: &Plan, out: &mut O) -> Result<(), RunFault>
    ensures whole { OnOk result
        (Appends (O.written out.old) (O.written out.new) (opening plan.now)) }
    ensures part { AppendsPart (O.written out.old) (O.written out.new) (opening plan.now) }
    ensures some { IsErrOf result RunFault.WriteFault → 0 < length (opening plan.now) }
    ensures caused { IfErr result (IsWriteCaused (O.faults out.old) (O.faults out.new)) }
    ensures calm { OnOk result (O.faults out.new ≡ O.faults out.old) }
    ensures faults_stay { O.faults out.old ≤ O.faults out.new }
{
    let line = match opening_line(alloc, plan) {
        Ok(line) => line,
        Err(NoMemory) => return Err(RunFault::NoMemory),
    };
    let written = write_whole(out, line.as_slice());
    let_go(line);
    match written {
        Ok(()) => Ok(()),
        Err(fault) => Err(run_fault(fault)),
    }
}

/// Reads the begun file and writes the whole output over its frames, and answers how the reading
/// ends.
pub(crate) fn write_output<C: Capture, O: Sink>(
    alloc: Global,
    plan: &Plan,
    capture: &mut C,
    out: &mut O,
) -> Result<RunEnding, RunFault>
    ensures ended { IfOk result (HaveAll plan.now
        (C.left capture.old) (O.written out.old) (O.written out.new)) }
    ensures full { IfOk result (AreEndNear plan.now (C.left capture.old) (C.left capture.new)) }
    ensures part { HavePart plan.now (C.left capture.old) (O.written out.old) (O.written out.new) }
    ensures broken { IfErr result (IsCutOff plan.now (C.left capture.old) (C.left capture.new)
        (O.written out.old) (O.written out.new)) }
    ensures took { TookAtMost (suc limit_of_file) (C.left capture.old) (C.left capture.new) }
    ensures caused { IfErr result (IsCaused (C.faults capture.old) (C.faults capture.new)
        (O.faults out.old) (O.faults out.new)) }
    ensures calm { OnOk result (IsCalm (C.faults capture.old) (C.faults capture.new)
        (O.faults out.old) (O.faults out.new)) }
    ensures stays { IsReadOn (C.asked capture.old) (C.asked capture.new)
        (C.begun capture.old) (C.begun capture.new) (C.missed capture.old) (C.missed capture.new) }
{
    match write_opening(alloc, plan, out) {
        Ok(()) => write_frames(alloc, plan, capture, out),
        Err(fault) => Err(fault),
    }
}
