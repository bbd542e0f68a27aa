// Reading the frames twice: the first time for what later frames bring, the second time for the lines.
ghost use Rattle.std.specs.Prelude.{◌≡◌, true, ◌≤◌, ◌<◌, suc, [], IfErr, IfOk, OnOk};
ghost use Rattle.pk_base.specs.Limits.{file_limit as limit_of_file};
ghost use Rattle.capture_read.specs.Taken.{TookAtMost};
ghost use Rattle.dissect.specs.Stands.{StandsWithin};
ghost use Rattle.run_frames.specs.Accessors.{compiled_of, rules_of, two_of, written_of};
ghost use Rattle.run_frames.specs.Job.{Passes, job_in};
ghost use Rattle.run_frames.specs.Later.{ServesKept};
ghost use Rattle.run_frames.specs.Notes.{AreFewNotes};
ghost use Rattle.run_passes.specs.Passed.{AreEndNear, IsCalm, IsCaused, IsReadOn, IsWriteCaused};
ghost use Rattle.run_passes.specs.Reading.{read_of};
ghost use Rattle.run_frames.specs.Steps.{KeepsUp};
ghost use Rattle.run_passes.specs.Takeable.{AreTakeable};
ghost use Rattle.run_frames.specs.Wanted.{IsEnough, ServesPlan};
ghost use Rattle.shark_run.specs.Way.{IsBodyCutOff};
ghost use Rattle.shark_run.specs.Wrote.{HaveBody, HaveKeptBody, HaveSomeBody, HaveSomeKeptBody, WroteBody, WroteSomeBody};

use crate::ends::run_fault;
use dissect::Dissector;
use pk_base::NoMemory;
use pk_fields::FieldSet;
use pk_outside::{Capture, Sink};
use run_frames::{
    Later, LineMaker, Plan, RunEnding, RunFault, give_up_dissector, give_up_lines, new_dissector,
    new_line_maker,
};
use run_output::{needed_fields, write_closing};
use run_passes::{KeptFrames, give_up_kept, give_up_later, keep_frames, later_of, write_kept};
use std::alloc::Global;

// Writes what is asked for of frames, and what stands behind it.
fn write_kept_body<O: Sink>(
    alloc: Global,
    plan: &Plan,
    kept: &KeptFrames,
    later: &Later,
    dissector: &mut Dissector,
    lines: &mut LineMaker<'_>,
    out: &mut O,
) -> Result<RunEnding, RunFault>
    requires serves { ServesPlan dissector.old plan.now }
    requires rules { dissector.old.decode.rules ≡ rules_of plan.now }
    requires judge { lines.old.judge ≡ compiled_of plan.now }
    requires lines { lines.old.writer ≡ plan.now.fields }
    requires few { AreFewNotes 0 lines.old.notes }
    requires keeps { (passes : Passes)
        → KeepsUp (written_of plan.now) (job_in plan.now passes) [] lines.old.notes lines.old.capture }
    requires stands { StandsWithin [] dissector.old }
    requires taken { dissector.old.taken ≡ 0 }
    requires captured { dissector.old.captured ≡ 0 }
    requires takeable { AreTakeable 0 0 kept.now.frames }
    ensures ended { IfOk result (λ ending. (passes : Passes)
        → ServesKept dissector.old.wanted (two_of plan.now) passes later.now
        → HaveKeptBody plan.now passes kept.now.frames kept.now.ending
        (O.written out.old) (O.written out.new) ending) }
    ensures part { (passes : Passes)
        → ServesKept dissector.old.wanted (two_of plan.now) passes later.now
        → HaveSomeKeptBody plan.now passes kept.now.frames kept.now.ending
        (O.written out.old) (O.written out.new) }
    ensures caused { IfErr result (IsWriteCaused (O.faults out.old) (O.faults out.new)) }
    ensures calm { OnOk result (O.faults out.new ≡ O.faults out.old) }
    ensures faults_stay { O.faults out.old ≤ O.faults out.new }
{
    let ending = match write_kept(plan, kept, later, dissector, lines, out) {
        Ok(ending) => ending,
        Err(fault) => return Err(fault),
    };
    match write_closing(alloc, plan, dissector, lines, out) {
        Ok(()) => Ok(ending),
        Err(fault) => Err(run_fault(fault)),
    }
}

// Goes over kept frames with what is known of later ones, and writes what stands behind the opening.
#[tactic(auto, using(run_frames::proofs::WantedLemmas::serves_trees))]
fn write_known<O: Sink>(
    alloc: Global,
    plan: &Plan,
    kept: &KeptFrames,
    wanted: FieldSet,
    later: &Later,
    out: &mut O,
) -> Result<RunEnding, RunFault>
    requires enough { IsEnough wanted plan.now }
    requires takeable { AreTakeable 0 0 kept.now.frames }
    ensures ended { IfOk result (λ ending. (passes : Passes)
        → ServesKept wanted (two_of plan.now) passes later.now
        → HaveKeptBody plan.now passes kept.now.frames kept.now.ending
        (O.written out.old) (O.written out.new) ending) }
    ensures part { (passes : Passes)
        → ServesKept wanted (two_of plan.now) passes later.now
        → HaveSomeKeptBody plan.now passes kept.now.frames kept.now.ending
        (O.written out.old) (O.written out.new) }
    ensures caused { IfErr result (IsWriteCaused (O.faults out.old) (O.faults out.new)) }
    ensures calm { OnOk result (O.faults out.new ≡ O.faults out.old) }
{
    let mut lines = match new_line_maker(alloc, plan) {
        Ok(lines) => lines,
        Err(NoMemory) => return Err(RunFault::NoMemory),
    };
    let mut dissector = match new_dissector(alloc, plan, wanted) {
        Ok(dissector) => dissector,
        Err(NoMemory) => {
            give_up_lines(lines);
            return Err(RunFault::NoMemory);
        }
    };
    let ended = write_kept_body(alloc, plan, kept, later, &mut dissector, &mut lines, out);
    give_up_dissector(dissector);
    give_up_lines(lines);
    ended
}

// Goes over kept frames twice, and writes what stands behind the opening.
fn write_again<O: Sink>(
    alloc: Global,
    plan: &Plan,
    kept: &KeptFrames,
    out: &mut O,
) -> Result<RunEnding, RunFault>
    requires two { two_of plan.now ≡ true }
    requires takeable { AreTakeable 0 0 kept.now.frames }
    ensures ended { IfOk result (λ ending.
        WroteBody plan.now
        (read_of plan.now (record { frames = kept.now.frames; ending = kept.now.ending }))
        (O.written out.old) (O.written out.new)
        × (ending
        ≡ (read_of plan.now (record { frames = kept.now.frames; ending = kept.now.ending })).ending)) }
    ensures part { WroteSomeBody plan.now
        (read_of plan.now (record { frames = kept.now.frames; ending = kept.now.ending }))
        (O.written out.old) (O.written out.new) }
    ensures caused { IfErr result (IsWriteCaused (O.faults out.old) (O.faults out.new)) }
    ensures calm { OnOk result (O.faults out.new ≡ O.faults out.old) }
{
    let wanted = needed_fields(plan);
    let later = match later_of(alloc, plan, wanted, kept.frames.slice()) {
        Ok(later) => later,
        Err(NoMemory) => return Err(RunFault::NoMemory),
    };
    let ended = write_known(alloc, plan, kept, wanted, &later, out);
    give_up_later(later);
    ended
}

/// Reads the begun file and then goes over its frames twice, and writes what stands behind the opening. Answers how the reading
/// ends. Nothing is written before all is read.
pub(crate) fn write_twice<C: Capture, O: Sink>(
    alloc: Global,
    plan: &Plan,
    capture: &mut C,
    out: &mut O,
) -> Result<RunEnding, RunFault>
    requires { two_of plan.now ≡ true }
    ensures ended { IfOk result (HaveBody plan.now
        (C.left capture.old) (O.written out.old) (O.written out.new)) }
    ensures full { IfOk result (AreEndNear plan.now (C.left capture.old) (C.left capture.new)) }
    ensures part { HaveSomeBody plan.now
        (C.left capture.old) (O.written out.old) (O.written out.new) }
    ensures broken { IfErr result (IsBodyCutOff plan.now (C.left capture.old) (C.left capture.new)
        (O.written out.old) (O.written out.new)) }
    ensures took { TookAtMost (suc limit_of_file) (C.left capture.old) (C.left capture.new) }
    ensures caused { IfErr result (IsCaused (C.faults capture.old) (C.faults capture.new)
        (O.faults out.old) (O.faults out.new)) }
    ensures calm { OnOk result (IsCalm (C.faults capture.old) (C.faults capture.new)
        (O.faults out.old) (O.faults out.new)) }
    ensures stays { IsReadOn (C.asked capture.old) (C.asked capture.new)
        (C.begun capture.old) (C.begun capture.new) (C.missed capture.old) (C.missed capture.new) }
{
    let kept = match keep_frames(alloc, plan, capture) {
        Ok(kept) => kept,
        Err(fault) => return Err(fault),
    };
    let ended = write_again(alloc, plan, &kept, out);
    give_up_kept(kept);
    ended
}
