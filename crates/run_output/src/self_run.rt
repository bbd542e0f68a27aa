// The line over a generated capture.
ghost use Rattle.std.specs.Prelude.{◌≡◌, false, ◌≤◌, true, IfOk, IsErrOf, List, OnOk, string_bytes};
ghost use Rattle.std.specs.Io.KnownBytes.{Appends};
ghost use Rattle.capture_read.specs.declared.frame.Frame.{Frame as FrameValue};
ghost use Rattle.dissect.specs.Followed.{asks_streams};
ghost use Rattle.dissect.specs.Stands.{StandsWithin};
ghost use Rattle.pk_outside.specs.Outside.{AppendsPart, Rose};
ghost use Rattle.run_frames.specs.Job.{Job, Passes, job_in};
ghost use Rattle.run_output.specs.Lines.{counted_line as line_counted};
ghost use Rattle.run_frames.specs.Notes.{AreNotes};
ghost use Rattle.run_output.specs.SelfRun.{counts_text, self_run_line as line_of_frames, totals_of};
ghost use Rattle.run_frames.specs.Wanted.{ServesPlan};

use crate::owned::let_go;
use dissect::Dissector;
use pk_base::NoMemory;
use pk_outside::{Sink, SinkFault, write_whole};
use run_frames::{Notes, Plan, Totals};
use std::alloc::Global;

// The line of these counts.
fn counts_line(alloc: Global, totals: Totals, tcp: u32, udp: u32) -> Result<String, NoMemory>
    ensures { IfOk result (λ line. string_bytes line
        ≡ counts_text totals.frames totals.shown tcp udp totals.dns totals.http) }
{
    let Totals {
        frames,
        shown,
        dns,
        http,
        steps: _,
    } = totals;
    Ok(format!(in alloc;
        "self-run frames {frames} shown {shown} tcp {tcp} udp {udp} dns {dns} http {http}\n"
    )?)
}

// The line over all frames that a dissector has taken, of which these are the totals.
fn self_run_line(alloc: Global, dissector: &Dissector, totals: Totals) -> Result<String, NoMemory>
    requires streams { asks_streams dissector.now.wanted ≡ true }
    requires whole { dissector.now.sparing ≡ false }
    ensures { IfOk result (λ line. (job : Job) (past : List FrameValue)
        → StandsWithin past dissector.now → totals ≡ totals_of job past
        → string_bytes line ≡ line_of_frames job past) }
{
    let tcp = dissector.streams().count();
    let udp = dissector.udp_count();
    match counts_line(alloc, totals, tcp, udp) {
        Ok(line) => Ok(line),
        Err(error) => Err(error),
    }
}

// Over a generated capture, the line of what was counted.
#[tactic(auto, using(crate::proofs::ClosingLemmas::no_counts, crate::proofs::EnoughLemmas::generated_streams, crate::proofs::EnoughLemmas::generated_whole))]
fn counted_line(
    alloc: Global,
    plan: &Plan,
    dissector: &Dissector,
    notes: &Notes,
) -> Result<String, NoMemory>
    requires { ServesPlan dissector.now plan.now }
    ensures { IfOk result (λ line. (passes : Passes) (past : List FrameValue)
        → StandsWithin past dissector.now → AreNotes (job_in plan.now passes) past notes.now
        → string_bytes line ≡ line_counted (job_in plan.now passes) past) }
{
    if plan.source.is_generated() {
        match self_run_line(alloc, dissector, notes.totals) {
            Ok(line) => Ok(line),
            Err(error) => Err(error),
        }
    } else {
        Ok(String::new(alloc))
    }
}

/// Writes that line.
pub(crate) fn write_counts<O: Sink>(
    alloc: Global,
    plan: &Plan,
    dissector: &Dissector,
    notes: &Notes,
    out: &mut O,
) -> Result<(), SinkFault>
    requires { ServesPlan dissector.now plan.now }
    ensures whole { OnOk result ((passes : Passes) (past : List FrameValue)
        → StandsWithin past dissector.now → AreNotes (job_in plan.now passes) past notes.now
        → Appends (O.written out.old) (O.written out.new)
        (line_counted (job_in plan.now passes) past)) }
    ensures part { (passes : Passes) (past : List FrameValue)
        → StandsWithin past dissector.now → AreNotes (job_in plan.now passes) past notes.now
        → AppendsPart (O.written out.old) (O.written out.new)
        (line_counted (job_in plan.now passes) past) }
    ensures fault { IsErrOf result SinkFault.Failed → Rose (O.faults out.old) (O.faults out.new) }
    ensures calm { ¬ IsErrOf result SinkFault.Failed → O.faults out.new ≡ O.faults out.old }
    ensures faults_stay { O.faults out.old ≤ O.faults out.new }
{
    let line = match counted_line(alloc, plan, dissector, notes) {
        Ok(line) => line,
        Err(NoMemory) => return Err(SinkFault::NoMemory),
    };
    let written = write_whole(out, line.as_bytes());
    let_go(line);
    written
}
