// What is told of the filter's program behind the reports.
ghost use Rattle.std.specs.Prelude.{◌≡◌, ◌≤◌, ◌++◌, List, IfOk, IsErrOf, OnOk, codes, decimal, string_bytes};
ghost use Rattle.std.specs.Io.KnownBytes.{Appends};
ghost use Rattle.capture_read.specs.declared.frame.Frame.{Frame as FrameValue};
ghost use Rattle.pk_outside.specs.Outside.{AppendsPart, Rose};
ghost use Rattle.run_output.specs.FilterStats.{stats_lines, stats_text};
ghost use Rattle.run_frames.specs.Job.{Passes, job_in};
ghost use Rattle.run_frames.specs.Notes.{AreNotes};

use crate::owned::let_go;
use crate::reports::write_lines;
use flt_program::listing;
use pk_base::NoMemory;
use pk_outside::{Sink, SinkFault};
use run_frames::{Compiled, Notes, Plan};
use std::alloc::Global;

// How many instructions a program has, and how many steps it took.
fn counts_line(alloc: Global, instructions: u32, steps: u64) -> Result<String, NoMemory>
    ensures { IfOk result (λ line. string_bytes line
        ≡ codes "filter " ++ (decimal instructions ++ (codes " instructions " ++ (decimal steps ++ codes " steps\n")))) }
{
    Ok(format!(in alloc; "filter {instructions} instructions {steps} steps\n")?)
}

// The bytes of that line.
fn counts_bytes(alloc: Global, instructions: u32, steps: u64) -> Result<Vec<u8>, NoMemory>
    ensures { IfOk result (λ line. line.items
        ≡ codes "filter " ++ (decimal instructions ++ (codes " instructions " ++ (decimal steps ++ codes " steps\n")))) }
{
    let line = counts_line(alloc, instructions, steps)?;
    Ok(Vec::from_slice(alloc, line.as_bytes())?)
}

// That line, and the listing.
fn text_of(alloc: Global, compiled: &Compiled, steps: u64) -> Result<Vec<u8>, NoMemory>
    ensures { IfOk result (λ text. text.items ≡ stats_text compiled.now steps) }
{
    let program = compiled.program();
    let listing = listing(alloc, program, compiled.filter())?;
    let mut text = match counts_bytes(alloc, program.len(), steps) {
        Ok(text) => text,
        Err(error) => {
            let_go(listing);
            return Err(error);
        }
    };
    let added = text.extend_from_slice(listing.as_slice());
    let_go(listing);
    match added {
        Ok(()) => Ok(text),
        Err(_) => {
            let_go(text);
            Err(NoMemory)
        }
    }
}

// What is told, where it is asked for.
#[tactic(auto, using(crate::proofs::StatsLemmas::stats_told, crate::proofs::StatsLemmas::stats_untold, crate::proofs::StatsLemmas::stats_of_none))]
fn stats(alloc: Global, plan: &Plan, notes: &Notes) -> Result<Vec<u8>, NoMemory>
    ensures { IfOk result (λ text. (passes : Passes) (past : List FrameValue)
        → AreNotes (job_in plan.now passes) past notes.now
        → text.items ≡ stats_lines (job_in plan.now passes) past) }
{
    match &plan.chosen {
        Some(compiled) if plan.stats => match text_of(alloc, compiled, notes.totals.steps) {
            Ok(text) => Ok(text),
            Err(error) => Err(error),
        },
        Some(_) | None => Ok(Vec::new(alloc)),
    }
}

/// Writes it, line by line.
pub(crate) fn write_stats<O: Sink>(
    alloc: Global,
    plan: &Plan,
    notes: &Notes,
    out: &mut O,
) -> Result<(), SinkFault>
    ensures whole { OnOk result ((passes : Passes) (past : List FrameValue)
        → AreNotes (job_in plan.now passes) past notes.now
        → Appends (O.written out.old) (O.written out.new) (stats_lines (job_in plan.now passes) past)) }
    ensures part { (passes : Passes) (past : List FrameValue)
        → AreNotes (job_in plan.now passes) past notes.now
        → AppendsPart (O.written out.old) (O.written out.new) (stats_lines (job_in plan.now passes) past) }
    ensures fault { IsErrOf result SinkFault.Failed → Rose (O.faults out.old) (O.faults out.new) }
    ensures calm { ¬ IsErrOf result SinkFault.Failed → O.faults out.new ≡ O.faults out.old }
    ensures faults_stay { O.faults out.old ≤ O.faults out.new }
{
    let text = match stats(alloc, plan, notes) {
        Ok(text) => text,
        Err(NoMemory) => return Err(SinkFault::NoMemory),
    };
    let written = write_lines(text.as_slice(), out);
    let_go(text);
    written
}
