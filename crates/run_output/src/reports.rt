// The reports behind the lines of the frames.
ghost use Rattle.std.specs.Prelude.{◌≡◌, false, ◌<◌, ◌≤◌, true, List, length, IfOk, IfSome, IsErrOf, OnOk};
ghost use Rattle.std.specs.List.{list_any};
ghost use Rattle.std.specs.Io.KnownBytes.{Appends};
ghost use Rattle.capture_read.specs.declared.frame.Frame.{Frame as FrameValue};
ghost use Rattle.dissect.specs.Followed.{asks_streams};
ghost use Rattle.dissect.specs.Stands.{StandsWithin};
ghost use Rattle.out_lines.specs.Follow.{AreFollowed, follow_of};
ghost use Rattle.pk_base.specs.Limits.{file_limit};
ghost use Rattle.pk_outside.specs.Outside.{AppendsPart, Rose};
ghost use Rattle.tcp_streams.specs.Standing.{StandsFor, taken_so_far};
ghost use Rattle.tcp_streams.specs.declared.segment.Segment.{Segment as SegmentValue};
ghost use Rattle.run_frames.specs.Accessors.{is_of_streams, reports_of};
ghost use Rattle.run_frames.specs.Job.{Passes, job_in};
ghost use Rattle.run_frames.specs.Notes.{AreNotes};
ghost use Rattle.run_frames.specs.Ended.{HasTaken};
ghost use Rattle.run_output.specs.Reports.{IsAsked, fronts_in, report_text, reports_text};

use crate::owned::let_go;
use dissect::Dissector;
use out_lines::{Fronts, follow_text};
use pk_base::NoMemory;
use pk_outside::{Sink, SinkFault, write_whole};
use run_frames::{Notes, Plan};
use shark_words::Report;
use std::alloc::Global;
use tcp_streams::Streams;

// How many bytes the first line has, its line feed among them; without one it is all of them.
fn line_len(text: &[u8]) -> usize
    requires { 0 < length text.now }
    ensures some { 0 < result }
    ensures within { result ≤ length text.now }
{
    match memchr::memchr(b'\n', text) {
        Some(place) => place + 1,
        None => text.len(),
    }
}

/// Writes a text line by line.
pub(crate) fn write_lines<O: Sink>(text: &[u8], out: &mut O) -> Result<(), SinkFault>
    ensures whole { OnOk result (Appends (O.written out.old) (O.written out.new) text.now) }
    ensures part { AppendsPart (O.written out.old) (O.written out.new) text.now }
    ensures fault { IsErrOf result SinkFault.Failed → Rose (O.faults out.old) (O.faults out.new) }
    ensures calm { ¬ IsErrOf result SinkFault.Failed → O.faults out.new ≡ O.faults out.old }
    ensures faults_stay { O.faults out.old ≤ O.faults out.new }
{
    let mut rest = text;
    while !rest.is_empty() {
        let (line, behind) = rest.split_at(line_len(rest));
        match write_whole(out, line) {
            Ok(()) => {}
            Err(fault) => return Err(fault),
        }
        rest = behind;
    }
    Ok(())
}

// What each side of a stream sent, where there is such a stream.
fn fronts_of(streams: &Streams, stream: u32) -> Result<Option<Fronts>, NoMemory>
    requires stands { (past : List SegmentValue) × StandsFor past streams.now }
    requires few { taken_so_far streams.now ≤ file_limit }
    ensures fronts { IfOk result (λ fronts. (past : List SegmentValue) → StandsFor past streams.now
        → fronts ≡ fronts_in past stream) }
    ensures followed { IfOk result (λ fronts. IfSome fronts AreFollowed) }
{
    if stream >= streams.count() {
        return Ok(None);
    }
    let zero = streams.stretches(stream, 0)?;
    let one = streams.stretches(stream, 1)?;
    Ok(Some(Fronts { zero, one }))
}

// The report of a stream.
fn followed(alloc: Global, streams: &Streams, stream: u32) -> Result<Vec<u8>, NoMemory>
    requires stands { (past : List SegmentValue) × StandsFor past streams.now }
    requires few { taken_so_far streams.now ≤ file_limit }
    ensures { IfOk result (λ text. (past : List SegmentValue) → StandsFor past streams.now
        → text.items ≡ follow_of stream (fronts_in past stream)) }
{
    match fronts_of(streams, stream) {
        Ok(fronts) => follow_text(alloc, stream, fronts),
        Err(error) => Err(error),
    }
}

// The text of a report over the frames that a dissector has taken.
fn report(
    alloc: Global,
    plan: &Plan,
    dissector: &Dissector,
    notes: &Notes,
    asked: Report,
) -> Result<Vec<u8>, NoMemory>
    requires streams { is_of_streams asked ≡ true → asks_streams dissector.now.wanted ≡ true }
    requires whole { is_of_streams asked ≡ true → dissector.now.sparing ≡ false }
    requires taken { HasTaken dissector.now }
    requires there { IsAsked plan.now asked }
    ensures { IfOk result (λ text. (passes : Passes) (past : List FrameValue)
        → StandsWithin past dissector.now → AreNotes (job_in plan.now passes) past notes.now
        → text.items ≡ report_text (job_in plan.now passes) past asked) }
{
    match asked {
        Report::Follow(stream) => match followed(alloc, dissector.streams(), stream) {
            Ok(text) => Ok(text),
            Err(error) => Err(error),
        },
        Report::Table(kind) => match notes.tables.text(kind) {
            Ok(text) => Ok(text),
            Err(error) => Err(error),
        },
    }
}

// Writes a report over the frames that a dissector has taken.
fn write_report<O: Sink>(
    alloc: Global,
    plan: &Plan,
    dissector: &Dissector,
    notes: &Notes,
    asked: Report,
    out: &mut O,
) -> Result<(), SinkFault>
    requires streams { is_of_streams asked ≡ true → asks_streams dissector.now.wanted ≡ true }
    requires whole { is_of_streams asked ≡ true → dissector.now.sparing ≡ false }
    requires taken { HasTaken dissector.now }
    requires there { IsAsked plan.now asked }
    ensures whole { OnOk result ((passes : Passes) (past : List FrameValue)
        → StandsWithin past dissector.now → AreNotes (job_in plan.now passes) past notes.now
        → Appends (O.written out.old) (O.written out.new)
        (report_text (job_in plan.now passes) past asked)) }
    ensures part { (passes : Passes) (past : List FrameValue)
        → StandsWithin past dissector.now → AreNotes (job_in plan.now passes) past notes.now
        → AppendsPart (O.written out.old) (O.written out.new)
        (report_text (job_in plan.now passes) past asked) }
    ensures fault { IsErrOf result SinkFault.Failed → Rose (O.faults out.old) (O.faults out.new) }
    ensures calm { ¬ IsErrOf result SinkFault.Failed → O.faults out.new ≡ O.faults out.old }
    ensures faults_stay { O.faults out.old ≤ O.faults out.new }
{
    let text = match report(alloc, plan, dissector, notes, asked) {
        Ok(text) => text,
        Err(NoMemory) => return Err(SinkFault::NoMemory),
    };
    let written = write_lines(text.as_slice(), out);
    let_go(text);
    written
}

/// Writes reports over the frames that a dissector has taken, in order.
pub(crate) fn write_reports<O: Sink>(
    alloc: Global,
    plan: &Plan,
    dissector: &Dissector,
    notes: &Notes,
    reports: &[Report],
    out: &mut O,
) -> Result<(), SinkFault>
    requires streams { list_any is_of_streams reports.now ≡ true → asks_streams dissector.now.wanted ≡ true }
    requires whole { list_any is_of_streams reports.now ≡ true → dissector.now.sparing ≡ false }
    requires taken { HasTaken dissector.now }
    requires there { reports.now ≡ reports_of plan.now }
    ensures whole { OnOk result ((passes : Passes) (past : List FrameValue)
        → StandsWithin past dissector.now → AreNotes (job_in plan.now passes) past notes.now
        → Appends (O.written out.old) (O.written out.new)
        (reports_text (job_in plan.now passes) past reports.now)) }
    ensures part { (passes : Passes) (past : List FrameValue)
        → StandsWithin past dissector.now → AreNotes (job_in plan.now passes) past notes.now
        → AppendsPart (O.written out.old) (O.written out.new)
        (reports_text (job_in plan.now passes) past reports.now) }
    ensures fault { IsErrOf result SinkFault.Failed → Rose (O.faults out.old) (O.faults out.new) }
    ensures calm { ¬ IsErrOf result SinkFault.Failed → O.faults out.new ≡ O.faults out.old }
    ensures faults_stay { O.faults out.old ≤ O.faults out.new }
{
    for asked in reports {
        match write_report(alloc, plan, dissector, notes, *asked, out) {
            Ok(()) => {}
            Err(fault) => return Err(fault),
        }
    }
    Ok(())
}
