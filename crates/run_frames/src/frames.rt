// A frame of a run: its tree, its line or its packet, and what is noted of it.
ghost use Rattle.std.specs.Prelude.{◌≡◌, ◌≢◌, ◌<◌, ◌≤◌, ◌+◌, ◌-◌, ◌^◌, ℕ, suc, true, false, IfOk, IfSome, IsErrOf, OnOk, [], ◌∷◌, List, length};
ghost use Rattle.std.specs.Io.KnownBytes.{Appends};
ghost use Rattle.pk_outside.specs.Outside.{Rose, AppendsPart};
ghost use Rattle.capture_read.specs.declared.frame.Frame.{Frame as FrameValue};
ghost use Rattle.out_json.specs.Lines.{json_line_of};
ghost use Rattle.pk_source.specs.Outlines.{IsOutline};
ghost use Rattle.pk_source.specs.Sources.{shown_by};
ghost use Rattle.dissect.specs.Stands.{StandsWithin};
ghost use Rattle.capture_read.specs.FrameList.{IsTime};
ghost use Rattle.run_frames.specs.Accessors.{compiled_of, is_generated, kind_of, is_quiet as is_plan_quiet, rules_of, stats_of, two_of, written_of};
ghost use Rattle.run_frames.specs.Job.{Passes, job_in};
ghost use Rattle.run_frames.specs.Later.{IsUnnamed, ServesKept};
ghost use Rattle.run_frames.specs.Steps.{IsAfterFrame, KeepsUp, fit_piece};
ghost use Rattle.run_frames.specs.Pieces.{line_of, shown};
ghost use Rattle.run_frames.specs.Notes.{AreFewNotes, AreOneMore, HasNoted};
ghost use Rattle.run_frames.specs.Tables.{asks_tables};
ghost use Rattle.run_frames.specs.Totals.{nothing_counted};
ghost use Rattle.run_frames.specs.Trees.{tree_of};
ghost use Rattle.run_frames.specs.Wanted.{IsToldAs, ServesPlan};
ghost use Rattle.run_frames.specs.Taken.{IsTreeLent, heads_tree};

use crate::judge::{Judge, judge_for, verdict_of};
use crate::later::Later;
use crate::notes::{Notes, asks_notes, note_tree};
use crate::owned::give_up_writer;
use crate::packet::write_packet;
use crate::plan::Plan;
use crate::taken::{Taken, goes_plain, take_fed, take_heads, take_tree};
use capture_read::Frame;
use capture_write::{Format, Writer};
use dissect::{Dissector, Heads};
use out_json::JsonWriter;
use out_lines::LineWriter;
use pk_base::NoMemory;
use pk_fields::{DecodeAs, FieldSet};
use pk_outside::{Sink, SinkFault, write_whole};
use pk_source::{Lender, Source};
use pk_text::Slab;
use pk_tree::Tree;
use shark_words::LineKind;
use std::alloc::Global;

/// Why a run didn't come to the end of its file.
#[derive(Clone, Copy)]
pub enum RunFault {
    ReadFault,
    WriteFault,
    NoMemory,
}

/// A dissector for trees of some fields, by the rules that are asked for.
pub fn new_dissector(alloc: Global, plan: &Plan, wanted: FieldSet) -> Result<Dissector, NoMemory>
    ensures stands { IfOk result (λ dissector. StandsWithin [] dissector) }
    ensures wanted { IfOk result (λ dissector. dissector.wanted ≡ wanted) }
    ensures rules { IfOk result (λ dissector. dissector.decode.rules ≡ rules_of plan.now) }
    ensures taken { IfOk result (λ dissector. dissector.taken ≡ 0) }
    ensures captured { IfOk result (λ dissector. dissector.captured ≡ 0) }
    ensures whole { IfOk result (λ dissector. dissector.sparing ≡ false) }
{
    let rules = plan.decode.copy(alloc)?;
    Ok(Dissector::for_fields(alloc, DecodeAs { rules }, wanted))
}

/// As `new_dissector`, for the values of these fields alone.
pub fn new_value_dissector(
    alloc: Global,
    plan: &Plan,
    wanted: FieldSet,
) -> Result<Dissector, NoMemory>
    ensures stands { IfOk result (λ dissector. StandsWithin [] dissector) }
    ensures wanted { IfOk result (λ dissector. dissector.wanted ≡ wanted) }
    ensures rules { IfOk result (λ dissector. dissector.decode.rules ≡ rules_of plan.now) }
    ensures taken { IfOk result (λ dissector. dissector.taken ≡ 0) }
    ensures captured { IfOk result (λ dissector. dissector.captured ≡ 0) }
    ensures sparing { IfOk result (λ dissector. dissector.sparing ≡ true) }
{
    let rules = plan.decode.copy(alloc)?;
    Ok(Dissector::for_values(alloc, DecodeAs { rules }, wanted))
}

/// A line, with what decides whether it is shown, what writes it, what was noted so far, and what writes a capture.
pub struct LineMaker<'p> {
    pub judge: Option<Judge<'p>>,
    pub writer: LineWriter,
    pub(crate) json: JsonWriter,
    pub(crate) line: Slab,
    pub notes: Notes,
    pub capture: Writer,
    /// Where the headers of a plain frame will stand, once there was one.
    pub(crate) heads: Option<Box<Heads>>,
    pub(crate) alloc: Global,
}

impl Drop for LineMaker<'_> {
    fn drop(self) {
        let LineMaker {
            judge: _judge,
            writer: _writer,
            json: _json,
            line: _line,
            notes: _notes,
            capture: _capture,
            heads: _heads,
            alloc: _,
        } = self;
    }
}

/// A line maker of a plan, of which nothing was written.
#[tactic(auto, using(crate::proofs::NoteLemmas::keeps_nothing))]
pub fn new_line_maker(alloc: Global, plan: &Plan) -> Result<LineMaker<'_>, NoMemory>
    ensures judge { IfOk result (λ lines. lines.judge ≡ compiled_of plan.now) }
    ensures writer { IfOk result (λ lines. lines.writer ≡ plan.now.fields) }
    ensures totals { IfOk result (λ lines. lines.notes.totals ≡ nothing_counted) }
    ensures few { IfOk result (λ lines. AreFewNotes 0 lines.notes) }
    ensures keeps { IfOk result (λ lines. (passes : Passes)
        → KeepsUp (written_of plan.now) (job_in plan.now passes) [] lines.notes lines.capture) }
{
    let writer = LineWriter::new(alloc, plan.fields.slice())?;
    match judge_for(alloc, plan) {
        Ok(judge) => {
            let notes = Notes::new(alloc, plan);
            let capture = Writer::new(alloc, plan.written.unwrap_or(Format::Pcapng));
            Ok(LineMaker {
                judge,
                writer,
                json: JsonWriter::new(alloc),
                line: Slab::new(alloc),
                notes,
                capture,
                heads: None,
                alloc,
            })
        }
        Err(error) => {
            give_up_writer(writer);
            Err(error)
        }
    }
}

// Puts the line of a frame, of the kind that is asked for. A line of all items needs the tree.
fn put_line(
    plan: &Plan,
    source: &Source<'_>,
    lender: &Lender<'_>,
    lines: &mut LineMaker<'_>,
) -> Result<(), NoMemory>
    requires lent { shown_by lender.now ≡ source.now }
    requires tree { kind_of plan.now ≡ LineKind.Json → IsTreeLent lender.now }
    requires writer { lines.old.writer ≡ plan.now.fields }
    requires empty { lines.old.line ≡ [] }
    ensures line { OnOk result (lines.new.line ≡ line_of plan.now source.now) }
    ensures judge { lines.new.judge ≡ lines.old.judge }
    ensures writer { lines.new.writer ≡ lines.old.writer }
    ensures notes { lines.new.notes ≡ lines.old.notes }
{
    match plan.kind {
        LineKind::Text => lines.writer.write_summary_source(&mut lines.line, source),
        LineKind::Fields => lines
            .writer
            .write_source(&mut lines.line, source, &plan.style),
        LineKind::Json => put_json(&mut lines.json, &mut lines.line, lender),
    }
}

// Puts the line of a tree, as JSON.
fn put_json(json: &mut JsonWriter, line: &mut Slab, lender: &Lender<'_>) -> Result<(), NoMemory>
    requires tree { IsTreeLent lender.now }
    requires empty { line.old ≡ [] }
    ensures { OnOk result (line.new ≡ json_line_of (shown_by lender.now)) }
{
    match *lender {
        Lender::Tree(tree) => json.write_to(line, tree),
        Lender::Outline(_) => unreachable!(),
    }
}

// Whether it is asked what the filter's program answers of a tree.
fn asks_filter(plan: &Plan) -> bool
    ensures quiet { result ≡ false → is_plan_quiet plan.now ≡ true }
    ensures file { result ≡ false → is_generated plan.now ≡ false }
    ensures stats { result ≡ false → stats_of plan.now ≡ false }
    ensures tables { result ≡ false → asks_tables plan.now ≡ false }
{
    !plan.quiet || asks_notes(plan)
}

// Whether no line of a tree is made.
fn is_quiet(plan: &Plan) -> bool
    ensures { result ≡ is_plan_quiet plan.now }
{
    plan.source.is_generated() || plan.quiet
}

// Makes the line of a tree, where the filter lets it through, else one of no bytes, and notes the tree for what stands behind the
// lines.
#[tactic(auto, using(crate::proofs::NoteLemmas::noted_nothing, crate::proofs::NoteLemmas::one_more_same))]
fn make_line(
    plan: &Plan,
    source: &Source<'_>,
    lender: &Lender<'_>,
    lines: &mut LineMaker<'_>,
) -> Result<(), NoMemory>
    requires lent { shown_by lender.now ≡ source.now }
    requires tree { kind_of plan.now ≡ LineKind.Json → IsTreeLent lender.now }
    requires judge { lines.old.judge ≡ compiled_of plan.now }
    requires writer { lines.old.writer ≡ plan.now.fields }
    requires few { AreFewNotes (2 ^ 28) lines.old.notes }
    ensures line { OnOk result (lines.new.line ≡ shown plan.now source.now) }
    ensures noted { OnOk result (HasNoted plan.now source.now lines.old.notes lines.new.notes) }
    ensures judge { lines.new.judge ≡ lines.old.judge }
    ensures writer { lines.new.writer ≡ lines.old.writer }
    ensures few { AreOneMore lines.old.notes lines.new.notes }
{
    lines.line.clear();
    if !asks_filter(plan) {
        return Ok(());
    }
    let verdict = verdict_of(&mut lines.judge, source)?;
    note_tree(plan, source, verdict, &mut lines.notes)?;
    if is_quiet(plan) {
        return Ok(());
    }
    if !verdict.holds {
        return Ok(());
    }
    put_line(plan, source, lender, lines)
}

// Writes the line of a tree, where the filter lets it through.
fn write_tree<O: Sink>(
    plan: &Plan,
    source: &Source<'_>,
    lender: &Lender<'_>,
    lines: &mut LineMaker<'_>,
    out: &mut O,
) -> Result<(), SinkFault>
    requires lent { shown_by lender.now ≡ source.now }
    requires tree { kind_of plan.now ≡ LineKind.Json → IsTreeLent lender.now }
    requires judge { lines.old.judge ≡ compiled_of plan.now }
    requires writer { lines.old.writer ≡ plan.now.fields }
    requires few { AreFewNotes (2 ^ 28) lines.old.notes }
    ensures whole { OnOk result
        (Appends (O.written out.old) (O.written out.new) (shown plan.now source.now)) }
    ensures part { AppendsPart (O.written out.old) (O.written out.new) (shown plan.now source.now) }
    ensures noted { OnOk result (HasNoted plan.now source.now lines.old.notes lines.new.notes) }
    ensures fault { IsErrOf result SinkFault.Failed → Rose (O.faults out.old) (O.faults out.new) }
    ensures calm { ¬ IsErrOf result SinkFault.Failed → O.faults out.new ≡ O.faults out.old }
    ensures faults_stay { O.faults out.old ≤ O.faults out.new }
    ensures judge { lines.new.judge ≡ lines.old.judge }
    ensures writer { lines.new.writer ≡ lines.old.writer }
    ensures few { AreOneMore lines.old.notes lines.new.notes }
{
    match make_line(plan, source, lender, lines) {
        Ok(()) => write_whole(out, lines.line.text()),
        Err(NoMemory) => Err(SinkFault::NoMemory),
    }
}

// Writes what is asked for of a frame of this tree, and answers whether it fits.
#[tactic(auto, using(crate::proofs::NoteLemmas::one_more_same))]
fn write_told<O: Sink>(
    plan: &Plan,
    frame: &Frame,
    source: &Source<'_>,
    lender: &Lender<'_>,
    lines: &mut LineMaker<'_>,
    out: &mut O,
) -> Result<bool, SinkFault>
    requires lent { shown_by lender.now ≡ source.now }
    requires tree { kind_of plan.now ≡ LineKind.Json → IsTreeLent lender.now }
    requires judge { lines.old.judge ≡ compiled_of plan.now }
    requires writer { lines.old.writer ≡ plan.now.fields }
    requires few { AreFewNotes (2 ^ 28) lines.old.notes }
    ensures after { IfOk result (λ fit. (passes : Passes) (past : List FrameValue)
        → IsToldAs plan.now (tree_of (job_in plan.now passes) past frame.now) source.now
        → KeepsUp (written_of plan.now) (job_in plan.now passes) past lines.old.notes lines.old.capture
        → IsAfterFrame fit (job_in plan.now passes) past frame.now lines.new.notes lines.new.capture
        (O.written out.old) (O.written out.new)) }
    ensures part { (passes : Passes) (past : List FrameValue)
        → IsToldAs plan.now (tree_of (job_in plan.now passes) past frame.now) source.now
        → KeepsUp (written_of plan.now) (job_in plan.now passes) past lines.old.notes lines.old.capture
        → AppendsPart (O.written out.old) (O.written out.new)
        (fit_piece (job_in plan.now passes) past frame.now) }
    ensures few { AreOneMore lines.old.notes lines.new.notes }
    ensures judge { lines.new.judge ≡ lines.old.judge }
    ensures writer { lines.new.writer ≡ lines.old.writer }
    ensures fault { IsErrOf result SinkFault.Failed → Rose (O.faults out.old) (O.faults out.new) }
    ensures calm { ¬ IsErrOf result SinkFault.Failed → O.faults out.new ≡ O.faults out.old }
    ensures faults_stay { O.faults out.old ≤ O.faults out.new }
{
    match plan.written {
        Some(_) => write_packet(frame, source, &mut lines.judge, &mut lines.capture, out),
        None => match write_tree(plan, source, lender, lines, out) {
            Ok(()) => Ok(true),
            Err(fault) => Err(fault),
        },
    }
}

// How a run ends where its output can't be written.
fn run_fault(fault: SinkFault) -> RunFault
    ensures failed { result ≡ RunFault.WriteFault → fault ≡ SinkFault.Failed }
    ensures fails { fault ≡ SinkFault.Failed → result ≡ RunFault.WriteFault }
    ensures read { result ≢ RunFault.ReadFault }
{
    match fault {
        SinkFault::Failed => RunFault::WriteFault,
        SinkFault::NoMemory => RunFault::NoMemory,
    }
}

// Writes what is asked for of a plain frame, of which these headers were taken, and gives them back: those of the next one will stand
// there.
#[inline(always)]
fn write_plain<O: Sink>(
    plan: &Plan,
    frame: &Frame,
    heads: Box<Heads>,
    dissector: &Dissector,
    lines: &mut LineMaker<'_>,
    out: &mut O,
) -> Result<bool, RunFault>
    requires outline { IsOutline frame.now.bytes dissector.now.wanted heads.value.headers heads.value.notes }
    requires kind { kind_of plan.now ≡ LineKind.Json → ⊥ }
    requires judge { lines.old.judge ≡ compiled_of plan.now }
    requires writer { lines.old.writer ≡ plan.now.fields }
    requires few { AreFewNotes (2 ^ 28) lines.old.notes }
    ensures after { IfOk result (λ fit. (passes : Passes) (past : List FrameValue)
        → IsToldAs plan.now (tree_of (job_in plan.now passes) past frame.now)
        (heads_tree frame.now.bytes dissector.now.wanted heads.value)
        → KeepsUp (written_of plan.now) (job_in plan.now passes) past lines.old.notes lines.old.capture
        → IsAfterFrame fit (job_in plan.now passes) past frame.now lines.new.notes lines.new.capture
        (O.written out.old) (O.written out.new)) }
    ensures part { (passes : Passes) (past : List FrameValue)
        → IsToldAs plan.now (tree_of (job_in plan.now passes) past frame.now)
        (heads_tree frame.now.bytes dissector.now.wanted heads.value)
        → KeepsUp (written_of plan.now) (job_in plan.now passes) past lines.old.notes lines.old.capture
        → AppendsPart (O.written out.old) (O.written out.new)
        (fit_piece (job_in plan.now passes) past frame.now) }
    ensures few { AreOneMore lines.old.notes lines.new.notes }
    ensures judge { lines.new.judge ≡ lines.old.judge }
    ensures writer { lines.new.writer ≡ lines.old.writer }
    ensures read { IsErrOf result RunFault.ReadFault → ⊥ }
    ensures fault { IsErrOf result RunFault.WriteFault
        → Rose (O.faults out.old) (O.faults out.new) }
    ensures calm { ¬ IsErrOf result RunFault.WriteFault → O.faults out.new ≡ O.faults out.old }
    ensures faults_stay { O.faults out.old ≤ O.faults out.new }
{
    let written = {
        let outline = dissector.outline(frame, &heads);
        let source = Source::of_outline(&outline);
        write_told(plan, frame, &source, &Lender::Outline(&outline), lines, out)
    };
    lines.heads = Some(heads);
    match written {
        Ok(fit) => Ok(fit),
        Err(fault) => Err(run_fault(fault)),
    }
}

// Writes what is asked for of a frame of which this tree was taken, in whose memory the next one is made. Where headers tell a frame,
// nothing is kept free for this.
#[inline(never)]
fn write_taken<O: Sink>(
    plan: &Plan,
    frame: &Frame,
    tree: Tree,
    dissector: &mut Dissector,
    lines: &mut LineMaker<'_>,
    out: &mut O,
) -> Result<bool, RunFault>
    requires judge { lines.old.judge ≡ compiled_of plan.now }
    requires writer { lines.old.writer ≡ plan.now.fields }
    requires few { AreFewNotes (2 ^ 28) lines.old.notes }
    ensures after { IfOk result (λ fit. (passes : Passes) (past : List FrameValue)
        → IsToldAs plan.now (tree_of (job_in plan.now passes) past frame.now) tree
        → KeepsUp (written_of plan.now) (job_in plan.now passes) past lines.old.notes lines.old.capture
        → IsAfterFrame fit (job_in plan.now passes) past frame.now lines.new.notes lines.new.capture
        (O.written out.old) (O.written out.new)) }
    ensures part { (passes : Passes) (past : List FrameValue)
        → IsToldAs plan.now (tree_of (job_in plan.now passes) past frame.now) tree
        → KeepsUp (written_of plan.now) (job_in plan.now passes) past lines.old.notes lines.old.capture
        → AppendsPart (O.written out.old) (O.written out.new)
        (fit_piece (job_in plan.now passes) past frame.now) }
    ensures few { AreOneMore lines.old.notes lines.new.notes }
    ensures judge { lines.new.judge ≡ lines.old.judge }
    ensures writer { lines.new.writer ≡ lines.old.writer }
    ensures read { IsErrOf result RunFault.ReadFault → ⊥ }
    ensures fault { IsErrOf result RunFault.WriteFault
        → Rose (O.faults out.old) (O.faults out.new) }
    ensures calm { ¬ IsErrOf result RunFault.WriteFault → O.faults out.new ≡ O.faults out.old }
    ensures faults_stay { O.faults out.old ≤ O.faults out.new }
    ensures dissector { dissector.new ≡ dissector.old }
{
    let written = {
        let source = Source::of_tree(&tree);
        write_told(plan, frame, &source, &Lender::Tree(&tree), lines, out)
    };
    dissector.give_back(tree);
    match written {
        Ok(fit) => Ok(fit),
        Err(fault) => Err(run_fault(fault)),
    }
}

// The same by the frame's tree. No tree is moved through the way of plain frames.
#[inline(never)]
fn write_by_tree<O: Sink>(
    plan: &Plan,
    frame: &Frame,
    later: &Later,
    dissector: &mut Dissector,
    lines: &mut LineMaker<'_>,
    out: &mut O,
) -> Result<bool, RunFault>
    requires serves { ServesPlan dissector.old plan.now }
    requires rules { dissector.old.decode.rules ≡ rules_of plan.now }
    requires judge { lines.old.judge ≡ compiled_of plan.now }
    requires lines { lines.old.writer ≡ plan.now.fields }
    requires few { AreFewNotes (2 ^ 28) lines.old.notes }
    requires number { frame.now.number ≡ dissector.old.taken + 1 }
    requires time { IfSome frame.now.time IsTime }
    requires captured { dissector.old.captured + length frame.now.bytes ≤ 2 ^ 28 }
    ensures stands { OnOk result ((past : List FrameValue) → StandsWithin past dissector.old
        → StandsWithin (frame.now ∷ past) dissector.new) }
    ensures kept { dissector.new.wanted ≡ dissector.old.wanted }
    ensures sparing { dissector.new.sparing ≡ dissector.old.sparing }
    ensures rules { dissector.new.decode ≡ dissector.old.decode }
    ensures taken { OnOk result (dissector.new.taken ≡ dissector.old.taken + 1) }
    ensures captured { OnOk result (dissector.new.captured
        ≡ dissector.old.captured + length frame.now.bytes) }
    ensures after { IfOk result (λ fit. (passes : Passes) (past : List FrameValue)
        → ServesKept dissector.old.wanted (two_of plan.now) passes later.now
        → StandsWithin past dissector.old
        → KeepsUp (written_of plan.now) (job_in plan.now passes) past lines.old.notes lines.old.capture
        → IsAfterFrame fit (job_in plan.now passes) past frame.now lines.new.notes lines.new.capture
        (O.written out.old) (O.written out.new)) }
    ensures part { (passes : Passes) (past : List FrameValue)
        → ServesKept dissector.old.wanted (two_of plan.now) passes later.now
        → StandsWithin past dissector.old
        → KeepsUp (written_of plan.now) (job_in plan.now passes) past lines.old.notes lines.old.capture
        → AppendsPart (O.written out.old) (O.written out.new)
        (fit_piece (job_in plan.now passes) past frame.now) }
    ensures few { (most : ℕ) → AreFewNotes most lines.old.notes → AreFewNotes (suc most) lines.new.notes }
    ensures judge { lines.new.judge ≡ lines.old.judge }
    ensures writer { lines.new.writer ≡ lines.old.writer }
    ensures read { IsErrOf result RunFault.ReadFault → ⊥ }
    ensures fault { IsErrOf result RunFault.WriteFault
        → Rose (O.faults out.old) (O.faults out.new) }
    ensures calm { ¬ IsErrOf result RunFault.WriteFault → O.faults out.new ≡ O.faults out.old }
    ensures faults_stay { O.faults out.old ≤ O.faults out.new }
{
    match take_tree(plan, frame, later, dissector) {
        Ok(tree) => write_taken(plan, frame, tree, dissector, lines, out),
        Err(NoMemory) => Err(RunFault::NoMemory),
    }
}

// The same where segments are taken into their streams: by the frame's headers, or by its tree where these don't tell all.
#[inline(never)]
fn write_fed<O: Sink>(
    plan: &Plan,
    frame: &Frame,
    later: &Later,
    dissector: &mut Dissector,
    lines: &mut LineMaker<'_>,
    out: &mut O,
) -> Result<bool, RunFault>
    requires unnamed { IsUnnamed later.now frame.now.number }
    requires kind { kind_of plan.now ≡ LineKind.Json → ⊥ }
    requires serves { ServesPlan dissector.old plan.now }
    requires rules { dissector.old.decode.rules ≡ rules_of plan.now }
    requires judge { lines.old.judge ≡ compiled_of plan.now }
    requires lines { lines.old.writer ≡ plan.now.fields }
    requires few { AreFewNotes (2 ^ 28) lines.old.notes }
    requires number { frame.now.number ≡ dissector.old.taken + 1 }
    requires time { IfSome frame.now.time IsTime }
    requires captured { dissector.old.captured + length frame.now.bytes ≤ 2 ^ 28 }
    ensures stands { OnOk result ((past : List FrameValue) → StandsWithin past dissector.old
        → StandsWithin (frame.now ∷ past) dissector.new) }
    ensures kept { dissector.new.wanted ≡ dissector.old.wanted }
    ensures sparing { dissector.new.sparing ≡ dissector.old.sparing }
    ensures rules { dissector.new.decode ≡ dissector.old.decode }
    ensures taken { OnOk result (dissector.new.taken ≡ dissector.old.taken + 1) }
    ensures captured { OnOk result (dissector.new.captured
        ≡ dissector.old.captured + length frame.now.bytes) }
    ensures after { IfOk result (λ fit. (passes : Passes) (past : List FrameValue)
        → ServesKept dissector.old.wanted (two_of plan.now) passes later.now
        → StandsWithin past dissector.old
        → KeepsUp (written_of plan.now) (job_in plan.now passes) past lines.old.notes lines.old.capture
        → IsAfterFrame fit (job_in plan.now passes) past frame.now lines.new.notes lines.new.capture
        (O.written out.old) (O.written out.new)) }
    ensures part { (passes : Passes) (past : List FrameValue)
        → ServesKept dissector.old.wanted (two_of plan.now) passes later.now
        → StandsWithin past dissector.old
        → KeepsUp (written_of plan.now) (job_in plan.now passes) past lines.old.notes lines.old.capture
        → AppendsPart (O.written out.old) (O.written out.new)
        (fit_piece (job_in plan.now passes) past frame.now) }
    ensures few { (most : ℕ) → AreFewNotes most lines.old.notes → AreFewNotes (suc most) lines.new.notes }
    ensures judge { lines.new.judge ≡ lines.old.judge }
    ensures writer { lines.new.writer ≡ lines.old.writer }
    ensures read { IsErrOf result RunFault.ReadFault → ⊥ }
    ensures fault { IsErrOf result RunFault.WriteFault
        → Rose (O.faults out.old) (O.faults out.new) }
    ensures calm { ¬ IsErrOf result RunFault.WriteFault → O.faults out.new ≡ O.faults out.old }
    ensures faults_stay { O.faults out.old ≤ O.faults out.new }
{
    match take_fed(lines.alloc, frame, later, dissector, &mut lines.heads) {
        Ok(Some(Taken::Heads(heads))) => write_plain(plan, frame, heads, dissector, lines, out),
        Ok(Some(Taken::Tree(tree))) => write_taken(plan, frame, tree, dissector, lines, out),
        Ok(None) => write_by_tree(plan, frame, later, dissector, lines, out),
        Err(NoMemory) => Err(RunFault::NoMemory),
    }
}

/// Takes a frame and writes what is asked for of it, and answers whether it fits.
pub fn write_frame<O: Sink>(
    plan: &Plan,
    frame: &Frame,
    later: &Later,
    dissector: &mut Dissector,
    lines: &mut LineMaker<'_>,
    out: &mut O,
) -> Result<bool, RunFault>
    requires serves { ServesPlan dissector.old plan.now }
    requires rules { dissector.old.decode.rules ≡ rules_of plan.now }
    requires judge { lines.old.judge ≡ compiled_of plan.now }
    requires lines { lines.old.writer ≡ plan.now.fields }
    requires few { AreFewNotes (2 ^ 28) lines.old.notes }
    requires number { frame.now.number ≡ dissector.old.taken + 1 }
    requires time { IfSome frame.now.time IsTime }
    requires captured { dissector.old.captured + length frame.now.bytes ≤ 2 ^ 28 }
    ensures stands { OnOk result ((past : List FrameValue) → StandsWithin past dissector.old
        → StandsWithin (frame.now ∷ past) dissector.new) }
    ensures kept { dissector.new.wanted ≡ dissector.old.wanted }
    ensures sparing { dissector.new.sparing ≡ dissector.old.sparing }
    ensures rules { dissector.new.decode ≡ dissector.old.decode }
    ensures taken { OnOk result (dissector.new.taken ≡ dissector.old.taken + 1) }
    ensures captured { OnOk result (dissector.new.captured
        ≡ dissector.old.captured + length frame.now.bytes) }
    ensures after { IfOk result (λ fit. (passes : Passes) (past : List FrameValue)
        → ServesKept dissector.old.wanted (two_of plan.now) passes later.now
        → StandsWithin past dissector.old
        → KeepsUp (written_of plan.now) (job_in plan.now passes) past lines.old.notes lines.old.capture
        → IsAfterFrame fit (job_in plan.now passes) past frame.now lines.new.notes lines.new.capture
        (O.written out.old) (O.written out.new)) }
    ensures part { (passes : Passes) (past : List FrameValue)
        → ServesKept dissector.old.wanted (two_of plan.now) passes later.now
        → StandsWithin past dissector.old
        → KeepsUp (written_of plan.now) (job_in plan.now passes) past lines.old.notes lines.old.capture
        → AppendsPart (O.written out.old) (O.written out.new)
        (fit_piece (job_in plan.now passes) past frame.now) }
    ensures few { (most : ℕ) → AreFewNotes most lines.old.notes → AreFewNotes (suc most) lines.new.notes }
    ensures judge { lines.new.judge ≡ lines.old.judge }
    ensures writer { lines.new.writer ≡ lines.old.writer }
    ensures read { IsErrOf result RunFault.ReadFault → ⊥ }
    ensures fault { IsErrOf result RunFault.WriteFault
        → Rose (O.faults out.old) (O.faults out.new) }
    ensures calm { ¬ IsErrOf result RunFault.WriteFault → O.faults out.new ≡ O.faults out.old }
    ensures faults_stay { O.faults out.old ≤ O.faults out.new }
{
    if !goes_plain(plan, later, frame.number) {
        return write_by_tree(plan, frame, later, dissector, lines, out);
    }
    if later.is_known() || dissector.feeds() {
        return write_fed(plan, frame, later, dissector, lines, out);
    }
    match take_heads(lines.alloc, frame, dissector, &mut lines.heads) {
        Ok(Some(heads)) => write_plain(plan, frame, heads, dissector, lines, out),
        Ok(None) => write_by_tree(plan, frame, later, dissector, lines, out),
        Err(NoMemory) => Err(RunFault::NoMemory),
    }
}
