// Keeping the frames of a file, and going over them twice: the first time for what later frames bring, the second time for what is
// written.
ghost use Rattle.std.specs.Prelude.{◌≡◌, false, true, ◌+◌, ◌^◌, ◌≤◌, ◌<◌, ℕ, suc, List, [], ◌∷◌, length, Some, IfErr, IfOk, IfSome, OnOk, map, reverse};
ghost use Rattle.pk_base.specs.Limits.{file_limit as limit_of_file};
ghost use Rattle.capture_read.specs.FrameList.{IsTime};
ghost use Rattle.capture_read.specs.Reader.{StandsFor};
ghost use Rattle.capture_read.specs.Taken.{TookAtMost};
ghost use Rattle.capture_read.specs.declared.kind.Phase.TheVariants as phase;
ghost use Rattle.dissect.specs.Followed.{asks_streams};
ghost use Rattle.dissect.specs.Stands.{StandsWithin};
ghost use Rattle.second_pass.specs.Laws.{kept_noted};
ghost use Rattle.second_pass.specs.Named.{Noted as NotedFrame, noted_as};
ghost use Rattle.second_pass.specs.Stands.{Stands as Noted};
ghost use Rattle.run_frames.specs.Accessors.{compiled_of, rules_of, two_of, written_of};
ghost use Rattle.run_frames.specs.Ended.{CanClose, HasTaken};
ghost use Rattle.run_frames.specs.Job.{Passes, job_in, noted_of, passes_by};
ghost use Rattle.run_frames.specs.Later.{ServesKept};
ghost use Rattle.run_passes.specs.Passed.{AreFewer, AreFullNear, AreKept, HaveBegunKept, HavePassedKept, IsReadCaused, IsReadOn, IsWriteCaused, kept_read};
ghost use Rattle.run_frames.specs.Steps.{KeepsUp};
ghost use Rattle.run_passes.specs.Noting.{HasNotedOne};
ghost use Rattle.run_passes.specs.Takeable.{AreTakeable};
ghost use Rattle.run_frames.specs.Notes.{AreFewNotes};
ghost use Rattle.run_frames.specs.Wanted.{IsEnough, ServesPlan};

use crate::once::{is_full, one_less};
use crate::owned::{give_up_heads, give_up_links, give_up_reader};
use capture_read::{Ending, Frame, FrameList, FrameReader, NextFrame, ReadError};
use dissect::{Dissector, Heads, TakeFault, TakenBy};
use pk_base::NoMemory;
use pk_fields::FieldSet;
use pk_outside::{Capture, Sink};
use pk_tree::Tree;
use run_frames::{
    Later, LineMaker, Plan, RunEnding, RunFault, give_up_dissector, new_dissector, write_frame,
};
use second_pass::Links;
use std::alloc::Global;

// Reads the begun file, up to the last frame that is asked for, keeps its frames, and answers how the reading ends. Their bytes
// stay in the blocks of memory that they were read into.
fn keep_rest<C: Capture>(
    plan: &Plan,
    reader: &mut FrameReader,
    frames: &mut Vec<Frame>,
    capture: &mut C,
) -> Result<Ending, RunFault>
    requires none { frames.old.items ≡ [] }
    requires reads { (left : List ℕ) → StandsFor reader.old (Some left) left [] }
    requires fresh { reader.old.phase ≡ phase.Open }
    requires number { reader.old.state.number ≡ 1 }
    requires at { reader.old.state.at ≡ 0 }
    ensures read { IfOk result (AreKept plan.now (C.left capture.old) frames.new.items) }
    ensures takeable { OnOk result (AreTakeable 0 0 frames.new.items) }
    ensures full { OnOk result (AreFullNear plan.now (C.left capture.old) (C.left capture.new)) }
    ensures broken { IfErr result (AreFewer plan.now (C.left capture.old) (C.left capture.new)) }
    ensures took { TookAtMost (suc limit_of_file) (C.left capture.old) (C.left capture.new) }
    ensures caused { IfErr result (IsReadCaused (C.faults capture.old) (C.faults capture.new)) }
    ensures calm { OnOk result (C.faults capture.new ≡ C.faults capture.old) }
    ensures stays { IsReadOn (C.asked capture.old) (C.asked capture.new)
        (C.begun capture.old) (C.begun capture.new) (C.missed capture.old) (C.missed capture.new) }
{
    let mut most = plan.most;
    loop {
        if is_full(most) {
            return Ok(Ending::Whole);
        }
        let frame = match reader.next_frame(capture) {
            Ok(NextFrame::Frame(frame)) => frame,
            Ok(NextFrame::End(ending)) => return Ok(ending),
            Err(ReadError::ReadFault) => return Err(RunFault::ReadFault),
            Err(ReadError::NoMemory) => return Err(RunFault::NoMemory),
            // The first error ends the run, so that this one is never met.
            Err(ReadError::Spent) => return Err(RunFault::NoMemory),
        };
        match frames.push(frame) {
            Ok(()) => {}
            Err(_) => return Err(RunFault::NoMemory),
        }
        most = one_less(most);
    }
}

/// The frames that are read of a file, and how the reading ends.
#[derive(Drop)]
pub struct KeptFrames {
    pub frames: FrameList,
    pub ending: Ending,
}

/// Reads the begun file, and keeps its frames.
pub fn keep_frames<C: Capture>(
    alloc: Global,
    plan: &Plan,
    capture: &mut C,
) -> Result<KeptFrames, RunFault>
    ensures read { IfOk result (λ kept.
        AreKept plan.now (C.left capture.old) kept.frames kept.ending) }
    ensures takeable { IfOk result (λ kept. AreTakeable 0 0 kept.frames) }
    ensures full { OnOk result (AreFullNear plan.now (C.left capture.old) (C.left capture.new)) }
    ensures broken { IfErr result (AreFewer plan.now (C.left capture.old) (C.left capture.new)) }
    ensures took { TookAtMost (suc limit_of_file) (C.left capture.old) (C.left capture.new) }
    ensures caused { IfErr result (IsReadCaused (C.faults capture.old) (C.faults capture.new)) }
    ensures calm { OnOk result (C.faults capture.new ≡ C.faults capture.old) }
    ensures stays { IsReadOn (C.asked capture.old) (C.asked capture.new)
        (C.begun capture.old) (C.begun capture.new) (C.missed capture.old) (C.missed capture.new) }
{
    let mut reader = FrameReader::new(alloc);
    let mut frames = Vec::new(alloc);
    let kept = keep_rest(plan, &mut reader, &mut frames, capture);
    give_up_reader(reader);
    match kept {
        Ok(ending) => Ok(KeptFrames {
            frames: FrameList::from_vec(frames),
            ending,
        }),
        Err(fault) => Err(fault),
    }
}

// Notes a tree, in whose memory the next one is made.
fn note_tree(
    frame: u32,
    tree: Tree,
    dissector: &mut Dissector,
    links: &mut Links,
) -> Result<(), NoMemory>
    ensures noted { OnOk result ((past : List NotedFrame) → Noted past links.old → Noted (noted_as frame tree ∷ past) links.new) }
    ensures dissector { dissector.new ≡ dissector.old }
{
    let noted = links.note(frame, &tree);
    dissector.give_back(tree);
    noted
}

// Notes a frame by its tree.
fn note_by_tree(frame: &Frame, dissector: &mut Dissector, links: &mut Links) -> Result<(), NoMemory>
    requires streams { asks_streams dissector.old.wanted ≡ true }
    requires whole { dissector.old.sparing ≡ false }
    requires number { frame.now.number ≡ dissector.old.taken + 1 }
    requires time { IfSome frame.now.time IsTime }
    requires captured { dissector.old.captured + length frame.now.bytes ≤ 2 ^ 28 }
    ensures { OnOk result (HasNotedOne frame.now dissector.old dissector.new links.old links.new) }
{
    match dissector.take(frame) {
        Ok(tree) => note_tree(frame.number, tree, dissector, links),
        // The first error ends the run, so that this one is never `Spent`.
        Err(TakeFault::NoMemory | TakeFault::Spent) => Err(NoMemory),
    }
}

// Notes a frame for the links of others. Where its headers answer for it, it is no message that has links and names no other frame,
// and nothing is noted.
fn note_frame(
    frame: &Frame,
    dissector: &mut Dissector,
    heads: &mut Heads,
    links: &mut Links,
) -> Result<(), NoMemory>
    requires streams { asks_streams dissector.old.wanted ≡ true }
    requires whole { dissector.old.sparing ≡ false }
    requires number { frame.now.number ≡ dissector.old.taken + 1 }
    requires time { IfSome frame.now.time IsTime }
    requires captured { dissector.old.captured + length frame.now.bytes ≤ 2 ^ 28 }
    ensures { OnOk result (HasNotedOne frame.now dissector.old dissector.new links.old links.new) }
{
    match dissector.take_fed(frame, heads) {
        Ok(Some(TakenBy::Headers)) => Ok(()),
        Ok(Some(TakenBy::Tree(tree))) => note_tree(frame.number, tree, dissector, links),
        Ok(None) => note_by_tree(frame, dissector, links),
        Err(TakeFault::NoMemory | TakeFault::Spent) => Err(NoMemory),
    }
}

// Notes frames, of which only the wanted fields are read, for their links to later ones.
fn note_all(
    frames: &[Frame],
    dissector: &mut Dissector,
    heads: &mut Heads,
    links: &mut Links,
) -> Result<(), NoMemory>
    requires streams { asks_streams dissector.old.wanted ≡ true }
    requires whole { dissector.old.sparing ≡ false }
    requires stands { StandsWithin [] dissector.old }
    requires taken { dissector.old.taken ≡ 0 }
    requires captured { dissector.old.captured ≡ 0 }
    requires takeable { AreTakeable 0 0 frames.now }
    requires noted { Noted [] links.old }
    ensures { OnOk result
        (Noted (map (kept_noted dissector.old.wanted)
        (noted_of dissector.old.decode.rules (reverse frames.now))) links.new) }
{
    let mut left = frames;
    while let [frame, more @ ..] = left {
        note_frame(frame, dissector, heads, links)?;
        left = more;
    }
    Ok(())
}

// The links between frames, by trees of the wanted fields.
fn links_of(
    alloc: Global,
    plan: &Plan,
    wanted: FieldSet,
    frames: &[Frame],
) -> Result<Links, NoMemory>
    requires streams { asks_streams wanted ≡ true }
    requires takeable { AreTakeable 0 0 frames.now }
    ensures { IfOk result (λ links.
        Noted (map (kept_noted wanted)
        (noted_of (rules_of plan.now) (reverse frames.now))) links) }
{
    let mut dissector = new_dissector(alloc, plan, wanted)?;
    let mut links = Links::new(alloc);
    let mut heads = Heads::none(alloc);
    let noted = note_all(frames, &mut dissector, &mut heads, &mut links);
    give_up_dissector(dissector);
    give_up_heads(heads);
    match noted {
        Ok(()) => Ok(links),
        Err(error) => {
            give_up_links(links);
            Err(error)
        }
    }
}

/// Writes what is asked for of frames, up to the first that can't be written, and answers how they end.
pub fn write_kept<O: Sink>(
    plan: &Plan,
    kept: &KeptFrames,
    later: &Later,
    dissector: &mut Dissector,
    lines: &mut LineMaker<'_>,
    out: &mut O,
) -> Result<RunEnding, RunFault>
    requires serves { ServesPlan dissector.old plan.now }
    requires rules { dissector.old.decode.rules ≡ rules_of plan.now }
    requires judge { lines.old.judge ≡ compiled_of plan.now }
    requires lines { lines.old.writer ≡ plan.now.fields }
    requires few { AreFewNotes 0 lines.old.notes }
    requires keeps { (passes : Passes)
        → KeepsUp (written_of plan.now) (job_in plan.now passes) [] lines.old.notes lines.old.capture }
    requires stands { StandsWithin [] dissector.old }
    requires taken { dissector.old.taken ≡ 0 }
    requires captured { dissector.old.captured ≡ 0 }
    requires takeable { AreTakeable 0 0 kept.now.frames }
    ensures ended { IfOk result (λ ending. (passes : Passes)
        → ServesKept dissector.old.wanted (two_of plan.now) passes later.now
        → HavePassedKept plan.now passes kept.now.frames kept.now.ending
        (O.written out.old) (O.written out.new) ending) }
    ensures read { OnOk result ((passes : Passes)
        → ServesKept dissector.old.wanted (two_of plan.now) passes later.now
        → CanClose (written_of plan.now) (job_in plan.now passes)
        (reverse (kept_read plan.now passes kept.now.frames kept.now.ending).frames)
        dissector.new lines.new.notes lines.new.capture) }
    ensures serves { OnOk result (ServesPlan dissector.new plan.now) }
    ensures taken { OnOk result (HasTaken dissector.new) }
    ensures part { (passes : Passes)
        → ServesKept dissector.old.wanted (two_of plan.now) passes later.now
        → HaveBegunKept plan.now passes kept.now.frames kept.now.ending
        (O.written out.old) (O.written out.new) }
    ensures caused { IfErr result (IsWriteCaused (O.faults out.old) (O.faults out.new)) }
    ensures calm { OnOk result (O.faults out.new ≡ O.faults out.old) }
    ensures faults_stay { O.faults out.old ≤ O.faults out.new }
{
    let mut left = kept.frames.slice();
    while let [frame, more @ ..] = left {
        match write_frame(plan, frame, later, dissector, lines, out) {
            Ok(true) => {}
            Ok(false) => return Ok(RunEnding::Unfit(frame.number)),
            Err(fault) => return Err(fault),
        }
        left = more;
    }
    Ok(RunEnding::Read(kept.ending))
}

/// What is known of later frames, by a first going over all of them.
pub fn later_of(
    alloc: Global,
    plan: &Plan,
    wanted: FieldSet,
    frames: &[Frame],
) -> Result<Later, NoMemory>
    requires two { two_of plan.now ≡ true }
    requires enough { IsEnough wanted plan.now }
    requires takeable { AreTakeable 0 0 frames.now }
    ensures { IfOk result (λ later. ServesKept wanted (two_of plan.now)
        (passes_by (two_of plan.now) (rules_of plan.now) frames.now) later) }
{
    match links_of(alloc, plan, wanted, frames) {
        Ok(links) => Ok(Later::Known(links)),
        Err(error) => Err(error),
    }
}
