// What is taken of a frame: the headers of a plain one, or the tree of the fields that the output is made from.
ghost use Rattle.std.specs.Prelude.{◌≡◌, ◌+◌, ◌≤◌, ◌^◌, true, false, None, IfOk, IfSome, OnOk, List, ◌∷◌, length};
ghost use Rattle.capture_read.specs.FrameList.{IsTime};
ghost use Rattle.capture_read.specs.declared.frame.Frame.{Frame as FrameValue};
ghost use Rattle.dissect.specs.Stands.{StandsWithin};
ghost use Rattle.run_frames.specs.Accessors.{kind_of, rules_of, two_of};
ghost use Rattle.run_frames.specs.Job.{Passes, job_in};
ghost use Rattle.run_frames.specs.Later.{IsUnnamed, ServesKept};
ghost use Rattle.run_frames.specs.Taken.{IsTakenBy, IsTakenPlain};
ghost use Rattle.run_frames.specs.Trees.{tree_of};
ghost use Rattle.run_frames.specs.Wanted.{IsToldAs, ServesPlan};

use crate::later::{Later, with_later};
use crate::plan::Plan;
use capture_read::Frame;
use dissect::{Dissector, Heads, TakeFault, TakenBy};
use pk_base::NoMemory;
use pk_tree::Tree;
use shark_words::LineKind;
use std::alloc::Global;

/// Whether a frame's headers may answer for it, where it is plain: where the frames are read from a file, no line has all items, and
/// no later frame is known to name this one.
#[inline(always)]
pub(crate) fn goes_plain(plan: &Plan, later: &Later, frame: u32) -> bool
    ensures unnamed { result ≡ true → IsUnnamed later.now frame }
    ensures lines { result ≡ true → kind_of plan.now ≡ LineKind.Json → ⊥ }
{
    !plan.source.is_generated() && !shows_items(plan) && later.leaves_unnamed(frame)
}

fn shows_items(plan: &Plan) -> bool
    ensures { result ≡ false → kind_of plan.now ≡ LineKind.Json → ⊥ }
{
    match plan.kind {
        LineKind::Text | LineKind::Fields => false,
        LineKind::Json => true,
    }
}

/// Takes a frame that is plain, for its headers, which `spare` then lacks; of any other frame nothing is taken.
#[inline(always)]
pub(crate) fn take_heads(
    alloc: Global,
    frame: &Frame,
    dissector: &mut Dissector,
    spare: &mut Option<Box<Heads>>,
) -> Result<Option<Box<Heads>>, NoMemory>
    requires number { frame.now.number ≡ dissector.old.taken + 1 }
    requires time { IfSome frame.now.time IsTime }
    requires captured { dissector.old.captured + length frame.now.bytes ≤ 2 ^ 28 }
    ensures passed { IfOk result (λ taken. taken ≡ None → dissector.new ≡ dissector.old) }
    ensures plain { IfOk result (λ taken.
        IfSome taken (λ heads. IsTakenPlain dissector.old dissector.new frame.now heads.value)) }
    ensures kept { dissector.new.wanted ≡ dissector.old.wanted }
    ensures sparing { dissector.new.sparing ≡ dissector.old.sparing }
    ensures rules { dissector.new.decode ≡ dissector.old.decode }
{
    let mut heads = spare_heads(alloc, spare)?;
    match dissector.take_plain(frame, &mut *heads) {
        Ok(true) => Ok(Some(heads)),
        Ok(false) => {
            *spare = Some(heads);
            Ok(None)
        }
        Err(TakeFault::NoMemory | TakeFault::Spent) => {
            *spare = Some(heads);
            Err(NoMemory)
        }
    }
}

/// What is taken of a frame.
#[derive(Drop)]
pub(crate) enum Taken {
    /// Its headers, which the spare ones then lack.
    Heads(Box<Heads>),
    Tree(Tree),
}

/// Takes a frame that is plain, also where its segment is taken into its stream: for its headers, or where it shows messages for its
/// tree with its links to later frames. Of any other frame nothing is taken.
pub(crate) fn take_fed(
    alloc: Global,
    frame: &Frame,
    later: &Later,
    dissector: &mut Dissector,
    spare: &mut Option<Box<Heads>>,
) -> Result<Option<Taken>, NoMemory>
    requires unnamed { IsUnnamed later.now frame.now.number }
    requires number { frame.now.number ≡ dissector.old.taken + 1 }
    requires time { IfSome frame.now.time IsTime }
    requires captured { dissector.old.captured + length frame.now.bytes ≤ 2 ^ 28 }
    ensures passed { IfOk result (λ taken. taken ≡ None → dissector.new ≡ dissector.old) }
    ensures taken { IfOk result (λ taken. IfSome taken (IsTakenBy dissector.old dissector.new later.now frame.now)) }
    ensures kept { dissector.new.wanted ≡ dissector.old.wanted }
    ensures sparing { dissector.new.sparing ≡ dissector.old.sparing }
    ensures rules { dissector.new.decode ≡ dissector.old.decode }
{
    let mut heads = spare_heads(alloc, spare)?;
    match dissector.take_fed(frame, &mut *heads) {
        Ok(Some(TakenBy::Headers)) => Ok(Some(Taken::Heads(heads))),
        Ok(Some(TakenBy::Tree(bare))) => {
            *spare = Some(heads);
            let tree = with_later(later, frame.number, bare)?;
            Ok(Some(Taken::Tree(tree)))
        }
        Ok(None) => {
            *spare = Some(heads);
            Ok(None)
        }
        Err(TakeFault::NoMemory | TakeFault::Spent) => {
            *spare = Some(heads);
            Err(NoMemory)
        }
    }
}

// Those that were given back, or the first ones. They are passed on behind a pointer, since they are some hundred bytes large.
#[inline(always)]
fn spare_heads(alloc: Global, spare: &mut Option<Box<Heads>>) -> Result<Box<Heads>, NoMemory> {
    match spare.take() {
        Some(heads) => Ok(heads),
        None => first_heads(alloc),
    }
}

#[inline(never)]
fn first_heads(alloc: Global) -> Result<Box<Heads>, NoMemory> {
    Ok(Box::new(alloc, Heads::none(alloc))?)
}

/// Takes a frame for its tree, of which only the fields are read that the output is made from, with its links to later frames.
pub(crate) fn take_tree(
    plan: &Plan,
    frame: &Frame,
    later: &Later,
    dissector: &mut Dissector,
) -> Result<Tree, NoMemory>
    requires serves { ServesPlan dissector.old plan.now }
    requires rules { dissector.old.decode.rules ≡ rules_of plan.now }
    requires number { frame.now.number ≡ dissector.old.taken + 1 }
    requires time { IfSome frame.now.time IsTime }
    requires captured { dissector.old.captured + length frame.now.bytes ≤ 2 ^ 28 }
    ensures told { IfOk result (λ tree. (passes : Passes) (past : List FrameValue)
        → ServesKept dissector.old.wanted (two_of plan.now) passes later.now
        → StandsWithin past dissector.old
        → IsToldAs plan.now (tree_of (job_in plan.now passes) past frame.now) tree) }
    ensures stands { OnOk result ((past : List FrameValue) → StandsWithin past dissector.old
        → StandsWithin (frame.now ∷ past) dissector.new) }
    ensures kept { dissector.new.wanted ≡ dissector.old.wanted }
    ensures sparing { dissector.new.sparing ≡ dissector.old.sparing }
    ensures rules { dissector.new.decode ≡ dissector.old.decode }
    ensures taken { OnOk result (dissector.new.taken ≡ dissector.old.taken + 1) }
    ensures captured { OnOk result (dissector.new.captured
        ≡ dissector.old.captured + length frame.now.bytes) }
{
    match dissector.take(frame) {
        Ok(bare) => with_later(later, frame.number, bare),
        // The first error ends the run, so that this one is never `Spent`.
        Err(TakeFault::NoMemory | TakeFault::Spent) => Err(NoMemory),
    }
}
