// The top call.
ghost use Rattle.std.specs.Prelude.{◌≡◌, ◌≢◌, ◌≤◌, ◌+◌, ◌⊎◌, ℕ, List, Option, IfSome};
ghost use Rattle.capture_write.specs.Made.{made};
ghost use Rattle.pk_outside.specs.Outside.{Rose};
ghost use Rattle.shark_words.specs.Words.{texts};
ghost use Rattle.run_frames.specs.declared.plan.Plan.{Plan};
ghost use Rattle.run_words.specs.declared.refused.Refused.{Refused};
ghost use Rattle.run_words.specs.Plan.{IsPlan, IsRefusal};
ghost use Rattle.run_words.specs.Sure.{IsSure};
ghost use Rattle.shark_run.specs.Answers.{IsAnswered};
ghost use Rattle.run_frames.specs.Accessors.{name_of};
ghost use Rattle.run_passes.specs.Reading.{file_of, frames_read};
ghost use Rattle.run_passes.specs.Taken.{Took};
ghost use Rattle.run_words.specs.Statuses.{status_of, refusal_status, IsNoRefusal, IsRefusing, WhenEnded};
ghost use Rattle.shark_run.specs.Told.{IsNone, IsSame, Told, ToldWhole};
ghost use Rattle.run_words.specs.Outcomes.{IfEnded};
ghost use Rattle.shark_run.specs.Calm.{HasFaults, TellsFaults};
ghost use Rattle.shark_run.specs.Causes.{IsUnopened, IsUnread};
ghost use Rattle.shark_run.specs.Headline.{Headline};
ghost use Rattle.shark_run.specs.Way.{IsBroken, IsBrokenOf, IsFullNear, IsNextNear, WroteTaken};
ghost use Rattle.run_passes.specs.SoFar.{IfUnfit, IsFullNearOf, IsNextNearOf};
ghost use Rattle.shark_run.specs.Wrote.{WroteAll, WrotePart};

use crate::ends::{after_output, unbegun};
use crate::file::{begin_file, begin_generated};
use crate::output::write_output;
use crate::owned::let_go;
use pk_base::NoMemory;
use pk_outside::{Capture, Sink};
use run_frames::{Generated, Plan, PlanSource};
use run_texts::{Text, tell};
use run_words::{
    Outcome, PlanError, Refused, Status, outcome_text, read_plan, refusal_text, status_of_refusal,
    unopened_text,
};
use std::alloc::Global;

// Reads the file of a name and writes the output over its frames.
fn carry_out_named<C: Capture, O: Sink>(
    alloc: Global,
    plan: &Plan,
    name: &Text,
    capture: &mut C,
    out: &mut O,
) -> Outcome
    ensures ended { IfEnded result (λ ending.
        IfSome (C.file capture.old name.now) (λ file.
        WroteAll plan.now (frames_read plan.now file) (O.written out.old) (O.written out.new)
        × (ending ≡ (frames_read plan.now file).ending))) }
    ensures part { IfSome (C.file capture.old name.now) (λ file.
        WrotePart plan.now (frames_read plan.now file) (O.written out.old) (O.written out.new)) }
    ensures unopened { result ≡ Outcome.CannotOpen
        → IsUnopened (C.missed capture.old) (C.missed capture.new)
        (C.begun capture.old) (C.begun capture.new) (C.asked capture.new) name.now × (out.new ≡ out.old) }
    ensures unread { result ≡ Outcome.ReadFault
        → IsUnread (C.faults capture.old) (C.faults capture.new)
        (C.begun capture.old) (C.begun capture.new) (C.missed capture.old) (C.missed capture.new) (C.asked capture.new) name.now }
    ensures write_fault { result ≡ Outcome.WriteFault → Rose (O.faults out.old) (O.faults out.new) }
    ensures calm { HasFaults result (C.missed capture.old) (C.missed capture.new)
        (C.faults capture.old) (C.faults capture.new) (O.faults out.old) (O.faults out.new) }
    ensures taken { Took (C.file capture.old name.now)
        (C.begun capture.old) (C.begun capture.new) (C.left capture.old) (C.left capture.new) }
    ensures begun_once { C.begun capture.new ≤ C.begun capture.old + 1 }
    ensures so_far { result ≡ Outcome.ReadFault
        → IfSome (C.file capture.old name.now) (λ file.
        WroteTaken plan.now file (C.left capture.new) (O.written out.old) (O.written out.new)) }
    ensures near { result ≡ Outcome.WriteFault
        → IfSome (C.file capture.old name.now) (λ file.
        IsBrokenOf plan.now file (C.left capture.new) (O.written out.old) (O.written out.new)) }
    ensures full { IfEnded result (λ _. IfSome (C.file capture.old name.now) (λ file.
        IsFullNearOf plan.now file (C.left capture.new))) }
    ensures unfit { IfEnded result (λ ending. IfUnfit ending
        (IfSome (C.file capture.old name.now) (λ file.
        IsNextNearOf plan.now file (C.left capture.new)))) }
{
    match begin_file(alloc, name, capture) {
        Ok(()) => after_output(write_output(alloc, plan, capture, out)),
        Err(fault) => unbegun(fault),
    }
}

// Writes the output over the frames of a generated capture.
fn carry_out_generated<O: Sink>(
    alloc: Global,
    plan: &Plan,
    generated: &Generated,
    out: &mut O,
) -> Outcome
    ensures ended { IfEnded result (λ ending. WroteAll plan.now
        (frames_read plan.now (made generated.now.start generated.now.frames)) (O.written out.old) (O.written out.new)
        × (ending ≡ (frames_read plan.now (made generated.now.start generated.now.frames)).ending)) }
    ensures part { WrotePart plan.now (frames_read plan.now (made generated.now.start generated.now.frames))
        (O.written out.old) (O.written out.new) }
    ensures opened { result ≡ Outcome.CannotOpen → ⊥ }
    ensures read { result ≡ Outcome.ReadFault → ⊥ }
    ensures write_fault { result ≡ Outcome.WriteFault → Rose (O.faults out.old) (O.faults out.new) }
    ensures calm { result ≢ Outcome.WriteFault → O.faults out.new ≡ O.faults out.old }
{
    let mut capture = match begin_generated(alloc, generated) {
        Ok(capture) => capture,
        Err(NoMemory) => return Outcome::NoMemory,
    };
    let ended = write_output(alloc, plan, &mut capture, out);
    let_go(capture);
    after_output(ended)
}

// Reads a plan's capture file and writes the output over its frames.
fn carry_out<C: Capture, O: Sink>(
    alloc: Global,
    plan: &Plan,
    capture: &mut C,
    out: &mut O,
) -> Outcome
    ensures ended { IfEnded result (λ ending.
        IfSome (file_of plan.now (C.file capture.old)) (λ file.
        WroteAll plan.now (frames_read plan.now file) (O.written out.old) (O.written out.new)
        × (ending ≡ (frames_read plan.now file).ending))) }
    ensures part { IfSome (file_of plan.now (C.file capture.old)) (λ file.
        WrotePart plan.now (frames_read plan.now file) (O.written out.old) (O.written out.new)) }
    ensures unopened { result ≡ Outcome.CannotOpen
        → IsUnopened (C.missed capture.old) (C.missed capture.new)
        (C.begun capture.old) (C.begun capture.new) (C.asked capture.new) (name_of plan.now) × (out.new ≡ out.old) }
    ensures unread { result ≡ Outcome.ReadFault
        → IsUnread (C.faults capture.old) (C.faults capture.new)
        (C.begun capture.old) (C.begun capture.new) (C.missed capture.old) (C.missed capture.new) (C.asked capture.new) (name_of plan.now) }
    ensures write_fault { result ≡ Outcome.WriteFault → Rose (O.faults out.old) (O.faults out.new) }
    ensures calm { HasFaults result (C.missed capture.old) (C.missed capture.new)
        (C.faults capture.old) (C.faults capture.new) (O.faults out.old) (O.faults out.new) }
    ensures taken { Took (file_of plan.now (C.file capture.old))
        (C.begun capture.old) (C.begun capture.new) (C.left capture.old) (C.left capture.new) }
    ensures begun_once { C.begun capture.new ≤ C.begun capture.old + 1 }
    ensures so_far { result ≡ Outcome.ReadFault
        → IfSome (file_of plan.now (C.file capture.old)) (λ file.
        WroteTaken plan.now file (C.left capture.new) (O.written out.old) (O.written out.new)) }
    ensures near { result ≡ Outcome.WriteFault
        → IfSome (file_of plan.now (C.file capture.old)) (λ file.
        IsBroken plan.now file (C.left capture.new) (O.written out.old) (O.written out.new)) }
    ensures full { IfEnded result (λ _. IfSome (file_of plan.now (C.file capture.old)) (λ file.
        IsFullNear plan.now file (C.left capture.new))) }
    ensures unfit { IfEnded result (λ ending. IfUnfit ending
        (IfSome (file_of plan.now (C.file capture.old)) (λ file.
        IsNextNear plan.now file (C.left capture.new)))) }
{
    match &plan.source {
        PlanSource::Named(name) => carry_out_named(alloc, plan, name, capture, out),
        PlanSource::Generated(generated) => carry_out_generated(alloc, plan, generated, out),
    }
}

/// Does what a plan says: reads its capture file, and writes the output over its frames to `out`.
pub fn run_plan<C: Capture, O: Sink, E: Sink>(
    alloc: Global,
    plan: &Plan,
    capture: &mut C,
    out: &mut O,
    err: &mut E,
) -> Status
    ensures no_refusal { IsNoRefusal result }

    // The whole output, where the run came to an end, and never anything but a front of it.
    ensures ended { WhenEnded result (IfSome (file_of plan.now (C.file capture.old)) (λ file.
        WroteAll plan.now (frames_read plan.now file) (O.written out.old) (O.written out.new)
        × (result ≡ status_of (frames_read plan.now file).ending))) }
    ensures part { IfSome (file_of plan.now (C.file capture.old)) (λ file.
        WrotePart plan.now (frames_read plan.now file) (O.written out.old) (O.written out.new)) }

    // The causes of the other answers.
    ensures unopened { result ≡ Status.CannotOpen
        → IsUnopened (C.missed capture.old) (C.missed capture.new)
        (C.begun capture.old) (C.begun capture.new) (C.asked capture.new) (name_of plan.now) × (out.new ≡ out.old) }
    ensures unread { result ≡ Status.ReadFault
        → IsUnread (C.faults capture.old) (C.faults capture.new)
        (C.begun capture.old) (C.begun capture.new) (C.missed capture.old) (C.missed capture.new) (C.asked capture.new) (name_of plan.now) }
    ensures write_fault { result ≡ Status.WriteFault → Rose (O.faults out.old) (O.faults out.new) }

    // Each fault is told, and none as another or as want of memory.
    ensures calm { TellsFaults result (C.missed capture.old) (C.missed capture.new)
        (C.faults capture.old) (C.faults capture.new) (O.faults out.old) (O.faults out.new) }

    // Nothing is read behind the first byte that is too many.
    ensures taken { Took (file_of plan.now (C.file capture.old))
        (C.begun capture.old) (C.begun capture.new) (C.left capture.old) (C.left capture.new) }
    ensures begun_once { C.begun capture.new ≤ C.begun capture.old + 1 }

    // Each line was written before more was read than a block behind its frame.
    ensures so_far { result ≡ Status.ReadFault
        → IfSome (file_of plan.now (C.file capture.old)) (λ file.
        WroteTaken plan.now file (C.left capture.new) (O.written out.old) (O.written out.new)) }
    ensures near { result ≡ Status.WriteFault
        → IfSome (file_of plan.now (C.file capture.old)) (λ file.
        IsBroken plan.now file (C.left capture.new) (O.written out.old) (O.written out.new)) }
    ensures full { WhenEnded result (IfSome (file_of plan.now (C.file capture.old)) (λ file.
        IsFullNear plan.now file (C.left capture.new))) }
    ensures unfit { result ≡ Status.CannotWrite
        → IfSome (file_of plan.now (C.file capture.old)) (λ file.
        IsNextNear plan.now file (C.left capture.new)) }

    // Where no fault rose, the run comes to an end or finds no memory.
    ensures complete { IfSome (file_of plan.now (C.file capture.old)) (λ file.
        ¬ Rose (C.missed capture.old) (C.missed capture.new)
        → ¬ Rose (C.faults capture.old) (C.faults capture.new)
        → ¬ Rose (O.faults out.old) (O.faults out.new)
        → (result ≡ status_of (frames_read plan.now file).ending) ⊎ (result ≡ Status.NoMemory)) }

    // What standard error is told, whatever becomes of it.
    ensures told { Told (IsSame plan.now) IsNone (C.file capture.old) result
        (E.written err.old) (E.written err.new) }
    ensures told_whole { ¬ Rose (E.faults err.old) (E.faults err.new)
        → ¬ Rose (E.starved err.old) (E.starved err.new)
        → ToldWhole (IsSame plan.now) IsNone (C.file capture.old) result
        (E.written err.old) (E.written err.new) }
{
    let unopened = match unopened_text(alloc, plan) {
        Ok(text) => text,
        Err(NoMemory) => return Status::NoMemory,
    };
    let outcome = carry_out(alloc, plan, capture, out);
    match outcome_text(alloc, outcome, unopened) {
        Ok(line) => {
            tell(err, line.bytes());
            outcome.status()
        }
        Err(NoMemory) => Status::NoMemory,
    }
}

// Tells of a refusal.
fn refuse<E: Sink>(alloc: Global, refused: &Refused, err: &mut E) -> Status
    ensures status { (result ≡ refusal_status refused.now) ⊎ (result ≡ Status.NoMemory) }
    ensures told { (files : List ℕ → Option (List ℕ)) → Told IsNone (IsSame refused.now) files result
        (E.written err.old) (E.written err.new) }
    ensures told_whole { (files : List ℕ → Option (List ℕ))
        → ¬ Rose (E.faults err.old) (E.faults err.new)
        → ¬ Rose (E.starved err.old) (E.starved err.new)
        → ToldWhole IsNone (IsSame refused.now) files result (E.written err.old) (E.written err.new) }
{
    match refusal_text(alloc, refused) {
        Ok(text) => {
            tell(err, text.as_bytes());
            status_of_refusal(refused)
        }
        Err(NoMemory) => Status::NoMemory,
    }
}

/// Reads the words of a command line and does what they ask for, or refuses them.
///
/// `out` gets the lines of the frames that the filter lets through, in the order of the file, or with `-w` these frames as a
/// capture; over a generated capture it gets one line of counts. The status says how the run ended. Where the words are refused
/// nothing is read and nothing is written.
pub fn run<C: Capture, O: Sink, E: Sink>(
    alloc: Global,
    words: &[String],
    capture: &mut C,
    out: &mut O,
    err: &mut E,
) -> Status
    // The words are refused by the stated rule, or exactly the right lines come out, and damage is reported.
    ensures headline { Headline (texts words.now) (C.file capture.old) result
        (O.written out.old) (O.written out.new) (E.written err.old) (E.written err.new) }

    // The words are refused for a reason that they give, and then nothing is touched.
    ensures refusing { IsRefusing result → (reason : Refused) × IsRefusal (texts words.now) reason
        × (result ≡ refusal_status reason) }
    ensures untouched { IsRefusing result → (capture.new ≡ capture.old) × (out.new ≡ out.old) }

    // Words with a reason that isn't the size of a pattern are refused, or find no memory; nothing is touched.
    ensures refused { (reason : Refused) → IsRefusal (texts words.now) reason → IsSure reason
        → IsAnswered (texts words.now) (refusal_status reason) result }
    ensures refused_untouched { (reason : Refused) → IsRefusal (texts words.now) reason
        → IsSure reason → (capture.new ≡ capture.old) × (out.new ≡ out.old) }

    // The whole output, where the run came to an end, and never anything but a front of it.
    ensures ended { WhenEnded result ((plan : Plan) × IsPlan (texts words.now) plan
        × IfSome (file_of plan (C.file capture.old)) (λ file.
        WroteAll plan (frames_read plan file) (O.written out.old) (O.written out.new)
        × (result ≡ status_of (frames_read plan file).ending))) }
    ensures part { (out.new ≡ out.old) ⊎ ((plan : Plan) × IsPlan (texts words.now) plan
        × IfSome (file_of plan (C.file capture.old)) (λ file.
        WrotePart plan (frames_read plan file) (O.written out.old) (O.written out.new))) }

    // The causes of the other answers.
    ensures unopened { result ≡ Status.CannotOpen → (plan : Plan) × IsPlan (texts words.now) plan
        × IsUnopened (C.missed capture.old) (C.missed capture.new)
        (C.begun capture.old) (C.begun capture.new) (C.asked capture.new) (name_of plan) × (out.new ≡ out.old) }
    ensures unread { result ≡ Status.ReadFault → (plan : Plan) × IsPlan (texts words.now) plan
        × IsUnread (C.faults capture.old) (C.faults capture.new)
        (C.begun capture.old) (C.begun capture.new) (C.missed capture.old) (C.missed capture.new) (C.asked capture.new) (name_of plan) }
    ensures write_fault { result ≡ Status.WriteFault → (plan : Plan) × IsPlan (texts words.now) plan
        × Rose (O.faults out.old) (O.faults out.new) }

    // Each fault is told, and none as another or as want of memory.
    ensures calm { TellsFaults result (C.missed capture.old) (C.missed capture.new)
        (C.faults capture.old) (C.faults capture.new) (O.faults out.old) (O.faults out.new) }

    // Nothing is read behind the first byte that is too many.
    ensures taken { (capture.new ≡ capture.old) ⊎ ((plan : Plan) × IsPlan (texts words.now) plan
        × Took (file_of plan (C.file capture.old)) (C.begun capture.old) (C.begun capture.new)
        (C.left capture.old) (C.left capture.new)) }
    ensures begun_once { C.begun capture.new ≤ C.begun capture.old + 1 }

    // Each line was written before more was read than a block behind its frame.
    ensures so_far { result ≡ Status.ReadFault → (plan : Plan) × IsPlan (texts words.now) plan
        × IfSome (file_of plan (C.file capture.old)) (λ file.
        WroteTaken plan file (C.left capture.new) (O.written out.old) (O.written out.new)) }
    ensures near { result ≡ Status.WriteFault → (plan : Plan) × IsPlan (texts words.now) plan
        × IfSome (file_of plan (C.file capture.old)) (λ file.
        IsBroken plan file (C.left capture.new) (O.written out.old) (O.written out.new)) }
    ensures full { WhenEnded result ((plan : Plan) × IsPlan (texts words.now) plan
        × IfSome (file_of plan (C.file capture.old)) (λ file.
        IsFullNear plan file (C.left capture.new))) }
    ensures unfit { result ≡ Status.CannotWrite → (plan : Plan) × IsPlan (texts words.now) plan
        × IfSome (file_of plan (C.file capture.old)) (λ file.
        IsNextNear plan file (C.left capture.new)) }

    // Where no fault rose, the run of words that ask for a plan comes to an end or finds no memory.
    ensures complete { (plan : Plan) → IsPlan (texts words.now) plan
        → IfSome (file_of plan (C.file capture.old)) (λ file.
        ¬ Rose (C.missed capture.old) (C.missed capture.new)
        → ¬ Rose (C.faults capture.old) (C.faults capture.new)
        → ¬ Rose (O.faults out.old) (O.faults out.new)
        → IsAnswered (texts words.now) (status_of (frames_read plan file).ending) result) }

    // What standard error is told, whatever becomes of it.
    ensures told { Told (IsPlan (texts words.now)) (IsRefusal (texts words.now)) (C.file capture.old) result
        (E.written err.old) (E.written err.new) }
    ensures told_whole { ¬ Rose (E.faults err.old) (E.faults err.new)
        → ¬ Rose (E.starved err.old) (E.starved err.new)
        → ToldWhole (IsPlan (texts words.now)) (IsRefusal (texts words.now)) (C.file capture.old) result
        (E.written err.old) (E.written err.new) }
{
    match read_plan(alloc, words) {
        Ok(plan) => run_plan(alloc, &plan, capture, out, err),
        Err(PlanError::Refused(refused)) => {
            let status = refuse(alloc, &refused, err);
            let_go(refused);
            status
        }
        Err(PlanError::NoMemory) => Status::NoMemory,
    }
}
