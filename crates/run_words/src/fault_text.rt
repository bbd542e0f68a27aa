// What standard error is told.
ghost use Rattle.std.specs.Prelude.{◌≡◌, IfOk, OnErr, string_bytes};
ghost use Rattle.capture_read.specs.declared.ending.Ending.TheVariants as how;
ghost use Rattle.run_frames.specs.declared.plan.Plan.{Plan};
ghost use Rattle.run_words.specs.declared.refused.Refused.TheVariants as cause;
ghost use Rattle.run_words.specs.FaultLines.{line_bytes};
ghost use Rattle.run_words.specs.FaultTexts.{filter_reason_text as text_of_filter_reason};
ghost use Rattle.run_words.specs.FaultTexts.{ending_text as text_of_ending, run_ending_text as text_of_run_ending, outcome_text as text_of_outcome};
ghost use Rattle.run_words.specs.FaultTexts.{refusal_text as text_of_refusal};
ghost use Rattle.run_words.specs.Outcomes.{HasEnded};

use crate::outcome::Outcome;
use crate::owned::let_go;
use crate::refused::Refused;
use capture_read::{Damage, Ending};
use flt_syntax::{FilterFault, FilterReason};
use pk_base::{NoMemory, Octets};
use pk_text::escape_text;
use run_frames::{Plan, RunEnding};
use run_texts::{
    cannot_open_text, cannot_write_text, read_fault_text, reason_text, too_large_text,
    word_fault_text,
};
use std::alloc::Global;

/// What is told: a fixed text, which takes no memory, or one that names what is at fault.
#[derive(Drop)]
pub enum FaultLine {
    Fixed(&'static str),
    Made(String),
}

impl FaultLine {
    pub fn bytes(&self) -> &[u8]
        ensures { result.now ≡ line_bytes self.now }
    {
        match self {
            FaultLine::Fixed(text) => text.as_bytes(),
            FaultLine::Made(text) => text.as_bytes(),
        }
    }
}

fn filter_reason_text(reason: FilterReason) -> &'static str
    ensures { result.now ≡ text_of_filter_reason reason }
{
    match reason {
        FilterReason::BadChar => "F1 BadChar",
        FilterReason::BadString => "F2 BadString",
        FilterReason::Unexpected => "F3 Unexpected",
        FilterReason::UnknownField => "F4 UnknownField",
        FilterReason::TypeMismatch => "F5 TypeMismatch",
        FilterReason::OutOfRange => "F6 OutOfRange",
        FilterReason::BadPattern => "F7 BadPattern",
        FilterReason::TooLong => "F8 TooLong",
        FilterReason::TooDeep => "F9 TooDeep",
        FilterReason::PatternSize => "F10 PatternSize",
    }
}

#[tactic(auto, unfolding(crate::specs::FaultTexts::ending_text))]
fn damage_text(alloc: Global, damage: Damage) -> Result<FaultLine, NoMemory>
    ensures { IfOk result (λ line. line_bytes line ≡ text_of_ending (how.Damaged damage)) }
{
    let at = damage.at;
    let reason = reason_text(damage.reason);
    let text = format!(in alloc; "shark: damaged at byte {at}: {reason}\n")?;
    Ok(FaultLine::Made(text))
}

#[tactic(auto, unfolding(crate::specs::FaultTexts::ending_text))]
fn ending_text(alloc: Global, ending: Ending) -> Result<FaultLine, NoMemory>
    ensures { IfOk result (λ line. line_bytes line ≡ text_of_ending ending) }
{
    match ending {
        Ending::Whole => Ok(FaultLine::Fixed("")),
        Ending::Damaged(damage) => damage_text(alloc, damage),
        Ending::TooLarge => Ok(FaultLine::Fixed(too_large_text())),
    }
}

#[tactic(auto, unfolding(crate::specs::FaultTexts::run_ending_text))]
fn run_ending_text(alloc: Global, ending: RunEnding) -> Result<FaultLine, NoMemory>
    ensures { IfOk result (λ line. line_bytes line ≡ text_of_run_ending ending) }
{
    match ending {
        RunEnding::Read(ending) => ending_text(alloc, ending),
        RunEnding::Unfit(number) => {
            let text = cannot_write_text(alloc, u64::from(number))?;
            Ok(FaultLine::Made(text))
        }
    }
}

/// What is told where a plan's capture file can't be opened. It is made before the file is begun, so that no memory is asked for
/// behind that fault.
#[tactic(auto, unfolding(crate::specs::FaultTexts::outcome_text))]
pub fn unopened_text(alloc: Global, plan: &Plan) -> Result<FaultLine, NoMemory>
    ensures { IfOk result (λ line. line_bytes line ≡ text_of_outcome plan.now Outcome.CannotOpen) }
{
    let text = cannot_open_text(alloc, plan.source.name())?;
    Ok(FaultLine::Made(text))
}

/// What is told of carrying out a plan, whose file can't be opened by this text.
#[tactic(auto, unfolding(crate::specs::FaultTexts::outcome_text))]
pub fn outcome_text(
    alloc: Global,
    outcome: Outcome,
    unopened: FaultLine,
) -> Result<FaultLine, NoMemory>
    ensures text { IfOk result (λ line. (plan : Plan)
        → line_bytes unopened ≡ text_of_outcome plan Outcome.CannotOpen
        → line_bytes line ≡ text_of_outcome plan outcome) }
    ensures starved { OnErr result (HasEnded outcome) }
{
    match outcome {
        Outcome::Ended(ending) => {
            let_go(unopened);
            match run_ending_text(alloc, ending) {
                Ok(line) => Ok(line),
                Err(error) => Err(error),
            }
        }
        Outcome::CannotOpen => Ok(unopened),
        Outcome::ReadFault => {
            let_go(unopened);
            Ok(FaultLine::Fixed(read_fault_text()))
        }
        Outcome::WriteFault | Outcome::NoMemory => {
            let_go(unopened);
            Ok(FaultLine::Fixed(""))
        }
    }
}

#[tactic(auto, unfolding(crate::specs::FaultTexts::refusal_text))]
fn filter_fault_text(alloc: Global, fault: &FilterFault) -> Result<String, NoMemory>
    ensures { IfOk result (λ text. string_bytes text ≡ text_of_refusal (cause.Filter fault.now)) }
{
    let at = fault.at;
    let reason = filter_reason_text(fault.reason);
    Ok(format!(in alloc; "shark: filter byte {at}: {reason}\n")?)
}

#[tactic(auto, unfolding(crate::specs::FaultTexts::refusal_text))]
fn unknown_field_text(alloc: Global, name: &Octets) -> Result<String, NoMemory>
    ensures { IfOk result (λ text. string_bytes text ≡ text_of_refusal (cause.Field name.now)) }
{
    let name = escape_text(alloc, name.bytes())?;
    Ok(format!(in alloc; "shark: field {name}: unknown\n")?)
}

/// What is told of a refusal.
#[tactic(auto, unfolding(crate::specs::FaultTexts::refusal_text))]
pub fn refusal_text(alloc: Global, refused: &Refused) -> Result<String, NoMemory>
    ensures { IfOk result (λ text. string_bytes text ≡ text_of_refusal refused.now) }
{
    match refused {
        Refused::Words(fault) => word_fault_text(alloc, *fault),
        Refused::Filter(fault) => filter_fault_text(alloc, fault),
        Refused::Field(name) => unknown_field_text(alloc, name),
    }
}
