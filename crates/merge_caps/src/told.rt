// What standard error is told.
ghost use Rattle.std.specs.Prelude.{◌≡◌, ◌∷◌, ◌++◌, ℕ, List, [], None, length, map, IfOk, IsErrOf, IsOk, OnOk, string_bytes};
ghost use Rattle.std.specs.Io.KnownBytes.{Appends};
ghost use Rattle.pk_outside.specs.Outside.{AppendsPart, Rose};
ghost use Rattle.pk_text.specs.Escape.{escaped};
ghost use Rattle.merge_caps.specs.Statuses.{IsRefused, are_damaged as are_some_damaged, is_damaged_end};
ghost use Rattle.merge_caps.specs.Texts.{ToldRefusal, ToldRefusalWhole, damage_line, damage_lines, damage_front as front_of_line, damage_back as back_of_line};
ghost use Rattle.run_texts.specs.FaultTexts.{cannot_open_text as text_of_unopened};
ghost use Rattle.merge_caps.specs.Told.{IsWrittenText, cause_status, cause_text, status_by as status_of_write, unfit_in as unfit_of, unfit_text};

use crate::owned::let_go;
use crate::readings::Cause;
use crate::status::{MergeStatus, status_of};
use capture_read::{Damage, Ending};
use pk_base::NoMemory;
use pk_outside::{Sink, SinkFault};
use pk_text::{TextSink, put_escaped, put_number};
use run_texts::{
    Text, cannot_open_text, cannot_write_text, read_fault_text, reason_text, tell, too_large_text,
    word_fault_text,
};
use shark_words::WordFault;
use std::alloc::Global;

// Adds the line of a damaged file up to the place of the damage.
#[tactic(auto, unfolding(crate::specs::Texts::damage_front))]
fn push_front(text: &mut String, name: &Text) -> Result<(), NoMemory>
    ensures { OnOk result (string_bytes text.new
        ≡ string_bytes text.old ++ front_of_line (escaped name.now)) }
{
    text.put_text("shark: ")?;
    put_escaped(text, name.as_str().as_bytes())?;
    text.put_text(" damaged at byte ")
}

// Adds the rest of the line.
#[tactic(auto, unfolding(crate::specs::Texts::damage_back))]
fn push_back(text: &mut String, damage: Damage) -> Result<(), NoMemory>
    ensures { OnOk result (string_bytes text.new ≡ string_bytes text.old ++ back_of_line damage) }
{
    put_number(text, damage.at)?;
    text.put_text(": ")?;
    text.put_text(reason_text(damage.reason))?;
    text.put_text("\n")
}

// Adds the line of a damaged file.
fn push_damage(text: &mut String, name: &Text, damage: Damage) -> Result<(), NoMemory>
    ensures { OnOk result (string_bytes text.new ≡ string_bytes text.old
        ++ (front_of_line (escaped name.now) ++ back_of_line damage)) }
{
    push_front(text, name)?;
    push_back(text, damage)
}

// Adds the line of a file that ends so, where it is damaged.
#[tactic(auto, unfolding(crate::specs::Texts::damage_line))]
fn push_line(text: &mut String, name: &Text, ending: Ending) -> Result<(), NoMemory>
    ensures { OnOk result (string_bytes text.new
        ≡ string_bytes text.old ++ damage_line name.now ending) }
{
    match ending {
        Ending::Damaged(damage) => push_damage(text, name, damage),
        Ending::Whole | Ending::TooLarge => Ok(()),
    }
}

// Adds the lines of the damaged files.
fn push_lines(text: &mut String, names: &[Text], endings: &[Ending]) -> Result<(), NoMemory>
    requires { length endings.now ≡ length names.now }
    ensures { OnOk result (string_bytes text.new
        ≡ string_bytes text.old ++ damage_lines names.now endings.now) }
{
    for (place, name) in names.iter().enumerate() {
        push_line(text, name, endings[place])?;
    }
    Ok(())
}

/// The lines of the damaged files. They are put together before anything is written, so that a write that fails is told
/// however little memory is left then.
pub(crate) fn lines_of_damage(
    alloc: Global,
    names: &[Text],
    endings: &[Ending],
) -> Result<String, NoMemory>
    requires { length endings.now ≡ length names.now }
    ensures { IfOk result (λ text. string_bytes text ≡ damage_lines names.now endings.now) }
{
    let mut text = String::new(alloc);
    match push_lines(&mut text, names, endings) {
        Ok(()) => Ok(text),
        Err(error) => {
            let_go(text);
            Err(error)
        }
    }
}

// Adds the line of the first frame that doesn't fit.
fn push_unfit(alloc: Global, text: &mut String, unfit: Option<usize>) -> Result<(), NoMemory>
    ensures adds { OnOk result (string_bytes text.new ≡ string_bytes text.old ++ unfit_text unfit) }
    ensures none { unfit ≡ None → IsOk result }
{
    match unfit {
        Some(number) => text.put_text(cannot_write_text(alloc, number as u64)?.as_str()),
        None => Ok(()),
    }
}

fn unfit_in(written: Result<Option<usize>, SinkFault>) -> Option<usize>
    ensures { result ≡ unfit_of written }
{
    match written {
        Ok(unfit) => unfit,
        Err(_) => None,
    }
}

fn status_by(written: Result<Option<usize>, SinkFault>, damaged: bool) -> MergeStatus
    ensures { result ≡ status_of_write written damaged }
{
    match written {
        Ok(unfit) => status_of(unfit, damaged),
        Err(SinkFault::Failed) => MergeStatus::WriteFault,
        Err(SinkFault::NoMemory) => MergeStatus::NoMemory,
    }
}

fn is_damaged(ending: Ending) -> bool
    ensures { result ≡ is_damaged_end ending }
{
    matches!(ending, Ending::Damaged(_))
}

/// Whether one of the files that end so is damaged.
pub(crate) fn are_damaged(endings: &[Ending]) -> bool
    ensures { result ≡ are_some_damaged endings.now }
{
    for ending in endings {
        if is_damaged(*ending) {
            return true;
        }
    }
    false
}

fn status_of_cause(cause: Cause) -> MergeStatus
    ensures { result ≡ cause_status cause }
{
    match cause {
        Cause::CannotOpen => MergeStatus::CannotOpen,
        Cause::ReadFault => MergeStatus::ReadFault,
        Cause::TooLarge => MergeStatus::TooLarge,
        Cause::NoMemory => MergeStatus::NoMemory,
    }
}

/// Tells of what was written, behind the lines of the damaged files, and answers the status.
pub(crate) fn tell_written<E: Sink>(
    alloc: Global,
    mut lines: String,
    damaged: bool,
    written: Result<Option<usize>, SinkFault>,
    err: &mut E,
) -> MergeStatus
    ensures told { (text : List ℕ) × IsWrittenText (string_bytes lines) damaged written result text
        × AppendsPart (E.written err.old) (E.written err.new) text }
    ensures told_whole { ¬ Rose (E.faults err.old) (E.faults err.new)
        → ¬ Rose (E.starved err.old) (E.starved err.new)
        → (text : List ℕ) × IsWrittenText (string_bytes lines) damaged written result text
        × Appends (E.written err.old) (E.written err.new) text }
    ensures fault { IsErrOf written SinkFault.Failed → result ≡ MergeStatus.WriteFault }
{
    match push_unfit(alloc, &mut lines, unfit_in(written)) {
        Ok(()) => {
            tell(err, lines.as_bytes());
            status_by(written, damaged)
        }
        Err(NoMemory) => MergeStatus::NoMemory,
    }
}

// Adds what is told of a file of this name, should it not open.
fn push_unopened(alloc: Global, texts: &mut Vec<Text>, name: &Text) -> Result<(), NoMemory>
    ensures { OnOk result (texts.new.items ≡ texts.old.items ++ text_of_unopened name.now ∷ []) }
{
    let text = cannot_open_text(alloc, name.as_str())?;
    texts.push(Text::from_string(text))?;
    Ok(())
}

/// What is told of each file, should it not open. These texts are put together before the first is begun, so that a file that
/// doesn't open is told however little memory is left then.
pub(crate) fn unopened_texts(alloc: Global, names: &[Text]) -> Result<Vec<Text>, NoMemory>
    ensures { IfOk result (λ texts. texts.items ≡ map text_of_unopened names.now) }
{
    let mut texts = Vec::new(alloc);
    for name in names {
        push_unopened(alloc, &mut texts, name)?;
    }
    Ok(texts)
}

fn stopped_text(unopened: &Text, cause: Cause) -> &str
    ensures { result.now ≡ cause_text cause unopened.now }
{
    match cause {
        Cause::CannotOpen => unopened.as_str(),
        Cause::ReadFault => read_fault_text(),
        Cause::TooLarge => too_large_text(),
        Cause::NoMemory => "",
    }
}

/// Tells why a file wasn't read, of which the text is given for where it doesn't open, and answers the status.
pub(crate) fn tell_stopped<E: Sink>(unopened: &Text, cause: Cause, err: &mut E) -> MergeStatus
    ensures status { result ≡ cause_status cause }
    ensures told { AppendsPart (E.written err.old) (E.written err.new)
        (cause_text cause unopened.now) }
    ensures told_whole { ¬ Rose (E.faults err.old) (E.faults err.new)
        → ¬ Rose (E.starved err.old) (E.starved err.new)
        → Appends (E.written err.old) (E.written err.new) (cause_text cause unopened.now) }
{
    tell(err, stopped_text(unopened, cause).as_bytes());
    status_of_cause(cause)
}

/// Tells of a fault of the words, and answers the status.
pub(crate) fn tell_refusal<E: Sink>(alloc: Global, fault: WordFault, err: &mut E) -> MergeStatus
    ensures refused { IsRefused result }
    ensures told { ToldRefusal fault result (E.written err.old) (E.written err.new) }
    ensures told_whole { ¬ Rose (E.faults err.old) (E.faults err.new)
        → ¬ Rose (E.starved err.old) (E.starved err.new)
        → ToldRefusalWhole fault result (E.written err.old) (E.written err.new) }
{
    match word_fault_text(alloc, fault) {
        Ok(text) => {
            tell(err, text.as_bytes());
            MergeStatus::BadWords
        }
        Err(NoMemory) => MergeStatus::NoMemory,
    }
}
