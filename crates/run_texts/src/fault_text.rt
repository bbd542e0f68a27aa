// What standard error is told.
ghost use Rattle.std.specs.Prelude.{◌≡◌, IfOk, string_bytes};
ghost use Rattle.std.specs.Io.KnownBytes.{Appends};
ghost use Rattle.pk_outside.specs.Outside.{Rose, AppendsPart};
ghost use Rattle.run_texts.specs.FaultTexts.{reason_text as text_of_reason, word_reason_text as text_of_word_reason};
ghost use Rattle.run_texts.specs.FaultTexts.{word_fault_text as text_of_word_fault};
ghost use Rattle.run_texts.specs.FaultTexts.{cannot_open_text as text_of_unopened, cannot_write_text as text_of_unfit};
ghost use Rattle.run_texts.specs.FaultTexts.{read_fault_text as text_of_read_fault, too_large_text as text_of_too_large};

use pk_base::{NoMemory, Reason};
use pk_outside::{Sink, write_whole};
use pk_text::escape_text;
use shark_words::{WordFault, WordReason};
use std::alloc::Global;

/// Writes a text, as far as the sink takes it.
pub fn tell<E: Sink>(err: &mut E, text: &[u8])
    ensures part { AppendsPart (E.written err.old) (E.written err.new) text.now }
    ensures whole { ¬ Rose (E.faults err.old) (E.faults err.new)
        → ¬ Rose (E.starved err.old) (E.starved err.new)
        → Appends (E.written err.old) (E.written err.new) text.now }
{
    let _ = write_whole(err, text);
}

/// The code and name of a reason why a file is damaged.
pub fn reason_text(reason: Reason) -> &'static str
    ensures { result.now ≡ text_of_reason reason }
{
    match reason {
        Reason::ShortHeader => "B1 ShortHeader",
        Reason::UnknownMagic => "B2 UnknownMagic",
        Reason::BadVersion => "B3 BadVersion",
        Reason::RecordCut => "B4 RecordCut",
        Reason::TooLong => "B5 TooLong",
        Reason::BlockLength => "B6 BlockLength",
        Reason::BlockCut => "B7 BlockCut",
        Reason::BadInterface => "B8 BadInterface",
        Reason::BadOption => "B9 BadOption",
        Reason::BadResolution => "B10 BadResolution",
    }
}

/// The code and name of a reason to refuse words.
pub fn word_reason_text(reason: WordReason) -> &'static str
    ensures { result.now ≡ text_of_word_reason reason }
{
    match reason {
        WordReason::UnknownOption => "A1 UnknownOption",
        WordReason::MissingValue => "A2 MissingValue",
        WordReason::StrayWord => "A3 StrayWord",
        WordReason::NoFile => "A4 NoFile",
        WordReason::Repeated => "A5 Repeated",
        WordReason::BadValue => "A6 BadValue",
        WordReason::NoFields => "A7 NoFields",
        WordReason::Unused => "A8 Unused",
        WordReason::Clash => "A9 Clash",
    }
}

/// What is told of a fault of the words.
#[tactic(auto, unfolding(crate::specs::FaultTexts::word_fault_text))]
pub fn word_fault_text(alloc: Global, fault: WordFault) -> Result<String, NoMemory>
    ensures { IfOk result (λ text. string_bytes text ≡ text_of_word_fault fault) }
{
    let word = fault.word;
    let reason = word_reason_text(fault.reason);
    Ok(format!(in alloc; "shark: word {word}: {reason}\n")?)
}

/// What is told of a file that can't be opened.
#[tactic(auto, unfolding(crate::specs::FaultTexts::cannot_open_text))]
pub fn cannot_open_text(alloc: Global, name: &str) -> Result<String, NoMemory>
    ensures { IfOk result (λ text. string_bytes text ≡ text_of_unopened name.now) }
{
    let name = escape_text(alloc, name.as_bytes())?;
    Ok(format!(in alloc; "shark: cannot open {name}\n")?)
}

/// What is told of a frame, by its number, that doesn't fit into the file that is written.
#[tactic(auto, unfolding(crate::specs::FaultTexts::cannot_write_text))]
pub fn cannot_write_text(alloc: Global, number: u64) -> Result<String, NoMemory>
    ensures { IfOk result (λ text. string_bytes text ≡ text_of_unfit number) }
{
    Ok(format!(in alloc; "shark: cannot write frame {number}\n")?)
}

/// What is told of a read that failed.
pub fn read_fault_text() -> &'static str
    ensures { result.now ≡ text_of_read_fault }
{
    "shark: read fault\n"
}

/// What is told of a file that is larger than is read.
pub fn too_large_text() -> &'static str
    ensures { result.now ≡ text_of_too_large }
{
    "shark: capture too large\n"
}
