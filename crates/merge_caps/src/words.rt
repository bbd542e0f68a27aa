// The words of the command line.
ghost use Rattle.std.specs.Prelude.{◌≡◌, ◌<◌, ◌-◌, ◌^◌};
ghost use Rattle.shark_words.specs.Words.{texts};
ghost use Rattle.shark_words.specs.Faults.{fault as fault_at};
ghost use Rattle.shark_words.specs.declared.fault.WordsError.TheVariants as error;
ghost use Rattle.merge_caps.specs.Words.{Hears, Wants, heard as heard_of, wanted_at_end, wanted_of, with_format, with_letters, with_name, with_option, with_rest, with_use, with_word};

use crate::owned::let_go;
use capture_write::Format;
use pk_base::NoMemory;
use run_texts::Text;
use shark_words::{WordFault, WordReason, WordsError, read_format};
use std::alloc::Global;

/// The files that are merged at most.
const MOST_NAMES: usize = 16;

/// What the words so far ask for.
#[derive(Drop)]
pub(crate) struct Heard {
    /// Whether the last word is `-F`, and the next its value.
    waiting: bool,
    format: Option<Format>,
    names: Vec<Text>,
}

/// What the words ask for.
#[derive(Drop)]
pub(crate) struct Wanted {
    /// The format of the file that is written.
    pub(crate) format: Format,
    /// The names of the files that are read.
    pub(crate) names: Vec<Text>,
}

fn word_fault(word: u64, reason: WordReason) -> WordsError
    ensures { result ≡ error.Fault (fault_at word reason) }
{
    WordsError::Fault(WordFault { word, reason })
}

// Takes the value of `-F`, in the word of this number.
fn take_format(word: u64, heard: &mut Heard, format: Option<Format>) -> Result<(), WordsError>
    ensures { Hears result (heard_of heard.new) (with_format word (heard_of heard.old) format) }
{
    if format.is_none() {
        return Err(word_fault(word, WordReason::BadValue));
    }
    heard.waiting = false;
    heard.format = format;
    Ok(())
}

// Takes what is left of the word of `-F`.
fn take_rest(word: u64, heard: &mut Heard, rest: &[u8]) -> Result<(), WordsError>
    ensures { Hears result (heard_of heard.new) (with_rest word (heard_of heard.old) rest.now) }
{
    match rest {
        [] => {
            heard.waiting = true;
            Ok(())
        }
        value => take_format(word, heard, read_format(value)),
    }
}

// Takes `-F`, which may come once.
fn take_option(word: u64, heard: &mut Heard, rest: &[u8]) -> Result<(), WordsError>
    ensures { Hears result (heard_of heard.new) (with_option word (heard_of heard.old) rest.now) }
{
    if heard.format.is_some() {
        return Err(word_fault(word, WordReason::Repeated));
    }
    take_rest(word, heard, rest)
}

// Takes a word that begins with `-`, by its letters.
fn take_letters(word: u64, heard: &mut Heard, letters: &[u8]) -> Result<(), WordsError>
    ensures { Hears result (heard_of heard.new)
        (with_letters word (heard_of heard.old) letters.now) }
{
    match letters {
        [] => Err(word_fault(word, WordReason::StrayWord)),
        [b'F', rest @ ..] => take_option(word, heard, rest),
        _ => Err(word_fault(word, WordReason::UnknownOption)),
    }
}

// Takes the name of a file.
fn take_name(alloc: Global, word: u64, heard: &mut Heard, name: &str) -> Result<(), WordsError>
    ensures { Hears result (heard_of heard.new) (with_name word (heard_of heard.old) name.now) }
{
    if heard.names.len() >= MOST_NAMES {
        return Err(word_fault(word, WordReason::StrayWord));
    }
    if name.is_empty() {
        return Err(word_fault(word, WordReason::BadValue));
    }
    match Text::copy(alloc, name) {
        Ok(name) => Ok(heard.names.push(name)?),
        Err(NoMemory) => Err(WordsError::NoMemory),
    }
}

// Takes a word that isn't a value.
fn take_use(alloc: Global, word: u64, heard: &mut Heard, text: &str) -> Result<(), WordsError>
    ensures { Hears result (heard_of heard.new) (with_use word (heard_of heard.old) text.now) }
{
    match text.as_bytes() {
        [b'-', letters @ ..] => take_letters(word, heard, letters),
        _ => take_name(alloc, word, heard, text),
    }
}

fn take_word(alloc: Global, word: u64, heard: &mut Heard, text: &str) -> Result<(), WordsError>
    ensures { Hears result (heard_of heard.new) (with_word word (heard_of heard.old) text.now) }
{
    if heard.waiting {
        return take_format(word, heard, read_format(text.as_bytes()));
    }
    take_use(alloc, word, heard, text)
}

// What is wanted behind so many words.
fn want(last: u64, heard: Heard) -> Result<Wanted, WordsError>
    requires { last < 2 ^ 64 - 1 }
    ensures { Wants result (wanted_at_end last (heard_of heard)) }
{
    if heard.waiting {
        let_go(heard);
        return Err(word_fault(last, WordReason::MissingValue));
    }
    if heard.names.is_empty() {
        let_go(heard);
        return Err(word_fault(last + 1, WordReason::NoFile));
    }
    Ok(Wanted {
        format: heard.format.unwrap_or(Format::Pcapng),
        names: heard.names,
    })
}

/// What the words ask for, or the first reason to refuse them.
#[tactic(auto, unfolding(crate::specs::Words::heard_from, crate::specs::Words::wanted_of))]
pub(crate) fn read_words(alloc: Global, words: &[String]) -> Result<Wanted, WordsError>
    ensures { Wants result (wanted_of (texts words.now)) }
{
    let mut heard = Heard {
        waiting: false,
        format: None,
        names: Vec::new(alloc),
    };
    for (before, word) in words.iter().enumerate() {
        match take_word(alloc, before as u64 + 1, &mut heard, word.as_str()) {
            Ok(()) => {}
            Err(error) => {
                let_go(heard);
                return Err(error);
            }
        }
    }
    want(words.len() as u64, heard)
}
