ghost use Rattle.std.specs.Prelude.{◌≡◌, [] as nothing, List, Some, Ok, Err, IfOk, option_and_then};
ghost use Rattle.std.specs.Option.{option_copied};
ghost use Rattle.shark_words.specs.declared.letter.Letter.TheVariants.{Decode as DecodeLetter, Filter as FilterLetter, Format as FormatLetter, Kind as KindLetter, Name as NameLetter, Output as OutputLetter, Report as ReportLetter};
ghost use Rattle.shark_words.specs.declared.options.Source.{Source as IsSource};
ghost use Rattle.shark_words.specs.Asked.{value_of as value_given, values_of as values_given};
ghost use Rattle.shark_words.specs.Faults.{first_fault as fault_first, is_given as is_given_in};
ghost use Rattle.shark_words.specs.Ports.{rules_in};
ghost use Rattle.shark_words.specs.Reports.{reports_in};
ghost use Rattle.shark_words.specs.Utf8.{AreUtf8};
ghost use Rattle.shark_words.specs.Sound.{AreSound};
ghost use Rattle.shark_words.specs.Words.{texts};
ghost use Rattle.shark_words.specs.Values.{count_of, format_asked, kind_asked, shown_filter as filter_shown};
ghost use Rattle.shark_words.specs.Spelled.{Spelled, spelled_words, asked_by, IsCommand, IsAsked};
ghost use Rattle.shark_words.specs.Options.{asked, clash_fault as clash_fault_of, fields_fault as fields_fault_of, format_written as format_written_by, is_filtered as is_filtered_by, judged, options_by, options_of, source_of as source_given, together_fault as together_fault_of, unused_fault as unused_fault_of, Gives};

use crate::asked::{
    Sought, clash_word, reports_of, rules_of, style_of, value_of, values_of, word_of,
};
use crate::fault::{WordFault, WordReason, WordsError};
use crate::faults::{first_fault, is_given};
use crate::letter::Letter;
use crate::options::{LineKind, NameList, Options, ReportList, Source};
use crate::uses::{Use, uses_of};
use crate::values::{is_blank, read_count, read_format, read_generated, read_kind};
use capture_write::Format;
use pk_base::{NoMemory, Octets};
use pk_fields::{DecodeAs, PortRules};
use std::alloc::Global;

// A filter that isn't blank.
fn shown_filter(filter: Option<&Octets>) -> Result<Option<Octets>, NoMemory>
    ensures { IfOk result (λ shown. shown ≡ filter_shown (option_copied filter.entry)) }
{
    match filter {
        Some(text) if !is_blank(text.bytes()) => Ok(Some(text.clone()?)),
        Some(_) | None => Ok(None),
    }
}

fn read_most(most: Option<&Octets>) -> Option<u32>
    ensures { result ≡ option_and_then count_of (option_copied most.entry) }
{
    read_count(most?.bytes())
}

// The kind of line that is asked for, a summary where none is.
fn line_kind(kind: Option<&Octets>) -> LineKind
    ensures { result ≡ kind_asked (option_copied kind.entry) }
{
    match kind {
        Some(kind) => read_kind(kind.bytes()).unwrap_or(LineKind::Text),
        None => LineKind::Text,
    }
}

fn asked_format(format: Option<&Octets>) -> Format
    ensures { result ≡ format_asked (option_copied format.entry) }
{
    match format {
        Some(format) => read_format(format.bytes()).unwrap_or(Format::Pcapng),
        None => Format::Pcapng,
    }
}

// The format of the capture that is written, where one is.
fn format_written(uses: &[Use]) -> Option<Format>
    ensures { result ≡ format_written_by (is_given_in OutputLetter uses.now)
        (value_given FormatLetter uses.now) }
{
    if is_given(uses, Letter::Output) {
        Some(asked_format(value_of(uses, Letter::Format)))
    } else {
        None
    }
}

// Where the frames come from.
#[tactic(auto, unfolding(crate::specs::Options::source_of))]
fn source_of(uses: &[Use]) -> Result<Option<Source>, NoMemory>
    ensures { IfOk result (λ source. source ≡ source_given uses.now) }
{
    if let Some(name) = value_of(uses, Letter::Capture) {
        return Ok(Some(Source::Named(name.clone()?)));
    }
    match value_of(uses, Letter::SelfRun) {
        Some(numbers) => Ok(read_generated(numbers.bytes())),
        None => Ok(None),
    }
}

// What is wrong with the lines of fields: they need a name.
fn fields_fault(behind: u64, uses: &[Use], kind: LineKind) -> Option<WordFault>
    ensures { result ≡ fields_fault_of behind uses.now kind }
{
    match kind {
        LineKind::Fields if !is_given(uses, Letter::Name) => Some(WordFault {
            word: behind,
            reason: WordReason::NoFields,
        }),
        LineKind::Fields | LineKind::Text | LineKind::Json => None,
    }
}

// Whether there is a filter.
fn is_filtered(uses: &[Use]) -> bool
    ensures { result ≡ is_filtered_by uses.now }
{
    match value_of(uses, Letter::Filter) {
        Some(text) => !is_blank(text.bytes()),
        None => false,
    }
}

fn unused_fault(uses: &[Use], kind: LineKind) -> Option<WordFault>
    ensures { result ≡ unused_fault_of uses.now kind }
{
    let unused = Sought::Unused {
        kind,
        written: is_given(uses, Letter::Output),
        filtered: is_filtered(uses),
    };
    Some(WordFault {
        word: word_of(uses, unused)?,
        reason: WordReason::Unused,
    })
}

fn clash_fault(uses: &[Use]) -> Option<WordFault>
    ensures { result ≡ clash_fault_of uses.now }
{
    Some(WordFault {
        word: clash_word(uses)?,
        reason: WordReason::Clash,
    })
}

// What is wrong with the options together.
#[tactic(auto, unfolding(crate::specs::Options::together_fault))]
fn together_fault(behind: u64, uses: &[Use], kind: LineKind) -> Option<WordFault>
    ensures { result ≡ together_fault_of behind uses.now kind }
{
    let fault = fields_fault(behind, uses, kind);
    if fault.is_some() {
        return fault;
    }
    let fault = unused_fault(uses, kind);
    if fault.is_some() {
        return fault;
    }
    clash_fault(uses)
}

/// Reads the options that the words of a command line give, or refuses them.
///
/// A word that begins with `-` and has more is `--self-run`, whose value is the next word, `--filter-stats`, which has none,
/// or a cluster of letters: `-r`, `-Y`, `-T`, `-e`, `-E`, `-c`, `-d`, `-z`, `-w` and `-F`, whose value is what is left of
/// the word, or the next word where nothing is left, and `-2` and `-q`, which have none. Words are numbered from 1, and the
/// first fault in their order is told.
pub fn read_words(alloc: Global, words: &[String]) -> Result<Options, WordsError>
    ensures computed { Gives result (options_of (texts words.now)) }
    ensures found { (source : IsSource) → (all : List Spelled) → texts words.now ≡ spelled_words all
        → IsCommand source all → Gives result (Ok (asked_by source all)) }
    ensures only { IfOk result (λ options. IsAsked (texts words.now) options) }
    ensures utf8 { IfOk result AreUtf8 }
    ensures sound { IfOk result AreSound }
{
    options_in(alloc, words)
}

#[tactic(auto, unfolding(crate::specs::Options::options_of))]
fn options_in(alloc: Global, words: &[String]) -> Result<Options, WordsError>
    ensures { Gives result (options_of (texts words.now)) }
{
    let uses = uses_of(alloc, words)?;
    judged_options(alloc, &uses, words.len() as u64 + 1)
}

// First the faults word by word, then what is missing in all.
fn judged_options(alloc: Global, uses: &[Use], behind: u64) -> Result<Options, WordsError>
    ensures { Gives result (judged behind uses.now (fault_first nothing uses.now)) }
{
    if let Some(fault) = first_fault(alloc, uses)? {
        return Err(WordsError::Fault(fault));
    }
    match source_of(uses)? {
        Some(source) => options_from(alloc, uses, behind, source),
        None => Err(WordsError::Fault(WordFault {
            word: behind,
            reason: WordReason::NoFile,
        })),
    }
}

// First what is of no use and what can't stand together, then the options.
fn options_from(
    alloc: Global,
    uses: &[Use],
    behind: u64,
    source: Source,
) -> Result<Options, WordsError>
    ensures { Gives result (asked behind uses.now (Some source)) }
{
    let kind = line_kind(value_of(uses, Letter::Kind));
    match together_fault(behind, uses, kind) {
        Some(fault) => refused(WordsError::Fault(fault), source),
        None => match filter_and_names(alloc, uses) {
            Ok((filter, names)) => options_with(alloc, uses, kind, source, filter, names),
            Err(NoMemory) => refused(WordsError::NoMemory, source),
        },
    }
}

// No options, and what was read for them is given up.
fn refused<T: Drop>(error: WordsError, _read: T) -> Result<Options, WordsError>
    ensures { result ≡ Err error }
{
    Err(error)
}

// Gives up what was read.
fn let_go<T: Drop>(_read: T) {}

fn filter_and_names(alloc: Global, uses: &[Use]) -> Result<(Option<Octets>, NameList), NoMemory>
    ensures filter { IfOk result (λ both. both.0 ≡ filter_shown (value_given FilterLetter uses.now)) }
    ensures names { IfOk result (λ both. both.1 ≡ values_given NameLetter uses.now) }
{
    let filter = shown_filter(value_of(uses, Letter::Filter))?;
    match values_of(alloc, uses, Letter::Name) {
        Ok(names) => Ok((filter, NameList::from_vec(names))),
        Err(error) => {
            let_go(filter);
            Err(error)
        }
    }
}

fn rules_and_reports(alloc: Global, uses: &[Use]) -> Result<(PortRules, ReportList), NoMemory>
    ensures rules { IfOk result (λ both. both.0 ≡ rules_in (values_given DecodeLetter uses.now)) }
    ensures reports { IfOk result (λ both. both.1 ≡ reports_in (values_given ReportLetter uses.now)) }
{
    let rules = rules_of(alloc, uses)?;
    match reports_of(alloc, uses) {
        Ok(reports) => Ok((PortRules::from_vec(rules), ReportList::from_vec(reports))),
        Err(error) => Err(error),
    }
}

// The options, of which these parts were read.
fn options_with(
    alloc: Global,
    uses: &[Use],
    kind: LineKind,
    source: Source,
    filter: Option<Octets>,
    names: NameList,
) -> Result<Options, WordsError>
    requires kind { kind ≡ kind_asked (value_given KindLetter uses.now) }
    requires filter { filter ≡ filter_shown (value_given FilterLetter uses.now) }
    requires names { names ≡ values_given NameLetter uses.now }
    ensures { Gives result (Ok (options_by source uses.now)) }
{
    match rules_and_reports(alloc, uses) {
        Ok((rules, reports)) => Ok(Options {
            source,
            filter,
            two: is_given(uses, Letter::Two),
            kind,
            names,
            style: style_of(uses),
            most: read_most(value_of(uses, Letter::Most)),
            quiet: is_given(uses, Letter::Quiet),
            decode: DecodeAs { rules },
            reports,
            stats: is_given(uses, Letter::FilterStats),
            written: format_written(uses),
        }),
        Err(NoMemory) => refused(WordsError::NoMemory, (source, filter, names)),
    }
}
