// Options that are looked up among the uses of words.
ghost use Rattle.std.specs.Prelude.{◌≡◌, ◌++◌, IfOk, OnOk, option_and_then, option_to_list};
ghost use Rattle.std.specs.Option.{option_copied};
ghost use Rattle.shark_words.specs.Asked.{clash_word as clash_word_in, is_clashing as is_clashing_beside, is_sought, is_unused as is_unused_for, keyed, style_of as style_of_values, value_in as value_in_use, value_of as value_given, values_of as values_given, word_in as word_in_use, word_of as first_word};
ghost use Rattle.shark_words.specs.Keys.{character_of, header_of, occurrence_of, quote_of};
ghost use Rattle.shark_words.specs.declared.key.Key.TheVariants.{Header, Occurrence as OccurrenceKey, Quote as QuoteKey};
ghost use Rattle.shark_words.specs.declared.letter.Letter.TheVariants.{Style as StyleLetter, Decode as DecodeLetter, Report as ReportLetter};
ghost use Rattle.shark_words.specs.Ports.{rules_in};
ghost use Rattle.shark_words.specs.Reports.{reports_in};

use crate::key::{Key, read_character, read_header, read_occurrence, read_quote};
use crate::letter::Letter;
use crate::options::{LineKind, Report};
use crate::port::read_rule;
use crate::report::read_report;
use crate::uses::Use;
use out_lines::{Occurrence, Quote, Style};
use pk_base::{NoMemory, Octets};
use pk_fields::PortRule;
use std::alloc::Global;

// The value of a use, where it is one of this option.
fn value_in(used: &Use, letter: Letter) -> Option<&Octets>
    ensures { option_to_list (option_copied result) ≡ value_in_use letter used.now }
{
    match used {
        Use::Given(given) if given.letter == letter => match &given.value {
            Some(value) => Some(&value.text),
            None => None,
        },
        Use::Given(_) | Use::Stray(_) | Use::Unknown(_) => None,
    }
}

/// The first value of an option.
pub(crate) fn value_of(uses: &[Use], letter: Letter) -> Option<&Octets>
    ensures { option_copied result ≡ value_given letter uses.now }
{
    for used in uses {
        if let Some(value) = value_in(used, letter) {
            return Some(value);
        }
    }
    None
}

/// The values of an option, in the order of the words.
pub(crate) fn values_of(
    alloc: Global,
    uses: &[Use],
    letter: Letter,
) -> Result<Vec<Octets>, NoMemory>
    ensures { IfOk result (λ values. values.items ≡ values_given letter uses.now) }
{
    let mut values = Vec::new(alloc);
    for used in uses {
        if let Some(value) = value_in(used, letter) {
            values.push(value.clone()?)?;
        }
    }
    Ok(values)
}

// Adds what was found, where something was.
fn push_found<T: Drop>(all: &mut Vec<T>, found: Option<T>) -> Result<(), NoMemory>
    ensures { OnOk result (all.new.items ≡ all.old.items ++ option_to_list found) }
{
    match found {
        Some(one) => Ok(all.push(one)?),
        None => Ok(()),
    }
}

// The rule of a use, where it is one of `-d`.
#[tactic(auto, using(crate::proofs::FoundLemmas::rule_found))]
fn rule_in(used: &Use) -> Option<PortRule>
    ensures { option_to_list result ≡ rules_in (value_in_use DecodeLetter used.now) }
{
    match value_in(used, Letter::Decode) {
        Some(value) => read_rule(value.bytes()),
        None => None,
    }
}

/// The rules for ports, in the order of the words.
pub(crate) fn rules_of(alloc: Global, uses: &[Use]) -> Result<Vec<PortRule>, NoMemory>
    ensures { IfOk result (λ rules. rules.items ≡ rules_in (values_given DecodeLetter uses.now)) }
{
    let mut rules = Vec::new(alloc);
    for used in uses {
        push_found(&mut rules, rule_in(used))?;
    }
    Ok(rules)
}

// The report of a use, where it is one of `-z`.
#[tactic(auto, using(crate::proofs::FoundLemmas::report_found))]
fn report_in(used: &Use) -> Option<Report>
    ensures { option_to_list result ≡ reports_in (value_in_use ReportLetter used.now) }
{
    match value_in(used, Letter::Report) {
        Some(value) => read_report(value.bytes()),
        None => None,
    }
}

/// The reports, in the order of the words.
pub(crate) fn reports_of(alloc: Global, uses: &[Use]) -> Result<Vec<Report>, NoMemory>
    ensures { IfOk result
        (λ reports. reports.items ≡ reports_in (values_given ReportLetter uses.now)) }
{
    let mut reports = Vec::new(alloc);
    for used in uses {
        push_found(&mut reports, report_in(used))?;
    }
    Ok(reports)
}

// What `-E` sets a key to.
fn setting_of(uses: &[Use], key: Key) -> Option<&[u8]>
    ensures { option_copied result ≡ keyed key (values_given StyleLetter uses.now) }
{
    for used in uses {
        if let Some(value) = value_in(used, Letter::Style) {
            if let Some(text) = key.strip_from(value.bytes()) {
                return Some(text);
            }
        }
    }
    None
}

fn header_set(uses: &[Use]) -> Option<bool>
    ensures { result ≡ option_and_then header_of
        (keyed Header (values_given StyleLetter uses.now)) }
{
    read_header(setting_of(uses, Key::Header)?)
}

fn character_set(uses: &[Use], key: Key) -> Option<u8>
    ensures { result ≡ option_and_then character_of
        (keyed key (values_given StyleLetter uses.now)) }
{
    read_character(setting_of(uses, key)?)
}

fn occurrence_set(uses: &[Use]) -> Option<Occurrence>
    ensures { result ≡ option_and_then occurrence_of
        (keyed OccurrenceKey (values_given StyleLetter uses.now)) }
{
    read_occurrence(setting_of(uses, Key::Occurrence)?)
}

fn quote_set(uses: &[Use]) -> Option<Quote>
    ensures { result ≡ option_and_then quote_of
        (keyed QuoteKey (values_given StyleLetter uses.now)) }
{
    read_quote(setting_of(uses, Key::Quote)?)
}

/// How the lines of fields are written.
pub(crate) fn style_of(uses: &[Use]) -> Style
    ensures { result ≡ style_of_values (values_given StyleLetter uses.now) }
{
    Style {
        header: header_set(uses).unwrap_or(false),
        separator: character_set(uses, Key::Separator).unwrap_or(b'\t'),
        occurrence: occurrence_set(uses).unwrap_or(Occurrence::All),
        aggregator: character_set(uses, Key::Aggregator).unwrap_or(b','),
        quote: quote_set(uses).unwrap_or(Quote::None),
    }
}

/// Which options are looked for.
#[derive(Clone, Copy)]
pub(crate) enum Sought {
    /// `-w`.
    Output,
    /// Those that can't stand beside `-w`.
    Clashing,
    /// Those that have no effect on lines of this kind, where a capture is written or not, and where there is a filter or none.
    Unused {
        kind: LineKind,
        written: bool,
        filtered: bool,
    },
}

// Whether an option has no effect: `-e` and `-E` are for the lines of fields alone, `-F` for a capture that is written,
// `--filter-stats` for a filter.
fn is_unused(letter: Letter, kind: LineKind, written: bool, filtered: bool) -> bool
    ensures { result ≡ is_unused_for kind written filtered letter }
{
    match letter {
        Letter::Name | Letter::Style => kind != LineKind::Fields,
        Letter::Format => !written,
        Letter::FilterStats => !filtered,
        _ => false,
    }
}

fn is_clashing(letter: Letter) -> bool
    ensures { result ≡ is_clashing_beside letter }
{
    matches!(
        letter,
        Letter::Kind | Letter::Quiet | Letter::Report | Letter::SelfRun | Letter::FilterStats
    )
}

impl Sought {
    fn includes(self, letter: Letter) -> bool
        ensures { result ≡ is_sought self letter }
    {
        match self {
            Sought::Output => letter == Letter::Output,
            Sought::Clashing => is_clashing(letter),
            Sought::Unused {
                kind,
                written,
                filtered,
            } => is_unused(letter, kind, written, filtered),
        }
    }
}

// The word of a use, where it is one of the options that are looked for.
fn word_in(used: &Use, sought: Sought) -> Option<u64>
    ensures { result ≡ word_in_use (is_sought sought) used.now }
{
    match used {
        Use::Given(given) if sought.includes(given.letter) => Some(given.word),
        Use::Given(_) | Use::Stray(_) | Use::Unknown(_) => None,
    }
}

/// The word of the first option that is looked for.
pub(crate) fn word_of(uses: &[Use], sought: Sought) -> Option<u64>
    ensures { result ≡ first_word (is_sought sought) uses.now }
{
    for used in uses {
        let word = word_in(used, sought);
        if word.is_some() {
            return word;
        }
    }
    None
}

/// The first word up to which `-w` stands and an option that can't stand beside it.
pub(crate) fn clash_word(uses: &[Use]) -> Option<u64>
    ensures { result ≡ clash_word_in uses.now }
{
    let output = word_of(uses, Sought::Output)?;
    let clashing = word_of(uses, Sought::Clashing)?;
    Some(output.max(clashing))
}
