ghost use Rattle.std.specs.Prelude.{◌≡◌, ◌⊎◌, ◌<◌, ◌==◌, IsTrue, length, IfOk, IfErr};
ghost use Rattle.std.specs.List.{list_any};
ghost use Rattle.regex.specs.Bytes.{regex_source};
ghost use Rattle.flt_typed.specs.Compiled.{IsOurs};
ghost use Rattle.flt_typed.specs.Patterns.{HasCause, IsPattern, matches, sure_length};
ghost use Rattle.flt_typed.specs.declared.fault.PatternFault.TheVariants.{NoMemory};

use crate::fault::{PatternFault, fault_of, may_be_large};
use crate::positions::positions;
use crate::search::Search;
use regex::RegexBuilder;
use regex::bytes::Regex;
use regex_syntax::Config;
use std::alloc::{AllocError, Global};
use std::marker::Model;

/// A regular expression over bytes, in which letters match in either case.
#[derive(Drop)]
pub struct Pattern {
    // Boxed, since a regex is some kilobytes large, and a filter is passed from call to call.
    regex: Box<Regex>,
}

// Contracts see a pattern as the bytes that it was made from.
impl Model for Pattern {
    ghost use Rattle.std.specs.Prelude.{ℕ, List};
    ghost use Rattle.regex.specs.Bytes.{regex_source};
    ghost use Rattle.flt_typed.specs.Compiled.{IsOurs};

    ghost Value = { List ℕ };

    ghost view = { λ p. regex_source p.regex.value };

    ghost invariant = { λ p. IsOurs p.regex.value };
}

/// How many places a search may have to follow at once. Each takes some 10 ns a byte, so a frame of 64 KB takes less
/// than a second.
const MOST_POSITIONS: usize = 1_000;

/// Whether a search takes too long, of a pattern that may be refused for that.
fn is_costly(alloc: Global, text: &str) -> Result<bool, PatternFault>
    ensures costly { IfOk result (λ costly. IsTrue costly → (sure_length < length text.now) ⊎ IsTrue
        (list_any (λ byte. byte == 0x7B) text.now)) }
    ensures err { IfErr result (λ fault. fault ≡ NoMemory) }
{
    if !may_be_large(text) {
        return Ok(false);
    }
    let mut config = Config::default();
    config.utf8 = false;
    config.flags.case_insensitive = true;
    // `regex` has read it under these options, so what stops here is a want of memory.
    match regex_syntax::parse(alloc, text, &config) {
        Ok(parsed) => Ok(positions(&parsed.hir) > MOST_POSITIONS),
        Err(_) => Err(PatternFault::NoMemory),
    }
}

/// The pattern of a regex.
fn boxed(alloc: Global, regex: Regex) -> Result<Pattern, PatternFault>
    requires { IsOurs regex }
    ensures value { IfOk result (λ pattern. pattern ≡ regex_source regex) }
    ensures err { IfErr result (λ fault. fault ≡ NoMemory) }
{
    match Box::new(alloc, regex) {
        Ok(regex) => Ok(Pattern { regex }),
        Err(_) => Err(PatternFault::NoMemory),
    }
}

/// The pattern of a regex, where a search doesn't take too long.
fn searchable(alloc: Global, regex: Regex, text: &str) -> Result<Pattern, PatternFault>
    requires ours { IsOurs regex }
    requires source { regex_source regex ≡ text.now }
    ensures value { IfOk result (λ pattern. pattern ≡ text.now) }
    ensures err { IfErr result (HasCause text.now) }
{
    if is_costly(alloc, text)? {
        return Err(PatternFault::Large);
    }
    boxed(alloc, regex)
}

impl Pattern {
    /// Makes a pattern of its text, by the syntax of Rust's `regex`.
    pub fn new(alloc: Global, pattern: &[u8]) -> Result<Pattern, PatternFault>
        ensures value { IfOk result (λ made. made ≡ pattern.now) }
        ensures read { IfOk result (λ _. IsPattern pattern.now) }
        ensures err { IfErr result (HasCause pattern.now) }
    {
        let Ok(text) = str::from_utf8(pattern) else {
            return Err(PatternFault::NoPattern);
        };
        let builder = RegexBuilder::new(text).case_insensitive(true);
        match builder.build_bytes(alloc) {
            Ok(regex) => searchable(alloc, regex, text),
            Err(error) => Err(fault_of(error, text)),
        }
    }

    /// A search for the pattern, to be used for many byte lists.
    pub fn search(&self, alloc: Global) -> Result<Search<'_>, AllocError>
        ensures { IfOk result (λ search. search ≡ self.now) }
    {
        let matcher = self.regex.matcher(alloc)?;
        Ok(Search {
            regex: &self.regex,
            matcher,
        })
    }

    /// Whether the pattern matches somewhere in the bytes, which need not be UTF-8. For many byte lists `search` is
    /// quicker.
    pub fn is_in(&self, alloc: Global, bytes: &[u8]) -> Result<bool, AllocError>
        ensures { IfOk result (λ found. found ≡ matches self.now bytes.now) }
    {
        let mut search = self.search(alloc)?;
        Ok(search.is_in(bytes))
    }

    /// The text that it was made from.
    pub fn source(&self) -> &[u8]
        ensures value { result.now ≡ self.now }
        ensures pattern { IsPattern self.now }
    {
        self.regex.as_str().as_bytes()
    }
}
