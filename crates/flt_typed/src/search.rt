ghost use Rattle.std.specs.Prelude.{◌≡◌};
ghost use Rattle.flt_typed.specs.Patterns.{matches};

use regex::bytes::{Matcher, Regex};
use std::marker::Model;

/// Searches for one pattern in as many byte lists as are asked for. To make one takes memory; a search takes none, and
/// is quicker for what earlier ones found out.
pub struct Search<'p> {
    pub(crate) regex: &'p Regex,
    pub(crate) matcher: Matcher<'p>,
}

// The destructor is written out here, and not wherever a search is dropped.
impl Drop for Search<'_> {
    fn drop(self) {
        let Search {
            regex: _,
            matcher: _matcher,
        } = self;
    }
}

// Contracts see a search as the bytes of its pattern.
impl<'p> Model for Search<'p> {
    ghost use Rattle.std.specs.Prelude.{ℕ, List};
    ghost use Rattle.regex.specs.Bytes.{regex_source};
    ghost use Rattle.flt_typed.specs.Compiled.{IsSearchOf};

    ghost Value = { List ℕ };

    ghost view = { λ s. regex_source s.regex.now };

    ghost invariant = { λ s. IsSearchOf s.regex.now s.matcher };
}

impl<'p> Search<'p> {
    /// Whether the pattern matches somewhere in the bytes, which need not be UTF-8.
    pub fn is_in(&mut self, bytes: &[u8]) -> bool
        ensures found { result ≡ matches self.old bytes.now }
        ensures same { self.new ≡ self.old }
    {
        self.matcher.is_match(bytes)
    }
}
