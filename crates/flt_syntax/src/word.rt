// The words and strings of a filter's text.
ghost use Rattle.std.specs.Prelude.{◌≡◌, IfOk};

use pk_base::{NoMemory, Octets};
use std::alloc::Global;
use std::marker::Model;

/// The letters of a word.
#[derive(Drop)]
pub struct WordText {
    text: String,
}

impl Model for WordText {
    ghost use Rattle.std.specs.Prelude.{ℕ, List};
    ghost use Rattle.std.specs.String.{string_bytes};

    ghost Value = { List ℕ };

    ghost view = { λ w. string_bytes w.text };
}

impl WordText {
    /// The same letters.
    pub fn copy(alloc: Global, text: &str) -> Result<WordText, NoMemory>
        ensures { IfOk result (λ word. word ≡ text.now) }
    {
        Ok(WordText {
            text: String::from_str(alloc, text)?,
        })
    }

    pub fn as_str(&self) -> &str
        ensures { result.now ≡ self.now }
    {
        self.text.as_str()
    }
}

/// A word: the place of its first byte, and its letters.
#[derive(Drop)]
pub struct Word {
    pub at: u32,
    pub text: WordText,
}

/// A string, plain or raw: the place of its first byte, and the bytes that it stands for.
#[derive(Drop)]
pub struct Quote {
    pub at: u32,
    pub bytes: Octets,
}
