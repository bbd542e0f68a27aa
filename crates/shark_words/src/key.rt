// What `-E` sets.
ghost use Rattle.std.specs.Prelude.{◌≡◌};
ghost use Rattle.std.specs.Option.{option_copied};
ghost use Rattle.std.specs.Str.{bytes_eq};
ghost use Rattle.shark_words.specs.Keys.{begins as begins_with, behind_key, behind_name, character_of, header_of, is_choice as is_choice_of, is_setting as is_setting_text, key_name, key_of as key_of_text, occurrence_of, quote_of};

use out_lines::{Occurrence, Quote};

/// A key of `-E`.
#[derive(Clone, Copy, PartialEq, Eq, Hash)]
pub(crate) enum Key {
    /// `header=`: whether the fields' names stand first.
    Header,
    /// `separator=`: the character between two columns.
    Separator,
    /// `aggregator=`: the character between two values of a column.
    Aggregator,
    /// `occurrence=`: which of a field's values are shown.
    Occurrence,
    /// `quote=`: what a column stands in.
    Quote,
}

impl Key {
    fn name(self) -> &'static [u8]
        ensures { result.now ≡ key_name self }
    {
        match self {
            Key::Header => b"header=".as_slice(),
            Key::Separator => b"separator=".as_slice(),
            Key::Aggregator => b"aggregator=".as_slice(),
            Key::Occurrence => b"occurrence=".as_slice(),
            Key::Quote => b"quote=".as_slice(),
        }
    }

    /// What stands behind the key in a text that begins with it.
    pub(crate) fn strip_from(self, text: &[u8]) -> Option<&[u8]>
        ensures { option_copied result ≡ behind_key self text.now }
    {
        strip_name(self.name(), text)
    }
}

/// Whether a text is this one.
pub(crate) fn is_text(text: &[u8], wanted: &[u8]) -> bool
    ensures { result ≡ bytes_eq text.now wanted.now }
{
    text == wanted
}

/// What stands behind a name in a text that begins with it.
pub(crate) fn strip_name<'a>(name: &[u8], text: &'a [u8]) -> Option<&'a [u8]>
    ensures { option_copied result ≡ behind_name name.now text.now }
{
    if name.len() > text.len() {
        return None;
    }
    let (front, value) = text.split_at(name.len());
    if front == name { Some(value) } else { None }
}

#[tactic(auto, unfolding(crate::specs::Keys::begins))]
fn begins(key: Key, text: &[u8]) -> bool
    ensures { result ≡ begins_with key text.now }
{
    key.strip_from(text).is_some()
}

/// The key that a text begins with.
#[tactic(auto, unfolding(crate::specs::Keys::key_of))]
pub(crate) fn key_of(text: &[u8]) -> Option<Key>
    ensures { result ≡ key_of_text text.now }
{
    if begins(Key::Header, text) {
        Some(Key::Header)
    } else if begins(Key::Separator, text) {
        Some(Key::Separator)
    } else if begins(Key::Aggregator, text) {
        Some(Key::Aggregator)
    } else if begins(Key::Occurrence, text) {
        Some(Key::Occurrence)
    } else if begins(Key::Quote, text) {
        Some(Key::Quote)
    } else {
        None
    }
}

pub(crate) fn read_header(text: &[u8]) -> Option<bool>
    ensures { result ≡ header_of text.now }
{
    match text {
        [b'y'] => Some(true),
        [b'n'] => Some(false),
        _ => None,
    }
}

/// One character from a space to a tilde, or `/t` for a tab or `/s` for a space.
pub(crate) fn read_character(text: &[u8]) -> Option<u8>
    ensures { result ≡ character_of text.now }
{
    match text {
        [byte @ b' '..=b'~'] => Some(*byte),
        [b'/', b't'] => Some(b'\t'),
        [b'/', b's'] => Some(b' '),
        _ => None,
    }
}

pub(crate) fn read_occurrence(text: &[u8]) -> Option<Occurrence>
    ensures { result ≡ occurrence_of text.now }
{
    match text {
        [b'f'] => Some(Occurrence::First),
        [b'l'] => Some(Occurrence::Last),
        [b'a'] => Some(Occurrence::All),
        _ => None,
    }
}

pub(crate) fn read_quote(text: &[u8]) -> Option<Quote>
    ensures { result ≡ quote_of text.now }
{
    match text {
        [b'd'] => Some(Quote::Double),
        [b's'] => Some(Quote::Single),
        [b'n'] => Some(Quote::None),
        _ => None,
    }
}

fn is_choice(key: Key, value: &[u8]) -> bool
    ensures { result ≡ is_choice_of key value.now }
{
    match key {
        Key::Header => read_header(value).is_some(),
        Key::Separator | Key::Aggregator => read_character(value).is_some(),
        Key::Occurrence => read_occurrence(value).is_some(),
        Key::Quote => read_quote(value).is_some(),
    }
}

/// Whether a text is a key and one of its values.
pub(crate) fn is_setting(text: &[u8]) -> bool
    ensures { result ≡ is_setting_text text.now }
{
    let Some(key) = key_of(text) else {
        return false;
    };
    match key.strip_from(text) {
        Some(value) => is_choice(key, value),
        None => false,
    }
}
