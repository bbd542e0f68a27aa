// The uses of options in the words.
ghost use Rattle.std.specs.Prelude.{◌≡◌, ◌<◌, ◌+◌, ◌-◌, ◌^◌, ◌++◌, ◌∷◌, ℕ, List, [], None, Option, IfOk, OnOk};
ghost use Rattle.shark_words.specs.Words.{texts};
ghost use Rattle.shark_words.specs.declared.letter.Letter.{Letter as IsLetter};
ghost use Rattle.shark_words.specs.declared.uses.Use.{Use as IsUse};
ghost use Rattle.shark_words.specs.Uses.{cluster_uses, is_cluster as is_cluster_of, letters_at, uses_at, uses_from, value_uses, with_value, without_value, uses_of as uses_of_words};

use crate::letter::Letter;
use pk_base::{NoMemory, Octets};
use std::alloc::Global;

/// What stands behind the first `-` of `--self-run`.
const SELF_RUN: &[u8] = b"-self-run";

/// What stands behind the first `-` of `--filter-stats`.
const FILTER_STATS: &[u8] = b"-filter-stats";

/// An option's value, and the number of the word that it stands in.
#[derive(Drop)]
pub(crate) struct Value {
    pub(crate) word: u64,
    pub(crate) text: Octets,
}

/// An option that is given: the number of its word, and its value, if it has one.
#[derive(Drop)]
pub(crate) struct Given {
    pub(crate) word: u64,
    pub(crate) letter: Letter,
    pub(crate) value: Option<Value>,
}

/// What one or two words are used for.
#[derive(Drop)]
pub(crate) enum Use {
    /// The word of this number is neither an option nor a value.
    Stray(u64),
    /// The word of this number is an option that isn't known.
    Unknown(u64),
    Given(Given),
}

impl Use {
    fn with_value(word: u64, letter: Letter, place: u64, text: Octets) -> Use
        ensures { result ≡ with_value word letter place text }
    {
        Use::Given(Given {
            word,
            letter,
            value: Some(Value { word: place, text }),
        })
    }

    fn without_value(word: u64, letter: Letter) -> Use
        ensures { result ≡ without_value word letter }
    {
        Use::Given(Given {
            word,
            letter,
            value: None,
        })
    }
}

// Whether each letter is known, up to the first with a value.
fn is_cluster(letters: &[u8]) -> bool
    ensures { result ≡ is_cluster_of letters.now }
{
    for byte in letters {
        match Letter::of_byte(*byte) {
            None => return false,
            Some(letter) if letter.has_value() => return true,
            Some(_) => {}
        }
    }
    true
}

// Adds a use behind which no option waits for its value.
fn take_use(uses: &mut Vec<Use>, used: Use) -> Result<Option<Letter>, NoMemory>
    ensures none { IfOk result (λ waiting. waiting ≡ None) }
    ensures used { OnOk result (uses.new.items ≡ uses.old.items ++ used ∷ []) }
{
    uses.push(used)?;
    Ok(None)
}

// Adds the use of an option whose value is what is left of its word. Answers the option where nothing is left.
fn take_value(
    alloc: Global,
    uses: &mut Vec<Use>,
    number: u64,
    letter: Letter,
    rest: &[u8],
) -> Result<Option<Letter>, NoMemory>
    ensures { IfOk result (λ waiting. (behind : Option IsLetter → List IsUse) →
        uses.old.items ++ value_uses number letter rest.now behind
        ≡ uses.new.items ++ behind waiting) }
{
    if rest.is_empty() {
        return Ok(Some(letter));
    }
    let text = Octets::copy(alloc, rest)?;
    take_use(uses, Use::with_value(number, letter, number, text))
}

// Adds the uses of a cluster's letters. Answers the option whose value the next word is.
fn take_letters(
    alloc: Global,
    uses: &mut Vec<Use>,
    number: u64,
    letters: &[u8],
) -> Result<Option<Letter>, NoMemory>
    ensures { IfOk result (λ waiting. (behind : Option IsLetter → List IsUse) →
        uses.old.items ++ cluster_uses number letters.now behind
        ≡ uses.new.items ++ behind waiting) }
{
    for (at, byte) in letters.iter().enumerate() {
        // All letters are known, up to the first with a value.
        let Some(letter) = Letter::of_byte(*byte) else {
            continue;
        };
        if letter.has_value() {
            return take_value(alloc, uses, number, letter, &letters[at + 1..]);
        }
        uses.push(Use::without_value(number, letter))?;
    }
    Ok(None)
}

// Adds the uses of what stands behind the `-` of an option that isn't `--self-run`. Answers the option whose value the next
// word is.
#[tactic(auto, unfolding(crate::specs::Uses::letters_at))]
fn take_dashed(
    alloc: Global,
    uses: &mut Vec<Use>,
    number: u64,
    letters: &[u8],
) -> Result<Option<Letter>, NoMemory>
    ensures { IfOk result (λ waiting. (behind : Option IsLetter → List IsUse) →
        uses.old.items ++ letters_at number letters.now behind ≡ uses.new.items ++ behind waiting) }
{
    if letters == FILTER_STATS {
        return take_use(uses, Use::without_value(number, Letter::FilterStats));
    }
    if is_cluster(letters) {
        return take_letters(alloc, uses, number, letters);
    }
    take_use(uses, Use::Unknown(number))
}

// Adds the uses of a word that is no option's value. Answers the option whose value the next word is.
fn take_option(
    alloc: Global,
    uses: &mut Vec<Use>,
    number: u64,
    word: &[u8],
) -> Result<Option<Letter>, NoMemory>
    ensures { IfOk result (λ waiting. (behind : Option IsLetter → List IsUse) →
        uses.old.items ++ uses_at number word.now behind ≡ uses.new.items ++ behind waiting) }
{
    let [b'-', _, ..] = word else {
        return take_use(uses, Use::Stray(number));
    };
    let letters = &word[1..];
    if letters == SELF_RUN {
        return Ok(Some(Letter::SelfRun));
    }
    take_dashed(alloc, uses, number, letters)
}

// Adds the use of the word behind so many others, which is the value of the option that waits for one.
#[tactic(auto, unfolding(crate::specs::Uses::uses_from))]
fn take_word(
    alloc: Global,
    uses: &mut Vec<Use>,
    before: u64,
    waiting: Option<Letter>,
    word: &[u8],
) -> Result<Option<Letter>, NoMemory>
    requires { before < 2 ^ 64 - 1 }
    ensures { IfOk result (λ next. (words : List (List ℕ)) →
        uses.old.items ++ uses_from before waiting (word.now ∷ words)
        ≡ uses.new.items ++ uses_from (before + 1) next words) }
{
    let number = before + 1;
    match waiting {
        Some(letter) => {
            let text = Octets::copy(alloc, word)?;
            take_use(uses, Use::with_value(before, letter, number, text))
        }
        None => take_option(alloc, uses, number, word),
    }
}

// Adds the use of an option whose value was to come behind all words.
#[tactic(auto, unfolding(crate::specs::Uses::uses_from))]
fn take_end(uses: &mut Vec<Use>, waiting: Option<Letter>, words: u64) -> Result<(), NoMemory>
    ensures { OnOk result (uses.old.items ++ uses_from words waiting [] ≡ uses.new.items) }
{
    match waiting {
        Some(letter) => Ok(uses.push(Use::without_value(words, letter))?),
        None => Ok(()),
    }
}

/// What the words are used for, in their order.
#[tactic(auto, unfolding(crate::specs::Uses::uses_from))]
pub(crate) fn uses_of(alloc: Global, words: &[String]) -> Result<Vec<Use>, NoMemory>
    ensures { IfOk result (λ uses. uses.items ≡ uses_of_words (texts words.now)) }
{
    let mut uses = Vec::new(alloc);
    let mut waiting = None;
    for (before, word) in words.iter().enumerate() {
        waiting = take_word(alloc, &mut uses, before as u64, waiting, word.as_bytes())?;
    }
    match take_end(&mut uses, waiting, words.len() as u64) {
        Ok(()) => Ok(uses),
        Err(error) => Err(error),
    }
}
