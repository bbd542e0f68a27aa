// What is wrong with words.
ghost use Rattle.std.specs.Prelude.{◌≡◌, [] as nothing, IfOk, IfNone};
ghost use Rattle.shark_words.specs.Faults.{is_use_of, is_given as is_given_in, slot_in, text_in, value_fault as fault_of_value, given_fault as fault_of_given, fault_of as fault_of_use, first_fault as fault_first};
ghost use Rattle.shark_words.specs.Slots.{slot_of as slot_of_option, with_slot};

use crate::fault::{WordFault, WordReason};
use crate::letter::Letter;
use crate::slot::{Held, Slot, slot_of};
use crate::uses::{Given, Use};
use crate::values::is_value;
use pk_base::NoMemory;
use std::alloc::Global;

fn is_use_of(used: &Use, letter: Letter) -> bool
    ensures { result ≡ is_use_of letter used.now }
{
    match used {
        Use::Given(given) => given.letter == letter,
        Use::Stray(_) | Use::Unknown(_) => false,
    }
}

/// Whether an option is given.
pub(crate) fn is_given(uses: &[Use], letter: Letter) -> bool
    ensures { result ≡ is_given_in letter uses.now }
{
    uses.iter().any(|used| is_use_of(used, letter))
}

// What an option gives that may come once.
fn slot_given(given: &Given) -> Option<Slot>
    ensures { result ≡ slot_of_option given.now.letter (text_in given.now.value) }
{
    match &given.value {
        Some(value) => slot_of(given.letter, value.text.bytes()),
        None => slot_of(given.letter, &[]),
    }
}

fn value_fault(given: &Given) -> Option<WordFault>
    ensures { result ≡ fault_of_value given.now.word given.now.letter given.now.value }
{
    match &given.value {
        None if given.letter.has_value() => Some(WordFault {
            word: given.word,
            reason: WordReason::MissingValue,
        }),
        None => None,
        Some(value) if !is_value(given.letter, value.text.bytes()) => Some(WordFault {
            word: value.word,
            reason: WordReason::BadValue,
        }),
        Some(_) => None,
    }
}

// What is wrong with an option, given what came before it.
fn given_fault(held: &mut Held, given: &Given) -> Result<Option<WordFault>, NoMemory>
    ensures fault { IfOk result (λ fault. fault ≡ fault_of_given held.old given.now) }
    ensures taken { IfOk result (λ fault. IfNone fault
        (held.new ≡ with_slot (slot_of_option given.now.letter (text_in given.now.value)) held.old)) }
{
    if let Some(slot) = slot_given(given) {
        if !held.take(slot)? {
            return Ok(Some(WordFault {
                word: given.word,
                reason: WordReason::Repeated,
            }));
        }
    }
    Ok(value_fault(given))
}

// What is wrong with a use, given what came before it.
fn fault_of(held: &mut Held, used: &Use) -> Result<Option<WordFault>, NoMemory>
    ensures fault { IfOk result (λ fault. fault ≡ fault_of_use held.old used.now) }
    ensures taken { IfOk result (λ fault. IfNone fault
        (held.new ≡ with_slot (slot_in used.now) held.old)) }
{
    match used {
        Use::Unknown(word) => Ok(Some(WordFault {
            word: *word,
            reason: WordReason::UnknownOption,
        })),
        Use::Stray(word) => Ok(Some(WordFault {
            word: *word,
            reason: WordReason::StrayWord,
        })),
        Use::Given(given) => given_fault(held, given),
    }
}

// The first fault of uses, behind others that gave this.
#[tactic(auto, unfolding(crate::specs::Faults::first_fault))]
fn first_fault_behind(held: &mut Held, uses: &[Use]) -> Result<Option<WordFault>, NoMemory>
    ensures { IfOk result (λ fault. fault ≡ fault_first held.old uses.now) }
{
    for used in uses {
        let fault = fault_of(held, used)?;
        if fault.is_some() {
            return Ok(fault);
        }
    }
    Ok(None)
}

/// The first fault in the order of the words.
pub(crate) fn first_fault(alloc: Global, uses: &[Use]) -> Result<Option<WordFault>, NoMemory>
    ensures { IfOk result (λ fault. fault ≡ fault_first nothing uses.now) }
{
    let mut held = Held::new(alloc);
    first_fault_behind(&mut held, uses)
}
