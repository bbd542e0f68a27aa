// Operands: the names, numbers, layers, slices, masks, functions and arithmetic of a filter.
ghost use Rattle.std.specs.Prelude.{◌≡◌, ◌++◌, Some, None, IfOk, IfErr, OnOk, IsTrue};
ghost use Rattle.flt_chains.specs.Parts.{left_of_operand};
ghost use Rattle.flt_syntax.specs.declared.ast.Arithmetic.{Arithmetic as Operation};
ghost use Rattle.flt_syntax.specs.declared.fault.FilterReason.TheVariants.{OutOfRange};
ghost use Rattle.flt_syntax.specs.Written.{WrittenOperand, operand_of, NamedOf, OnLayerOf, OnLayersOf, SlicedOf, MaskedOf, CalledOf, ComputedOf, ArgumentsOf};
ghost use Rattle.flt_typing.specs.Layers.{is_layer};
ghost use Rattle.flt_typing.specs.Standing.{argument, in_slice, within};
ghost use Rattle.flt_typing.specs.Terms.{IsTerm, IsMask, are_numbers as are_numbers_in, kind_of as kind_of_term, takes_term};
ghost use Rattle.flt_typing.specs.declared.standing.Standing.{Standing as Place};
ghost use Rattle.flt_typing.specs.declared.standing.Standing.TheVariants.{Free, Sliced};
ghost use Rattle.flt_types.specs.Faults.{IsAnswer, operand_faults, call_faults, layers_faults, mask_faults, number_faults, slice_faults, given, kind_written, unless, nameless, word_faults, misplaced as misplaced_at};
ghost use Rattle.flt_types.specs.Operands.{is_around, with_left};
ghost use Rattle.flt_types.specs.declared.position.Side.{Side as TestSide};
ghost use Rattle.flt_typed.specs.Kinds.{is_masked as is_masked_kind, is_number as is_number_kind};
ghost use Rattle.pk_fields.specs.Fields.{field_named};

use crate::faults::{fault, require};
use crate::layers::{layers_in, single_layer};
use crate::literals::constant;
use crate::owned::{both_boxed, boxed, let_go, refused};
use crate::position::{Position, Side};
use crate::ranges::parts_for;
use flt_chains::{Chain, chain_of};
use flt_syntax::{
    Arithmetic, FilterError, FilterReason, Function, Layer, LayerRange, Operand, SliceRange, Word,
};
use flt_typed::{Term, is_number, takes_call};
use flt_typing::{NUMBER, Standing, kind_of, read_within, read_word};
use pk_base::{Layers, NoMemory};
use pk_fields::{FieldId, ValueKind, by_name};
use pk_text::Wide;
use std::alloc::Global;

/// The term that an operand is, by where it stands. Its parts are typed one after the other, so that no call nests as deep
/// as signs and commas do.
#[cycle(terms)]
#[tactic(auto, using(crate::proofs::PartLemmas::fault_of_whole))]
pub(crate) fn term(
    alloc: Global,
    position: Position,
    operand: &Operand,
) -> Result<Term, FilterError>
    ensures ok { IfOk result (IsTerm position.standing (operand_of operand.now)) }
    ensures err { IfErr result
        (IsAnswer (operand_faults position.side position.standing (operand_of operand.now))) }
{
    let Chain { first, mut above } = chain_of(alloc, operand)?;
    let mut term = match part(alloc, position, first) {
        Ok(term) => term,
        Err(error) => return refused(error, above),
    };
    'above: while let Some(next) = above.pop() {
        term = match with(alloc, position, term, next) {
            Ok(term) => term,
            Err(error) => return refused(error, above),
        };
    }
    let_go(above);
    Ok(term)
}

/// The term that an operand is whose parts no sign or comma joins.
#[cycle(terms)]
#[tactic(auto, using(crate::proofs::Answers::answer_left))]
fn part(alloc: Global, position: Position, operand: &Operand) -> Result<Term, FilterError>
    requires { left_of_operand operand.now ≡ None }
    ensures ok { IfOk result (IsTerm position.standing (operand_of operand.now)) }
    ensures err { IfErr result
        (IsAnswer (operand_faults position.side position.standing (operand_of operand.now))) }
{
    match operand {
        Operand::Text(quote) => Err(misplaced(position.side, quote.at)),
        Operand::Named(word) => named(alloc, position.standing, word),
        Operand::OnLayer(word, layer) => on_layer(alloc, word, *layer),
        Operand::OnLayers(word, ranges) => on_layers(alloc, word, ranges),
        Operand::Sliced(_, _, _) | Operand::Masked(_, _, _) | Operand::Called(_, _, _) => {
            around(alloc, position, operand)
        }
        Operand::Computed(_, _, _, _) | Operand::Arguments(_, _) => unreachable!(),
    }
}

/// The term that a slice, a mask or a call is.
#[cycle(terms)]
#[tactic(auto, using(crate::proofs::Answers::answer_left))]
fn around(alloc: Global, position: Position, operand: &Operand) -> Result<Term, FilterError>
    requires { IsTrue (is_around (operand_of operand.now)) }
    ensures ok { IfOk result (IsTerm position.standing (operand_of operand.now)) }
    ensures err { IfErr result
        (IsAnswer (operand_faults position.side position.standing (operand_of operand.now))) }
{
    match operand {
        Operand::Sliced(inner, at, ranges) => {
            match term(alloc, position.in_slice(), inner) {
                Ok(inner) => slice(alloc, inner, *at, ranges),
                Err(error) => Err(error),
            }
        }
        Operand::Masked(inner, at, word) => {
            match term(alloc, position.within(*at), inner) {
                Ok(inner) => mask(alloc, inner, *at, word),
                Err(error) => Err(error),
            }
        }
        Operand::Called(function, at, inner) => {
            match term(alloc, position.argument(*function, *at, inner), inner) {
                Ok(inner) => call(alloc, inner, *at, *function),
                Err(error) => Err(error),
            }
        }
        _ => unreachable!(),
    }
}

/// A term with what an operand has to the right of its outermost sign or comma, if there is one.
#[cycle(terms)]
fn with(alloc: Global, position: Position, left: Term, join: &Operand) -> Result<Term, FilterError>
    ensures ok { (o : WrittenOperand) → IsTerm position.standing o left
        → IfOk result (IsTerm position.standing (with_left (operand_of join.now) o)) }
    ensures err { (o : WrittenOperand) → IsTerm position.standing o left → IfErr result
        (IsAnswer (operand_faults position.side position.standing
        (with_left (operand_of join.now) o))) }
{
    match join {
        Operand::Computed(operation, at, _, right) => {
            compute(alloc, position, left, *operation, *at, right)
        }
        Operand::Arguments(_, right) => add_argument(alloc, position, left, right),
        _ => Ok(left),
    }
}

/// A term and an operand behind a sign, which both have to be numbers.
#[cycle(terms)]
fn compute(
    alloc: Global,
    position: Position,
    left: Term,
    operation: Arithmetic,
    at: u32,
    operand: &Operand,
) -> Result<Term, FilterError>
    ensures ok { (o : WrittenOperand) → IsTerm position.standing o left → IfOk result
        (IsTerm position.standing (ComputedOf operation at o (operand_of operand.now))) }
    ensures err { (o : WrittenOperand) → IsTerm position.standing o left
        → IfErr result (IsAnswer (operand_faults position.side position.standing
        (ComputedOf operation at o (operand_of operand.now)))) }
{
    match second_number(alloc, position, &left, at, operand) {
        Ok(right) => match both_boxed(alloc, left, right) {
            Ok((left, right)) => Ok(Term::Computed(operation, left, right)),
            Err(NoMemory) => Err(FilterError::NoMemory),
        },
        Err(error) => refused(error, left),
    }
}

/// The number behind a sign, to the left of which there is one, too.
#[cycle(terms)]
fn second_number(
    alloc: Global,
    position: Position,
    left: &Term,
    at: u32,
    operand: &Operand,
) -> Result<Term, FilterError>
    ensures left { OnOk result (IsTrue (is_number_kind (kind_of_term left.now))) }
    ensures right { IfOk result (λ right. IsTrue (is_number_kind (kind_of_term right))) }
    ensures ok { IfOk result (IsTerm (Free (Some at)) (operand_of operand.now)) }
    ensures err { (a : Operation) (o : WrittenOperand) → IsTerm position.standing o left.now
        → IfErr result (IsAnswer (operand_faults position.side position.standing
        (ComputedOf a at o (operand_of operand.now)))) }
{
    require_number(left, position.sign_for(at))?;
    let right = term(alloc, position.behind(Some(at)), operand)?;
    match require_number(&right, at) {
        Ok(()) => Ok(right),
        Err(error) => refused(error, right),
    }
}

/// The fault of a part of arithmetic that is no number.
fn require_number(term: &Term, at: u32) -> Result<(), FilterError>
    ensures ok { OnOk result (IsTrue (is_number_kind (kind_of_term term.now))) }
    ensures err { IfErr result (IsAnswer (number_faults at (kind_of_term term.now))) }
{
    require(is_number(kind_of(term)), at, FilterReason::TypeMismatch)
}

/// Arguments, and an operand behind a comma.
#[cycle(terms)]
#[tactic(auto, using(crate::proofs::PartLemmas::next_argument))]
fn add_argument(
    alloc: Global,
    position: Position,
    left: Term,
    operand: &Operand,
) -> Result<Term, FilterError>
    ensures ok { (s : Place) (o : WrittenOperand) → IsTerm s o left
        → IfOk result (IsTerm s (ArgumentsOf o (operand_of operand.now))) }
    ensures err { (s : Place) (o : WrittenOperand) → IsTerm s o left → IfErr result
        (IsAnswer (operand_faults position.side s (ArgumentsOf o (operand_of operand.now)))) }
{
    match term(alloc, position.behind(None), operand) {
        Ok(right) => match both_boxed(alloc, left, right) {
            Ok((left, right)) => Ok(Term::Arguments(left, right)),
            Err(NoMemory) => Err(FilterError::NoMemory),
        },
        Err(error) => refused(error, left),
    }
}

/// The fault of a string.
fn misplaced(side: Side, at: u32) -> FilterError
    ensures { IsAnswer (misplaced_at side at) result }
{
    fault(side.blamed(at), FilterReason::TypeMismatch)
}

/// The field of a word, or the number that it is in place of a name.
fn named(alloc: Global, standing: Standing, word: &Word) -> Result<Term, FilterError>
    ensures ok { IfOk result (IsTerm standing (NamedOf word.now)) }
    ensures err { IfErr result
        (IsAnswer (word_faults (field_named word.now.text) standing word.now)) }
{
    match by_name(word.text.as_str()) {
        Some(field) => Ok(Term::Field(field, Layers::All)),
        None => number(alloc, standing, word),
    }
}

/// A word that is no name: a number where one may stand, else a fault.
fn number(alloc: Global, standing: Standing, word: &Word) -> Result<Term, FilterError>
    requires { field_named word.now.text ≡ None }
    ensures ok { IfOk result (IsTerm standing (NamedOf word.now)) }
    ensures err { IfErr result (IsAnswer (nameless standing word.now)) }
{
    match standing {
        Standing::First | Standing::Sliced => Err(fault(word.at, FilterReason::UnknownField)),
        Standing::Within(around) => Err(fault(around, FilterReason::TypeMismatch)),
        Standing::Free(_) => match read_word(alloc, NUMBER, false, word.text.as_str()) {
            Ok(reading) => match constant(reading, word.at) {
                Ok(constant) => Ok(Term::Constant(constant)),
                Err(error) => Err(error),
            },
            Err(NoMemory) => Err(FilterError::NoMemory),
        },
    }
}

/// The field of a word with layers, which has to be a name.
fn field(word: &Word) -> Result<FieldId, FilterError>
    ensures ok { IfOk result (λ field. field_named word.now.text ≡ Some field) }
    ensures err { IfErr result
        (IsAnswer (word_faults (field_named word.now.text) Sliced word.now)) }
{
    match by_name(word.text.as_str()) {
        Some(field) => Ok(field),
        None => Err(fault(word.at, FilterReason::UnknownField)),
    }
}

#[tactic(auto, using(crate::proofs::Answers::answer_left, crate::proofs::Answers::answer_right))]
fn on_layer(alloc: Global, word: &Word, layer: Layer) -> Result<Term, FilterError>
    ensures ok { (s : Place) → IfOk result (IsTerm s (OnLayerOf word.now layer)) }
    ensures err { IfErr result (IsAnswer (word_faults (field_named word.now.text) Sliced word.now
        ++ unless (is_layer layer) layer.at OutOfRange)) }
{
    match field(word) {
        Ok(field) => match single_layer(alloc, layer) {
            Ok(layers) => Ok(Term::Field(field, layers)),
            Err(error) => Err(error),
        },
        Err(error) => Err(error),
    }
}

#[tactic(auto, using(crate::proofs::Answers::answer_left, crate::proofs::Answers::answer_right))]
fn on_layers(alloc: Global, word: &Word, ranges: &[LayerRange]) -> Result<Term, FilterError>
    ensures ok { (s : Place) → IfOk result (IsTerm s (OnLayersOf word.now ranges.now)) }
    ensures err { IfErr result (IsAnswer (word_faults (field_named word.now.text) Sliced word.now
        ++ layers_faults ranges.now)) }
{
    match field(word) {
        Ok(field) => match layers_in(alloc, ranges) {
            Ok(layers) => Ok(Term::Field(field, layers)),
            Err(error) => Err(error),
        },
        Err(error) => Err(error),
    }
}

/// A slice of what an operand stands for.
#[tactic(auto, using(crate::proofs::Clear::slice_behind))]
fn slice(alloc: Global, inner: Term, at: u32, ranges: &[SliceRange]) -> Result<Term, FilterError>
    ensures ok { (s : Place) (o : WrittenOperand) → IsTerm (in_slice s) o inner
        → IfOk result (IsTerm s (SlicedOf o at ranges.now)) }
    ensures err { (side : TestSide) (s : Place) (o : WrittenOperand) → IsTerm (in_slice s) o inner
        → IfErr result (IsAnswer
        (operand_faults side (in_slice s) o
        ++ given (kind_written (in_slice s) o) (slice_faults at ranges.now))) }
{
    match parts_for(alloc, kind_of(&inner), at, ranges) {
        Ok(parts) => match boxed(alloc, inner) {
            Ok(inner) => Ok(Term::Slice(inner, parts)),
            Err(NoMemory) => refused(FilterError::NoMemory, parts),
        },
        Err(error) => refused(error, inner),
    }
}

/// What an operand stands for, masked by a number that fits its width.
#[tactic(auto, using(crate::proofs::Clear::mask_behind))]
fn mask(alloc: Global, inner: Term, at: u32, word: &Word) -> Result<Term, FilterError>
    ensures ok { (s : Place) (o : WrittenOperand) → IsTerm (within at s) o inner
        → IfOk result (IsTerm s (MaskedOf o at word.now)) }
    ensures err { (side : TestSide) (s : Place) (o : WrittenOperand) → IsTerm (within at s) o inner
        → IfErr result (IsAnswer
        (operand_faults side (within at s) o
        ++ given (kind_written (within at s) o) (mask_faults at word.now))) }
{
    match mask_number(kind_of(&inner), at, word) {
        Ok(number) => match boxed(alloc, inner) {
            Ok(inner) => Ok(Term::Mask(inner, number)),
            Err(NoMemory) => Err(FilterError::NoMemory),
        },
        Err(error) => refused(error, inner),
    }
}

/// The number of a mask's word, for an operand of a kind.
#[tactic(auto, unfolding(flt_typing::specs::Literals::word_read))]
fn mask_number(kind: ValueKind, at: u32, word: &Word) -> Result<u64, FilterError>
    ensures masked { OnOk result (IsTrue (is_masked_kind kind)) }
    ensures ok { IfOk result (IsMask kind word.now.text) }
    ensures err { IfErr result (IsAnswer (mask_faults at word.now kind)) }
{
    let ValueKind::Uint(width) = kind else {
        return Err(fault(at, FilterReason::TypeMismatch));
    };
    match read_within(width, word.text.as_str()) {
        Some(Wide::Fits(number)) => Ok(number),
        Some(Wide::Beyond) => Err(fault(word.at, FilterReason::OutOfRange)),
        None => Err(fault(word.at, FilterReason::TypeMismatch)),
    }
}

/// A function of what an operand stands for.
#[tactic(auto, using(crate::proofs::Clear::call_behind))]
fn call(alloc: Global, inner: Term, at: u32, function: Function) -> Result<Term, FilterError>
    ensures ok { (s : Place) (o : WrittenOperand) → IsTerm (argument function at o s) o inner
        → IfOk result (IsTerm s (CalledOf function at o)) }
    ensures err { (side : TestSide) (s : Place) (o : WrittenOperand)
        → IsTerm (argument function at o s) o inner
        → IfErr result (IsAnswer (operand_faults side (argument function at o s) o
        ++ given (kind_written (argument function at o s) o)
        (call_faults function at (argument function at o s) o))) }
{
    match require(takes(function, &inner), at, FilterReason::TypeMismatch) {
        Ok(()) => match boxed(alloc, inner) {
            Ok(inner) => Ok(Term::Called(function, inner)),
            Err(NoMemory) => Err(FilterError::NoMemory),
        },
        Err(error) => refused(error, inner),
    }
}

/// Whether a function takes a term.
fn takes(function: Function, inner: &Term) -> bool
    ensures { result ≡ takes_term function inner.now }
{
    match function {
        Function::Count => matches!(inner, Term::Field(_, _)),
        Function::Min | Function::Max => are_numbers(inner),
        Function::Len | Function::Upper | Function::Lower => takes_call(function, kind_of(inner)),
    }
}

/// Whether a term, or each of several arguments, has numbers.
fn are_numbers(term: &Term) -> bool
    ensures { result ≡ are_numbers_in term.now }
{
    let mut first = term;
    'arguments: loop {
        match first {
            Term::Arguments(left, right) => {
                if !is_number(kind_of(right)) {
                    return false;
                }
                first = left;
            }
            _ => return is_number(kind_of(first)),
        }
    }
}
