// The tests of a filter: what is asked of the values of a left operand.
ghost use Rattle.std.specs.Prelude.{◌≡◌, [], ◌∷◌, ◌++◌, ℕ, List, None, IfOk, IfErr, OnOk, IsTrue};
ghost use Rattle.flt_syntax.specs.Written.{WrittenOperand, operand_of, tail_of, CompareOf, InOf, MatchesOf, AloneOf, TestOf};
ghost use Rattle.flt_syntax.specs.declared.fault.FilterReason.TheVariants.{TypeMismatch};
ghost use Rattle.flt_typed.specs.Patterns.{HasCause, IsPattern};
ghost use Rattle.flt_typing.specs.Constants.{literal_of};
ghost use Rattle.flt_typing.specs.Terms.{IsTerm};
ghost use Rattle.flt_typing.specs.declared.standing.Standing.TheVariants.{First};
ghost use Rattle.flt_types.specs.Faults.{IsAnswer, faults, right_faults, unless, PatternAt};
ghost use Rattle.flt_typed.specs.Kinds.{is_searched as is_searched_kind, takes as takes_kind};
ghost use Rattle.flt_typing.specs.Typing.{HasType, IsRight, relation_of as relation_asked, choice_of as own_choice, chosen as choice_between};

use crate::faults::{fault, require};
use crate::literals::{right_quote, right_word};
use crate::operand::term;
use crate::operands::first_sign;
use crate::owned::refused;
use crate::position::{LEFT, RIGHT};
use crate::sets::members;
use flt_syntax::{Choice, Element, FilterError, FilterReason, Operand, Operator, Quote, Tail};
use flt_typed::{Pattern, PatternFault, Relation, Term, Typed, is_searched, same_class, takes};
use flt_typing::kind_of;
use pk_fields::{ValueKind, by_name};
use std::alloc::Global;

/// An operand that is a test by itself.
#[tactic(auto, using(crate::proofs::Clear::alone_behind, crate::proofs::Clear::sum_behind, crate::proofs::Answers::answer_left))]
pub(crate) fn alone(alloc: Global, operand: &Operand) -> Result<Typed, FilterError>
    ensures ok { IfOk result (HasType (AloneOf (operand_of operand.now))) }
    ensures err { IfErr result (IsAnswer (faults (AloneOf (operand_of operand.now)))) }
{
    match term(alloc, LEFT, operand) {
        Ok(inner) => match operand {
            Operand::Masked(_, _, _) => Ok(Typed::AnyBit(inner)),
            Operand::Called(_, at, _) => refused(fault(*at, FilterReason::TypeMismatch), inner),
            Operand::Computed(_, at, left, _) => {
                let sign = first_sign(*at, left);
                refused(fault(sign, FilterReason::TypeMismatch), inner)
            }
            _ => Ok(Typed::Exists(inner)),
        },
        Err(error) => Err(error),
    }
}

/// A test of a left operand.
#[tactic(auto, using(crate::proofs::Answers::answer_left))]
pub(crate) fn test(
    alloc: Global,
    choice: Option<Choice>,
    operand: &Operand,
    tail: &Tail,
) -> Result<Typed, FilterError>
    ensures ok { IfOk result (HasType (TestOf choice (operand_of operand.now) (tail_of tail.now))) }
    ensures err { IfErr result
        (IsAnswer (faults (TestOf choice (operand_of operand.now) (tail_of tail.now)))) }
{
    match term(alloc, LEFT, operand) {
        Ok(left) => match tail {
            Tail::Compare(operator, at, right) => {
                compare(alloc, choice, left, *operator, *at, right)
            }
            Tail::In(negated, elements) => among(alloc, choice, left, *negated, elements),
            Tail::Matches(at, quote) => searched(alloc, choice, left, *at, quote),
        },
        Err(error) => Err(error),
    }
}

#[tactic(auto, using(crate::proofs::Clear::compare_behind))]
fn compare(
    alloc: Global,
    choice: Option<Choice>,
    left: Term,
    operator: Operator,
    at: u32,
    right: &Operand,
) -> Result<Typed, FilterError>
    ensures ok { (o : WrittenOperand) → IsTerm First o left
        → IfOk result (HasType (TestOf choice o (CompareOf operator at (operand_of right.now)))) }
    ensures err { (o : WrittenOperand) → IsTerm First o left
        → IfErr result (IsAnswer
        (faults (TestOf choice o (CompareOf operator at (operand_of right.now))))) }
{
    let relation = relation_of(operator);
    let choice = chosen(choice, choice_of(operator));
    match right_of(alloc, relation, at, kind_of(&left), right) {
        Ok(right) => Ok(Typed::Compare(relation, choice, left, right)),
        Err(error) => refused(error, left),
    }
}

/// The right side of a relation that a left operand of a kind may stand in.
#[tactic(auto, using(crate::proofs::Answers::answer_left, crate::proofs::Answers::answer_right, crate::proofs::Answers::clear_unless))]
fn right_of(
    alloc: Global,
    relation: Relation,
    at: u32,
    kind: ValueKind,
    operand: &Operand,
) -> Result<Term, FilterError>
    ensures takes { OnOk result (IsTrue (takes_kind relation kind)) }
    ensures ok { IfOk result (IsRight relation kind (operand_of operand.now)) }
    ensures err { IfErr result (IsAnswer (unless (takes_kind relation kind) at TypeMismatch
        ++ right_faults relation at kind (operand_of operand.now)
        (literal_of (operand_of operand.now)))) }
{
    require(takes(relation, kind), at, FilterReason::TypeMismatch)?;
    right_side(alloc, relation, at, kind, operand)
}

#[tactic(auto, using(crate::proofs::Clear::among_behind))]
fn among(
    alloc: Global,
    choice: Option<Choice>,
    left: Term,
    negated: bool,
    elements: &[Element],
) -> Result<Typed, FilterError>
    ensures ok { (o : WrittenOperand) → IsTerm First o left
        → IfOk result (HasType (TestOf choice o (InOf negated elements.now))) }
    ensures err { (o : WrittenOperand) → IsTerm First o left
        → IfErr result (IsAnswer (faults (TestOf choice o (InOf negated elements.now)))) }
{
    let choice = chosen(choice, Choice::Any);
    match members(alloc, kind_of(&left), elements) {
        Ok(members) => Ok(Typed::Among(negated, choice, left, members)),
        Err(error) => refused(error, left),
    }
}

#[tactic(auto, using(crate::proofs::Clear::search_behind))]
fn searched(
    alloc: Global,
    choice: Option<Choice>,
    left: Term,
    at: u32,
    quote: &Quote,
) -> Result<Typed, FilterError>
    ensures ok { (o : WrittenOperand) → IsTerm First o left
        → IfOk result (HasType (TestOf choice o (MatchesOf at quote.now))) }
    ensures err { (o : WrittenOperand) → IsTerm First o left
        → IfErr result (IsAnswer (faults (TestOf choice o (MatchesOf at quote.now)))) }
{
    let choice = chosen(choice, Choice::Any);
    match pattern_for(alloc, kind_of(&left), at, quote) {
        Ok(pattern) => Ok(Typed::Matches(choice, left, pattern)),
        Err(error) => refused(error, left),
    }
}

/// The pattern of a string, for a left operand of a kind.
#[tactic(auto, using(crate::proofs::Answers::answer_left, crate::proofs::Answers::answer_right, crate::proofs::Answers::clear_unless))]
fn pattern_for(
    alloc: Global,
    kind: ValueKind,
    at: u32,
    quote: &Quote,
) -> Result<Pattern, FilterError>
    ensures searched { OnOk result (IsTrue (is_searched_kind kind)) }
    ensures ok { IfOk result (λ pattern. pattern ≡ quote.now.bytes) }
    ensures read { OnOk result (IsPattern quote.now.bytes) }
    ensures err { IfErr result
        (IsAnswer (unless (is_searched_kind kind) at TypeMismatch
        ++ PatternAt quote.now.at quote.now.bytes ∷ [])) }
{
    require(is_searched(kind), at, FilterReason::TypeMismatch)?;
    pattern(alloc, quote)
}

/// The right side of a relation, for a left operand of a kind.
fn right_side(
    alloc: Global,
    relation: Relation,
    at: u32,
    kind: ValueKind,
    operand: &Operand,
) -> Result<Term, FilterError>
    ensures ok { IfOk result (IsRight relation kind (operand_of operand.now)) }
    ensures err { IfErr result
        (IsAnswer (right_faults relation at kind (operand_of operand.now)
        (literal_of (operand_of operand.now)))) }
{
    match operand {
        Operand::Text(quote) => match right_quote(relation, kind, quote) {
            Ok(text) => Ok(Term::Constant(text)),
            Err(error) => Err(error),
        },
        Operand::Named(word) => match by_name(word.text.as_str()) {
            Some(_) => right_term(alloc, relation, at, kind, operand),
            None => match right_word(alloc, relation, kind, word) {
                Ok(literal) => Ok(Term::Constant(literal)),
                Err(error) => Err(error),
            },
        },
        _ => right_term(alloc, relation, at, kind, operand),
    }
}

#[tactic(auto, using(crate::proofs::Clear::right_term, crate::proofs::Clear::class_behind, crate::proofs::Answers::answer_left))]
fn right_term(
    alloc: Global,
    relation: Relation,
    at: u32,
    kind: ValueKind,
    operand: &Operand,
) -> Result<Term, FilterError>
    requires { literal_of (operand_of operand.now) ≡ None }
    ensures ok { IfOk result (IsRight relation kind (operand_of operand.now)) }
    ensures err { IfErr result
        (IsAnswer (right_faults relation at kind (operand_of operand.now) None)) }
{
    match term(alloc, RIGHT, operand) {
        Ok(right) => {
            let same = same_class(kind, kind_of(&right));
            match require(same, at, FilterReason::TypeMismatch) {
                Ok(()) => Ok(right),
                Err(error) => refused(error, right),
            }
        }
        Err(error) => Err(error),
    }
}

/// The pattern of a string.
fn pattern(alloc: Global, quote: &Quote) -> Result<Pattern, FilterError>
    ensures ok { IfOk result (λ pattern. pattern ≡ quote.now.bytes) }
    ensures read { OnOk result (IsPattern quote.now.bytes) }
    ensures err { IfErr result (IsAnswer (PatternAt quote.now.at quote.now.bytes ∷ [])) }
{
    match Pattern::new(alloc, quote.bytes.bytes()) {
        Ok(pattern) => Ok(pattern),
        Err(cause) => Err(pattern_fault(cause, quote.at)),
    }
}

fn pattern_fault(cause: PatternFault, at: u32) -> FilterError
    ensures { (pattern : List ℕ) → HasCause pattern cause
        → IsAnswer (PatternAt at pattern ∷ []) result }
{
    match cause {
        PatternFault::NoPattern => fault(at, FilterReason::BadPattern),
        PatternFault::Large => fault(at, FilterReason::PatternSize),
        PatternFault::NoMemory => FilterError::NoMemory,
    }
}

fn relation_of(operator: Operator) -> Relation
    ensures { result ≡ relation_asked operator }
{
    match operator {
        Operator::Equal | Operator::AnyEqual | Operator::AllEqual => Relation::Equal,
        Operator::Unequal | Operator::AllUnequal | Operator::AnyUnequal => Relation::Unequal,
        Operator::Greater => Relation::Greater,
        Operator::Less => Relation::Less,
        Operator::AtLeast => Relation::AtLeast,
        Operator::AtMost => Relation::AtMost,
        Operator::Contains => Relation::Contains,
    }
}

/// Which of the pairs of values an operator asks by itself.
fn choice_of(operator: Operator) -> Choice
    ensures { result ≡ own_choice operator }
{
    match operator {
        Operator::Unequal | Operator::AllUnequal | Operator::AllEqual => Choice::All,
        _ => Choice::Any,
    }
}

/// The choice of the word before a test, else the test's own.
fn chosen(word: Option<Choice>, own: Choice) -> Choice
    ensures { result ≡ choice_between word own }
{
    word.unwrap_or(own)
}
