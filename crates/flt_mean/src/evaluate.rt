// The truth of a filter in a tree.
ghost use Rattle.std.specs.Prelude.{◌≡◌, None, IfOk};
ghost use Rattle.flt_lists.specs.Passes.{compares, is_some_value, passes};
ghost use Rattle.flt_lists.specs.Questions.{is_among, is_matched, is_so};
ghost use Rattle.flt_mean.specs.Joined.{truth_with};
ghost use Rattle.flt_mean.specs.Meaning.{exactly_one, meaning, opposite};
ghost use Rattle.flt_mean.specs.Values.{prefix_of_term, values_of_term};
ghost use Rattle.flt_chains.specs.Parts.{left_of_filter};

use crate::values::values_of_term;
use flt_chains::{Chain, chain_of};
use flt_lists::{Question, asks_field, compares, is_some_value, is_there, matched, passes};
use flt_syntax::Choice;
use flt_typed::{Member, Pattern, Relation, Term, Typed};
use flt_typing::Filter;
use pk_base::NoMemory;
use pk_tree::Tree;
use std::alloc::Global;

/// Whether a tree satisfies a filter.
pub fn holds(alloc: Global, filter: &Filter, tree: &Tree) -> Result<bool, NoMemory>
    ensures { IfOk result (λ truth. truth ≡ meaning filter.now tree.now) }
{
    is_true(alloc, filter.root(), tree)
}

/// The same of a part of a filter. The filters that signs join are asked one after the other, so that no call nests as deep
/// as they do.
#[cycle(truth)]
fn is_true(alloc: Global, filter: &Typed, tree: &Tree) -> Result<bool, NoMemory>
    ensures { IfOk result (λ truth. truth ≡ meaning filter.now tree.now) }
{
    let Chain { first, mut above } = chain_of(alloc, filter)?;
    let mut truth = is_single_true(alloc, first, tree)?;
    'above: while let Some(next) = above.pop() {
        truth = is_joined_true(alloc, truth, next, tree)?;
    }
    Ok(truth)
}

/// The truth of what a sign joins, by that of its left side. What stands to the right is asked only where it decides.
#[cycle(truth)]
fn is_joined_true(alloc: Global, left: bool, filter: &Typed, tree: &Tree) -> Result<bool, NoMemory>
    ensures { IfOk result (λ truth. truth ≡ truth_with filter.now left tree.now) }
{
    match filter {
        Typed::Either(_, right) => Ok(left || is_true(alloc, right, tree)?),
        Typed::Differ(_, right) => Ok(differ(left, is_true(alloc, right, tree)?)),
        Typed::Both(_, right) => Ok(left && is_true(alloc, right, tree)?),
        _ => Ok(left),
    }
}

/// Whether exactly one of two is true.
fn differ(left: bool, right: bool) -> bool
    ensures { result ≡ exactly_one left right }
{
    left != right
}

/// The same of a part that is no chain of signs.
#[cycle(truth)]
fn is_single_true(alloc: Global, filter: &Typed, tree: &Tree) -> Result<bool, NoMemory>
    requires { left_of_filter filter.now ≡ None }
    ensures { IfOk result (λ truth. truth ≡ meaning filter.now tree.now) }
{
    match filter {
        Typed::Not(filter) => Ok(!is_true(alloc, filter, tree)?),
        Typed::Exists(term) => has_value(alloc, term, tree),
        Typed::AnyBit(term) => asks(alloc, Choice::Any, &Question::IsNonzero, term, tree),
        Typed::Compare(relation, choice, left, right) => {
            compare(alloc, *relation, *choice, left, right, tree)
        }
        Typed::Among(negated, choice, term, members) => {
            among(alloc, *negated, *choice, term, members, tree)
        }
        Typed::Matches(choice, term, pattern) => match_in(alloc, *choice, term, pattern, tree),
        Typed::Either(_, _) | Typed::Differ(_, _) | Typed::Both(_, _) => unreachable!(),
    }
}

/// Whether a term has a value.
fn has_value(alloc: Global, term: &Term, tree: &Tree) -> Result<bool, NoMemory>
    ensures { IfOk result (λ truth. truth ≡ is_some_value (values_of_term term.now tree.now)) }
{
    match term {
        Term::Field(field, layers) => Ok(is_there(*field, layers, tree)),
        term => {
            let values = values_of_term(alloc, term, tree)?;
            Ok(is_some_value(&values))
        }
    }
}

/// Whether any or all of a term's values answer a question.
fn asks(
    alloc: Global,
    choice: Choice,
    question: &Question<'_>,
    term: &Term,
    tree: &Tree,
) -> Result<bool, NoMemory>
    ensures { IfOk result (λ truth.
        truth ≡ passes choice (λ v. is_so question.now v) (values_of_term term.now tree.now)) }
{
    match term {
        Term::Field(field, layers) => asks_field(choice, question, *field, layers, tree),
        term => {
            let values = values_of_term(alloc, term, tree)?;
            Ok(passes(choice, question, &values))
        }
    }
}

fn compare(
    alloc: Global,
    relation: Relation,
    choice: Choice,
    left: &Term,
    right: &Term,
    tree: &Tree,
) -> Result<bool, NoMemory>
    ensures { IfOk result (λ truth.
        truth ≡ compares relation choice (values_of_term left.now tree.now)
        (values_of_term right.now tree.now) (prefix_of_term right.now)) }
{
    match right {
        Term::Constant(constant) => {
            let question = Question::IsRelated(relation, &constant.value, constant.prefix);
            asks(alloc, choice, &question, left, tree)
        }
        right => {
            let left = values_of_term(alloc, left, tree)?;
            let right = values_of_term(alloc, right, tree)?;
            compares(alloc, relation, choice, &left, &right, None)
        }
    }
}

fn among(
    alloc: Global,
    negated: bool,
    choice: Choice,
    term: &Term,
    members: &[Member],
    tree: &Tree,
) -> Result<bool, NoMemory>
    ensures { IfOk result (λ truth.
        truth ≡ opposite negated
        (passes choice (λ v. is_among members.now v) (values_of_term term.now tree.now))) }
{
    let found = asks(alloc, choice, &Question::IsAmong(members), term, tree)?;
    Ok(negated != found)
}

/// Whether a pattern matches in the bytes of any or all of a term's values.
fn match_in(
    alloc: Global,
    choice: Choice,
    term: &Term,
    pattern: &Pattern,
    tree: &Tree,
) -> Result<bool, NoMemory>
    ensures { IfOk result (λ truth.
        truth ≡ passes choice (λ v. is_matched pattern.now v) (values_of_term term.now tree.now)) }
{
    let values = values_of_term(alloc, term, tree)?;
    let mut search = pattern.search(alloc)?;
    Ok(matched(choice, &mut search, &values))
}
