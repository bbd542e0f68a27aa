// The filter that a text's syntax tree is.
ghost use Rattle.std.specs.Prelude.{◌≡◌, None, IfOk, IfErr, ℕ, List};
ghost use Rattle.flt_chains.specs.Parts.{left_of_tree};
ghost use Rattle.flt_syntax.specs.Filters.{IsFilterText};
ghost use Rattle.flt_syntax.specs.Written.{Written, JoinedOf, NotOf, written};
ghost use Rattle.flt_syntax.specs.declared.ast.Negation.{Negation};
ghost use Rattle.flt_typing.specs.Typing.{HasType};
ghost use Rattle.flt_types.specs.Faults.{IsAnswer, IsClear, faults};
ghost use Rattle.flt_types.specs.Operands.{tree_with};

use crate::conditions::{alone, test};
use crate::owned::{both_boxed, boxed, let_go, refused};
use flt_chains::{Chain, chain_of};
use flt_syntax::{Ast, FilterError, Join};
use flt_typed::Typed;
use flt_typing::Filter;
use pk_base::NoMemory;
use std::alloc::Global;

/// Gives the syntax tree of a filter's text its types. The error is the tree's first fault: F4 to F7 or F10, with its
/// place in the text.
#[tactic(auto, using(crate::proofs::Clear::type_clear))]
pub fn check(alloc: Global, ast: Ast) -> Result<Filter, FilterError>
    requires { (text : List ℕ) × IsFilterText text (written ast) }
    ensures ok { IfOk result (HasType (written ast)) }
    ensures none { IfOk result (λ _. IsClear (faults (written ast))) }
    ensures err { IfErr result (IsAnswer (faults (written ast))) }
{
    let root = typed(alloc, &ast)?;
    Ok(Filter::new(root))
}

/// The filter that a tree is. The trees that signs join are typed one after the other, so that no call nests as deep as they
/// do.
#[cycle(filters)]
#[tactic(auto, using(crate::proofs::PartLemmas::tree_fault_of_whole))]
fn typed(alloc: Global, ast: &Ast) -> Result<Typed, FilterError>
    ensures ok { IfOk result (HasType (written ast.now)) }
    ensures err { IfErr result (IsAnswer (faults (written ast.now))) }
{
    let Chain { first, mut above } = chain_of(alloc, ast)?;
    let mut filter = match single(alloc, first) {
        Ok(filter) => filter,
        Err(error) => return refused(error, above),
    };
    'above: while let Some(next) = above.pop() {
        filter = match with(alloc, filter, next) {
            Ok(filter) => filter,
            Err(error) => return refused(error, above),
        };
    }
    let_go(above);
    Ok(filter)
}

/// The filter that a tree is that is no chain of signs.
#[cycle(filters)]
fn single(alloc: Global, ast: &Ast) -> Result<Typed, FilterError>
    requires { left_of_tree ast.now ≡ None }
    ensures ok { IfOk result (HasType (written ast.now)) }
    ensures err { IfErr result (IsAnswer (faults (written ast.now))) }
{
    match ast {
        Ast::Not(_, inner) => negated(alloc, inner),
        Ast::Group(inner) => typed(alloc, inner),
        Ast::Alone(operand) => alone(alloc, operand),
        Ast::Test(choice, operand, tail) => test(alloc, *choice, operand, tail),
        Ast::Or(_, _) | Ast::Xor(_, _) | Ast::And(_, _) => unreachable!(),
    }
}

/// The filter that a tree is behind `not`.
#[cycle(filters)]
fn negated(alloc: Global, ast: &Ast) -> Result<Typed, FilterError>
    ensures ok { IfOk result (λ filter. (n : Negation) → HasType (NotOf n (written ast.now)) filter) }
    ensures err { IfErr result (IsAnswer (faults (written ast.now))) }
{
    match typed(alloc, ast) {
        Ok(filter) => match boxed(alloc, filter) {
            Ok(filter) => Ok(Typed::Not(filter)),
            Err(NoMemory) => Err(FilterError::NoMemory),
        },
        Err(error) => Err(error),
    }
}

/// A filter with what a tree has to the right of its outermost sign, if there is one.
#[cycle(filters)]
fn with(alloc: Global, left: Typed, ast: &Ast) -> Result<Typed, FilterError>
    ensures ok { (t : Written) → HasType t left
        → IfOk result (HasType (tree_with (written ast.now) t)) }
    ensures err { (t : Written) → HasType t left
        → IfErr result (IsAnswer (faults (tree_with (written ast.now) t))) }
{
    match ast {
        Ast::Or(_, right) => joined(alloc, Join::Or, left, right),
        Ast::Xor(_, right) => joined(alloc, Join::Xor, left, right),
        Ast::And(_, right) => joined(alloc, Join::And, left, right),
        _ => Ok(left),
    }
}

/// A filter and a tree behind a sign.
#[cycle(filters)]
#[tactic(auto, using(crate::proofs::Clear::joined_behind))]
fn joined(alloc: Global, join: Join, left: Typed, ast: &Ast) -> Result<Typed, FilterError>
    ensures ok { (t : Written) → HasType t left
        → IfOk result (HasType (JoinedOf join t (written ast.now))) }
    ensures err { (t : Written) → HasType t left
        → IfErr result (IsAnswer (faults (JoinedOf join t (written ast.now)))) }
{
    match typed(alloc, ast) {
        Ok(right) => match both_boxed(alloc, left, right) {
            Ok((left, right)) => Ok(match join {
                Join::Or => Typed::Either(left, right),
                Join::Xor => Typed::Differ(left, right),
                Join::And => Typed::Both(left, right),
            }),
            Err(NoMemory) => Err(FilterError::NoMemory),
        },
        Err(error) => refused(error, left),
    }
}
