// The code that sets the flag to the truth of a filter.
ghost use Rattle.std.specs.Prelude.{◌≡◌, ◌++◌, [], ◌∷◌, None, OnOk, Some};
ghost use Rattle.flt_code.specs.Code.{Adds, CodeRight, IsAmong, IsCode, IsMatch, Joins, LoadsTerm};
ghost use Rattle.flt_code.specs.Owners.{Grows, owners_of};
ghost use Rattle.flt_chains.specs.Parts.{left_of_filter};
ghost use Rattle.flt_typed.specs.declared.typed.Typed.{Typed as TypedValue};
ghost use Rattle.flt_program.specs.Programs.{patterns_of};
ghost use Rattle.flt_program.specs.Sources.{patterns_right, sources_of};
ghost use Rattle.flt_program.specs.declared.instr.Instr.TheVariants as instr;

use crate::emits::{emit, emit_at};
use crate::load::load;
use crate::owners::{Owner, own};
use flt_chains::{Chain, chain_of};
use flt_program::{Instr, copied_members};
use flt_syntax::Choice;
use flt_typed::{Extreme, Member, Pattern, Relation, Term, Typed};
use pk_base::NoMemory;
use std::alloc::Global;

/// Appends the code for a filter. The filters that signs join are made one after the other, so that no call nests as deep as
/// they do.
#[cycle(code)]
pub(crate) fn code_for<'f>(
    alloc: Global,
    filter: &'f Typed,
    owners: &mut Vec<Owner<'f>>,
    patterns: &mut Vec<&'f Pattern>,
    code: &mut Vec<Instr>,
) -> Result<(), NoMemory>
    ensures code { OnOk result
        (Adds (IsCode (owners_of owners.new.items) (sources_of patterns.new.items) filter.now)
        code.old.items code.new.items) }
    ensures owners { OnOk result (Grows (owners_of owners.old.items) (owners_of owners.new.items)) }
    ensures patterns { OnOk result (sources_of patterns.new.items
        ≡ sources_of patterns.old.items ++ patterns_of filter.now) }
{
    let Chain { first, mut above } = chain_of(alloc, filter)?;
    code_alone(alloc, first, owners, patterns, code)?;
    'above: while let Some(next) = above.pop() {
        code_joined(alloc, next, owners, patterns, code)?;
    }
    Ok(())
}

/// Appends what stands behind the code of a filter's left side.
#[cycle(code)]
fn code_joined<'f>(
    alloc: Global,
    filter: &'f Typed,
    owners: &mut Vec<Owner<'f>>,
    patterns: &mut Vec<&'f Pattern>,
    code: &mut Vec<Instr>,
) -> Result<(), NoMemory>
    requires { (part : TypedValue) × (left_of_filter filter.now ≡ Some part) }
    ensures code { OnOk result
        (Adds (CodeRight (owners_of owners.new.items) (sources_of patterns.new.items) filter.now)
        code.old.items code.new.items) }
    ensures owners { OnOk result (Grows (owners_of owners.old.items) (owners_of owners.new.items)) }
    ensures patterns { OnOk result (sources_of patterns.new.items
        ≡ sources_of patterns.old.items ++ patterns_right filter.now) }
{
    match filter {
        Typed::Either(_, right) => {
            let start = code.len();
            match code_for(alloc, right, owners, patterns, code) {
                Ok(()) => {
                    let passed = code.len() - start;
                    emit_at(code, start, Instr::JumpTrue(passed))
                }
                Err(NoMemory) => Err(NoMemory),
            }
        }
        Typed::Both(_, right) => {
            let start = code.len();
            match code_for(alloc, right, owners, patterns, code) {
                Ok(()) => {
                    let passed = code.len() - start;
                    emit_at(code, start, Instr::JumpFalse(passed))
                }
                Err(NoMemory) => Err(NoMemory),
            }
        }
        Typed::Differ(part, right) => {
            let register = own(owners, Owner::OfPart(part))?;
            emit(code, Instr::Save(register))?;
            code_for(alloc, right, owners, patterns, code)?;
            emit(code, Instr::Differ(register))
        }
        _ => unreachable!(),
    }
}

/// Appends the code for a filter that is no chain of signs.
#[cycle(code)]
fn code_alone<'f>(
    alloc: Global,
    filter: &'f Typed,
    owners: &mut Vec<Owner<'f>>,
    patterns: &mut Vec<&'f Pattern>,
    code: &mut Vec<Instr>,
) -> Result<(), NoMemory>
    requires { left_of_filter filter.now ≡ None }
    ensures code { OnOk result
        (Adds (IsCode (owners_of owners.new.items) (sources_of patterns.new.items) filter.now)
        code.old.items code.new.items) }
    ensures owners { OnOk result (Grows (owners_of owners.old.items) (owners_of owners.new.items)) }
    ensures patterns { OnOk result (sources_of patterns.new.items
        ≡ sources_of patterns.old.items ++ patterns_of filter.now) }
{
    match filter {
        Typed::Not(inner) => match code_for(alloc, inner, owners, patterns, code) {
            Ok(()) => emit(code, Instr::Not),
            Err(NoMemory) => Err(NoMemory),
        },
        Typed::Exists(term) => match load(alloc, Extreme::Least, term, owners, code) {
            Ok(_) => Ok(()),
            Err(NoMemory) => Err(NoMemory),
        },
        Typed::AnyBit(term) => match load(alloc, Extreme::Least, term, owners, code) {
            Ok(register) => emit(code, Instr::NonZero(register)),
            Err(NoMemory) => Err(NoMemory),
        },
        Typed::Compare(relation, choice, left, right) => {
            comparison(alloc, *relation, *choice, left, right, owners, code)
        }
        Typed::Among(negated, choice, term, members) => {
            membership(alloc, *negated, *choice, term, members, owners, code)
        }
        Typed::Matches(choice, term, pattern) => {
            search(alloc, *choice, term, pattern, owners, patterns, code)
        }
        Typed::Either(_, _) | Typed::Differ(_, _) | Typed::Both(_, _) => unreachable!(),
    }
}

/// Both sides, and their test.
fn comparison<'f>(
    alloc: Global,
    relation: Relation,
    choice: Choice,
    left: &'f Term,
    right: &'f Term,
    owners: &mut Vec<Owner<'f>>,
    code: &mut Vec<Instr>,
) -> Result<(), NoMemory>
    ensures code { OnOk result (Adds (Joins (LoadsTerm (owners_of owners.new.items) left.now)
        (LoadsTerm (owners_of owners.new.items) right.now)
        (λ l r. instr.Test choice relation l r)) code.old.items code.new.items) }
    ensures owners { OnOk result (Grows (owners_of owners.old.items) (owners_of owners.new.items)) }
{
    let left = load(alloc, Extreme::Least, left, owners, code)?;
    let right = load(alloc, Extreme::Least, right, owners, code)?;
    emit(code, Instr::Test(choice, relation, left, right))
}

/// A test of a set, and NOT behind `not in`.
fn membership<'f>(
    alloc: Global,
    negated: bool,
    choice: Choice,
    term: &'f Term,
    members: &[Member],
    owners: &mut Vec<Owner<'f>>,
    code: &mut Vec<Instr>,
) -> Result<(), NoMemory>
    ensures code { OnOk result
        (Adds (IsAmong (owners_of owners.new.items) term.now choice members.now negated)
        code.old.items code.new.items) }
    ensures owners { OnOk result (Grows (owners_of owners.old.items) (owners_of owners.new.items)) }
{
    let register = load(alloc, Extreme::Least, term, owners, code)?;
    emit(
        code,
        Instr::In(choice, register, copied_members(alloc, members)?),
    )?;
    if negated {
        return emit(code, Instr::Not);
    }
    Ok(())
}

/// A search for a pattern, which is named by its number.
fn search<'f>(
    alloc: Global,
    choice: Choice,
    term: &'f Term,
    pattern: &'f Pattern,
    owners: &mut Vec<Owner<'f>>,
    patterns: &mut Vec<&'f Pattern>,
    code: &mut Vec<Instr>,
) -> Result<(), NoMemory>
    ensures code { OnOk result
        (Adds (IsMatch (owners_of owners.new.items) (sources_of patterns.new.items)
        term.now choice pattern.now) code.old.items code.new.items) }
    ensures owners { OnOk result (Grows (owners_of owners.old.items) (owners_of owners.new.items)) }
    ensures patterns { OnOk result (sources_of patterns.new.items
        ≡ sources_of patterns.old.items ++ pattern.now ∷ []) }
{
    let register = load(alloc, Extreme::Least, term, owners, code)?;
    let number = patterns.len();
    patterns.push(pattern)?;
    emit(code, Instr::Match(choice, register, number))
}
