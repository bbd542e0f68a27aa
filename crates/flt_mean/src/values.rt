// The values of a term in a tree.
ghost use Rattle.std.specs.Prelude.{◌≡◌, ◌++◌, None, IfOk};
ghost use Rattle.flt_mean.specs.Joined.{values_with};
ghost use Rattle.flt_mean.specs.Values.{values_of_term};
ghost use Rattle.flt_chains.specs.Parts.{left_of_term};

use flt_chains::{Chain, chain_of};
use flt_lists::{calculated_values, called_values, masked_values, only, slices};
use flt_typed::Term;
use pk_base::{NoMemory, Value};
use pk_tree::Tree;
use std::alloc::Global;

/// The values of a term in a tree. They share their bytes with it. What signs and commas join is asked one after the
/// other, so that no call nests as deep as they do.
#[cycle(values)]
pub(crate) fn values_of_term(
    alloc: Global,
    term: &Term,
    tree: &Tree,
) -> Result<Vec<Value>, NoMemory>
    ensures { IfOk result (λ values. values.items ≡ values_of_term term.now tree.now) }
{
    let Chain { first, mut above } = chain_of(alloc, term)?;
    let mut values = values_of_part(alloc, first, tree)?;
    'above: while let Some(next) = above.pop() {
        values = values_joined(alloc, values, next, tree)?;
    }
    Ok(values)
}

/// The values of a term whose parts no sign or comma joins.
#[cycle(values)]
fn values_of_part(alloc: Global, term: &Term, tree: &Tree) -> Result<Vec<Value>, NoMemory>
    requires { left_of_term term.now ≡ None }
    ensures { IfOk result (λ values. values.items ≡ values_of_term term.now tree.now) }
{
    match term {
        Term::Constant(constant) => only(alloc, constant.value.clone()?),
        Term::Field(field, layers) => tree.values(*field, layers),
        Term::Slice(term, ranges) => {
            let values = values_of_term(alloc, term, tree)?;
            slices(alloc, &values, ranges)
        }
        Term::Mask(term, mask) => {
            let values = values_of_term(alloc, term, tree)?;
            masked_values(alloc, &values, *mask)
        }
        Term::Called(function, term) => {
            let values = values_of_term(alloc, term, tree)?;
            called_values(alloc, *function, &values)
        }
        Term::Computed(_, _, _) | Term::Arguments(_, _) => unreachable!(),
    }
}

/// The values of what a sign or comma joins, by those of its left part.
#[cycle(values)]
fn values_joined(
    alloc: Global,
    left: Vec<Value>,
    term: &Term,
    tree: &Tree,
) -> Result<Vec<Value>, NoMemory>
    ensures { IfOk result (λ values. values.items ≡ values_with term.now left.items tree.now) }
{
    match term {
        Term::Computed(operation, _, right) => {
            let right = values_of_term(alloc, right, tree)?;
            calculated_values(alloc, *operation, &left, &right)
        }
        Term::Arguments(_, right) => {
            let right = values_of_term(alloc, right, tree)?;
            beside(left, right)
        }
        _ => Ok(left),
    }
}

/// The values of two lists, one behind the other.
fn beside(left: Vec<Value>, right: Vec<Value>) -> Result<Vec<Value>, NoMemory>
    ensures { IfOk result (λ all. all.items ≡ left.items ++ right.items) }
{
    let mut all = left;
    let mut right = right;
    all.append(&mut right)?;
    Ok(all)
}
