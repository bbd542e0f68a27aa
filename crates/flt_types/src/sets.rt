// The sets of `in`.
ghost use Rattle.std.specs.Prelude.{IfOk, IfErr};
ghost use Rattle.flt_syntax.specs.declared.ast.Element.TheVariants.{Between};
ghost use Rattle.flt_typing.specs.Typing.{AreMembers, IsMember};
ghost use Rattle.flt_types.specs.Faults.{IsAnswer, element_faults, elements_faults};

use crate::literals::{element, range_end};
use crate::owned::refused;
use flt_syntax::{Element, FilterError, Literal};
use flt_typed::Member;
use pk_fields::ValueKind;
use std::alloc::Global;

/// The members of a set, for a left operand of a kind.
pub(crate) fn members(
    alloc: Global,
    kind: ValueKind,
    elements: &[Element],
) -> Result<Vec<Member>, FilterError>
    ensures ok { IfOk result (λ members. AreMembers kind elements.now members.items) }
    ensures err { IfErr result (IsAnswer (elements_faults kind elements.now)) }
{
    let mut members = Vec::with_capacity(alloc, elements.len())?;
    for element in elements {
        match member(alloc, kind, element) {
            Ok(member) => members.push(member)?,
            Err(error) => return refused(error, members),
        }
    }
    Ok(members)
}

fn member(alloc: Global, kind: ValueKind, written: &Element) -> Result<Member, FilterError>
    ensures ok { IfOk result (IsMember kind written.now) }
    ensures err { IfErr result (IsAnswer (element_faults kind written.now)) }
{
    match written {
        Element::One(literal) => Ok(Member::One(element(alloc, kind, literal)?)),
        Element::Between(low, high) => range(alloc, kind, low, high),
    }
}

/// A range of a set.
#[tactic(auto, using(crate::proofs::Answers::answer_left, crate::proofs::Answers::answer_right, crate::proofs::Clear::reading_clear))]
fn range(
    alloc: Global,
    kind: ValueKind,
    low: &Literal,
    high: &Literal,
) -> Result<Member, FilterError>
    ensures ok { IfOk result (IsMember kind (Between low.now high.now)) }
    ensures err { IfErr result (IsAnswer (element_faults kind (Between low.now high.now))) }
{
    let first = range_end(alloc, kind, low)?;
    match range_end(alloc, kind, high) {
        Ok(last) => Ok(Member::Between(first, last)),
        Err(error) => refused(error, first),
    }
}
