// The filter that is read where the tokens end.
ghost use Rattle.std.specs.Prelude.{None};
ghost use Rattle.flt_syntax.specs.Written.{operand_of, written};
ghost use Rattle.flt_parse.specs.Parser.Reading as reading;
ghost use Rattle.flt_parse.specs.Parser.States.{IsWhole, around_of, behind_of, frame_of, have_of, in_spot, side_of, state_of};

use crate::joins::{filled, join_all, refused};
use crate::links::link_all;
use crate::state::{Behind, Inside, Open, Refusal, Side, Spot, State};
use flt_syntax::{Ast, FilterReason, Operand, Tail};
use pk_base::NoMemory;
use std::alloc::Global;

/// The filter that is read where the tokens end.
#[tactic(auto, using(crate::proofs::Moves::part_not_whole))]
pub fn finish(alloc: Global, state: State) -> Result<Ast, Refusal>
    ensures { IsWhole (reading.whole (state_of state)) result }
{
    match state {
        State::Have(filled) => whole(alloc, filled),
        State::InOperand(spot, inside) => match spot {
            Spot::Read(operand) => whole_operand(alloc, operand, inside),
            Spot::Wanted => cut_off(inside),
            Spot::Within(part) => cut_off((part, inside)),
        },
        State::Want(outer) => cut_off(outer),
        State::InTail(spot, left) => cut_off((spot, left)),
    }
}

/// Where the tokens end too early: what was read is given up.
fn cut_off<T: Drop>(_read: T) -> Result<Ast, Refusal>
    ensures { IsWhole None result }
{
    Err(Refusal::Fault(FilterReason::Unexpected))
}

#[tactic(auto, using(crate::proofs::Stacks::reversed_push, crate::proofs::Moves::not_whole))]
fn whole(alloc: Global, filled: Behind) -> Result<Ast, Refusal>
    ensures { IsWhole (reading.whole (have_of filled)) result }
{
    let Behind {
        lefts,
        filter,
        around,
    } = filled;
    if !around.is_empty() {
        return cut_off((lefts, filter, around));
    }
    drop(around);
    match join_all(alloc, lefts, filter) {
        Ok(all) => Ok(all),
        Err(NoMemory) => Err(Refusal::NoMemory),
    }
}

#[tactic(auto, using(crate::proofs::Moves::call_not_whole))]
fn whole_operand(alloc: Global, operand: Operand, inside: Inside) -> Result<Ast, Refusal>
    ensures { IsWhole (reading.whole (in_spot (reading.OperandRead (operand_of operand)) inside))
        result }
{
    if !inside.calls.is_empty() {
        return cut_off((operand, inside));
    }
    let Inside {
        side,
        waiting,
        calls,
        outer,
    } = inside;
    drop(calls);
    match link_all(alloc, waiting, operand) {
        Ok(all) => whole_test(alloc, all, side, outer),
        Err(NoMemory) => refused(Refusal::NoMemory, (side, outer)),
    }
}

fn whole_test(alloc: Global, operand: Operand, side: Side, outer: Open) -> Result<Ast, Refusal>
    ensures { IsWhole (reading.whole_test (side_of side) (operand_of operand) (frame_of outer.frame)
        (around_of outer.around.items)) result }
{
    match side {
        Side::OnLeft(None) => whole_behind(alloc, Ast::Alone(operand), outer),
        Side::OnLeft(Some(_)) => cut_off((operand, outer)),
        Side::OnRight(choice, left, operator, at) => {
            let test = Ast::Test(choice, left, Tail::Compare(operator, at, operand));
            whole_behind(alloc, test, outer)
        }
    }
}

fn whole_behind(alloc: Global, test: Ast, outer: Open) -> Result<Ast, Refusal>
    ensures { IsWhole (reading.whole (behind_of outer (written test))) result }
{
    match filled(alloc, outer, test) {
        Ok(filled) => whole(alloc, filled),
        Err(NoMemory) => Err(Refusal::NoMemory),
    }
}
