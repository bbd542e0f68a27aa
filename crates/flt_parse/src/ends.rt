// One token further behind an operand that is whole.
ghost use Rattle.std.specs.Prelude.{◌≡◌, [], None, IfOk};
ghost use Rattle.flt_syntax.specs.Grammar.{takes_operator as may_take};
ghost use Rattle.flt_syntax.specs.Written.{CalledOf, operand_of};
ghost use Rattle.flt_parse.specs.Parser.Reading as reading;
ghost use Rattle.flt_parse.specs.Parser.States.{IsMove, call_end_in, call_of, left_alone_in, left_end_in, level_end_in, link_in, side_end_in, side_of, waiting_of};

use crate::joins::{behind_test, refused, unexpected};
use crate::links::{link_all, wait};
use crate::lists::{box_one, push_one};
use crate::operands::takes_more;
use crate::state::{
    Call, Inside, LeftSide, Link, Open, Refusal, Side, Spot, State, TailSpot, Waiting,
};
use crate::steps::begun;
use flt_syntax::{Ast, Choice, Function, Kind, Negation, Operand, Operator, Tail};
use pk_base::NoMemory;
use std::alloc::Global;
use std::mem;

/// Behind an operand and its sign or comma.
pub fn behind_link(
    alloc: Global,
    link: Link,
    operand: Operand,
    inside: Inside,
) -> Result<State, Refusal>
    ensures { IsMove (reading.Go (link_in link (operand_of operand) inside)) result }
{
    let mut behind = inside;
    match wait(alloc, link, &mut behind.waiting, operand) {
        Ok(()) => Ok(State::InOperand(Spot::Wanted, behind)),
        Err(NoMemory) => refused(Refusal::NoMemory, behind),
    }
}

/// At a token, other than a sign, behind an operand.
#[tactic(auto, using(crate::proofs::Stacks::reversed_push))]
pub fn level_end(
    alloc: Global,
    operand: Operand,
    inside: Inside,
    kind: &Kind,
) -> Result<State, Refusal>
    ensures { IsMove (level_end_in (operand_of operand) inside kind.now) result }
{
    let mut inside = inside;
    let Some(call) = inside.calls.pop() else {
        return calls_end(alloc, operand, inside, kind);
    };
    match kind {
        Kind::Close => close_call(alloc, call, operand, inside),
        Kind::Comma => next_argument(alloc, call, operand, inside),
        _ => unexpected((call, operand, inside)),
    }
}

/// At a token behind an operand around which no call is open.
fn calls_end(alloc: Global, operand: Operand, inside: Inside, kind: &Kind) -> Result<State, Refusal>
    requires { inside.calls.items ≡ [] }
    ensures { IsMove (level_end_in (operand_of operand) inside kind.now) result }
{
    let Inside {
        side,
        waiting,
        calls,
        outer,
    } = inside;
    drop(calls);
    match link_all(alloc, waiting, operand) {
        Ok(all) => side_end(alloc, side, all, outer, kind),
        Err(NoMemory) => refused(Refusal::NoMemory, (side, outer)),
    }
}

/// Behind the `)` of a call.
fn close_call(alloc: Global, call: Call, operand: Operand, inside: Inside) -> Result<State, Refusal>
    ensures { IsMove (call_end_in (call_of call) (operand_of operand) inside Kind.Close) result }
{
    let mut outside = inside;
    let waiting = mem::replace(&mut outside.waiting, call.waiting);
    match called(alloc, call.function, call.at, waiting, operand) {
        Ok(called) => Ok(State::InOperand(Spot::Read(called), outside)),
        Err(NoMemory) => refused(Refusal::NoMemory, outside),
    }
}

/// A call, whose last argument stands behind the operands that wait.
fn called(
    alloc: Global,
    function: Function,
    at: u32,
    waiting: Vec<Waiting>,
    operand: Operand,
) -> Result<Operand, NoMemory>
    ensures { IfOk result (λ o. operand_of o ≡ CalledOf function at
        (reading.all_linked (waiting_of waiting.items) (operand_of operand))) }
{
    let argument = link_all(alloc, waiting, operand)?;
    Ok(Operand::Called(function, at, box_one(alloc, argument)?))
}

/// Behind the comma after an argument.
#[tactic(auto, using(crate::proofs::Stacks::reversed_push, crate::proofs::Moves::more_taken, crate::proofs::Moves::none_taken))]
fn next_argument(
    alloc: Global,
    call: Call,
    operand: Operand,
    inside: Inside,
) -> Result<State, Refusal>
    ensures { IsMove (call_end_in (call_of call) (operand_of operand) inside Kind.Comma) result }
{
    if !takes_more(call.function) {
        return unexpected((call, operand, inside));
    }
    let mut inside = inside;
    match push_one(&mut inside.calls, call) {
        Ok(()) => behind_link(alloc, Link::Comma, operand, inside),
        Err(NoMemory) => refused(Refusal::NoMemory, (operand, inside)),
    }
}

/// At a token behind the left or the right operand.
fn side_end(
    alloc: Global,
    side: Side,
    operand: Operand,
    outer: Open,
    kind: &Kind,
) -> Result<State, Refusal>
    ensures { IsMove (side_end_in (side_of side) (operand_of operand) outer kind.now) result }
{
    match side {
        Side::OnLeft(choice) => {
            let left = LeftSide {
                choice,
                operand,
                outer,
            };
            left_end(alloc, left, kind)
        }
        Side::OnRight(choice, left, operator, at) => {
            let test = Ast::Test(choice, left, Tail::Compare(operator, at, operand));
            behind_test(alloc, outer, test, kind)
        }
    }
}

/// At a token behind a left operand.
fn left_end(alloc: Global, left: LeftSide, kind: &Kind) -> Result<State, Refusal>
    ensures { IsMove (left_end_in left kind.now) result }
{
    match kind {
        Kind::Compares(operator, at) => compare(alloc, left, *operator, *at),
        Kind::Negates(Negation::Word) => Ok(State::InTail(TailSpot::InWanted, left)),
        Kind::Negates(Negation::Sign) => unexpected(left),
        Kind::In => Ok(State::InTail(TailSpot::SetWanted(false), left)),
        Kind::Matches(at) => Ok(State::InTail(TailSpot::PatternWanted(*at), left)),
        _ => alone(alloc, left, kind),
    }
}

/// At a token behind a test that has a left operand alone, which one with `any` or `all` can't be.
fn alone(alloc: Global, left: LeftSide, kind: &Kind) -> Result<State, Refusal>
    ensures { IsMove (left_alone_in left kind.now) result }
{
    match left.choice {
        None => {
            let LeftSide { operand, outer, .. } = left;
            behind_test(alloc, outer, Ast::Alone(operand), kind)
        }
        Some(_) => unexpected(left),
    }
}

/// Behind an operator.
#[tactic(auto, using(crate::proofs::Moves::takes_open, crate::proofs::Moves::takes_none))]
fn compare(alloc: Global, left: LeftSide, operator: Operator, at: u32) -> Result<State, Refusal>
    ensures { IsMove (left_end_in left (Kind.Compares operator at)) result }
{
    if !takes_operator(left.choice, operator) {
        return unexpected(left);
    }
    let LeftSide {
        choice,
        operand,
        outer,
    } = left;
    let side = Side::OnRight(choice, operand, operator, at);
    Ok(State::InOperand(Spot::Wanted, begun(alloc, side, outer)))
}

/// Whether an operator stands behind a left operand: behind `any` and `all` only one that says nothing yet of which
/// pairs it asks.
fn takes_operator(choice: Option<Choice>, operator: Operator) -> bool
    ensures { result ≡ may_take choice operator }
{
    if choice.is_none() {
        return true;
    }
    match operator {
        Operator::AnyEqual | Operator::AllUnequal | Operator::AllEqual | Operator::AnyUnequal =>
            false,
        _ => true,
    }
}
