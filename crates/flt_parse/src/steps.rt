// One token further: what the parser's state becomes, or why the token isn't read.
ghost use Rattle.std.specs.Prelude.{◌≡◌, [], false};
ghost use Rattle.flt_syntax.specs.Filters.{most_open};
ghost use Rattle.flt_parse.specs.Parser.Answers.{begins_more};
ghost use Rattle.flt_parse.specs.Parser.Reading as reading;
ghost use Rattle.flt_parse.specs.Parser.States.{IsMove, state_of, want, in_tail as at_tail, tail_spot_of};

use crate::joins::{behind, has_room, have, let_go, refused, unexpected};
use crate::lists::push_one;
use crate::operands::part_step;
use crate::state::{Frame, Inside, LeftSide, Open, Refusal, Side, Spot, State, TailMove, TailSpot};
use crate::tails::tail_step;
use crate::within::{on_if, read, wanted};
use flt_syntax::{Ast, FilterReason, Kind, Negation};
use pk_base::NoMemory;
use std::alloc::Global;
use std::mem;

/// The state behind a token.
#[tactic(auto, using(crate::proofs::Moves::within))]
pub fn step(alloc: Global, state: State, kind: Kind) -> Result<State, Refusal>
    ensures { IsMove (reading.step most_open (state_of state) kind) result }
{
    match state {
        State::Want(outer) => begin(alloc, outer, kind),
        State::Have(filled) => {
            let next = behind(alloc, filled, &kind);
            let_go(kind);
            next
        }
        State::InOperand(spot, inside) => match spot {
            Spot::Wanted => wanted(alloc, inside, kind),
            Spot::Within(part) => on_if(part_step(alloc, part, kind), inside),
            Spot::Read(operand) => {
                let next = read(alloc, operand, inside, &kind);
                let_go(kind);
                next
            }
        },
        State::InTail(spot, left) => in_tail(alloc, spot, left, kind),
    }
}

/// Where a filter begins.
fn begin(alloc: Global, outer: Open, kind: Kind) -> Result<State, Refusal>
    ensures { IsMove (reading.step most_open (want outer) kind) result }
{
    match kind {
        Kind::Negates(negation) => open_not(outer, negation),
        Kind::Open => open_group(alloc, outer),
        Kind::Chooses(choice) => {
            let inside = begun(alloc, Side::OnLeft(Some(choice)), outer);
            Ok(State::InOperand(Spot::Wanted, inside))
        }
        _ => begin_test(alloc, outer, kind),
    }
}

/// Behind `not`.
#[tactic(auto, using(crate::proofs::Stacks::reversed_push, crate::proofs::Moves::no_calls))]
fn open_not(outer: Open, negation: Negation) -> Result<State, Refusal>
    ensures { IsMove (reading.step most_open (want outer) (Kind.Negates negation)) result }
{
    if !has_room(0, &outer) {
        return refused(Refusal::Fault(FilterReason::TooDeep), outer);
    }
    let mut inner = outer;
    match push_one(&mut inner.frame.nots, negation) {
        Ok(()) => Ok(State::Want(inner)),
        Err(NoMemory) => refused(Refusal::NoMemory, inner),
    }
}

/// Behind `(`.
#[tactic(auto, using(crate::proofs::Stacks::reversed_push, crate::proofs::Moves::no_calls))]
fn open_group(alloc: Global, outer: Open) -> Result<State, Refusal>
    ensures { IsMove (reading.step most_open (want outer) Kind.Open) result }
{
    if !has_room(0, &outer) {
        return refused(Refusal::Fault(FilterReason::TooDeep), outer);
    }
    let mut inner = outer;
    let frame = mem::replace(&mut inner.frame, no_frame(alloc));
    match push_one(&mut inner.around, frame) {
        Ok(()) => Ok(State::Want(inner)),
        Err(NoMemory) => refused(Refusal::NoMemory, inner),
    }
}

/// Parentheses in which nothing is read.
pub fn no_frame(alloc: Global) -> Frame
    ensures { (result.lefts.items ≡ []) × (result.nots.items ≡ []) }
{
    Frame {
        lefts: Vec::new(alloc),
        nots: Vec::new(alloc),
    }
}

/// Where a test without `any` and `all` begins.
fn begin_test(alloc: Global, outer: Open, kind: Kind) -> Result<State, Refusal>
    requires { begins_more kind ≡ false }
    ensures { IsMove (reading.step most_open (want outer) kind) result }
{
    wanted(alloc, begun(alloc, Side::OnLeft(None), outer), kind)
}

/// Where an operand begins.
pub fn begun(alloc: Global, side: Side, outer: Open) -> Inside
    ensures { (result.side ≡ side) × (result.waiting.items ≡ []) × (result.calls.items ≡ [])
        × (result.outer ≡ outer) }
{
    Inside {
        side,
        waiting: Vec::new(alloc),
        calls: Vec::new(alloc),
        outer,
    }
}

/// In what follows a left operand.
#[tactic(auto, using(crate::proofs::Moves::tail_further, crate::proofs::Moves::tail_ended, crate::proofs::Moves::tail_wrong, crate::proofs::Moves::tail_error))]
fn in_tail(alloc: Global, spot: TailSpot, left: LeftSide, kind: Kind) -> Result<State, Refusal>
    ensures { IsMove (reading.step most_open (at_tail (tail_spot_of spot) left) kind) result }
{
    match tail_step(alloc, spot, kind) {
        Ok(TailMove::Further(next)) => Ok(State::InTail(next, left)),
        Ok(TailMove::Done(tail)) => {
            let LeftSide {
                choice,
                operand,
                outer,
            } = left;
            have(alloc, outer, Ast::Test(choice, operand, tail))
        }
        Ok(TailMove::Wrong) => unexpected(left),
        Err(error) => refused(error, left),
    }
}
