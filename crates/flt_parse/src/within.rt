// One token further within an operand.
ghost use Rattle.std.specs.Prelude.{◌≡◌, [], None, Option};
ghost use Rattle.flt_syntax.specs.Written.{operand_of};
ghost use Rattle.flt_parse.specs.Parser.Reading as reading;
ghost use Rattle.flt_parse.specs.Parser.States.{IsMove, IsSpot, further_in, step_in};

use crate::ends::{behind_link, level_end};
use crate::joins::{has_room, refused, unexpected};
use crate::lists::push_one;
use crate::operands::{takes_mask, takes_slice};
use crate::state::{Call, Inside, Link, Part, RangeSpot, Refusal, Slice, Spot, State};
use flt_syntax::{FilterReason, Function, Kind, Operand};
use pk_base::NoMemory;
use std::alloc::Global;
use std::mem;

/// Where an operand is wanted.
pub fn wanted(alloc: Global, inside: Inside, kind: Kind) -> Result<State, Refusal>
    ensures { IsMove (step_in reading.OperandWanted inside kind) result }
{
    match kind {
        Kind::Calls(function, at) => open_call(alloc, inside, function, at),
        Kind::Text(quote) => Ok(State::InOperand(Spot::Read(Operand::Text(quote)), inside)),
        Kind::Name(word) => Ok(State::InOperand(Spot::Read(Operand::Named(word)), inside)),
        _ => unexpected((inside, kind)),
    }
}

/// Behind a function and its `(`.
#[tactic(auto, using(crate::proofs::Stacks::reversed_push, crate::proofs::Stacks::length_reversed))]
fn open_call(alloc: Global, inside: Inside, function: Function, at: u32) -> Result<State, Refusal>
    ensures { IsMove (step_in reading.OperandWanted inside (Kind.Calls function at)) result }
{
    if !has_room(inside.calls.len(), &inside.outer) {
        return refused(Refusal::Fault(FilterReason::TooDeep), inside);
    }
    let mut inner = inside;
    let waiting = mem::replace(&mut inner.waiting, Vec::new(alloc));
    let call = Call {
        function,
        at,
        waiting,
    };
    match push_one(&mut inner.calls, call) {
        Ok(()) => Ok(State::InOperand(Spot::Wanted, inner)),
        Err(NoMemory) => refused(Refusal::NoMemory, inner),
    }
}

/// Further on in an operand, if the token goes on with it.
#[tactic(auto, using(crate::proofs::Moves::spot_error, crate::proofs::Moves::further_some, crate::proofs::Moves::further_none))]
pub fn on_if(next: Result<Option<Spot>, Refusal>, inside: Inside) -> Result<State, Refusal>
    ensures { (n : Option reading.Spot) → IsSpot n next → IsMove (further_in n inside) result }
{
    match next {
        Ok(Some(spot)) => Ok(State::InOperand(spot, inside)),
        Ok(None) => unexpected(inside),
        Err(error) => refused(error, inside),
    }
}

/// Behind an operand that is whole, as far as it is read.
pub fn read(alloc: Global, operand: Operand, inside: Inside, kind: &Kind) -> Result<State, Refusal>
    ensures { IsMove (step_in (reading.OperandRead (operand_of operand)) inside kind.now) result }
{
    match kind {
        Kind::Hash => layers_of(operand, inside),
        Kind::OpenRanges(at, next) => slice_of(alloc, operand, *at, *next, inside),
        Kind::Mask(at) => mask_of(operand, *at, inside),
        Kind::Computes(arithmetic, at) => behind_link(
            alloc,
            Link::Sign(*arithmetic, *at),
            operand,
            inside,
        ),
        _ => level_end(alloc, operand, inside, kind),
    }
}

/// Behind an operand and `#`.
#[tactic(auto, using(crate::proofs::Moves::layers_begun, crate::proofs::Moves::no_layers))]
fn layers_of(operand: Operand, inside: Inside) -> Result<State, Refusal>
    ensures { IsMove (step_in (reading.OperandRead (operand_of operand)) inside Kind.Hash) result }
{
    match operand.into_word() {
        Some(word) => {
            let spot = Spot::Within(Part::LayersWanted(word));
            Ok(State::InOperand(spot, inside))
        }
        None => unexpected(inside),
    }
}

/// Behind an operand and `[`.
#[tactic(auto, using(crate::proofs::Moves::slice_begun, crate::proofs::Moves::no_slice))]
fn slice_of(
    alloc: Global,
    operand: Operand,
    bracket: u32,
    next: u32,
    inside: Inside,
) -> Result<State, Refusal>
    ensures { IsMove (step_in (reading.OperandRead (operand_of operand)) inside
        (Kind.OpenRanges bracket next)) result }
{
    if !takes_slice(&operand) {
        return unexpected((operand, inside));
    }
    let slice = Slice {
        operand,
        bracket,
        done: Vec::new(alloc),
    };
    let spot = Spot::Within(Part::InRanges(slice, next, RangeSpot::RangeWanted));
    Ok(State::InOperand(spot, inside))
}

/// Behind an operand and `&`.
#[tactic(auto, using(crate::proofs::Moves::mask_begun, crate::proofs::Moves::no_mask))]
fn mask_of(operand: Operand, at: u32, inside: Inside) -> Result<State, Refusal>
    ensures { IsMove (step_in (reading.OperandRead (operand_of operand)) inside (Kind.Mask at))
        result }
{
    if !takes_mask(&operand) {
        return unexpected((operand, inside));
    }
    let spot = Spot::Within(Part::MaskWanted(operand, at));
    Ok(State::InOperand(spot, inside))
}
