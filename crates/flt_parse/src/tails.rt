// What follows the left operand of a test but for an operator: `in` and a set, or a pattern, token by token.
ghost use Rattle.std.specs.Prelude.{◌++◌, [], ◌∷◌, Some, None, true};
ghost use Rattle.flt_parse.specs.Parser.Reading as reading;
ghost use Rattle.flt_parse.specs.Parser.States.{IsTailMove, tail_spot_of};
ghost use Rattle.flt_syntax.specs.Written.{InOf};

use crate::joins::{let_go, refused};
use crate::lists::push_one;
use crate::state::{ElementSpot, Refusal, TailMove, TailSpot};
use flt_syntax::{Element, Kind, Literal, Tail};
use pk_base::NoMemory;
use std::alloc::Global;

pub fn tail_step(alloc: Global, spot: TailSpot, kind: Kind) -> Result<TailMove, Refusal>
    ensures { IsTailMove (reading.tail_step (tail_spot_of spot) kind)
        (reading.tail_done (tail_spot_of spot) kind) result }
{
    match spot {
        TailSpot::PatternWanted(at) => pattern_wanted(at, kind),
        TailSpot::InSet(negated, done, spot) => match spot {
            ElementSpot::ElementWanted => element_wanted(negated, done, kind),
            ElementSpot::SecondWanted(first) => second_wanted(negated, done, first, kind),
            ElementSpot::LiteralRead(first) => {
                let next = literal_read(negated, done, first, &kind);
                let_go(kind);
                next
            }
            ElementSpot::SecondRead(first, second) => {
                let next = second_read(negated, done, first, second, &kind);
                let_go(kind);
                next
            }
        },
        TailSpot::InWanted => {
            let next = in_wanted(&kind);
            let_go(kind);
            next
        }
        TailSpot::SetWanted(negated) => {
            let next = set_wanted(alloc, negated, &kind);
            let_go(kind);
            next
        }
    }
}

/// Behind `not`.
fn in_wanted(kind: &Kind) -> Result<TailMove, Refusal>
    ensures { IsTailMove (reading.tail_step reading.InWanted kind.now)
        (reading.tail_done reading.InWanted kind.now) result }
{
    match kind {
        Kind::In => Ok(TailMove::Further(TailSpot::SetWanted(true))),
        _ => Ok(TailMove::Wrong),
    }
}

/// Behind `in`.
fn set_wanted(alloc: Global, negated: bool, kind: &Kind) -> Result<TailMove, Refusal>
    ensures { IsTailMove (reading.tail_step (reading.SetWanted negated) kind.now)
        (reading.tail_done (reading.SetWanted negated) kind.now) result }
{
    match kind {
        Kind::OpenBrace => Ok(TailMove::Further(TailSpot::InSet(
            negated,
            Vec::new(alloc),
            ElementSpot::ElementWanted,
        ))),
        _ => Ok(TailMove::Wrong),
    }
}

/// Behind `matches`.
fn pattern_wanted(at: u32, kind: Kind) -> Result<TailMove, Refusal>
    ensures { IsTailMove (reading.tail_step (reading.PatternWanted at) kind)
        (reading.tail_done (reading.PatternWanted at) kind) result }
{
    match kind {
        Kind::Text(quote) => Ok(TailMove::Done(Tail::Matches(at, quote))),
        _ => wrong(kind),
    }
}

fn element_wanted(negated: bool, done: Vec<Element>, kind: Kind) -> Result<TailMove, Refusal>
    ensures { IsTailMove (reading.tail_step
        (reading.InSet negated done.items reading.ElementWanted) kind)
        (reading.tail_done (reading.InSet negated done.items reading.ElementWanted) kind) result }
{
    match kind {
        Kind::Name(word) => in_element(
            negated,
            done,
            ElementSpot::LiteralRead(Literal::Bare(word)),
        ),
        Kind::Text(quote) => in_element(
            negated,
            done,
            ElementSpot::LiteralRead(Literal::Text(quote)),
        ),
        _ => wrong((done, kind)),
    }
}

fn literal_read(
    negated: bool,
    done: Vec<Element>,
    first: Literal,
    kind: &Kind,
) -> Result<TailMove, Refusal>
    ensures { IsTailMove (reading.tail_step
        (reading.InSet negated done.items (reading.LiteralRead first)) kind.now)
        (reading.tail_done (reading.InSet negated done.items (reading.LiteralRead first)) kind.now)
        result }
{
    match kind {
        Kind::DotDot => in_element(negated, done, ElementSpot::SecondWanted(first)),
        Kind::Comma => next_element(negated, done, Element::One(first)),
        Kind::CloseBrace => all_elements(negated, done, Element::One(first)),
        _ => wrong((done, first)),
    }
}

fn second_wanted(
    negated: bool,
    done: Vec<Element>,
    first: Literal,
    kind: Kind,
) -> Result<TailMove, Refusal>
    ensures { IsTailMove (reading.tail_step
        (reading.InSet negated done.items (reading.SecondWanted first)) kind)
        (reading.tail_done (reading.InSet negated done.items (reading.SecondWanted first)) kind)
        result }
{
    match kind {
        Kind::Name(word) => in_element(
            negated,
            done,
            ElementSpot::SecondRead(first, Literal::Bare(word)),
        ),
        Kind::Text(quote) => in_element(
            negated,
            done,
            ElementSpot::SecondRead(first, Literal::Text(quote)),
        ),
        _ => wrong((done, first, kind)),
    }
}

fn second_read(
    negated: bool,
    done: Vec<Element>,
    first: Literal,
    second: Literal,
    kind: &Kind,
) -> Result<TailMove, Refusal>
    ensures { IsTailMove (reading.tail_step
        (reading.InSet negated done.items (reading.SecondRead first second)) kind.now)
        (reading.tail_done (reading.InSet negated done.items (reading.SecondRead first second))
        kind.now) result }
{
    match kind {
        Kind::Comma => next_element(negated, done, Element::Between(first, second)),
        Kind::CloseBrace => all_elements(negated, done, Element::Between(first, second)),
        _ => wrong((done, first, second)),
    }
}

/// Where a token isn't read: what was read before it is given up.
fn wrong<T: Drop>(_read: T) -> Result<TailMove, Refusal>
    ensures { IsTailMove None None result }
{
    Ok(TailMove::Wrong)
}

/// A spot in the same element.
fn in_element(negated: bool, done: Vec<Element>, spot: ElementSpot) -> Result<TailMove, Refusal>
    ensures { IsTailMove (Some (reading.InSet negated done.items spot)) None result }
{
    Ok(TailMove::Further(TailSpot::InSet(negated, done, spot)))
}

/// Behind the comma after an element.
fn next_element(negated: bool, done: Vec<Element>, element: Element) -> Result<TailMove, Refusal>
    ensures { IsTailMove (Some
        (reading.InSet negated (done.items ++ element ∷ []) reading.ElementWanted)) None result }
{
    let mut done = done;
    match push_one(&mut done, element) {
        Ok(()) => Ok(TailMove::Further(TailSpot::InSet(negated, done, ElementSpot::ElementWanted))),
        Err(NoMemory) => refused(Refusal::NoMemory, done),
    }
}

/// Behind the `}` after an element.
fn all_elements(negated: bool, done: Vec<Element>, element: Element) -> Result<TailMove, Refusal>
    ensures { IsTailMove None (Some (InOf negated (done.items ++ element ∷ []))) result }
{
    let mut done = done;
    match push_one(&mut done, element) {
        Ok(()) => Ok(TailMove::Done(Tail::In(negated, done))),
        Err(NoMemory) => refused(Refusal::NoMemory, done),
    }
}
