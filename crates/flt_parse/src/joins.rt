// Filters joined by signs, negated, and put in parentheses.
ghost use Rattle.std.specs.Prelude.{◌≡◌, ◌+◌, Err, nat_lt, IfOk, OnOk};
ghost use Rattle.flt_syntax.specs.Filters.{most_open};
ghost use Rattle.flt_syntax.specs.Grammar.{binds as binding};
ghost use Rattle.flt_parse.specs.Parser.Reading as reading;
ghost use Rattle.flt_parse.specs.Parser.States.{IsBehind, IsMove, around_of, behind_in, behind_of, frame_of, left_of, reversed};
ghost use Rattle.flt_syntax.specs.Written.{GroupOf, JoinedOf, written};

use crate::lists::{box_one, box_two, push_one, push_two};
use crate::state::{Behind, Frame, Left, Open, Refusal, State};
use flt_syntax::{Ast, FilterReason, Join, Kind, Negation};
use pk_base::{FILTER_DEPTH_LIMIT, NoMemory};
use std::alloc::Global;

/// How strongly a sign binds. A sign that is to bind between two others takes a number between theirs.
fn binds(join: Join) -> u32
    ensures { result ≡ binding join }
{
    match join {
        Join::Or => 10,
        Join::Xor => 20,
        Join::And => 30,
    }
}

/// A filter that waited, joined with what stands to the right of its sign.
fn join_left(alloc: Global, left: Left, right: Ast) -> Result<Ast, NoMemory>
    ensures { IfOk result (λ t.
        written t ≡ JoinedOf left.join (written left.filter) (written right)) }
{
    match box_two(alloc, left.filter, right) {
        Ok((l, r)) => match left.join {
            Join::Or => Ok(Ast::Or(l, r)),
            Join::Xor => Ok(Ast::Xor(l, r)),
            Join::And => Ok(Ast::And(l, r)),
        },
        Err(NoMemory) => Err(NoMemory),
    }
}

/// All that waits, joined.
#[tactic(auto, using(crate::proofs::Stacks::reversed_push))]
pub fn join_all(alloc: Global, lefts: Vec<Left>, filter: Ast) -> Result<Ast, NoMemory>
    ensures { IfOk result (λ t.
        written t ≡ reading.joined (reversed left_of lefts.items) (written filter)) }
{
    let mut rest = lefts;
    let mut all = filter;
    'lefts: while let Some(left) = rest.pop() {
        all = match join_left(alloc, left, all) {
            Ok(joined) => joined,
            Err(NoMemory) => {
                let_go(rest);
                return Err(NoMemory);
            }
        };
    }
    Ok(all)
}

/// What waits behind a sign: what binds at least as tightly before it is joined.
#[tactic(auto, using(crate::proofs::Stacks::reversed_push, crate::proofs::Stacks::settle_looser, crate::proofs::Stacks::settle_tighter))]
pub fn settle(alloc: Global, join: Join, lefts: &mut Vec<Left>, filter: Ast) -> Result<(), NoMemory>
    ensures { OnOk result (reversed left_of lefts.new.items
        ≡ reading.settle join (reversed left_of lefts.old.items) (written filter)) }
{
    let mut all = filter;
    'lefts: while let Some(left) = lefts.pop() {
        if binds(left.join) < binds(join) {
            return push_two(lefts, left, Left { filter: all, join });
        }
        all = match join_left(alloc, left, all) {
            Ok(joined) => joined,
            Err(NoMemory) => return Err(NoMemory),
        };
    }
    push_one(lefts, Left { filter: all, join })
}

/// A filter behind its negations.
#[tactic(auto, using(crate::proofs::Stacks::reversed_push))]
pub fn negate(alloc: Global, nots: Vec<Negation>, filter: Ast) -> Result<Ast, NoMemory>
    ensures { IfOk result (λ t.
        written t ≡ reading.negated (reversed (λ n. n) nots.items) (written filter)) }
{
    let mut rest = nots;
    let mut all = filter;
    'nots: while let Some(negation) = rest.pop() {
        all = match box_one(alloc, all) {
            Ok(inner) => Ast::Not(negation, inner),
            Err(NoMemory) => {
                let_go(rest);
                return Err(NoMemory);
            }
        };
    }
    Ok(all)
}

/// What a filter becomes behind its negations, with what waits before it and what is open around it.
pub fn filled(alloc: Global, outer: Open, filter: Ast) -> Result<Behind, NoMemory>
    ensures { IfOk result (IsBehind outer (written filter)) }
{
    let Open { frame, around } = outer;
    let Frame { lefts, nots } = frame;
    match negate(alloc, nots, filter) {
        Ok(filter) => Ok(Behind {
            lefts,
            filter,
            around,
        }),
        Err(NoMemory) => {
            let_go((lefts, around));
            Err(NoMemory)
        }
    }
}

/// Behind a filter in parentheses, or in none.
pub fn have(alloc: Global, outer: Open, filter: Ast) -> Result<State, Refusal>
    ensures { IsMove (reading.Go (behind_of outer (written filter))) result }
{
    match filled(alloc, outer, filter) {
        Ok(behind) => Ok(State::Have(behind)),
        Err(NoMemory) => Err(Refusal::NoMemory),
    }
}

/// At a token behind a filter.
pub fn behind(alloc: Global, behind: Behind, kind: &Kind) -> Result<State, Refusal>
    ensures { IsMove (behind_in behind kind.now) result }
{
    match kind {
        Kind::Joins(join) => join_at(alloc, *join, behind),
        Kind::Close => close(alloc, behind),
        _ => {
            let Behind {
                lefts,
                filter,
                around,
            } = behind;
            unexpected((lefts, filter, around))
        }
    }
}

fn join_at(alloc: Global, join: Join, behind: Behind) -> Result<State, Refusal>
    ensures { IsMove (behind_in behind (Kind.Joins join)) result }
{
    let Behind {
        mut lefts,
        filter,
        around,
    } = behind;
    match settle(alloc, join, &mut lefts, filter) {
        Ok(()) => {
            let frame = Frame {
                lefts,
                nots: Vec::new(alloc),
            };
            Ok(State::Want(Open { frame, around }))
        }
        Err(NoMemory) => refused(Refusal::NoMemory, (lefts, around)),
    }
}

/// At `)`.
#[tactic(auto, using(crate::proofs::Stacks::reversed_push))]
fn close(alloc: Global, behind: Behind) -> Result<State, Refusal>
    ensures { IsMove (behind_in behind Kind.Close) result }
{
    let Behind {
        lefts,
        filter,
        mut around,
    } = behind;
    let Some(frame) = around.pop() else {
        return unexpected((lefts, filter, around));
    };
    let outer = Open { frame, around };
    match group(alloc, lefts, filter) {
        Ok(group) => have(alloc, outer, group),
        Err(NoMemory) => refused(Refusal::NoMemory, outer),
    }
}

/// A filter in parentheses, before which others wait in them.
fn group(alloc: Global, lefts: Vec<Left>, filter: Ast) -> Result<Ast, NoMemory>
    ensures { IfOk result (λ t. written t
        ≡ GroupOf (reading.joined (reversed left_of lefts.items) (written filter))) }
{
    let all = join_all(alloc, lefts, filter)?;
    Ok(Ast::Group(box_one(alloc, all)?))
}

/// At a token behind a test.
pub fn behind_test(alloc: Global, outer: Open, test: Ast, kind: &Kind) -> Result<State, Refusal>
    ensures { IsMove (reading.step most_open (behind_of outer (written test)) kind.now) result }
{
    match filled(alloc, outer, test) {
        Ok(filled) => behind(alloc, filled, kind),
        Err(NoMemory) => Err(Refusal::NoMemory),
    }
}

/// Lets a value go: its destructor is written out here alone, and not at each exit of what owned it.
pub fn let_go<T: Drop>(_value: T) {}

/// Where nothing is read for a reason: what was read before is given up.
pub fn refused<A, E, T: Drop>(error: E, _read: T) -> Result<A, E>
    ensures { result ≡ Err error }
{
    Err(error)
}

/// Where a token isn't read: what was read before it is given up.
pub fn unexpected<T: Drop>(_read: T) -> Result<State, Refusal>
    ensures { IsMove (reading.Stop FilterReason.Unexpected) result }
{
    Err(Refusal::Fault(FilterReason::Unexpected))
}

/// Whether one more may be open.
#[tactic(auto, unfolding(flt_syntax::specs::Filters::most_open), using(crate::proofs::Stacks::room_within, crate::proofs::Stacks::room_beyond))]
pub fn has_room(calls: usize, outer: &Open) -> bool
    ensures { result ≡ nat_lt
        (calls + reading.open_at (frame_of outer.now.frame) (around_of outer.now.around.items))
        most_open }
{
    let used = calls.saturating_add(outer.frame.nots.len());
    if used > FILTER_DEPTH_LIMIT {
        return false;
    }
    has_room_around(&outer.around, FILTER_DEPTH_LIMIT - used)
}

#[tactic(auto, using(crate::proofs::Stacks::frame_within, crate::proofs::Stacks::frame_beyond))]
fn has_room_around(around: &[Frame], room: usize) -> bool
    ensures { result ≡ nat_lt (reading.open_around (around_of around.now)) room }
{
    match around {
        [] => room > 0,
        [frame, rest @ ..] => {
            if frame.nots.len() >= room {
                return false;
            }
            has_room_around(rest, room - frame.nots.len() - 1)
        }
    }
}
