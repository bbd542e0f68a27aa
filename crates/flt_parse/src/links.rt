// Operands joined by signs, and arguments by commas.
ghost use Rattle.std.specs.Prelude.{◌≡◌, IfOk, OnOk};
ghost use Rattle.flt_parse.specs.Parser.Reading as reading;
ghost use Rattle.flt_parse.specs.Parser.States.{waiting_of};
ghost use Rattle.flt_syntax.specs.Written.{operand_of};

use crate::joins::let_go;
use crate::lists::{box_two, push_one, push_two};
use crate::state::{Link, Waiting};
use flt_syntax::{Arithmetic, Operand};
use pk_base::NoMemory;
use std::alloc::Global;

/// How tightly a sign or a comma binds.
fn binds(link: Link) -> u32
    ensures { result ≡ reading.binds_link link }
{
    match link {
        Link::Comma => 10,
        Link::Sign(Arithmetic::Sum, _) => 20,
        Link::Sign(Arithmetic::Difference, _) => 20,
        Link::Sign(Arithmetic::Product, _) => 30,
    }
}

/// An operand that waited, joined with what stands to the right of it.
fn link_left(alloc: Global, left: Waiting, right: Operand) -> Result<Operand, NoMemory>
    ensures { IfOk result (λ o.
        operand_of o ≡ reading.linked left.link (operand_of left.operand) (operand_of right)) }
{
    match box_two(alloc, left.operand, right) {
        Ok((l, r)) => match left.link {
            Link::Comma => Ok(Operand::Arguments(l, r)),
            Link::Sign(arithmetic, at) => Ok(Operand::Computed(arithmetic, at, l, r)),
        },
        Err(NoMemory) => Err(NoMemory),
    }
}

/// All that waits, joined.
#[tactic(auto, using(crate::proofs::Stacks::reversed_push))]
pub fn link_all(alloc: Global, waiting: Vec<Waiting>, operand: Operand) -> Result<Operand, NoMemory>
    ensures { IfOk result (λ o.
        operand_of o ≡ reading.all_linked (waiting_of waiting.items) (operand_of operand)) }
{
    let mut rest = waiting;
    let mut all = operand;
    'waiting: while let Some(left) = rest.pop() {
        all = match link_left(alloc, left, all) {
            Ok(linked) => linked,
            Err(NoMemory) => {
                let_go(rest);
                return Err(NoMemory);
            }
        };
    }
    Ok(all)
}

/// What waits behind a sign or a comma: what binds at least as tightly before it is joined.
#[tactic(auto, using(crate::proofs::Stacks::reversed_push, crate::proofs::Stacks::wait_looser, crate::proofs::Stacks::wait_tighter))]
pub fn wait(
    alloc: Global,
    link: Link,
    waiting: &mut Vec<Waiting>,
    operand: Operand,
) -> Result<(), NoMemory>
    ensures { OnOk result (waiting_of waiting.new.items
        ≡ reading.wait link (waiting_of waiting.old.items) (operand_of operand)) }
{
    let mut all = operand;
    'waiting: while let Some(left) = waiting.pop() {
        if binds(left.link) < binds(link) {
            return push_two(waiting, left, Waiting { operand: all, link });
        }
        all = match link_left(alloc, left, all) {
            Ok(linked) => linked,
            Err(NoMemory) => return Err(NoMemory),
        };
    }
    push_one(waiting, Waiting { operand: all, link })
}
