// Copies of what instructions own. They share their bytes with the filter.
ghost use Rattle.std.specs.Prelude.{◌≡◌, ◌++◌, [], ◌∷◌, IfOk, OnOk};
ghost use Rattle.flt_typed.specs.declared.typed.Member.TheVariants.{Between, One};

use crate::instr::{MemberList, RangeList};
use flt_syntax::RangePart;
use flt_typed::{Constant, Member};
use pk_base::{LayerRanges, Layers, NoMemory};
use std::alloc::Global;

/// The same layers.
pub fn copied_layers(alloc: Global, layers: &Layers) -> Result<Layers, NoMemory>
    ensures { IfOk result (λ copy. copy ≡ layers.now) }
{
    match layers {
        Layers::All => Ok(Layers::All),
        Layers::These(ranges) => {
            let ranges = ranges.slice().to_vec(alloc)?;
            Ok(Layers::These(LayerRanges::from_vec(ranges)))
        }
    }
}

/// The same ranges.
pub fn copied_ranges(alloc: Global, ranges: &[RangePart]) -> Result<RangeList, NoMemory>
    ensures { IfOk result (λ copy. copy ≡ ranges.now) }
{
    let ranges = ranges.to_vec(alloc)?;
    Ok(RangeList::from_vec(ranges))
}

/// The same members.
pub fn copied_members(alloc: Global, members: &[Member]) -> Result<MemberList, NoMemory>
    ensures { IfOk result (λ copy. copy ≡ members.now) }
{
    let mut all = Vec::with_capacity(alloc, members.len())?;
    for member in members {
        push_copy(&mut all, member)?;
    }
    Ok(MemberList::from_vec(all))
}

fn push_copy(all: &mut Vec<Member>, member: &Member) -> Result<(), NoMemory>
    ensures { OnOk result (all.new.items ≡ all.old.items ++ member.now ∷ []) }
{
    let copy = copied_member(member)?;
    Ok(all.push(copy)?)
}

fn copied_member(member: &Member) -> Result<Member, NoMemory>
    ensures { IfOk result (λ copy. copy ≡ member.now) }
{
    match member {
        Member::One(constant) => copied_one(constant),
        Member::Between(low, high) => copied_range(low, high),
    }
}

fn copied_one(constant: &Constant) -> Result<Member, NoMemory>
    ensures { IfOk result (λ copy. copy ≡ One constant.now) }
{
    let copy = constant.clone()?;
    Ok(Member::One(copy))
}

fn copied_range(low: &Constant, high: &Constant) -> Result<Member, NoMemory>
    ensures { IfOk result (λ copy. copy ≡ Between low.now high.now) }
{
    let low = low.clone()?;
    let high = high.clone()?;
    Ok(Member::Between(low, high))
}
