// Whether instructions find what they take.
ghost use Rattle.std.specs.Prelude.{◌≡◌, ◌<◌, true, false, IfOk, IsTrue, List, ℕ, length};
ghost use Rattle.flt_vm.specs.Given.{Finds, takes_of};
ghost use Rattle.flt_vm.specs.Slots.{IsGiven, IsKept, IsSet};

use crate::asks::listed_truth;
use crate::slots::Slot;
use crate::step::is_unset;
use flt_program::Instr;
use pk_base::NoMemory;
use pk_source::Source;
use std::alloc::Global;

/// What an instruction takes beside what it owns.
#[derive(Clone, Copy)]
pub(crate) enum Takes {
    Nothing,
    /// A register that is set.
    One(usize),
    Two(usize, usize),
    /// A register, and a pattern.
    Searched(usize, usize),
    /// A register that keeps a truth.
    Kept(usize),
}

fn taken_by(instr: &Instr) -> Takes
    ensures { result ≡ takes_of instr.now }
{
    match instr {
        Instr::Slice(_, source, _) => Takes::One(*source),
        Instr::Mask(_, source, _) => Takes::One(*source),
        Instr::Call(_, _, source) => Takes::One(*source),
        Instr::Compute(_, _, left, right) => Takes::Two(*left, *right),
        Instr::Choose(_, _, left, right) => Takes::Two(*left, *right),
        Instr::Test(_, _, left, right) => Takes::Two(*left, *right),
        Instr::In(_, register, _) => Takes::One(*register),
        Instr::Match(_, register, pattern) => Takes::Searched(*register, *pattern),
        Instr::NonZero(register) => Takes::One(*register),
        Instr::Differ(register) => Takes::Kept(*register),
        _ => Takes::Nothing,
    }
}

/// Whether what an instruction takes is there, where there are so many patterns. It isn't looked for where that is known.
pub(crate) fn is_given(
    alloc: Global,
    looks: bool,
    instr: &Instr,
    slots: &[Slot<'_>],
    patterns: usize,
    source: &Source<'_>,
) -> Result<bool, NoMemory>
    ensures given { IfOk result (λ truth. IsTrue truth → looks ≡ true → (all : List (List ℕ))
        → length all ≡ patterns → IsGiven source.now all slots.now instr.now) }
    ensures found { (all : List (List ℕ)) → length all ≡ patterns
        → IsGiven source.now all slots.now instr.now → IfOk result (λ truth. IsTrue truth) }
{
    if looks {
        is_found(alloc, taken_by(instr), slots, patterns, source)
    } else {
        Ok(true)
    }
}

/// Whether this is there.
fn is_found(
    alloc: Global,
    takes: Takes,
    slots: &[Slot<'_>],
    patterns: usize,
    source: &Source<'_>,
) -> Result<bool, NoMemory>
    ensures finds { IfOk result (λ truth. IsTrue truth → (all : List (List ℕ))
        → length all ≡ patterns → Finds source.now all slots.now takes) }
    ensures found { (all : List (List ℕ)) → length all ≡ patterns
        → Finds source.now all slots.now takes → IfOk result (λ truth. IsTrue truth) }
{
    match takes {
        Takes::Nothing => Ok(true),
        Takes::One(register) => Ok(is_set(slots, register)),
        Takes::Two(left, right) => Ok(is_set(slots, left) && is_set(slots, right)),
        Takes::Searched(register, pattern) => Ok(is_set(slots, register) && pattern < patterns),
        Takes::Kept(register) => is_kept(alloc, slots, register, source),
    }
}

/// Whether a register is set.
fn is_set(slots: &[Slot<'_>], register: usize) -> bool
    ensures set { IsTrue result → IsSet slots.now register }
    ensures inside { IsTrue result → register < length slots.now }
    ensures found { IsSet slots.now register → IsTrue result }
{
    register < slots.len() && !is_unset(&slots[register])
}

/// Whether a register keeps one truth.
fn is_kept(
    alloc: Global,
    slots: &[Slot<'_>],
    register: usize,
    source: &Source<'_>,
) -> Result<bool, NoMemory>
    ensures kept { IfOk result (λ truth. IsTrue truth → IsKept source.now slots.now register) }
    ensures found { IsKept source.now slots.now register → IfOk result (λ truth. IsTrue truth) }
{
    if !is_set(slots, register) {
        return Ok(false);
    }
    let kept = listed_truth(alloc, &slots[register], source)?;
    Ok(kept.is_some())
}
