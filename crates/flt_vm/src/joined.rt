// Three instructions that are taken at once.
ghost use Rattle.std.specs.Prelude.{◌≡◌, ◌+◌, ◌<◌, ◌≤◌, IfOk, Some, ℕ, length, slice_get};
ghost use Rattle.flt_vm.specs.Machine.{Job};
ghost use Rattle.flt_program.specs.Programs.{IsProgram};
ghost use Rattle.flt_vm.specs.Slots.{HasRegisters, LeadsTo, state_in};

use crate::asks::compare_constant;
use crate::slots::{Flag, Slot, put};
use crate::step::read;
use flt_program::Instr;
use pk_base::NoMemory;
use pk_source::Source;
use std::alloc::Global;

/// Takes READ, CONST and TEST at once where they stand at a place before others, and the test compares what was read with
/// the constant. Answers how many steps it took: three, or none.
pub(crate) fn test_at<'p>(
    alloc: Global,
    code: &'p [Instr],
    at: usize,
    slots: &mut [Slot<'p>],
    flag: &mut Flag<'p>,
    source: &Source<'_>,
) -> Result<u32, NoMemory>
    requires program { IsProgram (record { registers = length slots.old; items = code.now }) }
    requires inside { at < length code.now }
    ensures leads { IfOk result (λ taken. (job : Job) → job.code ≡ code.now → job.tree ≡ source.now
        → LeadsTo job (state_in source.now at flag.old slots.old)
        (state_in source.now (at + taken) flag.new slots.new) taken) }
    ensures inside { IfOk result (λ taken. at + taken < length code.now) }
    ensures count { length slots.new ≡ length slots.old }
{
    // RETURN stands behind them.
    if code.len() - at <= 3 {
        return Ok(0);
    }
    test_among(
        alloc,
        &code[at],
        &code[at + 1],
        &code[at + 2],
        slots,
        flag,
        source,
    )
}

/// The same of an instruction and the two behind it.
fn test_among<'p>(
    alloc: Global,
    first: &'p Instr,
    second: &'p Instr,
    third: &'p Instr,
    slots: &mut [Slot<'p>],
    flag: &mut Flag<'p>,
    source: &Source<'_>,
) -> Result<u32, NoMemory>
    requires first { HasRegisters (length slots.old) first.now }
    requires second { HasRegisters (length slots.old) second.now }
    requires third { HasRegisters (length slots.old) third.now }
    ensures leads { IfOk result (λ taken. (job : Job) (at : ℕ)
        → slice_get job.code at ≡ Some first.now → slice_get job.code (at + 1) ≡ Some second.now
        → slice_get job.code (at + 2) ≡ Some third.now → job.tree ≡ source.now
        → LeadsTo job (state_in source.now at flag.old slots.old)
        (state_in source.now (at + taken) flag.new slots.new) taken) }
    ensures few { IfOk result (λ taken. taken ≤ 3) }
    ensures count { length slots.new ≡ length slots.old }
{
    if let Instr::Read(register, field, layers) = first
        && let Instr::Const(other, constant) = second
        && let Instr::Test(choice, relation, left, right) = third
        && *left == *register
        && *right == *other
    {
        read(slots, flag, *register, *field, layers, source);
        put(slots, *other, Slot::Single(constant));
        let left = &slots[*left];
        let truth = compare_constant(alloc, *relation, *choice, left, constant, source)?;
        *flag = Flag::Known(truth);
        return Ok(3);
    }
    Ok(0)
}
