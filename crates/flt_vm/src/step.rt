// One step of the machine.
ghost use Rattle.std.specs.Prelude.{◌≡◌, ◌<◌, ◌^◌, ◌+◌, ◌++◌, [], ◌∷◌, Bool as Truth, false, true, IfOk, IsOkAnd, OnOk, Some, ℕ, length, slice_set};
ghost use Rattle.std.specs.List.{filter_map};
ghost use Rattle.std.specs.Option.{option_to_list};
ghost use Rattle.flt_lists.specs.Called.{values_called};
ghost use Rattle.flt_lists.specs.Pairs.{values_calculated};
ghost use Rattle.flt_typed.specs.Arithmetic.{extreme_of as extreme_among};
ghost use Rattle.flt_typed.specs.Calls.{masked as masked_by};
ghost use Rattle.flt_typed.specs.Slices.{sliced as sliced_by};
ghost use Rattle.flt_vm.specs.Held.{Held};
ghost use Rattle.flt_lists.specs.Passes.{is_some_value};
ghost use Rattle.pk_tree.specs.FieldValues.{values_of};
ghost use Rattle.pk_tree.specs.Trees.{TreeShown};
ghost use Rattle.pk_base.specs.declared.value.Value.TheVariants.{Uint};
ghost use Rattle.flt_vm.specs.Machine.{Goes, Job, act, differs as differ, reads};
ghost use Rattle.flt_program.specs.Programs.{Fits};
ghost use Rattle.flt_vm.specs.Slots.{Does, HasRegisters, IsGiven, IsSet, acts, asks_registers, flag_in, held_in, is_return, is_unset, place_behind, state_in, truth_in, works};
ghost use Rattle.flt_vm.specs.declared.slots.Flag.TheVariants.{Known};
ghost use Rattle.flt_vm.specs.declared.slots.Slot.TheVariants.{Values};

use crate::asks::{asks, compare, finds, kept};
use crate::slots::{Flag, Slot, known, listed_in, put};
use flt_lists::{
    Question, calculated_values, called_values, is_some_value as some_value, masked_values, only,
    slices,
};
use flt_program::Instr;
use flt_syntax::{Arithmetic, Choice, Function, RangePart};
use flt_typed::{Extreme, Search, extreme_of};
use pk_base::{Layers, NoMemory, Value};
use pk_fields::FieldId;
use pk_source::Source;
use std::alloc::Global;

/// Whether an instruction is RETURN.
pub(crate) fn is_return(instr: &Instr) -> bool
    ensures { result ≡ is_return instr.now }
{
    matches!(instr, Instr::Return)
}

/// What an instruction but RETURN, at a place of so many, does to the registers and the flag, and where it leads.
pub(crate) fn step<'p>(
    alloc: Global,
    instr: &'p Instr,
    at: usize,
    size: usize,
    slots: &mut [Slot<'p>],
    flag: &mut Flag<'p>,
    searches: &mut [Search<'p>],
    source: &Source<'_>,
) -> Result<usize, NoMemory>
    requires fits { Fits (length slots.old) size at instr.now }
    requires small { size < 2 ^ 32 }
    requires on { is_return instr.now ≡ false }
    requires given { IsGiven source.now searches.old slots.old instr.now }
    ensures moves { IfOk result (λ place. (job : Job) → job.tree ≡ source.now
        → job.patterns ≡ searches.old
        → Does (act job (state_in source.now at flag.old slots.old) (Some instr.now))
        (Goes (state_in source.now place flag.new slots.new))) }
    ensures ahead { IfOk result (λ place. (at < place) × (place < size)) }
    ensures count { length slots.new ≡ length slots.old }
    ensures searches { searches.new ≡ searches.old }
{
    match instr {
        Instr::JumpFalse(passed) => {
            let truth = known(flag, source);
            *flag = Flag::Known(truth);
            Ok(place_behind(at, !truth, *passed))
        }
        Instr::JumpTrue(passed) => {
            let truth = known(flag, source);
            *flag = Flag::Known(truth);
            Ok(place_behind(at, truth, *passed))
        }
        instr => {
            act(alloc, instr, slots, flag, searches, source)?;
            Ok(at + 1)
        }
    }
}

/// The place behind an instruction, and behind as many more as are passed over.
fn place_behind(at: usize, passes: bool, count: usize) -> usize
    requires { at + 1 + count < 2 ^ 32 }
    ensures { result ≡ place_behind at passes count }
{
    if passes { at + 1 + count } else { at + 1 }
}

/// What an instruction that leads to the next one does to the registers and the flag.
#[tactic(auto, unfolding(crate::specs::Machine::act))]
fn act<'p>(
    alloc: Global,
    instr: &'p Instr,
    slots: &mut [Slot<'p>],
    flag: &mut Flag<'p>,
    searches: &mut [Search<'p>],
    source: &Source<'_>,
) -> Result<(), NoMemory>
    requires fits { HasRegisters (length slots.old) instr.now }
    requires on { acts instr.now ≡ true }
    requires given { IsGiven source.now searches.old slots.old instr.now }
    ensures does { OnOk result ((job : Job) (at : ℕ) → job.tree ≡ source.now
        → job.patterns ≡ searches.old
        → Does (act job (state_in source.now at flag.old slots.old) (Some instr.now))
        (Goes (state_in source.now (at + 1) flag.new slots.new))) }
    ensures on { acts instr.now ≡ true }
    ensures count { length slots.new ≡ length slots.old }
    ensures searches { searches.new ≡ searches.old }
{
    match instr {
        Instr::Read(register, field, layers) => {
            read(slots, flag, *register, *field, layers, source);
            Ok(())
        }
        Instr::Const(register, constant) => {
            put(slots, *register, Slot::Single(constant));
            Ok(())
        }
        Instr::Save(register) => {
            put(slots, *register, Slot::Truth(known(flag, source)));
            Ok(())
        }
        Instr::Not => {
            *flag = Flag::Known(!known(flag, source));
            Ok(())
        }
        instr => make_values(alloc, instr, slots, flag, searches, source),
    }
}

/// The same of an instruction that sets a register to values that are made, or asks registers.
#[tactic(auto, unfolding(crate::specs::Machine::act))]
fn make_values<'p>(
    alloc: Global,
    instr: &'p Instr,
    slots: &mut [Slot<'p>],
    flag: &mut Flag<'p>,
    searches: &mut [Search<'p>],
    source: &Source<'_>,
) -> Result<(), NoMemory>
    requires fits { HasRegisters (length slots.old) instr.now }
    requires on { works instr.now ≡ true }
    requires given { IsGiven source.now searches.old slots.old instr.now }
    ensures does { OnOk result ((job : Job) (at : ℕ) → job.tree ≡ source.now
        → job.patterns ≡ searches.old
        → Does (act job (state_in source.now at flag.old slots.old) (Some instr.now))
        (Goes (state_in source.now (at + 1) flag.new slots.new))) }
    ensures count { length slots.new ≡ length slots.old }
    ensures searches { searches.new ≡ searches.old }
{
    match instr {
        Instr::Slice(register, from, ranges) => {
            let values = sliced(alloc, &slots[*from], ranges.slice(), source);
            fill(slots, flag, *register, values)
        }
        Instr::Mask(register, from, bits) => {
            let values = masked(alloc, &slots[*from], *bits, source);
            set(slots, *register, values)
        }
        Instr::Call(register, function, from) => {
            let values = called(alloc, &slots[*from], *function, source);
            set(slots, *register, values)
        }
        Instr::Count(register, field, layers) => {
            let values = counted(alloc, *field, layers, source);
            set(slots, *register, values)
        }
        Instr::Compute(register, operation, left, right) => {
            let values = computed(alloc, *operation, &slots[*left], &slots[*right], source);
            set(slots, *register, values)
        }
        Instr::Choose(register, extreme, left, right) => {
            let values = chosen(alloc, *extreme, &slots[*left], &slots[*right], source);
            set(slots, *register, values)
        }
        instr => test_registers(alloc, instr, slots, flag, searches, source),
    }
}

/// The same of one that asks registers: the flag tells what they answer.
#[tactic(auto, unfolding(crate::specs::Machine::act))]
fn test_registers<'p>(
    alloc: Global,
    instr: &'p Instr,
    slots: &mut [Slot<'p>],
    flag: &mut Flag<'p>,
    searches: &mut [Search<'p>],
    source: &Source<'_>,
) -> Result<(), NoMemory>
    requires fits { HasRegisters (length slots.old) instr.now }
    requires on { asks_registers instr.now ≡ true }
    requires given { IsGiven source.now searches.old slots.old instr.now }
    ensures does { OnOk result ((job : Job) (at : ℕ) → job.tree ≡ source.now
        → job.patterns ≡ searches.old
        → Does (act job (state_in source.now at flag.old slots.old) (Some instr.now))
        (Goes (state_in source.now (at + 1) flag.new slots.new))) }
    ensures count { length slots.new ≡ length slots.old }
    ensures searches { searches.new ≡ searches.old }
{
    match instr {
        Instr::Test(choice, relation, left, right) => {
            let truth = compare(
                alloc,
                *relation,
                *choice,
                &slots[*left],
                &slots[*right],
                source,
            );
            tell(flag, truth)
        }
        Instr::In(choice, register, members) => {
            let question = Question::IsAmong(members.slice());
            tell(
                flag,
                asks(alloc, *choice, &question, &slots[*register], source),
            )
        }
        Instr::Match(choice, register, pattern) => {
            let search = &mut searches[*pattern];
            tell(
                flag,
                finds(alloc, *choice, search, &slots[*register], source),
            )
        }
        Instr::NonZero(register) => {
            let question = Question::IsNonzero;
            tell(
                flag,
                asks(alloc, Choice::Any, &question, &slots[*register], source),
            )
        }
        Instr::Differ(register) => {
            let truth = differs_from(alloc, &slots[*register], flag, source);
            tell(flag, truth)
        }
        _ => unreachable!(),
    }
}

/// Sets a register to values, where there are some to set it to.
fn set(
    slots: &mut [Slot<'_>],
    register: usize,
    values: Result<Vec<Value>, NoMemory>,
) -> Result<(), NoMemory>
    requires { register < length slots.old }
    ensures set { OnOk result
        (IsOkAnd values (λ v. slots.new ≡ slice_set slots.old register (Values v))) }
    ensures count { length slots.new ≡ length slots.old }
{
    slots[register] = Slot::Values(values?);
    Ok(())
}

/// The same, and the flag tells whether there is a value.
fn fill(
    slots: &mut [Slot<'_>],
    flag: &mut Flag<'_>,
    register: usize,
    values: Result<Vec<Value>, NoMemory>,
) -> Result<(), NoMemory>
    requires { register < length slots.old }
    ensures set { OnOk result (IsOkAnd values (λ v.
        (slots.new ≡ slice_set slots.old register (Values v))
        × (flag.new ≡ Known (is_some_value v.items)))) }
    ensures count { length slots.new ≡ length slots.old }
{
    let values = values?;
    *flag = Flag::Known(some_value(&values));
    slots[register] = Slot::Values(values);
    Ok(())
}

/// Keeps a truth as the flag, where there is one.
fn tell(flag: &mut Flag<'_>, truth: Result<bool, NoMemory>) -> Result<(), NoMemory>
    ensures { OnOk result (IsOkAnd truth (λ t. flag.new ≡ Known t)) }
{
    *flag = Flag::Known(truth?);
    Ok(())
}

/// Whether the flag differs from the truth that a slot keeps.
fn differs_from(
    alloc: Global,
    slot: &Slot<'_>,
    flag: &Flag<'_>,
    source: &Source<'_>,
) -> Result<bool, NoMemory>
    requires { (kept : Truth) × (truth_in source.now slot.now ≡ Some kept) }
    ensures { IfOk result (λ truth. (kept : Truth) → truth_in source.now slot.now ≡ Some kept
        → truth ≡ differ kept (flag_in source.now flag.now)) }
{
    let truth = kept(alloc, slot, source)?;
    Ok(differ(truth, known(flag, source)))
}

/// Whether two truths differ.
fn differ(kept: bool, flag: bool) -> bool
    ensures { result ≡ differ kept flag }
{
    kept != flag
}

/// Sets a register to a field's values where it is unset. The flag tells whether it has a value.
pub(crate) fn read<'p>(
    slots: &mut [Slot<'p>],
    flag: &mut Flag<'p>,
    register: usize,
    field: FieldId,
    layers: &'p Layers,
    source: &Source<'_>,
)
    requires { register < length slots.old }
    ensures read { (at : ℕ) → Goes (state_in source.now (at + 1) flag.new slots.new)
        ≡ reads (state_in source.now at flag.old slots.old) register
        (values_of source.now field layers.now) }
    ensures set { IsSet slots.new register }
    ensures count { length slots.new ≡ length slots.old }
{
    if is_unset(&slots[register]) {
        slots[register] = Slot::Field(field, layers);
    }
    *flag = flag_for(&slots[register]);
}

pub(crate) fn is_unset(slot: &Slot<'_>) -> bool
    ensures { result ≡ is_unset slot.now }
{
    matches!(slot, Slot::Unset)
}

/// Whether a register that is set has a value.
fn flag_for<'p>(slot: &Slot<'p>) -> Flag<'p>
    requires { is_unset slot.now ≡ false }
    ensures { (tree : TreeShown) (held : Held) → held_in tree slot.now ≡ Some held
        → flag_in tree result ≡ is_some_value held.values }
{
    match slot {
        Slot::Unset => unreachable!(),
        Slot::Field(field, layers) => Flag::IsThere(*field, layers),
        Slot::Single(_) | Slot::Truth(_) => Flag::Known(true),
        Slot::Values(values) => Flag::Known(some_value(values)),
    }
}

/// The slices of a slot's values.
fn sliced(
    alloc: Global,
    slot: &Slot<'_>,
    ranges: &[RangePart],
    source: &Source<'_>,
) -> Result<Vec<Value>, NoMemory>
    requires { is_unset slot.now ≡ false }
    ensures { IfOk result (λ values. (held : Held) → held_in source.now slot.now ≡ Some held
        → values.items ≡ filter_map (λ value. sliced_by value ranges.now) held.values) }
{
    match listed_in(alloc, slot, source) {
        Ok(values) => slices(alloc, values.slice(), ranges),
        Err(NoMemory) => Err(NoMemory),
    }
}

/// The masked values of a slot.
fn masked(
    alloc: Global,
    slot: &Slot<'_>,
    mask: u64,
    source: &Source<'_>,
) -> Result<Vec<Value>, NoMemory>
    requires { is_unset slot.now ≡ false }
    ensures { IfOk result (λ values. (held : Held) → held_in source.now slot.now ≡ Some held
        → values.items ≡ filter_map (λ value. masked_by mask value) held.values) }
{
    match listed_in(alloc, slot, source) {
        Ok(values) => masked_values(alloc, values.slice(), mask),
        Err(NoMemory) => Err(NoMemory),
    }
}

/// What a function gives of a slot's values.
fn called(
    alloc: Global,
    slot: &Slot<'_>,
    function: Function,
    source: &Source<'_>,
) -> Result<Vec<Value>, NoMemory>
    requires { is_unset slot.now ≡ false }
    ensures { IfOk result (λ values. (held : Held) → held_in source.now slot.now ≡ Some held
        → values.items ≡ values_called function held.values) }
{
    match listed_in(alloc, slot, source) {
        Ok(values) => called_values(alloc, function, values.slice()),
        Err(NoMemory) => Err(NoMemory),
    }
}

/// How many values a field or protocol has, as the one value of a list.
fn counted(
    alloc: Global,
    field: FieldId,
    layers: &Layers,
    source: &Source<'_>,
) -> Result<Vec<Value>, NoMemory>
    ensures { IfOk result (λ values.
        values.items ≡ Uint (length (values_of source.now field layers.now)) ∷ []) }
{
    match count_of(alloc, field, layers, source) {
        Ok(count) => only(alloc, Value::Uint(count)),
        Err(NoMemory) => Err(NoMemory),
    }
}

fn count_of(
    alloc: Global,
    field: FieldId,
    layers: &Layers,
    source: &Source<'_>,
) -> Result<u64, NoMemory>
    ensures { IfOk result (λ count. count ≡ length (values_of source.now field layers.now)) }
{
    match source.values(alloc, field, layers) {
        Ok(values) => Ok(values.len() as u64),
        Err(NoMemory) => Err(NoMemory),
    }
}

/// The sums, differences or products of two slots' numbers.
fn computed(
    alloc: Global,
    operation: Arithmetic,
    left: &Slot<'_>,
    right: &Slot<'_>,
    source: &Source<'_>,
) -> Result<Vec<Value>, NoMemory>
    requires left { is_unset left.now ≡ false }
    requires right { is_unset right.now ≡ false }
    ensures { IfOk result (λ values. (a b : Held) → held_in source.now left.now ≡ Some a
        → held_in source.now right.now ≡ Some b
        → values.items ≡ values_calculated operation a.values b.values) }
{
    match listed_in(alloc, left, source) {
        Ok(left) => computed_with(alloc, operation, left.slice(), right, source),
        Err(NoMemory) => Err(NoMemory),
    }
}

/// The same of a list of numbers and those of a slot.
fn computed_with(
    alloc: Global,
    operation: Arithmetic,
    left: &[Value],
    right: &Slot<'_>,
    source: &Source<'_>,
) -> Result<Vec<Value>, NoMemory>
    requires { is_unset right.now ≡ false }
    ensures { IfOk result (λ values. (held : Held) → held_in source.now right.now ≡ Some held
        → values.items ≡ values_calculated operation left.now held.values) }
{
    match listed_in(alloc, right, source) {
        Ok(right) => calculated_values(alloc, operation, left, right.slice()),
        Err(NoMemory) => Err(NoMemory),
    }
}

/// The least or the greatest number of two slots, if there is one.
fn chosen(
    alloc: Global,
    extreme: Extreme,
    left: &Slot<'_>,
    right: &Slot<'_>,
    source: &Source<'_>,
) -> Result<Vec<Value>, NoMemory>
    requires left { is_unset left.now ≡ false }
    requires right { is_unset right.now ≡ false }
    ensures { IfOk result (λ values. (a b : Held) → held_in source.now left.now ≡ Some a
        → held_in source.now right.now ≡ Some b
        → values.items ≡ option_to_list (extreme_among extreme (a.values ++ b.values))) }
{
    let both = extremes(alloc, extreme, left, right, source)?;
    extreme_in(alloc, extreme, &both)
}

/// The least or the greatest number of each of two slots, if there is one.
fn extremes(
    alloc: Global,
    extreme: Extreme,
    left: &Slot<'_>,
    right: &Slot<'_>,
    source: &Source<'_>,
) -> Result<Vec<Value>, NoMemory>
    requires left { is_unset left.now ≡ false }
    requires right { is_unset right.now ≡ false }
    ensures { IfOk result (λ values. (a b : Held) → held_in source.now left.now ≡ Some a
        → held_in source.now right.now ≡ Some b
        → values.items ≡ option_to_list (extreme_among extreme a.values)
        ++ option_to_list (extreme_among extreme b.values)) }
{
    let mut both = Vec::new(alloc);
    push_extreme(alloc, &mut both, extreme, left, source)?;
    push_extreme(alloc, &mut both, extreme, right, source)?;
    Ok(both)
}

/// Adds the least or the greatest number of a slot to a list, if there is one.
fn push_extreme(
    alloc: Global,
    both: &mut Vec<Value>,
    extreme: Extreme,
    slot: &Slot<'_>,
    source: &Source<'_>,
) -> Result<(), NoMemory>
    requires { is_unset slot.now ≡ false }
    ensures { OnOk result ((held : Held) → held_in source.now slot.now ≡ Some held
        → both.new.items ≡ both.old.items ++ option_to_list (extreme_among extreme held.values)) }
{
    match listed_in(alloc, slot, source) {
        Ok(values) => push_some(both, extreme_of(extreme, values.slice())),
        Err(NoMemory) => Err(NoMemory),
    }
}

/// Adds a value to a list, if there is one.
fn push_some(values: &mut Vec<Value>, value: Option<Value>) -> Result<(), NoMemory>
    ensures { OnOk result (values.new.items ≡ values.old.items ++ option_to_list value) }
{
    match value {
        Some(value) => Ok(values.push(value)?),
        None => Ok(()),
    }
}

/// The least or the greatest number among values, if there is one.
fn extreme_in(alloc: Global, extreme: Extreme, values: &[Value]) -> Result<Vec<Value>, NoMemory>
    ensures { IfOk result (λ all. all.items ≡ option_to_list (extreme_among extreme values.now)) }
{
    match extreme_of(extreme, values) {
        Some(value) => only(alloc, value),
        None => Ok(Vec::new(alloc)),
    }
}
