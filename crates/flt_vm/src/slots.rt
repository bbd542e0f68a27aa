// What the registers and the flag hold while a program runs.
ghost use Rattle.std.specs.Prelude.{◌≡◌, ◌<◌, [], ◌∷◌, false, Some, IfOk, length, replicate, map, None, slice_set};
ghost use Rattle.flt_vm.specs.Held.{Held};
ghost use Rattle.flt_vm.specs.Slots.{flag_in, held_in, is_unset, listed_values};
ghost use Rattle.pk_tree.specs.FieldValues.{values_of};
ghost use Rattle.pk_tree.specs.Trees.{TreeShown};

use flt_lists::{is_there_in, only};
use flt_typed::Constant;
use pk_base::{Layers, NoMemory, Value};
use pk_fields::FieldId;
use pk_source::Source;
use std::alloc::Global;

/// What a register holds: values, or where they are.
pub(crate) enum Slot<'p> {
    Unset,
    /// The values of a field or protocol, asked where they stand.
    Field(FieldId, &'p Layers),
    Single(&'p Constant),
    Truth(bool),
    Values(Vec<Value>),
}

// The destructor is written out here, and not wherever a register is set.
impl Drop for Slot<'_> {
    fn drop(self) {
        match self {
            Slot::Unset | Slot::Field(_, _) | Slot::Single(_) | Slot::Truth(_) => {}
            Slot::Values(_values) => {}
        }
    }
}

/// The flag: a truth, or whether a field or protocol has a value, which is asked where the flag is.
#[derive(Clone, Copy)]
pub(crate) enum Flag<'p> {
    Known(bool),
    IsThere(FieldId, &'p Layers),
}

/// What the flag is.
pub(crate) fn known(flag: &Flag<'_>, source: &Source<'_>) -> bool
    ensures { result ≡ flag_in source.now flag.now }
{
    match flag {
        Flag::Known(truth) => *truth,
        Flag::IsThere(field, layers) => is_there_in(*field, layers, source),
    }
}

/// Values that a register holds, or that were gathered for it.
pub(crate) enum Gathered<'s> {
    Own(Vec<Value>),
    Lent(&'s [Value]),
}

// The destructor is written out here, and not wherever values were looked at.
impl Drop for Gathered<'_> {
    fn drop(self) {
        match self {
            Gathered::Own(_values) => {}
            Gathered::Lent(_) => {}
        }
    }
}

impl<'s> Gathered<'s> {
    pub(crate) fn slice(&self) -> &[Value]
        ensures { result.now ≡ listed_values self.now }
    {
        match self {
            Gathered::Own(values) => values.as_slice(),
            Gathered::Lent(values) => values,
        }
    }
}

/// The values that a slot holds.
pub(crate) fn listed_in<'s>(
    alloc: Global,
    slot: &'s Slot<'_>,
    source: &Source<'_>,
) -> Result<Gathered<'s>, NoMemory>
    requires { is_unset slot.now ≡ false }
    ensures { IfOk result (λ all. (held : Held) → held_in source.now slot.now ≡ Some held
        → listed_values all ≡ held.values) }
{
    match slot {
        Slot::Unset => unreachable!(),
        Slot::Field(field, layers) => of_field(alloc, *field, layers, source),
        Slot::Single(constant) => of_one(alloc, constant.value.clone()?),
        Slot::Truth(truth) => of_one(alloc, Value::Bool(*truth)),
        Slot::Values(values) => Ok(Gathered::Lent(values.as_slice())),
    }
}

/// The values of a field or protocol.
fn of_field<'s>(
    alloc: Global,
    field: FieldId,
    layers: &Layers,
    source: &Source<'_>,
) -> Result<Gathered<'s>, NoMemory>
    ensures { IfOk result (λ all. listed_values all ≡ values_of source.now field layers.now) }
{
    match source.values(alloc, field, layers) {
        Ok(values) => Ok(Gathered::Own(values)),
        Err(NoMemory) => Err(NoMemory),
    }
}

/// One value.
fn of_one<'s>(alloc: Global, value: Value) -> Result<Gathered<'s>, NoMemory>
    ensures { IfOk result (λ all. listed_values all ≡ value ∷ []) }
{
    match only(alloc, value) {
        Ok(values) => Ok(Gathered::Own(values)),
        Err(NoMemory) => Err(NoMemory),
    }
}

/// Sets a register.
pub(crate) fn put<'p>(slots: &mut [Slot<'p>], register: usize, slot: Slot<'p>)
    requires { register < length slots.old }
    ensures set { slots.new ≡ slice_set slots.old register slot.entry }
    ensures count { length slots.new ≡ length slots.old }
{
    slots[register] = slot;
}

/// Unsets all registers.
#[tactic(auto, using(crate::proofs::RunLemmas::all_unset))]
pub(crate) fn unset(slots: &mut [Slot<'_>])
    ensures unset { (tree : TreeShown)
        → map (held_in tree) slots.new ≡ replicate (length slots.old) None }
    ensures count { length slots.new ≡ length slots.old }
{
    for register in 0..slots.len() {
        slots[register] = Slot::Unset;
    }
}

/// Gives a value up, so that its destructor is written out once and not wherever a function returns.
pub(crate) fn let_go<T: Drop>(_value: T) {}
