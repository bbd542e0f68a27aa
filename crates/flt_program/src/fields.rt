// The fields whose values a program asks for.
ghost use Rattle.std.specs.Prelude.{◌≡◌, ◌||◌, ℕ, Some, true, slice_get};
ghost use Rattle.flt_program.specs.Asked.{HasField, asks_by, asks_in};
ghost use Rattle.flt_program.specs.declared.instr.Instr.{Instr as InstrValue};
ghost use Rattle.pk_fields.specs.FieldSets.{is_in};

use crate::instr::Instr;
use pk_fields::FieldSet;

/// Adds to a set the fields that instructions ask for.
pub(crate) fn add_asked(code: &[Instr], set: &mut FieldSet)
    ensures fields { (at : ℕ) (i : InstrValue) → slice_get code.now at ≡ Some i
        → HasField set.new i }
    ensures added { (f : ℕ) → is_in set.new f ≡ (asks_in code.now f || is_in set.old f) }
    ensures kept { (f : ℕ) → is_in set.old f ≡ true → is_in set.new f ≡ true }
{
    for instr in code {
        add_field(instr, set);
    }
}

/// Adds the field that an instruction asks for.
fn add_field(instr: &Instr, set: &mut FieldSet)
    ensures field { HasField set.new instr.now }
    ensures added { (f : ℕ) → is_in set.new f ≡ (asks_by instr.now f || is_in set.old f) }
    ensures kept { (f : ℕ) → is_in set.old f ≡ true → is_in set.new f ≡ true }
{
    match instr {
        Instr::Read(_, field, _) | Instr::Count(_, field, _) => set.add(*field),
        _ => {}
    }
}
