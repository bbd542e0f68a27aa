// Code, as it grows.
ghost use Rattle.std.specs.Prelude.{◌≡◌, ◌++◌, ◌≤◌, [], ◌∷◌, insert, IfOk, OnOk, vec_len};

use flt_program::Instr;
use pk_base::NoMemory;

/// One more instruction.
pub(crate) fn emit(code: &mut Vec<Instr>, instr: Instr) -> Result<(), NoMemory>
    ensures { OnOk result (code.new.items ≡ code.old.items ++ instr ∷ []) }
{
    code.push(instr)?;
    Ok(())
}

/// One more instruction, which sets a register. Gives the register.
pub(crate) fn emit_to(
    code: &mut Vec<Instr>,
    register: usize,
    instr: Instr,
) -> Result<usize, NoMemory>
    ensures { IfOk result (λ r.
        (r ≡ register) × (code.new.items ≡ code.old.items ++ instr ∷ [])) }
{
    match emit(code, instr) {
        Ok(()) => Ok(register),
        Err(NoMemory) => Err(NoMemory),
    }
}

/// An instruction before those from a place on.
pub(crate) fn emit_at(code: &mut Vec<Instr>, at: usize, instr: Instr) -> Result<(), NoMemory>
    requires { at ≤ vec_len code.old }
    ensures { OnOk result (code.new.items ≡ insert code.old.items at instr) }
{
    code.insert(at, instr)?;
    Ok(())
}
