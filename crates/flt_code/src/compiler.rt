// The program of a filter.
ghost use Rattle.std.specs.Prelude.{◌<◌, ◌^◌, IfOk, length, OnOk};
ghost use Rattle.flt_code.specs.Code.{Adds, IsWhole};
ghost use Rattle.flt_code.specs.Decides.{Agrees, Decides};
ghost use Rattle.flt_code.specs.Owners.{owners_of};
ghost use Rattle.flt_vm.specs.Programs.{FitsFilter};

use crate::code::code_for;
use crate::emits::emit;
use crate::owners::Owner;
use flt_program::{Instr, Program};
use flt_typed::Typed;
use flt_typing::Filter;
use pk_base::NoMemory;
use std::alloc::Global;

/// The program of a filter: in every tree its run ends with the filter's truth.
pub fn compile(alloc: Global, filter: &Filter) -> Result<Program, NoMemory>
    ensures decides { IfOk result (λ p. Decides p filter.now) }
    ensures agrees { IfOk result (λ p. Agrees p filter.now) }
    ensures fits { IfOk result (λ p. FitsFilter p filter.now) }
{
    let mut owners = Vec::new(alloc);
    let code = whole_code(alloc, filter.root(), &mut owners)?;
    Ok(Program::new(owners.len(), code))
}

/// The code for a filter, and the end of its run behind it.
fn whole_code<'f>(
    alloc: Global,
    filter: &'f Typed,
    owners: &mut Vec<Owner<'f>>,
) -> Result<Vec<Instr>, NoMemory>
    ensures whole { IfOk result (λ code.
        IsWhole (owners_of owners.new.items) filter.now code.items) }
    ensures few { IfOk result (λ code. length code.items < 2 ^ 32) }
{
    let mut code = Vec::new(alloc);
    put_code(alloc, filter, owners, &mut code)?;
    // No filter has so many: its text is short.
    if code.len() >= MOST_INSTRUCTIONS {
        return Err(NoMemory);
    }
    Ok(code)
}

/// The same, appended to code.
fn put_code<'f>(
    alloc: Global,
    filter: &'f Typed,
    owners: &mut Vec<Owner<'f>>,
    code: &mut Vec<Instr>,
) -> Result<(), NoMemory>
    ensures { OnOk result (Adds (IsWhole (owners_of owners.new.items) filter.now)
        code.old.items code.new.items) }
{
    let mut patterns = Vec::new(alloc);
    code_for(alloc, filter, owners, &mut patterns, code)?;
    emit(code, Instr::Return)
}

/// The instructions that a program may have.
const MOST_INSTRUCTIONS: usize = 1 << 32;
