// The code that sets a register to the values of a term.
ghost use Rattle.std.specs.Prelude.{◌≡◌, None, IfOk, OnOk, Some};
ghost use Rattle.flt_code.specs.Code.{Adds, Loads, LoadsCall, LoadsExtreme, LoadsRight, Makes, Sets, is_several as is_several_term};
ghost use Rattle.flt_code.specs.Owners.{Grows, IsOwned, OfTerm, owners_of};
ghost use Rattle.flt_chains.specs.Parts.{left_of_term};
ghost use Rattle.flt_syntax.specs.declared.ast.Function.TheVariants.{Count};
ghost use Rattle.flt_typed.specs.declared.typed.Term.{Term as TermValue};
ghost use Rattle.flt_typed.specs.declared.typed.Term.TheVariants.{Field};
ghost use Rattle.flt_typed.specs.declared.arithmetic.Extreme.TheVariants.{Least};
ghost use Rattle.flt_program.specs.declared.instr.Instr.TheVariants as instr;

use crate::emits::emit_to;
use crate::owners::{Owner, own, register_for};
use flt_chains::{Chain, chain_of};
use flt_program::{Instr, copied_layers, copied_ranges};
use flt_syntax::{Function, RangePart};
use flt_typed::{Constant, Extreme, Term};
use pk_base::{Layers, NoMemory};
use pk_fields::FieldId;
use std::alloc::Global;

/// Appends the code for a term, and gives the register that it sets. Of several arguments it makes the extreme that is asked
/// for. What signs and commas join is made one after the other, so that no call nests as deep as they do.
#[cycle(load)]
pub(crate) fn load<'f>(
    alloc: Global,
    extreme: Extreme,
    term: &'f Term,
    owners: &mut Vec<Owner<'f>>,
    code: &mut Vec<Instr>,
) -> Result<usize, NoMemory>
    ensures code { IfOk result (λ r. Adds (Loads (owners_of owners.new.items) extreme term.now r)
        code.old.items code.new.items) }
    ensures grows { OnOk result (Grows (owners_of owners.old.items) (owners_of owners.new.items)) }
{
    let Chain { first, mut above } = chain_of(alloc, term)?;
    let mut register = load_part(alloc, extreme, first, owners, code)?;
    'above: while let Some(next) = above.pop() {
        register = load_joined(alloc, extreme, register, next, owners, code)?;
    }
    Ok(register)
}

/// Appends what stands behind the code of a term's left part.
#[cycle(load)]
fn load_joined<'f>(
    alloc: Global,
    extreme: Extreme,
    left: usize,
    term: &'f Term,
    owners: &mut Vec<Owner<'f>>,
    code: &mut Vec<Instr>,
) -> Result<usize, NoMemory>
    requires { (part : TermValue) × (left_of_term term.now ≡ Some part) }
    ensures code { IfOk result (λ r.
        Adds (LoadsRight (owners_of owners.new.items) extreme term.now left r)
        code.old.items code.new.items) }
    ensures grows { OnOk result (Grows (owners_of owners.old.items) (owners_of owners.new.items)) }
{
    match term {
        Term::Computed(operation, _, right) => {
            let (right, register) = load_inner(alloc, extreme, right, term, owners, code)?;
            emit_to(
                code,
                register,
                Instr::Compute(register, *operation, left, right),
            )
        }
        Term::Arguments(_, right) => {
            let right = load(alloc, extreme, right, owners, code)?;
            let register = own(owners, Owner::OfExtreme(extreme, term))?;
            emit_to(
                code,
                register,
                Instr::Choose(register, extreme, left, right),
            )
        }
        _ => unreachable!(),
    }
}

/// Appends the code for a term whose parts no sign or comma joins.
#[cycle(load)]
fn load_part<'f>(
    alloc: Global,
    extreme: Extreme,
    term: &'f Term,
    owners: &mut Vec<Owner<'f>>,
    code: &mut Vec<Instr>,
) -> Result<usize, NoMemory>
    requires { left_of_term term.now ≡ None }
    ensures code { IfOk result (λ r. Adds (Loads (owners_of owners.new.items) extreme term.now r)
        code.old.items code.new.items) }
    ensures grows { OnOk result (Grows (owners_of owners.old.items) (owners_of owners.new.items)) }
{
    match term {
        Term::Constant(constant) => load_constant(constant, term, owners, code),
        Term::Field(field, layers) => load_field(alloc, *field, layers, term, owners, code),
        Term::Slice(inner, ranges) => load_slice(alloc, extreme, inner, ranges, term, owners, code),
        Term::Mask(inner, mask) => load_mask(alloc, extreme, inner, *mask, term, owners, code),
        Term::Called(function, inner) => load_call(alloc, *function, inner, term, owners, code),
        Term::Computed(_, _, _) | Term::Arguments(_, _) => unreachable!(),
    }
}

/// Appends the code for a literal.
fn load_constant<'f>(
    constant: &Constant,
    term: &'f Term,
    owners: &mut Vec<Owner<'f>>,
    code: &mut Vec<Instr>,
) -> Result<usize, NoMemory>
    ensures code { IfOk result (λ r. Sets (owners_of owners.new.items) (OfTerm term.now) r
        (instr.Const r constant.now) code.old.items code.new.items) }
    ensures grows { OnOk result (Grows (owners_of owners.old.items) (owners_of owners.new.items)) }
{
    let register = own(owners, Owner::OfTerm(term))?;
    emit_to(code, register, Instr::Const(register, constant.clone()?))
}

/// Appends the code for a field.
fn load_field<'f>(
    alloc: Global,
    field: FieldId,
    layers: &Layers,
    term: &'f Term,
    owners: &mut Vec<Owner<'f>>,
    code: &mut Vec<Instr>,
) -> Result<usize, NoMemory>
    requires { term.now ≡ Field field layers.now }
    ensures code { IfOk result (λ r. Sets (owners_of owners.new.items) (OfTerm term.now) r
        (instr.Read r field layers.now) code.old.items code.new.items) }
    ensures grows { OnOk result (Grows (owners_of owners.old.items) (owners_of owners.new.items)) }
{
    let register = register_for(owners, term, field, layers)?;
    match copied_layers(alloc, layers) {
        Ok(layers) => emit_to(code, register, Instr::Read(register, field, layers)),
        Err(NoMemory) => Err(NoMemory),
    }
}

/// Appends the code for the slices of a term.
#[cycle(load)]
fn load_slice<'f>(
    alloc: Global,
    extreme: Extreme,
    inner: &'f Term,
    ranges: &[RangePart],
    term: &'f Term,
    owners: &mut Vec<Owner<'f>>,
    code: &mut Vec<Instr>,
) -> Result<usize, NoMemory>
    ensures code { IfOk result (λ r. Adds
        (Makes (owners_of owners.new.items) (OfTerm term.now) r
        (Loads (owners_of owners.new.items) extreme inner.now) (λ q. instr.Slice r q ranges.now))
        code.old.items code.new.items) }
    ensures grows { OnOk result (Grows (owners_of owners.old.items) (owners_of owners.new.items)) }
{
    let (inner, register) = load_inner(alloc, extreme, inner, term, owners, code)?;
    match copied_ranges(alloc, ranges) {
        Ok(ranges) => emit_to(code, register, Instr::Slice(register, inner, ranges)),
        Err(NoMemory) => Err(NoMemory),
    }
}

/// Appends the code for the masked numbers of a term.
#[cycle(load)]
fn load_mask<'f>(
    alloc: Global,
    extreme: Extreme,
    inner: &'f Term,
    mask: u64,
    term: &'f Term,
    owners: &mut Vec<Owner<'f>>,
    code: &mut Vec<Instr>,
) -> Result<usize, NoMemory>
    ensures code { IfOk result (λ r. Adds
        (Makes (owners_of owners.new.items) (OfTerm term.now) r
        (Loads (owners_of owners.new.items) extreme inner.now) (λ q. instr.Mask r q mask))
        code.old.items code.new.items) }
    ensures grows { OnOk result (Grows (owners_of owners.old.items) (owners_of owners.new.items)) }
{
    let (inner, register) = load_inner(alloc, extreme, inner, term, owners, code)?;
    emit_to(code, register, Instr::Mask(register, inner, mask))
}

/// Appends the code for what a function gives of a term.
#[cycle(load)]
fn load_call<'f>(
    alloc: Global,
    function: Function,
    inner: &'f Term,
    term: &'f Term,
    owners: &mut Vec<Owner<'f>>,
    code: &mut Vec<Instr>,
) -> Result<usize, NoMemory>
    ensures code { IfOk result (λ r. Adds
        (LoadsCall (owners_of owners.new.items) function (OfTerm term.now) inner.now
        (λ e. Loads (owners_of owners.new.items) e inner.now) r)
        code.old.items code.new.items) }
    ensures grows { OnOk result (Grows (owners_of owners.old.items) (owners_of owners.new.items)) }
{
    match function {
        Function::Count => load_count(alloc, inner, term, owners, code),
        Function::Min => load_extreme(alloc, Extreme::Least, inner, term, owners, code),
        Function::Max => load_extreme(alloc, Extreme::Greatest, inner, term, owners, code),
        Function::Len | Function::Upper | Function::Lower => {
            load_each(alloc, function, inner, term, owners, code)
        }
    }
}

/// Appends the code for `count`.
#[cycle(load)]
fn load_count<'f>(
    alloc: Global,
    inner: &'f Term,
    term: &'f Term,
    owners: &mut Vec<Owner<'f>>,
    code: &mut Vec<Instr>,
) -> Result<usize, NoMemory>
    ensures code { IfOk result (λ r. Adds
        (LoadsCall (owners_of owners.new.items) Count (OfTerm term.now) inner.now
        (λ e. Loads (owners_of owners.new.items) e inner.now) r)
        code.old.items code.new.items) }
    ensures grows { OnOk result (Grows (owners_of owners.old.items) (owners_of owners.new.items)) }
{
    match inner {
        Term::Field(field, layers) => count_field(alloc, *field, layers, term, owners, code),
        inner => load_each(alloc, Function::Count, inner, term, owners, code),
    }
}

/// Appends the code for how many values a field has.
fn count_field<'f>(
    alloc: Global,
    field: FieldId,
    layers: &Layers,
    term: &'f Term,
    owners: &mut Vec<Owner<'f>>,
    code: &mut Vec<Instr>,
) -> Result<usize, NoMemory>
    ensures code { IfOk result (λ r. Sets (owners_of owners.new.items) (OfTerm term.now) r
        (instr.Count r field layers.now) code.old.items code.new.items) }
    ensures grows { OnOk result (Grows (owners_of owners.old.items) (owners_of owners.new.items)) }
{
    let register = own(owners, Owner::OfTerm(term))?;
    match copied_layers(alloc, layers) {
        Ok(layers) => emit_to(code, register, Instr::Count(register, field, layers)),
        Err(NoMemory) => Err(NoMemory),
    }
}

/// Appends the code for `min` and `max`. Several arguments make what is asked for by themselves.
#[cycle(load)]
fn load_extreme<'f>(
    alloc: Global,
    extreme: Extreme,
    inner: &'f Term,
    term: &'f Term,
    owners: &mut Vec<Owner<'f>>,
    code: &mut Vec<Instr>,
) -> Result<usize, NoMemory>
    ensures code { IfOk result (λ r. Adds
        (LoadsExtreme (owners_of owners.new.items) extreme (OfTerm term.now) inner.now
        (Loads (owners_of owners.new.items) extreme inner.now) r)
        code.old.items code.new.items) }
    ensures grows { OnOk result (Grows (owners_of owners.old.items) (owners_of owners.new.items)) }
{
    if is_several(inner) {
        return load(alloc, extreme, inner, owners, code);
    }
    let (arguments, register) = load_inner(alloc, extreme, inner, term, owners, code)?;
    emit_to(
        code,
        register,
        Instr::Choose(register, extreme, arguments, arguments),
    )
}

/// Whether a term is several arguments.
fn is_several(term: &Term) -> bool
    ensures { result ≡ is_several_term term.now }
{
    matches!(term, Term::Arguments(_, _))
}

/// Appends the code for what a function gives of each value.
#[cycle(load)]
fn load_each<'f>(
    alloc: Global,
    function: Function,
    inner: &'f Term,
    term: &'f Term,
    owners: &mut Vec<Owner<'f>>,
    code: &mut Vec<Instr>,
) -> Result<usize, NoMemory>
    ensures code { IfOk result (λ r. Adds
        (Makes (owners_of owners.new.items) (OfTerm term.now) r
        (Loads (owners_of owners.new.items) Least inner.now) (λ q. instr.Call r function q))
        code.old.items code.new.items) }
    ensures grows { OnOk result (Grows (owners_of owners.old.items) (owners_of owners.new.items)) }
{
    let (inner, register) = load_inner(alloc, Extreme::Least, inner, term, owners, code)?;
    emit_to(code, register, Instr::Call(register, function, inner))
}

/// Appends the code for the term that another is made of. Gives the register that it sets, and one for the other.
#[cycle(load)]
fn load_inner<'f>(
    alloc: Global,
    extreme: Extreme,
    inner: &'f Term,
    term: &'f Term,
    owners: &mut Vec<Owner<'f>>,
    code: &mut Vec<Instr>,
) -> Result<(usize, usize), NoMemory>
    ensures code { IfOk result (λ both. Adds
        (Loads (owners_of owners.new.items) extreme inner.now both.0)
        code.old.items code.new.items) }
    ensures owned { IfOk result (λ both.
        IsOwned (owners_of owners.new.items) both.1 (OfTerm term.now)) }
    ensures grows { OnOk result (Grows (owners_of owners.old.items) (owners_of owners.new.items)) }
{
    let inner = load(alloc, extreme, inner, owners, code)?;
    let register = own(owners, Owner::OfTerm(term))?;
    Ok((inner, register))
}
