// Whose the registers are.
ghost use Rattle.std.specs.Prelude.{◌≡◌, IfOk, IsTrue, OnOk};
ghost use Rattle.flt_code.specs.Owners.{Grows, IsOwned, OfTerm, owner_of, owners_of};
ghost use Rattle.flt_typed.specs.declared.typed.Term.TheVariants.{Field};

use flt_typed::{Extreme, Term, Typed};
use pk_base::{Layers, NoMemory};
use pk_fields::FieldId;

/// Whose a register is.
#[derive(Clone, Copy)]
pub(crate) enum Owner<'f> {
    /// It holds the values of a term.
    OfTerm(&'f Term),
    /// It holds the least or the greatest number of a term.
    OfExtreme(Extreme, &'f Term),
    /// It keeps the truth of a part of the filter.
    OfPart(&'f Typed),
}

/// A register for an owner.
#[tactic(auto, using(crate::proofs::OwnerLemmas::owned_last, crate::proofs::OwnerLemmas::owners_grow))]
pub(crate) fn own<'f>(owners: &mut Vec<Owner<'f>>, owner: Owner<'f>) -> Result<usize, NoMemory>
    ensures owned { IfOk result (λ r. IsOwned (owners_of owners.new.items) r (owner_of owner.entry)) }
    ensures grows { OnOk result (Grows (owners_of owners.old.items) (owners_of owners.new.items)) }
{
    let register = owners.len();
    owners.push(owner)?;
    Ok(register)
}

/// The register of a field, which it shares with each other use of the field in all its layers.
pub(crate) fn register_for<'f>(
    owners: &mut Vec<Owner<'f>>,
    term: &'f Term,
    field: FieldId,
    layers: &Layers,
) -> Result<usize, NoMemory>
    requires { term.now ≡ Field field layers.now }
    ensures owned { IfOk result (λ r. IsOwned (owners_of owners.new.items) r (OfTerm term.now)) }
    ensures grows { OnOk result (Grows (owners_of owners.old.items) (owners_of owners.new.items)) }
{
    for register in 0..owners.len() {
        if is_of_field(&owners[register], field, layers) {
            return Ok(register);
        }
    }
    own(owners, Owner::OfTerm(term))
}

/// Whether a register is the field's, in the same layers. Chosen layers aren't compared.
fn is_of_field(owner: &Owner<'_>, field: FieldId, layers: &Layers) -> bool
    ensures { IsTrue result → owner_of owner.now ≡ OfTerm (Field field layers.now) }
{
    match owner {
        Owner::OfTerm(Term::Field(other, all)) => *other == field && are_all(all, layers),
        _ => false,
    }
}

/// Whether both are all layers.
fn are_all(left: &Layers, right: &Layers) -> bool
    ensures { IsTrue result → left.now ≡ right.now }
{
    matches!((left, right), (Layers::All, Layers::All))
}
