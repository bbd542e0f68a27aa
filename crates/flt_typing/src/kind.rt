// The kind of what has values in a tree.
ghost use Rattle.std.specs.Prelude.{◌≡◌};
ghost use Rattle.flt_typing.specs.Terms.{kind_of as kind_of_term};

use flt_typed::{Term, kind_of_call, kind_of_value};
use pk_fields::{ValueKind, kind};

/// What arithmetic gives, and the kind by which its numbers are read.
pub const NUMBER: ValueKind = ValueKind::Uint(64);

/// The kind of a term's values.
pub fn kind_of(term: &Term) -> ValueKind
    ensures { result ≡ kind_of_term term.now }
{
    match term {
        Term::Constant(constant) => kind_of_value(&constant.value),
        Term::Field(field, _) => kind(*field),
        Term::Slice(_, _) => ValueKind::Bytes,
        Term::Mask(inner, _) => kind_of(inner),
        Term::Called(function, _) => kind_of_call(*function),
        Term::Computed(_, _, _) | Term::Arguments(_, _) => NUMBER,
    }
}
