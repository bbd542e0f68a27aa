ghost use Rattle.std.specs.Prelude.{◌≡◌};
ghost use Rattle.flt_typed.specs.Kinds.{takes, admits_prefix, kind_of_right};

use crate::kinds::{is_measured, is_truth};
use pk_fields::ValueKind;

/// How a pair of single values is compared.
#[derive(Clone, Copy)]
pub enum Relation {
    Equal,
    Unequal,
    Greater,
    Less,
    AtLeast,
    AtMost,
    /// The left value's bytes have the right one's in them.
    Contains,
}

/// Whether a left operand of this kind can stand in the relation.
pub fn takes(relation: Relation, kind: ValueKind) -> bool
    ensures { result ≡ takes relation kind }
{
    match relation {
        Relation::Equal | Relation::Unequal => true,
        Relation::Greater | Relation::Less | Relation::AtLeast | Relation::AtMost => {
            !is_truth(kind)
        }
        Relation::Contains => is_measured(kind),
    }
}

/// Whether the literal of an address can have a prefix length in the relation.
pub fn admits_prefix(relation: Relation) -> bool
    ensures { result ≡ admits_prefix relation }
{
    matches!(relation, Relation::Equal | Relation::Unequal)
}

/// The kind by which a literal is read to the right of the relation, where the left operand has this kind.
pub fn kind_of_right(relation: Relation, kind: ValueKind) -> ValueKind
    ensures { result ≡ kind_of_right relation kind }
{
    match relation {
        Relation::Contains => ValueKind::Bytes,
        _ => kind,
    }
}
