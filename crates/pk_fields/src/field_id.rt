ghost use Rattle.std.specs.Prelude.{◌≡◌};
ghost use Rattle.pk_fields.specs.Fields.{IsField};

use std::marker::Model;

/// A field or a protocol: its place in the table.
#[derive(Clone, Copy, PartialEq, Eq)]
pub struct FieldId(pub u16);

impl Model for FieldId {
    ghost use Rattle.std.specs.Prelude.{ℕ};
    ghost use Rattle.pk_fields.specs.Fields.{IsField};

    ghost Value = { ℕ };

    ghost view = { λ field. field.0 };

    ghost invariant = { λ field. IsField field.0 };

    ghost inverse = { λ number. record { 0 = number } };
}

/// The field of a number.
pub fn field_of(number: u16) -> FieldId
    requires { IsField number }
    ensures { result ≡ number }
{
    FieldId(number)
}
