// The first value of a field, without a value being made.
ghost use Rattle.std.specs.Prelude.{◌≡◌, ◌∷◌, [], ℕ, Some};
ghost use Rattle.pk_source.specs.Firsts.{IsReadBy, first_value};
ghost use Rattle.pk_source.specs.Found.{IsReadable, value_at};

use crate::header::Told;
use crate::reading::bytes_at;
use pk_base::Octets;

/// The first value of a field, or the bytes that hold it.
#[derive(Clone, Copy)]
pub enum First<'b> {
    Nothing,
    /// The field's row reads it in these bytes; of a protocol, they are the bytes of its layer.
    Bytes(&'b [u8]),
    Number(u64),
    /// Nanoseconds.
    Moment(i128),
}

/// The first value of a field, and whether others follow it.
#[derive(Clone, Copy)]
pub struct FirstFound<'b> {
    pub first: First<'b>,
    pub more: bool,
}

/// What stands at a place.
#[inline(always)]
pub(crate) fn first_of(bytes: &Octets, told: Told) -> First<'_>
    requires { (field : ℕ) × IsReadable (bytes.now ∷ []) field told }
    ensures value { (field : ℕ)
        → first_value field result ≡ Some (value_at (bytes.now ∷ []) field told) }
    ensures reads { (field : ℕ) → IsReadable (bytes.now ∷ []) field told → IsReadBy field result }
{
    match told {
        Told::Read(span) => First::Bytes(bytes_at(bytes, span)),
        Told::Number(number) => First::Number(number),
        Told::Moment(time) => First::Moment(time),
    }
}
