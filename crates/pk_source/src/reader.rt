// Fields of an outline that are read one after the other.
ghost use Rattle.std.specs.Prelude.{◌≡◌, ◌∷◌, [], false, length, IfSome, IsTrue};
ghost use Rattle.std.specs.List.{All as ForAll};
ghost use Rattle.pk_fields.specs.Fields.{row_of};
ghost use Rattle.pk_source.specs.Found.{IsOnlyOf};
ghost use Rattle.pk_source.specs.Outlines.{IsOutline, outlined};
ghost use Rattle.pk_source.specs.Picks.{Knows};
ghost use Rattle.pk_source.specs.Readers.{AreOutline, tree_of};
ghost use Rattle.pk_tree.specs.FieldValues.{values_of};
ghost use Rattle.pk_tree.specs.Values.{HasSize, is_proto, is_read, value_of};

use crate::found::{lone_header, lone_row};
use crate::header::{Header, Note};
use crate::picks::{Picks, Places};
use crate::reading::bytes_at;
use pk_base::{Layers, Octets};
use pk_fields::{FieldId, FieldSet, ids};
use std::marker::Model;

/// What an outline is made of.
#[derive(Clone, Copy)]
pub struct Parts<'f> {
    pub bytes: &'f Octets,
    pub wanted: &'f FieldSet,
    pub headers: &'f [Header],
    pub notes: &'f [Note],
    pub places: &'f Places,
}

/// Reads fields of an outline one after the other. It knows the only header of the protocol whose field was read last, so that the
/// fields of one protocol seek their header once.
#[derive(Drop)]
pub struct Reader<'f> {
    parts: Parts<'f>,
    /// The protocol of the field that was read last.
    home: FieldId,
    /// The only header of that protocol, where it has one.
    only: Option<&'f Header>,
}

impl<'f> Model for Reader<'f> {
    ghost use Rattle.std.specs.Prelude.{IfSome};
    ghost use Rattle.pk_source.specs.Found.{IsOnlyOf};
    ghost use Rattle.pk_source.specs.Readers.{AreOutline, tree_of};
    ghost use Rattle.pk_tree.specs.Trees.{TreeShown};

    ghost Value = { TreeShown };

    ghost view = { λ r. tree_of r.parts };

    ghost invariant = { λ r. AreOutline r.parts
        × IfSome r.only (λ header. IsOnlyOf r.home r.parts.headers.now header.now) };
}

impl<'f> Reader<'f> {
    #[inline(always)]
    pub(crate) fn new(parts: Parts<'f>) -> Reader<'f>
        requires { AreOutline parts }
        ensures { result ≡ tree_of parts.entry }
    {
        Reader {
            parts,
            home: ids::FRAME,
            only: None,
        }
    }

    /// The bytes of a field's only value in all layers, where the only header of the field's protocol has it by a row of a fixed
    /// place. Of other fields it knows nothing.
    #[inline(always)]
    pub fn only_bytes(&mut self, field: FieldId, home: FieldId) -> Option<&'f [u8]>
        requires home { home ≡ (row_of field).proto }
        requires plain { is_proto (row_of field).kind ≡ false }
        ensures value { IfSome result (λ bytes.
            values_of self.old field Layers.All ≡ value_of field bytes.now ∷ []) }
        ensures size { IfSome result (λ bytes. HasSize (row_of field).bits (length bytes.now)) }
        ensures read { IfSome result (λ _. IsTrue (is_read (row_of field))) }
        ensures same { self.new ≡ self.old }
    {
        self.only = only_of(self.parts.headers, home, self.home, self.only);
        self.home = home;
        bytes_of(&self.parts, self.only, field)
    }
}

/// The only header of a protocol, where it has one; that of the protocol that was asked last is known.
#[inline(always)]
fn only_of<'f>(
    headers: &'f [Header],
    home: FieldId,
    last: FieldId,
    only: Option<&'f Header>,
) -> Option<&'f Header>
    requires { IfSome only (λ header. IsOnlyOf last headers.now header.now) }
    ensures { IfSome result (λ header. IsOnlyOf home headers.now header.now) }
{
    if home == last {
        only
    } else {
        lone_header(headers, home)
    }
}

/// The bytes of a field's only value, by the only header of its protocol, if there is one.
#[inline(always)]
fn bytes_of<'f>(parts: &Parts<'f>, only: Option<&Header>, field: FieldId) -> Option<&'f [u8]>
    requires outline { AreOutline parts.now }
    requires only { IfSome only (λ header.
        IsOnlyOf (row_of field).proto parts.now.headers.now header.now) }
    requires plain { is_proto (row_of field).kind ≡ false }
    ensures value { IfSome result (λ bytes.
        values_of (tree_of parts.now) field Layers.All ≡ value_of field bytes.now ∷ []) }
    ensures size { IfSome result (λ bytes. HasSize (row_of field).bits (length bytes.now)) }
    ensures read { IfSome result (λ _. IsTrue (is_read (row_of field))) }
{
    match only {
        Some(header) => bytes_in(parts, header, field),
        None => None,
    }
}

#[inline(always)]
fn bytes_in<'f>(parts: &Parts<'f>, header: &Header, field: FieldId) -> Option<&'f [u8]>
    requires outline { AreOutline parts.now }
    requires only { IsOnlyOf (row_of field).proto parts.now.headers.now header.now }
    requires plain { is_proto (row_of field).kind ≡ false }
    ensures value { IfSome result (λ bytes.
        values_of (tree_of parts.now) field Layers.All ≡ value_of field bytes.now ∷ []) }
    ensures size { IfSome result (λ bytes. HasSize (row_of field).bits (length bytes.now)) }
    ensures read { IfSome result (λ _. IsTrue (is_read (row_of field))) }
{
    let Picks::Once(number) = parts.places.picks(field) else {
        return None;
    };
    match lone_row(parts.wanted, parts.notes, header, number, field) {
        Some(span) => Some(bytes_at(parts.bytes, span)),
        None => None,
    }
}
