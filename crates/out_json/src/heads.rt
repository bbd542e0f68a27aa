// What stands before the values of items, and around the items of layers.
ghost use Rattle.std.specs.Prelude.{◌≡◌, ◌+◌, ◌≤◌, length};
ghost use Rattle.pk_text.specs.Places.{Placed};
ghost use Rattle.out_json.specs.Heads.{counted, layer_head, layer_tail, made_head, named, placed_head};

use pk_base::Span;
use pk_fields::{FieldId, name};
use pk_text::{ShortText, place, place_byte, place_number};

/// What stands before the value of an item with a place.
#[derive(Clone, Copy)]
pub(crate) struct PlacedHead {
    pub(crate) field: FieldId,
    pub(crate) span: Span,
}

impl ShortText for PlacedHead {
    ghost text = { λ head. placed_head head.field head.span };

    #[inline(always)]
    fn place(&self, room: &mut [u8]) -> usize {
        let at = place_count(room, 0, b"{\"buf\":", self.span.buffer);
        let at = place_name(room, at, b",\"name\":\"", self.field);
        let at = place_count(room, at, b",\"pos\":", self.span.start);
        let at = place_count(room, at, b",\"size\":", self.span.len);
        place(room, at, b",\"value\":")
    }
}

/// What stands before the value of an item without a place.
#[derive(Clone, Copy)]
pub(crate) struct MadeHead {
    pub(crate) field: FieldId,
}

impl ShortText for MadeHead {
    ghost text = { λ head. made_head head.field };

    #[inline(always)]
    fn place(&self, room: &mut [u8]) -> usize {
        let at = place_name(room, 0, b"{\"name\":\"", self.field);
        place(room, at, b",\"value\":")
    }
}

/// What stands before the items of a layer.
#[derive(Clone, Copy)]
pub(crate) struct LayerHead {
    pub(crate) buffer: u32,
}

impl ShortText for LayerHead {
    ghost text = { λ head. layer_head head.buffer };

    #[inline(always)]
    fn place(&self, room: &mut [u8]) -> usize {
        let at = place_count(room, 0, b"{\"buf\":", self.buffer);
        place(room, at, b",\"items\":[")
    }
}

/// What stands behind the items of a layer.
#[derive(Clone, Copy)]
pub(crate) struct LayerTail {
    pub(crate) nth: u32,
    pub(crate) span: Span,
    pub(crate) proto: FieldId,
}

impl ShortText for LayerTail {
    ghost text = { λ tail. layer_tail tail.nth tail.span tail.proto };

    fn place(&self, room: &mut [u8]) -> usize {
        let at = place_count(room, 0, b",\"nth\":", self.nth);
        let at = place_count(room, at, b",\"pos\":", self.span.start);
        let at = place_name(room, at, b",\"proto\":\"", self.proto);
        let at = place_count(room, at, b",\"size\":", self.span.len);
        place_byte(room, at, b'}')
    }
}

/// Stores a key and a number.
#[inline(always)]
fn place_count(room: &mut [u8], at: usize, key: &[u8], number: u32) -> usize
    requires { at + length key.now + 20 ≤ length room.old }
    ensures text { Placed room.old room.new at (counted key.now number) result }
    ensures short { result ≤ at + length key.now + 20 }
{
    let at = place(room, at, key);
    place_number(room, at, u64::from(number))
}

/// Stores a key and the name of a field or a protocol.
#[inline(always)]
#[tactic(auto, using(crate::proofs::Bare::short_name))]
fn place_name(room: &mut [u8], at: usize, key: &[u8], field: FieldId) -> usize
    requires { at + length key.now + 65 ≤ length room.old }
    ensures text { Placed room.old room.new at (named key.now field) result }
    ensures short { result ≤ at + length key.now + 65 }
{
    let at = place(room, at, key);
    let at = place(room, at, name(field).as_bytes());
    place_byte(room, at, b'"')
}
