ghost use Rattle.std.specs.Prelude.{◌≡◌, ◌<◌, length, IfOk, IsTrue};
ghost use Rattle.pk_tree.specs.Buffers.{IsInside};
ghost use Rattle.pk_fields.specs.Fields.{row_of};
ghost use Rattle.pk_fields.specs.Ids.{UDP, TCP};
ghost use Rattle.pk_tree.specs.Trees.{last_proto};
ghost use Rattle.pk_tree.specs.Values.{HasSize, is_read};
ghost use Rattle.tcp_streams.specs.Labels.{PassesNear};
ghost use Rattle.app_layers.specs.Payloads.{LastIs, with_payload, with_ack, with_lost, datagram_told, place_told, carried_told, segment_told};

use pk_base::{NoMemory, Span, Value};
use pk_fields::{FieldId, ids};
use pk_tree::TreeBuilder;
use tcp_streams::Taken;

/// Tells of a datagram, with the number of its conversation, in the layer of its UDP header.
#[tactic(auto, unfolding(crate::specs::Payloads::datagram_told, pk_fields::specs::Fields::row_of, pk_fields::specs::Table::rows))]
pub fn tell_datagram(stream: u32, span: Span, tree: &mut TreeBuilder) -> Result<(), NoMemory>
    requires inside { IsInside tree.old.buffers span }
    requires last { LastIs UDP tree.old.layers }
    ensures tree { IfOk result (λ _. tree.new ≡ datagram_told tree.old stream span) }
    ensures buffers { tree.new.buffers ≡ tree.old.buffers }
    ensures count { length tree.new.layers ≡ length tree.old.layers }
{
    tree.made_item(ids::UDP_STREAM, Value::Uint(u64::from(stream)))?;
    add_payload(ids::UDP_PAYLOAD, span, tree)
}

/// Tells what a segment is to its stream, in the layer of its TCP header.
#[tactic(auto, unfolding(crate::specs::Payloads::segment_told, pk_fields::specs::Fields::row_of, pk_fields::specs::Table::rows))]
pub fn tell_segment(taken: &Taken, span: Span, tree: &mut TreeBuilder) -> Result<(), NoMemory>
    requires inside { IsInside tree.old.buffers span }
    requires last { LastIs TCP tree.old.layers }
    requires near { PassesNear taken.now }
    ensures tree { IfOk result (λ _. tree.new ≡ segment_told tree.old taken.now span) }
    ensures buffers { tree.new.buffers ≡ tree.old.buffers }
    ensures count { length tree.new.layers ≡ length tree.old.layers }
    ensures same_last { last_proto tree.new.layers ≡ last_proto tree.old.layers }
{
    tell_place(taken, tree)?;
    tell_carried(span, tree)?;
    tell_lost(taken.lost_bytes(), tree)
}

/// Tells what a segment carries, in the layer of its TCP header.
#[tactic(auto, unfolding(pk_fields::specs::Fields::row_of, pk_fields::specs::Table::rows))]
pub fn tell_carried(span: Span, tree: &mut TreeBuilder) -> Result<(), NoMemory>
    requires inside { IsInside tree.old.buffers span }
    requires last { LastIs TCP tree.old.layers }
    ensures tree { IfOk result (λ _. tree.new ≡ carried_told tree.old span) }
    ensures buffers { tree.new.buffers ≡ tree.old.buffers }
    ensures count { length tree.new.layers ≡ length tree.old.layers }
    ensures same_last { last_proto tree.new.layers ≡ last_proto tree.old.layers }
{
    tree.made_item(ids::TCP_LEN, Value::Uint(u64::from(span.len)))?;
    add_payload(ids::TCP_PAYLOAD, span, tree)
}

/// Tells of a segment's stream, and of its place in it.
#[tactic(auto, unfolding(crate::specs::Payloads::place_told, pk_fields::specs::Fields::row_of, pk_fields::specs::Table::rows))]
fn tell_place(taken: &Taken, tree: &mut TreeBuilder) -> Result<(), NoMemory>
    requires last { LastIs TCP tree.old.layers }
    ensures tree { IfOk result (λ _. tree.new ≡ place_told tree.old taken.now) }
    ensures buffers { tree.new.buffers ≡ tree.old.buffers }
    ensures count { length tree.new.layers ≡ length tree.old.layers }
    ensures same_last { last_proto tree.new.layers ≡ last_proto tree.old.layers }
{
    tree.made_item(ids::TCP_STREAM, Value::Uint(u64::from(taken.stream)))?;
    tree.made_item(ids::TCP_SEQ, Value::Uint(u64::from(taken.seq)))?;
    tell_ack(taken.ack, tree)
}

#[tactic(auto, unfolding(pk_fields::specs::Fields::row_of, pk_fields::specs::Table::rows))]
fn tell_ack(ack: Option<u32>, tree: &mut TreeBuilder) -> Result<(), NoMemory>
    requires last { LastIs TCP tree.old.layers }
    ensures tree { IfOk result (λ _. tree.new ≡ with_ack tree.old ack) }
    ensures buffers { tree.new.buffers ≡ tree.old.buffers }
    ensures count { length tree.new.layers ≡ length tree.old.layers }
    ensures same_last { last_proto tree.new.layers ≡ last_proto tree.old.layers }
{
    match ack {
        Some(ack) => tree.made_item(ids::TCP_ACK, Value::Uint(u64::from(ack))),
        None => Ok(()),
    }
}

/// Tells how many bytes the capture hasn't. There is no item for none.
#[tactic(auto, unfolding(pk_fields::specs::Fields::row_of, pk_fields::specs::Table::rows))]
fn tell_lost(lost: u32, tree: &mut TreeBuilder) -> Result<(), NoMemory>
    requires last { LastIs TCP tree.old.layers }
    ensures tree { IfOk result (λ _. tree.new ≡ with_lost tree.old lost) }
    ensures buffers { tree.new.buffers ≡ tree.old.buffers }
    ensures count { length tree.new.layers ≡ length tree.old.layers }
    ensures same_last { last_proto tree.new.layers ≡ last_proto tree.old.layers }
{
    if lost == 0 {
        return Ok(());
    }
    tree.made_item(ids::TCP_LOST, Value::Uint(u64::from(lost)))
}

/// Adds the bytes of a payload to the last layer. There is no item for no bytes.
fn add_payload(field: FieldId, span: Span, tree: &mut TreeBuilder) -> Result<(), NoMemory>
    requires inside { IsInside tree.old.buffers span }
    requires read { IsTrue (is_read (row_of field)) }
    requires size { HasSize (row_of field).bits span.len }
    requires last { LastIs (row_of field).proto tree.old.layers }
    ensures tree { IfOk result (λ _. tree.new ≡ with_payload tree.old field span) }
    ensures buffers { tree.new.buffers ≡ tree.old.buffers }
    ensures count { length tree.new.layers ≡ length tree.old.layers }
    ensures same_last { last_proto tree.new.layers ≡ last_proto tree.old.layers }
{
    if span.len == 0 {
        return Ok(());
    }
    tree.read_item(field, span)
}
