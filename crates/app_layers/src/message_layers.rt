ghost use Rattle.std.specs.Prelude.{◌≡◌, ◌+◌, ◌<◌, ◌≤◌, ◌^◌, All, Bool, ◌∷◌, [], length, IfOk, OnOk};
ghost use Rattle.pk_tree.specs.Buffers.{IsInside, bytes_of};
ghost use Rattle.pk_fields.specs.Ids.{TCP};
ghost use Rattle.pk_tree.specs.Layouts.{within};
ghost use Rattle.pk_tree.specs.Trees.{last_proto, with_buffer};
ghost use Rattle.tcp_messages.specs.Shown.{IsMessage, IsWholeIn, frames_told as gathered_from};
ghost use Rattle.app_layers.specs.MessageLayers.{added_span, carried_over, message_over, messages_over, told_over, with_segments};
ghost use Rattle.app_layers.specs.Payloads.{LastIs};

use crate::data_layer::add_data;
use crate::rows::read_sized;
use crate::streamed::StreamApp;
use dis_http::read_http;
use pk_base::{NoMemory, Octets, Span, Value};
use pk_fields::{App, ids};
use pk_tree::TreeBuilder;
use stream_messages::Told;
use tcp_messages::{Met, ShownMessage, Source};

/// Shows what a segment carries: the messages that its frame shows, or its bytes as data where its stream has no application.
#[tactic(auto, unfolding(crate::specs::MessageLayers::carried_over))]
pub fn add_carried(
    app: Option<StreamApp>,
    met: &Met,
    cut: bool,
    span: Span,
    tree: &mut TreeBuilder,
) -> Result<(), NoMemory>
    requires inside { IsInside tree.old.buffers span }
    requires last { LastIs TCP tree.old.layers }
    requires layers { length tree.old.layers < 2 ^ 31 }
    requires buffers { length tree.old.buffers < 2 ^ 31 }
    requires frames { met.now.frames ≡ gathered_from met.now.messages }
    requires whole { All (IsWholeIn (bytes_of tree.old.buffers span)) met.now.messages }
    ensures tree { OnOk result (tree.new ≡ carried_over app cut span tree.old met.now.messages) }
{
    let Some(streamed) = app else {
        return add_data(span, tree);
    };
    tell_segments(met.frames.slice(), tree)?;
    put_messages(streamed.app, met.messages.slice(), cut, span, tree)
}

/// Shows what a segment carries of which no message is shown: its bytes as data where its stream has no application.
#[tactic(auto, unfolding(crate::specs::MessageLayers::carried_over))]
pub fn add_passed(
    app: Option<StreamApp>,
    span: Span,
    tree: &mut TreeBuilder,
) -> Result<(), NoMemory>
    requires inside { IsInside tree.old.buffers span }
    requires room { length tree.old.layers + 2 < 2 ^ 32 }
    ensures { OnOk result ((cut : Bool) → tree.new ≡ carried_over app cut span tree.old []) }
{
    match app {
        None => add_data(span, tree),
        Some(_) => Ok(()),
    }
}

/// Tells the frames that brought the bytes of messages, in the layer of a TCP header.
fn tell_segments(frames: &[u32], tree: &mut TreeBuilder) -> Result<(), NoMemory>
    requires last { LastIs TCP tree.old.layers }
    ensures tree { OnOk result (tree.new ≡ with_segments tree.old frames.now) }
    ensures buffers { tree.new.buffers ≡ tree.old.buffers }
    ensures count { length tree.new.layers ≡ length tree.old.layers }
{
    for frame in frames {
        tell_segment_frame(*frame, tree)?;
    }
    Ok(())
}

#[tactic(auto, unfolding(pk_fields::specs::Fields::row_of, pk_fields::specs::Table::rows))]
fn tell_segment_frame(frame: u32, tree: &mut TreeBuilder) -> Result<(), NoMemory>
    requires last { LastIs TCP tree.old.layers }
    ensures tree { OnOk result (tree.new ≡ with_segments tree.old (frame ∷ [])) }
    ensures buffers { tree.new.buffers ≡ tree.old.buffers }
    ensures count { length tree.new.layers ≡ length tree.old.layers }
    ensures same_last { last_proto tree.new.layers ≡ last_proto tree.old.layers }
{
    tree.made_item(ids::TCP_SEGMENT, Value::Uint(u64::from(frame)))
}

/// Shows messages of a stream, one behind the other, in the bytes of the segment that brought them, or else in buffers of their
/// own.
pub(crate) fn put_messages(
    app: App,
    messages: &[ShownMessage],
    cut: bool,
    span: Span,
    tree: &mut TreeBuilder,
) -> Result<(), NoMemory>
    requires inside { IsInside tree.old.buffers span }
    requires layers { length tree.old.layers < 2 ^ 31 }
    requires buffers { length tree.old.buffers < 2 ^ 31 }
    requires few { length messages.now ≤ 2 ^ 25 }
    requires whole { All (IsWholeIn (bytes_of tree.old.buffers span)) messages.now }
    ensures tree { OnOk result (tree.new ≡ messages_over app cut span tree.old messages.now) }
{
    for message in messages {
        put_message(app, message, cut, span, tree)?;
    }
    Ok(())
}

/// Shows a message.
#[tactic(auto, unfolding(crate::specs::MessageLayers::message_over))]
fn put_message(
    app: App,
    message: &ShownMessage,
    cut: bool,
    span: Span,
    tree: &mut TreeBuilder,
) -> Result<(), NoMemory>
    requires inside { IsInside tree.old.buffers span }
    requires layers { length tree.old.layers + 2 < 2 ^ 32 }
    requires buffers { length tree.old.buffers + 2 < 2 ^ 32 }
    requires whole { IsWholeIn (bytes_of tree.old.buffers span) message.now }
    ensures tree { OnOk result (tree.new ≡ message_over app cut span tree.old message.now) }
    ensures most { OnOk result (length tree.new.layers ≤ length tree.old.layers + 2) }
{
    let told = &message.message.told;
    match &message.source {
        Source::Segment(place) => {
            let _bytes = tree.bytes(span);
            put_told(app, told, cut, part_of(span, *place, told.end()), tree)
        }
        Source::Gathered(gathered) => {
            let whole = add_bytes(&gathered.bytes, tree)?;
            put_told(app, told, cut, whole, tree)
        }
    }
}

/// Reads a message, whose bytes are those of a span.
#[tactic(auto, using(crate::proofs::MessageLemmas::http_shape))]
fn put_told(
    app: App,
    told: &Told,
    cut: bool,
    span: Span,
    tree: &mut TreeBuilder,
) -> Result<(), NoMemory>
    requires inside { IsInside tree.old.buffers span }
    requires layers { length tree.old.layers + 2 < 2 ^ 32 }
    requires buffers { length tree.old.buffers + 1 < 2 ^ 32 }
    requires whole { IsMessage told.now (bytes_of tree.old.buffers span) }
    ensures tree { OnOk result (tree.new ≡ told_over app cut tree.old span told.now) }
    ensures most { OnOk result (length tree.new.layers ≤ length tree.old.layers + 2) }
{
    match told {
        Told::Sized(_) => read_sized(app, cut, span, tree),
        Told::Http(shape) => read_http(span, shape, tree),
    }
}

/// So many bytes of a span from a place on.
fn part_of(span: Span, place: usize, len: usize) -> Span
    requires within { place + len ≤ span.len }
    requires end { span.start + span.len < 2 ^ 32 }
    ensures { result ≡ within span place len }
{
    Span {
        buffer: span.buffer,
        start: span.start + place as u32,
        len: len as u32,
    }
}

/// Adds bytes as a buffer, and answers the span of all of them.
#[tactic(auto, using(crate::proofs::MessageLemmas::added_inside, crate::proofs::MessageLemmas::added_bytes))]
fn add_bytes(bytes: &Octets, tree: &mut TreeBuilder) -> Result<Span, NoMemory>
    requires buffers { length tree.old.buffers + 1 < 2 ^ 32 }
    requires short { length bytes.now < 2 ^ 32 }
    ensures tree { OnOk result (tree.new ≡ with_buffer tree.old bytes.now) }
    ensures span { IfOk result (λ span. span ≡ added_span tree.old bytes.now) }
    ensures inside { IfOk result (λ span. IsInside tree.new.buffers span) }
    ensures whole { IfOk result (λ span. bytes_of tree.new.buffers span ≡ bytes.now) }
    ensures layers { tree.new.layers ≡ tree.old.layers }
    ensures buffers { OnOk result (length tree.new.buffers ≡ length tree.old.buffers + 1) }
{
    let len = bytes.bytes().len() as u32;
    let buffer = tree.add_buffer(bytes.clone()?)?;
    Ok(Span {
        buffer,
        start: 0,
        len,
    })
}
