ghost use Rattle.std.specs.Prelude.{◌≡◌, ◌+◌, ◌<◌, ◌≤◌, ◌^◌, length, IfOk, OnOk};
ghost use Rattle.pk_tree.specs.Buffers.{IsInside};
ghost use Rattle.pk_tree.specs.Following.{LeadsInside};
ghost use Rattle.app_layers.specs.Applications.{data_behind, payload_over};
ghost use Rattle.app_layers.specs.MessageLayers.{in_streams, stream_app};

use crate::data_layer::add_data;
use crate::rows::{framer_of, read_datagram};
use crate::streamed::StreamApp;
use pk_base::{After, NoMemory, Span};
use pk_fields::{App, PortRule, tcp_app};
use pk_tree::TreeBuilder;

/// The application of a stream, by the ports of one of its segments.
#[tactic(auto, unfolding(crate::specs::MessageLayers::stream_app))]
pub fn stream_app(rules: &[PortRule], source: u16, target: u16) -> Option<StreamApp>
    ensures { result ≡ stream_app rules.now source target }
{
    in_streams(tcp_app(rules, source, target))
}

/// The applications that have messages in streams.
fn in_streams(app: Option<App>) -> Option<StreamApp>
    ensures { result ≡ in_streams app }
{
    let app = app?;
    let framer = framer_of(app)?;
    Some(StreamApp { app, framer })
}

/// Reads the payload of a datagram by its application. One of no bytes is no message.
#[tactic(auto, unfolding(crate::specs::Applications::payload_over))]
pub fn add_message(
    app: Option<App>,
    cut: bool,
    span: Span,
    tree: &mut TreeBuilder,
) -> Result<(), NoMemory>
    requires inside { IsInside tree.old.buffers span }
    requires room { length tree.old.layers + 4 < 2 ^ 32 }
    ensures tree { IfOk result (λ _. tree.new ≡ payload_over app tree.old cut span) }
    ensures buffers { tree.new.buffers ≡ tree.old.buffers }
    ensures most { OnOk result (length tree.new.layers ≤ length tree.old.layers + 4) }
{
    if span.len == 0 {
        return Ok(());
    }
    match app {
        Some(app) => read_datagram(app, cut, span, tree),
        None => add_data(span, tree),
    }
}

/// Shows what follows a layer as data.
pub(crate) fn add_rest(after: After, tree: &mut TreeBuilder) -> Result<(), NoMemory>
    requires inside { LeadsInside tree.old.buffers after }
    requires room { length tree.old.layers + 2 < 2 ^ 32 }
    ensures tree { IfOk result (λ _. tree.new ≡ data_behind tree.old after) }
    ensures buffers { tree.new.buffers ≡ tree.old.buffers }
    ensures most { OnOk result (length tree.new.layers ≤ length tree.old.layers + 2) }
{
    match after {
        After::Next(_, span) => add_data(span, tree),
        After::Packet(_, _, _)
        | After::Fragment(_, _)
        | After::Datagram(_, _)
        | After::Segment(_, _)
        | After::End => Ok(()),
    }
}
