ghost use Rattle.std.specs.Prelude.{◌≡◌, ◌+◌, ◌-◌, ◌<◌, ◌≤◌, ◌^◌, ◌∷◌, All, Bool, true, List, [], length, Option, IfOk, OnOk};
ghost use Rattle.pk_base.specs.declared.heads.PacketHead.{PacketHead as PacketValue};
ghost use Rattle.pk_base.specs.declared.heads.TcpHead.{TcpHead as TcpValue};
ghost use Rattle.pk_fields.specs.declared.rules.PortRule.{PortRule as PortRuleValue};
ghost use Rattle.pk_tree.specs.Buffers.{IsInside, bytes_of};
ghost use Rattle.pk_fields.specs.Ids.{TCP};
ghost use Rattle.stream_messages.specs.declared.framer.Framer.{Framer as FramerValue};
ghost use Rattle.tcp_streams.specs.declared.segment.Segment.{Segment as SegmentValue};
ghost use Rattle.tcp_streams.specs.Labels.{PassesNear, taken_after};
ghost use Rattle.tcp_streams.specs.Standing.{bytes_so_far, taken_so_far};
ghost use Rattle.tcp_messages.specs.Readers.{IsOfEnds};
ghost use Rattle.tcp_messages.specs.Shown.{IsWholeIn, frames_told as gathered_from, shown_after};
ghost use Rattle.tcp_messages.specs.Standing.{streams_in};
ghost use Rattle.dissect.specs.Events.{Event};
ghost use Rattle.app_layers.specs.FrameLayer.{is_cut};
ghost use Rattle.message_links.specs.Notes.{shown_notes, tcp_direction};
ghost use Rattle.app_layers.specs.MessageLayers.{app_of_segment, application, carried_over, stream_app};
ghost use Rattle.app_layers.specs.Payloads.{LastIs, carried_told, segment_told};
ghost use Rattle.dissect.specs.Keeping.{is_followed, keeps_all, tells_places};
ghost use Rattle.dissect.specs.Segments.{segment_from};
ghost use Rattle.dissect.specs.Stands.{StandsAt, StreamsStand, IsWalked, IsReady, IsLinked, IsSameButLinks, AddsAtMost, AddsFew, AddsOneThenEnds};
ghost use Rattle.dissect.specs.Walks.{IsTodoInside, segment_met};

use crate::state::{State, let_go};
use crate::todo::Todo;
use app_layers::{
    StreamApp, add_carried, add_passed, application, framing, is_cut, stream_app, tell_carried,
    tell_segment,
};
use capture_read::Frame;
use pk_base::{Endpoint, NoMemory, Octets, PacketHead, Span, TcpHead};
use pk_fields::PortRule;
use pk_tree::TreeBuilder;
use stream_messages::Framer;
use tcp_messages::{MessageStreams, Met};
use tcp_streams::{Segment, Taken};

impl State {
    /// Takes a segment of TCP into its stream, or passes it over where nothing is asked of this.
    pub(crate) fn segment(
        &mut self,
        rules: &[PortRule],
        frame: &Frame,
        packet: PacketHead,
        head: TcpHead,
        span: Span,
        tree: &mut TreeBuilder,
    ) -> Result<Todo, NoMemory>
        requires inside { IsInside tree.old.buffers span }
        requires last { LastIs TCP tree.old.layers }
        requires bytes { length frame.now.bytes < 2 ^ 32 }
        requires ready { IsReady 2 span.len self.old tree.old }
        ensures inside { IfOk result (λ todo. IsTodoInside tree.new.buffers todo) }
        ensures walked { IfOk result (λ todo. (es : List Event) → StandsAt rules.now es self.old
            → IsWalked rules.now (segment_met rules.now frame.now packet tree.old es head span)
            self.new tree.new todo) }
        ensures adds { IfOk result (λ todo. AddsOneThenEnds span.len self.old self.new todo) }
        ensures added { AddsAtMost 1 self.old self.new }
        ensures few { IfOk result (λ todo. AddsFew 4 tree.old tree.new todo) }
    {
        let app = stream_app(rules, head.source, head.target);
        if self.keeps.follows.takes(app) {
            self.take_segment(app, frame, packet, head, span, tree)
        } else if self.keeps.follows.tells_places() {
            self.place_segment(app, frame, packet, head, span, tree)
        } else {
            pass_segment(app, span, tree)?;
            Ok(Todo::Done)
        }
    }

    /// Tells a segment's place in its stream, and shows the messages whose last bytes it brings, or what it carries as data.
    fn take_segment(
        &mut self,
        app: Option<StreamApp>,
        frame: &Frame,
        packet: PacketHead,
        head: TcpHead,
        span: Span,
        tree: &mut TreeBuilder,
    ) -> Result<Todo, NoMemory>
        requires follows { is_followed self.old.keeps.follows app ≡ true }
        requires inside { IsInside tree.old.buffers span }
        requires last { LastIs TCP tree.old.layers }
        requires bytes { length frame.now.bytes < 2 ^ 32 }
        requires ready { IsReady 2 span.len self.old tree.old }
        ensures inside { IfOk result (λ todo. IsTodoInside tree.new.buffers todo) }
        ensures walked { IfOk result (λ todo. (rules : List PortRuleValue) (es : List Event)
            → app ≡ stream_app rules head.source head.target → StandsAt rules es self.old
            → IsWalked rules (segment_met rules frame.now packet tree.old es head span) self.new
            tree.new todo) }
        ensures adds { IfOk result (λ todo. AddsOneThenEnds span.len self.old self.new todo) }
        ensures added { AddsAtMost 1 self.old self.new }
        ensures few { IfOk result (λ todo. AddsFew 4 tree.old tree.new todo) }
    {
        let segment = segment_from(frame.number, &packet, head, tree.part(span)?);
        match self.take_in(frame, &segment, app, span, tree) {
            Ok(()) => {
                let_go(segment);
                Ok(Todo::Done)
            }
            Err(NoMemory) => {
                let_go(segment);
                Err(NoMemory)
            }
        }
    }

    /// Tells a segment's place in its stream, and shows what it carries as data where its stream has no application.
    fn place_segment(
        &mut self,
        app: Option<StreamApp>,
        frame: &Frame,
        packet: PacketHead,
        head: TcpHead,
        span: Span,
        tree: &mut TreeBuilder,
    ) -> Result<Todo, NoMemory>
        requires places { tells_places self.old.keeps.follows ≡ true }
        requires inside { IsInside tree.old.buffers span }
        requires last { LastIs TCP tree.old.layers }
        requires bytes { length frame.now.bytes < 2 ^ 32 }
        requires ready { IsReady 2 span.len self.old tree.old }
        ensures inside { IfOk result (λ todo. IsTodoInside tree.new.buffers todo) }
        ensures walked { IfOk result (λ todo. (rules : List PortRuleValue) (es : List Event)
            → app ≡ stream_app rules head.source head.target → StandsAt rules es self.old
            → IsWalked rules (segment_met rules frame.now packet tree.old es head span) self.new
            tree.new todo) }
        ensures adds { IfOk result (λ todo. AddsOneThenEnds span.len self.old self.new todo) }
        ensures added { AddsAtMost 1 self.old self.new }
        ensures few { IfOk result (λ todo. AddsFew 4 tree.old tree.new todo) }
    {
        let segment = segment_from(frame.number, &packet, head, tree.part(span)?);
        let placed = self.places.take(&segment);
        let_go(segment);
        match placed {
            Ok(taken) => {
                tell_place_alone(&taken, app, span, tree)?;
                Ok(Todo::Done)
            }
            Err(NoMemory) => Err(NoMemory),
        }
    }

    /// Takes a segment into its stream, and shows what its frame shows then.
    fn take_in(
        &mut self,
        frame: &Frame,
        segment: &Segment,
        app: Option<StreamApp>,
        span: Span,
        tree: &mut TreeBuilder,
    ) -> Result<(), NoMemory>
        requires follows { is_followed self.old.keeps.follows app ≡ true }
        requires inside { IsInside tree.old.buffers span }
        requires last { LastIs TCP tree.old.layers }
        requires bytes { length frame.now.bytes < 2 ^ 32 }
        requires ready { IsReady 2 span.len self.old tree.old }
        requires payload { segment.now.payload ≡ bytes_of tree.old.buffers span }
        ensures walked { OnOk result ((rules : List PortRuleValue) (packet : PacketValue)
            (head : TcpValue) (es : List Event)
            → segment.now ≡ segment_from frame.now.number packet head (bytes_of tree.old.buffers span)
            → app ≡ app_of_segment rules segment.now → StandsAt rules es self.old
            → IsWalked rules (segment_met rules frame.now packet tree.old es head span) self.new
            tree.new Todo.Done) }
        ensures adds { OnOk result (AddsOneThenEnds span.len self.old self.new Todo.Done) }
        ensures added { AddsAtMost 1 self.old self.new }
    {
        let met = take_into(&mut self.streams, self.keeps.lets_go, segment, framing(app))?;
        match self.show_met(frame, &met, app, segment.payload.bytes(), span, tree) {
            Ok(()) => {
                let_go(met);
                Ok(())
            }
            Err(NoMemory) => {
                let_go(met);
                Err(NoMemory)
            }
        }
    }

    /// Links the messages that a segment's frame shows, and shows them behind the segment's place in its stream.
    fn show_met(
        &mut self,
        frame: &Frame,
        met: &Met,
        app: Option<StreamApp>,
        payload: &[u8],
        span: Span,
        tree: &mut TreeBuilder,
    ) -> Result<(), NoMemory>
        requires inside { IsInside tree.old.buffers span }
        requires last { LastIs TCP tree.old.layers }
        requires bytes { length frame.now.bytes < 2 ^ 32 }
        requires layers { length tree.old.layers < 2 ^ 31 }
        requires buffers { length tree.old.buffers < 2 ^ 31 }
        requires near { PassesNear met.now.taken }
        requires frames { met.now.frames ≡ gathered_from met.now.messages }
        requires payload { payload.now ≡ bytes_of tree.old.buffers span }
        requires whole { All (IsWholeIn payload.now) met.now.messages }
        ensures links { OnOk result (keeps_all self.old.keeps ≡ true
            → IsLinked frame.now.number (tcp_direction met.now.taken)
            (shown_notes (application app) payload.now met.now.messages) self.old self.new) }
        ensures same { IsSameButLinks self.old self.new }
        ensures tree { OnOk result (tree.new ≡ carried_over app (is_cut frame.now) span
            (segment_told tree.old met.now.taken span) met.now.messages) }
    {
        self.link_segment(frame.number, met, application(app), payload)?;
        tell_segment(&met.taken, span, tree)?;
        add_carried(app, met, is_cut(frame), span, tree)
    }
}

/// Takes a segment into its stream, of which those bytes may be let go that no later message needs.
pub(crate) fn take_into(
    streams: &mut MessageStreams,
    lets_go: bool,
    segment: &Segment,
    framer: Option<Framer>,
) -> Result<Met, NoMemory>
    requires taken { taken_so_far (streams_in streams.old) < 2 ^ 32 - 1 }
    requires bytes { bytes_so_far (streams_in streams.old) + length segment.now.payload < 2 ^ 32 }
    ensures taken { IfOk result (λ met. (framer_of : SegmentValue → Option FramerValue)
        (past : List SegmentValue) → StreamsStand lets_go framer_of past streams.old
        → met.taken ≡ taken_after past segment.now) }
    ensures shown { IfOk result (λ met. (framer_of : SegmentValue → Option FramerValue)
        (past : List SegmentValue) → IsOfEnds framer_of → framer ≡ framer_of segment.now
        → StreamsStand lets_go framer_of past streams.old
        → met.messages ≡ shown_after framer past segment.now) }
    ensures stands { OnOk result ((framer_of : SegmentValue → Option FramerValue)
        (past : List SegmentValue) → IsOfEnds framer_of → framer ≡ framer_of segment.now
        → StreamsStand lets_go framer_of past streams.old
        → StreamsStand lets_go framer_of (segment.now ∷ past) streams.new) }
    ensures frames { IfOk result (λ met. met.frames ≡ gathered_from met.messages) }
    ensures whole { IfOk result (λ met. All (IsWholeIn segment.now.payload) met.messages) }
    ensures near { IfOk result (λ met. PassesNear met.taken) }
    ensures counted { taken_so_far (streams_in streams.new) ≤ taken_so_far (streams_in streams.old) + 1 }
    ensures bytes { bytes_so_far (streams_in streams.new)
        ≤ bytes_so_far (streams_in streams.old) + length segment.now.payload }
{
    if lets_go {
        streams.take_and_let_go(segment, framer)
    } else {
        streams.take(segment, framer)
    }
}

/// Tells a segment's place and what it carries, and shows this as data where its stream has no application.
fn tell_place_alone(
    taken: &Taken,
    app: Option<StreamApp>,
    span: Span,
    tree: &mut TreeBuilder,
) -> Result<(), NoMemory>
    requires inside { IsInside tree.old.buffers span }
    requires last { LastIs TCP tree.old.layers }
    requires near { PassesNear taken.now }
    requires room { length tree.old.layers + 2 < 2 ^ 32 }
    ensures tree { IfOk result (λ _. (cut : Bool)
        → tree.new ≡ carried_over app cut span (segment_told tree.old taken.now span) []) }
{
    tell_segment(taken, span, tree)?;
    add_passed(app, span, tree)
}

/// Tells what a segment carries, and shows it as data where its stream has no application; nothing of its stream.
fn pass_segment(app: Option<StreamApp>, span: Span, tree: &mut TreeBuilder) -> Result<(), NoMemory>
    requires inside { IsInside tree.old.buffers span }
    requires last { LastIs TCP tree.old.layers }
    requires room { length tree.old.layers + 2 < 2 ^ 32 }
    ensures tree { OnOk result ((cut : Bool)
        → tree.new ≡ carried_over app cut span (carried_told tree.old span) []) }
{
    tell_carried(span, tree)?;
    add_passed(app, span, tree)
}

/// A segment between the ends of the packet that it is in.
pub(crate) fn segment_from(
    frame: u32,
    packet: &PacketHead,
    head: TcpHead,
    payload: Octets,
) -> Segment
    ensures { result ≡ segment_from frame packet.now head payload }
{
    Segment {
        frame,
        from: Endpoint {
            address: packet.source,
            port: head.source,
        },
        to: Endpoint {
            address: packet.target,
            port: head.target,
        },
        seq: head.seq,
        ack: head.ack,
        syn: head.syn,
        acked: head.acked,
        payload,
    }
}
