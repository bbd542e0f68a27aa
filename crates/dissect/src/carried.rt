// What a plain frame's last header carries, and what is told of it.
ghost use Rattle.std.specs.Prelude.{◌≡◌, ◌&&◌, ◌+◌, ◌<◌, ◌≤◌, ◌^◌, ◌∷◌, [], Bool, List, None, true, false, not, length, IfOk, IfSome, OnOk};
ghost use Rattle.pk_fields.specs.Ids.{TCP};
ghost use Rattle.pk_fields.specs.declared.rules.PortRule.{PortRule as PortRuleValue};
ghost use Rattle.tcp_streams.specs.Labels.{PassesNear};
ghost use Rattle.pk_tree.specs.Buffers.{IsInside};
ghost use Rattle.pk_tree.specs.Trees.{TreeShown};
ghost use Rattle.app_layers.specs.MessageLayers.{stream_app};
ghost use Rattle.dis_ports.specs.Tcp.{tcp_head};
ghost use Rattle.dissect.specs.Carried.{carried_by, carrier_proto, has_data, is_free, place_of};
ghost use Rattle.dissect.specs.Events.{Event};
ghost use Rattle.dissect.specs.Keeping.{keeps_all, tells_places};
ghost use Rattle.dissect.specs.Plain.{own};
ghost use Rattle.dissect.specs.Stands.{StandsAt, IsSameButNumbers, IsWalked, HasRoomForOne, AddsAtMost, bytes_kept};
ghost use Rattle.dissect.specs.Tells.{AsksNoDatagrams, Tells, shown_app, shown_of};
ghost use Rattle.dissect.specs.Ways.{IsLastIn, IsPacketIn, carried_met, last_of, packet_at, span_of};
ghost use Rattle.message_links.specs.Conversations.{number_in, udp_ends, with_ends};
ghost use Rattle.dissect.specs.declared.ways.Carried.TheVariants as ways_carried;

use crate::keeping::{Keeping, asks_apps};
use crate::plain::{own, own_part};
use crate::segments::segment_from;
use crate::state::{State, let_go};
use crate::todo::Todo;
use crate::ways::{self, Last, PacketAt, packet_at};
use app_layers::{StreamApp, in_datagrams, is_passed, passed_apps, stream_app};
use capture_read::Frame;
use dis_ports::{tcp_head, udp_ports};
use pk_base::{NoMemory, PortsHead, Span};
use pk_fields::{App, FieldSet, PortRule, ids, udp_app};
use pk_tree::peek;
use tcp_streams::Taken;

/// A segment's place in its stream.
#[derive(Clone, Copy)]
pub(crate) struct Place {
    pub stream: u32,
    pub seq: u32,
    pub ack: Option<u32>,
    /// How many bytes have the gaps that it passes.
    pub lost: u32,
}

/// What carries a plain frame's last bytes, with what is told of it.
#[derive(Clone, Copy)]
pub(crate) enum Carrier {
    /// A segment, with its place, where places are told.
    Segment(Option<Place>),
    /// A datagram, with the number of its conversation.
    Datagram(u32),
}

/// What a plain frame's last header carries.
#[derive(Clone, Copy)]
pub(crate) struct Carried {
    pub carrier: Carrier,
    pub payload: Span,
    /// Whether its bytes are data, and no message of an application.
    pub free: bool,
}

/// Whether something is shown as data.
pub(crate) fn has_data(free: bool, span: Span) -> bool
    ensures { result ≡ has_data free span }
{
    free && span.len != 0
}

/// Whether a segment's bytes are data: its stream has no application.
pub(crate) fn is_free(app: Option<StreamApp>) -> bool
    ensures { result ≡ is_free app }
{
    app.is_none()
}

/// Whether a datagram's bytes are data, and none where they are a message that isn't passed over.
fn shown_of(app: Option<App>, passes: bool) -> Option<bool>
    ensures { result ≡ shown_of app passes }
{
    match app {
        Some(app) => shown_app(app, passes),
        None => Some(true),
    }
}

/// The same of a datagram of an application.
fn shown_app(app: App, passes: bool) -> Option<bool>
    ensures { result ≡ shown_app passes app }
{
    if !in_datagrams(app) {
        Some(true)
    } else if passes && is_passed(app) {
        Some(false)
    } else {
        None
    }
}

/// Whether messages are passed over of which nothing is asked: where everything is kept, links ask for them.
fn passes_over(passes: bool, keeps: &Keeping) -> bool
    ensures { result ≡ passes && not (keeps_all keeps.now) }
{
    passes && !keeps.is_all()
}

/// Whether something may be asked of messages of datagrams that are passed over else, or of the faults behind them.
#[tactic(auto, using(crate::proofs::Asked::no_datagrams))]
pub(crate) fn asks_datagrams(wanted: &FieldSet) -> bool
    ensures { result ≡ false → AsksNoDatagrams wanted.now }
{
    wanted.contains(ids::WS_SHORT)
        || wanted.contains(ids::WS_MALFORMED)
        || asks_apps(wanted, passed_apps())
}

/// What is told of a segment's place.
pub(crate) fn place_of(taken: &Taken) -> Place
    requires { PassesNear taken.now }
    ensures { result ≡ place_of taken.now }
{
    Place {
        stream: taken.stream,
        seq: taken.seq,
        ack: taken.ack,
        lost: taken.lost_bytes(),
    }
}

/// The ports of a segment.
fn tcp_ports(bytes: &[u8]) -> PortsHead
    ensures source { result.source ≡ (tcp_head bytes.now).source }
    ensures target { result.target ≡ (tcp_head bytes.now).target }
{
    PortsHead {
        source: peek(bytes, 0, 16) as u16,
        target: peek(bytes, 16, 16) as u16,
    }
}

impl State {
    /// Takes what a plain frame carries, with which the frame begins, where no byte of its stream is kept and no message of it
    /// is asked; nothing is taken else.
    pub(crate) fn carry(
        &mut self,
        rules: &[PortRule],
        frame: &Frame,
        way: ways::Carried,
        passes: bool,
    ) -> Result<Option<Carried>, NoMemory>
        requires last { IsLastIn frame.now (last_of way) }
        requires inside { IsInside (frame.now.bytes ∷ []) (span_of way) }
        requires bytes { length frame.now.bytes < 2 ^ 32 }
        requires few { HasRoomForOne (length frame.now.bytes) self.old }
        ensures tells { IfOk result (λ found. IfSome found (Tells rules.now frame.now passes way self.old self.new)) }
        ensures passed { IfOk result (λ found. found ≡ None → self.new ≡ self.old) }
        ensures added { AddsAtMost 1 self.old self.new }
        ensures kept { bytes_kept self.new ≡ bytes_kept self.old }
    {
        match way {
            ways::Carried::Segment(last) => self.carry_segment(rules, frame, &last),
            ways::Carried::Datagram(last) => self.carry_datagram(rules, frame, passes, &last),
        }
    }

    /// Takes the segment of a plain frame, where no byte of its stream is kept.
    pub(crate) fn carry_segment(
        &mut self,
        rules: &[PortRule],
        frame: &Frame,
        last: &Last,
    ) -> Result<Option<Carried>, NoMemory>
        requires last { IsLastIn frame.now last.now }
        requires inside { IsInside (frame.now.bytes ∷ []) last.now.payload }
        requires bytes { length frame.now.bytes < 2 ^ 32 }
        requires few { HasRoomForOne (length frame.now.bytes) self.old }
        ensures tells { IfOk result (λ found. IfSome found (λ carried. (passes : Bool) → Tells rules.now frame.now passes
            (ways_carried.Segment last.now) self.old self.new carried)) }
        ensures passed { IfOk result (λ found. found ≡ None → self.new ≡ self.old) }
        ensures added { AddsAtMost 1 self.old self.new }
        ensures kept { bytes_kept self.new ≡ bytes_kept self.old }
    {
        let ports = tcp_ports(own(frame, last.header));
        let app = stream_app(rules, ports.source, ports.target);
        if self.keeps.follows.takes(app) {
            return Ok(None);
        }
        self.begin_frame();
        if self.keeps.follows.tells_places() {
            let carried = self.carry_placed(app, frame, last)?;
            return Ok(Some(carried));
        }
        Ok(Some(Carried {
            carrier: Carrier::Segment(None),
            payload: last.payload,
            free: is_free(app),
        }))
    }

    /// Takes the segment of a plain frame for its place.
    fn carry_placed(
        &mut self,
        app: Option<StreamApp>,
        frame: &Frame,
        last: &Last,
    ) -> Result<Carried, NoMemory>
        requires places { tells_places self.old.keeps.follows ≡ true }
        requires last { IsLastIn frame.now last.now }
        requires inside { IsInside (frame.now.bytes ∷ []) last.now.payload }
        requires bytes { length frame.now.bytes < 2 ^ 32 }
        requires few { HasRoomForOne (length frame.now.bytes) self.old }
        ensures payload { IfOk result (λ carried. carried.payload ≡ last.now.payload) }
        ensures carrier { IfOk result (λ carried. carrier_proto carried.carrier ≡ TCP) }
        ensures walked { IfOk result (λ carried. (rules : List PortRuleValue) (t : TreeShown) (es : List Event)
            → app ≡ stream_app rules (tcp_head (own frame.now last.now.header)).source (tcp_head (own frame.now last.now.header)).target
            → t.buffers ≡ frame.now.bytes ∷ []
            → StandsAt rules es self.old → IsWalked rules (carried_met rules frame.now t es
            (ways_carried.Segment last.now)) self.new (carried_by carried t) Todo.Done) }
        ensures found { self.new.found.items ≡ self.old.found.items }
        ensures added { AddsAtMost 1 self.old self.new }
        ensures kept { bytes_kept self.new ≡ bytes_kept self.old }
    {
        let head = tcp_head(own(frame, last.header));
        let packet = packet_at(frame, last.packet);
        let payload = own_part(frame, last.payload)?;
        let segment = segment_from(frame.number, &packet, head, payload);
        let placed = self.places.take(&segment);
        let_go(segment);
        match placed {
            Ok(taken) => Ok(Carried {
                carrier: Carrier::Segment(Some(place_of(&taken))),
                payload: last.payload,
                free: is_free(app),
            }),
            Err(NoMemory) => Err(NoMemory),
        }
    }

    /// Takes the datagram of a plain frame, where it carries no message, or one that is passed over. Where everything is kept, none is
    /// passed over.
    fn carry_datagram(
        &mut self,
        rules: &[PortRule],
        frame: &Frame,
        passes: bool,
        last: &Last,
    ) -> Result<Option<Carried>, NoMemory>
        requires last { IsLastIn frame.now last.now }
        requires bytes { length frame.now.bytes < 2 ^ 32 }
        requires room { length self.old.udp + 1 < 2 ^ 32 }
        ensures tells { IfOk result (λ found. IfSome found (Tells rules.now frame.now passes
            (ways_carried.Datagram last.now) self.old self.new)) }
        ensures passed { IfOk result (λ found. found ≡ None → self.new ≡ self.old) }
        ensures added { AddsAtMost 1 self.old self.new }
        ensures kept { bytes_kept self.new ≡ bytes_kept self.old }
    {
        let ports = udp_ports(own(frame, last.header));
        let app = udp_app(rules, ports.source, ports.target);
        let Some(free) = shown_of(app, passes_over(passes, &self.keeps)) else {
            return Ok(None);
        };
        self.begin_frame();
        let stream = self.number_plain(frame, last.packet, ports)?;
        Ok(Some(Carried {
            carrier: Carrier::Datagram(stream),
            payload: last.payload,
            free,
        }))
    }

    /// The number of the conversation of a plain frame's datagram, where conversations are numbered; any number else.
    fn number_plain(
        &mut self,
        frame: &Frame,
        packet: PacketAt,
        head: PortsHead,
    ) -> Result<u32, NoMemory>
        requires packet { IsPacketIn frame.now packet }
        requires bytes { length frame.now.bytes < 2 ^ 32 }
        requires room { length self.old.udp + 1 < 2 ^ 32 }
        ensures number { IfOk result (λ number. self.old.keeps.numbers ≡ true
            → number ≡ number_in self.old.udp (udp_ends (packet_at frame.now packet) head)) }
        ensures known { OnOk result (self.old.keeps.numbers ≡ true
            → self.new.udp ≡ with_ends self.old.udp (udp_ends (packet_at frame.now packet) head)) }
        ensures most { length self.new.udp ≤ length self.old.udp + 1 }
        ensures same { IsSameButNumbers self.old self.new }
    {
        if !self.keeps.numbers {
            return Ok(0);
        }
        self.number_datagram(&packet_at(frame, packet), head)
    }
}
