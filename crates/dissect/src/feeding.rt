// Plain frames whose segments are taken into their streams: the state moves once, and then tells whether the frame shows messages.
ghost use Rattle.std.specs.Prelude.{◌≡◌, ◌+◌, ◌<◌, ◌≤◌, ◌^◌, ◌∷◌, [], Bool, List, true, length, IfOk, OnOk};
ghost use Rattle.pk_fields.specs.declared.rules.PortRule.{PortRule as PortRuleValue};
ghost use Rattle.pk_tree.specs.Buffers.{IsInside};
ghost use Rattle.app_layers.specs.MessageLayers.{stream_app};
ghost use Rattle.tcp_streams.specs.Labels.{PassesNear};
ghost use Rattle.dissect.specs.Feeding.{AreShowable, IsFed, IsMet, as_fed, fed_by, told_alone};
ghost use Rattle.dissect.specs.Keeping.{is_followed};
ghost use Rattle.dissect.specs.Stands.{HasRoomForOne, IsSameButLinks, AddsAtMost, bytes_kept};
ghost use Rattle.dissect.specs.Ways.{IsLastIn, last_of, span_of};
ghost use Rattle.dissect.specs.Plain.{own};
ghost use Rattle.dis_ports.specs.Tcp.{tcp_head};
ghost use Rattle.dissect.specs.declared.ways.Carried.TheVariants as ways_carried;

use crate::carried::{Carried, Carrier, is_free, place_of};
use crate::plain::{own, own_part};
use crate::segments::{segment_from, take_into};
use crate::state::{State, let_go};
use crate::ways::{self, Last, packet_at};
use app_layers::{StreamApp, application, framing, stream_app};
use capture_read::Frame;
use dis_ports::tcp_head;
use pk_base::{NoMemory, Span};
use pk_fields::PortRule;
use tcp_messages::Met;

/// What a plain frame's segment brought, where messages are shown by it.
pub(crate) struct Brought {
    pub met: Met,
    pub app: Option<StreamApp>,
    pub payload: Span,
}

impl Drop for Brought {
    fn drop(self) {
        let Brought {
            met: _met,
            app: _,
            payload: _,
        } = self;
    }
}

/// What is known of what a plain frame carries.
#[derive(Drop)]
pub(crate) enum Fed {
    /// Its headers don't answer for it, and nothing of it was taken.
    Left,
    /// Its headers tell it.
    Told(Carried),
    /// It was taken, and its tree has messages to show.
    Brought(Brought),
}

impl State {
    /// As `carry`, but a segment is taken into its stream where this is followed.
    pub(crate) fn feed(
        &mut self,
        rules: &[PortRule],
        frame: &Frame,
        way: ways::Carried,
        passes: bool,
    ) -> Result<Fed, NoMemory>
        requires last { IsLastIn frame.now (last_of way) }
        requires inside { IsInside (frame.now.bytes ∷ []) (span_of way) }
        requires bytes { length frame.now.bytes < 2 ^ 32 }
        requires few { HasRoomForOne (length frame.now.bytes) self.old }
        ensures fed { IfOk result (λ fed. IsFed rules.now frame.now passes way self.old self.new fed) }
        ensures added { AddsAtMost 1 self.old self.new }
        ensures kept { OnOk result (bytes_kept self.new ≤ bytes_kept self.old + length frame.now.bytes) }
    {
        match way {
            ways::Carried::Segment(last) => self.feed_last(rules, frame, &last),
            ways::Carried::Datagram(_) => {
                let found = self.carry(rules, frame, way, passes)?;
                Ok(as_fed(found))
            }
        }
    }

    /// Takes the segment of a plain frame, into its stream where this is followed.
    fn feed_last(&mut self, rules: &[PortRule], frame: &Frame, last: &Last) -> Result<Fed, NoMemory>
        requires last { IsLastIn frame.now last.now }
        requires inside { IsInside (frame.now.bytes ∷ []) last.now.payload }
        requires bytes { length frame.now.bytes < 2 ^ 32 }
        requires few { HasRoomForOne (length frame.now.bytes) self.old }
        ensures fed { IfOk result (λ fed. (passes : Bool) → IsFed rules.now frame.now passes
            (ways_carried.Segment last.now) self.old self.new fed) }
        ensures added { AddsAtMost 1 self.old self.new }
        ensures kept { OnOk result (bytes_kept self.new ≤ bytes_kept self.old + length frame.now.bytes) }
    {
        let head = tcp_head(own(frame, last.header));
        let app = stream_app(rules, head.source, head.target);
        if self.keeps.follows.takes(app) {
            self.feed_segment(app, frame, last)
        } else {
            let found = self.carry_segment(rules, frame, last)?;
            Ok(as_fed(found))
        }
    }

    /// Takes the segment of a plain frame into its stream, which is followed.
    #[inline(never)]
    fn feed_segment(
        &mut self,
        app: Option<StreamApp>,
        frame: &Frame,
        last: &Last,
    ) -> Result<Fed, NoMemory>
        requires follows { is_followed self.old.keeps.follows app ≡ true }
        requires last { IsLastIn frame.now last.now }
        requires inside { IsInside (frame.now.bytes ∷ []) last.now.payload }
        requires bytes { length frame.now.bytes < 2 ^ 32 }
        requires few { HasRoomForOne (length frame.now.bytes) self.old }
        ensures fed { IfOk result (λ fed. (rules : List PortRuleValue) (passes : Bool)
            → app ≡ stream_app rules (tcp_head (own frame.now last.now.header)).source (tcp_head (own frame.now last.now.header)).target
            → IsFed rules frame.now passes (ways_carried.Segment last.now) self.old self.new fed) }
        ensures added { AddsAtMost 1 self.old self.new }
        ensures kept { OnOk result (bytes_kept self.new ≤ bytes_kept self.old + length frame.now.bytes) }
    {
        self.begin_frame();
        let head = tcp_head(own(frame, last.header));
        let packet = packet_at(frame, last.packet);
        let payload = own_part(frame, last.payload)?;
        let segment = segment_from(frame.number, &packet, head, payload);
        let taken = take_into(
            &mut self.streams,
            self.keeps.lets_go,
            &segment,
            framing(app),
        );
        let_go(segment);
        match taken {
            Ok(met) => self.link_brought(
                frame,
                Brought {
                    met,
                    app,
                    payload: last.payload,
                },
            ),
            Err(NoMemory) => Err(NoMemory),
        }
    }

    /// Links the messages that a plain frame's segment brought. Where there are none, the headers tell what it carries.
    fn link_brought(&mut self, frame: &Frame, brought: Brought) -> Result<Fed, NoMemory>
        requires none { self.old.found.items ≡ [] }
        requires showable { AreShowable frame.now brought }
        requires inside { IsInside (frame.now.bytes ∷ []) brought.payload }
        ensures fed { IfOk result (λ fed. fed ≡ fed_by brought) }
        ensures met { OnOk result (IsMet frame.now brought self.old self.new) }
        ensures same { IsSameButLinks self.old self.new }
        ensures added { AddsAtMost 0 self.old self.new }
        ensures kept { bytes_kept self.new ≡ bytes_kept self.old }
    {
        if brought.met.messages.slice().is_empty() {
            let carried = told_alone(&brought);
            let_go(brought);
            return Ok(Fed::Told(carried));
        }
        match self.link_segment(
            frame.number,
            &brought.met,
            application(brought.app),
            own(frame, brought.payload),
        ) {
            Ok(()) => Ok(Fed::Brought(brought)),
            Err(NoMemory) => {
                let_go(brought);
                Err(NoMemory)
            }
        }
    }
}

/// What a segment carries that brought no message, with its place in its stream.
fn told_alone(brought: &Brought) -> Carried
    requires near { PassesNear brought.now.met.taken }
    ensures { result ≡ told_alone brought.now }
{
    Carried {
        carrier: Carrier::Segment(Some(place_of(&brought.met.taken))),
        payload: brought.payload,
        free: is_free(brought.app),
    }
}

/// What was taken as where no stream is followed.
fn as_fed(found: Option<Carried>) -> Fed
    ensures { result ≡ as_fed found }
{
    match found {
        Some(carried) => Fed::Told(carried),
        None => Fed::Left,
    }
}
