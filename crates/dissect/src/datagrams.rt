ghost use Rattle.std.specs.Prelude.{◌≡◌, true, ◌+◌, ◌<◌, ◌≤◌, ◌^◌, List, length, IfOk, OnOk};
ghost use Rattle.pk_tree.specs.Buffers.{IsInside};
ghost use Rattle.pk_fields.specs.Ids.{UDP};
ghost use Rattle.dissect.specs.Events.{Event};
ghost use Rattle.message_links.specs.Conversations.{number_in, udp_ends, with_ends};
ghost use Rattle.app_layers.specs.Payloads.{LastIs};
ghost use Rattle.dissect.specs.Stands.{StandsAt, IsSameButNumbers, IsWalked, IsReady, AddsAtMost, AddsOneThenEnds};
ghost use Rattle.dissect.specs.Walks.{IsTodoInside, datagram_met};

use crate::state::State;
use crate::todo::Todo;
use app_layers::{add_message, is_cut, tell_datagram};
use capture_read::Frame;
use message_links::udp_ends;
use pk_base::{NoMemory, PacketHead, PortsHead, Span};
use pk_fields::{PortRule, udp_app};
use pk_tree::TreeBuilder;

impl State {
    /// Takes a packet of UDP: tells the number of its conversation, and reads what it carries.
    pub(crate) fn datagram(
        &mut self,
        rules: &[PortRule],
        frame: &Frame,
        packet: PacketHead,
        head: PortsHead,
        span: Span,
        tree: &mut TreeBuilder,
    ) -> Result<Todo, NoMemory>
        requires inside { IsInside tree.old.buffers span }
        requires last { LastIs UDP tree.old.layers }
        requires bytes { length frame.now.bytes < 2 ^ 32 }
        requires ready { IsReady 4 span.len self.old tree.old }
        ensures inside { IfOk result (λ todo. IsTodoInside tree.new.buffers todo) }
        ensures walked { IfOk result (λ todo. (es : List Event) → StandsAt rules.now es self.old
            → IsWalked rules.now (datagram_met rules.now frame.now packet tree.old es head span)
            self.new tree.new todo) }
        ensures adds { IfOk result (λ todo. AddsOneThenEnds span.len self.old self.new todo) }
        ensures added { AddsAtMost 1 self.old self.new }
        ensures buffers { tree.new.buffers ≡ tree.old.buffers }
        ensures most { OnOk result (length tree.new.layers ≤ length tree.old.layers + 4) }
    {
        let stream = self.number_datagram(&packet, head)?;
        tell_datagram(stream, span, tree)?;
        let app = udp_app(rules, head.source, head.target);
        self.link_datagram(frame.number, stream, app, tree.bytes(span))?;
        add_message(app, is_cut(frame), span, tree)?;
        Ok(Todo::Done)
    }

    /// The number of a packet's conversation, where conversations are numbered; any number else.
    pub(crate) fn number_datagram(
        &mut self,
        packet: &PacketHead,
        head: PortsHead,
    ) -> Result<u32, NoMemory>
        requires { length self.old.udp + 1 < 2 ^ 32 }
        ensures number { IfOk result (λ number. self.old.keeps.numbers ≡ true
            → number ≡ number_in self.old.udp (udp_ends packet.now head)) }
        ensures known { OnOk result (self.old.keeps.numbers ≡ true
            → self.new.udp ≡ with_ends self.old.udp (udp_ends packet.now head)) }
        ensures most { length self.new.udp ≤ length self.old.udp + 1 }
        ensures same { IsSameButNumbers self.old self.new }
    {
        if !self.keeps.numbers {
            return Ok(0);
        }
        self.udp.number(udp_ends(packet, head))
    }
}
