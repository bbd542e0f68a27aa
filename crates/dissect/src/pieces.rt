ghost use Rattle.std.specs.Prelude.{◌≡◌, ◌+◌, ◌<◌, ◌≤◌, List, length, true, IfOk, OnOk};
ghost use Rattle.pk_tree.specs.Buffers.{IsInside};
ghost use Rattle.dis_ip.specs.Fragments.{part_proto};
ghost use Rattle.ip_join.specs.Datagrams.{IsShort};
ghost use Rattle.ip_join.specs.Waiting.{bytes_joined};
ghost use Rattle.pk_fields.specs.declared.rules.PortRule.{PortRule};
ghost use Rattle.dissect.specs.Events.{Event};
ghost use Rattle.app_layers.specs.Payloads.{LastIs};
ghost use Rattle.dissect.specs.Stands.{StandsAt, IsWalked, IsReady, AddsAtMost, AddsOneThenEnds};
ghost use Rattle.dissect.specs.Walks.{IsTodoInside, joined_met, piece_met, fragment_met};

use crate::fragments::begin_datagram;
use crate::state::State;
use crate::todo::Todo;
use app_layers::tell_conflict;
use capture_read::Frame;
use ip_join::Joined;
use pk_base::{FragmentHead, NoMemory, Octets, PacketHead, Span};
use pk_tree::TreeBuilder;

impl State {
    /// Takes a part of a datagram. One that wasn't wholly captured is shown as data.
    #[tactic(auto, unfolding(crate::specs::Walks::fragment_met))]
    pub(crate) fn fragment(
        &mut self,
        frame: &Frame,
        packet: PacketHead,
        head: FragmentHead,
        span: Span,
        tree: &mut TreeBuilder,
    ) -> Result<Todo, NoMemory>
        requires inside { IsInside tree.old.buffers span }
        requires last { LastIs (part_proto head.six) tree.old.layers }
        requires ready { IsReady 2 span.len self.old tree.old }
        ensures inside { IfOk result (λ todo. IsTodoInside tree.new.buffers todo) }
        ensures walked { IfOk result (λ todo. (rules : List PortRule) (es : List Event)
            → StandsAt rules es self.old
            → IsWalked rules (fragment_met frame.now packet tree.old es head span) self.new
            tree.new todo) }
        ensures adds { IfOk result (λ todo. AddsOneThenEnds span.len self.old self.new todo) }
        ensures added { AddsAtMost 1 self.old self.new }
        ensures buffers { OnOk result (length tree.new.buffers ≤ length tree.old.buffers + 1) }
        ensures most { OnOk result (length tree.new.layers ≤ length tree.old.layers + 2) }
    {
        if head.whole {
            let bytes = tree.part(span)?;
            self.piece(frame, head, &bytes, span, tree)
        } else {
            self.rest(span, tree)
        }
    }

    /// Takes a part of a datagram, with its bytes, among those that were taken before it.
    fn piece(
        &mut self,
        frame: &Frame,
        head: FragmentHead,
        bytes: &Octets,
        span: Span,
        tree: &mut TreeBuilder,
    ) -> Result<Todo, NoMemory>
        requires whole { head.whole ≡ true }
        requires inside { IsInside tree.old.buffers span }
        requires last { LastIs (part_proto head.six) tree.old.layers }
        requires bytes { length bytes.now ≤ span.len }
        requires ready { IsReady 2 span.len self.old tree.old }
        ensures inside { IfOk result (λ todo. IsTodoInside tree.new.buffers todo) }
        ensures walked { IfOk result (λ todo. (rules : List PortRule) (es : List Event)
            → StandsAt rules es self.old
            → IsWalked rules (piece_met tree.old es frame.now.number head bytes.now span) self.new
            tree.new todo) }
        ensures adds { IfOk result (λ todo. AddsOneThenEnds span.len self.old self.new todo) }
        ensures added { AddsAtMost 1 self.old self.new }
        ensures buffers { OnOk result (length tree.new.buffers ≤ length tree.old.buffers + 1) }
        ensures most { OnOk result (length tree.new.layers ≤ length tree.old.layers + 2) }
    {
        let joined = self.joins.take(&head, frame.number, bytes)?;
        self.behind_piece(joined, head, span, tree)
    }

    /// What is to be read behind a fragment, by what it made of those before it.
    #[tactic(auto, unfolding(crate::specs::Walks::joined_met))]
    fn behind_piece(
        &mut self,
        joined: Joined,
        head: FragmentHead,
        span: Span,
        tree: &mut TreeBuilder,
    ) -> Result<Todo, NoMemory>
        requires inside { IsInside tree.old.buffers span }
        requires last { LastIs (part_proto head.six) tree.old.layers }
        requires short { IsShort joined }
        requires ready { IsReady 2 (bytes_joined joined) self.old tree.old }
        ensures inside { IfOk result (λ todo. IsTodoInside tree.new.buffers todo) }
        ensures walked { IfOk result (λ todo. (rules : List PortRule) (es : List Event)
            → StandsAt rules es self.old
            → IsWalked rules (joined_met joined tree.old es head span) self.new tree.new todo) }
        ensures adds { IfOk result (λ todo.
            AddsOneThenEnds (bytes_joined joined) self.old self.new todo) }
        ensures added { AddsAtMost 1 self.old self.new }
        ensures buffers { OnOk result (length tree.new.buffers ≤ length tree.old.buffers + 1) }
        ensures most { OnOk result (length tree.new.layers ≤ length tree.old.layers + 2) }
    {
        match joined {
            Joined::Pending => self.rest(span, tree),
            Joined::Conflict(kind) => {
                tell_conflict(head.six, kind, tree)?;
                self.rest(span, tree)
            }
            Joined::Whole(datagram) => begin_datagram(&head, datagram, tree),
        }
    }
}
