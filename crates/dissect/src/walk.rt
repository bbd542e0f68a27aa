ghost use Rattle.std.specs.Prelude.{◌≡◌, ℕ, ◌+◌, ◌-◌, ◌<◌, ◌≤◌, ◌^◌, List, [], ◌∷◌, length, IfOk, OnOk};
ghost use Rattle.pk_tree.specs.Buffers.{IsInside};
ghost use Rattle.pk_tree.specs.Following.{LeadsInside};
ghost use Rattle.pk_fields.specs.declared.rules.PortRule.{PortRule as PortRuleValue};
ghost use Rattle.dissect.specs.declared.state.State.{State as StateValue};
ghost use Rattle.dissect.specs.Events.{Event, NewFrame};
ghost use Rattle.app_layers.specs.Payloads.{ComesBehind};
ghost use Rattle.dissect.specs.Stands.{StandsAt, IsWalked, HasRoom, HasRoomForOne, HasSpace, IsReady, AddsAtMost, AddsFew, AddsOneThenEnds, bytes_behind, bytes_kept};
ghost use Rattle.dissect.specs.Walks.{IsTodoInside, rest_met, followed, chain, going, link_met, all_met, no_packet};

use crate::plain::plain_frame;
use crate::state::State;
use crate::todo::{Head, Todo};
use app_layers::{add_data, captured, frame_span, is_cut};
use capture_read::Frame;
use dis_link::read_link;
use pk_base::{Address, After, LAYER_LIMIT, Mode, NoMemory, PacketHead, Span};
use pk_fields::PortRule;
use pk_tree::TreeBuilder;

impl State {
    /// Shows the rest as data.
    pub(crate) fn rest(&mut self, span: Span, tree: &mut TreeBuilder) -> Result<Todo, NoMemory>
        requires inside { IsInside tree.old.buffers span }
        requires room { length tree.old.layers + 2 < 2 ^ 32 }
        ensures inside { IfOk result (λ todo. IsTodoInside tree.new.buffers todo) }
        ensures walked { IfOk result (λ todo. (rules : List PortRuleValue) (es : List Event)
            → StandsAt rules es self.old
            → IsWalked rules (rest_met tree.old es span) self.new tree.new todo) }
        ensures adds { IfOk result (λ todo. AddsOneThenEnds 0 self.old self.new todo) }
        ensures added { AddsAtMost 1 self.old self.new }
        ensures buffers { tree.new.buffers ≡ tree.old.buffers }
        ensures most { OnOk result (length tree.new.layers ≤ length tree.old.layers + 2) }
    {
        add_data(span, tree)?;
        Ok(Todo::Done)
    }

    /// What is to be read behind a header.
    #[tactic(auto, unfolding(crate::specs::Walks::followed))]
    pub(crate) fn follow(
        &mut self,
        rules: &[PortRule],
        frame: &Frame,
        packet: &PacketHead,
        mode: Mode,
        after: &After,
        tree: &mut TreeBuilder,
    ) -> Result<Todo, NoMemory>
        requires inside { LeadsInside tree.old.buffers after.now }
        requires last { ComesBehind after.now tree.old.layers }
        requires bytes { length frame.now.bytes < 2 ^ 32 }
        requires ready { IsReady 4 (bytes_behind after.now) self.old tree.old }
        ensures inside { IfOk result (λ todo. IsTodoInside tree.new.buffers todo) }
        ensures walked { IfOk result (λ todo. (es : List Event) → StandsAt rules.now es self.old
            → IsWalked rules.now (followed rules.now frame.now packet.now mode tree.old es after.now)
            self.new tree.new todo) }
        ensures adds { IfOk result (λ todo.
            AddsOneThenEnds (bytes_behind after.now) self.old self.new todo) }
        ensures added { AddsAtMost 1 self.old self.new }
        ensures few { IfOk result (λ todo. AddsFew 4 tree.old tree.new todo) }
    {
        match after {
            After::Next(which, span) => Ok(Todo::Head(Head {
                which: *which,
                span: *span,
                packet: *packet,
                mode,
            })),
            After::Packet(which, span, packet) => Ok(Todo::Head(Head {
                which: *which,
                span: *span,
                packet: *packet,
                mode,
            })),
            After::Fragment(head, span) => self.fragment(frame, *packet, *head, *span, tree),
            After::Datagram(head, span) => self.datagram(rules, frame, *packet, *head, *span, tree),
            After::Segment(head, span) => self.segment(rules, frame, *packet, *head, *span, tree),
            After::End => Ok(Todo::Done),
        }
    }

    /// Reads at most so many headers, one behind the other. What is left then is shown as data.
    fn chain(
        &mut self,
        rules: &[PortRule],
        frame: &Frame,
        most: usize,
        first: Todo,
        tree: &mut TreeBuilder,
    ) -> Result<(), NoMemory>
        requires inside { IsTodoInside tree.old.buffers first }
        requires bytes { length frame.now.bytes < 2 ^ 32 }
        requires most { most ≤ 32 }
        requires space { HasSpace most tree.old first }
        requires few { HasRoom self.old first }
        ensures walked { OnOk result ((es : List Event) → StandsAt rules.now es self.old
            → IsWalked rules.now (chain rules.now most frame.now (going tree.old es first))
            self.new tree.new Todo.Done) }
        ensures added { (before : StateValue) (bytes : ℕ)
            → AddsOneThenEnds bytes before self.old first → AddsAtMost 1 before self.new }
        ensures kept { OnOk result ((before : StateValue) (bytes : ℕ)
            → AddsOneThenEnds bytes before self.old first
            → bytes_kept self.new ≤ bytes_kept before + bytes) }
    {
        let mut left = most;
        let mut todo = first;
        while let Todo::Head(head) = &todo {
            if left == 0 {
                self.rest(head.span, tree)?;
                return Ok(());
            }
            left -= 1;
            todo = self.head(rules, frame, head, tree)?;
        }
        Ok(())
    }

    /// Reads a frame's first header, by the link type of its capture.
    #[tactic(auto, unfolding(crate::specs::Walks::link_met))]
    fn link(
        &mut self,
        rules: &[PortRule],
        frame: &Frame,
        tree: &mut TreeBuilder,
    ) -> Result<Todo, NoMemory>
        requires frame { tree.old.buffers ≡ frame.now.bytes ∷ [] }
        requires bytes { length frame.now.bytes < 2 ^ 32 }
        requires room { length tree.old.layers ≤ 2 }
        requires few { HasRoomForOne (length frame.now.bytes) self.old }
        ensures inside { IfOk result (λ todo. IsTodoInside tree.new.buffers todo) }
        ensures walked { IfOk result (λ todo. (es : List Event) → StandsAt rules.now es self.old
            → IsWalked rules.now (link_met rules.now frame.now tree.old es) self.new tree.new
            todo) }
        ensures adds { IfOk result (λ todo.
            AddsOneThenEnds (length frame.now.bytes) self.old self.new todo) }
        ensures added { AddsAtMost 1 self.old self.new }
        ensures space { IfOk result (λ todo. HasSpace 32 tree.new todo) }
    {
        if captured(frame) == 0 {
            return Ok(Todo::Done);
        }
        let span = frame_span(frame);
        let after = read_link(frame.link, frame.little, is_cut(frame), span, tree)?;
        self.follow(rules, frame, &no_packet(), Mode::Plain, &after, tree)
    }

    /// Reads all of a frame's headers behind the layer of the frame itself.
    pub fn read_frame(
        &mut self,
        rules: &[PortRule],
        frame: &Frame,
        tree: &mut TreeBuilder,
    ) -> Result<(), NoMemory>
        requires frame { tree.old.buffers ≡ frame.now.bytes ∷ [] }
        requires bytes { length frame.now.bytes < 2 ^ 32 }
        requires room { length tree.old.layers ≤ 2 }
        requires few { HasRoomForOne (length frame.now.bytes) self.old }
        ensures walked { OnOk result ((es : List Event) → StandsAt rules.now es self.old
            → IsWalked rules.now (all_met rules.now frame.now (link_met rules.now frame.now
            tree.old (NewFrame ∷ es))) self.new tree.new Todo.Done) }
        ensures added { AddsAtMost 1 self.old self.new }
        ensures kept { OnOk result (bytes_kept self.new
            ≤ bytes_kept self.old + length frame.now.bytes) }
    {
        self.begin_frame();
        match plain_frame(frame) {
            Some(plain) => self.read_plain(rules, frame, &plain, tree),
            None => self.read_heads(rules, frame, tree),
        }
    }

    /// Reads a frame's headers one behind the other.
    fn read_heads(
        &mut self,
        rules: &[PortRule],
        frame: &Frame,
        tree: &mut TreeBuilder,
    ) -> Result<(), NoMemory>
        requires frame { tree.old.buffers ≡ frame.now.bytes ∷ [] }
        requires bytes { length frame.now.bytes < 2 ^ 32 }
        requires room { length tree.old.layers ≤ 2 }
        requires few { HasRoomForOne (length frame.now.bytes) self.old }
        ensures walked { OnOk result ((es : List Event) → StandsAt rules.now es self.old
            → IsWalked rules.now (all_met rules.now frame.now (link_met rules.now frame.now
            tree.old es)) self.new tree.new Todo.Done) }
        ensures added { AddsAtMost 1 self.old self.new }
        ensures kept { OnOk result (bytes_kept self.new
            ≤ bytes_kept self.old + length frame.now.bytes) }
    {
        let first = self.link(rules, frame, tree)?;
        let left = LAYER_LIMIT.saturating_sub(tree.layer_count());
        self.chain(rules, frame, left, first, tree)?;
        Ok(())
    }
}

/// What stands for the IP header where none was met.
pub(crate) fn no_packet() -> PacketHead
    ensures { result ≡ no_packet }
{
    PacketHead {
        source: Address::Four(0),
        target: Address::Four(0),
        whole: false,
    }
}
