ghost use Rattle.std.specs.Prelude.{◌≡◌, ◌<◌, ◌^◌, List, length, IfOk};
ghost use Rattle.pk_tree.specs.Buffers.{IsInside};
ghost use Rattle.app_layers.specs.Heads.{is_rest};
ghost use Rattle.dissect.specs.Events.{Event};
ghost use Rattle.dissect.specs.Stands.{StandsAt, IsWalked, IsReady, AddsAtMost, AddsFew, AddsOneThenEnds};
ghost use Rattle.dissect.specs.Walks.{IsTodoInside, head_met, mode_after, mode_behind};

use crate::state::State;
use crate::todo::{Head, Todo};
use app_layers::{is_cut, read_head};
use capture_read::Frame;
use pk_base::{After, Mode, Next, NoMemory};
use pk_fields::PortRule;
use pk_tree::TreeBuilder;

impl State {
    /// Reads a header by its protocol. What an ICMP message carries is read as an embedded packet.
    pub(crate) fn head(
        &mut self,
        rules: &[PortRule],
        frame: &Frame,
        head: &Head,
        tree: &mut TreeBuilder,
    ) -> Result<Todo, NoMemory>
        requires inside { IsInside tree.old.buffers head.now.span }
        requires bytes { length frame.now.bytes < 2 ^ 32 }
        requires ready { IsReady 6 head.now.span.len self.old tree.old }
        ensures inside { IfOk result (λ todo. IsTodoInside tree.new.buffers todo) }
        ensures walked { IfOk result (λ todo. (es : List Event) → StandsAt rules.now es self.old
            → IsWalked rules.now (head_met rules.now frame.now head.now tree.old es) self.new tree.new
            todo) }
        ensures adds { IfOk result (λ todo.
            AddsOneThenEnds head.now.span.len self.old self.new todo) }
        ensures added { AddsAtMost 1 self.old self.new }
        ensures few { IfOk result (λ todo. AddsFew 6 tree.old tree.new todo) }
    {
        if is_rest(head.which) {
            return self.rest(head.span, tree);
        }
        let after = read_head(
            head.which,
            &head.packet,
            head.span,
            is_cut(frame),
            head.mode,
            tree,
        )?;
        let mode = mode_after(head.which, head.mode, &after);
        self.follow(rules, frame, &head.packet, mode, &after, tree)
    }
}

/// Whether no header is to be read, but the rest.
fn is_rest(which: Next) -> bool
    ensures { result ≡ is_rest which }
{
    matches!(which, Next::Rest)
}

/// How what is behind a header is read.
fn mode_after(which: Next, mode: Mode, after: &After) -> Mode
    ensures { result ≡ mode_after which mode after.now }
{
    match which {
        Next::Icmp | Next::Icmp6 => mode_behind(mode, after),
        _ => mode,
    }
}

/// How what is behind a message of ICMP is read: a packet that it carries as an embedded one.
fn mode_behind(mode: Mode, after: &After) -> Mode
    ensures { result ≡ mode_behind mode after.now }
{
    match after {
        After::Next(Next::Neigh(_), _) => mode,
        _ => Mode::Embedded,
    }
}
