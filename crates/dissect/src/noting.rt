ghost use Rattle.std.specs.Prelude.{◌≡◌, ◌∷◌, [], All, List, true, IfOk, OnOk};
ghost use Rattle.pk_fields.specs.declared.rules.PortRule.{PortRule as PortRuleValue};
ghost use Rattle.tcp_messages.specs.Shown.{IsWholeIn};
ghost use Rattle.dissect.specs.Events.{Event, NewFrame};
ghost use Rattle.message_links.specs.Linked.{linked};
ghost use Rattle.message_links.specs.Notes.{datagram_notes, shown_notes, tcp_direction, udp_direction};
ghost use Rattle.dissect.specs.Keeping.{keeps_all};
ghost use Rattle.dissect.specs.Stands.{StandsAt, AddsAtMost, IsLinked, IsSameButLinks, bytes_kept};

use crate::state::{State, let_go};
use message_links::{Direction, Note, dns_note, link_messages, tcp_direction, udp_direction};
use pk_base::NoMemory;
use pk_fields::{App, FieldSet};
use pk_tree::Tree;
use tcp_messages::Met;

impl State {
    /// A frame begins, of which no message was met.
    pub(crate) fn begin_frame(&mut self)
        ensures stands { (rules : List PortRuleValue) (es : List Event)
            → StandsAt rules es self.old → StandsAt rules (NewFrame ∷ es) self.new }
        ensures none { self.new.found.items ≡ [] }
        ensures adds { AddsAtMost 0 self.old self.new }
        ensures kept { bytes_kept self.new ≡ bytes_kept self.old }
    {
        self.found.clear();
    }

    /// Links the message that a datagram carries, where everything is kept.
    pub(crate) fn link_datagram(
        &mut self,
        frame: u32,
        stream: u32,
        app: Option<App>,
        bytes: &[u8],
    ) -> Result<(), NoMemory>
        ensures links { OnOk result (keeps_all self.old.keeps ≡ true
            → IsLinked frame (udp_direction stream) (datagram_notes app bytes.now) self.old
            self.new) }
        ensures same { IsSameButLinks self.old self.new }
    {
        if !self.keeps.is_all() {
            return Ok(());
        }
        match app {
            Some(App::Dns) if !bytes.is_empty() => {
                self.link_all(frame, udp_direction(stream), &[dns_note(bytes)])
            }
            _ => self.link_all(frame, udp_direction(stream), &[]),
        }
    }

    /// Links the messages that a segment's frame shows, where everything is kept.
    pub(crate) fn link_segment(
        &mut self,
        frame: u32,
        met: &Met,
        app: Option<App>,
        payload: &[u8],
    ) -> Result<(), NoMemory>
        requires whole { All (IsWholeIn payload.now) met.now.messages }
        ensures links { OnOk result (keeps_all self.old.keeps ≡ true
            → IsLinked frame (tcp_direction met.now.taken)
            (shown_notes app payload.now met.now.messages) self.old self.new) }
        ensures same { IsSameButLinks self.old self.new }
    {
        if !self.keeps.is_all() {
            return Ok(());
        }
        let notes = self.links.notes(app, payload, met.messages.slice())?;
        self.link_all(frame, tcp_direction(&met.taken), &notes)
    }

    fn link_all(&mut self, frame: u32, at: Direction, notes: &[Note]) -> Result<(), NoMemory>
        ensures links { OnOk result (IsLinked frame at notes.now self.old self.new) }
        ensures same { IsSameButLinks self.old self.new }
    {
        self.found = self.links.take(frame, at, notes)?;
        Ok(())
    }
}

/// A frame's tree with the links of its messages.
pub(crate) fn with_links(
    found: &[Option<u32>],
    wanted: &FieldSet,
    bare: Tree,
) -> Result<Tree, NoMemory>
    ensures { IfOk result (λ tree. tree ≡ linked wanted.now found.now bare) }
{
    let mut tree = bare;
    match link_messages(found, wanted, &mut tree) {
        Ok(()) => Ok(tree),
        Err(NoMemory) => {
            let_go(tree);
            Err(NoMemory)
        }
    }
}
