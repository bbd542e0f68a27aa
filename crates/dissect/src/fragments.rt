ghost use Rattle.std.specs.Prelude.{◌≡◌, ℕ, ◌+◌, ◌<◌, ◌≤◌, ◌^◌, List, length, IfOk, OnOk};
ghost use Rattle.pk_tree.specs.Following.{LeadsInside};
ghost use Rattle.dis_ip.specs.Fragments.{part_proto};
ghost use Rattle.app_layers.specs.Fragments.{joined_told};
ghost use Rattle.app_layers.specs.Payloads.{LastIs};
ghost use Rattle.dissect.specs.declared.state.State.{State as StateValue};
ghost use Rattle.dissect.specs.Fragments.{joined_packet, joined_todo, todo_by};
ghost use Rattle.dissect.specs.Stands.{AddsOneThenEnds, bytes_behind};
ghost use Rattle.dissect.specs.Walks.{IsTodoInside};

use crate::state::let_go;
use crate::todo::{Head, Todo};
use app_layers::tell_joined;
use dis_ip::carried_by;
use ip_join::Datagram;
use pk_base::{After, FragmentHead, Mode, NoMemory, PacketHead};
use pk_tree::TreeBuilder;

/// Tells of a datagram that is whole with this fragment, and goes on in it.
pub(crate) fn begin_datagram(
    head: &FragmentHead,
    datagram: Datagram,
    tree: &mut TreeBuilder,
) -> Result<Todo, NoMemory>
    requires last { LastIs (part_proto head.now.six) tree.old.layers }
    requires short { length datagram.bytes ≤ 65535 }
    requires room { length tree.old.buffers + 1 < 2 ^ 32 }
    ensures inside { IfOk result (λ todo. IsTodoInside tree.new.buffers todo) }
    ensures tree { IfOk result (λ _. tree.new ≡ joined_told tree.old head.now.six datagram) }
    ensures todo { IfOk result (λ todo. todo ≡ joined_todo tree.old head.now datagram) }
    ensures adds { IfOk result (λ todo. (state : StateValue)
        → AddsOneThenEnds (length datagram.bytes) state state todo) }
    ensures buffers { OnOk result (length tree.new.buffers ≤ length tree.old.buffers + 1) }
    ensures count { OnOk result (length tree.new.layers ≡ length tree.old.layers) }
{
    let Datagram {
        next,
        bytes,
        frames,
    } = datagram;
    match tell_joined(head.six, &frames, bytes, tree) {
        Ok(span) => {
            let_go(frames);
            let after = carried_by(head.six, next, span, 0);
            Ok(todo_by(joined_packet(head), after))
        }
        Err(NoMemory) => {
            let_go(frames);
            Err(NoMemory)
        }
    }
}

/// What stands for the IP header of a datagram's packet: its fragments' addresses.
fn joined_packet(head: &FragmentHead) -> PacketHead
    ensures { result ≡ joined_packet head.now }
{
    PacketHead {
        source: head.source,
        target: head.target,
        whole: true,
    }
}

/// The header that follows, if one does.
fn todo_by(packet: PacketHead, after: After) -> Todo
    ensures todo { result ≡ todo_by packet after }
    ensures inside { (buffers : List (List ℕ)) → LeadsInside buffers after → IsTodoInside buffers result }
    ensures adds { (state : StateValue) → AddsOneThenEnds (bytes_behind after) state state result }
{
    match after {
        After::Next(which, span) => Todo::Head(Head {
            which,
            span,
            packet,
            mode: Mode::Plain,
        }),
        _ => Todo::Done,
    }
}
