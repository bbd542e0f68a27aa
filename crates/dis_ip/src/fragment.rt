ghost use Rattle.std.specs.Prelude.{◌≡◌, ℕ, ◌+◌, ◌^◌, ◌<◌, ◌≤◌, List};
ghost use Rattle.pk_tree.specs.Buffers.{IsInside};
ghost use Rattle.pk_tree.specs.Following.{LeadsInside};
ghost use Rattle.pk_tree.specs.Trees.{last_proto};
ghost use Rattle.pk_tree.specs.declared.layer.Layer.{Layer};
ghost use Rattle.dis_ip.specs.Fragments.{is_fragment, part_after, part_proto, LastIsPart};

use crate::protocol::carried_by;
use pk_base::{After, FragmentHead, Mode, Next, Span};
use pk_tree::{behind, carried};

/// What follows a header of so many bytes, by its packet's place in a datagram. A fragment comes also without bytes.
/// An embedded packet's fragments aren't joined: the first is read on, and the others carry data.
#[tactic(auto, unfolding(crate::specs::Fragments::part_after))]
pub(crate) fn part_after(mode: Mode, head: FragmentHead, span: Span, header: u32) -> After
    requires end { span.start + span.len < 2 ^ 32 }
    requires header { header ≤ span.len }
    ensures after { result ≡ part_after mode head span header }
    ensures inside { (buffers : List (List ℕ)) → IsInside buffers span
        → LeadsInside buffers result }
    ensures part { (layers : List Layer) → last_proto layers ≡ part_proto head.six
        → LastIsPart layers result }
{
    match mode {
        Mode::Plain if is_fragment(&head) => After::Fragment(head, behind(span, header)),
        Mode::Embedded if head.offset > 0 => carried(Next::Rest, span, header),
        _ => carried_by(head.six, head.next, span, header),
    }
}

/// Whether more fragments follow, or it isn't the first.
fn is_fragment(head: &FragmentHead) -> bool
    ensures { result ≡ is_fragment head.now }
{
    head.more || head.offset > 0
}
