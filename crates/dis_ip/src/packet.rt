ghost use Rattle.std.specs.Prelude.{◌≡◌, ℕ, ◌+◌, ◌≤◌, List};
ghost use Rattle.pk_tree.specs.Buffers.{IsInside};
ghost use Rattle.pk_tree.specs.Following.{LeadsInside};
ghost use Rattle.pk_tree.specs.declared.layer.Layer.{Layer};
ghost use Rattle.dis_ip.specs.Fragments.{LastIsPart};
ghost use Rattle.dis_ip.specs.Packets.{packet_span, is_whole, in_packet};

use pk_base::{After, PacketHead, Span};
use pk_tree::first_of;

/// A packet of so many bytes, as far as they are there. Without a size it has all bytes that are left.
pub(crate) fn packet_span(span: Span, size: Option<u32>) -> Span
    ensures span { result ≡ packet_span span size }
    ensures inside { (buffers : List (List ℕ)) → IsInside buffers span → IsInside buffers result }
    ensures end { result.start + result.len ≤ span.start + span.len }
{
    match size {
        Some(size) => first_of(span, size),
        None => span,
    }
}

/// Whether every byte of a packet of this size is there. Without a size it is, where the frame wasn't cut.
pub(crate) fn is_whole(cut: bool, span: Span, size: Option<u32>) -> bool
    ensures { result ≡ is_whole cut span size }
{
    match size {
        Some(size) => size <= span.len,
        None => !cut,
    }
}

/// What follows in a packet, with what its IP header says of it.
pub(crate) fn in_packet(packet: PacketHead, after: After) -> After
    ensures after { result ≡ in_packet packet after }
    ensures inside { (buffers : List (List ℕ)) → LeadsInside buffers after
        → LeadsInside buffers result }
    ensures part { (layers : List Layer) → LastIsPart layers after → LastIsPart layers result }
{
    match after {
        After::Next(next, span) => After::Packet(next, span, packet),
        _ => after,
    }
}
