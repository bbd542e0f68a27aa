// What the tables read of a frame, by whatever answers for it.
ghost use Rattle.std.specs.Prelude.{◌≡◌, IfOk};
ghost use Rattle.std.specs.Option.{option_map};
ghost use Rattle.cap_stats.specs.Steps.{packet_note};
ghost use Rattle.cap_stats.specs.Told.{length_of as bytes_of, packet_in as packet_value, stream_in as stream_value};

use crate::party::{Flight, Packet};
use crate::{headers, told};
use pk_base::NoMemory;
use pk_source::{Lender, Source};

/// The segment that a frame shows.
pub(crate) fn stream_in(source: &Source<'_>) -> Result<Option<(u64, Flight)>, NoMemory>
    ensures { IfOk result (λ note. note ≡ stream_value source.now.layers) }
{
    match source.lender() {
        Lender::Tree(tree) => Ok(told::stream_in(tree.layers())),
        Lender::Outline(outline) => headers::stream_in(outline),
    }
}

/// The packet that a frame shows.
pub(crate) fn packet_in(source: &Source<'_>) -> Result<Option<Packet>, NoMemory>
    ensures { IfOk result (λ packet.
        option_map packet_note packet ≡ packet_value source.now.layers) }
{
    match source.lender() {
        Lender::Tree(tree) => Ok(told::packet_in(tree.layers())),
        Lender::Outline(outline) => headers::packet_in(outline),
    }
}

/// A frame's length on the wire.
pub(crate) fn length_of(source: &Source<'_>) -> Result<u64, NoMemory>
    ensures { IfOk result (λ bytes. bytes ≡ bytes_of source.now.layers) }
{
    match source.lender() {
        Lender::Tree(tree) => Ok(told::length_of(tree.layers())),
        Lender::Outline(outline) => headers::length_of(outline),
    }
}
