ghost use Rattle.std.specs.Prelude.{◌≡◌, ◌≢◌, None, length, IfOk, OnErr};
ghost use Rattle.capture_formats.specs.Sections.{IsReady};
ghost use Rattle.capture_read.specs.Pieces.{record_at, where_left, IsPieceWithin};
ghost use Rattle.capture_read.specs.State.{scoped_block, scope_behind, UnlessPassed, WhenRead};

use crate::ending::{Ending, damage_at, end_of_bytes, unfinished};
use capture_formats::{BlockStep, ItemStep, PcapHead, Sections, next_item};
use pk_base::{Found, NoMemory, Reason};

/// What stands at a place of a file where a record or block may begin.
#[derive(Clone, Copy)]
pub enum Piece {
    /// None that can be read.
    End(Ending),
    /// A record or block with a frame.
    Packet(Found),
    /// A block without a frame, of so many bytes.
    Passed(usize),
}

/// Reads the record of a pcap file that begins with the first of these bytes, which are those from a place of the file on.
pub fn read_record(large: bool, head: &PcapHead, at: usize, rest: &[u8]) -> Piece
    ensures value { result ≡ where_left large rest.now (record_at large head.now at rest.now) }
    ensures within { IsPieceWithin result (length rest.now) }
{
    if rest.is_empty() {
        return Piece::End(end_of_bytes(large));
    }
    match next_item(head, rest) {
        ItemStep::Need(_) => Piece::End(unfinished(large, at, Reason::RecordCut)),
        ItemStep::Bad(reason) => Piece::End(damage_at(at, reason)),
        ItemStep::Item(found) => Piece::Packet(found),
    }
}

/// Reads the block of a pcapng file that begins with the first of these bytes, which are those from a place of the file on.
#[tactic(auto, using(crate::proofs::KnownBlocks::packet_stays))]
pub fn read_block(
    large: bool,
    sections: &mut Sections,
    at: usize,
    rest: &[u8],
) -> Result<Piece, NoMemory>
    requires { IsReady sections.old rest.now }
    ensures value { IfOk result (λ piece.
        piece ≡ where_left large rest.now (scoped_block large sections.old at rest.now)) }
    ensures behind { IfOk result (λ piece.
        WhenRead piece (sections.new ≡ scope_behind sections.old rest.now)) }
    ensures stays { IfOk result (λ piece. UnlessPassed piece (sections.new ≡ sections.old)) }
    ensures begun { IfOk result (λ piece. WhenRead piece (sections.new.order ≢ None)) }
    ensures kept { OnErr result (sections.new ≡ sections.old) }
    ensures within { IfOk result (λ piece. IsPieceWithin piece (length rest.now)) }
{
    if rest.is_empty() {
        return Ok(Piece::End(end_of_bytes(large)));
    }
    Ok(match sections.next_block(rest)? {
        BlockStep::Need(_) => Piece::End(unfinished(large, at, Reason::BlockCut)),
        BlockStep::Bad(reason) => Piece::End(damage_at(at, reason)),
        BlockStep::Item(found) => Piece::Packet(found),
        BlockStep::Skipped(size) => Piece::Passed(size),
    })
}
