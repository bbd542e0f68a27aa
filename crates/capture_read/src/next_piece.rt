ghost use Rattle.std.specs.Prelude.{◌≡◌, ◌≤◌, ◌-◌, length, drop, List, ℕ, IfOk, OnErr};
ghost use Rattle.capture_read.specs.Pieces.{IsPieceWithin};
ghost use Rattle.capture_read.specs.State.{reading_from, IsBegun, Reads, UnlessPassed, WhenRead};

use crate::format::Format;
use crate::piece::{Piece, read_block, read_record};
use capture_formats::Sections;
use pk_base::{NoMemory, bytes_from};

/// Reads the record or block at a place of the bytes that are looked at.
#[tactic(auto, using(crate::proofs::FormatSteps::reads_record, crate::proofs::FormatSteps::reads_block, crate::proofs::FormatSteps::left_at, crate::proofs::FormatSteps::unless_passed, crate::proofs::FormatSteps::record_begun))]
pub fn next_piece(
    large: bool,
    held: &[u8],
    format: Format,
    sections: &mut Sections,
    at: usize,
) -> Result<Piece, NoMemory>
    requires within { at ≤ length held.now }
    requires begun { IsBegun format sections.old (drop at held.now) }
    ensures reads { IfOk result (λ piece.
        Reads (reading_from large held.now format sections.old)
        (reading_from large held.now format sections.new) at (drop at held.now) piece) }
    ensures within { IfOk result (λ piece. IsPieceWithin piece (length held.now - at)) }
    ensures stays { IfOk result (λ piece. UnlessPassed piece (sections.new ≡ sections.old)) }
    ensures begun { IfOk result (λ piece.
        WhenRead piece ((bytes : List ℕ) → IsBegun format sections.new bytes)) }
    ensures kept { OnErr result (sections.new ≡ sections.old) }
{
    let rest = bytes_from(held, at);
    Ok(match format {
        Format::Ended(ending) => Piece::End(ending),
        Format::Pcap(head) => read_record(large, &head, at, rest),
        Format::Pcapng => read_block(large, sections, at, rest)?,
    })
}
