ghost use Rattle.std.specs.Prelude.{◌≡◌, ◌≤◌, ◌+◌, length, drop, [], IfOk, OnErr};
ghost use Rattle.capture_formats.specs.Sections.{scope_of};
ghost use Rattle.capture_read.specs.Capture.{capture_of, frame_of, held_part, is_pcapng};
ghost use Rattle.capture_read.specs.FrameList.{AreTimesSmall};
ghost use Rattle.capture_read.specs.NextFrame.{Gives};
ghost use Rattle.capture_read.specs.State.{rest_of, IsReached};

use crate::ending::{damage_at, unfinished};
use crate::format::{Format, Place};
use crate::frame::Frame;
use crate::held_part::{held_bytes, is_large};
use crate::next_frame::NextFrame;
use crate::next_piece::next_piece;
use crate::piece::Piece;
use capture_formats::{HeadStep, Sections, head};
use pk_base::{Found, NoMemory, Octets, Reason};

pub const PCAP_HEADER_SIZE: usize = 24;

/// A section's type, with which a pcapng file begins.
const PCAPNG_MARK: [u8; 4] = [0x0A, 0x0D, 0x0D, 0x0A];

/// How a file is read, and the place of its first record or block.
#[tactic(auto, unfolding(crate::specs::Capture::capture_of))]
pub fn first_place(file: &[u8]) -> (Format, Place)
    ensures value { rest_of file.now result.0 (scope_of []) result.1 ≡ capture_of file.now }
    ensures reached { IsReached file.now result.0 (scope_of []) result.1 }
    ensures times { AreTimesSmall (capture_of file.now).frames }
{
    let held = held_bytes(file);
    if begins_pcapng(held) {
        return (Format::Pcapng, place_at(0));
    }
    match head(held) {
        HeadStep::Need(_) => {
            let ending = unfinished(is_large(file), 0, Reason::ShortHeader);
            (Format::Ended(ending), place_at(0))
        }
        HeadStep::Bad(reason) => (Format::Ended(damage_at(0, reason)), place_at(0)),
        HeadStep::Head(head) => (Format::Pcap(head), place_at(PCAP_HEADER_SIZE)),
    }
}

/// The place of a file's first record or block.
fn place_at(at: usize) -> Place
    ensures { result ≡ record { number = 1; at = at } }
{
    Place { number: 1, at }
}

pub fn begins_pcapng(bytes: &[u8]) -> bool
    ensures { result ≡ is_pcapng bytes.now }
{
    bytes.starts_with(&PCAPNG_MARK)
}

/// Reads from a place of a file on up to the next frame.
pub fn take_frame(
    file: &Octets,
    format: Format,
    sections: &mut Sections,
    place: &mut Place,
) -> Result<NextFrame, NoMemory>
    requires { IsReached file.now format sections.old place.old }
    ensures gives { IfOk result (λ next.
        Gives next (rest_of file.now format sections.old place.old)
        (rest_of file.now format sections.new place.new)) }
    ensures kept { OnErr result (rest_of file.now format sections.new place.new
        ≡ rest_of file.now format sections.old place.old) }
    ensures reached { IsReached file.now format sections.new place.new }
{
    let large = is_large(file.bytes());
    loop {
        match next_piece(large, held_bytes(file.bytes()), format, sections, place.at)? {
            Piece::End(ending) => return Ok(NextFrame::End(ending)),
            Piece::Packet(found) => {
                let frame = frame_at(file, *place, &found)?;
                place.number += 1;
                place.at += found.end;
                return Ok(NextFrame::Frame(frame));
            }
            Piece::Passed(size) => place.at += size,
        }
    }
}

/// The frame found in the record or block at a place of a file.
fn frame_at(file: &Octets, place: Place, found: &Found) -> Result<Frame, NoMemory>
    requires { place.at + found.now.start + found.now.len ≤ length (held_part file.now) }
    ensures { IfOk result (λ frame.
        frame ≡ frame_of place.number found.now (drop place.at (held_part file.now))) }
{
    let start = place.at + found.start;
    Ok(Frame {
        number: place.number,
        time: found.time,
        link: found.link,
        little: found.little,
        bytes: file.part(start, start + found.len)?,
        original: found.original,
    })
}
