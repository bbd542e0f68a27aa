ghost use Rattle.std.specs.Prelude.{◌≡◌, ◌<◌, ◌≤◌, ◌^◌, ◌++◌, true, length, OnOk};
ghost use Rattle.pk_base.specs.Limits.{captured_limit};
ghost use Rattle.capture_write.specs.Frames.{nanoseconds_of};
ghost use Rattle.capture_write.specs.Kept.{start_of, start_by, packet_of, fits_by};
ghost use Rattle.capture_write.specs.Pcapng.{new_interface, packet_by, pcapng_piece, fits_pcapng};

use crate::format::Format;
use crate::links::Links;
use crate::pcap::{push_header, push_record};
use crate::pcapng::{push_enhanced, push_interface, push_section, push_simple};
use capture_read::Frame;
use pk_base::NoMemory;

/// Writes what stands before the first frame.
pub fn push_start(
    bytes: &mut Vec<u8>,
    format: Format,
    little: bool,
    link: u16,
) -> Result<(), NoMemory>
    ensures { OnOk result (bytes.new.items ≡ bytes.old.items ++ start_of format little link) }
{
    match format {
        Format::Pcap => push_header(bytes, little, link),
        Format::Pcapng => push_section(bytes, little),
    }
}

/// Writes what stands before a frame where it is the first.
pub fn push_first(
    bytes: &mut Vec<u8>,
    format: Format,
    order: Option<bool>,
    frame: &Frame,
) -> Result<(), NoMemory>
    ensures { OnOk result (bytes.new.items ≡ bytes.old.items ++ start_by format order frame.now) }
{
    match order {
        None => push_start(bytes, format, frame.little, frame.link),
        Some(_) => Ok(()),
    }
}

/// Writes a frame that fits behind those that brought these link types.
#[tactic(auto, using(crate::proofs::FitLaws::fitting_pcap))]
pub fn push_packet(
    bytes: &mut Vec<u8>,
    format: Format,
    little: bool,
    links: &Links,
    frame: &Frame,
) -> Result<(), NoMemory>
    requires { fits_by format little links.now frame.now ≡ true }
    ensures { OnOk result (bytes.new.items
        ≡ bytes.old.items ++ packet_of format little links.now frame.now) }
{
    match format {
        Format::Pcap => push_record(bytes, little, frame),
        Format::Pcapng => push_piece(bytes, little, links, frame),
    }
}

/// Writes a frame's interface where it is new, and its packet.
#[tactic(auto, using(crate::proofs::FitLaws::fitting_pcapng))]
fn push_piece(
    bytes: &mut Vec<u8>,
    little: bool,
    links: &Links,
    frame: &Frame,
) -> Result<(), NoMemory>
    requires { fits_pcapng little links.now frame.now ≡ true }
    ensures { OnOk result (bytes.new.items
        ≡ bytes.old.items ++ pcapng_piece little links.now frame.now) }
{
    push_new(bytes, little, links, frame.link)?;
    push_by(bytes, little, links.place(frame.link), frame)
}

fn push_new(bytes: &mut Vec<u8>, little: bool, links: &Links, link: u16) -> Result<(), NoMemory>
    ensures { OnOk result (bytes.new.items
        ≡ bytes.old.items ++ new_interface little link links.now) }
{
    if links.is_new(link) {
        push_interface(bytes, little, link)?;
    }
    Ok(())
}

/// Writes a packet of the interface with this number, by the frame's time.
fn push_by(bytes: &mut Vec<u8>, little: bool, place: u32, frame: &Frame) -> Result<(), NoMemory>
    requires time { nanoseconds_of frame.now.time < 2 ^ 64 }
    requires short { length frame.now.bytes ≤ captured_limit }
    ensures { OnOk result (bytes.new.items
        ≡ bytes.old.items ++ packet_by little place frame.now frame.now.time) }
{
    match frame.time {
        Some(_) => push_enhanced(bytes, little, place, frame),
        None => push_simple(bytes, little, frame),
    }
}
