ghost use Rattle.std.specs.Prelude.{◌≡◌, ◌<◌, ◌≤◌, ◌+◌, ◌^◌, ◌++◌, length, OnOk};
ghost use Rattle.pk_base.specs.Limits.{captured_limit};
ghost use Rattle.capture_write.specs.Frames.{nanoseconds_of};
ghost use Rattle.capture_write.specs.Pcapng.{section_block, interface_block, block_bytes, enhanced_body, simple_body, padded_bytes};
ghost use Rattle.capture_formats.specs.Blocks.{enhanced_packet_type, simple_packet_type};
ghost use Rattle.capture_formats.specs.Options.{padded};

use crate::fitting::nanoseconds;
use crate::numbers::{Number, push_number, push_numbers};
use capture_read::Frame;
use pk_base::NoMemory;

const SECTION: u32 = 0x0A0D_0D0A;

const INTERFACE: u32 = 1;

const SIMPLE_PACKET: u32 = 3;

const ENHANCED_PACKET: u32 = 6;

const SECTION_SIZE: u32 = 28;

const INTERFACE_SIZE: u32 = 32;

/// The size of a simple packet's block around the packet.
const SIMPLE_SIZE: u32 = 16;

/// The size of an enhanced packet's block around the packet.
const ENHANCED_SIZE: u32 = 32;

const BYTE_ORDER_MAGIC: u32 = 0x1A2B_3C4D;

const MAJOR_VERSION: u16 = 1;

const MINOR_VERSION: u16 = 0;

/// A section of unknown length.
const UNKNOWN_LENGTH: u64 = u64::MAX;

/// The option if_tsresol, of one byte.
const RESOLUTION_CODE: u16 = 9;

const RESOLUTION_LENGTH: u16 = 1;

/// A clock that counts units of 10^-9 seconds, and the bytes that pad the option.
const NANOSECOND_RESOLUTION: [u8; 4] = [9, 0, 0, 0];

/// The option behind which none stands.
const END_CODE: u16 = 0;

/// Writes the section's block.
pub fn push_section(bytes: &mut Vec<u8>, little: bool) -> Result<(), NoMemory>
    ensures { OnOk result (bytes.new.items ≡ bytes.old.items ++ section_block little) }
{
    let numbers = [
        Number::Four(SECTION),
        Number::Four(SECTION_SIZE),
        Number::Four(BYTE_ORDER_MAGIC),
        Number::Two(MAJOR_VERSION),
        Number::Two(MINOR_VERSION),
        Number::Eight(UNKNOWN_LENGTH),
        Number::Four(SECTION_SIZE),
    ];
    push_numbers(bytes, little, &numbers)
}

/// Writes the block of a link type's interface.
pub fn push_interface(bytes: &mut Vec<u8>, little: bool, link: u16) -> Result<(), NoMemory>
    ensures { OnOk result (bytes.new.items ≡ bytes.old.items ++ interface_block little link) }
{
    let front = [
        Number::Four(INTERFACE),
        Number::Four(INTERFACE_SIZE),
        Number::Two(link),
        Number::Two(0),
        Number::Four(0),
        Number::Two(RESOLUTION_CODE),
        Number::Two(RESOLUTION_LENGTH),
    ];
    let end = [
        Number::Two(END_CODE),
        Number::Two(0),
        Number::Four(INTERFACE_SIZE),
    ];
    push_numbers(bytes, little, &front)?;
    bytes.extend_from_slice(&NANOSECOND_RESOLUTION)?;
    push_numbers(bytes, little, &end)
}

/// Writes the block of a frame with a time, which is of the interface with this number.
pub fn push_enhanced(
    bytes: &mut Vec<u8>,
    little: bool,
    place: u32,
    frame: &Frame,
) -> Result<(), NoMemory>
    requires time { nanoseconds_of frame.now.time < 2 ^ 64 }
    requires short { length frame.now.bytes ≤ captured_limit }
    ensures { OnOk result (bytes.new.items ≡ bytes.old.items
        ++ block_bytes little enhanced_packet_type (enhanced_body little place frame.now)) }
{
    let time = nanoseconds(frame.time);
    let captured = frame.bytes.bytes();
    let size = ENHANCED_SIZE + padded(captured.len()) as u32;
    let numbers = [
        Number::Four(ENHANCED_PACKET),
        Number::Four(size),
        Number::Four(place),
        Number::Four((time / (1 << 32)) as u32),
        Number::Four((time % (1 << 32)) as u32),
        Number::Four(captured.len() as u32),
        Number::Four(frame.original),
    ];
    push_numbers(bytes, little, &numbers)?;
    push_padded(bytes, captured)?;
    push_number(bytes, little, Number::Four(size))
}

/// Writes the block of a frame without a time.
pub fn push_simple(bytes: &mut Vec<u8>, little: bool, frame: &Frame) -> Result<(), NoMemory>
    requires short { length frame.now.bytes ≤ captured_limit }
    ensures { OnOk result (bytes.new.items ≡ bytes.old.items
        ++ block_bytes little simple_packet_type (simple_body little frame.now)) }
{
    let captured = frame.bytes.bytes();
    let size = SIMPLE_SIZE + padded(captured.len()) as u32;
    let numbers = [
        Number::Four(SIMPLE_PACKET),
        Number::Four(size),
        Number::Four(frame.original),
    ];
    push_numbers(bytes, little, &numbers)?;
    push_padded(bytes, captured)?;
    push_number(bytes, little, Number::Four(size))
}

/// A length with the bytes that pad it.
fn padded(len: usize) -> usize
    requires { len ≤ captured_limit }
    ensures { result ≡ padded len }
{
    (len + 3) / 4 * 4
}

/// Writes bytes, and as many zeros as make them a multiple of 4.
#[tactic(auto, using(crate::proofs::NumberLaws::zeros_taken))]
fn push_padded(bytes: &mut Vec<u8>, captured: &[u8]) -> Result<(), NoMemory>
    requires { length captured.now ≤ captured_limit }
    ensures { OnOk result (bytes.new.items ≡ bytes.old.items ++ padded_bytes captured.now) }
{
    let zeros: [u8; 3] = [0, 0, 0];
    let count = padded(captured.len()) - captured.len();
    bytes.extend_from_slice(captured)?;
    Ok(bytes.extend_from_slice(&zeros[..count])?)
}
