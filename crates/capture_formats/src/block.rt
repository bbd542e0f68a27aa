ghost use Rattle.std.specs.Prelude.{◌≡◌, ◌≤◌, ◌<◌, ◌+◌, ◌^◌, length, slice_get};
ghost use Rattle.capture_formats.specs.Blocks.{block_at, measured_block, whole_block, section_of, interface_of, packet_of, timed_packet, simple_packet, fitting, least_length, told_order, kept_length, total_length, IsReadWithin};

use crate::interface::{Interface, time};
use crate::options::read_options;
use crate::rate::Rate;
use pk_base::{CAPTURED_LIMIT, Found, Reason, u16_at, u32_at};

/// A block's type and total length, and the total length behind its body.
const LEAST_SIZE: usize = 12;

const SECTION: u32 = 0x0A0D_0D0A;

const INTERFACE: u32 = 1;

const OBSOLETE_PACKET: u32 = 2;

const SIMPLE_PACKET: u32 = 3;

const ENHANCED_PACKET: u32 = 6;

const BYTE_ORDER_MAGIC: u32 = 0x1A2B_3C4D;

/// The only major version that is read.
const MAJOR_VERSION: u16 = 1;

const TYPE_AT: usize = 0;

const TOTAL_AT: usize = 4;

/// The size of the total length behind a block's body.
const TRAILER_SIZE: usize = 4;

const MAGIC_AT: usize = 8;

const MAJOR_AT: usize = 12;

const LINK_AT: usize = 8;

const SNAP_AT: usize = 12;

const OPTIONS_AT: usize = 16;

const INTERFACE_AT: usize = 8;

const TIME_HIGH_AT: usize = 12;

const TIME_LOW_AT: usize = 16;

const CAPTURED_AT: usize = 20;

const ORIGINAL_AT: usize = 24;

const PACKET_AT: usize = 28;

const SIMPLE_ORIGINAL_AT: usize = 8;

const SIMPLE_PACKET_AT: usize = 12;

/// A block of a pcapng file, as far as it is read.
#[derive(Clone, Copy)]
pub enum Block {
    /// A section, and whether its numbers are little-endian.
    Section(bool),
    Interface(Interface),
    Packet(Found),
    Other,
}

/// What stands at a place where a block begins.
#[derive(Clone, Copy)]
pub enum BlockRead {
    /// So many bytes are needed, and fewer are held.
    Need(usize),
    /// A whole block, and its size.
    Whole(Block, usize),
    Bad(Reason),
}

/// Reads the block that begins with the first of the bytes held, behind a section of this byte order whose interfaces
/// so far are these.
#[tactic(auto, unfolding(crate::specs::Blocks::block_at))]
pub fn read_block(order: Option<bool>, interfaces: &[Interface], rest: &[u8]) -> BlockRead
    ensures value { result ≡ block_at order interfaces.now rest.now }
    ensures within { IsReadWithin result (length rest.now) }
{
    if rest.len() < LEAST_SIZE {
        return BlockRead::Need(LEAST_SIZE);
    }
    let order = if u32_at(true, rest, TYPE_AT) == SECTION {
        order_told(rest)
    } else {
        order
    };
    match order {
        Some(little) => read_measured(interfaces, little, rest),
        None => BlockRead::Bad(Reason::UnknownMagic),
    }
}

/// The byte order that a section's magic number tells.
fn order_told(rest: &[u8]) -> Option<bool>
    requires { LEAST_SIZE ≤ length rest.now }
    ensures { result ≡ told_order rest.now }
{
    if u32_at(true, rest, MAGIC_AT) == BYTE_ORDER_MAGIC {
        return Some(true);
    }
    if u32_at(false, rest, MAGIC_AT) == BYTE_ORDER_MAGIC {
        return Some(false);
    }
    None
}

fn read_measured(interfaces: &[Interface], little: bool, rest: &[u8]) -> BlockRead
    requires { LEAST_SIZE ≤ length rest.now }
    ensures value { result ≡ measured_block interfaces.now little rest.now }
    ensures within { IsReadWithin result (length rest.now) }
{
    let kind = u32_at(little, rest, TYPE_AT);
    let total = u32_at(little, rest, TOTAL_AT) as usize;
    if total < least_size(kind) || total % 4 != 0 {
        return BlockRead::Bad(Reason::BlockLength);
    }
    if rest.len() < total {
        return BlockRead::Need(total);
    }
    if u32_at(little, rest, total - TRAILER_SIZE) as usize != total {
        return BlockRead::Bad(Reason::BlockLength);
    }
    read_whole(interfaces, little, kind, rest)
}

/// The least total length of a block of a type.
fn least_size(kind: u32) -> usize
    ensures value { result ≡ least_length kind }
    ensures least { LEAST_SIZE ≤ result }
{
    match kind {
        SECTION => 28,
        INTERFACE => 20,
        OBSOLETE_PACKET | ENHANCED_PACKET => PACKET_AT + TRAILER_SIZE,
        SIMPLE_PACKET => SIMPLE_PACKET_AT + TRAILER_SIZE,
        _ => LEAST_SIZE,
    }
}

fn read_whole(interfaces: &[Interface], little: bool, kind: u32, rest: &[u8]) -> BlockRead
    requires least { least_length kind ≤ total_length little rest.now }
    requires held { total_length little rest.now ≤ length rest.now }
    ensures value { result ≡ whole_block interfaces.now little kind rest.now }
    ensures within { IsReadWithin result (length rest.now) }
{
    match kind {
        SECTION => read_section(little, rest),
        INTERFACE => read_interface(little, rest),
        OBSOLETE_PACKET => {
            let number = u16_at(little, rest, INTERFACE_AT);
            read_timed(interface_at(interfaces, u32::from(number)), little, rest)
        }
        SIMPLE_PACKET => read_simple(interface_at(interfaces, 0), little, rest),
        ENHANCED_PACKET => {
            let number = u32_at(little, rest, INTERFACE_AT);
            read_timed(interface_at(interfaces, number), little, rest)
        }
        _ => BlockRead::Whole(Block::Other, u32_at(little, rest, TOTAL_AT) as usize),
    }
}

fn interface_at(interfaces: &[Interface], number: u32) -> Option<Interface>
    ensures { result ≡ slice_get interfaces.now number }
{
    interfaces.get(number as usize).copied()
}

fn read_section(little: bool, rest: &[u8]) -> BlockRead
    requires least { 28 ≤ total_length little rest.now }
    requires held { total_length little rest.now ≤ length rest.now }
    ensures value { result ≡ section_of little rest.now }
    ensures within { IsReadWithin result (length rest.now) }
{
    if u16_at(little, rest, MAJOR_AT) != MAJOR_VERSION {
        return BlockRead::Bad(Reason::BadVersion);
    }
    BlockRead::Whole(
        Block::Section(little),
        u32_at(little, rest, TOTAL_AT) as usize,
    )
}

fn read_interface(little: bool, rest: &[u8]) -> BlockRead
    requires least { 20 ≤ total_length little rest.now }
    requires held { total_length little rest.now ≤ length rest.now }
    ensures value { result ≡ interface_of little rest.now }
    ensures within { IsReadWithin result (length rest.now) }
{
    let end = u32_at(little, rest, TOTAL_AT) as usize;
    let Some(settings) = read_options(little, &rest[OPTIONS_AT..end - TRAILER_SIZE]) else {
        return BlockRead::Bad(Reason::BadOption);
    };
    let Some(rate) = Rate::of_resolution(settings.resolution) else {
        return BlockRead::Bad(Reason::BadResolution);
    };
    let interface = Interface {
        link: u16_at(little, rest, LINK_AT),
        snap: u32_at(little, rest, SNAP_AT),
        rate,
        offset: settings.offset,
    };
    BlockRead::Whole(Block::Interface(interface), end)
}

/// Reads an enhanced or obsolete packet block.
fn read_timed(interface: Option<Interface>, little: bool, rest: &[u8]) -> BlockRead
    requires least { 32 ≤ total_length little rest.now }
    requires held { total_length little rest.now ≤ length rest.now }
    ensures value { result ≡ packet_of (timed_packet little rest.now) interface }
    ensures within { IsReadWithin result (length rest.now) }
{
    let Some(interface) = interface else {
        return BlockRead::Bad(Reason::BadInterface);
    };
    let high = u32_at(little, rest, TIME_HIGH_AT);
    let low = u32_at(little, rest, TIME_LOW_AT);
    fit(Found {
        time: Some(time(&interface, high, low)),
        link: interface.link,
        little,
        original: u32_at(little, rest, ORIGINAL_AT),
        start: PACKET_AT,
        len: u32_at(little, rest, CAPTURED_AT) as usize,
        end: u32_at(little, rest, TOTAL_AT) as usize,
    })
}

/// Reads a simple packet block, whose packet is as long as its interface keeps it.
fn read_simple(interface: Option<Interface>, little: bool, rest: &[u8]) -> BlockRead
    requires least { 16 ≤ total_length little rest.now }
    requires held { total_length little rest.now ≤ length rest.now }
    ensures value { result ≡ packet_of (simple_packet little rest.now) interface }
    ensures within { IsReadWithin result (length rest.now) }
{
    let Some(interface) = interface else {
        return BlockRead::Bad(Reason::BadInterface);
    };
    let original = u32_at(little, rest, SIMPLE_ORIGINAL_AT);
    fit(Found {
        time: None,
        link: interface.link,
        little,
        original,
        start: SIMPLE_PACKET_AT,
        len: kept(interface.snap, original) as usize,
        end: u32_at(little, rest, TOTAL_AT) as usize,
    })
}

fn kept(snap: u32, original: u32) -> u32
    ensures { result ≡ kept_length snap original }
{
    if snap == 0 {
        return original;
    }
    original.min(snap)
}

/// A packet that isn't too long, in a block that has room for it.
fn fit(found: Found) -> BlockRead
    requires room { found.start + found.len + TRAILER_SIZE < 2 ^ 64 }
    requires some { 0 < found.end }
    ensures value { result ≡ fitting found }
    ensures within { IsReadWithin result found.end }
{
    if found.len > CAPTURED_LIMIT as usize {
        return BlockRead::Bad(Reason::TooLong);
    }
    if found.end < found.start + found.len + TRAILER_SIZE {
        return BlockRead::Bad(Reason::BlockLength);
    }
    BlockRead::Whole(Block::Packet(found), found.end)
}
