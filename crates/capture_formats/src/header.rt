ghost use Rattle.std.specs.Prelude.{◌≡◌, ◌≤◌, length};
ghost use Rattle.capture_formats.specs.Pcap.{pcap_head, header_after_magic, IsHeadWithin};

use pk_base::{Reason, u16_at, u32_at};

/// The file's times count microseconds below the second.
const MICROSECOND_MAGIC: u32 = 0xA1B2_C3D4;

/// The file's times count nanoseconds below the second.
const NANOSECOND_MAGIC: u32 = 0xA1B2_3C4D;

/// The only major version that is read.
const MAJOR_VERSION: u16 = 2;

const MAGIC_SIZE: usize = 4;

const HEADER_SIZE: usize = 24;

const MAJOR_AT: usize = 4;

const LINK_AT: usize = 20;

/// What a pcap file's header says of its records.
#[derive(Clone, Copy)]
pub struct PcapHead {
    /// Whether the file's numbers are little-endian.
    pub little: bool,
    /// Whether times count nanoseconds below the second, and not microseconds.
    pub nano: bool,
    /// The link type of every frame.
    pub link: u16,
}

/// What the first bytes of a pcap file are.
#[derive(Clone, Copy)]
pub enum HeadStep {
    /// So many bytes are needed, and fewer are held.
    Need(usize),
    /// A header. The records follow its 24 bytes.
    Head(PcapHead),
    /// No header of a pcap file that can be read: `UnknownMagic` or `BadVersion`.
    Bad(Reason),
}

/// Reads the header of a pcap file from the first bytes that are held of it.
#[tactic(auto, unfolding(crate::specs::Pcap::pcap_head))]
pub fn head(rest: &[u8]) -> HeadStep
    ensures value { result ≡ pcap_head rest.now }
    ensures within { IsHeadWithin result (length rest.now) }
{
    if rest.len() < MAGIC_SIZE {
        return HeadStep::Need(MAGIC_SIZE);
    }
    match (u32_at(true, rest, 0), u32_at(false, rest, 0)) {
        (MICROSECOND_MAGIC, _) => after_magic(true, false, rest),
        (NANOSECOND_MAGIC, _) => after_magic(true, true, rest),
        (_, MICROSECOND_MAGIC) => after_magic(false, false, rest),
        (_, NANOSECOND_MAGIC) => after_magic(false, true, rest),
        _ => HeadStep::Bad(Reason::UnknownMagic),
    }
}

/// Reads what follows the magic number, which tells the byte order and what times count.
fn after_magic(little: bool, nano: bool, rest: &[u8]) -> HeadStep
    requires { MAGIC_SIZE ≤ length rest.now }
    ensures value { result ≡ header_after_magic little nano rest.now }
    ensures within { IsHeadWithin result (length rest.now) }
{
    if rest.len() < HEADER_SIZE {
        return HeadStep::Need(HEADER_SIZE);
    }
    if u16_at(little, rest, MAJOR_AT) != MAJOR_VERSION {
        return HeadStep::Bad(Reason::BadVersion);
    }
    let link = (u32_at(little, rest, LINK_AT) % (1 << 16)) as u16;
    HeadStep::Head(PcapHead { little, nano, link })
}
