ghost use Rattle.std.specs.Prelude.{◌≡◌, ◌<◌, ◌*◌, ◌^◌, ◌++◌, length, OnOk};
ghost use Rattle.capture_write.specs.Frames.{nanoseconds_of};
ghost use Rattle.capture_write.specs.Pcap.{pcap_header, pcap_record};

use crate::fitting::nanoseconds;
use crate::numbers::{Number, push_numbers};
use capture_read::Frame;
use pk_base::{CAPTURED_LIMIT, NoMemory};

/// The file's times count nanoseconds below the second.
const NANOSECOND_MAGIC: u32 = 0xA1B2_3C4D;

const MAJOR_VERSION: u16 = 2;

const MINOR_VERSION: u16 = 4;

const NANOSECONDS_PER_SECOND: u128 = 1_000_000_000;

/// Writes the header of a file of this link type.
pub fn push_header(bytes: &mut Vec<u8>, little: bool, link: u16) -> Result<(), NoMemory>
    ensures { OnOk result (bytes.new.items ≡ bytes.old.items ++ pcap_header little link) }
{
    let numbers = [
        Number::Four(NANOSECOND_MAGIC),
        Number::Two(MAJOR_VERSION),
        Number::Two(MINOR_VERSION),
        Number::Four(0),
        Number::Four(0),
        Number::Four(CAPTURED_LIMIT),
        Number::Four(u32::from(link)),
    ];
    push_numbers(bytes, little, &numbers)
}

/// Writes the record of a frame.
pub fn push_record(bytes: &mut Vec<u8>, little: bool, frame: &Frame) -> Result<(), NoMemory>
    requires time { nanoseconds_of frame.now.time < 2 ^ 32 * 10 ^ 9 }
    requires short { length frame.now.bytes < 2 ^ 32 }
    ensures { OnOk result (bytes.new.items ≡ bytes.old.items ++ pcap_record little frame.now) }
{
    let time = nanoseconds(frame.time);
    let captured = frame.bytes.bytes();
    let numbers = [
        Number::Four((time / NANOSECONDS_PER_SECOND) as u32),
        Number::Four((time % NANOSECONDS_PER_SECOND) as u32),
        Number::Four(captured.len() as u32),
        Number::Four(frame.original),
    ];
    push_numbers(bytes, little, &numbers)?;
    Ok(bytes.extend_from_slice(captured)?)
}
