ghost use Rattle.std.specs.Prelude.{◌≡◌};
ghost use Rattle.capture_read.specs.Ending.{end_of_bytes, unfinished, damage_at};

use pk_base::Reason;

/// Where and why a capture file can't be read further.
#[derive(Clone, Copy)]
pub struct Damage {
    /// The place of the first byte of the header, record or block at fault.
    pub at: u64,
    pub reason: Reason,
}

/// How the reading of a capture file ends.
#[derive(Clone, Copy)]
pub enum Ending {
    /// No byte is left.
    Whole,
    /// The file is damaged behind the frames that were read.
    Damaged(Damage),
    /// The file is longer than 2^28 bytes, and only the frames that end within them were read.
    TooLarge,
}

/// How the reading ends where no byte is left of those that are looked at.
pub fn end_of_bytes(large: bool) -> Ending
    ensures { result ≡ end_of_bytes large }
{
    if large {
        Ending::TooLarge
    } else {
        Ending::Whole
    }
}

/// How the reading ends at a header or record that needs more bytes than there are.
pub fn unfinished(large: bool, at: usize, reason: Reason) -> Ending
    ensures { result ≡ unfinished large at reason }
{
    if large {
        Ending::TooLarge
    } else {
        damage_at(at, reason)
    }
}

pub fn damage_at(at: usize, reason: Reason) -> Ending
    ensures { result ≡ damage_at at reason }
{
    Ending::Damaged(Damage {
        at: at as u64,
        reason,
    })
}
