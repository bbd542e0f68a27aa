ghost use Rattle.std.specs.Prelude.{◌≡◌, ◌≤◌, ◌+◌, length};
ghost use Rattle.pk_base.specs.Endian.{number_at};
ghost use Rattle.capture_formats.specs.Options.{option_of, settings_of, padded, after_one, IsOptionWithin};

use byteorder::{BigEndian, ByteOrder, LittleEndian};
use pk_base::{bytes_from, u16_at};

const OPTION_HEAD_SIZE: usize = 4;

const CODE_AT: usize = 0;

const LENGTH_AT: usize = 2;

const VALUE_AT: usize = 4;

/// `opt_endofopt`
const END_CODE: u16 = 0;

/// `if_tsresol`
const RESOLUTION_CODE: u16 = 9;

/// `if_tsoffset`
const OFFSET_CODE: u16 = 14;

/// Microseconds.
const DEFAULT_RESOLUTION: u8 = 6;

/// What one option says of an interface.
#[derive(Clone, Copy)]
pub enum Setting {
    Resolution(u8),
    Offset(i64),
    Other,
}

/// What stands where an option may begin.
#[derive(Clone, Copy)]
pub enum OptionStep {
    /// The end of the options.
    End,
    /// An option that runs past its block, or has another length than its code's.
    Bad,
    /// An option, with the bytes that it takes.
    Sets(Setting, usize),
}

/// What the options say of an interface.
#[derive(Clone, Copy)]
pub struct Settings {
    /// The resolution of its clock, as `if_tsresol` has it.
    pub resolution: u8,
    /// Seconds that are added to each time.
    pub offset: i64,
}

/// What the options in these bytes say of an interface, the last of each code. Nothing where one of them runs past the
/// bytes, or has another length than its code's.
pub fn read_options(little: bool, bytes: &[u8]) -> Option<Settings>
    ensures { result ≡ settings_of little bytes.now }
{
    let mut settings = Settings {
        resolution: DEFAULT_RESOLUTION,
        offset: 0,
    };
    let mut rest = bytes;
    while !rest.is_empty() {
        match next_option(little, rest) {
            OptionStep::End => return Some(settings),
            OptionStep::Bad => return None,
            OptionStep::Sets(setting, size) => {
                settings = with(settings, setting);
                rest = bytes_from(rest, size);
            }
        }
    }
    Some(settings)
}

fn with(settings: Settings, setting: Setting) -> Settings
    ensures { result ≡ after_one settings setting }
{
    match setting {
        Setting::Resolution(resolution) => Settings {
            resolution,
            offset: settings.offset,
        },
        Setting::Offset(offset) => Settings {
            resolution: settings.resolution,
            offset,
        },
        Setting::Other => settings,
    }
}

#[tactic(auto, unfolding(crate::specs::Options::option_of))]
fn next_option(little: bool, rest: &[u8]) -> OptionStep
    ensures value { result ≡ option_of little rest.now }
    ensures within { IsOptionWithin result (length rest.now) }
{
    if rest.len() < OPTION_HEAD_SIZE {
        return OptionStep::Bad;
    }
    let code = u16_at(little, rest, CODE_AT);
    if code == END_CODE {
        return OptionStep::End;
    }
    let len = u16_at(little, rest, LENGTH_AT);
    let size = OPTION_HEAD_SIZE + padded_size(len);
    if rest.len() < size {
        return OptionStep::Bad;
    }
    match (code, len) {
        (RESOLUTION_CODE, 1) => OptionStep::Sets(Setting::Resolution(rest[VALUE_AT]), size),
        (OFFSET_CODE, 8) => {
            let seconds = u64_at(little, rest, VALUE_AT).cast_signed();
            OptionStep::Sets(Setting::Offset(seconds), size)
        }
        (RESOLUTION_CODE, _) | (OFFSET_CODE, _) => OptionStep::Bad,
        _ => OptionStep::Sets(Setting::Other, size),
    }
}

fn padded_size(len: u16) -> usize
    ensures value { result ≡ padded len }
    ensures enough { len ≤ result }
{
    usize::from(len).div_ceil(4) * 4
}

/// The number of eight bytes at a place, in the byte order of a section.
fn u64_at(little: bool, bytes: &[u8], at: usize) -> u64
    requires { at + 8 ≤ length bytes.now }
    ensures { result ≡ number_at little 8 at bytes.now }
{
    let rest = &bytes[at..];
    if little {
        LittleEndian::read_u64(rest)
    } else {
        BigEndian::read_u64(rest)
    }
}
