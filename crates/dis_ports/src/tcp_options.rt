ghost use Rattle.std.specs.Prelude.{◌≡◌, ◌+◌, ◌-◌, ◌*◌, ◌<◌, ◌^◌, ◌++◌, length, slice_index_or, IfOk, OnOk};
ghost use Rattle.pk_tree.specs.Entries.{Adds, repeated};
ghost use Rattle.dis_ports.specs.TcpOptions.{option_at, option_data, option_with_length, sack_block, tcp_options};

use pk_base::NoMemory;
use pk_fields::ids;
use pk_tree::Step;

/// The bytes of a header before its options.
pub(crate) const FIXED: usize = 20;
/// The most options that a header has room for.
const MOST_OPTIONS: u32 = 40;

/// The kinds of options that are read (RFC 9293, 3.2; RFC 7323, 2.2 and 3.2; RFC 2018, 2 and 3).
const END_OF_LIST: u8 = 0;

const NO_OPERATION: u8 = 1;

const MAXIMUM_SEGMENT_SIZE: u8 = 2;

const WINDOW_SCALE: u8 = 3;

const SACK_PERMITTED: u8 = 4;

const SACK: u8 = 5;

const TIMESTAMPS: u8 = 8;

/// The bytes of an option's kind and length.
const HEAD: usize = 2;
/// The bytes of a SACK option's block.
const BLOCK: usize = 8;

/// Adds the steps of a header's options.
pub(crate) fn push_options(steps: &mut Vec<Step>, header: &[u8]) -> Result<(), NoMemory>
    ensures { OnOk result (steps.new.items ≡ steps.old.items ++ (tcp_options header.now).steps) }
{
    let mut at = FIXED;
    for _option in 0..MOST_OPTIONS {
        match push_option(steps, header, at)? {
            Some(next) => at = next,
            None => return Ok(()),
        }
    }
    Ok(())
}

/// Adds the steps of the option at a place, and answers where the next one is.
#[tactic(auto, unfolding(crate::specs::TcpOptions::option_at))]
fn push_option(steps: &mut Vec<Step>, header: &[u8], at: usize) -> Result<Option<usize>, NoMemory>
    ensures { IfOk result (Adds steps.old.items steps.new.items (option_at header.now at)) }
{
    let Some(kind) = header.get(at) else {
        return Ok(None);
    };
    match *kind {
        END_OF_LIST => {
            steps.push(Step::Row(ids::TCP_OPTION_KIND, at))?;
            Ok(None)
        }
        NO_OPERATION => {
            steps.push(Step::Row(ids::TCP_OPTION_KIND, at))?;
            Ok(Some(at + 1))
        }
        kind => {
            let len = length_at(header, at + 1);
            push_with_length(steps, kind, len, at, header.len())
        }
    }
}

/// The byte at a place, or 0 where it isn't there.
fn length_at(header: &[u8], at: usize) -> usize
    ensures { result ≡ slice_index_or header.now at 0 }
{
    match header.get(at) {
        Some(len) => usize::from(*len),
        None => 0,
    }
}

/// Adds the steps of an option that has a length.
#[tactic(auto, unfolding(crate::specs::TcpOptions::option_with_length))]
fn push_with_length(
    steps: &mut Vec<Step>,
    kind: u8,
    len: usize,
    at: usize,
    end: usize,
) -> Result<Option<usize>, NoMemory>
    requires at { at < end }
    requires end { end < 2 ^ 63 }
    ensures { IfOk result (Adds steps.old.items steps.new.items
        (option_with_length kind len at end)) }
{
    let left = end - at;
    if len < HEAD || left < len {
        steps.push(Step::Part(ids::TCP_OPTIONS_BAD, at, left))?;
        return Ok(None);
    }
    steps.push(Step::Row(ids::TCP_OPTION_KIND, at))?;
    steps.push(Step::Row(ids::TCP_OPTION_LEN, at + 1))?;
    push_data(steps, kind, len, at)?;
    Ok(Some(at + len))
}

/// Adds the steps of an option's data.
#[tactic(auto, unfolding(crate::specs::TcpOptions::option_data))]
fn push_data(steps: &mut Vec<Step>, kind: u8, len: usize, at: usize) -> Result<(), NoMemory>
    requires { at + len < 2 ^ 63 }
    ensures { OnOk result (steps.new.items ≡ steps.old.items ++ option_data kind len at) }
{
    match (kind, len) {
        (MAXIMUM_SEGMENT_SIZE, 4) => steps.push(Step::Row(ids::TCP_OPTIONS_MSS_VAL, at + 2))?,
        (WINDOW_SCALE, 3) => steps.push(Step::Row(ids::TCP_OPTIONS_WSCALE_SHIFT, at + 2))?,
        (SACK_PERMITTED, 2) => steps.push(Step::Part(ids::TCP_OPTIONS_SACK_PERM, at, 2))?,
        (SACK, _) if len % BLOCK == HEAD => push_blocks(steps, len / BLOCK, at + 2)?,
        (TIMESTAMPS, 10) => {
            steps.push(Step::Row(ids::TCP_OPTIONS_TIMESTAMP_TSVAL, at + 2))?;
            steps.push(Step::Row(ids::TCP_OPTIONS_TIMESTAMP_TSECR, at + 6))?;
        }
        _ => {}
    }
    Ok(())
}

/// Adds the steps of so many blocks of a SACK option.
fn push_blocks(steps: &mut Vec<Step>, count: usize, at: usize) -> Result<(), NoMemory>
    requires { at + 8 * count < 2 ^ 63 }
    ensures { OnOk result (steps.new.items
        ≡ steps.old.items ++ (repeated count sack_block at).steps) }
{
    let mut place = at;
    for _block in 0..count {
        steps.push(Step::Row(ids::TCP_OPTIONS_SACK_LE, place))?;
        steps.push(Step::Row(ids::TCP_OPTIONS_SACK_RE, place + 4))?;
        place += BLOCK;
    }
    Ok(())
}
