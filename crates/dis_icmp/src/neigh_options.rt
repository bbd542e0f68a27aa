ghost use Rattle.std.specs.Prelude.{◌≡◌, ◌+◌, ◌*◌, ◌<◌, ◌^◌, ◌++◌, length, slice_index_or, IfOk, OnOk};
ghost use Rattle.pk_tree.specs.Entries.{Adds};
ghost use Rattle.dis_icmp.specs.NeighOptions.{neigh_options, option_at, option_data, option_with_length, prefix_rows};

use pk_base::NoMemory;
use pk_fields::ids;
use pk_tree::Step;

/// The types of options that are read (RFC 4861, 4.6).
const SOURCE_LINK_LAYER_ADDRESS: u8 = 1;

const TARGET_LINK_LAYER_ADDRESS: u8 = 2;

const PREFIX_INFORMATION: u8 = 3;

const MTU: u8 = 5;

/// The bytes of an option's type and length.
const HEAD: usize = 2;
/// The bytes that a length counts as one.
const UNIT: usize = 8;

/// Adds the steps of a message's options, which begin at a place.
pub(crate) fn push_options(
    steps: &mut Vec<Step>,
    bytes: &[u8],
    start: usize,
) -> Result<(), NoMemory>
    ensures { OnOk result (steps.new.items
        ≡ steps.old.items ++ (neigh_options bytes.now start).steps) }
{
    let mut at = start;
    for _option in 0..bytes.len() {
        match push_option(steps, bytes, at)? {
            Some(next) => at = next,
            None => return Ok(()),
        }
    }
    Ok(())
}

/// Adds the steps of the option at a place, and answers where the next one is.
#[tactic(auto, unfolding(crate::specs::NeighOptions::option_at))]
fn push_option(steps: &mut Vec<Step>, bytes: &[u8], at: usize) -> Result<Option<usize>, NoMemory>
    ensures { IfOk result (Adds steps.old.items steps.new.items (option_at bytes.now at)) }
{
    let Some(kind) = bytes.get(at) else {
        return Ok(None);
    };
    let len = length_at(bytes, at + 1);
    push_with_length(steps, *kind, len, at)
}

/// The byte at a place, or 0 where it isn't there.
fn length_at(bytes: &[u8], at: usize) -> usize
    ensures value { result ≡ slice_index_or bytes.now at 0 }
    ensures most { result < 256 }
{
    match bytes.get(at) {
        Some(len) => usize::from(*len),
        None => 0,
    }
}

/// Adds the steps of an option of a type and a length.
#[tactic(auto, unfolding(crate::specs::NeighOptions::option_with_length))]
fn push_with_length(
    steps: &mut Vec<Step>,
    kind: u8,
    len: usize,
    at: usize,
) -> Result<Option<usize>, NoMemory>
    requires at { at < 2 ^ 63 }
    requires len { len < 256 }
    ensures { IfOk result (Adds steps.old.items steps.new.items (option_with_length kind len at)) }
{
    steps.push(Step::Row(ids::ND_OPT_TYPE, at))?;
    steps.push(Step::Row(ids::ND_OPT_LEN, at + 1))?;
    if len == 0 {
        steps.push(Step::Check(false))?;
        return Ok(None);
    }
    steps.push(Step::Part(ids::ND_OPT_VALUE, at + HEAD, UNIT * len - HEAD))?;
    push_data(steps, kind, len, at)?;
    Ok(Some(at + UNIT * len))
}

/// Adds the steps of an option's value.
#[tactic(auto, unfolding(crate::specs::NeighOptions::option_data))]
fn push_data(steps: &mut Vec<Step>, kind: u8, len: usize, at: usize) -> Result<(), NoMemory>
    requires { at < 2 ^ 63 }
    ensures { OnOk result (steps.new.items ≡ steps.old.items ++ option_data kind len at) }
{
    match (kind, len) {
        (SOURCE_LINK_LAYER_ADDRESS | TARGET_LINK_LAYER_ADDRESS, 1) => {
            steps.push(Step::Row(ids::ND_OPT_LLADDR, at + 2))?;
        }
        (PREFIX_INFORMATION, 4) => push_prefix(steps, at)?,
        (MTU, 1) => steps.push(Step::Row(ids::ND_OPT_MTU, at + 4))?,
        _ => {}
    }
    Ok(())
}

/// Adds the steps of a prefix.
fn push_prefix(steps: &mut Vec<Step>, at: usize) -> Result<(), NoMemory>
    requires { at < 2 ^ 63 }
    ensures { OnOk result (steps.new.items ≡ steps.old.items ++ prefix_rows at) }
{
    steps.push(Step::Row(ids::ND_OPT_PREFIX_LEN, at + 2))?;
    steps.push(Step::Row(ids::ND_OPT_PREFIX_ONLINK, at + 3))?;
    steps.push(Step::Row(ids::ND_OPT_PREFIX_AUTO, at + 3))?;
    steps.push(Step::Row(ids::ND_OPT_PREFIX_VALID, at + 4))?;
    steps.push(Step::Row(ids::ND_OPT_PREFIX_PREFERRED, at + 8))?;
    steps.push(Step::Row(ids::ND_OPT_PREFIX, at + 16))?;
    Ok(())
}
