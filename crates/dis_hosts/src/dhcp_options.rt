ghost use Rattle.std.specs.Prelude.{◌≡◌, ◌+◌, ◌*◌, ◌/◌, ◌<◌, ◌≤◌, ◌^◌, ◌++◌, length, slice_index_or, if◌then◌else◌, IfOk, OnOk};
ghost use Rattle.pk_tree.specs.Entries.{Adds, repeated};
ghost use Rattle.pk_tree.specs.Layouts.{reach};
ghost use Rattle.pk_tree.specs.declared.layout.Reach.TheVariants.{All, Short};
ghost use Rattle.dis_hosts.specs.DhcpOptions.{address, dhcp_options, option_at, option_data, option_with_length};

use pk_base::NoMemory;
use pk_fields::{FieldId, ids};
use pk_tree::Step;

/// Where the options begin.
pub(crate) const OPTIONS: usize = 240;

/// The codes of options that are read (RFC 2132, 3 and 9).
const PAD: u8 = 0;

const SUBNET_MASK: u8 = 1;

const ROUTER: u8 = 3;

const DOMAIN_NAME_SERVER: u8 = 6;

const HOST_NAME: u8 = 12;

const REQUESTED_ADDRESS: u8 = 50;

const ADDRESS_LEASE_TIME: u8 = 51;

const MESSAGE_TYPE: u8 = 53;

const SERVER_IDENTIFIER: u8 = 54;

const END: u8 = 255;

/// The bytes of an option's code and length.
const HEAD: usize = 2;
/// The bytes of an address.
const ADDRESS: usize = 4;

/// Adds the steps of a message's options.
pub(crate) fn push_options(steps: &mut Vec<Step>, bytes: &[u8]) -> Result<(), NoMemory>
    ensures { OnOk result (steps.new.items ≡ steps.old.items ++ (dhcp_options bytes.now).steps) }
{
    let mut at = OPTIONS;
    for _option in 0..bytes.len() {
        match push_option(steps, bytes, at)? {
            Some(next) => at = next,
            None => return Ok(()),
        }
    }
    Ok(())
}

/// Whether each option ends inside its message.
pub(crate) fn options_fit(bytes: &[u8]) -> bool
    ensures { reach (length bytes.now) (dhcp_options bytes.now).steps
        ≡ (if result then All else Short) }
{
    let mut at = OPTIONS;
    for _option in 0..bytes.len() {
        match next_option(bytes, at) {
            Some(next) if next <= bytes.len() => at = next,
            Some(_) => return false,
            None => return true,
        }
    }
    true
}

/// Where the option behind the one at a place is.
#[tactic(auto, unfolding(crate::specs::DhcpOptions::option_at, crate::specs::DhcpOptions::option_with_length))]
fn next_option(bytes: &[u8], at: usize) -> Option<usize>
    ensures { result ≡ (option_at bytes.now at).next }
{
    match *bytes.get(at)? {
        PAD => Some(at + 1),
        END => None,
        _ => Some(at + HEAD + length_at(bytes, at + 1)),
    }
}

/// Adds the steps of the option at a place, and answers where the next one is.
#[tactic(auto, unfolding(crate::specs::DhcpOptions::option_at))]
fn push_option(steps: &mut Vec<Step>, bytes: &[u8], at: usize) -> Result<Option<usize>, NoMemory>
    ensures { IfOk result (Adds steps.old.items steps.new.items (option_at bytes.now at)) }
{
    let Some(code) = bytes.get(at) else {
        return Ok(None);
    };
    match *code {
        PAD => {
            steps.push(Step::Row(ids::DHCP_OPTION_TYPE, at))?;
            Ok(Some(at + 1))
        }
        END => {
            steps.push(Step::Row(ids::DHCP_OPTION_TYPE, at))?;
            Ok(None)
        }
        code => {
            let len = length_at(bytes, at + 1);
            push_with_length(steps, code, len, at)
        }
    }
}

/// The byte at a place, or 0 where it isn't there.
fn length_at(bytes: &[u8], at: usize) -> usize
    ensures value { result ≡ slice_index_or bytes.now at 0 }
    ensures most { result < 256 }
{
    match bytes.get(at) {
        Some(len) => usize::from(*len),
        None => 0,
    }
}

/// Adds the steps of an option that has a length.
#[tactic(auto, unfolding(crate::specs::DhcpOptions::option_with_length))]
fn push_with_length(
    steps: &mut Vec<Step>,
    code: u8,
    len: usize,
    at: usize,
) -> Result<Option<usize>, NoMemory>
    requires at { at < 2 ^ 63 }
    requires len { len < 256 }
    ensures { IfOk result (Adds steps.old.items steps.new.items (option_with_length code len at)) }
{
    steps.push(Step::Row(ids::DHCP_OPTION_TYPE, at))?;
    steps.push(Step::Row(ids::DHCP_OPTION_LENGTH, at + 1))?;
    steps.push(Step::Part(ids::DHCP_OPTION_VALUE, at + HEAD, len))?;
    push_data(steps, code, len, at + HEAD)?;
    Ok(Some(at + HEAD + len))
}

/// Adds the steps of an option's data.
#[tactic(auto, unfolding(crate::specs::DhcpOptions::option_data))]
fn push_data(steps: &mut Vec<Step>, code: u8, len: usize, at: usize) -> Result<(), NoMemory>
    requires at { at ≤ 2 ^ 63 + 1 }
    requires len { len < 256 }
    ensures { OnOk result (steps.new.items ≡ steps.old.items ++ option_data code len at) }
{
    match (code, len) {
        (SUBNET_MASK, 4) => steps.push(Step::Row(ids::DHCP_OPTION_SUBNET_MASK, at))?,
        (ROUTER, _) if len % ADDRESS == 0 => push_addresses(
            steps,
            ids::DHCP_OPTION_ROUTER,
            len / ADDRESS,
            at,
        )?,
        (DOMAIN_NAME_SERVER, _) if len % ADDRESS == 0 => push_addresses(
            steps,
            ids::DHCP_OPTION_DOMAIN_NAME_SERVER,
            len / ADDRESS,
            at,
        )?,
        (HOST_NAME, _) => steps.push(Step::Part(ids::DHCP_OPTION_HOSTNAME, at, len))?,
        (REQUESTED_ADDRESS, 4) => steps.push(Step::Row(ids::DHCP_OPTION_REQUESTED_IP_ADDRESS, at))?,
        (ADDRESS_LEASE_TIME, 4) => steps.push(Step::Row(
            ids::DHCP_OPTION_IP_ADDRESS_LEASE_TIME,
            at,
        ))?,
        (MESSAGE_TYPE, 1) => steps.push(Step::Row(ids::DHCP_OPTION_DHCP, at))?,
        (SERVER_IDENTIFIER, 4) => steps.push(Step::Row(ids::DHCP_OPTION_DHCP_SERVER_ID, at))?,
        _ => {}
    }
    Ok(())
}

/// Adds the steps of so many addresses.
fn push_addresses(
    steps: &mut Vec<Step>,
    field: FieldId,
    count: usize,
    at: usize,
) -> Result<(), NoMemory>
    requires at { at ≤ 2 ^ 63 + 1 }
    requires count { count < 64 }
    ensures { OnOk result (steps.new.items
        ≡ steps.old.items ++ (repeated count (address field) at).steps) }
{
    let mut place = at;
    for _address in 0..count {
        steps.push(Step::Row(field, place))?;
        place += ADDRESS;
    }
    Ok(())
}
