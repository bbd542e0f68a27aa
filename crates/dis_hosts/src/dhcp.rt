ghost use Rattle.std.specs.Prelude.{◌≡◌, ◌==◌, ℕ, Bool as Truth, false, List, ◌+◌, ◌<◌, ◌≤◌, ◌^◌, ◌++◌, length, take, drop, IfOk, OnOk};
ghost use Rattle.std.specs.List.{AllByRecursion as Each};
ghost use Rattle.pk_tree.specs.Buffers.{IsInside, bytes_of};
ghost use Rattle.pk_fields.specs.FieldSets.{is_in};
ghost use Rattle.pk_fields.specs.Ids.{DHCP};
ghost use Rattle.pk_tree.specs.Layouts.{StepsFit, layer_read, peeked, reach};
ghost use Rattle.pk_tree.specs.Tables.{steps_of};
ghost use Rattle.dis_hosts.specs.Dhcp.{dhcp_layout, dhcp_rows, magic_cookie, name_len, row_conditions, row_sizes};
ghost use Rattle.dis_hosts.specs.DhcpOptions.{AllOptions, dhcp_options, option_fields};

use crate::dhcp_options::{OPTIONS, options_fit, push_options};
use pk_base::{Mode, NoMemory, Span};
use pk_fields::ids;
use pk_tree::{Reach, Slot, Step, TreeBuilder, pass_layer, peek, read_table};
use std::alloc::Global;

/// The rows and conditions before the options.
const ROWS: usize = 19;
/// How many steps the options have room for from the start. Those of most messages have fewer.
const FEW_STEPS: usize = 64;
/// The bytes of an Ethernet address.
const MAC_LEN: u64 = 6;

/// The sizes of the client's hardware address, the server's name and the boot file's name, and where the names are
/// (RFC 2131, 2).
const HARDWARE_SIZE: usize = 16;

const SERVER: usize = 44;

const SERVER_SIZE: usize = 64;

const FILE: usize = 108;

const FILE_SIZE: usize = 128;

/// What the options begin behind: the bytes 99, 130, 83 and 99 (RFC 2131, 3).
const MAGIC_COOKIE: u64 = 0x6382_5363;

/// The rows of a message, whose hardware address is read by this slot.
macro_rules! rows {
    ($hardware:expr) => {
        [
            Slot::Row(ids::DHCP_TYPE.0, 0),
            Slot::Row(ids::DHCP_HW_TYPE.0, 1),
            Slot::Row(ids::DHCP_HW_LEN.0, 2),
            Slot::Row(ids::DHCP_HOPS.0, 3),
            Slot::Row(ids::DHCP_ID.0, 4),
            Slot::Row(ids::DHCP_SECS.0, 8),
            Slot::Row(ids::DHCP_FLAGS.0, 10),
            Slot::Row(ids::DHCP_FLAGS_BC.0, 10),
            Slot::Row(ids::DHCP_IP_CLIENT.0, 12),
            Slot::Row(ids::DHCP_IP_YOUR.0, 16),
            Slot::Row(ids::DHCP_IP_SERVER.0, 20),
            Slot::Row(ids::DHCP_IP_RELAY.0, 24),
            $hardware,
            Slot::Room(0),
            Slot::Part(ids::DHCP_SERVER.0, 44, 0),
            Slot::Room(1),
            Slot::Part(ids::DHCP_FILE.0, 108, 1),
            Slot::Row(ids::DHCP_COOKIE.0, 236),
            Slot::Check(2),
        ]
    };
}

/// The rows of a message with an Ethernet address.
static ETHERNET_ROWS: [Slot; ROWS] = rows!(Slot::Row(ids::DHCP_HW_MAC_ADDR.0, 28));

/// The rows of a message with another hardware address.
static OTHER_ROWS: [Slot; ROWS] = rows!(Slot::Part(ids::DHCP_HW_ADDR.0, 28, 2));

/// Reads a DHCP message with its options (RFC 2131, 2; RFC 2132), as far as they are asked: where nothing of DHCP is, the
/// layer is passed, and where no field of the options is, one condition stands for their steps. `cut` says that the frame
/// was captured only in part.
#[tactic(auto, using(crate::proofs::OptionBound::options_reach), unfolding(pk_tree::specs::Layouts::StepsFit, pk_fields::specs::Fields::row_of, pk_fields::specs::Table::rows))]
pub fn read_dhcp(span: Span, cut: bool, b: &mut TreeBuilder) -> Result<(), NoMemory>
    requires inside { IsInside b.old.buffers span }
    requires room { length b.old.layers + 2 < 2 ^ 32 }
    ensures layer { IfOk result (λ _.
        b.new ≡ layer_read b.old DHCP span
        (dhcp_layout (bytes_of b.old.buffers span)) Mode.Plain cut) }
    ensures options { AllOptions }
    ensures buffers { b.new.buffers ≡ b.old.buffers }
    ensures some { OnOk result (0 < length b.new.layers) }
    ensures most { OnOk result (length b.new.layers ≤ length b.old.layers + 2) }
{
    if !b.asks(ids::DHCP) {
        let reach = message_reach(b.bytes(span));
        pass_layer(b, ids::DHCP, span, reach, Mode::Plain, cut)?;
        return Ok(());
    }
    if !asks_options(b) {
        let whole = options_fit(b.bytes(span));
        read_rows(span, &[Step::Room(whole)], cut, b)?;
        return Ok(());
    }
    let options = option_steps(b.alloc(), b.bytes(span))?;
    read_rows(span, &options, cut, b)?;
    Ok(())
}

/// Opens the layer and reads its rows, then more steps.
#[tactic(auto, unfolding(pk_fields::specs::Fields::row_of, pk_fields::specs::Table::rows))]
fn read_rows(span: Span, more: &[Step], cut: bool, b: &mut TreeBuilder) -> Result<(), NoMemory>
    requires inside { IsInside b.old.buffers span }
    requires room { length b.old.layers + 2 < 2 ^ 32 }
    requires more { StepsFit DHCP more.now }
    ensures layer { IfOk result (λ _.
        b.new ≡ layer_read b.old DHCP span
        (dhcp_rows (bytes_of b.old.buffers span) ++ more.now) Mode.Plain cut) }
    ensures buffers { b.new.buffers ≡ b.old.buffers }
    ensures some { OnOk result (0 < length b.new.layers) }
    ensures most { OnOk result (length b.new.layers ≤ length b.old.layers + 2) }
{
    let bytes = b.bytes(span);
    let slots = dhcp_slots(peek(bytes, 16, 8) == MAC_LEN);
    let holds = conditions(bytes);
    let sizes = sizes(bytes);
    read_table(
        b,
        ids::DHCP,
        span,
        slots,
        &holds,
        &sizes,
        more,
        Mode::Plain,
        cut,
    )?;
    Ok(())
}

/// The rows of a message, whose hardware address is an Ethernet address or another.
#[tactic(auto, unfolding(crate::specs::Dhcp::dhcp_rows, pk_tree::specs::Tables::steps_of, pk_tree::specs::Layouts::StepsFit, pk_fields::specs::Fields::row_of, pk_fields::specs::Table::rows))]
fn dhcp_slots(ethernet: bool) -> &'static [Slot]
    ensures fits { (holds : List Truth) (sizes : List ℕ)
        → StepsFit DHCP (steps_of holds sizes result.now) }
    ensures rows { (bytes : List ℕ) → ethernet ≡ (peeked bytes 16 8 == 6)
        → steps_of (row_conditions bytes) (row_sizes bytes) result.now ≡ dhcp_rows bytes }
{
    if ethernet {
        &ETHERNET_ROWS
    } else {
        &OTHER_ROWS
    }
}

/// That the names' fields are there, and that the cookie is the one of DHCP.
fn conditions(bytes: &[u8]) -> [bool; 3]
    ensures { result ≡ row_conditions bytes.now }
{
    [
        SERVER + SERVER_SIZE <= bytes.len(),
        FILE + FILE_SIZE <= bytes.len(),
        has_cookie(bytes),
    ]
}

/// Whether the options begin behind DHCP's cookie.
fn has_cookie(bytes: &[u8]) -> bool
    ensures { result ≡ (peeked bytes.now 1888 32 == magic_cookie) }
{
    peek(bytes, 1888, 32) == MAGIC_COOKIE
}

/// The bytes of the names and of a hardware address.
fn sizes(bytes: &[u8]) -> [usize; 3]
    ensures { result ≡ row_sizes bytes.now }
{
    [
        name_len(bytes, SERVER, SERVER_SIZE),
        name_len(bytes, FILE, FILE_SIZE),
        HARDWARE_SIZE,
    ]
}

/// Whether a field of the options may be wanted.
fn asks_options(b: &TreeBuilder) -> bool
    ensures { result ≡ false → Each (λ field. is_in b.now.wanted field ≡ false) option_fields }
{
    b.wants(ids::DHCP_OPTION_TYPE)
        || b.wants(ids::DHCP_OPTION_LENGTH)
        || b.wants(ids::DHCP_OPTION_VALUE)
        || b.wants(ids::DHCP_OPTION_SUBNET_MASK)
        || b.wants(ids::DHCP_OPTION_ROUTER)
        || b.wants(ids::DHCP_OPTION_DOMAIN_NAME_SERVER)
        || b.wants(ids::DHCP_OPTION_HOSTNAME)
        || b.wants(ids::DHCP_OPTION_REQUESTED_IP_ADDRESS)
        || b.wants(ids::DHCP_OPTION_IP_ADDRESS_LEASE_TIME)
        || b.wants(ids::DHCP_OPTION_DHCP)
        || b.wants(ids::DHCP_OPTION_DHCP_SERVER_ID)
}

/// The steps of a message's options.
#[tactic(auto, using(crate::proofs::DhcpLemmas::options_fit))]
fn option_steps(alloc: Global, bytes: &[u8]) -> Result<Vec<Step>, NoMemory>
    ensures steps { IfOk result (λ steps. steps.items ≡ (dhcp_options bytes.now).steps) }
    ensures fits { IfOk result (λ steps. StepsFit DHCP steps.items) }
{
    let mut steps = Vec::with_capacity(alloc, FEW_STEPS)?;
    push_options(&mut steps, bytes)?;
    Ok(steps)
}

/// How far a message's rows and options are read.
#[tactic(auto, using(crate::proofs::DhcpLemmas::layout_reach))]
fn message_reach(bytes: &[u8]) -> Reach
    ensures { result ≡ reach (length bytes.now) (dhcp_layout bytes.now) }
{
    match rows_reach(bytes) {
        Reach::All if options_fit(bytes) => Reach::All,
        Reach::All | Reach::Short => Reach::Short,
        Reach::Failed => Reach::Failed,
    }
}

/// How far a message's rows are read.
#[tactic(auto, using(crate::proofs::WholeOptions::rows_by_cookie), unfolding(crate::specs::Dhcp::dhcp_rows, pk_tree::specs::Layouts::reach, pk_tree::specs::Layouts::step_reach, pk_fields::specs::Fields::row_of, pk_fields::specs::Table::rows))]
fn rows_reach(bytes: &[u8]) -> Reach
    ensures { result ≡ reach (length bytes.now) (dhcp_rows bytes.now) }
{
    if bytes.len() < OPTIONS {
        Reach::Short
    } else if has_cookie(bytes) {
        Reach::All
    } else {
        Reach::Failed
    }
}

/// How many bytes a field's name has: those before the first zero.
#[tactic(auto, unfolding(crate::specs::Dhcp::name_len))]
fn name_len(bytes: &[u8], at: usize, size: usize) -> usize
    ensures { result ≡ name_len bytes.now at size }
{
    let field = front(tail(bytes, at), size);
    field.iter().take_while(|byte| **byte != 0).count()
}

/// The bytes from a place on.
fn tail(bytes: &[u8], from: usize) -> &[u8]
    ensures { result.now ≡ drop from bytes.now }
{
    &bytes[from.min(bytes.len())..]
}

/// The first bytes, as many as that or as there are.
fn front(bytes: &[u8], most: usize) -> &[u8]
    ensures { result.now ≡ take most bytes.now }
{
    &bytes[..most.min(bytes.len())]
}
