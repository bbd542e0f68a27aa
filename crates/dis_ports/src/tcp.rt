ghost use Rattle.std.specs.Prelude.{◌≡◌, ◌≢◌, ℕ, Bool as Truth, false, true, List, [], ◌∷◌, ◌+◌, ◌-◌, ◌*◌, ◌<◌, ◌≤◌, ◌^◌, ◌++◌, length, nat_le, take, IfOk, IfSome, OnOk};
ghost use Rattle.pk_base.specs.declared.heads.Mode.TheVariants.{Plain};
ghost use Rattle.std.specs.List.{AllByRecursion as Each};
ghost use Rattle.pk_tree.specs.Buffers.{IsInside, bytes_of};
ghost use Rattle.pk_fields.specs.FieldSets.{is_in};
ghost use Rattle.pk_fields.specs.Ids.{TCP};
ghost use Rattle.pk_tree.specs.Following.{LeadsInside};
ghost use Rattle.pk_tree.specs.Layouts.{StepsFit, layer_read, reach};
ghost use Rattle.pk_tree.specs.Tables.{steps_of};
ghost use Rattle.pk_tree.specs.Trees.{last_proto};
ghost use Rattle.dis_ports.specs.Tcp.{header_len, tcp_after, tcp_carries, tcp_head, tcp_layout, tcp_rows};
ghost use Rattle.dis_ports.specs.TcpOptions.{AllOptions, option_fields, tcp_options};

use crate::tcp_options::{FIXED, push_options};
use pk_base::{After, Mode, Next, NoMemory, Span, TcpHead};
use pk_fields::ids;
use pk_tree::{
    Reach, Slot, Step, TreeBuilder, behind, carried, pass_known, pass_layer, peek, read_known,
    read_table,
};
use std::alloc::Global;

/// Where the byte of the data offset ends.
const BEHIND_DATA_OFFSET: u32 = 13;

/// Reads a TCP header with its options (RFC 9293, 3.1). Behind a whole header comes its segment, also where it has no
/// bytes; in an embedded packet the bytes are data. Nothing follows a header that can't be read whole. `cut` says that
/// the frame was captured only in part.
#[tactic(auto, using(crate::proofs::OptionBound::options_reach), unfolding(crate::specs::Tcp::tcp_after))]
pub fn read_tcp(span: Span, cut: bool, mode: Mode, b: &mut TreeBuilder) -> Result<After, NoMemory>
    requires inside { IsInside b.old.buffers span }
    requires room { length b.old.layers + 2 < 2 ^ 32 }
    ensures layer { IfOk result (λ _.
        b.new ≡ layer_read b.old TCP span (tcp_layout (bytes_of b.old.buffers span)) mode cut) }
    ensures after { IfOk result (λ after.
        after ≡ tcp_after mode span (bytes_of b.old.buffers span)) }
    ensures options { AllOptions }
    ensures inside { IfOk result (LeadsInside b.old.buffers) }
    ensures whole { IfOk result (λ after. after ≢ After.End → last_proto b.new.layers ≡ TCP) }
    ensures buffers { b.new.buffers ≡ b.old.buffers }
    ensures some { OnOk result (0 < length b.new.layers) }
    ensures most { OnOk result (length b.new.layers ≤ length b.old.layers + 2) }
{
    let bytes = b.bytes(span);
    let head = tcp_head(bytes);
    let header = header_len(bytes);
    let reach = read_header(span, header, cut, mode, b)?;
    Ok(tcp_carries(reach, mode, head, header, span))
}

/// A header that was read whole.
#[derive(Clone, Copy)]
pub struct WholeTcp {
    /// The header's bytes.
    pub header: u32,
    /// The bytes behind it.
    pub payload: Span,
}

/// What follows a header that is read whole.
#[inline(always)]
#[tactic(auto, using(crate::proofs::TcpLemmas::segment_behind))]
pub fn behind_tcp(span: Span, bytes: &[u8]) -> Option<WholeTcp>
    requires bytes { length bytes.now ≡ span.len }
    requires end { span.start + span.len < 2 ^ 32 }
    ensures header { IfSome result (λ tcp. tcp.header ≡ header_len bytes.now) }
    ensures least { IfSome result (λ tcp. 20 ≤ tcp.header) }
    ensures most { IfSome result (λ tcp. tcp.header ≤ 60) }
    ensures whole { IfSome result (λ tcp. tcp.header ≤ span.len) }
    ensures after { IfSome result (λ tcp. tcp_after Plain span bytes.now
        ≡ After.Segment (tcp_head bytes.now) tcp.payload) }
    ensures inside { (buffers : List (List ℕ)) → IsInside buffers span
        → IfSome result (λ tcp. IsInside buffers tcp.payload) }
{
    let header = header_len(bytes);
    if !rows_reach(span.len, header).is_all() {
        return None;
    }
    Some(WholeTcp {
        header,
        payload: behind(span, header),
    })
}

/// Opens the layer of a header of so many bytes that is read whole, with the items that are wanted.
#[tactic(auto, unfolding(pk_fields::specs::Fields::row_of, pk_fields::specs::Table::rows))]
pub fn open_tcp(span: Span, header: u32, cut: bool, b: &mut TreeBuilder) -> Result<(), NoMemory>
    requires inside { IsInside b.old.buffers span }
    requires room { length b.old.layers + 2 < 2 ^ 32 }
    requires header { header ≡ header_len (bytes_of b.old.buffers span) }
    requires least { 20 ≤ header }
    requires most { header ≤ 60 }
    requires whole { header ≤ span.len }
    ensures layer { OnOk result (b.new
        ≡ layer_read b.old TCP span (tcp_layout (bytes_of b.old.buffers span)) Plain cut) }
    ensures last { OnOk result (last_proto b.new.layers ≡ TCP) }
    ensures buffers { b.new.buffers ≡ b.old.buffers }
    ensures some { OnOk result (0 < length b.new.layers) }
    ensures most { OnOk result (length b.new.layers ≤ length b.old.layers + 2) }
{
    if !b.asks(ids::TCP) {
        return pass_known(b, ids::TCP, span);
    }
    if asks_options(b) {
        read_header(span, header, cut, Mode::Plain, b)?;
        return Ok(());
    }
    let options = [header as usize - FIXED];
    read_known(b, ids::TCP, span, tcp_slots(), &[true], &options)
}

/// Opens the layer and reads its rows and options, as far as they are asked: where nothing of TCP is, the layer is passed,
/// and where no field of the options is, their steps are left out.
#[tactic(auto, unfolding(pk_tree::specs::Layouts::StepsFit, pk_fields::specs::Fields::row_of, pk_fields::specs::Table::rows))]
fn read_header(
    span: Span,
    header: u32,
    cut: bool,
    mode: Mode,
    b: &mut TreeBuilder,
) -> Result<Reach, NoMemory>
    requires inside { IsInside b.old.buffers span }
    requires room { length b.old.layers + 2 < 2 ^ 32 }
    requires header { header ≡ header_len (bytes_of b.old.buffers span) }
    requires most { header ≤ 60 }
    ensures layer { IfOk result (λ _.
        b.new ≡ layer_read b.old TCP span (tcp_layout (bytes_of b.old.buffers span)) mode cut) }
    ensures why { IfOk result (λ r. r ≡ reach span.len (tcp_layout (bytes_of b.old.buffers span))) }
    ensures header { IfOk result (λ r. r ≡ Reach.All → header ≤ span.len) }
    ensures last { IfOk result (λ r. r ≡ Reach.All → last_proto b.new.layers ≡ TCP) }
    ensures buffers { b.new.buffers ≡ b.old.buffers }
    ensures some { OnOk result (0 < length b.new.layers) }
    ensures most { OnOk result (length b.new.layers ≤ length b.old.layers + 2) }
{
    let reach = rows_reach(span.len, header);
    if !b.asks(ids::TCP) {
        pass_layer(b, ids::TCP, span, reach, mode, cut)?;
        return Ok(reach);
    }
    if !asks_options(b) {
        read_rows(span, header, &[], cut, mode, b)?;
        return Ok(reach);
    }
    let options = header_options(b.alloc(), front(b.bytes(span), header as usize))?;
    read_rows(span, header, &options, cut, mode, b)?;
    Ok(reach)
}

/// Opens the layer and reads its rows, then more steps.
#[tactic(auto, unfolding(pk_fields::specs::Fields::row_of, pk_fields::specs::Table::rows))]
fn read_rows(
    span: Span,
    header: u32,
    more: &[Step],
    cut: bool,
    mode: Mode,
    b: &mut TreeBuilder,
) -> Result<(), NoMemory>
    requires inside { IsInside b.old.buffers span }
    requires room { length b.old.layers + 2 < 2 ^ 32 }
    requires more { StepsFit TCP more.now }
    ensures layer { OnOk result ((bytes : List ℕ) → header ≡ header_len bytes
        → b.new ≡ layer_read b.old TCP span (tcp_rows bytes ++ more.now) mode cut) }
    ensures last { OnOk result ((bytes : List ℕ) → header ≡ header_len bytes
        → reach span.len (tcp_rows bytes ++ more.now) ≡ Reach.All → last_proto b.new.layers ≡ TCP) }
    ensures buffers { b.new.buffers ≡ b.old.buffers }
    ensures some { OnOk result (0 < length b.new.layers) }
    ensures most { OnOk result (length b.new.layers ≤ length b.old.layers + 2) }
{
    let header = header as usize;
    let holds = [FIXED <= header];
    let sizes = [header.saturating_sub(FIXED)];
    read_table(
        b,
        ids::TCP,
        span,
        tcp_slots(),
        &holds,
        &sizes,
        more,
        mode,
        cut,
    )?;
    Ok(())
}

/// The steps of a header's options.
#[tactic(auto, using(crate::proofs::TcpLemmas::options_fit))]
fn header_options(alloc: Global, header: &[u8]) -> Result<Vec<Step>, NoMemory>
    ensures steps { IfOk result (λ steps. steps.items ≡ (tcp_options header.now).steps) }
    ensures fits { IfOk result (λ steps. StepsFit TCP steps.items) }
{
    // An option has at most three steps for two bytes.
    let mut steps = Vec::with_capacity(alloc, header.len().saturating_sub(FIXED) / 2 * 3)?;
    push_options(&mut steps, header)?;
    Ok(steps)
}

static SLOTS: [Slot; 21] = [
    Slot::Row(ids::TCP_SRCPORT.0, 0),
    Slot::Row(ids::TCP_PORT.0, 0),
    Slot::Row(ids::TCP_DSTPORT.0, 2),
    Slot::Row(ids::TCP_PORT.0, 2),
    Slot::Row(ids::TCP_SEQ_RAW.0, 4),
    Slot::Row(ids::TCP_ACK_RAW.0, 8),
    Slot::Row(ids::TCP_HDR_LEN.0, 12),
    Slot::Check(0),
    Slot::Row(ids::TCP_FLAGS.0, 12),
    Slot::Row(ids::TCP_FLAGS_CWR.0, 13),
    Slot::Row(ids::TCP_FLAGS_ECE.0, 13),
    Slot::Row(ids::TCP_FLAGS_URG.0, 13),
    Slot::Row(ids::TCP_FLAGS_ACK.0, 13),
    Slot::Row(ids::TCP_FLAGS_PUSH.0, 13),
    Slot::Row(ids::TCP_FLAGS_RESET.0, 13),
    Slot::Row(ids::TCP_FLAGS_SYN.0, 13),
    Slot::Row(ids::TCP_FLAGS_FIN.0, 13),
    Slot::Row(ids::TCP_WINDOW_SIZE_VALUE.0, 14),
    Slot::Row(ids::TCP_CHECKSUM.0, 16),
    Slot::Row(ids::TCP_URGENT_POINTER.0, 18),
    Slot::Part(ids::TCP_OPTIONS.0, 20, 0),
];

/// The rows of a header, the condition on its length, and its options as one.
#[tactic(auto, unfolding(crate::specs::Tcp::tcp_rows, pk_tree::specs::Tables::steps_of, pk_tree::specs::Layouts::reach, pk_tree::specs::Layouts::step_reach, pk_tree::specs::Layouts::StepsFit, pk_fields::specs::Fields::row_of, pk_fields::specs::Table::rows))]
pub fn tcp_slots() -> &'static [Slot]
    ensures fits { (holds : List Truth) (sizes : List ℕ)
        → StepsFit TCP (steps_of holds sizes result.now) }
    ensures whole { (end options : ℕ) → 20 + options ≤ end
        → reach end (steps_of (true ∷ []) (options ∷ []) result.now) ≡ Reach.All }
    ensures rows { (bytes : List ℕ)
        → steps_of (nat_le 20 (header_len bytes) ∷ []) ((header_len bytes - 20) ∷ []) result.now
        ≡ tcp_rows bytes }
    ensures table { result.now ≡ SLOTS }
{
    &SLOTS
}

/// How far the rows of a header of so many bytes are read in a layer of so many.
#[tactic(auto, unfolding(crate::specs::Tcp::tcp_rows, pk_tree::specs::Layouts::reach, pk_tree::specs::Layouts::step_reach, pk_fields::specs::Fields::row_of, pk_fields::specs::Table::rows))]
fn rows_reach(len: u32, header: u32) -> Reach
    ensures reach { (bytes : List ℕ) → header ≡ header_len bytes
        → result ≡ reach len (tcp_rows bytes) }
    ensures header { result ≡ Reach.All → header ≤ len }
    ensures least { result ≡ Reach.All → 20 ≤ header }
{
    if len < BEHIND_DATA_OFFSET {
        Reach::Short
    } else if header < FIXED as u32 {
        Reach::Failed
    } else if len < header {
        Reach::Short
    } else {
        Reach::All
    }
}

/// Whether a field of the options may be wanted.
fn asks_options(b: &TreeBuilder) -> bool
    ensures { result ≡ false → Each (λ field. is_in b.now.wanted field ≡ false) option_fields }
{
    b.wants(ids::TCP_OPTION_KIND)
        || b.wants(ids::TCP_OPTION_LEN)
        || b.wants(ids::TCP_OPTIONS_MSS_VAL)
        || b.wants(ids::TCP_OPTIONS_WSCALE_SHIFT)
        || b.wants(ids::TCP_OPTIONS_SACK_PERM)
        || b.wants(ids::TCP_OPTIONS_SACK_LE)
        || b.wants(ids::TCP_OPTIONS_SACK_RE)
        || b.wants(ids::TCP_OPTIONS_TIMESTAMP_TSVAL)
        || b.wants(ids::TCP_OPTIONS_TIMESTAMP_TSECR)
        || b.wants(ids::TCP_OPTIONS_BAD)
}

/// The bytes of the header, by its data offset in words of four bytes.
fn header_len(bytes: &[u8]) -> u32
    ensures len { result ≡ header_len bytes.now }
    ensures most { result ≤ 60 }
{
    peek(bytes, 96, 4) as u32 * 4
}

/// The first bytes, as many as that or as there are.
fn front(bytes: &[u8], most: usize) -> &[u8]
    ensures { result.now ≡ take most bytes.now }
{
    &bytes[..most.min(bytes.len())]
}

/// What the streams need of a header.
#[inline(always)]
pub fn tcp_head(bytes: &[u8]) -> TcpHead
    ensures { result ≡ tcp_head bytes.now }
{
    TcpHead {
        source: peek(bytes, 0, 16) as u16,
        target: peek(bytes, 16, 16) as u16,
        seq: peek(bytes, 32, 32) as u32,
        ack: peek(bytes, 64, 32) as u32,
        syn: peek(bytes, 110, 1) == 1,
        acked: peek(bytes, 107, 1) == 1,
    }
}

/// What follows a header of so many bytes that was read so far.
fn tcp_carries(reach: Reach, mode: Mode, head: TcpHead, header: u32, span: Span) -> After
    requires header { reach ≡ Reach.All → header ≤ span.len }
    requires end { span.start + span.len < 2 ^ 32 }
    ensures after { result ≡ tcp_carries reach mode head header span }
    ensures inside { (buffers : List (List ℕ)) → IsInside buffers span
        → LeadsInside buffers result }
    ensures whole { result ≢ After.End → reach ≡ Reach.All }
{
    match reach {
        Reach::All => match mode {
            Mode::Plain => After::Segment(head, behind(span, header)),
            Mode::Embedded => carried(Next::Rest, span, header),
        },
        Reach::Short | Reach::Failed => After::End,
    }
}
