ghost use Rattle.std.specs.Prelude.{◌≡◌, ◌≢◌, ℕ, List, [], ◌∷◌, ◌+◌, ◌<◌, ◌≤◌, ◌^◌, length, IfOk, OnOk};
ghost use Rattle.pk_tree.specs.Buffers.{IsInside, bytes_of};
ghost use Rattle.pk_fields.specs.Ids.{NTP};
ghost use Rattle.pk_tree.specs.Following.{LeadsInside};
ghost use Rattle.pk_tree.specs.Layouts.{layer_read, reach, StepsFit};
ghost use Rattle.pk_tree.specs.Tables.{steps_of};
ghost use Rattle.pk_tree.specs.Trees.{last_proto};
ghost use Rattle.pk_base.specs.declared.heads.Mode.TheVariants.{Plain};
ghost use Rattle.dis_hosts.specs.Ntp.{header_size, is_time, ntp_after, ntp_layout, ntp_rows};

use pk_base::{After, Mode, Next, NoMemory, Span};
use pk_fields::ids;
use pk_tree::{Reach, Slot, TreeBuilder, carried, pass_layer, peek, read_table};

/// The bytes of a header that tells the time.
const HEADER: u32 = 48;
/// The bytes of a message of another form that are read.
const FLAGS: u32 = 1;
/// The bytes of the reference identifier.
const REFERENCE: usize = 4;
/// The bytes of a timestamp.
const TIMESTAMP: usize = 8;

// Modes whose messages have another form (RFC 5905, figure 10).
const CONTROL: u8 = 6;

const PRIVATE: u8 = 7;

static TIME_ROWS: [Slot; 13] = [
    Slot::Row(ids::NTP_FLAGS_LI.0, 0),
    Slot::Row(ids::NTP_FLAGS_VN.0, 0),
    Slot::Row(ids::NTP_FLAGS_MODE.0, 0),
    Slot::Row(ids::NTP_STRATUM.0, 1),
    Slot::Row(ids::NTP_PPOLL.0, 2),
    Slot::Row(ids::NTP_PRECISION.0, 3),
    Slot::Row(ids::NTP_ROOTDELAY.0, 4),
    Slot::Row(ids::NTP_ROOTDISPERSION.0, 8),
    Slot::Part(ids::NTP_REFID.0, 12, 0),
    Slot::Part(ids::NTP_REFTIME.0, 16, 1),
    Slot::Part(ids::NTP_ORG.0, 24, 1),
    Slot::Part(ids::NTP_REC.0, 32, 1),
    Slot::Part(ids::NTP_XMT.0, 40, 1),
];

static FLAG_ROWS: [Slot; 3] = [
    Slot::Row(ids::NTP_FLAGS_LI.0, 0),
    Slot::Row(ids::NTP_FLAGS_VN.0, 0),
    Slot::Row(ids::NTP_FLAGS_MODE.0, 0),
];

/// Reads an NTP message (RFC 5905, 7.3). Of one for control or for private use the flags alone are read. The bytes
/// behind are data.
#[tactic(auto, using(crate::proofs::Whole::ntp_whole, crate::proofs::Whole::ntp_fits), unfolding(crate::specs::Ntp::ntp_after, pk_tree::specs::Layouts::StepsFit, pk_fields::specs::Fields::row_of, pk_fields::specs::Table::rows))]
pub fn read_ntp(span: Span, cut: bool, b: &mut TreeBuilder) -> Result<After, NoMemory>
    requires inside { IsInside b.old.buffers span }
    requires room { length b.old.layers + 2 < 2 ^ 32 }
    ensures layer { IfOk result (λ _.
        b.new ≡ layer_read b.old NTP span (ntp_layout (bytes_of b.old.buffers span)) Plain cut) }
    ensures after { IfOk result (λ after. after ≡ ntp_after span (bytes_of b.old.buffers span)) }
    ensures inside { IfOk result (LeadsInside b.old.buffers) }
    ensures whole { IfOk result (λ after. after ≢ After.End → last_proto b.new.layers ≡ NTP) }
    ensures buffers { b.new.buffers ≡ b.old.buffers }
    ensures some { OnOk result (0 < length b.new.layers) }
    ensures most { OnOk result (length b.new.layers ≤ length b.old.layers + 2) }
{
    let time = is_time(peek(b.bytes(span), 5, 3) as u8);
    let header = header_size(time);
    if !b.asks(ids::NTP) && span.len >= header {
        pass_layer(b, ids::NTP, span, Reach::All, Mode::Plain, cut)?;
        return Ok(carried(Next::Rest, span, header));
    }
    read_table(
        b,
        ids::NTP,
        span,
        ntp_slots(time),
        &[],
        &[REFERENCE, TIMESTAMP],
        &[],
        Mode::Plain,
        cut,
    )?;
    Ok(carried(Next::Rest, span, header))
}

/// The rows of a message that tells the time, or of one of another form.
#[tactic(auto, unfolding(crate::specs::Ntp::ntp_rows, pk_tree::specs::Tables::steps_of, pk_tree::specs::Layouts::reach, pk_tree::specs::Layouts::step_reach, pk_tree::specs::Layouts::StepsFit, pk_fields::specs::Fields::row_of, pk_fields::specs::Table::rows))]
fn ntp_slots(time: bool) -> &'static [Slot]
    ensures fits { (sizes : List ℕ) → StepsFit NTP (steps_of [] sizes result.now) }
    ensures layout { steps_of [] (4 ∷ 8 ∷ []) result.now ≡ ntp_rows time }
    ensures whole { (end : ℕ) → header_size time ≤ end
        → reach end (steps_of [] (4 ∷ 8 ∷ []) result.now) ≡ Reach.All }
{
    if time { &TIME_ROWS } else { &FLAG_ROWS }
}

/// Whether messages of a mode tell the time.
fn is_time(mode: u8) -> bool
    ensures { result ≡ is_time mode }
{
    mode != CONTROL && mode != PRIVATE
}

/// How many bytes of a message are read.
fn header_size(time: bool) -> u32
    ensures { result ≡ header_size time }
{
    if time { HEADER } else { FLAGS }
}
