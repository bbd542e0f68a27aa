// A frame of Ethernet, IPv4 and TCP, its headers, and what is told beside them.
ghost use Rattle.std.specs.Prelude.{◌≡◌, ◌≤◌, ◌+◌, ◌∷◌, [], ℕ, List, true, length};
ghost use Rattle.pk_fields.specs.Ids.{ETH, IP, TCP};
ghost use Rattle.pk_fields.specs.Fields.{row_of};
ghost use Rattle.pk_source.specs.Outlines.{IsReadWhole, NoteFits, outlined};
ghost use Rattle.pk_source.specs.Picks.{ArePlaces, Knows};
ghost use Rattle.pk_source.specs.declared.picks.Picks.{Picks as PicksShown};
ghost use Rattle.std.specs.List.{All as ForAll};
ghost use Rattle.pk_tree.specs.Buffers.{IsInside};
ghost use Rattle.pk_tree.specs.Layouts.{StepsFit, reach};
ghost use Rattle.pk_tree.specs.Tables.{steps_of};
ghost use Rattle.pk_tree.specs.Values.{IsOfKind};
ghost use Rattle.source_rows.specs.Given.{AreGiven, NotesGiven};

use pk_base::{Octets, Span, Value};
use pk_fields::{FieldId, FieldSet, ids};
use pk_source::{Header, Note, Outline, Places, Table, Told};
use pk_tree::{Reach, Slot};

/// From 10.0.0.1, port 80, to 10.0.0.2, port 4660: a SYN without options.
pub(crate) static FRAME: [u8; 54] = [
    2, 0, 0, 0, 0, 2, 2, 0, 0, 0, 0, 1, 8, 0, //
    0x45, 0, 0, 40, 0, 7, 0x40, 0, 64, 6, 0, 0, 10, 0, 0, 1, 10, 0, 0, 2, //
    0, 80, 0x12, 0x34, 0, 0, 0, 9, 0, 0, 0, 0, 0x50, 2, 1, 0, 0, 0, 0, 0,
];

static NO_ROWS: [Slot; 0] = [];

static ETH_ROWS: [Slot; 5] = [
    Slot::Row(ids::ETH_DST.0, 0),
    Slot::Row(ids::ETH_ADDR.0, 0),
    Slot::Row(ids::ETH_SRC.0, 6),
    Slot::Row(ids::ETH_ADDR.0, 6),
    Slot::Row(ids::ETH_TYPE.0, 12),
];

static IP_ROWS: [Slot; 11] = [
    Slot::Row(ids::IP_VERSION.0, 0),
    Slot::Row(ids::IP_HDR_LEN.0, 0),
    Slot::Check(0),
    Slot::Check(1),
    Slot::Row(ids::IP_TTL.0, 8),
    Slot::Row(ids::IP_SRC.0, 12),
    Slot::Row(ids::IP_ADDR.0, 12),
    Slot::Row(ids::IP_DST.0, 16),
    Slot::Row(ids::IP_ADDR.0, 16),
    Slot::Part(ids::IP_OPTIONS.0, 20, 0),
    Slot::Check(2),
];

static TCP_ROWS: [Slot; 9] = [
    Slot::Row(ids::TCP_SRCPORT.0, 0),
    Slot::Row(ids::TCP_PORT.0, 0),
    Slot::Row(ids::TCP_DSTPORT.0, 2),
    Slot::Row(ids::TCP_PORT.0, 2),
    Slot::Row(ids::TCP_HDR_LEN.0, 12),
    Slot::Check(0),
    Slot::Row(ids::TCP_FLAGS_SYN.0, 13),
    Slot::Row(ids::TCP_WINDOW_SIZE_VALUE.0, 14),
    Slot::Part(ids::TCP_OPTIONS.0, 20, 0),
];

#[tactic(auto, unfolding(pk_tree::specs::Tables::steps_of, pk_tree::specs::Layouts::reach, pk_tree::specs::Layouts::step_reach, pk_tree::specs::Layouts::StepsFit, pk_fields::specs::Fields::row_of, pk_fields::specs::Table::rows))]
fn eth_slots() -> &'static [Slot]
    ensures fits { (sizes : List ℕ) → StepsFit ETH (steps_of [] sizes result.now) }
    ensures whole { (sizes : List ℕ) (end : ℕ) → 14 ≤ end
        → reach end (steps_of [] sizes result.now) ≡ Reach.All }
{
    &ETH_ROWS
}

#[tactic(auto, unfolding(pk_tree::specs::Tables::steps_of, pk_tree::specs::Layouts::reach, pk_tree::specs::Layouts::step_reach, pk_tree::specs::Layouts::StepsFit, pk_fields::specs::Fields::row_of, pk_fields::specs::Table::rows))]
fn ip_slots() -> &'static [Slot]
    ensures fits { (sizes : List ℕ)
        → StepsFit IP (steps_of (true ∷ true ∷ true ∷ []) sizes result.now) }
    ensures whole { (options end : ℕ) → 20 + options ≤ end
        → reach end (steps_of (true ∷ true ∷ true ∷ []) (options ∷ []) result.now) ≡ Reach.All }
{
    &IP_ROWS
}

#[tactic(auto, unfolding(pk_tree::specs::Tables::steps_of, pk_tree::specs::Layouts::reach, pk_tree::specs::Layouts::step_reach, pk_tree::specs::Layouts::StepsFit, pk_fields::specs::Fields::row_of, pk_fields::specs::Table::rows))]
fn tcp_slots() -> &'static [Slot]
    ensures fits { (sizes : List ℕ) → StepsFit TCP (steps_of (true ∷ []) sizes result.now) }
    ensures whole { (options end : ℕ) → 20 + options ≤ end
        → reach end (steps_of (true ∷ []) (options ∷ []) result.now) ≡ Reach.All }
{
    &TCP_ROWS
}

fn eth_header(span: Span) -> Header
    requires long { 14 ≤ span.len }
    ensures given { (result.proto ≡ ETH) × (result.nth ≡ 1) × (result.span ≡ span) }
    ensures whole { (buffers : List (List ℕ)) → IsInside buffers span
        → IsReadWhole buffers result }
{
    Header {
        proto: ids::ETH,
        nth: 1,
        span,
        slots: eth_slots(),
        size: 0,
    }
}

fn ip_header(span: Span) -> Header
    requires long { 20 ≤ span.len }
    ensures given { (result.proto ≡ IP) × (result.nth ≡ 1) × (result.span ≡ span) }
    ensures whole { (buffers : List (List ℕ)) → IsInside buffers span
        → IsReadWhole buffers result }
{
    Header {
        proto: ids::IP,
        nth: 1,
        span,
        slots: ip_slots(),
        size: 0,
    }
}

fn tcp_header(span: Span) -> Header
    requires long { 20 ≤ span.len }
    ensures given { (result.proto ≡ TCP) × (result.nth ≡ 1) × (result.span ≡ span) }
    ensures whole { (buffers : List (List ℕ)) → IsInside buffers span
        → IsReadWhole buffers result }
{
    Header {
        proto: ids::TCP,
        nth: 1,
        span,
        slots: tcp_slots(),
        size: 0,
    }
}

/// The frame's headers, and the tables that read them.
#[derive(Clone, Copy)]
pub struct Given {
    pub headers: [Header; 3],
    pub tables: [Table; 3],
}

pub(crate) fn make_given() -> Given
    ensures headers { AreGiven result.headers }
    ensures known { (places : List PicksShown) → ArePlaces result.tables places
        → ForAll (Knows places) result.headers }
{
    let eth = eth_header(part(0, 54));
    let ip = ip_header(part(14, 40));
    let tcp = tcp_header(part(34, 20));
    let tables = [table_of(&eth), table_of(&ip), table_of(&tcp)];
    Given {
        headers: [eth, ip, tcp],
        tables,
    }
}

fn table_of(header: &Header) -> Table
    ensures { result ≡ record { proto = header.now.proto; slots = header.now.slots } }
{
    Table {
        proto: header.proto,
        slots: header.slots,
    }
}

fn part(start: u32, len: u32) -> Span
    ensures { result ≡ record { buffer = 0; start = start; len = len } }
{
    Span {
        buffer: 0,
        start,
        len,
    }
}

/// What is told of the TCP header beside its rows.
#[tactic(auto, unfolding(pk_fields::specs::Fields::row_of, pk_fields::specs::Table::rows))]
pub(crate) fn notes() -> [Note; 2]
    ensures { NotesGiven result }
{
    [number(ids::TCP_STREAM, 3), number(ids::TCP_LEN, 0)]
}

fn number(field: FieldId, number: u64) -> Note
    requires kind { IsOfKind (row_of field).kind (Value.Uint number) }
    ensures fits { (buffers : List (List ℕ)) → NoteFits buffers result }
{
    Note {
        field,
        told: Told::Number(number),
    }
}

pub(crate) fn outline<'f>(
    bytes: &'f Octets,
    wanted: &'f FieldSet,
    headers: &'f [Header; 3],
    notes: &'f [Note; 2],
    places: &'f Places,
) -> Outline<'f>
    requires bytes { length bytes.now ≡ 54 }
    requires headers { AreGiven headers.now }
    requires notes { NotesGiven notes.now }
    requires known { ForAll (Knows places.now) headers.now }
    ensures { result ≡ outlined bytes.now wanted.now headers.now notes.now }
{
    Outline::new(bytes, wanted, headers, notes, places)
}
