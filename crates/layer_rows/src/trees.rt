//! Trees that are built here, over two headers of IPv4, of which the second is in the packet of the first.
//!
//! A row of `values` is a field, from which to which layer of its protocol it is asked, ` ->`, and its values. A row of `steps` has the
//! number of the packet's last bytes that are read by steps, and `quoted` and `cut` as in rows of headers; in `failing steps` their
//! condition doesn't hold.
ghost use Rattle.std.specs.Prelude.{◌≡◌, ℕ, Bool as Truth, List, [], ◌∷◌, ◌++◌, ◌+◌, ◌<◌, ◌≤◌, length, IfOk, OnOk};
ghost use Rattle.pk_tree.specs.Buffers.{IsInside};
ghost use Rattle.pk_fields.specs.Ids.{DNS, IP};
ghost use Rattle.pk_tree.specs.Layouts.{StepsFit};
ghost use Rattle.pk_tree.specs.Tables.{steps_of};
ghost use Rattle.pk_tree.specs.Trees.{proto_at};

use crate::afters::push_value;
use crate::givens::{given_of, number};
use pk_base::{LayerRange, LayerRanges, Layers, Mode, NoMemory, Octets, Span, Value};
use pk_fields::{FieldId, FieldSet, by_name, ids};
use pk_tree::{
    Items, Layer, LayerList, Reach, Slot, Step, Tree, TreeBuilder, pass_layer, peek, read_layer,
    read_table,
};
use std::alloc::{AllocError, Global};
use tree_rows::{Places, layers_text};

/// An IPv4 header around another (RFC 791, 3.1; RFC 2003): from 10.0.0.1 to 10.0.0.2, and from 192.168.0.1 to
/// 192.168.0.2, which must not be fragmented.
const PACKET: &[u8] = b"\x45\0\0\x28\0\x01\0\0\x40\x04\x66\xce\x0a\0\0\x01\x0a\0\0\x02\
    \x45\0\0\x14\0\x02\x40\0\x40\x3b\x79\x59\xc0\xa8\0\x01\xc0\xa8\0\x02";

/// A question's name in a message.
const NAME: &[u8] = b"\x01h\x04test\0";

/// Whether a case without a table holds, by its name.
pub(crate) fn alone(alloc: Global, name: &str) -> Result<bool, NoMemory> {
    match name {
        "layers of a protocol are numbered from one" => Ok(are_numbered(&tunnel(alloc)?)),
        "places say where values come from" => question_is_placed(alloc),
        "bits that are not there spell nothing" => Ok(bits_are_peeked()),
        "lists keep what they are made of" => lists_keep(alloc),
        "a table is read as far as its fields are wanted" => table_is_read(alloc),
        "a layer that nobody asks for is passed" => header_is_passed(alloc),
        _ => Ok(false),
    }
}

fn span(start: u32, len: u32) -> Span
    ensures { result ≡ record { buffer = 0; start = start; len = len } }
{
    Span {
        buffer: 0,
        start,
        len,
    }
}

/// A tree of these fields that is built over the packet.
fn packet_builder(alloc: Global, wanted: FieldSet) -> Result<TreeBuilder, NoMemory>
    ensures buffers { IfOk result (λ b. b.buffers ≡ PACKET.now ∷ []) }
    ensures layers { IfOk result (λ b. b.layers ≡ []) }
{
    let frame = Octets::copy(alloc, PACKET)?;
    TreeBuilder::keeping(alloc, frame, wanted)
}

/// A header with its source.
#[tactic(auto, unfolding(pk_fields::specs::Fields::row_of, pk_fields::specs::Table::rows))]
fn push_source(builder: &mut TreeBuilder, header: Span, source: Span) -> Result<(), NoMemory>
    requires header { IsInside builder.old.buffers header }
    requires source { IsInside builder.old.buffers source }
    requires size { source.len ≡ 4 }
    requires room { length builder.old.layers < 10 }
    ensures buffers { builder.new.buffers ≡ builder.old.buffers }
    ensures count { OnOk result (length builder.new.layers ≡ length builder.old.layers + 1) }
{
    builder.open_layer(ids::IP, header)?;
    builder.read_item(ids::IP_SRC, source)
}

/// The two headers with their sources.
fn tunnel(alloc: Global) -> Result<Tree, NoMemory> {
    let mut builder = packet_builder(alloc, FieldSet::all())?;
    push_source(&mut builder, span(0, 20), span(12, 4))?;
    push_source(&mut builder, span(20, 20), span(32, 4))?;
    Ok(builder.finish())
}

fn is_header(layer: &Layer, nth: u32) -> bool {
    layer.proto == ids::IP && layer.nth == nth && layer.items.slice().len() == 1
}

fn are_numbered(tree: &Tree) -> bool {
    match tree.layers() {
        [outer, inner] => {
            is_header(outer, 1) && is_header(inner, 2) && tree.buffers().count() == 1
        }
        _ => false,
    }
}

/// Whether a field of the two headers has the values of a row.
pub(crate) fn values_hold(alloc: Global, row: &str) -> Result<bool, NoMemory> {
    let (asked, wanted) = row.split_once(" ->").unwrap_or((row, "none"));
    let (name, range) = asked.split_once(' ').unwrap_or((asked, ""));
    match by_name(name) {
        Some(field) => {
            let text = values_text(alloc, field, &layers_of(alloc, range)?)?;
            Ok(text.as_str() == wanted)
        }
        None => Ok(false),
    }
}

/// The layers from one to another, or all.
fn layers_of(alloc: Global, range: &str) -> Result<Layers, AllocError> {
    let (first, last) = range.split_once('-').unwrap_or((range, ""));
    match (number(first), number(last)) {
        (Some(first), Some(last)) => {
            let ranges = [LayerRange {
                first: u32::from(first),
                last: Some(u32::from(last)),
            }];
            Ok(Layers::These(LayerRanges::from_vec(ranges.to_vec(alloc)?)))
        }
        _ => Ok(Layers::All),
    }
}

fn values_text(alloc: Global, field: FieldId, layers: &Layers) -> Result<String, NoMemory> {
    let tree = tunnel(alloc)?;
    let values = tree.values(field, layers)?;
    let mut text = String::new(alloc);
    for value in &values {
        push_value(alloc, &mut text, " ", value)?;
    }
    Ok(text)
}

fn name_span() -> Span
    ensures { result ≡ record { buffer = 1; start = 0; len = 8 } }
{
    Span {
        buffer: 1,
        start: 0,
        len: 8,
    }
}

/// Adds a buffer with the name.
fn add_name(alloc: Global, builder: &mut TreeBuilder) -> Result<u32, NoMemory>
    requires { length builder.old.buffers ≡ 1 }
    ensures buffers { OnOk result (builder.new.buffers ≡ builder.old.buffers ++ NAME.now ∷ []) }
    ensures layers { builder.new.layers ≡ builder.old.layers }
{
    let name = Octets::copy(alloc, NAME)?;
    builder.add_buffer(name)
}

/// A layer with a name that is worked out from its bytes, and an item without a place.
#[tactic(auto, unfolding(pk_fields::specs::Fields::row_of, pk_fields::specs::Table::rows))]
fn push_question(alloc: Global, builder: &mut TreeBuilder) -> Result<(), NoMemory>
    requires name { IsInside builder.old.buffers (record { buffer = 1; start = 0; len = 8 }) }
    requires layers { builder.old.layers ≡ [] }
    ensures count { OnOk result (length builder.new.layers ≡ 1) }
    ensures proto { OnOk result (proto_at builder.new.layers 0 ≡ DNS) }
{
    builder.open_layer(ids::DNS, name_span())?;
    let text = Octets::copy(alloc, b"h.test")?;
    builder.derived_item(ids::DNS_QRY_NAME, Value::Text(text), name_span())?;
    builder.made_item(ids::DNS_RESPONSE_TO, Value::Uint(1))
}

/// The tree of the question in a frame of no bytes, to which an item is added, if the name is read as it was added.
#[tactic(auto, unfolding(pk_fields::specs::Fields::row_of, pk_fields::specs::Table::rows))]
fn question(alloc: Global) -> Result<Tree, NoMemory> {
    let mut builder = TreeBuilder::new(alloc, Octets::new())?;
    let number = add_name(alloc, &mut builder)?;
    if number != 1 || builder.size(1) != 8 || builder.bytes(name_span()) != NAME {
        return Err(NoMemory);
    }
    push_question(alloc, &mut builder)?;
    let mut tree = builder.finish();
    tree.add_made(0, ids::DNS_RESPONSE_IN, Value::Uint(3))?;
    Ok(tree)
}

fn has_lines(alloc: Global, tree: &Tree, places: Places, lines: &str) -> Result<bool, AllocError> {
    let text = layers_text(alloc, tree.layers(), places)?;
    Ok(text.as_str().strip_suffix('\n') == Some(lines))
}

/// The name has a place that it is derived from, the other items none of either kind.
fn question_is_placed(alloc: Global) -> Result<bool, NoMemory> {
    let tree = question(alloc)?;
    let derived = "dns 0+8: dns.qry.name=h.test@1:0+8 dns.response_to=1 dns.response_in=3";
    let read = "dns 0+8: dns.qry.name=h.test dns.response_to=1 dns.response_in=3";
    Ok(
        has_lines(alloc, &tree, Places::Derived, derived)?
            && has_lines(alloc, &tree, Places::Read, read)?,
    )
}

#[tactic(auto, unfolding(pk_tree::specs::Layouts::StepsFit, pk_fields::specs::Fields::row_of, pk_fields::specs::Table::rows))]
fn push_rows(
    builder: &mut TreeBuilder,
    rows: Span,
    version: bool,
    mode: Mode,
    cut: bool,
) -> Result<Reach, NoMemory>
    requires inside { IsInside builder.old.buffers rows }
    requires layers { builder.old.layers ≡ [] }
{
    let steps = [
        Step::Row(ids::IP_VERSION, 0),
        Step::Check(version),
        Step::Row(ids::IP_FLAGS_DF, 6),
        Step::Row(ids::IP_DST, 16),
        Step::Part(ids::IP_OPTIONS, 20, 0),
        Step::Made(ids::IP_REASSEMBLED_LENGTH, Value::Uint(20)),
    ];
    read_layer(builder, ids::IP, rows, &steps, mode, cut)
}

/// Whether so many of the packet's last bytes have these lines, with a condition that holds or not. All steps are read where
/// the last has an item.
pub(crate) fn steps_hold(alloc: Global, version: bool, row: &str) -> Result<bool, NoMemory> {
    let (words, wanted) = row.split_once("\n-> ").unwrap_or((row, ""));
    let Some(how) = given_of(words) else {
        return Ok(false);
    };
    if how.number > 40 {
        return Ok(false);
    }
    let mut builder = packet_builder(alloc, how.wanted)?;
    let rows = span(40 - u32::from(how.number), u32::from(how.number));
    let reach = push_rows(&mut builder, rows, version, how.mode, how.cut)?;
    let is_all = reach.is_all() == wanted.ends_with("ip.reassembled.length=20");
    Ok(is_all && has_lines(alloc, &builder.finish(), Places::Hidden, wanted)?)
}

fn bits_are_peeked() -> bool {
    peek(PACKET, 0, 4) == 4
        && peek(PACKET, 312, 8) == 2
        && peek(PACKET, 313, 8) == 0
        && peek(PACKET, usize::MAX, 64) == 0
}

fn lists_keep(alloc: Global) -> Result<bool, NoMemory> {
    let wanted = [LayerRange {
        first: 1,
        last: Some(2),
    }];
    let ranges = LayerRanges::from_vec(wanted.to_vec(alloc)?);
    Ok(
        ranges.slice() == wanted.as_slice()
            && Items::from_vec(Vec::new(alloc)).slice().is_empty()
            && LayerList::from_vec(Vec::new(alloc)).slice().is_empty(),
    )
}

/// Rows of an IPv4 header.
static ROWS: [Slot; 5] = [
    Slot::Row(ids::IP_VERSION.0, 0),
    Slot::Check(0),
    Slot::Row(ids::IP_SRC.0, 12),
    Slot::Part(ids::IP_OPTIONS.0, 20, 0),
    Slot::Room(1),
];

#[tactic(auto, unfolding(pk_tree::specs::Tables::steps_of, pk_tree::specs::Layouts::StepsFit, pk_fields::specs::Fields::row_of, pk_fields::specs::Table::rows))]
fn rows() -> &'static [Slot]
    ensures { (holds : List Truth) (sizes : List ℕ)
        → StepsFit IP (steps_of holds sizes result.now) }
{
    &ROWS
}

#[tactic(auto, unfolding(pk_tree::specs::Layouts::StepsFit, pk_fields::specs::Fields::row_of, pk_fields::specs::Table::rows))]
fn push_table(builder: &mut TreeBuilder, header: Span, version: bool) -> Result<Reach, NoMemory>
    requires inside { IsInside builder.old.buffers header }
    requires room { length builder.old.layers < 10 }
    ensures buffers { builder.new.buffers ≡ builder.old.buffers }
    ensures most { OnOk result (length builder.new.layers ≤ length builder.old.layers + 2) }
{
    read_table(
        builder,
        ids::IP,
        header,
        rows(),
        &[version, true],
        &[0],
        &[],
        Mode::Plain,
        false,
    )
}

/// Whether the first two bytes of the inner header are read.
fn reads_part(builder: &TreeBuilder) -> Result<bool, NoMemory>
    requires { builder.now.buffers ≡ PACKET.now ∷ [] }
{
    let part = builder.part(span(20, 2))?;
    Ok(part.bytes() == b"\x45\0".as_slice())
}

/// Reads both headers by the table, the second without its condition, and answers what was told on the way.
fn read_tables(builder: &mut TreeBuilder) -> Result<bool, NoMemory>
    requires buffers { builder.old.buffers ≡ PACKET.now ∷ [] }
    requires layers { builder.old.layers ≡ [] }
{
    let asked = builder.asks(ids::IP) && !builder.asks(ids::UDP) && !builder.wants(ids::IP_DST);
    let first = push_table(builder, span(0, 20), true)?;
    let second = push_table(builder, span(20, 20), false)?;
    Ok(asked && first.is_all() && !second.is_all() && reads_part(builder)?)
}

fn table_is_read(alloc: Global) -> Result<bool, NoMemory> {
    let mut wanted = FieldSet::none();
    wanted.add(ids::IP_SRC);
    let mut builder = packet_builder(alloc, wanted)?;
    let told = read_tables(&mut builder)?;
    let lines = "ip 0+20: ip.src=10.0.0.1\nip 20+20:\n_ws.malformed 40+0:";
    Ok(told && has_lines(alloc, &builder.finish(), Places::Hidden, lines)?)
}

/// Passes the outer header, unless some field of it is asked.
#[tactic(auto, unfolding(pk_tree::specs::Layouts::StepsFit, pk_fields::specs::Fields::row_of, pk_fields::specs::Table::rows))]
fn header_is_passed(alloc: Global) -> Result<bool, NoMemory> {
    let mut builder = packet_builder(alloc, FieldSet::none())?;
    if builder.asks(ids::IP) {
        return Ok(false);
    }
    pass_layer(
        &mut builder,
        ids::IP,
        span(0, 20),
        Reach::All,
        Mode::Plain,
        false,
    )?;
    Ok(builder.layer_count() == 1)
}
