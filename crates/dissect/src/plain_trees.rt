// A plain frame is taken by its headers, or where its segment brings messages into the tree that these make.
ghost use Rattle.std.specs.Prelude.{◌≡◌, ◌+◌, ◌<◌, ◌≤◌, ◌^◌, ◌∷◌, [], List, None, true, drop, length, IfOk, IfSome, OnOk};
ghost use Rattle.std.specs.List.{AllByRecursion as Each};
ghost use Rattle.capture_read.specs.FrameList.{IsTime};
ghost use Rattle.pk_fields.specs.Ids.{TCP};
ghost use Rattle.pk_fields.specs.declared.rules.PortRule.{PortRule as PortRuleValue};
ghost use Rattle.pk_source.specs.Outlines.{outlined};
ghost use Rattle.pk_tree.specs.Buffers.{IsInside};
ghost use Rattle.pk_tree.specs.Trees.{IsTree};
ghost use Rattle.app_layers.specs.Payloads.{LastIs};
ghost use Rattle.app_layers.specs.Times.{AreTimes};
ghost use Rattle.message_links.specs.Linked.{linked};
ghost use Rattle.dissect.specs.Carried.{frame_notes};
ghost use Rattle.dissect.specs.Events.{Event};
ghost use Rattle.dissect.specs.Feeding.{AreShowable, HasFed, HasOutline, IsBrought, IsTreeOf, ShowsHeaders, brought_over, grown_by, header_over, taken_tree};
ghost use Rattle.dissect.specs.Stands.{StandsAt, IsRead, HasRoomForOne, AddsAtMost, bytes_kept};
ghost use Rattle.dissect.specs.Tables.{AreTables, IsTabled};
ghost use Rattle.dissect.specs.Tells.{AsksNoDatagrams};
ghost use Rattle.dissect.specs.Trees.{kept_walk};
ghost use Rattle.dissect.specs.Ways.{AsksNoOptions, IsReadBy};
ghost use Rattle.dissect.specs.declared.state.State.{State as StateValue};

use crate::feeding::{Brought, Fed};
use crate::heads::{Asked, Heads, know_places, open_headers, put_carried};
use crate::noting::with_links;
use crate::state::{State, let_go};
use crate::tables::Tables;
use app_layers::{add_carried, begin_tree, is_cut, tell_segment};
use capture_read::Frame;
use pk_base::NoMemory;
use pk_fields::ids;
use pk_source::{Header, Note};
use pk_tree::{Spare, Tree, TreeBuilder, read_known};
use std::mem;

/// By what a frame was taken.
#[derive(Drop)]
pub enum TakenBy {
    /// Its headers, which stand in their place.
    Headers,
    Tree(Tree),
}

impl Heads {
    /// Takes a frame that is plain, also where its stream is followed: by its headers, which stand here then in place of those of
    /// another, or into a tree where it shows messages. Of another frame nothing is taken.
    pub(crate) fn take_fed(
        &mut self,
        asked: &Asked<'_>,
        spare: &mut Spare,
        state: &mut State,
        frame: &Frame,
    ) -> Result<Option<TakenBy>, NoMemory>
        requires bytes { length frame.now.bytes < 2 ^ 32 }
        requires before { AreTimes asked.now.before.now }
        requires time { IfSome frame.now.time IsTime }
        requires goes { AsksNoOptions asked.now.wanted.now }
        requires few { HasRoomForOne (length frame.now.bytes) state.old }
        requires messages { asked.now.passes ≡ true → AsksNoDatagrams asked.now.wanted.now }
        ensures read { IfOk result (λ taken. IfSome taken (λ by. (es : List Event) → StandsAt asked.now.rules.now es state.old
            → IsRead asked.now.rules.now asked.now.wanted.now (kept_walk asked.now.rules.now asked.now.wanted.now asked.now.before.now es frame.now)
            state.new (taken_tree frame.now.bytes asked.now.wanted.now self.new by))) }
        ensures outline { IfOk result (λ taken. IfSome taken (HasOutline frame.now.bytes asked.now.wanted.now self.new)) }
        ensures alone { IfOk result (λ taken. IfSome taken (ShowsHeaders frame.now.bytes asked.now.wanted.now self.new)) }
        ensures passed { IfOk result (λ taken. taken ≡ None → state.new ≡ state.old) }
        ensures added { AddsAtMost 1 state.old state.new }
        ensures kept { OnOk result (bytes_kept state.new ≤ bytes_kept state.old + length frame.now.bytes) }
    {
        match self.feed(asked, state, frame)? {
            Fed::Left => Ok(None),
            Fed::Told(_) => Ok(Some(TakenBy::Headers)),
            Fed::Brought(brought) => {
                let by = take_brought(&self.headers, asked, spare, frame, brought, &state.found)?;
                Ok(Some(by))
            }
        }
    }

    /// Takes what a plain frame carries: where its headers tell it, they stand here then.
    fn feed(&mut self, asked: &Asked<'_>, state: &mut State, frame: &Frame) -> Result<Fed, NoMemory>
        requires bytes { length frame.now.bytes < 2 ^ 32 }
        requires before { AreTimes asked.now.before.now }
        requires time { IfSome frame.now.time IsTime }
        requires goes { AsksNoOptions asked.now.wanted.now }
        requires few { HasRoomForOne (length frame.now.bytes) state.old }
        requires messages { asked.now.passes ≡ true → AsksNoDatagrams asked.now.wanted.now }
        ensures fed { IfOk result (λ fed. HasFed asked.now.rules.now asked.now.wanted.now asked.now.before.now frame.now state.old state.new self.new fed) }
        ensures added { AddsAtMost 1 state.old state.new }
        ensures kept { OnOk result (bytes_kept state.new ≤ bytes_kept state.old + length frame.now.bytes) }
    {
        self.headers.clear();
        self.notes.clear();
        know_places(
            asked.alloc,
            &self.tables,
            &mut self.places,
            &mut self.knows_places,
        )?;
        match feed_headers(
            &mut self.headers,
            &mut self.notes,
            &self.tables,
            asked,
            state,
            frame,
        ) {
            Ok(fed) => Ok(fed),
            Err(NoMemory) => {
                self.headers.clear();
                Err(NoMemory)
            }
        }
    }
}

/// Takes what a plain frame carries, whose headers are put; and where they tell it, also what is told of it.
fn feed_headers(
    headers: &mut Vec<Header>,
    notes: &mut Vec<Note>,
    tables: &Tables,
    asked: &Asked<'_>,
    state: &mut State,
    frame: &Frame,
) -> Result<Fed, NoMemory>
    requires none { headers.old.items ≡ [] }
    requires untold { notes.old.items ≡ [] }
    requires tables { AreTables tables.now }
    requires bytes { length frame.now.bytes < 2 ^ 32 }
    requires before { AreTimes asked.now.before.now }
    requires time { IfSome frame.now.time IsTime }
    requires goes { AsksNoOptions asked.now.wanted.now }
    requires few { HasRoomForOne (length frame.now.bytes) state.old }
    requires messages { asked.now.passes ≡ true → AsksNoDatagrams asked.now.wanted.now }
    ensures tabled { OnOk result (Each (IsTabled tables.now) headers.new.items) }
    ensures fed { IfOk result (λ fed. HasFed asked.now.rules.now asked.now.wanted.now asked.now.before.now frame.now state.old state.new
        (record { headers = headers.new.items; notes = notes.new.items }) fed) }
    ensures added { AddsAtMost 1 state.old state.new }
    ensures kept { OnOk result (bytes_kept state.new ≤ bytes_kept state.old + length frame.now.bytes) }
{
    let Some(way) = open_headers(headers, tables, frame)? else {
        return Ok(Fed::Left);
    };
    match state.feed(asked.rules, frame, way, asked.passes)? {
        Fed::Left => Ok(Fed::Left),
        Fed::Told(carried) => {
            put_carried(headers, notes, tables, asked, frame, &carried)?;
            Ok(Fed::Told(carried))
        }
        Fed::Brought(brought) => Ok(Fed::Brought(brought)),
    }
}

/// A frame whose segment brought messages is taken into the tree that its headers make. Few frames are, and the others don't
/// make room for it.
#[inline(never)]
fn take_brought(
    headers: &[Header],
    asked: &Asked<'_>,
    spare: &mut Spare,
    frame: &Frame,
    brought: Brought,
    found: &[Option<u32>],
) -> Result<TakenBy, NoMemory>
    requires bytes { length frame.now.bytes < 2 ^ 32 }
    requires before { AreTimes asked.now.before.now }
    requires time { IfSome frame.now.time IsTime }
    requires brought { (rules : List PortRuleValue) × (old : StateValue) × (new : StateValue) × IsBrought rules frame.now old new headers.now brought }
    ensures { IfOk result (IsTreeOf asked.now.wanted.now found.now (brought_over frame.now brought (outlined frame.now.bytes asked.now.wanted.now headers.now (frame_notes asked.now.before.now frame.now)))) }
{
    let tree = tree_by(headers, asked, spare, frame, &brought, found);
    let_go(brought);
    match tree {
        Ok(tree) => Ok(TakenBy::Tree(tree)),
        Err(NoMemory) => Err(NoMemory),
    }
}

/// The tree that headers make, with the messages that a segment brought, and their links.
fn tree_by(
    headers: &[Header],
    asked: &Asked<'_>,
    spare: &mut Spare,
    frame: &Frame,
    brought: &Brought,
    found: &[Option<u32>],
) -> Result<Tree, NoMemory>
    requires bytes { length frame.now.bytes < 2 ^ 32 }
    requires before { AreTimes asked.now.before.now }
    requires time { IfSome frame.now.time IsTime }
    requires brought { (rules : List PortRuleValue) × (old : StateValue) × (new : StateValue) × IsBrought rules frame.now old new headers.now brought.now }
    ensures tree { IfOk result (λ tree. tree ≡ linked asked.now.wanted.now found.now (brought_over frame.now brought.now (outlined frame.now.bytes asked.now.wanted.now headers.now (frame_notes asked.now.before.now frame.now)))) }
    ensures fits { OnOk result (IsTree (brought_over frame.now brought.now (outlined frame.now.bytes asked.now.wanted.now headers.now (frame_notes asked.now.before.now frame.now)))) }
{
    let memory = mem::replace(spare, Spare::new(asked.alloc));
    let mut tree = begin_tree(memory, *asked.before, frame, *asked.wanted)?;
    match show_brought(headers, frame, brought, &mut tree) {
        Ok(()) => with_links(found, asked.wanted, tree.finish()),
        Err(NoMemory) => {
            let_go(tree);
            Err(NoMemory)
        }
    }
}

/// Shows headers behind the first, and then the messages that a segment brought.
fn show_brought(
    headers: &[Header],
    frame: &Frame,
    brought: &Brought,
    tree: &mut TreeBuilder,
) -> Result<(), NoMemory>
    requires frame { tree.old.buffers ≡ frame.now.bytes ∷ [] }
    requires bytes { length frame.now.bytes < 2 ^ 32 }
    requires layers { length tree.old.layers ≤ 2 }
    requires few { length headers.now ≤ 6 }
    requires read { Each (IsReadBy (frame.now.bytes ∷ [])) (drop 1 headers.now) }
    requires last { LastIs TCP (grown_by tree.old (drop 1 headers.now)).layers }
    requires inside { IsInside (frame.now.bytes ∷ []) brought.now.payload }
    requires showable { AreShowable frame.now brought.now }
    ensures { OnOk result (tree.new ≡ brought_over frame.now brought.now (grown_by tree.old (drop 1 headers.now))) }
{
    open_all(behind_first(headers), tree)?;
    tell_segment(&brought.met.taken, brought.payload, tree)?;
    add_carried(
        brought.app,
        &brought.met,
        is_cut(frame),
        brought.payload,
        tree,
    )
}

/// Headers behind the first.
fn behind_first(headers: &[Header]) -> &[Header]
    ensures { result.now ≡ drop 1 headers.now }
{
    &headers[headers.len().min(1)..]
}

/// Opens the layers of headers that are read whole.
fn open_all(headers: &[Header], tree: &mut TreeBuilder) -> Result<(), NoMemory>
    requires read { Each (IsReadBy tree.old.buffers) headers.now }
    requires room { length tree.old.layers + length headers.now < 2 ^ 32 }
    ensures tree { OnOk result (tree.new ≡ grown_by tree.old headers.now) }
    ensures buffers { tree.new.buffers ≡ tree.old.buffers }
    ensures count { OnOk result (length tree.new.layers ≡ length tree.old.layers + length headers.now) }
{
    for header in headers {
        open_header(header, tree)?;
    }
    Ok(())
}

/// Opens the layer of a header that is read whole.
fn open_header(header: &Header, tree: &mut TreeBuilder) -> Result<(), NoMemory>
    requires read { IsReadBy tree.old.buffers header.now }
    requires room { length tree.old.layers + 1 < 2 ^ 32 }
    ensures tree { OnOk result (tree.new ≡ header_over tree.old header.now) }
    ensures buffers { tree.new.buffers ≡ tree.old.buffers }
    ensures count { OnOk result (length tree.new.layers ≡ length tree.old.layers + 1) }
{
    let Header {
        proto,
        nth: _,
        span,
        slots,
        size,
    } = *header;
    let sizes = [size as usize];
    if proto == ids::IP {
        read_known(tree, proto, span, slots, &[true; 3], &sizes)
    } else {
        read_known(tree, proto, span, slots, &[true], &sizes)
    }
}
