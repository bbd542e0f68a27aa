ghost use Rattle.std.specs.Prelude.{◌≡◌, ◌<◌, ◌^◌, ◌∷◌, ◌++◌, [], ℕ, List, false, true, length, IfOk, IfSome, OnOk};
ghost use Rattle.std.specs.List.{AllByRecursion as Each};
ghost use Rattle.capture_read.specs.FrameList.{IsTime};
ghost use Rattle.pk_source.specs.Outlines.{IsOutline, NoteFits, outlined, wanted_notes};
ghost use Rattle.pk_source.specs.Picks.{ArePlaces};
ghost use Rattle.pk_tree.specs.Buffers.{IsInside};
ghost use Rattle.pk_tree.specs.Trees.{IsTree};
ghost use Rattle.app_layers.specs.Times.{AreTimes};
ghost use Rattle.dissect.specs.Carried.{data_header, data_headers, frame_header, notes_of};
ghost use Rattle.dissect.specs.Events.{Event};
ghost use Rattle.dissect.specs.Stands.{StandsAt, IsRead, HasRoomForOne, AddsAtMost, bytes_kept};
ghost use Rattle.dissect.specs.Tables.{AreTables, IsTabled, KnownBy, tables_listed};
ghost use Rattle.dissect.specs.Tells.{AsksNoDatagrams};
ghost use Rattle.dissect.specs.Trees.{kept_walk};
ghost use Rattle.dissect.specs.Ways.{AsksNoOptions, Carries, Opens};

use crate::carried::{Carried, has_data};
use crate::state::State;
use crate::tables::Tables;
use crate::telling::push_notes;
use crate::ways::{self, push_all, read_way};
use app_layers::{Times, frame_span};
use capture_read::Frame;
use pk_base::{NoMemory, Octets, Span};
use pk_fields::{FieldSet, PortRule, ids};
use pk_source::{Header, Note, Outline, Places};
use std::alloc::Global;
use std::marker::Model;

/// What is asked of a frame, given those before it.
#[derive(Clone, Copy)]
pub(crate) struct Asked<'a> {
    pub alloc: Global,
    pub rules: &'a [PortRule],
    pub wanted: &'a FieldSet,
    pub before: &'a Times,
    /// Whether nothing is asked of the messages of datagrams that are passed over then.
    pub passes: bool,
}

/// What stands in a plain frame: its headers, and what is told beside their rows. It is made once, and filled again for each
/// frame.
pub struct Heads {
    pub(crate) headers: Vec<Header>,
    pub(crate) notes: Vec<Note>,
    /// The tables that read the headers.
    pub(crate) tables: Tables,
    /// Where fields stand in them, once there was a plain frame.
    pub(crate) places: Places,
    pub(crate) knows_places: bool,
}

impl Model for Heads {
    ghost use Rattle.std.specs.Prelude.{List, refl};
    ghost use Rattle.std.specs.Coded.{code_by, coded×, coded_list};
    ghost use Rattle.std.specs.List.{All as ForAll};
    ghost use Rattle.pk_source.specs.contracts.header.Header as header_row;
    ghost use Rattle.pk_source.specs.contracts.header.Note as note_row;
    ghost use Rattle.pk_source.specs.declared.header.Header.{Header as HeaderShown};
    ghost use Rattle.pk_source.specs.declared.header.Note.{Note as NoteShown};
    ghost use Rattle.pk_source.specs.Picks.{Knows};
    ghost use Rattle.dissect.specs.Heads.{HeadsShown};
    ghost use Rattle.dissect.specs.Tables.{KnownBy};

    ghost Value = { HeadsShown };

    ghost coded = { code_by (List HeaderShown × List NoteShown) (coded× (coded_list header_row.the_row.coded) (coded_list note_row.the_row.coded)) (λ h. (h.headers, h.notes)) (λ p. record { headers = p.0; notes = p.1 }) (λ _. refl) };

    ghost view = { λ h. record { headers = h.headers.items; notes = h.notes.items } };

    ghost invariant = { λ h. KnownBy h.knows_places h.tables h.places × ForAll (Knows h.places) h.headers.items };
}

impl Drop for Heads {
    fn drop(self) {
        let Heads {
            headers: _headers,
            notes: _notes,
            tables: _,
            places: _places,
            knows_places: _,
        } = self;
    }
}

impl Heads {
    /// Nothing stands in it. Takes no memory.
    pub fn none(alloc: Global) -> Heads
        ensures headers { result.headers ≡ [] }
        ensures notes { result.notes ≡ [] }
    {
        Heads {
            headers: Vec::new(alloc),
            notes: Vec::new(alloc),
            tables: Tables::all(),
            places: Places::none(alloc),
            knows_places: false,
        }
    }

    /// The values of a frame of these headers.
    pub(crate) fn outline<'a>(&'a self, bytes: &'a Octets, wanted: &'a FieldSet) -> Outline<'a>
        requires { IsOutline bytes.now wanted.now self.now.headers self.now.notes }
        ensures tree { result ≡ outlined bytes.now wanted.now self.now.headers self.now.notes }
        ensures fits { IsTree result }
    {
        Outline::new(bytes, wanted, &self.headers, &self.notes, &self.places)
    }

    /// Takes a frame that is plain: true, and its headers, and what is told of it, stand here in place of those of another.
    pub(crate) fn take(
        &mut self,
        asked: &Asked<'_>,
        state: &mut State,
        frame: &Frame,
    ) -> Result<bool, NoMemory>
        requires bytes { length frame.now.bytes < 2 ^ 32 }
        requires before { AreTimes asked.now.before.now }
        requires time { IfSome frame.now.time IsTime }
        requires goes { AsksNoOptions asked.now.wanted.now }
        requires few { HasRoomForOne (length frame.now.bytes) state.old }
        requires messages { asked.now.passes ≡ true → AsksNoDatagrams asked.now.wanted.now }
        ensures read { IfOk result (λ taken. taken ≡ true → (es : List Event) → StandsAt asked.now.rules.now es state.old
            → IsRead asked.now.rules.now asked.now.wanted.now (kept_walk asked.now.rules.now asked.now.wanted.now asked.now.before.now es frame.now)
            state.new (outlined frame.now.bytes asked.now.wanted.now self.new.headers self.new.notes)) }
        ensures outline { IfOk result (λ taken. taken ≡ true
            → IsOutline frame.now.bytes asked.now.wanted.now self.new.headers self.new.notes) }
        ensures passed { IfOk result (λ taken. taken ≡ false → state.new ≡ state.old) }
        ensures added { AddsAtMost 1 state.old state.new }
        ensures kept { bytes_kept state.new ≡ bytes_kept state.old }
    {
        self.headers.clear();
        self.notes.clear();
        know_places(
            asked.alloc,
            &self.tables,
            &mut self.places,
            &mut self.knows_places,
        )?;
        match take_headers(
            &mut self.headers,
            &mut self.notes,
            &self.tables,
            asked,
            state,
            frame,
        ) {
            Ok(taken) => Ok(taken),
            Err(NoMemory) => {
                self.headers.clear();
                Err(NoMemory)
            }
        }
    }
}

/// Finds where fields stand in the tables, where that isn't known yet.
pub(crate) fn know_places(
    alloc: Global,
    tables: &Tables,
    places: &mut Places,
    known: &mut bool,
) -> Result<(), NoMemory>
    requires known { KnownBy known.old tables.now places.old }
    ensures known { KnownBy known.new tables.now places.new }
    ensures places { OnOk result (ArePlaces (tables_listed tables.now) places.new) }
{
    if *known {
        return Ok(());
    }
    *places = Places::new(alloc, &tables.listed())?;
    *known = true;
    Ok(())
}

/// Takes a frame that is plain: true, and its headers, and what is told of it, are put.
fn take_headers(
    headers: &mut Vec<Header>,
    notes: &mut Vec<Note>,
    tables: &Tables,
    asked: &Asked<'_>,
    state: &mut State,
    frame: &Frame,
) -> Result<bool, NoMemory>
    requires none { headers.old.items ≡ [] }
    requires untold { notes.old.items ≡ [] }
    requires tables { AreTables tables.now }
    requires bytes { length frame.now.bytes < 2 ^ 32 }
    requires before { AreTimes asked.now.before.now }
    requires time { IfSome frame.now.time IsTime }
    requires goes { AsksNoOptions asked.now.wanted.now }
    requires few { HasRoomForOne (length frame.now.bytes) state.old }
    requires messages { asked.now.passes ≡ true → AsksNoDatagrams asked.now.wanted.now }
    ensures tabled { OnOk result (Each (IsTabled tables.now) headers.new.items) }
    ensures read { IfOk result (λ taken. taken ≡ true → (es : List Event) → StandsAt asked.now.rules.now es state.old
        → IsRead asked.now.rules.now asked.now.wanted.now (kept_walk asked.now.rules.now asked.now.wanted.now asked.now.before.now es frame.now)
        state.new (outlined frame.now.bytes asked.now.wanted.now headers.new.items notes.new.items)) }
    ensures outline { IfOk result (λ taken. taken ≡ true
        → IsOutline frame.now.bytes asked.now.wanted.now headers.new.items notes.new.items) }
    ensures passed { IfOk result (λ taken. taken ≡ false → state.new ≡ state.old) }
    ensures added { AddsAtMost 1 state.old state.new }
    ensures kept { bytes_kept state.new ≡ bytes_kept state.old }
{
    let Some(way) = open_headers(headers, tables, frame)? else {
        return Ok(false);
    };
    match state.carry(asked.rules, frame, way, asked.passes)? {
        Some(carried) => {
            put_carried(headers, notes, tables, asked, frame, &carried)?;
            Ok(true)
        }
        None => Ok(false),
    }
}

/// Puts the header of what is shown as data, and what is told of the frame.
pub(crate) fn put_carried(
    headers: &mut Vec<Header>,
    notes: &mut Vec<Note>,
    tables: &Tables,
    asked: &Asked<'_>,
    frame: &Frame,
    carried: &Carried,
) -> Result<(), NoMemory>
    requires untold { notes.old.items ≡ [] }
    requires tabled { Each (IsTabled tables.now) headers.old.items }
    requires bytes { length frame.now.bytes < 2 ^ 32 }
    requires before { AreTimes asked.now.before.now }
    requires time { IfSome frame.now.time IsTime }
    ensures headers { OnOk result (headers.new.items ≡ headers.old.items ++ data_headers tables.now carried.now.free carried.now.payload) }
    ensures notes { OnOk result (notes.new.items ≡ wanted_notes asked.now.wanted.now (notes_of asked.now.before.now frame.now carried.now)) }
    ensures fits { OnOk result ((buffers : List (List ℕ)) → IsInside buffers carried.now.payload → Each (NoteFits buffers) (notes_of asked.now.before.now frame.now carried.now)) }
    ensures tabled { OnOk result (Each (IsTabled tables.now) headers.new.items) }
{
    push_data(headers, tables, carried)?;
    push_notes(notes, asked.wanted, asked.before, frame, carried)
}

/// Puts the headers of a plain frame, its own first, and finds what they carry.
pub(crate) fn open_headers(
    headers: &mut Vec<Header>,
    tables: &Tables,
    frame: &Frame,
) -> Result<Option<ways::Carried>, NoMemory>
    requires none { headers.old.items ≡ [] }
    requires tables { AreTables tables.now }
    requires bytes { length frame.now.bytes < 2 ^ 32 }
    ensures carried { IfOk result (λ found. IfSome found (Carries frame.now headers.new.items)) }
    ensures opens { OnOk result (Opens frame.now headers.new.items) }
    ensures tabled { OnOk result (Each (IsTabled tables.now) headers.new.items) }
{
    push_all(headers, &[frame_header(tables, frame)])?;
    read_way(tables, frame, headers)
}

/// Puts the header of the bytes that are shown as data.
fn push_data(headers: &mut Vec<Header>, tables: &Tables, carried: &Carried) -> Result<(), NoMemory>
    requires tabled { Each (IsTabled tables.now) headers.old.items }
    ensures headers { OnOk result (headers.new.items ≡ headers.old.items ++ data_headers tables.now carried.now.free carried.now.payload) }
    ensures tabled { OnOk result (Each (IsTabled tables.now) headers.new.items) }
{
    if has_data(carried.free, carried.payload) {
        push_all(headers, &[data_header(tables, carried.payload)])
    } else {
        Ok(())
    }
}

fn frame_header(tables: &Tables, frame: &Frame) -> Header
    requires bytes { length frame.now.bytes < 2 ^ 32 }
    ensures { result ≡ frame_header tables.now frame.now }
{
    Header {
        proto: ids::FRAME,
        nth: 1,
        span: frame_span(frame),
        slots: tables.frame,
        size: 0,
    }
}

fn data_header(tables: &Tables, span: Span) -> Header
    ensures { result ≡ data_header tables.now span }
{
    Header {
        proto: ids::DATA,
        nth: 1,
        span,
        slots: tables.payload,
        size: span.len,
    }
}
