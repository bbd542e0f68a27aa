ghost use Rattle.std.specs.Prelude.{◌≡◌, ◌≢◌, ◌↔◌, ◌+◌, ◌≤◌, ◌<◌, ◌^◌, ◌||◌, List, [], ◌∷◌, true, false, length, None, Err, is_err, IfOk, IfSome, OnOk, OnErr};
ghost use Rattle.capture_read.specs.declared.frame.Frame.{Frame as FrameValue};
ghost use Rattle.pk_source.specs.Outlines.{IsOutline, outlined};
ghost use Rattle.pk_tree.specs.Trees.{IsKept as IsKeptTree, IsTree, kept_tree};
ghost use Rattle.app_layers.specs.Aside.{LacksOnly};
ghost use Rattle.pk_fields.specs.FieldSets.{every_field};
ghost use Rattle.pk_fields.specs.Rules.{AreRules};
ghost use Rattle.dissect.specs.Conversations.{udp_opened};
ghost use Rattle.dissect.specs.Events.{Event};
ghost use Rattle.tcp_streams.specs.Standing.{StandsFor, taken_so_far};
ghost use Rattle.dissect.specs.Feeding.{HasOutline, ShowsHeaders, taken_tree};
ghost use Rattle.dissect.specs.Followed.{asks_streams, HasSameValues};
ghost use Rattle.dissect.specs.Keeping.{KeepsFor, KeepsWhole, keeps_all, takes_any};
ghost use Rattle.dissect.specs.Segments.{segments_of};
ghost use Rattle.dissect.specs.Stands.{Stands, StandsWithin, StandsAt, IsAfter, IsRead, HasRoomForOne, AddsAtMost, bytes_kept};
ghost use Rattle.capture_read.specs.FrameList.{IsTime};
ghost use Rattle.app_layers.specs.Times.{AreTimes};
ghost use Rattle.dissect.specs.Trees.{tree_at, events_of, kept_walk};
ghost use Rattle.dissect.specs.Ways.{AsksNoOptions};

use crate::carried::asks_datagrams;
use crate::heads::{Asked, Heads};
use crate::keeping::{Keeping, asks_options};
use crate::noting::with_links;
use crate::plain_trees::TakenBy;
use crate::state::{State, let_go};
use app_layers::{Times, begin_tree, captured};
use capture_read::Frame;
use ip_join::Joins;
use message_links::{Conversations, Links};
use pk_base::NoMemory;
use pk_fields::{DecodeAs, FieldSet, PortRule};
use pk_source::Outline;
use pk_tree::{Spare, Tree};
use std::alloc::Global;
use std::marker::Model;
use std::mem;
use tcp_messages::MessageStreams;
use tcp_streams::{StreamPlaces, Streams};

/// Why a frame has no tree.
#[derive(Clone, Copy)]
pub enum TakeFault {
    NoMemory,
    /// The dissector answered an error before.
    Spent,
}

/// Reads the frames of a capture in order. After an error it is spent.
pub struct Dissector {
    alloc: Global,
    decode: DecodeAs,
    wanted: FieldSet,
    /// Whether only what the values of the wanted fields need is kept.
    sparing: bool,
    spent: bool,
    taken: u32,
    captured: u32,
    times: Times,
    state: State,
    /// Whether the headers of plain frames answer for what is wanted.
    plain: bool,
    /// Whether nothing is asked of the messages of datagrams that are passed over then.
    passes: bool,
    /// The memory of a tree that was given back.
    spare: Spare,
}

impl Model for Dissector {
    ghost use Rattle.std.specs.Prelude.{◌≡◌, ℕ, Bool, true, List, refl};
    ghost use Rattle.std.specs.Coded.{code_by, coded×, coded_ℕ, coded_bool};
    ghost use Rattle.pk_fields.specs.contracts.rules.DecodeAs as decode_row;
    ghost use Rattle.dissect.specs.contracts.state.State as state_row;
    ghost use Rattle.app_layers.specs.contracts.times.Times as times_row;
    ghost use Rattle.pk_fields.specs.contracts.field_set.FieldSet as set_row;
    ghost use Rattle.pk_fields.specs.declared.rules.DecodeAs.{DecodeAs as DecodeAsValue};
    ghost use Rattle.dissect.specs.declared.state.State.{State as StateValue};
    ghost use Rattle.app_layers.specs.declared.times.Times.{Times as TimesValue};
    ghost use Rattle.dissect.specs.Stands.{DissectorShown, IsKept};
    ghost use Rattle.dissect.specs.Tells.{AsksNoDatagrams};
    ghost use Rattle.dissect.specs.Ways.{AsksNoOptions};

    ghost Value = { DissectorShown };

    ghost coded = { code_by ((DecodeAsValue × (List ℕ × (Bool × Bool))) × ((ℕ × ℕ) × (TimesValue × StateValue))) (coded× (coded× decode_row.the_row.coded (coded× set_row.the_row.coded (coded× coded_bool coded_bool))) (coded× (coded× coded_ℕ coded_ℕ) (coded× times_row.the_row.coded state_row.the_row.coded))) (λ d. ((d.decode, (d.wanted, (d.sparing, d.spent))), ((d.taken, d.captured), (d.times, d.state)))) (λ p. record { decode = p.0.0; wanted = p.0.1.0; sparing = p.0.1.1.0; spent = p.0.1.1.1; taken = p.1.0.0; captured = p.1.0.1; times = p.1.1.0; state = p.1.1.1 }) (λ _. refl) };

    ghost view = { λ d. record { decode = d.decode; wanted = d.wanted; sparing = d.sparing; spent = d.spent; taken = d.taken; captured = d.captured; times = d.times; state = d.state } };

    ghost invariant = { λ d. IsKept (record { decode = d.decode; wanted = d.wanted; sparing = d.sparing; spent = d.spent; taken = d.taken; captured = d.captured; times = d.times; state = d.state }) × (d.plain ≡ true → AsksNoOptions d.wanted) × (d.passes ≡ true → AsksNoDatagrams d.wanted) };
}

// The destructor is written out here, and not wherever a dissector is dropped.
impl Drop for Dissector {
    fn drop(self) {
        let Dissector {
            alloc: _,
            decode: _decode,
            wanted: _,
            sparing: _,
            spent: _,
            taken: _,
            captured: _,
            times: _,
            state: _state,
            plain: _,
            passes: _,
            spare: _spare,
        } = self;
    }
}

impl Dissector {
    /// A dissector that has taken no frame yet, for whole trees.
    #[tactic(auto, unfolding(crate::specs::Stands::Stands))]
    pub fn new(alloc: Global, decode: DecodeAs) -> Dissector
        requires rules { AreRules decode.rules }
        ensures stands { Stands [] result }
        ensures counted { (result.taken ≡ 0) × (result.captured ≡ 0) }
        ensures spent { result.spent ≡ false }
        ensures rules { result.decode ≡ decode }
        ensures whole { result.sparing ≡ false }
        ensures wanted { result.wanted ≡ every_field }
    {
        Dissector::keeping(alloc, decode, FieldSet::all(), Keeping::everything(), false)
    }

    /// As `new`, for trees of the wanted fields. Where they ask nothing of the streams of TCP, none is followed, which saves
    /// their time and memory.
    #[tactic(auto, unfolding(crate::specs::Stands::StandsWithin))]
    pub fn for_fields(alloc: Global, decode: DecodeAs, wanted: FieldSet) -> Dissector
        requires rules { AreRules decode.rules }
        ensures stands { StandsWithin [] result }
        ensures wanted { result.wanted ≡ wanted }
        ensures counted { (result.taken ≡ 0) × (result.captured ≡ 0) }
        ensures spent { result.spent ≡ false }
        ensures rules { result.decode ≡ decode }
        ensures whole { result.sparing ≡ false }
    {
        Dissector::keeping(alloc, decode, wanted, Keeping::for_fields(&wanted), false)
    }

    /// As `for_fields`, for the values of the wanted fields alone: of conversations and streams nothing is kept that these don't
    /// need, so that `udp_count` and `streams` don't tell of all of them.
    #[tactic(auto, unfolding(crate::specs::Stands::StandsWithin))]
    pub fn for_values(alloc: Global, decode: DecodeAs, wanted: FieldSet) -> Dissector
        requires rules { AreRules decode.rules }
        ensures stands { StandsWithin [] result }
        ensures wanted { result.wanted ≡ wanted }
        ensures counted { (result.taken ≡ 0) × (result.captured ≡ 0) }
        ensures spent { result.spent ≡ false }
        ensures rules { result.decode ≡ decode }
        ensures sparing { result.sparing ≡ true }
    {
        Dissector::keeping(alloc, decode, wanted, Keeping::for_values(&wanted), true)
    }

    #[tactic(auto, unfolding(crate::specs::Keeping::followed_of, crate::specs::Fragments::fragments_of, crate::specs::Conversations::udp_opened, crate::specs::Segments::segments_of, crate::specs::Notes::noted, crate::specs::Links::newest_links, crate::specs::Trees::times_of, crate::specs::Trees::events_of))]
    fn keeping(
        alloc: Global,
        decode: DecodeAs,
        wanted: FieldSet,
        keeps: Keeping,
        sparing: bool,
    ) -> Dissector
        requires asked { KeepsFor keeps wanted }
        requires whole { sparing ≡ false → KeepsWhole keeps wanted }
        ensures after { IsAfter [] result }
        ensures keeps { result.state.keeps ≡ keeps }
        ensures sparing { result.sparing ≡ sparing }
        ensures wanted { result.wanted ≡ wanted }
        ensures counted { (result.taken ≡ 0) × (result.captured ≡ 0) }
        ensures spent { result.spent ≡ false }
        ensures rules { result.decode ≡ decode }
    {
        Dissector {
            alloc,
            decode,
            wanted,
            sparing,
            spent: false,
            taken: 0,
            captured: 0,
            times: Times::none(),
            state: State {
                joins: Joins::new(alloc),
                keeps,
                udp: Conversations::new(alloc),
                places: StreamPlaces::new(alloc),
                streams: MessageStreams::new(alloc),
                links: Links::new(alloc),
                found: Vec::new(alloc),
            },
            plain: !asks_options(&wanted),
            passes: !asks_datagrams(&wanted),
            spare: Spare::new(alloc),
        }
    }

    /// Takes back a tree that is no longer needed: the next is made in its memory.
    pub fn give_back(&mut self, tree: Tree)
        ensures { self.new ≡ self.old }
    {
        self.spare = tree.into_spare();
    }

    /// How many conversations over UDP the frames taken have opened, where not only values were asked.
    #[tactic(auto, unfolding(crate::specs::Stands::Stands, crate::specs::Stands::StandsWithin))]
    pub fn udp_count(&self) -> u32
        ensures count { (past : List FrameValue) → Stands past self.now
            → result ≡ length (udp_opened (events_of past)) }
        ensures within { self.now.sparing ≡ false → (past : List FrameValue) → StandsWithin past self.now
            → result ≡ length (udp_opened (events_of past)) }
    {
        self.state.udp.count()
    }

    /// The streams of TCP that the frames taken have, where streams are followed and not only values were asked. Takes no memory.
    #[tactic(auto, unfolding(crate::specs::Stands::Stands, crate::specs::Stands::StandsWithin))]
    pub fn streams(&self) -> &Streams
        ensures streams { (past : List FrameValue) → Stands past self.now
            → StandsFor (segments_of (events_of past)) result.now }
        ensures within { asks_streams self.now.wanted ≡ true → self.now.sparing ≡ false
            → (past : List FrameValue) → StandsWithin past self.now
            → StandsFor (segments_of (events_of past)) result.now }
        ensures few { (past : List FrameValue) → StandsWithin past self.now → taken_so_far result.now ≤ self.now.taken }
        ensures whole { asks_streams self.now.wanted ≡ true → self.now.sparing ≡ false
            → (past : List FrameValue) → StandsWithin past self.now → Stands past self.now }
    {
        self.state.streams.streams()
    }

    /// The tree of the next frame with the items of the fields that the dissector was made for, given the frames that were taken
    /// before. Frames are taken in the order of their numbers, from 1. The tree has the same values of these fields as the whole
    /// tree; it may lack layers of messages that have nothing to show of them.
    #[inline(always)]
    pub fn take(&mut self, frame: &Frame) -> Result<Tree, TakeFault>
        requires number { frame.now.number ≡ self.old.taken + 1 }
        requires time { IfSome frame.now.time IsTime }
        requires captured { self.old.captured + length frame.now.bytes ≤ 2 ^ 28 }
        ensures spent { result ≡ Err TakeFault.Spent ↔ self.old.spent ≡ true }
        ensures spent_after { self.new.spent ≡ self.old.spent || is_err result }
        ensures counted { OnOk result ((self.new.taken ≡ self.old.taken + 1)
            × (self.new.captured ≡ self.old.captured + length frame.now.bytes)) }
        ensures uncounted { OnErr result ((self.new.taken ≡ self.old.taken)
            × (self.new.captured ≡ self.old.captured)) }
        ensures rules { self.new.decode ≡ self.old.decode }
        ensures wanted { self.new.wanted ≡ self.old.wanted }
        ensures values { IfOk result (λ tree. (past : List FrameValue) → StandsWithin past self.old
            → HasSameValues self.old.wanted (tree_at self.old.decode.rules past frame.now) tree) }
        ensures sparing { self.new.sparing ≡ self.old.sparing }
        ensures tree { IfOk result (λ tree. asks_streams self.old.wanted ≡ true → self.old.sparing ≡ false
            → (past : List FrameValue) → StandsWithin past self.old
            → IsKeptTree self.old.wanted (tree_at self.old.decode.rules past frame.now) tree) }
        ensures lacks { IfOk result (λ tree. (past : List FrameValue) → StandsWithin past self.old
            → LacksOnly (kept_tree self.old.wanted (tree_at self.old.decode.rules past frame.now)) tree) }
        ensures stands { OnOk result ((past : List FrameValue) → StandsWithin past self.old
            → StandsWithin (frame.now ∷ past) self.new) }
        ensures kept { IfOk result (λ tree. (past : List FrameValue) → Stands past self.old
            → IsKeptTree self.old.wanted (tree_at self.old.decode.rules past frame.now) tree) }
        ensures whole { IfOk result (λ tree. self.old.wanted ≡ every_field → (past : List FrameValue) → Stands past self.old
            → tree ≡ tree_at self.old.decode.rules past frame.now) }
        ensures stands_whole { OnOk result ((past : List FrameValue) → Stands past self.old
            → Stands (frame.now ∷ past) self.new) }
    {
        if self.spent {
            return Err(TakeFault::Spent);
        }
        let number = number_of(frame);
        let rules = self.decode.rules.slice();
        let spare = mem::replace(&mut self.spare, Spare::new(self.alloc));
        match make_tree(
            spare,
            rules,
            &mut self.state,
            self.times,
            frame,
            self.wanted,
        ) {
            Ok(tree) => {
                self.taken = number;
                self.captured += captured(frame);
                self.times = self.times.with(frame.time);
                Ok(tree)
            }
            Err(NoMemory) => {
                self.spent = true;
                Err(TakeFault::NoMemory)
            }
        }
    }

    /// Takes a frame that is plain, for which its headers answer: true, and they stand in `heads` then. Of any other frame
    /// nothing is taken: false.
    pub fn take_plain(&mut self, frame: &Frame, heads: &mut Heads) -> Result<bool, TakeFault>
        requires number { frame.now.number ≡ self.old.taken + 1 }
        requires time { IfSome frame.now.time IsTime }
        requires captured { self.old.captured + length frame.now.bytes ≤ 2 ^ 28 }
        ensures spent { result ≡ Err TakeFault.Spent ↔ self.old.spent ≡ true }
        ensures spent_after { self.new.spent ≡ self.old.spent || is_err result }
        ensures passed { IfOk result (λ taken. taken ≡ false → self.new ≡ self.old) }
        ensures counted { IfOk result (λ taken. taken ≡ true → (self.new.taken ≡ self.old.taken + 1)
            × (self.new.captured ≡ self.old.captured + length frame.now.bytes)) }
        ensures uncounted { OnErr result ((self.new.taken ≡ self.old.taken)
            × (self.new.captured ≡ self.old.captured)) }
        ensures rules { self.new.decode ≡ self.old.decode }
        ensures wanted { self.new.wanted ≡ self.old.wanted }
        ensures sparing { self.new.sparing ≡ self.old.sparing }
        ensures values { IfOk result (λ taken. taken ≡ true → (past : List FrameValue) → StandsWithin past self.old
            → HasSameValues self.old.wanted (tree_at self.old.decode.rules past frame.now)
            (outlined frame.now.bytes self.old.wanted heads.new.headers heads.new.notes)) }
        ensures tree { IfOk result (λ taken. taken ≡ true → asks_streams self.old.wanted ≡ true → self.old.sparing ≡ false
            → (past : List FrameValue) → StandsWithin past self.old
            → IsKeptTree self.old.wanted (tree_at self.old.decode.rules past frame.now)
            (outlined frame.now.bytes self.old.wanted heads.new.headers heads.new.notes)) }
        ensures lacks { IfOk result (λ taken. taken ≡ true → (past : List FrameValue) → StandsWithin past self.old
            → LacksOnly (kept_tree self.old.wanted (tree_at self.old.decode.rules past frame.now))
            (outlined frame.now.bytes self.old.wanted heads.new.headers heads.new.notes)) }
        ensures stands { IfOk result (λ taken. taken ≡ true → (past : List FrameValue) → StandsWithin past self.old
            → StandsWithin (frame.now ∷ past) self.new) }
        ensures outline { IfOk result (λ taken. taken ≡ true
            → IsOutline frame.now.bytes self.new.wanted heads.new.headers heads.new.notes) }
    {
        if self.spent {
            return Err(TakeFault::Spent);
        }
        if !self.plain {
            return Ok(false);
        }
        self.take_headers(frame, heads)
    }

    /// Takes a frame that is plain by its headers.
    fn take_headers(&mut self, frame: &Frame, heads: &mut Heads) -> Result<bool, TakeFault>
        requires not_spent { self.old.spent ≡ false }
        requires goes { AsksNoOptions self.old.wanted }
        requires number { frame.now.number ≡ self.old.taken + 1 }
        requires time { IfSome frame.now.time IsTime }
        requires captured { self.old.captured + length frame.now.bytes ≤ 2 ^ 28 }
        ensures spent { result ≢ Err TakeFault.Spent }
        ensures spent_after { self.new.spent ≡ is_err result }
        ensures passed { IfOk result (λ taken. taken ≡ false → self.new ≡ self.old) }
        ensures counted { IfOk result (λ taken. taken ≡ true → (self.new.taken ≡ self.old.taken + 1)
            × (self.new.captured ≡ self.old.captured + length frame.now.bytes)) }
        ensures uncounted { OnErr result ((self.new.taken ≡ self.old.taken)
            × (self.new.captured ≡ self.old.captured)) }
        ensures rules { self.new.decode ≡ self.old.decode }
        ensures wanted { self.new.wanted ≡ self.old.wanted }
        ensures sparing { self.new.sparing ≡ self.old.sparing }
        ensures tree { IfOk result (λ taken. taken ≡ true → (past : List FrameValue) → IsAfter past self.old
            → keeps_all self.old.state.keeps ≡ true
            → IsKeptTree self.old.wanted (tree_at self.old.decode.rules past frame.now)
            (outlined frame.now.bytes self.old.wanted heads.new.headers heads.new.notes)) }
        ensures values { IfOk result (λ taken. taken ≡ true → (past : List FrameValue) → IsAfter past self.old
            → HasSameValues self.old.wanted (tree_at self.old.decode.rules past frame.now)
            (outlined frame.now.bytes self.old.wanted heads.new.headers heads.new.notes)) }
        ensures lacks { IfOk result (λ taken. taken ≡ true → (past : List FrameValue) → IsAfter past self.old
            → LacksOnly (kept_tree self.old.wanted (tree_at self.old.decode.rules past frame.now))
            (outlined frame.now.bytes self.old.wanted heads.new.headers heads.new.notes)) }
        ensures after { IfOk result (λ taken. taken ≡ true → (past : List FrameValue) → IsAfter past self.old
            → IsAfter (frame.now ∷ past) self.new) }
        ensures outline { IfOk result (λ taken. taken ≡ true → IsOutline frame.now.bytes self.old.wanted heads.new.headers heads.new.notes) }
    {
        let number = number_of(frame);
        let asked = Asked {
            alloc: self.alloc,
            rules: self.decode.rules.slice(),
            wanted: &self.wanted,
            before: &self.times,
            passes: self.passes,
        };
        match heads.take(&asked, &mut self.state, frame) {
            Ok(true) => {
                self.taken = number;
                self.captured += captured(frame);
                self.times = self.times.with(frame.time);
                Ok(true)
            }
            Ok(false) => Ok(false),
            Err(NoMemory) => {
                self.spent = true;
                Err(TakeFault::NoMemory)
            }
        }
    }

    /// Whether of the segments of streams, of some or of all, their bytes are kept. Then `take_fed` takes most frames by their
    /// headers, and `take_plain` else.
    pub fn feeds(&self) -> bool
        ensures { result ≡ takes_any self.now.state.keeps.follows }
    {
        self.state.keeps.follows.takes_any()
    }

    /// As `take_plain`, but a frame whose segment is taken into its stream is taken too: by its headers, or where it shows messages
    /// into a tree. Of any other frame nothing is taken.
    pub fn take_fed(
        &mut self,
        frame: &Frame,
        heads: &mut Heads,
    ) -> Result<Option<TakenBy>, TakeFault>
        requires number { frame.now.number ≡ self.old.taken + 1 }
        requires time { IfSome frame.now.time IsTime }
        requires captured { self.old.captured + length frame.now.bytes ≤ 2 ^ 28 }
        ensures spent { result ≡ Err TakeFault.Spent ↔ self.old.spent ≡ true }
        ensures spent_after { self.new.spent ≡ self.old.spent || is_err result }
        ensures passed { IfOk result (λ taken. taken ≡ None → self.new ≡ self.old) }
        ensures counted { IfOk result (λ taken. IfSome taken (λ by. (self.new.taken ≡ self.old.taken + 1)
            × (self.new.captured ≡ self.old.captured + length frame.now.bytes))) }
        ensures uncounted { OnErr result ((self.new.taken ≡ self.old.taken)
            × (self.new.captured ≡ self.old.captured)) }
        ensures rules { self.new.decode ≡ self.old.decode }
        ensures wanted { self.new.wanted ≡ self.old.wanted }
        ensures sparing { self.new.sparing ≡ self.old.sparing }
        ensures values { IfOk result (λ taken. IfSome taken (λ by. (past : List FrameValue) → StandsWithin past self.old
            → HasSameValues self.old.wanted (tree_at self.old.decode.rules past frame.now)
            (taken_tree frame.now.bytes self.old.wanted heads.new by))) }
        ensures tree { IfOk result (λ taken. IfSome taken (λ by. asks_streams self.old.wanted ≡ true → self.old.sparing ≡ false
            → (past : List FrameValue) → StandsWithin past self.old
            → IsKeptTree self.old.wanted (tree_at self.old.decode.rules past frame.now)
            (taken_tree frame.now.bytes self.old.wanted heads.new by))) }
        ensures lacks { IfOk result (λ taken. IfSome taken (λ by. (past : List FrameValue) → StandsWithin past self.old
            → LacksOnly (kept_tree self.old.wanted (tree_at self.old.decode.rules past frame.now))
            (taken_tree frame.now.bytes self.old.wanted heads.new by))) }
        ensures stands { IfOk result (λ taken. IfSome taken (λ by. (past : List FrameValue) → StandsWithin past self.old
            → StandsWithin (frame.now ∷ past) self.new)) }
        ensures outline { IfOk result (λ taken. IfSome taken (HasOutline frame.now.bytes self.new.wanted heads.new)) }
        ensures alone { IfOk result (λ taken. IfSome taken (ShowsHeaders frame.now.bytes self.old.wanted heads.new)) }
    {
        if self.spent {
            return Err(TakeFault::Spent);
        }
        if !self.plain {
            return Ok(None);
        }
        self.feed_frame(frame, heads)
    }

    /// Takes a frame that is plain, also where its stream is followed.
    fn feed_frame(&mut self, frame: &Frame, heads: &mut Heads) -> Result<Option<TakenBy>, TakeFault>
        requires not_spent { self.old.spent ≡ false }
        requires goes { AsksNoOptions self.old.wanted }
        requires number { frame.now.number ≡ self.old.taken + 1 }
        requires time { IfSome frame.now.time IsTime }
        requires captured { self.old.captured + length frame.now.bytes ≤ 2 ^ 28 }
        ensures spent { result ≢ Err TakeFault.Spent }
        ensures spent_after { self.new.spent ≡ is_err result }
        ensures passed { IfOk result (λ taken. taken ≡ None → self.new ≡ self.old) }
        ensures counted { IfOk result (λ taken. IfSome taken (λ by. (self.new.taken ≡ self.old.taken + 1)
            × (self.new.captured ≡ self.old.captured + length frame.now.bytes))) }
        ensures uncounted { OnErr result ((self.new.taken ≡ self.old.taken)
            × (self.new.captured ≡ self.old.captured)) }
        ensures rules { self.new.decode ≡ self.old.decode }
        ensures wanted { self.new.wanted ≡ self.old.wanted }
        ensures sparing { self.new.sparing ≡ self.old.sparing }
        ensures tree { IfOk result (λ taken. IfSome taken (λ by. (past : List FrameValue) → IsAfter past self.old
            → keeps_all self.old.state.keeps ≡ true
            → IsKeptTree self.old.wanted (tree_at self.old.decode.rules past frame.now)
            (taken_tree frame.now.bytes self.old.wanted heads.new by))) }
        ensures values { IfOk result (λ taken. IfSome taken (λ by. (past : List FrameValue) → IsAfter past self.old
            → HasSameValues self.old.wanted (tree_at self.old.decode.rules past frame.now)
            (taken_tree frame.now.bytes self.old.wanted heads.new by))) }
        ensures lacks { IfOk result (λ taken. IfSome taken (λ by. (past : List FrameValue) → IsAfter past self.old
            → LacksOnly (kept_tree self.old.wanted (tree_at self.old.decode.rules past frame.now))
            (taken_tree frame.now.bytes self.old.wanted heads.new by))) }
        ensures after { IfOk result (λ taken. IfSome taken (λ by. (past : List FrameValue) → IsAfter past self.old
            → IsAfter (frame.now ∷ past) self.new)) }
        ensures outline { IfOk result (λ taken. IfSome taken (HasOutline frame.now.bytes self.old.wanted heads.new)) }
        ensures alone { IfOk result (λ taken. IfSome taken (ShowsHeaders frame.now.bytes self.old.wanted heads.new)) }
    {
        let number = number_of(frame);
        let asked = Asked {
            alloc: self.alloc,
            rules: self.decode.rules.slice(),
            wanted: &self.wanted,
            before: &self.times,
            passes: self.passes,
        };
        match heads.take_fed(&asked, &mut self.spare, &mut self.state, frame) {
            Ok(Some(by)) => {
                self.taken = number;
                self.captured += captured(frame);
                self.times = self.times.with(frame.time);
                Ok(Some(by))
            }
            Ok(None) => Ok(None),
            Err(NoMemory) => {
                self.spent = true;
                Err(TakeFault::NoMemory)
            }
        }
    }

    /// The values of the plain frame that was taken last.
    pub fn outline<'a>(&'a self, frame: &'a Frame, heads: &'a Heads) -> Outline<'a>
        requires { IsOutline frame.now.bytes self.now.wanted heads.now.headers heads.now.notes }
        ensures tree { result ≡ outlined frame.now.bytes self.now.wanted heads.now.headers heads.now.notes }
        ensures fits { IsTree result }
    {
        heads.outline(&frame.bytes, &self.wanted)
    }
}

/// Gives a dissector up.
pub fn give_up_dissector(_dissector: Dissector) {}

fn number_of(frame: &Frame) -> u32
    ensures number { result ≡ frame.now.number }
    ensures fits { result < 2 ^ 32 }
{
    frame.number
}

/// The tree of a frame with the wanted fields, given what is kept of the frames before it.
#[tactic(auto, unfolding(crate::specs::Trees::kept_walk))]
fn make_tree(
    spare: Spare,
    rules: &[PortRule],
    state: &mut State,
    before: Times,
    frame: &Frame,
    wanted: FieldSet,
) -> Result<Tree, NoMemory>
    requires bytes { length frame.now.bytes < 2 ^ 32 }
    requires before { AreTimes before }
    requires time { IfSome frame.now.time IsTime }
    requires few { HasRoomForOne (length frame.now.bytes) state.old }
    ensures walked { IfOk result (λ tree. (es : List Event) → StandsAt rules.now es state.old
        → IsRead rules.now wanted (kept_walk rules.now wanted before es frame.now) state.new tree) }
    ensures added { AddsAtMost 1 state.old state.new }
    ensures kept { OnOk result (bytes_kept state.new
        ≤ bytes_kept state.old + length frame.now.bytes) }
{
    let mut tree = begin_tree(spare, before, frame, wanted)?;
    match state.read_frame(rules, frame, &mut tree) {
        Ok(()) => with_links(&state.found, &wanted, tree.finish()),
        Err(NoMemory) => {
            let_go(tree);
            Err(NoMemory)
        }
    }
}
