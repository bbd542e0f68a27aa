ghost use Rattle.std.specs.Prelude.{◌≡◌, ◌||◌, ◌-◌, ◌^◌, ◌<◌, ℕ, suc, true, List, [], ◌∷◌, IsErr, IfOk, OnOk, is_err};
ghost use Rattle.cap_stats.specs.declared.party.Flight.{Flight as FlightValue};
ghost use Rattle.pk_tree.specs.Trees.{TreeShown};
ghost use Rattle.cap_stats.specs.Few.{AreFew, HasFew};
ghost use Rattle.cap_stats.specs.Stands.{Stands, HasNotes, HasStreams, HasPairs, is_spent, kind_of};
ghost use Rattle.cap_stats.specs.Tables.{packets_of, segments_of, table_of, with_note};
ghost use Rattle.cap_stats.specs.Told.{length_of, stream_in as segment_of, packet_in as packet_of};

use crate::kind::StatKind;
use crate::pairs::Pairs;
use crate::paths::Paths;
use crate::shown::{packet_in, stream_in};
use crate::streams::Streams;
use pk_base::NoMemory;
use pk_source::Source;
use pk_tree::Tree;
use std::alloc::Global;

/// Statistics of one kind over trees. They keep some bytes for each stream, pair or path, and none for a tree.
pub struct Stats {
    alloc: Global,
    kind: StatKind,
    /// Whether there was no memory for a tree.
    spent: bool,
    streams: Streams,
    pairs: Pairs,
    paths: Paths,
}

impl Drop for Stats {
    fn drop(self) {
        let Stats {
            alloc: _,
            kind: _,
            spent: _,
            streams: _streams,
            pairs: _pairs,
            paths: _paths,
        } = self;
    }
}

impl Stats {
    /// No tree was noted. Takes no memory.
    #[tactic(auto, unfolding(crate::specs::Stands::Stands), using(crate::proofs::FewLemmas::few_none))]
    pub fn new(alloc: Global, kind: StatKind) -> Stats
        ensures stands { Stands [] result }
        ensures kind { kind_of result ≡ kind }
        ensures few { HasFew 0 result }
    {
        Stats {
            alloc,
            kind,
            spent: false,
            streams: Streams::new(alloc),
            pairs: Pairs::new(alloc),
            paths: Paths::new(alloc),
        }
    }

    /// Notes a tree, of at most 2^32 - 1, as many as frames have numbers: so each sum fits 64 bits. Where there is no memory for
    /// it, the statistics are given up: nothing more is noted, and there is no table.
    pub fn note(&mut self, tree: &Tree) -> Result<(), NoMemory>
        requires { HasFew (2 ^ 32 - 1) self.old }
        ensures stands { OnOk result ((past : List TreeShown) → Stands past self.old
            → Stands (tree.now ∷ past) self.new) }
        ensures spent { is_spent self.new ≡ is_spent self.old || is_err result }
        ensures refused { is_spent self.old ≡ true → IsErr result }
        ensures kind { kind_of self.new ≡ kind_of self.old }
        ensures few { (most : ℕ) → HasFew most self.old → HasFew (suc most) self.new }
    {
        self.note_source(&Source::of_tree(tree))
    }

    /// As `note`, by whatever answers for the tree.
    #[tactic(auto, unfolding(crate::specs::Stands::Stands))]
    pub fn note_source(&mut self, source: &Source<'_>) -> Result<(), NoMemory>
        requires { HasFew (2 ^ 32 - 1) self.old }
        ensures stands { OnOk result ((past : List TreeShown) → Stands past self.old
            → Stands (source.now ∷ past) self.new) }
        ensures spent { is_spent self.new ≡ is_spent self.old || is_err result }
        ensures refused { is_spent self.old ≡ true → IsErr result }
        ensures kind { kind_of self.new ≡ kind_of self.old }
        ensures few { (most : ℕ) → HasFew most self.old → HasFew (suc most) self.new }
    {
        if self.spent {
            return Err(NoMemory);
        }
        let noted = self.add(source);
        self.spent = noted.is_err();
        noted
    }

    #[tactic(auto, using(crate::proofs::FewLemmas::short_length))]
    fn add(&mut self, source: &Source<'_>) -> Result<(), NoMemory>
        requires { (past : List TreeShown) × HasNotes (kind_of self.old) past self.old
            × AreFew (2 ^ 32 - 1) past }
        ensures notes { OnOk result ((past : List TreeShown)
            → HasNotes (kind_of self.old) past self.old
            → HasNotes (kind_of self.old) (source.now ∷ past) self.new) }
        ensures spent { is_spent self.new ≡ is_spent self.old }
        ensures kind { kind_of self.new ≡ kind_of self.old }
        ensures short { length_of source.now.layers < 2 ^ 32 }
    {
        // What is true of each tree.
        let _lender = source.lender();
        match self.kind {
            StatKind::ConvTcp => add_stream(&mut self.streams, source),
            StatKind::ConvIp => add_pair(&mut self.pairs, source),
            StatKind::Phs => self.paths.add(source),
        }
    }

    /// The table of what was noted: a line with its name and how many lines follow, and these lines.
    #[tactic(auto, unfolding(crate::specs::Stands::Stands, crate::specs::Tables::table_of))]
    pub fn table(&self) -> Result<Vec<u8>, NoMemory>
        ensures table { IfOk result (λ text. (past : List TreeShown) → Stands past self.now
            → text.items ≡ table_of (kind_of self.now) past) }
        ensures refused { is_spent self.now ≡ true → IsErr result }
    {
        if self.spent {
            return Err(NoMemory);
        }
        match self.kind {
            StatKind::ConvTcp => self.streams.table(self.alloc),
            StatKind::ConvIp => self.pairs.table(self.alloc),
            StatKind::Phs => self.paths.table(self.alloc),
        }
    }
}

/// Notes the segment that a frame shows, if any.
fn add_stream(streams: &mut Streams, source: &Source<'_>) -> Result<(), NoMemory>
    requires few { (past : List TreeShown) × HasStreams (segments_of past) streams.old
        × AreFew (2 ^ 32 - 1) past }
    requires short { length_of source.now.layers < 2 ^ 32 }
    ensures { OnOk result ((notes : List (ℕ × FlightValue)) → HasStreams notes streams.old
        → HasStreams (with_note (segment_of source.now.layers) notes) streams.new) }
{
    match stream_in(source)? {
        Some((number, flight)) => streams.add(number, &flight),
        None => Ok(()),
    }
}

/// Notes the packet that a frame shows, if any.
fn add_pair(pairs: &mut Pairs, source: &Source<'_>) -> Result<(), NoMemory>
    requires few { (past : List TreeShown) × HasPairs (packets_of past) pairs.old
        × AreFew (2 ^ 32 - 1) past }
    requires short { length_of source.now.layers < 2 ^ 32 }
    ensures { OnOk result ((notes : List ((ℕ × ℕ) × FlightValue)) → HasPairs notes pairs.old
        → HasPairs (with_note (packet_of source.now.layers) notes) pairs.new) }
{
    match packet_in(source)? {
        Some(packet) => pairs.add(packet),
        None => Ok(()),
    }
}
