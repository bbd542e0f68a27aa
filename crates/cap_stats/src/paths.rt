// Paths of protocols, by their texts.
ghost use Rattle.std.specs.Prelude.{◌≡◌, ◌==◌, ◌-◌, ◌^◌, ◌<◌, ◌≤◌, ℕ, Option, None, Some, true, false, List, [], ◌∷◌, ◌++◌, length, min, take, codes, if◌then◌else◌, IfOk, IfSome, OnOk};
ghost use Rattle.std.specs.BTreeMap.{get_by_text, keys};
ghost use Rattle.std.specs.List.{flat_map, slice_get};
ghost use Rattle.std.specs.String.{string_bytes};
ghost use Rattle.pk_fields.specs.Fields.{row_of};
ghost use Rattle.pk_tree.specs.Trees.{TreeShown};
ghost use Rattle.cap_stats.specs.Few.{AreFew, HasRoom, HaveRoom};
ghost use Rattle.cap_stats.specs.Stands.{HasPaths, recent_of, tally_at};
ghost use Rattle.cap_stats.specs.Tables.{paths_of, paths_table, path_line};
ghost use Rattle.cap_stats.specs.Told.{length_of as bytes_of, path_of, paths_in, paths_to, protocols_in};

use crate::counts::{Tally, tally_after};
use crate::lines::{begin_table, put_count};
use crate::shown::length_of;
use pk_base::NoMemory;
use pk_fields::{FieldId, name};
use pk_source::Source;
use pk_text::TextSink;
use std::alloc::Global;
use std::collections::BTreeMap;

/// How many of a frame's layers are looked at.
const LAYERS: usize = 32;

/// A layer of an earlier frame, and the place of the tally of the path that ends with it.
#[derive(Clone, Copy)]
pub(crate) struct Step {
    pub proto: FieldId,
    pub place: usize,
}

/// The frames of each path. Most frames have the layers of an earlier one: where they do, no text is made or looked for.
pub(crate) struct Paths {
    pub alloc: Global,
    /// The places of the paths' tallies.
    pub all: BTreeMap<String, usize>,
    pub tallies: Vec<Tally>,
    /// Layers of an earlier frame, from its first on.
    pub recent: Vec<Step>,
}

impl Drop for Paths {
    fn drop(self) {
        let Paths {
            alloc: _,
            all: _all,
            tallies: _tallies,
            recent: _recent,
        } = self;
    }
}

impl Paths {
    #[tactic(auto, unfolding(crate::specs::Counts::sizes_tally, crate::specs::Keys::texts_in))]
    pub fn new(alloc: Global) -> Paths
        ensures { HasPaths [] result }
    {
        Paths {
            alloc,
            all: BTreeMap::new(alloc),
            tallies: Vec::new(alloc),
            recent: Vec::new(alloc),
        }
    }

    /// Notes the paths that a frame's layers show.
    pub fn add(&mut self, source: &Source<'_>) -> Result<(), NoMemory>
        requires few { (past : List TreeShown) × HasPaths (paths_of past) self.old
            × AreFew (2 ^ 32 - 1) past }
        requires short { bytes_of source.now.layers < 2 ^ 32 }
        ensures { OnOk result ((notes : List (List ℕ × ℕ)) → HasPaths notes self.old
            → HasPaths (paths_in source.now.layers ++ notes) self.new) }
    {
        let bytes = length_of(source)?;
        let count = LAYERS.min(source.layer_count());
        let known = self.add_known(source, count, bytes);
        if known == count {
            return Ok(());
        }
        self.add_rest(source, known, count, bytes)
    }

    /// Notes the paths that begin as those of an earlier frame, and answers how many they are.
    fn add_known(&mut self, source: &Source<'_>, count: usize, bytes: u64) -> usize
        requires known { (notes : List (List ℕ × ℕ)) × HasPaths notes self.old × HaveRoom notes }
        requires short { bytes < 2 ^ 32 }
        requires count { count ≡ min 32 (length source.now.layers) }
        ensures noted { (notes : List (List ℕ × ℕ)) → HasPaths notes self.old
            → HasPaths (paths_to bytes (protocols_in source.now.layers) result ++ notes) self.new }
        ensures same { take result (recent_of self.new) ≡ take result (protocols_in source.now.layers) }
        ensures within { (result ≤ count) × (result ≤ length (recent_of self.new)) }
    {
        for place in 0..count {
            match self.known(place, source.protocol(place)) {
                Some(tally) => self.raise(tally, bytes),
                None => return place,
            }
        }
        count
    }

    /// The place of the tally of the path that ends with a layer at a place, if it was of this protocol in an earlier frame.
    fn known(&self, place: usize, proto: FieldId) -> Option<usize>
        ensures { IfSome result (λ tally. slice_get self.now.recent.items place
            ≡ Some (record { proto = proto; place = tally })) }
    {
        match self.recent.get(place) {
            Some(step) if step.proto == proto => Some(step.place),
            _ => None,
        }
    }

    /// Notes a frame of the path whose tally has a place.
    fn raise(&mut self, place: usize, bytes: u64)
        requires within { place < length self.old.tallies.items }
        requires room { IfSome (slice_get self.old.tallies.items place) HasRoom }
        requires short { bytes < 2 ^ 32 }
        ensures raised { (path : List ℕ) → get_by_text self.old.all path ≡ Some place
            → (notes : List (List ℕ × ℕ)) → HasPaths notes self.old
            → HasPaths ((path, bytes) ∷ notes) self.new }
        ensures all { self.new.all ≡ self.old.all }
        ensures recent { self.new.recent ≡ self.old.recent }
    {
        let tally = self.tallies[place];
        self.tallies[place] = tally_after(Some(tally), bytes);
    }

    /// Notes the paths from one of some layers on, whose texts are made and looked for.
    fn add_rest(
        &mut self,
        source: &Source<'_>,
        known: usize,
        count: usize,
        bytes: u64,
    ) -> Result<(), NoMemory>
        requires known { (notes : List (List ℕ × ℕ))
            × HasPaths (paths_to bytes (protocols_in source.now.layers) known ++ notes) self.old
            × HaveRoom notes }
        requires same { take known (recent_of self.old) ≡ take known (protocols_in source.now.layers) }
        requires within { known ≤ count }
        requires short { bytes < 2 ^ 32 }
        requires count { count ≡ min 32 (length source.now.layers) }
        ensures { OnOk result ((notes : List (List ℕ × ℕ))
            → HasPaths (paths_to bytes (protocols_in source.now.layers) known ++ notes) self.old
            → HasPaths (paths_to bytes (protocols_in source.now.layers) count ++ notes) self.new) }
    {
        self.forget(known);
        let mut path = path_to(self.alloc, source, known)?;
        for place in known..count {
            let proto = source.protocol(place);
            extend_path(&mut path, place, proto)?;
            self.add_step(path.as_str(), proto, bytes)?;
        }
        Ok(())
    }

    /// Forgets the layers from a place on.
    fn forget(&mut self, count: usize)
        ensures same { (notes : List (List ℕ × ℕ)) → HasPaths notes self.old → HasPaths notes self.new }
        ensures recent { recent_of self.new ≡ take count (recent_of self.old) }
    {
        self.recent.truncate(count);
    }

    /// Notes a frame of a path that ends with one more layer than those that are remembered, and remembers it too.
    fn add_step(&mut self, path: &str, proto: FieldId, bytes: u64) -> Result<(), NoMemory>
        requires known { (notes : List (List ℕ × ℕ)) × HasPaths notes self.old }
        requires room { IfSome (tally_at self.old path.now) HasRoom }
        requires short { bytes < 2 ^ 32 }
        requires ends { path.now ≡ path_of (recent_of self.old ++ proto ∷ []) }
        ensures noted { OnOk result ((notes : List (List ℕ × ℕ)) → HasPaths notes self.old
            → HasPaths ((path.now, bytes) ∷ notes) self.new) }
        ensures recent { OnOk result (recent_of self.new ≡ recent_of self.old ++ proto ∷ []) }
    {
        let place = self.add_path(path, bytes)?;
        self.recent.push(Step { proto, place })?;
        Ok(())
    }

    /// Notes a frame of a path, and answers the place of its tally.
    fn add_path(&mut self, path: &str, bytes: u64) -> Result<usize, NoMemory>
        requires known { (notes : List (List ℕ × ℕ)) × HasPaths notes self.old }
        requires room { IfSome (tally_at self.old path.now) HasRoom }
        requires short { bytes < 2 ^ 32 }
        ensures noted { OnOk result ((notes : List (List ℕ × ℕ)) → HasPaths notes self.old
            → HasPaths ((path.now, bytes) ∷ notes) self.new) }
        ensures place { IfOk result (λ place. get_by_text self.new.all path.now ≡ Some place) }
        ensures recent { self.new.recent ≡ self.old.recent }
    {
        match self.place_of(path) {
            Some(place) => {
                self.raise(place, bytes);
                Ok(place)
            }
            None => self.put(path, bytes),
        }
    }

    fn place_of(&self, path: &str) -> Option<usize>
        ensures { result ≡ get_by_text self.now.all path.now }
    {
        self.all.get(path).copied()
    }

    /// Notes the first frame of a path, and answers the place of its tally.
    fn put(&mut self, path: &str, bytes: u64) -> Result<usize, NoMemory>
        requires absent { get_by_text self.old.all path.now ≡ None }
        requires short { bytes < 2 ^ 32 }
        ensures noted { OnOk result ((notes : List (List ℕ × ℕ)) → HasPaths notes self.old
            → HasPaths ((path.now, bytes) ∷ notes) self.new) }
        ensures place { IfOk result (λ place. get_by_text self.new.all path.now ≡ Some place) }
        ensures recent { self.new.recent ≡ self.old.recent }
    {
        let place = self.tallies.len();
        let key = String::from_str(self.alloc, path)?;
        self.all.insert(key, place)?;
        self.tallies.push(tally_after(None, bytes))?;
        Ok(place)
    }

    /// What is counted of a path.
    fn counted(&self, path: &str) -> Option<Tally>
        ensures { result ≡ tally_at self.now path.now }
    {
        let place = self.place_of(path)?;
        self.tallies.get(place).copied()
    }

    /// The table, with a line for each path.
    pub fn table(&self, alloc: Global) -> Result<Vec<u8>, NoMemory>
        ensures { IfOk result (λ text. (notes : List (List ℕ × ℕ)) → HasPaths notes self.now
            → text.items ≡ paths_table notes) }
    {
        let mut text = begin_table(alloc, "phs ", self.all.len())?;
        put_paths(&mut text, self)?;
        Ok(text)
    }
}

/// The path that ends with the last of so many layers.
fn path_to(alloc: Global, source: &Source<'_>, count: usize) -> Result<String, NoMemory>
    requires { count ≤ min 32 (length source.now.layers) }
    ensures { IfOk result (λ path.
        string_bytes path ≡ path_of (take count (protocols_in source.now.layers))) }
{
    let mut path = String::new(alloc);
    for place in 0..count {
        extend_path(&mut path, place, source.protocol(place))?;
    }
    Ok(path)
}

/// Appends a line for each path.
fn put_paths(text: &mut Vec<u8>, paths: &Paths) -> Result<(), NoMemory>
    ensures { OnOk result (text.new.items
        ≡ text.old.items
        ++ flat_map (λ k. path_line (string_bytes k) (tally_at paths.now (string_bytes k)))
        (keys paths.now.all)) }
{
    for path in paths.all.keys() {
        put_path(text, path.as_str(), paths.counted(path.as_str()))?;
    }
    Ok(())
}

/// A path with one more protocol.
fn extend_path(path: &mut String, place: usize, proto: FieldId) -> Result<(), NoMemory>
    ensures { OnOk result (string_bytes path.new
        ≡ string_bytes path.old ++ ((if place == 0 then [] else codes ":") ++ (row_of proto).name)) }
{
    if place > 0 {
        path.put_text(":")?;
    }
    path.put_text(name(proto))
}

fn put_path(text: &mut Vec<u8>, path: &str, tally: Option<Tally>) -> Result<(), NoMemory>
    ensures { OnOk result (text.new.items
        ≡ text.old.items ++ path_line path.now tally) }
{
    match tally {
        None => Ok(()),
        Some(tally) => {
            text.put_text(path)?;
            put_count(text, " frames ", tally.frames)?;
            put_count(text, " bytes ", tally.bytes)?;
            text.put_text("\n")
        }
    }
}
