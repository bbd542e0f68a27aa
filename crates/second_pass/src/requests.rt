// The requests of HTTP, as their responses ask for them.
ghost use Rattle.std.specs.Prelude.{◌≡◌, ◌++◌, ◌∷◌, [], ℕ, if◌then◌else◌, length, None, Some, OnOk};
ghost use Rattle.std.specs.Option.{option_or};
ghost use Rattle.second_pass.specs.Named.{same_query};
ghost use Rattle.second_pass.specs.Stands.{asked_in, place_in};

use indexmap::IndexMap;
use pk_base::NoMemory;
use std::alloc::Global;

#[derive(Clone, Copy)]
pub(crate) struct Asked {
    /// The place of its direction among those that sent requests.
    pub place: usize,
    /// Which of its frame's layers of HTTP it is, from 1.
    pub nth: u32,
}

/// The requests in their order. They are found by their frame, and the number of requests that their direction had before.
pub(crate) struct Requests {
    pub asked: Vec<Asked>,
    pub places: IndexMap<(u64, u64), usize>,
}

impl Drop for Requests {
    fn drop(self) {
        let Requests {
            asked: _asked,
            places: _places,
        } = self;
    }
}

impl Requests {
    pub fn new(alloc: Global) -> Requests
        ensures asked { result.asked.items ≡ [] }
        ensures places { (key : ℕ × ℕ) → place_in result key ≡ None }
    {
        Requests {
            asked: Vec::new(alloc),
            places: IndexMap::new(alloc),
        }
    }

    pub fn find(&self, frame: u64, number: u64) -> Option<Asked>
        ensures { result ≡ asked_in self.now (frame, number) }
    {
        let place = self.places.get(&(frame, number)).copied()?;
        self.asked.get(place).copied()
    }

    pub fn note(&mut self, frame: u32, number: u64, asked: Asked) -> Result<(), NoMemory>
        ensures asked { OnOk result (self.new.asked.items ≡ self.old.asked.items ++ asked ∷ []) }
        ensures places { OnOk result ((key : ℕ × ℕ) → place_in self.new key
            ≡ option_or (place_in self.old key)
            (if same_query (frame, number) key then Some (length self.old.asked.items)
            else None)) }
    {
        let place = self.asked.len();
        self.asked.push(asked)?;
        self.note_place((u64::from(frame), number), place)
    }

    /// Notes the place of a request, if it is the first of its key.
    fn note_place(&mut self, key: (u64, u64), place: usize) -> Result<(), NoMemory>
        ensures asked { self.new.asked ≡ self.old.asked }
        ensures places { OnOk result ((other : ℕ × ℕ) → place_in self.new other
            ≡ option_or (place_in self.old other)
            (if same_query key other then Some place else None)) }
    {
        if self.places.contains_key(&key) {
            return Ok(());
        }
        self.places.insert(key, place)?;
        Ok(())
    }
}
