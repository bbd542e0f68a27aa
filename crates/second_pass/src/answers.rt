// The first later frame that answers each query of DNS, or request of HTTP.
ghost use Rattle.std.specs.Prelude.{◌≡◌, ◌&&◌, ℕ, nat_lt, if◌then◌else◌, Option, Some, None, OnOk};
ghost use Rattle.std.specs.Option.{option_or};
ghost use Rattle.std.specs.List.{list_any};
ghost use Rattle.second_pass.specs.Named.{answers, answered_by, is_response};
ghost use Rattle.second_pass.specs.Named.{is_query, same_query};
ghost use Rattle.second_pass.specs.Stands.{answer_in};

use crate::reading::{number_in, truth_in};
use indexmap::IndexMap;
use pk_base::NoMemory;
use pk_fields::ids;
use pk_tree::Layer;
use std::alloc::Global;

/// By the frame and the id of a query, the first later frame that answered it. For requests, by their number among a frame's
/// layers in place of the id.
pub(crate) struct Answers {
    pub all: IndexMap<(u64, u64), u32>,
}

impl Drop for Answers {
    fn drop(self) {
        let Answers { all: _all } = self;
    }
}

impl Answers {
    pub fn new(alloc: Global) -> Answers
        ensures { (query : ℕ × ℕ) → answer_in result query ≡ None }
    {
        Answers {
            all: IndexMap::new(alloc),
        }
    }

    pub fn find(&self, frame: u32, id: u64) -> Option<u32>
        ensures { result ≡ answer_in self.now (frame, id) }
    {
        self.all.get(&(u64::from(frame), id)).copied()
    }

    /// Notes the queries that layers of a later frame answer.
    pub fn note(&mut self, frame: u32, layers: &[Layer]) -> Result<(), NoMemory>
        ensures { OnOk result ((query : ℕ × ℕ) → answer_in self.new query
            ≡ option_or (answer_in self.old query)
            (if nat_lt query.0 frame && list_any (answers query) layers.now
            then Some frame else None)) }
    {
        let mut left = layers;
        while let [layer, more @ ..] = left {
            self.note_layer(frame, layer)?;
            left = more;
        }
        Ok(())
    }

    fn note_layer(&mut self, frame: u32, layer: &Layer) -> Result<(), NoMemory>
        ensures { OnOk result ((query : ℕ × ℕ) → answer_in self.new query
            ≡ option_or (answer_in self.old query)
            (if nat_lt query.0 frame && answers query layer.now then Some frame else None)) }
    {
        self.note_answered(frame, answered_by(layer))
    }

    /// Notes the query that a later frame answers, if it answers one.
    pub fn note_answered(
        &mut self,
        frame: u32,
        answered: Option<(u64, u64)>,
    ) -> Result<(), NoMemory>
        ensures { OnOk result ((query : ℕ × ℕ) → answer_in self.new query
            ≡ option_or (answer_in self.old query)
            (if nat_lt query.0 frame && is_query query answered then Some frame else None)) }
    {
        match answered {
            Some(query) => self.note_query(frame, query),
            None => Ok(()),
        }
    }

    fn note_query(&mut self, frame: u32, answered: (u64, u64)) -> Result<(), NoMemory>
        ensures { OnOk result ((query : ℕ × ℕ) → answer_in self.new query
            ≡ option_or (answer_in self.old query)
            (if nat_lt query.0 frame && same_query answered query then Some frame else None)) }
    {
        if answered.0 >= u64::from(frame) {
            return Ok(());
        }
        if self.all.contains_key(&answered) {
            return Ok(());
        }
        self.all.insert(answered, frame)?;
        Ok(())
    }
}

/// The query that a layer is a response to, by its frame and id.
fn answered_by(layer: &Layer) -> Option<(u64, u64)>
    ensures { result ≡ answered_by layer.now }
{
    if !is_response(layer) {
        return None;
    }
    let frame = number_in(layer, ids::DNS_RESPONSE_TO)?;
    let id = number_in(layer, ids::DNS_ID)?;
    Some((frame, id))
}

fn is_response(layer: &Layer) -> bool
    ensures { result ≡ is_response layer.now }
{
    if layer.proto != ids::DNS {
        return false;
    }
    truth_in(layer, ids::DNS_FLAGS_RESPONSE).unwrap_or(false)
}
