ghost use Rattle.std.specs.Prelude.{◌≡◌, ◌||◌, ◌<◌, ◌≤◌, ◌+◌, ◌-◌, ℕ, true, if◌then◌else◌, List, [], ◌∷◌, length, count_by, drop, slice_get, Some, IsErr, IfSome, OnOk, OnErr, is_err};
ghost use Rattle.pk_fields.specs.Fields.{row_of};
ghost use Rattle.pk_fields.specs.Ids.{DNS_FLAGS_RESPONSE, DNS_ID, HTTP, TCP};
ghost use Rattle.pk_fields.specs.declared.value_kind.ValueKind.TheVariants as kinds;
ghost use Rattle.pk_tree.specs.declared.layer.Layer.{Layer as LayerValue};
ghost use Rattle.pk_tree.specs.Trees.{proto_at};
ghost use Rattle.second_pass.specs.Forward.{forwarded, forwarded_to, answer_to, link_in, link_of, request_link, segment_link, with_link_at, is_part as is_part_layer};
ghost use Rattle.second_pass.specs.Named.{Noted, noted_as, number_in, truth_in};
ghost use Rattle.second_pass.specs.Others.{is_named};
ghost use Rattle.second_pass.specs.Stands.{Stands, HasLinks, is_spent};

use crate::answers::Answers;
use crate::exchanges::Exchanges;
use crate::firsts::Firsts;
use crate::messages::{Kind, kind_of};
use crate::reading::{number_in, truth_in};
use pk_base::{NoMemory, Value};
use pk_fields::{FieldId, ids};
use pk_tree::{Layer, Tree};
use std::alloc::Global;

/// The links between frames that were noted: tens of bytes for each link and each request of HTTP, and none for other frames.
pub struct Links {
    /// Whether there was no memory for a frame.
    spent: bool,
    fragments: Firsts,
    fragments6: Firsts,
    segments: Firsts,
    answers: Answers,
    exchanges: Exchanges,
}

// The destructor is written out here, and not wherever links are dropped; those of the tables likewise.
impl Drop for Links {
    fn drop(self) {
        let Links {
            spent: _,
            fragments: _fragments,
            fragments6: _fragments6,
            segments: _segments,
            answers: _answers,
            exchanges: _exchanges,
        } = self;
    }
}

impl Links {
    /// No frame was noted. Takes no memory.
    #[tactic(auto, unfolding(crate::specs::Stands::Stands))]
    pub fn new(alloc: Global) -> Links
        ensures { Stands [] result }
    {
        Links {
            spent: false,
            fragments: Firsts::new(alloc),
            fragments6: Firsts::new(alloc),
            segments: Firsts::new(alloc),
            answers: Answers::new(alloc),
            exchanges: Exchanges::new(alloc),
        }
    }

    /// Notes the tree of a frame. The frames come in their order. Where there is no memory for it, the links are given up.
    #[tactic(auto, unfolding(crate::specs::Stands::Stands))]
    pub fn note(&mut self, frame: u32, tree: &Tree) -> Result<(), NoMemory>
        ensures stands { OnOk result ((past : List Noted) → Stands past self.old
            → Stands (noted_as frame tree.now ∷ past) self.new) }
        ensures spent { is_spent self.new ≡ is_spent self.old || is_err result }
        ensures refused { is_spent self.old ≡ true → IsErr result }
    {
        if self.spent {
            return Err(NoMemory);
        }
        let noted = self.add(frame, tree);
        self.spent = noted.is_err();
        noted
    }

    fn add(&mut self, frame: u32, tree: &Tree) -> Result<(), NoMemory>
        ensures links { OnOk result ((past : List Noted) → HasLinks past self.old
            → HasLinks (noted_as frame tree.now ∷ past) self.new) }
        ensures spent { is_spent self.new ≡ is_spent self.old }
    {
        let layers = tree.layers();
        self.fragments.note(frame, ids::IP_FRAGMENT, layers)?;
        self.fragments6.note(frame, ids::IPV6_FRAGMENT, layers)?;
        self.segments.note(frame, ids::TCP_SEGMENT, layers)?;
        self.answers.note(frame, layers)?;
        self.exchanges.note(frame, layers)
    }

    /// Whether a later frame names this one among those that brought its bytes.
    #[tactic(auto, unfolding(crate::specs::Stands::Stands))]
    pub fn is_named(&self, frame: u32) -> bool
        ensures { (past : List Noted) → Stands past self.now → result ≡ is_named past frame }
    {
        self.fragments.find(frame).is_some()
            || self.fragments6.find(frame).is_some()
            || self.segments.find(frame).is_some()
    }

    /// Adds the links of a frame to later ones to its tree. Where there is no memory for all, the first of them are added.
    #[tactic(auto, unfolding(crate::specs::Stands::Stands))]
    pub fn forward(&self, frame: u32, tree: &mut Tree) -> Result<(), NoMemory>
        ensures forward { OnOk result ((past : List Noted) → Stands past self.now
            → tree.new ≡ forwarded past frame tree.old) }
        ensures first { OnErr result ((past : List Noted) → Stands past self.now
            → (count : ℕ) × (tree.new ≡ forwarded_to past frame count tree.old)) }
        ensures refused { is_spent self.now ≡ true → IsErr result }
    {
        if self.spent {
            return Err(NoMemory);
        }
        self.add_links(frame, tree)
    }

    /// Whether a part's header stands behind a layer is told by how many are left.
    fn add_links(&self, frame: u32, tree: &mut Tree) -> Result<(), NoMemory>
        ensures forward { OnOk result ((past : List Noted) → HasLinks past self.now
            → tree.new ≡ forwarded past frame tree.old) }
        ensures first { OnErr result ((past : List Noted) → HasLinks past self.now
            → (count : ℕ) × (tree.new ≡ forwarded_to past frame count tree.old)) }
    {
        let mut parts = part_count(tree.layers());
        let count = tree.layers().len();
        for at in 0..count {
            parts = parts_behind(parts, &tree.layers()[at]);
            self.add_link(frame, tree, at, parts > 0)?;
        }
        Ok(())
    }

    /// Adds the link of a layer, if it has one.
    fn add_link(
        &self,
        frame: u32,
        tree: &mut Tree,
        at: usize,
        followed: bool,
    ) -> Result<(), NoMemory>
        requires { at < length tree.old.layers }
        ensures ok { OnOk result ((past : List Noted) (layer : LayerValue) → HasLinks past self.now
            → slice_get tree.old.layers at ≡ Some layer
            → tree.new ≡ with_link_at tree.old at (link_of past frame followed layer)) }
        ensures behind { OnOk result (drop (at + 1) tree.new.layers
            ≡ drop (at + 1) tree.old.layers) }
        ensures err { OnErr result (tree.new ≡ tree.old) }
        ensures count { length tree.new.layers ≡ length tree.old.layers }
    {
        let link = self.link_of(frame, &tree.layers()[at], followed);
        put_link(tree, at, link)
    }

    /// The link of a layer: the field that shows it, and the later frame.
    #[tactic(auto, unfolding(pk_fields::specs::Fields::row_of, pk_fields::specs::Table::rows))]
    fn link_of(&self, frame: u32, layer: &Layer, followed: bool) -> Option<(FieldId, u32)>
        ensures link { (past : List Noted) → HasLinks past self.now
            → result ≡ link_of past frame followed layer.now }
        ensures belongs { IfSome result (λ link. (row_of link.0).proto ≡ layer.now.proto) }
        ensures kind { IfSome result (λ link. (row_of link.0).kind ≡ kinds.Uint 32) }
    {
        if layer.proto == ids::DNS {
            return shown(ids::DNS_RESPONSE_IN, self.answer_to(frame, layer));
        }
        if layer.proto == ids::HTTP {
            return self.request_link(frame, layer);
        }
        if layer.proto == ids::TCP {
            return self.segment_link(frame, layer);
        }
        if followed {
            return None;
        }
        if layer.proto == ids::IP {
            return shown(ids::IP_REASSEMBLED_IN, self.fragments.find(frame));
        }
        if layer.proto == ids::IPV6_FRAGHDR {
            return shown(ids::IPV6_REASSEMBLED_IN, self.fragments6.find(frame));
        }
        None
    }

    /// The link of a request of HTTP.
    #[tactic(auto, unfolding(pk_fields::specs::Fields::row_of, pk_fields::specs::Table::rows))]
    fn request_link(&self, frame: u32, layer: &Layer) -> Option<(FieldId, u32)>
        ensures link { (past : List Noted) → HasLinks past self.now
            → result ≡ request_link past frame layer.now }
        ensures belongs { IfSome result (λ link. (row_of link.0).proto ≡ HTTP) }
        ensures kind { IfSome result (λ link. (row_of link.0).kind ≡ kinds.Uint 32) }
    {
        match kind_of(layer) {
            Some(Kind::Request) => shown(
                ids::HTTP_RESPONSE_IN,
                self.exchanges.find(frame, layer.nth),
            ),
            _ => None,
        }
    }

    /// The link of a TCP header, which the first one of a frame has.
    #[tactic(auto, unfolding(pk_fields::specs::Fields::row_of, pk_fields::specs::Table::rows))]
    fn segment_link(&self, frame: u32, layer: &Layer) -> Option<(FieldId, u32)>
        ensures link { (past : List Noted) → HasLinks past self.now
            → result ≡ segment_link past frame layer.now }
        ensures belongs { IfSome result (λ link. (row_of link.0).proto ≡ TCP) }
        ensures kind { IfSome result (λ link. (row_of link.0).kind ≡ kinds.Uint 32) }
    {
        if layer.nth != 1 {
            return None;
        }
        shown(ids::TCP_REASSEMBLED_IN, self.segments.find(frame))
    }

    /// The first later frame that answers a query.
    fn answer_to(&self, frame: u32, layer: &Layer) -> Option<u32>
        ensures { (past : List Noted) → HasLinks past self.now → result ≡ answer_to past frame
            (truth_in DNS_FLAGS_RESPONSE layer.now) (number_in DNS_ID layer.now) }
    {
        match (
            truth_in(layer, ids::DNS_FLAGS_RESPONSE),
            number_in(layer, ids::DNS_ID),
        ) {
            (Some(false), Some(id)) => self.answers.find(frame, id),
            _ => None,
        }
    }
}

/// Adds a link to the layer at a place, if there is one.
#[tactic(auto, using(crate::proofs::LinkLemmas::made_behind))]
fn put_link(tree: &mut Tree, at: usize, link: Option<(FieldId, u32)>) -> Result<(), NoMemory>
    requires layer { at < length tree.old.layers }
    requires belongs { IfSome link (λ l. (row_of l.0).proto ≡ proto_at tree.old.layers at) }
    requires kind { IfSome link (λ l. (row_of l.0).kind ≡ kinds.Uint 32) }
    ensures ok { OnOk result (tree.new ≡ with_link_at tree.old at link) }
    ensures behind { OnOk result (drop (at + 1) tree.new.layers
        ≡ drop (at + 1) tree.old.layers) }
    ensures err { OnErr result (tree.new ≡ tree.old) }
    ensures count { length tree.new.layers ≡ length tree.old.layers }
{
    match link {
        Some((field, number)) => tree.add_made(at, field, Value::Uint(u64::from(number))),
        None => Ok(()),
    }
}

fn shown(field: FieldId, frame: Option<u32>) -> Option<(FieldId, u32)>
    ensures link { result ≡ link_in field frame }
    ensures field { IfSome result (λ link. link.0 ≡ field) }
{
    Some((field, frame?))
}

/// How many parts stand behind a layer, of those that stand at or behind it.
fn parts_behind(parts: usize, layer: &Layer) -> usize
    requires { is_part_layer layer.now ≡ true → 0 < parts }
    ensures { result ≡ parts - (if is_part_layer layer.now then 1 else 0) }
{
    if is_part(layer) { parts - 1 } else { parts }
}

fn part_count(layers: &[Layer]) -> usize
    ensures { result ≡ count_by is_part_layer layers.now }
{
    let mut count = 0;
    for at in 0..layers.len() {
        count += weight(&layers[at]);
    }
    count
}

/// One for a part's header.
fn weight(layer: &Layer) -> usize
    ensures value { result ≡ (if is_part_layer layer.now then 1 else 0) }
    ensures most { result ≤ 1 }
{
    if is_part(layer) { 1 } else { 0 }
}

/// Whether a layer is the header of a datagram's part.
#[tactic(auto, unfolding(crate::specs::Forward::is_part))]
fn is_part(layer: &Layer) -> bool
    ensures { result ≡ is_part_layer layer.now }
{
    layer.proto == ids::IP || layer.proto == ids::IPV6_FRAGHDR
}
