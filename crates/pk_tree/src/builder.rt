ghost use Rattle.std.specs.Prelude.{◌≡◌, ℕ, ◌+◌, ◌-◌, ◌<◌, ◌≤◌, ◌^◌, false, [], ◌∷◌, ◌++◌, length, IfOk, IsTrue, OnErr, OnOk};
ghost use Rattle.pk_tree.specs.Buffers.{IsInside, bytes_of, buffer_of};
ghost use Rattle.pk_fields.specs.Fields.{row_of};
ghost use Rattle.pk_fields.specs.FieldSets.{is_in, every_field};
ghost use Rattle.pk_tree.specs.Trees.{IsTree, ItemFits, PlaceFits, last_proto, with_layer, with_item, with_last, with_buffer, read_of, derived_of, made_of};
ghost use Rattle.pk_tree.specs.Values.{IsOfKind, IsProtocol, HasSize, is_read};

use crate::buffers::Buffers;
use crate::item::{Item, Items, Place};
use crate::layer::{Layer, next_number, push_last};
use crate::reading::read_value;
use crate::spare::Spare;
use crate::tree::Tree;
use pk_base::{NoMemory, Octets, Span, Value};
use pk_fields::{FieldId, FieldSet};
use std::alloc::Global;
use std::marker::Model;

/// A layer of so few items has room for all of them from the start.
const FEW_ITEMS: usize = 8;

/// A tree that is being built. Items are added to the last layer.
pub struct TreeBuilder {
    layers: Vec<Layer>,
    /// Lists for the items of layers to come.
    lists: Vec<Items>,
    buffers: Buffers,
    wanted: FieldSet,
    alloc: Global,
}

impl Drop for TreeBuilder {
    fn drop(self) {
        let TreeBuilder {
            layers: _layers,
            lists: _lists,
            buffers: _buffers,
            wanted: _,
            alloc: _,
        } = self;
    }
}

impl Model for TreeBuilder {
    ghost use Rattle.pk_tree.specs.Trees.{TreeShown, IsTree};

    ghost Value = { TreeShown };

    ghost view = { λ t. record {
      layers = t.layers.items;
      buffers = t.buffers;
      wanted = t.wanted;
    } };

    ghost invariant = { λ t.
        IsTree (record { layers = t.layers.items; buffers = t.buffers; wanted = t.wanted }) };
}

impl TreeBuilder {
    /// A tree without layers, whose first buffer is the frame's bytes.
    pub fn new(alloc: Global, frame: Octets) -> Result<TreeBuilder, NoMemory>
        requires { length frame < 2 ^ 32 }
        ensures { IfOk result (λ t.
            t ≡ record { layers = []; buffers = frame ∷ []; wanted = every_field }) }
    {
        TreeBuilder::keeping(alloc, frame, FieldSet::all())
    }

    /// As `new`, for a tree that has only the items of the wanted fields.
    pub fn keeping(alloc: Global, frame: Octets, wanted: FieldSet) -> Result<TreeBuilder, NoMemory>
        requires { length frame < 2 ^ 32 }
        ensures { IfOk result (λ t.
            t ≡ record { layers = []; buffers = frame ∷ []; wanted = wanted }) }
    {
        TreeBuilder::again(Spare::new(alloc), frame, wanted)
    }

    /// As `keeping`, in the memory of an earlier tree.
    pub fn again(spare: Spare, frame: Octets, wanted: FieldSet) -> Result<TreeBuilder, NoMemory>
        requires { length frame < 2 ^ 32 }
        ensures { IfOk result (λ t.
            t ≡ record { layers = []; buffers = frame ∷ []; wanted = wanted }) }
    {
        let mut spare = spare;
        match spare.begin(frame) {
            Ok(()) => Ok(spare.into_builder(wanted)),
            Err(NoMemory) => {
                let_spare_go(spare);
                Err(NoMemory)
            }
        }
    }

    pub(crate) fn from_parts(
        layers: Vec<Layer>,
        lists: Vec<Items>,
        buffers: Buffers,
        wanted: FieldSet,
        alloc: Global,
    ) -> TreeBuilder
        requires { IsTree (record { layers = layers.items; buffers = buffers; wanted = wanted }) }
        ensures { result ≡ record { layers = layers.items; buffers = buffers; wanted = wanted } }
    {
        TreeBuilder {
            layers,
            lists,
            buffers,
            wanted,
            alloc,
        }
    }

    /// Whether the items of a field are kept.
    pub fn wants(&self, field: FieldId) -> bool
        ensures { result ≡ is_in self.now.wanted field }
    {
        self.wanted.contains(field)
    }

    /// Whether items of a protocol's fields may be kept.
    pub fn asks(&self, protocol: FieldId) -> bool
        ensures { result ≡ false → (f : ℕ) → (row_of f).proto ≡ protocol
            → is_in self.now.wanted f ≡ false }
    {
        self.wanted.has_any_of(protocol)
    }

    /// Adds a layer without items behind the others.
    pub fn open_layer(&mut self, proto: FieldId, span: Span) -> Result<(), NoMemory>
        requires inside { IsInside self.old.buffers span }
        requires proto { IsProtocol proto }
        requires room { length self.old.layers + 1 < 2 ^ 32 }
        ensures ok { OnOk result (self.new ≡ with_layer self.old proto span []) }
        ensures err { OnErr result (self.new ≡ self.old) }
        ensures buffers { self.new.buffers ≡ self.old.buffers }
        ensures count { OnOk result (length self.new.layers ≡ length self.old.layers + 1) }
        ensures last { OnOk result (last_proto self.new.layers ≡ proto) }
    {
        self.open_with_room(proto, span, 0)
    }

    /// As `open_layer`, with room for so many items, but not for more than fields are wanted.
    pub(crate) fn open_with_room(
        &mut self,
        proto: FieldId,
        span: Span,
        items: usize,
    ) -> Result<(), NoMemory>
        requires inside { IsInside self.old.buffers span }
        requires proto { IsProtocol proto }
        requires room { length self.old.layers + 1 < 2 ^ 32 }
        ensures ok { OnOk result (self.new ≡ with_layer self.old proto span []) }
        ensures err { OnErr result (self.new ≡ self.old) }
        ensures buffers { self.new.buffers ≡ self.old.buffers }
        ensures count { OnOk result (length self.new.layers ≡ length self.old.layers + 1) }
        ensures last { OnOk result (last_proto self.new.layers ≡ proto) }
    {
        let room = self.room_for(items);
        let layer = Layer {
            proto,
            nth: next_number(&self.layers, proto),
            span,
            items: empty_list(self.alloc, &mut self.lists, room)?,
        };
        self.layers.push(layer)?;
        Ok(())
    }

    /// How many of so many items there is room for from the start: of one field there may be several, which is rare.
    fn room_for(&self, items: usize) -> usize
        ensures { result ≤ items }
    {
        if items <= FEW_ITEMS {
            items
        } else {
            items.min(self.wanted.count())
        }
    }

    /// Adds the item that a field's row reads in a span, if the field is wanted.
    #[inline(always)]
    #[tactic(auto, unfolding(crate::specs::Trees::with_item))]
    pub fn read_item(&mut self, field: FieldId, span: Span) -> Result<(), NoMemory>
        requires inside { IsInside self.old.buffers span }
        requires read { IsTrue (is_read (row_of field)) }
        requires size { HasSize (row_of field).bits span.len }
        requires layer { 0 < length self.old.layers }
        requires belongs { (row_of field).proto ≡ last_proto self.old.layers }
        ensures ok { OnOk result (self.new
            ≡ with_item self.old (read_of self.old.buffers field span)) }
        ensures err { OnErr result (self.new ≡ self.old) }
        ensures buffers { self.new.buffers ≡ self.old.buffers }
        ensures count { length self.new.layers ≡ length self.old.layers }
        ensures last { last_proto self.new.layers ≡ last_proto self.old.layers }
    {
        if !self.wants(field) {
            return Ok(());
        }
        self.read_wanted(field, span)
    }

    /// As `read_item`, of a field that is wanted.
    #[inline(never)]
    fn read_wanted(&mut self, field: FieldId, span: Span) -> Result<(), NoMemory>
        requires inside { IsInside self.old.buffers span }
        requires read { IsTrue (is_read (row_of field)) }
        requires size { HasSize (row_of field).bits span.len }
        requires layer { 0 < length self.old.layers }
        requires belongs { (row_of field).proto ≡ last_proto self.old.layers }
        ensures ok { OnOk result (self.new
            ≡ with_last self.old (read_of self.old.buffers field span)) }
        ensures err { OnErr result (self.new ≡ self.old) }
        ensures buffers { self.new.buffers ≡ self.old.buffers }
        ensures count { length self.new.layers ≡ length self.old.layers }
        ensures last { last_proto self.new.layers ≡ last_proto self.old.layers }
    {
        let value = read_value(&self.buffers, field, span)?;
        let item = Item {
            field,
            value,
            place: Place::Read(span),
        };
        self.push_item(item)
    }

    /// Adds an item whose value a rule works out from a span, if its field is wanted.
    pub fn derived_item(&mut self, field: FieldId, value: Value, span: Span) -> Result<(), NoMemory>
        requires inside { IsInside self.old.buffers span }
        requires kind { IsOfKind (row_of field).kind value }
        requires layer { 0 < length self.old.layers }
        requires belongs { (row_of field).proto ≡ last_proto self.old.layers }
        ensures ok { OnOk result (self.new ≡ with_item self.old (derived_of field value span)) }
        ensures err { OnErr result (self.new ≡ self.old) }
        ensures buffers { self.new.buffers ≡ self.old.buffers }
        ensures count { length self.new.layers ≡ length self.old.layers }
        ensures last { last_proto self.new.layers ≡ last_proto self.old.layers }
    {
        self.add_item(Item {
            field,
            value,
            place: Place::Derived(span),
        })
    }

    /// Adds an item whose value has no place, if its field is wanted.
    pub fn made_item(&mut self, field: FieldId, value: Value) -> Result<(), NoMemory>
        requires kind { IsOfKind (row_of field).kind value }
        requires layer { 0 < length self.old.layers }
        requires belongs { (row_of field).proto ≡ last_proto self.old.layers }
        ensures ok { OnOk result (self.new ≡ with_item self.old (made_of field value)) }
        ensures err { OnErr result (self.new ≡ self.old) }
        ensures buffers { self.new.buffers ≡ self.old.buffers }
        ensures count { length self.new.layers ≡ length self.old.layers }
        ensures last { last_proto self.new.layers ≡ last_proto self.old.layers }
    {
        self.add_item(Item {
            field,
            value,
            place: Place::Made,
        })
    }

    /// Adds an item whose value is a copy, if its field is wanted.
    #[tactic(auto, unfolding(crate::specs::Trees::with_item))]
    pub(crate) fn copied_item(
        &mut self,
        field: FieldId,
        value: &Value,
        place: Place,
    ) -> Result<(), NoMemory>
        requires place { PlaceFits self.old.buffers field value.now place }
        requires kind { IsOfKind (row_of field).kind value.now }
        requires layer { 0 < length self.old.layers }
        requires belongs { (row_of field).proto ≡ last_proto self.old.layers }
        ensures ok { OnOk result (self.new
            ≡ with_item self.old (record { field = field; value = value.now; place = place })) }
        ensures err { OnErr result (self.new ≡ self.old) }
        ensures buffers { self.new.buffers ≡ self.old.buffers }
        ensures count { length self.new.layers ≡ length self.old.layers }
        ensures last { last_proto self.new.layers ≡ last_proto self.old.layers }
    {
        if !self.wants(field) {
            return Ok(());
        }
        let item = Item {
            field,
            value: value.clone()?,
            place,
        };
        self.push_item(item)
    }

    /// Adds an item, if its field is wanted.
    #[tactic(auto, unfolding(crate::specs::Trees::with_item))]
    fn add_item(&mut self, item: Item) -> Result<(), NoMemory>
        requires fits { ItemFits self.old.buffers (last_proto self.old.layers) item }
        requires layer { 0 < length self.old.layers }
        ensures ok { OnOk result (self.new ≡ with_item self.old item) }
        ensures err { OnErr result (self.new ≡ self.old) }
        ensures buffers { self.new.buffers ≡ self.old.buffers }
        ensures count { length self.new.layers ≡ length self.old.layers }
        ensures last { last_proto self.new.layers ≡ last_proto self.old.layers }
    {
        if self.wants(item.field) {
            self.push_item(item)
        } else {
            let_go(item);
            Ok(())
        }
    }

    /// Adds a buffer behind the others and answers its number.
    pub fn add_buffer(&mut self, b: Octets) -> Result<u32, NoMemory>
        requires room { length self.old.buffers + 1 < 2 ^ 32 }
        requires short { length b < 2 ^ 32 }
        ensures number { IfOk result (λ number. number ≡ length self.old.buffers) }
        ensures ok { OnOk result (self.new ≡ with_buffer self.old b) }
        ensures err { OnErr result (self.new ≡ self.old) }
        ensures layers { self.new.layers ≡ self.old.layers }
        ensures buffers { OnOk result (self.new.buffers ≡ self.old.buffers ++ b ∷ []) }
    {
        let number = self.buffers.add(b)?;
        Ok(number)
    }

    /// The bytes of a span.
    pub fn bytes(&self, s: Span) -> &[u8]
        requires { IsInside self.now.buffers s }
        ensures bytes { result.now ≡ bytes_of self.now.buffers s }
        ensures len { length result.now ≡ s.len }
        ensures end { s.start + s.len < 2 ^ 32 }
    {
        self.buffers.bytes(s)
    }

    /// The bytes of a span, shared and not copied.
    pub fn part(&self, s: Span) -> Result<Octets, NoMemory>
        requires { IsInside self.now.buffers s }
        ensures { IfOk result (λ part. part ≡ bytes_of self.now.buffers s) }
    {
        self.buffers.part(s)
    }

    /// Where the tree takes its memory from, for what the reading of a layer needs beside the tree.
    pub fn alloc(&self) -> Global {
        self.alloc
    }

    /// How many bytes a buffer has.
    pub fn size(&self, buffer: u32) -> u32
        requires { buffer < length self.now.buffers }
        ensures { result ≡ length (buffer_of self.now.buffers buffer) }
    {
        self.buffers.size(buffer)
    }

    /// How many layers there are.
    pub fn layer_count(&self) -> usize
        ensures { result ≡ length self.now.layers }
    {
        self.layers.len()
    }

    /// The tree, to which no more layers are added.
    pub fn finish(self) -> Tree
        ensures tree { result ≡ self }
        ensures fits { IsTree result }
    {
        let TreeBuilder {
            layers,
            lists,
            buffers,
            wanted,
            alloc,
        } = self;
        Tree::from_parts(layers, lists, buffers, wanted, alloc)
    }

    #[inline(always)]
    fn push_item(&mut self, item: Item) -> Result<(), NoMemory>
        requires fits { ItemFits self.old.buffers (last_proto self.old.layers) item }
        requires layer { 0 < length self.old.layers }
        ensures ok { OnOk result (self.new ≡ with_last self.old item) }
        ensures err { OnErr result (self.new ≡ self.old) }
        ensures buffers { self.new.buffers ≡ self.old.buffers }
        ensures count { length self.new.layers ≡ length self.old.layers }
        ensures last { last_proto self.new.layers ≡ last_proto self.old.layers }
    {
        push_last(&mut self.layers, item)?;
        Ok(())
    }
}

fn let_go(_item: Item) {}

fn let_spare_go(_spare: Spare) {}

/// An empty list of items: one of an earlier tree, or one with room for so many.
fn empty_list(alloc: Global, lists: &mut Vec<Items>, room: usize) -> Result<Items, NoMemory>
    ensures { IfOk result (λ list. list ≡ []) }
{
    match lists.pop() {
        Some(list) => Ok(cleared(list)),
        None => Items::with_room(alloc, room),
    }
}

/// The list without items.
fn cleared(list: Items) -> Items
    ensures { result ≡ [] }
{
    let mut list = list;
    list.clear();
    list
}
