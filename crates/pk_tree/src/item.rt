ghost use Rattle.std.specs.Prelude.{◌≡◌, [], ◌∷◌, ◌++◌, IfOk, OnOk, OnErr};

use pk_base::{NoMemory, Span, Value};
use pk_fields::FieldId;
use std::alloc::Global;
use std::marker::Model;

/// Where an item's value comes from.
#[derive(Clone, Copy)]
pub enum Place {
    /// The field's row reads it in these bytes.
    Read(Span),
    /// A rule works it out from these bytes.
    Derived(Span),
    /// It has no place of its own.
    Made,
}

/// One value of a field.
#[derive(Drop)]
pub struct Item {
    pub field: FieldId,
    pub value: Value,
    pub place: Place,
}

/// A list of items.
#[derive(Drop)]
pub struct Items {
    all: Vec<Item>,
}

impl Model for Items {
    ghost use Rattle.std.specs.Prelude.{List};
    ghost use Rattle.pk_tree.specs.declared.item.Item.{Item};

    ghost Value = { List Item };

    ghost view = { λ items. items.all.items };
}

impl Items {
    pub fn from_vec(v: Vec<Item>) -> Items
        ensures { result ≡ v.items }
    {
        Items { all: v }
    }

    pub fn slice(&self) -> &[Item]
        ensures { result.now ≡ self.now }
    {
        self.all.as_slice()
    }

    /// An empty list with room for so many items.
    pub(crate) fn with_room(alloc: Global, room: usize) -> Result<Items, NoMemory>
        ensures { IfOk result (λ items. items ≡ []) }
    {
        Ok(Items {
            all: Vec::with_capacity(alloc, room)?,
        })
    }

    pub(crate) fn clear(&mut self)
        ensures { self.new ≡ [] }
    {
        self.all.clear();
    }

    /// For how many items there is memory.
    pub(crate) fn room(&self) -> usize {
        self.all.capacity()
    }

    #[inline(always)]
    pub(crate) fn push(&mut self, item: Item) -> Result<(), NoMemory>
        ensures ok { OnOk result (self.new ≡ self.old ++ item ∷ []) }
        ensures err { OnErr result (self.new ≡ self.old) }
    {
        self.all.push(item)?;
        Ok(())
    }
}
