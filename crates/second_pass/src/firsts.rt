// The first later frame that names each frame.
ghost use Rattle.std.specs.Prelude.{◌≡◌, ◌==◌, ◌&&◌, ℕ, nat_lt, if◌then◌else◌, Some, None, OnOk};
ghost use Rattle.std.specs.Option.{option_or};
ghost use Rattle.std.specs.List.{list_any};
ghost use Rattle.second_pass.specs.Named.{has_number, names_in};
ghost use Rattle.second_pass.specs.Stands.{first_in};

use pk_base::{NoMemory, Value};
use pk_fields::FieldId;
use pk_tree::{Item, Layer};
use std::alloc::Global;
use std::collections::BTreeMap;

/// By the number of a frame, the first later frame that named it.
pub(crate) struct Firsts {
    pub all: BTreeMap<u64, u32>,
}

impl Drop for Firsts {
    fn drop(self) {
        let Firsts { all: _all } = self;
    }
}

impl Firsts {
    pub fn new(alloc: Global) -> Firsts
        ensures { (number : ℕ) → first_in result number ≡ None }
    {
        Firsts {
            all: BTreeMap::new(alloc),
        }
    }

    pub fn find(&self, number: u32) -> Option<u32>
        ensures { result ≡ first_in self.now number }
    {
        self.all.get(&u64::from(number)).copied()
    }

    /// Notes the frames that layers of a later frame name in a field.
    pub fn note(&mut self, frame: u32, field: FieldId, layers: &[Layer]) -> Result<(), NoMemory>
        ensures { OnOk result ((number : ℕ) → first_in self.new number
            ≡ option_or (first_in self.old number)
            (if nat_lt number frame && names_in field number layers.now then Some frame else None)) }
    {
        let mut left = layers;
        while let [layer, more @ ..] = left {
            self.note_items(frame, field, layer.items.slice())?;
            left = more;
        }
        Ok(())
    }

    fn note_items(&mut self, frame: u32, field: FieldId, items: &[Item]) -> Result<(), NoMemory>
        ensures { OnOk result ((number : ℕ) → first_in self.new number
            ≡ option_or (first_in self.old number)
            (if nat_lt number frame && list_any (has_number field number) items.now
            then Some frame else None)) }
    {
        let mut left = items;
        while let [item, more @ ..] = left {
            self.note_item(frame, field, item)?;
            left = more;
        }
        Ok(())
    }

    fn note_item(&mut self, frame: u32, field: FieldId, item: &Item) -> Result<(), NoMemory>
        ensures { OnOk result ((number : ℕ) → first_in self.new number
            ≡ option_or (first_in self.old number)
            (if nat_lt number frame && has_number field number item.now
            then Some frame else None)) }
    {
        if item.field != field {
            return Ok(());
        }
        match item.value {
            Value::Uint(number) => self.note_number(frame, number),
            _ => Ok(()),
        }
    }

    fn note_number(&mut self, frame: u32, named: u64) -> Result<(), NoMemory>
        ensures { OnOk result ((number : ℕ) → first_in self.new number
            ≡ option_or (first_in self.old number)
            (if nat_lt number frame && named == number then Some frame else None)) }
    {
        if named >= u64::from(frame) {
            return Ok(());
        }
        if self.all.contains_key(&named) {
            return Ok(());
        }
        self.all.insert(named, frame)?;
        Ok(())
    }
}
