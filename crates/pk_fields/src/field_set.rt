ghost use Rattle.std.specs.Prelude.{◌≡◌, ◌==◌, ◌||◌, ◌<◌, ◌*◌, ◌^◌, ℕ, true, false, length, count_ones};
ghost use Rattle.std.specs.List.{AllByRecursion as Each, sum_by};
ghost use Rattle.pk_fields.specs.Fields.{row_of};
ghost use Rattle.pk_fields.specs.AddedFields.{adds};
ghost use Rattle.pk_fields.specs.FieldSets.{is_in, least_fields, every_field};

use crate::field_id::FieldId;
use crate::registry::proto;
use std::marker::Model;

/// A set of fields and protocols. With a field it holds the field's protocol; `frame` is in each set.
#[derive(Clone, Copy)]
pub struct FieldSet {
    words: [u64; 8],
}

impl Model for FieldSet {
    ghost use Rattle.std.specs.Prelude.{ℕ, List};
    ghost use Rattle.pk_fields.specs.FieldSets.{HasHomes};

    ghost Value = { List ℕ };

    ghost view = { λ set. set.words };

    ghost invariant = { λ set. HasHomes set.words };

    ghost inverse = { λ words. record { words = words } };
}

impl FieldSet {
    /// The set with no field but `frame`.
    pub fn none() -> FieldSet
        ensures { result ≡ least_fields }
    {
        FieldSet {
            words: [1, 0, 0, 0, 0, 0, 0, 0],
        }
    }

    /// The set of all fields.
    pub fn all() -> FieldSet
        ensures { result ≡ every_field }
    {
        FieldSet {
            words: [u64::MAX; 8],
        }
    }

    pub fn contains(&self, field: FieldId) -> bool
        ensures { result ≡ is_in self.now field }
    {
        has_bit(&self.words, field)
    }

    /// How many numbers of fields and protocols the set holds.
    pub fn count(&self) -> usize
        ensures { result ≡ sum_by count_ones self.now }
    {
        let [a, b, c, d, e, f, g, h] = self.words;
        let count = a.count_ones()
            + b.count_ones()
            + c.count_ones()
            + d.count_ones()
            + e.count_ones()
            + f.count_ones()
            + g.count_ones()
            + h.count_ones();
        count as usize
    }

    /// Whether the protocol or a field of it may be in the set.
    pub fn has_any_of(&self, protocol: FieldId) -> bool
        ensures { result ≡ false → (f : ℕ) → (row_of f).proto ≡ protocol
            → is_in self.now f ≡ false }
    {
        has_bit(&self.words, protocol)
    }

    /// Adds a field and its protocol.
    pub fn add(&mut self, field: FieldId)
        ensures { (f : ℕ) → is_in self.new f
            ≡ (f == field || (f == (row_of field).proto || is_in self.old f)) }
    {
        let home = proto(field);
        set_bit(&mut self.words, home);
        set_bit(&mut self.words, field);
    }

    /// Adds fields and their protocols, and nothing else.
    pub fn add_all(&mut self, fields: &[FieldId])
        ensures added { (f : ℕ) → is_in self.new f ≡ (adds fields.now f || is_in self.old f) }
        ensures fields { Each (λ field. is_in self.new field ≡ true) fields.now }
        ensures kept { (f : ℕ) → is_in self.old f ≡ true → is_in self.new f ≡ true }
    {
        for field in fields {
            self.add(*field);
        }
    }
}

#[tactic(auto, unfolding(crate::specs::FieldSets::is_in))]
fn has_bit(words: &[u64; 8], field: FieldId) -> bool
    ensures { result ≡ is_in words.now field }
{
    let number = usize::from(field.0);
    (words[number / 64] >> (number % 64)) & 1 == 1
}

fn set_bit(words: &mut [u64; 8], field: FieldId)
    ensures { (f : ℕ) → is_in words.new f ≡ (f == field || is_in words.old f) }
{
    let number = usize::from(field.0);
    words[number / 64] |= 1 << (number % 64);
}
