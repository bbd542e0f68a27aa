// The fields that a filter asks for.
ghost use Rattle.std.specs.Prelude.{◌≡◌, ◌||◌, ℕ};
ghost use Rattle.flt_typed.specs.Asked.{HasFilter, asks, asks_term};
ghost use Rattle.pk_fields.specs.FieldSets.{is_in};

use crate::filter::Filter;
use flt_typed::{Term, Typed};
use pk_fields::FieldSet;

/// Adds to a set the fields that a filter asks for, with their protocols. A tree with the items of such a set's fields
/// alone is to the filter as the whole tree.
pub fn add_fields(filter: &Filter, set: &mut FieldSet)
    ensures fields { HasFilter set.new filter.now }
    ensures added { (f : ℕ) → is_in set.new f ≡ (asks filter.now f || is_in set.old f) }
{
    add_asked(filter.root(), set);
}

/// The same of a part of a filter.
fn add_asked(filter: &Typed, set: &mut FieldSet)
    ensures { (f : ℕ) → is_in set.new f ≡ (asks filter.now f || is_in set.old f) }
{
    let mut first = filter;
    'signs: loop {
        match first {
            Typed::Either(left, right) | Typed::Differ(left, right) | Typed::Both(left, right) => {
                add_asked(right, set);
                first = left;
            }
            Typed::Not(inner) => first = inner,
            Typed::Exists(term)
            | Typed::AnyBit(term)
            | Typed::Among(_, _, term, _)
            | Typed::Matches(_, term, _) => {
                add_term(term, set);
                return;
            }
            Typed::Compare(_, _, left, right) => {
                add_term(left, set);
                add_term(right, set);
                return;
            }
        }
    }
}

fn add_term(term: &Term, set: &mut FieldSet)
    ensures { (f : ℕ) → is_in set.new f ≡ (asks_term term.now f || is_in set.old f) }
{
    let mut first = term;
    'signs: loop {
        match first {
            Term::Constant(_) => return,
            Term::Field(field, _) => {
                set.add(*field);
                return;
            }
            Term::Slice(inner, _) | Term::Mask(inner, _) | Term::Called(_, inner) => first = inner,
            Term::Computed(_, left, right) | Term::Arguments(left, right) => {
                add_term(right, set);
                first = left;
            }
        }
    }
}
