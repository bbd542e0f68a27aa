// Filters with their types: each name as its field, each literal as a value, each pattern compiled.

use crate::{Constant, Pattern, Relation};
use flt_syntax::{Arithmetic, Choice, Function, RangePart};
use pk_base::Layers;
use pk_fields::FieldId;

/// What has values in a tree.
pub enum Term {
    /// One value, the same in every tree.
    Constant(Constant),
    /// The values of a field or protocol in the layers that are chosen.
    Field(FieldId, Layers),
    /// The bytes that the ranges take of each value.
    Slice(Box<Term>, Vec<RangePart>),
    /// The bits of each number that are set in the mask.
    Mask(Box<Term>, u64),
    /// The function's values for these.
    Called(Function, Box<Term>),
    /// The sums, differences or products of two terms' numbers.
    Computed(Arithmetic, Box<Term>, Box<Term>),
    /// The values of the arguments of `min` or `max` before a comma, and of the one behind it.
    Arguments(Box<Term>, Box<Term>),
}

// A chain of signs, or of arguments, is as deep to the left as it is long: a loop goes down there.
impl Drop for Term {
    fn drop(mut self) {
        loop {
            match self {
                Term::Computed(_, first, right) | Term::Arguments(first, right) => {
                    drop(right);
                    self = Box::into_inner(first);
                }
                Term::Slice(inner, _ranges) => self = Box::into_inner(inner),
                Term::Mask(inner, _) | Term::Called(_, inner) => self = Box::into_inner(inner),
                Term::Constant(_constant) => return,
                Term::Field(_, _layers) => return,
            }
        }
    }
}

/// What a value may be, to be in a set.
#[derive(Drop)]
pub enum Member {
    One(Constant),
    /// From the first up to and with the second.
    Between(Constant, Constant),
}

/// A filter with its types. A choice says whether a test asks any of the pairs of values, or all of them.
pub enum Typed {
    /// `or`
    Either(Box<Typed>, Box<Typed>),
    /// `xor`
    Differ(Box<Typed>, Box<Typed>),
    /// `and`
    Both(Box<Typed>, Box<Typed>),
    Not(Box<Typed>),
    /// Whether there is a value.
    Exists(Term),
    /// Whether there is a number other than 0.
    AnyBit(Term),
    Compare(Relation, Choice, Term, Term),
    /// Whether a value is in the set; where the truth is set, the opposite of that.
    Among(bool, Choice, Term, Vec<Member>),
    /// Whether the pattern matches in a value.
    Matches(Choice, Term, Pattern),
}

// A chain of signs is as deep to the left as it is long: a loop goes down there.
impl Drop for Typed {
    fn drop(mut self) {
        loop {
            match self {
                Typed::Either(first, right)
                | Typed::Differ(first, right)
                | Typed::Both(first, right) => {
                    drop(right);
                    self = Box::into_inner(first);
                }
                Typed::Not(inner) => self = Box::into_inner(inner),
                Typed::Exists(_term) | Typed::AnyBit(_term) => return,
                Typed::Compare(_, _, _left, _right) => return,
                Typed::Among(_, _, _term, _members) => return,
                Typed::Matches(_, _term, _pattern) => return,
            }
        }
    }
}
