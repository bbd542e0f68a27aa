// The syntax tree of a filter's text. Every `u32` named or described as a place is that of a byte in the text.

ghost use Rattle.std.specs.Prelude.{◌≡◌};
ghost use Rattle.flt_syntax.specs.Written.{operand_of, word_alone};

use crate::word::{Quote, Word};

/// How a negation is written.
#[derive(Clone, Copy)]
pub enum Negation {
    /// `!`
    Sign,
    /// `not`
    Word,
}

/// The word before a test that says over which pairs of values it asks.
#[derive(Clone, Copy)]
pub enum Choice {
    /// `any`
    Any,
    /// `all`
    All,
}

/// What stands between two operands.
#[derive(Clone, Copy)]
pub enum Operator {
    /// `==`, `eq`
    Equal,
    /// `!=`, `ne`
    Unequal,
    /// `any_eq`
    AnyEqual,
    /// `all_ne`
    AllUnequal,
    /// `===`, `all_eq`
    AllEqual,
    /// `!==`, `any_ne`
    AnyUnequal,
    /// `>`, `gt`
    Greater,
    /// `<`, `lt`
    Less,
    /// `>=`, `ge`
    AtLeast,
    /// `<=`, `le`
    AtMost,
    /// `contains`
    Contains,
}

#[derive(Clone, Copy)]
pub enum Function {
    /// `len`
    Len,
    /// `count`
    Count,
    /// `upper`
    Upper,
    /// `lower`
    Lower,
    /// `min`
    Min,
    /// `max`
    Max,
}

/// What is computed of two numbers.
#[derive(Clone, Copy)]
pub enum Arithmetic {
    /// `+`
    Sum,
    /// `-`
    Difference,
    /// `*`
    Product,
}

/// The number behind `#`: its place, and the layer that it chooses, counted from 1.
#[derive(Clone, Copy)]
pub struct Layer {
    pub at: u32,
    pub nth: u32,
}

/// A range of layers in `#[..]`: the place of its first token, its first layer, and its last, if one is written.
#[derive(Clone, Copy)]
pub struct LayerRange {
    pub at: u32,
    pub first: u32,
    pub last: Option<u32>,
}

/// A place in a value's bytes: counted from 0, or from the end, where 1 is the last byte and 0 is written `-0`.
#[derive(Clone, Copy)]
pub struct Place {
    pub from_end: bool,
    pub offset: u32,
}

/// The bytes of a value that a range takes.
#[derive(Clone, Copy)]
pub enum RangePart {
    /// `i`: one byte.
    One(Place),
    /// `i:n`: n bytes from i.
    Counted(Place, u32),
    /// `i-j`: from i up to and with j.
    Between(Place, Place),
    /// `:n`: the first n bytes.
    Front(u32),
    /// `i:`: from i to the end.
    ToEnd(Place),
}

/// A range of a slice: the place of its first token, and what it takes.
#[derive(Clone, Copy)]
pub struct SliceRange {
    pub at: u32,
    pub part: RangePart,
}

/// An operand as it is written. Products bind more tightly than sums and differences, and all of them to the left.
pub enum Operand {
    /// A string.
    Text(Quote),
    /// A word.
    Named(Word),
    /// A word and `#` with a number.
    OnLayer(Word, Layer),
    /// A word and `#[..]` with at least one range.
    OnLayers(Word, Vec<LayerRange>),
    /// What is sliced, which is a word, with layers or without, or a call of `len`, `count`, `upper` or `lower`; the
    /// place of the `[`; and at least one range.
    Sliced(Box<Operand>, u32, Vec<SliceRange>),
    /// What is masked, which is no mask and nothing computed; the place of the `&`; and the mask's word.
    Masked(Box<Operand>, u32, Word),
    /// A function, its place, and its argument. Only `min` and `max` have several.
    Called(Function, u32, Box<Operand>),
    /// A sum, difference or product, the place of its sign, and its two sides.
    Computed(Arithmetic, u32, Box<Operand>, Box<Operand>),
    /// The arguments of `min` or `max` before a comma, which are at least one, and the one behind it.
    Arguments(Box<Operand>, Box<Operand>),
}

impl Operand {
    /// The word that this is, if it is no more than that.
    pub fn into_word(self) -> Option<Word>
        ensures { result ≡ word_alone (operand_of self) }
    {
        match self {
            Operand::Named(word) => Some(word),
            _ => None,
        }
    }
}

// A chain of signs, or of arguments, is as deep to the left as it is long: a loop goes down there.
impl Drop for Operand {
    fn drop(mut self) {
        loop {
            match self {
                Operand::Computed(_, _, first, right) => {
                    drop(right);
                    self = Box::into_inner(first);
                }
                Operand::Arguments(first, right) => {
                    drop(right);
                    self = Box::into_inner(first);
                }
                Operand::Sliced(inner, _, _ranges) => self = Box::into_inner(inner),
                Operand::Masked(inner, _, _word) => self = Box::into_inner(inner),
                Operand::Called(_, _, inner) => self = Box::into_inner(inner),
                Operand::Text(_quote) => return,
                Operand::Named(_word) => return,
                Operand::OnLayer(_word, _) => return,
                Operand::OnLayers(_word, _ranges) => return,
            }
        }
    }
}

/// A word or a string in a set.
#[derive(Drop)]
pub enum Literal {
    Bare(Word),
    Text(Quote),
}

#[derive(Drop)]
pub enum Element {
    One(Literal),
    /// From the first up to and with the second.
    Between(Literal, Literal),
}

/// What a test asks of its left operand.
#[derive(Drop)]
pub enum Tail {
    /// An operator, its place, and the right operand.
    Compare(Operator, u32, Operand),
    /// `in`, or `not in` where the truth is set; and at least one element.
    In(bool, Vec<Element>),
    /// The place of `matches` or `~`, and the pattern.
    Matches(u32, Quote),
}

/// A filter as it is written. `or`, `xor` and `and` bind to the left.
pub enum Ast {
    Or(Box<Ast>, Box<Ast>),
    Xor(Box<Ast>, Box<Ast>),
    And(Box<Ast>, Box<Ast>),
    Not(Negation, Box<Ast>),
    /// What stands in parentheses.
    Group(Box<Ast>),
    /// An operand that is a test by itself.
    Alone(Operand),
    Test(Option<Choice>, Operand, Tail),
}

// A chain of signs is as deep to the left as it is long: a loop goes down there.
impl Drop for Ast {
    fn drop(mut self) {
        loop {
            match self {
                Ast::Or(first, right) => {
                    drop(right);
                    self = Box::into_inner(first);
                }
                Ast::Xor(first, right) => {
                    drop(right);
                    self = Box::into_inner(first);
                }
                Ast::And(first, right) => {
                    drop(right);
                    self = Box::into_inner(first);
                }
                Ast::Not(_, inner) => self = Box::into_inner(inner),
                Ast::Group(inner) => self = Box::into_inner(inner),
                Ast::Alone(_operand) => return,
                Ast::Test(_, _operand, _tail) => return,
            }
        }
    }
}
