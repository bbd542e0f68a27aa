// The tokens of a filter's text.

use crate::ast::{Arithmetic, Choice, Function, Layer, Negation, Operator};
use crate::word::{Quote, Word};

/// What joins two filters.
#[derive(Clone, Copy)]
pub enum Join {
    Or,
    Xor,
    And,
}

/// What a token is. It keeps its place where the tree does.
#[derive(Drop)]
pub enum Kind {
    /// `(`
    Open,
    /// `)`
    Close,
    /// `{`
    OpenBrace,
    /// `}`
    CloseBrace,
    /// `[`: its place, and that of the range behind it.
    OpenRanges(u32, u32),
    /// `[` behind `#`: the place of the range behind it.
    OpenLayers(u32),
    /// `,` in brackets: the place of the range behind it.
    NextRange(u32),
    /// `]`
    CloseBracket,
    /// `,`
    Comma,
    /// `#`
    Hash,
    /// `..`
    DotDot,
    /// `:` in brackets
    Colon,
    /// `-` in brackets
    Minus,
    /// One to nine digits in brackets.
    Number(u32),
    /// More digits in brackets.
    LongNumber,
    /// One to nine digits behind `#`.
    LayerNumber(Layer),
    /// An operator, and its place.
    Compares(Operator, u32),
    /// `matches` or `~`, and its place.
    Matches(u32),
    /// `&`, and its place.
    Mask(u32),
    /// `+`, `-` or `*` outside brackets, and its place.
    Computes(Arithmetic, u32),
    /// `in`
    In,
    /// `or`, `xor` or `and`, as a word or a sign.
    Joins(Join),
    /// `not` or `!`
    Negates(Negation),
    /// `any` or `all`
    Chooses(Choice),
    /// A function with its `(`, and its place.
    Calls(Function, u32),
    /// Any other word.
    Name(Word),
    /// A string, plain or raw.
    Text(Quote),
}

/// A token: the place of its first byte, and what it is.
#[derive(Drop)]
pub struct Token {
    pub at: u32,
    pub kind: Kind,
}

/// What the text is read as from a place on, which the token before decides.
#[derive(Clone, Copy)]
pub enum Mode {
    Plain,
    /// Directly behind `#`.
    BehindHash,
    /// From `[` to `]`.
    InBrackets,
}

/// A token without its place, and how many bytes it has.
#[derive(Drop)]
pub struct Lexeme {
    pub kind: Kind,
    pub width: usize,
}

/// The signs outside brackets.
#[derive(Clone, Copy)]
pub enum Sign {
    AllEqual,
    AnyUnequal,
    Equal,
    Unequal,
    AtLeast,
    AtMost,
    And,
    Or,
    Xor,
    DotDot,
    Open,
    Close,
    OpenBrace,
    CloseBrace,
    OpenBracket,
    CloseBracket,
    Comma,
    Hash,
    Greater,
    Less,
    Tilde,
    Mask,
    Not,
    Plus,
    Minus,
    Star,
}

/// The reserved words.
#[derive(Clone, Copy)]
pub enum Keyword {
    And,
    Or,
    Xor,
    Not,
    Any,
    All,
    In,
    Contains,
    Matches,
    Eq,
    Ne,
    Gt,
    Lt,
    Ge,
    Le,
    AnyEq,
    AllNe,
    AllEq,
    AnyNe,
}
