// How far a filter is read: the state of the parser between two tokens.

use flt_syntax::{
    Arithmetic, Ast, Choice, Element, FilterReason, Function, Join, LayerRange, Literal, Negation,
    Operand, Operator, Place, RangePart, SliceRange, Tail, Word,
};

/// How far a range of layers is read.
#[derive(Clone, Copy)]
pub enum LayerSpot {
    LayerWanted,
    FirstRead(u32),
    LastWanted(u32),
    LastRead(u32, u32),
}

/// How far a range of bytes is read.
#[derive(Clone, Copy)]
pub enum RangeSpot {
    RangeWanted,
    DigitsWanted,
    PlaceRead(Place),
    ColonRead(Place),
    EndWanted(Place),
    EndDigitsWanted(Place),
    CountWanted,
    PartRead(RangePart),
}

/// How far an element of a set is read.
#[derive(Drop)]
pub enum ElementSpot {
    ElementWanted,
    LiteralRead(Literal),
    SecondWanted(Literal),
    SecondRead(Literal, Literal),
}

/// The ranges of a slice before the one that is read.
#[derive(Drop)]
pub struct Slice {
    pub operand: Operand,
    pub bracket: u32,
    pub done: Vec<SliceRange>,
}

/// How far an operand is read that has to go on. A list holds the ranges before the one that is read, whose place stands
/// behind it.
#[derive(Drop)]
pub enum Part {
    LayersWanted(Word),
    InLayers(Word, Vec<LayerRange>, u32, LayerSpot),
    InRanges(Slice, u32, RangeSpot),
    MaskWanted(Operand, u32),
}

/// How far an operand is read.
#[derive(Drop)]
pub enum Spot {
    Wanted,
    Read(Operand),
    Within(Part),
}

/// How far what follows the left operand is read.
#[derive(Drop)]
pub enum TailSpot {
    InWanted,
    SetWanted(bool),
    InSet(bool, Vec<Element>, ElementSpot),
    PatternWanted(u32),
}

/// What a token behind the left operand does: it goes on, ends the test, or does neither.
#[derive(Drop)]
pub enum TailMove {
    Further(TailSpot),
    Done(Tail),
    Wrong,
}

/// Which operand of a test is read; behind an operator, what stands to the left of it.
#[derive(Drop)]
pub enum Side {
    OnLeft(Option<Choice>),
    OnRight(Option<Choice>, Operand, Operator, u32),
}

/// What joins two operands: the comma between arguments, or a sign and its place.
#[derive(Clone, Copy)]
pub enum Link {
    Comma,
    Sign(Arithmetic, u32),
}

/// An operand that waits for what stands to the right of its sign, or of its comma.
#[derive(Drop)]
pub struct Waiting {
    pub operand: Operand,
    pub link: Link,
}

/// A function whose `)` isn't read, and the operands that wait around its call.
#[derive(Drop)]
pub struct Call {
    pub function: Function,
    pub at: u32,
    pub waiting: Vec<Waiting>,
}

/// A filter that waits for what stands to the right of its sign.
#[derive(Drop)]
pub struct Left {
    pub filter: Ast,
    pub join: Join,
}

/// What is open in one pair of parentheses: the filters that wait, and the negations before what is read.
#[derive(Drop)]
pub struct Frame {
    pub lefts: Vec<Left>,
    pub nots: Vec<Negation>,
}

/// The innermost parentheses, and those around them.
#[derive(Drop)]
pub struct Open {
    pub frame: Frame,
    pub around: Vec<Frame>,
}

/// A filter behind which more may come, those that wait before it, and what is open around it.
#[derive(Drop)]
pub struct Behind {
    pub lefts: Vec<Left>,
    pub filter: Ast,
    pub around: Vec<Frame>,
}

/// A left operand that is whole, the word before it, and what is open around its test.
#[derive(Drop)]
pub struct LeftSide {
    pub choice: Option<Choice>,
    pub operand: Operand,
    pub outer: Open,
}

/// Where an operand stands: on which side of a test, behind which operands that wait, in which functions whose `)` isn't
/// read, and what is open around the test.
#[derive(Drop)]
pub struct Inside {
    pub side: Side,
    pub waiting: Vec<Waiting>,
    pub calls: Vec<Call>,
    pub outer: Open,
}

/// How far a filter is read.
#[derive(Drop)]
pub enum State {
    /// Where a filter begins.
    Want(Open),
    Have(Behind),
    InOperand(Spot, Inside),
    InTail(TailSpot, LeftSide),
}

/// Why a token isn't read.
#[derive(Clone, Copy)]
pub enum Refusal {
    Fault(FilterReason),
    NoMemory,
}
