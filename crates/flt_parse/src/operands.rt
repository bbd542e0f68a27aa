// Operands, token by token, as far as no call opens or ends. Each function answers where the operand stands behind the
// token, or nothing where the token doesn't go on with it.
ghost use Rattle.std.specs.Prelude.{◌≡◌, ℕ, List, ◌++◌, [], ◌∷◌, Some, None};
ghost use Rattle.flt_syntax.specs.Grammar.{takes_mask as may_mask, takes_more as may_take_more, takes_slice as may_slice};
ghost use Rattle.flt_parse.specs.Parser.Reading as reading;
ghost use Rattle.flt_parse.specs.Parser.States.{IsRangeMove, IsSpot, layers_moved, part_of, range_spot};
ghost use Rattle.flt_syntax.specs.declared.ast.LayerRange.{LayerRange};
ghost use Rattle.flt_syntax.specs.declared.word.Word.{Word};
ghost use Rattle.flt_syntax.specs.Written.{OnLayersOf, SlicedOf, operand_of};

use crate::joins::{let_go, refused};
use crate::lists::{box_one, push_one};
use crate::state::{LayerSpot, Part, RangeSpot, Refusal, Slice, Spot};
use flt_syntax::{Function, Kind, LayerRange, Operand, Place, RangePart, SliceRange, Word};
use pk_base::NoMemory;
use std::alloc::Global;

/// In an operand that has to go on.
pub fn part_step(alloc: Global, part: Part, kind: Kind) -> Result<Option<Spot>, Refusal>
    ensures { IsSpot (reading.operand_step (part_of part) kind) result }
{
    match part {
        Part::MaskWanted(operand, at) => mask_wanted(alloc, operand, at, kind),
        Part::LayersWanted(word) => {
            let next = layers_begun(alloc, word, &kind);
            let_go(kind);
            Ok(next)
        }
        Part::InLayers(word, done, at, spot) => {
            let next = layers_step(word, done, at, spot, &kind);
            let_go(kind);
            next
        }
        Part::InRanges(slice, at, spot) => {
            let next = ranges_step(alloc, slice, at, spot, &kind);
            let_go(kind);
            next
        }
    }
}

/// Behind the `#` of a word.
fn layers_begun(alloc: Global, word: Word, kind: &Kind) -> Option<Spot>
    ensures { IsSpot (reading.operand_step (reading.LayersWanted word) kind.now) (Ok result) }
{
    match kind {
        Kind::LayerNumber(layer) => Some(Spot::Read(Operand::OnLayer(word, *layer))),
        Kind::OpenLayers(next) => Some(Spot::Within(Part::InLayers(
            word,
            Vec::new(alloc),
            *next,
            LayerSpot::LayerWanted,
        ))),
        _ => None,
    }
}

/// In the brackets of layers.
fn layers_step(
    word: Word,
    done: Vec<LayerRange>,
    at: u32,
    spot: LayerSpot,
    kind: &Kind,
) -> Result<Option<Spot>, Refusal>
    ensures { IsSpot (reading.layers_step word done.items at spot kind.now) result }
{
    match layer_move(at, spot, kind) {
        LayerMove::On(spot) => Ok(Some(Spot::Within(Part::InLayers(word, done, at, spot)))),
        LayerMove::Next(range, next) => next_layers(word, done, range, next),
        LayerMove::End(range) => all_layers(word, done, range),
        LayerMove::Wrong => nothing((word, done)),
    }
}

/// What a token does in a range of layers: it goes on with it, ends it and begins another, ends the last, or none of these.
#[derive(Clone, Copy)]
pub enum LayerMove {
    On(LayerSpot),
    Next(LayerRange, u32),
    End(LayerRange),
    Wrong,
}

fn layer_move(at: u32, spot: LayerSpot, kind: &Kind) -> LayerMove
    ensures { (w : Word) (done : List LayerRange) →
        reading.layers_step w done at spot kind.now ≡ layers_moved w done at result }
{
    match spot {
        LayerSpot::LayerWanted => layer_wanted(kind),
        LayerSpot::FirstRead(first) => first_read(at, first, kind),
        LayerSpot::LastWanted(first) => last_wanted(first, kind),
        LayerSpot::LastRead(first, last) => layers_end(
            LayerRange {
                at,
                first,
                last: Some(last),
            },
            kind,
        ),
    }
}

fn layer_wanted(kind: &Kind) -> LayerMove
    ensures { (w : Word) (done : List LayerRange) (at : ℕ) →
        reading.layers_step w done at reading.LayerWanted kind.now ≡ layers_moved w done at result }
{
    match kind {
        Kind::Number(n) => LayerMove::On(LayerSpot::FirstRead(*n)),
        _ => LayerMove::Wrong,
    }
}

fn first_read(at: u32, first: u32, kind: &Kind) -> LayerMove
    ensures { (w : Word) (done : List LayerRange) →
        reading.layers_step w done at (reading.FirstRead first) kind.now
        ≡ layers_moved w done at result }
{
    match kind {
        Kind::Minus => LayerMove::On(LayerSpot::LastWanted(first)),
        _ => layers_end(
            LayerRange {
                at,
                first,
                last: None,
            },
            kind,
        ),
    }
}

fn last_wanted(first: u32, kind: &Kind) -> LayerMove
    ensures { (w : Word) (done : List LayerRange) (at : ℕ) →
        reading.layers_step w done at (reading.LastWanted first) kind.now
        ≡ layers_moved w done at result }
{
    match kind {
        Kind::Number(n) => LayerMove::On(LayerSpot::LastRead(first, *n)),
        _ => LayerMove::Wrong,
    }
}

/// Behind a range that may end.
fn layers_end(range: LayerRange, kind: &Kind) -> LayerMove
    ensures { (w : Word) (done : List LayerRange) (at : ℕ) →
        reading.layers_end w (done ++ range ∷ []) kind.now ≡ layers_moved w done at result }
{
    match kind {
        Kind::NextRange(next) => LayerMove::Next(range, *next),
        Kind::CloseBracket => LayerMove::End(range),
        _ => LayerMove::Wrong,
    }
}

/// Where a token doesn't go on with an operand: what was read before it is given up.
fn nothing<T: Drop>(_read: T) -> Result<Option<Spot>, Refusal>
    ensures { IsSpot None result }
{
    Ok(None)
}

/// Behind the comma after a range.
fn next_layers(
    word: Word,
    done: Vec<LayerRange>,
    range: LayerRange,
    next: u32,
) -> Result<Option<Spot>, Refusal>
    ensures { IsSpot (Some (reading.InLayers word
        (done.items ++ range ∷ []) next reading.LayerWanted)) result }
{
    let mut done = done;
    match push_one(&mut done, range) {
        Ok(()) => Ok(Some(Spot::Within(Part::InLayers(word, done, next, LayerSpot::LayerWanted)))),
        Err(NoMemory) => refused(Refusal::NoMemory, (word, done)),
    }
}

/// Behind the `]` after a range.
fn all_layers(word: Word, done: Vec<LayerRange>, range: LayerRange) -> Result<Option<Spot>, Refusal>
    ensures { IsSpot (Some (reading.OperandRead (OnLayersOf word (done.items ++ range ∷ []))))
        result }
{
    let mut done = done;
    match push_one(&mut done, range) {
        Ok(()) => Ok(Some(Spot::Read(Operand::OnLayers(word, done)))),
        Err(NoMemory) => refused(Refusal::NoMemory, (word, done)),
    }
}

/// Whether a function has one argument or more.
pub fn takes_more(function: Function) -> bool
    ensures { result ≡ may_take_more function }
{
    match function {
        Function::Min | Function::Max => true,
        Function::Len | Function::Count | Function::Upper | Function::Lower => false,
    }
}

/// Whether this is sliced.
pub fn takes_slice(operand: &Operand) -> bool
    ensures { result ≡ may_slice (operand_of operand.now) }
{
    match operand {
        Operand::Named(_) | Operand::OnLayer(_, _) | Operand::OnLayers(_, _) => true,
        Operand::Called(function, _, _) => !takes_more(*function),
        Operand::Text(_)
        | Operand::Sliced(_, _, _)
        | Operand::Masked(_, _, _)
        | Operand::Computed(_, _, _, _)
        | Operand::Arguments(_, _) => false,
    }
}

/// Whether this is masked.
pub fn takes_mask(operand: &Operand) -> bool
    ensures { result ≡ may_mask (operand_of operand.now) }
{
    match operand {
        Operand::Masked(_, _, _) | Operand::Computed(_, _, _, _) | Operand::Arguments(_, _) =>
            false,
        _ => true,
    }
}

/// Behind `&`.
fn mask_wanted(
    alloc: Global,
    operand: Operand,
    at: u32,
    kind: Kind,
) -> Result<Option<Spot>, Refusal>
    ensures { IsSpot (reading.operand_step (reading.MaskWanted (operand_of operand) at) kind)
        result }
{
    match kind {
        Kind::Name(word) => match box_one(alloc, operand) {
            Ok(inner) => Ok(Some(Spot::Read(Operand::Masked(inner, at, word)))),
            Err(NoMemory) => refused(Refusal::NoMemory, word),
        },
        _ => nothing((operand, kind)),
    }
}

/// In the brackets of a slice.
fn ranges_step(
    alloc: Global,
    slice: Slice,
    at: u32,
    spot: RangeSpot,
    kind: &Kind,
) -> Result<Option<Spot>, Refusal>
    ensures { IsSpot (reading.ranges_step
        (operand_of slice.operand) slice.bracket slice.done.items at spot kind.now) result }
{
    match range_move(spot, kind) {
        RangeMove::On(spot) => in_range(slice, at, spot),
        RangeMove::Next(part, next) => next_range(slice, at, part, next),
        RangeMove::End(part) => all_ranges(alloc, slice, at, part),
        RangeMove::Wrong => nothing(slice),
    }
}

/// What a token does in a range of bytes: it goes on with it, ends it and begins another, ends the last, or none of these.
#[derive(Clone, Copy)]
pub enum RangeMove {
    On(RangeSpot),
    Next(RangePart, u32),
    End(RangePart),
    Wrong,
}

fn range_move(spot: RangeSpot, kind: &Kind) -> RangeMove
    ensures { IsRangeMove spot kind.now result }
{
    match spot {
        RangeSpot::RangeWanted => range_wanted(kind),
        RangeSpot::DigitsWanted => match kind {
            Kind::Number(n) => RangeMove::On(RangeSpot::PlaceRead(Place {
                from_end: true,
                offset: *n,
            })),
            _ => RangeMove::Wrong,
        },
        RangeSpot::PlaceRead(place) => place_read(place, kind),
        RangeSpot::ColonRead(place) => colon_read(place, kind),
        RangeSpot::EndWanted(place) => end_wanted(place, kind),
        RangeSpot::EndDigitsWanted(place) => end_digits_wanted(place, kind),
        RangeSpot::CountWanted => match kind {
            Kind::Number(n) => RangeMove::On(RangeSpot::PartRead(RangePart::Front(*n))),
            _ => RangeMove::Wrong,
        },
        RangeSpot::PartRead(part) => part_read(part, kind),
    }
}

fn range_wanted(kind: &Kind) -> RangeMove
    ensures { IsRangeMove reading.RangeWanted kind.now result }
{
    match kind {
        Kind::Number(n) => RangeMove::On(RangeSpot::PlaceRead(Place {
            from_end: false,
            offset: *n,
        })),
        Kind::Minus => RangeMove::On(RangeSpot::DigitsWanted),
        Kind::Colon => RangeMove::On(RangeSpot::CountWanted),
        _ => RangeMove::Wrong,
    }
}

fn place_read(place: Place, kind: &Kind) -> RangeMove
    ensures { IsRangeMove (reading.PlaceRead place) kind.now result }
{
    match kind {
        Kind::Colon => RangeMove::On(RangeSpot::ColonRead(place)),
        Kind::Minus => RangeMove::On(RangeSpot::EndWanted(place)),
        Kind::NextRange(next) => RangeMove::Next(RangePart::One(place), *next),
        Kind::CloseBracket => RangeMove::End(RangePart::One(place)),
        _ => RangeMove::Wrong,
    }
}

fn colon_read(place: Place, kind: &Kind) -> RangeMove
    ensures { IsRangeMove (reading.ColonRead place) kind.now result }
{
    match kind {
        Kind::Number(n) => RangeMove::On(RangeSpot::PartRead(RangePart::Counted(place, *n))),
        Kind::NextRange(next) => RangeMove::Next(RangePart::ToEnd(place), *next),
        Kind::CloseBracket => RangeMove::End(RangePart::ToEnd(place)),
        _ => RangeMove::Wrong,
    }
}

fn end_wanted(place: Place, kind: &Kind) -> RangeMove
    ensures { IsRangeMove (reading.EndWanted place) kind.now result }
{
    match kind {
        Kind::Number(n) => RangeMove::On(RangeSpot::PartRead(RangePart::Between(
            place,
            Place {
                from_end: false,
                offset: *n,
            },
        ))),
        Kind::Minus => RangeMove::On(RangeSpot::EndDigitsWanted(place)),
        _ => RangeMove::Wrong,
    }
}

fn end_digits_wanted(place: Place, kind: &Kind) -> RangeMove
    ensures { IsRangeMove (reading.EndDigitsWanted place) kind.now result }
{
    match kind {
        Kind::Number(n) => RangeMove::On(RangeSpot::PartRead(RangePart::Between(
            place,
            Place {
                from_end: true,
                offset: *n,
            },
        ))),
        _ => RangeMove::Wrong,
    }
}

fn part_read(part: RangePart, kind: &Kind) -> RangeMove
    ensures { IsRangeMove (reading.PartRead part) kind.now result }
{
    match kind {
        Kind::NextRange(next) => RangeMove::Next(part, *next),
        Kind::CloseBracket => RangeMove::End(part),
        _ => RangeMove::Wrong,
    }
}

/// A spot in the same range.
fn in_range(slice: Slice, at: u32, spot: RangeSpot) -> Result<Option<Spot>, Refusal>
    ensures { IsSpot (Some (range_spot slice at spot)) result }
{
    Ok(Some(Spot::Within(Part::InRanges(slice, at, spot))))
}

/// Behind the comma after a range.
fn next_range(slice: Slice, at: u32, part: RangePart, next: u32) -> Result<Option<Spot>, Refusal>
    ensures { IsSpot (Some (reading.InRanges (operand_of slice.operand) slice.bracket
        (reading.with_part at slice.done.items part) next reading.RangeWanted)) result }
{
    let mut slice = slice;
    match push_one(&mut slice.done, SliceRange { at, part }) {
        Ok(()) => in_range(slice, next, RangeSpot::RangeWanted),
        Err(NoMemory) => refused(Refusal::NoMemory, slice),
    }
}

/// Behind the `]` after a range.
fn all_ranges(
    alloc: Global,
    slice: Slice,
    at: u32,
    part: RangePart,
) -> Result<Option<Spot>, Refusal>
    ensures { IsSpot (Some (reading.OperandRead
        (SlicedOf (operand_of slice.operand) slice.bracket
        (reading.with_part at slice.done.items part)))) result }
{
    let mut slice = slice;
    match push_one(&mut slice.done, SliceRange { at, part }) {
        Ok(()) => sliced(alloc, slice),
        Err(NoMemory) => refused(Refusal::NoMemory, slice),
    }
}

fn sliced(alloc: Global, slice: Slice) -> Result<Option<Spot>, Refusal>
    ensures { IsSpot (Some (reading.OperandRead
        (SlicedOf (operand_of slice.operand) slice.bracket slice.done.items))) result }
{
    let Slice {
        operand,
        bracket,
        done,
    } = slice;
    match box_one(alloc, operand) {
        Ok(inner) => Ok(Some(Spot::Read(Operand::Sliced(inner, bracket, done)))),
        Err(NoMemory) => refused(Refusal::NoMemory, done),
    }
}
