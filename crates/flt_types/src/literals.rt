// Literals, where a test's right side or a set has them.
ghost use Rattle.std.specs.Prelude.{◌≡◌, true, IfOk, IfErr};
ghost use Rattle.flt_syntax.specs.declared.ast.Literal.TheVariants.{Bare, Text};
ghost use Rattle.flt_typing.specs.Constants.{literal_read, side_read, end_read as read_as_end, place_of_literal};
ghost use Rattle.flt_types.specs.Faults.{IsAnswer, reading_faults};
ghost use Rattle.flt_typing.specs.declared.literal.Reading.TheVariants.{Reads};

use crate::faults::fault;
use flt_syntax::{FilterError, FilterReason, Literal, Quote, Word};
use flt_typed::{Constant, Relation, admits_prefix, is_truth, kind_of_right};
use flt_typing::{Reading, read_quote, read_word};
use pk_base::NoMemory;
use pk_fields::ValueKind;
use std::alloc::Global;

/// The constant that was read at a place, or the fault there.
pub(crate) fn constant(reading: Reading, at: u32) -> Result<Constant, FilterError>
    ensures ok { IfOk result (λ constant. reading ≡ Reads constant) }
    ensures err { IfErr result (IsAnswer (reading_faults at reading)) }
{
    match reading {
        Reading::Reads(constant) => Ok(constant),
        Reading::Beyond => Err(fault(at, FilterReason::OutOfRange)),
        Reading::Unread => Err(fault(at, FilterReason::TypeMismatch)),
    }
}

fn read_literal(
    alloc: Global,
    kind: ValueKind,
    prefixed: bool,
    literal: &Literal,
) -> Result<Reading, NoMemory>
    ensures { IfOk result (λ reading. reading ≡ literal_read prefixed kind literal.now) }
{
    match literal {
        Literal::Bare(word) => read_word(alloc, kind, prefixed, word.text.as_str()),
        Literal::Text(quote) => read_quote(kind, &quote.bytes),
    }
}

fn place_of(literal: &Literal) -> u32
    ensures { result ≡ place_of_literal literal.now }
{
    match literal {
        Literal::Bare(word) => word.at,
        Literal::Text(quote) => quote.at,
    }
}

/// A single element of a set.
pub(crate) fn element(
    alloc: Global,
    kind: ValueKind,
    literal: &Literal,
) -> Result<Constant, FilterError>
    ensures ok { IfOk result (λ constant. literal_read true kind literal.now ≡ Reads constant) }
    ensures err { IfErr result
        (IsAnswer (reading_faults (place_of_literal literal.now)
        (literal_read true kind literal.now))) }
{
    let reading = read_literal(alloc, kind, true, literal)?;
    constant(reading, place_of(literal))
}

/// An end of a range in a set.
pub(crate) fn range_end(
    alloc: Global,
    kind: ValueKind,
    literal: &Literal,
) -> Result<Constant, FilterError>
    ensures ok { IfOk result (λ constant. read_as_end kind literal.now ≡ Reads constant) }
    ensures err { IfErr result
        (IsAnswer (reading_faults (place_of_literal literal.now) (read_as_end kind literal.now))) }
{
    let reading = end_read(alloc, kind, literal)?;
    constant(reading, place_of(literal))
}

fn end_read(alloc: Global, kind: ValueKind, literal: &Literal) -> Result<Reading, NoMemory>
    ensures { IfOk result (λ reading. reading ≡ read_as_end kind literal.now) }
{
    if is_truth(kind) {
        Ok(Reading::Unread)
    } else {
        read_literal(alloc, kind, false, literal)
    }
}

/// A word as the literal to the right of a relation.
pub(crate) fn right_word(
    alloc: Global,
    relation: Relation,
    kind: ValueKind,
    word: &Word,
) -> Result<Constant, FilterError>
    ensures ok { IfOk result (λ constant.
        side_read relation kind (Bare word.now) ≡ Reads constant) }
    ensures err { IfErr result
        (IsAnswer (reading_faults word.now.at (side_read relation kind (Bare word.now)))) }
{
    let kind = kind_of_right(relation, kind);
    let reading = read_word(alloc, kind, admits_prefix(relation), word.text.as_str())?;
    constant(reading, word.at)
}

/// A string as the literal to the right of a relation.
pub(crate) fn right_quote(
    relation: Relation,
    kind: ValueKind,
    quote: &Quote,
) -> Result<Constant, FilterError>
    ensures ok { IfOk result (λ constant.
        side_read relation kind (Text quote.now) ≡ Reads constant) }
    ensures err { IfErr result
        (IsAnswer (reading_faults quote.now.at (side_read relation kind (Text quote.now)))) }
{
    let reading = read_quote(kind_of_right(relation, kind), &quote.bytes)?;
    constant(reading, quote.at)
}
