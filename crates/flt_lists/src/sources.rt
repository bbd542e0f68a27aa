// Questions asked of a field's values, by whatever answers for them.
ghost use Rattle.std.specs.Prelude.{◌≡◌, ◌+◌, IfOk, slice_get};
ghost use Rattle.flt_lists.specs.Passes.{is_some_value, passes};
ghost use Rattle.flt_lists.specs.Questions.{is_so};
ghost use Rattle.pk_tree.specs.FieldValues.{values_of};
ghost use Rattle.std.specs.List.{list_any, list_all};
ghost use Rattle.std.specs.Option.{option_map};

use crate::question::{Question, is_so};
use crate::walks::{asks_field, is_there};
use flt_syntax::Choice;
use pk_base::{Layers, NoMemory};
use pk_fields::FieldId;
use pk_source::{Lender, Outline, Source};

/// Whether there is a value of a field or protocol in the chosen layers.
pub fn is_there_in(field: FieldId, layers: &Layers, source: &Source<'_>) -> bool
    ensures { result ≡ is_some_value (values_of source.now field layers.now) }
{
    match source.lender() {
        Lender::Tree(tree) => is_there(field, layers, tree),
        Lender::Outline(outline) => outline.has(field, layers),
    }
}

/// Whether any or all values of a field or protocol in the chosen layers answer a question.
pub fn asks_source(
    choice: Choice,
    question: &Question<'_>,
    field: FieldId,
    layers: &Layers,
    source: &Source<'_>,
) -> Result<bool, NoMemory>
    ensures { IfOk result (λ truth.
        truth ≡ passes choice (λ v. is_so question.now v) (values_of source.now field layers.now)) }
{
    match source.lender() {
        Lender::Tree(tree) => asks_field(choice, question, field, layers, tree),
        Lender::Outline(outline) => asks_outline(choice, question, field, layers, outline),
    }
}

/// The same of headers: each value is read where it stands, up to the first that decides.
fn asks_outline(
    choice: Choice,
    question: &Question<'_>,
    field: FieldId,
    layers: &Layers,
    outline: &Outline<'_>,
) -> Result<bool, NoMemory>
    ensures { IfOk result (λ truth.
        truth ≡ passes choice (λ v. is_so question.now v) (values_of outline.now field layers.now)) }
{
    match choice {
        Choice::Any => any_read(question, field, layers, outline),
        Choice::All if outline.has(field, layers) => all_read(question, field, layers, outline),
        Choice::All => Ok(false),
    }
}

fn any_read(
    question: &Question<'_>,
    field: FieldId,
    layers: &Layers,
    outline: &Outline<'_>,
) -> Result<bool, NoMemory>
    ensures { IfOk result (λ truth.
        truth ≡ list_any (λ v. is_so question.now v) (values_of outline.now field layers.now)) }
{
    let mut number = 0;
    'values: while let Some(truth) = answer_of(question, field, layers, outline, number)? {
        if truth {
            return Ok(true);
        }
        number = next(number)?;
    }
    Ok(false)
}

fn all_read(
    question: &Question<'_>,
    field: FieldId,
    layers: &Layers,
    outline: &Outline<'_>,
) -> Result<bool, NoMemory>
    ensures { IfOk result (λ truth.
        truth ≡ list_all (λ v. is_so question.now v) (values_of outline.now field layers.now)) }
{
    let mut number = 0;
    'values: while let Some(truth) = answer_of(question, field, layers, outline, number)? {
        if !truth {
            return Ok(false);
        }
        number = next(number)?;
    }
    Ok(true)
}

/// What the value of a number answers, from 0, if there is one.
fn answer_of(
    question: &Question<'_>,
    field: FieldId,
    layers: &Layers,
    outline: &Outline<'_>,
    number: usize,
) -> Result<Option<bool>, NoMemory>
    ensures { IfOk result (λ answer. answer
        ≡ option_map (λ v. is_so question.now v) (slice_get (values_of outline.now field layers.now) number)) }
{
    match outline.value(field, layers, number)? {
        Some(value) => Ok(Some(is_so(question, &value))),
        None => Ok(None),
    }
}

/// The number behind another. No frame has so many values that there is none: it would count as want of memory.
fn next(number: usize) -> Result<usize, NoMemory>
    ensures { IfOk result (λ next. next ≡ number + 1) }
{
    match number.checked_add(1) {
        Some(next) => Ok(next),
        None => Err(NoMemory),
    }
}
