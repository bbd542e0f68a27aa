// Whether any or all of a list of values pass a test.
ghost use Rattle.std.specs.Prelude.{◌≡◌};
ghost use Rattle.std.specs.List.{list_any, list_all};
ghost use Rattle.flt_lists.specs.Passes.{is_some_value, passes};
ghost use Rattle.flt_lists.specs.Questions.{is_matched, is_so};

use crate::question::{Question, is_so};
use flt_syntax::Choice;
use flt_typed::{Search, octets_of};
use pk_base::Value;

/// Whether any or all of the values answer a question; of no values neither is true.
pub fn passes(choice: Choice, question: &Question<'_>, values: &[Value]) -> bool
    ensures { result ≡ passes choice (λ v. is_so question.now v) values.now }
{
    match choice {
        Choice::Any => any_is_so(question, values),
        Choice::All => is_some_value(values) && all_are_so(question, values),
    }
}

/// Whether there is a value.
pub fn is_some_value(values: &[Value]) -> bool
    ensures { result ≡ is_some_value values.now }
{
    !values.is_empty()
}

fn any_is_so(question: &Question<'_>, values: &[Value]) -> bool
    ensures { result ≡ list_any (λ v. is_so question.now v) values.now }
{
    values.iter().any(|value| is_so(question, value))
}

fn all_are_so(question: &Question<'_>, values: &[Value]) -> bool
    ensures { result ≡ list_all (λ v. is_so question.now v) values.now }
{
    for value in values {
        if !is_so(question, value) {
            return false;
        }
    }
    true
}

/// Whether a pattern matches in the bytes of any or all of the values. The search stays as it was.
pub fn matched(choice: Choice, search: &mut Search<'_>, values: &[Value]) -> bool
    ensures found { result ≡ passes choice (λ v. is_matched search.old v) values.now }
    ensures same { search.new ≡ search.old }
{
    match choice {
        Choice::Any => any_matched(search, values),
        Choice::All => is_some_value(values) && all_matched(search, values),
    }
}

fn any_matched(search: &mut Search<'_>, values: &[Value]) -> bool
    ensures found { result ≡ list_any (λ v. is_matched search.old v) values.now }
    ensures same { search.new ≡ search.old }
{
    for value in values {
        if is_matched(search, value) {
            return true;
        }
    }
    false
}

fn all_matched(search: &mut Search<'_>, values: &[Value]) -> bool
    ensures found { result ≡ list_all (λ v. is_matched search.old v) values.now }
    ensures same { search.new ≡ search.old }
{
    for value in values {
        if !is_matched(search, value) {
            return false;
        }
    }
    true
}

fn is_matched(search: &mut Search<'_>, value: &Value) -> bool
    ensures found { result ≡ is_matched search.old value.now }
    ensures same { search.new ≡ search.old }
{
    match octets_of(value) {
        Some(bytes) => search.is_in(bytes),
        None => false,
    }
}
