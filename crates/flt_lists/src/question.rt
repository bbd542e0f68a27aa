// What is asked of a single value.
ghost use Rattle.std.specs.Prelude.{◌≡◌};
ghost use Rattle.flt_lists.specs.Questions.{is_among, is_member, is_so};

use flt_typed::{Member, Relation, is_nonzero, lies_between, related};
use pk_base::Value;

/// What is asked of a single value.
#[derive(Clone, Copy)]
pub enum Question<'f> {
    /// Whether it stands in the relation to a value, which may have a prefix length.
    IsRelated(Relation, &'f Value, Option<u8>),
    /// Whether it is in the set.
    IsAmong(&'f [Member]),
    /// Whether it is a number other than 0.
    IsNonzero,
    /// Nothing but that it is there.
    IsThere,
}

/// Whether a value answers a question.
pub fn is_so(question: &Question<'_>, value: &Value) -> bool
    ensures { result ≡ is_so question.now value.now }
{
    match question {
        Question::IsRelated(relation, right, prefix) => related(*relation, value, right, *prefix),
        Question::IsAmong(members) => is_among(members, value),
        Question::IsNonzero => is_nonzero(value),
        Question::IsThere => true,
    }
}

fn is_among(members: &[Member], value: &Value) -> bool
    ensures { result ≡ is_among members.now value.now }
{
    for member in members {
        if is_member(value, member) {
            return true;
        }
    }
    false
}

/// Whether a value equals an element of a set, or lies in a range.
fn is_member(value: &Value, member: &Member) -> bool
    ensures { result ≡ is_member value.now member.now }
{
    match member {
        Member::One(constant) => related(Relation::Equal, value, &constant.value, constant.prefix),
        Member::Between(low, high) => lies_between(&low.value, &high.value, value),
    }
}
