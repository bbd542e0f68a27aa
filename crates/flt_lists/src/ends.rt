// Orders of all pairs, decided by the least and the greatest values.
ghost use Rattle.std.specs.Prelude.{◌≡◌, ◌<◌, true, length};
ghost use Rattle.flt_lists.specs.Keys.{decisive, end_of, favoured, further as further_key, is_order, key_cmp, key_shown, keys_of, opposite, pairs_hold};

use crate::keys::{Key, key_of};
use flt_syntax::Choice;
use flt_typed::{Extreme, Relation, holds_in};
use pk_base::Value;

/// Whether any or all pairs of keys stand in an order.
pub(crate) fn ends_hold(
    relation: Relation,
    choice: Choice,
    left: &[Value],
    right: &[Value],
    prefix: Option<u8>,
) -> bool
    requires some_left { 0 < length left.now }
    requires some_right { 0 < length right.now }
    requires order { is_order relation ≡ true }
    ensures { result ≡ pairs_hold key_cmp relation choice (keys_of prefix left.now) (keys_of prefix right.now) }
{
    let extreme = decisive(relation, choice);
    let end = end_of(extreme, left, prefix);
    let other = end_of(opposite(extreme), right, prefix);
    holds_in(relation, end.cmp(&other))
}

/// The least or the greatest key of values.
#[tactic(auto, using(crate::proofs::KeyLemmas::end_begins))]
fn end_of(extreme: Extreme, values: &[Value], prefix: Option<u8>) -> Key<'_>
    requires { 0 < length values.now }
    ensures { key_shown result ≡ end_of extreme (keys_of prefix values.now) }
{
    let mut end = key_of(prefix, &values[0]);
    for value in values {
        end = further(extreme, &end, &key_of(prefix, value));
    }
    end
}

/// Of two keys the lesser or the greater.
fn further<'v>(extreme: Extreme, key: &Key<'v>, other: &Key<'v>) -> Key<'v>
    ensures { key_shown result ≡ further_key key_cmp extreme (key_shown key.now) (key_shown other.now) }
{
    let order = other.cmp(key);
    let is_further = match extreme {
        Extreme::Least => order.is_lt(),
        Extreme::Greatest => order.is_gt(),
    };
    if is_further { *other } else { *key }
}

/// Which end of the left values decides whether any or all pairs stand in an order; of the right ones it is the
/// opposite end.
fn decisive(relation: Relation, choice: Choice) -> Extreme
    ensures { result ≡ decisive relation choice }
{
    match choice {
        Choice::Any => favoured(relation),
        Choice::All => opposite(favoured(relation)),
    }
}

/// The end of the left values at which the order holds first.
fn favoured(relation: Relation) -> Extreme
    ensures { result ≡ favoured relation }
{
    match relation {
        Relation::Less | Relation::AtMost => Extreme::Least,
        _ => Extreme::Greatest,
    }
}

fn opposite(extreme: Extreme) -> Extreme
    ensures { result ≡ opposite extreme }
{
    match extreme {
        Extreme::Least => Extreme::Greatest,
        Extreme::Greatest => Extreme::Least,
    }
}
