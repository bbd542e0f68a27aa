// The fields of links.
ghost use Rattle.std.specs.Prelude.{◌≡◌, ◌||◌, ℕ, true};
ghost use Rattle.std.specs.List.{AllByRecursion as Each};
ghost use Rattle.pk_fields.specs.AddedFields.{adds};
ghost use Rattle.pk_fields.specs.FieldSets.{is_in};
ghost use Rattle.second_pass.specs.Laws.{link_fields};

use pk_fields::{FieldId, FieldSet, ids};

/// The fields that links are read from, and those that show them.
const LINK_FIELDS: [FieldId; 19] = [
    ids::IP_FRAGMENT,
    ids::IPV6_FRAGMENT,
    ids::TCP_SEGMENT,
    ids::DNS_ID,
    ids::DNS_FLAGS_RESPONSE,
    ids::DNS_RESPONSE_TO,
    ids::DNS_RESPONSE_IN,
    ids::IP_REASSEMBLED_IN,
    ids::IPV6_REASSEMBLED_IN,
    ids::TCP_REASSEMBLED_IN,
    ids::HTTP_REQUEST,
    ids::HTTP_RESPONSE,
    ids::HTTP_RESPONSE_CODE,
    ids::HTTP_REQUEST_IN,
    ids::HTTP_RESPONSE_IN,
    ids::TCP_STREAM,
    ids::TCP_SRCPORT,
    ids::IP_SRC,
    ids::IPV6_SRC,
];

/// Adds to a set the fields that links are read from, and those that show them, with their protocols, and nothing else.
/// Trees with the items of such a set's fields alone get the links that the whole trees get.
pub fn add_fields(set: &mut FieldSet)
    ensures added { (f : ℕ) → is_in set.new f ≡ (adds link_fields f || is_in set.old f) }
    ensures fields { Each (λ field. is_in set.new field ≡ true) link_fields }
    ensures kept { (field : ℕ) → is_in set.old field ≡ true → is_in set.new field ≡ true }
{
    set.add_all(&LINK_FIELDS)
}
