// The fields that the tables read.
ghost use Rattle.std.specs.Prelude.{◌≡◌, ◌||◌, ℕ, true};
ghost use Rattle.std.specs.List.{AllByRecursion as Each};
ghost use Rattle.pk_fields.specs.AddedFields.{adds};
ghost use Rattle.pk_fields.specs.FieldSets.{is_in};
ghost use Rattle.cap_stats.specs.Laws.{fields_of};

use crate::kind::StatKind;
use pk_fields::{FieldSet, ids};

/// Adds to a set the fields that the table of a kind reads, with their protocols, and nothing else. Trees with the items
/// of such a set's fields alone have the same table as the whole trees.
pub fn add_fields(kind: StatKind, set: &mut FieldSet)
    ensures added { (f : ℕ) → is_in set.new f ≡ (adds (fields_of kind) f || is_in set.old f) }
    ensures fields { Each (λ field. is_in set.new field ≡ true) (fields_of kind) }
    ensures kept { (field : ℕ) → is_in set.old field ≡ true → is_in set.new field ≡ true }
{
    match kind {
        StatKind::ConvTcp => set.add_all(&[
            ids::FRAME_LEN,
            ids::TCP_STREAM,
            ids::TCP_SRCPORT,
            ids::TCP_DSTPORT,
            ids::IP_SRC,
            ids::IP_DST,
            ids::IPV6_SRC,
            ids::IPV6_DST,
        ]),
        StatKind::ConvIp => set.add_all(&[ids::FRAME_LEN, ids::IP_SRC, ids::IP_DST]),
        StatKind::Phs => set.add_all(&[ids::FRAME_LEN]),
    }
}
