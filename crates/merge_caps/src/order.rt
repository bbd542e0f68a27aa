ghost use Rattle.std.specs.Prelude.{OnOk};
ghost use Rattle.merge_caps.specs.Merged.{IsInOrder};

use crate::place::Entry;
use pk_base::NoMemory;

/// Puts frames into the order of their places.
pub(crate) fn put_in_order(entries: &mut Vec<Entry>) -> Result<(), NoMemory>
    ensures { OnOk result (IsInOrder entries.old.items entries.new.items) }
{
    entries.sort_by_key(|entry| entry.place)?;
    Ok(())
}
