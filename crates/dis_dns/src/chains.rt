ghost use Rattle.std.specs.Prelude.{◌≡◌, ℕ, ◌<◌, ◌^◌, length, slice_index, IfOk};
ghost use Rattle.dis_dns.specs.Chains.{AreChainEnds, IsChainEnd};

use crate::names::{POINTER, target_at};
use pk_base::NoMemory;
use std::alloc::Global;

/// As many places as a pointer's 14 bits can name.
const POINTED_PLACES: usize = 16_384;

/// The ends of the chains of bare pointers in a message: for each place that a pointer can name, where the chain from it
/// on ends. Each is found in one step from those before it.
pub(crate) fn chain_ends(alloc: Global, bytes: &[u8]) -> Result<Vec<u16>, NoMemory>
    ensures { IfOk result (λ ends. AreChainEnds bytes.now ends.items) }
{
    let places = bytes.len().min(POINTED_PLACES);
    let mut ends = Vec::with_capacity(alloc, places)?;
    for place in 0..places {
        let end = chain_end(bytes, &ends, place);
        ends.push(end)?;
    }
    Ok(ends)
}

/// Where the chain from a place on ends, by the ends for the places before it.
fn chain_end(bytes: &[u8], ends: &[u16], place: usize) -> u16
    requires place { place < length bytes.now }
    requires most { place < 2 ^ 14 }
    requires size { length ends.now ≡ place }
    requires each { (before : ℕ) → before < place
        → IsChainEnd bytes.now before (slice_index ends.now before) }
    ensures { IsChainEnd bytes.now place result }
{
    if bytes.len() - place < 2 || usize::from(bytes[place]) < POINTER {
        return place as u16;
    }
    let target = target_at(bytes, place);
    if target < place {
        ends[target]
    } else {
        place as u16
    }
}
