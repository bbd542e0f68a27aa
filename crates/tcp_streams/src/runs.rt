// Runs of positions by where they start, each with its end.
ghost use Rattle.std.specs.Prelude.{◌≡◌, ◌<◌, ◌≤◌, ℕ, [], ◌∷◌, None, IfSome, IfNone, OnOk, option_map};
ghost use Rattle.std.specs.List.{slice_get};
ghost use Rattle.std.specs.BTreeMap.{insert_entry};
ghost use Rattle.std.specs.Ordering.{nat_cmp};
ghost use Rattle.tcp_streams.specs.Runs.{end_of_run, BeginsBehind, IsFirstOut, IsLastBegun, IsOneMore};

use pk_base::NoMemory;
use std::collections::BTreeMap;

/// Where the first run begins.
pub(crate) fn first_start(runs: &BTreeMap<u64, u64>) -> Option<u64>
    ensures { result ≡ option_map (λ run. run.0) (slice_get runs.now.entries 0) }
{
    match runs.first_key_value() {
        Some((start, _)) => Some(*start),
        None => None,
    }
}

/// Takes out the first run, if it begins at or before a position, and gives its end.
pub(crate) fn take_first(runs: &mut BTreeMap<u64, u64>, at: u64) -> Option<u64>
    ensures some { IfSome result (λ end. IsFirstOut runs.old.entries runs.new.entries at end) }
    ensures none { IfNone result (runs.new.entries ≡ runs.old.entries) }
    ensures behind { IfNone result (BeginsBehind at runs.new.entries) }
{
    match first_start(runs) {
        Some(start) if start <= at => pop(runs),
        _ => None,
    }
}

/// Takes out the first run, and gives its end.
fn pop(runs: &mut BTreeMap<u64, u64>) -> Option<u64>
    ensures some { IfSome result (λ end. (start : ℕ) × (runs.old.entries ≡ (start, end) ∷ runs.new.entries)) }
    ensures none { IfNone result (runs.new.entries ≡ []) }
    ensures same { IfNone result (runs.new.entries ≡ runs.old.entries) }
{
    match runs.pop_first() {
        Some((_, end)) => Some(end),
        None => None,
    }
}

/// Puts a run in: one that begins in another, or where that ends, makes it longer.
pub(crate) fn put(runs: &mut BTreeMap<u64, u64>, from: u64, to: u64) -> Result<(), NoMemory>
    requires { from < to }
    ensures { OnOk result (IsOneMore runs.old.entries from to runs.new.entries) }
{
    match last_begun(runs, from) {
        Some((start, end)) => {
            if from <= end {
                set(runs, start, to.max(end))
            } else {
                set(runs, from, to)
            }
        }
        None => set(runs, from, to),
    }
}

/// The last run that begins at or before a position.
fn last_begun(runs: &BTreeMap<u64, u64>, at: u64) -> Option<(u64, u64)>
    ensures some { IfSome result (λ run. IsLastBegun runs.now.entries at run.0 run.1) }
    ensures none { IfNone result ((start : ℕ) → start ≤ at → end_of_run start runs.now.entries ≡ None) }
{
    match runs.range(..=at).next_back() {
        Some((start, end)) => Some((*start, *end)),
        None => None,
    }
}

fn set(runs: &mut BTreeMap<u64, u64>, start: u64, end: u64) -> Result<(), NoMemory>
    ensures { OnOk result (runs.new.entries ≡ insert_entry nat_cmp runs.old.entries start end) }
{
    runs.insert(start, end)?;
    Ok(())
}
