ghost use Rattle.std.specs.Prelude.{◌≡◌, ◌+◌, ◌-◌, ◌^◌, ◌≤◌, ◌<◌, length, IfOk, OnOk};
ghost use Rattle.range_bytes.specs.Held.{bytes_at};
ghost use Rattle.range_bytes.specs.Joined.{front_end};
ghost use Rattle.tcp_streams.specs.Numbers.{window};
ghost use Rattle.tcp_streams.specs.Gaps.{next_from, gaps_behind, start_past, end_past, left_behind};
ghost use Rattle.tcp_streams.specs.Ways.{IsPlace};

use pk_base::{Lost, NoMemory, Stretch};
use range_bytes::JoinedRanges;
use std::alloc::Global;

/// What passing over gaps leaves: the gaps, and the stretches before them.
#[derive(Drop)]
pub(crate) struct Passed {
    pub lost: Vec<Lost>,
    pub left: Vec<Stretch>,
}

/// Passes over the gaps behind a front end that the other side has acknowledged past.
pub(crate) fn pass(alloc: Global, held: &mut JoinedRanges, acked: u64) -> Result<Passed, NoMemory>
    requires place { IsPlace held.old.held held.old.start (front_end held.old) }
    requires bytes { held.old.front ≡ bytes_at held.old.held held.old.start (length held.old.front) }
    requires room { front_end held.old < 2 ^ 61 }
    ensures held { OnOk result (held.new.held ≡ held.old.held) }
    ensures lost { IfOk result (λ p. p.lost.items ≡ gaps_behind held.old.held acked (front_end held.old)) }
    ensures left { IfOk result (λ p. p.left.items ≡ left_behind held.old.held held.old.start (gaps_behind held.old.held acked (front_end held.old))) }
    ensures start { OnOk result (held.new.start ≡ start_past held.old.start (gaps_behind held.old.held acked (front_end held.old))) }
    ensures end { OnOk result (front_end held.new ≡ end_past held.old.held (front_end held.old) (gaps_behind held.old.held acked (front_end held.old))) }
    ensures place { OnOk result (IsPlace held.old.held held.new.start (front_end held.new)) }
    ensures near { OnOk result (front_end held.new ≤ front_end held.old + window) }
    ensures later { held.old.start ≤ held.new.start }
{
    let mut passed = Passed {
        lost: Vec::new(alloc),
        left: Vec::new(alloc),
    };
    while let Some(next) = next_within(held, acked) {
        let start = held.start();
        let end = held.end();
        let bytes = held.begin(next)?;
        passed.left.push(Stretch { start, bytes })?;
        passed.lost.push(Lost {
            from: end,
            to: next,
        })?;
    }
    Ok(passed)
}

/// The least position past the front end that is held, if it is acknowledged.
fn next_within(held: &JoinedRanges, acked: u64) -> Option<u64>
    requires { front_end held.now < 2 ^ 62 }
    ensures { result ≡ next_from (acked - front_end held.now) held.now.held (front_end held.now + 1) }
{
    let front = held.end();
    if acked <= front {
        return None;
    }
    match held.next_held(front + 1) {
        Some(next) if next <= acked => Some(next),
        _ => None,
    }
}
