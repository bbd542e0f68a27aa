ghost use Rattle.std.specs.Prelude.{◌≡◌, ◌-◌, ◌<◌, [], All, length, drop, IfOk};
ghost use Rattle.tcp_streams.specs.Ways.{stretches};
ghost use Rattle.tcp_streams.specs.Standing.{AreReady, stream_count, way_in};
ghost use Rattle.stream_messages.specs.Cursors.{IsSound, IsWholeInOne};
ghost use Rattle.tcp_messages.specs.Readers.{IsRight};
ghost use Rattle.tcp_messages.specs.Reading.{AreFew, CutsFrom};

use pk_base::{NoMemory, Stretch};
use std::alloc::Global;
use stream_messages::{Cursor, Framer, Shown, cut_messages, cut_newest};
use tcp_streams::{Streams, Taken};

/// Cuts the messages that a segment brings, behind its direction's cursor. `heads` are the requests that the other direction has
/// shown: whether the method of each is HEAD. Where the segment passes gaps, the stretches behind them are cut from the first
/// byte on.
pub(crate) fn cut_brought(
    alloc: Global,
    framer: Framer,
    streams: &Streams,
    taken: &Taken,
    cursor: Cursor,
    heads: &[bool],
) -> Result<Shown, NoMemory>
    requires ready { AreReady streams.now }
    requires stream { taken.now.stream < stream_count streams.now }
    requires side { taken.now.side < 2 }
    requires sound { taken.now.lost ≡ [] → IsSound framer cursor (way_in streams.now taken.now.stream taken.now.side).front }
    ensures right { IfOk result (λ shown. IsRight framer shown.cursor (way_in streams.now taken.now.stream taken.now.side).front) }
    ensures few { IfOk result (λ shown. AreFew framer (way_in streams.now taken.now.stream taken.now.side) taken.now.lost cursor shown.messages) }
    ensures whole { IfOk result (λ shown. All (IsWholeInOne framer (stretches (way_in streams.now taken.now.stream taken.now.side))) shown.messages) }
    ensures cut { IfOk result (λ shown. CutsFrom framer heads.now (way_in streams.now taken.now.stream taken.now.side) taken.now.lost cursor shown) }
{
    let start = streams.front_start(taken.stream, taken.side);
    let front = streams.front(taken.stream, taken.side);
    let gaps = taken.lost.slice().len();
    if gaps == 0 {
        return cut_messages(alloc, framer, start, front, cursor, heads);
    }
    let passed = last_of(streams.earlier(taken.stream, taken.side), gaps - 1);
    cut_newest(alloc, framer, passed, start, front, cursor, heads)
}

/// The last so many of stretches.
fn last_of(stretches: &[Stretch], count: usize) -> &[Stretch]
    ensures { result.now ≡ drop (length stretches.now - count) stretches.now }
{
    &stretches[stretches.len().saturating_sub(count)..]
}
