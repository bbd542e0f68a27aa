ghost use Rattle.std.specs.Prelude.{◌≡◌, ◌-◌, ◌^◌, ◌<◌, List, Option, drop, length, All, map, pos, ◌-ℤ◌, ◌≤◌, IfOk, IfSome};
ghost use Rattle.range_bytes.specs.Held.{IsFreeFrom, frames_at};
ghost use Rattle.tcp_streams.specs.declared.segment.Segment.{Segment as SegmentValue};
ghost use Rattle.tcp_streams.specs.Parts.{LiesInOne};
ghost use Rattle.tcp_streams.specs.LetGo.{StandsFrom};
ghost use Rattle.tcp_streams.specs.Standing.{AreReady, stream_count, way_for, way_in};
ghost use Rattle.tcp_streams.specs.Ways.{stretches};
ghost use Rattle.stream_messages.specs.Tellings.{end_of};
ghost use Rattle.stream_messages.specs.declared.framer.Framer.{Framer as FramerValue};
ghost use Rattle.stream_messages.specs.Cursors.{IsWholeInOne};
ghost use Rattle.tcp_messages.specs.Reading.{AreWholeIn, IsSomeWhole};
ghost use Rattle.tcp_messages.specs.Shown.{AreFramedIn, IsFramedIn, IsWholeIn, distance, frames_told as frames_value, located, place_of};

use crate::met::{Gathered, ShownList, ShownMessage, Source};
use pk_base::{NoMemory, Numbers, Octets};
use std::alloc::Global;
use std::collections::VecDeque;
use stream_messages::{Placed, PlacedList, Told};
use tcp_streams::{Segment, Streams, Taken};

/// Positions of a direction, from one up to and without another, that are all held; the other isn't.
#[derive(Clone, Copy)]
struct Run {
    from: u64,
    to: u64,
}

/// Finds where the bytes of a segment's messages are.
pub(crate) fn locate_all(
    alloc: Global,
    streams: &Streams,
    s: &Segment,
    taken: &Taken,
    messages: PlacedList,
) -> Result<ShownList, NoMemory>
    requires ready { AreReady streams.now }
    requires stream { taken.now.stream < stream_count streams.now }
    requires side { taken.now.side < 2 }
    requires whole { All (IsSomeWhole (stretches (way_in streams.now taken.now.stream taken.now.side))) messages }
    ensures whole { IfOk result (λ shown. All (IsWholeIn s.now.payload) shown) }
    ensures framed { IfOk result (λ shown. (framer : Option FramerValue)
        → AreWholeIn framer (stretches (way_in streams.now taken.now.stream taken.now.side)) messages → AreFramedIn framer s.now.payload shown) }
    ensures count { IfOk result (λ shown. length shown ≤ length messages) }
    ensures located { IfOk result (λ shown. (past : List SegmentValue) → StandsFrom past streams.now
        → shown ≡ map (located (way_for past taken.now.stream taken.now.side).held s.now taken.now.position) messages) }
{
    let mut shown = Vec::new(alloc);
    let mut rest = VecDeque::from(messages.into_vec());
    let mut held = None;
    while let Some(message) = rest.pop_front() {
        let run = run_at(streams, taken, held, message.at);
        held = Some(run);
        let source = locate(alloc, streams, s, taken, run, &message)?;
        shown.push(ShownMessage { message, source })?;
    }
    Ok(ShownList::from_vec(shown))
}

/// Finds where a message's bytes are.
fn locate(
    alloc: Global,
    streams: &Streams,
    s: &Segment,
    taken: &Taken,
    run: Run,
    message: &Placed,
) -> Result<Source, NoMemory>
    requires ready { AreReady streams.now }
    requires stream { taken.now.stream < stream_count streams.now }
    requires side { taken.now.side < 2 }
    requires run { IsFreeFrom (way_in streams.now taken.now.stream taken.now.side).held run.from run.to }
    requires from { (run.from ≤ message.now.at) × (message.now.at ≤ run.to) }
    requires whole { IsSomeWhole (stretches (way_in streams.now taken.now.stream taken.now.side)) message.now }
    ensures whole { IfOk result (λ source. IsWholeIn s.now.payload (record { message = message.now; source = source })) }
    ensures framed { IfOk result (λ source. (framer : FramerValue)
        → IsWholeInOne framer (stretches (way_in streams.now taken.now.stream taken.now.side)) message.now → IsFramedIn framer s.now.payload (record { message = message.now; source = source })) }
    ensures located { IfOk result (λ source. (past : List SegmentValue) → StandsFrom past streams.now
        → source ≡ (located (way_for past taken.now.stream taken.now.side).held s.now taken.now.position message.now).source) }
{
    let len = len_of(&message.told);
    let to = message.at + u64::from(len);
    let bytes = streams.part(taken.stream, taken.side, message.at, to);
    let frames = frames_of(alloc, streams, taken, run, message.at, to)?;
    if frames.slice() == [s.frame].as_slice() {
        if let Some(place) = place_in(s.payload.bytes(), taken.position, message.at, bytes) {
            return Ok(Source::Segment(place));
        }
    }
    let bytes = Octets::copy(alloc, bytes)?;
    Ok(Source::Gathered(Gathered { bytes, frames }))
}

/// What is held around a position: the run before, where the position lies in it.
fn run_at(streams: &Streams, taken: &Taken, before: Option<Run>, at: u64) -> Run
    requires stream { taken.now.stream < stream_count streams.now }
    requires side { taken.now.side < 2 }
    requires run { IfSome before (λ run. IsFreeFrom (way_in streams.now taken.now.stream taken.now.side).held run.from run.to) }
    ensures run { IsFreeFrom (way_in streams.now taken.now.stream taken.now.side).held result.from result.to }
    ensures from { (result.from ≤ at) × (at ≤ result.to) }
{
    match before {
        Some(run) if run.from <= at && at < run.to => run,
        _ => Run {
            from: at,
            to: streams.first_free(taken.stream, taken.side, at),
        },
    }
}

/// How many bytes a message has.
fn len_of(told: &Told) -> u32
    requires { end_of told.now < 2 ^ 32 }
    ensures { result ≡ end_of told.now }
{
    told.end() as u32
}

/// The frames that brought bytes of a stretch. These are held.
fn frames_of(
    alloc: Global,
    streams: &Streams,
    taken: &Taken,
    run: Run,
    from: u64,
    to: u64,
) -> Result<Numbers, NoMemory>
    requires ready { AreReady streams.now }
    requires stream { taken.now.stream < stream_count streams.now }
    requires side { taken.now.side < 2 }
    requires run { IsFreeFrom (way_in streams.now taken.now.stream taken.now.side).held run.from run.to }
    requires from { (run.from ≤ from) × (from ≤ run.to) }
    requires lies { LiesInOne (stretches (way_in streams.now taken.now.stream taken.now.side)) from to }
    ensures { IfOk result (λ numbers. (past : List SegmentValue) → StandsFrom past streams.now
        → numbers ≡ frames_at (way_for past taken.now.stream taken.now.side).held from (to - from)) }
{
    if to <= run.to {
        streams.origins(taken.stream, taken.side, from, to)
    } else {
        Ok(Numbers::from_vec(Vec::new(alloc)))
    }
}

/// The place of a payload that begins at one position at which bytes stand that begin at another.
fn place_in(payload: &[u8], position: i64, at: u64, bytes: &[u8]) -> Option<usize>
    requires { at < 2 ^ 62 }
    ensures { result ≡ place_of payload.now bytes.now (distance (pos at -ℤ position)) }
{
    let place = usize::try_from(i128::from(at) - i128::from(position)).ok()?;
    if tail(payload, place).starts_with(bytes) {
        Some(place)
    } else {
        None
    }
}

/// The bytes from a place on, if there are any.
fn tail(bytes: &[u8], from: usize) -> &[u8]
    ensures { result.now ≡ drop from bytes.now }
{
    &bytes[from.min(bytes.len())..]
}

/// The frames that brought the gathered ones among messages.
pub(crate) fn frames_told(alloc: Global, shown: &[ShownMessage]) -> Result<Numbers, NoMemory>
    ensures { IfOk result (λ numbers. numbers ≡ frames_value shown.now) }
{
    let mut frames = Vec::new(alloc);
    for message in shown {
        if let Source::Gathered(gathered) = &message.source {
            frames.extend_from_slice(gathered.frames.slice())?;
        }
    }
    frames.sort_unstable();
    frames.dedup();
    Ok(Numbers::from_vec(frames))
}
