ghost use Rattle.std.specs.Prelude.{◌≡◌, ◌==◌, ◌<◌, ◌≤◌, ◌^◌, [], ◌∷◌, Option, List, All, length, slice_get, Some, IfOk, OnOk};
ghost use Rattle.stream_messages.specs.Cursors.{IsSound};
ghost use Rattle.tcp_streams.specs.declared.segment.Segment.{Segment as SegmentValue};
ghost use Rattle.tcp_streams.specs.declared.streams.Streams.{Streams as StreamsValue};
ghost use Rattle.tcp_streams.specs.Labels.{labels};
ghost use Rattle.tcp_streams.specs.Standing.{AreReady, AreStepped, stream_count, streams_of, way_in};
ghost use Rattle.tcp_streams.specs.Ways.{stretches};
ghost use Rattle.stream_messages.specs.declared.framer.Framer.{Framer as FramerValue};
ghost use Rattle.tcp_messages.specs.declared.readers.Readers.{Readers as ReadersValue};
ghost use Rattle.tcp_messages.specs.Readers.{AreSound, ReadsStreamsFrom, reader_of, starts_of};
ghost use Rattle.tcp_messages.specs.Reading.{AreWholeIn, IsBefore, IsOpenedAt, IsNew, IsRead, IsReadAt, IsReadOn, IsSomeWhole};
ghost use Rattle.tcp_messages.specs.Shown.{messages_after};

use crate::cutting::cut_brought;
use crate::readers::{Reader, Readers, push_heads};
use pk_base::NoMemory;
use std::alloc::Global;
use std::mem;
use stream_messages::{Cursor, Framer, PlacedList};
use tcp_streams::{Streams, Taken};

/// The messages that a segment brings. Where the messages of a stream end is known from its first segment on.
pub(crate) fn read_next(
    alloc: Global,
    streams: &Streams,
    readers: &mut Vec<Option<Readers>>,
    taken: &Taken,
    framer: Option<Framer>,
) -> Result<PlacedList, NoMemory>
    requires ready { AreReady streams.now }
    requires sound { (old : StreamsValue) × (s : SegmentValue) × AreReady old × AreSound old readers.old.items × AreStepped s taken.now (streams_of old) (streams_of streams.now) }
    ensures sound { OnOk result (AreSound streams.now readers.new.items) }
    ensures whole { IfOk result (λ messages. All (IsSomeWhole (stretches (way_in streams.now taken.now.stream taken.now.side))) messages) }
    ensures framed { IfOk result (λ messages. (framer_of : SegmentValue → Option FramerValue) (past : List SegmentValue) (s : SegmentValue) (old : StreamsValue)
        → IsBefore framer_of framer past s taken.now old streams.now readers.old.items → AreWholeIn framer (stretches (way_in streams.now taken.now.stream taken.now.side)) messages) }
    ensures few { IfOk result (λ messages. length messages ≤ 2 ^ 25) }
    ensures read { IfOk result (λ messages. (framer_of : SegmentValue → Option FramerValue) (past : List SegmentValue) (s : SegmentValue) (old : StreamsValue)
        → IsBefore framer_of framer past s taken.now old streams.now readers.old.items → messages ≡ messages_after framer past s) }
    ensures stands { OnOk result ((framer_of : SegmentValue → Option FramerValue) (past : List SegmentValue) (s : SegmentValue) (old : StreamsValue)
        → IsBefore framer_of framer past s taken.now old streams.now readers.old.items → ReadsStreamsFrom framer_of (starts_of (streams_of streams.now)) (labels (s ∷ past)) readers.new.items) }
{
    open(alloc, readers, taken.stream, framer)?;
    read_stream(alloc, streams, readers, taken)
}

/// A new stream comes behind the others.
fn open(
    alloc: Global,
    readers: &mut Vec<Option<Readers>>,
    number: u32,
    framer: Option<Framer>,
) -> Result<(), NoMemory>
    ensures { OnOk result (IsOpenedAt framer number readers.old.items readers.new.items) }
{
    if number as usize == readers.len() {
        readers.push(begin(alloc, framer))?;
    }
    Ok(())
}

/// What is kept of a new stream, if it is known where its messages end.
fn begin(alloc: Global, framer: Option<Framer>) -> Option<Readers>
    ensures { IsNew framer result }
{
    Some(Readers::begun(alloc, framer?))
}

/// The messages that a segment brings to its stream.
fn read_stream(
    alloc: Global,
    streams: &Streams,
    readers: &mut Vec<Option<Readers>>,
    taken: &Taken,
) -> Result<PlacedList, NoMemory>
    requires ready { AreReady streams.now }
    requires stream { taken.now.stream < stream_count streams.now }
    requires side { taken.now.side < 2 }
    requires count { length readers.old.items ≡ stream_count streams.now }
    requires sound { (r : ReadersValue) → slice_get readers.old.items taken.now.stream ≡ Some (Some r) → taken.now.lost ≡ []
        → IsSound r.framer (reader_of r (taken.now.side == 1)).cursor (way_in streams.now taken.now.stream taken.now.side).front }
    ensures { IfOk result (λ messages. IsReadAt (way_in streams.now taken.now.stream taken.now.side) taken.now readers.old.items readers.new.items messages) }
{
    let kept = &mut readers[taken.stream as usize];
    match kept {
        Some(readers) => readers.read(alloc, streams, taken),
        None => Ok(PlacedList::from_vec(Vec::new(alloc))),
    }
}

impl Readers {
    /// The messages that a segment brings to its direction.
    fn read(
        &mut self,
        alloc: Global,
        streams: &Streams,
        taken: &Taken,
    ) -> Result<PlacedList, NoMemory>
        requires ready { AreReady streams.now }
        requires stream { taken.now.stream < stream_count streams.now }
        requires side { taken.now.side < 2 }
        requires sound { taken.now.lost ≡ [] → IsSound self.old.framer (reader_of self.old (taken.now.side == 1)).cursor (way_in streams.now taken.now.stream taken.now.side).front }
        ensures { IfOk result (λ messages. IsReadOn (way_in streams.now taken.now.stream taken.now.side) taken.now self.old self.new messages) }
    {
        if taken.side == 1 {
            self.one
                .read(alloc, self.framer, &self.zero.heads, streams, taken)
        } else {
            self.zero
                .read(alloc, self.framer, &self.one.heads, streams, taken)
        }
    }
}

impl Reader {
    /// The messages that a segment brings to this direction. `heads` are the requests that the other one has shown: whether the
    /// method of each is HEAD.
    fn read(
        &mut self,
        alloc: Global,
        framer: Framer,
        heads: &[bool],
        streams: &Streams,
        taken: &Taken,
    ) -> Result<PlacedList, NoMemory>
        requires ready { AreReady streams.now }
        requires stream { taken.now.stream < stream_count streams.now }
        requires side { taken.now.side < 2 }
        requires sound { taken.now.lost ≡ [] → IsSound framer self.old.cursor (way_in streams.now taken.now.stream taken.now.side).front }
        ensures { IfOk result (λ messages. IsRead framer heads.now (way_in streams.now taken.now.stream taken.now.side) taken.now.lost self.old self.new messages) }
    {
        let cursor = mem::replace(&mut self.cursor, Cursor::first());
        let shown = cut_brought(alloc, framer, streams, taken, cursor, heads)?;
        self.cursor = shown.cursor;
        push_heads(&mut self.heads, shown.messages.slice())?;
        Ok(shown.messages)
    }
}
