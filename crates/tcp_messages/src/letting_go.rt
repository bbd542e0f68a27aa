ghost use Rattle.std.specs.Prelude.{◌≡◌, ◌==◌, ◌+◌, ◌≤◌, ◌<◌, ℕ, List, Option, true, length, IfOk, OnOk};
ghost use Rattle.tcp_streams.specs.declared.segment.Segment.{Segment as SegmentValue};
ghost use Rattle.tcp_streams.specs.Labels.{labels};
ghost use Rattle.tcp_streams.specs.LetGo.{StandsFrom};
ghost use Rattle.tcp_streams.specs.Standing.{AreReady, stream_count, streams_of, way_in};
ghost use Rattle.stream_messages.specs.declared.framer.Framer.{Framer as FramerValue};
ghost use Rattle.stream_messages.specs.Cursors.{goes, next_at};
ghost use Rattle.tcp_messages.specs.LetGo.{AreReadersLetGo, IsLetGoOf, IsMovedOn, IsReaderLetGo, IsSameCount, IsSettled, IsStreamLetGo, gone_of};
ghost use Rattle.tcp_messages.specs.Readers.{AreSound, ReadsStreamsFrom, starts_of};

use crate::readers::{Reader, Readers};
use pk_base::NoMemory;
use std::mem;
use stream_messages::Cursor;
use tcp_streams::Streams;

/// Lets go of the bytes of a direction that no later message needs: those before the next one, or all where none comes or it isn't known
/// where messages end.
pub(crate) fn let_go(
    streams: &mut Streams,
    readers: &mut Vec<Option<Readers>>,
    stream: u32,
    side: u8,
) -> Result<(), NoMemory>
    requires ready { AreReady streams.old }
    requires stream { stream < stream_count streams.old }
    requires side { side < 2 }
    requires sound { AreSound streams.old readers.old.items }
    ensures sound { OnOk result (AreSound streams.new readers.new.items) }
    ensures stands { OnOk result ((past : List SegmentValue) → StandsFrom past streams.old → StandsFrom past streams.new) }
    ensures reads { OnOk result ((framer_of : SegmentValue → Option FramerValue) (past : List SegmentValue) → StandsFrom past streams.old
        → ReadsStreamsFrom framer_of (starts_of (streams_of streams.old)) (labels past) readers.old.items
        → ReadsStreamsFrom framer_of (starts_of (streams_of streams.new)) (labels past) readers.new.items) }
    ensures count { OnOk result (stream_count streams.new ≡ stream_count streams.old) }
    ensures counted { IsSameCount streams.old streams.new }
{
    let_go_of(streams, &mut readers[stream as usize], stream, side)
}

/// The same of a stream's readers, where it has some.
fn let_go_of(
    streams: &mut Streams,
    readers: &mut Option<Readers>,
    stream: u32,
    side: u8,
) -> Result<(), NoMemory>
    requires ready { AreReady streams.old }
    requires stream { stream < stream_count streams.old }
    requires side { side < 2 }
    ensures counted { IsSameCount streams.old streams.new }
    ensures let_go { OnOk result (IsStreamLetGo stream (side == 1) streams.old streams.new readers.old readers.new) }
{
    match readers {
        Some(readers) => readers.let_go(streams, stream, side),
        None => let_go_all(streams, stream, side),
    }
}

/// Lets go of all bytes of a direction.
fn let_go_all(streams: &mut Streams, stream: u32, side: u8) -> Result<(), NoMemory>
    requires ready { AreReady streams.old }
    requires stream { stream < stream_count streams.old }
    requires side { side < 2 }
    ensures counted { IsSameCount streams.old streams.new }
    ensures let_go { OnOk result ((to : ℕ) × IsLetGoOf stream (side == 1) to streams.old streams.new) }
{
    let len = streams.front(stream, side).len();
    give_up(streams, stream, side, len)?;
    Ok(())
}

impl Readers {
    /// Lets go of the bytes of one side that no later message needs.
    fn let_go(&mut self, streams: &mut Streams, stream: u32, side: u8) -> Result<(), NoMemory>
        requires ready { AreReady streams.old }
        requires stream { stream < stream_count streams.old }
        requires side { side < 2 }
        ensures counted { IsSameCount streams.old streams.new }
        ensures let_go { OnOk result (AreReadersLetGo stream (side == 1) streams.old streams.new self.old self.new) }
    {
        if side == 1 {
            self.one.let_go(streams, stream, side)
        } else {
            self.zero.let_go(streams, stream, side)
        }
    }
}

impl Reader {
    /// Lets go of the bytes of its direction that no later message needs.
    fn let_go(&mut self, streams: &mut Streams, stream: u32, side: u8) -> Result<(), NoMemory>
        requires ready { AreReady streams.old }
        requires stream { stream < stream_count streams.old }
        requires side { side < 2 }
        ensures counted { IsSameCount streams.old streams.new }
        ensures let_go { OnOk result (IsReaderLetGo stream (side == 1) streams.old streams.new self.old self.new) }
    {
        let len = streams.front(stream, side).len();
        let spare = self.settle(len);
        let gone = give_up(streams, stream, side, spare)?;
        self.move_on(gone);
        Ok(())
    }

    /// How many of its direction's bytes in order, of which so many are there, no later message needs.
    fn settle(&mut self, len: usize) -> usize
        ensures settled { IsSettled self.old self.new len result }
        ensures within { result ≤ len }
    {
        let cursor = mem::replace(&mut self.cursor, Cursor::first());
        self.cursor = cursor.settled();
        self.cursor.spare(len)
    }

    /// So many of its direction's bytes were let go.
    fn move_on(&mut self, gone: usize)
        requires { goes self.old.cursor.next ≡ true → gone ≤ next_at self.old.cursor.mark }
        ensures { IsMovedOn gone self.old self.new }
    {
        let cursor = mem::replace(&mut self.cursor, Cursor::first());
        self.cursor = cursor.moved(gone);
    }
}

/// Lets go of some or all of so many bytes of a direction's last stretch, and answers how many went.
fn give_up(streams: &mut Streams, stream: u32, side: u8, spare: usize) -> Result<usize, NoMemory>
    requires ready { AreReady streams.old }
    requires stream { stream < stream_count streams.old }
    requires side { side < 2 }
    requires spare { spare ≤ length (way_in streams.old stream side).front }
    ensures counted { IsSameCount streams.old streams.new }
    ensures gone { IfOk result (λ gone. (gone ≤ spare) × (gone ≡ gone_of stream (side == 1) streams.old streams.new)) }
    ensures let_go { OnOk result (IsLetGoOf stream (side == 1) ((way_in streams.old stream side).start + spare) streams.old streams.new) }
{
    let start = streams.front_start(stream, side);
    streams.let_go(stream, side, start + spare as u64)?;
    let gone = streams.front_start(stream, side) - start;
    Ok(gone as usize)
}
