ghost use Rattle.std.specs.Prelude.{◌≡◌, ◌+◌, ◌-◌, ◌^◌, ◌<◌, ◌≤◌, List, [], ◌∷◌, length, All, Option, IfOk, OnOk};
ghost use Rattle.std.specs.Result.{IsErr};
ghost use Rattle.tcp_streams.specs.declared.segment.Segment.{Segment as SegmentValue};
ghost use Rattle.tcp_streams.specs.Labels.{taken_after, PassesNear};
ghost use Rattle.tcp_streams.specs.LetGo.{StandsFrom};
ghost use Rattle.tcp_streams.specs.Standing.{StandsFor, bytes_so_far, stream_count, taken_so_far};
ghost use Rattle.stream_messages.specs.declared.framer.Framer.{Framer as FramerValue};
ghost use Rattle.tcp_messages.specs.Shown.{AreFramedIn, IsWholeIn, frames_told as frames_value, shown_after};
ghost use Rattle.tcp_messages.specs.Readers.{IsOfEnds};
ghost use Rattle.tcp_messages.specs.Standing.{ReadsFor, ReadsFrom, streams_in};

use crate::kept::Kept;
use crate::letting_go::let_go;
use crate::locating::{frames_told, locate_all};
use crate::met::Met;
use crate::reading::read_next;
use pk_base::NoMemory;
use std::alloc::Global;
use stream_messages::Framer;
use tcp_streams::{Segment, Streams};

/// TCP streams, and the messages that their segments bring.
pub struct MessageStreams {
    alloc: Global,
    pub(crate) kept: Kept,
}

impl Drop for MessageStreams {
    fn drop(self) {
        let MessageStreams {
            alloc: _,
            kept: _kept,
        } = self;
    }
}

impl MessageStreams {
    /// No segment was taken. Takes no memory.
    pub fn new(alloc: Global) -> MessageStreams
        ensures stands { (framer_of : SegmentValue → Option FramerValue) → ReadsFor framer_of [] result }
        ensures from { (framer_of : SegmentValue → Option FramerValue) → ReadsFrom framer_of [] result }
        ensures taken { taken_so_far (streams_in result) ≡ 0 }
        ensures bytes { bytes_so_far (streams_in result) ≡ 0 }
    {
        MessageStreams {
            alloc,
            kept: Kept {
                streams: Streams::new(alloc),
                readers: Vec::new(alloc),
                spent: false,
            },
        }
    }

    /// The streams. Takes no memory.
    pub fn streams(&self) -> &Streams
        ensures streams { result.now ≡ streams_in self.now }
        ensures stands { (framer_of : SegmentValue → Option FramerValue) (past : List SegmentValue) → ReadsFor framer_of past self.now → StandsFor past result.now }
        ensures from { (framer_of : SegmentValue → Option FramerValue) (past : List SegmentValue) → ReadsFrom framer_of past self.now → StandsFrom past result.now }
    {
        &self.kept.streams
    }

    /// Takes a segment, and tells what it is to those before it, and which messages its frame shows: those of its direction
    /// that end past the bytes before it, where it is known where those of its stream end. After `NoMemory` nothing more is known.
    pub fn take(&mut self, s: &Segment, framer: Option<Framer>) -> Result<Met, NoMemory>
        requires taken { taken_so_far (streams_in self.old) < 2 ^ 32 - 1 }
        requires bytes { bytes_so_far (streams_in self.old) + length s.now.payload < 2 ^ 32 }
        ensures taken { IfOk result (λ met. (past : List SegmentValue) → StandsFor past (streams_in self.old) → met.taken ≡ taken_after past s.now) }
        ensures shown { IfOk result (λ met. (framer_of : SegmentValue → Option FramerValue) (past : List SegmentValue)
            → IsOfEnds framer_of → framer ≡ framer_of s.now → ReadsFor framer_of past self.old → met.messages ≡ shown_after framer past s.now) }
        ensures taken_from { IfOk result (λ met. (past : List SegmentValue) → StandsFrom past (streams_in self.old) → met.taken ≡ taken_after past s.now) }
        ensures shown_from { IfOk result (λ met. (framer_of : SegmentValue → Option FramerValue) (past : List SegmentValue)
            → IsOfEnds framer_of → framer ≡ framer_of s.now → ReadsFrom framer_of past self.old → met.messages ≡ shown_after framer past s.now) }
        ensures frames { IfOk result (λ met. met.frames ≡ frames_value met.messages) }
        ensures whole { IfOk result (λ met. All (IsWholeIn s.now.payload) met.messages) }
        ensures framed { IfOk result (λ met. (framer_of : SegmentValue → Option FramerValue) (past : List SegmentValue)
            → IsOfEnds framer_of → framer ≡ framer_of s.now → ReadsFor framer_of past self.old → AreFramedIn framer s.now.payload met.messages) }
        ensures stands { OnOk result ((framer_of : SegmentValue → Option FramerValue) (past : List SegmentValue)
            → IsOfEnds framer_of → framer ≡ framer_of s.now → ReadsFor framer_of past self.old → ReadsFor framer_of (s.now ∷ past) self.new) }
        ensures stands_from { OnOk result ((framer_of : SegmentValue → Option FramerValue) (past : List SegmentValue)
            → IsOfEnds framer_of → framer ≡ framer_of s.now → ReadsFrom framer_of past self.old → ReadsFrom framer_of (s.now ∷ past) self.new) }
        ensures framed_from { IfOk result (λ met. (framer_of : SegmentValue → Option FramerValue) (past : List SegmentValue)
            → IsOfEnds framer_of → framer ≡ framer_of s.now → ReadsFrom framer_of past self.old → AreFramedIn framer s.now.payload met.messages) }
        ensures place { IfOk result (λ met. (met.taken.stream < stream_count (streams_in self.new)) × (met.taken.side < 2)) }
        ensures near { IfOk result (λ met. PassesNear met.taken) }
        ensures counted { taken_so_far (streams_in self.new) ≤ taken_so_far (streams_in self.old) + 1 }
        ensures bytes { bytes_so_far (streams_in self.new) ≤ bytes_so_far (streams_in self.old) + length s.now.payload }
    {
        let kept = &mut self.kept;
        if kept.spent {
            return Err(NoMemory);
        }
        kept.spent = true;
        let taken = kept.streams.take(s)?;
        let read = read_next(self.alloc, &kept.streams, &mut kept.readers, &taken, framer)?;
        let messages = locate_all(self.alloc, &kept.streams, s, &taken, read)?;
        let frames = frames_told(self.alloc, messages.slice())?;
        kept.spent = false;
        Ok(Met {
            taken,
            messages,
            frames,
        })
    }

    /// Takes a segment and tells the same of it, and then lets go of the bytes of its direction that no later message needs. So the streams
    /// don't have them any more, but what later segments are and show is the same. After `NoMemory` nothing more is known.
    pub fn take_and_let_go(&mut self, s: &Segment, framer: Option<Framer>) -> Result<Met, NoMemory>
        requires taken { taken_so_far (streams_in self.old) < 2 ^ 32 - 1 }
        requires bytes { bytes_so_far (streams_in self.old) + length s.now.payload < 2 ^ 32 }
        ensures taken { IfOk result (λ met. (past : List SegmentValue) → StandsFrom past (streams_in self.old) → met.taken ≡ taken_after past s.now) }
        ensures shown { IfOk result (λ met. (framer_of : SegmentValue → Option FramerValue) (past : List SegmentValue)
            → IsOfEnds framer_of → framer ≡ framer_of s.now → ReadsFrom framer_of past self.old → met.messages ≡ shown_after framer past s.now) }
        ensures frames { IfOk result (λ met. met.frames ≡ frames_value met.messages) }
        ensures whole { IfOk result (λ met. All (IsWholeIn s.now.payload) met.messages) }
        ensures framed { IfOk result (λ met. (framer_of : SegmentValue → Option FramerValue) (past : List SegmentValue)
            → IsOfEnds framer_of → framer ≡ framer_of s.now → ReadsFrom framer_of past self.old → AreFramedIn framer s.now.payload met.messages) }
        ensures stands { OnOk result ((framer_of : SegmentValue → Option FramerValue) (past : List SegmentValue)
            → IsOfEnds framer_of → framer ≡ framer_of s.now → ReadsFrom framer_of past self.old → ReadsFrom framer_of (s.now ∷ past) self.new) }
        ensures place { IfOk result (λ met. (met.taken.stream < stream_count (streams_in self.new)) × (met.taken.side < 2)) }
        ensures near { IfOk result (λ met. PassesNear met.taken) }
        ensures counted { taken_so_far (streams_in self.new) ≤ taken_so_far (streams_in self.old) + 1 }
        ensures bytes { bytes_so_far (streams_in self.new) ≤ bytes_so_far (streams_in self.old) + length s.now.payload }
    {
        let met = self.take(s, framer)?;
        match self.let_go(met.taken.stream, met.taken.side) {
            Ok(()) => Ok(met),
            Err(NoMemory) => refused(met),
        }
    }

    /// Lets go of the bytes of a direction that no later message needs.
    fn let_go(&mut self, stream: u32, side: u8) -> Result<(), NoMemory>
        requires taken { taken_so_far (streams_in self.old) < 2 ^ 32 }
        requires bytes { bytes_so_far (streams_in self.old) < 2 ^ 32 }
        requires stream { stream < stream_count (streams_in self.old) }
        requires side { side < 2 }
        ensures stands { OnOk result ((framer_of : SegmentValue → Option FramerValue) (past : List SegmentValue)
            → ReadsFrom framer_of past self.old → ReadsFrom framer_of past self.new) }
        ensures count { OnOk result (stream_count (streams_in self.new) ≡ stream_count (streams_in self.old)) }
        ensures taken { taken_so_far (streams_in self.new) ≡ taken_so_far (streams_in self.old) }
        ensures bytes { bytes_so_far (streams_in self.new) ≡ bytes_so_far (streams_in self.old) }
    {
        let kept = &mut self.kept;
        if kept.spent {
            return Err(NoMemory);
        }
        kept.spent = true;
        let_go(&mut kept.streams, &mut kept.readers, stream, side)?;
        kept.spent = false;
        Ok(())
    }
}

fn refused<T: Drop>(_met: T) -> Result<Met, NoMemory>
    ensures { IsErr result }
{
    Err(NoMemory)
}
