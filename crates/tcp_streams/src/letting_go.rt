ghost use Rattle.std.specs.Prelude.{◌≡◌, ◌==◌, ℕ, ◌<◌, ◌≤◌, List, length, Some, slice_get, slice_set, OnOk};
ghost use Rattle.tcp_streams.specs.declared.segment.Segment.{Segment as SegmentValue};
ghost use Rattle.tcp_streams.specs.declared.stream.Stream.{Stream as StreamValue};
ghost use Rattle.tcp_streams.specs.LetGo.{AreLetGo, IsLetGoTo, IsStreamLetGo, StandsFrom};
ghost use Rattle.tcp_streams.specs.Stands.{IsSoundStream};
ghost use Rattle.tcp_streams.specs.Standing.{AreReady, bytes_so_far, stream_count, streams_of, taken_so_far};
ghost use Rattle.tcp_streams.specs.States.{state_of};
ghost use Rattle.tcp_streams.specs.Ways.{IsWay};

// Bytes of streams that are let go.
use crate::stream::Stream;
use crate::streams::Streams;
use crate::way::Way;
use pk_base::NoMemory;

impl Way {
    /// Lets go of all before the last stretch, and of its bytes before a position, once they are more than those behind it. Its last
    /// byte stays, so that each stretch that begins past position 0 has one. After `NoMemory` nothing more is known of the direction.
    fn let_go(&mut self, to: u64) -> Result<(), NoMemory>
        requires { IsWay (state_of self.old) }
        ensures { OnOk result (IsLetGoTo to (state_of self.old) (state_of self.new)) }
    {
        self.earlier = Vec::new(self.alloc);
        let last = self.held.end().saturating_sub(1);
        self.held.let_go(to.min(last))
    }
}

impl Stream {
    /// Lets go of bytes of one direction.
    fn let_go(&mut self, side: bool, to: u64) -> Result<(), NoMemory>
        requires zero { IsWay (state_of self.old.zero) }
        requires one { IsWay (state_of self.old.one) }
        ensures { OnOk result (IsStreamLetGo side to self.old self.new) }
    {
        if side {
            self.one.let_go(to)
        } else {
            self.zero.let_go(to)
        }
    }
}

impl Streams {
    /// Lets go of bytes of a direction, by its stream's number and its side, 0 or 1: of those before a position, some or all, but never of
    /// the last. So they can't be read any more. What later segments are to the streams is the same. After `NoMemory` nothing more is known of
    /// the streams.
    #[tactic(auto, unfolding(crate::specs::LetGo::StandsFrom))]
    pub fn let_go(&mut self, stream: u32, side: u8, to: u64) -> Result<(), NoMemory>
        requires stream { stream < stream_count self.old }
        requires side { side < 2 }
        ensures stands { OnOk result ((past : List SegmentValue) → StandsFrom past self.old → StandsFrom past self.new) }
        ensures ways { OnOk result (AreLetGo stream (side == 1) to (streams_of self.old) (streams_of self.new)) }
        ensures ready { OnOk result (AreReady self.old → AreReady self.new) }
        ensures taken { taken_so_far self.new ≡ taken_so_far self.old }
        ensures bytes { bytes_so_far self.new ≡ bytes_so_far self.old }
    {
        let kept = &mut self.kept;
        if kept.spent {
            return Err(NoMemory);
        }
        kept.spent = true;
        let_go_in(&mut kept.streams, stream, side == 1, to)?;
        kept.spent = false;
        Ok(())
    }
}

/// Lets go of bytes of a stream that is there.
fn let_go_in(streams: &mut Vec<Stream>, number: u32, side: bool, to: u64) -> Result<(), NoMemory>
    requires within { number < length streams.old.items }
    requires sound { (taken : ℕ) × ((old : StreamValue) → slice_get streams.old.items number ≡ Some old → IsSoundStream taken old) }
    ensures count { length streams.new.items ≡ length streams.old.items }
    ensures let_go { OnOk result ((old : StreamValue) → slice_get streams.old.items number ≡ Some old → (new : StreamValue)
        × (streams.new.items ≡ slice_set streams.old.items number new) × IsStreamLetGo side to old new) }
{
    let stream = &mut streams[number as usize];
    stream.let_go(side, to)
}
