ghost use Rattle.std.specs.Prelude.{◌≡◌, ◌^◌, ◌<◌};
ghost use Rattle.tcp_streams.specs.Gaps.{lost_bytes};
ghost use Rattle.tcp_streams.specs.Labels.{PassesNear};

use pk_base::{Endpoint, LostList, Octets};

/// A segment of TCP: its frame's number, its ends, what its header says, and its bytes (RFC 9293, 3.1).
pub struct Segment {
    pub frame: u32,
    pub from: Endpoint,
    pub to: Endpoint,
    pub seq: u32,
    pub ack: u32,
    pub syn: bool,
    /// Whether the acknowledgment number counts.
    pub acked: bool,
    pub payload: Octets,
}

impl Drop for Segment {
    fn drop(self) {
        let Segment {
            frame: _,
            from: _,
            to: _,
            seq: _,
            ack: _,
            syn: _,
            acked: _,
            payload: _payload,
        } = self;
    }
}

/// What a segment is to the streams that were there before it.
#[derive(Drop)]
pub struct Taken {
    /// The number of its stream.
    pub stream: u32,
    /// 0 where its sender sent the stream's first segment, else 1.
    pub side: u8,
    /// The sequence number, counted so that the byte at position 0 has number 1.
    pub seq: u32,
    /// The acknowledgment number, counted in the same way, where it counts and the other direction's origin is known.
    pub ack: Option<u32>,
    /// The position of its first byte.
    pub position: i64,
    /// The front end before the segment, and before the gaps that it passes.
    pub front_before: u64,
    pub front_after: u64,
    /// The gaps that it passes.
    pub lost: LostList,
}

impl Taken {
    /// How many bytes the gaps have that the segment passes. Takes no memory.
    pub fn lost_bytes(&self) -> u32
        requires { PassesNear self.now }
        ensures bytes { result ≡ lost_bytes self.now.lost }
        ensures fits { result < 2 ^ 32 }
    {
        let mut bytes = 0;
        for gap in self.lost.slice() {
            bytes += gap.to - gap.from;
        }
        bytes as u32
    }
}
