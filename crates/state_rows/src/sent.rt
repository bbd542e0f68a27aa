ghost use Rattle.std.specs.Prelude.{◌≤◌};
ghost use Rattle.tcp_streams.specs.PlacesStanding.{places_taken};
ghost use Rattle.tcp_streams.specs.Standing.{bytes_so_far, taken_so_far};
ghost use Rattle.tcp_messages.specs.Standing.{streams_in};

use pk_base::{Address, Endpoint, NoMemory, Octets};
use std::alloc::Global;
use stream_messages::Framer;
use tcp_messages::{MessageStreams, Met};
use tcp_streams::{Segment, StreamPlaces, Taken};

/// Streams of a framing, and how many frames and bytes were sent to them.
#[derive(Drop)]
pub(crate) struct Sent {
    pub(crate) streams: MessageStreams,
    /// The same streams by their numbers alone, and how many segments these took.
    places: StreamPlaces,
    placed: u32,
    framer: Option<Framer>,
    /// Whether bytes are let go that no later message needs.
    pub(crate) lets_go: bool,
    frames: u32,
    bytes: u64,
    ghost few_places: { places_taken places ≤ placed },
    ghost few: { taken_so_far (streams_in streams) ≤ frames },
    ghost few_bytes: { bytes_so_far (streams_in streams) ≤ bytes },
}

impl Sent {
    pub(crate) fn new(alloc: Global, framer: Option<Framer>, lets_go: bool) -> Sent {
        Sent {
            streams: MessageStreams::new(alloc),
            places: StreamPlaces::new(alloc),
            placed: 0,
            framer,
            lets_go,
            frames: 0,
            bytes: 0,
        }
    }

    /// Sends a segment in the next frame; frames are numbered from 1.
    pub(crate) fn send(&mut self, mut segment: Segment) -> Result<Met, NoMemory> {
        let bytes = self
            .bytes
            .saturating_add(segment.payload.bytes().len() as u64);
        let Some(frames) = self.frames.checked_add(1) else {
            return Err(NoMemory);
        };
        if bytes >= 1 << 32 {
            return Err(NoMemory);
        }
        segment.frame = frames;
        self.frames = frames;
        self.bytes = bytes;
        if self.lets_go {
            self.streams.take_and_let_go(&segment, self.framer)
        } else {
            self.streams.take(&segment, self.framer)
        }
    }

    /// What a segment is to the streams by their numbers alone.
    pub(crate) fn place(&mut self, segment: &Segment) -> Result<Taken, NoMemory> {
        let Some(placed) = self.placed.checked_add(1) else {
            return Err(NoMemory);
        };
        self.placed = placed;
        self.places.take(segment)
    }
}

/// Gives streams up, whose destructor is written out at each place where they are dropped.
pub(crate) fn give_up(_sent: Sent) {}

fn endpoint(address: u32, port: u16) -> Endpoint {
    Endpoint {
        address: Address::Four(address),
        port,
    }
}

/// The two ends of a segment by its sender.
pub(crate) fn ends_of(sender: &str) -> Option<(Endpoint, Endpoint)> {
    let client = endpoint(0x0a00_0001, 4000);
    let server = endpoint(0x0a00_0002, 80);
    let other = endpoint(0x0a00_0003, 4000);
    match sender {
        "client" => Some((client, server)),
        "server" => Some((server, client)),
        "other" => Some((other, server)),
        "to-other" => Some((server, other)),
        "itself" => Some((client, client)),
        _ => None,
    }
}

/// What a segment's header says, without its bytes.
#[derive(Clone, Copy)]
pub(crate) struct Head {
    pub(crate) ends: (Endpoint, Endpoint),
    pub(crate) seq: u32,
    pub(crate) ack: Option<u32>,
    pub(crate) syn: bool,
}

impl Head {
    pub(crate) fn segment(&self, payload: Octets) -> Segment {
        let (from, to) = self.ends;
        Segment {
            frame: 0,
            from,
            to,
            seq: self.seq,
            ack: self.ack.unwrap_or(0),
            syn: self.syn,
            acked: self.ack.is_some(),
            payload,
        }
    }
}
