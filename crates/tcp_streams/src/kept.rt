ghost use Rattle.std.specs.Prelude.{◌≡◌, ◌≤◌, ◌<◌, ◌^◌, length, false};
ghost use Rattle.std.proofs.Props.{props};
ghost use Rattle.tcp_streams.specs.Ways.{apart_prop, short_prop};
ghost use Rattle.tcp_streams.specs.Stands.{AreFilled, IsSound};

use crate::newest::Newest;
use crate::stream::Stream;

/// The streams so far, by their numbers.
#[derive(Drop)]
pub(crate) struct Kept {
    pub newest: Newest,
    pub streams: Vec<Stream>,
    /// How many segments were taken.
    pub taken: u32,
    /// How many bytes these had.
    pub bytes: u32,
    /// Whether a segment found no memory: then nothing more is known of the streams.
    pub spent: bool,
    ghost count: { length streams.items ≤ taken },
    ghost few: { length streams.items < 2 ^ 32 },
    ghost sound: { spent ≡ false → IsSound newest streams.items taken } by { Prim.hlevel (apart_prop, props) },
    ghost filled: { spent ≡ false → AreFilled bytes streams.items } by { Prim.hlevel (short_prop, props) },
}
