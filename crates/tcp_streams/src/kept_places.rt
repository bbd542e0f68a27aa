ghost use Rattle.std.specs.Prelude.{◌≡◌, ◌≤◌, ◌<◌, ◌^◌, length, false};
ghost use Rattle.std.proofs.Props.{props};
ghost use Rattle.tcp_streams.specs.Runs.{ahead_prop};
ghost use Rattle.tcp_streams.specs.PlacesKept.{ArePlacesSound};

use crate::followed::Followed;
use crate::newest::Newest;

/// The streams so far, by their numbers.
pub(crate) struct KeptPlaces {
    pub newest: Newest,
    pub streams: Vec<Followed>,
    /// How many segments were taken.
    pub taken: u32,
    /// Whether a segment found no memory: then nothing more is known of the streams.
    pub spent: bool,
    ghost count: { length streams.items ≤ taken },
    ghost few: { length streams.items < 2 ^ 32 },
    ghost sound: { spent ≡ false → ArePlacesSound newest streams.items taken } by { Prim.hlevel (ahead_prop, props) },
}

impl Drop for KeptPlaces {
    fn drop(self) {
        let KeptPlaces {
            newest: _newest,
            streams: _streams,
            taken: _,
            spent: _,
        } = self;
    }
}
