ghost use Rattle.std.specs.Prelude.{◌≡◌, false};
ghost use Rattle.std.proofs.Props.{props};
ghost use Rattle.stream_messages.specs.contracts.told.Told as told_row;
ghost use Rattle.tcp_messages.specs.Readers.{AreSound, quiet_prop, sound_prop};

use crate::readers::Readers;
use tcp_streams::Streams;

/// The streams so far, and what is kept of their messages.
#[derive(Drop)]
pub(crate) struct Kept {
    pub streams: Streams,
    /// By the numbers of the streams; none where it isn't known where messages end.
    pub readers: Vec<Option<Readers>>,
    /// Whether a segment found no memory: then nothing more is known.
    pub spent: bool,
    ghost sound: { spent ≡ false → AreSound streams readers.items } by { Prim.hlevel (sound_prop told_row.the_row.coded, quiet_prop told_row.the_row.coded, props) },
}
