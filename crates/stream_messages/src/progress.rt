ghost use Rattle.std.specs.Prelude.{◌≡◌};
ghost use Rattle.stream_messages.specs.HttpMessages.{begun};
ghost use Rattle.stream_messages.specs.Moved.{is_never};
ghost use Rattle.stream_messages.specs.declared.part.Part.TheVariants as parts;

use crate::chunks::Place;
use crate::ends::Seek;
use crate::plans::Start;
use crate::shape::{PieceList, Shape};

/// What is known of a message that isn't whole yet, so that no byte of it is looked at again.
#[derive(Drop)]
pub enum Progress {
    /// The end of its head isn't found.
    InHead(HeadProgress),
    /// It is this one, once all its bytes are there.
    InBody(Shape),
    /// Its chunks aren't all there.
    InChunks(ChunkProgress),
    /// Bytes that can't become a message, whatever follows.
    Never,
}

/// How far a head was looked at.
#[derive(Clone, Copy, Drop)]
pub struct HeadProgress {
    /// A response is to HEAD.
    pub(crate) asked: bool,
    pub(crate) looked: usize,
    pub(crate) seek: Seek,
}

/// How far a list of chunks was read.
#[derive(Drop)]
pub struct ChunkProgress {
    /// The turns that are left.
    pub(crate) turns: usize,
    pub(crate) start: Start,
    pub(crate) place: Place,
    pub(crate) pieces: PieceList,
}

/// What is at the front of bytes.
#[derive(Drop)]
pub enum Framing {
    /// No whole message.
    Unfinished(Progress),
    Message(Shape),
}

impl Progress {
    /// Whether its bytes can't become a message.
    pub(crate) fn is_never(&self) -> bool
        ensures { result ≡ is_never (parts.Http self.now) }
    {
        match self {
            Progress::Never => true,
            Progress::InHead(_) | Progress::InBody(_) | Progress::InChunks(_) => false,
        }
    }

    /// What is known of a message before its first byte. A response is to HEAD where it is `asked`.
    pub fn begun(asked: bool) -> Progress
        ensures { result ≡ begun asked }
    {
        Progress::InHead(HeadProgress {
            asked,
            looked: 0,
            seek: Seek::Before,
        })
    }
}
