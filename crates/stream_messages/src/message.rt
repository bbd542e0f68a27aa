ghost use Rattle.std.specs.Prelude.{◌≡◌, IfOk};
ghost use Rattle.stream_messages.specs.ChunkedBodies.{ChunkLaws};
ghost use Rattle.stream_messages.specs.HttpMessages.{BeginLaw, FirstLaws, first_message, found, message_in};

use crate::progress::{Framing, Progress};
use crate::resuming::resume;
use crate::shape::Shape;
use pk_base::NoMemory;
use std::alloc::Global;

/// What is at the front of bytes.
#[derive(Drop)]
pub enum Framed {
    /// No whole message.
    Unfinished,
    Message(Shape),
}

/// The first message of bytes that begin with a message's first byte. A response is to HEAD where it is `asked`.
#[tactic(auto, using(crate::proofs::BeginLemmas::begins))]
pub fn next_message(alloc: Global, rest: &[u8], asked: bool) -> Result<Framed, NoMemory>
    ensures { IfOk result (λ framed. message_in framed ≡ first_message asked rest.now) }
{
    let framing = resume(alloc, rest, Progress::begun(asked))?;
    Ok(without_progress(framing))
}

/// An answer without what is known of a message that isn't whole.
fn without_progress(framing: Framing) -> Framed
    ensures { message_in result ≡ found framing }
{
    match framing {
        Framing::Unfinished(_) => Framed::Unfinished,
        Framing::Message(shape) => Framed::Message(shape),
    }
}

/// To go on from before the first byte is to look for the first message.
pub fn begin_law()
    ensures { BeginLaw }
{}

/// A first message has a byte, lies in the bytes, and depends on nothing behind it. Its chunks are within the limit of a body.
pub fn message_laws()
    ensures { FirstLaws }
{}

/// Where a head asks for chunks, the first message is exactly what the grammar makes of the bytes behind it, however many chunks
/// they are, and no other message has chunks.
pub fn chunk_laws()
    ensures { ChunkLaws }
{}
