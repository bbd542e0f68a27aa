ghost use Rattle.std.specs.Prelude.{◌≡◌, List, ℕ, IfOk};
ghost use Rattle.std.specs.Option.{option_map};
ghost use Rattle.stream_messages.specs.HttpMessages.{found as found_in, went_on as framing_on};
ghost use Rattle.stream_messages.specs.declared.told.Told.TheVariants.{Http};
ghost use Rattle.stream_messages.specs.declared.part.Part.TheVariants as parts;
ghost use Rattle.stream_messages.specs.Moved.{is_never};
ghost use Rattle.stream_messages.specs.Cursors.{GoesOn, found, part_begun, went_on};

use crate::framer::{Framer, first_sized};
use crate::progress::{Framing, Progress};
use crate::resuming::resume;
use crate::told::Told;
use pk_base::NoMemory;
use std::alloc::Global;

/// What is known of a message that isn't whole, from looking at a part of it.
#[derive(Drop)]
pub(crate) enum Part {
    /// One whose head tells its length, which is read anew.
    Sized { head: u8, at: u8, width: u8 },
    Http(Progress),
}

/// What is found of a message.
#[derive(Drop)]
pub(crate) enum Going {
    Unfinished(Part),
    Message(Told),
}

impl Part {
    /// What is known of a message before its first byte. A response is to HEAD where it is `asked`.
    pub fn begun(framer: Framer, asked: bool) -> Part
        ensures { result ≡ part_begun framer asked }
    {
        match framer {
            Framer::LengthPrefix { head, at, width } => Part::Sized { head, at, width },
            Framer::Http => Part::Http(Progress::begun(asked)),
        }
    }

    /// Whether its bytes can't become a message.
    pub fn is_never(&self) -> bool
        ensures { result ≡ is_never self.now }
    {
        match self {
            Part::Http(progress) => progress.is_never(),
            Part::Sized { .. } => false,
        }
    }

    /// Goes on with a message's bytes, of which some were looked at.
    pub fn go_on(self, alloc: Global, bytes: &[u8]) -> Result<Going, NoMemory>
        ensures { IfOk result (GoesOn self bytes.now) }
    {
        match self {
            Part::Sized { head, at, width } => Ok(go_on_sized(head, at, width, bytes)),
            Part::Http(progress) => go_on_http(alloc, bytes, progress),
        }
    }
}

fn go_on_sized(head: u8, at: u8, width: u8, bytes: &[u8]) -> Going
    ensures { GoesOn (parts.Sized head at width) bytes.now result }
{
    match first_sized(head, at, width, bytes) {
        None => Going::Unfinished(Part::Sized { head, at, width }),
        Some(end) => Going::Message(Told::Sized(end)),
    }
}

fn go_on_http(alloc: Global, bytes: &[u8], progress: Progress) -> Result<Going, NoMemory>
    ensures { IfOk result (GoesOn (parts.Http progress) bytes.now) }
{
    let framing = resume(alloc, bytes, progress)?;
    Ok(told_by(framing))
}

/// The same answer, of one framing among others.
fn told_by(framing: Framing) -> Going
    ensures found { found result ≡ option_map Http (found_in framing) }
    ensures later { (bytes : List ℕ)
        → went_on result bytes ≡ option_map Http (framing_on framing bytes) }
{
    match framing {
        Framing::Unfinished(progress) => Going::Unfinished(Part::Http(progress)),
        Framing::Message(shape) => Going::Message(Told::Http(shape)),
    }
}
