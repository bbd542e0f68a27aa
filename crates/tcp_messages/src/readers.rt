ghost use Rattle.std.specs.Prelude.{◌≡◌, ◌++◌, Bool, OnOk};
ghost use Rattle.std.specs.Option.{option_to_list};
ghost use Rattle.stream_messages.specs.Sides.{head_of as head_value, heads_in};
ghost use Rattle.tcp_messages.specs.Readers.{IsBegun, reader_of};

use pk_base::NoMemory;
use std::alloc::Global;
use stream_messages::{Cursor, Framer, Placed, Told};

/// What is kept of one direction of a stream.
#[derive(Drop)]
pub(crate) struct Reader {
    /// Behind the last whole message of the newest stretch.
    pub cursor: Cursor,
    /// The requests that were shown: whether the method of each is HEAD.
    pub heads: Vec<bool>,
}

/// What is kept of both directions of a stream.
pub(crate) struct Readers {
    pub framer: Framer,
    pub zero: Reader,
    pub one: Reader,
}

impl Drop for Readers {
    fn drop(self) {
        let Readers {
            framer: _framer,
            zero: _zero,
            one: _one,
        } = self;
    }
}

impl Reader {
    /// Before the first byte. Takes no memory.
    fn begun(alloc: Global) -> Reader
        ensures { IsBegun result }
    {
        Reader {
            cursor: Cursor::first(),
            heads: Vec::new(alloc),
        }
    }
}

impl Readers {
    /// Before the first byte. Takes no memory.
    pub fn begun(alloc: Global, framer: Framer) -> Readers
        ensures framer { result.framer ≡ framer }
        ensures begun { (side : Bool) → IsBegun (reader_of result side) }
    {
        Readers {
            framer,
            zero: Reader::begun(alloc),
            one: Reader::begun(alloc),
        }
    }
}

/// Adds the requests among messages.
pub(crate) fn push_heads(heads: &mut Vec<bool>, messages: &[Placed]) -> Result<(), NoMemory>
    ensures { OnOk result (heads.new.items ≡ heads.old.items ++ heads_in messages.now) }
{
    for message in messages {
        if let Some(head) = head_of(&message.told) {
            heads.push(head)?;
        }
    }
    Ok(())
}

/// Whether the method of a message is HEAD, if it is a request.
fn head_of(told: &Told) -> Option<bool>
    ensures { option_to_list result ≡ head_value told.now }
{
    match told {
        Told::Http(shape) if shape.request => Some(shape.asks_head),
        _ => None,
    }
}
