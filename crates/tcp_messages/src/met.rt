ghost use Rattle.std.specs.Prelude.{◌≡◌, ◌≤◌, ◌^◌, length};

use pk_base::{Numbers, Octets};
use std::marker::Model;
use stream_messages::Placed;
use tcp_streams::Taken;

/// What a segment is to its stream, and what its frame shows.
pub struct Met {
    pub taken: Taken,
    /// The messages that its frame shows, in order. Each has a byte of its own among those by which it moves the front end.
    pub messages: ShownList,
    /// The frames that brought the gathered ones among them: ascending, each once.
    pub frames: Numbers,
    ghost few: { length messages ≤ 2 ^ 25 },
}

impl Drop for Met {
    fn drop(self) {
        let Met {
            taken: _taken,
            messages: _messages,
            frames: _frames,
        } = self;
    }
}

/// A message, and where its bytes are.
#[derive(Drop)]
pub struct ShownMessage {
    pub message: Placed,
    pub source: Source,
}

/// Where a message's bytes are.
#[derive(Drop)]
pub enum Source {
    /// Its frame alone brought them: they stand in the segment, from a place on.
    Segment(usize),
    Gathered(Gathered),
}

/// The bytes of a message that several frames brought, or an earlier one.
#[derive(Drop)]
pub struct Gathered {
    pub bytes: Octets,
    /// The numbers of these frames: ascending, each once.
    pub frames: Numbers,
}

/// A list of messages that a frame shows.
#[derive(Drop)]
pub struct ShownList {
    all: Vec<ShownMessage>,
}

impl Model for ShownList {
    ghost use Rattle.std.specs.Prelude.{List};
    ghost use Rattle.tcp_messages.specs.declared.met.ShownMessage.{ShownMessage};

    ghost Value = { List ShownMessage };

    ghost view = { λ list. list.all.items };
}

impl ShownList {
    pub fn from_vec(all: Vec<ShownMessage>) -> ShownList
        ensures { result ≡ all.items }
    {
        ShownList { all }
    }

    pub fn slice(&self) -> &[ShownMessage]
        ensures { result.now ≡ self.now }
    {
        self.all.as_slice()
    }
}
