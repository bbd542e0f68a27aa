ghost use Rattle.std.specs.Prelude.{◌≡◌, [], ◌∷◌, ◌++◌, OnOk};

use pk_base::NoMemory;
use std::alloc::Global;
use std::marker::Model;

/// Where the parts of a whole message lie, by places from its first byte on.
#[derive(Drop)]
pub struct Shape {
    /// It is a request, and else a response.
    pub request: bool,
    /// It is a request, and its method is HEAD.
    pub asks_head: bool,
    /// It is a response that isn't the last one to its request.
    pub interim: bool,
    /// The bytes of its head.
    pub head: usize,
    pub body: Body,
    /// The place behind its last byte.
    pub end: usize,
    pub then: Then,
}

/// The body of a message.
#[derive(Drop)]
pub enum Body {
    /// The message has none.
    None,
    /// The so many bytes behind its head.
    Plain(usize),
    /// The pieces of its chunks, joined.
    Chunked(PieceList),
    /// It is too long, or its end isn't known.
    NotShown,
}

/// What follows a message.
#[derive(Clone, Copy)]
pub enum Then {
    /// So many bytes that belong to no message, and then the next one.
    Follows(u64),
    /// Bytes in which no message begins.
    Opaque,
}

/// The bytes of one chunk.
#[derive(Clone, Copy)]
pub struct Piece {
    pub start: usize,
    pub len: usize,
}

/// A list of chunks' bytes.
#[derive(Drop)]
pub struct PieceList {
    all: Vec<Piece>,
}

impl Model for PieceList {
    ghost use Rattle.std.specs.Prelude.{List};
    ghost use Rattle.stream_messages.specs.declared.shape.Piece.{Piece};

    ghost Value = { List Piece };

    ghost view = { λ pieces. pieces.all.items };
}

impl PieceList {
    /// No pieces. Takes no memory.
    pub(crate) fn new(alloc: Global) -> PieceList
        ensures { result ≡ [] }
    {
        PieceList {
            all: Vec::new(alloc),
        }
    }

    pub(crate) fn push(&mut self, piece: Piece) -> Result<(), NoMemory>
        ensures { OnOk result (self.new ≡ self.old ++ piece ∷ []) }
    {
        self.all.push(piece)?;
        Ok(())
    }

    pub fn slice(&self) -> &[Piece]
        ensures { result.now ≡ self.now }
    {
        self.all.as_slice()
    }
}
