ghost use Rattle.std.specs.Prelude.{◌≡◌};
ghost use Rattle.stream_messages.specs.Tellings.{answers, end_of, then_of};

use crate::shape::{Shape, Then};

/// A whole message.
#[derive(Drop)]
pub enum Told {
    /// One whose head tells its length: all its bytes.
    Sized(usize),
    Http(Shape),
}

impl Told {
    /// The bytes of the message.
    pub fn end(&self) -> usize
        ensures { result ≡ end_of self.now }
    {
        match self {
            Told::Sized(end) => *end,
            Told::Http(shape) => shape.end,
        }
    }

    /// What follows it.
    pub(crate) fn then(&self) -> Then
        ensures { result ≡ then_of self.now }
    {
        match self {
            Told::Sized(_) => Then::Follows(0),
            Told::Http(shape) => shape.then,
        }
    }

    /// How many requests it answers.
    pub(crate) fn answers(&self) -> usize
        ensures { result ≡ answers self.now }
    {
        match self {
            Told::Sized(_) => 0,
            Told::Http(shape) if shape.request || shape.interim => 0,
            Told::Http(_) => 1,
        }
    }
}
