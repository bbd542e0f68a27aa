ghost use Rattle.std.specs.Prelude.{◌≡◌};
ghost use Rattle.run_words.specs.Statuses.{exit_number, refusal_status};

use crate::refused::Refused;

/// How a run ended. The program ends with the number of this variant, 0 for `Done`.
#[derive(Clone, Copy)]
pub enum Status {
    /// The whole file was read, and the whole output written.
    Done,
    /// The words are outside the command line's grammar.
    BadWords,
    /// The filter can't be read.
    BadFilter,
    /// A field's name isn't known.
    BadField,
    /// The capture file can't be opened.
    CannotOpen,
    /// A read of the capture file failed.
    ReadFault,
    /// The capture file is damaged; the output over the frames before the damage was written.
    Damaged,
    /// The capture file is larger than is read; the output over the frames before the limit was written.
    TooLarge,
    /// A write to standard output failed.
    WriteFault,
    /// There was no memory for the answer.
    NoMemory,
    /// A frame doesn't fit into the capture that is written; those before it were written.
    CannotWrite,
}

impl Status {
    /// The number with which the program ends.
    pub fn exit_number(self) -> u8
        ensures { result ≡ exit_number self }
    {
        match self {
            Status::Done => 0,
            Status::BadWords => 1,
            Status::BadFilter => 2,
            Status::BadField => 3,
            Status::CannotOpen => 4,
            Status::ReadFault => 5,
            Status::Damaged => 6,
            Status::TooLarge => 7,
            Status::WriteFault => 8,
            Status::NoMemory => 9,
            Status::CannotWrite => 10,
        }
    }
}

pub fn status_of_refusal(refused: &Refused) -> Status
    ensures { result ≡ refusal_status refused.now }
{
    match refused {
        Refused::Words(_) => Status::BadWords,
        Refused::Filter(_) => Status::BadFilter,
        Refused::Field(_) => Status::BadField,
    }
}
