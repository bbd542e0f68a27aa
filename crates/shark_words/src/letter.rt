ghost use Rattle.std.specs.Prelude.{◌≡◌};
ghost use Rattle.shark_words.specs.Letters.{has_value, letter_of as letter_of_byte};

/// An option, by its letter.
#[derive(Clone, Copy, PartialEq, Eq, Hash)]
pub(crate) enum Letter {
    /// `-r NAME`: the capture file.
    Capture,
    /// `-Y FILTER`: the display filter.
    Filter,
    /// `-2`: two passes over the frames.
    Two,
    /// `-T KIND`: the kind of line.
    Kind,
    /// `-e NAME`: a field.
    Name,
    /// `-E KEY=VALUE`: how the lines of fields are written.
    Style,
    /// `-c N`: how many frames are read at most.
    Most,
    /// `-q`: no lines of frames.
    Quiet,
    /// `-d RULE`: which application a port is read as.
    Decode,
    /// `-z REPORT`: a report behind the lines.
    Report,
    /// `-w -`: the frames are written as a capture file, in place of lines.
    Output,
    /// `-F FORMAT`: the format of that file.
    Format,
    /// `--self-run NUMBER,FRAMES`: a generated capture in place of a file. It has no letter.
    SelfRun,
    /// `--filter-stats`: the filter's program and its steps. It has no letter.
    FilterStats,
}

impl Letter {
    pub(crate) fn of_byte(byte: u8) -> Option<Letter>
        ensures { result ≡ letter_of_byte byte }
    {
        match byte {
            b'r' => Some(Letter::Capture),
            b'Y' => Some(Letter::Filter),
            b'2' => Some(Letter::Two),
            b'T' => Some(Letter::Kind),
            b'e' => Some(Letter::Name),
            b'E' => Some(Letter::Style),
            b'c' => Some(Letter::Most),
            b'q' => Some(Letter::Quiet),
            b'd' => Some(Letter::Decode),
            b'z' => Some(Letter::Report),
            b'w' => Some(Letter::Output),
            b'F' => Some(Letter::Format),
            _ => None,
        }
    }

    /// Whether a value belongs to the option.
    pub(crate) fn has_value(self) -> bool
        ensures { result ≡ has_value self }
    {
        !matches!(self, Letter::Two | Letter::Quiet | Letter::FilterStats)
    }
}
