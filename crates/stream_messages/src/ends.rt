ghost use Rattle.std.specs.Prelude.{◌≡◌, ◌≤◌, ◌<◌, length, drop, take, Some, None, IfSome, IfNone};
ghost use Rattle.stream_messages.specs.Ends.{seek_on};
ghost use Rattle.stream_messages.specs.Searches.{IsSearch};

/// What the bytes of a head that were looked at end in.
#[derive(Clone, Copy)]
pub(crate) enum Seek {
    /// Line ends alone.
    Before,
    /// Bytes of a line.
    Inside,
    /// A line's end.
    Feed,
    /// A line's end and a CR.
    Return,
}

/// What was found of a head's end.
#[derive(Clone, Copy)]
pub(crate) enum Search {
    /// It ends in front of this place.
    Ends(usize),
    /// It doesn't end in these bytes.
    Goes(Seek),
}

/// Looks from a place on for a head's end.
pub(crate) fn search_end(bytes: &[u8], from: usize, seek: Seek) -> Search
    ensures { IsSearch seek from bytes.now result }
{
    let mut seek = seek;
    for place in from..bytes.len() {
        match seek_on(seek, bytes[place]) {
            Some(next) => seek = next,
            None => return Search::Ends(place + 1),
        }
    }
    Search::Goes(seek)
}

/// What one more byte makes of it. Nothing where the head ends with this byte.
fn seek_on(seek: Seek, byte: u8) -> Option<Seek>
    ensures { result ≡ seek_on seek byte }
{
    match seek {
        Seek::Before => Some(if byte == b'\r' || byte == b'\n' {
            Seek::Before
        } else {
            Seek::Inside
        }),
        Seek::Inside => Some(if byte == b'\n' {
            Seek::Feed
        } else {
            Seek::Inside
        }),
        Seek::Feed => match byte {
            b'\n' => None,
            b'\r' => Some(Seek::Return),
            _ => Some(Seek::Inside),
        },
        Seek::Return => match byte {
            b'\n' => None,
            _ => Some(Seek::Inside),
        },
    }
}
