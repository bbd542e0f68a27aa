ghost use Rattle.std.specs.Prelude.{◌≡◌, if◌then◌else◌, nat_le};
ghost use Rattle.message_links.specs.declared.notes.Note.TheVariants.{Query, Response};
ghost use Rattle.message_links.specs.Notes.{dns_note, tcp_direction, udp_direction};

use tcp_streams::Taken;

/// What later links ask of a message.
#[derive(Clone, Copy)]
pub enum Note {
    /// A query of DNS, by its id.
    Query(u16),
    /// A response of DNS, by its id.
    Response(u16),
    /// A request of HTTP.
    Request,
    /// A response of HTTP that isn't an interim one.
    Answer,
    Other,
}

/// The direction of a conversation in which a message goes.
#[derive(Clone, Copy, PartialEq, Eq, Hash)]
pub struct Direction {
    pub tcp: bool,
    pub stream: u32,
    pub side: bool,
}

/// What a query is found by. Such keys are compared by their fields in this order.
#[derive(Clone, Copy, PartialEq, Eq, PartialOrd, Ord)]
pub struct QueryKey {
    pub stream: u32,
    pub id: u16,
    pub tcp: bool,
}

/// The direction of a datagram of UDP. Links don't ask for its side.
pub fn udp_direction(stream: u32) -> Direction
    ensures { result ≡ udp_direction stream }
{
    Direction {
        tcp: false,
        stream,
        side: false,
    }
}

/// The direction of a segment of TCP.
pub fn tcp_direction(taken: &Taken) -> Direction
    ensures { result ≡ tcp_direction taken.now }
{
    Direction {
        tcp: true,
        stream: taken.stream,
        side: taken.side == 1,
    }
}

/// What a message of DNS is to links.
pub fn dns_note(bytes: &[u8]) -> Note
    ensures { result ≡ dns_note bytes.now }
{
    match bytes {
        [high, low, flags, _, ..] => {
            flagged_note(*flags, u16::from(*high) * 256 + u16::from(*low))
        }
        _ => Note::Other,
    }
}

/// A query or a response, by the byte with the first of the flags.
fn flagged_note(flags: u8, id: u16) -> Note
    ensures { result ≡ (if nat_le 128 flags then Response id else Query id) }
{
    if flags >= 128 {
        Note::Response(id)
    } else {
        Note::Query(id)
    }
}
