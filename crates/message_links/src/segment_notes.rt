ghost use Rattle.std.specs.Prelude.{◌≡◌, ◌+◌, ◌≤◌, All, drop, length, map, slice_range, IfOk};
ghost use Rattle.tcp_messages.specs.Shown.{IsWholeIn};
ghost use Rattle.message_links.specs.Notes.{http_note, message_note, sized_note, told_note};

use crate::notes::{Note, dns_note};
use pk_base::NoMemory;
use pk_fields::App;
use std::alloc::Global;
use stream_messages::{Shape, Told};
use tcp_messages::{ShownMessage, Source};

/// What a message that a segment's frame shows is to links.
pub(crate) fn message_note(app: App, payload: &[u8], message: &ShownMessage) -> Note
    requires whole { IsWholeIn payload.now message.now }
    ensures { result ≡ message_note app payload.now message.now }
{
    let told = &message.message.told;
    match &message.source {
        Source::Segment(place) => told_note(app, told, part(payload, *place, told.end())),
        Source::Gathered(gathered) => told_note(app, told, gathered.bytes.bytes()),
    }
}

fn part(payload: &[u8], place: usize, len: usize) -> &[u8]
    requires { place + len ≤ length payload.now }
    ensures { result.now ≡ slice_range payload.now place (place + len) }
{
    &payload[place..place + len]
}

/// What a message of a stream is to links, by its bytes.
fn told_note(app: App, told: &Told, bytes: &[u8]) -> Note
    ensures { result ≡ told_note app told.now bytes.now }
{
    match told {
        Told::Sized(_) => sized_note(app, bytes),
        Told::Http(shape) => http_note(shape),
    }
}

/// What a message whose head tells its length is to links.
fn sized_note(app: App, bytes: &[u8]) -> Note
    ensures { result ≡ sized_note app bytes.now }
{
    match app {
        App::Dns => dns_note(behind_length(bytes)),
        _ => Note::Other,
    }
}

/// The bytes behind the two of a length.
fn behind_length(bytes: &[u8]) -> &[u8]
    ensures { result.now ≡ drop 2 bytes.now }
{
    let from = 2usize.min(bytes.len());
    &bytes[from..]
}

fn http_note(shape: &Shape) -> Note
    ensures { result ≡ http_note shape.now }
{
    if shape.request {
        Note::Request
    } else if shape.interim {
        Note::Other
    } else {
        Note::Answer
    }
}

/// What the messages that a segment's frame shows are to links.
pub(crate) fn notes_of(
    alloc: Global,
    app: App,
    payload: &[u8],
    messages: &[ShownMessage],
) -> Result<Vec<Note>, NoMemory>
    requires whole { All (IsWholeIn payload.now) messages.now }
    ensures { IfOk result (λ notes. notes.items ≡ map (message_note app payload.now) messages.now) }
{
    let mut notes = Vec::new(alloc);
    for message in messages {
        notes.push(message_note(app, payload, message))?;
    }
    Ok(notes)
}
