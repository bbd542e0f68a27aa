ghost use Rattle.std.specs.Prelude.{◌≡◌, ◌+◌, ◌^◌, ◌<◌, ◌≤◌, if◌then◌else◌, nat_lt, true, Some, None};
ghost use Rattle.stream_messages.specs.Tellings.{end_of, passed};
ghost use Rattle.stream_messages.specs.Cursors.{answers_before, begun, goes, mark_behind, next_at, next_behind};
ghost use Rattle.stream_messages.specs.Moved.{IsMovedBy, StandsAlike, settled_next, spare_of};
ghost use Rattle.stream_messages.specs.declared.cursor.Mark.{Mark as MarkValue};
ghost use Rattle.stream_messages.specs.declared.cursor.Next.TheVariants.{Begun};

use crate::part::Part;
use crate::shape::Then;
use crate::told::Told;

/// Behind the last whole message of a stretch of a stream's bytes, with what is known of the next one.
#[derive(Drop)]
pub struct Cursor {
    pub(crate) mark: Mark,
    pub(crate) next: Next,
}

/// Behind a whole message.
#[derive(Clone, Copy)]
pub(crate) struct Mark {
    /// The place behind its last byte, from the stretch's first byte on.
    pub end: usize,
    /// The bytes behind it that belong to no message.
    pub skip: u64,
    /// The requests that were answered up to there, in earlier stretches too. At its last value the count stands still.
    pub answers: usize,
}

/// What is known of the next message.
#[derive(Drop)]
pub(crate) enum Next {
    /// None comes.
    Never,
    /// No byte of it is there.
    Awaited,
    /// A part of it was looked at.
    Begun(Started),
}

/// What is known of a message of which a part was looked at.
#[derive(Drop)]
pub(crate) struct Started {
    /// Whether it is to HEAD, if it is a response.
    pub asked: bool,
    pub part: Part,
}

impl Cursor {
    /// Before the first byte of a stream.
    pub fn first() -> Cursor
        ensures { result ≡ begun 0 }
    {
        Cursor::begun(0)
    }

    /// Before the first byte of the stretch that begins behind lost bytes.
    pub fn anew(&self) -> Cursor
        ensures { result ≡ begun (answers_before self.now) }
    {
        Cursor::begun(self.mark.answers)
    }

    /// The same cursor, which tells that no message comes where its bytes can't become one.
    pub fn settled(self) -> Cursor
        ensures { StandsAlike self result }
    {
        let mark = self.mark;
        Cursor {
            mark,
            next: settled(self.next),
        }
    }

    /// How many of a stretch's bytes, of which so many are there, no later message needs.
    pub fn spare(&self, len: usize) -> usize
        ensures { result ≡ spare_of self.now len }
    {
        match self.next {
            Next::Never => len,
            Next::Awaited | Next::Begun(_) => self.mark.place_within(len).unwrap_or(len),
        }
    }

    /// The same cursor where so many more of the stretch's bytes are let go.
    pub fn moved(self, gone: usize) -> Cursor
        requires { goes self.next ≡ true → gone ≤ next_at self.mark }
        ensures { IsMovedBy gone self result }
    {
        let mark = self.mark.moved(gone);
        Cursor {
            mark,
            next: self.next,
        }
    }

    fn begun(answers: usize) -> Cursor
        ensures { result ≡ begun answers }
    {
        Cursor {
            mark: Mark {
                end: 0,
                skip: 0,
                answers,
            },
            next: Next::Awaited,
        }
    }
}

/// What is known of the next message: none comes where its bytes can't become one.
fn settled(next: Next) -> Next
    ensures { result ≡ settled_next next }
{
    match next {
        Next::Never => Next::Never,
        Next::Awaited => Next::Awaited,
        Next::Begun(started) => settled_part(started),
    }
}

fn settled_part(started: Started) -> Next
    ensures { result ≡ settled_next (Begun started) }
{
    if started.part.is_never() {
        Next::Never
    } else {
        Next::Begun(started)
    }
}

impl Mark {
    /// The same place where so many bytes before it are let go.
    fn moved(self, gone: usize) -> Mark
        ensures at { gone ≤ next_at self → next_at result + gone ≡ next_at self }
        ensures answers { result.answers ≡ self.answers }
    {
        Mark {
            end: self.end.saturating_sub(gone),
            skip: self
                .skip
                .saturating_sub(gone.saturating_sub(self.end) as u64),
            answers: self.answers,
        }
    }

    /// Where the next message begins, if a byte of it is among so many.
    pub fn place_within(self, len: usize) -> Option<usize>
        ensures { result ≡ (if nat_lt (next_at self) len then Some (next_at self) else None) }
    {
        let behind = len.saturating_sub(self.end) as u64;
        if self.skip < behind {
            Some(self.end + self.skip as usize)
        } else {
            None
        }
    }
}

/// Behind a message that begins at a place, and so many answers.
pub(crate) fn mark_behind(place: usize, answers: usize, told: &Told) -> Mark
    requires { place + end_of told.now < 2 ^ 64 }
    ensures { (old : MarkValue) → next_at old ≡ place → old.answers ≡ answers
        → result ≡ mark_behind old told.now }
{
    Mark {
        end: place + told.end(),
        skip: passed(told.then()),
        answers: answers.saturating_add(told.answers()),
    }
}

/// The bytes to be passed over.
fn passed(follows: Then) -> u64
    ensures { result ≡ passed follows }
{
    match follows {
        Then::Follows(count) => count,
        Then::Opaque => 0,
    }
}

/// What is known of the message behind another.
pub(crate) fn next_behind(follows: Then) -> Next
    ensures { result ≡ next_behind follows }
{
    match follows {
        Then::Follows(_) => Next::Awaited,
        Then::Opaque => Next::Never,
    }
}
