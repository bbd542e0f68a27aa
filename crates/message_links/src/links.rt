ghost use Rattle.std.specs.Prelude.{◌≡◌, All, ◌+◌, ◌∷◌, [], ℕ, List, if◌then◌else◌, IfOk, OnOk};
ghost use Rattle.tcp_messages.specs.Shown.{IsWholeIn};
ghost use Rattle.message_links.specs.Notes.{Noted, noted_on, shown_notes};
ghost use Rattle.message_links.specs.Links.{is_answer, key_of, link_of, links_of, other_side};
ghost use Rattle.message_links.specs.LinkTables.{LinksStandFor, counted};

use crate::link_tables::{Counts, Queries, Requests, one_more};
use crate::notes::{Direction, Note, QueryKey};
use crate::segment_notes::notes_of;
use pk_base::NoMemory;
use pk_fields::App;
use std::alloc::Global;
use tcp_messages::ShownMessage;

/// The messages of earlier frames, by what later ones ask for.
pub struct Links {
    alloc: Global,
    pub queries: Queries,
    pub requests: Requests,
    /// How many answers each direction had.
    pub answers: Counts,
}

impl Drop for Links {
    fn drop(self) {
        let Links {
            alloc: _,
            queries: _queries,
            requests: _requests,
            answers: _answers,
        } = self;
    }
}

impl Links {
    pub fn new(alloc: Global) -> Links
        ensures { LinksStandFor [] result }
    {
        Links {
            alloc,
            queries: Queries::new(alloc),
            requests: Requests::new(alloc),
            answers: Counts::new(alloc),
        }
    }

    /// What the messages that a segment's frame shows are to links.
    pub fn notes(
        &self,
        app: Option<App>,
        payload: &[u8],
        messages: &[ShownMessage],
    ) -> Result<Vec<Note>, NoMemory>
        requires whole { All (IsWholeIn payload.now) messages.now }
        ensures { IfOk result (λ notes. notes.items ≡ shown_notes app payload.now messages.now) }
    {
        match app {
            None => Ok(Vec::new(self.alloc)),
            Some(app) => notes_of(self.alloc, app, payload, messages),
        }
    }

    /// Takes the messages that a frame shows, and answers the earlier frame that each belongs to.
    pub fn take(
        &mut self,
        frame: u32,
        at: Direction,
        notes: &[Note],
    ) -> Result<Vec<Option<u32>>, NoMemory>
        ensures links { IfOk result (λ links. (ns : List Noted) → LinksStandFor ns self.old
            → links.items ≡ links_of ns at notes.now) }
        ensures stands { OnOk result ((ns : List Noted) → LinksStandFor ns self.old
            → LinksStandFor (noted_on frame at notes.now ns) self.new) }
    {
        if notes.is_empty() {
            return Ok(Vec::new(self.alloc));
        }
        let found = self.find_all(at, notes)?;
        self.note_all(frame, at, notes)?;
        Ok(found)
    }

    fn find_all(&self, at: Direction, notes: &[Note]) -> Result<Vec<Option<u32>>, NoMemory>
        ensures { IfOk result (λ links. (ns : List Noted) → LinksStandFor ns self.now
            → links.items ≡ links_of ns at notes.now) }
    {
        let mut links = Vec::new(self.alloc);
        let mut number = self.answers.find(at);
        for note in notes {
            links.push(self.find(at, number, *note))?;
            number = next_number(number, *note);
        }
        Ok(links)
    }

    fn find(&self, at: Direction, number: usize, note: Note) -> Option<u32>
        ensures { (ns : List Noted) (exact : ℕ) → LinksStandFor ns self.now
            → number ≡ counted exact → result ≡ link_of ns at exact note }
    {
        match note {
            Note::Response(id) => self.queries.find(key_of(at, id)),
            Note::Answer => {
                let at = other_side(at);
                self.requests.find(at, number)
            }
            Note::Query(_) | Note::Request | Note::Other => None,
        }
    }

    fn note_all(&mut self, frame: u32, at: Direction, notes: &[Note]) -> Result<(), NoMemory>
        ensures { OnOk result ((ns : List Noted) → LinksStandFor ns self.old
            → LinksStandFor (noted_on frame at notes.now ns) self.new) }
    {
        for note in notes {
            self.note(frame, at, *note)?;
        }
        Ok(())
    }

    fn note(&mut self, frame: u32, at: Direction, note: Note) -> Result<(), NoMemory>
        ensures { OnOk result ((ns : List Noted) → LinksStandFor ns self.old
            → LinksStandFor (record { frame = frame; at = at; note = note } ∷ ns) self.new) }
    {
        match note {
            Note::Query(id) => self.queries.set(key_of(at, id), frame),
            Note::Request => self.requests.add(at, frame),
            Note::Answer => self.answers.raise(at),
            Note::Response(_) | Note::Other => Ok(()),
        }
    }
}

/// How many answers stand before the next message.
fn next_number(number: usize, note: Note) -> usize
    ensures { result ≡ (if is_answer note then counted (number + 1) else number) }
{
    match note {
        Note::Answer => one_more(number),
        Note::Query(_) | Note::Response(_) | Note::Request | Note::Other => number,
    }
}

fn key_of(at: Direction, id: u16) -> QueryKey
    ensures { result ≡ key_of at id }
{
    QueryKey {
        tcp: at.tcp,
        stream: at.stream,
        id,
    }
}

fn other_side(at: Direction) -> Direction
    ensures { result ≡ other_side at }
{
    Direction {
        side: !at.side,
        ..at
    }
}
