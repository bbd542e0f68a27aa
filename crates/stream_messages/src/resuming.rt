ghost use Rattle.std.specs.Prelude.{◌≡◌, ◌≤◌, List, ℕ, ◌++◌, take, IfOk, IfSome, Some};
ghost use Rattle.stream_messages.specs.Limits.{head_limit as head_limit_is};
ghost use Rattle.stream_messages.specs.Searches.{IsSearch};
ghost use Rattle.stream_messages.specs.PlanFacts.{PlanFits};
ghost use Rattle.stream_messages.specs.Chunks.{shape_of};
ghost use Rattle.stream_messages.specs.HttpMessages.{GoesOn, by_planned, found, if_there, resumed, resumed_chunks, resumed_head, shape_by, went_on};

use crate::chunks::{Place, Turn, turn_at};
use crate::ends::{Search, search_end};
use crate::heads::tail;
use crate::limits::{head_limit, turn_limit};
use crate::plans::{Plan, Planned, Start, plan_in};
use crate::progress::{ChunkProgress, Framing, HeadProgress, Progress};
use crate::shape::{Body, Piece, PieceList, Shape, Then};
use pk_base::NoMemory;
use std::alloc::Global;

/// Goes on looking for the first message of bytes, of which some were looked at.
#[tactic(auto, unfolding(crate::specs::HttpMessages::resumed))]
pub fn resume(alloc: Global, bytes: &[u8], progress: Progress) -> Result<Framing, NoMemory>
    ensures answer { IfOk result (λ framing. found framing ≡ resumed progress bytes.now) }
    ensures later { IfOk result (λ framing. (more : List ℕ)
        → resumed progress (bytes.now ++ more) ≡ went_on framing (bytes.now ++ more)) }
{
    match progress {
        Progress::InHead(head) => resume_head(alloc, bytes, head),
        Progress::InBody(shape) => Ok(if_there(bytes, shape)),
        Progress::InChunks(list) => resume_chunks(bytes, list),
        Progress::Never => Ok(Framing::Unfinished(Progress::Never)),
    }
}

/// Looks for the end of a head, and begins its body there.
fn resume_head(alloc: Global, bytes: &[u8], head: HeadProgress) -> Result<Framing, NoMemory>
    ensures { IfOk result (GoesOn (resumed_head head) bytes.now) }
{
    match search_end(head_window(bytes), head.looked, head.seek) {
        Search::Ends(end) => {
            let planned = plan_in(head.asked, &bytes[..end]);
            begin_body(alloc, bytes, planned)
        }
        Search::Goes(_) if bytes.len() >= head_limit() => Ok(Framing::Unfinished(Progress::Never)),
        Search::Goes(seek) => Ok(Framing::Unfinished(Progress::InHead(HeadProgress {
            asked: head.asked,
            looked: head.looked.max(bytes.len()),
            seek,
        }))),
    }
}

/// The bytes in which a head may lie.
fn head_window(bytes: &[u8]) -> &[u8]
    ensures { result.now ≡ take head_limit_is bytes.now }
{
    if bytes.len() > head_limit() {
        &bytes[..head_limit()]
    } else {
        bytes
    }
}

/// Goes on behind a head that was read, where there is one.
#[tactic(auto, unfolding(crate::specs::HttpMessages::resumed))]
fn begin_body(alloc: Global, bytes: &[u8], planned: Option<Planned>) -> Result<Framing, NoMemory>
    requires { IfSome planned (PlanFits head_limit_is) }
    ensures { IfOk result (GoesOn (by_planned planned) bytes.now) }
{
    match planned {
        None => Ok(Framing::Unfinished(Progress::Never)),
        Some(planned) => begin_planned(alloc, bytes, planned),
    }
}

/// Goes on behind a head by what it says of the body.
fn begin_planned(alloc: Global, bytes: &[u8], planned: Planned) -> Result<Framing, NoMemory>
    requires { PlanFits head_limit_is planned }
    ensures { IfOk result (GoesOn (by_planned (Some planned)) bytes.now) }
{
    let start = planned.start;
    match shape_by(start, planned.plan) {
        Some(shape) => Ok(if_there(bytes, shape)),
        None => resume_chunks(
            bytes,
            ChunkProgress {
                turns: turn_limit(),
                start,
                place: Place::first(start.head),
                pieces: PieceList::new(alloc),
            },
        ),
    }
}

/// The message that a head alone tells. None for a body in chunks.
fn shape_by(start: Start, plan: Plan) -> Option<Shape>
    requires { PlanFits head_limit_is (record { start = start; plan = plan }) }
    ensures { result ≡ shape_by start plan }
{
    Some(match plan {
        Plan::Bare => shape_of(start, Body::None, start.head, Then::Follows(0)),
        Plan::Chunks => return None,
        Plan::Fixed(len) => {
            let len = len as usize;
            shape_of(start, Body::Plain(len), start.head + len, Then::Follows(0))
        }
        Plan::Pass(len) => shape_of(start, Body::NotShown, start.head, Then::Follows(len)),
        Plan::Unknown => shape_of(start, Body::NotShown, start.head, Then::Opaque),
    })
}

/// A message whose head is known.
fn shape_of(start: Start, body: Body, end: usize, then: Then) -> Shape
    ensures { result ≡ shape_of start body end then }
{
    Shape {
        request: start.request,
        asks_head: start.asks_head,
        interim: start.interim,
        head: start.head,
        body,
        end,
        then,
    }
}

/// A message that is whole once its bytes are there.
fn if_there(bytes: &[u8], shape: Shape) -> Framing
    ensures { GoesOn (if_there shape) bytes.now result }
{
    if shape.end <= bytes.len() {
        Framing::Message(shape)
    } else {
        Framing::Unfinished(Progress::InBody(shape))
    }
}

/// Goes on with a list of chunks.
fn resume_chunks(bytes: &[u8], list: ChunkProgress) -> Result<Framing, NoMemory>
    ensures { IfOk result (GoesOn (resumed_chunks list) bytes.now) }
{
    let turns = list.turns;
    let start = list.start;
    let mut place = list.place;
    let mut pieces = list.pieces;
    for turn in 0..turns {
        match turn_at(place, tail(bytes, place.at)) {
            Turn::Chunk(line, size) => {
                let piece = Piece {
                    start: place.at + line,
                    len: size,
                };
                pieces.push(piece)?;
                place = place.behind_chunk(line, size);
            }
            Turn::Last(line) => place = place.behind_last(line),
            Turn::Trailing(line) => place = place.behind_line(line),
            Turn::Long(line) => {
                let end = place.at + line;
                return Ok(Framing::Message(shape_of(start, Body::NotShown, end, Then::Opaque)));
            }
            Turn::End => {
                let end = place.at + 2;
                let body = Body::Chunked(pieces);
                return Ok(Framing::Message(shape_of(start, body, end, Then::Follows(0))));
            }
            Turn::Waits => {
                return Ok(Framing::Unfinished(Progress::InChunks(ChunkProgress {
                    turns: turns - turn,
                    start,
                    place: place.looked_at(bytes),
                    pieces,
                })));
            }
            Turn::Fails => return Ok(Framing::Unfinished(Progress::Never)),
        }
    }
    Ok(Framing::Unfinished(Progress::Never))
}
