ghost use Rattle.std.specs.Prelude.{◌≡◌, ◌+◌, ◌<◌, ◌≤◌, ◌^◌, ◌++◌, length, false, IfOk, OnOk};
ghost use Rattle.pk_tree.specs.Buffers.{IsInside, bytes_of};
ghost use Rattle.pk_fields.specs.Ids.{HTTP};
ghost use Rattle.pk_tree.specs.Layouts.{StepsFit};
ghost use Rattle.stream_messages.specs.Sizes.{size_of_pieces};
ghost use Rattle.dis_http.specs.Rows.{RowsLaw};
ghost use Rattle.dis_http.specs.Http.{IsShape, body_steps, chunked_read, http_layout, http_read, joined, plain_read};

use crate::heads::{front, push_head, tail};
use pk_base::{Mode, NoMemory, Octets, Span};
use pk_fields::ids;
use pk_tree::{Step, TreeBuilder, read_layer};
use std::alloc::Global;
use stream_messages::{Body, Piece, PieceList, Shape};

/// How many steps a message has room for from the start: a start line and some field lines.
const FEW_STEPS: usize = 64;

/// Reads an HTTP message (RFC 9112), whose parts lie as its shape tells. A chunked body is added as a buffer of its own.
#[tactic(auto, unfolding(crate::specs::Http::http_read))]
pub fn read_http(span: Span, shape: &Shape, b: &mut TreeBuilder) -> Result<(), NoMemory>
    requires inside { IsInside b.old.buffers span }
    requires room { length b.old.layers + 2 < 2 ^ 32 }
    requires buffers { length b.old.buffers + 1 < 2 ^ 32 }
    requires shape { IsShape shape.now (bytes_of b.old.buffers span) }
    ensures layer { IfOk result (λ _. b.new ≡ http_read b.old span shape.now) }
    ensures some { OnOk result (0 < length b.new.layers) }
    ensures most { OnOk result (length b.new.layers ≤ length b.old.layers + 2) }
{
    let steps = http_steps(b.alloc(), shape, b.bytes(span))?;
    match &shape.body {
        Body::None => read_plain(span, &steps, b),
        Body::Plain(_) => read_plain(span, &steps, b),
        Body::Chunked(pieces) => read_chunked(span, &steps, pieces, b),
        Body::NotShown => read_plain(span, &steps, b),
    }
}

/// A message's layer has exactly the rows of the head that the grammar reads at its front, and then the bytes of its body.
pub fn rows_law()
    ensures { RowsLaw }
{}

/// Reads a message without chunks.
#[tactic(auto, unfolding(pk_fields::specs::Fields::row_of, pk_fields::specs::Table::rows))]
fn read_plain(span: Span, steps: &[Step], b: &mut TreeBuilder) -> Result<(), NoMemory>
    requires inside { IsInside b.old.buffers span }
    requires room { length b.old.layers + 2 < 2 ^ 32 }
    requires fits { StepsFit HTTP steps.now }
    ensures layer { IfOk result (λ _. b.new ≡ plain_read b.old span steps.now) }
    ensures some { OnOk result (0 < length b.new.layers) }
    ensures most { OnOk result (length b.new.layers ≤ length b.old.layers + 2) }
{
    read_layer(b, ids::HTTP, span, steps, Mode::Plain, false)?;
    Ok(())
}

/// Reads a message with chunks, behind their bytes as one more buffer.
#[tactic(auto, using(pk_tree::proofs::Spans::inside_more, crate::proofs::HttpLemmas::inside_last, crate::proofs::HttpLemmas::joined_fits), unfolding(pk_fields::specs::Fields::row_of, pk_fields::specs::Table::rows, pk_tree::specs::Trees::with_buffer))]
fn read_chunked(
    span: Span,
    steps: &[Step],
    pieces: &PieceList,
    b: &mut TreeBuilder,
) -> Result<(), NoMemory>
    requires inside { IsInside b.old.buffers span }
    requires room { length b.old.layers + 2 < 2 ^ 32 }
    requires buffers { length b.old.buffers + 1 < 2 ^ 32 }
    requires short { size_of_pieces pieces.now < 2 ^ 32 }
    requires fits { StepsFit HTTP steps.now }
    ensures layer { IfOk result (λ _.
        b.new ≡ chunked_read b.old span steps.now
        (joined (bytes_of b.old.buffers span) pieces.now)) }
    ensures some { OnOk result (0 < length b.new.layers) }
    ensures most { OnOk result (length b.new.layers ≤ length b.old.layers + 2) }
{
    let content = joined(b.alloc(), b.bytes(span), pieces.slice())?;
    let len = content.bytes().len() as u32;
    let buffer = b.add_buffer(content)?;
    let reach = read_layer(b, ids::HTTP, span, steps, Mode::Plain, false)?;
    if reach.is_all() && len > 0 {
        let whole = Span {
            buffer,
            start: 0,
            len,
        };
        b.read_item(ids::HTTP_FILE_DATA, whole)?;
    }
    Ok(())
}

/// The bytes of chunks.
#[tactic(auto, unfolding(crate::specs::Http::joined))]
fn joined(alloc: Global, bytes: &[u8], pieces: &[Piece]) -> Result<Octets, NoMemory>
    ensures { IfOk result (λ content. content ≡ joined bytes.now pieces.now) }
{
    let mut content = Vec::new(alloc);
    for piece in pieces {
        content.extend_from_slice(front(tail(bytes, piece.start), piece.len))?;
    }
    Octets::from_vec(content)
}

/// The steps of a message's layer.
fn http_steps(alloc: Global, shape: &Shape, bytes: &[u8]) -> Result<Vec<Step>, NoMemory>
    requires { IsShape shape.now bytes.now }
    ensures layout { IfOk result (λ steps. steps.items ≡ http_layout shape.now bytes.now) }
    ensures fits { IfOk result (λ steps. StepsFit HTTP steps.items) }
{
    let mut steps = Vec::with_capacity(alloc, FEW_STEPS)?;
    push_layout(alloc, &mut steps, shape, bytes)?;
    Ok(steps)
}

/// Adds the steps of a message's head and body.
#[tactic(auto, unfolding(crate::specs::Http::http_layout))]
fn push_layout(
    alloc: Global,
    steps: &mut Vec<Step>,
    shape: &Shape,
    bytes: &[u8],
) -> Result<(), NoMemory>
    requires { IsShape shape.now bytes.now }
    ensures { OnOk result (steps.new.items ≡ steps.old.items ++ http_layout shape.now bytes.now) }
{
    push_head(alloc, steps, front(bytes, shape.head))?;
    push_body(steps, shape)
}

/// Adds the step of a body that is as it stands.
fn push_body(steps: &mut Vec<Step>, shape: &Shape) -> Result<(), NoMemory>
    ensures { OnOk result (steps.new.items
        ≡ steps.old.items ++ body_steps shape.now.head shape.now.body) }
{
    if let Body::Plain(len) = &shape.body {
        steps.push(Step::Part(ids::HTTP_FILE_DATA, shape.head, *len))?;
    }
    Ok(())
}
