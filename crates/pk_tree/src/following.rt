ghost use Rattle.std.specs.Prelude.{◌≡◌, ℕ, ◌+◌, ◌^◌, ◌<◌, ◌≤◌, List};
ghost use Rattle.pk_tree.specs.Buffers.{IsInside};
ghost use Rattle.pk_tree.specs.Following.{behind, carried, first_of, LeadsInside};

use pk_base::{After, Next, Span};

/// The bytes behind a header of so many bytes, as a protocol's, or the end where there are none.
pub fn carried(next: Next, span: Span, header: u32) -> After
    requires end { span.start + span.len < 2 ^ 32 }
    ensures after { result ≡ carried next span header }
    ensures inside { (buffers : List (List ℕ)) → IsInside buffers span
        → LeadsInside buffers result }
{
    if header < span.len {
        After::Next(next, behind(span, header))
    } else {
        After::End
    }
}

/// The bytes behind a header of so many bytes.
pub fn behind(span: Span, header: u32) -> Span
    requires header { header ≤ span.len }
    requires end { span.start + span.len < 2 ^ 32 }
    ensures behind { result ≡ behind span header }
    ensures inside { (buffers : List (List ℕ)) → IsInside buffers span → IsInside buffers result }
{
    Span {
        buffer: span.buffer,
        start: span.start + header,
        len: span.len - header,
    }
}

/// A span's first bytes, as many as that or as there are.
pub fn first_of(span: Span, most: u32) -> Span
    ensures first { result ≡ first_of span most }
    ensures inside { (buffers : List (List ℕ)) → IsInside buffers span → IsInside buffers result }
    ensures end { result.start + result.len ≤ span.start + span.len }
{
    Span {
        buffer: span.buffer,
        start: span.start,
        len: span.len.min(most),
    }
}
