ghost use Rattle.std.specs.Prelude.{◌≡◌, ◌++◌, IfOk, OnOk};
ghost use Rattle.std.specs.String.{string_bytes};
ghost use Rattle.std.specs.List.{list_all};
ghost use Rattle.pk_text.specs.Escape.{escape_byte, escaped, is_plain as is_byte_plain};

use crate::puts::{TextSink, put_pair};
use pk_base::NoMemory;
use std::alloc::Global;

/// Bytes as a text of printable ASCII: a backslash is doubled, and a byte outside 0x20 to 0x7E is `\x` and two digits.
pub fn escape_text(alloc: Global, bytes: &[u8]) -> Result<String, NoMemory>
    ensures { IfOk result (λ text. string_bytes text ≡ escaped bytes.now) }
{
    let mut text = String::with_capacity(alloc, bytes.len())?;
    put_escaped(&mut text, bytes)?;
    Ok(text)
}

/// Appends that text of bytes.
#[tactic(auto, unfolding(crate::specs::Escape::escaped))]
pub fn put_escaped<S: TextSink>(sink: &mut S, bytes: &[u8]) -> Result<(), NoMemory>
    ensures { OnOk result (S.taken sink.new ≡ S.taken sink.old ++ escaped bytes.now) }
{
    if are_plain(bytes) {
        return sink.put_digits(bytes);
    }
    for byte in bytes {
        put_escaped_byte(sink, *byte)?;
    }
    Ok(())
}

/// Whether all bytes stand as they are.
fn are_plain(bytes: &[u8]) -> bool
    ensures { result ≡ list_all is_byte_plain bytes.now }
{
    bytes.iter().all(|byte| is_plain(*byte))
}

/// Whether a byte stands as it is.
#[inline(always)]
fn is_plain(byte: u8) -> bool
    ensures { result ≡ is_byte_plain byte }
{
    (b' '..=b'~').contains(&byte) && byte != b'\\'
}

fn put_escaped_byte<S: TextSink>(sink: &mut S, byte: u8) -> Result<(), NoMemory>
    ensures { OnOk result (S.taken sink.new ≡ S.taken sink.old ++ escape_byte byte) }
{
    match byte {
        b'\\' => sink.put_text("\\\\"),
        b' '..=b'~' => sink.put_ascii(byte),
        _ => {
            sink.put_text("\\x")?;
            put_pair(sink, byte)
        }
    }
}
