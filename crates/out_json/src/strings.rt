// Strings of a line (RFC 8259, section 7).
ghost use Rattle.std.specs.Prelude.{◌≡◌, ◌≤◌, ◌++◌, OnOk};
ghost use Rattle.std.specs.List.{All};
ghost use Rattle.json.specs.Print.{escape, escape_byte};
ghost use Rattle.out_json.specs.Lines.{string_text};
ghost use Rattle.pk_text.specs.Digits.{hex_shown};

use pk_base::NoMemory;
use pk_text::{Slab, put_hex};

/// Appends a text without control characters. A quote and a backslash have a backslash before them.
#[tactic(auto, unfolding(crate::specs::Lines::string_text))]
pub(crate) fn put_string(line: &mut Slab, text: &[u8]) -> Result<(), NoMemory>
    requires { All (λ byte. 32 ≤ byte) text.now }
    ensures { OnOk result (line.new ≡ line.old ++ string_text text.now) }
{
    line.put_byte(b'"')?;
    put_escaped(line, text)?;
    line.put_byte(b'"')
}

fn put_escaped(line: &mut Slab, text: &[u8]) -> Result<(), NoMemory>
    requires { All (λ byte. 32 ≤ byte) text.now }
    ensures { OnOk result (line.new ≡ line.old ++ escape text.now) }
{
    for byte in text {
        put_byte(line, *byte)?;
    }
    Ok(())
}

#[tactic(auto, unfolding(json::specs::Print::escape_byte))]
fn put_byte(line: &mut Slab, byte: u8) -> Result<(), NoMemory>
    requires { 32 ≤ byte }
    ensures { OnOk result (line.new ≡ line.old ++ escape_byte byte) }
{
    if byte == b'"' || byte == b'\\' {
        line.put_byte(b'\\')?;
    }
    line.put_byte(byte)
}

/// Appends bytes in hexadecimal.
pub(crate) fn put_hex_string(line: &mut Slab, bytes: &[u8]) -> Result<(), NoMemory>
    ensures { OnOk result (line.new ≡ line.old ++ string_text (hex_shown bytes.now)) }
{
    line.put_byte(b'"')?;
    put_hex(line, bytes)?;
    line.put_byte(b'"')
}
