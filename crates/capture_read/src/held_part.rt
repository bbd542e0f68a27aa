ghost use Rattle.std.specs.Prelude.{◌≡◌, ◌+◌, ◌≤◌, length};
ghost use Rattle.pk_base.specs.Limits.{file_limit as limit_of_file};
ghost use Rattle.capture_read.specs.Capture.{capture_of, held_part, is_large};

use pk_base::file_limit;

/// The bytes of a file that are looked at.
pub fn held_bytes(file: &[u8]) -> &[u8]
    ensures { result.now ≡ held_part file.now }
{
    if is_large(file) {
        &file[..file_limit()]
    } else {
        file
    }
}

/// Whether a file has more bytes than those.
pub fn is_large(file: &[u8]) -> bool
    ensures { result ≡ is_large file.now }
{
    file.len() > file_limit()
}

/// The bytes that the reading of a file rests on: those that are looked at, and one that tells that there are more.
pub fn telling_bytes(file: &[u8]) -> &[u8]
    ensures same { capture_of result.now ≡ capture_of file.now }
    ensures few { length result.now ≤ limit_of_file + 1 }
{
    let most = file_limit() + 1;
    if file.len() > most {
        &file[..most]
    } else {
        file
    }
}
