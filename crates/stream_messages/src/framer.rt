ghost use Rattle.std.specs.Prelude.{◌≡◌, ◌^◌, ◌-◌, min, take, drop};
ghost use Rattle.stream_messages.specs.Framers.{first_sized, fit, number_of};

/// Where the messages of a stream end.
#[derive(Clone, Copy)]
pub enum Framer {
    /// A message begins with so many bytes of a head, whose number from a place on, of so many bytes, tells how many bytes follow
    /// the head.
    LengthPrefix { head: u8, at: u8, width: u8 },
    /// HTTP/1 (RFC 9112).
    Http,
}

/// The bytes of the first message, with its head.
pub(crate) fn first_sized(head: u8, at: u8, width: u8, bytes: &[u8]) -> Option<usize>
    ensures { result ≡ first_sized head at width bytes.now }
{
    let head = usize::from(head);
    if head == 0 || bytes.len() < head {
        return None;
    }
    let told = number_of(part(&bytes[..head], at, width));
    fit(head.saturating_add(told), bytes)
}

/// So many bytes from a place on, as far as they are there.
fn part(bytes: &[u8], at: u8, width: u8) -> &[u8]
    ensures { result.now ≡ take width (drop at bytes.now) }
{
    let from = usize::from(at).min(bytes.len());
    let rest = &bytes[from..];
    &rest[..usize::from(width).min(rest.len())]
}

/// The number of these bytes, the highest first, as far as a count goes.
fn number_of(bytes: &[u8]) -> usize
    ensures { result ≡ min (number_of bytes.now) (2 ^ 64 - 1) }
{
    let mut number = 0usize;
    for byte in bytes {
        number = number
            .saturating_mul(256)
            .saturating_add(usize::from(*byte));
    }
    number
}

fn fit(end: usize, bytes: &[u8]) -> Option<usize>
    ensures { result ≡ fit end bytes.now }
{
    if end <= bytes.len() { Some(end) } else { None }
}
