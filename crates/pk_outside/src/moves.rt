// How the captures in memory fill a reader's room.
ghost use Rattle.std.specs.Prelude.{◌≡◌, ◌++◌, length, take, drop, min};

/// Moves bytes of `from` to the front of `to`, as many as both hold and at most `most`.
pub(crate) fn move_front(from: &[u8], most: usize, to: &mut [u8]) -> usize
    ensures count { result ≡ min most (min (length to.old) (length from.now)) }
    ensures moved { to.new ≡ take result from.now ++ drop result to.old }
{
    let count = most.min(to.len().min(from.len()));
    to[..count].copy_from_slice(&from[..count]);
    count
}
