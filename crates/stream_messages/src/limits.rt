ghost use Rattle.std.specs.Prelude.{◌≡◌};
ghost use Rattle.stream_messages.specs.Limits.{body_limit as body_limit_is, head_limit as head_limit_is, line_limit as line_limit_is, trailer_limit as trailer_limit_is, turn_limit as turn_limit_is};

use pk_base::{BODY_LIMIT, CHUNK_LINE_LIMIT, HTTP_HEAD_LIMIT, TRAILER_LIMIT};

/// More lines than a list of chunks within the limits can have.
const TURN_LIMIT: usize = BODY_LIMIT as usize + TRAILER_LIMIT + 2;

/// The field lines of most heads. Room for the most that a head may have takes long to clear.
pub const FEW_FIELDS: usize = 32;

/// The bytes of a head.
#[tactic(auto, unfolding(crate::specs::Limits::head_limit))]
pub(crate) fn head_limit() -> usize
    ensures value { result ≡ head_limit_is }
    ensures number { result ≡ 65536 }
{
    HTTP_HEAD_LIMIT
}

/// The bytes of a body that is shown.
#[tactic(auto, unfolding(crate::specs::Limits::body_limit))]
pub(crate) fn body_limit() -> u64
    ensures value { result ≡ body_limit_is }
    ensures number { result ≡ 1048576 }
{
    BODY_LIMIT
}

/// The bytes of a chunk's size line.
#[tactic(auto, unfolding(crate::specs::Limits::line_limit))]
pub(crate) fn line_limit() -> usize
    ensures value { result ≡ line_limit_is }
    ensures number { result ≡ 4096 }
{
    CHUNK_LINE_LIMIT
}

/// The bytes of the lines behind the last chunk.
#[tactic(auto, unfolding(crate::specs::Limits::trailer_limit))]
pub(crate) fn trailer_limit() -> usize
    ensures value { result ≡ trailer_limit_is }
    ensures number { result ≡ 65536 }
{
    TRAILER_LIMIT
}

/// The lines of a list of chunks that are read at most.
#[tactic(auto, unfolding(crate::specs::Limits::turn_limit))]
pub(crate) fn turn_limit() -> usize
    ensures { result ≡ turn_limit_is }
{
    TURN_LIMIT
}
