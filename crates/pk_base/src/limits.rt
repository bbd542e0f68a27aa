ghost use Rattle.std.specs.Prelude.{◌≡◌, ◌^◌};
ghost use Rattle.pk_base.specs.Limits.{file_limit as limit_of_file};

/// The bytes of a capture file that are read at most.
pub const FILE_LIMIT: usize = 1 << 28;

/// The bytes that one record may hold of its frame.
pub const CAPTURED_LIMIT: u32 = 262_144;

/// The layers of a frame's chain, before its `data`.
pub const LAYER_LIMIT: usize = 32;

/// The bytes of a datagram joined from fragments.
pub const DATAGRAM_LIMIT: u32 = 65_535;

/// How far past the bytes in order a segment's byte is still kept.
pub const WINDOW: u64 = 1 << 24;

/// The bytes of an HTTP message's head.
pub const HTTP_HEAD_LIMIT: usize = 65_536;

/// The field lines of an HTTP message's head.
pub const HTTP_FIELD_LIMIT: usize = 128;

/// The bytes of an HTTP body that is shown.
pub const BODY_LIMIT: u64 = 1_048_576;

/// The bytes of a chunk's size line.
pub const CHUNK_LINE_LIMIT: usize = 4_096;

/// The bytes of the lines after the last chunk.
pub const TRAILER_LIMIT: usize = 65_536;

/// The bytes of a DNS name (RFC 1035, 2.3.4).
pub const NAME_LIMIT: usize = 255;

/// The bytes of a DNS label (RFC 1035, 2.3.4).
pub const LABEL_LIMIT: usize = 63;

/// The bytes of a display filter's text.
pub const FILTER_LIMIT: usize = 4_096;

/// The brackets, negations and calls of a display filter that are open at once.
pub const FILTER_DEPTH_LIMIT: usize = 64;

/// The frames of a generated capture.
pub const GENERATED_LIMIT: u32 = 200_000;

/// [`FILE_LIMIT`], as a number that contracts name without computing with it.
#[tactic(auto, unfolding(crate::specs::Limits::file_limit))]
pub fn file_limit() -> usize
    ensures value { result ≡ limit_of_file }
    ensures number { result ≡ 2 ^ 28 }
{
    FILE_LIMIT
}
