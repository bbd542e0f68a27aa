// Giving up what going over frames owns. The destructor of a value is written out at each place where the value is dropped, and in
// each crate anew: so those of large types are dropped here alone, by all crates that own them.
use crate::twice::KeptFrames;
use capture_read::{Frame, FrameReader};
use dissect::Heads;
use run_frames::Later;
use second_pass::Links;

/// Gives kept frames up.
pub fn give_up_kept(_kept: KeptFrames) {}

/// Gives up what is known of later frames.
pub fn give_up_later(later: Later) {
    match later {
        Later::Unread => {}
        Later::Known(links) => give_up_links(links),
    }
}

/// Gives links up.
pub(crate) fn give_up_links(_links: Links) {}

/// Gives headers up.
pub(crate) fn give_up_heads(_heads: Heads) {}

/// Gives a reader up.
pub(crate) fn give_up_reader(_reader: FrameReader) {}

/// Gives a frame up.
pub(crate) fn give_up_frame(_frame: Frame) {}
