ghost use Rattle.std.specs.Prelude.{◌≡◌, MatchResult};
ghost use Rattle.capture_read.specs.Capture.{capture_of};
ghost use Rattle.capture_read.specs.FrameList.{AreTimesSmall};
ghost use Rattle.capture_read.specs.NextFrame.{Gives};

use crate::format::{Format, Place};
use crate::next_frame::NextFrame;
use crate::state::{first_place, take_frame};
use capture_formats::Sections;
use pk_base::{NoMemory, Octets};
use std::alloc::Global;
use std::marker::Model;

/// The frames of a capture file whose bytes are in memory, one after the other. Contracts see what is still to come:
/// the frames, and how the file ends.
#[derive(Drop)]
pub(crate) struct HeldFrames {
    file: Octets,
    format: Format,
    sections: Sections,
    place: Place,
}

impl Model for HeldFrames {
    ghost use Rattle.capture_read.specs.Capture.{Reading};

    ghost Value = { Reading };

    ghost use Rattle.capture_read.specs.State.{rest_of, IsReached};

    ghost view = { λ h. rest_of h.file h.format h.sections h.place };

    ghost invariant = { λ h. IsReached h.file h.format h.sections h.place };
}

impl HeldFrames {
    /// Begins before the first frame of a file. At most its first 2^28 bytes are looked at.
    pub fn new(alloc: Global, file: Octets) -> HeldFrames
        ensures value { result ≡ capture_of file }
        ensures times { AreTimesSmall result.frames }
    {
        let (format, place) = first_place(file.bytes());
        HeldFrames {
            file,
            format,
            sections: Sections::new(alloc),
            place,
        }
    }

    /// The next frame, whose bytes share the file's memory, or how the file ends, which is then answered again and
    /// again. After an error nothing is changed.
    pub fn next_frame(&mut self) -> Result<NextFrame, NoMemory>
        ensures { MatchResult result (λ next. Gives next self.old self.new) (λ _.
            self.new ≡ self.old) }
    {
        take_frame(&self.file, self.format, &mut self.sections, &mut self.place)
    }
}
