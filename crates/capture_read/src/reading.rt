ghost use Rattle.std.specs.Prelude.{◌≡◌, ◌++◌, IfOk, OnOk};
ghost use Rattle.capture_read.specs.Capture.{capture_of};
ghost use Rattle.capture_read.specs.FrameList.{AreTimesSmall};

use crate::ending::Ending;
use crate::frame::Frame;
use crate::frame_list::FrameList;
use crate::held_frames::HeldFrames;
use crate::held_part::telling_bytes;
use crate::next_frame::NextFrame;
use pk_base::{NoMemory, Octets};
use std::alloc::Global;

/// The frames of a capture file in order, and how the file ends. The bytes are copied once, and all frames share them.
pub fn frames(alloc: Global, bytes: &[u8]) -> Result<(FrameList, Ending), NoMemory>
    ensures frames { IfOk result (λ r. r.0 ≡ (capture_of bytes.now).frames) }
    ensures ending { IfOk result (λ r. r.1 ≡ (capture_of bytes.now).ending) }
    ensures times { IfOk result (λ r. AreTimesSmall r.0) }
{
    let mut held = HeldFrames::new(alloc, Octets::copy(alloc, telling_bytes(bytes))?);
    take_frames(alloc, &mut held)
}

/// The frames that are still to come, and how the file ends.
fn take_frames(alloc: Global, held: &mut HeldFrames) -> Result<(FrameList, Ending), NoMemory>
    ensures frames { IfOk result (λ r. r.0 ≡ held.old.frames) }
    ensures ending { IfOk result (λ r. r.1 ≡ held.old.ending) }
{
    let mut list = Vec::new(alloc);
    let ending = add_frames(held, &mut list)?;
    Ok((FrameList::from_vec(list), ending))
}

/// Adds the frames that are still to come, and answers how the file ends.
fn add_frames(held: &mut HeldFrames, list: &mut Vec<Frame>) -> Result<Ending, NoMemory>
    ensures frames { OnOk result (list.new.items ≡ list.old.items ++ held.old.frames) }
    ensures ending { IfOk result (λ ending. ending ≡ held.old.ending) }
{
    loop {
        match held.next_frame()? {
            NextFrame::Frame(frame) => list.push(frame)?,
            NextFrame::End(ending) => return Ok(ending),
        }
    }
}
