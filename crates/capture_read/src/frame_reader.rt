// A capture file, frame by frame, as its bytes come.
ghost use Rattle.std.specs.Prelude.{◌≡◌, ◌↔◌, ◌≤◌, ℕ, List, [], Some, Ok, IfOk, IsErrOf, OnErr, OnOk};
ghost use Rattle.pk_base.specs.Limits.{file_limit as limit_of_file};
ghost use Rattle.pk_outside.specs.Outside.{Rose};
ghost use Rattle.capture_read.specs.Answers.{Answers, CountsNext, Fails, KeepsEnd, TakesFewOf};
ghost use Rattle.capture_read.specs.Reader.{StandsFor};
ghost use Rattle.capture_read.specs.declared.ending.Ending.{Ending};
ghost use Rattle.capture_read.specs.declared.kind.Phase.TheVariants as phase;
ghost use Rattle.capture_read.specs.declared.next_frame.NextFrame.TheVariants.{End};

use crate::kind::Phase;
use crate::next_frame::NextFrame;
use crate::position::{Met, NOWHERE, Position};
use crate::read_error::ReadError;
use pk_base::NoMemory;
use pk_outside::Capture;
use std::alloc::Global;
use std::marker::Model;

/// Reads the frames of a capture file one after the other, as its bytes come. It holds the record
/// or block at hand and what was read ahead, at most 65,536 bytes more, and never the file.
///
/// A frame's bytes share the block of memory that they were read into.
pub struct FrameReader {
    position: Position,
    phase: Phase,
}

impl Drop for FrameReader {
    fn drop(self) {
        let FrameReader {
            position: _position,
            phase: _phase,
        } = self;
    }
}

impl Model for FrameReader {
    ghost use Rattle.std.specs.Prelude.{◌≤◌};
    ghost use Rattle.pk_base.specs.Limits.{file_limit};
    ghost use Rattle.capture_read.specs.Reader.{ReaderShown};

    ghost Value = { ReaderShown };

    ghost view = { λ r. record { state = r.position; phase = r.phase } };

    ghost invariant = { λ r. r.position.at ≤ file_limit };
}

impl FrameReader {
    /// Before the first byte of a file, in the pcap or pcapng format.
    pub fn new(alloc: Global) -> FrameReader
        ensures stands { (left : List ℕ) → StandsFor result (Some left) left [] }
        ensures open { result.phase ≡ phase.Open }
        ensures number { result.state.number ≡ 1 }
        ensures at { result.state.at ≡ 0 }
    {
        FrameReader {
            position: Position::new(alloc),
            phase: Phase::Open,
        }
    }

    /// The next frame of the file that the capture has begun, or how the file ends, which is then
    /// answered again and again. At most the first 2^28 bytes are looked at, and one more is read.
    ///
    /// No read is called where the bytes held say the answer, and none asks for more than 65,536
    /// bytes. After an error the reader is spent: it answers `Spent` from then on.
    pub fn next_frame<C: Capture>(&mut self, capture: &mut C) -> Result<NextFrame, ReadError>
        // The frames of the file in order, and its end. The bytes taken end near the last frame.
        ensures answers { IfOk result (λ next. Answers next self.old self.new
            (C.left capture.old) (C.left capture.new)) }
        ensures counts { IfOk result (λ next. CountsNext next self.old.state self.new.state) }
        ensures limit { self.new.state.at ≤ limit_of_file }

        // Once the file has ended, the same is answered again, and nothing is read.
        ensures kept { IfOk result (λ next. KeepsEnd next self.new.phase) }
        ensures again { (ending : Ending) → self.old.phase ≡ phase.Ended ending
            → (result ≡ Ok (End ending)) × (self.new ≡ self.old) × (capture.new ≡ capture.old) }

        // A read failed: the bytes taken hold exactly the frames answered before.
        ensures fails { IsErrOf result ReadError.ReadFault
            → Fails self.old (C.left capture.old) (C.left capture.new) }
        ensures fault { IsErrOf result ReadError.ReadFault
            → Rose (C.faults capture.old) (C.faults capture.new) }
        ensures took { TakesFewOf self.old (C.left capture.old) (C.left capture.new) }
        ensures spent { IsErrOf result ReadError.Spent ↔ (self.old.phase ≡ phase.Spent) }
        ensures spent_after { OnErr result (self.new.phase ≡ phase.Spent) }

        // No failed read is counted with an answer, nor where memory lacks.
        ensures no_fault { OnOk result (C.faults capture.new ≡ C.faults capture.old) }
        ensures starved { IsErrOf result ReadError.NoMemory
            → C.faults capture.new ≡ C.faults capture.old }

        // What stays of the capture.
        ensures file { (n : List ℕ) → C.file capture.new n ≡ C.file capture.old n }
        ensures asked { C.asked capture.new ≡ C.asked capture.old }
        ensures refused { C.refused capture.new ≡ C.refused capture.old }
        ensures begun { C.begun capture.new ≡ C.begun capture.old }
        ensures missed { C.missed capture.new ≡ C.missed capture.old }
        ensures faults_stay { C.faults capture.old ≤ C.faults capture.new }
    {
        match self.phase {
            Phase::Open => {}
            Phase::Ended(ending) => return Ok(NextFrame::End(ending)),
            Phase::Spent => return Err(ReadError::Spent),
        }
        let mut found = NOWHERE;
        match self.position.find_next(capture, &mut found) {
            Ok(Met::Item) => match self.position.part(&found) {
                Ok(bytes) => Ok(NextFrame::Frame(self.position.pass(&found, bytes))),
                Err(NoMemory) => {
                    self.phase = Phase::Spent;
                    Err(ReadError::NoMemory)
                }
            },
            Ok(Met::End(ending)) => {
                self.phase = Phase::Ended(ending);
                Ok(NextFrame::End(ending))
            }
            Err(error) => {
                self.phase = Phase::Spent;
                Err(error)
            }
        }
    }
}
