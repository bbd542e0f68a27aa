// How far a capture file is read.
ghost use Rattle.std.specs.Prelude.{◌≡◌, ◌+◌, ◌≤◌, ◌<◌, ◌^◌, ℕ, List, [], Some, false, true, length, take, drop, IfErr, IfOk, IsErrOf, OnOk};
ghost use Rattle.capture_formats.specs.Sections.{IsStepWithin};
ghost use Rattle.capture_formats.specs.declared.step.BlockStep.TheVariants as step;
ghost use Rattle.pk_base.specs.Limits.{file_limit as limit_of_file};
ghost use Rattle.pk_base.specs.declared.found.Found.{Found};
ghost use Rattle.capture_read.specs.Answers.{CountsMet, CountsSight, CountsTurn, FailsAt, Meets, Sees, TakesFew, Turns, behind_found};
ghost use Rattle.capture_read.specs.Capture.{frame_of};
ghost use Rattle.capture_read.specs.Reader.{IsPlaced, Stands, cut_here, step_here};
ghost use Rattle.capture_read.specs.Reads.{CountsFault, StaysBegun};
ghost use Rattle.capture_read.specs.declared.kind.Seen.TheVariants as seen;

use crate::ending::{Ending, damage_at, end_of_bytes, unfinished};
use crate::fill::fill;
use crate::frame::Frame;
use crate::held::Held;
use crate::kind::{Kind, Seen};
use crate::look::look;
use crate::read_error::ReadError;
use crate::room::{block_of, move_to_room};
use crate::state::begins_pcapng;
use bytes::BytesMut;
use capture_formats::{BlockStep, Sections};
use pk_base::{Found, NoMemory, Octets, Reason, file_limit};
use pk_outside::Capture;
use std::alloc::Global;
use std::marker::Model;

/// Where there is no frame yet.
pub const NOWHERE: Found = Found {
    time: None,
    link: 0,
    little: false,
    original: 0,
    start: 0,
    len: 0,
    end: 0,
};

/// What comes next in a file.
#[derive(Clone, Copy)]
pub enum Met {
    /// A frame in the record or block at hand. Where it is there stands in a place of its own, since it would be moved at
    /// each step.
    Item,
    End(Ending),
}

/// What one step through a file comes to.
#[derive(Clone, Copy)]
pub enum Turn {
    Next(Met),
    /// No answer yet.
    Again,
}

/// What stands at a reader's place.
#[derive(Clone, Copy)]
pub enum Sight {
    /// What the step comes to, without a read.
    Told(Turn),
    /// More bytes are needed than are held: so many.
    Need(usize),
}

/// The place of the next header, record or block of a file, what is known there, and the bytes held
/// from there on.
#[derive(Drop)]
pub struct Position {
    alloc: Global,
    kind: Option<Kind>,
    sections: Sections,
    number: u32,
    at: usize,
    held: Held,
    seen: Seen,
    /// Where reads go, unless that is the block of the bytes held.
    room: BytesMut,
}

impl Model for Position {
    ghost use Rattle.capture_read.specs.Reader.{Reader, IsKept};

    ghost Value = { Reader };

    ghost view = { λ p. record {
      kind = p.kind;
      scope = p.sections;
      number = p.number;
      at = p.at;
      held = p.held;
      seen = p.seen;
    } };

    ghost invariant = { λ p. IsKept (record {
      kind = p.kind;
      scope = p.sections;
      number = p.number;
      at = p.at;
      held = p.held;
      seen = p.seen;
    }) };
}

impl Position {
    /// Before the first byte of a file.
    #[tactic(auto, using(crate::proofs::ReaderTurns::stands_new))]
    pub fn new(alloc: Global) -> Position
        ensures stands { (left : List ℕ) → Stands result (Some left) left [] }
        ensures number { result.number ≡ 1 }
        ensures at { result.at ≡ 0 }
    {
        Position {
            alloc,
            kind: None,
            sections: Sections::new(alloc),
            number: 1,
            at: 0,
            held: Held::new(),
            seen: Seen::Open,
            room: BytesMut::new(alloc),
        }
    }

    /// How the file ends where more bytes are needed than there are.
    fn cut(&self, large: bool) -> Ending
        ensures { result ≡ cut_here self.now.kind large self.now.at self.now.held }
    {
        let bytes = self.held.bytes();
        match self.kind {
            None if begins_pcapng(bytes) => unfinished(large, self.at, Reason::BlockCut),
            None => unfinished(large, self.at, Reason::ShortHeader),
            Some(_) if bytes.is_empty() => end_of_bytes(large),
            Some(Kind::Pcap(_)) => unfinished(large, self.at, Reason::RecordCut),
            Some(Kind::Pcapng) => unfinished(large, self.at, Reason::BlockCut),
        }
    }

    /// How the file ends where more bytes are needed than are held, or that they are to be read.
    fn want(&self, need: usize) -> Sight
        requires needs { step_here self.now.kind self.now.scope self.now.held ≡ step.Need need }
        requires few { length self.now.held < need }
        ensures sees { (found : Found) → Sees result found self.now self.now }
        ensures counts { CountsSight result self.now self.now }
    {
        match self.seen {
            Seen::Ended => Sight::Told(Turn::Next(Met::End(self.cut(false)))),
            Seen::Beyond => Sight::Told(Turn::Next(Met::End(self.cut(true)))),
            Seen::Open => Sight::Need(need),
        }
    }

    /// Reads on where more bytes are needed than are held.
    fn need_more<C: Capture>(&mut self, capture: &mut C, need: usize) -> Result<Turn, ReadError>
        requires needs { step_here self.old.kind self.old.scope self.old.held ≡ step.Need need }
        requires few { length self.old.held < need }
        requires open { self.old.seen ≡ seen.Open }
        ensures turns { (found : Found) → IfOk result (λ turn. Turns turn found self.old self.new
            (C.left capture.old) (C.left capture.new)) }
        ensures counts { IfOk result (λ turn. CountsTurn turn self.old self.new) }
        ensures limit { self.new.at ≤ limit_of_file }
        ensures fails { IsErrOf result ReadError.ReadFault
            → FailsAt self.old (C.left capture.old) (C.left capture.new) }
        ensures took { TakesFew self.old (C.left capture.old) (C.left capture.new) }
        ensures stays { StaysBegun (C.file capture.old) (C.file capture.new)
            (C.asked capture.old) (C.asked capture.new) (C.refused capture.old) (C.refused capture.new)
            (C.begun capture.old) (C.begun capture.new) (C.missed capture.old) (C.missed capture.new) }
        ensures no_fault { OnOk result (C.faults capture.new ≡ C.faults capture.old) }
        ensures faulted { IfErr result (λ error.
            CountsFault error (C.faults capture.old) (C.faults capture.new)) }
    {
        let most = file_limit() - self.at;
        let len = self.held.len();
        let alone = move_to_room(self.alloc, &mut self.held, &mut self.room)?;
        let filled = match fill(capture, &mut self.room, len, need, most) {
            Ok(filled) => filled,
            Err(error) => return Err(error),
        };
        let block = block_of(self.alloc, &mut self.room, filled.len, alone)?;
        self.held.hold(block, filled.len);
        self.seen = filled.seen;
        Ok(Turn::Again)
    }

    /// The captured bytes of the frame found in the record or block at hand.
    #[inline(always)]
    pub fn part(&self, found: &Found) -> Result<Octets, NoMemory>
        requires { found.now.start + found.now.len ≤ length self.now.held }
        ensures { IfOk result (λ octets.
            octets ≡ take found.now.len (drop found.now.start self.now.held)) }
    {
        self.held.part(found.start, found.len)
    }

    /// The frame found in the record or block at hand, of these bytes. The place is behind it then.
    #[inline(always)]
    pub fn pass(&mut self, found: &Found, bytes: Octets) -> Frame
        requires within { IsStepWithin (step.Item found.now) (length self.old.held) }
        requires placed { (number : ℕ) → (at : ℕ)
            → IsPlaced self.old.kind self.old.scope number at }
        requires part { bytes ≡ take found.now.len (drop found.now.start self.old.held) }
        ensures frame { result ≡ frame_of self.old.number found.now self.old.held }
        ensures behind { self.new ≡ behind_found found.now self.old }
        ensures limit { self.new.at ≤ limit_of_file }
    {
        let number = self.number;
        self.number += 1;
        self.at += found.end;
        self.held.pass(found.end);
        Frame {
            number,
            time: found.time,
            link: found.link,
            little: found.little,
            bytes,
            original: found.original,
        }
    }

    /// Looks at the header, record or block at hand, and goes behind it where it is held and has no frame.
    #[inline(always)]
    fn look_on(&mut self, found: &mut Found) -> Result<Sight, NoMemory>
        ensures sees { IfOk result (λ sight. Sees sight found.new self.old self.new) }
        ensures counts { IfOk result (λ sight. CountsSight sight self.old self.new) }
        ensures limit { self.new.at ≤ limit_of_file }
    {
        match look(&mut self.kind, &mut self.sections, self.held.bytes())? {
            BlockStep::Need(need) => Ok(self.want(need)),
            BlockStep::Bad(reason) => {
                let ending = damage_at(self.at, reason);
                Ok(Sight::Told(Turn::Next(Met::End(ending))))
            }
            BlockStep::Item(item) => {
                *found = item;
                Ok(Sight::Told(Turn::Next(Met::Item)))
            }
            BlockStep::Skipped(size) => {
                self.at += size;
                self.held.pass(size);
                Ok(Sight::Told(Turn::Again))
            }
        }
    }

    /// Looks at the header, record or block at hand, and goes behind it where it has no frame, or reads on.
    #[inline(always)]
    fn turn<C: Capture>(&mut self, capture: &mut C, found: &mut Found) -> Result<Turn, ReadError>
        ensures turns { IfOk result (λ turn. Turns turn found.new self.old self.new
            (C.left capture.old) (C.left capture.new)) }
        ensures counts { IfOk result (λ turn. CountsTurn turn self.old self.new) }
        ensures limit { self.new.at ≤ limit_of_file }
        ensures fails { IsErrOf result ReadError.ReadFault
            → FailsAt self.old (C.left capture.old) (C.left capture.new) }
        ensures took { TakesFew self.old (C.left capture.old) (C.left capture.new) }
        ensures stays { StaysBegun (C.file capture.old) (C.file capture.new)
            (C.asked capture.old) (C.asked capture.new) (C.refused capture.old) (C.refused capture.new)
            (C.begun capture.old) (C.begun capture.new) (C.missed capture.old) (C.missed capture.new) }
        ensures no_fault { OnOk result (C.faults capture.new ≡ C.faults capture.old) }
        ensures faulted { IfErr result (λ error.
            CountsFault error (C.faults capture.old) (C.faults capture.new)) }
    {
        match self.look_on(found)? {
            Sight::Told(told) => Ok(told),
            Sight::Need(need) => self.need_more(capture, need),
        }
    }

    /// Goes on to the next frame, and tells where it is, or to where the file ends.
    #[inline(always)]
    pub fn find_next<C: Capture>(
        &mut self,
        capture: &mut C,
        found: &mut Found,
    ) -> Result<Met, ReadError>
        ensures meets { IfOk result (λ met. Meets met found.new self.old self.new
            (C.left capture.old) (C.left capture.new)) }
        ensures counts { IfOk result (λ met. CountsMet met self.old self.new) }
        ensures limit { self.new.at ≤ limit_of_file }
        ensures fails { IsErrOf result ReadError.ReadFault
            → FailsAt self.old (C.left capture.old) (C.left capture.new) }
        ensures took { TakesFew self.old (C.left capture.old) (C.left capture.new) }
        ensures stays { StaysBegun (C.file capture.old) (C.file capture.new)
            (C.asked capture.old) (C.asked capture.new) (C.refused capture.old) (C.refused capture.new)
            (C.begun capture.old) (C.begun capture.new) (C.missed capture.old) (C.missed capture.new) }
        ensures no_fault { OnOk result (C.faults capture.new ≡ C.faults capture.old) }
        ensures faulted { IfErr result (λ error.
            CountsFault error (C.faults capture.old) (C.faults capture.new)) }
    {
        loop {
            match self.turn(capture, found) {
                Ok(Turn::Next(next)) => return Ok(next),
                Ok(Turn::Again) => {}
                Err(error) => return Err(error),
            }
        }
    }
}
