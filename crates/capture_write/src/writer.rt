ghost use Rattle.std.specs.Prelude.{◌≡◌, ◌++◌, true, List, [], IfOk, OnOk, OnErr};
ghost use Rattle.capture_read.specs.declared.frame.Frame.{Frame as FrameValue};
ghost use Rattle.capture_write.specs.Frames.{IsFrame};
ghost use Rattle.capture_write.specs.Kept.{nothing_kept, end_at, end_by, fits_by, order_by, packet_of, start_by, Adds, Stands, StandsAfter};
ghost use Rattle.capture_write.specs.ReadBack.{ReadsBack};

use crate::added::Added;
use crate::fitting::{fits, order_by};
use crate::format::Format;
use crate::links::Links;
use crate::pieces::{push_first, push_packet, push_start};
use capture_read::Frame;
use pk_base::{NoMemory, Octets};
use std::alloc::Global;
use std::marker::Model;

/// The most bytes that a frame brings beside its own.
const PIECE_ROOM: usize = 96;

/// The link type of a pcap file without frames: Ethernet.
const ETHERNET: u16 = 1;

/// A capture file that is written frame by frame: the bytes that `add` answers one after the other, and then those of
/// `finish`. Contracts see what is kept of the frames so far.
pub struct Writer {
    alloc: Global,
    format: Format,
    order: Option<bool>,
    links: Links,
}

impl Drop for Writer {
    fn drop(self) {
        let Writer {
            alloc: _,
            format: _format,
            order: _order,
            links: _links,
        } = self;
    }
}

impl Model for Writer {
    ghost use Rattle.capture_write.specs.Kept.{Kept};

    ghost Value = { Kept };

    ghost view = { λ w. record { format = w.format; order = w.order; links = w.links } };
}

impl Writer {
    /// Begins a file of a format. It takes no memory.
    #[tactic(auto, using(crate::proofs::KeptLaws::stands_new))]
    pub fn new(alloc: Global, format: Format) -> Writer
        ensures nothing { result ≡ nothing_kept format }
        ensures stands { Stands result [] }
    {
        Writer {
            alloc,
            format,
            order: None,
            links: Links::new(alloc),
        }
    }

    /// Adds a frame: its bytes follow those before. Where it doesn't fit, and after an error, nothing is changed.
    #[tactic(auto, using(crate::proofs::KeptLaws::stands_add))]
    pub fn add(&mut self, frame: &Frame) -> Result<Added, NoMemory>
        ensures adds { IfOk result (λ added. Adds self.old self.new frame.now added) }
        ensures stands { IfOk result (λ added. (past : List FrameValue) → Stands self.old past
            → StandsAfter self.old self.new frame.now added past) }
        ensures err { OnErr result (self.new ≡ self.old) }
    {
        match self.add_piece(frame) {
            Ok(added) => Ok(added),
            Err(error) => Err(error),
        }
    }

    fn add_piece(&mut self, frame: &Frame) -> Result<Added, NoMemory>
        ensures adds { IfOk result (λ added. Adds self.old self.new frame.now added) }
        ensures small { IsFrame frame.now }
        ensures err { OnErr result (self.new ≡ self.old) }
    {
        let link = frame.link;
        let _original = frame.original;
        let little = order_by(self.order, frame);
        if !fits(self.format, little, &self.links, frame) {
            return Ok(Added::Unfit);
        }
        let octets = piece_of(self.alloc, self.format, self.order, &self.links, frame)?;
        self.links.add(link)?;
        self.order = Some(little);
        Ok(Added::Bytes(octets))
    }

    /// The bytes at the file's end: those of the file without frames where none was added, else none.
    #[tactic(auto, using(crate::proofs::KeptLaws::stands_back))]
    pub fn finish(self) -> Result<Octets, NoMemory>
        ensures bytes { IfOk result (λ octets. octets ≡ end_at self) }
        ensures read_back { IfOk result (λ octets. (past : List FrameValue) → Stands self past
            → ReadsBack self.format past octets) }
    {
        self.end_bytes()
    }

    fn end_bytes(&self) -> Result<Octets, NoMemory>
        ensures { IfOk result (λ octets. octets ≡ end_at self.now) }
    {
        let mut bytes = Vec::new(self.alloc);
        push_end(&mut bytes, self.format, self.order)?;
        Octets::from_vec(bytes)
    }
}

/// The bytes of a frame that fits behind those that brought these link types.
fn piece_of(
    alloc: Global,
    format: Format,
    order: Option<bool>,
    links: &Links,
    frame: &Frame,
) -> Result<Octets, NoMemory>
    requires { fits_by format (order_by order frame.now) links.now frame.now ≡ true }
    ensures { IfOk result (λ octets. octets
        ≡ start_by format order frame.now
        ++ packet_of format (order_by order frame.now) links.now frame.now) }
{
    let little = order_by(order, frame);
    let mut bytes = Vec::with_capacity(alloc, PIECE_ROOM + frame.bytes.bytes().len())?;
    push_first(&mut bytes, format, order, frame)?;
    push_packet(&mut bytes, format, little, links, frame)?;
    Octets::from_vec(bytes)
}

/// Writes the file without frames where there was none.
fn push_end(bytes: &mut Vec<u8>, format: Format, order: Option<bool>) -> Result<(), NoMemory>
    ensures { OnOk result (bytes.new.items ≡ bytes.old.items ++ end_by format order) }
{
    match order {
        None => push_start(bytes, format, true, ETHERNET),
        Some(_) => Ok(()),
    }
}
