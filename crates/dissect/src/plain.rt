ghost use Rattle.std.specs.Prelude.{◌≡◌, ◌+◌, ◌<◌, ◌≤◌, ◌^◌, ◌∷◌, [], List, length, IfOk, IfSome, OnOk};
ghost use Rattle.pk_fields.specs.declared.rules.PortRule.{PortRule as PortRuleValue};
ghost use Rattle.pk_fields.specs.Ids.{TCP};
ghost use Rattle.pk_tree.specs.Buffers.{IsInside};
ghost use Rattle.dis_ip.specs.Ip4.{ip4_packet};
ghost use Rattle.dis_ports.specs.Tcp.{tcp_head};
ghost use Rattle.app_layers.specs.FrameLayer.{is_cut};
ghost use Rattle.app_layers.specs.Payloads.{LastIs};
ghost use Rattle.dissect.specs.Events.{Event};
ghost use Rattle.dissect.specs.Plain.{IsEthernet, IsIp4, IsTcp, IsPlain, own};
ghost use Rattle.dissect.specs.Stands.{StandsAt, IsWalked, HasRoomForOne, AddsAtMost, bytes_kept};
ghost use Rattle.dissect.specs.Walks.{link_met, all_met, segment_met};

use crate::state::State;
use crate::todo::Todo;
use app_layers::{frame_span, is_cut};
use capture_read::Frame;
use dis_ip::{WholeIp4, behind_ip4, head_of_ip4, open_ip4};
use dis_link::{behind_ethernet, open_ethernet};
use dis_ports::{WholeTcp, behind_tcp, open_tcp, tcp_head};
use pk_base::{Next, NoMemory, Octets, Span};
use pk_fields::PortRule;
use pk_tree::TreeBuilder;

/// LINKTYPE_ETHERNET of tcpdump.org's registry.
const ETHERNET: u16 = 1;

/// Where the headers of a plain frame stand.
#[derive(Clone, Copy)]
pub(crate) struct PlainFrame {
    pub packet: Span,
    pub ip: WholeIp4,
    pub tcp: WholeTcp,
}

/// The headers of a frame, where it is Ethernet, IPv4 in one piece, and TCP, and each header is whole: a few bytes tell it.
#[inline(always)]
pub(crate) fn plain_frame(frame: &Frame) -> Option<PlainFrame>
    requires bytes { length frame.now.bytes < 2 ^ 32 }
    ensures plain { IfSome result (IsPlain frame.now) }
{
    let packet = plain_ethernet(frame)?;
    let ip = plain_ip4(frame, packet)?;
    let tcp = plain_tcp(frame, ip.inner)?;
    Some(PlainFrame { packet, ip, tcp })
}

#[inline(always)]
fn plain_ethernet(frame: &Frame) -> Option<Span>
    requires bytes { length frame.now.bytes < 2 ^ 32 }
    ensures ethernet { IfSome result (IsEthernet frame.now) }
{
    if frame.link != ETHERNET {
        return None;
    }
    let whole = frame_span(frame);
    match behind_ethernet(whole, own(frame, whole))? {
        (Next::Ip4, packet) => Some(packet),
        _ => None,
    }
}

#[inline(always)]
fn plain_ip4(frame: &Frame, packet: Span) -> Option<WholeIp4>
    requires bytes { length frame.now.bytes < 2 ^ 32 }
    requires inside { IsInside (frame.now.bytes ∷ []) packet }
    ensures ip { IfSome result (IsIp4 frame.now packet) }
{
    let ip = behind_ip4(packet, own(frame, packet))?;
    match ip.next {
        Next::Tcp => Some(ip),
        _ => None,
    }
}

#[inline(always)]
fn plain_tcp(frame: &Frame, inner: Span) -> Option<WholeTcp>
    requires bytes { length frame.now.bytes < 2 ^ 32 }
    requires inside { IsInside (frame.now.bytes ∷ []) inner }
    ensures tcp { IfSome result (IsTcp frame.now inner) }
{
    let tcp = behind_tcp(inner, own(frame, inner))?;
    Some(tcp)
}

/// Bytes of a frame.
#[inline(always)]
#[tactic(auto, using(crate::proofs::PlainWay::inside_end), unfolding(pk_tree::specs::Buffers::bytes_of))]
pub(crate) fn own(frame: &Frame, span: Span) -> &[u8]
    requires inside { IsInside (frame.now.bytes ∷ []) span }
    ensures bytes { result.now ≡ own frame.now span }
    ensures len { length result.now ≡ span.len }
    ensures end { span.start + span.len ≤ length frame.now.bytes }
{
    let start = span.start as usize;
    &frame.bytes.bytes()[start..start + span.len as usize]
}

/// Bytes of a frame, shared and not copied.
#[tactic(auto, using(crate::proofs::PlainWay::inside_end), unfolding(pk_tree::specs::Buffers::bytes_of))]
pub(crate) fn own_part(frame: &Frame, span: Span) -> Result<Octets, NoMemory>
    requires inside { IsInside (frame.now.bytes ∷ []) span }
    ensures { IfOk result (λ part. part ≡ own frame.now span) }
{
    let start = span.start as usize;
    frame.bytes.part(start, start + span.len as usize)
}

impl State {
    /// Reads all headers of a plain frame behind the layer of the frame itself.
    pub(crate) fn read_plain(
        &mut self,
        rules: &[PortRule],
        frame: &Frame,
        plain: &PlainFrame,
        tree: &mut TreeBuilder,
    ) -> Result<(), NoMemory>
        requires frame { tree.old.buffers ≡ frame.now.bytes ∷ [] }
        requires bytes { length frame.now.bytes < 2 ^ 32 }
        requires room { length tree.old.layers ≤ 2 }
        requires few { HasRoomForOne (length frame.now.bytes) self.old }
        requires plain { IsPlain frame.now plain.now }
        ensures walked { OnOk result ((es : List Event) → StandsAt rules.now es self.old
            → IsWalked rules.now (all_met rules.now frame.now (link_met rules.now frame.now
            tree.old es)) self.new tree.new Todo.Done) }
        ensures added { AddsAtMost 1 self.old self.new }
        ensures kept { OnOk result (bytes_kept self.new
            ≤ bytes_kept self.old + length frame.now.bytes) }
    {
        let cut = is_cut(frame);
        let PlainFrame { packet, ip, tcp } = *plain;
        let bytes = tree.bytes(packet);
        let packet_head = head_of_ip4(packet, cut, bytes);
        let head = tcp_head(tree.bytes(ip.inner));
        open_plain(frame, plain, cut, tree)?;
        self.segment(rules, frame, packet_head, head, tcp.payload, tree)?;
        Ok(())
    }
}

/// Opens the layers of a plain frame's headers.
fn open_plain(
    frame: &Frame,
    plain: &PlainFrame,
    cut: bool,
    tree: &mut TreeBuilder,
) -> Result<(), NoMemory>
    requires frame { tree.old.buffers ≡ frame.now.bytes ∷ [] }
    requires bytes { length frame.now.bytes < 2 ^ 32 }
    requires room { length tree.old.layers ≤ 2 }
    requires plain { IsPlain frame.now plain.now }
    requires cut { cut ≡ is_cut frame.now }
    ensures opened { OnOk result ((rules : List PortRuleValue) (es : List Event) → all_met rules frame.now (link_met rules frame.now tree.old es)
        ≡ segment_met rules frame.now (ip4_packet (is_cut frame.now) plain.now.packet (own frame.now plain.now.packet)) tree.new es (tcp_head (own frame.now plain.now.ip.inner)) plain.now.tcp.payload) }
    ensures last { OnOk result (LastIs TCP tree.new.layers) }
    ensures buffers { tree.new.buffers ≡ tree.old.buffers }
    ensures most { OnOk result (length tree.new.layers ≤ length tree.old.layers + 4) }
{
    open_ethernet(frame_span(frame), tree)?;
    open_ip4(plain.ip.layer, plain.ip.header, tree)?;
    open_tcp(plain.ip.inner, plain.tcp.header, cut, tree)
}
