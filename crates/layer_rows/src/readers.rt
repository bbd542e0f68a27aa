//! The readers by their names, and the layers of bytes as text.
ghost use Rattle.std.specs.Prelude.{◌≡◌, ◌+◌, ◌<◌, ◌≤◌, length, IfOk, IfSome, OnOk};
ghost use Rattle.dis_http.specs.Http.{IsShape};
ghost use Rattle.pk_tree.specs.Buffers.{IsInside};
ghost use Rattle.pk_tree.specs.Following.{LeadsInside};

use crate::afters::push_after;
use crate::givens::Given;
use dis_dns::{read_dns, read_mdns};
use dis_hosts::{read_dhcp, read_ntp};
use dis_http::read_http;
use dis_icmp::{read_icmp, read_icmp6, read_igmp, read_neigh};
use dis_ip::{read_extension, read_ip4, read_ip6};
use dis_link::{read_arp, read_link, read_vlan};
use dis_ports::{read_tcp, read_udp};
use pk_base::{Address, After, Mode, Next, NoMemory, Octets, PacketHead, Span};
use pk_tree::{Tree, TreeBuilder};
use std::alloc::Global;
use stream_messages::{Framed, Shape, next_message};
use tree_rows::{Places, layers_text};

/// The layers of bytes, a line for each, and what follows them.
pub(crate) fn text_of(
    alloc: Global,
    reader: &str,
    given: &Given,
    bytes: Octets,
) -> Result<String, NoMemory> {
    let (tree, after) = tree_of(alloc, reader, given, bytes)?;
    let mut text = layers_text(alloc, tree.layers(), places(reader))?;
    push_after(alloc, &mut text, after)?;
    Ok(text)
}

/// Which places are told: of the texts of names, and of the parts of HTTP's messages.
fn places(reader: &str) -> Places {
    match reader {
        "dns" | "mdns" => Places::Derived,
        "http" => Places::Read,
        _ => Places::Hidden,
    }
}

/// The tree of at most 100,000 bytes.
pub(crate) fn tree_of(
    alloc: Global,
    reader: &str,
    given: &Given,
    bytes: Octets,
) -> Result<(Tree, After), NoMemory> {
    let len = bytes.bytes().len();
    if len > 100_000 {
        return Err(NoMemory);
    }
    let span = Span {
        buffer: 0,
        start: 0,
        len: len as u32,
    };
    let mut b = TreeBuilder::keeping(alloc, bytes, given.wanted)?;
    let after = read_all(reader, given, span, &mut b)?;
    Ok((b.finish(), after))
}

/// A header and those that follow it, as far as they are followed here, or the first alone.
fn read_all(reader: &str, given: &Given, span: Span, b: &mut TreeBuilder) -> Result<After, NoMemory>
    requires inside { IsInside b.old.buffers span }
    requires layers { length b.old.layers < 100 }
    requires buffers { length b.old.buffers < 100 }
{
    match reader.strip_prefix("first ") {
        Some(reader) => read_header(reader, given, span, b),
        None => read_on(reader, given, span, b),
    }
}

fn read_on(reader: &str, given: &Given, span: Span, b: &mut TreeBuilder) -> Result<After, NoMemory>
    requires inside { IsInside b.old.buffers span }
    requires layers { length b.old.layers < 100 }
    requires buffers { length b.old.buffers < 100 }
{
    let first = read_header(reader, given, span, b)?;
    let second = follow(first, given, b)?;
    let third = follow(second, given, b)?;
    let fourth = follow(third, given, b)?;
    follow(fourth, given, b)
}

fn read_header(
    reader: &str,
    given: &Given,
    span: Span,
    b: &mut TreeBuilder,
) -> Result<After, NoMemory>
    requires inside { IsInside b.old.buffers span }
    requires layers { length b.old.layers < 100 }
    requires buffers { length b.old.buffers < 100 }
    ensures inside { IfOk result (LeadsInside b.new.buffers) }
    ensures most { OnOk result (length b.new.layers ≤ length b.old.layers + 2) }
{
    match reader {
        "link" => read_link(given.number, !given.big_endian, given.cut, span, b),
        "arp" => read_arp(span, given.cut, given.mode, b),
        "ip" => read_ip4(span, given.cut, given.mode, b),
        "ipv6" => read_ip6(span, given.cut, given.mode, b),
        "extension" => read_numbered(given, span, b),
        "icmp" => read_icmp(span, given.cut, given.mode, b),
        "icmpv6" => read_icmp6(span, given.cut, given.mode, b),
        "nd" => read_nd(given, span, b),
        "igmp" => read_igmp(span, given.cut, given.mode, b),
        "udp" => read_udp(span, given.cut, given.mode, b),
        "tcp" => read_tcp(span, given.cut, given.mode, b),
        "ntp" => read_ntp(span, given.cut, b),
        _ => read_message(reader, given, span, b),
    }
}

fn read_nd(given: &Given, span: Span, b: &mut TreeBuilder) -> Result<After, NoMemory>
    requires inside { IsInside b.old.buffers span }
    requires layers { length b.old.layers < 100 }
    ensures inside { IfOk result (LeadsInside b.new.buffers) }
    ensures most { OnOk result (length b.new.layers ≤ length b.old.layers + 2) }
{
    match u8::try_from(given.number) {
        Ok(kind) => read_neigh(kind, span, given.cut, given.mode, b),
        Err(_) => Err(NoMemory),
    }
}

/// An extension header by its protocol number, in a packet from 2001:db8::1 to 2001:db8::2.
fn read_numbered(given: &Given, span: Span, b: &mut TreeBuilder) -> Result<After, NoMemory>
    requires inside { IsInside b.old.buffers span }
    requires room { length b.old.layers < 110 }
    ensures inside { IfOk result (LeadsInside b.new.buffers) }
    ensures most { OnOk result (length b.new.layers ≤ length b.old.layers + 2) }
{
    let packet = PacketHead {
        source: Address::Six(0x2001_0db8_0000_0000_0000_0000_0000_0001),
        target: Address::Six(0x2001_0db8_0000_0000_0000_0000_0000_0002),
        whole: !given.part,
    };
    let next = match given.number {
        0 => Next::HopOpts,
        43 => Next::Routing,
        44 => Next::FragHdr,
        60 => Next::DstOpts,
        _ => Next::Rest,
    };
    read_extended(next, &packet, span, given, b)
}

/// An extension header. No other is read.
fn read_extended(
    next: Next,
    packet: &PacketHead,
    span: Span,
    given: &Given,
    b: &mut TreeBuilder,
) -> Result<After, NoMemory>
    requires inside { IsInside b.old.buffers span }
    requires room { length b.old.layers < 110 }
    ensures inside { IfOk result (LeadsInside b.new.buffers) }
    ensures most { OnOk result (length b.new.layers ≤ length b.old.layers + 2) }
{
    match next {
        Next::HopOpts | Next::Routing | Next::DstOpts | Next::FragHdr => {
            read_extension(next, packet, span, given.cut, given.mode, b)
        }
        _ => Err(NoMemory),
    }
}

/// A message that nothing follows.
fn read_message(
    reader: &str,
    given: &Given,
    span: Span,
    b: &mut TreeBuilder,
) -> Result<After, NoMemory>
    requires inside { IsInside b.old.buffers span }
    requires layers { length b.old.layers < 100 }
    requires buffers { length b.old.buffers < 100 }
    ensures inside { IfOk result (LeadsInside b.new.buffers) }
    ensures most { OnOk result (length b.new.layers ≤ length b.old.layers + 2) }
{
    match reader {
        "dhcp" => read_dhcp(span, given.cut, b)?,
        "dns" => read_dns(span, given.stream, given.cut, b)?,
        "mdns" => read_mdns(span, given.cut, b)?,
        "http" => read_whole_http(span, b)?,
        _ => return Err(NoMemory),
    }
    Ok(After::End)
}

/// A message of HTTP that is all of the bytes.
fn read_whole_http(span: Span, b: &mut TreeBuilder) -> Result<(), NoMemory>
    requires inside { IsInside b.old.buffers span }
    requires layers { length b.old.layers < 100 }
    requires buffers { length b.old.buffers < 100 }
    ensures most { OnOk result (length b.new.layers ≤ length b.old.layers + 2) }
{
    match shape_of(b.alloc(), b.bytes(span))? {
        Some(shape) => read_http(span, &shape, b),
        None => Err(NoMemory),
    }
}

/// The shape of bytes that are one message.
fn shape_of(alloc: Global, bytes: &[u8]) -> Result<Option<Shape>, NoMemory>
    ensures { IfOk result (λ found. IfSome found (λ shape. IsShape shape bytes.now)) }
{
    match next_message(alloc, bytes, false)? {
        Framed::Unfinished => Ok(None),
        Framed::Message(shape) => Ok(if shape.end == bytes.len() {
            Some(shape)
        } else {
            None
        }),
    }
}

/// The header that follows, if it is one behind a link's header, or a packet or an extension header in a packet.
fn follow(after: After, given: &Given, b: &mut TreeBuilder) -> Result<After, NoMemory>
    requires inside { LeadsInside b.old.buffers after }
    requires room { length b.old.layers < 110 }
    ensures inside { IfOk result (LeadsInside b.new.buffers) }
    ensures most { OnOk result (length b.new.layers ≤ length b.old.layers + 2) }
{
    match after {
        After::Next(Next::Vlan, span) => read_vlan(span, given.cut, given.mode, b),
        After::Next(Next::Arp, span) => read_arp(span, given.cut, given.mode, b),
        After::Packet(Next::Ip4, span, _) => read_ip4(span, given.cut, given.mode, b),
        After::Packet(Next::Ip6, span, _) => read_ip6(span, given.cut, given.mode, b),
        After::Packet(next, span, packet) if is_extension(next) => {
            read_behind(next, packet, span, given, b)
        }
        _ => Ok(after),
    }
}

fn is_extension(next: Next) -> bool {
    matches!(
        next,
        Next::HopOpts | Next::Routing | Next::DstOpts | Next::FragHdr
    )
}

/// An extension header in a packet.
fn read_behind(
    next: Next,
    packet: PacketHead,
    span: Span,
    given: &Given,
    b: &mut TreeBuilder,
) -> Result<After, NoMemory>
    requires inside { IsInside b.old.buffers span }
    requires room { length b.old.layers < 110 }
    ensures inside { IfOk result (LeadsInside b.new.buffers) }
    ensures most { OnOk result (length b.new.layers ≤ length b.old.layers + 2) }
{
    let more = read_extended(next, &packet, span, given, b)?;
    Ok(in_packet(packet, more, b))
}

/// What follows an extension header, with the packet that it is in.
fn in_packet(packet: PacketHead, after: After, b: &TreeBuilder) -> After
    requires { LeadsInside b.now.buffers after }
    ensures { LeadsInside b.now.buffers result }
{
    match after {
        After::Next(next, span) => After::Packet(next, span, packet),
        _ => after,
    }
}
