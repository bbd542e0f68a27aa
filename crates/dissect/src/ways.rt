ghost use Rattle.std.specs.Prelude.{◌≡◌, ◌==◌, ◌+◌, ◌-◌, ◌<◌, ◌≤◌, ◌^◌, ◌∷◌, ◌++◌, [], ℕ, List, false, true, length, take, IfOk, IfSome, OnOk};
ghost use Rattle.std.specs.List.{AllByRecursion as Each};
ghost use Rattle.pk_fields.specs.Ids.{ETH, VLAN, IP, IPV6, TCP, UDP};
ghost use Rattle.pk_tree.specs.Buffers.{IsInside};
ghost use Rattle.dis_link.specs.EtherTypes.{is_length};
ghost use Rattle.dis_link.specs.Ethernet.{eth_layout, eth_type};
ghost use Rattle.dis_link.specs.Vlan.{vlan_layout, vlan_type};
ghost use Rattle.dis_ip.specs.Ip4.{ip4_conditions, ip4_header, ip4_layout};
ghost use Rattle.dis_ip.specs.Ip6.{ip6_layout, ip6_version};
ghost use Rattle.dis_ports.specs.Tcp.{header_len, tcp_rows};
ghost use Rattle.dis_ports.specs.Udp.{is_udp_length, udp_layout, udp_length};
ghost use Rattle.dissect.specs.Tables.{AreTables, IsTabled};
ghost use Rattle.dissect.specs.Ways.{Carries, IsBegun, IsHeaderOf, IsPacketIn, IsReadBy, Reaches, headers_of, packet_at};

use crate::plain::own;
use crate::tables::Tables;
use crate::walk::no_packet;
use app_layers::{frame_span, is_cut};
use capture_read::Frame;
use dis_ip::{behind_ip4, behind_ip6, head_of_ip4, head_of_ip6};
use dis_link::{behind_ethernet, behind_vlan};
use dis_ports::{behind_tcp, behind_udp};
use pk_base::{Next, NoMemory, PacketHead, Span};
use pk_fields::ids;
use pk_source::Header;

/// LINKTYPE_ETHERNET of tcpdump.org's registry.
const ETHERNET: u16 = 1;

/// Where the packet stands that the later headers are in, so that its header is read again only where it is needed.
#[derive(Clone, Copy)]
pub(crate) enum PacketAt {
    Nowhere,
    Four(Span),
    Six(Span),
}

/// A header of a plain frame that is to be read.
#[derive(Clone, Copy)]
pub(crate) struct Spot {
    pub which: Next,
    pub span: Span,
    pub packet: PacketAt,
}

/// Where the last header of a plain frame stands, and what it carries.
#[derive(Clone, Copy)]
pub(crate) struct Last {
    pub packet: PacketAt,
    pub header: Span,
    pub payload: Span,
}

/// What the last header of a plain frame carries.
#[derive(Clone, Copy)]
pub(crate) enum Carried {
    Segment(Last),
    Datagram(Last),
}

/// What the header says of a packet.
pub(crate) fn packet_at(frame: &Frame, packet: PacketAt) -> PacketHead
    requires bytes { length frame.now.bytes < 2 ^ 32 }
    requires packet { IsPacketIn frame.now packet }
    ensures { result ≡ packet_at frame.now packet }
{
    match packet {
        PacketAt::Nowhere => no_packet(),
        PacketAt::Four(span) => head_of_ip4(span, is_cut(frame), own(frame, span)),
        PacketAt::Six(span) => head_of_ip6(span, is_cut(frame), own(frame, span)),
    }
}

/// Reads the headers of a frame of Ethernet, at most two tags, IPv4 in one piece or IPv6, and TCP or UDP, where each is whole:
/// they stand behind the frame's own header then. Of another frame some may stand there.
pub(crate) fn read_way(
    tables: &Tables,
    frame: &Frame,
    headers: &mut Vec<Header>,
) -> Result<Option<Carried>, NoMemory>
    requires bytes { length frame.now.bytes < 2 ^ 32 }
    requires tables { AreTables tables.now }
    requires tabled { Each (IsTabled tables.now) headers.old.items }
    requires begun { IsBegun frame.now headers.old.items }
    ensures carried { IfOk result (λ found. IfSome found (Carries frame.now headers.new.items)) }
    ensures start { OnOk result (take 1 headers.new.items ≡ headers.old.items) }
    ensures tabled { OnOk result (Each (IsTabled tables.now) headers.new.items) }
{
    match push_ethernet(tables, frame, headers)? {
        Some(spot) => read_tags(tables, frame, spot, headers),
        None => Ok(None),
    }
}

/// Reads the header of Ethernet, where it names a type.
fn push_ethernet(
    tables: &Tables,
    frame: &Frame,
    headers: &mut Vec<Header>,
) -> Result<Option<Spot>, NoMemory>
    requires bytes { length frame.now.bytes < 2 ^ 32 }
    requires tables { AreTables tables.now }
    requires tabled { Each (IsTabled tables.now) headers.old.items }
    requires begun { IsBegun frame.now headers.old.items }
    ensures at { IfOk result (λ found. IfSome found (Reaches frame.now VLAN 2 headers.new.items)) }
    ensures tags { IfOk result (λ found. IfSome found (λ _.
        headers_of VLAN headers.new.items ≡ 0)) }
    ensures start { OnOk result (take 1 headers.new.items ≡ headers.old.items) }
    ensures tabled { OnOk result (Each (IsTabled tables.now) headers.new.items) }
{
    if frame.link != ETHERNET {
        return Ok(None);
    }
    let span = frame_span(frame);
    match behind_ethernet(span, own(frame, span)) {
        Some((which, inner)) => {
            push_all(headers, &[ethernet_header(tables, span)])?;
            Ok(Some(Spot {
                which,
                span: inner,
                packet: PacketAt::Nowhere,
            }))
        }
        None => Ok(None),
    }
}

/// Reads the tags that follow, at most two, and then the headers of a packet.
fn read_tags(
    tables: &Tables,
    frame: &Frame,
    spot: Spot,
    headers: &mut Vec<Header>,
) -> Result<Option<Carried>, NoMemory>
    requires bytes { length frame.now.bytes < 2 ^ 32 }
    requires tables { AreTables tables.now }
    requires tabled { Each (IsTabled tables.now) headers.old.items }
    requires at { Reaches frame.now VLAN 2 headers.old.items spot }
    requires tags { headers_of VLAN headers.old.items ≡ 0 }
    ensures carried { IfOk result (λ found. IfSome found (Carries frame.now headers.new.items)) }
    ensures start { OnOk result (take 1 headers.new.items ≡ take 1 headers.old.items) }
    ensures tabled { OnOk result (Each (IsTabled tables.now) headers.new.items) }
{
    match push_tag(tables, frame, spot, 1, headers)? {
        Some(spot) => read_second_tag(tables, frame, spot, headers),
        None => Ok(None),
    }
}

fn read_second_tag(
    tables: &Tables,
    frame: &Frame,
    spot: Spot,
    headers: &mut Vec<Header>,
) -> Result<Option<Carried>, NoMemory>
    requires bytes { length frame.now.bytes < 2 ^ 32 }
    requires tables { AreTables tables.now }
    requires tabled { Each (IsTabled tables.now) headers.old.items }
    requires at { Reaches frame.now VLAN 3 headers.old.items spot }
    requires nth { spot.which ≡ Next.Vlan → headers_of VLAN headers.old.items ≡ 1 }
    ensures carried { IfOk result (λ found. IfSome found (Carries frame.now headers.new.items)) }
    ensures start { OnOk result (take 1 headers.new.items ≡ take 1 headers.old.items) }
    ensures tabled { OnOk result (Each (IsTabled tables.now) headers.new.items) }
{
    match push_tag(tables, frame, spot, 2, headers)? {
        Some(spot) => read_packet(tables, frame, spot, headers),
        None => Ok(None),
    }
}

/// Reads a tag, where one follows: the header behind it.
fn push_tag(
    tables: &Tables,
    frame: &Frame,
    spot: Spot,
    nth: u32,
    headers: &mut Vec<Header>,
) -> Result<Option<Spot>, NoMemory>
    requires bytes { length frame.now.bytes < 2 ^ 32 }
    requires tables { AreTables tables.now }
    requires tabled { Each (IsTabled tables.now) headers.old.items }
    requires few { nth ≤ 2 }
    requires at { Reaches frame.now VLAN (nth + 1) headers.old.items spot }
    requires nth { spot.which ≡ Next.Vlan → headers_of VLAN headers.old.items + 1 ≡ nth }
    ensures at { IfOk result (λ found. IfSome found (Reaches frame.now VLAN (nth + 2) headers.new.items)) }
    ensures nth { IfOk result (λ found. IfSome found (λ next.
        next.which ≡ Next.Vlan → headers_of VLAN headers.new.items ≡ nth)) }
    ensures start { OnOk result (take 1 headers.new.items ≡ take 1 headers.old.items) }
    ensures tabled { OnOk result (Each (IsTabled tables.now) headers.new.items) }
{
    match spot.which {
        Next::Vlan => push_vlan(tables, frame, spot, nth, headers),
        _ => Ok(Some(spot)),
    }
}

fn push_vlan(
    tables: &Tables,
    frame: &Frame,
    spot: Spot,
    nth: u32,
    headers: &mut Vec<Header>,
) -> Result<Option<Spot>, NoMemory>
    requires bytes { length frame.now.bytes < 2 ^ 32 }
    requires tables { AreTables tables.now }
    requires tabled { Each (IsTabled tables.now) headers.old.items }
    requires few { nth ≤ 2 }
    requires which { spot.which ≡ Next.Vlan }
    requires at { Reaches frame.now VLAN (nth + 1) headers.old.items spot }
    requires nth { headers_of VLAN headers.old.items + 1 ≡ nth }
    ensures at { IfOk result (λ found. IfSome found (Reaches frame.now VLAN (nth + 2) headers.new.items)) }
    ensures nth { IfOk result (λ found. IfSome found (λ _.
        headers_of VLAN headers.new.items ≡ nth)) }
    ensures start { OnOk result (take 1 headers.new.items ≡ take 1 headers.old.items) }
    ensures tabled { OnOk result (Each (IsTabled tables.now) headers.new.items) }
{
    match behind_vlan(spot.span, own(frame, spot.span)) {
        Some((which, inner)) => {
            push_all(headers, &[vlan_header(tables, nth, spot.span)])?;
            Ok(Some(Spot {
                which,
                span: inner,
                packet: spot.packet,
            }))
        }
        None => Ok(None),
    }
}

/// Reads the headers of a packet.
fn read_packet(
    tables: &Tables,
    frame: &Frame,
    spot: Spot,
    headers: &mut Vec<Header>,
) -> Result<Option<Carried>, NoMemory>
    requires bytes { length frame.now.bytes < 2 ^ 32 }
    requires tables { AreTables tables.now }
    requires tabled { Each (IsTabled tables.now) headers.old.items }
    requires at { Reaches frame.now VLAN 4 headers.old.items spot }
    ensures carried { IfOk result (λ found. IfSome found (Carries frame.now headers.new.items)) }
    ensures start { OnOk result (take 1 headers.new.items ≡ take 1 headers.old.items) }
    ensures tabled { OnOk result (Each (IsTabled tables.now) headers.new.items) }
{
    match push_packet(tables, frame, spot, headers)? {
        Some(spot) => read_ports(tables, frame, spot, headers),
        None => Ok(None),
    }
}

/// Reads the header of IPv4 or IPv6.
fn push_packet(
    tables: &Tables,
    frame: &Frame,
    spot: Spot,
    headers: &mut Vec<Header>,
) -> Result<Option<Spot>, NoMemory>
    requires bytes { length frame.now.bytes < 2 ^ 32 }
    requires tables { AreTables tables.now }
    requires tabled { Each (IsTabled tables.now) headers.old.items }
    requires at { Reaches frame.now VLAN 4 headers.old.items spot }
    ensures at { IfOk result (λ found. IfSome found (Reaches frame.now IPV6 5 headers.new.items)) }
    ensures start { OnOk result (take 1 headers.new.items ≡ take 1 headers.old.items) }
    ensures tabled { OnOk result (Each (IsTabled tables.now) headers.new.items) }
{
    match spot.which {
        Next::Ip4 => push_ip4(tables, frame, spot, headers),
        Next::Ip6 => push_ip6(tables, frame, spot, headers),
        _ => Ok(None),
    }
}

fn push_ip4(
    tables: &Tables,
    frame: &Frame,
    spot: Spot,
    headers: &mut Vec<Header>,
) -> Result<Option<Spot>, NoMemory>
    requires bytes { length frame.now.bytes < 2 ^ 32 }
    requires tables { AreTables tables.now }
    requires tabled { Each (IsTabled tables.now) headers.old.items }
    requires which { spot.which ≡ Next.Ip4 }
    requires at { Reaches frame.now VLAN 4 headers.old.items spot }
    ensures at { IfOk result (λ found. IfSome found (Reaches frame.now IPV6 5 headers.new.items)) }
    ensures start { OnOk result (take 1 headers.new.items ≡ take 1 headers.old.items) }
    ensures tabled { OnOk result (Each (IsTabled tables.now) headers.new.items) }
{
    match behind_ip4(spot.span, own(frame, spot.span)) {
        Some(ip) => {
            push_all(headers, &[ip4_header(tables, ip.layer, ip.header)])?;
            Ok(Some(Spot {
                which: ip.next,
                span: ip.inner,
                packet: PacketAt::Four(spot.span),
            }))
        }
        None => Ok(None),
    }
}

fn push_ip6(
    tables: &Tables,
    frame: &Frame,
    spot: Spot,
    headers: &mut Vec<Header>,
) -> Result<Option<Spot>, NoMemory>
    requires bytes { length frame.now.bytes < 2 ^ 32 }
    requires tables { AreTables tables.now }
    requires tabled { Each (IsTabled tables.now) headers.old.items }
    requires which { spot.which ≡ Next.Ip6 }
    requires at { Reaches frame.now VLAN 4 headers.old.items spot }
    ensures at { IfOk result (λ found. IfSome found (Reaches frame.now IPV6 5 headers.new.items)) }
    ensures start { OnOk result (take 1 headers.new.items ≡ take 1 headers.old.items) }
    ensures tabled { OnOk result (Each (IsTabled tables.now) headers.new.items) }
{
    match behind_ip6(spot.span, own(frame, spot.span)) {
        Some(ip) => {
            push_all(headers, &[ip6_header(tables, ip.layer)])?;
            Ok(Some(Spot {
                which: ip.next,
                span: ip.inner,
                packet: PacketAt::Six(spot.span),
            }))
        }
        None => Ok(None),
    }
}

/// Reads the header of TCP or UDP.
fn read_ports(
    tables: &Tables,
    frame: &Frame,
    spot: Spot,
    headers: &mut Vec<Header>,
) -> Result<Option<Carried>, NoMemory>
    requires bytes { length frame.now.bytes < 2 ^ 32 }
    requires tables { AreTables tables.now }
    requires tabled { Each (IsTabled tables.now) headers.old.items }
    requires at { Reaches frame.now IPV6 5 headers.old.items spot }
    ensures carried { IfOk result (λ found. IfSome found (Carries frame.now headers.new.items)) }
    ensures start { OnOk result (take 1 headers.new.items ≡ take 1 headers.old.items) }
    ensures tabled { OnOk result (Each (IsTabled tables.now) headers.new.items) }
{
    match spot.which {
        Next::Tcp => push_tcp(tables, frame, spot, headers),
        Next::Udp => push_udp(tables, frame, spot, headers),
        _ => Ok(None),
    }
}

fn push_tcp(
    tables: &Tables,
    frame: &Frame,
    spot: Spot,
    headers: &mut Vec<Header>,
) -> Result<Option<Carried>, NoMemory>
    requires bytes { length frame.now.bytes < 2 ^ 32 }
    requires tables { AreTables tables.now }
    requires tabled { Each (IsTabled tables.now) headers.old.items }
    requires which { spot.which ≡ Next.Tcp }
    requires at { Reaches frame.now IPV6 5 headers.old.items spot }
    ensures carried { IfOk result (λ found. IfSome found (Carries frame.now headers.new.items)) }
    ensures start { OnOk result (take 1 headers.new.items ≡ take 1 headers.old.items) }
    ensures tabled { OnOk result (Each (IsTabled tables.now) headers.new.items) }
{
    match behind_tcp(spot.span, own(frame, spot.span)) {
        Some(tcp) => {
            push_all(headers, &[tcp_header(tables, spot.span, tcp.header)])?;
            Ok(Some(Carried::Segment(Last {
                packet: spot.packet,
                header: spot.span,
                payload: tcp.payload,
            })))
        }
        None => Ok(None),
    }
}

fn push_udp(
    tables: &Tables,
    frame: &Frame,
    spot: Spot,
    headers: &mut Vec<Header>,
) -> Result<Option<Carried>, NoMemory>
    requires bytes { length frame.now.bytes < 2 ^ 32 }
    requires tables { AreTables tables.now }
    requires tabled { Each (IsTabled tables.now) headers.old.items }
    requires which { spot.which ≡ Next.Udp }
    requires at { Reaches frame.now IPV6 5 headers.old.items spot }
    ensures carried { IfOk result (λ found. IfSome found (Carries frame.now headers.new.items)) }
    ensures start { OnOk result (take 1 headers.new.items ≡ take 1 headers.old.items) }
    ensures tabled { OnOk result (Each (IsTabled tables.now) headers.new.items) }
{
    match behind_udp(spot.span, own(frame, spot.span)) {
        Some(udp) => {
            push_all(headers, &[udp_header(tables, udp.layer)])?;
            Ok(Some(Carried::Datagram(Last {
                packet: spot.packet,
                header: spot.span,
                payload: udp.payload,
            })))
        }
        None => Ok(None),
    }
}

/// Puts headers behind those that stand.
#[inline(always)]
pub(crate) fn push_all(headers: &mut Vec<Header>, more: &[Header]) -> Result<(), NoMemory>
    ensures { OnOk result (headers.new.items ≡ headers.old.items ++ more.now) }
{
    headers.extend_from_slice(more)?;
    Ok(())
}

fn ethernet_header(tables: &Tables, span: Span) -> Header
    requires tables { AreTables tables.now }
    requires long { 14 ≤ span.len }
    ensures tabled { IsTabled tables.now result }
    ensures nth { result.nth ≡ 1 }
    ensures stands { (bytes : List ℕ) → is_length (eth_type bytes) ≡ false
        → IsHeaderOf ETH span [] (eth_layout bytes) result }
    ensures whole { (buffers : List (List ℕ)) → IsInside buffers span
        → IsReadBy buffers result }
{
    Header {
        proto: ids::ETH,
        nth: 1,
        span,
        slots: tables.eth,
        size: 0,
    }
}

fn vlan_header(tables: &Tables, nth: u32, span: Span) -> Header
    requires tables { AreTables tables.now }
    requires long { 4 ≤ span.len }
    ensures tabled { IsTabled tables.now result }
    ensures nth { result.nth ≡ nth }
    ensures stands { (bytes : List ℕ) → is_length (vlan_type bytes) ≡ false
        → IsHeaderOf VLAN span [] (vlan_layout bytes) result }
    ensures whole { (buffers : List (List ℕ)) → IsInside buffers span
        → IsReadBy buffers result }
{
    Header {
        proto: ids::VLAN,
        nth,
        span,
        slots: tables.vlan,
        size: 0,
    }
}

fn ip4_header(tables: &Tables, layer: Span, header: u32) -> Header
    requires tables { AreTables tables.now }
    requires least { 20 ≤ header }
    requires whole { header ≤ layer.len }
    ensures tabled { IsTabled tables.now result }
    ensures nth { result.nth ≡ 1 }
    ensures stands { (bytes : List ℕ) → header ≡ ip4_header bytes
        → ip4_conditions bytes ≡ true ∷ true ∷ true ∷ []
        → IsHeaderOf IP layer (true ∷ true ∷ true ∷ []) (ip4_layout bytes) result }
    ensures whole { (buffers : List (List ℕ)) → IsInside buffers layer
        → IsReadBy buffers result }
{
    Header {
        proto: ids::IP,
        nth: 1,
        span: layer,
        slots: tables.ip,
        size: header - 20,
    }
}

fn ip6_header(tables: &Tables, layer: Span) -> Header
    requires tables { AreTables tables.now }
    requires long { 40 ≤ layer.len }
    ensures tabled { IsTabled tables.now result }
    ensures nth { result.nth ≡ 1 }
    ensures stands { (bytes : List ℕ) → (ip6_version bytes == 6) ≡ true
        → IsHeaderOf IPV6 layer (true ∷ []) (ip6_layout bytes) result }
    ensures whole { (buffers : List (List ℕ)) → IsInside buffers layer
        → IsReadBy buffers result }
{
    Header {
        proto: ids::IPV6,
        nth: 1,
        span: layer,
        slots: tables.ip6,
        size: 0,
    }
}

fn tcp_header(tables: &Tables, span: Span, header: u32) -> Header
    requires tables { AreTables tables.now }
    requires least { 20 ≤ header }
    requires whole { header ≤ span.len }
    ensures tabled { IsTabled tables.now result }
    ensures nth { result.nth ≡ 1 }
    ensures stands { (bytes : List ℕ) → header ≡ header_len bytes
        → IsHeaderOf TCP span (true ∷ []) (tcp_rows bytes) result }
    ensures whole { (buffers : List (List ℕ)) → IsInside buffers span
        → IsReadBy buffers result }
{
    Header {
        proto: ids::TCP,
        nth: 1,
        span,
        slots: tables.tcp,
        size: header - 20,
    }
}

fn udp_header(tables: &Tables, layer: Span) -> Header
    requires tables { AreTables tables.now }
    requires long { 8 ≤ layer.len }
    ensures tabled { IsTabled tables.now result }
    ensures nth { result.nth ≡ 1 }
    ensures stands { (bytes : List ℕ) → is_udp_length (udp_length bytes) ≡ true
        → IsHeaderOf UDP layer (true ∷ []) (udp_layout bytes) result }
    ensures whole { (buffers : List (List ℕ)) → IsInside buffers layer
        → IsReadBy buffers result }
{
    Header {
        proto: ids::UDP,
        nth: 1,
        span: layer,
        slots: tables.udp,
        size: 0,
    }
}
