// The frames of a generated capture, written behind what a buffer holds.
ghost use Rattle.std.specs.Prelude.{◌≡◌, ◌+◌, ◌<◌, ◌≤◌, ◌^◌, ◌++◌, OnOk};
ghost use Rattle.capture_write.specs.MadeFrames as frames;

use crate::numbers::{Number, push_numbers};
use bytes::BufMut;
use pk_base::NoMemory;

const ETHERTYPE_IPV4: u16 = 0x0800;

const ETHERTYPE_ARP: u16 = 0x0806;

const PROTOCOL_TCP: u8 = 6;

const PROTOCOL_UDP: u8 = 17;

const IP_HEADER: u16 = 20;

const UDP_HEADER: u16 = 8;

const TCP_HEADER: u16 = 20;

/// Five words of 32 bits, and the flags PSH and ACK.
const TCP_SIZE_AND_FLAGS: u16 = 0x5018;

const TCP_WINDOW: u16 = 0xffff;

const DNS_PORT: u16 = 53;

const HTTP_PORT: u16 = 80;

const FIRST_UDP_PORT: u16 = 40_000;

const FIRST_TCP_PORT: u16 = 41_000;

/// The target's and the source's address, with which each frame begins.
const HARDWARE: [u8; 12] = [2, 0, 0, 0, 0, 2, 2, 0, 0, 0, 0, 1];

/// An ARP request up to the sender's IPv4 address.
const ARP_FRONT: [u8; 14] = [0, 1, 0x08, 0x00, 6, 4, 0, 1, 2, 0, 0, 0, 0, 1];

const SERVER: [u8; 4] = [10, 0, 1, 1];

const QUESTION: [u8; 12] = [1, b'h', 4, b't', b'e', b's', b't', 0, 0, 1, 0, 1];

/// The answer to it up to the address, which holds for 60 seconds.
const ANSWER_FRONT: [u8; 12] = [0xc0, 0x0c, 0, 1, 0, 1, 0, 0, 0, 60, 0, 4];

const REQUEST: [u8; 27] = *b"GET / HTTP/1.1\r\nHost: h\r\n\r\n";

#[tactic(auto, unfolding(crate::specs::MadeFrames::ethernet_header))]
fn put_ethernet(out: &mut Vec<u8>, ethertype: u16) -> Result<(), NoMemory>
    ensures { OnOk result (out.new.items ≡ out.old.items ++ frames.ethernet_header ethertype) }
{
    out.put_slice(&HARDWARE)?;
    out.put_u16(ethertype)?;
    Ok(())
}

#[tactic(auto, unfolding(crate::specs::MadeFrames::ip_header))]
fn put_ip(
    out: &mut Vec<u8>,
    size: u16,
    protocol: u8,
    source: [u8; 4],
    target: [u8; 4],
) -> Result<(), NoMemory>
    requires { size < 2 ^ 15 }
    ensures { OnOk result (out.new.items
        ≡ out.old.items ++ frames.ip_header size protocol source target) }
{
    let [high, low] = (IP_HEADER + size).to_be_bytes();
    out.put_slice(&[0x45, 0, high, low, 0, 0, 0, 0, 64, protocol, 0, 0])?;
    out.put_slice(&source)?;
    out.put_slice(&target)?;
    Ok(())
}

#[tactic(auto, unfolding(crate::specs::MadeFrames::udp_header))]
fn put_udp(out: &mut Vec<u8>, size: u16, source: u16, target: u16) -> Result<(), NoMemory>
    requires { size < 2 ^ 15 }
    ensures { OnOk result (out.new.items ≡ out.old.items ++ frames.udp_header size source target) }
{
    let numbers = [
        Number::Two(source),
        Number::Two(target),
        Number::Two(UDP_HEADER + size),
        Number::Two(0),
    ];
    push_numbers(out, false, &numbers)
}

#[tactic(auto, unfolding(crate::specs::MadeFrames::tcp_header))]
fn put_tcp(out: &mut Vec<u8>, source: u16, target: u16, number: u32) -> Result<(), NoMemory>
    ensures { OnOk result (out.new.items
        ≡ out.old.items ++ frames.tcp_header source target number) }
{
    let numbers = [
        Number::Two(source),
        Number::Two(target),
        Number::Four(number),
        Number::Four(1),
        Number::Two(TCP_SIZE_AND_FLAGS),
        Number::Two(TCP_WINDOW),
        Number::Four(0),
    ];
    push_numbers(out, false, &numbers)
}

#[tactic(auto, unfolding(crate::specs::MadeFrames::dns_header))]
fn put_dns(out: &mut Vec<u8>, id: u16, flags: u16, answers: u16) -> Result<(), NoMemory>
    ensures { OnOk result (out.new.items ≡ out.old.items ++ frames.dns_header id flags answers) }
{
    let numbers = [
        Number::Two(id),
        Number::Two(flags),
        Number::Two(1),
        Number::Two(answers),
        Number::Four(0),
    ];
    push_numbers(out, false, &numbers)
}

#[tactic(auto, unfolding(crate::specs::MadeFrames::arp_frame, crate::specs::MadeFrames::arp_request))]
pub fn put_arp_frame(out: &mut Vec<u8>, client: u8) -> Result<(), NoMemory>
    ensures { OnOk result (out.new.items ≡ out.old.items ++ frames.arp_frame client) }
{
    put_ethernet(out, ETHERTYPE_ARP)?;
    out.put_slice(&ARP_FRONT)?;
    out.put_slice(&[10, 0, 0, client, 0, 0, 0, 0, 0, 0, 10, 0, 1, 1])?;
    Ok(())
}

/// What stands before so many bytes of a datagram.
fn put_datagram(
    out: &mut Vec<u8>,
    size: u16,
    source: [u8; 4],
    target: [u8; 4],
    from: u16,
    to: u16,
) -> Result<(), NoMemory>
    requires { size < 2 ^ 14 }
    ensures { OnOk result (out.new.items ≡ out.old.items
        ++ (frames.ethernet_header 0x0800 ++ frames.ip_header (8 + size) 17 source target
        ++ frames.udp_header size from to)) }
{
    put_ethernet(out, ETHERTYPE_IPV4)?;
    put_ip(out, UDP_HEADER + size, PROTOCOL_UDP, source, target)?;
    put_udp(out, size, from, to)
}

#[tactic(auto, unfolding(crate::specs::MadeFrames::query_frame, crate::specs::MadeFrames::question))]
pub fn put_query_frame(out: &mut Vec<u8>, client: u8) -> Result<(), NoMemory>
    ensures { OnOk result (out.new.items ≡ out.old.items ++ frames.query_frame client) }
{
    let number = u16::from(client);
    put_datagram(
        out,
        24,
        [10, 0, 0, client],
        SERVER,
        FIRST_UDP_PORT + number,
        DNS_PORT,
    )?;
    put_dns(out, number, 0x0100, 0)?;
    out.put_slice(&QUESTION)?;
    Ok(())
}

#[tactic(auto, unfolding(crate::specs::MadeFrames::answer_frame, crate::specs::MadeFrames::question))]
pub fn put_answer_frame(out: &mut Vec<u8>, client: u8) -> Result<(), NoMemory>
    ensures { OnOk result (out.new.items ≡ out.old.items ++ frames.answer_frame client) }
{
    let number = u16::from(client);
    put_datagram(
        out,
        40,
        SERVER,
        [10, 0, 0, client],
        DNS_PORT,
        FIRST_UDP_PORT + number,
    )?;
    put_dns(out, number, 0x8180, 1)?;
    out.put_slice(&QUESTION)?;
    put_answer(out, client)
}

#[tactic(auto, unfolding(crate::specs::MadeFrames::answer))]
fn put_answer(out: &mut Vec<u8>, client: u8) -> Result<(), NoMemory>
    ensures { OnOk result (out.new.items ≡ out.old.items ++ frames.answer client) }
{
    out.put_slice(&ANSWER_FRONT)?;
    out.put_slice(&[10, 0, 2, client])?;
    Ok(())
}

/// The next bytes of a client's requests, of which so many were sent before.
#[tactic(auto, unfolding(crate::specs::MadeFrames::request_frame))]
pub fn put_request_frame(
    out: &mut Vec<u8>,
    client: u8,
    before: u32,
    size: u16,
) -> Result<(), NoMemory>
    requires before { before < 2 ^ 31 }
    requires size { size ≤ 16 }
    ensures { OnOk result (out.new.items
        ≡ out.old.items ++ frames.request_frame client before size) }
{
    put_ethernet(out, ETHERTYPE_IPV4)?;
    put_ip(
        out,
        TCP_HEADER + size,
        PROTOCOL_TCP,
        [10, 0, 0, client],
        SERVER,
    )?;
    put_tcp(
        out,
        FIRST_TCP_PORT + u16::from(client),
        HTTP_PORT,
        1 + before,
    )?;
    put_requests(out, before, size)
}

#[tactic(auto, unfolding(crate::specs::MadeFrames::requests, crate::specs::MadeFrames::request))]
fn put_requests(out: &mut Vec<u8>, before: u32, size: u16) -> Result<(), NoMemory>
    requires before { before < 2 ^ 31 }
    requires size { size ≤ 16 }
    ensures { OnOk result (out.new.items ≡ out.old.items ++ frames.requests before size) }
{
    'places: for place in 0..size {
        let from = (before + u32::from(place)) % REQUEST.len() as u32;
        out.put_u8(REQUEST[from as usize])?;
    }
    Ok(())
}
