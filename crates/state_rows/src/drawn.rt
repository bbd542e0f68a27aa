//! Segments in orders that a generator draws: forty of seven bytes behind a SYN, each twice. A row is the number of the SYN, the
//! generator's seed and stream, and how many orders are drawn: `syn 4294967200 seed 7 stream 54 orders 20`. Each order gives the bytes in order.
use crate::sent::{Head, Sent, ends_of, give_up};
use crate::words::first_of;
use pk_base::{NoMemory, Octets};
use rand_core::utils::NextWord;
use rand_pcg::Lcg64Xsh32;
use std::alloc::Global;

const SEGMENTS: u32 = 40;

/// The byte at a place of all segments' bytes.
fn byte_at(place: usize) -> u8 {
    match place % 7 {
        6 => (place / 7 % 256) as u8,
        digit => b'0'.wrapping_add(digit as u8),
    }
}

/// The seven bytes of a segment.
fn bytes_of(place: u32) -> [u8; 7] {
    [b'0', b'1', b'2', b'3', b'4', b'5', (place % 256) as u8]
}

fn is_front(front: &[u8]) -> bool {
    for (place, byte) in front.iter().enumerate() {
        if *byte != byte_at(place) {
            return false;
        }
    }
    front.len() == 280
}

/// The places of all segments, each twice.
fn twice(alloc: Global) -> Result<Vec<u32>, NoMemory> {
    let mut places = Vec::new(alloc);
    for place in 0..2 * SEGMENTS {
        places.push(place / 2)?;
    }
    Ok(places)
}

fn draw(left: &mut Vec<u32>, generator: &mut Lcg64Xsh32) -> Option<u32> {
    if left.is_empty() {
        return None;
    }
    let drawn = generator.next_word() as usize % left.len();
    Some(left.swap_remove(drawn))
}

fn send(sent: &mut Sent, alloc: Global, seq: u32, syn: bool, bytes: &[u8]) -> Result<(), NoMemory> {
    let ends = ends_of("client").ok_or(NoMemory)?;
    let ack = None;
    let segment = Head {
        ends,
        seq,
        ack,
        syn,
    }
    .segment(Octets::copy(alloc, bytes)?);
    sent.send(segment)?;
    Ok(())
}

/// Sends the segments that are left, in an order that the generator draws.
fn send_left(
    sent: &mut Sent,
    alloc: Global,
    syn: u32,
    left: &mut Vec<u32>,
    generator: &mut Lcg64Xsh32,
) -> Result<(), NoMemory> {
    for _ in 0..2 * SEGMENTS {
        let Some(place) = draw(left, generator) else {
            return Ok(());
        };
        let seq = syn.wrapping_add(1).wrapping_add(place.wrapping_mul(7));
        send(sent, alloc, seq, false, &bytes_of(place))?;
    }
    Ok(())
}

/// Whether a SYN and all segments give their bytes as a front.
fn give_front(
    sent: &mut Sent,
    alloc: Global,
    syn: u32,
    generator: &mut Lcg64Xsh32,
) -> Result<bool, NoMemory> {
    let mut left = twice(alloc)?;
    send(sent, alloc, syn, true, b"")?;
    send_left(sent, alloc, syn, &mut left, generator)?;
    let streams = sent.streams.streams();
    Ok(streams.count() > 0 && is_front(streams.front(0, 0)))
}

fn order_agrees(alloc: Global, syn: u32, generator: &mut Lcg64Xsh32) -> Result<bool, NoMemory> {
    let mut sent = Sent::new(alloc, None, false);
    let agrees = give_front(&mut sent, alloc, syn, generator);
    give_up(sent);
    agrees
}

fn orders_agree(
    alloc: Global,
    syn: u32,
    mut generator: Lcg64Xsh32,
    orders: u64,
) -> Result<bool, NoMemory> {
    for _ in 0..orders {
        if !order_agrees(alloc, syn, &mut generator)? {
            return Ok(false);
        }
    }
    Ok(true)
}

/// The number behind a word, and what follows it.
fn number_behind<'a>(words: &'a str, name: &str) -> Option<(u64, &'a str)> {
    let (word, rest) = first_of(words);
    let (number, rest) = first_of(rest);
    if word != name {
        return None;
    }
    Some((number.parse().ok()?, rest))
}

/// The number of the SYN, the generator, and the count of orders.
fn drawn_by(row: &str) -> Option<(u32, Lcg64Xsh32, u64)> {
    let (syn, rest) = number_behind(row, "syn")?;
    let (seed, rest) = number_behind(rest, "seed")?;
    let (stream, rest) = number_behind(rest, "stream")?;
    let (orders, _) = number_behind(rest, "orders")?;
    Some((
        u32::try_from(syn).ok()?,
        Lcg64Xsh32::new(seed, stream),
        orders,
    ))
}

pub(crate) fn hold(alloc: Global, row: &str) -> Result<bool, NoMemory> {
    match drawn_by(row) {
        Some((syn, generator, orders)) => orders_agree(alloc, syn, generator, orders),
        None => Ok(false),
    }
}
