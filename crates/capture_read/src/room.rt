// The block of memory that reads go to.
ghost use Rattle.std.specs.Prelude.{◌≡◌, ◌<◌, ◌≤◌, ◌^◌, [], length, take, IfOk, OnOk};

use crate::held::Held;
use bytes::BytesMut;
use pk_base::{NoMemory, Octets};
use std::alloc::Global;
use std::mem;

/// How many bytes are asked for at once.
const READ_SIZE: usize = 65_536;

/// The longest block that is used again.
const KEPT_SIZE: usize = 131_072;

/// [`READ_SIZE`], as a number that contracts don't compute with.
pub fn read_size() -> usize
    ensures some { 0 < result }
    ensures most { result ≤ 2 ^ 16 }
{
    READ_SIZE
}

/// Makes room behind so many bytes, where there is none.
pub fn widen(room: &mut BytesMut, at: usize) -> Result<(), NoMemory>
    requires inside { at ≤ length room.old.items }
    requires small { at ≤ 2 ^ 28 }
    ensures some { OnOk result (at < length room.new.items) }
    ensures front { OnOk result (take at room.new.items ≡ take at room.old.items) }
{
    if at < room.len() {
        return Ok(());
    }
    room.resize(at + at.max(read_size()), 0)?;
    Ok(())
}

/// Puts bytes at the front of others.
fn overwrite(room: &mut [u8], bytes: &[u8])
    requires { length bytes.now ≤ length room.old }
    ensures inside { length room.new ≡ length room.old }
    ensures front { take (length bytes.now) room.new ≡ bytes.now }
{
    room[..bytes.len()].copy_from_slice(bytes);
}

/// Puts bytes at the front of a room.
fn put_front(room: &mut BytesMut, bytes: &[u8]) -> Result<(), NoMemory>
    ensures inside { OnOk result (length bytes.now ≤ length room.new.items) }
    ensures front { OnOk result (take (length bytes.now) room.new.items ≡ bytes.now) }
{
    if room.len() < bytes.len() {
        room.clear();
        room.extend_from_slice(bytes)?;
        return Ok(());
    }
    overwrite(room.as_mut_slice(), bytes);
    Ok(())
}

/// Lets go of the bytes held, whose block becomes the room where there is none. Tells whether nothing else shares it.
fn take_block(held: &mut Held, room: &mut BytesMut) -> bool
    ensures { held.new ≡ [] }
{
    let new = held.is_new();
    match held.release() {
        Some(block) => {
            if room.is_empty() && block.len() <= KEPT_SIZE {
                *room = block;
            }
            true
        }
        None => new,
    }
}

/// Moves the bytes held to the front of the room, which is their own block where nothing else shares it, and tells whether
/// that is so.
pub fn move_to_room(alloc: Global, held: &mut Held, room: &mut BytesMut) -> Result<bool, NoMemory>
    ensures fewer { length held.new ≤ length held.old }
    ensures inside { OnOk result (length held.old ≤ length room.new.items) }
    ensures front { OnOk result (take (length held.old) room.new.items ≡ held.old) }
{
    let bytes = held.bytes().to_vec(alloc)?;
    let alone = take_block(held, room);
    put_front(room, bytes.as_slice())?;
    Ok(alone)
}

/// The first bytes of a room: the room's own block, or a copy of them, and then the room stays.
pub fn block_of(
    alloc: Global,
    room: &mut BytesMut,
    len: usize,
    alone: bool,
) -> Result<Octets, NoMemory>
    requires { len ≤ length room.old.items }
    ensures { IfOk result (λ octets.
        (len ≤ length octets) × (take len octets ≡ take len room.old.items)) }
{
    if alone {
        Octets::from_block(mem::replace(room, BytesMut::new(alloc)))
    } else {
        Octets::copy(alloc, &room.as_slice()[..len])
    }
}
