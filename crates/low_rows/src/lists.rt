//! Lists, bytes and buffers that every crate shares: what was put in is handed out.
use pk_base::{Lost, LostList, NoMemory, Numbers, Octets, Span, Stretch, Stretches};
use pk_tree::Buffers;
use std::alloc::Global;

fn keeps_lost(alloc: Global) -> Result<bool, NoMemory> {
    let lost = [Lost { from: 5, to: 9 }, Lost { from: 20, to: 21 }];
    let list = LostList::from_vec(lost.to_vec(alloc)?);
    Ok(list.slice() == lost.as_slice())
}

fn keeps_numbers(alloc: Global) -> Result<bool, NoMemory> {
    let numbers = Numbers::from_vec([3, 1, 2].to_vec(alloc)?);
    Ok(numbers.slice() == [3, 1, 2].as_slice())
}

/// Whether the bytes from 2 to 5 are cut, and their copy is the same.
fn cuts(whole: &Octets) -> Result<bool, NoMemory> {
    if whole.bytes().len() < 5 {
        return Ok(false);
    }
    are_kept(&whole.part(2, 5)?)
}

fn are_kept(part: &Octets) -> Result<bool, NoMemory> {
    Ok(part.bytes() == b"ptu".as_slice() && part.clone()?.bytes() == b"ptu".as_slice())
}

fn takes(alloc: Global) -> Result<bool, NoMemory> {
    let bytes = [1, 2].to_vec(alloc)?;
    Ok(Octets::from_vec(bytes)?.bytes() == [1, 2].as_slice())
}

fn are_cut(alloc: Global) -> Result<bool, NoMemory> {
    let whole = Octets::copy(alloc, b"captured")?;
    Ok(whole.bytes() == b"captured".as_slice() && cuts(&whole)?)
}

fn are_shared(alloc: Global) -> Result<bool, NoMemory> {
    Ok(Octets::new().bytes().is_empty() && are_cut(alloc)? && takes(alloc)?)
}

fn push_stretch(
    alloc: Global,
    all: &mut Vec<Stretch>,
    start: u64,
    bytes: &[u8],
) -> Result<(), NoMemory> {
    let bytes = Octets::copy(alloc, bytes)?;
    all.push(Stretch { start, bytes })?;
    Ok(())
}

fn two_stretches(alloc: Global) -> Result<Stretches, NoMemory> {
    let mut all = Vec::new(alloc);
    push_stretch(alloc, &mut all, 0, b"GET")?;
    push_stretch(alloc, &mut all, 9, b"end")?;
    Ok(Stretches::from_vec(all))
}

fn keeps_stretches(alloc: Global) -> Result<bool, NoMemory> {
    match two_stretches(alloc)?.slice() {
        [_, last] => Ok(last.start == 9 && last.bytes.bytes() == b"end".as_slice()),
        _ => Ok(false),
    }
}

fn add(buffers: &mut Buffers, alloc: Global, bytes: &[u8]) -> Result<u32, NoMemory> {
    let bytes = Octets::copy(alloc, bytes)?;
    if buffers.count() > 9 || bytes.bytes().len() > 99 {
        return Ok(9);
    }
    buffers.add(bytes)
}

/// Whether the span lies in a buffer of six bytes, and its three bytes are read.
fn reads_spans(buffers: &Buffers, span: Span) -> Result<bool, NoMemory> {
    if span.buffer >= buffers.count()
        || buffers.size(span.buffer) != 6
        || span.start > 3
        || span.len > 3
    {
        return Ok(false);
    }
    let part = buffers.part(span)?;
    Ok(buffers.bytes(span) == b"ine".as_slice() && part.bytes() == b"ine".as_slice())
}

const SPAN: Span = Span {
    buffer: 1,
    start: 2,
    len: 3,
};

/// Whether two buffers have the numbers 0 and 1, and are all, and the second is read.
fn are_read(buffers: &mut Buffers, alloc: Global) -> Result<bool, NoMemory> {
    let first = add(buffers, alloc, b"frame")?;
    let second = add(buffers, alloc, b"joined")?;
    let are_numbered = first == 0 && second == 1 && buffers.count() == 2;
    Ok(are_numbered && reads_spans(buffers, SPAN)?)
}

fn reads_buffers(alloc: Global) -> Result<bool, NoMemory> {
    let mut buffers = Buffers::new(alloc);
    are_read(&mut buffers, alloc)
}

/// Whether a case of this name holds.
pub(crate) fn holds(alloc: Global, name: &str) -> Result<bool, NoMemory> {
    match name {
        "lost positions are kept in order" => keeps_lost(alloc),
        "numbers are kept in order" => keeps_numbers(alloc),
        "bytes are kept, cut and shared" => are_shared(alloc),
        "stretches are kept in order" => keeps_stretches(alloc),
        "spans are read in the buffer that they name" => reads_buffers(alloc),
        _ => Ok(false),
    }
}
