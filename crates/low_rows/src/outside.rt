//! What no contract says: that calls succeed, that a piece is one write, and what the system does.
use pk_outside::{
    Capture, Failed, FileCapture, MemoryCapture, MemorySink, NamedFile, Sink, StdSink, SureCapture,
    SureSink, write_whole,
};
use std::alloc::{AllocError, Global};
use std::fs;

const ROOM: usize = 64;

/// Adds what one read gives, or a mark where it fails.
fn push_read<C: Capture>(capture: &mut C, trace: &mut Vec<u8>) -> Result<(), AllocError> {
    let mut room = [0; ROOM];
    match capture.read(&mut room) {
        Ok(count) => trace.extend_from_slice(&room[..count])?,
        Err(Failed) => trace.push(b'!')?,
    }
    Ok(())
}

/// What eight reads give, with a mark for each that fails.
fn trace<C: Capture>(alloc: Global, capture: &mut C) -> Result<Vec<u8>, AllocError> {
    let mut trace = Vec::new(alloc);
    for _ in 0..8 {
        push_read(capture, &mut trace)?;
    }
    Ok(trace)
}

fn gives<C: Capture>(alloc: Global, capture: &mut C, want: &[u8]) -> Result<bool, AllocError> {
    Ok(trace(alloc, capture)?.as_slice() == want)
}

/// Whether the sink takes the whole piece.
fn takes<S: Sink>(sink: &mut S, piece: &[u8]) -> bool {
    write_whole(sink, piece).is_ok()
}

fn begin<C: Capture>(alloc: Global, capture: &mut C, name: &str) -> Result<bool, AllocError> {
    let name = String::from_str(alloc, name)?;
    Ok(capture.begin(name).is_ok())
}

/// Gives up the bytes of a file that has no name.
fn refused(_bytes: Vec<u8>, error: AllocError) -> Result<NamedFile, AllocError> {
    Err(error)
}

fn named(alloc: Global, name: &str, bytes: &[u8]) -> Result<NamedFile, AllocError> {
    let bytes = Vec::from_slice(alloc, bytes)?;
    match String::from_str(alloc, name) {
        Ok(name) => Ok(NamedFile::new(name, bytes)),
        Err(error) => refused(bytes, error),
    }
}

fn push_named(alloc: Global, files: &mut Vec<NamedFile>, bytes: &[u8]) -> Result<(), AllocError> {
    let file = named(alloc, "f", bytes)?;
    files.push(file)?;
    Ok(())
}

/// Two files of one name.
fn two_names(alloc: Global) -> Result<Vec<NamedFile>, AllocError> {
    let mut files = Vec::new(alloc);
    push_named(alloc, &mut files, b"abcde")?;
    push_named(alloc, &mut files, b"later")?;
    Ok(files)
}

/// Two files of one name, of which reads give two bytes at a time, and the third call fails.
fn two_files(alloc: Global) -> Result<MemoryCapture, AllocError> {
    let files = two_names(alloc)?;
    let failing = Vec::from_slice(alloc, &[3])?;
    Ok(MemoryCapture::new(files, failing, 2))
}

/// Whether the capture begins with the name and gives these bytes.
fn begins_and_gives<C: Capture>(
    alloc: Global,
    capture: &mut C,
    name: &str,
    want: &[u8],
) -> Result<bool, AllocError> {
    Ok(begin(alloc, capture, name)? && gives(alloc, capture, want)?)
}

/// Whether the first of two files is read past the call that fails, and a third name begins none.
fn counts<C: Capture>(alloc: Global, capture: &mut C) -> Result<bool, AllocError> {
    Ok(begins_and_gives(alloc, capture, "f", b"ab!cde")? && !begin(alloc, capture, "g")?)
}

fn counts_calls(alloc: Global) -> Result<bool, AllocError> {
    let mut capture = two_files(alloc)?;
    counts(alloc, &mut capture)
}

fn is_sure(alloc: Global) -> Result<bool, AllocError> {
    let mut capture = SureCapture::new(Vec::from_slice(alloc, b"abcde")?);
    begins_and_gives(alloc, &mut capture, "g", b"abcde")
}

/// Whether the sink takes the first and the third of three pieces.
fn takes_two_of_three<S: Sink>(sink: &mut S) -> bool {
    let first = takes(sink, b"first");
    let second = takes(sink, b"second");
    let third = takes(sink, b"third");
    first && !second && third
}

fn keeps_two_of_three(alloc: Global) -> Result<bool, AllocError> {
    let mut sink = MemorySink::new(alloc, Vec::from_slice(alloc, &[2])?);
    Ok(takes_two_of_three(&mut sink) && sink.bytes() == b"firstthird".as_slice())
}

fn takes_both(sink: &mut SureSink) -> bool {
    let first = takes(sink, b"first");
    let second = takes(sink, b"second");
    first && second && sink.bytes() == b"firstsecond".as_slice()
}

fn keeps_both(alloc: Global) -> bool {
    takes_both(&mut SureSink::new(alloc))
}

fn reads(rt: &HostRuntime, name: &str, want: &[u8]) -> Result<bool, AllocError> {
    let mut files = FileCapture::new(rt);
    begins_and_gives(rt.alloc(), &mut files, name, want)
}

/// Whether a file is read to its end, which lies behind the room of one read.
fn is_read_whole(rt: &HostRuntime) -> Result<bool, AllocError> {
    let name = "/proc/version";
    let Ok(whole) = fs::read(rt, name) else {
        return Ok(false);
    };
    Ok(whole.len() > ROOM && reads(rt, name, whole.as_slice())?)
}

/// Whether no file begins, and behind it a directory, of which each read fails.
fn misses_then_fails<C: Capture>(alloc: Global, capture: &mut C) -> Result<bool, AllocError> {
    let is_missed = !begin(alloc, capture, "/no/such/file")?;
    Ok(is_missed && begins_and_gives(alloc, capture, "/", b"!!!!!!!!")?)
}

fn files_fail(rt: &HostRuntime) -> Result<bool, AllocError> {
    let mut files = FileCapture::new(rt);
    misses_then_fails(rt.alloc(), &mut files)
}

/// Whether a full device takes nothing.
fn is_full(rt: &HostRuntime) -> bool {
    match fs::create(rt, "/dev/full") {
        Ok(device) => !takes(&mut StdSink::new(device), b"bytes"),
        Err(_) => false,
    }
}

/// Whether the standard output takes a line, which is seen there.
fn takes_all(rt: &HostRuntime) -> bool {
    takes(&mut StdSink::new(rt.stdout()), b"a good stream\n")
}

/// Whether a case of this name holds.
pub(crate) fn holds(rt: &HostRuntime, name: &str) -> Result<bool, AllocError> {
    let alloc = rt.alloc();
    match name {
        "calls are counted together, and the named ones fail" => counts_calls(alloc),
        "a sure capture begins with any name" => is_sure(alloc),
        "a piece is one write" => keeps_two_of_three(alloc),
        "a sure sink takes all" => Ok(keeps_both(alloc)),
        "a file is read to its end" => is_read_whole(rt),
        "a missing file is missed, and a directory doesn't read" => files_fail(rt),
        "a full device fails" => Ok(is_full(rt)),
        "a good stream takes all" => Ok(takes_all(rt)),
        _ => Ok(false),
    }
}
