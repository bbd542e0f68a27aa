//! `shark_merge`: writes the frames of capture files in the order of their times, as one capture file.
#![tactic(auto)]

mod edge;
mod help;

use edge::{answer, without_words};
use merge_caps::{MergeStatus, merge};
use pk_outside::{FileCapture, Sink, StdSink, SureSink};
use run_texts::end_run;
use std::env;
use std::io::{self, BufWriter};
use std::process::ExitCode;

/// The words behind the program's name.
fn words(rt: &HostRuntime) -> io::Result<Vec<String>> {
    Ok(env::args(rt)?.skip(1).collect(rt.alloc())?)
}

/// The bytes of output that are gathered before they are written.
const GATHERED: usize = 1 << 16;

/// Answers the words by itself, or does what they ask for. What is to be told waits until the output is written.
fn number_of(rt: &HostRuntime, words: &[String]) -> u8 {
    let mut stream = match BufWriter::with_capacity(rt.alloc(), GATHERED, rt.stdout()) {
        Ok(stream) => stream,
        Err(_) => return MergeStatus::NoMemory.exit_number(),
    };
    let mut out = StdSink::new(&mut stream);
    let mut told = SureSink::new(rt.alloc());
    let status = status_over(rt, words, &mut out, &mut told);
    let mut err = StdSink::new(rt.stderr());
    end_run(&mut out, &told, &mut err, status.exit_number())
}

fn status_over<O: Sink, E: Sink>(
    rt: &HostRuntime,
    words: &[String],
    out: &mut O,
    told: &mut E,
) -> MergeStatus {
    if let Some(status) = answer(words, out) {
        return status;
    }
    let mut capture = FileCapture::new(rt);
    merge(rt.alloc(), words, &mut capture, out, told)
}

fn main(rt: HostRuntime) -> ExitCode {
    let number = match words(&rt) {
        Ok(words) => number_of(&rt, words.as_slice()),
        Err(error) => { without_words(error.kind(), &mut StdSink::new(rt.stderr())).exit_number() }
    };
    ExitCode::from(number)
}
