//! `shark`: prints the frames of a capture file that satisfy a display filter.
#![tactic(auto)]

mod edge;
mod help;

use edge::{answer, without_words};
use pk_outside::{FileCapture, Sink, StdSink, SureSink};
use run_texts::end_run;
use shark_run::{Status, run};
use std::env;
use std::io::{self, BufWriter, ErrorKind, IsTerminal};
use std::process::ExitCode;

/// The words behind the program's name.
fn words(rt: &HostRuntime) -> io::Result<Vec<String>> {
    Ok(env::args(rt)?.skip(1).collect(rt.alloc())?)
}

/// The bytes of output that are gathered before they are written, unless a person reads them as they come.
const GATHERED: usize = 1 << 16;

/// Answers the words by itself, or does what they ask for. What is to be told waits until the output is written.
fn number_of(rt: &HostRuntime, words: &[String]) -> u8 {
    let stdout = rt.stdout();
    let gathered = if stdout.is_terminal() { 0 } else { GATHERED };
    let mut stream = match BufWriter::with_capacity(rt.alloc(), gathered, stdout) {
        Ok(stream) => stream,
        Err(_) => return Status::NoMemory.exit_number(),
    };
    let mut out = StdSink::new(&mut stream);
    let mut told = SureSink::new(rt.alloc());
    let status = status_over(rt, words, &mut out, &mut told);
    let mut err = StdSink::new(rt.stderr());
    end_run(&mut out, &told, &mut err, status.exit_number())
}

fn status_over<O: Sink, E: Sink>(
    rt: &HostRuntime,
    words: &[String],
    out: &mut O,
    told: &mut E,
) -> Status {
    if let Some(status) = answer(words, out) {
        return status;
    }
    let mut capture = FileCapture::new(rt);
    run(rt.alloc(), words, &mut capture, out, told)
}

fn main(rt: HostRuntime) -> ExitCode {
    let number = match words(&rt) {
        Ok(words) => number_of(&rt, words.as_slice()),
        Err(error) => {
            let starved = error.kind() == ErrorKind::OutOfMemory;
            without_words(starved, &mut StdSink::new(rt.stderr())).exit_number()
        }
    };
    ExitCode::from(number)
}
