//! The program of Siulanke: what its words ask for, on standard input and output.
#![tactic(auto)]

#[cfg(test)]
mod tests;

use air_io::{StdSink, StdSource};
use std::env;
use std::io::{self, BufWriter, ErrorKind};
use std::process::ExitCode;
use top_call::{Status, gen2run};

/// The exit status where the words can't be had for another cause, as where one isn't UTF-8.
const UNREADABLE_WORDS: u8 = 8;

/// How many bytes are gathered before standard output is written to. A trace has hundreds of thousands of short lines.
const PAGE_BYTES: usize = 65_536;

fn main(rt: HostRuntime) -> ExitCode {
    let words = match program_words(&rt) {
        Ok(words) => words,
        // As for want of memory later on.
        Err(error) if error.kind() == ErrorKind::OutOfMemory => return ExitCode::from(
            Status::OutOfMemory.number(),
        ),
        Err(_) => return ExitCode::from(UNREADABLE_WORDS),
    };
    let Ok(page) = BufWriter::with_capacity(rt.alloc(), PAGE_BYTES, rt.stdout()) else {
        return ExitCode::from(Status::OutOfMemory.number());
    };
    let mut input = StdSource::new(rt.stdin());
    // The sink holds back a page, and hands it on last.
    let mut output = StdSink::new(page);
    let status = gen2run(rt.alloc(), &words, &mut input, &mut output);
    ExitCode::from(status.number())
}

/// The words after the program's own name.
fn program_words(rt: &HostRuntime) -> io::Result<Vec<String>> {
    Ok(env::args(rt)?.skip(1).collect(rt.alloc())?)
}
