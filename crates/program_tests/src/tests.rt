//! Tests of the program that need more than files. All other cases are in tests/answers.
mod args;
mod inputs;
mod recorded;
mod stressing;
mod writing;

use commands::{NamedQueue, Terminals, run_command};
use history_text::{TextSource, Watched};
use std::alloc::AllocError;
use std::io;
use std::sync::Wait;
use std::thread::Threads;

/// Runs the program with this command line, and returns its output and its status.
fn run<'a, R: AllocGlobal + Threads + Wait + Sync, S: TextSource + Drop>(
    rt: &R,
    line: &'a str,
    source: S,
    shelf: &[NamedQueue<'a>],
) -> Result<(Vec<u8>, u8), AllocError> {
    let args: Vec<&str> = line.split_whitespace().collect(rt.alloc())?;
    let mut writer = Watched::new(Vec::new(rt.alloc()));
    let mut errors = Watched::new(io::sink());
    let status = run_command(
        rt,
        &args,
        source,
        &mut writer,
        &mut errors,
        Terminals::NONE,
        shelf,
    );
    Ok((writer.into_inner(), status))
}

/// Returns whether a run of the program with this command line writes this text and ends with this status.
fn answers<'a, R: AllocGlobal + Threads + Wait + Sync, S: TextSource + Drop>(
    rt: &R,
    line: &'a str,
    source: S,
    shelf: &[NamedQueue<'a>],
    text: &str,
    status: u8,
) -> bool {
    match run(rt, line, source, shelf) {
        Ok((written, ended)) => ended == status && written.as_slice() == text.as_bytes(),
        Err(_) => false,
    }
}
