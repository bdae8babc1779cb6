//! Writers that take one byte at a time, and then fail.
use commands::{Terminals, run_over};
use std::alloc::{AllocError, Global};
use std::io;
use std::io::{ErrorKind, Write};
use std::sync::Wait;
use std::test::Fail;
use std::thread::Threads;

const OVERTAKEN: &str =
    "fifo-history 1\n0 0 call-enq 7\n1 0 ret-enq\n2 0 call-enq 9\n3 0 ret-enq\n4 0 call-deq\n5 0 ret-deq 9\nend 6\n";

const VERDICT: &str = "NO VOrd\n0 1 0 enq 7\n2 3 0 enq 9\n4 5 0 deq 9\n";

/// The number of bytes that fit into the writer.
const ROOM: usize = 64;

/// A writer that takes `most` bytes, one at a time. After them it takes nothing, or all its calls, its flush too,
/// fail as interrupted. It counts its calls.
#[derive(Drop)]
struct Slow {
    bytes: [u8; ROOM],
    count: usize,
    most: usize,
    fails: bool,
    writes: usize,
    flushes: usize,
}

impl Slow {
    /// Fails if the writer fails by now.
    fn answer(&self) -> io::Result<()> {
        if self.fails && self.count >= self.most {
            return Err(io::Error::from(ErrorKind::Interrupted));
        }
        Ok(())
    }
}

impl Write for Slow {
    fn write(&mut self, piece: &[u8]) -> io::Result<usize> {
        self.writes = self.writes.wrapping_add(1);
        self.answer()?;
        let Some(byte) = piece.first() else {
            return Ok(0);
        };
        if self.count >= self.most || self.count >= ROOM {
            return Ok(0);
        }
        self.bytes[self.count] = *byte;
        self.count += 1;
        Ok(1)
    }

    fn flush(&mut self) -> io::Result<()> {
        self.flushes = self.flushes.wrapping_add(1);
        self.answer()
    }
}

/// Runs a check with such a writer. Returns the status, the numbers of calls and flushes of the writer, and whether
/// it has this prefix of the verdict.
fn checked<R: AllocGlobal + Threads + Wait + Sync>(
    rt: &R,
    args: &[String],
    most: usize,
    fails: bool,
) -> (u8, usize, usize, bool) {
    let mut writer = Slow {
        bytes: [0; ROOM],
        count: 0,
        most,
        fails,
        writes: 0,
        flushes: 0,
    };
    let input = OVERTAKEN.as_bytes();
    let errors = io::sink();
    let status = run_over(rt, args, input, &mut writer, errors, Terminals::NONE, &[]).status;
    let is_prefix = writer.bytes.get(..writer.count) == VERDICT.as_bytes().get(..most);
    (status, writer.writes, writer.flushes, is_prefix)
}

/// Returns the arguments that ask for a check.
fn args(alloc: Global) -> Result<Vec<String>, AllocError> {
    let mut args = Vec::new(alloc);
    args.push(String::from_str(alloc, "fifobench")?)?;
    args.push(String::from_str(alloc, "check")?)?;
    Ok(args)
}

// A failed call is the last one. The flush comes once, after the whole text.
#[test]
fn a_slow_writer_gets_the_text_or_a_front(rt: HostRuntime) -> Result<(), Fail> {
    let args = args(rt.alloc())?;
    let whole = VERDICT.len();
    for most in 0..whole {
        let wanted = (3, most.saturating_add(1), 0, true);
        assert!(rt; checked(&rt, &args, most, false) == wanted, "{most}");
        assert!(rt; checked(&rt, &args, most, true) == wanted, "{most}");
    }
    assert!(rt; checked(&rt, &args, whole, false) == (1, whole, 1, true));
    assert!(rt; checked(&rt, &args, whole, true) == (3, whole, 1, true));
    Ok(())
}
