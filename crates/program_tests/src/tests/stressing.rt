//! Runs of queues that aren't built into the program.
use super::answers;
use commands::NamedQueue;
use history_text::MemorySource;
use queue_interface::{ArrayBack, Entry, ScriptQueue};
use std::alloc::{AllocError, Global};
use std::test::Fail;

/// Returns a queue with this name that answers its only worker by the row.
fn scripted<'a>(alloc: Global, name: &'a str, row: &[Entry]) -> Result<NamedQueue<'a>, AllocError> {
    let mut rows = Vec::new(alloc);
    rows.push(Vec::from_slice(alloc, row)?)?;
    let queue = Box::new(alloc, ScriptQueue::new(rows))?;
    Ok(NamedQueue { name, queue })
}

/// Returns two queues with one name, of which the first takes a value and the second doesn't, and between them one
/// with the name of the proved queue, which takes nothing.
fn shelf_of_three(alloc: Global) -> Result<Vec<NamedQueue<'static>>, AllocError> {
    let mut shelf = Vec::new(alloc);
    shelf.push(scripted(alloc, "taking", &[Entry::Taken])?)?;
    shelf.push(scripted(alloc, "proved", &[])?)?;
    shelf.push(scripted(alloc, "taking", &[])?)?;
    Ok(shelf)
}

/// The output of a run of one successful enqueue.
const TAKEN: &str = "fifo-history 1\n0 0 call-enq 0\n1 0 ret-enq\nend 2\nYES\n0 1 0 enq 0\n";
/// The output of a run of one failed enqueue.
const NOT_TAKEN: &str = "fifo-history 1\n0 0 call-enq 0\n1 0 ret-not\nend 2\nYES\n0 1 0 not 0\n";

/// The command line, the output, and the status. The last queue has room for one value.
const RUNS: [(&str, &str, u8); 3] = [
    (
        "fifobench stress --threads 1 --ops 1 --percent 100 --queue taking",
        TAKEN,
        0,
    ),
    (
        "fifobench stress --threads 1 --ops 1 --percent 100 --queue proved",
        NOT_TAKEN,
        0,
    ),
    (
        "fifobench stress --threads 1 --ops 0 --initial 2 --queue array",
        "FAULT Preload 1\n",
        3,
    ),
];

// A run reads nothing: a read would fail.
#[test]
fn the_first_queue_of_a_name_is_run(rt: HostRuntime) -> Result<(), Fail> {
    let mut shelf = shelf_of_three(rt.alloc())?;
    let name = "array";
    let queue = Box::new(rt.alloc(), ArrayBack::new(rt.alloc(), rt, 1)?)?;
    shelf.push(NamedQueue { name, queue })?;
    for (line, text, status) in RUNS {
        let source = MemorySource::failing(b"");
        assert!(rt; answers(&rt, line, source, &shelf, text, status), "{line}");
    }
    Ok(())
}
