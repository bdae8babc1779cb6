//! Texts of verdicts, read. The faults of other texts, and which texts are evidence, are in tests/answers.
ghost use Rattle.std.specs.Prelude.{◌<◌};

use super::outcomes::{Outcome, assert_failures, known};
use history_merge::{OpKind, Operation};
use history_text::{MemorySource, TextReader, read_verdict};
use std::alloc::Global;
use std::test::Fail;
use verdicts::Claimed;

/// Returns the number of operations that the verdict of an input lists, or the fault.
fn outcome(alloc: Global, source: MemorySource<'_>) -> Outcome {
    match known(read_verdict(alloc, &mut TextReader::new(source)))? {
        Ok(Claimed::Yes(lines)) => Ok(Ok(lines.as_slice().len())),
        Ok(Claimed::No(_, lines)) => Ok(Ok(lines.as_slice().len())),
        Err(fault) => Ok(Err(fault)),
    }
}

const YES: &[u8] =
    b"YES\n0 1 0 enq 7\n2 3 63 deq 18446744073709551615\n4 999999999999 0 empty\n5 6 1 not 0\n";

/// Returns the operations of that text, read in pieces of `most` bytes.
fn operations_read(alloc: Global, most: usize) -> Result<Vec<Operation>, Fail>
    requires { 0 < most }
{
    let source = MemorySource::new(YES).in_pieces(most);
    match read_verdict(alloc, &mut TextReader::new(source))? {
        Claimed::Yes(lines) => Ok(Vec::from_slice(alloc, lines.as_slice())?),
        Claimed::No(..) => Err(Fail::from("a `NO`")),
    }
}

#[test]
fn reads_each_operation(rt: HostRuntime) -> Result<(), Fail> {
    let expected = [
        (0, 1, 0, OpKind::Enqueue(7)),
        (2, 3, 63, OpKind::Dequeue(u64::MAX)),
        (4, 999_999_999_999, 0, OpKind::DequeueEmpty),
        (5, 6, 1, OpKind::EnqueueFailed(0)),
    ]
    .map(|(call, ret, thread, kind)| Operation {
        call,
        ret,
        thread,
        kind,
    });
    for most in [1, YES.len()] {
        let operations = operations_read(rt.alloc(), most)?;
        assert_eq!(rt; operations.as_slice(), expected.as_slice());
    }
    Ok(())
}

#[test]
fn any_failure(rt: HostRuntime) -> Result<(), Fail> {
    assert_failures(&rt, rt.alloc(), YES, 1, outcome)
}
