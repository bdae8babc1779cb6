//! The number of times that the source of a text is read.
ghost use Rattle.std.specs.Prelude.{◌<◌};

use super::outcomes::Counted;
use history_text::{
    MemorySource, Schedule, TextFault, TextReader, peek, read_history, read_schedule, read_verdict,
};
use recorder_core::{Answer, Step};
use std::alloc::Global;
use std::sync::atomic::{AtomicUsize, Ordering};
use std::test::Fail;

const HISTORY: &[u8] = b"fifo-history 1\n0 0 call-enq 7\n1 0 ret-enq\nend 2\n";

/// Returns the number of events of a history, the number of reads of its source for it, the result at its end, and
/// the number of reads by then.
fn history_reads(
    alloc: Global,
    source: MemorySource<'_>,
) -> Result<(usize, usize, Result<Option<u8>, TextFault>, usize), Fail> {
    let reads = AtomicUsize::new(0);
    let mut reader = TextReader::new(Counted {
        source,
        reads: &reads,
    });
    let (_, builder) = read_history(alloc, &mut reader)?;
    let before = reads.load(Ordering::SeqCst);
    let end = peek(&mut reader);
    let events = builder.finish()?.events().len();
    Ok((events, before, end, reads.load(Ordering::SeqCst)))
}

#[test]
fn the_end_is_looked_for_where_nothing_is_left(rt: HostRuntime) -> Result<(), Fail> {
    let bytes = HISTORY.len();
    for (source, reads, end) in [
        (MemorySource::new(HISTORY).in_pieces(1), bytes, Ok(None)),
        (MemorySource::new(HISTORY), 1, Ok(None)),
        (MemorySource::failing(HISTORY), 1, Err(TextFault::Read)),
    ] {
        let found = history_reads(rt.alloc(), source)?;
        assert_eq!(rt; found, (2, reads, end, reads.saturating_add(1)));
    }
    Ok(())
}

/// Returns whether a history is read, and the number of reads of its source.
fn cut_reads(alloc: Global, source: MemorySource<'_>) -> (bool, usize) {
    let reads = AtomicUsize::new(0);
    let mut reader = TextReader::new(Counted {
        source,
        reads: &reads,
    });
    let is_read = read_history(alloc, &mut reader).is_ok();
    (is_read, reads.load(Ordering::SeqCst))
}

#[test]
fn a_source_that_ended_is_asked_no_more(rt: HostRuntime) {
    let front = &HISTORY[..40];
    for source in [MemorySource::new(front), MemorySource::failing(front)] {
        assert!(rt; cut_reads(rt.alloc(), source) == (false, 2));
    }
}

const SCHEDULE: &[u8] =
    b"fifo-schedule 1\nthreads 64 ring 65536\nask-enq 0\nask-deq 1\npush 2\neffect 3\n\
    say 4 taken\nsay 5 not\nsay 6 got 18446744073709551615\nsay 7 empty\nret 8\ndrain 9 65536\nclose 63\nend 11\n";

/// Returns the schedule, read in pieces of `most` bytes, and the number of reads of its source.
fn schedule_reads(alloc: Global, most: usize) -> Result<(Schedule, usize), TextFault>
    requires { 0 < most }
{
    let reads = AtomicUsize::new(0);
    let mut reader = TextReader::new(Counted {
        source: MemorySource::new(SCHEDULE).in_pieces(most),
        reads: &reads,
    });
    let schedule = read_schedule(alloc, &mut reader)?;
    Ok((schedule, reads.load(Ordering::SeqCst)))
}

#[test]
fn a_schedule_is_read_to_its_last_line(rt: HostRuntime) -> Result<(), Fail> {
    let expected = [
        Step::AskEnq(0),
        Step::AskDeq(1),
        Step::Push(2),
        Step::Effect(3),
        Step::Say(4, Answer::Taken),
        Step::Say(5, Answer::Not),
        Step::Say(6, Answer::Got(u64::MAX)),
        Step::Say(7, Answer::Empty),
        Step::Ret(8),
        Step::Drain(9, 65_536),
        Step::Close(63),
    ];
    for (most, wanted) in [(1, SCHEDULE.len()), (4096, 1)] {
        let (schedule, reads) = schedule_reads(rt.alloc(), most)?;
        assert_eq!(rt;
            (
                schedule.threads,
                schedule.ring,
                reads,
                schedule.steps.as_slice()
            ),
            (64, 65_536, wanted, expected.as_slice())
        );
    }
    Ok(())
}

/// Returns the number of reads of the source of a verdict, in pieces of `most` bytes.
fn verdict_reads(alloc: Global, most: usize) -> Result<usize, TextFault>
    requires { 0 < most }
{
    let reads = AtomicUsize::new(0);
    let mut reader = TextReader::new(Counted {
        source: MemorySource::new(b"YES\n0 1 0 enq 7\n").in_pieces(most),
        reads: &reads,
    });
    drop(read_verdict(alloc, &mut reader)?);
    Ok(reads.load(Ordering::SeqCst))
}

#[test]
fn reading_a_verdict_asks_once_at_the_end(rt: HostRuntime) -> Result<(), Fail> {
    assert!(rt; verdict_reads(rt.alloc(), 1)? == 17);
    assert!(rt; verdict_reads(rt.alloc(), 4096)? == 2);
    Ok(())
}
