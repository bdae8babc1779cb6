//! Texts of histories and verdicts, read and written. The faults of other texts are in tests/answers.
ghost use Rattle.std.specs.Prelude.{◌≡◌, ◌∷◌, [], IfOk};
ghost use Rattle.history_text.specs.declared.version.Version.TheVariants.{One};
ghost use Rattle.claims.specs.declared.shown.LinePlace.TheVariants.{Op};
ghost use Rattle.history_text.specs.Verdicts.{verdict_places};

use super::outcomes::{Outcome, assert_failures, known};
use event_records::{Event, What};
use history_merge::{History, OpId};
use history_text::{
    MemorySource, TextFault, TextReader, Version, Watched, WriteFault, at_end, peek, read_history,
    write_history, write_verdict,
};
use std::alloc::{AllocError, Global};
use std::test::Fail;
use value_match::{Cover, CoverStep, Source, Violation};
use verdicts::Verdict;

/// Each word of an event, and the greatest numbers.
const TEXT: &[u8] = b"fifo-history 2\ninitial 3\n274877906944\n0\n18446744073709551614\n\
    0 0 call-deq\n1 0 ret-deq 274877906944\n2 1 call-enq 7\n3 1 ret-enq\n4 2 call-deq\n5 2 ret-empty\n\
    6 63 call-enq 18446744073709551615\n999999999999 63 ret-not\nend 8\n";

const OLD_TEXT: &[u8] = b"fifo-history 1\n0 0 call-enq 7\n1 0 ret-enq\nend 2\n";

/// Reads the version and the history of a text that has nothing else.
fn read_alone(alloc: Global, source: MemorySource<'_>) -> Result<(Version, History), Fail>
    ensures { IfOk result (λ read. read.0 ≡ One → read.1.initial ≡ []) }
{
    let mut reader = TextReader::new(source);
    let (version, builder) = read_history(alloc, &mut reader)?;
    at_end(&mut reader)?;
    Ok((version, builder.finish()?))
}

/// Returns the events of that text, whose initial values are these.
fn events_read(alloc: Global, initial: &[u64]) -> Result<Vec<Event>, Fail> {
    let (version, history) = read_alone(alloc, MemorySource::new(TEXT))?;
    if version != Version::Two || history.initial() != initial {
        return Err(Fail::from("another version, or other initial values"));
    }
    Ok(history.events().collect(alloc)?)
}

#[test]
fn reads_values_and_events(rt: HostRuntime) -> Result<(), Fail> {
    let initial = [274_877_906_944, 0, u64::MAX - 1];
    let events = events_read(rt.alloc(), &initial)?;
    let expected = [
        (0, 0, What::CallDeq),
        (1, 0, What::RetDeq(274_877_906_944)),
        (2, 1, What::CallEnq(7)),
        (3, 1, What::RetEnq),
        (4, 2, What::CallDeq),
        (5, 2, What::RetEmpty),
        (6, 63, What::CallEnq(u64::MAX)),
        (999_999_999_999, 63, What::RetNot),
    ]
    .map(|(ticket, thread, what)| Event {
        ticket,
        thread,
        what,
    });
    assert_eq!(rt; events.as_slice(), expected.as_slice());
    Ok(())
}

/// Returns the number of events of a history that is all of its input, or the fault of the input.
fn outcome(alloc: Global, source: MemorySource<'_>) -> Outcome {
    let mut reader = TextReader::new(source);
    let (_, builder) = match known(read_history(alloc, &mut reader))? {
        Ok(read) => read,
        Err(fault) => return Ok(Err(fault)),
    };
    let history = builder.finish().map_err(|_| AllocError)?;
    Ok(at_end(&mut reader).map(|()| history.events().len()))
}

#[test]
fn any_pieces_and_any_failure(rt: HostRuntime) -> Result<(), Fail> {
    for most in [1, 7, TEXT.len()] {
        let found = outcome(rt.alloc(), MemorySource::new(TEXT).in_pieces(most))?;
        assert!(rt; found == Ok(8), "in pieces of {most}");
        assert_failures(&rt, rt.alloc(), TEXT, most, outcome)?;
    }
    Ok(())
}

/// Returns a history's text, written again in its version, and whether a writer with room for 20 bytes fails after
/// these.
fn written_again(alloc: Global, text: &[u8]) -> Result<(Vec<u8>, bool), Fail> {
    let (version, whole) = read_alone(alloc, MemorySource::new(text))?;
    let mut writer = Watched::new(Vec::new(alloc));
    write_history(version, &whole, &mut writer)?;
    let mut few = [0; 20];
    let refused = write_history(version, &whole, &mut Watched::new(&mut few[..]));
    let is_refused = refused == Err(WriteFault::Write) && text.starts_with(&few);
    Ok((writer.into_inner(), is_refused))
}

#[test]
fn writes_what_it_reads(rt: HostRuntime) -> Result<(), Fail> {
    let texts: [&[u8]; 5] = [
        TEXT,
        OLD_TEXT,
        b"fifo-history 1\nend 0\n",
        b"fifo-history 2\ninitial 0\nend 0\n",
        b"fifo-history 1\n999999999998 63 call-enq 0\n999999999999 63 ret-enq\nend 2\n",
    ];
    for text in texts {
        let (written, is_refused) = written_again(rt.alloc(), text)?;
        assert!(rt; is_refused && written.as_slice() == text, "{text:?}");
    }
    Ok(())
}

/// Reads two histories. Returns whether the reader is at its end before the first and after it (asked twice), the
/// number of events of the first, and the fault of the second.
fn two_histories(
    alloc: Global,
    source: MemorySource<'_>,
) -> Result<([bool; 3], usize, Option<TextFault>), Fail> {
    let mut reader = TextReader::new(source);
    let before = peek(&mut reader)?.is_none();
    let (_, builder) = read_history(alloc, &mut reader)?;
    let events = builder.finish()?.events().len();
    let ends = [
        before,
        peek(&mut reader)?.is_none(),
        peek(&mut reader)?.is_none(),
    ];
    let second = known(read_history(alloc, &mut reader))?;
    Ok((ends, events, second.err()))
}

#[test]
fn lines_count_on(rt: HostRuntime) -> Result<(), Fail> {
    let text = b"fifo-history 1\nend 0\nfifo-history 1\n0 0 ret-enq\nend 2 \n";
    for most in [1, 7, text.len()] {
        let found = two_histories(rt.alloc(), MemorySource::new(text).in_pieces(most))?;
        assert!(rt;
            found == ([false; 3], 0, Some(TextFault::Number(5))),
            "in pieces of {most}"
        );
    }
    Ok(())
}

/// A history with a false empty dequeue: the queue was never empty during it.
const NEVER_EMPTY: &[u8] =
    b"fifo-history 1\n0 0 call-enq 7\n1 0 ret-enq\n2 1 call-deq\n3 0 call-enq 9\n4 0 ret-enq\n\
    5 0 call-deq\n6 0 ret-deq 7\n9 1 ret-empty\n10 0 call-deq\n11 0 ret-deq 9\nend 10\n";

/// Returns a `NO` for it: the second operation found the queue empty, though two values covered it.
fn covered_by_two(alloc: Global) -> Result<Verdict, AllocError>
    ensures { IfOk result (λ v. verdict_places v ≡ Op 1 ∷ Op 0 ∷ Op 3 ∷ Op 2 ∷ Op 4 ∷ []) }
{
    let first = CoverStep {
        source: Source::Enq(OpId::new(0)),
        dequeue: Some(OpId::new(3)),
    };
    let second = CoverStep {
        source: Source::Enq(OpId::new(2)),
        dequeue: Some(OpId::new(4)),
    };
    let cover = Cover::from_vec(Vec::from_array(alloc, [first, second])?);
    Ok(Verdict::No(Violation::Witness {
        empty: OpId::new(1),
        cover,
    }))
}

/// Returns the text of that verdict.
fn verdict_written(alloc: Global) -> Result<Vec<u8>, Fail> {
    let (_, history) = read_alone(alloc, MemorySource::new(NEVER_EMPTY))?;
    if history.operations().len() != 5 {
        return Err(Fail::from("another count of operations"));
    }
    let verdict = covered_by_two(alloc)?;
    let mut writer = Watched::new(Vec::new(alloc));
    write_verdict(&history, &verdict, &mut writer)?;
    Ok(writer.into_inner())
}

#[test]
fn writes_a_verdict(rt: HostRuntime) -> Result<(), Fail> {
    assert_eq!(rt;
        verdict_written(rt.alloc())?.as_slice(),
        b"NO VWit\n2 9 1 empty\n0 1 0 enq 7\n5 6 0 deq 7\n3 4 0 enq 9\n10 11 0 deq 9\n".as_slice()
    );
    Ok(())
}
