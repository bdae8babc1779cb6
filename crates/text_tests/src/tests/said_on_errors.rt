//! The text on standard error, with ample memory. The words of each message are in tests/answers.
use event_records::{Event, What};
use history_merge::{Clash, HistoryFault, Placed};
use history_text::{MemorySource, TextFault, TextSource};
use messages::{Complaint, FrontKept, Given, Reads, greeting, keeping, quoted, sentence};
use std::alloc::{AllocError, Global};
use std::test::Fail;

const SENTENCES: &str =
    "fifobench: line 2: expected <ticket> <thread> <what>, found 3 fields: '0 0 ret'
fifobench: <what> is call-enq <value>, ret-enq, ret-not, call-deq, ret-deq <value> or ret-empty
fifobench: line 70002: the call of ticket 70001 never returns: '70001 5 call-deq'
fifobench: a history has the return of each call: fifobench complete < FILE | fifobench check judges one with pending calls
";

/// Returns sentences about a line that is kept, and about a call without return whose line isn't.
fn sentences(alloc: Global) -> Result<String, AllocError> {
    let kept = Given {
        reads: Reads::History,
        front: b"fifo-history 1\n0 0 ret\nend 1\n",
        is_whole: true,
        back: b"",
    };
    let not_kept = Given {
        reads: Reads::History,
        front: b"fifo-history 1\n",
        is_whole: false,
        back: b"",
    };
    let event = Event {
        ticket: 70_001,
        thread: 5,
        what: What::CallDeq,
    };
    let call = Clash::Pending(Placed {
        place: 70_000,
        event,
    });
    let line = Complaint::Text(TextFault::Line(2), kept);
    let pending = Complaint::History(HistoryFault::Pending(70_001), Some(call), not_kept);
    let mut said = sentence(alloc, &line)?;
    said.push_str(&sentence(alloc, &pending)?)?;
    Ok(said)
}

#[test]
fn faults_are_said_in_sentences(rt: HostRuntime) -> Result<(), Fail> {
    assert_eq!(rt; sentences(rt.alloc())?.as_str(), SENTENCES);
    Ok(())
}

const HINTS: &str =
    "fifobench: reading a schedule from the terminal; Ctrl-D ends it, fifobench sim < FILE reads a file
fifobench: 2002 events were written; fifobench stress .. > FILE keeps them in a file
~a\\t\\r\\x00\\xff\\x7f";

/// Returns the text for a terminal, and bytes as they are quoted.
fn hints(alloc: Global) -> Result<String, AllocError> {
    let mut said = greeting(alloc, "sim", Reads::Schedule)?;
    said.push_str(&keeping(alloc, 2002)?)?;
    said.push_str(&quoted(alloc, b"~a\t\r\x00\xff\x7f")?)?;
    Ok(said)
}

#[test]
fn terminals_get_hints_and_bytes_are_quoted(rt: HostRuntime) -> Result<(), Fail> {
    assert_eq!(rt; hints(rt.alloc())?.as_str(), HINTS);
    Ok(())
}

#[test]
fn the_front_of_an_input_is_kept(rt: HostRuntime) {
    let mut source = FrontKept::new(rt.alloc(), MemorySource::new(b"abcde").in_pieces(2));
    let read = source.read(&mut [0; 3]);
    let is_front = source.is_whole() && source.front() == b"ab".as_slice();
    assert!(rt; read == Ok(2) && is_front && source.back().is_empty());
}
