//! Completions of histories with pending calls, and the reasons why a history has none.

use super::small_histories::at;
use completions::{CompletionFault, complete};
use event_records::What::{CallDeq, CallEnq, RetDeq, RetEmpty, RetEnq};
use event_records::{Event, MAX_EVENTS, MAX_INITIAL, MAX_TICKET, What};
use history_merge::HistoryFault;
use packed_events::PackedEvent;
use std::alloc::{AllocError, Global};
use std::test::Fail;

/// An event: its ticket, its thread, and its kind.
type Mark = (u64, u8, What);

/// A pending enqueue whose value was dequeued, and a pending dequeue, for which the other value is left.
const TAKEN: &[Mark] = &[
    (0, 0, CallEnq(7)),
    (1, 0, RetEnq),
    (2, 1, CallEnq(9)),
    (3, 2, CallDeq),
    (4, 3, CallDeq),
    (5, 2, RetDeq(9)),
];

/// Three pending dequeues, and a pending enqueue whose value no dequeue returned.
const LEFT_OUT: &[Mark] = &[
    (0, 0, CallDeq),
    (1, 1, CallDeq),
    (2, 2, CallDeq),
    (3, 3, CallEnq(8)),
];

/// Two enqueues that return in the opposite order, and two pending dequeues.
const BY_RETURNS: &[Mark] = &[
    (0, 0, CallEnq(7)),
    (1, 1, CallEnq(9)),
    (2, 1, RetEnq),
    (3, 0, RetEnq),
    (4, 2, CallDeq),
    (5, 3, CallDeq),
];

/// A history without pending calls.
const COMPLETE: &[Mark] = &[(0, 0, CallDeq), (3, 0, RetEmpty)];

/// A pending dequeue at the greatest ticket.
const LATEST: &[Mark] = &[(999_999_999_999, 0, CallDeq)];

/// Initial values and events, the number of events that are kept (the first ones), and the returns after them.
static COMPLETED: [(&[u64], &[Mark], usize, &[Mark]); 6] = [
    (&[], TAKEN, 6, &[(6, 1, RetEnq), (7, 3, RetDeq(7))]),
    (
        &[5, 6],
        LEFT_OUT,
        2,
        &[(4, 0, RetDeq(5)), (5, 1, RetDeq(6))],
    ),
    (&[], LEFT_OUT, 0, &[]),
    (&[], BY_RETURNS, 6, &[(6, 2, RetDeq(9)), (7, 3, RetDeq(7))]),
    (&[4], COMPLETE, 2, &[]),
    (&[], LATEST, 0, &[]),
];

/// Initial values and events without a completion, and the reason.
static REFUSED: [(&[u64], &[Mark], CompletionFault); 3] = [
    (&[5], LATEST, CompletionFault::Limit),
    (
        &[5, 5],
        TAKEN,
        CompletionFault::History(HistoryFault::InitialTwice(1)),
    ),
    (
        &[8],
        LEFT_OUT,
        CompletionFault::History(HistoryFault::DuplicateValue(3)),
    ),
];

/// Returns the events of these marks.
fn events_of(alloc: Global, marks: &[Mark]) -> Result<Vec<PackedEvent>, Fail> {
    let mut events = Vec::new(alloc);
    for (ticket, thread, what) in marks {
        let event = at(*ticket, *thread, *what);
        if event.ticket > MAX_TICKET {
            return Err("a ticket past the greatest")?;
        }
        events.push(PackedEvent::new(event))?;
    }
    Ok(events)
}

fn unpacked(alloc: Global, events: &[PackedEvent]) -> Result<Vec<Event>, AllocError> {
    events.iter().map(|event| event.unpack()).collect(alloc)
}

/// Returns the completion of these marks, or the reason why there is none.
fn completion_of(
    alloc: Global,
    initial: &[u64],
    marks: &[Mark],
) -> Result<Result<Vec<Event>, CompletionFault>, Fail> {
    let events = events_of(alloc, marks)?;
    if initial.len() > MAX_INITIAL || events.len() > MAX_EVENTS {
        return Err("too many values or events")?;
    }
    match complete(alloc, initial, events) {
        Ok(made) => Ok(Ok(unpacked(alloc, &made.events)?)),
        Err(fault) => Ok(Err(fault)),
    }
}

/// Returns whether the events are the first `kept` marks, followed by the returns.
fn are_completed(full: &[Event], marks: &[Mark], kept: usize, returns: &[Mark]) -> bool {
    let mut wanted = marks.iter().take(kept).chain(returns.iter());
    for event in full {
        match wanted.next() {
            Some((ticket, thread, what)) if *event == at(*ticket, *thread, *what) => {}
            _ => return false,
        }
    }
    wanted.next().is_none()
}

#[test]
fn returns_pending_calls_or_leaves_them_out(rt: HostRuntime) -> Result<(), Fail> {
    for (initial, marks, kept, returns) in &COMPLETED {
        let full = completion_of(rt.alloc(), initial, marks)?;
        let is_as_wanted = match &full {
            Ok(full) => are_completed(full.as_slice(), marks, *kept, returns),
            Err(_) => false,
        };
        assert!(rt; is_as_wanted, "{full:?}");
    }
    Ok(())
}

#[test]
fn names_why_there_is_no_completion(rt: HostRuntime) -> Result<(), Fail> {
    for (initial, marks, fault) in &REFUSED {
        let full = completion_of(rt.alloc(), initial, marks)?;
        let is_refused = match &full {
            Ok(_) => false,
            Err(why) => why == fault,
        };
        assert!(rt; is_refused, "{full:?}");
    }
    Ok(())
}
