//! Small histories for tests, written as rows, and comparisons with rows.

use event_records::{Event, MAX_EVENTS, MAX_INITIAL, What};
use history_merge::OpKind::{Dequeue, DequeueEmpty, Enqueue, EnqueueFailed};
use history_merge::{History, OpId, OpKind, Operation, Operations, history_from};
use std::alloc::{AllocError, Global};
use std::test::Fail;
use value_match::{Matched, Matching, Source, match_values};

/// An operation: the tickets of its call and its return, its thread, and its kind.
pub(crate) type Row = (u64, u64, u8, OpKind);

/// Two overlapping enqueues, and the dequeues of their values in the opposite order.
pub(crate) const OVERLAPPING: &[Row] = &[
    (0, 2, 0, Enqueue(7)),
    (1, 3, 1, Enqueue(9)),
    (4, 5, 0, Dequeue(9)),
    (6, 7, 0, Dequeue(7)),
];

/// A value that overtakes one that is never dequeued.
pub(crate) const OVERTAKEN: &[Row] = &[
    (0, 1, 0, Enqueue(7)),
    (2, 3, 0, Enqueue(9)),
    (4, 5, 0, Dequeue(9)),
];

/// A value that overtakes one that is dequeued later.
pub(crate) const DEQUEUED_LATER: &[Row] = &[
    (0, 1, 0, Enqueue(7)),
    (2, 3, 0, Enqueue(9)),
    (4, 5, 0, Dequeue(9)),
    (6, 7, 0, Dequeue(7)),
];

/// A value that seems to overtake another, but may have been enqueued after the other's dequeue.
pub(crate) const HIDDEN: &[Row] = &[
    (0, 6, 0, Enqueue(7)),
    (1, 3, 1, Dequeue(7)),
    (2, 7, 2, Dequeue(9)),
    (4, 5, 1, Enqueue(9)),
];

/// An empty dequeue during which first one value and then another was in the queue.
pub(crate) const NEVER_EMPTY: &[Row] = &[
    (0, 1, 0, Enqueue(7)),
    (2, 9, 1, DequeueEmpty),
    (3, 4, 0, Enqueue(9)),
    (5, 6, 0, Dequeue(7)),
    (10, 11, 0, Dequeue(9)),
];

/// An empty dequeue with one gap at which the queue may have been empty.
pub(crate) const ONCE_EMPTY: &[Row] = &[
    (0, 1, 0, Enqueue(7)),
    (2, 9, 1, DequeueEmpty),
    (3, 6, 0, Enqueue(9)),
    (4, 5, 2, Dequeue(7)),
    (10, 11, 0, Dequeue(9)),
];

/// Two operations after three initial values.
pub(crate) const OF_THREE: &[Row] = &[(3, 5, 2, Dequeue(u64::MAX)), (4, 6, 0, EnqueueFailed(6))];

/// Four operations after the initial values 5 and 6, of which the first two overlap.
pub(crate) const OF_TWO: &[Row] = &[
    (0, 4, 1, Dequeue(5)),
    (3, 7, 2, Enqueue(8)),
    (9, 10, 1, EnqueueFailed(9)),
    (20, 999_999_999_999, 63, DequeueEmpty),
];

/// Returns the event.
pub(crate) fn at(ticket: u64, thread: u8, what: What) -> Event {
    Event {
        ticket,
        thread,
        what,
    }
}

/// The number of the first initial value. Lower numbers are places of operations.
pub(crate) const INITIAL: usize = 1_000_000;

/// Returns the number of a value's source.
pub(crate) fn number_of(source: Source) -> usize {
    match source {
        Source::Enq(id) => id.place(),
        Source::Initial(place) => INITIAL.saturating_add(place),
    }
}

/// Returns the call and the return of an operation.
fn told(kind: OpKind) -> (What, What) {
    match kind {
        Enqueue(value) => (What::CallEnq(value), What::RetEnq),
        EnqueueFailed(value) => (What::CallEnq(value), What::RetNot),
        Dequeue(value) => (What::CallDeq, What::RetDeq(value)),
        DequeueEmpty => (What::CallDeq, What::RetEmpty),
    }
}

/// Returns the events of these operations.
pub(crate) fn events_of(alloc: Global, rows: &[Row]) -> Result<Vec<Event>, AllocError> {
    let mut events = Vec::new(alloc);
    for (call, ret, thread, kind) in rows {
        let (called, answered) = told(*kind);
        events.push(at(*call, *thread, called))?;
        events.push(at(*ret, *thread, answered))?;
    }
    events.sort_by_key(|event| event.ticket)?;
    Ok(events)
}

/// Returns the history of these operations, of a queue with these initial values.
pub(crate) fn history_behind(
    alloc: Global,
    initial: &[u64],
    rows: &[Row],
) -> Result<History, Fail> {
    let events = events_of(alloc, rows)?;
    if initial.len() > MAX_INITIAL || events.len() > MAX_EVENTS {
        return Err("too many values or events")?;
    }
    Ok(history_from(alloc, initial.to_vec(alloc)?, events.as_slice())?)
}

/// Returns the matching of a history without phantom and repeated dequeues.
pub(crate) fn matching_of(alloc: Global, history: &History) -> Result<Matching<'_>, Fail> {
    match match_values(alloc, history)? {
        Matched::Clear(matching) => Ok(matching),
        Matched::Fresh(_) | Matched::Repeat(_) => Err(Fail::from("no matching")),
    }
}

/// Returns whether the operation is that of the row, or both are absent.
pub(crate) fn is_row(operation: Option<Operation>, row: Option<&Row>) -> bool {
    match (operation, row) {
        (Some(operation), Some((call, ret, thread, kind))) => {
            operation.call == *call
                && operation.ret == *ret
                && operation.thread == *thread
                && operation.kind == *kind
        }
        (None, None) => true,
        _ => false,
    }
}

/// Returns whether the operations are at the places of the rows, and none is at another place.
fn are_at_places(operations: &Operations, rows: &[Row]) -> bool {
    for place in [0, 1, 2, 3, 4, 5, 6, u32::MAX] {
        if !is_row(operations.get(OpId::new(place)), rows.get(place as usize)) {
            return false;
        }
    }
    operations.len() == rows.len()
}

/// Returns whether these are the operations of the rows, by place and by iteration.
pub(crate) fn are_rows(operations: &Operations, rows: &[Row]) -> bool {
    let mut left = operations.iter();
    for row in rows {
        if !is_row(left.next(), Some(row)) {
            return false;
        }
    }
    left.next().is_none() && are_at_places(operations, rows)
}
