//! Small histories.

use event_records::{Event, MAX_EVENTS, MAX_INITIAL, What};
use history_merge::OpKind::{Dequeue, DequeueEmpty, Enqueue, EnqueueFailed};
use history_merge::{History, OpKind, history_from};
use std::alloc::{AllocError, Global};
use std::test::Fail;

/// An operation: its thread, and its kind. Each operation returns before the next one of a list is called.
pub(crate) type Row = (u8, OpKind);

/// The values of two threads overtake each other, but no thread's own values do. The history has a `VOrd`, but is
/// locally linearizable.
pub(crate) const OVERTAKING: &[Row] = &[
    (0, Enqueue(7)),
    (1, Enqueue(9)),
    (2, Dequeue(9)),
    (2, Dequeue(7)),
];

/// Thread 2 enqueues 7 and then 8, and thread 1 enqueues 5 and then 6. The second value of each is dequeued first.
pub(crate) const EACH_OVERTAKES: &[Row] = &[
    (0, Enqueue(1)),
    (2, Enqueue(7)),
    (2, Enqueue(8)),
    (1, Enqueue(5)),
    (1, Enqueue(6)),
    (0, Dequeue(8)),
    (0, Dequeue(6)),
    (3, Dequeue(5)),
];

/// A dequeue finds the queue empty, though 7 is in it.
pub(crate) const NOT_EMPTY: &[Row] = &[(0, Enqueue(7)), (1, DequeueEmpty)];

/// A dequeue of a value that nobody enqueued.
pub(crate) const NEVER_ENQUEUED: &[Row] = &[(0, Enqueue(7)), (1, Dequeue(9))];

/// A dequeue of a value whose enqueue failed.
pub(crate) const FAILED: &[Row] = &[(5, EnqueueFailed(7)), (1, Dequeue(7))];

/// The initial value is dequeued after one that was enqueued later.
pub(crate) const INITIAL_LAST: &[Row] = &[
    (0, Enqueue(7)),
    (1, Dequeue(7)),
    (1, Dequeue(3)),
    (1, DequeueEmpty),
];

/// The second initial value is dequeued first.
pub(crate) const INITIAL_SWAPPED: &[Row] = &[(0, Enqueue(7)), (0, Dequeue(4)), (0, Dequeue(3))];

/// Adds the call and the return of an operation, with the next two tickets.
fn push_operation(events: &mut Vec<Event>, (thread, kind): Row) -> Result<(), AllocError> {
    let (called, answered) = match kind {
        Enqueue(value) => (What::CallEnq(value), What::RetEnq),
        EnqueueFailed(value) => (What::CallEnq(value), What::RetNot),
        Dequeue(value) => (What::CallDeq, What::RetDeq(value)),
        DequeueEmpty => (What::CallDeq, What::RetEmpty),
    };
    for what in [called, answered] {
        let ticket = events.len() as u64;
        events.push(Event {
            ticket,
            thread,
            what,
        })?;
    }
    Ok(())
}

/// Returns the history of these operations, of a queue with these initial values.
pub(crate) fn history_of(alloc: Global, initial: &[u64], rows: &[Row]) -> Result<History, Fail> {
    let initial = initial.to_vec(alloc)?;
    let mut events = Vec::new(alloc);
    for row in rows {
        push_operation(&mut events, *row)?;
    }
    if initial.len() > MAX_INITIAL || events.len() > MAX_EVENTS {
        return Err("too many values or events")?;
    }
    Ok(history_from(alloc, initial, events.as_slice())?)
}
