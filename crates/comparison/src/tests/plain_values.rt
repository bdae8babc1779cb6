//! The enqueued values at their times, found by a scan of all operations for the dequeue of each.

use event_records::ORIGIN;
use history_merge::{OpId, OpKind, Operation, Operations};
use std::alloc::{AllocError, Global};
use value_match::{Life, MatchedValue, Matching, Source};

/// Returns the time of a ticket.
pub(crate) fn time_of(ticket: u64) -> u64 {
    ticket.saturating_add(ORIGIN)
}

/// Returns the operation at its times.
fn timed(operation: Operation) -> Operation {
    Operation {
        call: time_of(operation.call),
        ret: time_of(operation.ret),
        ..operation
    }
}

/// Returns the enqueue of an initial value that has `left` initial values from it on, itself included.
fn initial_enqueue(left: usize, value: u64) -> Operation {
    let time = ORIGIN.saturating_sub(left as u64);
    Operation {
        call: time,
        ret: time,
        thread: 0,
        kind: OpKind::Enqueue(value),
    }
}

/// Returns the value with this enqueue.
fn plain_value(
    operations: &Operations,
    source: Source,
    enqueue: Operation,
    value: u64,
) -> MatchedValue {
    let mut plain = MatchedValue {
        life: Life {
            enqueue,
            dequeue: None,
        },
        source,
        dequeue: None,
    };
    for (place, operation) in (0..u32::MAX).zip(operations.iter()) {
        if operation.kind == OpKind::Dequeue(value) {
            plain.life.dequeue = Some(timed(operation));
            plain.dequeue = Some(OpId::new(place));
        }
    }
    plain
}

/// Returns the initial values, and then those that are enqueued.
pub(crate) fn plain_values(
    alloc: Global,
    matching: &Matching,
) -> Result<Vec<MatchedValue>, AllocError> {
    let (initial, operations) = (matching.initial(), matching.operations());
    let mut values = Vec::new(alloc);
    for (place, value) in initial.iter().enumerate() {
        let enqueue = initial_enqueue(initial.len().saturating_sub(place), *value);
        values.push(plain_value(&operations, Source::Initial(place), enqueue, *value))?;
    }
    for (place, operation) in (0..u32::MAX).zip(operations.iter()) {
        if let OpKind::Enqueue(value) = operation.kind {
            let source = Source::Enq(OpId::new(place));
            values.push(plain_value(&operations, source, timed(operation), value))?;
        }
    }
    Ok(values)
}
