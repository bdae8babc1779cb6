//! The history of the operations of a `YES`.
ghost use Rattle.std.specs.Prelude.{◌≡◌, ◌≤◌, IfOk, IsPermutation, MatchOption, length};
ghost use Rattle.std.specs.List.Sorted.{IsNonDecreasingBy};
ghost use Rattle.history_merge.specs.Initial.{HistoryView};
ghost use Rattle.drawing.specs.declared.columns.TheConstants.{MOST_DRAWN};
ghost use Rattle.commands.specs.Operations.{IsHistoryOfOperations, dequeued_value, enqueues, events_of_operations};
ghost use Rattle.commands.specs.Operations.{is_enqueued, values_before};

use event_records::Event;
use history_merge::{History, HistoryFault, OpKind, Operation, history_from};
use std::alloc::{AllocError, Global};

/// Returns whether an operation of this kind enqueues this value.
fn enqueues(value: u64, kind: OpKind) -> bool
    ensures { result ≡ enqueues value kind }
{
    match kind {
        OpKind::Enqueue(other) => other == value,
        _ => false,
    }
}

/// Returns whether one of the operations enqueues this value.
fn is_enqueued(operations: &[Operation], value: u64) -> bool
    ensures { result ≡ is_enqueued operations.now value }
{
    operations.iter().any(|o| enqueues(value, o.kind))
}

/// Returns the value that an operation of this kind dequeues.
fn dequeued_value(kind: OpKind) -> Option<u64>
    ensures { result ≡ dequeued_value kind }
{
    match kind {
        OpKind::Dequeue(value) => Some(value),
        _ => None,
    }
}

/// Returns the values that the operations dequeue and none of them enqueues, in their order.
fn values_before(alloc: Global, operations: &[Operation]) -> Result<Vec<u64>, AllocError>
    ensures { IfOk result (λ values. values.items ≡ values_before operations.now) }
{
    operations
        .iter()
        .filter_map(|o| dequeued_value(o.kind))
        .filter(|value| !is_enqueued(operations, *value))
        .collect(alloc)
}

/// Returns the call and the return of each operation, in the order of the operations.
fn events_of_operations(alloc: Global, operations: &[Operation]) -> Result<Vec<Event>, AllocError>
    ensures { IfOk result (λ events. events.items ≡ events_of_operations operations.now) }
{
    let mut events = Vec::new(alloc);
    for operation in operations {
        let both = [operation.call_event(), operation.return_event()];
        events.extend_from_slice(&both)?;
    }
    Ok(events)
}

/// Returns these events by ticket.
fn by_ticket(events: Vec<Event>) -> Result<Vec<Event>, AllocError>
    ensures moved { IfOk result (λ sorted. IsPermutation events.items sorted.items) }
    ensures sorted { IfOk result (λ sorted. IsNonDecreasingBy (λ e. e.ticket) sorted.items) }
{
    let mut sorted = events;
    sorted.sort_by_key(|event| event.ticket)?;
    Ok(sorted)
}

/// Returns the complete history of just these operations, of a queue that held the values at first that they dequeue
/// and do not enqueue; or none if there is no such history. Takes O(n²) time for n operations.
pub(crate) fn history_of_operations(
    alloc: Global,
    operations: &[Operation],
) -> Result<Option<History>, AllocError>
    requires { length operations.now ≤ MOST_DRAWN }
    ensures { IfOk result (λ found.
        MatchOption found ((history : HistoryView) → ¬ IsHistoryOfOperations operations.now history)
        (IsHistoryOfOperations operations.now)) }
{
    let initial = values_before(alloc, operations)?;
    let events = by_ticket(events_of_operations(alloc, operations)?)?;
    match history_from(alloc, initial, &events) {
        Ok(history) => Ok(Some(history)),
        Err(fault) if fault == HistoryFault::Memory => Err(AllocError),
        Err(_) => Ok(None),
    }
}
