//! Small histories.
ghost use Rattle.std.specs.Prelude.{◌≡◌, [], IfOk};

use event_records::{Event, MAX_EVENTS, What};
use history_merge::{History, HistoryFault, OpKind, Operation, history};
use std::alloc::{AllocError, Global};
use std::test::Fail;

/// Returns an operation of this thread, with the tickets of its call and its return.
pub(crate) fn by(thread: u8, kind: OpKind, call: u64, ret: u64) -> Operation {
    Operation {
        call,
        ret,
        thread,
        kind,
    }
}

/// Returns the call and the return of an operation.
fn events_of(operation: &Operation) -> [Event; 2] {
    let (called, answered) = match operation.kind {
        OpKind::Enqueue(value) => (What::CallEnq(value), What::RetEnq),
        OpKind::EnqueueFailed(value) => (What::CallEnq(value), What::RetNot),
        OpKind::Dequeue(value) => (What::CallDeq, What::RetDeq(value)),
        OpKind::DequeueEmpty => (What::CallDeq, What::RetEmpty),
    };
    let at = |ticket: u64, what: What| Event {
        ticket,
        thread: operation.thread,
        what,
    };
    [at(operation.call, called), at(operation.ret, answered)]
}

/// Returns the history of these operations, or none if memory runs out.
fn history_or_none(
    alloc: Global,
    operations: &[Operation],
) -> Result<Result<History, HistoryFault>, AllocError>
    ensures { IfOk result (λ judged. IfOk judged (λ history. history.initial ≡ [])) }
{
    let mut events = Vec::new(alloc);
    for operation in operations {
        events.extend_from_slice(&events_of(operation))?;
    }
    events.sort_by_key(|event| event.ticket)?;
    if events.len() > MAX_EVENTS {
        return Err(AllocError);
    }
    match history(alloc, &events) {
        Err(HistoryFault::Memory) => Err(AllocError),
        judged => Ok(judged),
    }
}

/// Returns the history of these operations.
pub(crate) fn history_of(alloc: Global, operations: &[Operation]) -> Result<History, Fail>
    ensures { IfOk result (λ history. history.initial ≡ []) }
{
    let judged = match history_or_none(alloc, operations) {
        Ok(judged) => judged,
        Err(_) => history_or_none(alloc, operations)?,
    };
    Ok(judged?)
}
