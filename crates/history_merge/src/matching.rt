ghost use Rattle.std.specs.Prelude.{◌≡◌, ℕ, length, slice_index_or};
ghost use Rattle.event_records.specs.Turns.{is_call};
ghost use Rattle.event_records.specs.declared.limits.TheConstants.{MAX_THREADS};
ghost use Rattle.history_merge.specs.Operations.{kind_of};

use crate::operation::OpKind;
use event_records::{Event, MAX_THREADS, What};

/// Returns no event for any thread.
pub(crate) fn no_events() -> [Option<Event>; MAX_THREADS]
    ensures none { (thread : ℕ) → slice_index_or result thread None ≡ None }
    ensures length { length result ≡ MAX_THREADS }
{
    [None; MAX_THREADS]
}

/// Returns whether this is a call.
pub(crate) fn is_call(what: What) -> bool
    ensures { result ≡ is_call what }
{
    matches!(what, What::CallEnq(_) | What::CallDeq)
}

/// Returns the kind of the operation with this call and this return, if the return is of the call's kind.
pub(crate) fn kind_of(call: What, answer: What) -> Option<OpKind>
    ensures { result ≡ kind_of call answer }
{
    match (call, answer) {
        (What::CallEnq(value), What::RetEnq) => Some(OpKind::Enqueue(value)),
        (What::CallEnq(value), What::RetNot) => Some(OpKind::EnqueueFailed(value)),
        (What::CallDeq, What::RetDeq(value)) => Some(OpKind::Dequeue(value)),
        (What::CallDeq, What::RetEmpty) => Some(OpKind::DequeueEmpty),
        _ => None,
    }
}
