ghost use Rattle.std.specs.Prelude.{◌≡◌, ◌≤◌, IfOk, length, vec_len};
ghost use Rattle.event_records.specs.declared.limits.TheConstants.{MAX_EVENTS, MAX_INITIAL};
ghost use Rattle.history_merge.specs.Initial.{IsCompleteFrom};
ghost use Rattle.history_merge.specs.Operations.{operations_of};
ghost use Rattle.verdicts.specs.Selection.{ArePartOf, HasShortestCover, IsMinimal};
ghost use Rattle.verdicts.specs.Selection.{KeepsViolation, StaysChosen, contents_of};
ghost use Rattle.value_match.specs.Outcome.{IsChosenViolation};

use crate::selection::Selection;
use claims::violation_lines;
use event_records::Event;
use history_merge::{History, history_from};
use std::alloc::{AllocError, Global};
use value_match::Violation;

/// Returns the history of the chosen violation alone: the initial values and all operations of the values that it
/// names, and its empty dequeue, with their tickets and threads.
///
/// The violation is the one that `decide` returns for this history. What `decide` returns for the small history has
/// the same claim. Without any one of its values, or without its empty dequeue, the small history is linearizable. It
/// need not be the smallest such part of the history, since another violation may show fewer operations; but no cover
/// of the empty dequeue has fewer values.
///
/// Takes O(n log n) time for n initial values and operations. Beside the result it takes memory for a copy of the
/// violation's lines, and for the sets of the values and tickets that are kept. The only error is out of memory.
///
/// The `history` enqueues 5, and dequeues 7, which was never enqueued:
///
/// ```rust
/// let Verdict::No(violation) = decide(alloc, &history)? else {
///     return Err(Fail::from("linearizable"));
/// };
/// let small = shrink(alloc, &history, &violation)?;
/// assert_eq!(rt; small.operations().len(), 1);
/// ```
pub fn shrink(
    alloc: Global,
    history: &History,
    violation: &Violation,
) -> Result<History, AllocError>
    requires { IsChosenViolation history.now.initial (operations_of history.now.events) violation.now }
    ensures kept { IfOk result (λ small. KeepsViolation history.now violation.now small) }
    ensures same_violation { IfOk result (λ small. StaysChosen history.now violation.now small) }
    ensures minimal { IfOk result (λ small. IsMinimal (contents_of small)) }
    ensures shortest { IfOk result (λ _. HasShortestCover history.now violation.now) }
    ensures initial { IfOk result (λ small. ArePartOf history.now.initial small.initial) }
    ensures events { IfOk result (λ small. ArePartOf history.now.events small.events) }
    ensures complete { IfOk result (λ small. IsCompleteFrom small.initial small.events) }
{
    let lines = violation_lines(alloc, history, violation)?;
    let selection = Selection::named_by(alloc, lines.as_slice())?;
    let initial = selection.initial(alloc, history.initial())?;
    let events = selection.events(alloc, history)?;
    history_of(alloc, initial, events.as_slice())
}

/// Makes a history of initial values and events that are known to be complete.
fn history_of(alloc: Global, initial: Vec<u64>, events: &[Event]) -> Result<History, AllocError>
    requires few_initial { vec_len initial ≤ MAX_INITIAL }
    requires few_events { length events.now ≤ MAX_EVENTS }
    requires complete { IsCompleteFrom initial.items events.now }
    ensures { IfOk result (λ whole. (whole.initial ≡ initial.items) × (whole.events ≡ events.now)) }
{
    // Memory is the only reason why a complete history is rejected.
    history_from(alloc, initial, events).map_err(|_| AllocError)
}
