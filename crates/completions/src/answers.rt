//! The answers to pending calls.
ghost use Rattle.std.specs.Prelude.{◌≡◌, ◌++◌, List, [], IfOk, OnOk, filter, filter_map, true};
ghost use Rattle.event_records.specs.declared.event.Event.{Event};
ghost use Rattle.completions.specs.Completed.{answers_to, calls_dequeue, enqueue_answer};
ghost use Rattle.completions.specs.Completed.{is_answered, paired, pending_calls, taken_values};
ghost use Rattle.completions.specs.Inner.Walk.{AreGiven};

use crate::given::is_given;
use crate::left::left_values;
use event_records::{Event, What};
use std::alloc::{AllocError, Global};

/// A pending call, and its answer.
#[derive(Clone, Copy, Debug)]
pub struct Answer {
    pub call: Event,
    pub what: What,
}

/// Returns the answer to a pending enqueue whose value a dequeue gave; none for any other call.
fn enqueue_answer(call: Event, given: &[u64]) -> Option<Answer>
    ensures { (events : List Event) → AreGiven events given.now → result ≡ enqueue_answer events call }
{
    match call.what {
        What::CallEnq(value) if is_given(given, value) => Some(Answer {
            call,
            what: What::RetEnq,
        }),
        _ => None,
    }
}

/// Returns the answers to pending enqueues.
pub(crate) fn enqueue_answers(
    alloc: Global,
    calls: &[Event],
    given: &[u64],
) -> Result<Vec<Answer>, AllocError>
    ensures { IfOk result (λ answers. (events : List Event) → AreGiven events given.now
        → answers.items ≡ filter_map (enqueue_answer events) calls.now) }
{
    let mut answers = Vec::new(alloc);
    for call in calls {
        match enqueue_answer(*call, given) {
            Some(answer) => answers.push(answer)?,
            None => {}
        }
    }
    Ok(answers)
}

/// Returns the pending dequeues, in their order.
pub(crate) fn dequeue_calls(alloc: Global, calls: &[Event]) -> Result<Vec<Event>, AllocError>
    ensures { IfOk result (λ dequeues. dequeues.items ≡ filter calls_dequeue calls.now) }
{
    let mut dequeues = Vec::new(alloc);
    for call in calls {
        if call.what == What::CallDeq {
            dequeues.push(*call)?;
        }
    }
    Ok(dequeues)
}

/// Adds the answers to these dequeues, which give these values in their order, as long as there are values.
pub(crate) fn push_dequeue_answers(
    answers: &mut Vec<Answer>,
    calls: &[Event],
    values: &[u64],
) -> Result<(), AllocError>
    ensures { OnOk result (answers.new.items ≡ answers.old.items ++ paired calls.now values.now) }
{
    let count = calls.len().min(values.len());
    for place in 0..count {
        answers.push(Answer {
            call: calls[place],
            what: What::RetDeq(values[place]),
        })?;
    }
    Ok(())
}

/// Returns whether one of these answers is to this call.
pub(crate) fn is_answered(answers: &[Answer], call: Event) -> bool
    ensures { result ≡ is_answered answers.now call }
{
    answers
        .iter()
        .any(|answer| answer.call.ticket == call.ticket)
}

/// Returns the answers to the pending calls. `values` are the initial values, `given` the values that dequeues gave,
/// sorted, and `taken` those of successful enqueues.
pub(crate) fn answers_to(
    alloc: Global,
    values: &[u64],
    given: &[u64],
    taken: &[u64],
    calls: &[Event],
) -> Result<Vec<Answer>, AllocError>
    ensures { IfOk result
        (λ answers. (events : List Event) → AreGiven events given.now → taken.now ≡ taken_values [] events
        → calls.now ≡ pending_calls events → answers.items ≡ answers_to values.now events) }
{
    let left = left_values(alloc, values, taken, given)?;
    let dequeues = dequeue_calls(alloc, calls)?;
    let mut answers = enqueue_answers(alloc, calls, given)?;
    push_dequeue_answers(&mut answers, dequeues.as_slice(), left.as_slice())?;
    Ok(answers)
}
