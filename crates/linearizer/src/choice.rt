ghost use Rattle.std.specs.Prelude.{◌≡◌, ◌<◌, ◌≤◌, ◌↔◌, All, IfOk, IsTrue, Some, length, slice_get};
ghost use Rattle.value_match.specs.declared.life.MatchedValue.{MatchedValue};
ghost use Rattle.value_match.specs.declared.life.TheConstants.{NEVER};
ghost use Rattle.value_match.specs.Lives.{dequeue_call, dequeue_return, enqueue_call, entered_by};
ghost use Rattle.linearizer.specs.declared.timed.TheConstants.{PLACES};
ghost use Rattle.linearizer.specs.Inner.Sweep.{IsDequeuedAt, TakesOneOf};
ghost use Rattle.linearizer.specs.Inner.Swept.{IsSweepOf};

use crate::by_time::by_time;
use crate::timed::{PackedTimed, Timed, first_left};
use std::alloc::{AllocError, Global};
use value_match::{MatchedValue, NEVER, Values};

/// The result of a sweep over the values.
#[derive(Drop)]
pub(crate) enum Swept {
    /// The places of the values in their chosen order, each with the gap of its enqueue.
    InOrder(Vec<PackedTimed>),
    /// A value forced to come next by its dequeue, although its enqueue is called after another remaining value has
    /// entered.
    PassedOver(MatchedValue),
}

/// Puts the values in their chosen order: each value is the choice among itself and those after it.
///
/// Two lists hold the values, one sorted by the time of entry, the other by the return of the dequeue. All values
/// before a list's cursor are taken, so the value at the cursor is the first that remains.
///
/// `room` is the capacity of the returned order.
pub(crate) fn put_in_order(alloc: Global, values: &Values, room: usize) -> Result<Swept, AllocError>
    requires few { length values.now ≤ PLACES }
    requires entries { All (λ value. entered_by value.life < NEVER) values.now }
    requires dequeues { All (λ value. dequeue_return value.life ≤ NEVER) values.now }
    requires takes_time { All (λ value. dequeue_call value.life ≤ dequeue_return value.life) values.now }
    requires in_time { All (λ value. enqueue_call value.life ≤ entered_by value.life) values.now }
    ensures { IfOk result (IsSweepOf values.now) }
{
    let mut order = Vec::with_capacity(alloc, room)?;
    let by_time = by_time(alloc, values)?;
    let mut taken = vec![in alloc; false; values.len()]?;
    let entries = by_time.entries.as_slice();
    let dequeues = by_time.dequeues.as_slice();
    let mut first_in = 0;
    let mut first_out = 0;
    while order.len() < values.len() {
        first_in = first_left(entries, &taken, first_in);
        first_out = first_left(dequeues, &taken, first_out);
        let entry = entries[first_in].unpack();
        let next = choice(values, entry, dequeued_at(dequeues, first_out, entry.place));
        if is_late(values, next, entry) {
            return Ok(Swept::PassedOver(values.get(next)));
        }
        taken[next] = true;
        order.push(PackedTimed::new(Timed {
            time: entry.time.saturating_sub(1),
            place: next,
        }))?;
    }
    Ok(Swept::InOrder(order))
}

/// Returns the dequeue at index `at`. Past the end of the list, any value will do: none of those that remain is
/// dequeued.
fn dequeued_at(dequeues: &[PackedTimed], at: usize, place: usize) -> Timed
    ensures { IsDequeuedAt dequeues.now at place result }
{
    match dequeues.get(at) {
        Some(dequeue) => dequeue.unpack(),
        None => Timed { time: NEVER, place },
    }
}

/// Returns the place of the choice, given the first-entered and the first-dequeued of the values that remain.
fn choice(values: &Values, first_in: Timed, first_out: Timed) -> usize
    requires { first_in.place < length values.now }
    ensures { TakesOneOf values.now first_in first_out result }
{
    if first_out.time < values.get(first_in.place).life.leaves_from() {
        return first_out.place;
    }
    first_in.place
}

/// Returns whether the enqueue of the value at `next` is called only after `first_in` has entered. `first_in` itself
/// is never late.
fn is_late(values: &Values, next: usize, first_in: Timed) -> bool
    requires next { next < length values.now }
    requires in_time { (m : MatchedValue) → slice_get values.now first_in.place ≡ Some m
        → enqueue_call m.life ≤ first_in.time }
    ensures { (m : MatchedValue) → slice_get values.now next ≡ Some m
        → IsTrue result ↔ (first_in.time < enqueue_call m.life) }
{
    next != first_in.place && first_in.time < values.get(next).life.enqueue_call()
}
