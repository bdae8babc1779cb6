ghost use Rattle.std.specs.Prelude.{◌≡◌, ◌∷◌, List, MatchOption, false, length, true};
ghost use Rattle.std.specs.Iterator.{YieldsFirst, item_count};
ghost use Rattle.history_merge.specs.Events.{events_of, maybe_return};
ghost use Rattle.history_merge.specs.Inner.History.{AreOfRun, IsFirstDue, comes_by_ticket};

use crate::matching::no_events;
use crate::operation::Operation;
use crate::operations::Operations;
use event_records::{Event, MAX_THREADS};
use std::iter::{ExactSizeIterator, FusedIterator};
use std::marker::Model;

/// An iterator over the events of a history in rising order of tickets, seen as the list of those that are left.
///
/// It restores them from the operations one by one, without taking memory. Each step looks at the due return of each
/// thread.
#[derive(Debug, Drop)]
pub struct Events<'a> {
    // The operations whose calls are left.
    by_call: Operations<'a>,
    // For each thread the return that comes before its next call.
    due: [Option<Event>; MAX_THREADS],
    // The threads from this number on have no return due.
    threads: usize,
    // The number of events that are left.
    left: usize,
}

impl<'a> Model for Events<'a> {
    ghost use Rattle.std.specs.Prelude.{◌≡◌, ◌≤◌, ℕ, List, None, length, slice_index_or};
    ghost use Rattle.event_records.specs.declared.event.Event.{Event};
    ghost use Rattle.event_records.specs.declared.limits.TheConstants.{MAX_THREADS};
    ghost use Rattle.history_merge.specs.Events.{events_of, put_each};
    ghost use Rattle.history_merge.specs.Inner.History.{AreLeft};

    ghost Value = { List Event };

    ghost view = { λ it. put_each it.due (events_of it.by_call) };

    ghost invariant = { λ it. (AreLeft (put_each it.due (events_of it.by_call)) it.by_call it.due)
        × (it.threads ≤ MAX_THREADS)
        × ((thread : ℕ) → it.threads ≤ thread → slice_index_or it.due thread None ≡ None)
        × (it.left ≡ length (put_each it.due (events_of it.by_call))) };
}

impl<'a> Events<'a> {
    /// Makes the iterator of operations in the order of their calls, some of which may be pending. Takes O(n) time.
    #[tactic(auto, using(crate::proofs::TheirEvents::put_none, crate::proofs::TheirEvents::left_as_told, crate::proofs::TheirEvents::all_left))]
    pub(crate) fn new(operations: Operations<'a>) -> Events<'a>
        requires { AreOfRun operations }
        ensures { result ≡ events_of operations.entry }
    {
        let left = event_count(&operations);
        Events {
            by_call: operations,
            due: no_events(),
            threads: 0,
            left,
        }
    }
}

impl<'a> Iterator for Events<'a> {
    type Item = Event;

    ghost next_gives = { YieldsFirst (λ rest. rest) };

    ghost remaining = { item_count (λ rest. rest) };

    fn next(&mut self) -> Option<Event> {
        let due = first_due(&self.due[..self.threads]);
        if let Some((operation, by_call)) = call_before(&self.by_call, due) {
            let thread = usize::from(operation.thread);
            self.by_call = by_call;
            self.due[thread] = maybe_return(operation);
            self.threads = self.threads.max(thread + 1);
            self.left -= 1;
            return Some(operation.call_event());
        }
        let event = due?;
        self.due[usize::from(event.thread)] = None;
        self.left -= 1;
        Some(event)
    }

    fn size_hint(&self) -> (usize, Option<usize>) {
        (self.left, Some(self.left))
    }
}

impl<'a> ExactSizeIterator for Events<'a> {
    fn len(&self) -> usize {
        self.left
    }
}

impl<'a> FusedIterator for Events<'a> {}

/// Returns the number of events of these operations.
fn event_count(operations: &Operations<'_>) -> usize
    ensures { result ≡ length (events_of operations.now) }
{
    let mut count = operations.len();
    for operation in operations.iter() {
        if operation.ret != 0 {
            count += 1;
        }
    }
    count
}

/// Returns the return of the operation, or none while it is pending.
#[inline(always)]
fn maybe_return(operation: Operation) -> Option<Event>
    ensures { result ≡ maybe_return operation }
{
    if operation.ret == 0 {
        None
    } else {
        Some(operation.return_event())
    }
}

/// Returns the due return with the least ticket.
#[inline(always)]
fn first_due(due: &[Option<Event>]) -> Option<Event>
    ensures { IsFirstDue due.now (length due.now) result }
{
    let mut first: Option<Event> = None;
    for event in due {
        if let Some(event) = event
            && first.is_none_or(|first| event.ticket < first.ticket)
        {
            first = Some(*event);
        }
    }
    first
}

/// Returns the first operation and those after it, unless the due return comes before its call.
#[inline(always)]
fn call_before<'a>(
    by_call: &Operations<'a>,
    due: Option<Event>,
) -> Option<(Operation, Operations<'a>)>
    ensures { MatchOption result
        ((o : Operation) (rest : List Operation) → by_call.now ≡ o ∷ rest → comes_by_ticket due o.call ≡ true)
        (λ found. (by_call.now ≡ found.0 ∷ found.1) × (comes_by_ticket due found.0.call ≡ false)) }
{
    let mut others = by_call.iter();
    let operation = others.next()?;
    if due.is_some_and(|due| due.ticket <= operation.call) {
        return None;
    }
    Some((operation, others))
}
