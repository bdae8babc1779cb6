//! Counts of events and of operations.
ghost use Rattle.std.specs.Prelude.{◌≡◌, ◌<◌, ◌≤◌, ℕ, All, count_by, false, length, nat_eq, not, slice_index_or};
ghost use Rattle.std.specs.List.{zip};
ghost use Rattle.event_records.specs.declared.limits.TheConstants.{MAX_THREAD, MAX_THREADS};
ghost use Rattle.history_stats.specs.Counts.{change_count, has_event, is_dequeued, is_empty};
ghost use Rattle.history_stats.specs.Counts.{is_enqueued, is_failed_enqueue, kind_count, thread_count};

use event_records::{Event, MAX_THREADS};
use history_merge::{OpKind, Operations};

/// Counts the threads that have an event.
pub(crate) fn thread_count(events: &[Event]) -> usize
    requires { All (λ e. e.thread ≤ MAX_THREAD) events.now }
    ensures { result ≡ thread_count events.now }
{
    count_set(&threads_in(events))
}

/// Returns for each possible thread whether it has an event.
fn threads_in(events: &[Event]) -> [bool; MAX_THREADS]
    requires { All (λ e. e.thread ≤ MAX_THREAD) events.now }
    ensures marks { (thread : ℕ) → thread < MAX_THREADS
        → slice_index_or result thread false ≡ has_event events.now thread }
    ensures each { length result ≡ MAX_THREADS }
{
    let mut seen = [false; MAX_THREADS];
    for event in events {
        seen[usize::from(event.thread)] = true;
    }
    seen
}

/// Counts the marks that are set.
fn count_set(marks: &[bool; MAX_THREADS]) -> usize
    ensures { result ≡ count_by (λ mark. mark) marks.now }
{
    marks.iter().filter(|mark| **mark).count()
}

/// Counts the events that are of another thread than the event before.
pub(crate) fn change_count(events: &[Event]) -> usize
    ensures { result ≡ change_count events.now }
{
    match events {
        [] => 0,
        [_, later @ ..] => change_count_with(events, later),
    }
}

/// Counts the events that are of another thread than the one at the same place of the second list.
fn change_count_with(events: &[Event], later: &[Event]) -> usize
    ensures { result ≡ count_by (λ pair. not (nat_eq pair.0.thread pair.1.thread)) (zip events.now later.now) }
{
    events
        .iter()
        .zip(later)
        .filter(|(before, event)| before.thread != event.thread)
        .count()
}

/// Counts the successful enqueues.
pub(crate) fn enqueued_count(operations: &Operations<'_>) -> usize
    ensures { result ≡ kind_count is_enqueued operations.now }
{
    operations
        .iter()
        .filter(|operation| is_enqueued(operation.kind))
        .count()
}

/// Counts the failed enqueues.
pub(crate) fn failed_enqueue_count(operations: &Operations<'_>) -> usize
    ensures { result ≡ kind_count is_failed_enqueue operations.now }
{
    operations
        .iter()
        .filter(|operation| is_failed_enqueue(operation.kind))
        .count()
}

/// Counts the dequeues that got a value.
pub(crate) fn dequeued_count(operations: &Operations<'_>) -> usize
    ensures { result ≡ kind_count is_dequeued operations.now }
{
    operations
        .iter()
        .filter(|operation| is_dequeued(operation.kind))
        .count()
}

/// Counts the dequeues that found the queue empty.
pub(crate) fn empty_count(operations: &Operations<'_>) -> usize
    ensures { result ≡ kind_count is_empty operations.now }
{
    operations
        .iter()
        .filter(|operation| is_empty(operation.kind))
        .count()
}

fn is_enqueued(kind: OpKind) -> bool
    ensures { result ≡ is_enqueued kind }
{
    matches!(kind, OpKind::Enqueue(_))
}

pub(crate) fn is_failed_enqueue(kind: OpKind) -> bool
    ensures { result ≡ is_failed_enqueue kind }
{
    matches!(kind, OpKind::EnqueueFailed(_))
}

fn is_dequeued(kind: OpKind) -> bool
    ensures { result ≡ is_dequeued kind }
{
    matches!(kind, OpKind::Dequeue(_))
}

fn is_empty(kind: OpKind) -> bool
    ensures { result ≡ is_empty kind }
{
    matches!(kind, OpKind::DequeueEmpty)
}
