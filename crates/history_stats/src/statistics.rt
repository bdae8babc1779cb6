ghost use Rattle.std.specs.Prelude.{◌≡◌, IfOk};
ghost use Rattle.history_merge.specs.Complete.{IsCompleteHistory};
ghost use Rattle.history_stats.specs.Statistics.{AreStatisticsOf};

use crate::counting::{
    change_count, dequeued_count, empty_count, enqueued_count, failed_enqueue_count, thread_count,
};
use crate::failed_enqueues::refused_at;
use crate::overlapping::{overlapping_count, tenths_of_percent};
use crate::overtaking::{greatest_count, overtakings_of};
use crate::pending::most_pending;
use crate::queued::most_queued;
use event_records::Event;
use history_merge::History;
use std::alloc::{AllocError, Global};

/// The statistics of a history.
#[derive(Clone, Copy)]
pub struct Statistics {
    /// The number of events.
    pub events: usize,
    /// The number of operations.
    pub operations: usize,
    /// The number of threads that have an event.
    pub threads: usize,
    /// The number of successful enqueues.
    pub enqueued: usize,
    /// The number of failed enqueues, printed as `refused`.
    pub refused: usize,
    /// The number of dequeues that got a value.
    pub dequeued: usize,
    /// The number of dequeues that found the queue empty.
    pub empty: usize,
    /// The number of values that the queue holds before the first event.
    pub initial: usize,
    /// The number of events that are of another thread than the event before.
    pub thread_changes: usize,
    /// The number of operations that overlap another one.
    pub overlapping: usize,
    /// The share of these operations in tenths of a percent, rounded down; 0 without operations.
    pub overlapping_tenths: usize,
    /// The maximum number of operations pending at once.
    pub most_pending: usize,
    /// The maximum number of values that were definitely in the queue at once.
    pub most_queued: usize,
    /// The number of dequeues that certainly overtook a value: one that was enqueued before theirs, and dequeued
    /// after it or never.
    pub overtakes: usize,
    /// The maximum number of values that one dequeue certainly overtook.
    pub overtaken_at_most: usize,
    /// The minimum, over the failed enqueues, of the maximum number of values that may have been in the queue at once
    /// during the call; none if no enqueue failed.
    pub refused_at: Option<usize>,
}

/// Returns the events of a history in a list of their own.
fn listed_events(alloc: Global, history: &History) -> Result<Vec<Event>, AllocError>
    ensures listed { IfOk result (λ events. events.items ≡ history.now.events) }
    ensures complete { IsCompleteHistory history.now.events }
{
    history.events().collect(alloc)
}

/// Computes the statistics of a history.
///
/// The only error is out of memory. Takes O(n log n) time for n events and initial values, and memory in proportion
/// to them.
pub fn statistics_of(alloc: Global, history: &History) -> Result<Statistics, AllocError>
    ensures { IfOk result (AreStatisticsOf history.now) }
{
    let events = listed_events(alloc, history)?;
    let operations = history.operations();
    let initial = history.initial();
    let most_pending = most_pending(alloc, &operations)?;
    let most_queued = most_queued(alloc, initial, &operations)?;
    let refused_at = refused_at(alloc, initial, &operations)?;
    let overtakings = overtakings_of(alloc, history)?;
    let overlapping = overlapping_count(&operations);
    Ok(Statistics {
        events: events.len(),
        operations: operations.len(),
        threads: thread_count(events.as_slice()),
        enqueued: enqueued_count(&operations),
        refused: failed_enqueue_count(&operations),
        dequeued: dequeued_count(&operations),
        empty: empty_count(&operations),
        initial: initial.len(),
        thread_changes: change_count(events.as_slice()),
        overlapping,
        overlapping_tenths: tenths_of_percent(overlapping, operations.len()),
        most_pending,
        most_queued,
        overtakes: overtakings.len(),
        overtaken_at_most: greatest_count(overtakings.as_slice()),
        refused_at,
    })
}
