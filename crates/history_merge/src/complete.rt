ghost use Rattle.std.specs.Prelude.{◌≡◌, ◌+◌, ◌++◌, ◌≤◌, List, length, map};
ghost use Rattle.event_records.specs.declared.event.Event.{Event};
ghost use Rattle.event_records.specs.declared.limits.TheConstants.{MAX_EVENTS, MAX_INITIAL, ORIGIN};
ghost use Rattle.history_merge.specs.Complete.{AreComplete, IsCompleteHistory};
ghost use Rattle.history_merge.specs.Initial.{IsCompleteFrom, initial_enqueues, later_by};
ghost use Rattle.history_merge.specs.Inner.Forming.{IsFormedOf};
ghost use Rattle.history_merge.specs.Operations.{operations_of};

use crate::events::Events;
use crate::operations::Operations;
use crate::packed::PackedOperation;
use crate::timeline::Timeline;
use event_records::{MAX_EVENTS, MAX_INITIAL};
use std::marker::Model;

/// A complete history of distinct values (Herlihy and Wing 1990, section 2.1), seen as its initial values and the
/// list of its events.
///
/// Each value of this type is complete: tickets rise, each thread's calls and returns alternate, each call has a
/// return, no two calls enqueue one value, and the initial values are distinct and enqueued by no call.
///
/// It keeps the initial values and the operations by time, from which it restores operations and events. This takes
/// 20 bytes for each operation, and 28 for each initial value.
#[derive(Debug, Drop)]
pub struct History {
    timeline: Timeline,
}

impl Model for History {
    ghost use Rattle.history_merge.specs.Initial.{HistoryView};
    ghost use Rattle.history_merge.specs.Events.{events_of};
    ghost use Rattle.history_merge.specs.Inner.History.{IsKept};

    ghost Value = { HistoryView };

    ghost view = { λ a. record { initial = a.timeline.initial; events = events_of a.timeline.operations } };

    ghost invariant = { λ a. IsKept a.timeline.initial a.timeline.operations };
}

impl History {
    /// Makes the history of this timeline.
    #[tactic(auto, using(crate::proofs::Formed::kept_of_formed))]
    pub(crate) fn new(timeline: Timeline) -> History
        requires formed { (events : List Event) × IsFormedOf events timeline.operations
            × IsCompleteFrom timeline.initial events
            × (length events ≤ MAX_EVENTS) }
        ensures initial { result.initial ≡ timeline.initial }
        ensures events { (events : List Event) → IsFormedOf events timeline.operations → result.events ≡ events }
    {
        History { timeline }
    }

    /// Returns the timeline of the history.
    pub(crate) fn timeline(&self) -> &Timeline
        ensures initial { result.now.initial ≡ self.now.initial }
        ensures operations { result.now.operations ≡ operations_of self.now.events }
        ensures complete { IsCompleteHistory self.now.events }
    {
        &self.timeline
    }

    /// Returns the initial values, which the queue holds before the first event, front first.
    pub fn initial(&self) -> &[u64]
        ensures initial { result.now ≡ self.now.initial }
        ensures complete { IsCompleteFrom self.now.initial self.now.events }
        ensures few { length self.now.initial ≤ MAX_INITIAL }
    {
        self.timeline.initial()
    }

    /// Returns the events in rising order of tickets. They are counted, in O(n) time, and restored from the
    /// operations one by one, without taking memory.
    pub fn events(&self) -> Events<'_>
        ensures events { result ≡ self.now.events }
        ensures complete { IsCompleteHistory self.now.events }
        ensures from { IsCompleteFrom self.now.initial self.now.events }
        ensures few { length self.now.events ≤ MAX_EVENTS }
    {
        Events::new(self.operations())
    }

    /// Returns the operations in the order of their calls. The index of an operation in this list is its
    /// [`crate::OpId`].
    #[tactic(auto, using(crate::proofs::Distinct::few_operations))]
    pub fn operations(&self) -> Operations<'_>
        ensures operations { result ≡ operations_of self.now.events }
        ensures complete { IsCompleteHistory self.now.events }
        ensures from { IsCompleteFrom self.now.initial self.now.events }
        ensures few { length result ≤ MAX_EVENTS }
        ensures few_events { length self.now.events ≤ MAX_EVENTS }
    {
        self.timeline.operations()
    }

    /// Returns the timeline: the enqueues of the initial values, and then the operations at the times of their
    /// tickets. The enqueue of an initial value is called and returns at one time, the last of them just before the
    /// time of ticket 0.
    ///
    /// This is for passes over both, and takes no memory.
    pub fn by_time(&self) -> &[PackedOperation]
        ensures by_time { result.now ≡ initial_enqueues self.now.initial
            ++ map (later_by ORIGIN) (operations_of self.now.events) }
        ensures complete { AreComplete result.now }
        ensures from { IsCompleteFrom self.now.initial self.now.events }
        ensures few { length result.now ≤ MAX_EVENTS + MAX_INITIAL }
    {
        self.timeline.all()
    }
}
