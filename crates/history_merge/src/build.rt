ghost use Rattle.std.specs.Prelude.{◌≤◌, ◌≡◌, [], MatchResult, IfOk, IfErr, length, vec_len};
ghost use Rattle.event_records.specs.declared.limits.TheConstants.{MAX_EVENTS, MAX_INITIAL};
ghost use Rattle.history_merge.specs.Complete.{IsCompleteHistory};
ghost use Rattle.history_merge.specs.Faults.{IsFirstFault};
ghost use Rattle.history_merge.specs.Initial.{IsCompleteFrom};

use crate::builder::HistoryBuilder;
use crate::complete::History;
use crate::fault::HistoryFault;
use event_records::{Event, MAX_EVENTS, MAX_INITIAL};
use std::alloc::Global;

/// Makes the complete history of these events (Herlihy and Wing 1990) of a queue that is empty at first, or returns
/// their first fault.
///
/// The events are judged one by one. The first faulty event decides, and of its faults the one that [`HistoryFault`]
/// lists first. If no event has a fault, `Pending` names the least call ticket without a return. `Memory` comes if
/// memory runs out, and then says nothing about the events.
///
/// The history takes 20 bytes for each operation. Takes O(n) time for n events whose values have a recorder's names,
/// otherwise O(n log n) and memory for a set of the other values.
///
/// An enqueue of 7 is a history of one operation:
///
/// ```rust
/// let call = Event {
///     ticket: 0,
///     thread: 0,
///     what: What::CallEnq(7),
/// };
/// let ret = Event {
///     ticket: 1,
///     thread: 0,
///     what: What::RetEnq,
/// };
/// let recorded = history(alloc, &[call, ret])?;
/// assert_eq!(rt; recorded.operations().len(), 1);
/// ```
pub fn history(alloc: Global, events: &[Event]) -> Result<History, HistoryFault>
    requires { length events.now ≤ MAX_EVENTS }
    ensures outcome { MatchResult result (λ h. h.events ≡ events.now) (IsFirstFault [] events.now) }
    ensures initial { IfOk result (λ h. h.initial ≡ []) }
    ensures complete { IfOk result (λ h. IsCompleteHistory h.events) }
    ensures refused { IfErr result (λ fault. IsCompleteHistory events.now → fault ≡ HistoryFault.Memory) }
{
    history_from(alloc, Vec::new(alloc), events)
}

/// Makes the complete history of these events (Herlihy and Wing 1990) of a queue that holds the initial values at
/// first, front first; or returns the first fault.
///
/// The initial values are judged first: `InitialTwice` names the first that equals an earlier one. Then the events
/// are judged as by [`history`], but a call to enqueue an initial value has the fault `DuplicateValue` too. `Memory`
/// comes if memory runs out, and then says nothing about the values and the events.
///
/// Each initial value takes 28 bytes. The time is that of [`history`], and O(k) more for k initial values that rise
/// and whose upper halves name no thread, as a recorder's do; otherwise O(k log k), and memory for a set of them.
///
/// The queue holds 7 at first, and `events` dequeue it:
///
/// ```rust
/// let recorded = history_from(alloc, vec![in alloc; 7]?, &events)?;
/// assert_eq!(rt; recorded.initial(), [7].as_slice());
/// assert_eq!(rt; recorded.operations().len(), 1);
/// ```
#[tactic(auto, using(std::proofs::lemmas::List::take_all))]
pub fn history_from(
    alloc: Global,
    initial: Vec<u64>,
    events: &[Event],
) -> Result<History, HistoryFault>
    requires few_initial { vec_len initial ≤ MAX_INITIAL }
    requires few_events { length events.now ≤ MAX_EVENTS }
    ensures outcome { MatchResult result (λ h. (h.initial ≡ initial.items) × (h.events ≡ events.now))
        (IsFirstFault initial.items events.now) }
    ensures complete { IfOk result (λ h. IsCompleteFrom h.initial h.events) }
    ensures refused { IfErr result (λ fault. IsCompleteFrom initial.items events.now → fault ≡ HistoryFault.Memory) }
{
    let mut builder = HistoryBuilder::new(alloc, initial);
    for event in events {
        builder.add(*event);
    }
    builder.finish()
}
