//! The pending calls of a history.
ghost use Rattle.std.specs.Prelude.{◌≡◌, ◌≤◌, ℕ, List, All, IfOk, false, length, take};
ghost use Rattle.event_records.specs.declared.event.Event.{Event};
ghost use Rattle.event_records.specs.declared.limits.TheConstants.{MAX_THREAD, MAX_THREADS};
ghost use Rattle.completions.specs.Completed.{is_pending, pending_calls};
ghost use Rattle.completions.specs.Inner.Walk.{AreLast};
ghost use Rattle.completions.specs.Pending.{IsHistoryFrom, IsPendingCall};

use crate::last::is_call;
use event_records::Event;
use packed_events::PackedEvent;
use std::alloc::{AllocError, Global};

/// Returns whether the event is a pending call: the last event of its thread, and a call.
#[inline(always)]
pub(crate) fn is_pending(last: &[Option<Event>], event: Event) -> bool
    requires thread { event.thread ≤ MAX_THREAD }
    requires sized { length last.now ≡ MAX_THREADS }
    ensures { (events : List Event) → AreLast events last.now → result ≡ is_pending events event }
{
    is_call(event.what)
        && match last[usize::from(event.thread)] {
            Some(own) => own.ticket == event.ticket,
            None => false,
        }
}

/// Returns the least ticket of a pending call, or the greatest number if no call is pending.
fn least_pending(last: &[Option<Event>]) -> u64
    ensures { (events : List Event) → AreLast events last.now → (call : Event) → call.thread ≤ MAX_THREAD
        → IsPendingCall events call
        → result ≤ call.ticket }
{
    let mut least = u64::MAX;
    for event in last {
        if let Some(event) = event
            && is_call(event.what)
        {
            least = least.min(event.ticket);
        }
    }
    least
}

/// Returns a place before which no call is pending. Looks only at the events from there on.
pub(crate) fn first_pending(events: &[PackedEvent], last: &[Option<Event>]) -> usize
    requires last { AreLast events.now last.now }
    ensures before { (initial : List ℕ) → IsHistoryFrom initial events.now
        → All (λ e. is_pending events.now e ≡ false) (take result events.now) }
    ensures within { result ≤ length events.now }
{
    let least = least_pending(last);
    let mut from = events.len();
    while from > 0 && events[from - 1].unpack().ticket >= least {
        from -= 1;
    }
    from
}

/// Returns the pending calls, in their order. No call before place `from` is pending.
pub(crate) fn pending_calls(
    alloc: Global,
    events: &[PackedEvent],
    last: &[Option<Event>],
    from: usize,
) -> Result<Vec<Event>, AllocError>
    requires threads { All (λ e. e.thread ≤ MAX_THREAD) events.now }
    requires last { AreLast events.now last.now }
    requires before { All (λ e. is_pending events.now e ≡ false) (take from events.now) }
    requires within { from ≤ length events.now }
    ensures { IfOk result (λ calls. calls.items ≡ pending_calls events.now) }
{
    let mut calls = Vec::new(alloc);
    for place in from..events.len() {
        let event = events[place].unpack();
        if is_pending(last, event) {
            calls.push(event)?;
        }
    }
    Ok(calls)
}
