//! The last event of each thread, in a walk over the events.
ghost use Rattle.std.specs.Prelude.{◌≡◌, ◌≤◌, ◌<◌, ◌++◌, ◌∷◌, List, [], length};
ghost use Rattle.event_records.specs.Turns.{is_call};
ghost use Rattle.event_records.specs.declared.event.Event.{Event};
ghost use Rattle.event_records.specs.declared.limits.TheConstants.{MAX_THREAD, MAX_THREADS};
ghost use Rattle.history_merge.specs.Faults.{pending_call};
ghost use Rattle.completions.specs.Completed.{taken_value};
ghost use Rattle.completions.specs.Inner.Walk.{AreLast};

use event_records::{Event, MAX_THREADS, What};

/// Returns whether this is a call.
pub(crate) fn is_call(what: What) -> bool
    ensures { result ≡ is_call what }
{
    matches!(what, What::CallEnq(_) | What::CallDeq)
}

/// Returns no event for any thread.
pub(crate) fn no_events() -> [Option<Event>; MAX_THREADS]
    ensures { AreLast [] result }
{
    [None; MAX_THREADS]
}

/// Notes one more event.
#[inline(always)]
pub(crate) fn note(last: &mut [Option<Event>], event: Event)
    requires thread { event.thread ≤ MAX_THREAD }
    requires sized { length last.old ≡ MAX_THREADS }
    ensures { (events : List Event) → AreLast events last.old → AreLast (events ++ event ∷ []) last.new }
{
    last[usize::from(event.thread)] = Some(event);
}

/// Returns the pending call of the thread, if it has one.
#[inline(always)]
pub(crate) fn pending_of(last: &[Option<Event>], thread: u8) -> Option<Event>
    requires thread { thread ≤ MAX_THREAD }
    requires sized { length last.now ≡ MAX_THREADS }
    ensures { (events : List Event) → AreLast events last.now → result ≡ pending_call thread events }
{
    let event = last[usize::from(thread)]?;
    if is_call(event.what) {
        Some(event)
    } else {
        None
    }
}

/// Returns the value of a successful enqueue if the event is its return.
#[inline(always)]
pub(crate) fn taken_value(last: &[Option<Event>], event: Event) -> Option<u64>
    requires thread { event.thread ≤ MAX_THREAD }
    requires sized { length last.now ≡ MAX_THREADS }
    ensures { (before : List Event) → AreLast before last.now → result ≡ taken_value before event }
{
    if event.what != What::RetEnq {
        return None;
    }
    match pending_of(last, event.thread)?.what {
        What::CallEnq(value) => Some(value),
        _ => None,
    }
}
