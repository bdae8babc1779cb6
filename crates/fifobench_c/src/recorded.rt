//! Events as plain structs, and their conversion.
ghost use Rattle.std.specs.Prelude.{◌≡◌, ◌≤◌, List, [], IfErr, IfOk, length};
ghost use Rattle.event_records.specs.declared.event.Event.{Event};
ghost use Rattle.history_merge.specs.Gathering.{HasGathered};
ghost use Rattle.fifobench_c.specs.Recorded.{what_of, event_of, AreEvents, IsFirstUnknown};

use event_records::{Event, MAX_EVENTS, What};
use history_merge::HistoryBuilder;
use std::alloc::Global;

/// The call of an enqueue of the value.
pub const CALL_ENQ: u32 = 1;

/// The return of a successful enqueue.
pub const RET_ENQ: u32 = 2;

/// The return of a failed enqueue.
pub const RET_NOT: u32 = 3;

/// The call of a dequeue.
pub const CALL_DEQ: u32 = 4;

/// The return of a dequeue with the value.
pub const RET_DEQ: u32 = 5;

/// The return of an empty dequeue.
pub const RET_EMPTY: u32 = 6;

/// The greatest thread that is kept apart from others. It and all threads above it are beyond the greatest of a
/// history.
pub(crate) const GREATEST_TOLD: u32 = 255;

/// An event as callers in C pass it, with any numbers.
#[repr(C)]
#[derive(Clone, Copy, Debug, PartialEq, Eq)]
pub struct RecordedEvent {
    pub ticket: u64,
    /// The value of `CALL_ENQ` and `RET_DEQ`. Other kinds ignore it.
    pub value: u64,
    pub thread: u32,
    /// One of the six kinds, as `CALL_ENQ`.
    pub what: u32,
}

impl RecordedEvent {
    /// Returns the event, if its kind is known.
    fn event(&self) -> Option<Event>
        ensures { result ≡ event_of self.now }
    {
        let what = what_in(self.what, self.value)?;
        Some(Event {
            ticket: self.ticket,
            thread: self.thread.min(GREATEST_TOLD) as u8,
            what,
        })
    }
}

/// Returns the call or the return of this kind, if the kind is known.
fn what_in(kind: u32, value: u64) -> Option<What>
    ensures { result ≡ what_of kind value }
{
    match kind {
        CALL_ENQ => Some(What::CallEnq(value)),
        RET_ENQ => Some(What::RetEnq),
        RET_NOT => Some(What::RetNot),
        CALL_DEQ => Some(What::CallDeq),
        RET_DEQ => Some(What::RetDeq(value)),
        RET_EMPTY => Some(What::RetEmpty),
        _ => None,
    }
}

/// Returns a history builder with these events of a queue that is empty at first, or the place of the first event of
/// unknown kind.
pub(crate) fn gathered(alloc: Global, structs: &[RecordedEvent]) -> Result<HistoryBuilder, usize>
    requires { length structs.now ≤ MAX_EVENTS }
    ensures events { IfOk result
        (λ builder. (events : List Event) × AreEvents structs.now events × HasGathered [] events builder) }
    ensures unknown { IfErr result (IsFirstUnknown structs.now) }
{
    let mut builder = HistoryBuilder::new(alloc, Vec::new(alloc));
    for (place, event) in structs.iter().enumerate() {
        match event.event() {
            Some(event) => builder.add(event),
            None => return Err(place),
        }
    }
    Ok(builder)
}
