//! A walk over the events of a history.
ghost use Rattle.std.specs.Prelude.{◌≡◌, ◌≤◌, ◌++◌, ◌∷◌, List, [], OnOk};
ghost use Rattle.event_records.specs.declared.event.Event.{Event};
ghost use Rattle.event_records.specs.declared.limits.TheConstants.{MAX_THREAD, MAX_THREADS};
ghost use Rattle.completions.specs.Inner.Walk.{HasWalked};

use crate::last::{no_events, note, taken_value};
use event_records::{Event, MAX_THREAD, MAX_THREADS, What};
use std::alloc::{AllocError, Global};

/// The state of a walk: all that a completion is made from.
#[derive(Drop)]
pub(crate) struct Walk {
    /// The last event of each thread.
    pub(crate) last: [Option<Event>; MAX_THREADS],
    /// The values that dequeues gave, by their returns.
    pub(crate) given: Vec<u64>,
    /// The values of successful enqueues, by their returns.
    pub(crate) taken: Vec<u64>,
}

impl Walk {
    pub(crate) fn new(alloc: Global) -> Walk
        ensures { HasWalked [] result }
    {
        Walk {
            last: no_events(),
            given: Vec::new(alloc),
            taken: Vec::new(alloc),
        }
    }

    /// Notes one more event, unless its thread is out of range.
    #[inline(always)]
    pub(crate) fn note(&mut self, event: Event) -> Result<(), AllocError>
        ensures { OnOk result ((events : List Event) → event.thread ≤ MAX_THREAD → HasWalked events self.old
            → HasWalked (events ++ event ∷ []) self.new) }
    {
        if event.thread > MAX_THREAD {
            return Ok(());
        }
        match event.what {
            What::RetDeq(value) => self.given.push(value)?,
            What::RetEnq => match taken_value(&self.last, event) {
                Some(value) => self.taken.push(value)?,
                None => {}
            },
            _ => {}
        }
        note(&mut self.last, event);
        Ok(())
    }
}
