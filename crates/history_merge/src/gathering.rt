//! The state of a history builder: operations, and what is needed to judge the next event.
ghost use Rattle.std.specs.Prelude.{◌≡◌, ◌||◌, ◌<◌, ◌≤◌, false, ℕ, List, [], Some, ◌∷◌, ◌++◌};
ghost use Rattle.std.specs.Prelude.{IfOk, IfSome, IsErr, IsSome, MatchResult, length, vec_len};
ghost use Rattle.event_records.specs.declared.event.Event.{Event};
ghost use Rattle.event_records.specs.declared.limits.TheConstants.{MAX_EVENTS, MAX_INITIAL};
ghost use Rattle.history_merge.specs.Clashes.{Explains, IsClash, fault_of};
ghost use Rattle.history_merge.specs.Faults.{IsFirstFault, calls_initial, repeats_value};
ghost use Rattle.history_merge.specs.Forming.{operations_so_far};
ghost use Rattle.history_merge.specs.Gathering.{HasFormed, HasGathered, IsFollowed, IsForming, Knows};
ghost use Rattle.history_merge.specs.Inner.History.{AreOfRun, IsRunOf};

use crate::called::CalledValues;
use crate::clash::{Clash, Placed, Sought, clash_of, clash_of_initial, first_event};
use crate::complete::History;
use crate::fault::HistoryFault;
use crate::forming::Forming;
use crate::timeline::Timeline;
use event_records::{Event, MAX_EVENTS};
use std::alloc::Global;

/// The initial values and the operations of the events so far, or the first fault with the events or values that
/// contradict each other there.
#[derive(Drop)]
pub(crate) struct Gathering {
    called: CalledValues,
    forming: Forming,
    count: usize,
    fault: Option<HistoryFault>,
    clash: Option<Clash>,
}

impl Gathering {
    /// Begins with these initial values and no events.
    pub(crate) fn new(alloc: Global, initial: Vec<u64>) -> Gathering
        requires { vec_len initial ≤ MAX_INITIAL }
        ensures { HasGathered initial.items [] result }
    {
        let mut called = CalledValues::new(alloc);
        let (timeline, fault, clash) = match Timeline::new(alloc, initial) {
            Ok(timeline) => {
                let fault = called.note_initial(&timeline).err();
                let clash = clash_of_initial(fault, timeline.initial());
                (timeline, fault, clash)
            }
            Err(_) => (Timeline::none(alloc), Some(HistoryFault::Memory), None),
        };
        Gathering {
            called,
            forming: Forming::new(timeline),
            count: 0,
            fault,
            clash,
        }
    }

    /// Adds an event. A fault, also out of memory or of room, is kept.
    #[inline(always)]
    pub(crate) fn add(&mut self, event: Event)
        requires { (initial : List ℕ) × (events : List Event) × HasGathered initial events self.old }
        ensures added { (initial : List ℕ) (events : List Event) → HasGathered initial events self.old
            → length events < MAX_EVENTS
            → HasGathered initial (events ++ event ∷ []) self.new }
        ensures full { (initial : List ℕ) (events : List Event) → HasGathered initial events self.old
            → length events ≡ MAX_EVENTS
            → HasGathered initial events self.new × IsSome self.new.fault }
    {
        if self.fault.is_some() {
            return;
        }
        if self.count == MAX_EVENTS {
            self.fault = Some(HistoryFault::Memory);
            return;
        }
        if let Err(fault) = self.follow(event) {
            // Copied, so that `event` stays in registers.
            let refused = event;
            self.keep(fault, refused);
        }
    }

    /// Judges an event that comes after events without a fault, and adds it if it has none.
    #[inline(always)]
    fn follow(&mut self, event: Event) -> Result<(), HistoryFault>
        ensures followed { (initial : List ℕ) (events : List Event) → IsForming initial events self.old
            → length events < MAX_EVENTS
            → IsFollowed initial events event result self.new }
        ensures kept { (self.new.fault ≡ self.old.fault) × (self.new.clash ≡ self.old.clash) }
    {
        let operations = self.forming.timeline().all();
        let repeats = self.called.note(event.what, operations)?;
        self.forming.take(event, self.count, repeats)?;
        self.count = self.count.wrapping_add(1);
        Ok(())
    }

    /// Keeps the fault of an event, and the earlier event or value that it contradicts. Takes O(n) time.
    #[inline(never)]
    fn keep(&mut self, fault: HistoryFault, event: Event)
        requires { AreOfRun self.old.forming.timeline.operations }
        ensures clash { (events : List Event) → HasFormed events self.old.forming
            → IsRunOf events self.old.forming.timeline.operations
            → length events < MAX_EVENTS → self.old.count ≡ length events
            → IfSome self.new.clash (Explains self.old.forming.timeline.initial (events ++ event ∷ []) (Some fault)) }
        ensures fault { self.new.fault ≡ Some fault }
        ensures forming { self.new.forming ≡ self.old.forming }
    {
        let placed = Placed {
            place: self.count,
            event,
        };
        self.clash = match clash_of(fault, placed, &self.forming) {
            Some(found) if found.fault() == fault => Some(found),
            _ => None,
        };
        self.fault = Some(fault);
    }

    /// Returns the events or values that contradict each other at the first fault. Takes O(n) time if there is one.
    pub(crate) fn clash(&self) -> Option<Clash>
        requires { (initial : List ℕ) × (events : List Event) × HasGathered initial events self.now }
        ensures clash { (initial : List ℕ) (events : List Event) → HasGathered initial events self.now
            → IfSome result (IsClash initial events) }
        ensures fault { (initial : List ℕ) (events : List Event) → HasGathered initial events self.now
            → IfSome result (λ clash. IsFirstFault initial events (fault_of clash)) }
    {
        if self.fault.is_some() {
            return self.clash;
        }
        let call = self.forming.least_pending()?;
        let placed = first_event(&self.forming, Sought::Whole(call))?;
        Some(Clash::Pending(placed))
    }

    /// Returns the history of the initial values and the events if it is complete, otherwise the first fault.
    pub(crate) fn finish(self) -> Result<History, HistoryFault>
        requires { (initial : List ℕ) × (events : List Event) × HasGathered initial events self }
        ensures outcome { (initial : List ℕ) (events : List Event) → HasGathered initial events self
            → MatchResult result (λ whole. (whole.initial ≡ initial) × (whole.events ≡ events))
            (IsFirstFault initial events) }
        ensures kept { IsSome self.fault → IsErr result }
    {
        let Gathering {
            called: _called,
            forming,
            count: _count,
            fault,
            clash: _clash,
        } = self;
        if let Some(fault) = fault {
            return Err(fault);
        }
        if let Some(call) = forming.least_pending() {
            return Err(HistoryFault::Pending(call.ticket));
        }
        Ok(History::new(forming.into_timeline()))
    }
}
