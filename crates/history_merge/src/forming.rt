//! The operations of the events so far, while more may come.
ghost use Rattle.std.specs.Prelude.{◌≡◌, ◌≤◌, ◌<◌, ◌||◌, true, false, ℕ, List, []};
ghost use Rattle.std.specs.Prelude.{◌∷◌, ◌++◌, MatchOption, OnErr, OnOk, length};
ghost use Rattle.event_records.specs.declared.event.Event.{Event};
ghost use Rattle.event_records.specs.Turns.{is_call};
ghost use Rattle.history_merge.specs.Faults.{breaks_ticket_order, calls_initial, pending_call, repeats_value};
ghost use Rattle.history_merge.specs.Forming as judged;
ghost use Rattle.history_merge.specs.Forming.{operations_so_far};
ghost use Rattle.history_merge.specs.Inner.Forming.{IsLeastPendingCall, NothingPending};
ghost use Rattle.history_merge.specs.Inner.History.{AreOfRun, IsRunOf};
ghost use Rattle.history_merge.specs.Gathering.{HasFormed, IsTaken};

use crate::events::Events;
use crate::fault::HistoryFault;
use crate::matching::{is_call, kind_of};
use crate::operation::{OpKind, Operation};
use crate::timeline::Timeline;
use event_records::{Event, MAX_THREAD, MAX_THREADS, MAX_TICKET, What};

/// The operations of the events so far, in the order of their calls, with what is needed to judge the next event.
#[derive(Drop)]
pub(crate) struct Forming {
    timeline: Timeline,
    // One above the last ticket: the least ticket that the next event may have.
    least_ticket: u64,
    // The place of each thread's pending call.
    pending: [Option<u32>; MAX_THREADS],
}

impl Forming {
    /// Begins with a timeline without operations.
    pub(crate) fn new(timeline: Timeline) -> Forming
        requires { timeline.operations ≡ [] }
        ensures formed { HasFormed [] result }
        ensures initial { result.timeline.initial ≡ timeline.initial }
    {
        Forming {
            timeline,
            least_ticket: 0,
            pending: [None; MAX_THREADS],
        }
    }

    /// Returns the initial values and the operations. A pending operation has the return 0, and counts as a
    /// successful enqueue or as an empty dequeue.
    #[inline(always)]
    pub(crate) fn timeline(&self) -> &Timeline
        ensures { result.now ≡ self.now.timeline }
    {
        &self.timeline
    }

    /// Returns the events so far.
    #[tactic(auto, using(crate::proofs::TheirEvents::told_of_run))]
    pub(crate) fn events(&self) -> Events<'_>
        requires { AreOfRun self.now.timeline.operations }
        ensures { (events : List Event) → IsRunOf events self.now.timeline.operations → result ≡ events }
    {
        Events::new(self.timeline.operations())
    }

    pub(crate) fn into_timeline(self) -> Timeline
        ensures { result ≡ self.timeline }
    {
        let Forming {
            timeline,
            least_ticket: _least_ticket,
            pending: _pending,
        } = self;
        timeline
    }

    /// Adds the event at this place, unless it has a fault. `repeats` is whether it calls to enqueue a value that an
    /// earlier event called to enqueue, or an initial value.
    #[inline(always)]
    pub(crate) fn take(
        &mut self,
        event: Event,
        place: usize,
        repeats: bool,
    ) -> Result<(), HistoryFault>
        ensures taken { (initial : List ℕ) (events : List Event) → HasFormed events self.old
            → repeats ≡ (repeats_value events event || calls_initial initial event)
            → IsTaken initial events event place result self.new }
        ensures initial { self.new.timeline.initial ≡ self.old.timeline.initial }
    {
        if self.breaks_order(event.ticket) {
            return Err(HistoryFault::TicketOrder(place));
        }
        if event.thread > MAX_THREAD {
            return Err(HistoryFault::BadThread(place));
        }
        if is_call(event.what) {
            self.call(event, place, repeats)
        } else {
            self.answer(event, place)
        }
    }

    /// Returns whether the ticket is out of range, or not above the last one.
    #[inline(always)]
    fn breaks_order(&self, ticket: u64) -> bool
        ensures order { (events : List Event) (e : Event) → HasFormed events self.now → e.ticket ≡ ticket
            → result ≡ breaks_ticket_order events e }
        ensures in_range { result ≡ false → ticket ≤ MAX_TICKET }
    {
        ticket > MAX_TICKET || ticket < self.least_ticket
    }

    /// Adds a call whose ticket is above the last one.
    #[inline(always)]
    fn call(&mut self, event: Event, place: usize, repeats: bool) -> Result<(), HistoryFault>
        requires thread { event.thread ≤ MAX_THREAD }
        requires ticket { event.ticket ≤ MAX_TICKET }
        ensures taken { (initial : List ℕ) (events : List Event) → HasFormed events self.old
            → breaks_ticket_order events event ≡ false
            → is_call event.what ≡ true → repeats ≡ (repeats_value events event || calls_initial initial event)
            → IsTaken initial events event place result self.new }
        ensures initial { self.new.timeline.initial ≡ self.old.timeline.initial }
    {
        let thread = usize::from(event.thread);
        if self.pending[thread].is_some() {
            return Err(HistoryFault::CallWhilePending(place));
        }
        if repeats {
            return Err(HistoryFault::DuplicateValue(place));
        }
        let added = self.timeline.len();
        // Memory has no room for more operations than a place can name.
        if added > u32::MAX as usize {
            return Err(HistoryFault::Memory);
        }
        self.timeline.push(begun(event))?;
        self.pending[thread] = Some(added as u32);
        self.least_ticket = event.ticket + 1;
        Ok(())
    }

    /// Adds a return whose ticket is above the last one. It completes the operation of its thread's pending call.
    #[tactic(auto, using(crate::proofs::Formed::wrong_return, std::proofs::lemmas::Option::slice_get_within))]
    #[inline(always)]
    fn answer(&mut self, event: Event, place: usize) -> Result<(), HistoryFault>
        requires thread { event.thread ≤ MAX_THREAD }
        requires ticket { event.ticket ≤ MAX_TICKET }
        ensures taken { (initial : List ℕ) (events : List Event) → HasFormed events self.old
            → breaks_ticket_order events event ≡ false
            → is_call event.what ≡ false → IsTaken initial events event place result self.new }
        ensures initial { self.new.timeline.initial ≡ self.old.timeline.initial }
    {
        let thread = usize::from(event.thread);
        let Some(called) = self.pending[thread] else {
            return Err(HistoryFault::ReturnWithoutCall(place));
        };
        let called = called as usize;
        let Some(operation) = self.timeline.get(called) else {
            return Err(HistoryFault::ReturnWithoutCall(place));
        };
        let Some(kind) = kind_of(operation.kind.called(), event.what) else {
            return Err(HistoryFault::WrongReturn(place));
        };
        self.timeline.complete(called, event.ticket, kind);
        self.pending[thread] = None;
        self.least_ticket = event.ticket + 1;
        Ok(())
    }

    /// Returns the pending call of this thread.
    pub(crate) fn call_of(&self, thread: u8) -> Option<Event>
        ensures { (events : List Event) → HasFormed events self.now → result ≡ pending_call thread events }
    {
        if thread > MAX_THREAD {
            return None;
        }
        let place = self.pending[usize::from(thread)]?;
        let operation = self.timeline.get(place as usize)?;
        Some(operation.call_event())
    }

    /// Returns the pending call with the least ticket.
    #[tactic(auto, using(crate::proofs::Turns::least_pending))]
    pub(crate) fn least_pending(&self) -> Option<Event>
        ensures { (events : List Event) → HasFormed events self.now
            → MatchOption result (NothingPending events) (IsLeastPendingCall events) }
    {
        let mut least: Option<Event> = None;
        for thread in 0..=MAX_THREAD {
            if let Some(call) = self.call_of(thread)
                && least.is_none_or(|other| call.ticket < other.ticket)
            {
                least = Some(call);
            }
        }
        least
    }
}

/// Returns the operation of a call while it is pending.
#[inline(always)]
fn begun(call: Event) -> Operation
    ensures { result ≡ judged.operation_so_far call None }
{
    Operation {
        call: call.ticket,
        ret: 0,
        thread: call.thread,
        kind: match call.what {
            What::CallEnq(value) => OpKind::Enqueue(value),
            _ => OpKind::DequeueEmpty,
        },
    }
}
