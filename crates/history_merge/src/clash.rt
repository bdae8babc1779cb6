//! Events and values that contradict each other, which a message about a fault names.
ghost use Rattle.std.specs.Prelude.{◌≡◌, ◌≤◌, ◌∷◌, ◌++◌, [], ℕ, List, IfSome, IsTrue, ◌↔◌, length, slice_get};
ghost use Rattle.event_records.specs.declared.event.Event.{Event};
ghost use Rattle.event_records.specs.declared.limits.TheConstants.{MAX_EVENTS};
ghost use Rattle.history_merge.specs.Clashes.{IsClash, fault_of};
ghost use Rattle.history_merge.specs.Gathering.{HasFormed};
ghost use Rattle.history_merge.specs.Inner.Clashes.{IsFirstSought, IsSought};
ghost use Rattle.history_merge.specs.Inner.History.{AreOfRun, IsRunOf};

use crate::called::called_value;
use crate::events::Events;
use crate::fault::HistoryFault;
use crate::forming::Forming;
use crate::matching::kind_of;
use event_records::Event;

/// An event, and its place among all, from 0.
#[derive(Clone, Copy, Debug, PartialEq, Eq)]
pub struct Placed {
    pub place: usize,
    pub event: Event,
}

/// Events or values that contradict each other.
#[derive(Clone, Copy, Debug, PartialEq, Eq)]
pub enum Clash {
    /// The ticket of the second event isn't above that of the first, the event before it.
    Tickets(Placed, Placed),
    /// The second event is a call of a thread whose call, the first event, is still pending.
    Calls(Placed, Placed),
    /// The second event is a return, and not of the kind of the first event, the pending call of its thread.
    Return(Placed, Placed),
    /// Both events call to enqueue the same value, and no event before the first does.
    Values(Placed, Placed),
    /// The event calls to enqueue the initial value at this place.
    Initial(usize, Placed),
    /// The initial values at these two places both equal this value.
    Twice(u64, usize, usize),
    /// The call of this event has no return.
    Pending(Placed),
}

impl Clash {
    /// Returns the fault that this explains.
    pub fn fault(&self) -> HistoryFault
        ensures { result ≡ fault_of self.now }
    {
        match self {
            Clash::Tickets(_, later) => HistoryFault::TicketOrder(later.place),
            Clash::Calls(_, later) => HistoryFault::CallWhilePending(later.place),
            Clash::Return(_, later) => HistoryFault::WrongReturn(later.place),
            Clash::Values(_, later) | Clash::Initial(_, later) => {
                HistoryFault::DuplicateValue(later.place)
            }
            Clash::Twice(_, _, later) => HistoryFault::InitialTwice(*later),
            Clash::Pending(call) => HistoryFault::Pending(call.event.ticket),
        }
    }
}

/// A property by which an event is searched for.
#[derive(Clone, Copy)]
pub(crate) enum Sought {
    Place(usize),
    Ticket(u64),
    Value(u64),
    Whole(Event),
}

impl Sought {
    fn is_met_by(self, placed: &Placed) -> bool
        ensures { IsTrue result ↔ IsSought self placed.now }
    {
        match self {
            Sought::Place(place) => placed.place == place,
            Sought::Ticket(ticket) => placed.event.ticket == ticket,
            Sought::Value(value) => called_value(placed.event.what) == Some(value),
            Sought::Whole(event) => placed.event == event,
        }
    }
}

/// Returns the first event with the property.
#[tactic(auto, using(crate::proofs::Faults::searched_more))]
fn first_of(events: Events<'_>, sought: Sought) -> Option<Placed>
    ensures { length events.entry ≤ MAX_EVENTS → IfSome result (IsFirstSought events.entry sought) }
{
    let mut place: usize = 0;
    for event in events {
        let placed = Placed { place, event };
        if sought.is_met_by(&placed) {
            return Some(placed);
        }
        place = place.saturating_add(1);
    }
    None
}

/// Returns the first event of these operations with the property. Takes O(n) time.
pub(crate) fn first_event(forming: &Forming, sought: Sought) -> Option<Placed>
    requires { AreOfRun forming.now.timeline.operations }
    ensures { (events : List Event) → IsRunOf events forming.now.timeline.operations → length events ≤ MAX_EVENTS
        → IfSome result (IsFirstSought events sought) }
{
    first_of(forming.events(), sought)
}

/// Returns the earlier event or initial value that an event with this fault contradicts. Takes O(n) time.
#[tactic(auto, using(crate::proofs::Faults::standing))]
#[inline(never)]
pub(crate) fn clash_of(fault: HistoryFault, later: Placed, forming: &Forming) -> Option<Clash>
    requires { AreOfRun forming.now.timeline.operations }
    ensures { (events : List Event) → HasFormed events forming.now → IsRunOf events forming.now.timeline.operations
        → length events ≤ MAX_EVENTS
        → later.place ≡ length events
        → IfSome result (IsClash forming.now.timeline.initial (events ++ later.event ∷ [])) }
{
    match fault {
        HistoryFault::TicketOrder(_) => {
            let before = first_event(forming, Sought::Place(later.place.checked_sub(1)?))?;
            let is_above = later.event.ticket > before.event.ticket;
            (!is_above).then_some(Clash::Tickets(before, later))
        }
        HistoryFault::CallWhilePending(_) => {
            let call = forming.call_of(later.event.thread)?;
            let earlier = first_event(forming, Sought::Whole(call))?;
            Some(Clash::Calls(earlier, later))
        }
        HistoryFault::WrongReturn(_) => {
            let call = forming.call_of(later.event.thread)?;
            let earlier = first_event(forming, Sought::Whole(call))?;
            let is_none = kind_of(earlier.event.what, later.event.what).is_none();
            is_none.then_some(Clash::Return(earlier, later))
        }
        HistoryFault::DuplicateValue(_) => {
            let value = called_value(later.event.what)?;
            if let Some(place) = first_place(forming.timeline().initial(), value) {
                return Some(Clash::Initial(place, later));
            }
            let earlier = first_event(forming, Sought::Value(value))?;
            Some(Clash::Values(earlier, later))
        }
        _ => None,
    }
}

/// Returns the place of the first of the values that equals this one.
fn first_place(values: &[u64], value: u64) -> Option<usize>
    ensures { IfSome result (λ place. slice_get values.now place ≡ Some value) }
{
    for (place, other) in values.iter().enumerate() {
        if *other == value {
            return Some(place);
        }
    }
    None
}

/// Returns the initial values that contradict each other, if this is their fault. Takes O(k) time for k values.
pub(crate) fn clash_of_initial(fault: Option<HistoryFault>, initial: &[u64]) -> Option<Clash>
    ensures clash { (events : List Event) → IfSome result (IsClash initial.now events) }
    ensures fault { IfSome result (λ clash. fault ≡ Some (fault_of clash)) }
{
    let Some(HistoryFault::InitialTwice(later)) = fault else {
        return None;
    };
    let value = *initial.get(later)?;
    let earlier = first_place(initial, value)?;
    if earlier < later {
        Some(Clash::Twice(value, earlier, later))
    } else {
        None
    }
}
