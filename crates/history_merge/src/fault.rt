ghost use Rattle.std.specs.Prelude.{◌≡◌, ◌≤◌, length};
ghost use Rattle.history_merge.specs.declared.fault.HistoryFault.TheVariants.{Memory};
ghost use Rattle.history_merge.specs.Names.{name_of, place_in};

use std::alloc::AllocError;
use std::error::Error;
use std::fmt;

/// The reason why initial values and events aren't a complete history. Places count from 0.
///
/// If one event has several faults, the one that is listed first here is returned.
#[derive(Clone, Copy, Debug, PartialEq, Eq)]
pub enum HistoryFault {
    /// The ticket of the event at this place isn't above that of the event before it, or is above `MAX_TICKET`.
    TicketOrder(usize),
    /// The thread of the event at this place is above `MAX_THREAD`.
    BadThread(usize),
    /// The event at this place is a call, but the thread's last event was a call too.
    CallWhilePending(usize),
    /// The event at this place is a return, but its thread has no pending call.
    ReturnWithoutCall(usize),
    /// The event at this place is a return, but not of the kind of its thread's call.
    WrongReturn(usize),
    /// The event at this place calls to enqueue an initial value, or a value that an earlier event called to enqueue.
    DuplicateValue(usize),
    /// No event has a fault, but the call of this ticket has no return, and each call before it has one.
    Pending(u64),
    /// Memory ran out.
    Memory,
    /// The initial value at this place equals an earlier one. This is checked before the events.
    InitialTwice(usize),
}

impl fmt::Display for HistoryFault {
    fn fmt<W: fmt::Write>(&self, f: &mut fmt::Formatter<W>) -> fmt::Result {
        f.write_str(self.name())?;
        match self.place() {
            Some(place) => write!(f, " {place}"),
            None => Ok(()),
        }
    }
}

impl Error for HistoryFault {}

impl From<AllocError> for HistoryFault {
    ghost from_gives = { λ _ fault. fault ≡ Memory };

    fn from(_refused: AllocError) -> HistoryFault {
        HistoryFault::Memory
    }
}

impl HistoryFault {
    /// Returns the name of the fault, which is printed before its place or ticket.
    pub fn name(self) -> &'static str
        ensures name { result.now ≡ name_of self }
        ensures short { length result.now ≤ 20 }
    {
        match self {
            HistoryFault::TicketOrder(_) => "TicketOrder",
            HistoryFault::BadThread(_) => "BadThread",
            HistoryFault::CallWhilePending(_) => "CallWhilePending",
            HistoryFault::ReturnWithoutCall(_) => "ReturnWithoutCall",
            HistoryFault::WrongReturn(_) => "WrongReturn",
            HistoryFault::DuplicateValue(_) => "DuplicateValue",
            HistoryFault::Pending(_) => "Pending",
            HistoryFault::Memory => "Memory",
            HistoryFault::InitialTwice(_) => "InitialTwice",
        }
    }

    /// Returns the place of the faulty event or initial value, or the ticket of the call without a return.
    pub fn place(self) -> Option<u64>
        ensures { result ≡ place_in self }
    {
        match self {
            HistoryFault::TicketOrder(place)
            | HistoryFault::BadThread(place)
            | HistoryFault::CallWhilePending(place)
            | HistoryFault::ReturnWithoutCall(place)
            | HistoryFault::WrongReturn(place)
            | HistoryFault::DuplicateValue(place)
            | HistoryFault::InitialTwice(place) => Some(place as u64),
            HistoryFault::Pending(ticket) => Some(ticket),
            HistoryFault::Memory => None,
        }
    }
}
