ghost use Rattle.std.specs.Prelude.{◌≡◌, ◌≤◌};
ghost use Rattle.event_records.specs.declared.limits.TheConstants.{MAX_TICKET, ORIGIN};

use event_records::{Event, MAX_TICKET, ORIGIN, What};
use std::marker::Model;

/// The kind of an operation: its call and its result.
#[derive(Clone, Copy, Debug, PartialEq, Eq)]
pub enum OpKind {
    /// A successful enqueue of this value.
    Enqueue(u64),
    /// A dequeue of this value.
    Dequeue(u64),
    /// A dequeue that found the queue empty.
    DequeueEmpty,
    /// A failed enqueue of this value: the queue was full or out of memory.
    EnqueueFailed(u64),
}

impl OpKind {
    ghost use Rattle.history_merge.specs.Events.{answered_by, called_by};
    ghost use Rattle.history_merge.specs.Operations.{enqueued_value};

    /// Returns the value that the operation called to enqueue, successfully or not.
    #[inline(always)]
    pub fn enqueued_value(self) -> Option<u64>
        ensures { result ≡ enqueued_value self }
    {
        match self {
            OpKind::Enqueue(value) | OpKind::EnqueueFailed(value) => Some(value),
            OpKind::Dequeue(_) | OpKind::DequeueEmpty => None,
        }
    }

    /// Returns the call of an operation of this kind.
    #[inline(always)]
    pub fn called(self) -> What
        ensures { result ≡ called_by self }
    {
        match self {
            OpKind::Enqueue(value) | OpKind::EnqueueFailed(value) => What::CallEnq(value),
            OpKind::Dequeue(_) | OpKind::DequeueEmpty => What::CallDeq,
        }
    }

    /// Returns the return of an operation of this kind.
    #[inline(always)]
    pub fn answered(self) -> What
        ensures { result ≡ answered_by self }
    {
        match self {
            OpKind::Enqueue(_) => What::RetEnq,
            OpKind::EnqueueFailed(_) => What::RetNot,
            OpKind::Dequeue(value) => What::RetDeq(value),
            OpKind::DequeueEmpty => What::RetEmpty,
        }
    }
}

/// A call with its return (Herlihy and Wing 1990, section 2.1).
///
/// This is plain data: `call` is known to be below `ret` only for the operations of a history.
#[derive(Clone, Copy, Debug, PartialEq, Eq)]
pub struct Operation {
    /// The ticket of the call.
    pub call: u64,
    /// The ticket of the return.
    pub ret: u64,
    /// The number of the thread.
    pub thread: u8,
    /// The call and its result.
    pub kind: OpKind,
}

impl Operation {
    ghost use Rattle.history_merge.specs.Events.{call_event, return_event};
    ghost use Rattle.history_merge.specs.Initial.{later_by};

    /// Returns the operation at the times of its tickets, which are [`ORIGIN`] greater.
    #[inline(always)]
    pub fn timed(self) -> Operation
        requires call { self.call ≤ MAX_TICKET }
        requires ret { self.ret ≤ MAX_TICKET }
        ensures { result ≡ later_by ORIGIN self }
    {
        Operation {
            call: self.call + ORIGIN,
            ret: self.ret + ORIGIN,
            ..self
        }
    }

    /// Returns the event of its call.
    #[inline(always)]
    pub fn call_event(&self) -> Event
        ensures { result ≡ call_event self.now }
    {
        Event {
            ticket: self.call,
            thread: self.thread,
            what: self.kind.called(),
        }
    }

    /// Returns the event of its return.
    #[inline(always)]
    pub fn return_event(&self) -> Event
        ensures { result ≡ return_event self.now }
    {
        Event {
            ticket: self.ret,
            thread: self.thread,
            what: self.kind.answered(),
        }
    }
}

/// The place of an operation in the list of a history's operations, from 0, in half a word; seen as that number.
#[derive(Clone, Copy, Debug, PartialEq, Eq)]
pub struct OpId {
    place: u32,
}

impl Model for OpId {
    ghost use Rattle.std.specs.Prelude.{ℕ};

    ghost Value = { ℕ };

    ghost view = { λ a. a.place };

    ghost inverse = { λ n. record { place = n } };
}

impl OpId {
    /// Makes the name of the operation at this place.
    #[inline(always)]
    pub fn new(place: u32) -> OpId
        ensures { result ≡ place }
    {
        OpId { place }
    }

    /// Returns the place, as an index.
    #[inline(always)]
    pub fn place(self) -> usize
        ensures { result ≡ self }
    {
        self.place as usize
    }

    /// Returns the place as the half word that it is kept in.
    #[inline(always)]
    pub fn number(self) -> u32
        ensures { result ≡ self }
    {
        self.place
    }
}
