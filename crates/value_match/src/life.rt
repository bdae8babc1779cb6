ghost use Rattle.std.specs.Prelude.{◌≡◌, ◌≤◌, ◌↔◌, IsTrue};
ghost use Rattle.value_match.specs.declared.life.TheConstants.{NEVER};
ghost use Rattle.value_match.specs.Times.{ticket_of};
ghost use Rattle.value_match.specs.Choice.{StaysAtLeast};
ghost use Rattle.value_match.specs.Lives.{enqueue_call, enqueue_return, dequeue_call};
ghost use Rattle.value_match.specs.Lives.{dequeue_return, entered_by, leaves_from};
ghost use Rattle.value_match.specs.Fronts.{IsLongerOf};

use event_records::{MAX_TIME, ORIGIN};
use history_merge::{OpId, Operation};

/// The time of the call and the return of a dequeue that never happens: one above the greatest time.
pub const NEVER: u64 = MAX_TIME + 1;

/// Returns the ticket of a time. The enqueue of the j-th of k initial values has the ticket j - k.
pub fn ticket_of(time: u64) -> i64
    requires { time ≤ NEVER }
    ensures { result ≡ ticket_of time }
{
    time as i64 - ORIGIN as i64
}

/// The source of an enqueued value.
#[derive(Clone, Copy, Debug, PartialEq, Eq)]
pub enum Source {
    /// The successful enqueue at this place among the operations.
    Enq(OpId),
    /// The initial value at this index; the front of the queue has index 0.
    Initial(usize),
}

/// The life of a value in the queue: its successful enqueue, and its dequeue if there is one.
#[derive(Clone, Copy, Debug, PartialEq, Eq)]
pub struct Life {
    pub enqueue: Operation,
    pub dequeue: Option<Operation>,
}

impl Life {
    /// Returns the call of the value's enqueue.
    pub fn enqueue_call(&self) -> u64
        ensures { result ≡ enqueue_call self.now }
    {
        self.enqueue.call
    }

    /// Returns the return of the value's enqueue.
    pub fn enqueue_return(&self) -> u64
        ensures { result ≡ enqueue_return self.now }
    {
        self.enqueue.ret
    }

    /// Returns the call of the value's dequeue, or `NEVER`.
    pub fn dequeue_call(&self) -> u64
        ensures { result ≡ dequeue_call self.now }
    {
        self.dequeue.map_or(NEVER, |dequeue| dequeue.call)
    }

    /// Returns the return of the value's dequeue, or `NEVER`.
    pub fn dequeue_return(&self) -> u64
        ensures { result ≡ dequeue_return self.now }
    {
        self.dequeue.map_or(NEVER, |dequeue| dequeue.ret)
    }

    /// Returns the time by which the value has entered the queue: the return of its enqueue or of its dequeue,
    /// whichever is less.
    pub fn entered_by(&self) -> u64
        ensures { result ≡ entered_by self.now }
    {
        self.enqueue_return().min(self.dequeue_return())
    }

    /// Returns the time before which the value hasn't left the queue: the call of its dequeue or of its enqueue,
    /// whichever is greater.
    pub fn leaves_from(&self) -> u64
        ensures { result ≡ leaves_from self.now }
    {
        self.dequeue_call().max(self.enqueue_call())
    }

    /// Returns whether the value's dequeue is called later than the other's, or as late and its enqueue returns no
    /// later.
    pub(crate) fn stays_at_least(&self, other: &Life) -> bool
        ensures { IsTrue result ↔ StaysAtLeast self.now other.now }
    {
        let call = self.dequeue_call();
        let other_call = other.dequeue_call();
        other_call < call || (other_call == call && self.enqueue_return() <= other.enqueue_return())
    }
}

/// A life, with the source of its value and the place of its dequeue, if there is one.
#[derive(Clone, Copy, Debug, PartialEq, Eq)]
pub struct MatchedValue {
    pub life: Life,
    /// The source of the value.
    pub source: Source,
    /// The place of its dequeue among the operations, if there is one.
    pub dequeue: Option<OpId>,
}

impl MatchedValue {
    /// Returns the value that stays longer.
    pub fn longer_of(self, other: MatchedValue) -> MatchedValue
        ensures { IsLongerOf self other result }
    {
        if self.life.stays_at_least(&other.life) {
            self
        } else {
            other
        }
    }
}
