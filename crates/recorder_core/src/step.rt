ghost use Rattle.std.specs.Prelude.{◌≡◌, ◌≤◌, length};
ghost use Rattle.recorder_core.specs.Names.{name_of};

use event_records::Answer;
use std::error::Error;
use std::fmt;

/// One atomic step of one thread, whose number comes first.
#[derive(Clone, Copy, Debug, PartialEq, Eq)]
pub enum Step {
    /// Draws a ticket and begins an enqueue; its call event is held. The value is `thread * 2^32 + n`, where `n`
    /// counts all operations of the thread from 0.
    AskEnq(u8),
    /// Draws a ticket and begins a dequeue; its call event is held.
    AskDeq(u8),
    /// Appends the held event to the ring.
    Push(u8),
    /// Applies the pending operation to the machine's queue, which gives its answer.
    Effect(u8),
    /// Gives the pending operation this answer, and leaves the machine's queue.
    Say(u8, Answer),
    /// Draws a ticket and ends the pending operation; its return event is held.
    Ret(u8),
    /// Collects the first events of the ring, at most this many.
    Drain(u8, u32),
    /// Closes the thread.
    Close(u8),
}

/// The result of an accepted step.
#[derive(Clone, Copy, Debug, PartialEq, Eq)]
pub enum Done {
    /// An ask or a return drew this ticket.
    Ticket(u64),
    /// The held event was pushed.
    Pushed,
    /// The pending operation has this answer.
    Answered(Answer),
    /// This many events were collected.
    Drained(u32),
    /// The thread was closed.
    Closed,
}

/// The reason why a step is refused. If several apply, it is the one that comes first here.
#[derive(Clone, Copy, Debug, PartialEq, Eq)]
pub enum StepRefused {
    /// The machine has no thread of this number.
    NoThread,
    /// The thread is closed.
    Closed,
    /// The thread holds an event that isn't pushed yet.
    Held,
    /// The thread holds no event to push.
    NothingHeld,
    /// The thread's ring has no room.
    RingFull,
    /// An operation of the thread is pending.
    Pending,
    /// No operation of the thread is pending.
    NotPending,
    /// The pending operation has no answer to return with.
    NoAnswer,
    /// The pending operation has an answer already.
    AnswerTaken,
    /// The answer is of the other kind than the pending operation.
    WrongAnswer,
    /// The thread has asked 100,000 operations, or all threads together 1,000,000.
    Limit,
    /// Memory ran out: for a ring by a push, for the queue by an effect, for the collected events by a drain.
    Memory,
}

impl StepRefused {
    /// Returns the name of the reason, as it is printed.
    pub fn name(self) -> &'static str
        ensures short { length result.now ≤ 20 }
        ensures name { result.now ≡ name_of self }
    {
        match self {
            StepRefused::NoThread => "NoThread",
            StepRefused::Closed => "Closed",
            StepRefused::Held => "Held",
            StepRefused::NothingHeld => "NothingHeld",
            StepRefused::RingFull => "RingFull",
            StepRefused::Pending => "Pending",
            StepRefused::NotPending => "NotPending",
            StepRefused::NoAnswer => "NoAnswer",
            StepRefused::AnswerTaken => "AnswerTaken",
            StepRefused::WrongAnswer => "WrongAnswer",
            StepRefused::Limit => "Limit",
            StepRefused::Memory => "Memory",
        }
    }
}

impl fmt::Display for StepRefused {
    fn fmt<W: fmt::Write>(&self, f: &mut fmt::Formatter<W>) -> fmt::Result {
        f.write_str(self.name())
    }
}

impl Error for StepRefused {}
