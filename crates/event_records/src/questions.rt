// The questions of a thread, each asked once and under its own number.
ghost use Rattle.std.specs.Prelude.{◌≡◌, ◌+◌, ◌<◌};
ghost use Rattle.event_records.specs.Question.{next_question, call_event, value_name};
ghost use Rattle.event_records.specs.declared.kind.Kind.TheVariants.{Enq, Deq};
ghost use Rattle.event_records.specs.declared.limits.TheConstants.{MAX_THREADS, NAMES_OF_A_THREAD};

use crate::event::{Event, What};
use crate::limits::NAMES_OF_A_THREAD;
use crate::noted::Noted;
use crate::thread_no::ThreadNo;
use std::marker::Model;
use tickets::Drawn;

/// The numbering of one thread's operations, from 0.
///
/// It isn't `Clone`, so it gives no number twice.
#[derive(Drop)]
pub struct Namer {
    thread: ThreadNo,
    asked: u64,
}

impl Model for Namer {
    ghost use Rattle.event_records.specs.Question.{NamerView};

    ghost Value = { NamerView };

    ghost view = { λ n. record { thread = n.thread; asked = n.asked } };
}

// The common part of both questions: the thread, the number of the operation, and the call ticket.
#[derive(Drop)]
struct Asked {
    thread: ThreadNo,
    number: u64,
    drawn: Drawn,
}

/// A question to enqueue the value of its name.
///
/// It isn't `Clone`, and the queue that answers it uses it up. Contracts see it as plain data, with the key of the
/// `Tickets` that drew its call ticket.
#[derive(Drop)]
pub struct AskEnq {
    asked: Asked,
}

impl Model for AskEnq {
    ghost use Rattle.std.specs.Prelude.{◌<◌};
    ghost use Rattle.event_records.specs.Question.{Question};
    ghost use Rattle.event_records.specs.declared.kind.Kind.TheVariants.{Enq};
    ghost use Rattle.event_records.specs.declared.limits.TheConstants.{NAMES_OF_A_THREAD};

    ghost Value = { Question };

    ghost view = { λ q. record {
      thread = q.asked.thread;
      number = q.asked.number;
      kind = Enq;
      call = q.asked.drawn.ticket;
      key = q.asked.drawn.key;
    } };

    ghost invariant = { λ q. q.asked.number < NAMES_OF_A_THREAD };
}

/// A question to dequeue. Like an `AskEnq` it can be used only once.
#[derive(Drop)]
pub struct AskDeq {
    asked: Asked,
}

impl Model for AskDeq {
    ghost use Rattle.std.specs.Prelude.{◌<◌};
    ghost use Rattle.event_records.specs.Question.{Question};
    ghost use Rattle.event_records.specs.declared.kind.Kind.TheVariants.{Deq};
    ghost use Rattle.event_records.specs.declared.limits.TheConstants.{NAMES_OF_A_THREAD};

    ghost Value = { Question };

    ghost view = { λ q. record {
      thread = q.asked.thread;
      number = q.asked.number;
      kind = Deq;
      call = q.asked.drawn.ticket;
      key = q.asked.drawn.key;
    } };

    ghost invariant = { λ q. q.asked.number < NAMES_OF_A_THREAD };
}

impl Namer {
    /// Makes a namer of a thread that has asked nothing.
    pub fn new(thread: ThreadNo) -> Namer
        ensures { result ≡ record { thread = thread; asked = 0 } }
    {
        Namer { thread, asked: 0 }
    }

    /// Returns the number of operations asked so far.
    pub fn asked(&self) -> u64
        ensures { result ≡ self.now.asked }
    {
        self.asked
    }

    // Counts the next operation, and returns it.
    fn next(&mut self, drawn: Drawn) -> Asked
        requires { self.old.asked < NAMES_OF_A_THREAD }
        ensures asked { result ≡ record { thread = self.old.thread; number = self.old.asked; drawn = drawn } }
        ensures counted { self.new ≡ record self.old { asked = self.old.asked + 1 } }
    {
        let number = self.asked;
        self.asked += 1;
        Asked {
            thread: self.thread,
            number,
            drawn,
        }
    }

    /// Makes the question of the next enqueue, at a ticket that was drawn for it, and its call event.
    pub fn ask_enq(&mut self, drawn: Drawn) -> (AskEnq, Noted)
        requires { self.old.asked < NAMES_OF_A_THREAD }
        ensures question { result.0 ≡ next_question self.old Enq drawn }
        ensures noted { result.1 ≡ call_event result.0 }
        ensures counted { self.new ≡ record self.old { asked = self.old.asked + 1 } }
    {
        let asked = self.next(drawn);
        let noted = asked.noted(What::CallEnq(asked.value()));
        (AskEnq { asked }, noted)
    }

    /// Makes the question of the next dequeue, at a ticket that was drawn for it, and its call event.
    pub fn ask_deq(&mut self, drawn: Drawn) -> (AskDeq, Noted)
        requires { self.old.asked < NAMES_OF_A_THREAD }
        ensures question { result.0 ≡ next_question self.old Deq drawn }
        ensures noted { result.1 ≡ call_event result.0 }
        ensures counted { self.new ≡ record self.old { asked = self.old.asked + 1 } }
    {
        let asked = self.next(drawn);
        let noted = asked.noted(What::CallDeq);
        (AskDeq { asked }, noted)
    }
}

impl Asked {
    // Returns the value of this operation, if it is an enqueue.
    fn value(&self) -> u64
        requires { self.now.number < NAMES_OF_A_THREAD }
        ensures { result ≡ value_name self.now.thread self.now.number }
    {
        u64::from(self.thread.get()) * NAMES_OF_A_THREAD + self.number
    }

    // Notes the call event of this operation.
    fn noted(&self, what: What) -> Noted
        ensures { result ≡ record { ticket = self.now.drawn.ticket; thread = self.now.thread; what = what } }
    {
        Noted::of(Event {
            ticket: self.drawn.ticket(),
            thread: self.thread.get(),
            what,
        })
    }
}

impl AskEnq {
    /// Returns the call ticket.
    pub fn call(&self) -> u64
        ensures { result ≡ self.now.call }
    {
        self.asked.drawn.ticket()
    }

    /// Returns the thread that asks.
    pub fn thread(&self) -> u8
        ensures value { result ≡ self.now.thread }
        ensures small { result < MAX_THREADS }
    {
        self.asked.thread.get()
    }

    /// Returns the value to enqueue: the thread times 2^32, plus the number. No two questions of one run have the
    /// same value.
    pub fn value(&self) -> u64
        ensures { result ≡ value_name self.now.thread self.now.number }
    {
        self.asked.value()
    }

    /// Returns the number of the operation in its thread, from 0.
    pub fn number(&self) -> u64
        ensures value { result ≡ self.now.number }
        ensures small { result < NAMES_OF_A_THREAD }
    {
        self.asked.number
    }
}

impl AskDeq {
    /// Returns the thread that asks.
    pub fn thread(&self) -> u8
        ensures value { result ≡ self.now.thread }
        ensures small { result < MAX_THREADS }
    {
        self.asked.thread.get()
    }

    /// Returns the number of the operation in its thread, from 0.
    pub fn number(&self) -> u64
        ensures value { result ≡ self.now.number }
        ensures small { result < NAMES_OF_A_THREAD }
    {
        self.asked.number
    }

    /// Returns the call ticket.
    pub fn call(&self) -> u64
        ensures { result ≡ self.now.call }
    {
        self.asked.drawn.ticket()
    }
}
