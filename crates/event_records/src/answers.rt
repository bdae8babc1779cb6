// Answered questions, and the return events that stamps give.
ghost use Rattle.std.specs.Prelude.{◌≡◌, ◌<◌, Contains, IsTrue};
ghost use Rattle.tickets.specs.Views.{DrawsOne};
ghost use Rattle.event_records.specs.Question.{call_event, return_event};
ghost use Rattle.event_records.specs.Turns.{answers};
ghost use Rattle.event_records.specs.declared.kind.Kind.TheVariants.{Enq, Deq};
ghost use Rattle.event_records.specs.declared.kind.Answer.TheVariants.{Taken, Not, Got, Empty};

use crate::event::{Event, What};
use crate::noted::Noted;
use crate::questions::{AskDeq, AskEnq};
use std::marker::Model;
use tickets::{Pass, Tickets};

/// An enqueue with its answer. It holds the question, so it can be used only once.
#[derive(Drop)]
pub struct AnsweredEnq {
    ask: AskEnq,
    taken: bool,
}

impl Model for AnsweredEnq {
    ghost use Rattle.std.specs.Prelude.{if◌then◌else◌};
    ghost use Rattle.event_records.specs.Question.{Answered};
    ghost use Rattle.event_records.specs.declared.kind.Answer.TheVariants.{Taken, Not};

    ghost Value = { Answered };

    ghost view = { λ a. record { question = a.ask; answer = (if a.taken then Taken else Not) } };
}

/// A dequeue with its answer. It holds the question, so it can be used only once.
#[derive(Drop)]
pub struct AnsweredDeq {
    ask: AskDeq,
    got: Option<u64>,
}

impl Model for AnsweredDeq {
    ghost use Rattle.event_records.specs.Question.{Answered, dequeued};

    ghost Value = { Answered };

    ghost view = { λ a. record { question = a.ask; answer = dequeued a.got } };
}

impl AskEnq {
    /// Answers that the enqueue succeeded.
    pub fn taken(self) -> AnsweredEnq
        ensures answered { result ≡ record { question = self; answer = Taken } }
        ensures kind { self.kind ≡ Enq }
    {
        AnsweredEnq {
            ask: self,
            taken: true,
        }
    }

    /// Answers that the enqueue failed: the queue was full or out of memory.
    pub fn not_taken(self) -> AnsweredEnq
        ensures answered { result ≡ record { question = self; answer = Not } }
        ensures kind { self.kind ≡ Enq }
    {
        AnsweredEnq {
            ask: self,
            taken: false,
        }
    }
}

impl AskDeq {
    /// Answers that the dequeue got `value`.
    pub fn got(self, value: u64) -> AnsweredDeq
        ensures answered { result ≡ record { question = self; answer = Got value } }
        ensures kind { self.kind ≡ Deq }
    {
        AnsweredDeq {
            ask: self,
            got: Some(value),
        }
    }

    /// Answers that the dequeue found the queue empty.
    pub fn empty(self) -> AnsweredDeq
        ensures answered { result ≡ record { question = self; answer = Empty } }
        ensures kind { self.kind ≡ Deq }
    {
        AnsweredDeq {
            ask: self,
            got: None,
        }
    }
}

// Draws a ticket for the return event of a thread, and notes the event.
fn note_return(thread: u8, what: What, pass: &mut Pass, tickets: &Tickets) -> Noted
    requires key { pass.old.key ≡ tickets.now.key }
    requires some_left { 0 < pass.old.left }
    ensures noted { result ≡ record { ticket = result.ticket; thread = thread; what = what } }
    ensures drawn { DrawsOne pass.old result.ticket pass.new }
{
    let drawn = pass.draw(tickets);
    Noted::of(Event {
        ticket: drawn.ticket(),
        thread,
        what,
    })
}

impl AnsweredEnq {
    /// Draws the return ticket of an enqueue, and notes its return.
    ///
    /// The call uses the answer up, so the answer was there before the ticket. The pass is that of the question's
    /// thread, which drew the call ticket.
    pub fn stamp(self, pass: &mut Pass, tickets: &Tickets) -> Noted
        requires key { (pass.old.key ≡ tickets.now.key) × (self.question.key ≡ tickets.now.key) }
        requires drew { Contains pass.old.drawn self.question.call }
        requires some_left { 0 < pass.old.left }
        ensures noted { result ≡ return_event self result.ticket }
        ensures kind { IsTrue (answers (call_event self.question).what result.what) }
        ensures later { self.question.call < result.ticket }
        ensures drawn { DrawsOne pass.old result.ticket pass.new }
    {
        let what = if self.taken {
            What::RetEnq
        } else {
            What::RetNot
        };
        note_return(self.ask.thread(), what, pass, tickets)
    }
}

impl AnsweredDeq {
    /// Draws the return ticket of a dequeue, and notes its return.
    pub fn stamp(self, pass: &mut Pass, tickets: &Tickets) -> Noted
        requires some_left { 0 < pass.old.left }
        requires key { (pass.old.key ≡ tickets.now.key) × (self.question.key ≡ tickets.now.key) }
        requires drew { Contains pass.old.drawn self.question.call }
        ensures drawn { DrawsOne pass.old result.ticket pass.new }
        ensures later { self.question.call < result.ticket }
        ensures noted { result ≡ return_event self result.ticket }
        ensures kind { IsTrue (answers (call_event self.question).what result.what) }
    {
        let what = match self.got {
            Some(value) => What::RetDeq(value),
            None => What::RetEmpty,
        };
        note_return(self.ask.thread(), what, pass, tickets)
    }
}
