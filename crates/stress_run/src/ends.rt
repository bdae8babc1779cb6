// The two ends of the ring beside a ticket word, and what a worker has of them.
ghost use Rattle.std.specs.Prelude.{◌≡◌, ◌⊎◌, All, Contains, None, Some};
ghost use Rattle.event_records.specs.Question.{Question};
ghost use Rattle.event_records.specs.declared.kind.Kind.{Kind};
ghost use Rattle.stress_run.specs.Ends.{end_for, no_ends};
ghost use Rattle.stress_run.specs.Inner.Proved.{AnswersOne};

use crate::roles::has_kind;
use event_records::{AnsweredDeq, AnsweredEnq, AskDeq, AskEnq, Kind};
use std::marker::Model;
use tickets::{HeadEnd, Pass, TailEnd, Tickets};
use workloads::Row;

// The tail end and the head end of a queue that a worker has for itself, each only if it has it.
#[derive(Drop)]
pub(crate) struct Ends {
    pub(crate) tail: Option<TailEnd>,
    pub(crate) head: Option<HeadEnd>,
}

impl Model for Ends {
    ghost use Rattle.stress_run.specs.Ends.{EndsView};

    ghost Value = { EndsView };

    ghost view = { λ e. record { tail = e.tail; head = e.head } };
}

impl Ends {
    // Returns neither end.
    pub(crate) fn none() -> Ends
        ensures { result ≡ no_ends }
    {
        Ends {
            tail: None,
            head: None,
        }
    }

    // Returns both ends.
    pub(crate) fn both(tail: TailEnd, head: HeadEnd) -> Ends
        ensures { result ≡ record { tail = Some tail; head = Some head } }
    {
        Ends {
            tail: Some(tail),
            head: Some(head),
        }
    }

    // Takes the ends at which the operations of a row work.
    pub(crate) fn take_for(&mut self, row: &Row) -> Ends
        ensures taken { All (λ kind. end_for kind result ≡ end_for kind self.old) row.now }
        ensures left { (kind : Kind) → (end_for kind self.new ≡ end_for kind self.old)
            ⊎ ((end_for kind self.new ≡ None) × Contains row.now kind) }
    {
        let tail = if has_kind(row, Kind::Enq) {
            self.tail.take()
        } else {
            None
        };
        let head = if has_kind(row, Kind::Deq) {
            self.head.take()
        } else {
            None
        };
        Ends { tail, head }
    }
}

// Enqueues the value of the question at the tail, unless the queue is full, and notes the answer.
pub(crate) fn enqueue_at(
    end: &mut TailEnd,
    ask: AskEnq,
    pass: &mut Pass,
    tickets: &Tickets,
) -> AnsweredEnq
    requires key { (pass.old.key ≡ tickets.now.key) × (end.old ≡ tickets.now.key) }
    requires drew { Contains pass.old.drawn ask.call }
    ensures end { end.new ≡ end.old }
    ensures answered { AnswersOne ask pass.old result pass.new }
{
    if pass.put(tickets, end, ask.call(), ask.value()) {
        ask.taken()
    } else {
        ask.not_taken()
    }
}

// Dequeues the first value at the head, unless the queue is empty, and notes the answer.
pub(crate) fn dequeue_at(
    end: &mut HeadEnd,
    ask: AskDeq,
    pass: &mut Pass,
    tickets: &Tickets,
) -> AnsweredDeq
    requires key { (pass.old.key ≡ tickets.now.key) × (end.old ≡ tickets.now.key) }
    requires drew { Contains pass.old.drawn ask.call }
    ensures end { end.new ≡ end.old }
    ensures answered { AnswersOne ask pass.old result pass.new }
{
    match pass.take(tickets, end, ask.call()) {
        Some(value) => ask.got(value),
        None => ask.empty(),
    }
}
