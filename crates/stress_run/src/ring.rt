// The proved queue for one producer and one consumer: a ring beside the ticket word, without a lock.
use crate::asked::Asked;
use crate::ends::{Ends, dequeue_at, enqueue_at};
use event_records::{AnsweredDeq, AnsweredEnq, AskDeq, AskEnq};
use tickets::{Pass, Tickets};

// The queue in the ring beside the ticket word. The worker that enqueues has the tail end, and the one that dequeues
// the head end, so the queue itself shares nothing.
#[derive(Drop)]
pub(crate) struct Ring;

impl Asked for Ring {
    ghost use Rattle.std.specs.Prelude.{◌≡◌, Some, true};
    ghost use Rattle.queue_interface.specs.Answers.{AnswersInKind};

    ghost may = { λ _. AnswersInKind };

    ghost notes = { λ _. true };

    ghost serves = { λ _ tickets end. end ≡ Some tickets.key };

    fn enq(&self, ends: &mut Ends, ask: AskEnq, pass: &mut Pass, tickets: &Tickets) -> AnsweredEnq {
        match &mut ends.tail {
            Some(end) => enqueue_at(end, ask, pass, tickets),
            None => unreachable!(),
        }
    }

    fn deq(&self, ends: &mut Ends, ask: AskDeq, pass: &mut Pass, tickets: &Tickets) -> AnsweredDeq {
        match &mut ends.head {
            Some(end) => dequeue_at(end, ask, pass, tickets),
            None => unreachable!(),
        }
    }
}
