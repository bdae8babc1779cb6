// The proved queue without a lock: a row of nodes beside the ticket word, which all workers share.
use crate::asked::Asked;
use crate::ends::Ends;
use event_records::{AnsweredDeq, AnsweredEnq, AskDeq, AskEnq};
use tickets::{Pass, Tickets};

// The queue of the nodes beside the ticket word. A worker needs only its pass to call it.
#[derive(Drop)]
pub(crate) struct LockFree;

impl Asked for LockFree {
    ghost use Rattle.std.specs.Prelude.{◌≡◌, true};
    ghost use Rattle.queue_interface.specs.Answers.{AnswersInKind};

    ghost may = { λ _. AnswersInKind };

    ghost notes = { λ _. true };

    ghost serves = { λ _ tickets _. tickets.shared ≡ true };

    fn enq(&self, _: &mut Ends, ask: AskEnq, pass: &mut Pass, tickets: &Tickets) -> AnsweredEnq {
        if pass.push(tickets, ask.call(), ask.value()) {
            ask.taken()
        } else {
            ask.not_taken()
        }
    }

    fn deq(&self, _: &mut Ends, ask: AskDeq, pass: &mut Pass, tickets: &Tickets) -> AnsweredDeq {
        match pass.pop(tickets, ask.call()) {
            Some(value) => ask.got(value),
            None => ask.empty(),
        }
    }
}
