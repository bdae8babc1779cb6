// The queue that a worker calls: one under test, or one that notes its answers in the log of the run.
ghost use Rattle.std.specs.Prelude.{◌≡◌, Contains, Bool, Option, true};
ghost use Rattle.atomic_table.specs.Seated.{TableId};
ghost use Rattle.event_records.specs.Question.{Question};
ghost use Rattle.event_records.specs.declared.kind.Answer.{Answer};
ghost use Rattle.stress_run.specs.Noted.{NotesOne};
ghost use Rattle.tickets.specs.Views.{TicketsView};

use crate::ends::Ends;
use event_records::{AnsweredDeq, AnsweredEnq, AskDeq, AskEnq};
use queue_interface::TestQueue;
use tickets::{Pass, Tickets};

// A queue that workers call. `may` is that of a `TestQueue`. `notes` says whether the calling pass notes each answer.
// `serves` says which ticket words the questions may be of, and which end, if any, a worker needs for an operation:
// the tail end of the queue to enqueue, the head end to dequeue.
pub(crate) trait Asked {
    ghost may: { Self → Question → Answer → Type 0 };

    ghost notes: { Self → Bool };

    ghost serves: { Self → TicketsView → Option TableId → Type 0 };

    // Answers a question to enqueue, whose call ticket this pass drew.
    fn enq(&self, ends: &mut Ends, ask: AskEnq, pass: &mut Pass, tickets: &Tickets) -> AnsweredEnq
        requires key { pass.old.key ≡ tickets.now.key }
        requires drew { Contains pass.old.drawn ask.call }
        requires serves { serves self.now tickets.now ends.old.tail }
        ensures question { result.question ≡ ask }
        ensures allowed { may self.now ask result.answer }
        ensures ends { ends.new ≡ ends.old }
        ensures pass { pass.new ≡ record pass.old { noted = pass.new.noted } }
        ensures noted { notes self.now ≡ true → NotesOne ask result.answer pass.old.noted pass.new.noted };

    // Answers a question to dequeue, whose call ticket this pass drew.
    fn deq(&self, ends: &mut Ends, ask: AskDeq, pass: &mut Pass, tickets: &Tickets) -> AnsweredDeq
        requires key { pass.old.key ≡ tickets.now.key }
        requires drew { Contains pass.old.drawn ask.call }
        requires serves { serves self.now tickets.now ends.old.head }
        ensures question { result.question ≡ ask }
        ensures allowed { may self.now ask result.answer }
        ensures ends { ends.new ≡ ends.old }
        ensures pass { pass.new ≡ record pass.old { noted = pass.new.noted } }
        ensures noted { notes self.now ≡ true → NotesOne ask result.answer pass.old.noted pass.new.noted };
}

impl<'a> Asked for &'a dyn TestQueue {
    ghost use Rattle.std.specs.Prelude.{false, ⊤};

    ghost may = { λ q. (TestQueue-dyn q.now).may q.now.1 };

    ghost notes = { λ _. false };

    ghost serves = { λ _ _ _. ⊤ };

    fn enq(&self, _: &mut Ends, ask: AskEnq, _: &mut Pass, _: &Tickets) -> AnsweredEnq {
        TestQueue::enqueue(*self, ask)
    }

    fn deq(&self, _: &mut Ends, ask: AskDeq, _: &mut Pass, _: &Tickets) -> AnsweredDeq {
        TestQueue::dequeue(*self, ask)
    }
}
