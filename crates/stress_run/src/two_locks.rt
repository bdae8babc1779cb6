// The proved queue with two locks: a ring beside the ticket word, with a lock for each end.
ghost use Rattle.std.specs.Prelude.{◌≡◌};

use crate::asked::Asked;
use crate::ends::{Ends, dequeue_at, enqueue_at};
use crate::proved::OfRun;
use event_records::{AnsweredDeq, AnsweredEnq, AskDeq, AskEnq};
use std::marker::PhantomData;
use std::sync::{Mutex, Wait};
use tickets::{HeadEnd, Pass, TailEnd, Tickets};

// The data under the lock of the tail.
#[derive(Drop)]
pub(crate) struct Tail<J: OfRun> {
    end: TailEnd,
    of: PhantomData<J>,
    ghost word: { end ≡ J.word },
}

// The data under the lock of the head.
#[derive(Drop)]
pub(crate) struct Head<J: OfRun> {
    end: HeadEnd,
    of: PhantomData<J>,
    ghost word: { end ≡ J.word },
}

// A queue that belongs to one run, with a lock for each end.
#[derive(Drop)]
pub(crate) struct TwoLocks<'r, J: OfRun, R: Wait> {
    rt: &'r R,
    tail: Mutex<Tail<J>>,
    head: Mutex<Head<J>>,
}

impl<'r, J: OfRun, R: Wait> TwoLocks<'r, J, R> {
    ghost use Rattle.std.specs.Prelude.{◌≡◌};

    // Makes the queue whose ring has these ends.
    pub(crate) fn new(rt: &'r R, tail: TailEnd, head: HeadEnd) -> TwoLocks<'r, J, R>
        requires tail { tail ≡ J.word }
        requires head { head ≡ J.word }
    {
        TwoLocks {
            rt,
            tail: Mutex::new(Tail {
                end: tail,
                of: PhantomData,
            }),
            head: Mutex::new(Head {
                end: head,
                of: PhantomData,
            }),
        }
    }
}

impl<'r, J: OfRun + Send + Sync, R: Wait> Asked for TwoLocks<'r, J, R> {
    ghost use Rattle.std.specs.Prelude.{◌≡◌, true};
    ghost use Rattle.queue_interface.specs.Answers.{AnswersInKind};

    ghost serves = { λ _ tickets _. tickets.key ≡ J.word };

    ghost may = { λ _. AnswersInKind };

    ghost notes = { λ _. true };

    fn enq(&self, _: &mut Ends, ask: AskEnq, pass: &mut Pass, tickets: &Tickets) -> AnsweredEnq {
        let mut tail = self.tail.lock(self.rt);
        enqueue_at(&mut tail.end, ask, pass, tickets)
    }

    fn deq(&self, _: &mut Ends, ask: AskDeq, pass: &mut Pass, tickets: &Tickets) -> AnsweredDeq {
        let mut head = self.head.lock(self.rt);
        dequeue_at(&mut head.end, ask, pass, tickets)
    }
}
