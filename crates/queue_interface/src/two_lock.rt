// A queue with a lock for each end.
use crate::TestQueue;
use crate::answers::{dequeued, enqueued};
use event_records::{AnsweredDeq, AnsweredEnq, AskDeq, AskEnq};
use std::alloc::Global;
use std::collections::VecDeque;
use std::mem;
use std::sync::{Mutex, Wait};

/// A FIFO queue with one lock for the values that come in and one for those that go out.
///
/// A dequeue that finds no value to go out exchanges the two lists, under both locks.
#[derive(Drop)]
pub struct TwoLockQueue<R: Wait + Drop> {
    rt: R,
    inbox: Mutex<VecDeque<u64>>,
    outbox: Mutex<VecDeque<u64>>,
}

impl<R: Wait + Drop> TwoLockQueue<R> {
    /// Makes an empty queue. Its memory grows with its values.
    pub fn new(alloc: Global, rt: R) -> TwoLockQueue<R> {
        TwoLockQueue {
            rt,
            inbox: Mutex::new(VecDeque::new(alloc)),
            outbox: Mutex::new(VecDeque::new(alloc)),
        }
    }
}

impl<R: Wait + Drop + Send + Sync> TestQueue for TwoLockQueue<R> {
    ghost use Rattle.queue_interface.specs.Answers.{AnswersInKind, TakesOrRefuses};

    ghost may = { λ _. AnswersInKind };

    ghost may_preload = { λ _ _. TakesOrRefuses };

    fn enqueue(&self, ask: AskEnq) -> AnsweredEnq {
        let taken = self.inbox.lock(&self.rt).push_back(ask.value()).is_ok();
        enqueued(ask, taken)
    }

    fn dequeue(&self, ask: AskDeq) -> AnsweredDeq {
        let mut outbox = self.outbox.lock(&self.rt);
        if outbox.is_empty() {
            let mut inbox = self.inbox.lock(&self.rt);
            mem::swap(&mut *outbox, &mut *inbox);
        }
        dequeued(ask, outbox.pop_front())
    }

    fn preload(&self, _place: usize, value: u64) -> bool {
        self.inbox.lock(&self.rt).push_back(value).is_ok()
    }
}
