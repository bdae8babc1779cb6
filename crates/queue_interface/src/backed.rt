// Lock-free queues, of the crate crossbeam_queue.
ghost use Rattle.std.specs.Prelude.{◌≡◌, ◌<◌, IfOk};

use crate::TestQueue;
use crate::answers::{dequeued, pushed};
use crossbeam_queue::{ArrayQueue, SegQueue};
use event_records::{AnsweredDeq, AnsweredEnq, AskDeq, AskEnq};
use std::alloc::{AllocError, Global};
use std::marker::Model;
use std::sync::Wait;

/// A bounded lock-free queue: an `ArrayQueue`. If it is full, it answers `not_taken`.
///
/// Contracts see its capacity.
#[derive(Drop)]
pub struct ArrayBack<R: Wait + Drop> {
    rt: R,
    ring: ArrayQueue<u64>,
}

impl<R: Wait + Drop> Model for ArrayBack<R> {
    ghost use Rattle.std.specs.Prelude.{ℕ};
    ghost use Rattle.crossbeam_queue.specs.Passes.{queue_capacity};

    ghost Value = { ℕ };

    ghost view = { λ a. queue_capacity a.ring };
}

impl<R: Wait + Drop> ArrayBack<R> {
    /// Makes an empty queue with room for `capacity` values, and takes memory for them at once.
    pub fn new(alloc: Global, rt: R, capacity: usize) -> Result<ArrayBack<R>, AllocError>
        requires { 0 < capacity }
        ensures { IfOk result (λ queue. queue ≡ capacity) }
    {
        let ring = ArrayQueue::new(alloc, capacity)?;
        Ok(ArrayBack { rt, ring })
    }
}

impl<R: Wait + Drop + Send + Sync> TestQueue for ArrayBack<R> {
    ghost use Rattle.queue_interface.specs.Answers.{AnswersInKind, TakesOrRefuses};

    ghost may = { λ _. AnswersInKind };

    ghost may_preload = { λ _ _. TakesOrRefuses };

    fn enqueue(&self, ask: AskEnq) -> AnsweredEnq {
        let push = self.ring.push(&self.rt, ask.value());
        pushed(ask, push)
    }

    fn dequeue(&self, ask: AskDeq) -> AnsweredDeq {
        let got = self.ring.pop(&self.rt);
        dequeued(ask, got)
    }

    fn preload(&self, _place: usize, value: u64) -> bool {
        self.ring.push(&self.rt, value).is_ok()
    }
}

/// An unbounded lock-free queue: a `SegQueue`. If it has no memory for a further block of values, it answers
/// `not_taken`.
#[derive(Drop)]
pub struct SegBack<R: Wait + Drop> {
    rt: R,
    blocks: SegQueue<u64>,
}

impl<R: Wait + Drop> SegBack<R> {
    /// Makes an empty queue. It takes memory for its first block of values.
    pub fn new(alloc: Global, rt: R) -> Result<SegBack<R>, AllocError> {
        let blocks = SegQueue::new(alloc)?;
        Ok(SegBack { rt, blocks })
    }
}

impl<R: Wait + Drop + Send + Sync> TestQueue for SegBack<R> {
    ghost use Rattle.queue_interface.specs.Answers.{AnswersInKind, TakesOrRefuses};

    ghost may = { λ _. AnswersInKind };

    ghost may_preload = { λ _ _. TakesOrRefuses };

    fn enqueue(&self, ask: AskEnq) -> AnsweredEnq {
        let push = self.blocks.push(&self.rt, ask.value());
        pushed(ask, push)
    }

    fn dequeue(&self, ask: AskDeq) -> AnsweredDeq {
        let got = self.blocks.pop(&self.rt);
        dequeued(ask, got)
    }

    fn preload(&self, _place: usize, value: u64) -> bool {
        self.blocks.push(&self.rt, value).is_ok()
    }
}
