//! The tested queue: two stacks under one lock.
use fifobench_core::{AnsweredDeq, AnsweredEnq, AskDeq, AskEnq, TestQueue};
use std::alloc::Global;
use std::mem::swap;
use std::sync::{Mutex, Wait};

/// The values in the queue: those enqueued lately on one stack, the last on top, and those to be dequeued next on the
/// other, the first on top.
#[derive(Drop)]
struct Stacks {
    inbox: Vec<u64>,
    outbox: Vec<u64>,
}

impl Stacks {
    /// Adds a value, and returns whether there was memory for it.
    fn push(&mut self, value: u64) -> bool {
        self.inbox.push(value).is_ok()
    }

    /// Removes and returns the value that was added first, if there is one.
    fn pop(&mut self) -> Option<u64> {
        if self.outbox.is_empty() {
            swap(&mut self.inbox, &mut self.outbox);
            self.outbox.reverse();
        }
        self.outbox.pop()
    }
}

/// A queue of two stacks. A caller waits for the lock by the queue's own runtime.
#[derive(Drop)]
pub struct TwoStacks<R: Wait + Drop> {
    rt: R,
    stacks: Mutex<Stacks>,
}

impl<R: Wait + Drop> TwoStacks<R> {
    /// Makes an empty queue. Its memory grows with its values.
    pub fn new(alloc: Global, rt: R) -> TwoStacks<R> {
        TwoStacks {
            rt,
            stacks: Mutex::new(Stacks {
                inbox: Vec::new(alloc),
                outbox: Vec::new(alloc),
            }),
        }
    }
}

impl<R: Wait + Drop + Send + Sync> TestQueue for TwoStacks<R> {
    ghost use Rattle.fifobench_core.specs.Answers.{AnswersInKind, TakesOrRefuses};

    // any answer of the question's kind
    ghost may = { λ _. AnswersInKind };

    ghost may_preload = { λ _ _. TakesOrRefuses };

    fn enqueue(&self, ask: AskEnq) -> AnsweredEnq {
        if self.stacks.lock(&self.rt).push(ask.value()) {
            ask.taken()
        } else {
            ask.not_taken()
        }
    }

    fn dequeue(&self, ask: AskDeq) -> AnsweredDeq {
        match self.stacks.lock(&self.rt).pop() {
            Some(value) => ask.got(value),
            None => ask.empty(),
        }
    }

    fn preload(&self, _place: usize, value: u64) -> bool {
        self.stacks.lock(&self.rt).push(value)
    }
}
