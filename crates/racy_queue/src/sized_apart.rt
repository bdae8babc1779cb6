//! The tested queue: its size is counted apart from the list.
use fifobench_core::{AnsweredDeq, AnsweredEnq, AskDeq, AskEnq, TestQueue};
use std::alloc::Global;
use std::collections::VecDeque;
use std::sync::atomic::{AtomicU64, Ordering};
use std::sync::{Mutex, Wait};

/// A list under a lock, and its size outside the lock.
#[derive(Drop)]
pub struct SizedApart<R: Wait + Drop> {
    rt: R,
    values: Mutex<VecDeque<u64>>,
    size: AtomicU64,
}

impl<R: Wait + Drop> SizedApart<R> {
    /// Makes an empty queue. Its memory grows with its values.
    pub fn new(alloc: Global, rt: R) -> SizedApart<R> {
        SizedApart {
            rt,
            values: Mutex::new(VecDeque::new(alloc)),
            size: AtomicU64::new(0),
        }
    }
}

impl<R: Wait + Drop> SizedApart<R> {
    /// Appends a value, and counts it if there was memory for it.
    fn put(&self, value: u64) -> bool {
        let taken = self.values.lock(&self.rt).push_back(value).is_ok();
        if taken {
            self.size.fetch_add(1, Ordering::SeqCst);
        }
        taken
    }
}

impl<R: Wait + Drop + Send + Sync> TestQueue for SizedApart<R> {
    ghost use Rattle.fifobench_core.specs.Answers.{AnswersInKind, TakesOrRefuses};

    // any answer of the question's kind
    ghost may = { λ _. AnswersInKind };

    ghost may_preload = { λ _ _. TakesOrRefuses };

    fn enqueue(&self, ask: AskEnq) -> AnsweredEnq {
        if self.put(ask.value()) {
            ask.taken()
        } else {
            ask.not_taken()
        }
    }

    fn dequeue(&self, ask: AskDeq) -> AnsweredDeq {
        if self.size.load(Ordering::SeqCst) == 0 {
            return ask.empty();
        }
        let got = self.values.lock(&self.rt).pop_front();
        match got {
            Some(value) => {
                self.size.fetch_sub(1, Ordering::SeqCst);
                ask.got(value)
            }
            None => ask.empty(),
        }
    }

    fn preload(&self, _place: usize, value: u64) -> bool {
        self.put(value)
    }
}
