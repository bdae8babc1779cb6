// A queue in which calls wait for those of the other workers.
ghost use Rattle.std.specs.Prelude.{◌≤◌, ◌<◌};
ghost use Rattle.event_records.specs.declared.limits.TheConstants.{MAX_THREADS, NAMES_OF_A_THREAD};

use crate::TestQueue;
use event_records::{AnsweredDeq, AnsweredEnq, AskDeq, AskEnq};
use std::sync::atomic::{AtomicU64, Ordering};
use std::thread;

/// A queue that takes no value, and shows that calls of all workers are inside it at once.
///
/// The n-th call of a thread, from 0, stays until all calls of all workers up to the n-th have arrived, or until it
/// has yielded `turns` times. So it never waits for ever.
#[derive(Drop)]
pub struct GateQueue {
    workers: u64,
    turns: u64,
    arrivals: AtomicU64,
    passed: AtomicU64,
    ghost few: { workers ≤ MAX_THREADS },
}

impl GateQueue {
    /// Makes a gate for this many workers.
    pub fn new(workers: u64, turns: u64) -> GateQueue
        requires { (2 ≤ workers) × (workers ≤ MAX_THREADS) }
    {
        GateQueue {
            workers,
            turns,
            arrivals: AtomicU64::new(0),
            passed: AtomicU64::new(0),
        }
    }

    /// Returns how many calls saw the others arrive in time.
    pub fn passed(&self) -> u64 {
        self.passed.load(Ordering::SeqCst)
    }

    // Lets the n-th call of a thread pass.
    fn pass(&self, number: u64)
        requires { number < NAMES_OF_A_THREAD }
    {
        self.arrivals.fetch_add(1, Ordering::SeqCst);
        if self.sees_arrivals(self.workers * (number + 1)) {
            self.passed.fetch_add(1, Ordering::SeqCst);
        }
    }

    // Returns whether this many calls arrive before the turns are used up.
    fn sees_arrivals(&self, wanted: u64) -> bool {
        for _ in 0..self.turns {
            if self.arrivals.load(Ordering::SeqCst) >= wanted {
                return true;
            }
            thread::yield_now();
        }
        self.arrivals.load(Ordering::SeqCst) >= wanted
    }
}

impl TestQueue for GateQueue {
    ghost use Rattle.std.specs.Prelude.{◌≡◌, true};
    ghost use Rattle.queue_interface.specs.Answers.{refusal};

    ghost may = { λ _ question answer. answer ≡ refusal question.kind };

    ghost may_preload = { λ _ _ _ taken. taken ≡ true };

    fn enqueue(&self, ask: AskEnq) -> AnsweredEnq {
        self.pass(ask.number());
        ask.not_taken()
    }

    fn dequeue(&self, ask: AskDeq) -> AnsweredDeq {
        self.pass(ask.number());
        ask.empty()
    }

    fn preload(&self, _place: usize, _value: u64) -> bool {
        true
    }
}
