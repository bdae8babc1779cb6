// The questions that a queue is asked, also if none of them is recorded.
use event_records::{AnsweredDeq, AnsweredEnq, AskDeq, AskEnq};
use queue_interface::TestQueue;
use std::alloc::Global;
use std::sync::atomic::{AtomicBool, AtomicU64, Ordering};
use std::test::Fail;
use std::thread::Threads;
use stress_run::{RunFault, run};
use workloads::Plan;

// A queue for one thread. It counts its questions, and notes whether each is the next of the thread.
#[derive(Drop)]
pub(crate) struct CountingQueue {
    asked: AtomicU64,
    out_of_turn: AtomicBool,
}

impl CountingQueue {
    pub(crate) fn new() -> CountingQueue {
        CountingQueue {
            asked: AtomicU64::new(0),
            out_of_turn: AtomicBool::new(false),
        }
    }

    // Returns the number of questions asked, or none if one was asked out of turn.
    pub(crate) fn asked(&self) -> Option<u64> {
        if self.out_of_turn.load(Ordering::SeqCst) {
            None
        } else {
            Some(self.asked.load(Ordering::SeqCst))
        }
    }

    fn count(&self, number: u64) {
        if self.asked.fetch_add(1, Ordering::SeqCst) != number {
            self.out_of_turn.store(true, Ordering::SeqCst);
        }
    }
}

impl TestQueue for CountingQueue {
    ghost use Rattle.queue_interface.specs.Answers.{AnswersInKind, TakesOrRefuses};

    ghost may = { λ _. AnswersInKind };

    ghost may_preload = { λ _ _. TakesOrRefuses };

    fn enqueue(&self, ask: AskEnq) -> AnsweredEnq {
        self.count(ask.number());
        ask.taken()
    }

    fn preload(&self, _place: usize, _value: u64) -> bool {
        true
    }

    fn dequeue(&self, ask: AskDeq) -> AnsweredDeq {
        self.count(ask.number());
        ask.empty()
    }
}

// Returns the number of questions that a run of one worker's 20,000 operations asks, and the fault if it fails.
fn run_counted<R: Threads + Sync>(
    rt: &R,
    alloc: Global,
    ring: usize,
    tries: u32,
) -> Result<(Option<u64>, Option<RunFault>), Fail> {
    let plan = Plan::from_seed(alloc, 1, 1, 20_000, 50)?;
    let queue = CountingQueue::new();
    let ended = run(rt, alloc, &queue, &plan, ring, tries);
    Ok((queue.asked(), ended.err()))
}

#[test]
fn a_run_asks_what_it_records(rt: HostRuntime) -> Result<(), Fail> {
    let ended = run_counted(&rt, rt.alloc(), 65_536, 1)?;
    assert!(rt; ended == (Some(20_000), None), "{ended:?}");
    Ok(())
}

// A second run would begin again with question 0.
#[test]
fn a_run_that_stalls_is_not_run_again(rt: HostRuntime) -> Result<(), Fail> {
    let (asked, fault) = run_counted(&rt, rt.alloc(), 2, 1)?;
    assert!(rt; asked.is_some());
    assert!(rt; fault.is_none() || fault == Some(RunFault::Stalled(0)));
    Ok(())
}
