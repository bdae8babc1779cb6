// The start of the workers. Each waits for the others, for a bounded number of turns.
use std::sync::atomic::{AtomicBool, AtomicU64, Ordering};
use std::{hint, thread};

// Number of looks for the others in one turn, after which a worker lets another thread run.
const LOOKS: u32 = 1_000;

// Number of turns that a worker waits for the others to arrive: some hundredths of a second if nothing else runs.
const ARRIVAL_TURNS: u32 = 2_500;

// Number of turns that it then waits for two of them to run at the same time.
const RUNNING_TURNS: u32 = 6_000;

// Number of times that a worker must find in one turn that another one came by, before it concludes that both run. On
// one core another one comes by only if the first is taken off it.
const PASSES: u32 = 64;

/// The start of a run. It counts the workers that have arrived, and detects whether two of them run at the same time.
///
/// `run` starts its workers with it, and so can a caller that runs [`Worker`](crate::Worker)s in threads of its own.
/// It never waits for ever, and takes no memory.
#[derive(Drop)]
pub struct Start {
    workers: u64,
    arrivals: AtomicU64,
    // The place of arrival of the worker that came by last.
    last_by: AtomicU64,
    is_open: AtomicBool,
}

impl Start {
    /// Makes the start for this many workers.
    pub fn new(workers: usize) -> Start {
        Start {
            workers: workers as u64,
            arrivals: AtomicU64::new(0),
            last_by: AtomicU64::new(0),
            is_open: AtomicBool::new(false),
        }
    }

    /// Arrives, and waits until all workers have arrived and two of them are seen to run at the same time.
    ///
    /// A system may let all threads of a young process take turns on one core, so that one worker is done before the
    /// next begins. So a worker waits up to 2,500 turns of 1,000 looks for the others, and then up to 6,000 turns for
    /// two that run at once. It yields after each turn. Once a worker has used up its turns, no worker waits any more.
    /// So if no thread can be started only the first worker waits for the others, and on one core a run begins after
    /// some tenths of a second.
    pub fn meet(&self) {
        let place = self.arrivals.fetch_add(1, Ordering::SeqCst);
        self.wait_for_all();
        if self.workers > 1 {
            self.wait_for_two(place);
        }
    }

    /// Returns whether all workers are seen to have arrived, in one turn of 1,000 looks.
    pub fn sees_all(&self) -> bool {
        for _ in 0..LOOKS {
            if self.arrivals.load(Ordering::SeqCst) >= self.workers {
                return true;
            }
            hint::spin_loop();
        }
        false
    }

    // Waits until all workers have arrived. Once the turns are used up, no worker waits any more.
    fn wait_for_all(&self) {
        for _ in 0..ARRIVAL_TURNS {
            if self.sees_all() {
                return;
            }
            thread::yield_now();
        }
        self.arrivals.store(self.workers, Ordering::SeqCst);
        self.is_open.store(true, Ordering::SeqCst);
    }

    // Waits until two workers run at once. Once the turns are used up, no worker waits any more.
    fn wait_for_two(&self, place: u64) {
        for _ in 0..RUNNING_TURNS {
            if self.sees_another(place) {
                break;
            }
            thread::yield_now();
        }
        self.is_open.store(true, Ordering::SeqCst);
    }

    // Returns whether the start is open, or another worker comes by so often in one turn that it runs at the same
    // time.
    fn sees_another(&self, place: u64) -> bool {
        let mut passes = 0;
        for _ in 0..LOOKS {
            if self.is_open.load(Ordering::SeqCst) || passes >= PASSES {
                return true;
            }
            if self.last_by.swap(place, Ordering::SeqCst) != place {
                passes += 1;
            }
            hint::spin_loop();
        }
        false
    }
}
