//! Runs of a queue under test: workers make the operations of a plan on it, each in a thread of its own, and record
//! events.
//!
//! For each operation, a worker draws a ticket, calls the queue, and draws another ticket. It pushes the call and the
//! return into its ring, which a collector drains meanwhile. A run returns one list of events for each worker, with
//! all that the worker did, in order. `run_proved` makes its own queue, with one lock, two or none, whose recorded
//! history is linearizable.
#![tactic(auto)]

mod asked;
mod closing;
mod crew;
mod ends;
mod faults;
mod lock_free;
mod making;
mod proved;
mod proving;
mod ring;
mod roles;
mod runs;
mod start;
mod two_locks;
mod worker;

pub use event_records::{MAX_OPERATIONS, MAX_THREAD_OPERATIONS};
pub use faults::{RunFault, least_fault};
pub use proving::{ProvedQueue, run_proved};
pub use runs::{Recorded, run, run_from};
pub use start::Start;
pub use worker::{Worker, WorkerFault, one_call};
pub use workloads::{MAX_WORKERS, Plan};

/// The maximum number of tries of a push.
pub const MAX_TRIES: u32 = 10_000_000;

/// The number of values that the ring of `ProvedQueue::Ring` has room for, unless a run has more initial values.
pub const RING_PLACES: usize = 64;
