//! The limits of recording, running and reading.
use tickets::TICKET_LIMIT;

/// The greatest ticket of an event.
pub const MAX_TICKET: u64 = TICKET_LIMIT - 1;

/// The maximum number of threads of a history or a machine. They are numbered from 0.
pub const MAX_THREADS: usize = 64;

/// The greatest number of a thread in an event or a text.
pub const MAX_THREAD: u8 = MAX_THREADS as u8 - 1;

/// The maximum number of workers of a run.
pub const MAX_WORKERS: usize = 32;

/// The number of values that each thread can name.
pub const NAMES_OF_A_THREAD: u64 = 1 << 32;

/// The maximum number of operations of one thread or worker.
pub const MAX_THREAD_OPERATIONS: u64 = 100_000;

/// The maximum number of operations of a run or of a machine, over all threads.
pub const MAX_OPERATIONS: u64 = 1_000_000;

/// The maximum number of events of a history.
pub const MAX_EVENTS: usize = 2_000_000;

/// The maximum number of initial values of a history, which its queue holds before the first event.
pub const MAX_INITIAL: usize = 100_000;

/// The maximum number of initial values that the command `stress` puts into a queue.
pub const MAX_STRESS_INITIAL: u64 = 1_000;

/// The least name of an initial value of a run, above the names of all threads' values.
pub const LEAST_INITIAL_NAME: u64 = MAX_THREADS as u64 * NAMES_OF_A_THREAD;

/// The time of ticket 0. On the scale of times the initial values come before all tickets: the j-th of k initial
/// values is enqueued at the time `ORIGIN - k + j`, which is above 0, and ticket c has the time `ORIGIN + c`.
pub const ORIGIN: u64 = MAX_INITIAL as u64 + 1;

/// The greatest time, that of the greatest ticket.
pub const MAX_TIME: u64 = MAX_TICKET + ORIGIN;

/// The maximum number of lines of a claimed verdict: one for each operation or initial value.
pub const MAX_CLAIM_LINES: u64 = MAX_OPERATIONS + MAX_INITIAL as u64;

/// The greatest seed that the command line accepts for a plan.
pub const MAX_SEED: u64 = u32::MAX as u64;

/// The maximum number of steps in the text of a schedule.
pub const MAX_STEPS: usize = 2_000_000;

/// The least capacity of a ring, in events.
pub const MIN_RING: usize = 2;

/// The greatest capacity of a ring, in events.
pub const MAX_RING: usize = 65_536;
