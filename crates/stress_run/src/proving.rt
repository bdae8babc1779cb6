// Runs of proved queues.
ghost use Rattle.std.specs.Prelude.{◌≡◌, ◌≢◌, ℕ, ◌*◌, ◌⊎◌, ◌↔◌, List, [], Err, length, sum_by, max, ◌+◌, true, IfOk};
ghost use Rattle.std.specs.Prelude.{IfErr, IfSome, IsTrue};
ghost use Rattle.event_records.specs.declared.event.Event.{Event};
ghost use Rattle.history_merge.specs.Initial.{IsCompleteFrom};
ghost use Rattle.history_merge.specs.Legal.{IsLinearizable};
ghost use Rattle.history_merge.specs.Merge.{IsMerged};
ghost use Rattle.history_merge.specs.Operations.{operations_of};
ghost use Rattle.queue_interface.specs.Answers.{AnswersInKind};
ghost use Rattle.recorder_core.specs.Initial.{AreInitialNames};
ghost use Rattle.recorder_core.specs.Replay.{AreRecorded, Replays};
ghost use Rattle.stress_run.specs.Bounded.{IsLinearizableWithin, room_of};
ghost use Rattle.stress_run.specs.Failed.{IsFaultOfRun};
ghost use Rattle.stress_run.specs.Faults.{IsWithinLimits};
ghost use Rattle.stress_run.specs.Inner.Proved.{IsProvedRun, IsRunWithin};
ghost use Rattle.stress_run.specs.Operations.{IsRun};
ghost use Rattle.stress_run.specs.declared.TheConstants.{RING_PLACES};
ghost use Rattle.stress_run.specs.declared.faults.RunFault.TheVariants.{Limit, Roles, Memory, Preload};
ghost use Rattle.stress_run.specs.Roles.{CanRun, HasOneOfEach};
ghost use Rattle.tickets.specs.Views.{fresh_pass};

use crate::RING_PLACES;
use crate::ends::Ends;
use crate::faults::RunFault;
use crate::lock_free::LockFree;
use crate::making::Sizes;
use crate::proved::{OfRun, Session};
use crate::ring::Ring;
use crate::roles::has_one_of_each;
use crate::runs::{Recorded, admitted, run_on};
use crate::two_locks::TwoLocks;
use queue_interface::{Fifo, ValueList};
use std::alloc::{AllocError, Global};
use std::marker::Brand;
use std::sync::Wait;
use std::thread::Threads;
use tickets::{HeadEnd, Log, Pass, TailEnd, Tickets};
use workloads::Plan;

// The result of a run.
type Ran = Result<Recorded, RunFault>;

/// A queue whose runs are proved linearizable.
#[derive(Clone, Copy, Debug, PartialEq, Eq)]
pub enum ProvedQueue {
    /// A list under one lock.
    OneLock,
    /// The queue with two locks of Michael and Scott (1996). An enqueue takes only the lock of the tail, a dequeue
    /// only that of the head. Both share a ring like that of `Ring`, which has room for all initial values and
    /// operations.
    TwoLocks,
    /// The queue without a lock of Michael and Scott (1996), on a row of nodes, one for each initial value and
    /// operation, none of which is used twice. An enqueue exchanges the mark of the first empty node for its value. A
    /// dequeue reads the first node whose value was not dequeued, and exchanges the count of dequeued values for the
    /// next number. A call whose exchange fails goes on from what it found, so it waits for nobody.
    LockFree,
    /// The bounded queue without a lock of Lamport (1983, "Specifying concurrent program modules"), for one producer
    /// and one consumer: a ring of cells that are used again and again. It has room for `RING_PLACES` values, or for
    /// all initial values if these are more.
    ///
    /// The producer alone writes the cells and the position of the tail, and the consumer alone that of the head. So
    /// neither needs a lock: room that the producer saw stays until it uses it, and so does a value that the consumer
    /// saw. An enqueue succeeds at the store of the tail's next position, after it wrote its value into the cell. It
    /// fails, since the ring is full, at a load of the head's position that is the tail's next one. A dequeue gets its
    /// value at the store of the head's next position, which frees the cell, after it read the value. It finds the
    /// queue empty at a load of the tail's position that is the head's.
    Ring,
}

// What a run begins with, if it may: the initial values, the plan and the sizes.
#[derive(Drop)]
struct Start<'p> {
    held: Vec<u64>,
    plan: &'p Plan,
    sizes: Sizes,
    ghost names: { AreInitialNames held.items },
    ghost within: { IsWithinLimits sizes.ring sizes.tries },
}

// Copies these values into a list.
fn listed(alloc: Global, values: &[u64]) -> Result<Fifo, AllocError>
    ensures { IfOk result (λ list. list ≡ values.now) }
{
    let mut list = Fifo::empty(alloc);
    for value in values {
        if !list.put(*value) {
            return Err(AllocError);
        }
    }
    Ok(list)
}

// Makes a run on a list under one lock, with these tickets and this log. The caller chooses `J` for its run.
fn run_named<J: OfRun + Send + Sync, R: Threads + Wait + Sync>(
    rt: &R,
    alloc: Global,
    named: (Tickets, Pass, Log),
    start: Start<'_>,
) -> Result<Recorded, RunFault>
    requires run { (named.0.key ≡ J.word) × (start.held.items ≡ J.initial) }
    requires budget { named.0.budget ≡ 2 * sum_by length start.plan.now }
    requires pass { named.1 ≡ fresh_pass named.0.key (2 * sum_by length start.plan.now) }
    requires log { named.2 ≡ record { key = named.0.key; notes = [] } }
    ensures proved { IfOk result (IsProvedRun start.entry.plan.now start.entry.sizes.ring start.entry.held.items) }
    ensures fault { IfErr result (IsFaultOfRun AnswersInKind [] start.entry.plan.now start.entry.sizes) }
{
    let Start { held, plan, sizes } = start;
    let (tickets, pass, log) = named;
    let list = listed(alloc, held.as_slice())?;
    let queue: Session<'_, J, R> = Session::new(rt, list, log);
    let (lists, pass) = run_on(rt, alloc, &queue, &tickets, pass, Ends::none(), plan, sizes)?;
    let log = queue.into_log();
    let total = tickets.close_with_log(pass, log);
    Ok(Recorded {
        initial: held,
        lists,
        total,
    })
}

// Makes a run on a ring with a lock for each end, which stands beside the ticket word. The caller chooses `J` for its
// run.
fn run_between<J: OfRun + Send + Sync, R: Threads + Wait + Sync>(
    rt: &R,
    alloc: Global,
    named: (Tickets, Pass, TailEnd, HeadEnd),
    start: Start<'_>,
) -> Result<Recorded, RunFault>
    requires run { (named.0.key ≡ J.word) × (named.0.ended ≡ true) × (named.0.initial ≡ start.held.items)
        × (named.0.room ≡ length start.held.items + sum_by length start.plan.now) }
    requires budget { named.0.budget ≡ 2 * sum_by length start.plan.now }
    requires pass { named.1 ≡ fresh_pass named.0.key (2 * sum_by length start.plan.now) }
    requires tail { named.2 ≡ named.0.key }
    requires head { named.3 ≡ named.0.key }
    ensures proved { IfOk result (IsProvedRun start.entry.plan.now start.entry.sizes.ring start.entry.held.items) }
    ensures bounded { IfOk result
        (IsRunWithin (length start.entry.held.items + sum_by length start.entry.plan.now) start.entry.held.items) }
    ensures fault { IfErr result (IsFaultOfRun AnswersInKind [] start.entry.plan.now start.entry.sizes) }
{
    let Start { held, plan, sizes } = start;
    let (tickets, pass, tail, head) = named;
    let queue: TwoLocks<'_, J, R> = TwoLocks::new(rt, tail, head);
    let (lists, pass) = run_on(rt, alloc, &queue, &tickets, pass, Ends::none(), plan, sizes)?;
    let total = tickets.close_with_ring(pass);
    Ok(Recorded {
        initial: held,
        lists,
        total,
    })
}

// Makes a run on a list under one lock, which holds the initial values at first.
fn run_one_lock<R: Threads + Wait + Sync>(rt: &R, alloc: Global, start: Start<'_>) -> Ran
    ensures proved { IfOk result (IsProvedRun start.entry.plan.now start.entry.sizes.ring start.entry.held.items) }
    ensures fault { IfErr result (IsFaultOfRun AnswersInKind [] start.entry.plan.now start.entry.sizes) }
{
    let named = Tickets::with_log(alloc, 2 * start.plan.operations())?;
    run_named::<Brand, R>(rt, alloc, named, start)
}

// Makes a run on a ring with a lock for each end, which holds the initial values at first.
fn run_two_locks<R: Threads + Wait + Sync>(rt: &R, alloc: Global, start: Start<'_>) -> Ran
    ensures proved { IfOk result (IsProvedRun start.entry.plan.now start.entry.sizes.ring start.entry.held.items) }
    ensures bounded { IfOk result
        (IsRunWithin (length start.entry.held.items + sum_by length start.entry.plan.now) start.entry.held.items) }
    ensures fault { IfErr result (IsFaultOfRun AnswersInKind [] start.entry.plan.now start.entry.sizes) }
{
    let operations = start.plan.operations();
    let room = start.held.len() + operations as usize;
    let named = Tickets::with_ring(alloc, 2 * operations, start.held.as_slice(), room)?;
    run_between::<Brand, R>(rt, alloc, named, start)
}

// Makes a run on nodes without a lock, which hold the initial values at first.
#[tactic(auto, using(crate::proofs::Ended::no_mark))]
fn run_lock_free<R: Threads + Sync>(rt: &R, alloc: Global, start: Start<'_>) -> Ran
    ensures proved { IfOk result (IsProvedRun start.entry.plan.now start.entry.sizes.ring start.entry.held.items) }
    ensures fault { IfErr result (IsFaultOfRun AnswersInKind [] start.entry.plan.now start.entry.sizes) }
{
    let Start { held, plan, sizes } = start;
    let operations = plan.operations();
    let room = held.len() + operations as usize;
    let (tickets, pass) = Tickets::with_shared_nodes(alloc, 2 * operations, held.as_slice(), room)?;
    let queue = LockFree;
    let (lists, pass) = run_on(rt, alloc, &queue, &tickets, pass, Ends::none(), plan, sizes)?;
    let total = tickets.close_with_shared_nodes(pass);
    Ok(Recorded {
        initial: held,
        lists,
        total,
    })
}

// Makes a run on a ring without a lock, which holds the initial values at first.
fn run_ring<R: Threads + Sync>(rt: &R, alloc: Global, start: Start<'_>) -> Ran
    requires roles { HasOneOfEach start.plan.now }
    ensures proved { IfOk result (IsProvedRun start.entry.plan.now start.entry.sizes.ring start.entry.held.items) }
    ensures bounded { IfOk result
        (IsRunWithin (max RING_PLACES (length start.entry.held.items)) start.entry.held.items) }
    ensures fault { IfErr result (IsFaultOfRun AnswersInKind [] start.entry.plan.now start.entry.sizes) }
{
    let Start { held, plan, sizes } = start;
    let (tickets, pass, tail, head) = Tickets::with_ring(
        alloc,
        2 * plan.operations(),
        held.as_slice(),
        RING_PLACES.max(held.len()),
    )?;
    let ends = Ends::both(tail, head);
    let (lists, pass) = run_on(rt, alloc, &Ring, &tickets, pass, ends, plan, sizes)?;
    let total = tickets.close_with_ring(pass);
    Ok(Recorded {
        initial: held,
        lists,
        total,
    })
}

// Returns whether the queue can run this plan.
fn can_run(queue: ProvedQueue, plan: &Plan) -> bool
    ensures { IsTrue result ↔ CanRun queue plan.now }
{
    match queue {
        ProvedQueue::Ring => has_one_of_each(plan.rows()),
        ProvedQueue::OneLock | ProvedQueue::TwoLocks | ProvedQueue::LockFree => true,
    }
}

// Makes a run on this queue, which holds the initial values at first.
fn run_held<R: Threads + Wait + Sync>(
    rt: &R,
    alloc: Global,
    queue: ProvedQueue,
    start: Start<'_>,
) -> Result<Recorded, RunFault>
    requires roles { CanRun queue start.plan.now }
    ensures proved { IfOk result (IsProvedRun start.entry.plan.now start.entry.sizes.ring start.entry.held.items) }
    ensures bounded { IfSome (room_of queue start.entry.held.items start.entry.plan.now)
        (λ room. IfOk result (IsRunWithin room start.entry.held.items)) }
    ensures fault { IfErr result (IsFaultOfRun AnswersInKind [] start.entry.plan.now start.entry.sizes) }
{
    match queue {
        ProvedQueue::OneLock => run_one_lock(rt, alloc, start),
        ProvedQueue::TwoLocks => run_two_locks(rt, alloc, start),
        ProvedQueue::LockFree => run_lock_free(rt, alloc, start),
        ProvedQueue::Ring => run_ring(rt, alloc, start),
    }
}

/// Runs a plan on a proved queue, which is made for this run alone and holds the initial values at first. The recorded
/// history is linearizable from these values, whatever the schedule of the threads.
///
/// A ring has room for a fixed number of values, and with two locks for all values of the run. In the linearization an
/// enqueue on these fails if the ring is full, and only then.
///
/// The step that decides an answer also notes it. The notes exist only in proofs; with a lock or in a ring, each costs
/// four loads of the ticket word. Faults, waiting and memory are those of [`run_from`](crate::run_from), with the
/// memory of the list, the nodes or the ring in place of the queue's. `Preload` never comes. `Roles` comes, before any
/// thread is started, if the queue is a ring and the plan gives enqueues to more than one worker, or dequeues.
pub fn run_proved<R: Threads + Wait + Sync>(
    rt: &R,
    alloc: Global,
    queue: ProvedQueue,
    initial: &[u64],
    plan: &Plan,
    ring: usize,
    tries: u32,
) -> Result<Recorded, RunFault>
    ensures recorded { IfOk result (λ r. IsRun AnswersInKind plan.now r.lists r.total) }
    ensures initial { IfOk result (λ r. r.initial ≡ initial.now) }
    ensures lists { IfOk result (λ r. AreRecorded r.lists) }
    ensures replays { IfOk result (λ r. Replays ring initial.now r.lists) }
    ensures fits { IfOk result (λ r. (merged : List Event) → IsMerged r.lists merged
        → IsCompleteFrom initial.now merged) }
    ensures linearizable { IfOk result (λ r. (merged : List Event) → IsMerged r.lists merged
        → IsLinearizable initial.now (operations_of merged)) }
    ensures bounded { IfSome (room_of queue initial.now plan.now) (λ room. IfOk result (λ r. (merged : List Event)
        → IsMerged r.lists merged → IsLinearizableWithin room initial.now (operations_of merged))) }
    ensures sizes { ¬ IsWithinLimits ring tries → result ≡ Err Limit }
    ensures names { ¬ AreInitialNames initial.now → (result ≡ Err Limit) ⊎ (result ≡ Err Memory) }
    ensures preloads { (place : ℕ) → result ≢ Err (Preload place) }
    ensures roles { result ≡ Err Roles → ¬ CanRun queue plan.now }
    ensures refused { IsWithinLimits ring tries → AreInitialNames initial.now → ¬ CanRun queue plan.now
        → (result ≡ Err Roles) ⊎ (result ≡ Err Memory) }
    ensures fault { IfErr result (λ fault. (fault ≡ Roles)
        ⊎ IsFaultOfRun AnswersInKind initial.now plan.now (record { ring = ring; tries = tries }) fault) }
{
    let (sizes, held) = admitted(alloc, initial, ring, tries)?;
    if !can_run(queue, plan) {
        return Err(RunFault::Roles);
    }
    run_held(rt, alloc, queue, Start { held, plan, sizes })
}
