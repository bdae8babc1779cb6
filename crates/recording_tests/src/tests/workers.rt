ghost use Rattle.std.specs.Prelude.{◌≡◌, ◌+◌, ◌≤◌, ◌<◌, IfOk};
ghost use Rattle.event_records.specs.declared.limits.TheConstants.{NAMES_OF_A_THREAD};

use super::askings::CountingQueue;
use event_records::{Kind, Namer, ThreadNo};
use event_rings::{DrainEnd, ring};
use queue_interface::TestQueue;
use std::alloc::Global;
use std::test::Fail;
use stress_run::{Worker, WorkerFault, one_call};
use tickets::Tickets;

// Returns a worker with ten tickets, a ring of two and three tries, and the other end of the ring, which is never
// drained.
fn lone_worker(alloc: Global) -> Result<(Tickets, Worker, DrainEnd), Fail>
    ensures key { IfOk result (λ made. made.1.pass.key ≡ made.0.key) }
    ensures left { IfOk result (λ made. made.1.pass.left ≡ 10) }
    ensures asked { IfOk result (λ made. made.1.asked ≡ 0) }
{
    let (tickets, pass) = Tickets::new(alloc, 10)?;
    let thread = ThreadNo::new(0).ok_or("thread")?;
    let (push, drain) = ring(alloc, thread, 2)?;
    let worker = Worker::new(pass, Namer::new(thread), push, 3);
    Ok((tickets, worker, drain))
}

// Runs one operation, which draws at most two tickets.
fn operate(
    worker: &mut Worker,
    tickets: &Tickets,
    queue: &dyn TestQueue,
    kind: Kind,
) -> Result<(), WorkerFault>
    requires left { 2 ≤ worker.old.pass.left }
    requires room { worker.old.asked < NAMES_OF_A_THREAD }
    requires key { worker.old.pass.key ≡ tickets.now.key }
    ensures key { worker.new.pass.key ≡ worker.old.pass.key }
    ensures left { worker.old.pass.left ≤ worker.new.pass.left + 2 }
    ensures asked { worker.new.asked ≤ worker.old.asked + 1 }
{
    match one_call(queue, tickets, worker, kind) {
        Ok(()) => Ok(()),
        Err(fault) => Err(fault),
    }
}

// Returns whether a worker completes an enqueue and stalls in its next operation, and, if `one_more`, in one more.
fn stalls(
    worker: &mut Worker,
    tickets: &Tickets,
    queue: &dyn TestQueue,
    kind: Kind,
    one_more: bool,
) -> bool
    requires left { 6 ≤ worker.old.pass.left }
    requires room { worker.old.asked ≡ 0 }
    requires key { worker.old.pass.key ≡ tickets.now.key }
{
    let first = operate(worker, tickets, queue, Kind::Enq);
    let stalled = Err(WorkerFault::Stalled);
    let mut last = operate(worker, tickets, queue, kind);
    if one_more && last == stalled {
        last = operate(worker, tickets, queue, kind);
    }
    first.is_ok() && last == stalled && worker.is_stopped()
}

// Runs a worker whose ring is never drained. Its second operation is of this kind, and if `one_more` it makes a
// third. Returns the number of questions that its queue was asked, and the number of tickets drawn.
fn asked_and_drawn(alloc: Global, kind: Kind, one_more: bool) -> Result<(Option<u64>, u64), Fail> {
    let (tickets, mut worker, _drain) = lone_worker(alloc)?;
    let queue = CountingQueue::new();
    if !stalls(&mut worker, &tickets, &queue, kind, one_more) {
        return Err("no stall".into());
    }
    let (_token, pass) = worker.close().ok().ok_or("closed")?;
    Ok((queue.asked(), pass.share() - pass.left()))
}

// A queue isn't asked before the call is pushed.
#[test]
fn a_worker_stalls_where_nobody_drains(rt: HostRuntime) -> Result<(), Fail> {
    for kind in [Kind::Enq, Kind::Deq] {
        for one_more in [false, true] {
            let found = asked_and_drawn(rt.alloc(), kind, one_more)?;
            assert!(rt; found == (Some(1), 3), "{kind:?} {one_more}: {found:?}");
        }
    }
    Ok(())
}
