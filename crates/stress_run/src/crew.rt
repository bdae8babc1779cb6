// Workers at work, each on its row of a plan.
ghost use Rattle.std.specs.Prelude.{OnOk, All, IfOk};
ghost use Rattle.std.specs.List.{AllZip};
ghost use Rattle.stress_run.specs.Noted.{KeepsNotes};
ghost use Rattle.stress_run.specs.Workers.{Works, WorksOrStalls, WorksIn};
ghost use Rattle.stress_run.specs.Inner.Workers.{IsReady, IsReadyIn};

use crate::asked::Asked;
use crate::start::Start;
use crate::worker::{Worker, WorkerFault, call_on};
use event_records::Kind;
use std::alloc::AllocError;
use std::sync::atomic::AtomicBool;
use std::thread;
use std::thread::Threads;
use tickets::Tickets;
use workloads::Row;

// Makes operations of these kinds in turn, and stops at the first that stalls.
fn make_all<Q: Asked>(
    queue: &Q,
    tickets: &Tickets,
    worker: &mut Worker,
    kinds: &[Kind],
    is_abandoned: &AtomicBool,
) -> Result<(), WorkerFault>
    requires ready { IsReady (Q.serves queue.now tickets.now) tickets.now.key kinds.now worker.old }
    ensures works { OnOk result (Works (Q.may queue.now) kinds.now worker.old worker.new) }
    ensures stays { WorksOrStalls (Q.may queue.now) kinds.now worker.old worker.new }
    ensures told { KeepsNotes (Q.notes queue.now) worker.old worker.new }
{
    for kind in kinds {
        call_on(queue, tickets, worker, *kind, is_abandoned)?;
    }
    Ok(())
}

// Runs a worker on a row, and returns it.
fn work<Q: Asked>(
    queue: &Q,
    tickets: &Tickets,
    worker: Worker,
    kinds: &[Kind],
    is_abandoned: &AtomicBool,
) -> Worker
    requires ready { IsReady (Q.serves queue.now tickets.now) tickets.now.key kinds.now worker }
    ensures works { WorksOrStalls (Q.may queue.now) kinds.now worker result }
    ensures told { KeepsNotes (Q.notes queue.now) worker result }
{
    let mut worker = worker;
    // A worker that stalled knows it itself.
    let _ = make_all(queue, tickets, &mut worker, kinds, is_abandoned);
    worker
}

// Runs a worker on its row of a plan, and returns it.
fn work_row<Q: Asked>(
    queue: &Q,
    tickets: &Tickets,
    rows: &[Row],
    worker: Worker,
    is_abandoned: &AtomicBool,
) -> Worker
    requires ready { IsReadyIn (Q.serves queue.now tickets.now) tickets.now.key rows.now worker }
    ensures works { WorksIn (Q.may queue.now) rows.now worker result }
    ensures told { KeepsNotes (Q.notes queue.now) worker result }
{
    let row = &rows[worker.place()];
    work(queue, tickets, worker, row.as_slice(), is_abandoned)
}

// Runs each worker on its row of a plan, in a thread of its own, or one after another if no thread can be started.
// They start together, if they meet in time. Once `is_abandoned` is set nothing drains their rings, and a worker
// stalls at the first push that finds no room. The workers are lost if memory runs out.
pub(crate) fn work_all<Q: Asked + Sync, R: Threads + Sync>(
    rt: &R,
    queue: &Q,
    tickets: &Tickets,
    rows: &[Row],
    workers: Vec<Worker>,
    is_abandoned: &AtomicBool,
) -> Result<Vec<Worker>, AllocError>
    requires ready { All (IsReadyIn (Q.serves queue.now tickets.now) tickets.now.key rows.now) workers.items }
    ensures worked { IfOk result (λ after. AllZip (WorksIn (Q.may queue.now) rows.now) workers.items after.items) }
    ensures told { IfOk result (λ after. AllZip (KeepsNotes (Q.notes queue.now)) workers.items after.items) }
{
    let start = Start::new(workers.len());
    let on_row = |worker: Worker| -> Worker
        requires { IsReadyIn (Q.serves queue.now tickets.now) tickets.now.key rows.now worker }
        ensures works { WorksIn (Q.may queue.entry.now) rows.entry.now worker result }
        ensures told { KeepsNotes (Q.notes queue.entry.now) worker result }
    {
        start.meet();
        work_row(queue, tickets, rows, worker, is_abandoned)
    };
    thread::map_vec(rt, workers, &on_row)
}
