use event_records::{Event, Lists, MAX_WORKERS, NAMES_OF_A_THREAD, What};
use history_merge::merge;
use queue_interface::{Entry, GateQueue, ScriptQueue};
use std::alloc::{AllocError, Global};
use std::test::Fail;
use std::thread::Threads;
use stress_run::run;
use workloads::Plan;

// Runs two dequeues of each worker on a gate, and returns how many of the calls saw those of all workers arrive. The
// rings have room for one dequeue.
fn run_through_gate<R: Threads + Sync>(
    rt: &R,
    alloc: Global,
    gate: &GateQueue,
    plan: &str,
) -> Result<u64, Fail> {
    let plan = Plan::from_text(alloc, plan)?;
    run(rt, alloc, gate, &plan, 2, 1_000_000)?;
    Ok(gate.passed())
}

#[test]
fn workers_are_inside_the_queue_at_once(rt: HostRuntime) -> Result<(), Fail> {
    let two = GateQueue::new(2, 10_000_000);
    assert!(rt; run_through_gate(&rt, rt.alloc(), &two, "DD\nDD\n")? == 4);
    let four = GateQueue::new(4, 10_000_000);
    assert!(rt; run_through_gate(&rt, rt.alloc(), &four, "DD\nDD\nDD\nDD\n")? == 8);
    Ok(())
}

// Returns a script in which each worker's first enqueue succeeds.
fn a_value_of_each(alloc: Global) -> Result<ScriptQueue, AllocError> {
    let mut rows = Vec::new(alloc);
    for _ in 0..MAX_WORKERS {
        rows.push(vec![in alloc; Entry::Taken]?)?;
    }
    Ok(ScriptQueue::new(rows))
}

// Returns whether these are the call and the return of a worker's first enqueue.
fn is_first_enqueue(worker: usize, events: &[Event]) -> bool {
    match events {
        [call, ret] => {
            call.what == What::CallEnq((worker as u64).wrapping_mul(NAMES_OF_A_THREAD))
                && ret.what == What::RetEnq
        }
        _ => false,
    }
}

// A plan of 32 workers with one enqueue each.
const THIRTY_TWO: &str =
    "E\nE\nE\nE\nE\nE\nE\nE\nE\nE\nE\nE\nE\nE\nE\nE\nE\nE\nE\nE\nE\nE\nE\nE\nE\nE\nE\nE\nE\nE\nE\nE\n";

// Returns whether each list has the call and the return of its worker's first enqueue.
fn are_first_enqueues(lists: &Lists) -> bool {
    let lists = lists.as_slice();
    for (worker, list) in lists.iter().enumerate() {
        if !is_first_enqueue(worker, list.as_slice()) {
            return false;
        }
    }
    lists.len() == 32
}

// Returns whether the tickets of all lists are 0, 1, 2 and so on, `count` in all.
fn are_first_tickets(alloc: Global, lists: &Lists, count: usize) -> Result<bool, AllocError> {
    let merged = merge(alloc, lists)?;
    for (n, event) in merged.iter().enumerate() {
        if event.ticket != n as u64 {
            return Ok(false);
        }
    }
    Ok(merged.len() == count)
}

// Runs that plan. Returns whether the lists are those of its workers, whether they have the first 64 tickets, and the
// number of tickets drawn.
fn run_thirty_two<R: Threads + Sync>(rt: &R, alloc: Global) -> Result<(bool, bool, u64), Fail> {
    let plan = Plan::from_text(alloc, THIRTY_TWO)?;
    let queue = a_value_of_each(alloc)?;
    let recorded = run(rt, alloc, &queue, &plan, 2, 1_000_000)?;
    let total = recorded.total();
    let lists = recorded.into_lists();
    let are_counted = are_first_tickets(alloc, &lists, 64)?;
    Ok((are_first_enqueues(&lists), are_counted, total))
}

#[test]
fn thirty_two_workers_are_recorded(rt: HostRuntime) -> Result<(), Fail> {
    assert!(rt; run_thirty_two(&rt, rt.alloc())? == (true, true, 64));
    Ok(())
}
