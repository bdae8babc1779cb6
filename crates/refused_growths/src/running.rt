//! Runs.
use crate::deciding::decided;
use event_records::{Event, Lists, What};
use history_merge::History;
use queue_interface::{Entry, LockedQueue, ScriptQueue, TestQueue};
use std::alloc::{AllocError, Global};
use std::process::Abort;
use std::test::Fail;
use std::thread::Threads;
use stress_run::{Recorded, RunFault, run};
use verdicts::Verdict;
use workloads::Plan;

/// The number of tries of a push. A refused round leaves the rings full, and then the workers use up all their tries.
const TRIES: u32 = 20_000;

/// Returns whether a run without a history may have this fault: out of memory, a ring without a token, or a stalled
/// worker if a thread couldn't be started.
fn is_allowed(fault: RunFault) -> bool {
    match fault {
        RunFault::Memory => true,
        RunFault::CloseLost(thread) | RunFault::Stalled(thread) => thread < 2,
        RunFault::Limit | RunFault::Roles | RunFault::Uncertified(_) | RunFault::Preload(_) =>
            false,
    }
}

/// Returns a queue that answers two workers from a table.
fn script(alloc: Global) -> Result<ScriptQueue, AllocError> {
    let first = vec![in alloc; Entry::Taken, Entry::Got(0), Entry::Empty]?;
    let second = vec![in alloc; Entry::Empty, Entry::Taken, Entry::NotTaken]?;
    Ok(ScriptQueue::new(vec![in alloc; first, second]?))
}

/// Runs the plan of this text on a queue. If that fails with an allowed fault, runs it on the other queue, which may
/// not fail.
fn recorded_of<R: Threads + Sync + Abort>(
    rt: &R,
    alloc: Global,
    queue: &dyn TestQueue,
    other: &dyn TestQueue,
    text: &str,
    ring: usize,
) -> Result<Recorded, Fail> {
    let plan = match Plan::from_text(alloc, text) {
        Ok(plan) => plan,
        Err(_) => Plan::from_text(alloc, text)?,
    };
    match run(rt, alloc, queue, &plan, ring, TRIES) {
        Ok(recorded) => Ok(recorded),
        Err(fault) => {
            assert!(rt; is_allowed(fault), "{fault:?}");
            Ok(run(rt, alloc, other, &plan, ring, TRIES)?)
        }
    }
}

/// Returns whether these are the events of a list, apart from their tickets.
fn are_events(list: &[Event], whats: &[What]) -> bool {
    for (event, what) in list.iter().zip(whats) {
        if event.what != *what {
            return false;
        }
    }
    list.len() == whats.len()
}

/// The events of the script's first worker.
const FIRST: [What; 6] = [
    What::CallEnq(0),
    What::RetEnq,
    What::CallDeq,
    What::RetDeq(0),
    What::CallDeq,
    What::RetEmpty,
];

/// The events of the second one.
const SECOND: [What; 6] = [
    What::CallDeq,
    What::RetEmpty,
    What::CallEnq(4_294_967_297),
    What::RetEnq,
    What::CallEnq(4_294_967_298),
    What::RetNot,
];

/// Returns whether these are the lists of the script.
fn are_scripted(lists: &Lists) -> bool {
    match lists.as_slice() {
        [one, other] => are_events(one, &FIRST) && are_events(other, &SECOND),
        _ => false,
    }
}

#[test]
fn a_scripted_run_is_recorded_or_fails(rt: HostRuntime) -> Result<(), Fail> {
    let queue = match script(rt.alloc()) {
        Ok(queue) => queue,
        Err(_) => script(rt.alloc())?,
    };
    let recorded = recorded_of(&rt, rt.alloc(), &queue, &queue, "EDD\nDEE\n", 2)?;
    assert!(rt; recorded.total() == 12 && are_scripted(recorded.lists()));
    Ok(())
}

/// Returns the number of failed enqueues of a list.
fn refusals(list: &[Event]) -> usize {
    let mut count = 0usize;
    for event in list {
        if event.what == What::RetNot {
            count = count.saturating_add(1);
        }
    }
    count
}

/// Returns whether two workers' lists have at most `most` failed enqueues.
fn has_refusals(lists: &Lists, most: usize) -> bool {
    match lists.as_slice() {
        [one, other] => refusals(one).saturating_add(refusals(other)) <= most,
        _ => false,
    }
}

/// Returns the history of a run.
fn history_of(alloc: Global, recorded: &Recorded) -> Result<History, AllocError> {
    match recorded.history(alloc) {
        Ok(history) => Ok(history),
        Err(_) => recorded.history(alloc),
    }
}

/// Returns whether a run's history has this many operations and is linearizable.
fn is_linearizable(
    alloc: Global,
    recorded: &Recorded,
    operations: usize,
) -> Result<bool, AllocError> {
    let history = history_of(alloc, recorded)?;
    let verdict = decided(alloc, &history)?;
    Ok(history.operations().len() == operations && matches!(verdict, Verdict::Yes(_)))
}

#[test]
fn a_run_over_a_growing_queue_is_legal_or_fails(rt: HostRuntime) -> Result<(), Fail> {
    let queue = LockedQueue::new(rt.alloc(), rt);
    let other = LockedQueue::new(rt.alloc(), rt);
    let recorded = recorded_of(&rt, rt.alloc(), &queue, &other, "EED\nEED\n", 64)?;
    // All enqueues succeed, except one whose growth is refused.
    assert!(rt; has_refusals(recorded.lists(), 1));
    assert!(rt; is_linearizable(rt.alloc(), &recorded, 6)?);
    Ok(())
}
