// Runs on the proved queues.
use event_records::What::{CallDeq, CallEnq, RetDeq, RetEmpty, RetEnq, RetNot};
use event_records::{Event, LEAST_INITIAL_NAME, Lists, What};
use std::alloc::Global;
use std::sync::Wait;
use std::test::Fail;
use std::thread::Threads;
use stress_run::{ProvedQueue, RING_PLACES, RunFault, run_proved};
use workloads::Plan;

// The events of a worker's plan `EDEDDD` on a queue with one initial value.
const EVENTS: [What; 12] = [
    CallEnq(0),
    RetEnq,
    CallDeq,
    RetDeq(LEAST_INITIAL_NAME),
    CallEnq(2),
    RetEnq,
    CallDeq,
    RetDeq(0),
    CallDeq,
    RetDeq(2),
    CallDeq,
    RetEmpty,
];

// Returns whether a list has these events.
fn are_wanted(list: &[Event]) -> bool {
    for (n, event) in list.iter().enumerate() {
        if EVENTS.get(n) != Some(&event.what) {
            return false;
        }
    }
    list.len() == EVENTS.len()
}

// Returns whether the only list of a run of that plan has these events, whether the run has that initial value, and
// the number of tickets drawn.
fn run_alone<R: Threads + Wait + Sync>(
    rt: &R,
    alloc: Global,
    queue: ProvedQueue,
) -> Result<(bool, bool, u64), Fail> {
    let plan = Plan::from_text(alloc, "EDEDDD\n")?;
    let recorded = run_proved(rt, alloc, queue, &[LEAST_INITIAL_NAME], &plan, 64, 1_000)?;
    let is_wanted = match recorded.lists().as_slice() {
        [list] => are_wanted(list.as_slice()),
        _ => false,
    };
    let is_held = recorded.initial() == [LEAST_INITIAL_NAME].as_slice();
    Ok((is_wanted, is_held, recorded.total()))
}

#[test]
fn a_list_under_one_lock_gives_the_first_value(rt: HostRuntime) -> Result<(), Fail> {
    assert!(rt; run_alone(&rt, rt.alloc(), ProvedQueue::OneLock)? == (true, true, 12));
    Ok(())
}

#[test]
fn a_ring_with_two_locks_gives_the_first_value(rt: HostRuntime) -> Result<(), Fail> {
    assert!(rt; run_alone(&rt, rt.alloc(), ProvedQueue::TwoLocks)? == (true, true, 12));
    Ok(())
}

#[test]
fn nodes_without_a_lock_give_the_first_value(rt: HostRuntime) -> Result<(), Fail> {
    assert!(rt; run_alone(&rt, rt.alloc(), ProvedQueue::LockFree)? == (true, true, 12));
    Ok(())
}

#[test]
fn a_ring_gives_the_first_value(rt: HostRuntime) -> Result<(), Fail> {
    assert!(rt; run_alone(&rt, rt.alloc(), ProvedQueue::Ring)? == (true, true, 12));
    Ok(())
}

// Returns whether a dequeue of a list returned a value.
fn is_one_dequeued(list: &[Event]) -> bool {
    for event in list {
        if matches!(event.what, RetDeq(_)) {
            return true;
        }
    }
    false
}

// Returns whether a dequeue of these lists returned a value.
fn is_any_dequeued(lists: &Lists) -> bool {
    for list in lists.as_slice() {
        if is_one_dequeued(list) {
            return true;
        }
    }
    false
}

// Returns whether a dequeue of four workers returned a value, and the number of tickets drawn.
fn run_four<R: Threads + Wait + Sync>(
    rt: &R,
    alloc: Global,
    queue: ProvedQueue,
) -> Result<(bool, u64), Fail> {
    let plan = Plan::from_seed(alloc, 7, 4, 2_000, 50)?;
    let recorded = run_proved(rt, alloc, queue, &[], &plan, 1024, 10_000_000)?;
    Ok((is_any_dequeued(recorded.lists()), recorded.total()))
}

#[test]
fn values_of_a_list_under_one_lock_are_dequeued(rt: HostRuntime) -> Result<(), Fail> {
    assert!(rt; run_four(&rt, rt.alloc(), ProvedQueue::OneLock)? == (true, 16_000));
    Ok(())
}

#[test]
fn values_of_a_ring_with_two_locks_are_dequeued(rt: HostRuntime) -> Result<(), Fail> {
    assert!(rt; run_four(&rt, rt.alloc(), ProvedQueue::TwoLocks)? == (true, 16_000));
    Ok(())
}

#[test]
fn values_of_nodes_without_a_lock_are_dequeued(rt: HostRuntime) -> Result<(), Fail> {
    assert!(rt; run_four(&rt, rt.alloc(), ProvedQueue::LockFree)? == (true, 16_000));
    Ok(())
}

// Returns the number of events of this kind.
fn count_of(list: &[Event], what: What) -> usize {
    list.iter().filter(|event| event.what == what).count()
}

// Returns how many enqueues of 100 by one worker succeed on a ring, and how many fail.
fn fill<R: Threads + Wait + Sync>(rt: &R, alloc: Global) -> Result<(usize, usize), Fail> {
    let plan = Plan::from_seed(alloc, 1, 1, 100, 100)?;
    let recorded = run_proved(rt, alloc, ProvedQueue::Ring, &[], &plan, 1024, 1_000)?;
    let Some(list) = recorded.lists().as_slice().first() else {
        return Ok((0, 0));
    };
    Ok((count_of(list, RetEnq), count_of(list, RetNot)))
}

#[test]
fn a_full_ring_fails_enqueues(rt: HostRuntime) -> Result<(), Fail> {
    assert!(rt; fill(&rt, rt.alloc())? == (RING_PLACES, 100 - RING_PLACES));
    Ok(())
}

// Returns whether a consumer dequeued a value of a producer with 2,000 enqueues, and the number of tickets drawn.
fn pass_on<R: Threads + Wait + Sync>(rt: &R, alloc: Global) -> Result<(bool, u64), Fail> {
    let plan = Plan::of_roles(alloc, 2, 1, 2_000)?;
    let recorded = run_proved(rt, alloc, ProvedQueue::Ring, &[], &plan, 4096, 10_000_000)?;
    Ok((is_any_dequeued(recorded.lists()), recorded.total()))
}

#[test]
fn values_of_a_ring_are_dequeued(rt: HostRuntime) -> Result<(), Fail> {
    assert!(rt; pass_on(&rt, rt.alloc())? == (true, 8_000));
    Ok(())
}

// Returns the fault of a run of this plan on a ring.
fn ring_fault<R: Threads + Wait + Sync>(
    rt: &R,
    alloc: Global,
    text: &str,
) -> Result<Option<RunFault>, Fail> {
    let plan = Plan::from_text(alloc, text)?;
    Ok(run_proved(rt, alloc, ProvedQueue::Ring, &[], &plan, 64, 1_000).err())
}

#[test]
fn a_ring_has_one_producer_and_one_consumer(rt: HostRuntime) -> Result<(), Fail> {
    for text in ["E\nE\n", "D\nE\nD\n", "ED\nD\n"] {
        assert!(rt;
            ring_fault(&rt, rt.alloc(), text)? == Some(RunFault::Roles),
            "{text}"
        );
    }
    for text in ["E\nD\n", "\nD\nE\n", "EDD\n\n"] {
        assert!(rt; ring_fault(&rt, rt.alloc(), text)?.is_none(), "{text}");
    }
    Ok(())
}
