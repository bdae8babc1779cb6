// The initial values of a queue.
ghost use Rattle.std.specs.Prelude.{◌≤◌};

use super::filled::take;
use event_records::What;
use queue_interface::{ArrayBack, TestQueue};
use recorder_core::are_initial_names;
use std::alloc::{AllocError, Global};
use std::sync::Wait;
use std::test::Fail;
use std::thread::Threads;
use stress_run::{ProvedQueue, RunFault, run_from, run_proved};
use workloads::Plan;

// The least name that an initial value may have: 2^38.
const FIRST: u64 = 274_877_906_944;

// Values, and whether they may be initial ones.
const NAMES: [(&[u64], bool); 5] = [
    (&[], true),
    (&[FIRST + 1, FIRST], true),
    (&[FIRST, FIRST + 1, FIRST], false),
    (&[FIRST, FIRST - 1], false),
    (&[u64::MAX], true),
];

#[test]
fn names_of_initial_values_are_told(rt: HostRuntime) -> Result<(), Fail> {
    for (values, expected) in NAMES {
        assert!(rt;
            are_initial_names(rt.alloc(), values)? == expected,
            "{values:?}"
        );
    }
    Ok(())
}

// Returns whether `count` consecutive values may be initial ones.
fn are_names_in_a_row(alloc: Global, count: u64) -> Result<bool, AllocError>
    requires { count ≤ 1000000 }
{
    let values: Vec<u64> = (FIRST..FIRST + count).collect(alloc)?;
    are_initial_names(alloc, &values)
}

#[test]
fn a_hundred_thousand_initial_values_are_the_most(rt: HostRuntime) -> Result<(), Fail> {
    assert!(rt; are_names_in_a_row(rt.alloc(), 100_000)?);
    assert!(rt; !are_names_in_a_row(rt.alloc(), 100_001)?);
    Ok(())
}

// Initial values, the size of the rings, and the number of tries of a push; then the fault of a run of one dequeue on
// a queue for one value, and the fault on a proved queue.
type Case<'a> = (&'a [u64], usize, u32, Option<RunFault>, Option<RunFault>);

const LIMIT: Option<RunFault> = Some(RunFault::Limit);

const CASES: [Case<'static>; 7] = [
    (&[FIRST, FIRST], 2, 1, LIMIT, LIMIT),
    (&[FIRST - 1], 2, 1, LIMIT, LIMIT),
    (&[], 1, 1, LIMIT, LIMIT),
    (&[], 65_537, 1, LIMIT, LIMIT),
    (&[], 2, 0, LIMIT, LIMIT),
    (&[], 2, 10_000_001, LIMIT, LIMIT),
    // The first value stays in the queue. None of these runs enqueues another.
    (&[FIRST, FIRST + 1], 2, 1, Some(RunFault::Preload(1)), None),
];

// Returns whether the run of each proved queue ends as the case says.
fn proved_end_so<R: Threads + Wait + Sync>(
    rt: &R,
    alloc: Global,
    plan: &Plan,
    case: &Case,
) -> bool {
    let (initial, ring, tries, _, proved) = *case;
    for queue in [
        ProvedQueue::OneLock,
        ProvedQueue::TwoLocks,
        ProvedQueue::LockFree,
        ProvedQueue::Ring,
    ] {
        let ended = run_proved(rt, alloc, queue, initial, plan, ring, tries).err();
        if ended != proved {
            return false;
        }
    }
    true
}

// Returns whether the runs of a case have its faults.
fn end_so<R: Threads + Wait + Sync>(
    rt: &R,
    alloc: Global,
    queue: &dyn TestQueue,
    case: &Case,
) -> Result<bool, Fail> {
    let (initial, ring, tries, fault, _) = *case;
    let plan = Plan::from_text(alloc, "D\n")?;
    let found = run_from(rt, alloc, queue, initial, &plan, ring, tries).err();
    Ok(found == fault && proved_end_so(rt, alloc, &plan, case))
}

#[test]
fn sizes_and_values_that_are_refused_are_told(rt: HostRuntime) -> Result<(), Fail> {
    let queue = ArrayBack::new(rt.alloc(), rt, 1)?;
    for case in &CASES {
        assert!(rt; end_so(&rt, rt.alloc(), &queue, case)?, "{case:?}");
    }
    assert!(rt; take(rt.alloc(), &queue)? == What::RetDeq(FIRST));
    Ok(())
}
