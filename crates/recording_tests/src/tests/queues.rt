use super::filled::take;
use event_records::{LEAST_INITIAL_NAME, What};
use queue_interface::{
    DoublingList, Fifo, GateQueue, InventingList, LosingList, ScriptQueue, ShyList, Stack,
    TestQueue, ValueList,
};
use std::alloc::{AllocError, Global};
use std::test::Fail;

// A call of a list.
#[derive(Clone, Copy)]
enum Call {
    Preload(u64),
    Put(u64),
    Take,
}

// The first dequeue finds the list empty. Then there are two initial values, whose calls no list counts, and five
// enqueues.
const CALLS: [Call; 18] = [
    Call::Take,
    Call::Preload(8),
    Call::Preload(9),
    Call::Put(0),
    Call::Put(1),
    Call::Put(2),
    Call::Put(3),
    Call::Put(4),
    Call::Take,
    Call::Take,
    Call::Take,
    Call::Take,
    Call::Take,
    Call::Take,
    Call::Take,
    Call::Take,
    Call::Take,
    Call::Take,
];

type Taken = [u64; 11];

// Stands for a dequeue that found the list empty.
const EMPTY: u64 = u64::MAX;

const IN_ORDER: Taken = [EMPTY, 8, 9, 0, 1, 2, 3, 4, EMPTY, EMPTY, EMPTY];

const LAST_FIRST: Taken = [EMPTY, 4, 3, 2, 1, 0, 9, 8, EMPTY, EMPTY, EMPTY];

// Each 4th value that is found stays. The first dequeue finds none.
const DOUBLED: Taken = [EMPTY, 8, 9, 0, 1, 1, 2, 3, 4, 4, EMPTY];

// Each 4th dequeue invents a value.
const INVENTED: Taken = [
    EMPTY,
    8,
    9,
    9_223_372_036_854_775_808,
    0,
    1,
    2,
    9_223_372_036_854_775_809,
    3,
    4,
    EMPTY,
];

// Each 4th dequeue finds the list empty.
const SHY: Taken = [EMPTY, 8, 9, EMPTY, 0, 1, 2, EMPTY, 3, 4, EMPTY];

// Each 4th enqueued value is lost.
const LOST: Taken = [EMPTY, 8, 9, 0, 1, 2, 4, EMPTY, EMPTY, EMPTY, EMPTY];

// Returns the values that a list returns in these calls, if it takes all values.
fn taken_out<L: ValueList>(alloc: Global) -> Result<Vec<u64>, AllocError> {
    let mut list = L::empty(alloc);
    let mut out = Vec::new(alloc);
    for call in CALLS {
        let is_done = match call {
            Call::Preload(value) => list.preload(value),
            Call::Put(value) => list.put(value),
            Call::Take => {
                out.push(list.take().unwrap_or(EMPTY))?;
                true
            }
        };
        if !is_done {
            return Err(AllocError);
        }
    }
    Ok(out)
}

// Returns whether a list returns these.
fn gives<L: ValueList>(alloc: Global, taken: &Taken) -> Result<bool, AllocError> {
    Ok(taken_out::<L>(alloc)?.as_slice() == taken.as_slice())
}

#[test]
fn lists_keep_the_order_or_break_it_as_they_are_called(rt: HostRuntime) -> Result<(), Fail> {
    let alloc = rt.alloc();
    assert!(rt; gives::<Fifo>(alloc, &IN_ORDER)?);
    assert!(rt; gives::<Stack>(alloc, &LAST_FIRST)?);
    assert!(rt; gives::<DoublingList>(alloc, &DOUBLED)?);
    assert!(rt; gives::<InventingList>(alloc, &INVENTED)?);
    assert!(rt; gives::<ShyList>(alloc, &SHY)?);
    assert!(rt; gives::<LosingList>(alloc, &LOST)?);
    Ok(())
}

// Returns whether a queue takes an initial value, and then has an empty dequeue.
fn ignores_a_value(alloc: Global, queue: &dyn TestQueue) -> Result<bool, Fail> {
    Ok(queue.preload(0, LEAST_INITIAL_NAME) && take(alloc, queue)? == What::RetEmpty)
}

#[test]
fn a_script_and_a_gate_ignore_initial_values(rt: HostRuntime) -> Result<(), Fail> {
    let script = ScriptQueue::new(Vec::new(rt.alloc()));
    assert!(rt; ignores_a_value(rt.alloc(), &script)?);
    // The gate counts the calls that saw all arrive: the second, but not the first.
    let gate = GateQueue::new(2, 3);
    assert!(rt; ignores_a_value(rt.alloc(), &gate)? && gate.passed() == 0);
    assert!(rt; ignores_a_value(rt.alloc(), &gate)? && gate.passed() == 1);
    Ok(())
}
