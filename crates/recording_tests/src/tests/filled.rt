// Queues, filled and emptied.
use event_records::{LEAST_INITIAL_NAME, Namer, ThreadNo, What};
use queue_interface::{ArrayBack, Lifo, LockedQueue, SegBack, TestQueue, TwoLockQueue};
use std::alloc::Global;
use std::test::Fail;
use tickets::Tickets;

// The maximum number of operations of a run.
const MANY: u64 = 1_000_000;

// The two initial values of a queue.
const FIRST: u64 = LEAST_INITIAL_NAME;

const SECOND: u64 = LEAST_INITIAL_NAME + 1;

// Enqueues the first value of this thread.
fn put(alloc: Global, queue: &dyn TestQueue, thread: ThreadNo) -> Result<What, Fail> {
    let (tickets, mut pass) = Tickets::new(alloc, 2)?;
    let mut namer = Namer::new(thread);
    let (ask, _) = namer.ask_enq(pass.draw(&tickets));
    let answered = queue.enqueue(ask);
    Ok(answered.stamp(&mut pass, &tickets).event().what)
}

// Dequeues from a queue.
pub(crate) fn take(alloc: Global, queue: &dyn TestQueue) -> Result<What, Fail> {
    let thread = ThreadNo::new(0).ok_or("thread")?;
    let (tickets, mut pass) = Tickets::new(alloc, 2)?;
    let mut namer = Namer::new(thread);
    let (ask, _) = namer.ask_deq(pass.draw(&tickets));
    let answered = queue.dequeue(ask);
    Ok(answered.stamp(&mut pass, &tickets).event().what)
}

// Enqueues the first values of threads in turn, and returns the number of successful enqueues up to the first that
// fails, at most `values`.
fn put_in(alloc: Global, queue: &dyn TestQueue, values: u64) -> Result<u64, Fail> {
    for n in 0..values {
        let thread = ThreadNo::new((n % 64) as u8).ok_or("thread")?;
        match put(alloc, queue, thread)? {
            What::RetEnq => {}
            _ => return Ok(n),
        }
    }
    Ok(values)
}

// Returns how many of these values a queue returns in order, and the answer of the next dequeue.
fn taken_out(alloc: Global, queue: &dyn TestQueue, values: u64) -> Result<(u64, What), Fail> {
    for n in 0..values {
        let found = take(alloc, queue)?;
        if found != What::RetDeq((n % 64) << 32) {
            return Ok((n, found));
        }
    }
    Ok((values, take(alloc, queue)?))
}

// Returns whether a queue takes `values` of `asked` values, returns them in order, and is empty then.
fn holds(alloc: Global, queue: &dyn TestQueue, values: u64, asked: u64) -> Result<bool, Fail> {
    let put = put_in(alloc, queue, asked)?;
    Ok(put == values && taken_out(alloc, queue, values)? == (values, What::RetEmpty))
}

// Returns the answers of two dequeues of a queue with two initial values.
fn preloaded(alloc: Global, queue: &dyn TestQueue) -> Result<(What, What), Fail> {
    if !queue.preload(0, FIRST) || !queue.preload(1, SECOND) {
        return Err("no room".into());
    }
    Ok((take(alloc, queue)?, take(alloc, queue)?))
}

// Returns whether a queue returns its two initial values in order, and then holds as many values as it should.
fn keeps(alloc: Global, queue: &dyn TestQueue, values: u64, asked: u64) -> Result<bool, Fail> {
    let in_order = (What::RetDeq(FIRST), What::RetDeq(SECOND));
    Ok(preloaded(alloc, queue)? == in_order && holds(alloc, queue, values, asked)?)
}

#[test]
fn a_full_array_takes_exactly_its_capacity(rt: HostRuntime) -> Result<(), Fail> {
    let queue = ArrayBack::new(rt.alloc(), rt, 4)?;
    assert!(rt; keeps(rt.alloc(), &queue, 4, 5)?);
    assert!(rt; holds(rt.alloc(), &queue, 4, 5)?);
    Ok(())
}

#[test]
fn queues_hold_a_runs_values_in_their_order(rt: HostRuntime) -> Result<(), Fail> {
    let alloc = rt.alloc();
    assert!(rt;
        keeps(
            alloc,
            &ArrayBack::new(alloc, rt, MANY as usize)?,
            MANY,
            MANY
        )?
    );
    assert!(rt; keeps(alloc, &SegBack::new(alloc, rt)?, MANY, MANY)?);
    assert!(rt; keeps(alloc, &LockedQueue::new(alloc, rt), MANY, MANY)?);
    assert!(rt; keeps(alloc, &TwoLockQueue::new(alloc, rt), MANY, MANY)?);
    Ok(())
}

#[test]
fn a_lifo_gives_the_last_first(rt: HostRuntime) -> Result<(), Fail> {
    let found = preloaded(rt.alloc(), &Lifo::new(rt.alloc(), rt))?;
    assert!(rt; found == (What::RetDeq(SECOND), What::RetDeq(FIRST)));
    Ok(())
}
