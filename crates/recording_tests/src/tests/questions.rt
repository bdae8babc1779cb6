use event_records::{Event, Namer, ThreadNo, What};
use std::alloc::{AllocError, Global};
use std::test::Fail;
use tickets::Tickets;

// Returns the value and the events of a thread's first enqueue, which is answered like this.
fn enqueued(
    alloc: Global,
    thread: ThreadNo,
    taken: bool,
) -> Result<(u64, Event, Event), AllocError> {
    let (tickets, mut pass) = Tickets::new(alloc, 2)?;
    let mut namer = Namer::new(thread);
    let (ask, call) = namer.ask_enq(pass.draw(&tickets));
    let value = ask.value();
    let answered = if taken { ask.taken() } else { ask.not_taken() };
    let returned = answered.stamp(&mut pass, &tickets);
    Ok((value, call.event(), returned.event()))
}

// Returns the events of a thread's first dequeue, which is answered like this.
fn dequeued(
    alloc: Global,
    thread: ThreadNo,
    got: Option<u64>,
) -> Result<(Event, Event), AllocError> {
    let (tickets, mut pass) = Tickets::new(alloc, 2)?;
    let mut namer = Namer::new(thread);
    let (ask, call) = namer.ask_deq(pass.draw(&tickets));
    let answered = match got {
        Some(value) => ask.got(value),
        None => ask.empty(),
    };
    let returned = answered.stamp(&mut pass, &tickets);
    Ok((call.event(), returned.event()))
}

// Returns whether these are the call and the return of an operation of this thread, at tickets 0 and 1.
fn are_noted(events: (Event, Event), thread: u8, call: What, ret: What) -> bool {
    let (called, returned) = events;
    called
        == Event {
            ticket: 0,
            thread,
            what: call,
        }
        && returned
            == Event {
                ticket: 1,
                thread,
                what: ret,
            }
}

// A thread, the value of its first enqueue, whether the enqueue succeeds, and the return.
const ENQUEUES: [(u8, u64, bool, What); 4] = [
    (0, 0, true, What::RetEnq),
    (1, 4_294_967_296, false, What::RetNot),
    (5, 21_474_836_480, true, What::RetEnq),
    (63, 270_582_939_648, false, What::RetNot),
];

#[test]
fn enqueues_are_noted(rt: HostRuntime) -> Result<(), Fail> {
    for (number, value, taken, ret) in ENQUEUES {
        let thread = ThreadNo::new(number).ok_or("thread")?;
        let (found, call, returned) = enqueued(rt.alloc(), thread, taken)?;
        let is_noted = are_noted((call, returned), number, What::CallEnq(value), ret);
        assert!(rt; is_noted && found == value, "thread {number}");
    }
    Ok(())
}

// The value of a dequeue, if it returns one, and the return.
const DEQUEUES: [(Option<u64>, What); 2] = [(Some(9), What::RetDeq(9)), (None, What::RetEmpty)];

#[test]
fn dequeues_are_noted(rt: HostRuntime) -> Result<(), Fail> {
    let thread = ThreadNo::new(5).ok_or("thread")?;
    for (got, ret) in DEQUEUES {
        let events = dequeued(rt.alloc(), thread, got)?;
        assert!(rt; are_noted(events, 5, What::CallDeq, ret), "{got:?}");
    }
    Ok(())
}
