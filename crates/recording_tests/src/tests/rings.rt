use super::calls::{call, three_calls};
use event_records::{Event, ThreadNo};
use event_rings::ring;
use std::alloc::Global;
use std::test::Fail;

// Pushes a third event into a ring of two. Returns the event handed back, the number of events drained then, and
// these events followed by those that are sealed after the third is pushed again.
fn overfilled(alloc: Global) -> Result<(Event, usize, Vec<Event>), Fail> {
    let thread = ThreadNo::new(0).ok_or("thread")?;
    let (first, second, third) = three_calls(alloc, thread)?;
    let (mut push, mut drain) = ring(alloc, thread, 2)?;
    if push.push(first).is_err() || push.push(second).is_err() {
        return Err(Fail::from("no room"));
    }
    let back = push.push(third).err().ok_or("full")?;
    let handed_back = back.event();
    let mut events = drain.drain(1)?;
    let drained = events.len();
    if push.push(back).is_err() {
        return Err(Fail::from("no room"));
    }
    let token = push.close().ok().ok_or("closed")?;
    let sealed = drain.finish(token)?.into_events();
    events.extend_from_slice(&sealed)?;
    Ok((handed_back, drained, events))
}

#[test]
fn a_full_ring_hands_the_event_back(rt: HostRuntime) -> Result<(), Fail> {
    let (back, drained, events) = overfilled(rt.alloc())?;
    assert!(rt; back == call(2) && drained == 1);
    assert!(rt; events.as_slice() == [call(0), call(1), call(2)].as_slice());
    Ok(())
}
