//! A collector's round.
ghost use Rattle.std.specs.Prelude.{◌≡◌, ◌∷◌, [], IfOk};
ghost use Rattle.collector.specs.Ends.{rings_of};

use collector::Collector;
use event_records::{Event, Lists, Namer, Noted, ThreadNo, What};
use event_rings::{CloseToken, PushEnd, ring};
use std::alloc::{AllocError, Global};
use std::test::Fail;
use tickets::Tickets;

/// Returns the calls of a thread's first two operations, which are enqueues.
fn two_calls(alloc: Global, thread: ThreadNo) -> Result<(Noted, Noted), AllocError>
    ensures first { IfOk result (λ calls. calls.0.thread ≡ thread) }
    ensures second { IfOk result (λ calls. calls.1.thread ≡ thread) }
{
    let (tickets, mut pass) = Tickets::new(alloc, 2)?;
    let mut namer = Namer::new(thread);
    Ok((
        namer.ask_enq(pass.draw(&tickets)).1,
        namer.ask_enq(pass.draw(&tickets)).1,
    ))
}

/// Returns the call of thread 0's n-th operation, at ticket n.
fn call(n: u64) -> Event {
    Event {
        ticket: n,
        thread: 0,
        what: What::CallEnq(n),
    }
}

/// Runs a round of two events, and another if that is refused.
fn drain_two(collector: &mut Collector) -> Result<u64, AllocError>
    ensures { rings_of collector.new.rings ≡ rings_of collector.old.rings }
{
    match collector.drain_round(2) {
        Ok(drained) => Ok(drained),
        Err(_) => collector.drain_round(2),
    }
}

/// Returns the events of the only ring, sealed with its token.
fn sealed(alloc: Global, collector: Collector, token: CloseToken) -> Result<Lists, AllocError>
    requires { rings_of collector.rings ≡ (token.ring, token.thread) ∷ [] }
{
    match collector.seal(vec![in alloc; token]?) {
        Ok(lists) => Ok(lists),
        Err(_) => Err(AllocError),
    }
}

/// Pushes the first two calls of a thread into its ring, and returns whether there was room.
fn push_two(alloc: Global, push: &mut PushEnd, thread: ThreadNo) -> Result<bool, AllocError>
    requires { push.old.thread ≡ thread }
    ensures same { push.new.thread ≡ push.old.thread }
    ensures ring { push.new.ring ≡ push.old.ring }
{
    let (first, second) = two_calls(alloc, thread)?;
    Ok(push.push(first).is_ok() && push.push(second).is_ok())
}

/// Returns whether a round, the first or the one after a refused one, gives both events of a ring, and the sealed
/// list has both.
fn gives_both(alloc: Global, thread: ThreadNo) -> Result<bool, AllocError>
    requires { thread ≡ 0 }
{
    let (mut push, drain) = ring(alloc, thread, 2)?;
    let mut collector = Collector::new(alloc, vec![in alloc; drain]?)?;
    if !push_two(alloc, &mut push, thread)? {
        return Ok(false);
    }
    let drained = drain_two(&mut collector)?;
    let token = push.close().map_err(|_| AllocError)?;
    let lists = sealed(alloc, collector, token)?;
    Ok(drained == 2 && are_both(&lists))
}

/// Returns whether the only list has both events.
fn are_both(lists: &Lists) -> bool {
    match lists.as_slice() {
        [events] => events.as_slice() == [call(0), call(1)].as_slice(),
        _ => false,
    }
}

#[test]
fn a_refused_round_leaves_both_events_to_the_next(rt: HostRuntime) -> Result<(), Fail> {
    let thread = ThreadNo::new(0).ok_or("thread")?;
    // If a growth other than that of the round is refused, everything is done once more.
    let gives_both = match gives_both(rt.alloc(), thread) {
        Ok(gives_both) => gives_both,
        Err(_) => gives_both(rt.alloc(), thread)?,
    };
    assert!(rt; gives_both);
    Ok(())
}
