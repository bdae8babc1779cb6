ghost use Rattle.std.specs.Prelude.{◌≡◌, ◌∷◌, [], IfOk};
ghost use Rattle.collector.specs.Ends.{rings_of};

use super::calls::push_calls;
use collector::{CollectError, Collector};
use event_records::ThreadNo;
use event_rings::{CloseToken, DrainEnd, MAX_RING, PushEnd, ring};
use std::alloc::Global;
use std::test::Fail;

// Returns the ring of a thread, closed without events.
fn closed_ring(alloc: Global, thread: ThreadNo) -> Result<(DrainEnd, CloseToken), Fail>
    ensures thread { IfOk result (λ r. (r.0.thread ≡ thread) × (r.1.thread ≡ thread)) }
    ensures ring { IfOk result (λ r. r.1.ring ≡ r.0.ring) }
    ensures fresh { IfOk result (λ r. r.0.received ≡ []) }
{
    let (push, drain) = ring(alloc, thread, 2)?;
    let token = push.close().ok().ok_or("closed")?;
    Ok((drain, token))
}

// Returns the thread whose ring isn't certified if the rings of threads 0 and 1 are sealed with each other's tokens.
fn seal_swapped(alloc: Global) -> Result<u8, Fail> {
    let zero = ThreadNo::new(0).ok_or("thread")?;
    let one = ThreadNo::new(1).ok_or("thread")?;
    let (first, first_token) = closed_ring(alloc, zero)?;
    let (second, second_token) = closed_ring(alloc, one)?;
    let collector = Collector::new(alloc, vec![in alloc; first, second]?)?;
    match collector.seal(vec![in alloc; second_token, first_token]?) {
        Err(CollectError::Uncertified(thread)) => Ok(thread),
        _ => Err(Fail::from("certified")),
    }
}

#[test]
fn swapped_tokens_are_not_certified(rt: HostRuntime) -> Result<(), Fail> {
    assert!(rt; seal_swapped(rt.alloc())? == 0);
    Ok(())
}

// Returns the number of events of the only ring, sealed with its token.
fn seal_one(alloc: Global, collector: Collector, token: CloseToken) -> Result<usize, Fail>
    requires { rings_of collector.rings ≡ (token.ring, token.thread) ∷ [] }
{
    let lists = collector.seal(vec![in alloc; token]?)?.into_vec();
    match lists.as_slice() {
        [events] => Ok(events.len()),
        _ => Err(Fail::from("another list")),
    }
}

// Fills a ring of the greatest size before each of two rounds, and once more. Returns the numbers of events that the
// rounds drain, and the number that is sealed.
fn greatest(alloc: Global) -> Result<(u64, u64, usize), Fail> {
    let thread = ThreadNo::new(0).ok_or("thread")?;
    let (mut push, drain) = ring(alloc, thread, MAX_RING)?;
    let mut collector = Collector::with_room(alloc, vec![in alloc; drain]?, 200_000)?;
    let first = fill_and_drain(alloc, &mut push, &mut collector, thread)?;
    let second = fill_and_drain(alloc, &mut push, &mut collector, thread)?;
    push_calls(alloc, &mut push, thread, MAX_RING)?;
    let token = push.close().ok().ok_or("closed")?;
    Ok((first, second, seal_one(alloc, collector, token)?))
}

// Fills a ring of the greatest size, and returns the number of events that a round drains.
fn fill_and_drain(
    alloc: Global,
    push: &mut PushEnd,
    collector: &mut Collector,
    thread: ThreadNo,
) -> Result<u64, Fail>
    requires { push.old.thread ≡ thread }
    ensures same { push.new.thread ≡ push.old.thread }
    ensures ring { push.new.ring ≡ push.old.ring }
    ensures rings { rings_of collector.new.rings ≡ rings_of collector.old.rings }
{
    push_calls(alloc, push, thread, MAX_RING)?;
    Ok(collector.drain_round(MAX_RING)?)
}

#[test]
fn the_greatest_rings_are_drained_and_sealed(rt: HostRuntime) -> Result<(), Fail> {
    assert!(rt; greatest(rt.alloc())? == (65_536, 65_536, 196_608));
    Ok(())
}
