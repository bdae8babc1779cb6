// Calls of a thread, in the form that its ring takes.
ghost use Rattle.std.specs.Prelude.{◌≡◌, IfOk};

use event_records::{Event, Namer, Noted, ThreadNo, What};
use event_rings::PushEnd;
use std::alloc::{AllocError, Global};
use std::test::Fail;
use tickets::Tickets;

// Returns the calls of a thread's first three operations, which are enqueues.
pub(crate) fn three_calls(
    alloc: Global,
    thread: ThreadNo,
) -> Result<(Noted, Noted, Noted), AllocError>
    ensures first { IfOk result (λ calls. calls.0.thread ≡ thread) }
    ensures second { IfOk result (λ calls. calls.1.thread ≡ thread) }
    ensures third { IfOk result (λ calls. calls.2.thread ≡ thread) }
{
    let (tickets, mut pass) = Tickets::new(alloc, 3)?;
    let mut namer = Namer::new(thread);
    let (_, first) = namer.ask_enq(pass.draw(&tickets));
    let (_, second) = namer.ask_enq(pass.draw(&tickets));
    let (_, third) = namer.ask_enq(pass.draw(&tickets));
    Ok((first, second, third))
}

// Returns the call of thread 0's n-th operation, at ticket n.
pub(crate) fn call(n: u64) -> Event {
    Event {
        ticket: n,
        thread: 0,
        what: What::CallEnq(n),
    }
}

// Returns the call of a thread's first operation, an enqueue.
fn first_call(alloc: Global, thread: ThreadNo) -> Result<Noted, AllocError>
    ensures { IfOk result (λ noted. noted.thread ≡ thread) }
{
    let (tickets, mut pass) = Tickets::new(alloc, 1)?;
    let mut namer = Namer::new(thread);
    Ok(namer.ask_enq(pass.draw(&tickets)).1)
}

// Pushes the first call of a thread `count` times.
pub(crate) fn push_calls(
    alloc: Global,
    push: &mut PushEnd,
    thread: ThreadNo,
    count: usize,
) -> Result<(), Fail>
    requires { push.old.thread ≡ thread }
    ensures same { push.new.thread ≡ push.old.thread }
    ensures ring { push.new.ring ≡ push.old.ring }
{
    for _ in 0..count {
        let noted = first_call(alloc, thread)?;
        push.push(noted).ok().ok_or("full")?;
    }
    Ok(())
}
