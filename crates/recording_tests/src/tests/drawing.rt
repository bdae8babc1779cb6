ghost use Rattle.std.specs.Prelude.{◌≡◌, ◌+◌, ◌*◌, ◌<◌, ◌≤◌};

use std::alloc::{AllocError, Global};
use std::test::Fail;
use std::thread;
use std::thread::Threads;
use tickets::{Pass, Tickets};

// Splits one ticket off, draws it and another one, and joins the passes again, `count` times.
fn split_and_join(tickets: &Tickets, mut pass: Pass, count: u64) -> Pass
    requires key { pass.key ≡ tickets.now.key }
    requires room { 2 * count ≤ pass.left }
    ensures key { result.key ≡ pass.key }
    ensures left { result.left + 2 * count ≡ pass.left }
{
    for _ in 0..count {
        let (mut kept, mut cut) = pass.split(tickets, 1);
        // The tickets are dropped: no event gets their numbers, but they count as drawn.
        let _first = cut.draw(tickets).ticket();
        let _second = kept.draw(tickets).ticket();
        pass = kept.join(tickets, cut);
    }
    pass
}

// Draws 1,000 of 2,001 tickets in each of two threads. Returns the number of tickets left in the joined pass, the
// ticket that it draws then, and the number of tickets drawn in all; or none if the pass doesn't have the share of
// both.
fn draw_in_two<R: Threads + Sync>(
    rt: &R,
    alloc: Global,
) -> Result<Option<(u64, u64, u64)>, AllocError> {
    let (tickets, pass) = Tickets::new(alloc, 2001)?;
    let (first, second) = pass.split(&tickets, 1000);
    let (first, second) = thread::join(
        rt,
        || split_and_join(&tickets, first, 500),
        || split_and_join(&tickets, second, 500),
    );
    let mut pass = first.join(&tickets, second);
    if pass.share() != 2001 {
        return Ok(None);
    }
    let left = pass.left();
    let last = pass.draw(&tickets).ticket();
    Ok(Some((left, last, tickets.close(pass))))
}

#[test]
fn two_threads_draw_each_number_once(rt: HostRuntime) -> Result<(), Fail> {
    assert!(rt; draw_in_two(&rt, rt.alloc())? == Some((1, 2000, 2001)));
    Ok(())
}

// Returns the first two tickets of a budget, the number of tickets left then, and the number drawn.
fn first_two(alloc: Global, budget: u64) -> Result<(u64, u64, u64, u64), AllocError>
    requires { (2 ≤ budget) × (budget ≤ 1000000000000) }
{
    let (tickets, mut pass) = Tickets::new(alloc, budget)?;
    let first = pass.draw(&tickets).ticket();
    let second = pass.draw(&tickets).ticket();
    let left = pass.left();
    Ok((first, second, left, tickets.close(pass)))
}

#[test]
fn tickets_rise_from_0_in_the_greatest_budget_too(rt: HostRuntime) -> Result<(), Fail> {
    assert!(rt; first_two(rt.alloc(), 3)? == (0, 1, 1, 2));
    let greatest = first_two(rt.alloc(), 1_000_000_000_000)?;
    assert!(rt; greatest == (0, 1, 999_999_999_998, 2));
    Ok(())
}
