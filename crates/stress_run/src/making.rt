// The workers of a run, each with its thread, its share of the tickets, and its ring.
ghost use Rattle.std.specs.Prelude.{◌≡◌, ◌-◌, ◌*◌, ◌≤◌, ◌<◌, ◌↔◌, ◌⊎◌, [], length, map, sum_by, IfOk, IsSome, IfSome};
ghost use Rattle.std.specs.List.{AllZip};
ghost use Rattle.tickets.specs.Views.{fresh_pass};
ghost use Rattle.workloads.specs.Plans.{IsPlan};
ghost use Rattle.event_records.specs.declared.limits.TheConstants.{MAX_RING, MAX_THREAD_OPERATIONS, MAX_THREADS};
ghost use Rattle.stress_run.specs.Crew.{IsNew, IsCrew};
ghost use Rattle.stress_run.specs.Ends.{no_ends};
ghost use Rattle.stress_run.specs.Inner.Crew.{HasItsEnds, end_of};
ghost use Rattle.stress_run.specs.Roles.{HasOneOfEach};
ghost use Rattle.stress_run.specs.Faults.{IsWithinLimits};

use crate::MAX_TRIES;
use crate::ends::Ends;
use crate::worker::Worker;
use event_records::{Namer, ThreadNo};
use event_rings::{DrainEnd, MAX_RING, MIN_RING, ring};
use std::alloc::{AllocError, Global};
use std::marker::Model;
use tickets::{Pass, Tickets};
use workloads::Row;

/// The capacity of each ring of a run, in events, and the number of tries of each push.
#[derive(Clone, Copy)]
pub(crate) struct Sizes {
    ring: usize,
    tries: u32,
}

impl Model for Sizes {
    ghost use Rattle.stress_run.specs.Crew.{SizesView};
    ghost use Rattle.stress_run.specs.Faults.{IsWithinLimits};

    ghost Value = { SizesView };

    ghost view = { λ s. record { ring = s.ring; tries = s.tries } };

    ghost invariant = { λ s. IsWithinLimits s.ring s.tries };

    ghost inverse = { λ s. record { ring = s.ring; tries = s.tries } };
}

impl Sizes {
    // Returns these sizes, or none if they are out of range.
    pub(crate) fn new(ring: usize, tries: u32) -> Option<Sizes>
        ensures limits { IsSome result ↔ IsWithinLimits ring tries }
        ensures sizes { IfSome result (λ sizes. sizes ≡ record { ring = ring; tries = tries }) }
    {
        if (MIN_RING..=MAX_RING).contains(&ring) && (1..=MAX_TRIES).contains(&tries) {
            Some(Sizes { ring, tries })
        } else {
            None
        }
    }

    // Returns the capacity of each ring, in events.
    pub(crate) fn ring(self) -> usize
        ensures value { result ≡ self.ring }
        ensures most { result ≤ MAX_RING }
    {
        self.ring
    }
}

// The workers of a run, the drain ends of their rings, and what is left of the first pass.
#[derive(Drop)]
pub(crate) struct Crew {
    pub(crate) rest: Pass,
    pub(crate) workers: Vec<Worker>,
    pub(crate) ends: Vec<DrainEnd>,
}

// Returns the thread with this number.
fn thread_at(place: usize) -> ThreadNo
    requires { place < MAX_THREADS }
    ensures { result ≡ place }
{
    match ThreadNo::new(place as u8) {
        Some(thread) => thread,
        None => unreachable!(),
    }
}

// Makes a worker with these ends for a row, and returns it with the rest of the pass and the drain end of its ring.
fn make_one(
    alloc: Global,
    tickets: &Tickets,
    pass: Pass,
    ends: Ends,
    thread: ThreadNo,
    row: &Row,
    sizes: Sizes,
) -> Result<(Pass, Worker, DrainEnd), AllocError>
    requires key { pass.key ≡ tickets.now.key }
    requires enough { 2 * length row.now ≤ pass.left }
    requires short { length row.now ≤ MAX_THREAD_OPERATIONS }
    ensures rest { IfOk result (λ made. made.0 ≡ record pass { left = pass.left - 2 * length row.now }) }
    ensures worker { IfOk result (λ made. IsNew tickets.now.key sizes row.now made.1 × (made.1.thread ≡ thread)) }
    ensures ends { IfOk result (λ made. made.1.ends ≡ ends) }
    ensures end { IfOk result (λ made. made.2 ≡ end_of made.1) }
{
    let (push, drain) = ring(alloc, thread, sizes.ring)?;
    let (rest, own) = pass.split(tickets, 2 * row.len() as u64);
    let worker = Worker::new(own, Namer::new(thread), push, sizes.tries);
    Ok((rest, worker.with_ends(ends), drain))
}

// Makes a worker for each row. The first row with an enqueue gets the tail end, if it is there, and the first with a
// dequeue the head end.
pub(crate) fn make_crew(
    alloc: Global,
    tickets: &Tickets,
    pass: Pass,
    own: Ends,
    rows: &[Row],
    sizes: Sizes,
) -> Result<Crew, AllocError>
    requires plan { IsPlan rows.now }
    requires pass { pass ≡ fresh_pass tickets.now.key (2 * sum_by length rows.now) }
    requires roles { (own ≡ no_ends) ⊎ HasOneOfEach rows.now }
    ensures workers { IfOk result (λ crew. IsCrew tickets.now.key sizes rows.now crew.workers.items) }
    ensures served { IfOk result (λ crew. AllZip (HasItsEnds own) rows.now crew.workers.items) }
    ensures ends { IfOk result (λ crew. crew.ends.items ≡ map end_of crew.workers.items) }
    ensures rest { IfOk result (λ crew. crew.rest ≡ fresh_pass tickets.now.key 0) }
{
    let mut rest = pass;
    let mut own = own;
    let mut workers = Vec::new(alloc);
    let mut ends = Vec::new(alloc);
    for (place, row) in rows.iter().enumerate() {
        let taken = own.take_for(row);
        let (left, worker, end) = make_one(
            alloc,
            tickets,
            rest,
            taken,
            thread_at(place),
            row,
            sizes,
        )?;
        rest = left;
        workers.push(worker)?;
        ends.push(end)?;
    }
    Ok(Crew {
        rest,
        workers,
        ends,
    })
}
