ghost use Rattle.std.specs.Prelude.{◌≡◌, ◌≤◌, ◌<◌, IfOk, OnOk, [], ◌∷◌, List, length, map};
ghost use Rattle.std.specs.Result.{result_err};
ghost use Rattle.std.specs.List.{range_with_len};
ghost use Rattle.event_records.specs.declared.limits.TheConstants.{MIN_RING, MAX_RING, MAX_THREADS};
ghost use Rattle.recorder_core.specs.Setting.{Setting};
ghost use Rattle.recorder_core.specs.Schedule.{Attempt, answer_to};
ghost use Rattle.recorder_core.specs.After.{IsAfter};
ghost use Rattle.recorder_core.specs.Laws.{collected_in};
ghost use Rattle.simulation.specs.Simulations.{tried, schedule_of, rejections, EndsSo};

use event_records::{Event, Lists, OwnedSlice};
use recorder_core::{Machine, Step, StepRefused};
use std::alloc::{AllocError, Global};

/// A refused step: its place in the schedule, from 1, and the reason.
#[derive(Clone, Copy, Debug, PartialEq, Eq)]
pub struct Rejection {
    pub step: u64,
    pub reason: StepRefused,
}

/// The refused steps of a schedule in order, seen as a list.
pub type Rejections = OwnedSlice<Rejection>;

/// The state of the machine after the last step of a schedule.
#[derive(Drop)]
pub enum Ending {
    /// Some thread isn't closed, or some ring isn't empty.
    Open,
    /// All threads are closed and all rings empty; these lists were collected, list t those of thread t.
    Done(Lists),
}

/// The result of a schedule.
#[derive(Drop)]
pub struct Simulation {
    pub rejections: Rejections,
    pub ending: Ending,
}

/// Plays a schedule: takes its steps one after another, on a new machine with this many threads, rings of this
/// capacity and an empty queue.
///
/// A refused step changes nothing, and the next one is tried. The only error is out of memory, also in a step;
/// without it no step ran out of memory. Time and memory grow in proportion to the steps and to the events that they
/// collect.
pub fn simulate(
    alloc: Global,
    threads: usize,
    ring: usize,
    steps: &[Step],
) -> Result<Simulation, AllocError>
    requires threads { (1 ≤ threads) × (threads ≤ MAX_THREADS) }
    requires ring { (MIN_RING ≤ ring) × (ring ≤ MAX_RING) }
    ensures rejections { IfOk result (λ played. played.rejections
        ≡ rejections (record { threads = threads; ring = ring; initial = [] }) (schedule_of steps.now)) }
    ensures ending { IfOk result (λ played. EndsSo (record { threads = threads; ring = ring; initial = [] })
        (schedule_of steps.now) played.ending) }
{
    let mut machine = Machine::new(alloc, threads, ring)?;
    let rejections = take_all(alloc, &mut machine, steps)?;
    let ending = ending_of(alloc, &machine, threads)?;
    Ok(Simulation { rejections, ending })
}

/// Takes the steps in order, and returns those that are refused.
fn take_all(alloc: Global, machine: &mut Machine, steps: &[Step]) -> Result<Rejections, AllocError>
    ensures after { OnOk result
        ((setting : Setting) → IsAfter setting machine.old [] → IsAfter setting machine.new (schedule_of steps.now)) }
    ensures rejected { IfOk result (λ rejected. (setting : Setting) → IsAfter setting machine.old []
        → rejected ≡ rejections setting (schedule_of steps.now)) }
    ensures threads { length machine.new.threads ≡ length machine.old.threads }
{
    let mut rejections = Vec::new(alloc);
    for (i, step) in steps.iter().enumerate() {
        if let Some(reason) = refusal_of(machine, *step)? {
            let step = i as u64 + 1;
            rejections.push(Rejection { step, reason })?;
        }
    }
    Ok(Rejections::from_vec(rejections))
}

/// Takes one step, and returns the reason if it is refused.
fn refusal_of(machine: &mut Machine, step: Step) -> Result<Option<StepRefused>, AllocError>
    ensures refused { IfOk result
        (λ refused. (setting : Setting) (schedule : List Attempt) → IsAfter setting machine.old schedule
        → refused ≡ result_err (answer_to setting schedule (tried step))) }
    ensures after { OnOk result ((setting : Setting) (schedule : List Attempt) → IsAfter setting machine.old schedule
        → IsAfter setting machine.new (tried step ∷ schedule)) }
    ensures threads { length machine.new.threads ≡ length machine.old.threads }
{
    match machine.step(step) {
        Ok(_) => Ok(None),
        Err(StepRefused::Memory) => Err(AllocError),
        Err(reason) => Ok(Some(reason)),
    }
}

/// Returns the state of the machine.
fn ending_of(alloc: Global, machine: &Machine, threads: usize) -> Result<Ending, AllocError>
    requires threads { length machine.now.threads ≡ threads }
    requires few { threads ≤ MAX_THREADS }
    ensures { IfOk result
        (λ ending. (setting : Setting) (schedule : List Attempt) → IsAfter setting machine.now schedule
        → EndsSo setting schedule ending) }
{
    if machine.done() {
        Ok(Ending::Done(collected(alloc, machine, threads)?))
    } else {
        Ok(Ending::Open)
    }
}

/// Returns the collected events of each thread.
fn collected(alloc: Global, machine: &Machine, threads: usize) -> Result<Lists, AllocError>
    requires threads { length machine.now.threads ≡ threads }
    requires few { threads ≤ MAX_THREADS }
    ensures { IfOk result (λ lists. (setting : Setting) (schedule : List Attempt)
        → IsAfter setting machine.now schedule
        → lists ≡ map (collected_in setting schedule) (range_with_len 0 threads)) }
{
    let mut lists: Vec<Vec<Event>> = Vec::with_capacity(alloc, threads)?;
    for thread in 0..threads {
        lists.push(copied(alloc, machine.collected(thread as u8))?)?;
    }
    Ok(Lists::from_vec(lists))
}

/// Copies events to a list.
fn copied(alloc: Global, events: &[Event]) -> Result<Vec<Event>, AllocError>
    ensures { IfOk result (λ copy. copy.items ≡ events.now) }
{
    let mut copy = Vec::new(alloc);
    copy.extend_from_slice(events)?;
    Ok(copy)
}
