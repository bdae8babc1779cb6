//! A queue that violates the FIFO order only if threads overlap. This program judges runs of it, one seed after
//! another, until a verdict is a `NO`.
//!
//! `racy_queue [WORKERS]` takes the number of workers, each in a thread of its own. It writes the history of the first
//! run whose verdict is a `NO`, with that verdict, and then a history of the violation's operations alone, with its
//! verdict. These are texts that `fifobench` reads. The status is then 1. It is 0 if no run has a violation.
#![tactic(auto)]

ghost use Rattle.std.specs.Prelude.{◌≡◌, []};

mod sized_apart;

use anyhow::{Result, bail};
use fifobench_core::{
    History, MAX_WORKERS, Plan, TestQueue, Verdict, Version, Watched, decide, run, shrink,
    write_shown,
};
use sized_apart::SizedApart;
use std::alloc::Global;
use std::process::ExitCode;
use std::thread::Threads;
use std::{env, io};

/// The default number of workers.
const WORKERS: u64 = 4;

/// The number of seeds to try, from 1 on.
const SEEDS: u64 = 100;

/// The number of operations of each worker.
const OPERATIONS: usize = 4000;

/// The capacity of each worker's ring, in events.
const RING: usize = 1024;

/// The percentage of enqueues. It is below 50, so that the queue is often empty or nearly so.
const PERCENT: u8 = 40;

/// The number of tries of a push into a full ring.
const TRIES: u32 = 1_000_000;

/// Returns the number of workers that the arguments name, or the default one.
fn asked_workers(rt: HostRuntime) -> Result<u64> {
    match env::args(&rt)?.nth(1) {
        Some(word) => Ok(word.parse::<u64>()?),
        None => Ok(WORKERS),
    }
}

/// Returns whether the history of a queue that was empty at first has a violation. If so, writes it with its verdict,
/// and then the violation's operations alone.
fn shows_violation<R: Print>(rt: &R, alloc: Global, history: &History) -> Result<bool>
    requires { history.now.initial ≡ [] }
{
    let verdict = decide(alloc, history)?;
    let Verdict::No(violation) = &verdict else {
        return Ok(false);
    };
    let small = shrink(alloc, history, violation)?;
    let small_verdict = decide(alloc, &small)?;
    let mut output = Watched::new(io::writer(rt));
    write_shown(Version::One, history, &verdict, &mut output)?;
    write_shown(Version::One, &small, &small_verdict, &mut output)?;
    Ok(true)
}

/// Makes the plan of a run of this many workers, if a run may have them.
fn plan_of(alloc: Global, workers: u64, seed: u64) -> Result<Plan> {
    if !(1..=MAX_WORKERS as u64).contains(&workers) {
        bail!("a run has 1 to {MAX_WORKERS} workers");
    }
    let plan = Plan::from_seed(alloc, seed, workers as usize, OPERATIONS, PERCENT)?;
    Ok(plan)
}

/// Returns whether a run of this plan on the queue has a violation, which is then written.
fn shows_in_run<R>(rt: &R, queue: &dyn TestQueue, plan: &Plan) -> Result<bool>
where
    R: AllocGlobal + Print + Threads + Sync,
{
    let recorded = run(rt, rt.alloc(), queue, plan, RING, TRIES)?;
    shows_violation(rt, rt.alloc(), &recorded.history(rt.alloc())?)
}

fn main(rt: HostRuntime) -> Result<ExitCode> {
    let workers = asked_workers(rt)?;
    for seed in 1..=SEEDS {
        let plan = plan_of(rt.alloc(), workers, seed)?;
        let queue = SizedApart::new(rt.alloc(), rt);
        if shows_in_run(&rt, &queue, &plan)? {
            eprintln!(&rt; "seed {seed} of {SEEDS} shows a violation")?;
            return Ok(ExitCode::FAILURE);
        }
    }
    println!(&rt; "no violation in {SEEDS} runs")?;
    Ok(ExitCode::SUCCESS)
}
