//! A test of a queue of one's own. It runs a plan of workers on the queue, and writes the history and the verdict as
//! texts that `fifobench` reads.
//!
//! `own_queue [WORKERS [OPERATIONS [SEED]]]` takes the number of workers, each in a thread of its own, the number of
//! operations of each worker, and the seed of the plan. The status is 0 for a `YES` and 1 for a `NO`.
#![tactic(auto)]

ghost use Rattle.std.specs.Prelude.{◌≡◌, []};

mod two_stacks;

use anyhow::{Result, bail};
use fifobench_core::{
    History, MAX_OPERATIONS, MAX_THREAD_OPERATIONS, MAX_WORKERS, Plan, Verdict, Version, Watched,
    decide, run, write_shown,
};
use std::alloc::Global;
use std::process::ExitCode;
use std::{env, io};
use two_stacks::TwoStacks;

/// The default number of workers.
const WORKERS: u64 = 4;

/// The default number of operations of each worker.
const OPERATIONS: u64 = 1000;

/// The default seed of the plan.
const SEED: u64 = 1;

/// The percentage of enqueues.
const PERCENT: u8 = 50;

/// The capacity of each worker's ring, in events.
const RING: usize = 1024;

/// The number of tries of a push into a full ring.
const TRIES: u32 = 1_000_000;

/// Parses the number of a word, or returns `other` if there is no word.
fn number_or(word: Option<String>, other: u64) -> Result<u64> {
    match word {
        Some(word) => Ok(word.parse::<u64>()?),
        None => Ok(other),
    }
}

/// Judges the history of a queue that was empty at first, and writes it with its verdict.
fn show<R: Print>(rt: &R, alloc: Global, history: &History) -> Result<Verdict>
    requires { history.now.initial ≡ [] }
{
    let verdict = decide(alloc, history)?;
    write_shown(
        Version::One,
        history,
        &verdict,
        &mut Watched::new(io::writer(rt)),
    )?;
    Ok(verdict)
}

/// Makes the plan of a run with these numbers, if they are within the limits of a run.
fn plan_of(alloc: Global, workers: u64, operations: u64, seed: u64) -> Result<Plan> {
    if !(1..=MAX_WORKERS as u64).contains(&workers) || operations > MAX_THREAD_OPERATIONS {
        bail!(
            "a run has 1 to {MAX_WORKERS} workers, with up to {MAX_THREAD_OPERATIONS} operations each"
        );
    }
    if workers * operations > MAX_OPERATIONS {
        bail!("a run has up to {MAX_OPERATIONS} operations");
    }
    let plan = Plan::from_seed(alloc, seed, workers as usize, operations as usize, PERCENT)?;
    Ok(plan)
}

/// Makes the plan that the arguments ask for.
fn asked_plan(rt: HostRuntime) -> Result<Plan> {
    let mut words = env::args(&rt)?.skip(1);
    let workers = number_or(words.next(), WORKERS)?;
    let operations = number_or(words.next(), OPERATIONS)?;
    let seed = number_or(words.next(), SEED)?;
    plan_of(rt.alloc(), workers, operations, seed)
}

fn main(rt: HostRuntime) -> Result<ExitCode> {
    let plan = asked_plan(rt)?;
    let alloc = rt.alloc();
    let queue = TwoStacks::new(alloc, rt);
    let recorded = run(&rt, alloc, &queue, &plan, RING, TRIES)?;
    match show(&rt, alloc, &recorded.history(alloc)?)? {
        Verdict::Yes(_) => Ok(ExitCode::SUCCESS),
        Verdict::No(_) => Ok(ExitCode::FAILURE),
    }
}
