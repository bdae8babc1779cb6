//! `stress`: a recorded run of a queue, and its verdict.
ghost use Rattle.std.specs.Prelude.{◌≡◌, ◌≢◌, ◌≤◌, ◌↔◌, ◌*◌, IsTrue, IfOk, IfSome, IfNone, List, All};
ghost use Rattle.event_records.specs.declared.event.Event.{Event};
ghost use Rattle.event_records.specs.declared.limits.TheConstants.{MAX_OPERATIONS, MAX_STRESS_INITIAL};
ghost use Rattle.history_merge.specs.Legal.{IsLinearizable};
ghost use Rattle.history_merge.specs.Merge.{IsMerged};
ghost use Rattle.history_merge.specs.Operations.{operations_of};
ghost use Rattle.queue_interface.specs.Answers.{AnswersInKind, TakesOrRefuses};
ghost use Rattle.command_words.specs.Options.{settings_of, IsWithinRanges};
ghost use Rattle.commands.specs.Answers.{ShowsNoViolation};
ghost use Rattle.commands.specs.Judging.{AnswersOrNoMemory};
ghost use Rattle.commands.specs.Outcomes.{answer_of, NamesPlaces};
ghost use Rattle.commands.specs.Stressing.{AsksForOneOfEach, IsFirstNamed, IsPlanned, IsProvedName, IsShownRun};
ghost use Rattle.commands.specs.Stressing.{RunsOrFails, Stresses, StressesQueue, StressesUnshelved};
ghost use Rattle.commands.specs.Stressing.{SuitsRoles, first_values, proved_name, run_version};

use crate::histories::PIECES;
use crate::judging::decide_under;
use crate::outcome::{Fault, Outcome, Report};
use command_words::{Condition, StressOptions};
use event_records::{LEAST_INITIAL_NAME, MAX_OPERATIONS};
use history_text::Version;
use parallel_finders::InPieces;
use queue_interface::TestQueue;
use std::alloc::{AllocError, Global};
use std::sync::Wait;
use std::thread::Threads;
use stress_run::{ProvedQueue, Recorded, run_from, run_proved};
use workloads::Plan;

/// The number of tries of a push into a full ring, after which its worker gives up.
pub const TRIES: u32 = 1_000_000;

/// A queue, and the name by which `stress` finds it.
///
/// A run expects the queue to be empty: a value that an earlier run left in it is dequeued as one that nobody
/// enqueued.
#[derive(Drop)]
pub struct NamedQueue<'a> {
    pub name: &'a str,
    pub queue: Box<dyn TestQueue>,
}

/// Runs the first queue of the name, and judges the recorded history. If no queue of the shelf has the name, it may be
/// that of a proved queue.
pub fn stress<'a, R: Threads + Wait + Sync>(
    rt: &R,
    alloc: Global,
    shelf: &[NamedQueue<'a>],
    options: &StressOptions<'a>,
) -> Outcome
    requires { IsWithinRanges (settings_of options.now) }
    ensures found { Stresses (λ s. s.name.now) (λ s. may s.queue) (λ s. may_preload s.queue) shelf.now
        (settings_of options.now) (answer_of result) }
    ensures places { NamesPlaces result }
{
    let Some(shelved) = find(shelf, options.queue) else {
        return stress_unshelved(rt, alloc, options);
    };
    stress_shelved(rt, alloc, shelved, options)
}

/// Returns the first queue of this name.
fn find<'b, 'a>(shelf: &'b [NamedQueue<'a>], name: &str) -> Option<&'b NamedQueue<'a>>
    ensures found { IfSome result (λ shelved. IsFirstNamed (λ s. s.name.now) name.now shelf.now shelved.now) }
    ensures nowhere { IfNone result (All (λ s. s.name.now ≢ name.now) shelf.now) }
{
    for shelved in shelf {
        if shelved.name == name {
            return Some(shelved);
        }
    }
    None
}

/// Returns the proved queue of this name.
fn proved_of(name: &str) -> Option<ProvedQueue>
    ensures named { IfSome result (λ queue. name.now ≡ proved_name queue) }
    ensures other { IfNone result (¬ IsProvedName name.now) }
{
    if name == "proved" {
        return Some(ProvedQueue::OneLock);
    }
    if name == "proved-two-lock" {
        return Some(ProvedQueue::TwoLocks);
    }
    if name == "proved-lock-free" {
        return Some(ProvedQueue::LockFree);
    }
    if name == "proved-ring" {
        return Some(ProvedQueue::Ring);
    }
    None
}

/// Returns whether the plan has at most one producer and at most one consumer.
fn asks_for_one_of_each<'a>(options: &StressOptions<'a>) -> bool
    ensures { IsTrue result ↔ AsksForOneOfEach (settings_of options.now) }
{
    options.threads == 1 || (options.threads == 2 && options.producers == 1)
}

/// Returns whether the queue can run the plan.
fn suits_roles<'a>(queue: ProvedQueue, options: &StressOptions<'a>) -> bool
    ensures { IsTrue result ↔ SuitsRoles queue (settings_of options.now) }
{
    match queue {
        ProvedQueue::Ring => asks_for_one_of_each(options),
        ProvedQueue::OneLock | ProvedQueue::TwoLocks | ProvedQueue::LockFree => true,
    }
}

/// Runs the proved queue of a name that no queue of the shelf has, if there is one that can run the plan.
fn stress_unshelved<'a, R: Threads + Wait + Sync>(
    rt: &R,
    alloc: Global,
    options: &StressOptions<'a>,
) -> Outcome
    requires { IsWithinRanges (settings_of options.now) }
    ensures found { StressesUnshelved (settings_of options.now) (answer_of result) }
    ensures places { NamesPlaces result }
{
    let Some(queue) = proved_of(options.queue) else {
        return Err(Fault::Queue);
    };
    if !suits_roles(queue, options) {
        return Err(Fault::Roles);
    }
    stress_proved(rt, alloc, queue, options)
}

/// Runs a queue of the shelf, and judges the recorded history.
fn stress_shelved<'a, R: Threads + Sync>(
    rt: &R,
    alloc: Global,
    shelved: &NamedQueue<'a>,
    options: &StressOptions<'a>,
) -> Outcome
    requires { IsWithinRanges (settings_of options.now) }
    ensures found { StressesQueue (may shelved.now.queue) (may_preload shelved.now.queue) (settings_of options.now)
        (answer_of result) }
    ensures places { NamesPlaces result }
{
    if options.threads as u64 * options.operations as u64 > MAX_OPERATIONS {
        return Err(Fault::Limit);
    }
    run_plan(rt, alloc, &*shelved.queue, options)
}

/// Runs the plan on a queue, and judges the recorded history.
fn run_plan<'a, R: Threads + Sync>(
    rt: &R,
    alloc: Global,
    queue: &dyn TestQueue,
    options: &StressOptions<'a>,
) -> Outcome
    requires ranges { IsWithinRanges (settings_of options.now) }
    requires few { options.now.threads * options.now.operations ≤ MAX_OPERATIONS }
    ensures found { RunsOrFails (may queue.now) (may_preload queue.now) (settings_of options.now) (answer_of result) }
    ensures places { NamesPlaces result }
{
    let (plan, initial) = plan_of(alloc, options)?;
    let recorded = run_from(rt, alloc, queue, &initial, &plan, options.ring, TRIES)?;
    judge_run(rt, alloc, &recorded, options.initial, options.condition)
}

/// Runs a proved queue, and judges the recorded history.
fn stress_proved<'a, R: Threads + Wait + Sync>(
    rt: &R,
    alloc: Global,
    queue: ProvedQueue,
    options: &StressOptions<'a>,
) -> Outcome
    requires ranges { IsWithinRanges (settings_of options.now) }
    requires roles { SuitsRoles queue (settings_of options.now) }
    ensures found { StressesQueue AnswersInKind (λ _. TakesOrRefuses) (settings_of options.now) (answer_of result) }
    ensures linearizable { ShowsNoViolation (answer_of result) }
    ensures places { NamesPlaces result }
{
    if options.threads as u64 * options.operations as u64 > MAX_OPERATIONS {
        return Err(Fault::Limit);
    }
    let (plan, initial) = plan_of(alloc, options)?;
    let recorded = run_proved(rt, alloc, queue, &initial, &plan, options.ring, TRIES)?;
    judge_run(rt, alloc, &recorded, options.initial, options.condition)
}

/// Returns the plan and the initial values.
fn plan_of<'a>(alloc: Global, options: &StressOptions<'a>) -> Result<(Plan, Vec<u64>), AllocError>
    requires ranges { IsWithinRanges (settings_of options.now) }
    requires few { options.now.threads * options.now.operations ≤ MAX_OPERATIONS }
    ensures planned { IfOk result (λ made. IsPlanned (settings_of options.now) made.0) }
    ensures first { IfOk result (λ made. made.1.items ≡ first_values options.now.initial) }
{
    let plan = make_plan(alloc, options)?;
    let initial = first_values(alloc, options.initial)?;
    Ok((plan, initial))
}

/// Makes the plan: without producers that of the seed, else one in which the first workers only enqueue and the others
/// only dequeue.
fn make_plan<'a>(alloc: Global, options: &StressOptions<'a>) -> Result<Plan, AllocError>
    requires ranges { IsWithinRanges (settings_of options.now) }
    requires few { options.now.threads * options.now.operations ≤ MAX_OPERATIONS }
    ensures { IfOk result (IsPlanned (settings_of options.now)) }
{
    if options.producers == 0 {
        return Plan::from_seed(
            alloc,
            options.seed,
            options.threads,
            options.operations,
            options.percent,
        );
    }
    let producers = options.producers.min(options.threads);
    Plan::of_roles(alloc, options.threads, producers, options.operations)
}

/// Judges the recorded history of a run that began with `count` initial values.
fn judge_run<R: Threads + Sync>(
    rt: &R,
    alloc: Global,
    recorded: &Recorded,
    count: usize,
    condition: Condition,
) -> Outcome
    requires { recorded.now.initial ≡ first_values count }
    ensures found { AnswersOrNoMemory (IsShownRun condition count) recorded.now.lists (answer_of result) }
    ensures linearizable { ((events : List Event) → IsMerged recorded.now.lists events
        → IsLinearizable (first_values count) (operations_of events)) → ShowsNoViolation (answer_of result) }
    ensures places { NamesPlaces result }
{
    let history = recorded.history(alloc)?;
    let _initial = history.initial();
    let search = InPieces { rt, pieces: PIECES };
    let verdict = decide_under(&search, alloc, &history, condition)?;
    Ok(Report::Shown(run_version(count), history, verdict))
}

/// Returns `count` initial values.
fn first_values(alloc: Global, count: usize) -> Result<Vec<u64>, AllocError>
    requires { count ≤ MAX_STRESS_INITIAL }
    ensures { IfOk result (λ values. values.items ≡ first_values count) }
{
    (LEAST_INITIAL_NAME..LEAST_INITIAL_NAME + count as u64).collect(alloc)
}

/// Returns the version in which the history of a run is written.
fn run_version(count: usize) -> Version
    ensures { result ≡ run_version count }
{
    if count == 0 {
        Version::One
    } else {
        Version::Two
    }
}
