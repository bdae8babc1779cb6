//! Histories that the recorder's machine makes by seeded words.
ghost use Rattle.std.specs.Prelude.{◌≡◌, ◌≤◌, ◌<◌, IfOk, length};

use event_records::{Event, LEAST_INITIAL_NAME, MAX_EVENTS, MAX_INITIAL};
use history_merge::{History, history_from};
use recorder_core::{Answer, Done, Machine, Step, StepRefused, are_initial_names};
use std::alloc::{AllocError, Global};
use std::test::Fail;

/// The number of threads of a small history's machine.
const FEW_THREADS: u8 = 3;

/// The maximum number of operations of a small history.
pub const MOST_OPERATIONS: u64 = 40;

/// The number of moves of a small history's machine.
const MOVES: u32 = 400;

/// The number of threads of a large history's machine.
const MANY_THREADS: u8 = 4;

/// A generator of words for tests: Marsaglia's xorshift.
#[derive(Clone, Copy)]
pub struct Words {
    last: u64,
}

impl Words {
    pub(crate) fn new(seed: u64) -> Words {
        Words {
            last: seed.wrapping_mul(0x9e37_79b9_7f4a_7c15) | 1,
        }
    }

    /// Returns the next word, reduced below the limit.
    pub(crate) fn below(&mut self, limit: u64) -> u64
        requires { 0 < limit }
        ensures { result < limit }
    {
        self.last ^= self.last.wrapping_mul(8192);
        self.last ^= self.last >> 7;
        self.last ^= self.last.wrapping_mul(131_072);
        self.last % limit
    }
}

/// The parameters of small histories: how many of ten operations get an answer that the queue didn't give, and the
/// number of initial values.
#[derive(Clone, Copy)]
pub struct Sort {
    pub lies: u64,
    pub first: u8,
}

/// Returns the name of a value that a thread may enqueue, or of an initial one.
fn named(words: &mut Words, first: u8) -> u64 {
    let of = words.below(3 + u64::from(first));
    if of < 3 {
        of * 4_294_967_296 + words.below(12)
    } else {
        LEAST_INITIAL_NAME + of
    }
}

/// Returns an answer for an operation.
fn told(words: &mut Words, first: u8) -> Answer {
    match words.below(12) {
        0 => Answer::Not,
        1..=4 => Answer::Taken,
        5..=9 => Answer::Empty,
        _ => Answer::Got(named(words, first)),
    }
}

/// Returns a step of a thread.
fn chosen_step(words: &mut Words, sort: Sort, thread: u8) -> Step {
    match words.below(6) {
        0 => Step::AskEnq(thread),
        1 => Step::AskDeq(thread),
        2 | 3 => Step::Ret(thread),
        _ if words.below(10) < sort.lies => Step::Say(thread, told(words, sort.first)),
        _ => Step::Effect(thread),
    }
}

/// Takes a step, then the push and the drain that it may need. Returns the answer of the step.
fn take(machine: &mut Machine, step: Step, thread: u8) -> Result<Done, StepRefused>
    ensures { length machine.new.threads ≡ length machine.old.threads }
{
    let done = machine.step(step);
    let _ = machine.step(Step::Push(thread));
    let _ = machine.step(Step::Drain(thread, 2));
    done
}

/// Returns whether the step begins an operation, if it is taken.
fn is_ask(step: Step) -> bool {
    match step {
        Step::AskEnq(_) | Step::AskDeq(_) => true,
        _ => false,
    }
}

/// Takes seeded steps, which begin no more operations than `most`. Returns whether one of them gave an answer that
/// the queue didn't give.
fn move_on(machine: &mut Machine, words: &mut Words, sort: Sort, most: u64) -> bool
    ensures { length machine.new.threads ≡ length machine.old.threads }
{
    let mut asked = 0u64;
    let mut is_told = false;
    for _ in 0..MOVES {
        let thread = words.below(u64::from(FEW_THREADS)) as u8;
        let step = chosen_step(words, sort, thread);
        if is_ask(step) && asked >= most {
            continue;
        }
        if take(machine, step, thread).is_ok() {
            asked = asked.saturating_add(u64::from(is_ask(step)));
            is_told = is_told || matches!(step, Step::Say(_, _));
        }
    }
    is_told
}

/// Ends the operations that the threads have begun.
fn end_all(machine: &mut Machine, threads: u8)
    ensures { length machine.new.threads ≡ length machine.old.threads }
{
    for thread in 0..threads {
        let _ = take(machine, Step::Effect(thread), thread);
        let _ = take(machine, Step::Ret(thread), thread);
    }
}

/// Returns `count` initial values.
fn first_values(alloc: Global, count: u8) -> Result<Vec<u64>, AllocError> {
    (0..u64::from(count))
        .map(|place| LEAST_INITIAL_NAME + 3 + place)
        .collect(alloc)
}

/// Returns the history that a machine has collected after seeded steps, if one of these gave an answer that the queue
/// didn't give.
pub(crate) fn seeded_history(
    alloc: Global,
    seed: u64,
    sort: Sort,
) -> Result<Option<History>, Fail> {
    let mut words = Words::new(seed);
    let most = 1 + words.below(MOST_OPERATIONS);
    let first = first_values(alloc, sort.first)?;
    if !are_initial_names(alloc, &first)? {
        return Err("other names")?;
    }
    let mut machine = Machine::with_initial(alloc, usize::from(FEW_THREADS), 4, first)?;
    let is_told = move_on(&mut machine, &mut words, sort, most);
    end_all(&mut machine, FEW_THREADS);
    if !is_told {
        return Ok(None);
    }
    let first = first_values(alloc, sort.first)?;
    Ok(Some(collected_history(alloc, &machine, FEW_THREADS, first)?))
}

/// Returns the history of the events collected from all threads, of a queue with these initial values.
fn collected_history(
    alloc: Global,
    machine: &Machine,
    threads: u8,
    first: Vec<u64>,
) -> Result<History, Fail>
    requires { length machine.now.threads ≡ threads }
{
    let mut events: Vec<Event> = Vec::new(alloc);
    for thread in 0..threads {
        events.extend_from_slice(machine.collected(thread))?;
    }
    events.sort_by_key(|event| event.ticket)?;
    if first.len() > MAX_INITIAL || events.len() > MAX_EVENTS {
        return Err("too many values or events")?;
    }
    Ok(history_from(alloc, first, &events)?)
}

/// Returns the call of a thread in this round: two rounds of enqueues, then two of dequeues.
fn round_step(round: u64, thread: u8) -> Step {
    if round % 4 < 2 {
        Step::AskEnq(thread)
    } else {
        Step::AskDeq(thread)
    }
}

/// Runs one operation of each thread, all begun before the first ends.
fn take_round(machine: &mut Machine, round: u64, threads: u8)
    ensures { length machine.new.threads ≡ length machine.old.threads }
{
    for thread in 0..threads {
        let _ = take(machine, round_step(round, thread), thread);
    }
    end_all(machine, threads);
}

/// Returns a history of `rounds` rounds that the queue answered, the first of which has the number `first`.
pub(crate) fn honest_history(alloc: Global, first: u64, rounds: u64) -> Result<History, Fail> {
    let mut machine = Machine::new(alloc, usize::from(MANY_THREADS), 4)?;
    for round in 0..rounds {
        take_round(&mut machine, first.wrapping_add(round), MANY_THREADS);
    }
    collected_history(alloc, &machine, MANY_THREADS, Vec::new(alloc))
}

/// Runs one operation of a thread, from its call to its return.
fn operate(machine: &mut Machine, ask: Step, thread: u8)
    ensures { length machine.new.threads ≡ length machine.old.threads }
{
    let _ = take(machine, ask, thread);
    let _ = take(machine, Step::Effect(thread), thread);
    let _ = take(machine, Step::Ret(thread), thread);
}

/// Returns a history with one empty dequeue, around this many values, each of which is dequeued only after the next
/// is in the queue.
pub(crate) fn covered_history(alloc: Global, values: u64) -> Result<History, Fail> {
    let mut machine = Machine::new(alloc, 2, 4)?;
    operate(&mut machine, Step::AskEnq(0), 0);
    let _ = take(&mut machine, Step::AskDeq(1), 1);
    for _ in 1..values {
        operate(&mut machine, Step::AskEnq(0), 0);
        operate(&mut machine, Step::AskDeq(0), 0);
    }
    let _ = machine.step(Step::Say(1, Answer::Empty));
    let _ = take(&mut machine, Step::Ret(1), 1);
    collected_history(alloc, &machine, 2, Vec::new(alloc))
}
