//! Verdicts under weaker conditions. A violation of a selection is one of the whole history.

use super::small_histories::{
    EACH_OVERTAKES, FAILED, INITIAL_LAST, INITIAL_SWAPPED, NEVER_ENQUEUED, NOT_EMPTY, OVERTAKING,
    Row, history_of,
};
use conditions::{
    Emptiness, LocalVerdict, Producer, decide_local, decide_local_by, decide_weakly_empty,
    decide_weakly_empty_by,
};
use history_merge::{History, OpId};
use parallel_finders::{InPieces, MAX_PIECES};
use std::alloc::{AllocError, Global};
use std::test::Fail;
use std::thread::Threads;
use value_match::{Source, Violation};
use verdicts::{Verdict, claim, verify};

/// The first code of a verdict in numbers. The numbers below it are places of operations.
const YES: usize = 100;

const FRESH: usize = 101;

const REPEAT: usize = 102;

const ORDER: usize = 103;

const WITNESS: usize = 104;

const NONE: usize = 105;

const INITIAL: usize = 1000;

const THREAD: usize = 2000;

fn number_of(source: Source) -> usize {
    match source {
        Source::Enq(id) => id.place(),
        Source::Initial(place) => INITIAL.saturating_add(place),
    }
}

fn maybe(id: Option<OpId>) -> usize {
    match id {
        Some(id) => id.place(),
        None => NONE,
    }
}

fn producer_number(producer: Producer) -> usize {
    match producer {
        Producer::Initial => INITIAL,
        Producer::Thread(thread) => THREAD + usize::from(thread),
    }
}

fn tell_violation(numbers: &mut Vec<usize>, violation: &Violation) -> Result<(), AllocError> {
    match violation {
        Violation::Fresh { deq, enq } => {
            numbers.extend_from_slice(&[FRESH, deq.place(), maybe(*enq)])
        }
        Violation::Repeat { enq, first, second } => numbers.extend_from_slice(&[
            REPEAT,
            number_of(*enq),
            first.place(),
            second.place(),
        ]),
        Violation::Order {
            enq_a,
            enq_b,
            deq_b,
            deq_a,
        } => numbers.extend_from_slice(&[
            ORDER,
            number_of(*enq_a),
            number_of(*enq_b),
            deq_b.place(),
            maybe(*deq_a),
        ]),
        Violation::Witness { empty, cover } => {
            numbers.extend_from_slice(&[WITNESS, empty.place()])?;
            for step in cover.as_slice() {
                numbers.extend_from_slice(&[number_of(step.source), maybe(step.dequeue)])?;
            }
            Ok(())
        }
    }
}

fn tell_order(numbers: &mut Vec<usize>, order: &[OpId]) -> Result<(), AllocError> {
    numbers.push(YES)?;
    for id in order {
        numbers.push(id.place())?;
    }
    Ok(())
}

fn tell_verdict(numbers: &mut Vec<usize>, verdict: &Verdict) -> Result<(), AllocError> {
    match verdict {
        Verdict::Yes(order) => tell_order(numbers, order.as_slice()),
        Verdict::No(violation) => tell_violation(numbers, violation),
    }
}

fn tell_local(numbers: &mut Vec<usize>, verdict: &LocalVerdict) -> Result<(), AllocError> {
    match verdict {
        LocalVerdict::Yes(orders) => {
            for own in orders.as_slice() {
                numbers.push(producer_number(own.producer))?;
                tell_order(numbers, own.order.as_slice())?;
            }
            Ok(())
        }
        LocalVerdict::No(producer, violation) => {
            numbers.push(producer_number(*producer))?;
            tell_violation(numbers, violation)
        }
    }
}

/// Decides local linearizability. The searches run in `pieces` pieces, or in one go if that number is no number of
/// pieces.
fn local_verdict<R: AllocGlobal + Threads + Sync>(
    rt: &R,
    history: &History,
    emptiness: Emptiness,
    pieces: usize,
) -> Result<LocalVerdict, AllocError> {
    match pieces {
        1..=MAX_PIECES => decide_local_by(&InPieces { rt, pieces }, rt.alloc(), history, emptiness),
        _ => decide_local(rt.alloc(), history, emptiness),
    }
}

/// Decides weak emptiness alone. The search runs in `pieces` pieces, or in one go if that number is no number of
/// pieces.
fn weak_verdict<R: AllocGlobal + Threads + Sync>(
    rt: &R,
    history: &History,
    pieces: usize,
) -> Result<Verdict, AllocError> {
    match pieces {
        1..=MAX_PIECES => decide_weakly_empty_by(&InPieces { rt, pieces }, rt.alloc(), history),
        _ => decide_weakly_empty(rt.alloc(), history),
    }
}

/// Decides local linearizability, or weak emptiness alone, and returns the verdict in numbers.
fn said<R: AllocGlobal + Threads + Sync>(
    rt: &R,
    initial: &[u64],
    rows: &[Row],
    local: Option<Emptiness>,
    pieces: usize,
) -> Result<Vec<usize>, Fail> {
    let history = history_of(rt.alloc(), initial, rows)?;
    let mut numbers = Vec::new(rt.alloc());
    match local {
        Some(emptiness) => tell_local(
            &mut numbers,
            &local_verdict(rt, &history, emptiness, pieces)?,
        )?,
        None => tell_verdict(&mut numbers, &weak_verdict(rt, &history, pieces)?)?,
    }
    Ok(numbers)
}

/// A history, a condition, and the verdict in numbers.
type Case = (
    &'static [u64],
    &'static [Row],
    Option<Emptiness>,
    &'static [usize],
);

static SAID: [Case; 12] = [
    (
        &[],
        OVERTAKING,
        Some(Emptiness::Strict),
        &[1000, 100, 2000, 100, 0, 3, 2001, 100, 1, 2],
    ),
    (&[], OVERTAKING, None, &[103, 0, 1, 2, 3]),
    // the values of both threads overtake each other; those of the lower thread are named
    (
        &[],
        EACH_OVERTAKES,
        Some(Emptiness::Strict),
        &[2001, 103, 3, 4, 6, 7],
    ),
    (
        &[],
        NOT_EMPTY,
        Some(Emptiness::Strict),
        &[2000, 104, 1, 0, 105],
    ),
    (
        &[],
        NOT_EMPTY,
        Some(Emptiness::Weak),
        &[1000, 100, 2000, 100, 0],
    ),
    (&[], NOT_EMPTY, None, &[100, 0]),
    (
        &[],
        NEVER_ENQUEUED,
        Some(Emptiness::Strict),
        &[1000, 101, 1, 105],
    ),
    (&[], FAILED, Some(Emptiness::Weak), &[2005, 101, 1, 0]),
    (
        &[3],
        INITIAL_LAST,
        Some(Emptiness::Strict),
        &[1000, 100, 2, 3, 2000, 100, 0, 1, 3],
    ),
    (&[3], INITIAL_LAST, None, &[103, 1000, 0, 1, 2]),
    (
        &[3, 4],
        INITIAL_SWAPPED,
        Some(Emptiness::Strict),
        &[1000, 103, 1000, 1001, 1, 2],
    ),
    (&[3, 4], INITIAL_SWAPPED, None, &[103, 1000, 1001, 1, 2]),
];

#[test]
fn decides_under_weaker_conditions(rt: HostRuntime) -> Result<(), Fail> {
    for (initial, rows, local, numbers) in &SAID {
        for pieces in [0, 4] {
            let found = said(&rt, initial, rows, *local, pieces)?;
            assert!(rt;
                found.as_slice() == *numbers,
                "{rows:?} {local:?} {found:?}"
            );
        }
    }
    Ok(())
}

/// Returns whether the verdict on a history that isn't locally linearizable is evidence in the whole history.
fn is_evidence(alloc: Global, history: &History) -> Result<bool, AllocError> {
    match decide_local(alloc, history, Emptiness::Strict)? {
        LocalVerdict::Yes(_) => Ok(false),
        LocalVerdict::No(_, violation) => {
            let claimed = claim(alloc, history, &Verdict::No(violation))?;
            verify(alloc, history, &claimed)
        }
    }
}

#[test]
fn a_violation_is_one_of_the_whole_history(rt: HostRuntime) -> Result<(), Fail> {
    let history = history_of(rt.alloc(), &[], EACH_OVERTAKES)?;
    assert!(rt; is_evidence(rt.alloc(), &history)?);
    Ok(())
}
