//! Free gaps and covers, found by scans of all values.

use crate::tests::plain_values::time_of;
use history_merge::{OpId, OpKind, Operation, Operations};
use std::alloc::{AllocError, Global};
use std::test::Fail;
use value_match::{CoverStep, Life, MatchedValue};

/// Returns whether the value is in the queue definitely at this time.
fn covers(life: &Life, time: u64) -> bool {
    life.enqueue_return() <= time && time < life.dequeue_call()
}

/// Returns whether no value is in the queue definitely at this gap.
fn is_free(values: &[MatchedValue], gap: u64) -> bool {
    !values.iter().any(|value| covers(&value.life, time_of(gap)))
}

/// Returns the least free gap of a window. Only the window's call and the tickets of operations in the window are
/// tried.
pub(crate) fn plain_gap(
    operations: &Operations,
    values: &[MatchedValue],
    answer: &Operation,
) -> Option<u64> {
    let mut least: Option<u64> = None;
    for operation in operations.iter() {
        for gap in [answer.call, operation.call, operation.ret] {
            let is_in = answer.call <= gap && gap < answer.ret;
            if is_in && is_free(values, gap) && least.is_none_or(|least| gap < least) {
                least = Some(gap);
            }
        }
    }
    least
}

/// Returns whether the first value leaves after the second, or neither leaves and the first entered earlier.
fn is_longer(life: &Life, other: &Life) -> bool {
    let leaves = life.dequeue_call();
    let other_leaves = other.dequeue_call();
    other_leaves < leaves
        || (other_leaves == leaves && life.enqueue_return() < other.enqueue_return())
}

/// Returns the longer of two values, or the second if there is no first.
fn longer_of(so_far: Option<MatchedValue>, value: MatchedValue) -> MatchedValue {
    match so_far {
        None => value,
        Some(other) => {
            if is_longer(&value.life, &other.life) {
                value
            } else {
                other
            }
        }
    }
}

/// Returns the value that stays longest among those that entered before the frontier. Among values that never leave,
/// this is the first.
fn longest_before(values: &[MatchedValue], frontier: u64) -> Option<MatchedValue> {
    let mut longest: Option<MatchedValue> = None;
    for value in values {
        if value.life.enqueue_return() < frontier {
            longest = Some(longer_of(longest, *value));
        }
    }
    longest
}

/// Returns the cover of a window, value by value, or none if the window isn't covered.
pub(crate) fn plain_cover(
    alloc: Global,
    values: &[MatchedValue],
    answer: &Operation,
) -> Result<Option<Vec<CoverStep>>, AllocError> {
    let mut steps = Vec::new(alloc);
    let mut frontier = time_of(answer.call);
    for _ in values {
        let Some(value) = longest_before(values, frontier) else {
            return Ok(None);
        };
        steps.push(CoverStep {
            source: value.source,
            dequeue: value.dequeue,
        })?;
        frontier = value.life.dequeue_call();
        if frontier > time_of(answer.ret) {
            return Ok(Some(steps));
        }
    }
    Ok(None)
}

/// The result of plain scans about all empty dequeues.
#[derive(Drop)]
pub enum PlainWitness {
    /// The least free gap of each one.
    Gaps(Vec<u64>),
    /// The first covered one by return, with its cover.
    Covered(OpId, Vec<CoverStep>),
}

/// Returns the least free gap of each empty dequeue that has one.
fn free_gaps(
    alloc: Global,
    operations: &Operations,
    values: &[MatchedValue],
) -> Result<Vec<u64>, AllocError> {
    let mut gaps = Vec::new(alloc);
    for answer in operations.iter() {
        if answer.kind != OpKind::DequeueEmpty {
            continue;
        }
        if let Some(gap) = plain_gap(operations, values, &answer) {
            gaps.push(gap)?;
        }
    }
    Ok(gaps)
}

/// Returns the first covered empty dequeue by return with its place, if one is covered.
fn first_covered(operations: &Operations, values: &[MatchedValue]) -> Option<(OpId, Operation)> {
    let mut first = None;
    let mut least = u64::MAX;
    for (place, answer) in (0..u32::MAX).zip(operations.iter()) {
        let is_sooner = answer.kind == OpKind::DequeueEmpty && answer.ret < least;
        if is_sooner && plain_gap(operations, values, &answer).is_none() {
            first = Some((OpId::new(place), answer));
            least = answer.ret;
        }
    }
    first
}

/// Returns the least free gap of each empty dequeue, or the first covered one by return with its cover.
pub(crate) fn plain_witness(
    alloc: Global,
    operations: &Operations,
    values: &[MatchedValue],
) -> Result<PlainWitness, Fail> {
    match first_covered(operations, values) {
        None => Ok(PlainWitness::Gaps(free_gaps(alloc, operations, values)?)),
        Some((empty, answer)) => {
            let cover = plain_cover(alloc, values, &answer)?.ok_or("no cover")?;
            Ok(PlainWitness::Covered(empty, cover))
        }
    }
}
