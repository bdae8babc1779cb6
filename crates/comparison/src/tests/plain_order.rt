//! The chosen order of all operations: a choice among all remaining values at each step, and a sort by position.

use crate::tests::plain_values::time_of;
use history_merge::{OpId, OpKind, Operations};
use std::alloc::{AllocError, Global};
use value_match::{Life, MatchedValue, Source};

/// The position of an operation: its gap, the class within the gap, and the rank within the class.
type Position = (u64, u8, u64);

/// Returns the time by which the value is definitely enqueued.
fn entered_by(life: &Life) -> u64 {
    life.enqueue_return().min(life.dequeue_return())
}

/// Returns the time before which the value has not left.
fn leaves_from(life: &Life) -> u64 {
    life.dequeue_call().max(life.enqueue_call())
}

/// A value with its place among the remaining ones.
type Placed = (usize, MatchedValue);

/// Returns the value, of these two, that is definitely enqueued first.
fn first_entered(so_far: Option<Placed>, next: Placed) -> Placed {
    match so_far {
        None => next,
        Some(other) => {
            if entered_by(&next.1.life) < entered_by(&other.1.life) {
                next
            } else {
                other
            }
        }
    }
}

/// Returns the value, of these two, that is dequeued first.
fn first_dequeued(so_far: Option<Placed>, next: Placed) -> Placed {
    match so_far {
        None => next,
        Some(other) => {
            if next.1.life.dequeue_return() < other.1.life.dequeue_return() {
                next
            } else {
                other
            }
        }
    }
}

/// Returns the place of the next value among the remaining ones.
fn choice(remaining: &[MatchedValue]) -> Option<usize> {
    let mut first_in: Option<Placed> = None;
    let mut first_out: Option<Placed> = None;
    for (place, value) in remaining.iter().enumerate() {
        first_in = Some(first_entered(first_in, (place, *value)));
        first_out = Some(first_dequeued(first_out, (place, *value)));
    }
    let (a, a_value) = first_in?;
    let (b, b_value) = first_out?;
    if b_value.life.dequeue_return() < leaves_from(&a_value.life) {
        Some(b)
    } else {
        Some(a)
    }
}

/// Returns the values in their chosen order.
fn ordered(alloc: Global, values: &[MatchedValue]) -> Result<Vec<MatchedValue>, AllocError> {
    let mut remaining = values.to_vec(alloc)?;
    let mut order = Vec::new(alloc);
    for _ in values {
        let Some(next) = choice(&remaining) else {
            break;
        };
        if next < remaining.len() {
            order.push(remaining.remove(next))?;
        }
    }
    Ok(order)
}

/// Returns the gap just before the first of these values is definitely enqueued.
fn entry_gap(rest: &[MatchedValue]) -> u64 {
    let mut least = u64::MAX;
    for value in rest {
        least = least.min(entered_by(&value.life));
    }
    least.saturating_sub(1)
}

/// Returns the enqueue of a value, if it has one.
fn enqueue_of(source: Source) -> Option<OpId> {
    match source {
        Source::Enq(id) => Some(id),
        Source::Initial(_) => None,
    }
}

/// Returns the positions of the operations of the enqueued values.
fn value_positions(
    alloc: Global,
    order: &[MatchedValue],
) -> Result<Vec<(Position, OpId)>, AllocError> {
    let mut placed = Vec::new(alloc);
    let mut left = 0;
    for rank in 0..order.len() {
        let value = order[rank];
        let enqueue_gap = entry_gap(&order[rank..]);
        if let Some(enqueue) = enqueue_of(value.source) {
            placed.push(((enqueue_gap, 2, rank as u64), enqueue))?;
        }
        left = leaves_from(&value.life).max(left);
        let gap = left.max(enqueue_gap);
        let class = if enqueue_gap < gap { 0 } else { 3 };
        if let Some(dequeue) = value.dequeue {
            placed.push(((gap, class, rank as u64), dequeue))?;
        }
    }
    Ok(placed)
}

/// Places each empty dequeue at its gap, and each failed enqueue at its call.
fn place_others(
    operations: &Operations,
    gaps: &[u64],
    placed: &mut Vec<(Position, OpId)>,
) -> Result<(), AllocError> {
    let mut gaps = gaps.iter();
    for (place, operation) in (0..u32::MAX).zip(operations.iter()) {
        let gap = match operation.kind {
            OpKind::DequeueEmpty => gaps.next().copied(),
            OpKind::EnqueueFailed(_) => Some(operation.call),
            OpKind::Enqueue(_) | OpKind::Dequeue(_) => None,
        };
        if let Some(gap) = gap {
            placed.push(((time_of(gap), 1, operation.call), OpId::new(place)))?;
        }
    }
    Ok(())
}

/// Returns the chosen order of all operations, if each empty dequeue has its gap.
pub(crate) fn plain_linearization(
    alloc: Global,
    operations: &Operations,
    values: &[MatchedValue],
    gaps: &[u64],
) -> Result<Vec<OpId>, AllocError> {
    let order = ordered(alloc, values)?;
    let mut placed = value_positions(alloc, &order)?;
    place_others(operations, gaps, &mut placed)?;
    placed.sort_by_key(|placed| placed.0)?;
    placed.iter().map(|placed| placed.1).collect(alloc)
}
