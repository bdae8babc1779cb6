ghost use Rattle.std.specs.Prelude.{◌≡◌, ℕ, [], IfOk, List, OnOk, length};
ghost use Rattle.history_merge.specs.Initial.{Contents};
ghost use Rattle.value_match.specs.declared.life.Life.{Life};
ghost use Rattle.linearizer.specs.Inner.Placement.{IsOrderOf, NeverFall, ordered_lives, place_of};
ghost use Rattle.linearizer.specs.Inner.Merging.{IsDequeueFrom, IsEnqueueFrom, IsNoopFrom};
ghost use Rattle.linearizer.specs.Inner.Merging.{IsMerge, IsMergedUpTo, IsValueFrom, NoneBelow};

use crate::noops::Noops;
use crate::position::Position;
use crate::timed::PackedTimed;
use history_merge::OpId;
use std::alloc::{AllocError, Global};
use value_match::{Matching, Source};

/// Returns the places of the operations in rising order of position.
///
/// Three lists that rise are merged: the enqueues, the dequeues and the no-ops.
pub(crate) fn merge(
    alloc: Global,
    matching: &Matching,
    order: &[PackedTimed],
    noops: &Noops,
) -> Result<Vec<OpId>, AllocError>
    requires order { IsOrderOf matching.now order.now }
    requires noops { NeverFall noops.now }
    ensures { IfOk result (λ places. IsMerge matching.now noops.now places.items) }
{
    let mut places = Vec::with_capacity(alloc, matching.operations().len())?;
    let mut so_far = place_enqueues(&mut places, matching, order, noops)?;
    place_dequeues(&mut places, &mut so_far, matching, order, noops, None)?;
    place_noops(&mut places, &mut so_far.noops, noops, None)?;
    Ok(places)
}

/// The progress of a merge: how many values of the order had their dequeues placed, the time from which all of these
/// can have left, and how many no-ops were placed.
#[derive(Clone, Copy)]
pub(crate) struct Merged {
    pub(crate) dequeues: usize,
    pub(crate) left: u64,
    pub(crate) noops: usize,
}

/// Adds the enqueues in the order of the values, each after the other operations that come before it.
fn place_enqueues(
    places: &mut Vec<OpId>,
    matching: &Matching,
    order: &[PackedTimed],
    noops: &Noops,
) -> Result<Merged, AllocError>
    requires none { places.old.items ≡ [] }
    requires order { IsOrderOf matching.now order.now }
    requires noops { NeverFall noops.now }
    ensures { IfOk result (λ so_far. IsMergedUpTo matching.now (ordered_lives matching.now order.now)
        noops.now (length order.now) so_far.dequeues so_far.left so_far.noops places.new.items) }
{
    let values = matching.values();
    let mut so_far = Merged {
        dequeues: 0,
        left: 0,
        noops: 0,
    };
    for (rank, entered) in order.iter().enumerate() {
        let entered = entered.unpack();
        let before = Some(Position::of_enqueue(entered.time, rank));
        place_dequeues(places, &mut so_far, matching, order, noops, before)?;
        place_noops(places, &mut so_far.noops, noops, before)?;
        if let Some(place) = place_of(values.get(entered.place).source) {
            places.push(place)?;
        }
    }
    Ok(so_far)
}

/// Returns the place of the enqueue that a value comes from, or none for an initial value.
#[inline(always)]
fn place_of(source: Source) -> Option<OpId>
    ensures { result ≡ place_of source }
{
    match source {
        Source::Enq(place) => Some(place),
        Source::Initial(_) => None,
    }
}

/// Adds the next dequeues in the order of the values, each after the no-ops that come before it. Stops at the first
/// dequeue that comes after `before`, if that is given.
#[inline(always)]
fn place_dequeues(
    places: &mut Vec<OpId>,
    so_far: &mut Merged,
    matching: &Matching,
    order: &[PackedTimed],
    noops: &Noops,
    before: Option<Position>,
) -> Result<(), AllocError>
    requires order { IsOrderOf matching.now order.now }
    requires noops { NeverFall noops.now }
    ensures adds { OnOk result ((i : ℕ) → NoneBelow (IsEnqueueFrom (ordered_lives matching.now order.now) i) before
        → IsMergedUpTo matching.now (ordered_lives matching.now order.now) noops.now i
        so_far.old.dequeues so_far.old.left so_far.old.noops places.old.items
        → IsMergedUpTo matching.now (ordered_lives matching.now order.now) noops.now i
        so_far.new.dequeues so_far.new.left so_far.new.noops places.new.items) }
    ensures up_to { OnOk result ((i : ℕ) → NoneBelow (IsEnqueueFrom (ordered_lives matching.now order.now) i) before
        → IsMergedUpTo matching.now (ordered_lives matching.now order.now) noops.now i
        so_far.old.dequeues so_far.old.left so_far.old.noops places.old.items
        → NoneBelow (IsDequeueFrom (ordered_lives matching.now order.now) so_far.new.dequeues) before) }
{
    let values = matching.values();
    while so_far.dequeues < order.len() {
        let rank = so_far.dequeues;
        let entered = order[rank].unpack();
        let value = values.get(entered.place);
        let enqueue_gap = entered.time;
        let left = value.life.leaves_from().max(so_far.left);
        if let Some(dequeue) = value.dequeue {
            let position = Position::of_dequeue(enqueue_gap, left.max(enqueue_gap), rank);
            if position.stands_after(before) {
                return Ok(());
            }
            place_noops(places, &mut so_far.noops, noops, Some(position))?;
            places.push(dequeue)?;
        }
        *so_far = Merged {
            dequeues: rank + 1,
            left,
            noops: so_far.noops,
        };
    }
    Ok(())
}

/// Adds the next no-ops. Stops at the first that comes after `before`, if that is given.
#[inline(always)]
fn place_noops(
    places: &mut Vec<OpId>,
    count: &mut usize,
    noops: &Noops,
    before: Option<Position>,
) -> Result<(), AllocError>
    requires { NeverFall noops.now }
    ensures adds { OnOk result
        ((history : Contents) (lives : List Life) (i j left : ℕ) → NoneBelow (IsValueFrom lives i j) before
        → IsMergedUpTo history lives noops.now i j left count.old places.old.items
        → IsMergedUpTo history lives noops.now i j left count.new places.new.items) }
    ensures up_to { OnOk result (NoneBelow (IsNoopFrom noops.now count.new) before) }
{
    while *count < noops.len() {
        if noops.is_after(*count, before) {
            return Ok(());
        }
        places.push(noops.place(*count))?;
        *count += 1;
    }
    Ok(())
}
