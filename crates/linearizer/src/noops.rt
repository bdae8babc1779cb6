//! The operations that change nothing, sorted by position.
ghost use Rattle.std.specs.Prelude.{◌≡◌, ◌+◌, ◌↔◌, ◌<◌, ◌≤◌, All, IfOk, IsSomeAnd, IsTrue, MatchOption, OnOk};
ghost use Rattle.std.specs.Prelude.{Some, false, filter, length, map, slice_get};
ghost use Rattle.history_merge.specs.declared.packed.TheConstants.{PACKED_LIMIT};
ghost use Rattle.event_records.specs.declared.limits.TheConstants.{ORIGIN};
ghost use Rattle.value_match.specs.Lives.{AreLeastFreeGaps, course_of, is_empty_answer, is_failed, timed};
ghost use Rattle.value_match.specs.Inner.Accepted.{operation_at};
ghost use Rattle.value_match.specs.Times.{time_of};
ghost use Rattle.value_match.specs.Violations.{IsClear};
ghost use Rattle.value_match.specs.declared.matching.TheConstants.{MAX_MATCHED};
ghost use Rattle.linearizer.specs.Order.{StandsBefore};
ghost use Rattle.linearizer.specs.Inner.Placement.{Adds, HoldsNoops, IsCalledInRange, noop_at, position_of};

use crate::position::{Class, Position};
use crate::timed::{PackedTimed, Timed};
use event_records::ORIGIN;
use history_merge::{OpId, Operations};
use std::alloc::{AllocError, Global};
use std::marker::Model;
use value_match::Matching;

/// The empty dequeues and the failed enqueues in rising order of position, seen as the list of them with their
/// positions.
///
/// Borrows the operations, and holds a word for each no-op.
#[derive(Drop)]
pub(crate) struct Noops<'a> {
    operations: Operations<'a>,
    // The place and the gap of each no-op.
    at: Vec<PackedTimed>,
}

impl<'a> Model for Noops<'a> {
    ghost use Rattle.std.specs.Prelude.{All, List, map};
    ghost use Rattle.linearizer.specs.Inner.Placement.{IsCalledInRange, Placed, noop_at};

    ghost Value = { List Placed };

    ghost view = { λ n. map (noop_at n.operations) n.at.items };

    ghost invariant = { λ n. All (λ timed. IsCalledInRange n.operations timed.place) n.at.items };
}

impl<'a> Noops<'a> {
    fn new(operations: Operations<'a>, at: Vec<PackedTimed>) -> Noops<'a>
        requires { All (λ timed. IsCalledInRange operations timed.place) at.items }
        ensures { result ≡ map (noop_at operations.entry) at.items }
    {
        Noops { operations, at }
    }

    /// Returns the number of no-ops.
    pub(crate) fn len(&self) -> usize
        ensures { result ≡ length self.now }
    {
        self.at.len()
    }

    /// Returns the place of the no-op at index `at`.
    #[inline(always)]
    pub(crate) fn place(&self, at: usize) -> OpId
        requires { at < length self.now }
        ensures { IsSomeAnd (slice_get self.now at) (λ x. x.place ≡ Some result) }
    {
        OpId::new(self.at[at].place())
    }

    /// Returns the position of the no-op at index `at`.
    #[inline(always)]
    fn position(&self, at: usize) -> Position
        requires { at < length self.now }
        ensures { IsSomeAnd (slice_get self.now at) (λ x. x.position ≡ result) }
    {
        let gap = self.at[at].unpack().time;
        let rank = call_at(&self.operations, OpId::new(self.at[at].place()));
        Position {
            gap,
            class: Class::Noop,
            rank,
        }
    }

    /// Returns whether the no-op at index `at` comes after a position; false if none is given. Mostly the gaps
    /// decide.
    #[inline(always)]
    pub(crate) fn is_after(&self, at: usize, position: Option<Position>) -> bool
        requires { at < length self.now }
        ensures { IsSomeAnd (slice_get self.now at) (λ x. MatchOption position (result ≡ false)
            (λ p. IsTrue result ↔ StandsBefore (position_of p) (position_of x.position))) }
    {
        let Some(position) = position else {
            return false;
        };
        if position.gap < self.at[at].unpack().time {
            return true;
        }
        self.position(at).stands_after(Some(position))
    }
}

/// Returns the empty dequeues, at the gaps after these tickets, and the failed enqueues, in rising order of position.
/// Those of one gap are in the order of their calls, which is that of their places.
pub(crate) fn noops_of<'a>(
    alloc: Global,
    matching: &'a Matching,
    gaps: &[u64],
) -> Result<Noops<'a>, AllocError>
    requires clear { IsClear (course_of matching.now) }
    requires gaps { AreLeastFreeGaps (course_of matching.now) (map time_of gaps.now) }
    ensures { IfOk result (λ noops. HoldsNoops matching.now noops) }
{
    let operations = matching.operations();
    let count = gaps.len().saturating_add(matching.failed().len());
    let mut noops = Vec::with_capacity(alloc, count)?;
    add_empties(&mut noops, matching, gaps)?;
    add_failed(&mut noops, matching)?;
    noops.sort_unstable_by_key(|noop| noop.word());
    Ok(Noops::new(operations, noops))
}

/// Adds the empty dequeues.
#[tactic(auto, using(crate::proofs::Elements::adds_none))]
fn add_empties(
    noops: &mut Vec<PackedTimed>,
    matching: &Matching,
    gaps: &[u64],
) -> Result<(), AllocError>
    requires few { length matching.now.operations ≤ MAX_MATCHED }
    requires clear { IsClear (course_of matching.now) }
    requires gaps { AreLeastFreeGaps (course_of matching.now) (map time_of gaps.now) }
    ensures { OnOk result
        (Adds matching.now (filter is_empty_answer (timed matching.now.operations)) noops.old.items noops.new.items) }
{
    let empties = matching.empties();
    for at in 0..empties.len() {
        noops.push(PackedTimed::new(Timed {
            place: empties.get(at).place(),
            time: gaps[at] + ORIGIN,
        }))?;
    }
    Ok(())
}

/// Adds the failed enqueues, each at the gap of its call.
#[tactic(auto, using(crate::proofs::Elements::adds_none))]
fn add_failed(noops: &mut Vec<PackedTimed>, matching: &Matching) -> Result<(), AllocError>
    requires { IsClear (course_of matching.now) }
    ensures { OnOk result
        (Adds matching.now (filter is_failed (timed matching.now.operations)) noops.old.items noops.new.items) }
{
    let operations = matching.operations();
    let failed = matching.failed();
    for at in 0..failed.len() {
        let id = failed.get(at);
        noops.push(PackedTimed::new(Timed {
            time: call_at(&operations, id),
            place: id.place(),
        }))?;
    }
    Ok(())
}

/// Returns the time of the operation's call.
#[inline(always)]
fn call_at(operations: &Operations, id: OpId) -> u64
    requires { IsCalledInRange operations.now id }
    ensures call { result ≡ (operation_at operations.now id).call + ORIGIN }
    ensures in_range { result < PACKED_LIMIT }
{
    match operations.get(id) {
        Some(operation) => operation.call + ORIGIN,
        None => unreachable!("the place is that of an operation"),
    }
}
