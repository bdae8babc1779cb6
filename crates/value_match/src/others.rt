ghost use Rattle.std.specs.Prelude.{◌≡◌, ◌↔◌, Contains, IfOk, IsTrue, MatchOption, Some, true};
ghost use Rattle.std.specs.BTreeSet.{contains};
ghost use Rattle.std.specs.List.Sorted.{IsNonDecreasingBy};
ghost use Rattle.std.specs.Ordering.{nat_cmp};
ghost use Rattle.history_merge.specs.Operations.{enqueued_value};
ghost use Rattle.value_match.specs.Inner.Others.{AreBounds, CallsNoneOf, HoldsOthers, NoneOf};
ghost use Rattle.value_match.specs.Inner.Sources.{IsCallPlace};

use history_merge::PackedOperation;
use std::alloc::{AllocError, Global};
use std::collections::BTreeSet;

/// A call to enqueue a value, and its place.
#[derive(Clone, Copy)]
pub(crate) struct Call {
    pub(crate) value: u64,
    pub(crate) place: usize,
}

/// Returns whether the operation at `place` exists and called to enqueue the value.
#[inline(always)]
pub(crate) fn is_called_at(operations: &[PackedOperation], value: u64, place: usize) -> bool
    ensures { IsTrue result ↔ IsCallPlace operations.now value (Some place) }
{
    match operations.get(place) {
        Some(operation) => operation.unpack().kind.enqueued_value() == Some(value),
        None => false,
    }
}

/// Returns the calls to enqueue the wanted values, sorted by value.
pub(crate) fn others_of(
    alloc: Global,
    operations: &[PackedOperation],
    wanted: &BTreeSet<u64>,
) -> Result<Vec<Call>, AllocError>
    ensures { IfOk result (λ others. HoldsOthers wanted.now operations.now others.items) }
{
    let bounds = bounds_of(wanted);
    let mut others = Vec::new(alloc);
    for (place, operation) in operations.iter().enumerate() {
        if let Some(value) = wanted_call(wanted, bounds, operation) {
            others.push(Call { value, place })?;
        }
    }
    others.sort_unstable_by_key(|call| call.value);
    Ok(others)
}

/// The range of some values; all numbers if there are none.
#[derive(Clone, Copy)]
struct Bounds {
    least: u64,
    greatest: u64,
}

/// Returns the range of the wanted values.
fn bounds_of(wanted: &BTreeSet<u64>) -> Bounds
    ensures { AreBounds wanted.now result }
{
    Bounds {
        least: wanted.first().map_or(0, |value| *value),
        greatest: wanted.last().map_or(u64::MAX, |value| *value),
    }
}

/// Returns the value that the operation called to enqueue, if it is wanted. Few values are, and most others are out
/// of range, so comparing saves unpacking the operation and looking its value up.
#[inline(always)]
fn wanted_call(wanted: &BTreeSet<u64>, bounds: Bounds, operation: &PackedOperation) -> Option<u64>
    requires { AreBounds wanted.now bounds }
    ensures { MatchOption result (CallsNoneOf wanted.now operation.now)
        (λ v. (enqueued_value operation.now.kind ≡ Some v) × (contains nat_cmp wanted.now v ≡ true)) }
{
    let value = operation.value();
    if value < bounds.least || bounds.greatest < value {
        return None;
    }
    let called = operation.unpack().kind.enqueued_value()?;
    wanted.contains(&called).then_some(called)
}

/// Returns the place of a call to enqueue this value among calls sorted by value, if there is one.
pub(crate) fn place_among(calls: &[Call], value: u64) -> Option<usize>
    requires { IsNonDecreasingBy (λ call. call.value) calls.now }
    ensures { MatchOption result (NoneOf calls.now value)
        (λ place. Contains calls.now (record { value = value; place = place })) }
{
    let below = calls.partition_point(|call| call.value < value);
    match calls.get(below) {
        Some(call) if call.value == value => Some(call.place),
        _ => None,
    }
}
