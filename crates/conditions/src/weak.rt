//! Weak emptiness: an empty dequeue guarantees nothing.
ghost use Rattle.std.specs.Prelude.{◌≡◌, ◌≤◌, IfOk, Some, false, filter, length, slice_get, true};
ghost use Rattle.event_records.specs.declared.limits.TheConstants.{MAX_EVENTS};
ghost use Rattle.history_merge.specs.Initial.{IsCompleteFrom};
ghost use Rattle.history_merge.specs.declared.operation.Operation.{Operation};
ghost use Rattle.history_merge.specs.Legal.{ArePlacesOf};
ghost use Rattle.verdicts.specs.Selection.{ArePartOf, contents_of, selects};
ghost use Rattle.conditions.specs.Conditions.{without_empties};
ghost use Rattle.conditions.specs.Decided.{IsDecidedOf};
ghost use Rattle.conditions.specs.Inner.Parts.{IsPart};

use crate::moved::moved_verdict;
use crate::part::{Part, part_of};
use history_merge::{History, OpId, OpKind, Operations};
use parallel_finders::{OnePiece, WitnessSearch};
use std::alloc::{AllocError, Global};
use verdicts::{Verdict, decide_by};

/// Returns whether the operation at `place` has a value, which only an empty dequeue has not.
fn has_value(operations: &Operations<'_>, place: OpId) -> bool
    ensures { (o : Operation) → slice_get operations.now place ≡ Some o
        → result ≡ selects (λ value. true) (λ call. false) o }
{
    match operations.get(place) {
        Some(operation) => match operation.kind {
            OpKind::Enqueue(_) | OpKind::Dequeue(_) | OpKind::EnqueueFailed(_) => true,
            OpKind::DequeueEmpty => false,
        },
        None => false,
    }
}

/// Returns the places of all operations but empty dequeues.
fn places_without_empties(
    alloc: Global,
    operations: &Operations<'_>,
) -> Result<Vec<OpId>, AllocError>
    requires { length operations.now ≤ MAX_EVENTS }
    ensures { IfOk result (λ places. ArePlacesOf operations.now places.items
        (filter (selects (λ value. true) (λ call. false)) operations.now)) }
{
    let mut places = Vec::new(alloc);
    for place in 0..operations.len() {
        let id = OpId::new(place as u32);
        if has_value(operations, id) {
            places.push(id)?;
        }
    }
    Ok(places)
}

/// Returns the part of a history without its empty dequeues.
pub(crate) fn part_without_empties(alloc: Global, history: &History) -> Result<Part, AllocError>
    ensures { IfOk result (IsPart history.now (without_empties (contents_of history.now))) }
{
    let places = places_without_empties(alloc, &history.operations())?;
    let initial = Vec::from_slice(alloc, history.initial())?;
    part_of(alloc, history, initial, places)
}

/// Returns the history without its empty dequeues. All other operations keep their tickets, and so their order.
///
/// Takes O(n log n) time for n events, and memory in proportion.
pub fn without_empties(alloc: Global, history: &History) -> Result<History, AllocError>
    ensures selected { IfOk result (λ part. contents_of part ≡ without_empties (contents_of history.now)) }
    ensures events { IfOk result (λ part. ArePartOf history.now.events part.events) }
    ensures complete { IfOk result (λ part. IsCompleteFrom part.initial part.events) }
{
    let Part { history, places: _ } = part_without_empties(alloc, history)?;
    Ok(history)
}

/// Decides whether a history is linearizable if an empty dequeue guarantees nothing. Returns `Yes` with a
/// linearization of all other operations, or `No` with a violation, which is one of the whole history too.
///
/// This is what [`verdicts::decide`] returns for the history without its empty dequeues, by places of the whole
/// history. Takes O(n log n) time for n events, and memory in proportion.
pub fn decide_weakly_empty(alloc: Global, history: &History) -> Result<Verdict, AllocError>
    ensures { IfOk result (IsDecidedOf (contents_of history.now) (without_empties (contents_of history.now))) }
{
    decide_weakly_empty_by(&OnePiece, alloc, history)
}

/// Returns what [`decide_weakly_empty`] returns, with this search for a cover.
pub fn decide_weakly_empty_by<S: WitnessSearch>(
    search: &S,
    alloc: Global,
    history: &History,
) -> Result<Verdict, AllocError>
    requires { S.is_ready search.now }
    ensures { IfOk result (IsDecidedOf (contents_of history.now) (without_empties (contents_of history.now))) }
{
    let part = part_without_empties(alloc, history)?;
    let verdict = decide_by(search, alloc, &part.history)?;
    moved_verdict(alloc, part.places.as_slice(), &verdict)
}
