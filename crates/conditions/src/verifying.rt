//! Claims under a weaker condition.
ghost use Rattle.std.specs.Prelude.{◌↔◌, ◌≡◌, ◌≤◌, IfOk, IsTrue, List, length};
ghost use Rattle.event_records.specs.declared.limits.TheConstants.{MAX_INITIAL};
ghost use Rattle.history_merge.specs.Initial.{IsCompleteFrom};
ghost use Rattle.history_merge.specs.Legal.{IsLegalOrder};
ghost use Rattle.claims.specs.Claims.{IsTrueClaim};
ghost use Rattle.verdicts.specs.Selection.{contents_of};
ghost use Rattle.claims.specs.declared.claimed.ClaimLine.{ClaimLine};
ghost use Rattle.claims.specs.declared.claimed.ViolationKind.{ViolationKind};
ghost use Rattle.conditions.specs.declared.producer.Emptiness.{Emptiness};
ghost use Rattle.conditions.specs.Claims.{IsTrueLocalClaim, IsTrueWeakClaim};
ghost use Rattle.conditions.specs.Conditions.{selection_of};
ghost use Rattle.conditions.specs.Inner.Sharing.{ArePlacesFor, AreSharedOut};

use crate::producer::{Emptiness, Producer};
use crate::ranks::{PRODUCERS, ranked};
use crate::selections::{Selections, part_at, selections_of};
use crate::weak::part_without_empties;
use history_merge::{History, OpId, Operation};
use std::alloc::{AllocError, Global};
use verdicts::{Claimed, Lines, verify};

/// Returns whether a claim is evidence in the history without its empty dequeues: a `YES` that lists a linearization
/// of all other operations, or a `NO` that shows a violation among them. [`verdicts::verify`] accepts such a `NO`
/// too.
///
/// Takes O(n log n) time for n operations, and memory in proportion.
pub fn verify_weakly_empty(
    alloc: Global,
    history: &History,
    claimed: &Claimed,
) -> Result<bool, AllocError>
    ensures exact { IfOk result (λ valid. IsTrue valid ↔ IsTrueWeakClaim (contents_of history.now) claimed.now) }
{
    let part = part_without_empties(alloc, history)?;
    verify(alloc, &part.history, claimed)
}

/// Returns whether a claim is evidence in a producer's selection, whose operations have these places.
fn is_true_of(
    alloc: Global,
    history: &History,
    producer: Producer,
    places: &[OpId],
    claimed: &Claimed,
) -> Result<bool, AllocError>
    requires { (emptiness : Emptiness) × ArePlacesFor emptiness producer history.now places.now }
    ensures { IfOk result (λ valid. (emptiness : Emptiness) → ArePlacesFor emptiness producer history.now places.now
        → IsTrue valid ↔ IsTrueClaim (selection_of emptiness producer (contents_of history.now)).initial
        (selection_of emptiness producer (contents_of history.now)).operations claimed.now) }
{
    let selection = part_at(alloc, history, producer, places)?;
    verify(alloc, &selection.history, claimed)
}

/// Returns whether these lines are a linearization of a producer's selection, whose operations have these places.
fn is_order_of(
    alloc: Global,
    history: &History,
    producer: Producer,
    places: &[OpId],
    lines: &[Operation],
) -> Result<bool, AllocError>
    requires { (emptiness : Emptiness) × ArePlacesFor emptiness producer history.now places.now }
    ensures { IfOk result (λ valid. (emptiness : Emptiness) → ArePlacesFor emptiness producer history.now places.now
        → IsTrue valid ↔ IsLegalOrder (selection_of emptiness producer (contents_of history.now)).initial
        (selection_of emptiness producer (contents_of history.now)).operations lines.now) }
{
    let copied = Vec::from_slice(alloc, lines)?;
    let claimed = Claimed::Yes(Lines::from_vec(copied));
    is_true_of(alloc, history, producer, places, &claimed)
}

/// Returns whether these lines are linearizations of the producers' selections, one after another.
fn are_orders_in_turn(
    alloc: Global,
    history: &History,
    selections: &Selections,
    lines: &[Operation],
) -> Result<bool, AllocError>
    requires { (emptiness : Emptiness) × AreSharedOut emptiness
        (contents_of history.now) selections.now.used selections.now.buckets.items }
    ensures { IfOk result (λ valid. (emptiness : Emptiness)
        → AreSharedOut emptiness (contents_of history.now) selections.now.used selections.now.buckets.items
        → IsTrue valid ↔ IsTrueLocalClaim emptiness (contents_of history.now) (Claimed.Yes lines.now)) }
{
    let mut rest = lines;
    for rank in 0..PRODUCERS {
        if selections.used[rank] {
            let places = selections.buckets[rank].as_slice();
            if rest.len() < places.len() {
                return Ok(false);
            }
            let (order, after) = rest.split_at(places.len());
            if !is_order_of(alloc, history, ranked(rank), places, order)? {
                return Ok(false);
            }
            rest = after;
        }
    }
    Ok(rest.is_empty())
}

/// Returns whether the claim is evidence in the selection of some producer.
fn is_true_of_some(
    alloc: Global,
    history: &History,
    selections: &Selections,
    claimed: &Claimed,
) -> Result<bool, AllocError>
    requires complete { IsCompleteFrom history.now.initial history.now.events }
    requires few { length history.now.initial ≤ MAX_INITIAL }
    requires shared { (emptiness : Emptiness) × AreSharedOut emptiness
        (contents_of history.now) selections.now.used selections.now.buckets.items }
    ensures { IfOk result (λ valid. (emptiness : Emptiness)
        → AreSharedOut emptiness (contents_of history.now) selections.now.used selections.now.buckets.items
        → (kind : ViolationKind) (lines : List ClaimLine) → claimed.now ≡ Claimed.No kind lines
        → IsTrue valid ↔ IsTrueLocalClaim emptiness (contents_of history.now) claimed.now) }
{
    for rank in 0..PRODUCERS {
        if selections.used[rank] {
            let places = selections.buckets[rank].as_slice();
            if is_true_of(alloc, history, ranked(rank), places, claimed)? {
                return Ok(true);
            }
        }
    }
    Ok(false)
}

/// Returns whether a claim is evidence under local linearizability: a `YES` that lists linearizations of the
/// producers' [`crate::selection`]s one after another, in the order of [`crate::decide_local`], or a `NO` that shows
/// a violation in one of them. [`verdicts::verify`] accepts such a `NO` too.
///
/// Takes O((n + p e) log n) time for n events, p producers and e empty dequeues, and memory in proportion to n + p e.
pub fn verify_local(
    alloc: Global,
    history: &History,
    emptiness: Emptiness,
    claimed: &Claimed,
) -> Result<bool, AllocError>
    ensures exact { IfOk result
        (λ valid. IsTrue valid ↔ IsTrueLocalClaim emptiness (contents_of history.now) claimed.now) }
{
    let selections = selections_of(alloc, history, emptiness)?;
    // Shows the proof that the history is complete and within the limits, as the contracts of these calls say.
    let _initial = history.initial();
    match claimed {
        Claimed::Yes(lines) => are_orders_in_turn(alloc, history, &selections, lines.as_slice()),
        Claimed::No(_, _) => is_true_of_some(alloc, history, &selections, claimed),
    }
}
