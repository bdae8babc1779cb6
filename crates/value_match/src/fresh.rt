ghost use Rattle.std.specs.Prelude.{◌≡◌, ◌||◌, ◌↔◌, ◌<◌, ◌≤◌, nat_lt, if◌then◌else◌};
ghost use Rattle.std.specs.Prelude.{IsTrue, IfSome, MatchOption, None, length};
ghost use Rattle.history_merge.specs.declared.operation.Operation.{Operation};
ghost use Rattle.history_merge.specs.Complete.{AreComplete};
ghost use Rattle.history_merge.specs.Operations.{IsAt};
ghost use Rattle.value_match.specs.Inner.Courses.{on};
ghost use Rattle.value_match.specs.Lives.{is_failed};
ghost use Rattle.value_match.specs.Inner.MatchOutcome.{AreChosenFresh};
ghost use Rattle.value_match.specs.Inner.Sources.{HoldsSources, IsFreshFrom, IsSourceOf, NoneFresh, return_at};
ghost use Rattle.value_match.specs.Violations.{NoFreshViolation};

use crate::matching::MAX_MATCHED;
use crate::maybe_place::MaybePlace;
use crate::takers::return_at;
use history_merge::{OpId, OpKind, Operation, PackedOperation};

/// The places of a phantom dequeue and of the call to enqueue its value, if there is one.
#[derive(Clone, Copy)]
pub(crate) struct FreshPlaces {
    pub(crate) deq: OpId,
    pub(crate) enq: Option<OpId>,
}

/// Returns the phantom dequeue that returns first, if there is one. `sources` are those of the operations after the
/// matched prefix, which has no phantom dequeue.
pub(crate) fn first_fresh(
    operations: &[PackedOperation],
    prefix: usize,
    sources: &[MaybePlace],
) -> Option<FreshPlaces>
    requires complete { AreComplete operations.now }
    requires few { length operations.now ≤ MAX_MATCHED }
    requires sources { HoldsSources operations.now prefix sources.now }
    requires in_time { NoneFresh operations.now prefix }
    ensures { MatchOption result (NoFreshViolation (on operations.now)) (AreChosenFresh operations.now) }
{
    let mut first = None;
    for place in prefix..operations.len() {
        let source = sources[place - prefix];
        if !is_fresh(operations, place, source) {
            continue;
        }
        let found = FreshPlaces {
            deq: OpId::new(place as u32),
            enq: source.id(),
        };
        first = Some(sooner(operations, first, found));
    }
    first
}

/// Returns whether the operation at `place`, which has this source, is a phantom dequeue: one of a value that was not
/// in the queue.
fn is_fresh(operations: &[PackedOperation], place: usize, source: MaybePlace) -> bool
    requires place { place < length operations.now }
    requires source { (o : Operation) → IsAt operations.now place o → IsSourceOf operations.now o.kind source }
    ensures { (o : Operation) → IsAt operations.now place o → IsTrue result ↔ IsFreshFrom operations.now source o }
{
    let operation = operations[place].unpack();
    let OpKind::Dequeue(_) = operation.kind else {
        return false;
    };
    let Some(source) = source.get() else {
        return true;
    };
    comes_too_soon(operations, operation, source)
}

/// Returns whether the call at `source` failed, or came only after the dequeue had returned.
#[inline(always)]
pub(crate) fn comes_too_soon(operations: &[PackedOperation], deq: Operation, source: usize) -> bool
    requires { source < length operations.now }
    ensures { (call : Operation) → IsAt operations.now source call
        → result ≡ (is_failed call || nat_lt deq.ret call.call) }
{
    let call = operations[source].unpack();
    matches!(call.kind, OpKind::EnqueueFailed(_)) || deq.ret < call.call
}

/// Returns whichever of the two has the dequeue that returns first: `other`, if there is no `first`.
fn sooner(
    operations: &[PackedOperation],
    first: Option<FreshPlaces>,
    other: FreshPlaces,
) -> FreshPlaces
    requires first { IfSome first (λ f. f.deq < length operations.now) }
    requires other { other.deq < length operations.now }
    ensures none { first ≡ None → result ≡ other }
    ensures some { IfSome first (λ f. result
        ≡ (if nat_lt (return_at operations.now f.deq) (return_at operations.now other.deq) then f else other)) }
{
    match first {
        Some(first)
            if return_at(operations, first.deq.place())
                < return_at(operations, other.deq.place()) => { first }
        _ => other,
    }
}
