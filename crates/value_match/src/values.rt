ghost use Rattle.std.specs.Prelude.{◌≡◌, ◌≢◌, ◌<◌, ◌≤◌, ◌+◌, ◌++◌, ◌∷◌, [], ℕ, IfOk, IfSome, length, vec_len};
ghost use Rattle.std.specs.Vec.{vec_capacity};
ghost use Rattle.history_merge.specs.declared.operation.OpKind.TheVariants.{Enqueue};
ghost use Rattle.history_merge.specs.Complete.{AreComplete};
ghost use Rattle.history_merge.specs.Inner.Timeline.{timeline};
ghost use Rattle.history_merge.specs.Operations.{operations_of};
ghost use Rattle.value_match.specs.Inner.Courses.{on};
ghost use Rattle.value_match.specs.Lives.{IsOfHistory};
ghost use Rattle.value_match.specs.Outcome.{IsMatched};
ghost use Rattle.value_match.specs.Inner.MatchOutcome.{IsMatchOutcomeOf};
ghost use Rattle.value_match.specs.Inner.ByKind.{IsByKindOf};
ghost use Rattle.value_match.specs.Inner.Sources.{HoldsDequeues};
ghost use Rattle.value_match.specs.Violations.{IsClear};

use crate::accepted::Pair;
use crate::fresh::{FreshPlaces, first_fresh};
use crate::history_places::{fresh_violation, repeat_violation};
use crate::matching::{ByKind, MAX_MATCHED, Matched, Matching};
use crate::maybe_place::MaybePlace;
use crate::sources::sources_of;
use crate::takers::{RepeatPlaces, Takers, takers_of};
use history_merge::{History, OpId, OpKind, PackedOperation};
use std::alloc::{AllocError, Global};

/// The result of matching a timeline: its operations by kind, or the violation that rules a matching out.
#[derive(Drop)]
pub(crate) enum MatchOutcome {
    Clear(ByKind),
    Fresh(FreshPlaces),
    Repeat(RepeatPlaces),
}

/// Returns the matching of a history, or its chosen violation of the first two kinds.
///
/// `Fresh` is the phantom dequeue that returns first. If there is none, `Repeat` is the value whose second dequeue
/// returns first, with its first two dequeues by return. If there is none either, the result is `Clear`. The only
/// error is out of memory.
///
/// Initial values count as enqueued before all else. A violation names operations and initial values by their places.
///
/// Takes O(n) time for n operations if the values leave nearly in the order of their calls or, with a recorder's
/// names, soon after these. Otherwise the calls of the other values are sorted by value, O(n log n). The result
/// borrows the history and takes a word for each successfully enqueued value. The work takes up to two more words for
/// each operation, half a word for each operation after the matched prefix, and a few for each call or dequeue that
/// is sorted.
pub fn match_values(alloc: Global, history: &History) -> Result<Matched<'_>, AllocError>
    ensures matched { IfOk result (IsMatched history.now.initial (operations_of history.now.events)) }
    ensures complete { IsOfHistory history.now.initial (operations_of history.now.events) }
{
    let initial_count = history.initial().len();
    match find(alloc, history.by_time(), initial_count)? {
        MatchOutcome::Clear(sorted) => Ok(Matched::Clear(Matching::new(history, sorted))),
        MatchOutcome::Fresh(places) => Ok(Matched::Fresh(fresh_violation(initial_count, places))),
        MatchOutcome::Repeat(places) => Ok(Matched::Repeat(repeat_violation(
            initial_count,
            places,
        ))),
    }
}

fn find(
    alloc: Global,
    operations: &[PackedOperation],
    initial_count: usize,
) -> Result<MatchOutcome, AllocError>
    requires complete { AreComplete operations.now }
    requires few { length operations.now ≤ MAX_MATCHED }
    ensures { IfOk result (IsMatchOutcomeOf operations.now) }
{
    let sources = sources_of(alloc, operations, initial_count)?;
    if let Some(places) = first_fresh(operations, sources.prefix, sources.places.as_slice()) {
        return Ok(MatchOutcome::Fresh(places));
    }
    match takers_of(operations, sources) {
        Takers::Once(dequeues) => {
            let sorted = by_kind(alloc, operations, dequeues.as_slice())?;
            Ok(MatchOutcome::Clear(sorted))
        }
        Takers::Twice(places) => Ok(MatchOutcome::Repeat(places)),
    }
}

/// Returns the operations by kind, where each enqueue has its dequeue in `dequeues`.
fn by_kind(
    alloc: Global,
    operations: &[PackedOperation],
    dequeues: &[MaybePlace],
) -> Result<ByKind, AllocError>
    requires few { length operations.now ≤ MAX_MATCHED }
    requires clear { IsClear (on operations.now) }
    requires dequeues { HoldsDequeues operations.now dequeues.now }
    ensures { IfOk result (IsByKindOf operations.now) }
{
    let mut values = Vec::with_capacity(alloc, operations.len())?;
    let mut empties = Vec::new(alloc);
    let mut failed = Vec::new(alloc);
    for (place, operation) in operations.iter().enumerate() {
        let kind = operation.unpack().kind;
        let pair = Pair {
            enqueue: place as u32,
            dequeue: dequeues[place],
        };
        push_accepted(&mut values, pair, kind);
        match kind {
            OpKind::DequeueEmpty => empties.push(OpId::new(place as u32))?,
            OpKind::EnqueueFailed(_) => failed.push(OpId::new(place as u32))?,
            OpKind::Enqueue(_) => {}
            OpKind::Dequeue(_) => {}
        }
    }
    Ok(ByKind {
        values,
        empties,
        failed,
    })
}

/// Adds a pair if its operation is a successful enqueue. The pair is pushed first, into room that is there, and
/// removed if it doesn't belong: this needs no branch on the way.
#[inline(always)]
fn push_accepted(pairs: &mut Vec<Pair>, pair: Pair, kind: OpKind)
    requires { vec_len pairs.old < vec_capacity pairs.old }
    ensures accepted { (v : ℕ) → kind ≡ Enqueue v → pairs.new.items ≡ pairs.old.items ++ pair ∷ [] }
    ensures other { ((v : ℕ) → kind ≢ Enqueue v) → pairs.new.items ≡ pairs.old.items }
    ensures len { vec_len pairs.new ≤ vec_len pairs.old + 1 }
    ensures capacity { vec_capacity pairs.new ≡ vec_capacity pairs.old }
{
    pairs.push_reserved(pair);
    if !matches!(kind, OpKind::Enqueue(_)) {
        pairs.pop();
    }
}
