ghost use Rattle.std.specs.Prelude.{◌≡◌, ◌⊎◌, ◌<◌, ◌≤◌, ⊤, MatchOption, length};
ghost use Rattle.history_merge.specs.Complete.{AreComplete};
ghost use Rattle.value_match.specs.Inner.Courses.{on};
ghost use Rattle.value_match.specs.Inner.MatchOutcome.{AreTakers};
ghost use Rattle.value_match.specs.Inner.Sources.{AreSources, HoldsSources, HasTakersTo, return_at};
ghost use Rattle.value_match.specs.Violations.{NoFreshViolation};

use crate::matching::MAX_MATCHED;
use crate::maybe_place::MaybePlace;
use crate::sources::Sources;
use history_merge::{OpId, PackedOperation};

/// The places of two dequeues of one value, in the order of their returns, and of its enqueue.
#[derive(Clone, Copy)]
pub(crate) struct RepeatPlaces {
    pub(crate) enq: OpId,
    pub(crate) first: OpId,
    pub(crate) second: OpId,
}

/// The dequeues that take from the sources.
#[derive(Drop)]
pub(crate) enum Takers {
    /// No two dequeues take from one source. At each source stands the dequeue that does, if there is one.
    Once(Vec<MaybePlace>),
    /// The value whose second dequeue returns first, among those that are dequeued twice, with these two dequeues.
    Twice(RepeatPlaces),
}

/// Returns the dequeues that take from the sources.
///
/// Takes O(n) time for n operations after the matched prefix.
pub(crate) fn takers_of(operations: &[PackedOperation], sources: Sources) -> Takers
    requires complete { AreComplete operations.now }
    requires few { length operations.now ≤ MAX_MATCHED }
    requires sources { AreSources operations.now sources }
    requires no_fresh { NoFreshViolation (on operations.now) }
    ensures { AreTakers operations.now result }
{
    let Sources {
        prefix,
        takers,
        places,
    } = sources;
    find_takers(operations, prefix, places.as_slice(), takers)
}

/// Walks over the operations after the matched prefix, given the takers of the prefix.
fn find_takers(
    operations: &[PackedOperation],
    prefix: usize,
    sources: &[MaybePlace],
    takers: Vec<MaybePlace>,
) -> Takers
    requires complete { AreComplete operations.now }
    requires few { length operations.now ≤ MAX_MATCHED }
    requires sources { HoldsSources operations.now prefix sources.now }
    requires takers { HasTakersTo operations.now prefix takers.items }
    requires no_fresh { NoFreshViolation (on operations.now) }
    ensures { AreTakers operations.now result }
{
    // At each source the dequeue of those so far that returns first.
    let mut firsts = takers;
    let mut found = None;
    for place in prefix..operations.len() {
        let Some(source) = sources[place - prefix].get() else {
            continue;
        };
        let Some(other) = firsts[source].get() else {
            firsts[source] = MaybePlace::some(place);
            continue;
        };
        let pair = in_order(operations, source, other, place);
        firsts[source] = MaybePlace::some(pair.first.place());
        found = Some(sooner_of(operations, found, pair));
    }
    match found {
        Some(pair) => Takers::Twice(pair),
        None => Takers::Once(firsts),
    }
}

/// Returns the dequeues at `one` and `other` in the order of their returns, with the enqueue of their value.
fn in_order(operations: &[PackedOperation], enq: usize, one: usize, other: usize) -> RepeatPlaces
    requires few { length operations.now ≤ MAX_MATCHED }
    requires enq { enq < length operations.now }
    requires one { one < length operations.now }
    requires other { other < length operations.now }
    ensures enq { result.enq ≡ enq }
    ensures in_order { return_at operations.now result.first ≤ return_at operations.now result.second }
    ensures both { ((result.first ≡ one) × (result.second ≡ other))
        ⊎ ((result.first ≡ other) × (result.second ≡ one)) }
{
    let (first, second) = if return_at(operations, one) <= return_at(operations, other) {
        (one, other)
    } else {
        (other, one)
    };
    RepeatPlaces {
        enq: OpId::new(enq as u32),
        first: OpId::new(first as u32),
        second: OpId::new(second as u32),
    }
}

/// Returns whichever of the two pairs has the second dequeue that returns first.
fn sooner_of(
    operations: &[PackedOperation],
    found: Option<RepeatPlaces>,
    pair: RepeatPlaces,
) -> RepeatPlaces
    requires found { MatchOption found ⊤ (λ f. f.second < length operations.now) }
    requires pair { pair.second < length operations.now }
    ensures { MatchOption found (result ≡ pair)
        (λ f. ((result ≡ f) × (return_at operations.now f.second ≤ return_at operations.now pair.second))
        ⊎ ((result ≡ pair) × (return_at operations.now pair.second ≤ return_at operations.now f.second))) }
{
    match found {
        Some(found)
            if return_at(operations, found.second.place())
                <= return_at(operations, pair.second.place()) => { found }
        _ => pair,
    }
}

/// Returns the return of the operation at `place`.
pub(crate) fn return_at(operations: &[PackedOperation], place: usize) -> u64
    requires { place < length operations.now }
    ensures { result ≡ return_at operations.now place }
{
    operations[place].unpack().ret
}
