ghost use Rattle.std.specs.Prelude.{◌≡◌, ◌<◌, ◌≤◌, IfOk, IfSome, Some, length};
ghost use Rattle.history_merge.specs.Complete.{AreComplete};
ghost use Rattle.value_match.specs.Inner.Others.{AreNearWith, HoldsNear};
ghost use Rattle.value_match.specs.Inner.Sources.{IsMatchedPrefix, AreSources, HasTakersTo, HoldsSources, IsCallPlace};

use crate::call_table::CallTable;
use crate::fresh::comes_too_soon;
use crate::matching::MAX_MATCHED;
use crate::maybe_place::MaybePlace;
use crate::others::{Call, is_called_at, others_of, place_among};
use history_merge::{OpKind, PackedOperation};
use std::alloc::{AllocError, Global};
use std::collections::BTreeSet;

/// The maximum distance from the previous match that is searched.
const REACH: usize = 64;

/// For each dequeue the place of the call that enqueued its value, successful or failed, if there is one.
#[derive(Drop)]
pub(crate) struct Sources {
    /// The length of the matched prefix: each dequeue in it is of a value that was in the queue, and no two are of
    /// one value.
    pub(crate) prefix: usize,
    /// At each call the dequeue of the prefix that takes its value, if there is one.
    pub(crate) takers: Vec<MaybePlace>,
    /// The sources of the operations after the prefix, one by one.
    pub(crate) places: Vec<MaybePlace>,
}

/// The sources of the operations after the matched prefix. Some may not be found yet.
#[derive(Drop)]
struct NearSources {
    sources: Vec<MaybePlace>,
    /// The values of the dequeues whose sources aren't found yet.
    wanted: BTreeSet<u64>,
}

/// Returns the sources of all dequeues. `initial_count` is the number of initial values and decides the capacity
/// alone.
///
/// Takes O(n) time for n operations if the values leave nearly in the order of their calls or, with a recorder's
/// names, soon after these. Otherwise the calls of the other values are sorted by value, and each of their dequeues
/// costs a look-up, O(n log n).
pub(crate) fn sources_of(
    alloc: Global,
    operations: &[PackedOperation],
    initial_count: usize,
) -> Result<Sources, AllocError>
    requires complete { AreComplete operations.now }
    requires few { length operations.now ≤ MAX_MATCHED }
    ensures { IfOk result (AreSources operations.now) }
{
    // The lists allocated after the takers are freed before they are. So their buffer, twice as large as they need,
    // can be reused for the next list, which has a word for each value.
    let mut takers = Vec::with_capacity(alloc, 2 * operations.len())?;
    takers.resize(operations.len(), MaybePlace::none())?;
    let mut guess = Guess {
        calls: CallTable::new(alloc, operations, initial_count)?,
        from: 0,
        reach: REACH,
    };
    let prefix = match_prefix(operations, &mut guess, takers.as_mut_slice());
    let near = near_sources(alloc, operations, prefix, guess)?;
    let mut places = near.sources;
    if !near.wanted.is_empty() {
        let others = others_of(alloc, operations, &near.wanted)?;
        find_others(operations, prefix, &others, places.as_mut_slice());
    }
    Ok(Sources {
        prefix,
        takers,
        places,
    })
}

/// Returns the length of the matched prefix. Notes at the call to enqueue each of its values which dequeue takes it.
fn match_prefix(
    operations: &[PackedOperation],
    guess: &mut Guess,
    takers: &mut [MaybePlace],
) -> usize
    requires complete { AreComplete operations.now }
    requires few { length operations.now ≤ MAX_MATCHED }
    requires none { HasTakersTo operations.now 0 takers.old }
    ensures prefix { IsMatchedPrefix operations.now result takers.new }
    ensures within { result ≤ length operations.now }
    ensures len { length takers.new ≡ length takers.old }
{
    for (place, operation) in operations.iter().enumerate() {
        guess.calls.note_next(operations);
        let operation = operation.unpack();
        let OpKind::Dequeue(value) = operation.kind else {
            continue;
        };
        let Some(source) = guess.find(operations, value) else {
            return place;
        };
        if takers[source].get().is_some() || comes_too_soon(operations, operation, source) {
            return place;
        }
        takers[source] = MaybePlace::some(place);
    }
    operations.len()
}

/// Returns the sources of the operations after the prefix that are near by the guess.
fn near_sources(
    alloc: Global,
    operations: &[PackedOperation],
    prefix: usize,
    mut guess: Guess,
) -> Result<NearSources, AllocError>
    requires few { length operations.now ≤ MAX_MATCHED }
    requires prefix { prefix ≤ length operations.now }
    ensures { IfOk result
        (λ near. HoldsNear near.wanted operations.now prefix (length operations.now) near.sources.items) }
{
    let mut sources = Vec::with_capacity(alloc, operations.len() - prefix)?;
    let mut wanted = BTreeSet::new(alloc);
    for place in prefix..operations.len() {
        guess.calls.note_next(operations);
        let OpKind::Dequeue(value) = operations[place].unpack().kind else {
            sources.push(MaybePlace::none())?;
            continue;
        };
        let Some(source) = guess.find(operations, value) else {
            wanted.insert(value)?;
            sources.push(MaybePlace::none())?;
            continue;
        };
        sources.push(MaybePlace::some(source))?;
    }
    Ok(NearSources { sources, wanted })
}

/// A guess at the call for the next value: in the table, or near the previous match. Each miss halves the distance
/// that is searched.
#[derive(Drop)]
struct Guess {
    calls: CallTable,
    from: usize,
    reach: usize,
}

impl Guess {
    /// Returns the place of the call for this value, if it is near.
    #[inline(always)]
    fn find(&mut self, operations: &[PackedOperation], value: u64) -> Option<usize>
        ensures { IfSome result (λ place. IsCallPlace operations.now value (Some place)) }
    {
        let found = match self.calls.find(operations, value) {
            Some(place) => Some(place),
            None => near_place(operations, value, self.from, self.reach),
        };
        match found {
            Some(place) => {
                self.from = place.saturating_add(1);
                self.reach = REACH;
            }
            None => self.reach = (self.reach / 2).max(1),
        }
        found
    }
}

/// Returns the place of the call for this value, if it is within `reach` of `from`.
#[inline(always)]
fn near_place(
    operations: &[PackedOperation],
    value: u64,
    from: usize,
    reach: usize,
) -> Option<usize>
    ensures { IfSome result (λ place. IsCallPlace operations.now value (Some place)) }
{
    for distance in 0..reach {
        let after = from.saturating_add(distance);
        if is_called_at(operations, value, after) {
            return Some(after);
        }
        let before = from.saturating_sub(distance).saturating_sub(1);
        if is_called_at(operations, value, before) {
            return Some(before);
        }
    }
    None
}

/// Finds the sources that weren't near among the calls of their values.
fn find_others(
    operations: &[PackedOperation],
    prefix: usize,
    others: &[Call],
    sources: &mut [MaybePlace],
)
    requires few { length operations.now ≤ MAX_MATCHED }
    requires near { AreNearWith operations.now prefix sources.old others.now }
    ensures { HoldsSources operations.now prefix sources.new }
{
    for place in prefix..operations.len() {
        if sources[place - prefix].get().is_some() {
            continue;
        }
        let OpKind::Dequeue(value) = operations[place].unpack().kind else {
            continue;
        };
        if let Some(call) = place_among(others, value) {
            sources[place - prefix] = MaybePlace::some(call);
        }
    }
}
