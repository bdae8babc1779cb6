//! Dequeues that certainly overtook values.
ghost use Rattle.std.specs.Prelude.{◌≡◌, ◌≤◌, ◌<◌, ◌^◌, ℕ, All, IfOk, IsPermutation, List};
ghost use Rattle.std.specs.Prelude.{count_by, filter_map, length, map, nat_lt, take};
ghost use Rattle.std.specs.List.Sorted.{IsNonDecreasing, IsNonDecreasingBy};
ghost use Rattle.history_stats.specs.Overtaking.{greatest, overtakings};
ghost use Rattle.history_stats.specs.Inner.Overtaking.{AreTallied, overtaking_among};

use crate::at_once::count_before;
use crate::stays::{Stay, stays_of};
use crate::takings::{Taking, takings_of};
use crate::tally::Tally;
use event_records::ORIGIN;
use history_merge::{History, PackedOperation};
use std::alloc::{AllocError, Global};

/// A dequeue that certainly overtook values: they were enqueued before its own value, and dequeued after it or never.
#[derive(Clone, Copy)]
pub struct Overtaking {
    /// The number of values that it certainly overtook.
    pub count: usize,
    /// The ticket of its call.
    pub ticket: u64,
    /// The value that it got.
    pub value: u64,
}

/// Returns the dequeues of a history that certainly overtook a value, in the order of their calls.
///
/// The only error is out of memory. Takes O(n log n) time for n events and initial values, and memory in proportion
/// to them.
pub fn overtakings_of(alloc: Global, history: &History) -> Result<Vec<Overtaking>, AllocError>
    ensures { IfOk result (λ found. found.items ≡ overtakings history.now) }
{
    let operations = history.by_time();
    let calls = calls_of(alloc, operations)?;
    let stays = stays_of(alloc, operations, calls.as_slice())?;
    let takings = takings_of(alloc, operations)?;
    let mut found = find_all(
        alloc,
        calls.as_slice(),
        stays.as_slice(),
        takings.as_slice(),
    )?;
    found.sort_unstable_by_key(|overtaking| overtaking.ticket);
    Ok(found)
}

/// Returns the maximum number of values that one of the dequeues overtook; 0 if there are none.
pub(crate) fn greatest_count(overtakings: &[Overtaking]) -> usize
    ensures { result ≡ greatest (map (λ o. o.count) overtakings.now) }
{
    let mut most = 0;
    for overtaking in overtakings {
        most = most.max(overtaking.count);
    }
    most
}

/// Returns the tickets of the calls.
fn calls_of(alloc: Global, operations: &[PackedOperation]) -> Result<Vec<u64>, AllocError>
    ensures { IfOk result (λ calls. calls.items ≡ map (λ o. o.call) operations.now) }
{
    let mut calls = Vec::with_capacity(alloc, operations.len())?;
    for operation in operations {
        calls.push(operation.unpack().call)?;
    }
    Ok(calls)
}

/// Returns the overtakings among dequeues that come in the order of their values' enqueues.
///
/// Before each dequeue the values that were enqueued before its own are tallied by their dequeues.
fn find_all(
    alloc: Global,
    calls: &[u64],
    stays: &[Stay],
    takings: &[Taking],
) -> Result<Vec<Overtaking>, AllocError>
    requires calls { IsNonDecreasing calls.now }
    requires stays { IsNonDecreasingBy (λ s. s.put) stays.now }
    requires taken { All (λ s. s.taken ≤ length calls.now) stays.now }
    requires takings { IsNonDecreasingBy (λ t. t.enqueue_call) takings.now }
    requires few { (length calls.now < 2 ^ 62) × (length stays.now < 2 ^ 62) }
    ensures { IfOk result (λ found. found.items ≡ filter_map (overtaking_among calls.now stays.now) takings.now) }
{
    let mut tally = Tally::new(alloc, calls.len())?;
    let mut put = 0;
    let mut found = Vec::new(alloc);
    for taking in takings {
        put = put_before(&mut tally, stays, put, taking.enqueue_call);
        if let Some(overtaking) = overtaking_of(&tally, put, calls, *taking) {
            found.push(overtaking)?;
        }
    }
    Ok(found)
}

/// Tallies the stays from `place` on whose values were enqueued before a ticket. Returns the place after the last of
/// them.
fn put_before(tally: &mut Tally, stays: &[Stay], place: usize, ticket: u64) -> usize
    requires in_order { IsNonDecreasingBy (λ s. s.put) stays.now }
    requires place { place ≤ count_by (λ s. nat_lt s.put ticket) stays.now }
    requires tallied { (limit : ℕ) × AreTallied limit stays.now place tally.old.levels.items }
    ensures put { result ≡ count_by (λ s. nat_lt s.put ticket) stays.now }
    ensures tallied { (limit : ℕ) → AreTallied limit stays.now place tally.old.levels.items
        → AreTallied limit stays.now result tally.new.levels.items }
{
    let mut put = place;
    while put < stays.len() && stays[put].put < ticket {
        tally.add(stays[put].taken);
        put += 1;
    }
    put
}

/// Returns the overtaking of a dequeue, if it overtook a value. The first `put` stays are tallied.
fn overtaking_of(tally: &Tally, put: usize, calls: &[u64], taking: Taking) -> Option<Overtaking>
    requires in_order { IsNonDecreasing calls.now }
    requires tallied { (stays : List Stay) × AreTallied (length calls.now) stays put tally.now.levels.items
        × (put ≤ length stays) }
    ensures { (stays : List Stay) → AreTallied (length calls.now) stays put tally.now.levels.items
        → IsNonDecreasingBy (λ s. s.put) stays
        → put ≡ count_by (λ s. nat_lt s.put taking.enqueue_call) stays
        → result ≡ overtaking_among calls.now stays taking }
{
    let count = put - tally.count_below(count_before(calls, taking.ret));
    if count == 0 {
        return None;
    }
    Some(Overtaking {
        count,
        ticket: taking.call.saturating_sub(ORIGIN),
        value: taking.value,
    })
}
