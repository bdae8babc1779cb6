//! The times at which values were enqueued and first dequeued.
ghost use Rattle.std.specs.Prelude.{◌≡◌, ◌≤◌, ◌<◌, ◌||◌, ◌&&◌, ◌==◌, ℕ, All, IfOk, IfSome, List};
ghost use Rattle.std.specs.Prelude.{OnOk, filter_map, false, length, map, nat_lt, vec_len};
ghost use Rattle.std.specs.List.Sorted.{IsNonDecreasing, IsNonDecreasingBy};
ghost use Rattle.std.specs.Option.{option_map_or};
ghost use Rattle.history_merge.specs.declared.operation.Operation.{Operation};
ghost use Rattle.history_stats.specs.AtOnce.{gave, is_taken_before};
ghost use Rattle.history_stats.specs.Inner.AtOnce.{count_before, is_kept_before};
ghost use Rattle.history_stats.specs.Inner.Overtaking.{AreFirstTakes, CountStays};

use crate::at_once::count_before;
use crate::queued::{keep_least, ticket_for};
use history_merge::{OpKind, Operation, PackedOperation};
use std::alloc::{AllocError, Global};
use std::collections::BTreeMap;

/// The ticket at which the enqueue of a value returned, and the number of operations called before the first dequeue
/// of it.
#[derive(Clone, Copy)]
pub(crate) struct Stay {
    pub(crate) put: u64,
    /// The number of all operations, if the value was never dequeued.
    pub(crate) taken: usize,
}

/// Returns the stays of all values, in the order in which their enqueues returned.
///
/// Takes O(n log n) time for n operations, and memory in proportion to them.
pub(crate) fn stays_of(
    alloc: Global,
    operations: &[PackedOperation],
    calls: &[u64],
) -> Result<Vec<Stay>, AllocError>
    requires calls { calls.now ≡ map (λ o. o.call) operations.now }
    requires in_order { IsNonDecreasing calls.now }
    ensures counted { IfOk result (λ stays. CountStays operations.now calls.now stays.items) }
    ensures in_order { IfOk result (λ stays. IsNonDecreasingBy (λ s. s.put) stays.items) }
    ensures taken { IfOk result (λ stays. All (λ s. s.taken ≤ length calls.now) stays.items) }
    ensures few { IfOk result (λ stays. length stays.items ≤ length operations.now) }
{
    let takes = first_takes(alloc, operations)?;
    let mut stays = all_stays(alloc, operations, calls, &takes)?;
    stays.sort_unstable_by_key(|stay| stay.put);
    Ok(stays)
}

/// Returns for each dequeued value the ticket at which the first dequeue of it was called.
fn first_takes(
    alloc: Global,
    operations: &[PackedOperation],
) -> Result<BTreeMap<u64, u64>, AllocError>
    ensures { IfOk result (λ takes. AreFirstTakes operations.now takes) }
{
    let mut takes = BTreeMap::new(alloc);
    for operation in operations {
        keep_take(&mut takes, operation.unpack())?;
    }
    Ok(takes)
}

/// Keeps the call of an operation for the value that it dequeued, if it did and no lower ticket is kept.
fn keep_take(takes: &mut BTreeMap<u64, u64>, operation: Operation) -> Result<(), AllocError>
    ensures { OnOk result ((gap v : ℕ) → is_kept_before gap takes.new v
        ≡ (is_kept_before gap takes.old v || (gave v operation.kind && nat_lt operation.call gap))) }
{
    match operation.kind {
        OpKind::Dequeue(value) => keep_least(takes, value, operation.call),
        _ => Ok(()),
    }
}

/// Returns the stays of all values, in the order of the operations.
fn all_stays(
    alloc: Global,
    operations: &[PackedOperation],
    calls: &[u64],
    takes: &BTreeMap<u64, u64>,
) -> Result<Vec<Stay>, AllocError>
    requires calls { calls.now ≡ map (λ o. o.call) operations.now }
    requires in_order { IsNonDecreasing calls.now }
    requires takes { AreFirstTakes operations.now takes.now }
    ensures counted { IfOk result (λ stays. CountStays operations.now calls.now stays.items) }
    ensures taken { IfOk result (λ stays. All (λ s. s.taken ≤ length calls.now) stays.items) }
    ensures few { IfOk result (λ stays. length stays.items ≤ length operations.now) }
{
    let mut stays = Vec::new(alloc);
    for operation in operations {
        let operation = operation.unpack();
        if let OpKind::Enqueue(value) = operation.kind {
            let taken = calls_before_take(calls, ticket_for(takes, value));
            stays.push(Stay {
                put: operation.ret,
                taken,
            })?;
        }
    }
    Ok(stays)
}

/// Returns the number of calls before the ticket at which a value was taken; all calls if it never was.
fn calls_before_take(calls: &[u64], take: Option<u64>) -> usize
    requires { IsNonDecreasing calls.now }
    ensures { result ≡ option_map_or (λ t. count_before t calls.now) take (length calls.now) }
{
    match take {
        Some(ticket) => count_before(calls, ticket),
        None => calls.len(),
    }
}
