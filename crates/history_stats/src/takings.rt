//! Dequeues of values that were enqueued.
ghost use Rattle.std.specs.Prelude.{◌≡◌, ℕ, IfOk, IsPermutation, List, OnOk, Option};
ghost use Rattle.std.specs.Prelude.{Some, None, option_map, find, nat_eq, if◌then◌else◌};
ghost use Rattle.std.specs.Option.{option_or};
ghost use Rattle.std.specs.Ordering.{nat_cmp};
ghost use Rattle.std.specs.BTreeMap.{get};
ghost use Rattle.std.specs.List.Sorted.{IsNonDecreasingBy};
ghost use Rattle.history_merge.specs.declared.operation.Operation.{Operation};
ghost use Rattle.history_stats.specs.Overtaking.{put};
ghost use Rattle.history_stats.specs.Inner.Overtaking.{AreEnqueueCalls, taking_by, takings_in};

use history_merge::{OpKind, Operation, PackedOperation};
use std::alloc::{AllocError, Global};
use std::collections::BTreeMap;

/// A dequeue of an enqueued value: the call of that enqueue, its own call and return, and the value.
#[derive(Clone, Copy)]
pub(crate) struct Taking {
    pub(crate) enqueue_call: u64,
    pub(crate) call: u64,
    pub(crate) ret: u64,
    pub(crate) value: u64,
}

/// Returns the dequeues of enqueued values, in the order in which those enqueues were called.
///
/// Takes O(n log n) time for n operations, and memory in proportion to them.
pub(crate) fn takings_of(
    alloc: Global,
    operations: &[PackedOperation],
) -> Result<Vec<Taking>, AllocError>
    ensures each_once { IfOk result (λ takings. IsPermutation (takings_in operations.now) takings.items) }
    ensures in_order { IfOk result (λ takings. IsNonDecreasingBy (λ t. t.enqueue_call) takings.items) }
{
    let enqueue_calls = enqueue_calls(alloc, operations)?;
    let mut takings = all_takings(alloc, operations, &enqueue_calls)?;
    takings.sort_unstable_by_key(|taking| taking.enqueue_call);
    Ok(takings)
}

/// Returns for each enqueued value the ticket at which its enqueue was called.
fn enqueue_calls(
    alloc: Global,
    operations: &[PackedOperation],
) -> Result<BTreeMap<u64, u64>, AllocError>
    ensures { IfOk result (AreEnqueueCalls operations.now) }
{
    let mut calls = BTreeMap::new(alloc);
    for operation in operations {
        keep_enqueue(&mut calls, operation.unpack())?;
    }
    Ok(calls)
}

/// Keeps the call of an operation for the value that it enqueued, if it did and no ticket is kept.
fn keep_enqueue(calls: &mut BTreeMap<u64, u64>, operation: Operation) -> Result<(), AllocError>
    ensures { OnOk result ((v : ℕ) → get nat_cmp calls.new v
        ≡ option_or (get nat_cmp calls.old v) (if put v operation.kind then Some operation.call else None)) }
{
    match operation.kind {
        OpKind::Enqueue(value) => keep_first(calls, value, operation.call),
        _ => Ok(()),
    }
}

/// Keeps the ticket for the value, unless one is kept.
fn keep_first(kept: &mut BTreeMap<u64, u64>, value: u64, ticket: u64) -> Result<(), AllocError>
    ensures { OnOk result ((v : ℕ) → get nat_cmp kept.new v
        ≡ option_or (get nat_cmp kept.old v) (if nat_eq v value then Some ticket else None)) }
{
    if kept.get(&value).is_none() {
        kept.insert(value, ticket)?;
    }
    Ok(())
}

/// Returns the dequeues of enqueued values, in the order of the operations.
fn all_takings(
    alloc: Global,
    operations: &[PackedOperation],
    enqueue_calls: &BTreeMap<u64, u64>,
) -> Result<Vec<Taking>, AllocError>
    requires { AreEnqueueCalls operations.now enqueue_calls.now }
    ensures { IfOk result (λ takings. takings.items ≡ takings_in operations.now) }
{
    let mut takings = Vec::new(alloc);
    for operation in operations {
        if let Some(taking) = taking_by(enqueue_calls, operation.unpack()) {
            takings.push(taking)?;
        }
    }
    Ok(takings)
}

/// Returns the operation as a dequeue of an enqueued value, if it is one.
fn taking_by(enqueue_calls: &BTreeMap<u64, u64>, operation: Operation) -> Option<Taking>
    ensures { (operations : List Operation) → AreEnqueueCalls operations enqueue_calls.now
        → result ≡ taking_by operations operation operation.kind }
{
    let OpKind::Dequeue(value) = operation.kind else {
        return None;
    };
    let enqueue_call = enqueue_calls.get(&value).copied()?;
    Some(Taking {
        enqueue_call,
        call: operation.call,
        ret: operation.ret,
        value,
    })
}
