//! The maximum number of operations pending at once.
ghost use Rattle.std.specs.Prelude.{◌≡◌, ◌<◌, ◌≤◌, All, IfOk, length, map};
ghost use Rattle.event_records.specs.declared.limits.TheConstants.{MAX_EVENTS};
ghost use Rattle.history_merge.specs.declared.operation.Operation.{Operation};
ghost use Rattle.history_stats.specs.AtOnce.{IsMost, pending_at};

use crate::at_once::most_of;
use history_merge::Operations;
use std::alloc::{AllocError, Global};

/// Returns the maximum number of operations pending at one gap.
///
/// Takes O(n log n) time for n operations, and memory for two tickets of each.
pub(crate) fn most_pending(alloc: Global, operations: &Operations<'_>) -> Result<usize, AllocError>
    requires forward { All (λ o. o.call < o.ret) operations.now }
    requires few { length operations.now ≤ MAX_EVENTS }
    ensures { IfOk result (IsMost (pending_at operations.now)) }
{
    let calls = calls_of(alloc, operations)?;
    let returns = returns_of(alloc, operations)?;
    Ok(most_of(0, calls, returns))
}

/// Returns the tickets of the calls.
fn calls_of(alloc: Global, operations: &Operations<'_>) -> Result<Vec<u64>, AllocError>
    ensures { IfOk result (λ v. v.items ≡ map (λ o. o.call) operations.now) }
{
    operations
        .iter()
        .map(|operation| operation.call)
        .collect(alloc)
}

/// Returns the tickets of the returns.
fn returns_of(alloc: Global, operations: &Operations<'_>) -> Result<Vec<u64>, AllocError>
    ensures { IfOk result (λ v. v.items ≡ map (λ o. o.ret) operations.now) }
{
    operations
        .iter()
        .map(|operation| operation.ret)
        .collect(alloc)
}
