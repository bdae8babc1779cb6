//! Values that a queue may hold before a run.
ghost use Rattle.std.specs.Prelude.{◌≢◌, ◌≤◌, ◌↔◌, All, AllPairs, IfOk, IsTrue};
ghost use Rattle.event_records.specs.declared.limits.TheConstants.{LEAST_INITIAL_NAME};
ghost use Rattle.recorder_core.specs.Initial.{AreInitialNames};

use event_records::{LEAST_INITIAL_NAME, MAX_INITIAL};
use std::alloc::{AllocError, Global};
use std::collections::BTreeSet;

/// Returns whether a queue may hold these values before a run: they are distinct, at most 100,000, and each is 2^38
/// or greater, above the names of the threads' own values.
///
/// Takes O(n log n) time for n values, and memory for them.
pub fn are_initial_names(alloc: Global, values: &[u64]) -> Result<bool, AllocError>
    ensures { IfOk result (λ yes. IsTrue yes ↔ AreInitialNames values.now) }
{
    if values.len() > MAX_INITIAL || !are_above_names(values) {
        return Ok(false);
    }
    are_distinct(alloc, values)
}

/// Returns whether no value is a name of a thread's own values.
fn are_above_names(values: &[u64]) -> bool
    ensures { IsTrue result ↔ All (λ v. LEAST_INITIAL_NAME ≤ v) values.now }
{
    values.iter().all(|value| *value >= LEAST_INITIAL_NAME)
}

/// Returns whether no two of the values are equal.
fn are_distinct(alloc: Global, values: &[u64]) -> Result<bool, AllocError>
    ensures { IfOk result (λ yes. IsTrue yes ↔ AllPairs (λ v w. v ≢ w) values.now) }
{
    let mut seen = BTreeSet::new(alloc);
    for value in values {
        if !seen.insert(*value)? {
            return Ok(false);
        }
    }
    Ok(true)
}
