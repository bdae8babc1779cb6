//! The values that no dequeue gave.
ghost use Rattle.std.specs.Prelude.{◌≡◌, ◌++◌, List, IfOk, OnOk, filter, not};
ghost use Rattle.event_records.specs.declared.event.Event.{Event};
ghost use Rattle.completions.specs.Completed.{is_given};
ghost use Rattle.completions.specs.Inner.Walk.{AreGiven};

use crate::given::is_given_near;
use event_records::{MAX_THREADS, NAMES_OF_A_THREAD};
use std::alloc::{AllocError, Global};

/// Adds those of these values that no dequeue gave.
fn push_left(left: &mut Vec<u64>, given: &[u64], values: &[u64]) -> Result<(), AllocError>
    ensures { OnOk result ((events : List Event) → AreGiven events given.now
        → left.new.items ≡ left.old.items ++ filter (λ v. not (is_given events v)) values.now) }
{
    // In most histories the values of a thread have its name and rise, so each is just after the previous one of its
    // thread.
    let mut near = [0; MAX_THREADS];
    for value in values {
        let name = *value / NAMES_OF_A_THREAD % MAX_THREADS as u64;
        if !is_given_near(given, &mut near[name as usize], *value) {
            left.push(*value)?;
        }
    }
    Ok(())
}

/// Returns the values that no dequeue gave: the initial ones, and then those of successful enqueues.
pub(crate) fn left_values(
    alloc: Global,
    values: &[u64],
    taken: &[u64],
    given: &[u64],
) -> Result<Vec<u64>, AllocError>
    ensures { IfOk result (λ left. (events : List Event) → AreGiven events given.now
        → left.items ≡ filter (λ v. not (is_given events v)) (values.now ++ taken.now)) }
{
    let mut left = Vec::new(alloc);
    push_left(&mut left, given, values)?;
    push_left(&mut left, given, taken)?;
    Ok(left)
}
