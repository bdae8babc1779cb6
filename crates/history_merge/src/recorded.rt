ghost use Rattle.std.specs.Prelude.{◌≡◌, ◌≤◌, List, IfOk, flat_map, length};
ghost use Rattle.event_records.specs.declared.event.Event.{Event};
ghost use Rattle.event_records.specs.declared.limits.TheConstants.{MAX_INITIAL};
ghost use Rattle.history_merge.specs.Initial.{IsCompleteFrom};
ghost use Rattle.history_merge.specs.Merge.{IsMerged};

use crate::build::history_from;
use crate::complete::History;
use crate::merging::merge;
use event_records::{Event, Lists, MAX_EVENTS};
use std::alloc::{AllocError, Global};

/// Makes the history of lists that merge to a complete one, as those of a recorded run do, of a queue that holds the
/// initial values at first, front first.
///
/// Takes O(n log n) time for n events, and memory for them and for the history. The only error is out of memory.
pub fn merged_from(alloc: Global, initial: &[u64], lists: &Lists) -> Result<History, AllocError>
    requires complete { (merged : List Event) → IsMerged lists.now merged → IsCompleteFrom initial.now merged }
    requires few { length (flat_map (λ list. list) lists.now) ≤ MAX_EVENTS }
    requires few_initial { length initial.now ≤ MAX_INITIAL }
    ensures initial { IfOk result (λ whole. whole.initial ≡ initial.now) }
    ensures merged { IfOk result (λ whole. IsMerged lists.now whole.events) }
    ensures complete { IfOk result (λ whole. IsCompleteFrom whole.initial whole.events) }
{
    let events = merge(alloc, lists)?;
    let initial = Vec::from_slice(alloc, initial)?;
    // Memory is the only reason why a complete history is rejected.
    history_from(alloc, initial, events.as_slice()).map_err(|_| AllocError)
}
