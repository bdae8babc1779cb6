ghost use Rattle.std.specs.Prelude.{◌≡◌, IfOk, flat_map};
ghost use Rattle.history_merge.specs.Merge.{IsMerged};

use event_records::{Event, Lists};
use std::alloc::{AllocError, Global};

/// Merges the lists by ticket. Events with equal tickets keep the order of their lists, and within one list their
/// own.
///
/// Takes O(n log n) time for n events, and memory for the result and for a buffer of the sort.
pub fn merge(alloc: Global, lists: &Lists) -> Result<Vec<Event>, AllocError>
    ensures { IfOk result (λ merged. IsMerged lists.now merged.items) }
{
    let mut events = joined(alloc, lists)?;
    events.sort_by_key(|event| event.ticket)?;
    Ok(events)
}

/// Returns the events of the lists, list after list.
fn joined(alloc: Global, lists: &Lists) -> Result<Vec<Event>, AllocError>
    ensures { IfOk result (λ events. events.items ≡ flat_map (λ list. list) lists.now) }
{
    let mut events = Vec::new(alloc);
    for list in lists.as_slice() {
        events.extend_from_slice(list.as_slice())?;
    }
    Ok(events)
}
