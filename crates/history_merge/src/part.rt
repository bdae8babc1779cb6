ghost use Rattle.std.specs.Prelude.{◌≡◌, ◌≤◌, IfOk, List, vec_len};
ghost use Rattle.event_records.specs.declared.event.Event.{Event};
ghost use Rattle.event_records.specs.declared.limits.TheConstants.{MAX_INITIAL};
ghost use Rattle.history_merge.specs.Parts.{IsPartAt};

use crate::complete::History;
use crate::operation::OpId;
use crate::timeline::Timeline;
use std::alloc::{AllocError, Global};

/// Makes the history of these initial values and of the operations at these places of another history. The caller
/// knows that it is complete, as for some values with all their operations.
///
/// Nothing is judged or sorted. Takes time and memory in proportion to the values and places. The only error is out
/// of memory.
pub fn part_at(
    alloc: Global,
    history: &History,
    initial: Vec<u64>,
    places: &[OpId],
) -> Result<History, AllocError>
    requires few_initial { vec_len initial ≤ MAX_INITIAL }
    requires part { (events : List Event) × IsPartAt history.now initial.items places.now events }
    ensures initial { IfOk result (λ part. part.initial ≡ initial.items) }
    ensures events { (events : List Event) → IsPartAt history.now initial.items places.now events
        → IfOk result (λ part. part.events ≡ events) }
{
    let mut timeline = Timeline::with_capacity(alloc, initial, places.len())?;
    for place in places {
        if let Some(operation) = history.timeline().get(place.place()) {
            timeline.push(operation)?;
        }
    }
    Ok(History::new(timeline))
}
