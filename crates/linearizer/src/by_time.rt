//! The values sorted by their times.
ghost use Rattle.std.specs.Prelude.{◌<◌, ◌≤◌, All, IfOk, IsPermutation, length};
ghost use Rattle.std.specs.List.Sorted.{IsNonDecreasingBy};
ghost use Rattle.value_match.specs.declared.life.TheConstants.{NEVER};
ghost use Rattle.value_match.specs.Lives.{dequeue_return, entered_by};
ghost use Rattle.linearizer.specs.declared.timed.TheConstants.{PLACES};
ghost use Rattle.linearizer.specs.Inner.Sweep.{AreByTime};

use crate::timed::{PackedTimed, Timed};
use std::alloc::{AllocError, Global};
use value_match::{NEVER, Values, presort};

/// The values sorted by the time by which each has entered, and the dequeued ones sorted by the returns of their
/// dequeues.
#[derive(Drop)]
pub(crate) struct ByTime {
    pub(crate) entries: Vec<PackedTimed>,
    pub(crate) dequeues: Vec<PackedTimed>,
}

/// Returns the values sorted by these two times.
pub(crate) fn by_time(alloc: Global, values: &Values) -> Result<ByTime, AllocError>
    requires few { length values.now ≤ PLACES }
    requires entries { All (λ value. entered_by value.life < NEVER) values.now }
    requires dequeues { All (λ value. dequeue_return value.life ≤ NEVER) values.now }
    ensures entries { IfOk result (λ by_time. AreByTime entered_by values.now by_time.entries.items) }
    ensures dequeues { IfOk result (λ by_time. AreByTime dequeue_return values.now by_time.dequeues.items) }
{
    let mut entries = Vec::with_capacity(alloc, values.len())?;
    let mut dequeues = Vec::with_capacity(alloc, values.len())?;
    for place in 0..values.len() {
        let life = values.get(place).life;
        let time = life.entered_by();
        entries.push(PackedTimed::new(Timed { time, place }))?;
        let time = life.dequeue_return();
        if time < NEVER {
            dequeues.push(PackedTimed::new(Timed { time, place }))?;
        }
    }
    Ok(ByTime {
        entries: sorted(entries),
        dequeues: sorted(dequeues),
    })
}

/// Sorts the values by their times.
///
/// Takes O(n) time for n values if each is near its sorted place, otherwise O(n log n).
fn sorted(timed: Vec<PackedTimed>) -> Vec<PackedTimed>
    ensures permutation { IsPermutation timed.items result.items }
    ensures never_falls { IsNonDecreasingBy (λ timed. timed.time) result.items }
{
    let mut sorted = timed;
    presort(&mut sorted, &|timed: &PackedTimed| timed.unpack().time);
    sorted.sort_unstable_by_key(|timed| timed.unpack().time);
    sorted
}
