//! The values that dequeues gave.
ghost use Rattle.std.specs.Prelude.{◌≡◌, List};
ghost use Rattle.event_records.specs.declared.event.Event.{Event};
ghost use Rattle.completions.specs.Completed.{given_values, is_given};
ghost use Rattle.completions.specs.Inner.Walk.{AreGiven};

/// Sorts the values that dequeues gave. Takes O(n log n) time.
pub(crate) fn sort_given(given: &mut Vec<u64>)
    ensures { (events : List Event) → given.old.items ≡ given_values events → AreGiven events given.new.items }
{
    given.sort_unstable();
}

/// Returns whether a dequeue gave this value. Takes O(log n) time.
pub(crate) fn is_given(given: &[u64], value: u64) -> bool
    ensures { (events : List Event) → AreGiven events given.now → result ≡ is_given events value }
{
    given.binary_search(&value).is_ok()
}

/// Returns whether a dequeue gave this value. Moves `near` just after the value, or to the place where it would be.
///
/// The value is searched at `near` first, so values that rise as those given take O(1) time each, others O(log n).
#[inline(always)]
pub(crate) fn is_given_near(given: &[u64], near: &mut usize, value: u64) -> bool
    ensures { (events : List Event) → AreGiven events given.now → result ≡ is_given events value }
{
    let place = *near;
    if place < given.len() && given[place] == value {
        *near = place + 1;
        return true;
    }
    match given.binary_search(&value) {
        Ok(place) => {
            *near = place.saturating_add(1);
            return true;
        }
        Err(place) => {
            *near = place;
            return false;
        }
    }
}
