//! Laws of completions, as contracts of functions that do nothing when they run.
ghost use Rattle.std.specs.Prelude.{◌≡◌, ◌≤◌, ℕ, List, length};
ghost use Rattle.event_records.specs.declared.event.Event.{Event};
ghost use Rattle.event_records.specs.declared.limits.TheConstants.{MAX_INITIAL};
ghost use Rattle.history_merge.specs.Initial.{IsCompleteFrom};
ghost use Rattle.completions.specs.Completed.{completed};
ghost use Rattle.completions.specs.Faults.{IsBeyondLimits, MayBePending};
ghost use Rattle.completions.specs.Pending.{IsDeciding, IsHistoryFrom};

/// Proves that the completion decides, unless it is beyond the limits of a history; that a complete history is
/// unchanged; and that events are a history if they have no fault, or if the first is that a call is pending.
pub fn the_completion_decides()
    ensures deciding { (initial : List ℕ) (events : List Event) → length initial ≤ MAX_INITIAL
        → IsHistoryFrom initial events
        → ¬ (IsBeyondLimits initial events) → IsDeciding initial events (completed initial events) }
    ensures complete { (initial : List ℕ) (events : List Event) → IsCompleteFrom initial events
        → completed initial events ≡ events }
    ensures history { (initial : List ℕ) (events : List Event) → MayBePending initial events
        → IsHistoryFrom initial events }
{}
