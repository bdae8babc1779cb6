//! Laws of every schedule, whatever steps are tried in whatever order. These functions do nothing when they run. Each
//! ensures a law, stated in words of `specs/Laws.antt` and `specs/Replay.antt`.
ghost use Rattle.std.specs.Prelude.{◌≡◌, ℕ, ◌<◌, ◌≤◌, ◌++◌, ◌∷◌, List, length, Contains, Err, None, Some, [], ◌↔◌};
ghost use Rattle.event_records.specs.declared.limits.TheConstants.{MAX_EVENTS};
ghost use Rattle.event_records.specs.declared.event.Event.{Event};
ghost use Rattle.history_merge.specs.declared.operation.Operation.{Operation};
ghost use Rattle.history_merge.specs.Initial.{IsCompleteFrom};
ghost use Rattle.history_merge.specs.Legal.{IsLegalOrder};
ghost use Rattle.history_merge.specs.Operations.{Precedes, operations_of};
ghost use Rattle.history_merge.specs.Queue.{accept_all};
ghost use Rattle.recorder_core.specs.declared.step.Step.TheVariants.{Close};
ghost use Rattle.recorder_core.specs.declared.step.StepRefused.TheVariants.{Closed};
ghost use Rattle.recorder_core.specs.Initial.{AreInitialNames};
ghost use Rattle.recorder_core.specs.Setting.{Setting};
ghost use Rattle.recorder_core.specs.Schedule.{Attempt, accepted, refusal, answer_to, thread_of, queue};
ghost use Rattle.recorder_core.specs.Laws.{IsPrefix, events_in, collected_in, IsDone, NeedsOpenThread};
ghost use Rattle.recorder_core.specs.Laws.{ReturnsBeforeAsk, StandsBefore, collected_lists};
ghost use Rattle.history_merge.specs.Complete.{IsCompleteHistory};
ghost use Rattle.history_merge.specs.Merge.{IsMerged};
ghost use Rattle.recorder_core.specs.Replay.{AreRecorded, Replays, IsHonest, effect_kinds, effects_order};

use event_records::{MAX_RING, MAX_THREADS, MIN_RING};

/// Proves that each thread's collected list is a prefix of its events.
pub fn collected_is_a_prefix()
    ensures { (setting : Setting) (schedule : List Attempt) (t : ℕ)
        → IsPrefix (collected_in setting schedule t) (events_in setting schedule t) }
{}

/// Proves that a done schedule collects all events of each thread.
pub fn done_collects_all()
    ensures { (setting : Setting) (schedule : List Attempt) → IsDone setting schedule
        → (t : ℕ) → t < setting.threads → collected_in setting schedule t ≡ events_in setting schedule t }
{}

/// Proves that after an accepted close, each step of that thread but a drain is refused as closed.
pub fn nothing_after_close()
    ensures { (setting : Setting) (before later : List Attempt) (close attempt : Attempt)
        → close.step ≡ Close (thread_of attempt.step) → refusal setting (accepted setting before) close ≡ None
        → NeedsOpenThread attempt.step → answer_to setting (later ++ close ∷ before) attempt ≡ Err Closed }
{}

/// Proves that one operation precedes another in the collected history if and only if its return step comes before
/// the other's ask. Also proves that of any two collected events, the one with the lower ticket is the one whose step
/// comes first.
pub fn precedence_as_ticketed()
    ensures operations { (setting : Setting) (schedule : List Attempt) (merged : List Event) (x y : Operation)
        → IsMerged (collected_lists setting schedule) merged → Contains (operations_of merged) x
        → Contains (operations_of merged) y
        → Precedes x y ↔ ReturnsBeforeAsk setting schedule x y }
    ensures events { (setting : Setting) (schedule : List Attempt) (t u : ℕ) (first second : Event)
        → Contains (collected_in setting schedule t) first → Contains (collected_in setting schedule u) second
        → (first.ticket < second.ticket) ↔ StandsBefore setting schedule first second }
{}

/// Proves that the sequential specification accepts the effects in order, from the initial values on, and ends with
/// the schedule's queue.
pub fn effects_are_accepted()
    ensures { (setting : Setting) (schedule : List Attempt)
        → accept_all setting.initial (effect_kinds setting (accepted setting schedule))
        ≡ Some (queue setting (accepted setting schedule)) }
{}

/// Proves that recorded lists replay: for every capacity of the rings, and any initial values of the queue, there is
/// a schedule without effects that is done and collects them, and each of whose steps is accepted.
pub fn recorded_lists_replay()
    ensures { (lists : List (List Event)) (ring : ℕ) (initial : List ℕ)
        → AreRecorded lists → MIN_RING ≤ ring → ring ≤ MAX_RING → Replays ring initial lists }
{}

/// Proves that recorded lists merge to a complete history, of no more events than a history may have, and that no
/// call enqueues an initial value.
pub fn recorded_lists_are_complete()
    ensures complete { (lists : List (List Event)) (merged : List Event)
        → AreRecorded lists → IsMerged lists merged → IsCompleteHistory merged }
    ensures from_initial { (lists : List (List Event)) (merged : List Event) (initial : List ℕ)
        → AreRecorded lists → IsMerged lists merged → AreInitialNames initial → IsCompleteFrom initial merged }
    ensures few { (lists : List (List Event)) (merged : List Event)
        → AreRecorded lists → IsMerged lists merged → length merged ≤ MAX_EVENTS }
{}

/// Proves that the lists which a done schedule collects merge to a complete history, of no more events than a history
/// may have.
pub fn done_schedules_are_complete()
    ensures complete { (setting : Setting) (schedule : List Attempt) (merged : List Event)
        → setting.threads ≤ MAX_THREADS → IsDone setting schedule → IsMerged (collected_lists setting schedule) merged
        → IsCompleteHistory merged }
    ensures from_initial { (setting : Setting) (schedule : List Attempt) (merged : List Event)
        → setting.threads ≤ MAX_THREADS → AreInitialNames setting.initial → IsDone setting schedule
        → IsMerged (collected_lists setting schedule) merged → IsCompleteFrom setting.initial merged }
    ensures few { (setting : Setting) (schedule : List Attempt) (merged : List Event)
        → setting.threads ≤ MAX_THREADS → IsDone setting schedule → IsMerged (collected_lists setting schedule) merged
        → length merged ≤ MAX_EVENTS }
{}

/// Proves that for an honest schedule that is done, the order of the effects is a linearization of the collected
/// history from the initial values. So this history is linearizable.
pub fn honest_schedules_are_legal()
    ensures { (setting : Setting) (schedule : List Attempt) (merged : List Event)
        → setting.threads ≤ MAX_THREADS → IsHonest setting schedule → IsDone setting schedule
        → IsMerged (collected_lists setting schedule) merged
        → IsLegalOrder setting.initial (operations_of merged) (effects_order setting (accepted setting schedule)) }
{}
