//! The values known so far: the initial ones and those that were called to be enqueued.
ghost use Rattle.std.specs.Prelude.{◌≡◌, ◌++◌, ◌∷◌, [], ℕ, List, ◌||◌, ◌&&◌, ◌+◌, ◌<◌};
ghost use Rattle.std.specs.Prelude.{false, nat_eq, slice_index_or, IfErr, IfOk, OnOk};
ghost use Rattle.event_records.specs.declared.limits.TheConstants.{MAX_THREADS};
ghost use Rattle.history_merge.specs.declared.called.TheConstants.{LOOSE};
ghost use Rattle.std.specs.List.{cons_option};
ghost use Rattle.std.specs.Ordering.{nat_cmp};
ghost use Rattle.std.specs.Option.{option_map_or};
ghost use Rattle.std.specs.BTreeSet.{contains};
ghost use Rattle.history_merge.specs.Complete.{AreDistinct, called_value};
ghost use Rattle.history_merge.specs.Gathering.{HasRefusedInitial, Knows, is_among, name_in};
ghost use Rattle.history_merge.specs.Inner.Forming.{AreCalledIn, is_called_in};

use crate::fault::HistoryFault;
use crate::packed::PackedOperation;
use crate::timeline::Timeline;
use event_records::{MAX_THREADS, NAMES_OF_A_THREAD, What};
use std::alloc::{AllocError, Global};
use std::collections::BTreeSet;

/// The values known so far: the initial ones and those that were called to be enqueued.
///
/// A recorder puts the thread into the upper half of a value's bits, and the values of one thread rise. Initial
/// values may rise too, with upper halves above all threads. As long as the values of a thread rise, one number shows
/// that the next one is new. One more number does so for all values that name no thread. Once a value doesn't rise, a
/// set holds the values of its name.
#[derive(Drop)]
pub(crate) struct CalledValues {
    // The least value that may come next, for each thread and for all values that name no thread; `LOOSE` if a set
    // holds them.
    least: [u64; MAX_THREADS + 1],
    loose: BTreeSet<u64>,
}

/// The mark of a name whose values a set holds. It is above each least next value of names whose values rise.
const LOOSE: u64 = u64::MAX;

impl CalledValues {
    pub(crate) fn new(alloc: Global) -> CalledValues
        ensures { Knows [] result }
    {
        CalledValues {
            least: [0; MAX_THREADS + 1],
            loose: BTreeSet::new(alloc),
        }
    }

    /// Notes the initial values. Returns the fault of the first that equals an earlier one.
    pub(crate) fn note_initial(&mut self, timeline: &Timeline) -> Result<(), HistoryFault>
        requires new { Knows [] self.old }
        ensures noted { IfOk result (λ _. Knows timeline.now.initial self.new × AreDistinct timeline.now.initial) }
        ensures refused { IfErr result (HasRefusedInitial timeline.now.initial) }
    {
        let operations = timeline.all();
        for (place, value) in timeline.initial().iter().enumerate() {
            if self.note_value(*value, &operations[..place])? {
                return Err(HistoryFault::InitialTwice(place));
            }
        }
        Ok(())
    }

    /// Returns whether the event calls to enqueue a value that was noted before, and notes the value. `operations`
    /// called to enqueue all values noted so far.
    #[inline(always)]
    pub(crate) fn note(
        &mut self,
        what: What,
        operations: &[PackedOperation],
    ) -> Result<bool, AllocError>
        ensures { (values : List ℕ) → Knows values self.old → AreCalledIn operations.now values
            → IfOk result (λ repeats. (repeats ≡ option_map_or (is_among values) (called_value what) false)
            × Knows (values ++ cons_option (called_value what) []) self.new) }
    {
        match called_value(what) {
            Some(value) => self.note_value(value, operations),
            None => Ok(false),
        }
    }

    #[inline(always)]
    fn note_value(&mut self, value: u64, operations: &[PackedOperation]) -> Result<bool, AllocError>
        ensures { (values : List ℕ) → Knows values self.old → AreCalledIn operations.now values
            → IfOk result (λ repeats. (repeats ≡ is_among values value) × Knows (values ++ value ∷ []) self.new) }
    {
        let name = name_in(value);
        if self.least[name] <= value && value < LOOSE - 1 {
            self.least[name] = value + 1;
            return Ok(false);
        }
        self.note_loose(value, operations)
    }

    /// Slow path of `note_value`: notes a value that doesn't rise, or comes after one of the same name that didn't.
    #[inline(never)]
    fn note_loose(&mut self, value: u64, operations: &[PackedOperation]) -> Result<bool, AllocError>
        ensures { (values : List ℕ) → Knows values self.old → AreCalledIn operations.now values
            → IfOk result (λ repeats. (repeats ≡ is_among values value) × Knows (values ++ value ∷ []) self.new) }
    {
        self.loosen(name_in(value), operations)?;
        Ok(!self.loose.insert(value)?)
    }

    /// Moves the values of this name into the set.
    fn loosen(&mut self, name: usize, operations: &[PackedOperation]) -> Result<(), AllocError>
        requires { name < MAX_THREADS + 1 }
        ensures { (values : List ℕ) → Knows values self.old → AreCalledIn operations.now values
            → OnOk result (Knows values self.new × (slice_index_or self.new.least name 0 ≡ LOOSE)) }
    {
        if self.least[name] == LOOSE {
            return Ok(());
        }
        add_named(&mut self.loose, name, operations)?;
        self.least[name] = LOOSE;
        Ok(())
    }
}

/// Returns the upper half of a value's bits, or the first number that names no thread if that is less.
fn name_in(value: u64) -> usize
    ensures { result ≡ name_in value }
{
    (value / NAMES_OF_A_THREAD).min(MAX_THREADS as u64) as usize
}

/// Returns the value that a call enqueues.
pub(crate) fn called_value(what: What) -> Option<u64>
    ensures { result ≡ called_value what }
{
    match what {
        What::CallEnq(value) => Some(value),
        _ => None,
    }
}

/// Adds the values of this name that the operations called to enqueue.
fn add_named(
    values: &mut BTreeSet<u64>,
    name: usize,
    operations: &[PackedOperation],
) -> Result<(), AllocError>
    ensures { OnOk result ((v : ℕ) → contains nat_cmp values.new v
        ≡ (contains nat_cmp values.old v || (nat_eq (name_in v) name && is_called_in operations.now v))) }
{
    for operation in operations {
        if let Some(value) = operation.unpack().kind.enqueued_value()
            && name_in(value) == name
        {
            values.insert(value)?;
        }
    }
    Ok(())
}
