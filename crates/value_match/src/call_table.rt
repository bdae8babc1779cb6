ghost use Rattle.std.specs.Prelude.{◌≡◌, ◌≤◌, IfSome, Some, length};
ghost use Rattle.history_merge.specs.declared.operation.Operation.{Operation};
ghost use Rattle.history_merge.specs.Operations.{IsAt, enqueued_value};

use crate::matching::MAX_MATCHED;
use crate::others::is_called_at;
use event_records::NAMES_OF_A_THREAD;
use history_merge::{OpKind, PackedOperation};
use std::alloc::{AllocError, Global};

/// The number of operations noted ahead of the one that is matched, since a dequeue may be called before the enqueue
/// of its value.
const AHEAD: usize = 1024;

/// The maximum number of slots, unless there are many initial values.
const MOST_SLOTS: usize = 1 << 17;

/// The maximum number of slots for each initial value. Between the calls of a value's enqueue and its dequeue, about
/// as many others are called as the queue holds initial values.
const SLOTS_OF_AN_INITIAL_VALUE: usize = 4;

/// The distance between the slots of values with the same lower half and consecutive upper halves. It is the golden
/// section of 2^19 slots, the most that 100,000 initial values ask for, so that the values of few threads lie apart.
const APART: u64 = 324_028;

/// The places of the latest successful enqueues, each in the slot of its value. A recorder puts the thread into the
/// upper half of a value's bits and counts in the lower half, so values that are enqueued at about the same time have
/// slots of their own.
///
/// No verdict depends on this table: it finds only some enqueues, but fast, and callers look for the others elsewhere.
/// They call [`CallTable::note_next`] for each operation in turn, and [`CallTable::find`] for a dequeue's value.
#[derive(Drop)]
pub struct CallTable {
    /// One plus the place of the latest enqueue in each slot, or 0. The last slot belongs to no value.
    above: Vec<u32>,
    /// The mask that takes a value's slot from its bits.
    mask: usize,
    noted: u32,
}

impl CallTable {
    /// Makes the table of these operations, of which the first 1,024 are noted. `initial_count` is the number of
    /// initial values, and decides the capacity alone.
    ///
    /// Takes up to a word for each operation, but at most half a MiB, or four words for each initial value if that is
    /// more.
    pub fn new(
        alloc: Global,
        operations: &[PackedOperation],
        initial_count: usize,
    ) -> Result<CallTable, AllocError>
        requires { length operations.now ≤ MAX_MATCHED }
    {
        let most = initial_count
            .saturating_mul(SLOTS_OF_AN_INITIAL_VALUE)
            .max(MOST_SLOTS);
        let slots = operations.len().min(most).next_power_of_two();
        let mut calls = CallTable {
            above: vec![in alloc; 0; slots + 1]?,
            mask: slots.wrapping_sub(1),
            noted: 0,
        };
        for _ in 0..AHEAD {
            calls.note_next(operations);
        }
        Ok(calls)
    }

    /// Notes the next operation, if there is one.
    #[inline(always)]
    pub fn note_next(&mut self, operations: &[PackedOperation]) {
        let Some(operation) = operations.get(self.noted as usize) else {
            return;
        };
        self.noted = self.noted.wrapping_add(1);
        // Any other operation is written too, into the slot that belongs to no value: this needs no branch.
        let is_call = matches!(operation.unpack().kind, OpKind::Enqueue(_));
        let slot = self.slot_of(operation.value());
        let slot = if is_call {
            slot
        } else {
            self.mask.wrapping_add(1)
        };
        if let Some(above) = self.above.get_mut(slot) {
            *above = self.noted;
        }
    }

    /// Returns the place of the call to enqueue this value, if it is the latest in its slot. This looks at the
    /// operation there.
    #[inline(always)]
    pub fn find(&self, operations: &[PackedOperation], value: u64) -> Option<usize>
        ensures { IfSome result (λ place. (o : Operation) × IsAt operations.now place o
            × (enqueued_value o.kind ≡ Some value)) }
    {
        let above = self.above.get(self.slot_of(value))?;
        let place = (*above as usize).checked_sub(1)?;
        is_called_at(operations, value, place).then_some(place)
    }

    /// Returns the slot of a value.
    #[inline(always)]
    fn slot_of(&self, value: u64) -> usize {
        let upper = value / NAMES_OF_A_THREAD;
        value.wrapping_add(upper.wrapping_mul(APART)) as usize & self.mask
    }
}
