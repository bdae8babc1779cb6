//! The operations of a history on the scale of times.
ghost use Rattle.std.specs.Prelude.{◌≡◌, ◌≤◌, ◌+◌, ◌-◌, ◌<◌, ◌++◌, ◌∷◌, [], IfOk, OnErr};
ghost use Rattle.std.specs.Prelude.{OnOk, Some, length, map, slice_get, slice_set, vec_len};
ghost use Rattle.event_records.specs.declared.limits.TheConstants.{MAX_INITIAL, MAX_TICKET, ORIGIN};
ghost use Rattle.history_merge.specs.declared.operation.Operation.{Operation};
ghost use Rattle.history_merge.specs.Initial.{enqueue_at, later_by};
ghost use Rattle.history_merge.specs.Inner.Timeline.{timeline};

use crate::operation::{OpKind, Operation};
use crate::operations::{Operations, earlier};
use crate::packed::PackedOperation;
use event_records::{MAX_INITIAL, MAX_TICKET, ORIGIN};
use std::alloc::{AllocError, Global};
use std::marker::Model;

/// The initial values of a queue and the operations on it, which are added and changed by their tickets.
///
/// The enqueues of the initial values come first, one time after another, the last just before the time of ticket 0.
/// Then come the operations, each at the times of its tickets.
#[derive(Debug, Drop)]
pub(crate) struct Timeline {
    initial: Vec<u64>,
    all: Vec<PackedOperation>,
}

impl Model for Timeline {
    ghost use Rattle.std.specs.Prelude.{length};
    ghost use Rattle.history_merge.specs.Initial.{Contents};
    ghost use Rattle.history_merge.specs.Inner.Timeline.{IsTimeline, operations_on};

    ghost Value = { Contents };

    ghost view = { λ t. record {
      initial = t.initial.items;
      operations = operations_on (length t.initial.items) t.all.items;
    } };

    ghost invariant = { λ t. IsTimeline t.initial.items t.all.items };
}

impl Timeline {
    /// Begins with the enqueues of these values.
    pub(crate) fn new(alloc: Global, initial: Vec<u64>) -> Result<Timeline, AllocError>
        requires few { vec_len initial ≤ MAX_INITIAL }
        ensures { IfOk result (λ t. (t.initial ≡ initial.items) × (t.operations ≡ [])) }
    {
        Timeline::with_capacity(alloc, initial, 0)
    }

    /// Begins with the enqueues of these values, and with room for operations.
    pub(crate) fn with_capacity(
        alloc: Global,
        initial: Vec<u64>,
        operations: usize,
    ) -> Result<Timeline, AllocError>
        requires few { vec_len initial ≤ MAX_INITIAL }
        ensures { IfOk result (λ t. (t.initial ≡ initial.items) × (t.operations ≡ [])) }
    {
        let mut all = Vec::with_capacity(alloc, initial.len().saturating_add(operations))?;
        let start = ORIGIN - initial.len() as u64;
        for (place, value) in initial.iter().enumerate() {
            all.push(enqueue_at(start + place as u64, *value))?;
        }
        Ok(Timeline { initial, all })
    }

    /// Returns a timeline of no values and no operations.
    pub(crate) fn none(alloc: Global) -> Timeline
        ensures initial { result.initial ≡ [] }
        ensures operations { result.operations ≡ [] }
    {
        Timeline {
            initial: Vec::new(alloc),
            all: Vec::new(alloc),
        }
    }

    /// Returns the initial values.
    pub(crate) fn initial(&self) -> &[u64]
        ensures initial { result.now ≡ self.now.initial }
        ensures few { length self.now.initial ≤ MAX_INITIAL }
    {
        self.initial.as_slice()
    }

    /// Returns the enqueues of the initial values, and then the operations at the times of their tickets.
    pub(crate) fn all(&self) -> &[PackedOperation]
        ensures timeline { result.now ≡ timeline self.now.initial self.now.operations }
        ensures few { length self.now.initial ≤ MAX_INITIAL }
    {
        self.all.as_slice()
    }

    /// Returns the operations by their tickets.
    #[tactic(auto, using(crate::proofs::Timelines::all_late, crate::proofs::Timelines::all_back))]
    pub(crate) fn operations(&self) -> Operations<'_>
        ensures { result ≡ self.now.operations }
    {
        Operations::new(self.behind())
    }

    /// Returns the number of operations.
    #[inline(always)]
    pub(crate) fn len(&self) -> usize
        ensures { result ≡ length self.now.operations }
    {
        self.behind().len()
    }

    /// Returns the operations at the times of their tickets.
    #[tactic(auto, using(crate::proofs::Timelines::length_timeline, crate::proofs::Timelines::behind_enqueues))]
    #[inline(always)]
    fn behind(&self) -> &[PackedOperation]
        ensures { result.now ≡ map (later_by ORIGIN) self.now.operations }
    {
        let (_, operations) = self.all.as_slice().split_at(self.initial.len());
        operations
    }

    /// Returns the operation at this place.
    #[tactic(auto, using(crate::proofs::Timelines::later_at, crate::proofs::Timelines::there_and_back))]
    #[inline(always)]
    pub(crate) fn get(&self, place: usize) -> Option<Operation>
        ensures { result ≡ slice_get self.now.operations place }
    {
        let later = operation_at(self.behind(), place)?;
        Some(earlier(later))
    }

    /// Completes the operation at this place with its return and its kind.
    #[inline(always)]
    pub(crate) fn complete(&mut self, place: usize, ret: u64, kind: OpKind)
        requires place { place < length self.old.operations }
        requires ret { ret ≤ MAX_TICKET }
        ensures initial { self.new.initial ≡ self.old.initial }
        ensures operations { (o : Operation) → slice_get self.old.operations place ≡ Some o
            → self.new.operations ≡ slice_set self.old.operations place (record o { ret = ret; kind = kind }) }
    {
        let place = self.initial.len() + place;
        let pending = self.all[place].unpack();
        self.all[place] = PackedOperation::new(Operation {
            ret: ret + ORIGIN,
            kind,
            ..pending
        });
    }

    /// Adds an operation.
    #[tactic(auto, using(crate::proofs::Timelines::pushes))]
    #[inline(always)]
    pub(crate) fn push(&mut self, operation: Operation) -> Result<(), AllocError>
        requires call { operation.call ≤ MAX_TICKET }
        requires ret { operation.ret ≤ MAX_TICKET }
        ensures initial { self.new.initial ≡ self.old.initial }
        ensures added { OnOk result (self.new.operations ≡ self.old.operations ++ operation ∷ []) }
        ensures kept { OnErr result (self.new.operations ≡ self.old.operations) }
    {
        push(&mut self.all, PackedOperation::new(operation.timed()))
    }
}

/// Adds an operation. This is no more than a store, unless the list has to grow.
#[inline(always)]
fn push(operations: &mut Vec<PackedOperation>, operation: PackedOperation) -> Result<(), AllocError>
    ensures added { OnOk result (operations.new.items ≡ operations.old.items ++ operation ∷ []) }
    ensures kept { OnErr result (operations.new.items ≡ operations.old.items) }
{
    if operations.len() == operations.capacity() {
        operations.reserve(1)?;
    }
    operations.push_reserved(operation);
    Ok(())
}

/// Returns the operation at `place`, if there is one.
#[inline(always)]
fn operation_at(operations: &[PackedOperation], place: usize) -> Option<Operation>
    ensures { result ≡ slice_get operations.now place }
{
    match operations.get(place) {
        Some(operation) => Some(operation.unpack()),
        None => None,
    }
}

/// Returns an enqueue of the value that is called and returns at this time.
fn enqueue_at(time: u64, value: u64) -> PackedOperation
    requires { time ≤ ORIGIN }
    ensures { result ≡ enqueue_at time value }
{
    PackedOperation::new(Operation {
        call: time,
        ret: time,
        thread: 0,
        kind: OpKind::Enqueue(value),
    })
}
